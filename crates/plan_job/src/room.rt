//! Whether the objects of a graph and its calls have room.
ghost use Rattle.std.specs.Prelude.{◌≡◌, ◌<◌, ◌*◌, ◌^◌, length, sum_by, MatchResult};
ghost use Rattle.flow_graph.specs.Rules.{IsGraph};
ghost use Rattle.job_files.specs.Answers.{IsRefusedFor, answer_of};
ghost use Rattle.plan_job.specs.Room.{HasRoom, HasRoomForCalls, LacksRoomForCalls, LacksRoom};

use call_depth::call_depth;
use flow_graph::{Graph, Object};
use job_files::{Refusal, Status};
use std::alloc::Global;

/// The bytes from 0x4400 to the call stack.
const MOST_DATA: u32 = 15_104;

/// So many calls may nest below `main`.
const MOST_CALLS: u32 = 64;

// The bytes of these objects.
fn data_bytes(objects: &[Object]) -> u32
    requires small { sum_by (λ x. x.words) objects.now < 2 ^ 31 }
    ensures { result ≡ 2 * sum_by (λ x. x.words) objects.now }
{
    let mut words: u32 = 0;
    let mut left = objects;
    while let [object, others @ ..] = left {
        words += object.words as u32;
        left = others;
    }
    2 * words
}

// Whether the calls of a graph have room; if not, the status that refuses it.
fn depth_fits(alloc: Global, g: &Graph) -> Result<(), Status>
    requires rules { IsGraph g.now }
    requires functions { length g.now.functions < 2 ^ 32 }
    ensures { MatchResult result (λ _. HasRoomForCalls g.now) (λ s. IsRefusedFor (LacksRoomForCalls g.now) (answer_of s)) }
{
    match call_depth(alloc, g) {
        Ok(need) => {
            if need > MOST_CALLS {
                return Err(Status::Refused(Refusal::CallsTooDeep {
                    need,
                    room: MOST_CALLS,
                }));
            }
            Ok(())
        }
        Err(_) => Err(Status::Memory),
    }
}

/// Whether a graph's data and calls have room; if not, the status that refuses it. The data is looked at first.
pub fn room_for(alloc: Global, g: &Graph) -> Result<(), Status>
    requires rules { IsGraph g.now }
    requires functions { length g.now.functions < 2 ^ 32 }
    ensures { MatchResult result (λ _. HasRoom g.now) (λ s. IsRefusedFor (LacksRoom g.now) (answer_of s)) }
{
    let need = data_bytes(g.objects.as_slice());
    if need > MOST_DATA {
        return Err(Status::Refused(Refusal::DataTooLarge {
            need,
            room: MOST_DATA,
        }));
    }
    depth_fits(alloc, g)
}
