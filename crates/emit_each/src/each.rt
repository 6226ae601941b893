//! Emits.

ghost use Rattle.std.specs.Prelude.{◌≡◌, ◌≤◌, ◌<◌, ◌*◌, [], ◌∷◌, ℕ, Bool, IfErr, IfOk, sum_by};
ghost use Rattle.ti_txt.specs.Bytes.{blocks_of};
ghost use Rattle.flow_graph.specs.Nodes.{graph_nodes};
ghost use Rattle.flow_graph.specs.Rules.{IsGraph};
ghost use Rattle.graph_code.specs.Order.{IsAlone};
ghost use Rattle.emit_each.specs.Emitting.{AgreesWithEach, EnduresWithEach, HasNoRoom, IsEmitted, IsHeld, IsLaid, IsRefused, WorksWithEach};
ghost use Rattle.emit_each.specs.Parts.{head_in};

use crate::budget::{first_misfit, too_small};
use crate::data::{data_bytes, places_of};
use crate::fault::{EmitFault, Room};
use crate::heads::{heads_of, is_one_stretch};
use crate::image::image_of;
use crate::places::starts_of;
use base_io::Memory;
use board_table::Board;
use flow_graph::{Func, Graph, Node, body_nodes};
use std::alloc::Global;
use ti_txt::Image;

const MOST_DATA: u32 = 15104;

const MOST_WORDS: u32 = 0x3FC0;

const MOST_CODE: u32 = 2 * MOST_WORDS;

/// The image of a graph of one function: with a head before each operation, or before the first alone where the function has neither a branch
/// nor a loop nor a leave and one charge pays for all. All objects stand in FRAM, from 0x4400 on, and each jump goes to a head.
///
/// Whatever program the graph carries, every run of the image over refills that each reach the budget shows what the program does and no
/// more, is never cut, and does at least one operation in each charge that another refill follows: behind each operation that is counted the
/// machine stands at the one that the graph executes next, at each refill it is to be resumed there, and FRAM holds the words of the graph's
/// objects. Under any refills it does no work behind a cut inside a stretch and never stops by a fault; and some device can be loaded with it.
#[tactic(auto, using(crate::proofs::Keeping::kept_agrees, crate::proofs::Keeping::kept_works, crate::proofs::Keeping::kept_endures, crate::proofs::Keeping::kept_held))]
pub fn emit_each(alloc: Global, g: &Graph, b: &Board) -> Result<Image, EmitFault>
    requires rules { IsGraph g.now }
    requires alone { IsAlone g.now }
    ensures emitted { IfOk result (λ image. IsEmitted b.now g.now (blocks_of image)) }
    ensures agrees { IfOk result (λ image. AgreesWithEach b.now g.now (blocks_of image)) }
    ensures works { IfOk result (λ image. WorksWithEach b.now g.now (blocks_of image)) }
    ensures endures { IfOk result (λ image. EnduresWithEach b.now g.now (blocks_of image)) }
    ensures held { IfOk result (λ image. IsHeld (blocks_of image)) }
    ensures refused { IfErr result (λ fault. IsRefused b.now g.now fault) }
{
    let objects = g.objects.as_slice();
    let bytes = data_bytes(objects);
    if bytes > u64::from(MOST_DATA) {
        return Err(EmitFault::DataTooLarge {
            what: Room::Data,
            need: bytes as u32,
            room: MOST_DATA,
        });
    }
    emit_fitting(alloc, g, b)
}

/// The function of a graph that has one.
fn main_of(g: &Graph) -> &Func
    requires alone { IsAlone g.now }
    ensures { g.now.functions ≡ result.now ∷ [] }
{
    &g.functions.as_slice()[0]
}

/// The image of a graph whose objects have room.
fn emit_fitting(alloc: Global, g: &Graph, b: &Board) -> Result<Image, EmitFault>
    requires rules { IsGraph g.now }
    requires alone { IsAlone g.now }
    requires room { 2 * sum_by (λ x. x.words) g.now.objects ≤ 15104 }
    ensures emitted { IfOk result (λ image. IsEmitted b.now g.now (blocks_of image)) }
    ensures refused { IfErr result (λ fault. IsRefused b.now g.now fault) }
{
    let main = main_of(g);
    let nodes = match body_nodes(alloc, main.body.as_slice()) {
        Ok(nodes) => nodes,
        Err(_) => return Err(EmitFault::Memory),
    };
    if let Some(op) = first_misfit(&nodes, b) {
        return Err(too_small(&op, b));
    }
    let heads = match heads_of(alloc, nodes.len(), is_one_stretch(main, &nodes, b)) {
        Ok(heads) => heads,
        Err(_) => return Err(EmitFault::Memory),
    };
    emit_with_heads(alloc, g, &nodes, &heads)
}

/// The image of the operations of a graph whose objects have room, with a head before these.
fn emit_with_heads(
    alloc: Global,
    g: &Graph,
    nodes: &[Node],
    heads: &[bool],
) -> Result<Image, EmitFault>
    requires rules { IsGraph g.now }
    requires room { 2 * sum_by (λ x. x.words) g.now.objects ≤ 15104 }
    requires nodes { nodes.now ≡ graph_nodes g.now }
    ensures laid { IfOk result (λ image. IsLaid (head_in heads.now) g.now (blocks_of image)) }
    ensures refused { IfErr result (λ fault. HasNoRoom (head_in heads.now) g.now fault) }
{
    let objects = g.objects.as_slice();
    let places = match places_of(alloc, objects) {
        Ok(places) => places,
        Err(_) => return Err(EmitFault::Memory),
    };
    let starts = match starts_of(alloc, nodes, &places, heads) {
        Ok(starts) => starts,
        Err(_) => return Err(EmitFault::Memory),
    };
    if starts.end > MOST_WORDS {
        return Err(EmitFault::CodeTooLarge {
            need: 2 * starts.end,
            room: MOST_CODE,
        });
    }
    match image_of(alloc, objects, nodes, &places, heads, &starts) {
        Ok(image) => Ok(image),
        Err(_) => Err(EmitFault::Memory),
    }
}
