//! The text of an image, from the texts of a program and of a board.
ghost use Rattle.std.specs.Prelude.{◌≡◌, ◌≤◌, ◌<◌, ◌*◌, ◌^◌, length, map, sum_by, IfOk, IfSome, MatchResult, string_bytes};
ghost use Rattle.flow_graph.specs.Rules.{IsGraph};
ghost use Rattle.graph_code.specs.Order.{IsAlone};
ghost use Rattle.emit_each.specs.Emitting.{IsEmitted};
ghost use Rattle.ti_txt.specs.Bytes.{blocks_of};
ghost use Rattle.ti_txt.specs.Image.{block_of};
ghost use Rattle.job_files.specs.Answers.{IsRefusedFor, answer_of};
ghost use Rattle.job_files.specs.Reads.{most_program};
ghost use Rattle.build_job.specs.Building.{RefusesBuildTexts};
ghost use Rattle.build_job.specs.Ends.{code_size};
ghost use Rattle.build_job.specs.Images.{RefusesGraph};
ghost use Rattle.build_job.specs.Parts.{IsLoneGraph, IsReadyOf, IsRefusedBy, IsSpelled};
ghost use Rattle.build_job.specs.Programs.{RefusesLone};

use base_io::Memory;
use board_table::Board;
use emit_each::{EmitFault, emit_each};
use flow_graph::{Graph, Object};
use job_files::{Refusal, Status, board_with};
use program_files::graph_in;
use std::alloc::Global;
use ti_txt::{Image, Segment, write};

/// The bytes of the image's text, and the line that tells what was built.
#[derive(Drop)]
pub struct Ready {
    pub text: Vec<u8>,
    pub line: String,
}

// The graph of the program of this text, where `main` calls no function of the program.
fn lone_graph(alloc: Global, text: &[u8]) -> Result<Graph, Status>
    requires short { length text.now ≤ most_program }
    ensures { MatchResult result (λ g. IsLoneGraph text.now g) (λ s. IsRefusedFor (RefusesLone text.now) (answer_of s)) }
{
    match graph_in(alloc, text) {
        Ok(graph) => {
            if graph.functions.len() == 1 {
                Ok(graph)
            } else {
                drop(graph);
                Err(Status::Refused(Refusal::FormNotBuilt))
            }
        }
        Err(status) => Err(status),
    }
}

// What stands in the way of an image.
fn refused(fault: EmitFault) -> Status
    ensures { IsRefusedBy fault (answer_of result) }
{
    match fault {
        EmitFault::DataTooLarge { need, room, .. } => {
            Status::Refused(Refusal::DataTooLarge { need, room })
        }
        EmitFault::BudgetTooSmall {
            op,
            place,
            need,
            budget,
        } => Status::Refused(Refusal::BudgetTooSmall {
            op,
            place,
            need,
            budget,
        }),
        EmitFault::CodeTooLarge { need, room } => {
            Status::Refused(Refusal::CodeTooLarge { need, room })
        }
        EmitFault::Memory => Status::Memory,
    }
}

// The image of a graph on a board.
fn image_of(alloc: Global, graph: &Graph, board: &Board) -> Result<Image, Status>
    requires rules { IsGraph graph.now }
    requires alone { IsAlone graph.now }
    ensures { MatchResult result
        (λ image. IsEmitted board.now graph.now (blocks_of image))
        (λ s. IsRefusedFor (RefusesGraph board.now graph.now) (answer_of s)) }
{
    match emit_each(alloc, graph, board) {
        Ok(image) => Ok(image),
        Err(fault) => Err(refused(fault)),
    }
}

/// What a program and a board come to, with this budget in place of the board's, if one is given.
pub fn ready_of(
    alloc: Global,
    program: &[u8],
    board: &[u8],
    budget: Option<u64>,
) -> Result<Ready, Status>
    requires range { IfSome budget (λ n. (1 ≤ n) × (n ≤ 1000000000)) }
    requires short { length program.now ≤ most_program }
    ensures { MatchResult result
        (λ r. IsReadyOf budget program.now board.now r.text.items (string_bytes r.line))
        (λ s. IsRefusedFor (RefusesBuildTexts budget program.now board.now) (answer_of s)) }
{
    let graph = lone_graph(alloc, program)?;
    let board = board_with(alloc, board, budget)?;
    let image = image_of(alloc, &graph, &board)?;
    match spelled(alloc, &graph, &image) {
        Ok(ready) => Ok(ready),
        Err(_) => Err(Status::Memory),
    }
}

// The text of the image of a graph.
fn spelled(alloc: Global, graph: &Graph, image: &Image) -> Result<Ready, Memory>
    requires small { sum_by (λ x. x.words) graph.now.objects < 2 ^ 31 }
    ensures { IfOk result (λ r. IsSpelled graph.now (blocks_of image.now) r.text.items (string_bytes r.line)) }
{
    let mut text = Vec::new(alloc);
    write(image, &mut text)?;
    let code = code_size(&image.segments);
    let data = data_bytes(graph.objects.as_slice());
    match format!(in alloc; "built code {code} data {data} chains 1\n") {
        Ok(line) => Ok(Ready { text, line }),
        Err(_) => Err(Memory),
    }
}

// The bytes from 0x8000 on.
fn code_size(segments: &[Segment]) -> usize
    ensures { result ≡ code_size (map block_of segments.now) }
{
    let mut rest = segments;
    while let [segment, others @ ..] = rest {
        if segment.start == 0x8000 {
            return segment.bytes.len();
        }
        rest = others;
    }
    0
}

// The bytes of these objects.
fn data_bytes(objects: &[Object]) -> u64
    requires small { sum_by (λ x. x.words) objects.now < 2 ^ 31 }
    ensures { result ≡ 2 * sum_by (λ x. x.words) objects.now }
{
    let mut words: u64 = 0;
    let mut left = objects;
    while let [object, others @ ..] = left {
        words += object.words as u64;
        left = others;
    }
    2 * words
}
