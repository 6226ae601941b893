//! The report of the program of a text on the board of another.
ghost use Rattle.std.specs.Prelude.{◌≡◌, ◌<◌, ◌≤◌, ◌^◌, length, IfSome, MatchResult, string_bytes};
ghost use Rattle.flow_graph.specs.Rules.{IsGraph};
ghost use Rattle.job_files.specs.Answers.{IsRefusedFor, answer_of};
ghost use Rattle.job_files.specs.Reads.{most_program};
ghost use Rattle.plan_job.specs.Graphs.{IsPlanned, RefusesGraph};
ghost use Rattle.plan_job.specs.InCode.{answer_of_plan};
ghost use Rattle.plan_job.specs.Planning.{RefusesPlanTexts};
ghost use Rattle.plan_job.specs.Ends.{IsPlanOfTexts};

use crate::room::room_for;
use board_table::Board;
use checkpoint_graph::PlanFault;
use flow_graph::Graph;
use job_files::{Refusal, Status, board_with};
use plan_report::planned_report;
use program_files::graph_in;
use std::alloc::Global;

// What stands in the way of a plan.
fn refused(fault: PlanFault) -> Status
    ensures { answer_of result ≡ answer_of_plan fault }
{
    match fault {
        PlanFault::BudgetTooSmall {
            op,
            place,
            need,
            budget,
        } => Status::Refused(Refusal::BudgetTooSmall {
            op,
            place,
            need,
            budget,
        }),
        PlanFault::Memory => Status::Memory,
    }
}

// The report of a graph on a board, or the status that refuses it: data and calls are looked at first, and then each operation.
fn report_of(alloc: Global, g: &Graph, b: &Board) -> Result<String, Status>
    requires rules { IsGraph g.now }
    requires functions { length g.now.functions < 2 ^ 32 }
    requires objects { length g.now.objects < 2 ^ 32 }
    ensures { MatchResult result
        (λ text. IsPlanned b.now g.now (string_bytes text))
        (λ s. IsRefusedFor (RefusesGraph b.now g.now) (answer_of s)) }
{
    match room_for(alloc, g) {
        Ok(()) => match planned_report(alloc, g, b) {
            Ok(text) => Ok(text),
            Err(fault) => Err(refused(fault)),
        },
        Err(status) => Err(status),
    }
}

/// What a program and a board come to, with this budget in place of the board's, if one is given.
pub fn report_of_texts(
    alloc: Global,
    program: &[u8],
    board: &[u8],
    budget: Option<u64>,
) -> Result<String, Status>
    requires range { IfSome budget (λ n. (1 ≤ n) × (n ≤ 1000000000)) }
    requires short { length program.now ≤ most_program }
    ensures { MatchResult result
        (λ text. IsPlanOfTexts budget program.now board.now (string_bytes text))
        (λ s. IsRefusedFor (RefusesPlanTexts budget program.now board.now) (answer_of s)) }
{
    let graph = graph_in(alloc, program)?;
    let board = board_with(alloc, board, budget)?;
    report_of(alloc, &graph, &board)
}
