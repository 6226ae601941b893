//! A plan, from its files to its end.
ghost use Rattle.std.specs.Prelude.{◌≡◌, ◌≤◌, ℕ, IfOk, IfSome, MatchResult, string_bytes};
ghost use Rattle.board_table.specs.declared.board.Board.{Board};
ghost use Rattle.flow_graph.specs.declared.graph.Graph.{Graph};
ghost use Rattle.job_files.specs.Answers.{answer_of};
ghost use Rattle.job_files.specs.Reads.{CountsReading};
ghost use Rattle.job_files.specs.Stores.{IsUnwritten, seen_of};
ghost use Rattle.plan_report.specs.Planned.{IsReportOf};
ghost use Rattle.plan_job.specs.Plan.{plan_files};
ghost use Rattle.plan_job.specs.Planning.{PlanCauses, RefusesPlan};
ghost use Rattle.plan_job.specs.Ends.{IsPlanOfFiles, IsSomeReport, PlanEnds};
ghost use Rattle.plan_job.specs.InCode.{plan_named};

use crate::job::PlanJob;
use crate::report::report_of_texts;
use base_io::{Memory, Store};
use job_files::{Ending, MOST_BOARD, MOST_PROGRAM, Status, read_two, told};
use std::alloc::Global;

// Reads the files and makes the report.
fn report_of_files<S: Store>(alloc: Global, job: &PlanJob, store: &mut S) -> Result<String, Status>
    ensures files { S.files store.new ≡ S.files store.old }
    ensures writes { S.write_faults store.new ≡ S.write_faults store.old }
    ensures later { S.read_faults store.old ≤ S.read_faults store.new }
    ensures told { IfSome (S.files store.old) (λ files. MatchResult result
        (λ text. IsPlanOfFiles (plan_named job.now) files (string_bytes text))
        (λ status. PlanCauses (plan_named job.now) files (answer_of status))) }
    ensures report { IfOk result (λ text. IsSomeReport (string_bytes text)) }
    ensures counts { MatchResult result
        (λ text. S.read_faults store.new ≡ S.read_faults store.old)
        (λ status. CountsReading (plan_files (plan_named job.now)) (RefusesPlan (plan_named job.now)) (S.read_faults store.old) (S.read_faults store.new) (S.bad_name store.new) (answer_of status)) }
{
    match read_two(
        alloc,
        job.program,
        MOST_PROGRAM,
        job.board,
        MOST_BOARD,
        store,
    ) {
        Ok(texts) => report_of_texts(alloc, &texts.first, &texts.second, job.budget),
        Err(status) => Err(status),
    }
}

/// Plans the checkpoints of a program for a board, and tells the plan. It writes nothing.
pub fn plan<S: Store>(alloc: Global, job: &PlanJob, store: &mut S) -> Result<Ending, Memory>
    ensures { MatchResult result
        (λ e. PlanEnds (plan_named job.now)
        (seen_of S.files S.read_faults S.write_faults S.bad_name store.old)
        (seen_of S.files S.read_faults S.write_faults S.bad_name store.new)
        (answer_of e.status) (string_bytes e.line))
        (λ _. IsUnwritten
        (seen_of S.files S.read_faults S.write_faults S.bad_name store.old)
        (seen_of S.files S.read_faults S.write_faults S.bad_name store.new)) }
{
    match report_of_files(alloc, job, store) {
        Ok(line) => Ok(Ending {
            status: Status::Done,
            line,
        }),
        Err(status) => told(alloc, status),
    }
}
