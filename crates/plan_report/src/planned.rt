//! A graph that is planned, and what is told of it.

ghost use Rattle.std.specs.Prelude.{◌<◌, ◌^◌, IfOk, MatchResult, length, string_bytes};
ghost use Rattle.flow_graph.specs.Owned.{operations};
ghost use Rattle.flow_graph.specs.Rules.{IsGraph};
ghost use Rattle.live_objects.specs.Rows.{IsLivenessOf};
ghost use Rattle.checkpoint_graph.specs.Placings.{AllFit, AreSummariesOf, IsFaultOf};
ghost use Rattle.plan_report.specs.Planned.{IsReportOf};

use crate::functions::report;
use base_io::Memory;
use board_table::Board;
use call_summary::{Summary, summaries};
use checkpoint_graph::{PlanFault, plan};
use flow_graph::Graph;
use live_objects::{Liveness, live};
use std::alloc::Global;

/// What is known of a graph on a board before it is planned.
#[derive(Drop)]
struct Found {
    live: Liveness,
    summaries: Vec<Summary>,
}

fn find(alloc: Global, g: &Graph, b: &Board) -> Result<Found, Memory>
    requires rules { IsGraph g.now }
    requires functions { length g.now.functions < 2 ^ 32 }
    requires objects { length g.now.objects < 2 ^ 32 }
    ensures live { IfOk result (λ f. IsLivenessOf f.live g.now) }
    ensures summaries { IfOk result (λ f. AreSummariesOf g.now b.now f.summaries.items) }
{
    let live = live(alloc, g)?;
    let summaries = summaries(alloc, g, b)?;
    Ok(Found { live, summaries })
}

/// The report of a graph on a board: its functions, flat or split, and its chains, each with a plan of least cost or with its
/// greatest number of turns between two checkpoints. There is none where an operation doesn't fit one charge, and the first of these by
/// number is told.
pub fn planned_report(alloc: Global, g: &Graph, b: &Board) -> Result<String, PlanFault>
    requires rules { IsGraph g.now }
    requires functions { length g.now.functions < 2 ^ 32 }
    requires objects { length g.now.objects < 2 ^ 32 }
    ensures told { IfOk result (λ text. IsReportOf g.now b.now (string_bytes text)) }
    ensures fits { MatchResult result (λ text. AllFit b.now (operations g.now)) (λ fault. IsFaultOf b.now (operations g.now) fault) }
{
    let Ok(found) = find(alloc, g, b) else {
        return Err(PlanFault::Memory);
    };
    let placing = plan(alloc, g, &found.live, found.summaries.as_slice(), b)?;
    match report(
        alloc,
        g,
        found.summaries.as_slice(),
        placing.chains.as_slice(),
    ) {
        Ok(text) => Ok(text),
        Err(Memory) => Err(PlanFault::Memory),
    }
}
