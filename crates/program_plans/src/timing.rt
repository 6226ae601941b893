//! The times that the parts of planning take.

ghost use Rattle.std.specs.Prelude.{◌≤◌, length};
ghost use Rattle.flow_graph.specs.Rules.{IsGraph};

use crate::graph::graph_of;
use board_table::Board;
use call_summary::summaries;
use checkpoint_graph::plan;
use flow_graph::Graph;
use live_objects::live;
use std::alloc::Global;
use std::io;
use std::time::{Clock, Instant};

/// Prints the microseconds that liveness, summaries and plan of a graph take.
fn print_planning(rt: &(impl Print + Clock), alloc: Global, b: &Board, g: &Graph) -> io::Result<()>
    requires { IsGraph g.now }
{
    if g.functions.len() > 256 || g.objects.len() > 65536 {
        return println!(rt; "too large");
    }
    let start = Instant::now(rt)?;
    let Ok(live) = live(alloc, g) else {
        return println!(rt; "no memory");
    };
    let lived = start.elapsed(rt)?;
    let Ok(summaries) = summaries(alloc, g, b) else {
        return println!(rt; "no memory");
    };
    let summed = start.elapsed(rt)?;
    let placing = plan(alloc, g, &live, summaries.as_slice(), b);
    let planned = start.elapsed(rt)?;
    let chains = placing.map_or(0, |placing| placing.chains.len());
    let operations = live.operations.len();
    let objects = g.objects.len();
    let live_us = lived.as_micros();
    let summaries_us = summed.as_micros().saturating_sub(live_us);
    let plan_us = planned.as_micros().saturating_sub(summed.as_micros());
    println!(rt;
        "operations {operations} objects {objects} chains {chains} liveness {live_us} summaries {summaries_us} plan {plan_us}"
    )
}

/// Prints the microseconds that a program takes to its graph and from there to its plan.
pub fn print_times(
    rt: &(impl Print + Clock),
    alloc: Global,
    b: &Board,
    text: &[u8],
) -> io::Result<()>
    requires { length text.now ≤ 65536 }
{
    let start = Instant::now(rt)?;
    let Some(g) = graph_of(alloc, text) else {
        return println!(rt; "no graph");
    };
    let graph_us = start.elapsed(rt)?.as_micros();
    print!(rt; "graph {graph_us} ")?;
    print_planning(rt, alloc, b, &g)
}
