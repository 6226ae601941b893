//! Prints the plans of C programs on standard input, each as a report: of each function that is reached, `main` first and the others in
//! the order of the text, whether it is flat, with what a call of it costs, or split, with its chains; of a chain its items, the sites
//! between its stretches and its cost; of a conditional loop its turns between two checkpoints and what these cost.
//!
//! | Line | What it says |
//! |---|---|
//! | `board` | a board file begins |
//! | `program` | a program begins, on the board that was read last: its plan is printed |
//! | `picture` | a program begins, on the board that was read last: each stretch of its plan is printed with its items, costs and homes |
//! | `times` | a program begins, on the board that was read last: its operations are counted, and the microseconds printed that its graph, liveness, summaries and plan take |
//!
//! Any other line is a line of the board file or of the program.
#![tactic(auto)]

ghost use Rattle.std.specs.Prelude.{◌≤◌, length};
ghost use Rattle.flow_graph.specs.Rules.{IsGraph};

mod graph;
mod picture;
mod report;
mod texts;
mod timing;

use board_table::{Board, read_board};
use call_summary::summaries;
use checkpoint_graph::{PlanFault, explain, plan};
use flow_graph::Graph;
use graph::graph_of;
use live_objects::live;
use picture::print_picture;
use report::{Told, print_fault, print_told};
use std::alloc::Global;
use std::io;
use std::time::Clock;
use texts::{Shown, Texts, heading_of, no_texts};
use timing::print_times;

/// Liveness, summaries and plan of a graph on a board, and the plan explained.
fn tell(alloc: Global, b: &Board, g: &Graph) -> Result<Told, PlanFault>
    requires { IsGraph g.now }
{
    if g.functions.len() > 256 || g.objects.len() > 65536 {
        return Err(PlanFault::Memory);
    }
    let Ok(live) = live(alloc, g) else {
        return Err(PlanFault::Memory);
    };
    let Ok(summaries) = summaries(alloc, g, b) else {
        return Err(PlanFault::Memory);
    };
    let placing = plan(alloc, g, &live, summaries.as_slice(), b)?;
    let Ok(explained) = explain(alloc, g, &live, summaries.as_slice(), b, &placing) else {
        return Err(PlanFault::Memory);
    };
    Ok(Told {
        live,
        summaries,
        placing,
        explained,
    })
}

fn show_plan(
    rt: &impl Print,
    alloc: Global,
    b: &Board,
    program: &[u8],
    pictured: bool,
) -> io::Result<()>
    requires { length program.now ≤ 65536 }
{
    let Some(g) = graph_of(alloc, program) else {
        return println!(rt; "no graph");
    };
    match tell(alloc, b, &g) {
        Err(fault) => print_fault(rt, fault),
        Ok(told) => if pictured {
            print_picture(rt, &told)
        } else {
            print_told(rt, &g, &told)
        },
    }
}

/// Shows what is asked of a program on a board, unless its text is empty.
fn show(rt: &(impl Print + Clock), alloc: Global, texts: &Texts) -> io::Result<()> {
    let program = texts.program.as_slice();
    if program.is_empty() {
        return Ok(());
    }
    if program.len() > 65536 {
        return println!(rt; "too long");
    }
    let Ok(board) = read_board(alloc, texts.board.as_slice()) else {
        return println!(rt; "no board");
    };
    match texts.shown {
        Shown::Plan => show_plan(rt, alloc, &board, program, false),
        Shown::Picture => show_plan(rt, alloc, &board, program, true),
        Shown::Times => print_times(rt, alloc, &board, program),
    }
}

fn main(rt: HostRuntime) -> io::Result<()> {
    let alloc = rt.alloc();
    let mut texts = no_texts(alloc);
    for line in rt.lines(alloc) {
        let line = line?;
        match heading_of(line.as_str()) {
            None => texts.add(line.as_str())?,
            Some(next) => {
                show(&rt, alloc, &texts)?;
                texts.begin(next);
            }
        }
    }
    show(&rt, alloc, &texts)
}
