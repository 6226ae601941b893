//! Prints of C programs on standard input what is told of each function that is reached: what it costs where it is flat, and the
//! objects that it, or a function called from it, reads or writes.
//!
//! | Line | What it says |
//! |---|---|
//! | `board` | a board file begins |
//! | `program` | a program begins, on the board that was read last |
//!
//! Any other line is a line of the board file or of the program.
#![tactic(auto)]

ghost use Rattle.flow_graph.specs.Rules.{IsGraph};

mod graph;
mod texts;

use base_io::Memory;
use board_table::{Board, read_board};
use call_summary::{Summary, flat_costs, summaries};
use flow_graph::{Func, Graph};
use graph::graph_of;
use std::alloc::Global;
use std::io;
use texts::{heading_of, no_texts};

/// What is told of the functions of a graph.
#[derive(Drop)]
struct Told {
    costs: Vec<Option<u64>>,
    summaries: Vec<Summary>,
}

fn tell(alloc: Global, b: &Board, g: &Graph) -> Result<Told, Memory>
    requires { IsGraph g.now }
{
    if g.functions.len() > 256 || g.objects.len() > 65536 {
        return Err(Memory);
    }
    let costs = flat_costs(alloc, b, g)?;
    let summaries = summaries(alloc, g, b)?;
    Ok(Told { costs, summaries })
}

fn print_name(rt: &impl Print, func: &Func) -> io::Result<()> {
    print!(rt; "function ")?;
    for byte in func.name.as_slice() {
        print!(rt; "{}", *byte as char)?;
    }
    Ok(())
}

fn print_cost(rt: &impl Print, cost: Option<u64>) -> io::Result<()> {
    match cost {
        None => print!(rt; " costs -"),
        Some(cost) => print!(rt; " costs {cost}"),
    }
}

fn print_summary(rt: &impl Print, summary: Option<&Summary>) -> io::Result<()> {
    match summary {
        None => println!(rt; " unknown"),
        Some(Summary::Split) => println!(rt; " split"),
        Some(Summary::Flat { cost, touched }) => {
            print!(rt; " flat {cost} touched")?;
            for object in touched.iter() {
                print!(rt; " {object}")?;
            }
            println!(rt; "")
        }
    }
}

fn print_told(rt: &impl Print, g: &Graph, told: &Told) -> io::Result<()> {
    for (at, func) in g.functions.as_slice().iter().enumerate() {
        print_name(rt, func)?;
        print_cost(rt, told.costs.get(at).copied().unwrap_or(None))?;
        print_summary(rt, told.summaries.get(at))?;
    }
    Ok(())
}

/// Prints what is told of a program on a board, unless its text is empty.
fn show(rt: &impl Print, alloc: Global, board: &[u8], program: &[u8]) -> io::Result<()> {
    if program.is_empty() {
        return Ok(());
    }
    if program.len() > 65536 {
        return println!(rt; "too long");
    }
    let Ok(board) = read_board(alloc, board) else {
        return println!(rt; "no board");
    };
    let Some(g) = graph_of(alloc, program) else {
        return println!(rt; "no graph");
    };
    match tell(alloc, &board, &g) {
        Err(Memory) => println!(rt; "no memory"),
        Ok(told) => print_told(rt, &g, &told),
    }
}

fn main(rt: HostRuntime) -> io::Result<()> {
    let alloc = rt.alloc();
    let mut texts = no_texts(alloc);
    for line in rt.lines(alloc) {
        let line = line?;
        match heading_of(line.as_str()) {
            None => texts.add(line.as_str())?,
            Some(next) => {
                show(&rt, alloc, texts.board.as_slice(), texts.program.as_slice())?;
                texts.begin(next);
            }
        }
    }
    show(&rt, alloc, texts.board.as_slice(), texts.program.as_slice())
}
