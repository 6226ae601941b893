//! Prints the graphs that C programs on standard input are lowered to.
//!
//! | Line | What it says |
//! |---|---|
//! | `graph` | a program begins: its graph is printed, or why there is none |
//! | `last` | a program begins: the last operation of its `main` alone is printed, or why there is no graph |
//! | `repeat N TEXT` | the line TEXT N times |
//!
//! Any other line is a line of the program. What stands before the first heading is a program whose graph is printed.
#![tactic(auto)]

ghost use Rattle.std.specs.Prelude.{◌≤◌, length};

mod lines;
mod report;

use crate::lines::{Shown, add_line, heading};
use crate::report::{print_graph, print_op};
use c_lower::{LowerFault, lower};
use flow_graph::{Func, Graph, body_nodes};
use program_texts::typed_of;
use std::alloc::Global;
use std::io;

fn main(rt: HostRuntime) -> io::Result<()> {
    let alloc = rt.alloc();
    let mut shown = Shown::Graph;
    let mut text = Vec::new(alloc);
    for line in rt.lines(alloc) {
        let line = line?;
        match heading(line.as_str()) {
            None => add_line(&mut text, line.as_str())?,
            Some(next) => {
                show(&rt, alloc, shown, text.as_slice())?;
                text.clear();
                shown = next;
            }
        }
    }
    show(&rt, alloc, shown, text.as_slice())
}

/// Shows a program, unless its text is empty.
fn show(rt: &impl Print, alloc: Global, shown: Shown, text: &[u8]) -> io::Result<()> {
    if text.is_empty() {
        Ok(())
    } else if text.len() > 65536 {
        println!(rt; "too long")
    } else {
        show_program(rt, alloc, shown, text)
    }
}

fn show_program(rt: &impl Print, alloc: Global, shown: Shown, text: &[u8]) -> io::Result<()>
    requires { length text.now ≤ 65536 }
{
    match typed_of(alloc, text) {
        Err(fault) => println!(rt; "no program: {fault:?}"),
        Ok(p) => match lower(alloc, &p) {
            Ok(g) => show_graph(rt, alloc, shown, &g),
            Err(LowerFault::TooManyOps { count, at }) => {
                println!(rt;
                    "too many operations: {count}, at {}:{}",
                    at.line, at.column
                )
            }
            Err(LowerFault::Memory) => println!(rt; "no memory"),
        },
    }
}

fn show_graph(rt: &impl Print, alloc: Global, shown: Shown, g: &Graph) -> io::Result<()> {
    match shown {
        Shown::Graph => print_graph(rt, g),
        Shown::Last => match g.functions.as_slice().get(g.main as usize) {
            None => println!(rt; "no main"),
            Some(f) => show_last(rt, alloc, f),
        },
    }
}

fn show_last(rt: &impl Print, alloc: Global, f: &Func) -> io::Result<()> {
    match body_nodes(alloc, f.body.as_slice()) {
        Err(_) => println!(rt; "no memory"),
        Ok(nodes) => match nodes.as_slice().last() {
            None => println!(rt; "no operation"),
            Some(node) => print_op(rt, &node.op, 0, ""),
        },
    }
}
