//! Prints of the functions of a small graph, on the ordinary board: what the body of each weighs, what it costs where it is flat, and
//! the objects that it, or a function called from it, reads or writes.
#![tactic(auto)]

use base_io::Memory;
use board_table::{Access, Board, Core};
use board_weights::OnBoard;
use flow_graph::{Func, Graph};
use item_weights::{Weights, flat_numbers, weight};
use std::alloc::Global;
use std::io;
use touched_objects::{Touched, touching};

mod parts;
mod sample;

use sample::{OBJECTS, sample};

fn ordinary() -> Board {
    Board {
        budget: 2000,
        core: Core {
            move_: 1,
            alu: 1,
            one: 1,
            push: 2,
            call: 3,
            jump: 2,
        },
        access: Access {
            fetch: 2,
            sram_read: 1,
            sram_write: 1,
            fram_read: 2,
            fram_write: 3,
            port_read: 2,
            port_write: 2,
        },
    }
}

fn print_weight(rt: &impl Print, weight: &Option<Weights>) -> io::Result<()> {
    match weight {
        None => println!(rt; "  no weight"),
        Some(weight) => {
            println!(rt; "  base {}", weight.base)?;
            for one in weight.uses.iter() {
                println!(rt;
                    "  object {}: {} reads, {} writes",
                    one.object, one.reads, one.writes
                )?;
            }
            Ok(())
        }
    }
}

fn print_cost(rt: &impl Print, cost: Option<u64>) -> io::Result<()> {
    match cost {
        None => println!(rt; "  split"),
        Some(cost) => println!(rt; "  flat {cost}"),
    }
}

fn is_touched(touched: &Touched, object: u32, function: u32) -> bool {
    match touched.rows.get(object as usize) {
        None => false,
        Some(row) => row.get(function as usize).copied().unwrap_or(false),
    }
}

fn print_touched(rt: &impl Print, touched: &Touched, function: u32) -> io::Result<()> {
    print!(rt; "  touched")?;
    for object in 0..OBJECTS {
        if is_touched(touched, object, function) {
            print!(rt; " {object}")?;
        }
    }
    println!(rt; "")
}

/// What is told of the functions of a graph.
#[derive(Drop)]
struct Told {
    graph: Graph,
    costs: Vec<Option<u64>>,
    touched: Touched,
}

fn tell(alloc: Global, rule: &OnBoard) -> Result<Told, Memory> {
    let graph = sample(alloc)?;
    if graph.functions.len() > 10 || graph.objects.len() > 10 {
        return Err(Memory);
    }
    let costs = flat_numbers(alloc, rule, &graph)?;
    let touched = touching(alloc, &graph)?;
    Ok(Told {
        graph,
        costs,
        touched,
    })
}

fn show(
    rt: &impl Print,
    alloc: Global,
    rule: &OnBoard,
    told: &Told,
    func: &Func,
    function: u32,
) -> io::Result<()> {
    println!(rt; "function {function}")?;
    let costs = told.costs.as_slice();
    match weight(alloc, rule, costs, func.body.as_slice(), OBJECTS) {
        Err(Memory) => println!(rt; "  no memory")?,
        Ok(weight) => print_weight(rt, &weight)?,
    }
    print_cost(rt, costs.get(function as usize).copied().unwrap_or(None))?;
    print_touched(rt, &told.touched, function)
}

fn main(rt: HostRuntime) -> io::Result<()> {
    let alloc = rt.alloc();
    let rule = OnBoard { board: ordinary() };
    let Ok(told) = tell(alloc, &rule) else {
        return println!(rt; "no memory");
    };
    let mut function: u32 = 0;
    for func in told.graph.functions.as_slice() {
        show(&rt, alloc, &rule, &told, func, function)?;
        function = function.wrapping_add(1);
    }
    Ok(())
}
