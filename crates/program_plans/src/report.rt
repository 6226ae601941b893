//! The lines of a report.

use call_summary::Summary;
use checkpoint_graph::{Chain, ExplainedChain, Placing, PlanFault, Stretch};
use flow_graph::{Func, Graph};
use live_objects::Liveness;
use std::io;

/// What is told of a graph.
#[derive(Drop)]
pub struct Told {
    pub live: Liveness,
    pub summaries: Vec<Summary>,
    pub placing: Placing,
    pub explained: Vec<ExplainedChain>,
}

fn total(stretches: &[Stretch]) -> u64 {
    let mut cost: u64 = 0;
    for stretch in stretches {
        cost = cost.saturating_add(stretch.cost);
    }
    cost
}

fn print_chain(rt: &impl Print, chain: &Chain) -> io::Result<()> {
    let number = chain.number;
    let cost = total(chain.stretches.as_slice());
    if chain.turns > 0 {
        let turns = chain.turns;
        println!(rt; "loop {number} turns {turns} cost {cost}")
    } else {
        let items = chain.items;
        let sites = chain.stretches.len().saturating_sub(1);
        println!(rt; "chain {number} items {items} sites {sites} cost {cost}")
    }
}

fn print_chains(rt: &impl Print, placing: &Placing, function: u32) -> io::Result<()> {
    for chain in placing.chains.iter() {
        if chain.function == function {
            print_chain(rt, chain)?;
        }
    }
    Ok(())
}

fn print_name(rt: &impl Print, func: &Func) -> io::Result<()> {
    print!(rt; "function ")?;
    for byte in func.name.as_slice() {
        print!(rt; "{}", *byte as char)?;
    }
    Ok(())
}

/// Prints what is told of a function, where there is one.
fn print_function(rt: &impl Print, g: &Graph, told: &Told, function: u32) -> io::Result<()> {
    let Some(func) = g.functions.as_slice().get(function as usize) else {
        return Ok(());
    };
    print_name(rt, func)?;
    match told.summaries.get(function as usize) {
        Some(Summary::Flat { cost, touched: _ }) => println!(rt; " flat {cost}"),
        _ => {
            println!(rt; " split")?;
            print_chains(rt, &told.placing, function)
        }
    }
}

/// Prints what is told of a graph: `main`, and then the others in the order of the text.
pub fn print_told(rt: &impl Print, g: &Graph, told: &Told) -> io::Result<()> {
    print_function(rt, g, told, g.main)?;
    for function in 0..256 {
        if function != g.main {
            print_function(rt, g, told, function)?;
        }
    }
    Ok(())
}

/// Prints why there is no plan.
pub fn print_fault(rt: &impl Print, fault: PlanFault) -> io::Result<()> {
    match fault {
        PlanFault::Memory => println!(rt; "no memory"),
        PlanFault::BudgetTooSmall {
            op,
            place,
            need,
            budget,
        } => {
            println!(rt;
                "budget too small: {op:?} at {}:{} needs {need} of {budget}",
                place.line, place.column
            )
        }
    }
}
