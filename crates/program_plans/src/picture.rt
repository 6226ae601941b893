//! The picture of a plan.

use crate::report::Told;
use base_io::Place;
use checkpoint_graph::{Explained, Stretch};
use flow_graph::Owned;
use loop_checkpoints::LoopObject;
use std::io;

/// Whether an object is among some.
fn is_among(objects: &[u32], object: u32) -> bool {
    objects.iter().any(|other| object == *other)
}

/// Prints what keeping an object in SRAM costs and spares.
fn print_home(rt: &impl Print, told: &Explained, home: &LoopObject) -> io::Result<()> {
    let LoopObject {
        object,
        words,
        fram,
        sram,
        moves,
    } = *home;
    print!(rt; "    object {object} words {words} fram {fram} sram {sram} moves {moves}")?;
    if is_among(told.restored.as_slice(), object) {
        print!(rt; " restored")?;
    }
    if is_among(told.saved.as_slice(), object) {
        print!(rt; " saved")?;
    }
    println!(rt; "")
}

/// Prints the place in the text of an operation, where there is one.
fn print_place(rt: &impl Print, operations: &[Owned], op: u32) -> io::Result<()> {
    match operations.get(op as usize) {
        None => Ok(()),
        Some(owned) => {
            let Place { line, column } = owned.node.op.place;
            print!(rt; " {line}:{column}")
        }
    }
}

fn print_stretch(
    rt: &impl Print,
    operations: &[Owned],
    stretch: &Stretch,
    told: &Explained,
) -> io::Result<()> {
    let cost = stretch.cost;
    let fixed = told.weight.fixed;
    let base = told.weight.base;
    print!(rt; "  stretch cost {cost} fixed {fixed} base {base} items at")?;
    for op in told.firsts.iter() {
        print_place(rt, operations, *op)?;
    }
    println!(rt; "")?;
    for object in told.weight.objects.iter() {
        if is_among(stretch.homes.as_slice(), object.object) {
            print_home(rt, told, object)?;
        }
    }
    Ok(())
}

fn print_stretches(
    rt: &impl Print,
    operations: &[Owned],
    stretches: &[Stretch],
    told: &[Explained],
) -> io::Result<()> {
    for (stretch, told) in stretches.iter().zip(told) {
        print_stretch(rt, operations, stretch, told)?;
    }
    Ok(())
}

/// Prints of each chain its stretches with the places of their items, what they cost, and what each of their homes in SRAM costs there
/// and would cost in FRAM, and whether it is restored and saved.
pub fn print_picture(rt: &impl Print, told: &Told) -> io::Result<()> {
    let operations = told.live.operations.as_slice();
    let chains = told.placing.chains.as_slice();
    for (chain, told) in chains.iter().zip(told.explained.as_slice()) {
        let number = chain.number;
        let turns = chain.turns;
        println!(rt; "chain {number} turns {turns}")?;
        print_stretches(
            rt,
            operations,
            chain.stretches.as_slice(),
            told.stretches.as_slice(),
        )?;
    }
    Ok(())
}
