//! Declarations and their initialisers.
ghost use Rattle.std.specs.Prelude.{◌≤◌, slice_get};
ghost use Rattle.c_tree.specs.Nodes as nodes;
ghost use Rattle.c_tree.specs.Lines.{seen};
ghost use Rattle.c_tree.specs.Follows.{Does};

use crate::halt::Halt;
use crate::lists::first_and_rest;
use crate::nodes::expressions::expr;
use crate::quiet::{begin, open_array, write};
use crate::run::Run;
use crate::tree::{Declared, Expr, Program};
use base_io::Sink;
use sqlite_items::Items;

/// A declaration's declarators.
#[cycle(nodes)]
pub fn declare_list<K: Sink>(
    p: &Program,
    declared: &Items<Declared>,
    run: &mut Run,
    sink: &mut K,
) -> Result<(), Halt>
    ensures meets { Does p.now (λ d. nodes.declare_each p.now d.expr declared.now) run.old (seen (K.taken sink.old) (K.faults sink.old)) result run.new (seen (K.taken sink.new) (K.faults sink.new)) }
    ensures fewer { run.new.left ≤ run.old.left }
{
    let declared = declared.as_slice();
    declare_each(p, declared, run, sink)
}

/// Declarators, in their order.
#[cycle(nodes)]
fn declare_each<K: Sink>(
    p: &Program,
    declared: &[Declared],
    run: &mut Run,
    sink: &mut K,
) -> Result<(), Halt>
    ensures meets { Does p.now (λ d. nodes.declare_each p.now d.expr declared.now) run.old (seen (K.taken sink.old) (K.faults sink.old)) result run.new (seen (K.taken sink.new) (K.faults sink.new)) }
    ensures fewer { run.new.left ≤ run.old.left }
{
    let mut rest = declared;
    while let Some((declarator, after)) = first_and_rest(rest) {
        begin(run)?;
        declare(p, declarator, run, sink)?;
        rest = after;
    }
    Ok(())
}

/// A declarator.
#[cycle(nodes)]
fn declare<K: Sink>(
    p: &Program,
    declarator: &Declared,
    run: &mut Run,
    sink: &mut K,
) -> Result<(), Halt>
    ensures meets { Does p.now (λ d. nodes.declare_at d.expr declarator.now.variable (slice_get p.now.variables declarator.now.variable) declarator.now.values) run.old (seen (K.taken sink.old) (K.faults sink.old)) result run.new (seen (K.taken sink.new) (K.faults sink.new)) }
    ensures fewer { run.new.left ≤ run.old.left }
{
    match p.variables.get(declarator.variable as usize) {
        Some(variable) => {
            let values = declarator.values.as_slice();
            declare_sized(p, declarator.variable, variable.length, values, run, sink)
        }
        None => Ok(()),
    }
}

/// A scalar or an array, with its initialiser's values.
#[cycle(nodes)]
fn declare_sized<K: Sink>(
    p: &Program,
    variable: u32,
    length: Option<u16>,
    values: &[Expr],
    run: &mut Run,
    sink: &mut K,
) -> Result<(), Halt>
    ensures meets { Does p.now (λ d. nodes.declare_sized d.expr variable length values.now) run.old (seen (K.taken sink.old) (K.faults sink.old)) result run.new (seen (K.taken sink.new) (K.faults sink.new)) }
    ensures fewer { run.new.left ≤ run.old.left }
{
    match length {
        Some(length) => declare_array(p, variable, length, values, run, sink),
        None => match first_and_rest(values) {
            Some((value, _)) => declare_scalar(p, variable, value, run, sink),
            None => write(variable, 0, run),
        },
    }
}

/// A scalar with an initialiser.
#[cycle(nodes)]
fn declare_scalar<K: Sink>(
    p: &Program,
    variable: u32,
    value: &Expr,
    run: &mut Run,
    sink: &mut K,
) -> Result<(), Halt>
    ensures meets { Does p.now (λ d. nodes.declare_scalar d.expr variable value.now) run.old (seen (K.taken sink.old) (K.faults sink.old)) result run.new (seen (K.taken sink.new) (K.faults sink.new)) }
    ensures fewer { run.new.left ≤ run.old.left }
{
    let word = expr(p, value, run, sink)?;
    write(variable, word, run)
}

/// An array, and the values of its initialiser.
#[cycle(nodes)]
fn declare_array<K: Sink>(
    p: &Program,
    variable: u32,
    length: u16,
    values: &[Expr],
    run: &mut Run,
    sink: &mut K,
) -> Result<(), Halt>
    ensures meets { Does p.now (λ d. nodes.declare_array d.expr variable length values.now) run.old (seen (K.taken sink.old) (K.faults sink.old)) result run.new (seen (K.taken sink.new) (K.faults sink.new)) }
    ensures fewer { run.new.left ≤ run.old.left }
{
    open_array(variable, length, run)?;
    fill(p, variable, values, run, sink)
}

/// The values of a list go into the elements.
#[cycle(nodes)]
fn fill<K: Sink>(
    p: &Program,
    variable: u32,
    values: &[Expr],
    run: &mut Run,
    sink: &mut K,
) -> Result<(), Halt>
    ensures meets { Does p.now (λ d. nodes.fill d.expr variable 0 values.now) run.old (seen (K.taken sink.old) (K.faults sink.old)) result run.new (seen (K.taken sink.new) (K.faults sink.new)) }
    ensures fewer { run.new.left ≤ run.old.left }
{
    let mut place = 0;
    let mut rest = values;
    while let Some((value, after)) = first_and_rest(rest) {
        let word = expr(p, value, run, sink)?;
        run.write_place(variable, place, word);
        place += 1;
        rest = after;
    }
    Ok(())
}
