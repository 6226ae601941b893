//! Calls of functions.
ghost use Rattle.std.specs.Prelude.{◌≤◌, [], slice_get};
ghost use Rattle.std.specs.Result.{result_map_both};
ghost use Rattle.c_tree.specs.Nodes as nodes;
ghost use Rattle.c_tree.specs.Arms.{called_by};
ghost use Rattle.c_tree.specs.Lines.{seen};
ghost use Rattle.c_tree.specs.Follows.{Does};

use crate::halt::Halt;
use crate::lists::first_and_rest;
use crate::nodes::expressions::expr;
use crate::nodes::statements::stmt;
use crate::quiet::{bind, come_back, push};
use crate::run::Run;
use crate::tree::{Expr, Program, Stmt};
use base_io::Sink;

/// The arguments, and then the call.
#[cycle(nodes)]
pub fn called<K: Sink>(
    p: &Program,
    function: u32,
    args: &[Expr],
    run: &mut Run,
    sink: &mut K,
) -> Result<u16, Halt>
    ensures meets { Does p.now (λ d. called_by p.now d function args.now) run.old (seen (K.taken sink.old) (K.faults sink.old)) result run.new (seen (K.taken sink.new) (K.faults sink.new)) }
    ensures fewer { run.new.left ≤ run.old.left }
{
    let values = arguments(p, args, run, sink)?;
    let values = values.as_slice();
    call(p, function, values, run, sink)
}

/// The values of arguments, from left to right.
#[cycle(nodes)]
fn arguments<K: Sink>(
    p: &Program,
    args: &[Expr],
    run: &mut Run,
    sink: &mut K,
) -> Result<Vec<u16>, Halt>
    ensures meets { Does p.now (λ d. nodes.values_onto d.expr [] args.now) run.old (seen (K.taken sink.old) (K.faults sink.old)) (result_map_both (λ v. v.items) (λ h. h) result) run.new (seen (K.taken sink.new) (K.faults sink.new)) }
    ensures fewer { run.new.left ≤ run.old.left }
{
    let mut values = Vec::new(run.alloc());
    let mut rest = args;
    while let Some((e, after)) = first_and_rest(rest) {
        let word = expr(p, e, run, sink)?;
        push(&mut values, word)?;
        rest = after;
    }
    Ok(values)
}

/// A call of a function of the program.
#[cycle(nodes)]
pub fn call<K: Sink>(
    p: &Program,
    function: u32,
    values: &[u16],
    run: &mut Run,
    sink: &mut K,
) -> Result<u16, Halt>
    ensures meets { Does p.now (λ d. nodes.enter d.stmt (slice_get p.now.functions function) values.now) run.old (seen (K.taken sink.old) (K.faults sink.old)) result run.new (seen (K.taken sink.new) (K.faults sink.new)) }
    ensures fewer { run.new.left ≤ run.old.left }
{
    match p.functions.get(function as usize) {
        Some(function) => {
            bind(function.params.as_slice(), values, run);
            run_body(p, &function.body, run, sink)
        }
        None => Ok(0),
    }
}

/// The body of a function, and the way back.
#[cycle(nodes)]
fn run_body<K: Sink>(p: &Program, body: &Stmt, run: &mut Run, sink: &mut K) -> Result<u16, Halt>
    ensures meets { Does p.now (λ d. nodes.run_body d.stmt body.now) run.old (seen (K.taken sink.old) (K.faults sink.old)) result run.new (seen (K.taken sink.new) (K.faults sink.new)) }
    ensures fewer { run.new.left ≤ run.old.left }
{
    let left = stmt(p, body, run, sink)?;
    come_back(left, run)
}
