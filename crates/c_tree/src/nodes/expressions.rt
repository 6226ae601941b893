//! The words of expressions.
ghost use Rattle.std.specs.Prelude.{◌≤◌};
ghost use Rattle.std.specs.Option.{option_copied};
ghost use Rattle.c_tree.specs.Nodes as nodes;
ghost use Rattle.c_tree.specs.Chains.{leaf_of};
ghost use Rattle.c_tree.specs.declared.tree.ExprKind.{out-ExprKind};
ghost use Rattle.c_tree.specs.Lines.{seen};
ghost use Rattle.c_tree.specs.Follows.{Does};

use crate::chains::first_of;
use crate::halt::Halt;
use crate::nodes::calls::called;
use crate::nodes::operands::{first, rest};
use crate::quiet::begin;
use crate::run::Run;
use crate::tree::{Expr, ExprKind, Program};
use base_io::Sink;
use c_values::is_set;

/// The word of an expression.
#[cycle(nodes)]
pub fn expr<K: Sink>(p: &Program, e: &Expr, run: &mut Run, sink: &mut K) -> Result<u16, Halt>
    ensures meets { Does p.now (λ d. d.expr e.now) run.old (seen (K.taken sink.old) (K.faults sink.old)) result run.new (seen (K.taken sink.new) (K.faults sink.new)) }
    ensures fewer { run.new.left ≤ run.old.left }
{
    begin(run)?;
    node(p, e, run, sink)
}

/// The level of an expression.
#[cycle(nodes)]
fn node<K: Sink>(p: &Program, e: &Expr, run: &mut Run, sink: &mut K) -> Result<u16, Halt>
    ensures meets { Does p.now (λ d. nodes.expr_by p.now d e.now.ty (out-ExprKind e.now.kind)) run.old (seen (K.taken sink.old) (K.faults sink.old)) result run.new (seen (K.taken sink.new) (K.faults sink.new)) }
    ensures fewer { run.new.left ≤ run.old.left }
{
    match first_of(e) {
        Some(part) => {
            let word = first(p, part, run, sink)?;
            rest(p, e, word, run, sink)
        }
        None => leaf(p, e, run, sink),
    }
}

/// The level of an expression that begins with no operand.
#[cycle(nodes)]
fn leaf<K: Sink>(p: &Program, e: &Expr, run: &mut Run, sink: &mut K) -> Result<u16, Halt>
    ensures meets { Does p.now (λ d. leaf_of p.now d (out-ExprKind e.now.kind)) run.old (seen (K.taken sink.old) (K.faults sink.old)) result run.new (seen (K.taken sink.new) (K.faults sink.new)) }
    ensures fewer { run.new.left ≤ run.old.left }
{
    match &e.kind {
        ExprKind::Number(word) => Ok((*word % 65536) as u16),
        ExprKind::Var(variable) => Ok(run.read(*variable)),
        ExprKind::Call { function, args } => {
            let args = args.as_slice();
            called(p, *function, args, run, sink)
        }
        ExprKind::Input => Ok(run.take()),
        _ => Ok(0),
    }
}

/// The operand that a word leads to.
#[cycle(nodes)]
pub fn choice<K: Sink>(
    p: &Program,
    a: &Expr,
    b: &Expr,
    word: u16,
    run: &mut Run,
    sink: &mut K,
) -> Result<u16, Halt>
    ensures meets { Does p.now (λ d. nodes.choice_by d.expr a.now b.now word) run.old (seen (K.taken sink.old) (K.faults sink.old)) result run.new (seen (K.taken sink.new) (K.faults sink.new)) }
    ensures fewer { run.new.left ≤ run.old.left }
{
    if is_set(word) {
        expr(p, a, run, sink)
    } else {
        expr(p, b, run, sink)
    }
}

/// The word of an expression, or another where there is none.
#[cycle(nodes)]
pub fn value_or<K: Sink>(
    p: &Program,
    e: Option<&Expr>,
    otherwise: u16,
    run: &mut Run,
    sink: &mut K,
) -> Result<u16, Halt>
    ensures meets { Does p.now (λ d. nodes.value_or d.expr otherwise (option_copied e.entry)) run.old (seen (K.taken sink.old) (K.faults sink.old)) result run.new (seen (K.taken sink.new) (K.faults sink.new)) }
    ensures fewer { run.new.left ≤ run.old.left }
{
    match e {
        Some(e) => expr(p, e, run, sink),
        None => Ok(otherwise),
    }
}
