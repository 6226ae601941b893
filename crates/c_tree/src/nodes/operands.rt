//! First operands, and what comes behind them.
ghost use Rattle.std.specs.Prelude.{ℕ, ◌≤◌, map, reverse};
ghost use Rattle.c_tree.specs.Nodes as nodes;
ghost use Rattle.c_tree.specs.Chains.{rest_of, rests_of};
ghost use Rattle.c_tree.specs.declared.tree.ExprKind.{out-ExprKind};
ghost use Rattle.c_tree.specs.Lines.{seen};
ghost use Rattle.c_tree.specs.Follows.{Does, Follows};

use crate::chains::{first_of, is_deep, keep, last_kept};
use crate::halt::Halt;
use crate::line::shown;
use crate::nodes::expressions::{choice, expr};
use crate::quiet::{begin, decides, read_at, work};
use crate::run::Run;
use crate::tree::{Expr, ExprKind, Program};
use base_io::Sink;
use c_values::{BinaryOp, converted, from_test, is_set, unary};

/// The word of a first operand, without calls within each other where many lie within each other.
#[cycle(nodes)]
pub fn first<K: Sink>(p: &Program, e: &Expr, run: &mut Run, sink: &mut K) -> Result<u16, Halt>
    ensures meets { Does p.now (λ d. d.expr e.now) run.old (seen (K.taken sink.old) (K.faults sink.old)) result run.new (seen (K.taken sink.new) (K.faults sink.new)) }
    ensures fewer { run.new.left ≤ run.old.left }
{
    if is_deep(e) {
        chain(p, e, run, sink)
    } else {
        expr(p, e, run, sink)
    }
}

/// Begins the nodes down to the innermost first operand, and keeps them until its word is there.
#[cycle(nodes)]
fn chain<K: Sink>(p: &Program, e: &Expr, run: &mut Run, sink: &mut K) -> Result<u16, Halt>
    ensures meets { Does p.now (λ d. d.expr e.now) run.old (seen (K.taken sink.old) (K.faults sink.old)) result run.new (seen (K.taken sink.new) (K.faults sink.new)) }
    ensures fewer { run.new.left ≤ run.old.left }
{
    let mut above = Vec::new(run.alloc());
    let mut at = e;
    while let Some(part) = first_of(at) {
        begin(run)?;
        keep(&mut above, at)?;
        at = part;
    }
    let word = expr(p, at, run, sink)?;
    rests(p, above, word, run, sink)
}

/// What comes behind a first operand, from the innermost kept outwards.
#[cycle(nodes)]
fn rests<K: Sink>(
    p: &Program,
    above: Vec<&Expr>,
    word: u16,
    run: &mut Run,
    sink: &mut K,
) -> Result<u16, Halt>
    ensures meets { (n : ℕ) → run.old.left ≤ n → Follows (rests_of p.now n (map (λ r. r.now) (reverse above.entry.items)) word run.old) run.old (seen (K.taken sink.old) (K.faults sink.old)) result run.new (seen (K.taken sink.new) (K.faults sink.new)) }
    ensures fewer { run.new.left ≤ run.old.left }
{
    let mut above = above;
    let mut word = word;
    while let Some(e) = last_kept(&mut above) {
        word = rest(p, e, word, run, sink)?;
    }
    Ok(word)
}

/// What comes behind a first operand.
#[cycle(nodes)]
pub fn rest<K: Sink>(
    p: &Program,
    e: &Expr,
    word: u16,
    run: &mut Run,
    sink: &mut K,
) -> Result<u16, Halt>
    ensures meets { Does p.now (λ d. rest_of d e.now.ty (out-ExprKind e.now.kind) word) run.old (seen (K.taken sink.old) (K.faults sink.old)) result run.new (seen (K.taken sink.new) (K.faults sink.new)) }
    ensures fewer { run.new.left ≤ run.old.left }
{
    match &e.kind {
        ExprKind::Element { array, index } => read_at(*array, index.get().ty, word, run),
        ExprKind::Convert(inner) => Ok(converted(e.ty, inner.get().ty, word)),
        ExprKind::Unary { op, a } => Ok(unary(a.get().ty, *op, word)),
        ExprKind::Binary { op, a, b } => second(p, *op, a.get(), b.get(), word, run, sink),
        ExprKind::Cond { test: _, yes, no } => choice(p, yes.get(), no.get(), word, run, sink),
        ExprKind::Output(_) => shown(word, sink),
        _ => Ok(word),
    }
}

/// The second operand, unless the first decides.
#[cycle(nodes)]
fn second<K: Sink>(
    p: &Program,
    op: BinaryOp,
    a: &Expr,
    b: &Expr,
    x: u16,
    run: &mut Run,
    sink: &mut K,
) -> Result<u16, Halt>
    ensures meets { Does p.now (λ d. nodes.second_by d.expr op a.now b.now x) run.old (seen (K.taken sink.old) (K.faults sink.old)) result run.new (seen (K.taken sink.new) (K.faults sink.new)) }
    ensures fewer { run.new.left ≤ run.old.left }
{
    if decides(op, x) {
        Ok(from_test(is_set(x)))
    } else {
        worked(p, op, a, b, x, run, sink)
    }
}

/// The second operand, and then the operator.
#[cycle(nodes)]
fn worked<K: Sink>(
    p: &Program,
    op: BinaryOp,
    a: &Expr,
    b: &Expr,
    x: u16,
    run: &mut Run,
    sink: &mut K,
) -> Result<u16, Halt>
    ensures meets { Does p.now (λ d. nodes.worked_by d.expr op a.now b.now x) run.old (seen (K.taken sink.old) (K.faults sink.old)) result run.new (seen (K.taken sink.new) (K.faults sink.new)) }
    ensures fewer { run.new.left ≤ run.old.left }
{
    let y = expr(p, b, run, sink)?;
    work(a.ty, b.ty, op, x, y, run)
}
