//! Assignments.
ghost use Rattle.std.specs.Prelude.{◌≤◌};
ghost use Rattle.std.specs.Option.{option_copied};
ghost use Rattle.c_tree.specs.Nodes as nodes;
ghost use Rattle.c_tree.specs.Lines.{seen};
ghost use Rattle.c_tree.specs.Follows.{Does};

use crate::halt::Halt;
use crate::nodes::expressions::{expr, value_or};
use crate::quiet::{amount_type, finish, opened, store, type_of, unboxed};
use crate::run::Run;
use crate::tree::{Action, Expr, Program};
use base_io::Sink;
use c_values::{BinaryOp, Ty};

/// An assignment, or an expression whose value isn't used.
#[cycle(nodes)]
pub fn act<K: Sink>(p: &Program, a: &Action, run: &mut Run, sink: &mut K) -> Result<(), Halt>
    ensures meets { Does p.now (λ d. nodes.act_by p.now d.expr a.now) run.old (seen (K.taken sink.old) (K.faults sink.old)) result run.new (seen (K.taken sink.new) (K.faults sink.new)) }
    ensures fewer { run.new.left ≤ run.old.left }
{
    match a {
        Action::Value(e) => {
            expr(p, e, run, sink)?;
            Ok(())
        }
        Action::Assign { to, value } => {
            let index = unboxed(&to.index);
            assign(p, to.variable, index, value, run, sink)
        }
        Action::Update {
            to,
            at: _,
            op,
            ty,
            by,
        } => {
            let own = type_of(p, to.variable);
            let index = unboxed(&to.index);
            let by = by.as_ref();
            update(p, own, to.variable, index, *op, *ty, by, run, sink)
        }
    }
}

/// An action, where there is one.
#[cycle(nodes)]
pub fn act_opt<K: Sink>(
    p: &Program,
    a: Option<&Action>,
    run: &mut Run,
    sink: &mut K,
) -> Result<(), Halt>
    ensures meets { Does p.now (λ d. nodes.act_opt p.now d.expr (option_copied a.entry)) run.old (seen (K.taken sink.old) (K.faults sink.old)) result run.new (seen (K.taken sink.new) (K.faults sink.new)) }
    ensures fewer { run.new.left ≤ run.old.left }
{
    match a {
        Some(a) => act(p, a, run, sink),
        None => Ok(()),
    }
}

/// The index, and then the rest of an assignment.
#[cycle(nodes)]
fn assign<K: Sink>(
    p: &Program,
    variable: u32,
    index: Option<&Expr>,
    value: &Expr,
    run: &mut Run,
    sink: &mut K,
) -> Result<(), Halt>
    ensures meets { Does p.now (λ d. nodes.assign_by d.expr variable (option_copied index.entry) value.now) run.old (seen (K.taken sink.old) (K.faults sink.old)) result run.new (seen (K.taken sink.new) (K.faults sink.new)) }
    ensures fewer { run.new.left ≤ run.old.left }
{
    let i = value_or(p, index, 0, run, sink)?;
    assigned(p, variable, index, value, i, run, sink)
}

/// The value, and then the store.
#[cycle(nodes)]
fn assigned<K: Sink>(
    p: &Program,
    variable: u32,
    index: Option<&Expr>,
    value: &Expr,
    i: u16,
    run: &mut Run,
    sink: &mut K,
) -> Result<(), Halt>
    ensures meets { Does p.now (λ d. nodes.assigned_by d.expr variable (option_copied index.entry) value.now i) run.old (seen (K.taken sink.old) (K.faults sink.old)) result run.new (seen (K.taken sink.new) (K.faults sink.new)) }
    ensures fewer { run.new.left ≤ run.old.left }
{
    let word = expr(p, value, run, sink)?;
    store(variable, index, i, word, run)
}

/// An assignment with an operator.
#[cycle(nodes)]
fn update<K: Sink>(
    p: &Program,
    own: Ty,
    variable: u32,
    index: Option<&Expr>,
    op: BinaryOp,
    ty: Ty,
    by: Option<&Expr>,
    run: &mut Run,
    sink: &mut K,
) -> Result<(), Halt>
    ensures meets { Does p.now (λ d. nodes.update_by own d.expr variable (option_copied index.entry) op ty (option_copied by.entry)) run.old (seen (K.taken sink.old) (K.faults sink.old)) result run.new (seen (K.taken sink.new) (K.faults sink.new)) }
    ensures fewer { run.new.left ≤ run.old.left }
{
    let i = value_or(p, index, 0, run, sink)?;
    updated(p, own, variable, index, op, ty, by, i, run, sink)
}

/// The value read, and then the rest of it.
#[cycle(nodes)]
fn updated<K: Sink>(
    p: &Program,
    own: Ty,
    variable: u32,
    index: Option<&Expr>,
    op: BinaryOp,
    ty: Ty,
    by: Option<&Expr>,
    i: u16,
    run: &mut Run,
    sink: &mut K,
) -> Result<(), Halt>
    ensures meets { Does p.now (λ d. nodes.updated_by own d.expr variable (option_copied index.entry) op ty (option_copied by.entry) i) run.old (seen (K.taken sink.old) (K.faults sink.old)) result run.new (seen (K.taken sink.new) (K.faults sink.new)) }
    ensures fewer { run.new.left ≤ run.old.left }
{
    let x = opened(own, ty, variable, index, i, run)?;
    finished(p, own, variable, index, op, ty, by, i, x, run, sink)
}

/// The right side, and then the operator and the store.
#[cycle(nodes)]
fn finished<K: Sink>(
    p: &Program,
    own: Ty,
    variable: u32,
    index: Option<&Expr>,
    op: BinaryOp,
    ty: Ty,
    by: Option<&Expr>,
    i: u16,
    x: u16,
    run: &mut Run,
    sink: &mut K,
) -> Result<(), Halt>
    ensures meets { Does p.now (λ d. nodes.finished_by own d.expr variable (option_copied index.entry) op ty (option_copied by.entry) i x) run.old (seen (K.taken sink.old) (K.faults sink.old)) result run.new (seen (K.taken sink.new) (K.faults sink.new)) }
    ensures fewer { run.new.left ≤ run.old.left }
{
    let from = amount_type(ty, by);
    let y = value_or(p, by, 1, run, sink)?;
    finish(own, variable, index, op, ty, from, i, x, y, run)
}
