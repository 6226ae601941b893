//! Loops of a known number of turns.
ghost use Rattle.std.specs.Prelude.{◌≡◌, Some, None, IfOk, slice_get};
ghost use Rattle.c_tree.specs.declared.tree.ExprKind.{out-ExprKind};
ghost use Rattle.lowered_graphs.specs.Counted as spec;
ghost use Rattle.c_lower.specs.Counting as counting;

use crate::constants::{Worth, constant};
use base_io::{Memory, Place};
use c_tree::{Action, Declared, Expr, ExprKind, ForFirst, Program, Variable};
use c_values::{BinaryOp, Ty, value};
use lowered_graphs::Count;
use std::alloc::Global;

fn same_place(a: Place, b: Place) -> bool
    ensures { result ≡ spec.same_place a b }
{
    a.line == b.line && a.column == b.column
}

/// What the text says, without a conversion that it implies.
pub fn as_written<'a>(e: &'a Expr) -> &'a Expr
    ensures { result.now ≡ spec.as_written e.now }
{
    match &e.kind {
        ExprKind::Convert(inner) => {
            let inner = inner.get();
            if same_place(e.place, inner.place) {
                inner
            } else {
                e
            }
        }
        _ => e,
    }
}

fn greatest(ty: Ty) -> u16
    ensures { result ≡ spec.greatest ty }
{
    match ty {
        Ty::I8 => 127,
        Ty::U8 => 255,
        Ty::I16 => 32767,
        Ty::U16 => 65535,
    }
}

fn at_most(greatest: u16, number: i64) -> Option<u16>
    ensures { result ≡ spec.at_most greatest number }
{
    if number < 0 || number > greatest as i64 {
        None
    } else {
        Some(number as u16)
    }
}

fn bound_of(ty: Ty, from: Ty, worth: Worth) -> Option<u16>
    ensures { (c : spec.Constant) → c.ty ≡ from → counting.worth c ≡ worth → result ≡ spec.bound_of ty c }
{
    if worth.made {
        match worth.word {
            None => None,
            Some(word) => at_most(greatest(ty), value(from, word)),
        }
    } else {
        None
    }
}

/// A bound as it is written: its number, where it is a constant expression in the range of the type.
fn bound(alloc: Global, ty: Ty, e: &Expr) -> Result<Option<u16>, Memory>
    ensures { IfOk result (λ n. n ≡ spec.bound ty e.now) }
{
    let written = as_written(e);
    let worth = constant(alloc, written)?;
    Ok(bound_of(ty, written.ty, worth))
}

fn is_named(x: u32, e: &Expr) -> bool
    ensures { result ≡ spec.is_named x e.now }
{
    let written = as_written(e);
    match &written.kind {
        ExprKind::Var(y) => x == *y,
        _ => false,
    }
}

fn is_int(ty: Ty) -> bool
    ensures { result ≡ counting.is_int ty }
{
    match ty {
        Ty::I16 => true,
        Ty::I8 | Ty::U8 | Ty::U16 => false,
    }
}

fn is_one(kind: &ExprKind) -> bool
    ensures { result ≡ spec.is_one (out-ExprKind kind.now) }
{
    match kind {
        ExprKind::Number(word) => *word == 1,
        _ => false,
    }
}

fn is_int_one(e: &Expr) -> bool
    ensures { result ≡ spec.is_int_one e.now }
{
    is_int(e.ty) && is_one(&e.kind)
}

fn by_one(by: &Option<Expr>) -> bool
    ensures { result ≡ spec.by_one by.now }
{
    match by {
        None => true,
        Some(e) => is_int_one(as_written(e)),
    }
}

fn is_add(op: BinaryOp) -> bool
    ensures { result ≡ spec.is_add op }
{
    match op {
        BinaryOp::Add => true,
        _ => false,
    }
}

/// The step adds one to the variable.
fn steps_up(x: u32, step: &Option<Action>) -> bool
    ensures { result ≡ spec.steps_up x step.now }
{
    match step {
        Some(
            Action::Update {
                to,
                at: _,
                op,
                ty: _,
                by,
            },
        ) => to.variable == x && (to.index.is_none() && (is_add(*op) && by_one(by))),
        _ => false,
    }
}

fn below_in(alloc: Global, x: u32, ty: Ty, kind: &ExprKind) -> Result<Option<u16>, Memory>
    ensures { IfOk result (λ n. n ≡ spec.below_by x ty (out-ExprKind kind.now)) }
{
    match kind {
        ExprKind::Binary {
            op: BinaryOp::Less,
            a,
            b,
        } => {
            if is_named(x, a.get()) && greatest(ty) <= greatest(a.get().ty) {
                bound(alloc, ty, b.get())
            } else {
                Ok(None)
            }
        }
        _ => Ok(None),
    }
}

/// The number that the test compares the variable with.
fn below(alloc: Global, x: u32, ty: Ty, test: &Option<Expr>) -> Result<Option<u16>, Memory>
    ensures { IfOk result (λ n. n ≡ spec.below x ty test.now) }
{
    match test {
        None => Ok(None),
        Some(e) => below_in(alloc, x, ty, &e.kind),
    }
}

fn count_to(d: &Declared, from: u16, to: Option<u16>) -> Option<Count>
    ensures { result ≡ spec.count_to d.now from to }
{
    match to {
        None => None,
        Some(to) => Some(Count {
            variable: d.variable,
            place: d.place,
            from,
            to,
        }),
    }
}

fn count_from(
    alloc: Global,
    d: &Declared,
    ty: Ty,
    test: &Option<Expr>,
    from: Option<u16>,
) -> Result<Option<Count>, Memory>
    ensures { IfOk result (λ count. count ≡ spec.count_from d.now ty test.now from) }
{
    match from {
        None => Ok(None),
        Some(from) => {
            let to = below(alloc, d.variable, ty, test)?;
            Ok(count_to(d, from, to))
        }
    }
}

fn count_bounded(
    alloc: Global,
    d: &Declared,
    ty: Ty,
    e: &Expr,
    test: &Option<Expr>,
) -> Result<Option<Count>, Memory>
    ensures { IfOk result (λ count. count ≡ spec.count_from d.now ty test.now (spec.bound ty e.now)) }
{
    let from = bound(alloc, ty, e)?;
    count_from(alloc, d, ty, test, from)
}

fn count_scalar(
    alloc: Global,
    d: &Declared,
    v: &Variable,
    test: &Option<Expr>,
) -> Result<Option<Count>, Memory>
    ensures { IfOk result (λ count. count ≡ spec.count_scalar d.now (Some v.now) d.now.values test.now) }
{
    match d.values.as_slice() {
        [e] => {
            if v.length.is_none() {
                count_bounded(alloc, d, v.ty, e, test)
            } else {
                Ok(None)
            }
        }
        _ => Ok(None),
    }
}

fn count_declared(
    alloc: Global,
    p: &Program,
    d: &Declared,
    test: &Option<Expr>,
    step: &Option<Action>,
) -> Result<Option<Count>, Memory>
    ensures { IfOk result (λ count. count ≡ spec.count_declared p.now d.now test.now step.now) }
{
    if steps_up(d.variable, step) {
        match p.variables.as_slice().get(d.variable as usize) {
            None => Ok(None),
            Some(v) => count_scalar(alloc, d, v, test),
        }
    } else {
        Ok(None)
    }
}

/// The head of a loop of a known number of turns.
pub fn count_head(
    alloc: Global,
    p: &Program,
    first: &Option<ForFirst>,
    test: &Option<Expr>,
    step: &Option<Action>,
) -> Result<Option<Count>, Memory>
    ensures { IfOk result (λ count. count ≡ spec.count_head p.now first.now test.now step.now) }
{
    match first {
        Some(ForFirst::Declare(ds)) => match ds.as_slice() {
            [d] => count_declared(alloc, p, d, test, step),
            _ => Ok(None),
        },
        _ => Ok(None),
    }
}
