//! Which functions an expression calls.
ghost use Rattle.std.specs.Prelude.{◌≡◌, ◌||◌, [], ◌∷◌, map, Some, None, MatchOption};
ghost use Rattle.c_tree.specs.Chains as chains;
ghost use Rattle.c_tree.specs.declared.tree.ExprKind.{out-ExprKind};
ghost use Rattle.lowered_graphs.specs.Exprs as spec;
ghost use Rattle.c_lower.specs.Holding.{is_among};
ghost use Rattle.c_lower.specs.Operands.{late_first, behind_callees};

use crate::lists::first_and_rest;
use c_tree::{Expr, ExprKind};

/// Any function of the program, or the one of this number.
#[derive(Clone, Copy, PartialEq, Eq, Debug)]
pub enum Callee {
    Any,
    Function(u32),
}

/// The first operand of an expression.
pub fn first_of<'a>(e: &'a Expr) -> Option<&'a Expr>
    ensures { MatchOption result (chains.first_of (out-ExprKind e.now.kind) ≡ None) (λ a. chains.first_of (out-ExprKind e.now.kind) ≡ Some a.now) }
{
    match &e.kind {
        ExprKind::Element { array: _, index } => Some(index.get()),
        ExprKind::Convert(inner) => Some(inner.get()),
        ExprKind::Unary { op: _, a } => Some(a.get()),
        ExprKind::Binary { op: _, a, b: _ } => Some(a.get()),
        ExprKind::Cond {
            test,
            yes: _,
            no: _,
        } => Some(test.get()),
        ExprKind::Output(inner) => Some(inner.get()),
        _ => None,
    }
}

/// Whether an expression calls the function. It goes down the first operands in a loop: they may lie some 1,000 deep.
#[cycle(calling)]
pub fn is_called(callee: Callee, e: &Expr) -> bool
    ensures { (s : spec.Setting) → result ≡ is_among callee (spec.lowered s e.now).callees }
{
    let mut at = e;
    while let Some(first) = first_of(at) {
        if is_called_behind(callee, at) {
            return true;
        }
        at = first;
    }
    is_called_behind(callee, at)
}

/// Whether what stands behind the first operand of an expression calls the function, or the expression does.
#[cycle(calling)]
fn is_called_behind(callee: Callee, e: &Expr) -> bool
    ensures { (s : spec.Setting) → result ≡ is_among callee (behind_callees s (out-ExprKind e.now.kind)) }
{
    match &e.kind {
        ExprKind::Binary { op: _, a: _, b } => is_called(callee, b.get()),
        ExprKind::Cond { test: _, yes, no } => is_called_by_two(callee, yes.get(), no.get()),
        ExprKind::Call { function, args } => {
            is_called_by_any(callee, args.as_slice()) || is_function(callee, *function)
        }
        _ => false,
    }
}

#[cycle(calling)]
fn is_called_by_two(callee: Callee, a: &Expr, b: &Expr) -> bool
    ensures { (s : spec.Setting) → result ≡ (is_among callee (spec.lowered s a.now).callees || is_among callee (spec.lowered s b.now).callees) }
{
    is_called(callee, a) || is_called(callee, b)
}

/// Whether one of the expressions calls the function.
#[cycle(calling)]
pub fn is_called_by_any(callee: Callee, args: &[Expr]) -> bool
    ensures { (s : spec.Setting) → result ≡ is_among callee (spec.callees_of (map (spec.lowered s) args.now)) }
{
    let mut left = args;
    while let Some((e, rest)) = first_and_rest(left) {
        if is_called(callee, e) {
            return true;
        }
        left = rest;
    }
    false
}

fn is_function(callee: Callee, function: u32) -> bool
    ensures { result ≡ is_among callee (function ∷ []) }
{
    match callee {
        Callee::Any => true,
        Callee::Function(f) => f == function,
    }
}

/// Whether an expression calls a function of the program.
pub fn calls(e: &Expr) -> bool
    ensures { (s : spec.Setting) → result ≡ spec.calls (spec.lowered s e.now) }
{
    is_called(Callee::Any, e)
}

/// Whether one of the expressions calls a function of the program.
pub fn calls_any(args: &[Expr]) -> bool
    ensures { (s : spec.Setting) → result ≡ spec.has_any (spec.callees_of (map (spec.lowered s) args.now)) }
{
    is_called_by_any(Callee::Any, args)
}

/// Whether an expression calls, or what stands behind it.
pub fn is_late(e: &Expr, later: bool) -> bool
    ensures { (s : spec.Setting) → result ≡ (later || spec.calls (spec.lowered s e.now)) }
{
    later || calls(e)
}

/// Whether one of the expressions calls, or what stands behind them.
pub fn is_late_argument(rest: &[Expr], later: bool) -> bool
    ensures { (s : spec.Setting) → result ≡ (later || spec.has_any (spec.callees_of (map (spec.lowered s) rest.now))) }
{
    later || calls_any(rest)
}

/// Whether an operand behind the first one of an expression calls, or one behind the expression.
pub fn is_late_first(e: &Expr, later: bool) -> bool
    ensures { (s : spec.Setting) → result ≡ late_first s (out-ExprKind e.now.kind) later }
{
    match &e.kind {
        ExprKind::Binary { op: _, a: _, b } => later || calls(b.get()),
        ExprKind::Cond { test: _, yes, no } => later || (calls(yes.get()) || calls(no.get())),
        _ => later,
    }
}
