//! Constant expressions (C11 6.6). First operands may lie some 1,000 deep in each other: they are gone through in loops.
ghost use Rattle.std.specs.Prelude.{◌≡◌, ℕ, suc, ◌≤◌, ◌∷◌, [], map, reverse, Some, None, IfOk, MatchOption, OnOk};
ghost use Rattle.std.specs.Option.{option_and_then};
ghost use Rattle.c_tree.specs.declared.tree.Expr.{Expr, size-Expr};
ghost use Rattle.c_tree.specs.declared.tree.ExprKind.{out-ExprKind};
ghost use Rattle.c_values.specs.Values.{binary_of};
ghost use Rattle.c_tree.specs.Nodes.{decides};
ghost use Rattle.c_typing.specs.Constants as spec;
ghost use Rattle.c_expressions.specs.Operands as operands;

use c_parse::NoMemory;
use c_tree::{Expr, ExprKind};
use c_values::{BinaryOp, binary, converted, from_test, is_set, unary};
use std::alloc::Global;

/// The word of a constant expression; other expressions, and those that trap, have none.
pub fn constant_of(alloc: Global, e: &Expr) -> Result<Option<u16>, NoMemory>
    ensures { IfOk result (λ word. word ≡ spec.constant_of e.now) }
{
    if is_made(e) { word(alloc, e) } else { Ok(None) }
}

/// The operand that is worked out first, of what constants are made of.
fn first_of<'a>(e: &'a Expr) -> Option<&'a Expr>
    ensures { MatchOption result (operands.first_of (out-ExprKind e.now.kind) ≡ None) (λ a. operands.first_of (out-ExprKind e.now.kind) ≡ Some a.now) }
{
    match &e.kind {
        ExprKind::Convert(a) => Some(a.get()),
        ExprKind::Unary { op: _, a } => Some(a.get()),
        ExprKind::Binary { op: _, a, b: _ } => Some(a.get()),
        _ => None,
    }
}

/// An expression is made of literals, conversions and operators alone.
#[cycle(made)]
fn is_made(e: &Expr) -> bool
    ensures { (n : ℕ) → size-Expr e.now ≤ n → result ≡ spec.is_made n e.now }
{
    let mut at = e;
    while let Some(first) = first_of(at) {
        if is_made_besides(at) {
            at = first;
        } else {
            return false;
        }
    }
    is_made_besides(at)
}

/// It is, but for its first operand.
#[cycle(made)]
fn is_made_besides(e: &Expr) -> bool
    ensures { (n : ℕ) → size-Expr e.now ≤ suc n → result ≡ operands.is_made_besides (spec.is_made n) (out-ExprKind e.now.kind) }
{
    match &e.kind {
        ExprKind::Number(_) => true,
        ExprKind::Convert(_) => true,
        ExprKind::Unary { op: _, a: _ } => true,
        ExprKind::Binary { op: _, a: _, b } => is_made(b.get()),
        _ => false,
    }
}

/// An expression goes before the others.
fn keep<'a>(above: &mut Vec<&'a Expr>, e: &'a Expr) -> Result<(), NoMemory>
    ensures { OnOk result (map (λ r. r.now) (reverse above.new.items) ≡ e.now ∷ map (λ r. r.now) (reverse above.old.items)) }
{
    match above.push(e) {
        Ok(_) => Ok(()),
        Err(_) => Err(NoMemory),
    }
}

/// Takes the expression that was kept last.
fn last_kept<'a>(above: &mut Vec<&'a Expr>) -> Option<&'a Expr>
    ensures { MatchOption result (map (λ r. r.now) (reverse above.old.items) ≡ []) (λ e. map (λ r. r.now) (reverse above.old.items) ≡ e.now ∷ map (λ r. r.now) (reverse above.new.items)) }
{
    above.pop()
}

/// The word of an expression that is made so, or none at a trap.
#[cycle(words)]
fn word(alloc: Global, e: &Expr) -> Result<Option<u16>, NoMemory>
    ensures { IfOk result (λ word. (n : ℕ) → size-Expr e.now ≤ n → word ≡ spec.word_to n e.now) }
{
    let mut above = Vec::new(alloc);
    let mut at = e;
    while let Some(first) = first_of(at) {
        keep(&mut above, at)?;
        at = first;
    }
    rests(alloc, above, leaf_word(at))
}

/// The word of an expression with no operand.
fn leaf_word(e: &Expr) -> Option<u16>
    ensures { result ≡ operands.leaf_word (out-ExprKind e.now.kind) }
{
    match &e.kind {
        ExprKind::Number(word) => Some((*word % 65536) as u16),
        _ => None,
    }
}

/// The word of the last of these, from that of the first one's first operand on. Each is the first operand of the next.
#[cycle(words)]
fn rests(alloc: Global, above: Vec<&Expr>, word: Option<u16>) -> Result<Option<u16>, NoMemory>
    ensures { (at e : Expr) → operands.IsWithin (map (λ r. r.now) (reverse above.entry.items)) at e → operands.IsWordOf word at → IfOk result (λ w. operands.IsWordOf w e) }
{
    let mut above = above;
    let mut word = word;
    while let Some(e) = last_kept(&mut above) {
        word = rest(alloc, e, word)?;
    }
    Ok(word)
}

/// The word of an expression, from that of its first operand on.
#[cycle(words)]
fn rest(alloc: Global, e: &Expr, word: Option<u16>) -> Result<Option<u16>, NoMemory>
    ensures { IfOk result (λ w. (n : ℕ) → size-Expr e.now ≤ suc n → w ≡ option_and_then (operands.rest_of (spec.word_to n) e.now.ty (out-ExprKind e.now.kind)) word) }
{
    match word {
        None => Ok(None),
        Some(x) => match &e.kind {
            ExprKind::Convert(a) => Ok(Some(converted(e.ty, a.get().ty, x))),
            ExprKind::Unary { op, a } => Ok(Some(unary(a.get().ty, *op, x))),
            ExprKind::Binary { op, a, b } => second_word(alloc, *op, a.get(), b.get(), x),
            _ => Ok(None),
        },
    }
}

/// The word of an operator of two operands, of which the first is worked out.
#[cycle(words)]
fn second_word(
    alloc: Global,
    op: BinaryOp,
    a: &Expr,
    b: &Expr,
    x: u16,
) -> Result<Option<u16>, NoMemory>
    ensures { IfOk result (λ w. (n : ℕ) → size-Expr b.now ≤ n → w ≡ spec.second_word (spec.word_to n) op a.now b.now x) }
{
    if decides(op, x) {
        return Ok(Some(from_test(is_set(x))));
    }
    match word(alloc, b)? {
        Some(y) => Ok(worked(op, a, b, x, y)),
        None => Ok(None),
    }
}

/// An operator's word, or none at a trap.
fn worked(op: BinaryOp, a: &Expr, b: &Expr, x: u16, y: u16) -> Option<u16>
    ensures { result ≡ spec.given (binary_of a.now.ty b.now.ty op x y) }
{
    match binary(a.ty, b.ty, op, x, y) {
        Ok(w) => Some(w),
        Err(_) => None,
    }
}

/// The first operand decides.
fn decides(op: BinaryOp, x: u16) -> bool
    ensures { result ≡ decides op x }
{
    match op {
        BinaryOp::And => !is_set(x),
        BinaryOp::Or => is_set(x),
        _ => false,
    }
}
