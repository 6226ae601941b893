//! Constant expressions (C11 6.6).
ghost use Rattle.std.specs.Prelude.{◌≡◌, [], ◌∷◌, Some, None, IfOk, MatchOption, map, reverse};
ghost use Rattle.std.specs.Option.{option_map, option_and_then};
ghost use Rattle.c_tree.specs.Nodes as nodes;
ghost use Rattle.c_tree.specs.declared.tree.ExprKind.{out-ExprKind};
ghost use Rattle.lowered_graphs.specs.Counted as spec;
ghost use Rattle.c_values.specs.Values as spec_values;
ghost use Rattle.c_lower.specs.Counting as counting;

use crate::calling::first_of;
use base_io::Memory;
use c_tree::{Expr, ExprKind};
use c_values::{BinaryOp, Ty, UnaryOp, binary, converted, from_test, is_set, unary};
use std::alloc::Global;

/// Whether an expression is made of the parts of constant expressions, and its word, unless it traps.
#[derive(Clone, Copy, PartialEq, Eq, Debug)]
pub struct Worth {
    pub made: bool,
    pub word: Option<u16>,
}

/// It isn't made of such parts.
const NONE: Worth = Worth {
    made: false,
    word: None,
};

fn decides(op: BinaryOp, x: u16) -> bool
    ensures { result ≡ nodes.decides op x }
{
    match op {
        BinaryOp::And => !is_set(x),
        BinaryOp::Or => is_set(x),
        _ => false,
    }
}

fn operated(op: BinaryOp, ty: Ty, by: Ty, x: u16, y: Option<u16>) -> Option<u16>
    ensures { result ≡ option_and_then (λ w. spec.given (spec_values.binary_of ty by op x w)) y }
{
    match y {
        None => None,
        Some(word) => match binary(ty, by, op, x, word) {
            Ok(word) => Some(word),
            Err(_) => None,
        },
    }
}

fn second_worth(op: BinaryOp, ty: Ty, by: Ty, b: Worth, x: u16) -> Option<u16>
    ensures { result ≡ counting.second_worth op ty by b x }
{
    if decides(op, x) {
        Some(from_test(is_set(x)))
    } else {
        operated(op, ty, by, x, b.word)
    }
}

fn binary_worth(op: BinaryOp, ty: Ty, by: Ty, a: Worth, b: Worth) -> Worth
    ensures { result ≡ counting.binary_worth op ty by a b }
{
    Worth {
        made: a.made && b.made,
        word: match a.word {
            None => None,
            Some(x) => second_worth(op, ty, by, b, x),
        },
    }
}

fn unary_worth(op: UnaryOp, ty: Ty, a: Worth) -> Worth
    ensures { result ≡ record { made = a.made; word = option_map (spec_values.unary_of ty op) a.word } }
{
    Worth {
        made: a.made,
        word: match a.word {
            None => None,
            Some(x) => Some(unary(ty, op, x)),
        },
    }
}

fn converted_worth(to: Ty, from: Ty, a: Worth) -> Worth
    ensures { result ≡ record { made = a.made; word = option_map (spec_values.converted to from) a.word } }
{
    Worth {
        made: a.made,
        word: match a.word {
            None => None,
            Some(x) => Some(converted(to, from, x)),
        },
    }
}

/// An expression goes before the others.
fn keep<'a>(above: &mut Vec<&'a Expr>, e: &'a Expr) -> Result<(), Memory>
    ensures { IfOk result (λ u. map (λ r. r.now) (reverse above.new.items) ≡ e.now ∷ map (λ r. r.now) (reverse above.old.items)) }
{
    match above.push(e) {
        Ok(_) => Ok(()),
        Err(_) => Err(Memory),
    }
}

/// Takes the expression that was kept last.
fn last_kept<'a>(above: &mut Vec<&'a Expr>) -> Option<&'a Expr>
    ensures { MatchOption result (map (λ r. r.now) (reverse above.old.items) ≡ []) (λ e. map (λ r. r.now) (reverse above.old.items) ≡ e.now ∷ map (λ r. r.now) (reverse above.new.items)) }
{
    above.pop()
}

/// An expression that has no first operand.
fn leaf(kind: &ExprKind) -> Worth
    ensures { result ≡ counting.leaf_worth (out-ExprKind kind.now) }
{
    match kind {
        ExprKind::Number(word) => Worth {
            made: true,
            word: Some((*word % 65536) as u16),
        },
        _ => NONE,
    }
}

/// An expression as a constant expression. It goes down the first operands in a loop: they may lie some 1,000 deep.
#[cycle(constants)]
pub fn constant(alloc: Global, e: &Expr) -> Result<Worth, Memory>
    ensures { IfOk result (λ w. w ≡ counting.worth (spec.constant e.now)) }
{
    let mut above = Vec::new(alloc);
    let mut at = e;
    while let Some(first) = first_of(at) {
        keep(&mut above, at)?;
        at = first;
    }
    rests(alloc, above, leaf(&at.kind))
}

/// What comes behind a first operand, from the innermost kept outwards.
#[cycle(constants)]
fn rests(alloc: Global, above: Vec<&Expr>, worth: Worth) -> Result<Worth, Memory>
    ensures { IfOk result (λ w. w ≡ counting.rests_worth (map (λ r. r.now) (reverse above.entry.items)) worth) }
{
    let mut above = above;
    let mut worth = worth;
    while let Some(e) = last_kept(&mut above) {
        worth = rest(alloc, &e.kind, e.ty, worth)?;
    }
    Ok(worth)
}

/// What comes behind the first operand.
#[cycle(constants)]
fn rest(alloc: Global, kind: &ExprKind, ty: Ty, worth: Worth) -> Result<Worth, Memory>
    ensures { IfOk result (λ w. w ≡ counting.rest_worth (out-ExprKind kind.now) ty worth) }
{
    match kind {
        ExprKind::Convert(e) => Ok(converted_worth(ty, e.get().ty, worth)),
        ExprKind::Unary { op, a } => Ok(unary_worth(*op, a.get().ty, worth)),
        ExprKind::Binary { op, a, b } => behind_first(alloc, *op, a.get().ty, b.get(), worth),
        _ => Ok(NONE),
    }
}

/// What comes behind the first operand of an operator.
#[cycle(constants)]
fn behind_first(
    alloc: Global,
    op: BinaryOp,
    ty: Ty,
    b: &Expr,
    worth: Worth,
) -> Result<Worth, Memory>
    ensures { IfOk result (λ w. w ≡ counting.binary_worth op ty b.now.ty worth (counting.worth (spec.constant b.now))) }
{
    let second = constant(alloc, b)?;
    Ok(binary_worth(op, ty, b.ty, worth, second))
}
