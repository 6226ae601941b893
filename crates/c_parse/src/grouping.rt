ghost use Rattle.std.specs.Prelude.{◌≡◌, [], ◌∷◌, ◌++◌, IfOk, OnOk, reverse};
ghost use Rattle.c_parse.specs.Precedence.{level_of, text_of, row_of, operator_rows, tree_of};
ghost use Rattle.c_parse.specs.Pending.{folded, reduced};

use crate::no_memory::NoMemory;
use crate::raw::{Raw, RawRule};
use sqlite_items::Items;
use std::alloc::Global;

/// An operator that has its left operand and waits for its right one.
#[derive(Drop)]
pub struct Pending {
    pub left: Raw,
    pub operator: Raw,
}

// How tightly the operator with this text binds, the loosest 0; of what is no operator it is 10.
fn level(text: &[u8]) -> u8
    ensures { result ≡ row_of operator_rows text.now }
{
    match text {
        b"||" => 0,
        b"&&" => 1,
        b"|" => 2,
        b"^" => 3,
        b"&" => 4,
        b"==" | b"!=" => 5,
        b"<" | b">" | b"<=" | b">=" => 6,
        b"<<" | b">>" => 7,
        b"+" | b"-" => 8,
        b"*" | b"/" | b"%" => 9,
        _ => 10,
    }
}

#[tactic(auto, unfolding(crate::specs::Precedence::level_of))]
fn level_of(operator: &Raw) -> u8
    ensures { result ≡ level_of operator.now }
{
    match operator {
        Raw::Leaf { text, .. } => level(text.as_slice()),
        Raw::Node { .. } => level(b""),
    }
}

fn add(parts: &mut Items<Raw>, part: Raw) -> Result<(), NoMemory>
    ensures { OnOk result (parts.new ≡ parts.old ++ part ∷ []) }
{
    match parts.push(part) {
        Ok(()) => Ok(()),
        Err(_) => Err(NoMemory),
    }
}

// The tree of one operand.
fn operand(alloc: Global, operand: Raw) -> Result<Raw, NoMemory>
    ensures { IfOk result (λ tree. tree ≡ Raw.Node RawRule.Binary (operand ∷ [])) }
{
    let mut parts = Items::new(alloc);
    add(&mut parts, operand)?;
    Ok(Raw::Node {
        rule: RawRule::Binary,
        parts,
    })
}

// The tree of an operator with its operands.
fn binary(alloc: Global, pending: Pending, right: Raw) -> Result<Raw, NoMemory>
    ensures { IfOk result (λ tree. tree ≡ Raw.Node RawRule.Binary (pending.left ∷ pending.operator ∷ right ∷ [])) }
{
    let Pending { left, operator } = pending;
    let mut parts = Items::new(alloc);
    add(&mut parts, left)?;
    add(&mut parts, operator)?;
    add(&mut parts, right)?;
    Ok(Raw::Node {
        rule: RawRule::Binary,
        parts,
    })
}

fn hold(pending: &mut Vec<Pending>, last: Pending) -> Result<(), NoMemory>
    ensures { OnOk result (reverse pending.new.items ≡ last ∷ reverse pending.old.items) }
{
    match pending.push(last) {
        Ok(()) => Ok(()),
        Err(_) => Err(NoMemory),
    }
}

// The operators that bind as tightly as this one, or more tightly, take the tree as their right
// operand, one after another. The tree behind them is this operator's left operand.
fn reduce(
    alloc: Global,
    pending: &mut Vec<Pending>,
    tree: Raw,
    operator: &Raw,
) -> Result<Raw, NoMemory>
    ensures { IfOk result (λ left. (reverse pending.new.items, left) ≡ reduced operator.now (reverse pending.old.items) tree) }
{
    let bound = level_of(operator);
    let mut tree = tree;
    while let Some(last) = pending.pop() {
        if level_of(&last.operator) < bound {
            hold(pending, last)?;
            return Ok(tree);
        }
        tree = binary(alloc, last, tree)?;
    }
    Ok(tree)
}

// All operators that wait take their right operands.
fn fold(alloc: Global, pending: Vec<Pending>, tree: Raw) -> Result<Raw, NoMemory>
    ensures { IfOk result (λ whole. whole ≡ folded (reverse pending.items) tree) }
{
    let mut pending = pending;
    let mut tree = tree;
    while let Some(last) = pending.pop() {
        tree = binary(alloc, last, tree)?;
    }
    Ok(tree)
}

// The parts, the last first.
fn reversed(alloc: Global, parts: Items<Raw>) -> Result<Vec<Raw>, NoMemory>
    ensures { IfOk result (λ rest. reverse rest.items ≡ parts) }
{
    let mut parts = parts;
    let mut rest = Vec::new(alloc);
    while let Some(part) = parts.pop() {
        match rest.push(part) {
            Ok(()) => {},
            Err(_) => return Err(NoMemory),
        }
    }
    Ok(rest)
}

/// The tree of operands with operators between them.
pub fn tree_of(alloc: Global, parts: Items<Raw>) -> Result<Raw, NoMemory>
    ensures { IfOk result (λ tree. tree ≡ tree_of parts) }
{
    let mut rest = reversed(alloc, parts)?;
    let Some(first) = rest.pop() else {
        return Ok(Raw::Node {
            rule: RawRule::Binary,
            parts: Items::new(alloc),
        });
    };
    let mut tree = operand(alloc, first)?;
    let mut pending = Vec::new(alloc);
    while let Some(operator) = rest.pop() {
        let Some(next) = rest.pop() else {
            return fold(alloc, pending, tree);
        };
        let left = reduce(alloc, &mut pending, tree, &operator)?;
        hold(&mut pending, Pending { left, operator })?;
        tree = operand(alloc, next)?;
    }
    fold(alloc, pending, tree)
}
