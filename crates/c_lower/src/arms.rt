//! The groups of a switch (C11 6.8.4.2).
ghost use Rattle.std.specs.Prelude.{◌≡◌, ◌++◌, [], ◌∷◌, IfOk};
ghost use Rattle.std.specs.Option.{option_copied};
ghost use Rattle.c_tree.specs.Nodes as nodes;
ghost use Rattle.lowered_graphs.specs.Stmts as spec;
ghost use Rattle.flow_graph.specs.declared.graph.Operand.TheVariants as operand;
ghost use Rattle.c_lower.specs.Arms as nesting;
ghost use Rattle.c_lower.specs.Emitting.{Emits};

use crate::lists::first_and_rest;
use crate::making::{Making, ZERO, make};
use base_io::Memory;
use c_tree::Label;
use flow_graph::{Item, Op, OpKind, Operand};
use sqlite_items::Items;

/// A group of a switch: the operations that compare its labels, the test of what they give, and what the group does.
#[derive(Drop)]
pub struct Arm {
    pub before: Items<Item>,
    pub test: Op,
    pub yes: Items<Item>,
}

/// Whether one of the labels is `default`.
pub fn has_default(labels: &[Label]) -> bool
    ensures { result ≡ nodes.has_default labels.now }
{
    let mut left = labels;
    while let Some((label, rest)) = first_and_rest(left) {
        if label.value.is_none() {
            return true;
        }
        left = rest;
    }
    false
}

/// The word of a label as a constant; a label's word is below 2^16.
fn label_word(label: &Label) -> Result<Operand, Memory>
    ensures { IfOk result (λ a. a ≡ operand.Const (spec.label_word label.now.value)) }
{
    match label.value {
        None => Ok(ZERO),
        Some(word) => match u16::try_from(word) {
            Ok(word) => Ok(Operand::Const(word)),
            Err(_) => Err(Memory),
        },
    }
}

fn equals(v: Operand, label: &Label, to: &mut Making) -> Result<Operand, Memory>
    ensures { IfOk result (λ x. Emits (spec.equals v label.now) x to.old to.new) }
{
    let word = label_word(label)?;
    make(OpKind::Eq, v, word, None, label.place, to)
}

fn one_more_label(
    v: Operand,
    found: Operand,
    label: &Label,
    to: &mut Making,
) -> Result<Operand, Memory>
    ensures { IfOk result (λ x. Emits (spec.one_more_label v found label.now) x to.old to.new) }
{
    let equal = equals(v, label, to)?;
    make(OpKind::BitOr, found, equal, None, label.place, to)
}

fn more_labels(
    v: Operand,
    found: Operand,
    labels: &[Label],
    to: &mut Making,
) -> Result<Operand, Memory>
    ensures { IfOk result (λ x. Emits (spec.more_labels v found labels.now) x to.old to.new) }
{
    let mut left = labels;
    let mut found = found;
    while let Some((label, rest)) = first_and_rest(left) {
        found = one_more_label(v, found, label, to)?;
        left = rest;
    }
    Ok(found)
}

/// Whether one of the labels has the word.
pub fn labels(v: Operand, labels: &[Label], to: &mut Making) -> Result<Operand, Memory>
    ensures { IfOk result (λ x. Emits (spec.labels v labels.now) x to.old to.new) }
{
    match first_and_rest(labels) {
        None => Ok(ZERO),
        Some((first, rest)) => {
            let found = equals(v, first, to)?;
            more_labels(v, found, rest, to)
        }
    }
}

/// Puts an arm behind the others.
pub fn put_arm(arms: &mut Items<Arm>, arm: Arm) -> Result<(), Memory>
    ensures { IfOk result (λ u. arms.new ≡ arms.old ++ arm ∷ []) }
{
    match arms.push(arm) {
        Ok(_) => Ok(()),
        Err(_) => Err(Memory),
    }
}

/// The items of an arm, with these in what isn't taken of it.
fn nest_one(arm: Arm, items: Items<Item>) -> Result<Items<Item>, Memory>
    ensures { IfOk result (λ xs. xs ≡ nesting.nested (arm ∷ []) items) }
{
    let Arm {
        mut before,
        test,
        yes,
    } = arm;
    match before.push(Item::Branch {
        test,
        yes,
        no: items,
    }) {
        Ok(_) => Ok(before),
        Err(_) => Err(Memory),
    }
}

/// The items of arms, each in what isn't taken of the one before it, with these in what isn't taken of the last.
pub fn nest(arms: Items<Arm>, last: Items<Item>) -> Result<Items<Item>, Memory>
    ensures { IfOk result (λ xs. xs ≡ nesting.nested arms last) }
{
    let mut arms = arms;
    let mut items = last;
    while let Some(arm) = arms.pop() {
        items = nest_one(arm, items)?;
    }
    Ok(items)
}
