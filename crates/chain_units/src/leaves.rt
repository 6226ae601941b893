//! Whether a `continue` in some items goes to the step of the loop that holds them.

ghost use Rattle.std.specs.Prelude.{◌≡◌, ◌||◌};
ghost use Rattle.flow_graph.specs.declared.graph.Item.{out-Item};
ghost use Rattle.chain_units.specs.Marks.{some_continues};
ghost use Rattle.chain_units.specs.Parts.{continues_in};

use crate::lists::first_and_rest;
use flow_graph::{Item, LeaveTo};

#[cycle(continuing)]
fn continues(item: &Item) -> bool
    ensures { result ≡ continues_in (out-Item item.now) }
{
    match item {
        Item::Branch { test: _, yes, no } => {
            some_continues(yes.as_slice()) || some_continues(no.as_slice())
        }
        Item::Switch { items } => some_continues(items.as_slice()),
        Item::Leave { op: _, to } => match to {
            LeaveTo::Continue => true,
            LeaveTo::Break => false,
            LeaveTo::Back => false,
        },
        Item::One(_) => false,
        Item::Loop { .. } => false,
        Item::CallTo { .. } => false,
    }
}

/// Whether some item holds a `continue` of the loop around them.
#[cycle(continuing)]
pub fn some_continues(items: &[Item]) -> bool
    ensures { result ≡ some_continues items.now }
{
    let mut left = items;
    while let Some((item, rest)) = first_and_rest(left) {
        if continues(item) {
            return true;
        }
        left = rest;
    }
    false
}

/// Whether a `continue` goes to the step of a loop.
pub fn turn_continues(pre: &[Item], post: &[Item], step: &[Item]) -> bool
    ensures { result ≡ ((some_continues pre.now || some_continues post.now) || some_continues step.now) }
{
    some_continues(pre) || some_continues(post) || some_continues(step)
}
