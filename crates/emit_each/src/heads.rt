//! Before which operations a head stands where no plan says it.

ghost use Rattle.std.specs.Prelude.{◌≡◌, ◌≤◌, ◌<◌, ◌+◌, ◌&&◌, ℕ, nat_le, length, IfOk};
ghost use Rattle.flow_graph.specs.declared.graph.Item.{out-Item};
ghost use Rattle.graph_code.specs.Heads.{are_straight as are_straight_lem, has_head as has_head_lem};
ghost use Rattle.op_cost.specs.Weights.{overhead};
ghost use Rattle.each_image.specs.Each.{all_weights};
ghost use Rattle.emit_each.specs.Parts.{head_in as head_in_lem, straight_in};

use crate::budget::all_fit;
use crate::lists::first_and_rest;
use base_io::Memory;
use board_table::Board;
use flow_graph::{Func, Item, Node};
use std::alloc::Global;

/// Neither a branch nor a loop nor a leave.
#[cycle(straight)]
fn is_straight(item: &Item) -> bool
    ensures { result ≡ straight_in (out-Item item.now) }
{
    match item {
        Item::One(_) => true,
        Item::CallTo { op: _, function: _ } => true,
        Item::Switch { items } => are_straight(items.as_slice()),
        _ => false,
    }
}

#[cycle(straight)]
fn are_straight(items: &[Item]) -> bool
    ensures { result ≡ are_straight_lem items.now }
{
    let mut left = items;
    while let Some((item, rest)) = first_and_rest(left) {
        if !is_straight(item) {
            return false;
        }
        left = rest;
    }
    true
}

/// Whether the operations of the function are one stretch: it has neither branch nor loop nor leave, and one charge pays for all.
pub fn is_one_stretch(main: &Func, nodes: &[Node], b: &Board) -> bool
    requires few { length nodes.now ≤ 4096 }
    ensures { result ≡ (are_straight_lem main.now.body && nat_le (all_weights b.now nodes.now + overhead b.now) b.now.budget) }
{
    are_straight(main.body.as_slice()) && all_fit(nodes, b)
}

fn has_head(one_stretch: bool, number: usize) -> bool
    ensures { result ≡ has_head_lem one_stretch number }
{
    if one_stretch { number == 0 } else { true }
}

/// Whether so many operations have heads: the first has, and each other one unless all are one stretch.
pub fn heads_of(alloc: Global, count: usize, one_stretch: bool) -> Result<Vec<bool>, Memory>
    ensures { IfOk result (λ heads. (n : ℕ) → n < count → head_in_lem heads.items n ≡ has_head_lem one_stretch n) }
{
    let mut heads = Vec::new(alloc);
    for number in 0..count {
        if heads.push(has_head(one_stretch, number)).is_err() {
            return Err(Memory);
        }
    }
    Ok(heads)
}

/// Whether the operation of this number has a head.
pub fn head_in(heads: &[bool], number: u32) -> bool
    ensures { result ≡ head_in_lem heads.now number }
{
    heads.get(number as usize).copied().unwrap_or(false)
}
