//! The weights of items, of an operation, and of a turn of a loop.

ghost use Rattle.std.specs.Prelude.{◌≡◌, ◌∷◌, [], ℕ, IfOk, IfSome, Option, Some};
ghost use Rattle.flow_graph.specs.declared.graph.Item.TheVariants as variants;
ghost use Rattle.item_weights.specs.Weights.{Weight, items_weight, joined, no_weight, plus};
ghost use Rattle.board_weights.specs.OnBoard.{own};
ghost use Rattle.chain_units.specs.Known.{nothing, or_nothing, told_weights};
ghost use Rattle.chain_units.specs.Marks.{turn_of};
ghost use Rattle.chain_units.specs.Sums.{Rises};
ghost use Rattle.checkpoint_graph.specs.Knowing.{IsTold, known_of, told};

use crate::known::GraphOnBoard;
use base_io::Memory;
use board_weights::OnBoard;
use chain_units::add;
use flow_graph::{Item, Op};
use item_weights::{Weights, weight};
use std::alloc::Global;
use std::slice::from_ref;

/// The weights of items, where they have any.
pub fn weights_of(
    alloc: Global,
    on: &GraphOnBoard,
    items: &[Item],
) -> Result<Option<Weights>, Memory>
    ensures { IfOk result (λ found. IsTold on.now.objects (items_weight (own on.now.board) on.now.costs.now items.now) found) }
{
    let board = OnBoard { board: on.board };
    weight(alloc, &board, on.costs, items, on.objects)
}

fn no_weights(alloc: Global) -> Weights
    ensures { told_weights result ≡ nothing }
{
    Weights {
        base: 0,
        uses: Vec::new(alloc),
    }
}

/// The weights of an operation by itself.
pub fn op_weights(alloc: Global, on: &GraphOnBoard, op: &Op) -> Result<Weights, Memory>
    ensures { IfOk result (λ w. told_weights w ≡ or_nothing ((known_of on.now).weights (variants.One op.now ∷ []))) }
{
    let one = Item::One(*op);
    let found = weights_of(alloc, on, from_ref(&one))?;
    match found {
        Some(weights) => Ok(weights),
        None => Ok(no_weights(alloc)),
    }
}

/// The weights of items behind others, where both have any.
fn with_items(
    alloc: Global,
    on: &GraphOnBoard,
    before: Option<Weights>,
    items: &[Item],
) -> Result<Option<Weights>, Memory>
    ensures { IfOk result (λ found. (o : Option Weight) → IsTold on.now.objects o before → IsTold on.now.objects (joined plus o (items_weight (own on.now.board) on.now.costs.now items.now)) found) }
{
    match before {
        None => Ok(None),
        Some(sum) => add_found(sum, weights_of(alloc, on, items)?),
    }
}

/// Adds weights to others, where there are any.
fn add_found(sum: Weights, more: Option<Weights>) -> Result<Option<Weights>, Memory>
    ensures { IfOk result (λ found. (n : ℕ) (v : Weight) (o : Option Weight) → told_weights sum ≡ told n v → IsTold n o more → IsTold n (joined plus (Some v) o) found) }
{
    match more {
        None => Ok(None),
        Some(more) => {
            let mut sum = sum;
            add(&mut sum, &more)?;
            Ok(Some(sum))
        }
    }
}

/// The weights of a turn of a loop without its last Go, where it has any.
pub fn turn_weights(
    alloc: Global,
    on: &GraphOnBoard,
    pre: &[Item],
    test: &Op,
    post: &[Item],
    step: &[Item],
) -> Result<Option<Weights>, Memory>
    ensures told { IfOk result (λ found. IsTold on.now.objects (items_weight (own on.now.board) on.now.costs.now (turn_of pre.now test.now post.now step.now)) found) }
    ensures rises { IfOk result (λ found. IfSome found (λ w. Rises w.uses.items)) }
{
    let one = Item::One(*test);
    let before = with_items(alloc, on, Some(no_weights(alloc)), pre)?;
    let tested = with_items(alloc, on, before, from_ref(&one))?;
    let passed = with_items(alloc, on, tested, post)?;
    with_items(alloc, on, passed, step)
}
