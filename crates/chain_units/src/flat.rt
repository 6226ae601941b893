//! Whether items fit one charge with all objects in FRAM.

ghost use Rattle.std.specs.Prelude.{◌≡◌, ◌+◌, ◌-◌, ◌^◌, ◌&&◌, IfOk, min, nat_le};
ghost use Rattle.chain_units.specs.Known as known;
ghost use Rattle.chain_units.specs.Known.{told_weights};
ghost use Rattle.chain_units.specs.Marks.{are_flat};
ghost use Rattle.chain_units.specs.Parts.{begins_pair};

use crate::knowledge::Knowledge;
use crate::lists::{begins_counted, first_and_rest, two_of};
use crate::weighing::fram_cost;
use base_io::Memory;
use board_table::Board;
use flow_graph::Item;
use item_weights::Weights;
use std::alloc::Global;

/// What items cost with all objects in FRAM, as far as a number can tell it.
fn weight_in_fram(board: &Board, weights: &Weights) -> u64
    ensures { result ≡ min (known.weight_in_fram board.now (told_weights weights.now)) (2 ^ 64 - 1) }
{
    let mut cost = weights.base;
    let mut left = weights.uses.as_slice();
    while let [uses, behind @ ..] = left {
        cost = cost.saturating_add(fram_cost(board, uses));
        left = behind;
    }
    cost
}

/// Whether weights fit one charge with all objects in FRAM.
fn fits_in_fram<K: Knowledge>(k: &K, weights: &Weights) -> bool
    ensures { result ≡ nat_le (known.weight_in_fram (K.known k.now).board (told_weights weights.now) + (K.known k.now).overhead) (K.known k.now).board.budget }
{
    let board = k.board();
    let cost = weight_in_fram(&board, weights).saturating_add(k.overhead());
    cost <= board.budget
}

/// Whether items have a weight and fit one charge with all objects in FRAM.
pub fn are_flat<K: Knowledge>(alloc: Global, k: &K, items: &[Item]) -> Result<bool, Memory>
    ensures { IfOk result (λ flat. flat ≡ are_flat (K.known k.now) items.now) }
{
    let found = k.weights(alloc, items)?;
    match found {
        Some(weights) => Ok(fits_in_fram(k, &weights)),
        None => Ok(false),
    }
}

/// Whether a loop of known count stands behind its Copy, and both are flat together.
pub fn begins_pair<K: Knowledge>(alloc: Global, k: &K, items: &[Item]) -> Result<bool, Memory>
    ensures { IfOk result (λ yes. yes ≡ begins_pair (K.known k.now) items.now) }
{
    match first_and_rest(items) {
        Some((_first, behind)) => {
            if begins_counted(behind) {
                are_flat(alloc, k, two_of(items))
            } else {
                Ok(false)
            }
        }
        None => Ok(false),
    }
}
