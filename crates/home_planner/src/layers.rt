//! The pairs of words and cost of the gains, one gain after another from the last on.

ghost use Rattle.std.specs.Prelude.{◌≡◌, ◌<◌, ◌≤◌, ◌+◌, ◌^◌, ◌++◌, ◌∷◌, [], IfOk, OnOk, drop, length, reverse};
ghost use Rattle.std.specs.List.{AllByRecursion};
ghost use Rattle.home_planner.specs.Choices.{AreLayers, IsFrontier};
ghost use Rattle.home_planner.specs.Pairs.{Falls, IsMerge, shifted_of};
ghost use Rattle.home_planner.specs.Sets.{all_costs};

use crate::pairs::{merged, put, shifted};
use crate::{Gain, Pair};
use base_io::Memory;
use std::alloc::Global;

/// The pairs of one gain more: those without it, and those with it that have room.
fn extended(alloc: Global, gain: &Gain, pairs: &[Pair], room: u32) -> Result<Vec<Pair>, Memory>
    requires falls { Falls pairs.now }
    requires small { AllByRecursion (λ p. p.cost + (gain.now.fram + gain.now.sram) < 2 ^ 63) pairs.now }
    ensures { IfOk result (λ more. IsMerge (shifted_of 0 gain.now.fram room pairs.now) (shifted_of gain.now.words gain.now.sram room pairs.now) more.items) }
{
    let without = shifted(alloc, pairs, 0, gain.fram, room)?;
    let with = shifted(alloc, pairs, u32::from(gain.words), gain.sram, room)?;
    merged(alloc, &without, &with)
}

/// The pairs of the gains from `at` on, from the pairs of those behind it.
fn pairs_from(
    alloc: Global,
    gains: &[Gain],
    at: usize,
    pairs: &[Pair],
    room: u32,
) -> Result<Vec<Pair>, Memory>
    requires at { at < length gains.now }
    requires costs { all_costs gains.now < 2 ^ 63 }
    requires behind { IsFrontier (drop (at + 1) gains.now) room pairs.now }
    ensures { IfOk result (λ more. IsFrontier (drop at gains.now) room more.items) }
{
    extended(alloc, &gains[at], pairs, room)
}

/// The one pair of no gain.
fn no_pairs(alloc: Global, room: u32) -> Result<Vec<Pair>, Memory>
    ensures { IfOk result (λ pairs. IsFrontier [] room pairs.items) }
{
    let mut pairs = Vec::new(alloc);
    put(&mut pairs, Pair { words: 0, cost: 0 })?;
    Ok(pairs)
}

/// The undominated pairs of all gains.
pub fn pairs_of(alloc: Global, gains: &[Gain], room: u32) -> Result<Vec<Pair>, Memory>
    requires costs { all_costs gains.now < 2 ^ 63 }
    ensures { IfOk result (λ pairs. IsFrontier gains.now room pairs.items) }
{
    let mut pairs = no_pairs(alloc, room)?;
    let mut at = gains.len();
    while at > 0 {
        at -= 1;
        pairs = pairs_from(alloc, gains, at, &pairs, room)?;
    }
    Ok(pairs)
}

/// Puts a list of pairs behind the others.
fn put_layer(layers: &mut Vec<Vec<Pair>>, pairs: Vec<Pair>) -> Result<(), Memory>
    ensures { OnOk result (layers.new.items ≡ layers.old.items ++ pairs ∷ []) }
{
    match layers.push(pairs) {
        Ok(()) => Ok(()),
        Err(_) => Err(Memory),
    }
}

/// For each gain, from the last to the first, the pairs of the gains behind it.
pub fn layers_of(alloc: Global, gains: &[Gain], room: u32) -> Result<Vec<Vec<Pair>>, Memory>
    requires costs { all_costs gains.now < 2 ^ 63 }
    ensures { IfOk result (λ layers. AreLayers gains.now room (reverse layers.items)) }
{
    let mut layers = Vec::new(alloc);
    let mut pairs = no_pairs(alloc, room)?;
    let mut at = gains.len();
    while at > 0 {
        at -= 1;
        let more = pairs_from(alloc, gains, at, &pairs, room)?;
        put_layer(&mut layers, pairs)?;
        pairs = more;
    }
    Ok(layers)
}
