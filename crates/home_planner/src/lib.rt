//! Which objects to keep in SRAM: the best set of them in a room of so many words.
#![tactic(auto)]

ghost use Rattle.std.specs.Prelude.{◌≡◌, ◌<◌, ◌≤◌, ◌-◌, ◌^◌, ℕ, List, IfOk, IfSome, IsSome, IsSomeAnd, length, slice_get, true};
ghost use Rattle.std.specs.List.{AllByRecursion};
ghost use Rattle.std.specs.List.Sorted.{IsPermutation, IsSorted, IsStrictlyIncreasing};
ghost use Rattle.std.specs.Ordering.{nat_cmp};
ghost use Rattle.home_planner.specs.Pairs.{Covers, Falls, IsOfSet};
ghost use Rattle.home_planner.specs.Sets.{Differ, IsLeast, NoneBelow, all_costs, cost_of, is_in, objects, words_of};

mod choose;
mod layers;
mod lesser;
mod pairs;
pub mod plain;

use base_io::Memory;
use choose::chosen;
use layers::{layers_of, pairs_of};
use lesser::sum_of_lesser;
use std::alloc::Global;

/// An object that may be kept in SRAM: the words of SRAM that it takes there, and the energy units that its accesses
/// cost where it stays in FRAM and where it is kept in SRAM.
#[derive(Clone, Copy, Debug, PartialEq, Eq)]
pub struct Gain {
    pub object: u32,
    pub words: u16,
    pub fram: u64,
    pub sram: u64,
}

/// Words of SRAM, and a cost in energy units.
#[derive(Clone, Copy, Debug, PartialEq, Eq)]
pub struct Pair {
    pub words: u32,
    pub cost: u64,
}

/// The objects to be kept in SRAM, ascending, and what all objects then cost.
#[derive(Debug, Drop)]
pub struct Choice {
    pub homes: Vec<u32>,
    pub cost: u64,
}

/// Puts the homes into ascending order.
fn sort_homes(homes: &mut Vec<u32>)
    ensures permutation { IsPermutation homes.old.items homes.new.items }
    ensures sorted { IsSorted nat_cmp homes.new.items }
{
    homes.sort_unstable();
}

/// The best set of objects in a room of so many words of SRAM: no set in the room costs less. Where several cost the
/// least, it is one of them. It fails only for want of memory, and takes time and memory in proportion to the gains times
/// the pairs that `frontier` keeps.
pub fn best(alloc: Global, gains: &[Gain], room: u32) -> Result<Choice, Memory>
    requires differ { Differ gains.now }
    requires costs { all_costs gains.now < 2 ^ 63 }
    ensures fits { IfOk result (λ choice. words_of gains.now choice.homes.items ≤ room) }
    ensures cost { IfOk result (λ choice. cost_of gains.now choice.homes.items ≡ choice.cost) }
    ensures least { IfOk result (λ choice. NoneBelow gains.now room choice.cost) }

    ensures of_gains { IfOk result (λ choice. (object : ℕ) → is_in choice.homes.items object ≡ true → is_in (objects gains.now) object ≡ true) }
    ensures ascending { IfOk result (λ choice. IsStrictlyIncreasing choice.homes.items) }
{
    let layers = layers_of(alloc, gains, room)?;
    let Choice { mut homes, cost } = chosen(alloc, gains, layers, room)?;
    sort_homes(&mut homes);
    Ok(Choice { homes, cost })
}

/// The pairs of words of SRAM and cost that no set in the room betters in both, by rising words and falling costs. With
/// no gains this is the one pair of no words and no cost. It fails only for want of memory.
pub fn frontier(alloc: Global, gains: &[Gain], room: u32) -> Result<Vec<Pair>, Memory>
    requires differ { Differ gains.now }
    requires costs { all_costs gains.now < 2 ^ 63 }
    ensures falls { IfOk result (λ pairs. Falls pairs.items) }
    ensures sets { IfOk result (λ pairs. AllByRecursion (IsOfSet gains.now room) pairs.items) }
    ensures covers { IfOk result (λ pairs. (homes : List ℕ) → words_of gains.now homes ≤ room → Covers pairs.items (words_of gains.now homes) (cost_of gains.now homes)) }
    ensures last { IfOk result (λ pairs. IsSomeAnd (slice_get pairs.items (length pairs.items - 1)) (λ pair. IsLeast gains.now room pair.cost)) }
{
    pairs_of(alloc, gains, room)
}

/// The cost of the last pair.
fn last_cost(pairs: &[Pair]) -> u64
    requires { IsSome (slice_get pairs.now (length pairs.now - 1)) }
    ensures { IfSome (slice_get pairs.now (length pairs.now - 1)) (λ pair. result ≡ pair.cost) }
{
    pairs[pairs.len() - 1].cost
}

/// What a best set of objects in the room costs, without the set: no set in the room costs less. It takes one pass and no
/// memory where all objects that cost less in SRAM have room there together, else it takes what `frontier` does. It fails
/// only for want of memory.
pub fn least_cost(alloc: Global, gains: &[Gain], room: u32) -> Result<u64, Memory>
    requires differ { Differ gains.now }
    requires costs { all_costs gains.now < 2 ^ 63 }
    ensures { IfOk result (λ cost. IsLeast gains.now room cost) }
{
    match sum_of_lesser(gains, room) {
        Some(cost) => Ok(cost),
        None => {
            let pairs = frontier(alloc, gains, room)?;
            Ok(last_cost(&pairs))
        }
    }
}

#[cfg(test)]
mod tests;
