//! How many turns of a conditional loop go between two checkpoints, and which objects are kept in SRAM meanwhile.
#![tactic(auto)]

ghost use Rattle.std.specs.Prelude.{◌≡◌, ◌<◌, ◌≤◌, ◌+◌, ◌*◌, ◌^◌, ◌-◌, ◌↔◌, ℕ, List, ◌++◌, ◌∷◌, [], IfOk, MatchOption, OnOk, min, true};
ghost use Rattle.std.specs.Bool.{MatchBool};
ghost use Rattle.std.specs.List.Sorted.{IsStrictlyIncreasing};
ghost use Rattle.home_planner.specs.Sets as sets;
ghost use Rattle.home_planner.specs.Sets.{is_in};
ghost use Rattle.loop_checkpoints.specs.Loops.{Differ, Fits, IsLeast, LeastNeverFalls, NoneBelow, NoneFits, cost_of, gain_of, gains_of, objects, words_of};
ghost use Rattle.loop_checkpoints.specs.Plans.{IsBest, IsSplit, WhereEvery};

pub mod plain;

use base_io::Memory;
use home_planner::{Choice, Gain, best, least_cost};
use std::alloc::Global;

/// An object that a loop touches: the words of SRAM that it takes there, the energy units that one turn's accesses
/// cost where it stays in FRAM and where it is kept in SRAM, and the energy units of restoring and saving it once.
#[derive(Clone, Copy, Debug, PartialEq, Eq)]
pub struct LoopObject {
    pub object: u32,
    pub words: u16,
    pub fram: u64,
    pub sram: u64,
    pub moves: u64,
}

/// What a loop costs, in energy units: `fixed` once a checkpoint, `base` each turn, and its objects.
#[derive(Debug, Drop)]
pub struct LoopWeight {
    pub fixed: u64,
    pub base: u64,
    pub objects: Vec<LoopObject>,
}

/// A checkpoint every so many turns, with the objects kept in SRAM in between, ascending, and what these turns cost; or
/// a loop that isn't left whole, since one turn of it costs too much.
#[derive(Debug, Drop)]
pub enum LoopPlan {
    Every {
        turns: u32,
        homes: Vec<u32>,
        cost: u64,
    },
    Split,
}

/// The least cost of a loop never falls as its turns grow.
pub fn least_cost_never_falls()
    ensures { LeastNeverFalls }
{}

/// An object's costs in so many turns, each cost above the budget counted as one above it.
fn gain_at(object: &LoopObject, turns: u32, budget: u64) -> Gain
    requires { budget < 2 ^ 63 }
    ensures gain { result ≡ gain_of turns budget object.now }
    ensures object { result.object < 2 ^ 32 }
{
    let turns = u64::from(turns);
    let cap = budget + 1;
    Gain {
        object: object.object,
        words: object.words,
        fram: turns.saturating_mul(object.fram).min(cap),
        sram: turns
            .saturating_mul(object.sram)
            .saturating_add(object.moves)
            .min(cap),
    }
}

fn put(gains: &mut Vec<Gain>, gain: Gain) -> Result<(), Memory>
    ensures { OnOk result (gains.new.items ≡ gains.old.items ++ gain ∷ []) }
{
    match gains.push(gain) {
        Ok(()) => Ok(()),
        Err(_) => Err(Memory),
    }
}

/// The objects' costs in so many turns.
fn gains_at(
    alloc: Global,
    touched: &[LoopObject],
    turns: u32,
    budget: u64,
) -> Result<Vec<Gain>, Memory>
    requires differ { Differ touched.now }
    requires budget { budget ≤ 1000000000 }
    ensures gains { IfOk result (λ gains. gains.items ≡ gains_of turns budget touched.now) }
    ensures differ { IfOk result (λ gains. sets.Differ gains.items) }
    ensures costs { IfOk result (λ gains. sets.all_costs gains.items < 2 ^ 63) }
{
    let mut gains = Vec::new(alloc);
    for object in touched {
        let gain = gain_at(object, turns, budget);
        put(&mut gains, gain)?;
    }
    Ok(gains)
}

/// What a loop costs in so many turns with its objects at a cost, as far as that can be told.
fn total(weight: &LoopWeight, turns: u32, objects: u64) -> u64
    ensures { result ≡ min ((weight.now.fixed + turns * weight.now.base) + objects) (2 ^ 64 - 1) }
{
    u64::from(turns)
        .saturating_mul(weight.base)
        .saturating_add(weight.fixed)
        .saturating_add(objects)
}

/// The least cost in so many turns over all sets in the room, where that is no more than the budget. It fails only for
/// want of memory.
pub fn cost_at(
    alloc: Global,
    weight: &LoopWeight,
    room: u32,
    budget: u64,
    turns: u32,
) -> Result<Option<u64>, Memory>
    requires differ { Differ weight.now.objects.items }
    requires budget { budget ≤ 1000000000 }
    ensures { IfOk result (λ found. MatchOption found (NoneFits weight.now room budget turns) (λ cost. IsLeast weight.now room turns cost × (cost ≤ budget))) }
{
    let gains = gains_at(alloc, &weight.objects, turns, budget)?;
    let least = least_cost(alloc, &gains, room)?;
    let cost = total(weight, turns, least);
    if cost <= budget {
        Ok(Some(cost))
    } else {
        Ok(None)
    }
}

/// Whether some set in the room costs no more than the budget in so many turns.
fn fits(
    alloc: Global,
    weight: &LoopWeight,
    room: u32,
    budget: u64,
    turns: u32,
) -> Result<bool, Memory>
    requires differ { Differ weight.now.objects.items }
    requires budget { budget ≤ 1000000000 }
    ensures { IfOk result (λ yes. MatchBool yes (Fits weight.now room budget turns) (NoneFits weight.now room budget turns)) }
{
    let found = cost_at(alloc, weight, room, budget, turns)?;
    match found {
        Some(_cost) => Ok(true),
        None => Ok(false),
    }
}

/// The most turns between two checkpoints.
const MOST_TURNS: u32 = 65_535;

/// The greatest number of turns in which some set in the room costs no more than the budget, found by halving.
fn greatest_turns(alloc: Global, weight: &LoopWeight, room: u32, budget: u64) -> Result<u32, Memory>
    requires differ { Differ weight.now.objects.items }
    requires budget { budget ≤ 1000000000 }
    requires one { Fits weight.now room budget 1 }
    ensures range { IfOk result (λ turns. (1 ≤ turns) × (turns ≤ 65535)) }
    ensures fits { IfOk result (λ turns. Fits weight.now room budget turns) }
    ensures greatest { IfOk result (λ turns. (more : ℕ) → turns < more → more ≤ 65535 → NoneFits weight.now room budget more) }
{
    let mut low = 1;
    let mut high = MOST_TURNS + 1;
    while high - low > 1 {
        let middle = low + (high - low) / 2;
        if fits(alloc, weight, room, budget, middle)? {
            low = middle;
        } else {
            high = middle;
        }
    }
    Ok(low)
}

/// The best homes in so many turns, and what these turns then cost. It fails only for want of memory.
pub fn best_at(
    alloc: Global,
    weight: &LoopWeight,
    room: u32,
    budget: u64,
    turns: u32,
) -> Result<Choice, Memory>
    requires differ { Differ weight.now.objects.items }
    requires budget { budget ≤ 1000000000 }
    requires fits { Fits weight.now room budget turns }
    ensures { IfOk result (λ choice. IsBest weight.now room budget turns choice.homes.items choice.cost) }
{
    let gains = gains_at(alloc, &weight.objects, turns, budget)?;
    let Choice { homes, cost } = best(alloc, &gains, room)?;
    let cost = total(weight, turns, cost);
    Ok(Choice { homes, cost })
}

/// The greatest number of turns that the budget bears between two checkpoints, with a best set of objects for it.
/// The room is in words of SRAM, the budget in energy units. It fails only for want of memory.
pub fn turns(alloc: Global, weight: &LoopWeight, room: u32, budget: u64) -> Result<LoopPlan, Memory>
    requires differ { Differ weight.now.objects.items }
    requires budget { budget ≤ 1000000000 }
    ensures split { IfOk result (λ plan. IsSplit plan ↔ NoneFits weight.now room budget 1) }

    // The turns: in range, and no more of them fit.
    ensures range { IfOk result (λ plan. WhereEvery plan (λ turns homes cost. (1 ≤ turns) × (turns ≤ 65535))) }
    ensures greatest { IfOk result (λ plan. WhereEvery plan (λ turns homes cost. (more : ℕ) → turns < more → more ≤ 65535 → NoneFits weight.now room budget more)) }

    // The homes: objects of the loop, in the room, of least cost.
    ensures fits { IfOk result (λ plan. WhereEvery plan (λ turns homes cost. words_of weight.now.objects.items homes ≤ room)) }
    ensures cost { IfOk result (λ plan. WhereEvery plan (λ turns homes cost. cost_of weight.now turns homes ≡ cost)) }
    ensures within { IfOk result (λ plan. WhereEvery plan (λ turns homes cost. cost ≤ budget)) }
    ensures least { IfOk result (λ plan. WhereEvery plan (λ turns homes cost. NoneBelow weight.now room turns cost)) }
    ensures of_loop { IfOk result (λ plan. WhereEvery plan (λ turns homes cost. (object : ℕ) → is_in homes object ≡ true → is_in (objects weight.now.objects.items) object ≡ true)) }
    ensures ascending { IfOk result (λ plan. WhereEvery plan (λ turns homes cost. IsStrictlyIncreasing homes)) }
{
    if !fits(alloc, weight, room, budget, 1)? {
        return Ok(LoopPlan::Split);
    }
    let turns = greatest_turns(alloc, weight, room, budget)?;
    let Choice { homes, cost } = best_at(alloc, weight, room, budget, turns)?;
    Ok(LoopPlan::Every { turns, homes, cost })
}

#[cfg(test)]
mod tests;
