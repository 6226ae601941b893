//! Where a chain of items is cut: its cheapest plan over all cuts into stretches and all sets of objects kept in SRAM.
#![tactic(auto)]

ghost use Rattle.std.specs.Prelude.{◌≡◌, ◌<◌, ◌≤◌, ◌+◌, ◌-◌, ◌*◌, ◌^◌, ◌++◌, ◌∷◌, [], ℕ, IfOk, OnOk, length};
ghost use Rattle.chain_plans.specs.Legs.{AreLegs};
ghost use Rattle.chain_plans.specs.Plans.{AreTold, Costs, IsBestPlan, IsPlan, NoneBelow, parts_of, plan_cost};
ghost use Rattle.chain_plans.specs.Weights.{AllTell, IsTable};

mod legs;
mod lists;
mod table;

use base_io::Memory;
use home_planner::Choice;
use legs::{Leg, legs_of};
use loop_checkpoints::{LoopWeight, best_at};
use std::alloc::Global;
pub use table::is_table;

/// A stretch of a plan: its first item, counted from 0, and its number of items, the objects kept in SRAM, ascending, and
/// what it costs, in energy units.
#[derive(Debug, Drop)]
pub struct Stretch {
    pub first_item: u32,
    pub items: u32,
    pub homes: Vec<u32>,
    pub cost: u64,
}

/// Puts a stretch behind the others.
fn put(stretches: &mut Vec<Stretch>, stretch: Stretch) -> Result<(), Memory>
    ensures { OnOk result (stretches.new.items ≡ stretches.old.items ++ stretch ∷ []) }
{
    match stretches.push(stretch) {
        Ok(()) => Ok(()),
        Err(_) => Err(Memory),
    }
}

/// The stretches that the legs lead to.
fn walk(
    alloc: Global,
    rows: &[Vec<LoopWeight>],
    legs: &[Leg],
    room: u32,
    budget: u64,
) -> Result<Vec<Stretch>, Memory>
    requires budget { budget ≤ 1000000000 }
    requires few { length rows.now ≤ 2 ^ 20 }
    requires table { IsTable rows.now room budget }
    requires legs { AreLegs rows.now room budget legs.now (length rows.now) }
    ensures { IfOk result (λ stretches. (costs : Costs) → AllTell rows.now costs → IsBestPlan costs room budget (length rows.now) stretches.items) }
{
    let mut stretches = Vec::new(alloc);
    let mut left = rows.len();
    while left > 0 {
        let first = rows.len() - left;
        let leg = legs[left];
        let items = leg.items as usize;
        let row = &rows[first];
        let weight = &row[items - 1];
        let Choice { homes, cost } = best_at(alloc, weight, room, budget, 1)?;
        let stretch = Stretch {
            first_item: first as u32,
            items: leg.items,
            homes,
            cost,
        };
        put(&mut stretches, stretch)?;
        left -= items;
    }
    Ok(stretches)
}

/// The cheapest plan of a chain, from the weights of all its stretches: for each item a row of the stretches that begin
/// with it, by rising numbers of items. The room is in words of SRAM, the budget in energy units, and no stretch costs
/// more than it. Where several plans cost the least, it is one of them. It fails only for want of memory.
pub fn least_plan(
    alloc: Global,
    rows: &[Vec<LoopWeight>],
    room: u32,
    budget: u64,
) -> Result<Vec<Stretch>, Memory>
    requires budget { budget ≤ 1000000000 }
    requires few { length rows.now ≤ 2 ^ 20 }
    requires table { IsTable rows.now room budget }
    ensures plan { IfOk result (λ stretches. (costs : Costs) → AllTell rows.now costs → IsPlan costs room budget 0 (length rows.now) (parts_of stretches.items)) }
    ensures told { IfOk result (λ stretches. (costs : Costs) → AllTell rows.now costs → AreTold costs 0 stretches.items) }
    ensures least { IfOk result (λ stretches. (costs : Costs) → AllTell rows.now costs → NoneBelow costs room budget 0 (length rows.now) (plan_cost costs 0 (parts_of stretches.items))) }
{
    let legs = legs_of(alloc, rows, room, budget)?;
    walk(alloc, rows, &legs, room, budget)
}

#[cfg(test)]
mod tests;
