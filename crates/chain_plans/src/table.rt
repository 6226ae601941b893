//! Whether a table of weights is whole.

ghost use Rattle.std.specs.Prelude.{◌≤◌, IfOk, length};
ghost use Rattle.std.specs.Bool.{MatchBool};
ghost use Rattle.loop_checkpoints.specs.Loops as loops;
ghost use Rattle.chain_plans.specs.Tables.{AllDiffer, IsAlone, IsNoneOf, IsRow};
ghost use Rattle.chain_plans.specs.Weights.{IsTable};

use crate::lists::first_and_rest;
use base_io::Memory;
use loop_checkpoints::{LoopObject, LoopWeight, cost_at};
use std::alloc::Global;

fn is_none_of(object: u32, others: &[LoopObject]) -> bool
    ensures { MatchBool result (IsNoneOf object others.now) (¬ IsNoneOf object others.now) }
{
    let mut left = others;
    while let Some((other, rest)) = first_and_rest(left) {
        if object == other.object {
            return false;
        }
        left = rest;
    }
    true
}

fn differ(objects: &[LoopObject]) -> bool
    ensures { MatchBool result (loops.Differ objects.now) (¬ loops.Differ objects.now) }
{
    let mut left = objects;
    while let Some((object, rest)) = first_and_rest(left) {
        if !is_none_of(object.object, rest) {
            return false;
        }
        left = rest;
    }
    true
}

fn all_differ(row: &[LoopWeight]) -> bool
    ensures { MatchBool result (AllDiffer row.now) (¬ AllDiffer row.now) }
{
    let mut left = row;
    while let Some((weight, rest)) = first_and_rest(left) {
        if !differ(&weight.objects) {
            return false;
        }
        left = rest;
    }
    true
}

/// Whether the first stretch of a row fits, if the row has one.
fn is_alone(alloc: Global, row: &[LoopWeight], room: u32, budget: u64) -> Result<bool, Memory>
    requires budget { budget ≤ 1000000000 }
    requires differ { AllDiffer row.now }
    ensures { IfOk result (λ yes. MatchBool yes (IsAlone room budget row.now) (¬ IsAlone room budget row.now)) }
{
    match first_and_rest(row) {
        None => Ok(true),
        Some((weight, _rest)) => {
            let found = cost_at(alloc, weight, room, budget, 1)?;
            match found {
                Some(_cost) => Ok(true),
                None => Ok(false),
            }
        }
    }
}

fn is_row(
    alloc: Global,
    row: &[LoopWeight],
    count: usize,
    room: u32,
    budget: u64,
) -> Result<bool, Memory>
    requires { budget ≤ 1000000000 }
    ensures { IfOk result (λ yes. MatchBool yes (IsRow room budget count row.now) (¬ IsRow room budget count row.now)) }
{
    if row.len() != count {
        return Ok(false);
    }
    if !all_differ(row) {
        return Ok(false);
    }
    is_alone(alloc, row, room, budget)
}

/// Whether the rows are a whole table, as `least_plan` takes one: a weight for each stretch of the chain, no two of whose objects are the
/// same, and each item fits by itself. The room is in words of SRAM, the budget in energy units. It compares each object of a weight with
/// those behind it, and fails only for want of memory.
pub fn is_table(
    alloc: Global,
    rows: &[Vec<LoopWeight>],
    room: u32,
    budget: u64,
) -> Result<bool, Memory>
    requires { budget ≤ 1000000000 }
    ensures { IfOk result (λ yes. MatchBool yes (IsTable rows.now room budget) (¬ IsTable rows.now room budget)) }
{
    let mut left = rows;
    while let Some((row, rest)) = first_and_rest(left) {
        if !is_row(alloc, row, left.len(), room, budget)? {
            return Ok(false);
        }
        left = rest;
    }
    Ok(true)
}
