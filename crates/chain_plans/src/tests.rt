//! Small random chains beside all their plans.

ghost use Rattle.std.specs.Prelude.{◌<◌};

use super::*;
use loop_checkpoints::LoopObject;
use std::test::Fail;

const ITEMS: usize = 4;

/// More than any plan costs.
const NO_PLAN: u64 = 1 << 40;

/// The next number of a sequence, and a number below `limit` made of it.
fn next(seed: u64) -> u64 {
    seed.wrapping_mul(6_364_136_223_846_793_005)
        .wrapping_add(1_442_695_040_888_963_407)
}

fn part(seed: u64, place: u64, limit: u64) -> u64
    requires { 0 < limit }
    ensures { result < limit }
{
    let mixed = seed.wrapping_mul(place.wrapping_mul(2).wrapping_add(2_654_435_761)) >> 40;
    mixed % limit
}

/// A stretch of three objects, whose costs are made of a number.
fn weight_of(alloc: Global, seed: u64) -> Result<LoopWeight, Fail> {
    let mut objects = Vec::new(alloc);
    for object in 0..3 {
        let place = u64::from(object);
        objects.push(LoopObject {
            object,
            words: part(seed, place, 3) as u16,
            fram: part(seed, place.wrapping_add(3), 20),
            sram: part(seed, place.wrapping_add(6), 8),
            moves: part(seed, place.wrapping_add(9), 12),
        })?;
    }
    Ok(LoopWeight {
        fixed: part(seed, 12, 10),
        base: part(seed, 13, 25),
        objects,
    })
}

/// For each item, the stretches that begin with it.
fn table_of(alloc: Global, mut seed: u64) -> Result<Vec<Vec<LoopWeight>>, Fail> {
    let mut rows = Vec::new(alloc);
    for first in 0..ITEMS {
        let mut row = Vec::new(alloc);
        for _ in first..ITEMS {
            seed = next(seed);
            row.push(weight_of(alloc, seed)?)?;
        }
        rows.push(row)?;
    }
    Ok(rows)
}

/// What a stretch costs with a set of its objects in SRAM, by the bits of their numbers, and the words that the set takes.
fn cost_with(weight: &LoopWeight, set: u32) -> (u64, u32) {
    let mut cost = weight.fixed.wrapping_add(weight.base);
    let mut words = 0u32;
    for object in &weight.objects {
        if set >> (object.object % 32) & 1 == 1 {
            words = words.wrapping_add(u32::from(object.words));
            cost = cost.wrapping_add(object.sram).wrapping_add(object.moves);
        } else {
            cost = cost.wrapping_add(object.fram);
        }
    }
    (cost, words)
}

/// The least that a stretch costs, over all sets that keep to the room and to the budget.
fn least_of(weight: &LoopWeight, room: u32, budget: u64) -> u64 {
    let mut least = NO_PLAN;
    for set in 0..8 {
        let (cost, words) = cost_with(weight, set);
        if words <= room && cost <= budget {
            least = least.min(cost);
        }
    }
    least
}

/// The least that the chain costs where it is cut before the items of these bits.
fn cut_cost(rows: &[Vec<LoopWeight>], cuts: u32, room: u32, budget: u64) -> u64 {
    let mut total = 0u64;
    let mut first = 0;
    for end in 1..=ITEMS {
        if end == ITEMS || cuts >> (end % 32) & 1 == 1 {
            let weight = rows
                .get(first)
                .and_then(|row| row.get(end.wrapping_sub(first).wrapping_sub(1)));
            let cost = match weight {
                Some(weight) => least_of(weight, room, budget),
                None => NO_PLAN,
            };
            total = total.wrapping_add(cost);
            first = end;
        }
    }
    total
}

/// The least that a plan costs: over all cuts before items 1 to 3.
fn plain_cost(rows: &[Vec<LoopWeight>], room: u32, budget: u64) -> u64 {
    let mut least = NO_PLAN;
    for cuts in 0..8u32 {
        least = least.min(cut_cost(rows, cuts.wrapping_mul(2), room, budget));
    }
    least
}

#[test]
fn random_chains(rt: HostRuntime) -> Result<(), Fail> {
    let alloc = rt.alloc();
    let mut seed = 21;
    let mut whole = 0u32;
    for _ in 0..200 {
        seed = next(seed);
        let rows = table_of(alloc, seed)?;
        assert_eq!(rt; rows.len(), ITEMS);
        let room = part(seed, 1, 6) as u32;
        let budget = 40 + part(seed, 2, 60);
        if is_table(alloc, &rows, room, budget)? {
            whole = whole.wrapping_add(1);
            let mut total = 0u64;
            for stretch in &least_plan(alloc, &rows, room, budget)? {
                total = total.wrapping_add(stretch.cost);
            }
            assert_eq!(rt; total, plain_cost(&rows, room, budget), "at {seed}");
        }
    }
    assert!(rt; whole > 60, "{whole} whole tables");
    Ok(())
}
