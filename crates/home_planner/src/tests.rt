//! Worked rows, and small random inputs against the plain program.

ghost use Rattle.std.specs.Prelude.{◌≡◌, ◌<◌, ◌≤◌, ◌+◌, ◌^◌, ◌++◌, ◌∷◌, [], IfOk, OnOk, length};
ghost use Rattle.home_planner.specs.Sets.{Differ, all_costs};

use super::*;
use std::process::Abort;
use std::test::Fail;

fn put_gain(gains: &mut Vec<Gain>, gain: Gain) -> Result<(), Memory>
    ensures { OnOk result (gains.new.items ≡ gains.old.items ++ gain ∷ []) }
{
    match gains.push(gain) {
        Ok(()) => Ok(()),
        Err(_) => Err(Memory),
    }
}

fn gain_of(object: u32, row: &(u16, u16, u16)) -> Gain
    ensures object { result.object ≡ object }
    ensures costs { result.fram + result.sram ≤ 131070 }
{
    let (words, fram, sram) = *row;
    Gain {
        object,
        words,
        fram: u64::from(fram),
        sram: u64::from(sram),
    }
}

/// Gains of the objects from 0 on, with these words, FRAM costs and SRAM costs.
fn gains_of(alloc: Global, rows: &[(u16, u16, u16)]) -> Result<Vec<Gain>, Memory>
    requires { length rows.now < 2 ^ 20 }
    ensures differ { IfOk result (λ gains. Differ gains.items) }
    ensures costs { IfOk result (λ gains. all_costs gains.items < 2 ^ 63) }
{
    let mut gains = Vec::new(alloc);
    let mut object = 0;
    for row in rows {
        let gain = gain_of(object, row);
        put_gain(&mut gains, gain)?;
        object += 1;
    }
    Ok(gains)
}

fn expect_best(
    rt: &impl Abort,
    alloc: Global,
    rows: &[(u16, u16, u16)],
    room: u32,
    homes: &[u32],
    cost: u64,
) -> Result<(), Memory>
    requires { length rows.now < 2 ^ 20 }
{
    let gains = gains_of(alloc, rows)?;
    let choice = best(alloc, &gains, room)?;
    assert_eq!(rt; choice.cost, cost);
    assert_eq!(rt; choice.homes.as_slice(), homes);
    assert_eq!(rt; least_cost(alloc, &gains, room)?, cost);
    Ok(())
}

fn expect_frontier(
    rt: &impl Abort,
    alloc: Global,
    rows: &[(u16, u16, u16)],
    room: u32,
    pairs: &[Pair],
) -> Result<(), Memory>
    requires { length rows.now < 2 ^ 20 }
{
    let gains = gains_of(alloc, rows)?;
    let found = frontier(alloc, &gains, room)?;
    assert_eq!(rt; found.as_slice(), pairs);
    Ok(())
}

fn pair(words: u32, cost: u64) -> Pair {
    Pair { words, cost }
}

#[test]
fn worked_rows(rt: HostRuntime) -> Result<(), Fail> {
    let alloc = rt.alloc();
    let two = [(1024, 200, 150), (1024, 200, 130)];
    expect_best(&rt, alloc, &two, 1024, &[1], 330)?;
    expect_best(&rt, alloc, &two, 1023, &[], 400)?;
    expect_best(&rt, alloc, &[], 9, &[], 0)?;
    expect_frontier(&rt, alloc, &[], 9, &[pair(0, 0)])?;

    let three = [(1, 9, 4), (2, 9, 1), (3, 9, 0)];
    expect_best(&rt, alloc, &three, 4, &[0, 2], 13)?;
    expect_frontier(
        &rt,
        alloc,
        &three,
        4,
        &[
            pair(0, 27),
            pair(1, 22),
            pair(2, 19),
            pair(3, 14),
            pair(4, 13),
        ],
    )?;
    Ok(())
}

/// Gains of so many words each, whose FRAM costs are `first`, `first + step` and so on, and whose SRAM costs are 0.
fn like_rows(
    alloc: Global,
    count: u16,
    words: u16,
    first: u16,
    step: u16,
) -> Result<Vec<(u16, u16, u16)>, Memory>
    ensures { IfOk result (λ rows. length rows.items ≡ count) }
{
    let mut rows = Vec::new(alloc);
    let mut fram = first;
    for made in 0..count {
        match rows.push((words, fram, 0)) {
            Ok(()) => {}
            Err(_) => return Err(Memory),
        }
        fram = fram.wrapping_add(step);
    }
    Ok(rows)
}

#[test]
fn many_gains(rt: HostRuntime) -> Result<(), Fail> {
    let alloc = rt.alloc();
    let large = like_rows(alloc, 200, 65535, 1, 1)?;
    let large_gains = gains_of(alloc, &large)?;
    let large_choice = best(alloc, &large_gains, 6_553_500)?;
    assert_eq!(rt; large_choice.cost, 5050);
    assert_eq!(rt; large_choice.homes.len(), 100);
    assert_eq!(rt; large_choice.homes[0], 100);

    let small = like_rows(alloc, 4000, 1, 3, 0)?;
    let small_gains = gains_of(alloc, &small)?;
    let small_choice = best(alloc, &small_gains, 2000)?;
    assert_eq!(rt; small_choice.cost, 6000);
    assert_eq!(rt; small_choice.homes.len(), 2000);
    Ok(())
}

/// The next number of a sequence, and a number below `limit` made of it.
fn next(seed: u64) -> u64 {
    seed.wrapping_mul(6_364_136_223_846_793_005)
        .wrapping_add(1_442_695_040_888_963_407)
}

fn part(seed: u64, place: u64, limit: u16) -> u16
    requires { 0 < limit }
    ensures { result < limit }
{
    let mixed = seed.wrapping_mul(place.wrapping_mul(2).wrapping_add(2_654_435_761)) >> 40;
    (mixed % u64::from(limit)) as u16
}

#[test]
fn random_gains(rt: HostRuntime) -> Result<(), Fail> {
    let alloc = rt.alloc();
    let mut seed = 20;
    for _ in 0..200 {
        seed = next(seed);
        let rows = [
            (part(seed, 1, 5), part(seed, 2, 12), part(seed, 3, 12)),
            (part(seed, 4, 5), part(seed, 5, 12), part(seed, 6, 12)),
            (part(seed, 7, 5), part(seed, 8, 12), part(seed, 9, 12)),
            (part(seed, 10, 5), part(seed, 11, 12), part(seed, 12, 12)),
            (part(seed, 13, 5), part(seed, 14, 12), part(seed, 15, 12)),
            (part(seed, 16, 5), part(seed, 17, 12), part(seed, 18, 12)),
        ];
        let count = usize::from(part(seed, 19, 7));
        let room = u32::from(part(seed, 20, 14));
        let gains = gains_of(alloc, &rows[..count])?;
        let least = plain::least_cost(&gains, room);
        assert_eq!(rt; best(alloc, &gains, room)?.cost, least, "at {seed}");
        assert_eq!(rt; least_cost(alloc, &gains, room)?, least, "at {seed}");
        let pairs = frontier(alloc, &gains, room)?;
        assert_eq!(rt;
            pairs.last().map(|last| last.cost),
            Some(least),
            "at {seed}"
        );
    }
    Ok(())
}
