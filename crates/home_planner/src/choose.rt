//! The best choice, gain by gain, by the pairs of the gains behind each.

ghost use Rattle.std.specs.Prelude.{◌≡◌, ◌<◌, ◌≤◌, ◌+◌, ◌^◌, ◌++◌, ◌∷◌, [], IfOk, OnOk, length, reverse};
ghost use Rattle.std.specs.List.{AllByRecursion};
ghost use Rattle.home_planner.specs.Choices.{AreLayers, IsBestChoice, Settles, better_in, least_of};
ghost use Rattle.home_planner.specs.Sets.{all_costs};

use crate::{Choice, Gain, Pair};
use base_io::Memory;
use std::alloc::Global;

/// Above every cost.
const NO_PAIR: u64 = 1 << 63;

/// The least cost of the pairs in a room.
fn least_within(pairs: &[Pair], room: u32) -> u64
    ensures value { result ≡ least_of room pairs.now }
    ensures limit { result ≤ 2 ^ 63 }
{
    let mut least = NO_PAIR;
    let mut left = pairs;
    while let [pair, behind @ ..] = left {
        if pair.words <= room && pair.cost < least {
            least = pair.cost;
        }
        left = behind;
    }
    least
}

/// Whether an object is better kept in SRAM, by the pairs of the gains behind it.
fn is_better_in(gain: &Gain, pairs: &[Pair], room: u32) -> bool
    requires fram { gain.now.fram < 2 ^ 63 }
    requires sram { gain.now.sram < 2 ^ 63 }
    ensures { result ≡ better_in gain.now room pairs.now }
{
    let words = u32::from(gain.words);
    if words <= room {
        let with = gain.sram + least_within(pairs, room - words);
        let without = gain.fram + least_within(pairs, room);
        with < without
    } else {
        false
    }
}

/// The last list of pairs, which is taken out.
fn take_layer(layers: &mut Vec<Vec<Pair>>) -> Vec<Pair>
    requires { 0 < length layers.old.items }
    ensures { layers.old.items ≡ layers.new.items ++ result ∷ [] }
{
    layers.pop().unwrap()
}

/// The objects chosen so far, in the order of the gains, what all gains so far cost, and the room left.
#[derive(Drop)]
struct Walk {
    homes: Vec<u32>,
    cost: u64,
    left: u32,
}

fn put_home(homes: &mut Vec<u32>, object: u32) -> Result<(), Memory>
    ensures { OnOk result (homes.new.items ≡ homes.old.items ++ object ∷ []) }
{
    match homes.push(object) {
        Ok(()) => Ok(()),
        Err(_) => Err(Memory),
    }
}

/// Decides where one object is kept.
fn settle(walk: &mut Walk, gain: &Gain, pairs: &[Pair]) -> Result<(), Memory>
    requires costs { walk.old.cost + (gain.now.fram + gain.now.sram) < 2 ^ 63 }
    ensures { OnOk result (Settles gain.now pairs.now walk.old.homes.items walk.old.cost walk.old.left walk.new.homes.items walk.new.cost walk.new.left) }
{
    if is_better_in(gain, pairs, walk.left) {
        put_home(&mut walk.homes, gain.object)?;
        walk.cost += gain.sram;
        walk.left -= u32::from(gain.words);
    } else {
        walk.cost += gain.fram;
    }
    Ok(())
}

/// The best choice in the room, with its objects in the order of the gains.
pub fn chosen(
    alloc: Global,
    gains: &[Gain],
    mut layers: Vec<Vec<Pair>>,
    room: u32,
) -> Result<Choice, Memory>
    requires costs { all_costs gains.now < 2 ^ 63 }
    requires layers { AreLayers gains.now room (reverse layers.items) }
    ensures { IfOk result (λ choice. IsBestChoice gains.now room choice.homes.items choice.cost) }
{
    let mut walk = Walk {
        homes: Vec::new(alloc),
        cost: 0,
        left: room,
    };
    for gain in gains {
        let pairs = take_layer(&mut layers);
        settle(&mut walk, gain, &pairs)?;
    }
    Ok(Choice {
        homes: walk.homes,
        cost: walk.cost,
    })
}
