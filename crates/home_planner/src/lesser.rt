//! The least cost where all objects that cost less in SRAM have room there together.

ghost use Rattle.std.specs.Prelude.{◌≡◌, ◌<◌, ◌^◌, IfSome};
ghost use Rattle.home_planner.specs.Choices.{IsLowestChoice, lesser_of};
ghost use Rattle.home_planner.specs.Sets.{all_costs};

use crate::{Gain, Pair};

/// The lesser of an object's costs, with the words of SRAM that it then takes.
fn lesser(gain: &Gain) -> Pair
    ensures { result ≡ lesser_of gain.now }
{
    if gain.sram < gain.fram {
        Pair {
            words: u32::from(gain.words),
            cost: gain.sram,
        }
    } else {
        Pair {
            words: 0,
            cost: gain.fram,
        }
    }
}

/// The sum of the lesser costs, where there is room for all objects that cost less in SRAM.
pub fn sum_of_lesser(gains: &[Gain], room: u32) -> Option<u64>
    requires { all_costs gains.now < 2 ^ 63 }
    ensures { IfSome result (λ cost. IsLowestChoice gains.now room cost) }
{
    let mut cost = 0;
    let mut free = room;
    let mut left = gains;
    while let [gain, behind @ ..] = left {
        let least = lesser(gain);
        if least.words > free {
            return None;
        }
        free -= least.words;
        cost += least.cost;
        left = behind;
    }
    Some(cost)
}
