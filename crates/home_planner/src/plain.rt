//! A plain, slow program for the least cost: it looks at every set in the room.

ghost use Rattle.std.specs.Prelude.{◌≡◌, ◌<◌, ◌≤◌, ◌^◌, List, Bool};
ghost use Rattle.home_planner.specs.Choices.{IsLeastChoice};
ghost use Rattle.home_planner.specs.Sets.{Differ, IsLeast, all_costs};

use crate::Gain;

/// The least cost with the first object out and with it in, whatever comes behind it.
fn least_choice(gains: &[Gain], room: u32) -> u64
    requires { all_costs gains.now < 2 ^ 63 }
    ensures limit { result ≤ all_costs gains.now }
    ensures least { IsLeastChoice gains.now room result }
{
    match gains {
        [] => 0,
        [gain, others @ ..] => {
            let without = gain.fram + least_choice(others, room);
            let words = u32::from(gain.words);
            if words <= room {
                without.min(gain.sram + least_choice(others, room - words))
            } else {
                without
            }
        }
    }
}

/// The least cost of all sets in the room.
pub fn least_cost(gains: &[Gain], room: u32) -> u64
    requires differ { Differ gains.now }
    requires costs { all_costs gains.now < 2 ^ 63 }
    ensures { IsLeast gains.now room result }
{
    least_choice(gains, room)
}
