//! Where things stand.
ghost use Rattle.std.specs.Prelude.{◌≡◌, slice_index_or};
ghost use Rattle.lowered_graphs.specs.Exprs.{home_in};

use lowered_graphs::Homes;
use sqlite_items::Items;

/// The object of a variable.
pub fn home(homes: &Homes, x: u32) -> u32
    ensures { result ≡ home_in homes.now x }
{
    or_zero(&homes.variables, x)
}

/// The object of a function's result.
pub fn result_home(homes: &Homes, function: u32) -> u32
    ensures { result ≡ slice_index_or homes.now.results function 0 }
{
    or_zero(&homes.results, function)
}

/// The place of a function among those reached.
pub fn place_of(homes: &Homes, function: u32) -> u32
    ensures { result ≡ slice_index_or homes.now.places function 0 }
{
    or_zero(&homes.places, function)
}

/// The number that stands there, or 0 behind the last one.
pub fn or_zero(numbers: &Items<u32>, at: u32) -> u32
    ensures { result ≡ slice_index_or numbers.now at 0 }
{
    match numbers.as_slice().get(at as usize) {
        Some(number) => *number,
        None => 0,
    }
}
