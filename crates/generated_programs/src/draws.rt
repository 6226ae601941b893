//! Numbers that follow one another.

ghost use Rattle.std.specs.Prelude.{◌≡◌, ◌<◌, ◌*◌, ◌/◌, ◌%◌, ◌+◌};
ghost use Rattle.generated_programs.specs.Generated.{count_in, next, variable_in};

/// The number that follows.
pub fn next(x: u16) -> u16
    ensures { result ≡ next x }
{
    ((25_173 * x as u32 + 13_849) % 65_536) as u16
}

/// The number of a variable that a draw names, below 8.
pub fn variable_in(draw: u16) -> u16
    ensures { result ≡ variable_in draw }
{
    draw / 16 % 8
}

/// The number below 64 that a draw gives.
pub fn count_in(draw: u16) -> u16
    ensures { result ≡ count_in draw }
{
    draw % 64
}
