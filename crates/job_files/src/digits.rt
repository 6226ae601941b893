//! Hexadecimal digits as texts.
ghost use Rattle.std.specs.Prelude.{◌≡◌, ◌<◌, ◌∷◌, []};
ghost use Rattle.base_io.specs.Digits.{hex_digit};

/// An upper-case hexadecimal digit.
pub fn hex_digit(d: u16) -> &'static str
    requires { d < 16 }
    ensures { result.now ≡ hex_digit d ∷ [] }
{
    match d {
        0 => "0",
        1 => "1",
        2 => "2",
        3 => "3",
        4 => "4",
        5 => "5",
        6 => "6",
        7 => "7",
        8 => "8",
        9 => "9",
        10 => "A",
        11 => "B",
        12 => "C",
        13 => "D",
        14 => "E",
        _ => "F",
    }
}
