//! A copy of an array.
ghost use Rattle.std.specs.Prelude.{◌≤◌};

/// A copy of an array: so many words, and the two indices as they stand in its second instruction.
#[derive(Clone, Copy)]
pub struct Copied {
    pub words: u16,
    pub source: u16,
    pub target: u16,
    pub ghost few: { words ≤ 32767 },
}
