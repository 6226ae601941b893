//! A range of values.
ghost use Rattle.std.specs.Prelude.{◌≤◌};

/// A value from `least` to `greatest`, which is even where `even` is set.
#[derive(Clone, Copy)]
pub struct Range {
    pub least: u16,
    pub greatest: u16,
    pub even: bool,
    pub ghost ordered: { least ≤ greatest },
}
