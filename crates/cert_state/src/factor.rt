//! What a slot counts for.
ghost use Rattle.std.specs.Prelude.{◌^◌, ◌≤◌};

use certificate::Slot;

/// What is added and what is taken away of a slot's value, each so many times.
#[derive(Clone, Copy)]
pub struct Factor {
    pub of: Slot,
    pub adds: u128,
    pub takes: u128,
    pub ghost few_added: { adds ≤ 2 ^ 72 },
    pub ghost few_taken: { takes ≤ 2 ^ 72 },
}
