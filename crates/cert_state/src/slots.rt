//! Registers and words, and where they are.
ghost use Rattle.std.specs.Prelude.{◌≡◌, true};
ghost use Rattle.cert_rules.specs.Slots.{in_spans as in_spans_lem, is_data as is_data_lem, is_held as is_held_lem, is_memory as is_memory_lem, is_sram as is_sram_lem, same_slot as same_slot_lem};
ghost use Rattle.cert_state.specs.Spots.{slot_at};

use certificate::{Slot, Span};

/// A register, or the word at an address, which may lie behind the end of memory.
#[derive(Clone, Copy)]
pub enum Spot {
    Reg(u8),
    Word(u32),
}

/// A slot as a spot.
pub fn spot_of(x: Slot) -> Spot
    ensures { slot_at result ≡ x }
{
    match x {
        Slot::Reg(r) => Spot::Reg(r),
        Slot::Word(a) => Spot::Word(u32::from(a)),
    }
}

/// Whether two are one.
pub fn same_slot(x: Slot, y: Spot) -> bool
    ensures { result ≡ same_slot_lem x (slot_at y) }
{
    match (x, y) {
        (Slot::Reg(r), Spot::Reg(q)) => r == q,
        (Slot::Word(a), Spot::Word(b)) => u32::from(a) == b,
        (Slot::Reg(_), Spot::Word(_)) | (Slot::Word(_), Spot::Reg(_)) => false,
    }
}

/// Whether it is this register.
pub fn is_register(r: u8, y: Spot) -> bool
    ensures { result ≡ same_slot_lem (Slot.Reg r) (slot_at y) }
{
    match y {
        Spot::Reg(q) => r == q,
        Spot::Word(_) => false,
    }
}

/// A word of SRAM.
pub fn is_sram(a: u32) -> bool
    ensures { result ≡ is_sram_lem a }
{
    0x1C00 <= a && a <= 0x23FF
}

fn is_data(a: u32) -> bool
    ensures { result ≡ is_data_lem a }
{
    0x4400 <= a && a <= 0x7EFF
}

/// A word of SRAM or of data.
pub fn is_memory(a: u32) -> bool
    ensures { result ≡ is_memory_lem a }
{
    is_sram(a) || is_data(a)
}

/// Whether a certificate may speak of the value.
pub fn is_held(x: Spot) -> bool
    ensures { result ≡ is_held_lem (slot_at x) }
{
    match x {
        Spot::Reg(r) => 4 <= r && r <= 15,
        Spot::Word(a) => is_memory(a),
    }
}

/// The slot, where a certificate may speak of its value.
pub fn held_slot(x: Spot) -> Slot
    requires { is_held_lem (slot_at x) ≡ true }
    ensures { result ≡ slot_at x }
{
    match x {
        Spot::Reg(r) => Slot::Reg(r),
        Spot::Word(a) => Slot::Word(a as u16),
    }
}

/// Whether the word at this address is one of the spans'.
pub fn in_spans(spans: &[Span], a: u32) -> bool
    ensures { result ≡ in_spans_lem spans.now a }
{
    let mut rest = spans;
    while let [first, after @ ..] = rest {
        if u32::from(first.lo) <= a && a <= u32::from(first.hi) {
            return true;
        }
        rest = after;
    }
    false
}
