//! Ranges of slots.
ghost use Rattle.std.specs.Prelude.{◌≡◌, ◌++◌, ◌∷◌, [], IfOk, filter, not, option_map, unwrap_or};
ghost use Rattle.cert_rules.specs.Ranges.{any_word as any_word_lem};
ghost use Rattle.cert_rules.specs.Slots.{same_slot as same_slot_lem};
ghost use Rattle.cert_state.specs.Spots.{slot_at};
ghost use Rattle.cert_state.specs.Views.{hit_by, range_in as range_in_lem, ranged};

use crate::hits::{Hit, is_hit};
use crate::memory::put;
use crate::range::Range;
use crate::ranges::any_word;
use crate::slots::{Spot, same_slot, spot_of};
use base_io::Memory;
use certificate::Slot;
use std::alloc::Global;

/// A slot's value is in a range.
#[derive(Clone, Copy)]
pub struct Held {
    pub of: Slot,
    pub range: Range,
}

/// The range of a slot, where one is held: the first.
pub fn range_in(values: &[Held], x: Spot) -> Option<Range>
    ensures { option_map ranged result ≡ range_in_lem values.now (slot_at x) }
{
    let mut rest = values;
    while let [first, after @ ..] = rest {
        if same_slot(first.of, x) {
            return Some(first.range);
        }
        rest = after;
    }
    None
}

/// The range of a slot, or any word.
pub fn range_of(values: &Vec<Held>, x: Spot) -> Range
    ensures { ranged result ≡ unwrap_or (range_in_lem values.now.items (slot_at x)) any_word_lem }
{
    match range_in(values.as_slice(), x) {
        Some(range) => range,
        None => any_word(),
    }
}

/// The ranges of all slots but those that are forgotten.
pub fn without(alloc: Global, values: &[Held], hit: &Hit<'_>) -> Result<Vec<Held>, Memory>
    ensures { IfOk result (λ kept. kept.items ≡ filter (λ h. not (hit_by hit.now h.of)) values.now) }
{
    let mut kept = Vec::new(alloc);
    for held in values {
        if !is_hit(hit, held.of) {
            put(&mut kept, *held)?;
        }
    }
    Ok(kept)
}

/// The ranges with another one for a slot.
pub fn with_range(
    alloc: Global,
    values: &[Held],
    w: Slot,
    range: Range,
) -> Result<Vec<Held>, Memory>
    ensures { IfOk result (λ kept. kept.items ≡ filter (λ h. not (same_slot_lem h.of w)) values.now ++ record { of = w; range = range } ∷ []) }
{
    let mut kept = without(alloc, values, &Hit::One(spot_of(w)))?;
    put(&mut kept, Held { of: w, range })?;
    Ok(kept)
}
