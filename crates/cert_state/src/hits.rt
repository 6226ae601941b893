//! Slots that are forgotten.
ghost use Rattle.std.specs.Prelude.{◌≡◌};
ghost use Rattle.cert_state.specs.Views.{hit_by};

use crate::slots::{Spot, in_spans, same_slot};
use certificate::{FlatPart, Slot};

/// Which slots are forgotten.
#[derive(Clone, Copy)]
pub enum Hit<'a> {
    /// This one.
    One(Spot),
    /// The words from a least to a greatest address.
    Words(u32, u32),
    /// What a call of a function without heads loses: R11 to R15, and the words that it writes.
    Lost(&'a FlatPart),
}

/// Whether a slot is forgotten.
pub fn is_hit(hit: &Hit<'_>, x: Slot) -> bool
    ensures { result ≡ hit_by hit.now x }
{
    match (hit, x) {
        (Hit::One(w), _) => same_slot(x, *w),
        (Hit::Words(_, _), Slot::Reg(_)) => false,
        (Hit::Words(least, greatest), Slot::Word(a)) => {
            *least <= u32::from(a) && u32::from(a) <= *greatest
        }
        (Hit::Lost(_), Slot::Reg(r)) => 11 <= r && r <= 15,
        (Hit::Lost(f), Slot::Word(a)) => in_spans(f.writes.as_slice(), u32::from(a)),
    }
}
