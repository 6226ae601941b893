//! The first word of a range that is of some kind.
ghost use Rattle.std.specs.Prelude.{◌≡◌, ◌<◌};
ghost use Rattle.cert_rules.specs.Slots.{first_in as first_in_lem};
ghost use Rattle.cert_state.specs.Views.{sought as sought_lem};

use crate::slots::{in_spans, is_memory, is_sram};
use certificate::Span;
use msp430_machine::{END, TRAP};

/// What is looked for among words.
#[derive(Clone, Copy)]
pub enum Sought<'a> {
    /// A word of SRAM that isn't one of these.
    Stale(&'a Vec<Span>),
    /// A word of SRAM or of data that isn't one of these.
    Unnamed(&'a Vec<Span>),
    /// A word that isn't one of these.
    Unwritten(&'a Vec<Span>),
    /// A word that is neither END nor TRAP.
    NoEnd,
}

fn is_sought(sought: &Sought<'_>, a: u32) -> bool
    ensures { result ≡ sought_lem sought.now a }
{
    match sought {
        Sought::Stale(fresh) => is_sram(a) && !in_spans(fresh.as_slice(), a),
        Sought::Unnamed(writes) => is_memory(a) && !in_spans(writes.as_slice(), a),
        Sought::Unwritten(fresh) => !in_spans(fresh.as_slice(), a),
        Sought::NoEnd => !(a == u32::from(END) || a == u32::from(TRAP)),
    }
}

/// The first word that is sought, of those from a least to a greatest address.
pub fn first_in(sought: &Sought<'_>, least: u32, greatest: u32) -> Option<u32>
    requires low { least < 1048576 }
    requires high { greatest < 1048576 }
    ensures { result ≡ first_in_lem (sought_lem sought.now) least greatest }
{
    let mut at = least + least % 2;
    let mut left = (greatest + 2).saturating_sub(at) / 2;
    while left > 0 {
        if is_sought(sought, at) {
            return Some(at);
        }
        at += 2;
        left -= 1;
    }
    None
}
