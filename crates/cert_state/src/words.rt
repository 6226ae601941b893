//! The words of an image.
ghost use Rattle.std.specs.Prelude.{◌≡◌, ◌+◌, ◌-◌, ◌*◌, ◌≤◌, ◌<◌, ◌^◌, ◌&&◌, length, nat_le, nat_lt, slice_get};
ghost use Rattle.ti_txt.specs.Image.{block_of, end_of};
ghost use Rattle.ti_txt.specs.Bytes.{byte_in as byte_in_lem};
ghost use Rattle.cert_rules.specs.Tables.{is_number as is_number_lem, word_fault as word_fault_lem, words_fault as words_fault_lem};
ghost use Rattle.cert_rules.specs.Words.{shown as shown_lem, word_in as word_in_lem};
ghost use Rattle.cert_state.specs.Shown.{blocks_in, shown_fault};

use crate::fault::{Fault, unless};
use cert_rules::Rule;
use ti_txt::Segment;

// The byte of a segment at an address.
fn byte_of(segment: &Segment, address: u32) -> Option<u8>
    requires { segment.now.start ≤ address }
    ensures { result ≡ slice_get segment.now.bytes.items (address - segment.now.start) }
{
    segment
        .bytes
        .get((address - segment.start as u32) as usize)
        .copied()
}

fn has_byte(segment: &Segment, address: u32) -> bool
    ensures { result ≡ (nat_le segment.now.start address && nat_lt address (end_of (block_of segment.now))) }
{
    segment.start as u32 <= address
        && ((address - segment.start as u32) as usize) < segment.bytes.len()
}

fn byte_in(segments: &[Segment], address: u32) -> Option<u8>
    ensures { result ≡ byte_in_lem (blocks_in segments.now) address }
{
    let mut rest = segments;
    while let [first, after @ ..] = rest {
        if has_byte(first, address) {
            return byte_of(first, address);
        }
        rest = after;
    }
    None
}

/// The word at an address, of two bytes, the low one first.
pub fn word_in(segments: &[Segment], address: u32) -> Option<u16>
    requires { address < 2 ^ 31 }
    ensures { result ≡ word_in_lem (blocks_in segments.now) address }
{
    let low = byte_in(segments, address)?;
    let high = byte_in(segments, address + 1)?;
    Some(low as u16 + 256 * high as u16)
}

/// A word as a report shows it: -1 where the image doesn't hold the word whole
pub fn shown(word: Option<u16>) -> i128
    ensures { result ≡ shown_lem word }
{
    match word {
        Some(word) => word as i128,
        None => -1,
    }
}

fn is_number(word: Option<u16>, required: u32) -> bool
    ensures { result ≡ is_number_lem word required }
{
    match word {
        Some(word) => word as u32 == required,
        None => false,
    }
}

/// Whether this word stands at an address.
pub fn word_fault(segments: &[Segment], rule: Rule, address: u16, required: u32) -> Option<Fault>
    ensures { shown_fault result ≡ word_fault_lem (blocks_in segments.now) rule address required }
{
    let found = word_in(segments, address as u32);
    unless(
        is_number(found, required),
        rule,
        address,
        shown(found),
        required as i128,
    )
}

/// Whether these words stand from an address on.
pub fn words_fault(segments: &[Segment], rule: Rule, address: u16, words: &[u16]) -> Option<Fault>
    requires { address + 2 * length words.now ≤ 65535 }
    ensures { shown_fault result ≡ words_fault_lem (blocks_in segments.now) rule address words.now }
{
    let mut at = address;
    let mut rest = words;
    while let [first, after @ ..] = rest {
        if let Some(fault) = word_fault(segments, rule, at, *first as u32) {
            return Some(fault);
        }
        at += 2;
        rest = after;
    }
    None
}
