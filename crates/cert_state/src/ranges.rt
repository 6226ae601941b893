//! What is known of one value.
ghost use Rattle.std.specs.Prelude.{◌≡◌, ◌+◌, ◌≤◌, true, option_map};
ghost use Rattle.cert_rules.specs.Ranges.{any_word as any_word_lem, apart as apart_lem, below as below_lem, doubled as doubled_lem, equal as equal_lem, falls as falls_lem, from as from_lem, if_any as if_any_lem, just as just_lem, known_even as known_even_lem, lowered as lowered_lem, raised as raised_lem, rises as rises_lem, with_even as with_even_lem};
ghost use Rattle.cert_state.specs.Views.{ranged};

use crate::range::Range;

/// Any word.
pub fn any_word() -> Range
    ensures { ranged result ≡ any_word_lem }
{
    with_even(false)
}

/// This value.
pub fn just(c: u16) -> Range
    ensures { ranged result ≡ just_lem c }
{
    Range {
        least: c,
        greatest: c,
        even: c % 2 == 0,
    }
}

/// Whether each value of the range is even.
pub fn known_even(r: Range) -> bool
    ensures { result ≡ known_even_lem (ranged r) }
{
    r.even || (r.least == r.greatest && r.least % 2 == 0)
}

// ---- Sums

fn with_even(even: bool) -> Range
    ensures { ranged result ≡ with_even_lem even }
{
    Range {
        least: 0,
        greatest: 65535,
        even,
    }
}

/// Whether no value of the range wraps where c is added.
pub fn rises(r: Range, c: u16) -> bool
    ensures value { result ≡ rises_lem (ranged r) c }
    ensures room { result ≡ true → r.greatest + c ≤ 65535 }
{
    u32::from(r.greatest) + u32::from(c) <= 65535
}

/// Whether no value of the range wraps where c is taken away.
pub fn falls(r: Range, c: u16) -> bool
    ensures value { result ≡ falls_lem (ranged r) c }
    ensures room { result ≡ true → c ≤ r.least }
{
    c <= r.least
}

/// The range with c added.
pub fn raised(r: Range, c: u16) -> Range
    ensures { ranged result ≡ raised_lem (ranged r) c }
{
    let even = known_even(r) && c % 2 == 0;
    if rises(r, c) {
        Range {
            least: r.least + c,
            greatest: r.greatest + c,
            even,
        }
    } else {
        with_even(even)
    }
}

/// The range with c taken away.
pub fn lowered(r: Range, c: u16) -> Range
    ensures { ranged result ≡ lowered_lem (ranged r) c }
{
    let even = known_even(r) && c % 2 == 0;
    if falls(r, c) {
        Range {
            least: r.least - c,
            greatest: r.greatest - c,
            even,
        }
    } else {
        with_even(even)
    }
}

/// The range of twice the value.
pub fn doubled(r: Range) -> Range
    ensures { ranged result ≡ doubled_lem (ranged r) }
{
    if 2 * u32::from(r.greatest) <= 65535 {
        Range {
            least: 2 * r.least,
            greatest: 2 * r.greatest,
            even: true,
        }
    } else {
        with_even(true)
    }
}

// ---- Comparisons

fn if_any(least: u32, greatest: u16, even: bool) -> Option<Range>
    ensures { option_map ranged result ≡ if_any_lem (record { least = least; greatest = greatest; even = even }) }
{
    if least <= u32::from(greatest) {
        Some(Range {
            least: least as u16,
            greatest,
            even,
        })
    } else {
        None
    }
}

/// What is left of the range below c.
pub fn below(c: u16, r: Range) -> Option<Range>
    ensures { option_map ranged result ≡ below_lem c (ranged r) }
{
    if r.least < c {
        Some(Range {
            least: r.least,
            greatest: r.greatest.min(c - 1),
            even: r.even,
        })
    } else {
        None
    }
}

/// What is left of the range from c on.
pub fn from(c: u16, r: Range) -> Option<Range>
    ensures { option_map ranged result ≡ from_lem c (ranged r) }
{
    if_any(u32::from(r.least.max(c)), r.greatest, r.even)
}

/// What is left of the range at c alone.
pub fn equal(c: u16, r: Range) -> Option<Range>
    ensures { option_map ranged result ≡ equal_lem c (ranged r) }
{
    if_any(u32::from(r.least.max(c)), r.greatest.min(c), r.even)
}

/// What is left of the range without c: a bound that is c moves by one.
pub fn apart(c: u16, r: Range) -> Option<Range>
    ensures { option_map ranged result ≡ apart_lem c (ranged r) }
{
    let least = if r.least == c {
        u32::from(r.least) + 1
    } else {
        u32::from(r.least)
    };
    let greatest = if r.greatest == c {
        r.greatest.saturating_sub(1)
    } else {
        r.greatest
    };
    if_any(least, greatest, r.even)
}
