//! What is known implies what a point promises.
ghost use Rattle.std.specs.Prelude.{◌≡◌, IfOk};
ghost use Rattle.certificate.specs.Rows.{point_of};
ghost use Rattle.cert_rules.specs.Faults.{first_of};
ghost use Rattle.cert_rules.specs.Points.{fact_range_fault as fact_range_fault_lem, fact_set_fault as fact_set_fault_lem, fresh_fault as fresh_fault_lem, implied_fault as implied_fault_lem, range_fault as range_fault_lem, slot_is_set as slot_is_set_lem, slot_number as slot_number_lem, spent_fault as spent_fault_lem};
ghost use Rattle.cert_state.specs.Shown.{shown_fault};
ghost use Rattle.cert_state.specs.Views.{known_of, ranged};

use base_io::Memory;
use cert_rules::Rule;
use cert_state::{
    Fault, Range, Sought, State, first_in, known_even, lack, spot_of, unless, unless_none,
};
use certificate::{Fact, PointRow, Slot, Span};
use std::alloc::Global;

fn slot_is_set(s: &State, x: Slot) -> bool
    ensures { result ≡ slot_is_set_lem (known_of s.now) x }
{
    match x {
        Slot::Reg(r) => s.is_set(r),
        Slot::Word(_) => true,
    }
}

fn slot_number(x: Slot) -> u16
    ensures { result ≡ slot_number_lem x }
{
    match x {
        Slot::Reg(r) => u16::from(r),
        Slot::Word(a) => a,
    }
}

fn fact_set_fault(a: u16, s: &State, f: &Fact) -> Option<Fault>
    ensures { shown_fault result ≡ fact_set_fault_lem a (known_of s.now) f.now }
{
    unless(
        slot_is_set(s, f.of),
        Rule::Set,
        a,
        i128::from(slot_number(f.of)),
        0,
    )
}

fn facts_set_fault(a: u16, s: &State, facts: &[Fact]) -> Option<Fault>
    ensures { shown_fault result ≡ first_of (fact_set_fault_lem a (known_of s.now)) facts.now }
{
    let mut rest = facts;
    while let [first, after @ ..] = rest {
        if let Some(fault) = fact_set_fault(a, s, first) {
            return Some(fault);
        }
        rest = after;
    }
    None
}

fn range_fault(a: u16, r: Range, f: &Fact) -> Option<Fault>
    ensures { shown_fault result ≡ range_fault_lem a (ranged r) f.now }
{
    let least = i128::from(r.least);
    let low = f.least <= u64::from(r.least);
    if let Some(fault) = unless(low, Rule::Range, a, least, i128::from(f.least)) {
        return Some(fault);
    }
    let greatest = i128::from(r.greatest);
    let high = u64::from(r.greatest) <= f.greatest;
    if let Some(fault) = unless(high, Rule::Range, a, greatest, i128::from(f.greatest)) {
        return Some(fault);
    }
    if let Some(fault) = unless(!f.even || known_even(r), Rule::Range, a, 1, 0) {
        return Some(fault);
    }
    None
}

fn facts_range_fault(a: u16, s: &State, facts: &[Fact]) -> Option<Fault>
    ensures { shown_fault result ≡ first_of (fact_range_fault_lem a (known_of s.now)) facts.now }
{
    let mut rest = facts;
    while let [first, after @ ..] = rest {
        if let Some(fault) = range_fault(a, s.range_of(spot_of(first.of)), first) {
            return Some(fault);
        }
        rest = after;
    }
    None
}

fn fresh_fault(a: u16, s: &State, span: &Span) -> Option<Fault>
    ensures { shown_fault result ≡ fresh_fault_lem a (known_of s.now) span.now }
{
    let unwritten = Sought::Unwritten(&s.fresh);
    let found = first_in(&unwritten, u32::from(span.lo), u32::from(span.hi));
    unless_none(found, Rule::Fresh, a)
}

fn all_fresh_fault(a: u16, s: &State, spans: &[Span]) -> Option<Fault>
    ensures { shown_fault result ≡ first_of (fresh_fault_lem a (known_of s.now)) spans.now }
{
    let mut rest = spans;
    while let [first, after @ ..] = rest {
        if let Some(fault) = fresh_fault(a, s, first) {
            return Some(fault);
        }
        rest = after;
    }
    None
}

fn spent_fault(alloc: Global, a: u16, s: &State, p: &PointRow) -> Result<Option<Fault>, Memory>
    ensures { IfOk result (λ fault. shown_fault fault ≡ spent_fault_lem a (known_of s.now) (point_of p.now)) }
{
    let over = lack(alloc, &s.values, &s.spent, &p.spent)?;
    Ok(unless(over <= 0, Rule::Spent, a, over, 0))
}

/// The first promise of a point that doesn't hold where the code comes there from an address.
pub fn implied_fault(
    alloc: Global,
    a: u16,
    s: &State,
    p: &PointRow,
) -> Result<Option<Fault>, Memory>
    ensures { IfOk result (λ fault. shown_fault fault ≡ implied_fault_lem a (known_of s.now) (point_of p.now)) }
{
    let own = i128::from(s.stretch);
    let same = s.stretch == p.stretch;
    if let Some(fault) = unless(same, Rule::Stretch, a, own, i128::from(p.stretch)) {
        return Ok(Some(fault));
    }
    if let Some(fault) = facts_set_fault(a, s, p.facts.as_slice()) {
        return Ok(Some(fault));
    }
    if let Some(fault) = facts_range_fault(a, s, p.facts.as_slice()) {
        return Ok(Some(fault));
    }
    if let Some(fault) = all_fresh_fault(a, s, p.fresh.as_slice()) {
        return Ok(Some(fault));
    }
    let fault = spent_fault(alloc, a, s, p)?;
    Ok(fault)
}
