//! The rows that lines spell.
ghost use Rattle.std.specs.Prelude.{◌≡◌, ◌≤◌, ◌+◌, ◌==◌, ◌&&◌, ◌||◌, ◌∷◌, [], length, nat_le, not, codes};
ghost use Rattle.std.specs.List.{list_all, list_any};
ghost use Rattle.certificate.specs.Fields.{Reads, number_of, word_of};
ghost use Rattle.certificate.specs.Rows.{flat_of, function_of, kind_of, point_of};
ghost use Rattle.certificate.specs.Grammar.{all_fresh, all_have_facts, has_fact, is_fresh_slot, lies_in, same_slot};
ghost use Rattle.certificate.specs.Lines.{flat_in, function_in, good_point, kind_in, point_in, stretch_in};

use crate::fault::Refusal;
use crate::fields::{facts_of, is_sram, rank, spans_of};
use crate::sums::spent_of;
use crate::text::{number_of, split, word_of};
use crate::{Fact, FlatPart, FunctionRow, PointRow, Slot, Span, StretchRow, Term};
use std::alloc::Global;

/// The row of a stretch: HEAD CHAIN TURNS COST.
pub fn stretch_in(text: &[u8]) -> Option<StretchRow>
    ensures { result ≡ stretch_in text.now }
{
    let (head, text) = split(text, b' ');
    let (chain, text) = split(text, b' ');
    let (turns, cost) = split(text, b' ');
    let head = word_of(head)?;
    let chain = number_of(chain)?;
    let turns = number_of(turns)?;
    let cost = number_of(cost)?;
    Some(StretchRow {
        head,
        chain,
        turns,
        cost,
    })
}

fn number(text: &[u8]) -> Result<u64, Refusal>
    ensures { Reads (λ n. n) result (number_of text.now) }
{
    match number_of(text) {
        Some(number) => Ok(number),
        None => Err(Refusal::Bad),
    }
}

fn word(text: &[u8]) -> Result<u16, Refusal>
    ensures { Reads (λ n. n) result (word_of text.now) }
{
    match word_of(text) {
        Some(word) => Ok(word),
        None => Err(Refusal::Bad),
    }
}

// COST WRITES
fn flat_in(alloc: Global, text: &[u8]) -> Result<FlatPart, Refusal>
    ensures { Reads flat_of result (flat_in text.now) }
{
    let (cost, writes) = split(text, b' ');
    let cost = number(cost)?;
    let writes = spans_of(alloc, writes)?;
    Ok(FlatPart { cost, writes })
}

// `split`, or `flat`, COST and WRITES
fn kind_in(alloc: Global, text: &[u8]) -> Result<Option<FlatPart>, Refusal>
    ensures { Reads kind_of result (kind_in text.now) }
{
    if text == b"split".as_slice() {
        return Ok(None);
    }
    let (kind, text) = split(text, b' ');
    if kind != b"flat".as_slice() {
        return Err(Refusal::Bad);
    }
    Ok(Some(flat_in(alloc, text)?))
}

/// The row of a function: START END HEIGHT, and `split`, or `flat`, COST and WRITES.
pub fn function_in(alloc: Global, text: &[u8]) -> Result<FunctionRow, Refusal>
    ensures { Reads function_of result (function_in text.now) }
{
    let (start, text) = split(text, b' ');
    let (end, text) = split(text, b' ');
    let (height, kind) = split(text, b' ');
    let start = word(start)?;
    let end = word(end)?;
    let height = number(height)?;
    let flat = kind_in(alloc, kind)?;
    Ok(FunctionRow {
        start,
        end,
        height,
        flat,
    })
}

fn same_slot(a: Slot, b: Slot) -> bool
    ensures { result ≡ same_slot a b }
{
    rank(a) == rank(b)
}

// The first fact from a place on whose slot does not stand before this one.
fn next_fact(facts: &[Fact], from: usize, slot: Slot) -> usize
    ensures { from ≤ result }
{
    let mut at = from;
    while at < facts.len() && rank(facts[at].of) < rank(slot) {
        at += 1;
    }
    at
}

// Tries the fact at this place before it looks through all of them.
fn has_fact(facts: &[Fact], at: usize, slot: Slot) -> bool
    ensures { result ≡ has_fact facts.now slot }
{
    if at < facts.len() && same_slot(facts[at].of, slot) {
        return true;
    }
    facts.iter().any(|f| same_slot(f.of, slot))
}

// Facts and terms ascend, so one walk along both finds the fact of each term. Only a term without one makes it look
// through all facts, and then it ends.
fn all_have_facts(facts: &[Fact], terms: &[Term]) -> bool
    ensures { result ≡ all_have_facts facts.now terms.now }
{
    let mut at = 0;
    for term in terms {
        at = next_fact(facts, at, term.of);
        if !has_fact(facts, at, term.of) {
            return false;
        }
    }
    true
}

// The first span from a place on that does not end below this slot.
fn next_span(spans: &[Span], from: usize, slot: Slot) -> usize
    ensures { from ≤ result }
{
    let mut at = from;
    while at < spans.len() && 16 + u32::from(spans[at].hi) < rank(slot) {
        at += 1;
    }
    at
}

fn is_within(span: Span, address: u16) -> bool
    ensures { result ≡ (nat_le span.lo address && nat_le address span.hi) }
{
    span.lo <= address && address <= span.hi
}

// Tries the span at this place before it looks through all of them.
fn lies_in(spans: &[Span], at: usize, address: u16) -> bool
    ensures { result ≡ lies_in spans.now address }
{
    if at < spans.len() && is_within(spans[at], address) {
        return true;
    }
    spans.iter().any(|s| is_within(*s, address))
}

fn is_fresh_slot(spans: &[Span], at: usize, slot: Slot) -> bool
    ensures { result ≡ is_fresh_slot spans.now slot }
{
    match slot {
        Slot::Reg(_) => true,
        Slot::Word(address) => !is_sram(address) || lies_in(spans, at, address),
    }
}

// Spans and facts ascend, so one walk along both finds the span of each fact. Only a fact that isn't fresh makes it look
// through all spans, and then it ends.
fn all_fresh(spans: &[Span], facts: &[Fact]) -> bool
    ensures { result ≡ all_fresh spans.now facts.now }
{
    let mut at = 0;
    for fact in facts {
        at = next_span(spans, at, fact.of);
        if !is_fresh_slot(spans, at, fact.of) {
            return false;
        }
    }
    true
}

fn good_point(point: PointRow) -> Result<PointRow, Refusal>
    ensures { Reads point_of result (good_point (point_of point)) }
{
    if all_have_facts(&point.facts, &point.spent.terms) && all_fresh(&point.fresh, &point.facts) {
        Ok(point)
    } else {
        Err(Refusal::Bad)
    }
}

/// The row of a point: ADDRESS STRETCH SPENT FACTS FRESH.
pub fn point_in(alloc: Global, text: &[u8]) -> Result<PointRow, Refusal>
    ensures { Reads point_of result (point_in text.now) }
{
    let (address, text) = split(text, b' ');
    let (stretch, text) = split(text, b' ');
    let (spent, text) = split(text, b' ');
    let (facts, fresh) = split(text, b' ');
    let address = word(address)?;
    let stretch = word(stretch)?;
    let spent = spent_of(alloc, spent)?;
    let facts = facts_of(alloc, facts)?;
    let fresh = spans_of(alloc, fresh)?;
    good_point(PointRow {
        address,
        stretch,
        spent,
        facts,
        fresh,
    })
}
