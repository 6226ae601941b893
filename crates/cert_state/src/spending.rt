//! Bounds of what is spent.
ghost use Rattle.std.specs.Prelude.{◌≡◌, ◌≤◌, IfOk, filter, length, not};
ghost use Rattle.cert_rules.specs.Spending.{greatest_bound as greatest_bound_lem, paying, settled, when_lowered, when_raised};
ghost use Rattle.cert_state.specs.Amounts.{IsSmall, IsWide};
ghost use Rattle.cert_state.specs.Spots.{slot_at};
ghost use Rattle.cert_state.specs.Views.{hit_by, range_or_any, spent_of};

use crate::amounts::{Value, added, small, taken_off};
use crate::hits::{Hit, is_hit};
use crate::memory::put;
use crate::slots::Spot;
use crate::spent::Spending;
use crate::values::Held;
use base_io::Memory;
use certificate::Term;
use std::alloc::Global;

// The terms of slots that are forgotten.
fn terms_hit(alloc: Global, terms: &[Term], hit: &Hit<'_>) -> Result<Vec<Term>, Memory>
    ensures terms { IfOk result (λ kept. kept.items ≡ filter (λ t. hit_by hit.now t.of) terms.now) }
    ensures few { IfOk result (λ kept. length kept.items ≤ length terms.now) }
{
    let mut kept = Vec::new(alloc);
    for term in terms {
        if is_hit(hit, term.of) {
            put(&mut kept, *term)?;
        }
    }
    Ok(kept)
}

// The terms of all other slots.
fn terms_left(alloc: Global, terms: &[Term], hit: &Hit<'_>) -> Result<Vec<Term>, Memory>
    ensures terms { IfOk result (λ kept. kept.items ≡ filter (λ t. not (hit_by hit.now t.of)) terms.now) }
    ensures few { IfOk result (λ kept. length kept.items ≤ length terms.now) }
{
    let mut kept = Vec::new(alloc);
    for term in terms {
        if !is_hit(hit, term.of) {
            put(&mut kept, *term)?;
        }
    }
    Ok(kept)
}

fn bound_over(values: &Vec<Held>, base: i128, terms: &[Term]) -> i128
    requires small { IsSmall base }
    requires few { length terms.now ≤ 80 }
    ensures value { result ≡ greatest_bound_lem (range_or_any values.now.items) (record { base = base; terms = terms.now }) }
    ensures wide { IsWide result }
{
    let adds = added(&Value::Greatest(values), terms);
    let takes = taken_off(&Value::Least(values), terms);
    base + adds as i128 - takes as i128
}

/// The greatest value of a bound over these ranges.
pub fn greatest_bound(values: &Vec<Held>, spent: &Spending) -> i128
    ensures value { result ≡ greatest_bound_lem (range_or_any values.now.items) (spent_of spent.now) }
    ensures wide { IsWide result }
{
    bound_over(values, spent.base, spent.terms.as_slice())
}

/// Terms of slots that are forgotten become their greatest values.
pub fn settle(
    alloc: Global,
    spent: &mut Spending,
    values: &Vec<Held>,
    hit: &Hit<'_>,
) -> Result<(), Memory>
    ensures { IfOk result (λ _. spent_of spent.new ≡ settled (hit_by hit.now) (range_or_any values.now.items) (spent_of spent.old)) }
{
    let gone = terms_hit(alloc, spent.terms.as_slice(), hit)?;
    let kept = terms_left(alloc, spent.terms.as_slice(), hit)?;
    let base = small(bound_over(values, spent.base, gone.as_slice()))?;
    spent.base = base;
    spent.terms = kept;
    Ok(())
}

/// A slot's value has risen by c.
pub fn raise(alloc: Global, spent: &mut Spending, w: Spot, c: u16) -> Result<(), Memory>
    ensures { IfOk result (λ _. spent_of spent.new ≡ when_raised (slot_at w) c (spent_of spent.old)) }
{
    let own = terms_hit(alloc, spent.terms.as_slice(), &Hit::One(w))?;
    let adds = added(&Value::Fixed(c), own.as_slice());
    let takes = taken_off(&Value::Fixed(c), own.as_slice());
    let base = small(spent.base - adds as i128 + takes as i128)?;
    spent.base = base;
    Ok(())
}

/// A slot's value has fallen by c.
pub fn lower(alloc: Global, spent: &mut Spending, w: Spot, c: u16) -> Result<(), Memory>
    ensures { IfOk result (λ _. spent_of spent.new ≡ when_lowered (slot_at w) c (spent_of spent.old)) }
{
    let own = terms_hit(alloc, spent.terms.as_slice(), &Hit::One(w))?;
    let adds = added(&Value::Fixed(c), own.as_slice());
    let takes = taken_off(&Value::Fixed(c), own.as_slice());
    let base = small(spent.base + adds as i128 - takes as i128)?;
    spent.base = base;
    Ok(())
}

/// So much more is spent.
pub fn pay(spent: &mut Spending, cost: u64) -> Result<(), Memory>
    ensures { IfOk result (λ _. spent_of spent.new ≡ paying cost (spent_of spent.old)) }
{
    let base = small(spent.base + i128::from(cost))?;
    spent.base = base;
    Ok(())
}
