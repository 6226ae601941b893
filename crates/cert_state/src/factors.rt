//! One bound against another.
ghost use Rattle.std.specs.Prelude.{◌≡◌, ◌+◌, ◌++◌, ◌*◌, ◌^◌, ◌≤◌, IfOk, length, map};
ghost use Rattle.cert_rules.specs.Spending.{joined as joined_lem, lack as lack_lem, least_taken as least_taken_lem, most_added as most_added_lem, with_terms as with_terms_lem, without_terms as without_terms_lem};
ghost use Rattle.certificate.specs.Rows.{spent_of as spent_of_affine};
ghost use Rattle.cert_state.specs.Views.{factor_of, range_or_any, spent_of};

use crate::amounts::product;
use crate::factor::Factor;
use crate::memory::put;
use crate::slots::{same_slot, spot_of};
use crate::spent::Spending;
use crate::values::{Held, range_of};
use base_io::Memory;
use certificate::{Affine, Slot, Term};
use std::alloc::Global;

const MOST: u128 = 1 << 72;

// No certificate makes a factor so large that it is refused.
fn make_factor(of: Slot, adds: u128, takes: u128) -> Result<Factor, Memory>
    ensures { IfOk result (λ f. factor_of f ≡ record { of = of; adds = adds; takes = takes }) }
{
    if adds <= MOST && takes <= MOST {
        Ok(Factor { of, adds, takes })
    } else {
        Err(Memory)
    }
}

// So much more of a slot.
fn joined(
    alloc: Global,
    of: Slot,
    adds: u64,
    takes: u64,
    factors: &[Factor],
) -> Result<Vec<Factor>, Memory>
    ensures factors { IfOk result (λ made. map factor_of made.items ≡ joined_lem of adds takes (map factor_of factors.now)) }
{
    let mut made = Vec::new(alloc);
    let mut rest = factors;
    while let [first, after @ ..] = rest {
        if same_slot(first.of, spot_of(of)) {
            let more = make_factor(
                first.of,
                first.adds + u128::from(adds),
                first.takes + u128::from(takes),
            )?;
            put(&mut made, more)?;
            put_all(&mut made, after)?;
            return Ok(made);
        }
        put(&mut made, *first)?;
        rest = after;
    }
    put(
        &mut made,
        make_factor(of, u128::from(adds), u128::from(takes))?,
    )?;
    Ok(made)
}

fn put_all(made: &mut Vec<Factor>, more: &[Factor]) -> Result<(), Memory>
    ensures { IfOk result (λ _. made.new.items ≡ made.old.items ++ more.now) }
{
    match made.extend_from_slice(more) {
        Ok(()) => Ok(()),
        Err(_) => Err(Memory),
    }
}

// The terms of a sum, joined to factors.
fn with_terms(alloc: Global, terms: &[Term], factors: Vec<Factor>) -> Result<Vec<Factor>, Memory>
    ensures { IfOk result (λ made. map factor_of made.items ≡ with_terms_lem terms.now (map factor_of factors.items)) }
{
    match terms {
        [] => Ok(factors),
        [term, rest @ ..] => {
            let behind = with_terms(alloc, rest, factors)?;
            let adds = if term.minus { 0 } else { term.factor };
            let takes = if term.minus { term.factor } else { 0 };
            joined(alloc, term.of, adds, takes, behind.as_slice())
        }
    }
}

// Factors less the terms of a sum.
fn without_terms(alloc: Global, terms: &[Term], factors: Vec<Factor>) -> Result<Vec<Factor>, Memory>
    ensures { IfOk result (λ made. map factor_of made.items ≡ without_terms_lem terms.now (map factor_of factors.items)) }
{
    match terms {
        [] => Ok(factors),
        [term, rest @ ..] => {
            let behind = without_terms(alloc, rest, factors)?;
            let adds = if term.minus { term.factor } else { 0 };
            let takes = if term.minus { 0 } else { term.factor };
            joined(alloc, term.of, adds, takes, behind.as_slice())
        }
    }
}

fn most_added(values: &Vec<Held>, factors: &[Factor]) -> u128
    requires { length factors.now ≤ 1000 }
    ensures value { result ≡ most_added_lem (range_or_any values.now.items) (map factor_of factors.now) }
    ensures small { result ≤ length factors.now * 2 ^ 90 }
{
    match factors {
        [] => 0,
        [first, rest @ ..] => {
            let times = first.adds.saturating_sub(first.takes);
            product(times, range_of(values, spot_of(first.of)).greatest) + most_added(values, rest)
        }
    }
}

fn least_taken(values: &Vec<Held>, factors: &[Factor]) -> u128
    requires { length factors.now ≤ 1000 }
    ensures value { result ≡ least_taken_lem (range_or_any values.now.items) (map factor_of factors.now) }
    ensures small { result ≤ length factors.now * 2 ^ 90 }
{
    match factors {
        [] => 0,
        [first, rest @ ..] => {
            let times = first.takes.saturating_sub(first.adds);
            product(times, range_of(values, spot_of(first.of)).least) + least_taken(values, rest)
        }
    }
}

/// By how much the one bound is above the other somewhere in the ranges, at most.
pub fn lack(
    alloc: Global,
    values: &Vec<Held>,
    spent: &Spending,
    promised: &Affine,
) -> Result<i128, Memory>
    ensures { IfOk result (λ over. over ≡ lack_lem (range_or_any values.now.items) (spent_of spent.now) (spent_of_affine promised.now)) }
{
    let none = Vec::new(alloc);
    let own = with_terms(alloc, spent.terms.as_slice(), none)?;
    let factors = without_terms(alloc, promised.terms.as_slice(), own)?;
    if factors.len() > 1000 {
        return Err(Memory);
    }
    let adds = most_added(values, factors.as_slice());
    let takes = least_taken(values, factors.as_slice());
    Ok(spent.base - i128::from(promised.base) + adds as i128 - takes as i128)
}
