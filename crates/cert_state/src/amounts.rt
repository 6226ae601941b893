//! Sums of terms.
ghost use Rattle.std.specs.Prelude.{◌≡◌, ◌+◌, ◌*◌, ◌^◌, ◌≤◌, IfOk, length};
ghost use Rattle.cert_rules.specs.Spending.{added as added_lem, taken_off as taken_off_lem};
ghost use Rattle.cert_state.specs.Amounts.{IsSmall};
ghost use Rattle.cert_state.specs.Views.{valued};

use crate::slots::spot_of;
use crate::values::{Held, range_of};
use base_io::Memory;
use certificate::{Slot, Term};

/// What stands for the values of slots.
#[derive(Clone, Copy)]
pub enum Value<'a> {
    /// The greatest values of these ranges.
    Greatest(&'a Vec<Held>),
    /// The least values of these ranges.
    Least(&'a Vec<Held>),
    /// The same value for each.
    Fixed(u16),
}

const FAR: i128 = 1 << 110;

/// A number of a bound. No certificate makes one so large that it is refused.
pub fn small(z: i128) -> Result<i128, Memory>
    ensures value { IfOk result (λ same. same ≡ z) }
    ensures small { IfOk result (λ same. IsSmall same) }
{
    if -FAR <= z && z <= FAR {
        Ok(z)
    } else {
        Err(Memory)
    }
}

fn value_of(values: &Value<'_>, x: Slot) -> u16
    ensures { result ≡ valued values.now x }
{
    match values {
        Value::Greatest(held) => range_of(held, spot_of(x)).greatest,
        Value::Least(held) => range_of(held, spot_of(x)).least,
        Value::Fixed(c) => *c,
    }
}

/// So many times a value.
pub fn product(factor: u128, value: u16) -> u128
    requires { factor ≤ 2 ^ 80 }
    ensures value { result ≡ factor * value }
    ensures small { result ≤ factor * 65535 }
{
    factor * u128::from(value)
}

/// The sum of the terms that add, at these values.
pub fn added(values: &Value<'_>, terms: &[Term]) -> u128
    requires { length terms.now ≤ 80 }
    ensures value { result ≡ added_lem (valued values.now) terms.now }
    ensures small { result ≤ length terms.now * 2 ^ 80 }
{
    match terms {
        [] => 0,
        [term, rest @ ..] => {
            let own = if term.minus {
                0
            } else {
                product(u128::from(term.factor), value_of(values, term.of))
            };
            own + added(values, rest)
        }
    }
}

/// The sum of the terms that take away, at these values.
pub fn taken_off(values: &Value<'_>, terms: &[Term]) -> u128
    requires { length terms.now ≤ 80 }
    ensures value { result ≡ taken_off_lem (valued values.now) terms.now }
    ensures small { result ≤ length terms.now * 2 ^ 80 }
{
    match terms {
        [] => 0,
        [term, rest @ ..] => {
            let own = if term.minus {
                product(u128::from(term.factor), value_of(values, term.of))
            } else {
                0
            };
            own + taken_off(values, rest)
        }
    }
}
