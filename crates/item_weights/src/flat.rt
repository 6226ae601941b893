//! Which functions are flat, and what they cost.

ghost use Rattle.std.specs.Prelude.{◌≡◌, ◌+◌, ◌++◌, ◌∷◌, [], ◌<◌, ◌≤◌, ◌^◌, ℕ, Option, None, Some, IfOk, OnOk, IsTrue, length, slice_get};
ghost use Rattle.item_weights.specs.Weights.{Weight};
ghost use Rattle.item_weights.specs.Tallies.{IsTally};
ghost use Rattle.item_weights.specs.Flat.{Keep, Rule, flat_by, flats, flats_by, next_flats, no_numbers};

use crate::lists::first_and_rest;
use crate::weighing::{items_tally, number_in};
use crate::{OwnWeights, Tally};
use base_io::Memory;
use flow_graph::{Func, Graph};
use std::alloc::Global;

/// What single operations weigh, and the number of a function whose body has this weight over so many objects.
pub trait FlatRule: OwnWeights {
    ghost use Rattle.std.specs.Prelude.{Option, ℕ};
    ghost use Rattle.item_weights.specs.Weights.{Weight};

    ghost number_by: { Self → ℕ → Weight → Option ℕ };

    fn number(&self, tally: &Tally) -> Option<u64>
        ensures { (n : ℕ) (w : Weight) → IsTally n w tally.now → result ≡ number_by self.now n w };
}

/// Puts a number behind the others.
fn put_number(numbers: &mut Vec<Option<u64>>, number: Option<u64>) -> Result<(), Memory>
    ensures { OnOk result (numbers.new.items ≡ numbers.old.items ++ number ∷ []) }
{
    match numbers.push(number) {
        Ok(()) => Ok(()),
        Err(_) => Err(Memory),
    }
}

/// No function has a number.
fn no_numbers(alloc: Global, functions: &[Func]) -> Result<Vec<Option<u64>>, Memory>
    ensures { IfOk result (λ made. made.items ≡ no_numbers functions.now) }
{
    let mut made = Vec::new(alloc);
    let mut left = functions;
    while let Some((_func, rest)) = first_and_rest(left) {
        put_number(&mut made, None)?;
        left = rest;
    }
    Ok(made)
}

/// The number of one function, given those of the functions that it calls.
fn number_of<R: FlatRule>(
    alloc: Global,
    rule: &R,
    main: u32,
    flats: &[Option<u64>],
    function: u32,
    func: &Func,
    objects: u32,
) -> Result<Option<u64>, Memory>
    ensures { IfOk result (λ number. number ≡ flat_by (record { own = R.OwnWeights.own rule.now; number = R.number_by rule.now objects }) main flats.now function func.now) }
{
    if function == main {
        return Ok(None);
    }
    match items_tally(alloc, rule, flats, func.body.as_slice(), objects)? {
        None => Ok(None),
        Some(tally) => Ok(rule.number(&tally)),
    }
}

/// The number of one function, given those of the functions that it calls. One that has a number keeps it.
fn next_number<R: FlatRule>(
    alloc: Global,
    rule: &R,
    main: u32,
    flats: &[Option<u64>],
    function: u32,
    func: &Func,
    objects: u32,
) -> Result<Option<u64>, Memory>
    requires { (n : ℕ) → slice_get flats.now function ≡ Some (Some n) → flat_by (record { own = R.OwnWeights.own rule.now; number = R.number_by rule.now objects }) main flats.now function func.now ≡ Some n }
    ensures { IfOk result (λ number. number ≡ flat_by (record { own = R.OwnWeights.own rule.now; number = R.number_by rule.now objects }) main flats.now function func.now) }
{
    match number_in(flats, function) {
        Some(Some(number)) => Ok(Some(number)),
        _ => number_of(alloc, rule, main, flats, function, func, objects),
    }
}

/// The numbers of all functions, given those of the functions that they call. Those that have a number are not weighed again.
fn next_numbers<R: FlatRule>(
    alloc: Global,
    rule: &R,
    g: &Graph,
    flats: &[Option<u64>],
    objects: u32,
) -> Result<Vec<Option<u64>>, Memory>
    requires functions { length g.now.functions < 2 ^ 32 }
    requires kept { Keep flats.now (next_flats (record { own = R.OwnWeights.own rule.now; number = R.number_by rule.now objects }) g.now flats.now) }
    ensures { IfOk result (λ made. made.items ≡ next_flats (record { own = R.OwnWeights.own rule.now; number = R.number_by rule.now objects }) g.now flats.now) }
{
    let mut made = Vec::new(alloc);
    let mut left = g.functions.as_slice();
    let mut function = 0;
    while let Some((func, rest)) = first_and_rest(left) {
        let number = next_number(alloc, rule, g.main, flats, function, func, objects)?;
        put_number(&mut made, number)?;
        function += 1;
        left = rest;
    }
    Ok(made)
}

fn is_same(a: &Option<u64>, b: &Option<u64>) -> bool
    ensures { IsTrue result → a.now ≡ b.now }
{
    match a {
        None => b.is_none(),
        Some(number) => match b {
            None => false,
            Some(other) => *number == *other,
        },
    }
}

fn are_same(a: &[Option<u64>], b: &[Option<u64>]) -> bool
    ensures { IsTrue result → a.now ≡ b.now }
{
    let mut left = a;
    let mut others = b;
    while let Some((number, rest)) = first_and_rest(left) {
        match first_and_rest(others) {
            None => return false,
            Some((other, more)) => {
                if !is_same(number, other) {
                    return false;
                }
                others = more;
            }
        }
        left = rest;
    }
    others.is_empty()
}

/// The number of each flat function: what its body costs with every object in FRAM. It is none for the others. It goes from the
/// functions that call no other to those that call them, until nothing changes.
pub fn flat_numbers<R: FlatRule>(
    alloc: Global,
    rule: &R,
    g: &Graph,
) -> Result<Vec<Option<u64>>, Memory>
    requires functions { length g.now.functions < 2 ^ 32 }
    requires objects { length g.now.objects < 2 ^ 32 }
    ensures { IfOk result (λ made. made.items ≡ flats (record { own = R.OwnWeights.own rule.now; number = R.number_by rule.now (length g.now.objects) }) g.now) }
{
    let objects = g.objects.as_slice().len() as u32;
    let count = g.functions.as_slice().len();
    let mut numbers = no_numbers(alloc, g.functions.as_slice())?;
    for _depth in 0..count {
        let next = next_numbers(alloc, rule, g, numbers.as_slice(), objects)?;
        if are_same(next.as_slice(), numbers.as_slice()) {
            return Ok(next);
        }
        numbers = next;
    }
    Ok(numbers)
}
