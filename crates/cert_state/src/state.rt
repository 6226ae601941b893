//! What is known where the code comes to an address.
ghost use Rattle.std.specs.Prelude.{◌≡◌, ◌∷◌, IfOk, List, is_some, option_map};
ghost use Rattle.certificate.specs.Rows.{point_of};
ghost use Rattle.certificate.specs.Grammar.{IsPoint};
ghost use Rattle.certificate.specs.declared.cert.Fact.{Fact};
ghost use Rattle.certificate.specs.declared.cert.Slot.{Slot};
ghost use Rattle.cert_rules.specs.Known.{bare as bare_lem, forgetting, freshened, given, is_set as is_set_lem, known_at as known_at_lem, range_in as range_in_facts, range_of as range_of_lem, with_cost};
ghost use Rattle.cert_rules.specs.Spending.{settled, when_lowered, when_raised};
ghost use Rattle.cert_state.specs.Spots.{slot_at};
ghost use Rattle.cert_state.specs.Views.{AllKept, IsKept, hit_by, known_of, range_in as range_in_lem, range_in_both, ranged, test_of};

use crate::amounts::small;
use crate::hits::Hit;
use crate::memory::put;
use crate::range::Range;
use crate::slots::{Spot, held_slot, is_held};
use crate::spending::{lower, pay, raise, settle};
use crate::spent::Spending;
use crate::values::{Held, range_in, range_of, with_range, without};
use base_io::Memory;
use certificate::{Fact, PointRow, Slot, Span, Term};
use std::alloc::Global;

/// The last instruction compared a slot's value with a number. Where it subtracted, its flags tell equality alone.
#[derive(Clone, Copy)]
pub struct Test {
    pub of: Slot,
    pub with: u16,
    pub ordered: bool,
}

/// The stretch; a bound of what it has spent; ranges of registers and words, where a register without a range isn't set;
/// the words that the stretch has written; whether an instruction has left flags; and what these tell.
#[derive(Drop)]
pub struct State {
    pub stretch: u16,
    pub spent: Spending,
    pub values: Vec<Held>,
    pub fresh: Vec<Span>,
    pub flags: bool,
    pub test: Option<Test>,
}

impl State {
    /// The range of a slot, or any word.
    pub fn range_of(&self, x: Spot) -> Range
        ensures { ranged result ≡ range_of_lem (known_of self.now) (slot_at x) }
    {
        range_of(&self.values, x)
    }

    /// Whether a register is set.
    pub fn is_set(&self, r: u8) -> bool
        ensures { result ≡ is_set_lem (known_of self.now) r }
    {
        range_in(self.values.as_slice(), Spot::Reg(r)).is_some()
    }

    /// Pays for an instruction, and forgets what the last one compared.
    pub fn pay(&mut self, cost: u64) -> Result<(), Memory>
        ensures { IfOk result (λ _. known_of self.new ≡ with_cost cost (known_of self.old)) }
    {
        pay(&mut self.spent, cost)?;
        self.test = None;
        Ok(())
    }

    /// A slot's value has risen by c.
    pub fn raise(&mut self, alloc: Global, w: Spot, c: u16) -> Result<(), Memory>
        ensures { IfOk result (λ _. known_of self.new ≡ record (known_of self.old) { spent = when_raised (slot_at w) c (known_of self.old).spent }) }
    {
        raise(alloc, &mut self.spent, w, c)?;
        Ok(())
    }

    /// A slot's value has fallen by c.
    pub fn lower(&mut self, alloc: Global, w: Spot, c: u16) -> Result<(), Memory>
        ensures { IfOk result (λ _. known_of self.new ≡ record (known_of self.old) { spent = when_lowered (slot_at w) c (known_of self.old).spent }) }
    {
        lower(alloc, &mut self.spent, w, c)?;
        Ok(())
    }

    /// A slot has a value of this range, if a certificate may speak of it.
    pub fn give(&mut self, alloc: Global, w: Spot, range: Range) -> Result<(), Memory>
        ensures { IfOk result (λ _. known_of self.new ≡ given (slot_at w) (ranged range) (known_of self.old).spent (known_of self.old)) }
    {
        if is_held(w) {
            let values = with_range(alloc, self.values.as_slice(), held_slot(w), range)?;
            self.values = values;
        }
        Ok(())
    }

    /// The terms of slots that are forgotten become their greatest values.
    pub fn settle(&mut self, alloc: Global, hit: &Hit<'_>) -> Result<(), Memory>
        ensures { IfOk result (λ _. known_of self.new ≡ record (known_of self.old) { spent = settled (hit_by hit.now) (range_of_lem (known_of self.old)) (known_of self.old).spent }) }
    {
        settle(alloc, &mut self.spent, &self.values, hit)?;
        Ok(())
    }

    /// Slots that are forgotten have any value.
    pub fn forget(&mut self, alloc: Global, hit: &Hit<'_>) -> Result<(), Memory>
        ensures { IfOk result (λ _. known_of self.new ≡ forgetting (hit_by hit.now) (known_of self.old)) }
    {
        self.settle(alloc, hit)?;
        let values = without(alloc, self.values.as_slice(), hit)?;
        self.values = values;
        Ok(())
    }

    /// The words of SRAM from a least to a greatest address are written.
    pub fn freshen(&mut self, least: u32, greatest: u32) -> Result<(), Memory>
        ensures { IfOk result (λ _. known_of self.new ≡ freshened least greatest (known_of self.old)) }
    {
        let lo = least.max(0x1C00);
        let hi = greatest.min(0x23FF);
        if lo <= hi {
            put(
                &mut self.fresh,
                Span {
                    lo: lo as u16,
                    hi: hi as u16,
                },
            )?;
        }
        Ok(())
    }

    /// The flags are left by an instruction, or lost, and tell this.
    pub fn flag(&mut self, flags: bool, test: Option<Test>)
        ensures { known_of self.new ≡ record (known_of self.old) { flags = flags; test = option_map test_of test } }
    {
        self.flags = flags;
        self.test = test;
    }

    /// The same once more.
    pub fn copy(&self, alloc: Global) -> Result<State, Memory>
        ensures { IfOk result (λ copy. known_of copy ≡ known_of self.now) }
    {
        let terms = all(alloc, self.spent.terms.as_slice())?;
        let spent = Spending {
            base: self.spent.base,
            terms,
        };
        let values = all(alloc, self.values.as_slice())?;
        let fresh = all(alloc, self.fresh.as_slice())?;
        Ok(State {
            stretch: self.stretch,
            spent,
            values,
            fresh,
            flags: self.flags,
            test: self.test,
        })
    }
}

// A list once more.
fn all<T: Copy>(alloc: Global, items: &[T]) -> Result<Vec<T>, Memory>
    ensures { IfOk result (λ made. made.items ≡ items.now) }
{
    match Vec::from_slice(alloc, items) {
        Ok(made) => Ok(made),
        Err(_) => Err(Memory),
    }
}

/// Nothing but the stretch and what is spent.
pub fn bare(alloc: Global, stretch: u16, spent: u64) -> Result<State, Memory>
    ensures { IfOk result (λ s. known_of s ≡ bare_lem stretch spent) }
{
    let base = small(i128::from(spent))?;
    Ok(State {
        stretch,
        spent: Spending {
            base,
            terms: Vec::new(alloc),
        },
        values: Vec::new(alloc),
        fresh: Vec::new(alloc),
        flags: false,
        test: None,
    })
}

fn range_at(fact: &Fact) -> Range
    requires { IsKept fact.now }
    ensures { ranged result ≡ record { least = fact.now.least; greatest = fact.now.greatest; even = fact.now.even } }
{
    Range {
        least: fact.least as u16,
        greatest: fact.greatest as u16,
        even: fact.even,
    }
}

fn keep_fact(values: &mut Vec<Held>, fact: &Fact) -> Result<(), Memory>
    requires { IsKept fact.now }
    ensures { IfOk result (λ _. (more : List Fact) (x : Slot) → range_in_both values.new.items more x ≡ range_in_both values.old.items (fact.now ∷ more) x) }
{
    let range = range_at(fact);
    put(values, Held { of: fact.of, range })?;
    Ok(())
}

fn values_at(alloc: Global, facts: &[Fact]) -> Result<Vec<Held>, Memory>
    requires { AllKept facts.now }
    ensures { IfOk result (λ values. (x : Slot) → range_in_lem values.items x ≡ range_in_facts facts.now x) }
{
    let mut values = Vec::new(alloc);
    let mut rest = facts;
    while let [first, after @ ..] = rest {
        keep_fact(&mut values, first)?;
        rest = after;
    }
    Ok(values)
}

/// What is known at a point is what the point says.
pub fn known_at(alloc: Global, p: &PointRow) -> Result<State, Memory>
    requires { IsPoint (point_of p.now) }
    ensures { IfOk result (λ s. known_of s ≡ known_at_lem (point_of p.now)) }
{
    let base = small(i128::from(p.spent.base))?;
    let terms = all(alloc, p.spent.terms.as_slice())?;
    let values = values_at(alloc, p.facts.as_slice())?;
    let fresh = all(alloc, p.fresh.as_slice())?;
    Ok(State {
        stretch: p.stretch,
        spent: Spending { base, terms },
        values,
        fresh,
        flags: false,
        test: None,
    })
}
