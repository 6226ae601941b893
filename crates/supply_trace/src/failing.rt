//! Rows that can't always be had.
ghost use Rattle.std.specs.Prelude.{◌≡◌, ◌≢◌, ◌++◌, ◌↔◌, [], ℕ, true, MatchResult};
ghost use Rattle.base_io.specs.Counts.{one_more};
ghost use Rattle.base_io.specs.Doubles.{fails_next, is_listed};
ghost use Rattle.supply_trace.specs.Supplies.{CountsFault, TakesRow, counted};

use crate::queue::Queue;
use crate::{Given, Supply};
use msp430_machine::Refill;
use std::marker::Model;

/// Rows, where the refills that are listed fail.
#[derive(Drop)]
pub struct Failing {
    queue: Queue,
    calls: Vec<u64>,
    asked: u64,
    faults: u64,
}

impl Model for Failing {
    ghost use Rattle.supply_trace.specs.Supplies.{FailingState};

    ghost Value = { FailingState };

    ghost view = { λ f. record { rows = f.queue; calls = f.calls.items; asked = f.asked; faults = f.faults } };
}

fn is_listed(numbers: &[u64], n: u64) -> bool
    ensures { result ≡ is_listed numbers.now n }
{
    numbers.contains(&n)
}

fn one_more(n: u64) -> u64
    ensures { result ≡ one_more n }
{
    n.saturating_add(1)
}

impl Failing {
    /// A box of these rows. The refills of these numbers, counted from 1, fail where a row is left. It takes no memory.
    pub fn new(rows: Vec<Refill>, calls: Vec<u64>) -> Failing
        ensures { result ≡ record { rows = rows.items; calls = calls.items; asked = 0; faults = 0 } }
    {
        Failing {
            queue: Queue::new(rows),
            calls,
            asked: 0,
            faults: 0,
        }
    }
}

impl Supply for Failing {
    ghost rows_left = { λ f. f.rows };

    ghost supply_faults = { λ f. f.faults };

    fn load(&mut self, rows: Vec<Refill>) -> Result<(), Vec<Refill>>
        ensures loads { MatchResult result
            (λ _. self.new.rows ≡ self.old.rows ++ rows.items)
            (λ back. (back.items ≡ rows.items) × (self.new.rows ≡ self.old.rows)) }
        ensures faults { self.new.faults ≡ self.old.faults }
        ensures rest { (self.new.calls ≡ self.old.calls) × (self.new.asked ≡ self.old.asked) }
    {
        self.queue.add(rows)
    }

    fn refill(&mut self) -> Given
        ensures takes { TakesRow result self.old.rows self.new.rows }
        ensures cause { CountsFault result self.old.faults self.new.faults }
        ensures exact { (result ≡ Given.Failed) ↔ ((self.old.rows ≢ []) × (fails_next self.old.calls self.old.asked ≡ true)) }
        ensures counts { self.new.faults ≡ counted result self.old.faults }
        ensures rest { (self.new.calls ≡ self.old.calls) × (self.new.asked ≡ one_more self.old.asked) }
    {
        self.asked = one_more(self.asked);
        if !self.queue.is_empty() && is_listed(&self.calls, self.asked) {
            self.faults = one_more(self.faults);
            return Given::Failed;
        }
        self.queue.take()
    }
}
