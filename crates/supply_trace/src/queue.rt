//! Rows that are taken from the front.
ghost use Rattle.std.specs.Prelude.{◌≡◌, ◌≢◌, ◌++◌, ◌==◌, MatchResult, length};
ghost use Rattle.supply_trace.specs.Supplies.{TakesRow};

use crate::Given;
use msp430_machine::Refill;
use std::marker::Model;

/// Rows in a vector, of which the first ones were taken.
#[derive(Drop)]
pub struct Queue {
    rows: Vec<Refill>,
    taken: usize,
}

impl Model for Queue {
    ghost use Rattle.std.specs.Prelude.{◌≤◌, List, drop, length};
    ghost use Rattle.msp430_machine.specs.declared.answer.Refill.{Refill};

    ghost Value = { List Refill };

    ghost view = { λ q. drop q.taken q.rows.items };

    ghost invariant = { λ q. q.taken ≤ length q.rows.items };
}

impl Queue {
    /// A queue of these rows. It takes no memory.
    pub fn new(rows: Vec<Refill>) -> Queue
        ensures { result ≡ rows.items }
    {
        Queue { rows, taken: 0 }
    }

    pub fn is_empty(&self) -> bool
        ensures { result ≡ (length self.now == 0) }
    {
        self.taken == self.rows.len()
    }

    /// Adds rows at the end, or hands them back where there is no memory for them. An empty queue needs none.
    pub fn add(&mut self, rows: Vec<Refill>) -> Result<(), Vec<Refill>>
        ensures { MatchResult result
            (λ _. self.new ≡ self.old ++ rows.items)
            (λ back. (back.items ≡ rows.items) × (self.new ≡ self.old)) }
    {
        if self.is_empty() {
            *self = Queue::new(rows);
            return Ok(());
        }
        match self.rows.extend_from_slice(&rows) {
            Ok(()) => Ok(()),
            Err(_) => Err(rows),
        }
    }

    /// Takes the first row.
    pub fn take(&mut self) -> Given
        ensures takes { TakesRow result self.old self.new }
        ensures succeeds { result ≢ Given.Failed }
    {
        if self.is_empty() {
            return Given::Ended;
        }
        let row = self.rows[self.taken];
        self.taken += 1;
        Given::Row(row)
    }
}
