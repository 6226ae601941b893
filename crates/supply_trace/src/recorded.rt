//! Rows as they were loaded.
ghost use Rattle.std.specs.Prelude.{◌≡◌, ◌≢◌, ◌++◌, [], MatchResult};
ghost use Rattle.supply_trace.specs.Supplies.{CountsFault, TakesRow};

use crate::queue::Queue;
use crate::{Given, Supply};
use msp430_machine::Refill;
use std::alloc::Global;
use std::marker::Model;

/// The rows that are loaded into it, in order. It never fails.
#[derive(Drop)]
pub struct Recorded {
    queue: Queue,
}

impl Model for Recorded {
    ghost use Rattle.std.specs.Prelude.{List};
    ghost use Rattle.msp430_machine.specs.declared.answer.Refill.{Refill};

    ghost Value = { List Refill };

    ghost view = { λ r. r.queue };
}

impl Recorded {
    /// A box of no rows. It takes no memory.
    pub fn new(alloc: Global) -> Recorded
        ensures { result ≡ [] }
    {
        Recorded {
            queue: Queue::new(Vec::new(alloc)),
        }
    }
}

impl Supply for Recorded {
    ghost rows_left = { λ rows. rows };

    ghost supply_faults = { λ _. 0 };

    fn load(&mut self, rows: Vec<Refill>) -> Result<(), Vec<Refill>> {
        self.queue.add(rows)
    }

    fn refill(&mut self) -> Given
        ensures takes { TakesRow result self.old self.new }
        ensures cause { CountsFault result 0 0 }
        ensures succeeds { result ≢ Given.Failed }
    {
        self.queue.take()
    }
}
