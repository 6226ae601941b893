//! One row, again and again.
ghost use Rattle.std.specs.Prelude.{◌≡◌, ◌≢◌, ◌++◌, MatchResult, replicate};
ghost use Rattle.supply_trace.specs.Supplies.{CountsFault, TakesRow};

use crate::queue::Queue;
use crate::{Given, Supply};
use msp430_machine::Refill;
use std::alloc::Global;
use std::marker::Model;

/// A row that is given a number of times, and then the rows that are loaded. It never fails.
#[derive(Drop)]
pub struct Worst {
    row: Refill,
    times: u64,
    queue: Queue,
}

impl Model for Worst {
    ghost use Rattle.std.specs.Prelude.{◌++◌, List, replicate};
    ghost use Rattle.msp430_machine.specs.declared.answer.Refill.{Refill};

    ghost Value = { List Refill };

    ghost view = { λ w. replicate w.times w.row ++ w.queue };
}

impl Worst {
    /// A box of this row so many times. It takes no memory.
    pub fn new(alloc: Global, row: Refill, times: u64) -> Worst
        ensures { result ≡ replicate times row }
    {
        Worst {
            row,
            times,
            queue: Queue::new(Vec::new(alloc)),
        }
    }
}

impl Supply for Worst {
    ghost rows_left = { λ rows. rows };

    ghost supply_faults = { λ _. 0 };

    fn load(&mut self, rows: Vec<Refill>) -> Result<(), Vec<Refill>> {
        self.queue.add(rows)
    }

    fn refill(&mut self) -> Given
        ensures takes { TakesRow result self.old self.new }
        ensures cause { CountsFault result 0 0 }
        ensures succeeds { result ≢ Given.Failed }
    {
        if self.times == 0 {
            return self.queue.take();
        }
        self.times -= 1;
        Given::Row(self.row)
    }
}
