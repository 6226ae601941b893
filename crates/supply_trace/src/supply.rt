//! What a supply is.
ghost use Rattle.std.specs.Prelude.{◌≡◌, ◌++◌, ℕ, List, MatchResult};
ghost use Rattle.msp430_machine.specs.declared.answer.Refill.{Refill};
ghost use Rattle.supply_trace.specs.Supplies.{CountsFault, TakesRow};

use msp430_machine::Refill;

/// What a supply answers where a wake is due.
#[derive(Clone, Copy, Debug, PartialEq, Eq)]
pub enum Given {
    /// The next row.
    Row(Refill),
    /// There is no further row.
    Ended,
    /// The next row couldn't be had now.
    Failed,
}

/// A queue of rows, each of which is a refill.
pub trait Supply: Drop {
    /// The rows left, the next one first.
    ghost rows_left: { Self → List Refill };

    /// How often a refill has failed. It never falls.
    ghost supply_faults: { Self → ℕ };

    /// Adds rows behind those that are left, or hands them back where there is no memory for them.
    fn load(&mut self, rows: Vec<Refill>) -> Result<(), Vec<Refill>>
        ensures loads { MatchResult result
            (λ _. rows_left self.new ≡ rows_left self.old ++ rows.items)
            (λ back. (back.items ≡ rows.items) × (rows_left self.new ≡ rows_left self.old)) }
        ensures faults { supply_faults self.new ≡ supply_faults self.old };

    /// Takes the first row.
    fn refill(&mut self) -> Given
        ensures takes { TakesRow result (rows_left self.old) (rows_left self.new) }
        ensures cause { CountsFault result (supply_faults self.old) (supply_faults self.new) };
}
