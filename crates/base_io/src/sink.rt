//! Sinks: what takes bytes, one piece after another.
ghost use Rattle.std.specs.Prelude.{ℕ, List, Option};
ghost use Rattle.base_io.specs.Counts.{CountsFaults};
ghost use Rattle.base_io.specs.Pieces.{AddsTold};

/// Why a `put` of a sink failed.
#[derive(Clone, Copy, Debug, PartialEq, Eq)]
pub enum SinkFault {
    /// The sink didn't take all the bytes.
    Failed,
}

/// What takes bytes. A sink may tell what it has taken.
pub trait Sink {
    /// The bytes that it has taken, where it tells them.
    ghost taken: { Self → Option (List ℕ) };

    /// How often a `put` has failed. It never falls, and stays at 2^64 - 1 once it is there.
    ghost faults: { Self → ℕ };

    /// Adds the bytes behind those that are there; where it answers `Failed`, it has added a front of them.
    fn put(&mut self, bytes: &[u8]) -> Result<(), SinkFault>
        ensures told { AddsTold bytes.now result (taken self.old) (taken self.new) }
        ensures cause { CountsFaults result (faults self.old) (faults self.new) };
}
