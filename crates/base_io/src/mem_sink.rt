//! A sink in memory, for tests.
ghost use Rattle.std.specs.Prelude.{◌≡◌, ◌+◌, ◌<◌, ◌≤◌, ◌⊎◌, ◌++◌, ℕ, List, [], Option, Some, true, false, length, take, IfOk, OnOk, OnErr, MatchResult};
ghost use Rattle.base_io.specs.Counts.{CountsFaults, one_more};
ghost use Rattle.base_io.specs.Doubles.{fails_next};
ghost use Rattle.base_io.specs.Pieces.{AddsTold};

use crate::calls::{add_within, is_listed, one_more};
use crate::{Memory, Sink, SinkFault};
use std::alloc::Global;
use std::marker::Model;

/// A sink in memory that tells its bytes: it has room for a number of them, and the puts that are listed fail.
#[derive(Drop)]
pub struct MemSink {
    bytes: Vec<u8>,
    room: usize,
    failing: Vec<u64>,
    puts: u64,
    faults: u64,
}

impl Model for MemSink {
    ghost use Rattle.std.specs.Prelude.{◌≤◌, vec_len, vec_capacity};
    ghost use Rattle.base_io.specs.Doubles.{SinkState};

    ghost Value = { SinkState };

    ghost view = { λ s. record {
      taken = s.bytes.items;
      room = s.room;
      failing = s.failing.items;
      puts = s.puts;
      faults = s.faults;
    } };

    ghost invariant = { λ s. (vec_len s.bytes ≤ s.room) × (s.room ≤ vec_capacity s.bytes) };
}

impl MemSink {
    /// An empty sink with room for so many bytes. The puts of these numbers, counted from 1, fail.
    pub fn new(alloc: Global, room: usize, puts: Vec<u64>) -> Result<MemSink, Memory>
        ensures { IfOk result (λ s. s ≡ record {
          taken = [];
          room = room;
          failing = puts.items;
          puts = 0;
          faults = 0;
        }) }
    {
        let Ok(bytes) = Vec::with_capacity(alloc, room) else {
            return Err(Memory);
        };
        Ok(MemSink {
            bytes,
            room,
            failing: puts,
            puts: 0,
            faults: 0,
        })
    }

    /// The bytes that it took.
    pub fn bytes(&self) -> &[u8]
        ensures { result.now ≡ self.now.taken }
    {
        &self.bytes
    }

    // Counts a put that fails.
    fn fail(&mut self) -> Result<(), SinkFault>
        ensures fails { result ≡ Err SinkFault.Failed }
        ensures counts { self.new ≡ record self.old { faults = one_more self.old.faults } }
    {
        self.faults = one_more(self.faults);
        Err(SinkFault::Failed)
    }
}

impl Sink for MemSink {
    ghost taken = { λ s. Some s.taken };

    ghost faults = { λ s. s.faults };

    fn put(&mut self, bytes: &[u8]) -> Result<(), SinkFault>
        ensures told { AddsTold bytes.now result (Some self.old.taken) (Some self.new.taken) }
        ensures cause { CountsFaults result self.old.faults self.new.faults }
        // It fails exactly where its number is listed or the bytes don't fit.
        ensures exact { MatchResult result
            (λ _. (fails_next self.old.failing self.old.puts ≡ false)
            × (length self.old.taken + length bytes.now ≤ self.old.room))
            (λ _. (fails_next self.old.failing self.old.puts ≡ true)
            ⊎ (self.old.room < length self.old.taken + length bytes.now)) }
        // A listed put adds nothing; one that doesn't fit fills the room.
        ensures listed { fails_next self.old.failing self.old.puts ≡ true → self.new.taken ≡ self.old.taken }
        ensures full { fails_next self.old.failing self.old.puts ≡ false →
            self.new.taken ≡ take self.old.room (self.old.taken ++ bytes.now) }
        ensures rest { (self.new.room ≡ self.old.room) × (self.new.failing ≡ self.old.failing)
            × (self.new.puts ≡ one_more self.old.puts) }
    {
        self.puts = one_more(self.puts);
        if is_listed(&self.failing, self.puts) {
            return self.fail();
        }
        let left = self.room - self.bytes.len();
        if left < bytes.len() {
            add_within(&mut self.bytes, &bytes[..left]);
            return self.fail();
        }
        add_within(&mut self.bytes, bytes);
        Ok(())
    }
}
