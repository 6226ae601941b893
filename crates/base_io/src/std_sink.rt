//! The standard output as a sink.
ghost use Rattle.std.specs.Prelude.{◌≡◌, None};

use crate::calls::one_more;
use crate::streams::write_whole;
use crate::{Sink, SinkFault};
use std::io;

/// The standard output. It tells nothing of what it took.
#[derive(Drop)]
pub struct StdSink<R: Print + Drop> {
    rt: R,
    faults: u64,
}

impl<R: Print + Drop> StdSink<R> {
    /// The standard output of the runtime, with a count of 0.
    pub fn new(rt: R) -> StdSink<R>
        ensures { ⟦<StdSink<R> as Sink>⟧.faults result ≡ 0 }
    {
        StdSink { rt, faults: 0 }
    }
}

impl<R: Print + Drop> Sink for StdSink<R> {
    ghost taken = { λ s. None };

    ghost faults = { λ s. s.faults };

    fn put(&mut self, bytes: &[u8]) -> Result<(), SinkFault> {
        if write_whole(&mut io::writer(&self.rt), bytes) {
            Ok(())
        } else {
            self.faults = one_more(self.faults);
            Err(SinkFault::Failed)
        }
    }
}
