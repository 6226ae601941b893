//! A program, shown: the lines of its words, of its end and of its steps. Each line is one `put`.
ghost use Rattle.std.specs.Prelude.{◌≡◌, ◌++◌, ℕ};
ghost use Rattle.base_io.specs.Counts.{CountsFaults};
ghost use Rattle.base_io.specs.Pieces.{AddsTold};
ghost use Rattle.c_tree.specs.Said.{SaysCause, outcome_of_end};
ghost use Rattle.supplied_run.specs.Lines.{end_line};
ghost use Rattle.program_texts.specs.Shown.{Shows, end_of, steps_line};

use arrayvec::ArrayString;
use base_io::{Sink, SinkFault};
use c_tree::{Program, SaidEnd, SayFault, say};
use itoa::Buffer;
use std::alloc::Global;
use supplied_run::{End, put_end};

// How a program stands, as the end of what it was allowed.
fn end_of(end: SaidEnd) -> End
    ensures { result ≡ end_of (outcome_of_end end) }
{
    match end {
        SaidEnd::Going => End::StepLimit,
        SaidEnd::Ended(word) => End::Ended(word),
        SaidEnd::Trapped(trap) => End::Trapped(trap),
    }
}

fn put_steps<K: Sink>(steps: u64, sink: &mut K) -> Result<(), SinkFault>
    ensures told { AddsTold (steps_line steps) result (K.taken sink.old) (K.taken sink.new) }
    ensures cause { CountsFaults result (K.faults sink.old) (K.faults sink.new) }
{
    let mut buffer = Buffer::new();
    let mut text = ArrayString::<64>::new();
    text.push_str("steps ");
    text.push_str(buffer.format(steps));
    text.push_str("\n");
    sink.put(text.as_bytes())
}

// Puts the last two lines.
fn put_last<K: Sink>(end: End, steps: u64, sink: &mut K) -> Result<(), SinkFault>
    ensures told { AddsTold (end_line end ++ steps_line steps) result (K.taken sink.old) (K.taken sink.new) }
    ensures cause { CountsFaults result (K.faults sink.old) (K.faults sink.new) }
{
    match put_end(end, sink) {
        Ok(()) => put_steps(steps, sink),
        Err(fault) => Err(fault),
    }
}

/// Runs the plain meaning of a program on an input for at most so many steps: puts a line for each word, then a line that tells
/// how the program stands, and then the number of steps that it has begun.
pub fn show<K: Sink>(
    alloc: Global,
    p: &Program,
    input: &[u16],
    steps: u64,
    sink: &mut K,
) -> Result<End, SayFault>
    ensures put { Shows p.now input.now steps result (K.taken sink.old) (K.taken sink.new) }
    ensures cause { SaysCause result (K.faults sink.old) (K.faults sink.new) }
{
    match say(alloc, p, input, steps, sink) {
        Ok(said) => {
            let end = end_of(said.end);
            match put_last(end, said.steps, sink) {
                Ok(()) => Ok(end),
                Err(_) => Err(SayFault::Sink),
            }
        }
        Err(fault) => Err(fault),
    }
}
