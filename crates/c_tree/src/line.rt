//! The line of a word.
ghost use Rattle.std.specs.Prelude.{◌≡◌, ℕ};
ghost use Rattle.base_io.specs.Counts.{CountsFaults};
ghost use Rattle.base_io.specs.Pieces.{AddsTold};
ghost use Rattle.c_tree.specs.Lines.{line, seen};
ghost use Rattle.c_tree.specs.Runs as spec;
ghost use Rattle.c_tree.specs.Arms.{shown_by};
ghost use Rattle.c_tree.specs.Follows.{Follows};

use crate::halt::Halt;
use arrayvec::ArrayString;
use base_io::{Sink, SinkFault};
use itoa::Buffer;

// Puts the line of a word in one `put`. It takes no memory.
fn put_line<K: Sink>(word: u16, sink: &mut K) -> Result<(), SinkFault>
    ensures told { AddsTold (line word) result (K.taken sink.old) (K.taken sink.new) }
    ensures cause { CountsFaults result (K.faults sink.old) (K.faults sink.new) }
{
    let mut buffer = Buffer::new();
    let digits = buffer.format(word);
    let mut text = ArrayString::<64>::new();
    text.push_str("out ");
    text.push_str(digits);
    text.push_str("\n");
    sink.put(text.as_bytes())
}

/// Puts a word. The value of that is 0.
pub fn shown<K: Sink>(word: u16, sink: &mut K) -> Result<u16, Halt>
    ensures { (s : spec.State) → Follows (shown_by word s) s (seen (K.taken sink.old) (K.faults sink.old)) result s (seen (K.taken sink.new) (K.faults sink.new)) }
{
    put(word, sink)?;
    Ok(0)
}

#[inline(never)]
fn put<K: Sink>(word: u16, sink: &mut K) -> Result<(), Halt>
    ensures { (s : spec.State) → Follows (spec.put word s) s (seen (K.taken sink.old) (K.faults sink.old)) result s (seen (K.taken sink.new) (K.faults sink.new)) }
{
    match put_line(word, sink) {
        Ok(_) => Ok(()),
        Err(_) => Err(Halt::Sink),
    }
}
