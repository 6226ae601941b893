//! The lines of a run. Each is one `put`, and none takes memory.
ghost use Rattle.std.specs.Prelude.{◌≡◌, ◌<◌, ◌≤◌, ◌++◌, codes, decimal, length};
ghost use Rattle.base_io.specs.Counts.{CountsFaults};
ghost use Rattle.base_io.specs.Digits.{hex_digit, hex_word};
ghost use Rattle.base_io.specs.Pieces.{AddsTold};
ghost use Rattle.supplied_run.specs.Lines.{count_line, end_line, trap_name, why_name, word_line};

use crate::End;
use arrayvec::ArrayString;
use base_io::{Sink, SinkFault};
use itoa::Buffer;
use msp430_machine::Why;
use power_core::Core;

/// Puts the line of a word.
pub fn put_word<K: Sink>(word: u16, sink: &mut K) -> Result<(), SinkFault>
    ensures told { AddsTold (word_line word) result (K.taken sink.old) (K.taken sink.new) }
    ensures cause { CountsFaults result (K.faults sink.old) (K.faults sink.new) }
{
    let mut buffer = Buffer::new();
    let mut text = ArrayString::<64>::new();
    text.push_str("out ");
    text.push_str(buffer.format(word));
    text.push_str("\n");
    sink.put(text.as_bytes())
}

fn put_end_of<K: Sink>(word: u16, sink: &mut K) -> Result<(), SinkFault>
    ensures told { AddsTold (end_line (End.Ended word)) result (K.taken sink.old) (K.taken sink.new) }
    ensures cause { CountsFaults result (K.faults sink.old) (K.faults sink.new) }
{
    let mut buffer = Buffer::new();
    let mut text = ArrayString::<64>::new();
    text.push_str("end ");
    text.push_str(buffer.format(word));
    text.push_str("\n");
    sink.put(text.as_bytes())
}

fn put_trap<K: Sink>(word: u16, sink: &mut K) -> Result<(), SinkFault>
    ensures told { AddsTold (end_line (End.Trapped word)) result (K.taken sink.old) (K.taken sink.new) }
    ensures cause { CountsFaults result (K.faults sink.old) (K.faults sink.new) }
{
    match word {
        1 => sink.put(b"trap divide\n"),
        2 => sink.put(b"trap index\n"),
        3 => sink.put(b"trap shift\n"),
        _ => put_other_trap(word, sink),
    }
}

fn put_other_trap<K: Sink>(word: u16, sink: &mut K) -> Result<(), SinkFault>
    ensures told { AddsTold (codes "trap " ++ decimal word ++ codes "\n") result (K.taken sink.old) (K.taken sink.new) }
    ensures cause { CountsFaults result (K.faults sink.old) (K.faults sink.new) }
{
    let mut buffer = Buffer::new();
    let mut text = ArrayString::<64>::new();
    text.push_str("trap ");
    text.push_str(buffer.format(word));
    text.push_str("\n");
    sink.put(text.as_bytes())
}

fn why_name(why: Why) -> &'static str
    ensures name { result.now ≡ why_name why }
    ensures short { length result.now ≤ 11 }
{
    match why {
        Why::Fetch => "fetch",
        Why::Instruction => "instruction",
        Why::Odd => "odd",
        Why::Port => "port",
        Why::Unmapped => "unmapped",
        Why::ReadOnly => "read only",
    }
}

fn hex_digit(d: u16) -> char
    requires { d < 16 }
    ensures digit { result ≡ hex_digit d }
    ensures ascii { result < 128 }
{
    if d < 10 {
        (48 + d as u8) as char
    } else {
        (55 + d as u8) as char
    }
}

fn push_hex(text: &mut ArrayString<64>, n: u16)
    requires { length text.old.bytes ≤ 40 }
    ensures { text.new.bytes ≡ text.old.bytes ++ hex_word n }
{
    text.push(hex_digit(n / 4096));
    text.push(hex_digit(n / 256 % 16));
    text.push(hex_digit(n / 16 % 16));
    text.push(hex_digit(n % 16));
}

fn put_fault<K: Sink>(pc: u16, why: Why, sink: &mut K) -> Result<(), SinkFault>
    ensures told { AddsTold (end_line (End.MachineFault pc why)) result (K.taken sink.old) (K.taken sink.new) }
    ensures cause { CountsFaults result (K.faults sink.old) (K.faults sink.new) }
{
    let mut text = ArrayString::<64>::new();
    text.push_str("machine fault at ");
    push_hex(&mut text, pc);
    text.push_str(": ");
    text.push_str(why_name(why));
    text.push_str("\n");
    sink.put(text.as_bytes())
}

/// Puts the line of an end.
pub fn put_end<K: Sink>(end: End, sink: &mut K) -> Result<(), SinkFault>
    ensures told { AddsTold (end_line end) result (K.taken sink.old) (K.taken sink.new) }
    ensures cause { CountsFaults result (K.faults sink.old) (K.faults sink.new) }
{
    match end {
        End::Ended(word) => put_end_of(word, sink),
        End::Trapped(word) => put_trap(word, sink),
        End::PowerFault => sink.put(b"power fault\n"),
        End::SupplyEnded => sink.put(b"supply ended\n"),
        End::StepLimit => sink.put(b"step limit\n"),
        End::MachineFault { pc, why } => put_fault(pc, why, sink),
        End::SupplyFault => sink.put(b"supply fault\n"),
    }
}

/// Puts the line of a core's counts.
pub fn put_counts<K: Sink>(core: &Core, sink: &mut K) -> Result<(), SinkFault>
    ensures told { AddsTold (count_line core.now.counts) result (K.taken sink.old) (K.taken sink.new) }
    ensures cause { CountsFaults result (K.faults sink.old) (K.faults sink.new) }
{
    let mut buffer = Buffer::new();
    let mut text = ArrayString::<192>::new();
    text.push_str("charges ");
    text.push_str(buffer.format(core.charges()));
    text.push_str(" instructions ");
    text.push_str(buffer.format(core.instructions()));
    text.push_str(" spent ");
    text.push_str(buffer.format(core.spent()));
    text.push_str("\n");
    sink.put(text.as_bytes())
}
