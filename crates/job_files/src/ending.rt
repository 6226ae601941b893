//! How a job ends that puts its text at once.
ghost use Rattle.std.specs.Prelude.{◌≡◌, ◌<◌, ◌≤◌, ◌++◌, [], IfOk, length, string_bytes};
ghost use Rattle.base_io.specs.Counts.{CountsFaults};
ghost use Rattle.base_io.specs.Pieces.{AddsTold};
ghost use Rattle.job_files.specs.Answers.{answer_of, line_of};
ghost use Rattle.job_files.specs.Output.{Puts, sunk_of};
ghost use Rattle.job_files.specs.Text.{output};

use crate::status::{Status, line_of};
use base_io::{Memory, Sink, SinkFault};
use std::alloc::Global;

/// What a job came to, and the line that tells it, or the lines.
#[derive(Drop)]
pub struct Ending {
    pub status: Status,
    pub line: String,
}

/// How a job ends with this status, which is not that it was done.
pub fn told(alloc: Global, status: Status) -> Result<Ending, Memory>
    ensures { IfOk result (λ e. (e.status ≡ status) × (string_bytes e.line ≡ line_of [] (answer_of status))) }
{
    let line = line_of(alloc, &status, "")?;
    Ok(Ending { status, line })
}

/// Puts the line of a status. Where the output, of this name, fails, that is the status.
pub fn put_line<K: Sink>(name: String, status: Status, line: &str, sink: &mut K) -> Status
    requires output { string_bytes name ≡ output }
    ensures { Puts (answer_of status) line.now
        (sunk_of K.taken K.faults sink.old)
        (sunk_of K.taken K.faults sink.new)
        (answer_of result) }
{
    match sink.put(line.as_bytes()) {
        Ok(()) => status,
        Err(_) => Status::WriteFault { name },
    }
}

/// A text in two.
struct Parts<'t> {
    first: &'t [u8],
    rest: &'t [u8],
}

// The first line of a text that isn't empty, with its line feed, and the lines behind it.
fn first_line(text: &[u8]) -> Parts<'_>
    requires { 0 < length text.now }
    ensures whole { text.now ≡ result.first.now ++ result.rest.now }
    ensures some { 0 < length result.first.now }
{
    let end = match text.iter().position(|byte| *byte == b'\n') {
        Some(at) => at + 1,
        None => text.len(),
    };
    let (first, rest) = text.split_at(end);
    Parts { first, rest }
}

// Puts a text line by line.
fn put_text<K: Sink>(text: &[u8], sink: &mut K) -> Result<(), SinkFault>
    ensures told { AddsTold text.now result (K.taken sink.old) (K.taken sink.new) }
    ensures cause { CountsFaults result (K.faults sink.old) (K.faults sink.new) }
{
    let mut left = text;
    while !left.is_empty() {
        let Parts { first, rest } = first_line(left);
        match sink.put(first) {
            Ok(()) => left = rest,
            Err(fault) => return Err(fault),
        }
    }
    Ok(())
}

/// Puts the lines of a status, one by one. Where the output, of this name, fails, that is the status, and nothing more is put.
pub fn put_lines<K: Sink>(name: String, status: Status, text: &str, sink: &mut K) -> Status
    requires output { string_bytes name ≡ output }
    ensures { Puts (answer_of status) text.now
        (sunk_of K.taken K.faults sink.old)
        (sunk_of K.taken K.faults sink.new)
        (answer_of result) }
{
    match put_text(text.as_bytes(), sink) {
        Ok(()) => status,
        Err(_) => Status::WriteFault { name },
    }
}
