//! Reads certificates. It reads lines of words: `rows FILE` prints how many rows of each kind the file's certificate has,
//! and whether it is written again as it was read, or the offset of its first bad line, and then what it gives a byte at a
//! time; `front N FILE` prints the same of its first bytes; `time FILE` prints how many bytes it has, and the microseconds
//! that its reading takes, whole and by pieces of 65,536 bytes.
#![tactic(auto)]

ghost use Rattle.std.specs.Prelude.{◌≤◌};

use certificate::{Cert, CertText, Lines, read, write};
use std::alloc::Global;
use std::rt::Files;
use std::time::{Clock, Instant};
use std::{fs, io};

fn main(rt: HostRuntime) -> io::Result<()> {
    let alloc = rt.alloc();
    for line in rt.lines(alloc) {
        let line = line?;
        match line.as_str().split_once(' ') {
            Some(("rows", name)) => {
                let text = fs::read(&rt, name)?;
                print_text(&rt, alloc, text.as_slice())?;
            }
            Some(("front", rest)) => print_front(&rt, alloc, rest)?,
            Some(("time", name)) => {
                let text = fs::read(&rt, name)?;
                print_times(&rt, alloc, text.as_slice())?;
            }
            _ => println!(rt; "rows FILE, front N FILE or time FILE")?,
        }
    }
    Ok(())
}

// The words behind `front`: how many bytes, and the file.
fn print_front(
    rt: &(impl Print + Files + AllocGlobal),
    alloc: Global,
    words: &str,
) -> io::Result<()> {
    let Some((count, name)) = words.split_once(' ') else {
        return println!(rt; "front N FILE");
    };
    let count = count.parse::<usize>().unwrap_or(0);
    let text = fs::read(rt, name)?;
    let mut front = Vec::new(alloc);
    for byte in text.iter().take(count) {
        front.push(*byte)?;
    }
    print_text(rt, alloc, front.as_slice())
}

fn print_text(rt: &impl Print, alloc: Global, text: &[u8]) -> io::Result<()> {
    match read(alloc, text) {
        Ok(c) => print_rows(rt, alloc, text, &c)?,
        Err(CertText::BadLine { at }) => print!(rt; "bad line at {at}; ")?,
        Err(CertText::Memory) => print!(rt; "no memory; ")?,
    }
    match rows_in_pieces(alloc, text, 1) {
        Ok(rows) => println!(rt; "by bytes rows {rows}"),
        Err(CertText::BadLine { at }) => println!(rt; "by bytes bad line at {at}"),
        Err(CertText::Memory) => println!(rt; "by bytes no memory"),
    }
}

fn print_rows(rt: &impl Print, alloc: Global, text: &[u8], c: &Cert) -> io::Result<()> {
    let budget = c.budget;
    let functions = c.functions.len();
    let stretches = c.stretches.len();
    let points = c.points.len();
    let again = is_written_again(alloc, text, c);
    print!(rt;
        "budget {budget} functions {functions} stretches {stretches} points {points} again {again}; "
    )
}

fn is_written_again(alloc: Global, text: &[u8], c: &Cert) -> bool {
    let mut written = Vec::new(alloc);
    write(c, &mut written).is_ok() && written.as_slice() == text
}

fn print_times(rt: &(impl Print + Clock), alloc: Global, text: &[u8]) -> io::Result<()> {
    let bytes = text.len();
    let start = Instant::now(rt)?;
    let points = points_of(alloc, text);
    let whole = start.elapsed(rt)?.as_micros();
    let start = Instant::now(rt)?;
    let rows = rows_in_pieces(alloc, text, 65_536).unwrap_or(0);
    let pieces = start.elapsed(rt)?.as_micros();
    println!(rt; "bytes {bytes} points {points} whole {whole} rows {rows} pieces {pieces}")
}

// How many points the certificate has; 0 where there is none.
fn points_of(alloc: Global, text: &[u8]) -> usize {
    match read(alloc, text) {
        Ok(c) => c.points.len(),
        Err(_) => 0,
    }
}

/// How many rows a text gives by pieces of this size.
fn rows_in_pieces(alloc: Global, text: &[u8], size: usize) -> Result<usize, CertText>
    requires { 1 ≤ size }
{
    let mut lines = Lines::new(alloc);
    let mut rows = 0usize;
    let mut rest = text;
    while !rest.is_empty() {
        let end = rest.len().min(size);
        match lines.feed(&rest[..end]) {
            Ok(given) => rows = rows.wrapping_add(given.len()),
            Err(fault) => return Err(fault),
        }
        rest = &rest[end..];
    }
    match lines.end() {
        Ok(()) => Ok(rows),
        Err(fault) => Err(fault),
    }
}
