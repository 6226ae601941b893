//! Does the calls of a table over stores, boxes and outputs in memory, and prints what comes of each.
//!
//! The table is read from the standard input, a line at a time. An empty line says nothing, and neither does one that begins with
//! `#`. `shared` begins lines that each row has in front of its own, until the next `shared`. `row NAME` begins a row of its own
//! lines; `case TEXT` does too, and the TEXT stands in the place of each `$` of its lines, the shared ones among them.
//!
//! | Line | What it says |
//! |---|---|
//! | `words W W ..` | the words of the call, parted by one blank; `words` alone, and there are none |
//! | `more N W` | the word N times behind them |
//! | `file NAME` | the file of that name, which is empty; the lines below add to it |
//! | `> TEXT` | the text, without a line feed |
//! | `\| TEXT` | the text and a line feed |
//! | `repeat N TEXT` | the text N times |
//! | `times N NAME` | the text of the file of that name N times |
//! | `each FIRST LAST NAME` | that text for each number of FIRST to LAST, in the place of each `#`, and the number before it in that of each `@` |
//! | `room NAME N` | the file may be written with N bytes at most; no other is |
//! | `fail get N`, `fail put N`, `fail sink N` | the Nth get, put or put of the output fails, counted from 1 |
//! | `sink N` | the output has room for N bytes |
//! | `box empty` | the next box holds no rows |
//! | `box failing N COUNT ROW` | it holds the row of a supply's text COUNT times, and its Nth refill fails; none where N is 0 |
//! | `left` | what the boxes hold behind the call is printed |
//!
//! Of a row are printed its first line with the status, what the output took, each file that changed, with its length, and with
//! `left` each box.
#![tactic(auto)]

mod boxes;
mod calling;
mod report;
mod row;
mod table;
mod texts;

use crate::table::Table;
use base_io::{Sink, StdSink};
use std::io::{self, BufRead, BufReader};

fn main(rt: HostRuntime) -> io::Result<()> {
    let alloc = rt.alloc();
    let lines = BufReader::new(alloc, rt.reader())?.lines(alloc);
    let mut out = StdSink::new(rt);
    let mut table = Table::new(alloc);
    for line in lines {
        take(&mut table, line, &mut out)?;
    }
    table.finish(&mut out)
}

fn take<K: Sink>(table: &mut Table, line: io::Result<String>, out: &mut K) -> io::Result<()> {
    table.take(line?, out)
}
