//! Reads lines that each name an operation, and prints the words of its template, what the template costs on a board of prime costs, and
//! whether it fits.
//!
//! | Line | What it says |
//! |---|---|
//! | `places A A ..` | the addresses of the objects from 0 on, in the lines below; those below 17408 are in SRAM |
//! | `KIND DEST A B ARRAY` | an operation: `oN` is the object N, a number a constant, `oN:L` an array of L elements, `-` none |
//!
//! A jump and a call go to 39612. Numbers are decimal, words are printed as four hexadecimal digits.
#![tactic(auto)]

mod reading;
mod report;

use crate::reading::{places_of, read_op};
use crate::report::report;
use emit_templates::Places;
use std::alloc::{AllocError, Global};
use std::io;

fn main(rt: HostRuntime) -> io::Result<()> {
    let mut places = Places {
        of: Vec::new(rt.alloc()),
    };
    for line in rt.lines(rt.alloc()) {
        let line = line?;
        match line.as_str().split_once(' ') {
            Some(("places", addresses)) => places.of = places_of(rt.alloc(), addresses)?,
            _ => {
                let text = described(rt.alloc(), line.as_str(), &places)?;
                println!(rt; "{text}")?;
            }
        }
    }
    Ok(())
}

fn described(alloc: Global, line: &str, places: &Places) -> Result<String, AllocError> {
    match read_op(line) {
        Some(op) => report(alloc, line, &op, places),
        None => format!(in alloc; "{line}: no operation"),
    }
}
