//! Reads lines of three words, as decimal numbers, and prints of each line how many of the words the instruction takes
//! that begins there, and the instruction; or that there is none.
#![tactic(auto)]

use msp430_isa::decode;
use std::alloc::{AllocError, Global};
use std::io;

fn main(rt: HostRuntime) -> io::Result<()> {
    for line in rt.lines(rt.alloc()) {
        let text = described(rt.alloc(), words_of(line?.as_str()))?;
        println!(rt; "{text}")?;
    }
    Ok(())
}

fn described(alloc: Global, words: [u16; 3]) -> Result<String, AllocError> {
    match decode(&words) {
        Ok((instruction, length)) => format!(in alloc; "{length} {instruction:?}"),
        Err(_) => format!(in alloc; "none"),
    }
}

fn words_of(line: &str) -> [u16; 3] {
    let mut numbers = line.split_whitespace();
    let first = word_of(numbers.next());
    let second = word_of(numbers.next());
    let third = word_of(numbers.next());
    [first, second, third]
}

// 0 where there is no number, or none of sixteen bits.
fn word_of(number: Option<&str>) -> u16 {
    match number {
        Some(text) => text.parse().unwrap_or(0),
        None => 0,
    }
}
