//! The whole of a program: it hands the words after its name to `commands::schematic`, with the system's files and the standard
//! output.
#![tactic(auto)]

use base_io::{FileStore, StdSink};
use commands::schematic;
use std::alloc::{AllocError, Global};
use std::env;
use std::io::ErrorKind;
use supply_trace::{Recorded, Supply};

/// A word of the command line isn't UTF-8.
const NO_TEXT: u8 = 2;
/// There is no memory for the words or the boxes.
const NO_MEMORY: u8 = 5;

/// Does the job of the command line, and answers the exit status.
pub fn status_of(rt: HostRuntime) -> u8 {
    let words = match env::args(&rt) {
        Ok(args) => args,
        Err(e) if e.kind() == ErrorKind::InvalidData => return NO_TEXT,
        Err(_) => return NO_MEMORY,
    };
    let Ok(words) = words.skip(1).collect::<Vec<String>>(rt.alloc()) else {
        return NO_MEMORY;
    };
    let Ok(texts) = texts_of(rt.alloc(), &words) else {
        return NO_MEMORY;
    };
    called(rt, &texts).unwrap_or(NO_MEMORY)
}

fn texts_of(alloc: Global, words: &[String]) -> Result<Vec<&str>, AllocError> {
    let mut texts = Vec::new(alloc);
    for word in words {
        texts.push(word.as_str())?;
    }
    Ok(texts)
}

/// Does the job of these words over a box of no rows for each.
fn called(rt: HostRuntime, words: &[&str]) -> Result<u8, AllocError> {
    let mut supplies: Vec<Box<dyn Supply>> = Vec::new(rt.alloc());
    while supplies.len() < words.len() {
        supplies.push(Box::new(rt.alloc(), Recorded::new(rt.alloc()))?)?;
    }
    let mut store = FileStore::new(rt);
    let mut sink = StdSink::new(rt);
    let status = schematic(rt.alloc(), words, &mut store, &mut supplies, &mut sink);
    Ok(status.code())
}
