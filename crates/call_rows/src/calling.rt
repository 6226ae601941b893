//! The call of a row.
use crate::boxes::filled_box;
use crate::row::Row;
use base_io::{MemSink, MemStore, Store};
use commands::schematic;
use msp430_machine::Refill;
use std::alloc::{AllocError, Global};
use supply_trace::{Given, Supply};

/// More boxes could hold too many rows.
const MOST_BOXES: usize = 60_000;

/// What a call came to, and what it left.
#[derive(Drop)]
pub struct Outcome {
    pub code: u8,
    /// What the boxes hold, a line for each.
    pub left: String,
    pub store: MemStore,
    pub sink: MemSink,
}

// What is told of a call beside the store and the output.
#[derive(Drop)]
struct Answer {
    code: u8,
    left: String,
}

/// Does the call of a row.
pub fn outcome_of(alloc: Global, row: &Row) -> Result<Outcome, AllocError> {
    let mut store = store_of(alloc, row)?;
    let mut sink = sink_of(alloc, row)?;
    let Answer { code, left } = called(alloc, row, &mut store, &mut sink)?;
    Ok(Outcome {
        code,
        left,
        store,
        sink,
    })
}

// The store that a row asks for.
fn store_of(alloc: Global, row: &Row) -> Result<MemStore, AllocError> {
    let mut gets = Vec::new(alloc);
    gets.extend_from_slice(&row.gets)?;
    let puts = puts_of(alloc, row)?;
    let Ok(mut store) = MemStore::new(alloc, Vec::new(alloc), gets, puts) else {
        return Err(AllocError);
    };
    fill(&mut store, row)?;
    Ok(store)
}

// The puts that fail, which are counted behind those that fill the store.
fn puts_of(alloc: Global, row: &Row) -> Result<Vec<u64>, AllocError> {
    let filling = row.texts.len() as u64;
    let mut puts = Vec::new(alloc);
    for put in &row.puts {
        puts.push(put.saturating_add(filling))?;
    }
    Ok(puts)
}

fn fill(store: &mut MemStore, row: &Row) -> Result<(), AllocError> {
    for text in &row.texts {
        write(store, text.name.as_str(), text.bytes.as_slice())?;
    }
    for room in &row.rooms {
        if store.reserve(room.name.as_str(), room.bytes).is_err() {
            return Err(AllocError);
        }
    }
    Ok(())
}

fn write(store: &mut MemStore, name: &str, bytes: &[u8]) -> Result<(), AllocError> {
    if store.reserve(name, bytes.len()).is_err() || store.put(name, bytes).is_err() {
        return Err(AllocError);
    }
    Ok(())
}

// An empty output as a row asks for it.
fn sink_of(alloc: Global, row: &Row) -> Result<MemSink, AllocError> {
    let mut puts = Vec::new(alloc);
    puts.extend_from_slice(&row.sink_puts)?;
    match MemSink::new(alloc, row.sink_room, puts) {
        Ok(sink) => Ok(sink),
        Err(_) => Err(AllocError),
    }
}

// Does the job of the row's words, with a box for each word.
fn called(
    alloc: Global,
    row: &Row,
    store: &mut MemStore,
    sink: &mut MemSink,
) -> Result<Answer, AllocError> {
    let words = words_of(alloc, &row.words)?;
    let mut supplies: Vec<Box<dyn Supply>> = Vec::new(alloc);
    'boxes: while supplies.len() < words.len() {
        let filled = filled_box(alloc, &row.boxes, supplies.len())?;
        supplies.push(Box::new(alloc, filled)?)?;
    }
    if supplies.len() > MOST_BOXES {
        return Err(AllocError);
    }
    let status = schematic(alloc, words.as_slice(), store, &mut supplies, sink);
    let left = left_in(alloc, &mut supplies)?;
    Ok(Answer {
        code: status.code(),
        left,
    })
}

fn words_of(alloc: Global, words: &[String]) -> Result<Vec<&str>, AllocError> {
    let mut texts = Vec::new(alloc);
    for word in words {
        texts.push(word.as_str())?;
    }
    Ok(texts)
}

// What each box gives until it has ended or failed.
fn left_in(alloc: Global, supplies: &mut [Box<dyn Supply>]) -> Result<String, AllocError> {
    let mut text = String::new(alloc);
    for supply in supplies.iter_mut() {
        text.push_str("box")?;
        add_left(&mut text, supply)?;
        text.push('\n')?;
    }
    Ok(text)
}

fn add_left(text: &mut String, supply: &mut Box<dyn Supply>) -> Result<(), AllocError> {
    for _ in 0..100_000u32 {
        match supply.refill() {
            Given::Row(row) => add_row(text, row)?,
            Given::Ended => return Ok(()),
            Given::Failed => text.push_str(" failed")?,
        }
    }
    Ok(())
}

fn add_row(text: &mut String, row: Refill) -> Result<(), AllocError> {
    if row.keep {
        write!(text, " {} keep", row.amount)
    } else {
        write!(text, " {} lose {:04X}", row.amount, row.junk)
    }
}
