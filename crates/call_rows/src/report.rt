//! What is printed of a row.
use crate::calling::{Outcome, outcome_of};
use crate::row::Row;
use crate::texts::bytes_of;
use base_io::MemStore;
use std::alloc::{AllocError, Global};

/// Does the call of a row, and tells what came of it.
pub fn report(alloc: Global, head: &str, row: &Row) -> Result<Vec<u8>, AllocError> {
    let outcome = outcome_of(alloc, row)?;
    let mut text = Vec::new(alloc);
    add_outcome(alloc, &mut text, head, row, &outcome)?;
    Ok(text)
}

fn add_outcome(
    alloc: Global,
    text: &mut Vec<u8>,
    head: &str,
    row: &Row,
    outcome: &Outcome,
) -> Result<(), AllocError> {
    add_head(alloc, text, head, outcome.code)?;
    for line in &row.unread {
        add_unread(alloc, text, line.as_str())?;
    }
    add_bytes(text, outcome.sink.bytes())?;
    add_changed_files(alloc, text, row, &outcome.store)?;
    add_new_files(alloc, text, row, &outcome.store)?;
    if row.shows_left {
        add_bytes(text, outcome.left.as_bytes())?;
    }
    Ok(())
}

fn add_head(alloc: Global, text: &mut Vec<u8>, head: &str, code: u8) -> Result<(), AllocError> {
    add_line(text, format!(in alloc; "{head} => {code}")?.as_str())
}

fn add_unread(alloc: Global, text: &mut Vec<u8>, line: &str) -> Result<(), AllocError> {
    add_line(text, format!(in alloc; "unread: {line}")?.as_str())
}

fn add_line(text: &mut Vec<u8>, line: &str) -> Result<(), AllocError> {
    text.extend_from_slice(line.as_bytes())?;
    text.extend_from_slice(b"\n")
}

// Adds bytes, and tells where their last line feed is missing.
fn add_bytes(text: &mut Vec<u8>, bytes: &[u8]) -> Result<(), AllocError> {
    text.extend_from_slice(bytes)?;
    match bytes.last() {
        None | Some(b'\n') => Ok(()),
        Some(_) => text.extend_from_slice(b"\n(no line feed)\n"),
    }
}

// Adds the files that changed.
fn add_changed_files(
    alloc: Global,
    text: &mut Vec<u8>,
    row: &Row,
    store: &MemStore,
) -> Result<(), AllocError> {
    for before in &row.texts {
        let now = store.file(before.name.as_str());
        if now != Some(before.bytes.as_slice()) {
            add_file(alloc, text, before.name.as_str(), now)?;
        }
    }
    Ok(())
}

// Adds the files that weren't there.
fn add_new_files(
    alloc: Global,
    text: &mut Vec<u8>,
    row: &Row,
    store: &MemStore,
) -> Result<(), AllocError> {
    for room in &row.rooms {
        let now = store.file(room.name.as_str());
        if now.is_some() && bytes_of(&row.texts, room.name.as_str()).is_none() {
            add_file(alloc, text, room.name.as_str(), now)?;
        }
    }
    Ok(())
}

fn add_file(
    alloc: Global,
    text: &mut Vec<u8>,
    name: &str,
    bytes: Option<&[u8]>,
) -> Result<(), AllocError> {
    let bytes = bytes.unwrap_or(&[]);
    let length = bytes.len();
    add_line(text, format!(in alloc; "file {name} {length}")?.as_str())?;
    add_bytes(text, bytes)
}
