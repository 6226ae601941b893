//! The lines of the table, and the row that they come to.
use crate::report::report;
use crate::row::Row;
use base_io::Sink;
use std::alloc::{AllocError, Global};
use std::io;

/// The lines that all rows share and those of the row that is being read, if there is one.
#[derive(Drop)]
pub struct Table {
    alloc: Global,
    shared: Vec<String>,
    /// The line that began the row.
    head: Option<String>,
    own: Vec<String>,
}

impl Table {
    /// A table of no lines.
    pub fn new(alloc: Global) -> Table {
        Table {
            alloc,
            shared: Vec::new(alloc),
            head: None,
            own: Vec::new(alloc),
        }
    }

    /// Takes the next line. One that begins something new ends the row before it, which is done.
    pub fn take<K: Sink>(&mut self, line: String, out: &mut K) -> io::Result<()> {
        match kind_of(line.as_str()) {
            Kind::Nothing => Ok(()),
            Kind::Shared => self.begin_shared(out),
            Kind::Head => self.begin_row(line, out),
            Kind::Own => self.keep(line),
        }
    }

    fn begin_shared<K: Sink>(&mut self, out: &mut K) -> io::Result<()> {
        self.finish(out)?;
        self.shared.clear();
        Ok(())
    }

    fn begin_row<K: Sink>(&mut self, head: String, out: &mut K) -> io::Result<()> {
        let done = self.finish(out);
        self.head = Some(head);
        done
    }

    // Keeps a line of a row or of all of them.
    fn keep(&mut self, line: String) -> io::Result<()> {
        if self.head.is_some() {
            self.own.push(line)?;
        } else {
            self.shared.push(line)?;
        }
        Ok(())
    }

    /// Does the row that was read, if there is one, and prints what comes of it.
    pub fn finish<K: Sink>(&mut self, out: &mut K) -> io::Result<()> {
        match self.head.take() {
            Some(head) => self.do_row(head.as_str(), out),
            None => Ok(()),
        }
    }

    fn do_row<K: Sink>(&mut self, head: &str, out: &mut K) -> io::Result<()> {
        let text = self.told(head)?;
        self.own.clear();
        match out.put(&text) {
            Ok(()) => Ok(()),
            Err(_) => Err(io::ErrorKind::Other.into()),
        }
    }

    // What is printed of the row.
    fn told(&self, head: &str) -> Result<Vec<u8>, AllocError> {
        let mut row = Row::new(self.alloc);
        apply_lines(self.alloc, &mut row, head, &self.shared, &self.own)?;
        report(self.alloc, head, &row)
    }
}

// What a line is.
enum Kind {
    Nothing,
    Shared,
    Head,
    Own,
}

fn kind_of(line: &str) -> Kind {
    if line.is_empty() || line.starts_with('#') {
        Kind::Nothing
    } else if line == "shared" {
        Kind::Shared
    } else if line.starts_with("row ") || line.starts_with("case ") {
        Kind::Head
    } else {
        Kind::Own
    }
}

// Adds what the lines say to a row.
fn apply_lines(
    alloc: Global,
    row: &mut Row,
    head: &str,
    shared: &[String],
    own: &[String],
) -> Result<(), AllocError> {
    for line in shared {
        apply(alloc, row, head, line)?;
    }
    for line in own {
        apply(alloc, row, head, line)?;
    }
    Ok(())
}

// Adds what a line says to a row, with the text of a case in its place.
fn apply(alloc: Global, row: &mut Row, head: &str, line: &String) -> Result<(), AllocError> {
    match head.strip_prefix("case ") {
        Some(text) => row.apply(filled(alloc, line.as_str(), text)?.as_str()),
        None => row.apply(line.as_str()),
    }
}

// The line with the text in the place of each `$`.
fn filled(alloc: Global, line: &str, text: &str) -> Result<String, AllocError> {
    let mut filled = String::new(alloc);
    for piece in line.chars() {
        if piece == '$' {
            filled.push_str(text)?;
        } else {
            filled.push(piece)?;
        }
    }
    Ok(filled)
}
