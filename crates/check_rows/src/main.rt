//! Checks images by certificates that stand in a table, and prints what is answered of each.
//!
//! The table is read from the standard input, a line at a time. `board`, `image` and `certificate` each begin the lines of a
//! text of that kind, which stands until the next of the kind. `check NAME` checks the image by the certificate on the board,
//! and prints the name and `certified`, or the rule that is broken, its address and its values. `time NAME` prints the bytes
//! of the certificate and the microseconds that its reading and its check take instead.
#![tactic(auto)]

use base_io::Memory;
use board_table::{Board, read_board};
use cert_check::{Refused, check};
use certificate::Cert;
use std::alloc::Global;
use std::io;
use std::time::{Clock, Instant};
use ti_txt::Image;

/// The texts of the table that stand now.
#[derive(Drop)]
struct Texts {
    board: String,
    image: String,
    certificate: String,
}

/// The kind of the text whose lines come.
#[derive(Clone, Copy)]
enum Kind {
    Board,
    Image,
    Certificate,
}

impl Texts {
    fn begin(&mut self, alloc: Global, kind: Kind) {
        match kind {
            Kind::Board => self.board = String::new(alloc),
            Kind::Image => self.image = String::new(alloc),
            Kind::Certificate => self.certificate = String::new(alloc),
        }
    }

    fn add(&mut self, kind: Kind, line: &str) -> io::Result<()> {
        let text = match kind {
            Kind::Board => &mut self.board,
            Kind::Image => &mut self.image,
            Kind::Certificate => &mut self.certificate,
        };
        text.push_str(line)?;
        text.push('\n')?;
        Ok(())
    }

    fn board(&self, alloc: Global) -> Result<Board, Memory> {
        read_board(alloc, self.board.as_bytes()).map_err(|_| Memory)
    }

    fn image(&self, alloc: Global) -> Result<Image, Memory> {
        ti_txt::read(alloc, self.image.as_bytes()).map_err(|_| Memory)
    }

    fn certificate(&self, alloc: Global) -> Result<Cert, Memory> {
        certificate::read(alloc, self.certificate.as_bytes()).map_err(|_| Memory)
    }
}

/// What is answered of the texts; nothing where one of them has a fault of its own.
fn answer(alloc: Global, texts: &Texts) -> Option<Result<(), Refused>> {
    let Ok(board) = texts.board(alloc) else {
        return None;
    };
    let Ok(image) = texts.image(alloc) else {
        return None;
    };
    let Ok(certificate) = texts.certificate(alloc) else {
        return None;
    };
    Some(check(alloc, &image, &certificate, &board))
}

fn print_answer(
    rt: &impl Print,
    name: &str,
    answer: Option<Result<(), Refused>>,
) -> io::Result<()> {
    match answer {
        None => println!(rt; "{name}: a text has a fault"),
        Some(Ok(())) => println!(rt; "{name}: certified"),
        Some(Err(Refused::Memory)) => println!(rt; "{name}: no memory"),
        Some(
            Err(
                Refused::Rule {
                    rule,
                    address,
                    left,
                    right,
                },
            ),
        ) => println!(rt; "{name}: {rule:?} at {address:04X}: {left} against {right}"),
    }
}

fn print_time(
    rt: &(impl Print + Clock),
    alloc: Global,
    name: &str,
    texts: &Texts,
) -> io::Result<()> {
    let bytes = texts.certificate.len();
    let start = Instant::now(rt)?;
    let read = texts.certificate(alloc).is_ok();
    let reading = start.elapsed(rt)?.as_micros();
    let start = Instant::now(rt)?;
    let given = answer(alloc, texts);
    let whole = start.elapsed(rt)?.as_micros();
    println!(rt; "bytes {bytes} read {read} reading {reading} whole {whole}")?;
    print_answer(rt, name, given)
}

fn main(rt: HostRuntime) -> io::Result<()> {
    let alloc = rt.alloc();
    let mut texts = Texts {
        board: String::new(alloc),
        image: String::new(alloc),
        certificate: String::new(alloc),
    };
    let mut kind = Kind::Board;
    for line in rt.lines(alloc) {
        let line = line?;
        let begun = match line.as_str() {
            "board" => Some(Kind::Board),
            "image" => Some(Kind::Image),
            "certificate" => Some(Kind::Certificate),
            _ => None,
        };
        if let Some(other) = begun {
            kind = other;
            texts.begin(alloc, kind);
            continue;
        }
        match line.as_str().split_once(' ') {
            Some(("check", name)) => print_answer(&rt, name, answer(alloc, &texts))?,
            Some(("time", name)) => print_time(&rt, alloc, name, &texts)?,
            _ => texts.add(kind, line.as_str())?,
        }
    }
    Ok(())
}
