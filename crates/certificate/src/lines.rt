//! Texts in pieces.
ghost use Rattle.std.specs.Prelude.{◌≡◌, ◌≤◌, ◌<◌, ◌+◌, ◌==◌, ◌++◌, ◌^◌, [], ℕ, List, length, map, drop, option_to_list, option_map, IfOk, IfErr};
ghost use Rattle.std.specs.List.{list_any};
ghost use Rattle.certificate.specs.Fields.{Reads};
ghost use Rattle.certificate.specs.Texts.{Lacks};
ghost use Rattle.certificate.specs.Reading.{Ends, Feeds, GivesAll, GivesRows, HasRoom, TakesLine, fed, going, nothing_read, line_of_row, read_line, read_text};

use crate::CertText;
use crate::fault::Refusal;
use crate::state::{Row, Stage, read_line};
use crate::text::cut;
use std::alloc::Global;
use std::marker::Model;

// Reads a line and adds its row, if it has one. Answers what may come next.
fn take_line(
    alloc: Global,
    stage: Stage,
    line: &[u8],
    rows: &mut Vec<Row>,
) -> Result<Stage, Refusal>
    ensures { TakesLine result (map line_of_row rows.old.items) (map line_of_row rows.new.items) (read_line stage line.now) }
{
    let (row, next) = read_line(alloc, stage, line)?;
    let Some(row) = row else {
        return Ok(next);
    };
    match rows.push(row) {
        Ok(()) => Ok(next),
        Err(_) => Err(Refusal::Memory),
    }
}

// What is left of a text: the unfinished line, what may come behind it, and where it begins.
#[derive(Drop)]
struct Left<'a> {
    pub stage: Stage,
    pub at: usize,
    pub line: &'a [u8],
}

// Adds the rows of the finished lines of a text that begins at this offset.
fn take_lines<'a>(
    alloc: Global,
    stage: Stage,
    at: usize,
    text: &'a [u8],
    rows: &mut Vec<Row>,
) -> Result<Left<'a>, CertText>
    requires { at + length text.now < 2 ^ 64 }
    ensures rows { GivesRows (λ left. going left.stage left.line.now left.at) result (map line_of_row rows.old.items) (map line_of_row rows.new.items) (read_text stage at text.now) }
    ensures one_line { IfOk result (λ left. Lacks 10 left.line.now) }
{
    let mut stage = stage;
    let mut at = at;
    let mut rest = text;
    loop {
        let (line, behind) = cut(rest, b'\n');
        let Some(behind) = behind else {
            return Ok(Left { stage, at, line });
        };
        match take_line(alloc, stage, line, rows) {
            Ok(next) => stage = next,
            Err(Refusal::Bad) => return Err(CertText::BadLine { at }),
            Err(Refusal::Memory) => return Err(CertText::Memory),
        }
        at += line.len() + 1;
        rest = behind;
    }
}

fn has_line_feed(text: &[u8]) -> bool
    ensures { result ≡ list_any (λ b. b == 10) text.now }
{
    text.iter().any(|b| *b == b'\n')
}

#[derive(Drop)]
struct Fed {
    rows: Vec<Row>,
    stage: Stage,
    at: usize,
    line: Vec<u8>,
}

// The rows of a text that begins at this offset, and what is left of it.
fn read_piece(alloc: Global, stage: Stage, at: usize, text: &[u8]) -> Result<Fed, CertText>
    requires { at + length text.now < 2 ^ 64 }
    ensures rows { GivesAll (λ fed. map line_of_row fed.rows.items) (λ fed. going fed.stage fed.line.items fed.at) result (read_text stage at text.now) }
    ensures one_line { IfOk result (λ fed. Lacks 10 fed.line.items) }
{
    let mut rows = Vec::new(alloc);
    let left = match take_lines(alloc, stage, at, text, &mut rows) {
        Ok(left) => left,
        Err(fault) => return Err(fault),
    };
    let mut line = Vec::new(alloc);
    match line.extend_from_slice(left.line) {
        Ok(()) => Ok(Fed {
            rows,
            stage: left.stage,
            at: left.at,
            line,
        }),
        Err(_) => Err(CertText::Memory),
    }
}

/// The reader of a certificate's text that comes in pieces of any size.
#[derive(Drop)]
pub struct Lines {
    alloc: Global,
    stage: Stage,
    at: usize,
    line: Vec<u8>,
    bad: Option<usize>,
}

impl Model for Lines {
    ghost use Rattle.certificate.specs.Reading.{Progress, progress_of};
    ghost use Rattle.certificate.specs.Texts.{Lacks};

    ghost Value = { Progress };

    ghost view = { λ l. progress_of l.bad l.stage l.line.items l.at };

    // What is unfinished is one line, so a piece is looked through for line feeds alone.
    ghost invariant = { λ l. Lacks 10 l.line.items };
}

impl Lines {
    /// A reader that was fed nothing. It takes no memory.
    pub fn new(alloc: Global) -> Lines
        ensures { result ≡ nothing_read }
    {
        Lines {
            alloc,
            stage: Stage::Header,
            at: 0,
            line: Vec::new(alloc),
            bad: None,
        }
    }

    /// The rows of the lines that end in this piece. After BadLine each later call answers the same; after Memory the
    /// reader is as before the call.
    pub fn feed(&mut self, piece: &[u8]) -> Result<Vec<Row>, CertText>
        requires { HasRoom self.old (length piece.now) }
        ensures rows { Feeds (λ rows. map line_of_row rows.items) result self.old self.new (fed self.old piece.now) }
        // Where there was room for more behind the piece, there still is.
        ensures room { (more : ℕ) → HasRoom self.old (length piece.now + more) → HasRoom self.new more }
    {
        self.take_piece(piece)
    }

    fn take_piece(&mut self, piece: &[u8]) -> Result<Vec<Row>, CertText>
        requires { HasRoom self.old (length piece.now) }
        ensures { Feeds (λ rows. map line_of_row rows.items) result self.old self.new (fed self.old piece.now) }
    {
        if let Some(at) = self.bad {
            return Err(CertText::BadLine { at });
        }
        let kept = self.line.len();
        if self.line.extend_from_slice(piece).is_err() {
            return Err(CertText::Memory);
        }
        if !has_line_feed(piece) {
            return Ok(Vec::new(self.alloc));
        }
        match read_piece(self.alloc, self.stage, self.at, &self.line) {
            Ok(read) => {
                self.stage = read.stage;
                self.at = read.at;
                self.line = read.line;
                Ok(read.rows)
            }
            Err(CertText::BadLine { at }) => {
                self.bad = Some(at);
                self.line.truncate(kept);
                Err(CertText::BadLine { at })
            }
            Err(CertText::Memory) => {
                self.line.truncate(kept);
                Err(CertText::Memory)
            }
        }
    }

    /// Whether what was fed is a whole certificate.
    pub fn end(self) -> Result<(), CertText>
        ensures { Ends result self }
    {
        if let Some(at) = self.bad {
            return Err(CertText::BadLine { at });
        }
        match self.stage {
            Stage::Ended if self.line.is_empty() => Ok(()),
            _ => Err(CertText::BadLine { at: self.at }),
        }
    }
}
