//! Which row may follow which.
ghost use Rattle.std.specs.Prelude.{◌≡◌, ◌≤◌, ◌+◌, ◌==◌, ◌&&◌, ◌∷◌, [], length, nat_le};
ghost use Rattle.certificate.specs.Fields.{Reads};
ghost use Rattle.certificate.specs.Reading.{functions_behind, line_of_row, points_behind, read_line, read_of, read_row, stage_behind, stretches_behind};

use crate::fault::Refusal;
use crate::rows::{function_in, point_in, stretch_in};
use crate::text::{number_of, split};
use crate::{FunctionRow, PointRow, StretchRow};
use std::alloc::Global;

/// A row of a certificate's text.
#[derive(Drop)]
pub enum Row {
    Budget(u64),
    Function(FunctionRow),
    Stretch(StretchRow),
    Point(PointRow),
    End,
}

/// What may come next. `low` is the least address that it may have.
#[derive(Clone, Copy)]
pub enum Stage {
    Header,
    Budget,
    First,
    Functions { low: u32 },
    Stretches { low: u32 },
    Points { low: u32 },
    Ended,
}

// The row that a line spells.
fn row_of(alloc: Global, line: &[u8]) -> Result<Row, Refusal>
    ensures { Reads line_of_row result (read_row line.now) }
{
    if line == b"end".as_slice() {
        return Ok(Row::End);
    }
    let (kind, text) = split(line, b' ');
    if kind == b"P".as_slice() {
        Ok(Row::Point(point_in(alloc, text)?))
    } else if kind == b"S".as_slice() {
        match stretch_in(text) {
            Some(row) => Ok(Row::Stretch(row)),
            None => Err(Refusal::Bad),
        }
    } else if kind == b"F".as_slice() {
        Ok(Row::Function(function_in(alloc, text)?))
    } else if kind == b"budget".as_slice() {
        match number_of(text) {
            Some(budget) => Ok(Row::Budget(budget)),
            None => Err(Refusal::Bad),
        }
    } else {
        Err(Refusal::Bad)
    }
}

// What may come behind the row, if it may come.
fn stage_behind(stage: Stage, row: &Row) -> Option<Stage>
    ensures { result ≡ stage_behind stage (line_of_row row.now) }
{
    match row {
        Row::Budget(_) => match stage {
            Stage::Budget => Some(Stage::First),
            _ => None,
        },
        Row::Function(f) => functions_behind(stage, f.start),
        Row::Stretch(s) => stretches_behind(stage, s.head),
        Row::Point(p) => points_behind(stage, p.address),
        Row::End => match stage {
            Stage::Functions { .. } | Stage::Stretches { .. } | Stage::Points { .. } => {
                Some(Stage::Ended)
            }
            _ => None,
        },
    }
}

fn functions_behind(stage: Stage, start: u16) -> Option<Stage>
    ensures { result ≡ functions_behind stage start }
{
    let start = u32::from(start);
    match stage {
        Stage::First => Some(Stage::Functions { low: start + 1 }),
        Stage::Functions { low } if low <= start => Some(Stage::Functions { low: start + 1 }),
        _ => None,
    }
}

fn stretches_behind(stage: Stage, head: u16) -> Option<Stage>
    ensures { result ≡ stretches_behind stage head }
{
    let head = u32::from(head);
    match stage {
        Stage::Functions { .. } => Some(Stage::Stretches { low: head + 1 }),
        Stage::Stretches { low } if low <= head => Some(Stage::Stretches { low: head + 1 }),
        _ => None,
    }
}

fn points_behind(stage: Stage, address: u16) -> Option<Stage>
    ensures { result ≡ points_behind stage address }
{
    let address = u32::from(address);
    match stage {
        Stage::Functions { .. } | Stage::Stretches { .. } => Some(Stage::Points {
            low: address + 1,
        }),
        Stage::Points { low } if low <= address => Some(Stage::Points { low: address + 1 }),
        _ => None,
    }
}

/// Reads a line: its row, if it has one, and what may come next.
pub fn read_line(alloc: Global, stage: Stage, line: &[u8]) -> Result<(Option<Row>, Stage), Refusal>
    ensures { Reads read_of result (read_line stage line.now) }
{
    if let Stage::Header = stage {
        return if line == b"schematic-cert 1".as_slice() {
            Ok((None, Stage::Budget))
        } else {
            Err(Refusal::Bad)
        };
    }
    let row = row_of(alloc, line)?;
    match stage_behind(stage, &row) {
        Some(next) => Ok((Some(row), next)),
        None => Err(Refusal::Bad),
    }
}
