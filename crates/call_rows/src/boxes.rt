//! Boxes of supplies as a row asks for them.
ghost use Rattle.std.specs.Prelude.{◌≤◌, length, IfOk};

use msp430_machine::Refill;
use std::alloc::{AllocError, Global};
use supply_trace::{Failing, rows};

/// A box of one row a number of times, one of whose refills may fail.
#[derive(Clone, Copy)]
pub struct Filling {
    pub row: Refill,
    pub times: u16,
    /// Which refill fails, counted from 1; none where it is 0.
    pub failing: u64,
}

impl Filling {
    /// A box of no rows.
    pub const EMPTY: Filling = Filling {
        row: Refill {
            amount: 0,
            keep: false,
            junk: 0,
        },
        times: 0,
        failing: 0,
    };
}

/// What `N COUNT ROW` says of a box, if it says something.
pub fn read_filling(alloc: Global, text: &str) -> Option<Filling> {
    let (failing, rest) = text.split_once(' ')?;
    let (times, row) = rest.split_once(' ')?;
    let failing = failing.parse().ok()?;
    let times = times.parse().ok()?;
    let row = first_row(alloc, row)?;
    Some(Filling {
        row,
        times,
        failing,
    })
}

// The first row of a supply's text.
fn first_row(alloc: Global, text: &str) -> Option<Refill> {
    match rows(alloc, text.as_bytes()) {
        Ok(rows) => rows.first().copied(),
        Err(_) => None,
    }
}

/// The box of this number, counted from 0, or one of no rows.
pub fn filled_box(alloc: Global, boxes: &[Filling], at: usize) -> Result<Failing, AllocError>
    ensures { IfOk result (λ filled. length filled.rows ≤ 65535) }
{
    let filling = boxes.get(at).copied().unwrap_or(Filling::EMPTY);
    let rows = rows_of(alloc, filling.row, filling.times)?;
    let mut failing = Vec::new(alloc);
    failing.push(filling.failing)?;
    Ok(Failing::new(rows, failing))
}

// A row so many times.
fn rows_of(alloc: Global, row: Refill, times: u16) -> Result<Vec<Refill>, AllocError>
    ensures { IfOk result (λ rows. length rows.items ≤ 65535) }
{
    let mut rows = Vec::new(alloc);
    'filling: while rows.len() < times as usize {
        rows.push(row)?;
    }
    Ok(rows)
}
