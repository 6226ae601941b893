//! Which functions are reached from `main`.
ghost use Rattle.std.specs.Prelude.{◌≡◌, ◌+◌, ◌++◌, ◌∷◌, ◌||◌, [], true, false, IfOk, replicate, length, slice_index_or, slice_set};
ghost use Rattle.lowered_graphs.specs.GraphOf as spec;
ghost use Rattle.c_lower.specs.Calling as calling;

use crate::holding::{Sought, has};
use crate::lists::first_and_rest;
use base_io::Memory;
use c_tree::Program;
use sqlite_items::Items;
use std::alloc::Global;

/// The mark that stands there, or none behind the last.
pub fn is_marked(marks: &[bool], n: u32) -> bool
    ensures { result ≡ slice_index_or marks.now n false }
{
    match marks.get(n as usize) {
        Some(mark) => *mark,
        None => false,
    }
}

fn put_mark(marks: &mut Items<bool>, mark: bool) -> Result<(), Memory>
    ensures { IfOk result (λ u. marks.new ≡ marks.old ++ mark ∷ []) }
{
    match marks.push(mark) {
        Ok(_) => Ok(()),
        Err(_) => Err(Memory),
    }
}

/// The next number; so many can't be stored.
pub fn next(n: u32) -> Result<u32, Memory>
    ensures { IfOk result (λ m. m ≡ n + 1) }
{
    match n.checked_add(1) {
        Some(next) => Ok(next),
        None => Err(Memory),
    }
}

/// Which functions call f.
fn row_of(alloc: Global, p: &Program, f: u32) -> Result<Items<bool>, Memory>
    ensures { IfOk result (λ row. row ≡ calling.row p.now f 0 p.now.functions) }
{
    let mut row = Items::new(alloc);
    let mut left = p.functions.as_slice();
    while let Some((function, rest)) = first_and_rest(left) {
        put_mark(&mut row, has(Sought::Call(f), &function.body))?;
        left = rest;
    }
    Ok(row)
}

fn put_row(table: &mut Items<Items<bool>>, row: Items<bool>) -> Result<(), Memory>
    ensures { IfOk result (λ u. table.new ≡ table.old ++ row ∷ []) }
{
    match table.push(row) {
        Ok(_) => Ok(()),
        Err(_) => Err(Memory),
    }
}

/// For each function, which functions call it.
fn table_of(alloc: Global, p: &Program) -> Result<Items<Items<bool>>, Memory>
    ensures { IfOk result (λ table. table ≡ calling.table p.now 0 p.now.functions) }
{
    let mut table = Items::new(alloc);
    let mut left = p.functions.as_slice();
    let mut f: u32 = 0;
    while let Some((_, rest)) = first_and_rest(left) {
        let row = row_of(alloc, p, f)?;
        put_row(&mut table, row)?;
        f = next(f)?;
        left = rest;
    }
    Ok(table)
}

fn any_marked(marks: &[bool], row: &[bool]) -> Result<bool, Memory>
    ensures { IfOk result (λ b. b ≡ calling.any_marked marks.now 0 row.now) }
{
    let mut left = row;
    let mut n: u32 = 0;
    while let Some((calls, rest)) = first_and_rest(left) {
        if is_marked(marks, n) && *calls {
            return Ok(true);
        }
        n = next(n)?;
        left = rest;
    }
    Ok(false)
}

/// Whether a function is marked, or called by one that is.
fn mark_of(marks: &[bool], n: u32, row: &[bool]) -> Result<bool, Memory>
    ensures { IfOk result (λ b. b ≡ (slice_index_or marks.now n false || calling.any_marked marks.now 0 row.now)) }
{
    if is_marked(marks, n) {
        Ok(true)
    } else {
        any_marked(marks, row)
    }
}

/// The marks, and those of the functions that a marked one calls.
fn mark_on(alloc: Global, marks: &[bool], table: &[Items<bool>]) -> Result<Items<bool>, Memory>
    ensures { IfOk result (λ new. new ≡ calling.marked_by marks.now 0 table.now) }
{
    let mut made = Items::new(alloc);
    let mut left = table;
    let mut n: u32 = 0;
    while let Some((row, rest)) = first_and_rest(left) {
        let mark = mark_of(marks, n, row.as_slice())?;
        put_mark(&mut made, mark)?;
        n = next(n)?;
        left = rest;
    }
    Ok(made)
}

/// As many marks as there are functions, of which none is set.
fn no_marks(alloc: Global, p: &Program) -> Result<Items<bool>, Memory>
    ensures { IfOk result (λ marks. marks ≡ replicate (length p.now.functions) false) }
{
    let mut marks = Items::new(alloc);
    let mut left = p.functions.as_slice();
    while let Some((_, rest)) = first_and_rest(left) {
        put_mark(&mut marks, false)?;
        left = rest;
    }
    Ok(marks)
}

fn set_mark(marks: &mut Items<bool>, n: u32)
    ensures { marks.new ≡ slice_set marks.old n true }
{
    if (n as usize) < marks.len() {
        marks.set(n as usize, true);
    }
}

/// Whether each function is reached from `main`.
pub fn reached(alloc: Global, p: &Program) -> Result<Items<bool>, Memory>
    ensures { IfOk result (λ marks. marks ≡ spec.reached p.now) }
{
    let table = table_of(alloc, p)?;
    let mut marks = no_marks(alloc, p)?;
    set_mark(&mut marks, p.main);
    let mut left = p.functions.as_slice();
    while let Some((_, rest)) = first_and_rest(left) {
        marks = mark_on(alloc, marks.as_slice(), table.as_slice())?;
        left = rest;
    }
    Ok(marks)
}
