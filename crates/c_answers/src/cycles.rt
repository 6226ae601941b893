//! Calls that lie on a cycle of calls.
ghost use Rattle.std.specs.Prelude.{◌≡◌, ℕ, ◌<◌, ◌||◌, List, length, IfOk, OnOk};
ghost use Rattle.c_typing.specs.Cycles.{IsFirstOnCycle, AreAmong};
ghost use Rattle.c_answers.specs.Rows as spec;
ghost use Rattle.c_answers.specs.Rows.{Exact, IsFirstMarked, IsJoined};

use c_parse::NoMemory;
use c_typing::CallSite;
use sqlite_items::Items;
use std::alloc::Global;

/// The number of the first call, in the order of the list, that lies on a cycle of calls. Its time grows with the cube of the number of functions,
/// and with their number times that of the calls.
pub fn first_on_cycle(
    alloc: Global,
    functions: u32,
    calls: &[CallSite],
) -> Result<Option<usize>, NoMemory>
    requires { AreAmong functions calls.now }
    ensures { IfOk result (λ found. IsFirstOnCycle calls.now found) }
{
    let rows = reached(alloc, functions, calls)?;
    Ok(first_marked(calls, rows.as_slice()))
}

/// The number of the first call whose caller is marked in the row of its callee.
fn first_marked(calls: &[CallSite], rows: &[Items<bool>]) -> Option<usize>
    ensures { IsFirstMarked rows.now calls.now result }
{
    for (i, call) in calls.iter().enumerate() {
        if is_marked(rows, call) {
            return Some(i);
        }
    }
    None
}

fn is_marked(rows: &[Items<bool>], call: &CallSite) -> bool
    ensures { result ≡ spec.is_marked rows.now call.now }
{
    mark(row_at(rows, call.callee as usize), call.caller as usize)
}

/// For each function the marks of those that are reached from it by calls.
fn reached(alloc: Global, functions: u32, calls: &[CallSite]) -> Result<Vec<Items<bool>>, NoMemory>
    requires { AreAmong functions calls.now }
    ensures { IfOk result (λ rows. Exact calls.now functions rows.items) }
{
    let mut rows = own_rows(alloc, functions as usize)?;
    for call in calls {
        add_call(alloc, &mut rows, call.caller as usize, call.callee as usize)?;
    }
    Ok(rows)
}

/// The rows of functions that don't call each other.
fn own_rows(alloc: Global, functions: usize) -> Result<Vec<Items<bool>>, NoMemory>
    ensures { IfOk result (λ rows. rows.items ≡ spec.own_rows functions functions) }
{
    let mut rows = Vec::new(alloc);
    for a in 0..functions {
        let row = own_row(alloc, functions, a)?;
        let Ok(()) = rows.push(row) else {
            return Err(NoMemory);
        };
    }
    Ok(rows)
}

/// A row that marks one function.
fn own_row(alloc: Global, functions: usize, a: usize) -> Result<Items<bool>, NoMemory>
    requires { a < functions }
    ensures { IfOk result (λ row. row ≡ spec.own_row functions a) }
{
    let Ok(mut row) = vec![in alloc; false; functions] else {
        return Err(NoMemory);
    };
    row[a] = true;
    Ok(Items::from_vec(row))
}

/// The rows behind a call of `v` in `u`.
fn add_call(alloc: Global, rows: &mut Vec<Items<bool>>, u: usize, v: usize) -> Result<(), NoMemory>
    ensures height { OnOk result (length rows.new.items ≡ length rows.old.items) }
    ensures each { OnOk result ((a : ℕ) → a < length rows.old.items → IsJoined u v (spec.row_at rows.old.items v) (spec.row_at rows.old.items a) (spec.row_at rows.new.items a)) }
{
    let Ok(target) = Vec::from_slice(alloc, row_at(rows.as_slice(), v)) else {
        return Err(NoMemory);
    };
    join_rows(rows, u, v, target.as_slice());
    Ok(())
}

/// What `v` reaches is reached in each row where `u` is.
fn join_rows(rows: &mut Vec<Items<bool>>, u: usize, v: usize, target: &[bool])
    ensures height { length rows.new.items ≡ length rows.old.items }
    ensures each { (a : ℕ) → a < length rows.old.items → IsJoined u v target.now (spec.row_at rows.old.items a) (spec.row_at rows.new.items a) }
{
    for a in 0..rows.len() {
        join_row(&mut rows[a], u, v, target);
    }
}

/// What `v` reaches is reached where `u` is.
fn join_row(row: &mut Items<bool>, u: usize, v: usize, target: &[bool])
    ensures { IsJoined u v target.now row.old row.new }
{
    if mark(row.as_slice(), u) && !mark(row.as_slice(), v) {
        mark_all(row, target);
    }
}

/// Marks in a row what is marked in another.
fn mark_all(row: &mut Items<bool>, target: &[bool])
    ensures size { length row.new ≡ length row.old }
    ensures marks { (b : ℕ) → b < length row.old → spec.mark row.new b ≡ (spec.mark row.old b || spec.mark target.now b) }
{
    for b in 0..row.len() {
        if mark(target, b) {
            row.set(b, true);
        }
    }
}

fn row_at(rows: &[Items<bool>], a: usize) -> &[bool]
    ensures { result.now ≡ spec.row_at rows.now a }
{
    match rows.get(a) {
        Some(row) => row.as_slice(),
        None => &[],
    }
}

fn mark(row: &[bool], b: usize) -> bool
    ensures { result ≡ spec.mark row.now b }
{
    match row.get(b) {
        Some(marked) => *marked,
        None => false,
    }
}
