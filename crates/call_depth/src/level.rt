//! The functions that so many calls, one in another, lead to.

ghost use Rattle.std.specs.Prelude.{◌≡◌, ◌<◌, ◌==◌, ◌&&◌, ◌||◌, ℕ, IfOk, false, length};
ghost use Rattle.call_depth.specs.Levels.{called_in, calls_it, is_marked, some_marked};

use crate::lists::first_and_rest;
use base_io::Memory;
use flow_graph::{Next, Owned};
use std::alloc::Global;

fn no_marks(alloc: Global, count: u32) -> Result<Vec<bool>, Memory>
    ensures length { IfOk result (λ made. length made.items ≡ count) }
    ensures none { IfOk result (λ made. (f : ℕ) → is_marked made.items f ≡ false) }
{
    match vec![in alloc; false; count as usize] {
        Ok(made) => Ok(made),
        Err(_) => Err(Memory),
    }
}

/// One of so many functions alone.
pub fn lone(alloc: Global, count: u32, function: u32) -> Result<Vec<bool>, Memory>
    requires { function < count }
    ensures length { IfOk result (λ made. length made.items ≡ count) }
    ensures marked { IfOk result (λ made. (f : ℕ) → f < count → is_marked made.items f ≡ (f == function)) }
{
    let mut made = no_marks(alloc, count)?;
    made[function as usize] = true;
    Ok(made)
}

/// Whether a function is marked.
fn is_marked(marks: &[bool], function: u32) -> bool
    ensures { result ≡ is_marked marks.now function }
{
    match marks.get(function as usize) {
        None => false,
        Some(mark) => *mark,
    }
}

/// Marks a function that there is.
fn mark(marks: &mut [bool], function: u32)
    ensures { (f : ℕ) → f < length marks.old → is_marked marks.new f ≡ (is_marked marks.old f || function == f) }
{
    let at = function as usize;
    if at < marks.len() {
        marks[at] = true;
    }
}

/// Marks the function that an operation calls, where its own is marked among the callers.
fn mark_called(marks: &mut [bool], callers: &[bool], operation: &Owned)
    ensures { (f : ℕ) → f < length marks.old → is_marked marks.new f ≡ (is_marked marks.old f || (is_marked callers.now operation.now.function && calls_it operation.now.node.next f)) }
{
    if let Next::Into {
        function,
        behind: _,
    } = operation.node.next
        && is_marked(callers, operation.function)
    {
        mark(marks, function);
    }
}

/// Of so many functions those that one of the callers calls.
pub fn called(
    alloc: Global,
    operations: &[Owned],
    callers: &[bool],
    count: u32,
) -> Result<Vec<bool>, Memory>
    ensures length { IfOk result (λ made. length made.items ≡ count) }
    ensures called { IfOk result (λ made. (f : ℕ) → f < count → is_marked made.items f ≡ called_in operations.now callers.now f) }
{
    let mut made = no_marks(alloc, count)?;
    let mut left = operations;
    while let Some((operation, rest)) = first_and_rest(left) {
        mark_called(made.as_mut_slice(), callers, operation);
        left = rest;
    }
    Ok(made)
}

/// Whether some function is marked.
pub fn some_marked(marks: &[bool]) -> bool
    ensures { result ≡ some_marked marks.now }
{
    let mut left = marks;
    while let Some((mark, rest)) = first_and_rest(left) {
        if *mark {
            return true;
        }
        left = rest;
    }
    false
}
