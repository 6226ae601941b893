//! The arcs between the places of a graph: the operations, and behind them the end of each function.

ghost use Rattle.std.specs.Prelude.{◌≡◌, ◌<◌, ◌+◌, ◌^◌, ◌++◌, ◌∷◌, [], IfOk, OnOk, length, slice_index_or};
ghost use Rattle.std.specs.List.{AllByRecursion};
ghost use Rattle.live_objects.specs.GraphArcs.{arcs_from, arcs_of, from_end, to_operation};

use crate::lists::first_and_rest;
use base_io::Memory;
use flow_graph::{Next, Owned};
use graph_paths::Arc;
use std::alloc::Global;

/// Puts an arc behind the others.
fn put_arc(arcs: &mut Vec<Arc>, from: u32, to: u32) -> Result<(), Memory>
    ensures { OnOk result (arcs.new.items ≡ arcs.old.items ++ record { from = from; to = to } ∷ []) }
{
    match arcs.push(Arc { from, to }) {
        Ok(()) => Ok(()),
        Err(_) => Err(Memory),
    }
}

/// Puts the arc to an operation, if there is one of this number.
fn put_to_operation(arcs: &mut Vec<Arc>, count: u32, from: u32, to: u32) -> Result<(), Memory>
    ensures { OnOk result (arcs.new.items ≡ arcs.old.items ++ to_operation count from to) }
{
    if to < count {
        put_arc(arcs, from, to)?;
    }
    Ok(())
}

/// Puts the arc from the end of a function, if there is one of this number.
fn put_from_end(
    arcs: &mut Vec<Arc>,
    count: u32,
    functions: u32,
    function: u32,
    to: u32,
) -> Result<(), Memory>
    requires { count + functions < 2 ^ 32 }
    ensures { OnOk result (arcs.new.items ≡ arcs.old.items ++ from_end count functions function to) }
{
    if function < functions {
        put_to_operation(arcs, count, count + function, to)?;
    }
    Ok(())
}

fn entry_of(entries: &[u32], function: u32) -> u32
    ensures { result ≡ slice_index_or entries.now function 0 }
{
    entries.get(function as usize).copied().unwrap_or(0)
}

/// Puts the arcs of one operation behind the others.
fn put_arcs(
    arcs: &mut Vec<Arc>,
    count: u32,
    entries: &[u32],
    at: u32,
    operation: &Owned,
) -> Result<(), Memory>
    requires places { count + length entries.now < 2 ^ 32 }
    requires function { operation.now.function < length entries.now }
    ensures { OnOk result (arcs.new.items ≡ arcs.old.items ++ arcs_of count entries.now at operation.now.function operation.now.node.next) }
{
    match operation.node.next {
        Next::To(to) => put_to_operation(arcs, count, at, to),
        Next::Either { passed, failed } => {
            put_to_operation(arcs, count, at, passed)?;
            put_to_operation(arcs, count, at, failed)
        }
        Next::Into { function, behind } => {
            put_to_operation(arcs, count, at, entry_of(entries, function))?;
            put_from_end(arcs, count, entries.len() as u32, function, behind)
        }
        Next::Returns => put_arc(arcs, at, count + operation.function),
        Next::Ends => Ok(()),
    }
}

/// The arcs of all operations.
pub fn arcs(alloc: Global, operations: &[Owned], entries: &[u32]) -> Result<Vec<Arc>, Memory>
    requires places { length operations.now + length entries.now < 2 ^ 32 }
    requires functions { AllByRecursion (λ x. x.function < length entries.now) operations.now }
    ensures { IfOk result (λ made. made.items ≡ arcs_from (length operations.now) entries.now 0 operations.now) }
{
    let count = operations.len() as u32;
    let mut made = Vec::new(alloc);
    let mut left = operations;
    let mut at = 0;
    while let Some((operation, rest)) = first_and_rest(left) {
        put_arcs(&mut made, count, entries, at, operation)?;
        at += 1;
        left = rest;
    }
    Ok(made)
}
