//! The table of the functions that touch each object.

ghost use Rattle.std.specs.Prelude.{◌≡◌, ◌<◌, ◌≤◌, ◌^◌, ◌++◌, ◌∷◌, ◌↔◌, [], ℕ, IfOk, OnOk, IsTrue, length};
ghost use Rattle.flow_graph.specs.declared.graph.Graph.{Graph};
ghost use Rattle.flow_graph.specs.Owned.{operations};
ghost use Rattle.graph_paths.specs.Paths.{AreWithin};
ghost use Rattle.graph_paths.specs.Arcs.{IsGrouped};
ghost use Rattle.touched_objects.specs.Touched.{Touches, call_of, calls_of};
ghost use Rattle.touched_objects.specs.Tables.{AreRowsOf, IsRowOf, marked_at};

use crate::flags::{flags, roles};
use crate::lists::first_and_rest;
use base_io::Memory;
use flow_graph::{Graph, Next, Owned, owned_operations};
use graph_paths::{Arc, grouped, reaching};
use std::alloc::Global;

/// For each object the functions that touch it.
#[derive(Drop)]
pub struct Touched {
    pub rows: Vec<Vec<bool>>,
}

/// Puts the call of an operation, if it is one, behind the others.
fn put_call(calls: &mut Vec<Arc>, function: u32, next: Next) -> Result<(), Memory>
    ensures { OnOk result (calls.new.items ≡ calls.old.items ++ call_of function next) }
{
    match next {
        Next::Into {
            function: called,
            behind: _,
        } => match calls.push(Arc {
            from: function,
            to: called,
        }) {
            Ok(()) => Ok(()),
            Err(_) => Err(Memory),
        },
        _ => Ok(()),
    }
}

/// The calls among operations.
fn calls(alloc: Global, operations: &[Owned]) -> Result<Vec<Arc>, Memory>
    ensures { IfOk result (λ made. made.items ≡ calls_of operations.now) }
{
    let mut made = Vec::new(alloc);
    let mut left = operations;
    while let Some((operation, rest)) = first_and_rest(left) {
        put_call(&mut made, operation.function, operation.node.next)?;
        left = rest;
    }
    Ok(made)
}

/// Of each function, whether it touches the object.
fn row(
    alloc: Global,
    before: &[Vec<u32>],
    operations: &[Owned],
    count: u32,
    object: u32,
) -> Result<Vec<bool>, Memory>
    requires so_many { length before.now ≡ count }
    requires grouped { IsGrouped count (calls_of operations.now) before.now }
    ensures { IfOk result (λ row. IsRowOf operations.now count object row.items) }
{
    let flags = flags(alloc, operations, count, object)?;
    let roles = roles(alloc, &flags)?;
    let found = reaching(alloc, before, &roles)?;
    Ok(found)
}

fn put_row(rows: &mut Vec<Vec<bool>>, row: Vec<bool>) -> Result<(), Memory>
    ensures { OnOk result (rows.new.items ≡ rows.old.items ++ row ∷ []) }
{
    match rows.push(row) {
        Ok(()) => Ok(()),
        Err(_) => Err(Memory),
    }
}

/// The rows of so many objects.
fn rows(
    alloc: Global,
    before: &[Vec<u32>],
    operations: &[Owned],
    count: u32,
    objects: u32,
) -> Result<Vec<Vec<bool>>, Memory>
    requires so_many { length before.now ≡ count }
    requires grouped { IsGrouped count (calls_of operations.now) before.now }
    ensures { IfOk result (λ rows. AreRowsOf operations.now count objects rows.items) }
{
    let mut rows = Vec::new(alloc);
    for object in 0..objects {
        let one = row(alloc, before, operations, count, object)?;
        put_row(&mut rows, one)?;
    }
    Ok(rows)
}

/// The table of operations of so many functions.
fn table(
    alloc: Global,
    operations: &[Owned],
    count: u32,
    objects: u32,
) -> Result<Vec<Vec<bool>>, Memory>
    ensures { IfOk result (λ rows. AreRowsOf operations.now count objects rows.items) }
{
    let arcs = calls(alloc, operations)?;
    let before = grouped(alloc, &arcs, count)?;
    let made = rows(alloc, &before, operations, count, objects)?;
    Ok(made)
}

/// Which objects each function of a graph touches. It fails only for want of memory, and takes time in proportion to the operations
/// times the objects.
pub fn touching(alloc: Global, g: &Graph) -> Result<Touched, Memory>
    requires functions { length g.now.functions < 2 ^ 32 }
    requires objects { length g.now.objects < 2 ^ 32 }
    ensures { IfOk result (λ made. AreRowsOf (operations g.now) (length g.now.functions) (length g.now.objects) made.rows.items) }
{
    let operations = owned_operations(alloc, g)?;
    let count = g.functions.as_slice().len() as u32;
    let objects = g.objects.as_slice().len() as u32;
    let rows = table(alloc, operations.as_slice(), count, objects)?;
    Ok(Touched { rows })
}
