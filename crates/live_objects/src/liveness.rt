//! The table of the places at which each object is live.

ghost use Rattle.std.specs.Prelude.{◌≡◌, ◌<◌, ◌≤◌, ◌+◌, ◌^◌, ◌++◌, ◌∷◌, ◌↔◌, ℕ, [], IfOk, OnOk, IsTrue, None, Some, false, true, length, replicate, slice_get, slice_index_or};
ghost use Rattle.std.specs.List.{AllByRecursion};
ghost use Rattle.graph_paths.specs.Paths.{AreWithin, Reaches};
ghost use Rattle.flow_graph.specs.declared.graph.Graph.{Graph};
ghost use Rattle.flow_graph.specs.declared.owned.Owned.{Owned};
ghost use Rattle.flow_graph.specs.Owned.{operations};
ghost use Rattle.live_objects.specs.Live.{IsLiveAfter, IsLiveBefore};
ghost use Rattle.live_objects.specs.Rows.{AreRows, IsLivenessOf, IsTable, live_at, marked_at, marked_behind, place_roles, told_after, told_before};

use crate::begins::entries;
use crate::links::arcs;
use crate::roles::roles;
use base_io::Memory;
use flow_graph::{Graph, Next, Owned, owned_operations};
use graph_paths::{grouped, reaching};
use std::alloc::Global;

/// The most functions, operations and objects: the places of a graph are numbered by 32 bits.
const MOST: usize = 0x4000_0000;

/// The operations of a graph, the operation that each function begins with, and for each object the places at which it is live:
/// the operations, and behind them the end of each function.
#[derive(Drop)]
pub struct Liveness {
    pub operations: Vec<Owned>,
    pub entries: Vec<u32>,
    pub rows: Vec<Vec<bool>>,
}

/// The row of one object.
fn row(
    alloc: Global,
    before: &[Vec<u32>],
    operations: &[Owned],
    functions: u32,
    object: u32,
) -> Result<Vec<bool>, Memory>
    requires places { length before.now ≡ length operations.now + functions }
    requires few { length operations.now + functions < 2 ^ 32 }
    requires within { AreWithin (length before.now) before.now }
    ensures { IfOk result (λ row. (i : ℕ) → (slice_index_or row.items i false ≡ true) ↔ Reaches before.now (place_roles object operations.now functions) i) }
{
    let roles = roles(alloc, operations, functions, object)?;
    reaching(alloc, before, &roles)
}

fn put_row(rows: &mut Vec<Vec<bool>>, row: Vec<bool>) -> Result<(), Memory>
    ensures { OnOk result (rows.new.items ≡ rows.old.items ++ row ∷ []) }
{
    match rows.push(row) {
        Ok(()) => Ok(()),
        Err(_) => Err(Memory),
    }
}

/// The rows of so many objects.
fn rows(
    alloc: Global,
    before: &[Vec<u32>],
    operations: &[Owned],
    functions: u32,
    objects: u32,
) -> Result<Vec<Vec<bool>>, Memory>
    requires places { length before.now ≡ length operations.now + functions }
    requires few { length operations.now + functions < 2 ^ 32 }
    requires within { AreWithin (length before.now) before.now }
    ensures { IfOk result (λ rows. AreRows before.now operations.now functions objects rows.items) }
{
    let mut rows = Vec::new(alloc);
    for object in 0..objects {
        let one = row(alloc, before, operations, functions, object)?;
        put_row(&mut rows, one)?;
    }
    Ok(rows)
}

/// The rows of so many objects, from the operations and the one that each function begins with.
fn table(
    alloc: Global,
    operations: &[Owned],
    entries: &[u32],
    objects: u32,
) -> Result<Vec<Vec<bool>>, Memory>
    requires places { length operations.now + length entries.now < 2 ^ 32 }
    requires functions { AllByRecursion (λ x. x.function < length entries.now) operations.now }
    ensures { IfOk result (λ rows. IsTable operations.now entries.now objects rows.items) }
{
    let arcs = arcs(alloc, operations, entries)?;
    let functions = entries.len() as u32;
    let before = grouped(alloc, &arcs, operations.len() as u32 + functions)?;
    let made = rows(alloc, &before, operations, functions, objects)?;
    Ok(made)
}

/// The operations of a graph, where they can be numbered.
fn few_operations(alloc: Global, g: &Graph) -> Result<Vec<Owned>, Memory>
    requires { length g.now.functions < 2 ^ 32 }
    ensures same { IfOk result (λ made. made.items ≡ operations g.now) }
    ensures few { IfOk result (λ made. length made.items ≤ 2 ^ 30) }
{
    let made = owned_operations(alloc, g)?;
    if made.len() > MOST {
        return Err(Memory);
    }
    Ok(made)
}

/// Which objects are live where, in a graph whose functions and objects can be numbered.
fn numbered_live(alloc: Global, g: &Graph) -> Result<Liveness, Memory>
    requires functions { length g.now.functions ≤ 2 ^ 30 }
    requires objects { length g.now.objects ≤ 2 ^ 30 }
    ensures { IfOk result (λ l. IsLivenessOf l g.now) }
{
    let operations = few_operations(alloc, g)?;
    let entries = entries(alloc, g.functions.as_slice())?;
    let objects = g.objects.as_slice().len() as u32;
    let rows = table(alloc, operations.as_slice(), entries.as_slice(), objects)?;
    Ok(Liveness {
        operations,
        entries,
        rows,
    })
}

/// Which objects are live where. It fails only for want of memory, which more than 2^30 functions, operations or objects are
/// told as, and takes time in proportion to the operations times the objects, and to the arcs at which an object is live.
pub fn live(alloc: Global, g: &Graph) -> Result<Liveness, Memory>
    ensures { IfOk result (λ l. IsLivenessOf l g.now) }
{
    if g.functions.len() > MOST || g.objects.len() > MOST {
        return Err(Memory);
    }
    numbered_live(alloc, g)
}

/// Whether a place is marked in the row of an object.
fn is_marked(rows: &[Vec<bool>], object: u32, place: usize) -> bool
    ensures { result ≡ live_at rows.now object place }
{
    match rows.get(object as usize) {
        None => false,
        Some(row) => row.get(place).copied().unwrap_or(false),
    }
}

/// Whether an object is marked at an operation, of which there are so many.
fn is_marked_at(rows: &[Vec<bool>], count: usize, object: u32, op: u32) -> bool
    ensures { result ≡ marked_at rows.now count object op }
{
    if (op as usize) < count {
        is_marked(rows, object, op as usize)
    } else {
        false
    }
}

fn entry_of(entries: &[u32], function: u32) -> u32
    ensures { result ≡ slice_index_or entries.now function 0 }
{
    entries.get(function as usize).copied().unwrap_or(0)
}

/// Whether an object is marked where control may go from an operation.
fn is_marked_behind(
    rows: &[Vec<bool>],
    count: usize,
    entries: &[u32],
    operation: &Owned,
    object: u32,
) -> bool
    requires { count < 2 ^ 63 }
    ensures { result ≡ marked_behind rows.now count entries.now operation.now.function operation.now.node.next object }
{
    match operation.node.next {
        Next::To(to) => is_marked_at(rows, count, object, to),
        Next::Either { passed, failed } => {
            is_marked_at(rows, count, object, passed) || is_marked_at(rows, count, object, failed)
        }
        Next::Into {
            function,
            behind: _,
        } => is_marked_at(rows, count, object, entry_of(entries, function)),
        Next::Returns => is_marked(rows, object, count + operation.function as usize),
        Next::Ends => false,
    }
}

/// Whether an object is marked behind the operation at a place.
fn is_behind(
    rows: &[Vec<bool>],
    operations: &[Owned],
    entries: &[u32],
    op: u32,
    object: u32,
) -> bool
    requires { length operations.now < 2 ^ 63 }
    ensures there { (x : Owned) → slice_get operations.now op ≡ Some x → result ≡ marked_behind rows.now (length operations.now) entries.now x.function x.node.next object }
    ensures none { slice_get operations.now op ≡ None → result ≡ false }
{
    match operations.get(op as usize) {
        None => false,
        Some(operation) => is_marked_behind(rows, operations.len(), entries, operation, object),
    }
}

impl Liveness {
    /// Whether the object is live before the operation.
    pub fn before(&self, op: u32, object: u32) -> bool
        ensures told { result ≡ told_before self.now op object }
        ensures live { (g : Graph) → IsLivenessOf self.now g → op < length (operations g) → object < length g.objects → IsTrue result ↔ IsLiveBefore g op object }
    {
        is_marked(self.rows.as_slice(), object, op as usize)
    }

    /// Whether the object is live behind the operation: before one of those that may be executed next.
    pub fn after(&self, op: u32, object: u32) -> bool
        ensures told { result ≡ told_after self.now op object }
        ensures live { (g : Graph) → IsLivenessOf self.now g → op < length (operations g) → object < length g.objects → IsTrue result ↔ IsLiveAfter g op object }
    {
        is_behind(
            self.rows.as_slice(),
            self.operations.as_slice(),
            self.entries.as_slice(),
            op,
            object,
        )
    }
}
