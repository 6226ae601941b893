//! The lowering of a typed program to its flow graph.
ghost use Rattle.std.specs.Prelude.{◌≡◌, ◌≤◌, ◌<◌, ◌++◌, [], IfOk, OnOk, IfErr, MatchOption, slice_index_or};
ghost use Rattle.flow_graph.specs.Nodes.{all_nodes, body_nodes, node_in};
ghost use Rattle.lowered_graphs.specs.GraphOf as spec;
ghost use Rattle.c_lower.specs.Lowering as lowering;

use crate::bodies::bodies;
use crate::homes::or_zero;
use crate::lists::first_and_rest;
use crate::locals::put_number;
use crate::numbering::numbering;
use crate::reached::{next, reached};
use base_io::{Memory, Place};
use c_tree::Program;
use flow_graph::{Func, Graph, Node, body_nodes};
use lowered_graphs::{Homes, Numbering};
use sqlite_items::Items;
use std::alloc::Global;

/// A graph has at most this many operations.
const MOST: u32 = 4096;

/// Why a program isn't lowered.
#[derive(Clone, Copy, Debug, PartialEq, Eq)]
pub enum LowerFault {
    /// It has more than 4,096 operations: so many, and the one of the number 4,096 comes from this place.
    TooManyOps { count: u32, at: Place },
    /// There was no memory.
    Memory,
}

/// The place of each function among those reached.
fn places(alloc: Global, marks: &[bool]) -> Result<Items<u32>, Memory>
    ensures { IfOk result (λ places. places ≡ spec.places_from marks.now 0) }
{
    let mut made = Items::new(alloc);
    let mut left = marks;
    let mut k: u32 = 0;
    while let Some((mark, rest)) = first_and_rest(left) {
        put_number(&mut made, k)?;
        if *mark {
            k = next(k)?;
        }
        left = rest;
    }
    Ok(made)
}

/// The place of the operation of this number among those.
fn place_among(nodes: &[Node], n: u32) -> Option<Place>
    ensures { MatchOption result (node_in nodes.now n ≡ None) (λ at. lowering.is_place (node_in nodes.now n) at) }
{
    let mut left = nodes;
    while let Some((node, rest)) = first_and_rest(left) {
        if node.op.number == n {
            return Some(node.op.place);
        }
        left = rest;
    }
    None
}

/// The place of the operation of this number.
fn place_in(alloc: Global, functions: &[Func], n: u32) -> Result<Place, Memory>
    ensures { IfOk result (λ at. at ≡ lowering.place_at (node_in (all_nodes functions.now) n)) }
{
    let mut left = functions;
    while let Some((f, rest)) = first_and_rest(left) {
        let nodes = body_nodes(alloc, f.body.as_slice())?;
        match place_among(&nodes, n) {
            Some(at) => return Ok(at),
            None => left = rest,
        }
    }
    Ok(Place { line: 0, column: 0 })
}

/// The graph, and the number of its operations.
fn graph_of(alloc: Global, p: &Program) -> Result<(Graph, u32), Memory>
    ensures graph { IfOk result (λ made. made.0 ≡ spec.graph_of p.now) }
    ensures count { IfOk result (λ made. made.1 ≡ spec.operations p.now) }
{
    let marks = reached(alloc, p)?;
    let numbered = numbering(alloc, p, marks.as_slice())?;
    let places = places(alloc, marks.as_slice())?;
    let Numbering {
        objects,
        variables,
        results,
    } = numbered;
    let homes = Homes {
        variables,
        results,
        places,
    };
    let (functions, count) = bodies(alloc, p, &homes, marks.as_slice())?;
    let main = or_zero(&homes.places, p.main);
    Ok((
        Graph {
            objects,
            functions,
            main,
        },
        count,
    ))
}

fn too_many(alloc: Global, graph: &Graph, count: u32) -> LowerFault
    ensures { lowering.IsTooMany graph.now count result }
{
    match place_in(alloc, graph.functions.as_slice(), MOST) {
        Ok(at) => LowerFault::TooManyOps { count, at },
        Err(_) => LowerFault::Memory,
    }
}

/// Lowers a typed program to its flow graph. It answers `TooManyOps` exactly where the graph has more than 4,096 operations, with
/// their number and the place of the operation of the number 4,096; `Memory` where memory is refused.
pub fn lower(alloc: Global, p: &Program) -> Result<Graph, LowerFault>
    ensures made { IfOk result (λ g. (spec.operations p.now ≤ 4096) × (g ≡ spec.graph_of p.now)) }
    ensures refused { IfErr result (λ fault. lowering.IsRefused p.now fault) }
{
    match graph_of(alloc, p) {
        Err(_) => Err(LowerFault::Memory),
        Ok((graph, count)) => {
            if count > MOST {
                let fault = too_many(alloc, &graph, count);
                drop(graph);
                Err(fault)
            } else {
                Ok(graph)
            }
        }
    }
}
