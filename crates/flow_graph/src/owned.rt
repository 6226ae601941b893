//! The operations of a graph, in the order of their numbers.

ghost use Rattle.std.specs.Prelude.{◌≡◌, ◌++◌, ◌∷◌, ◌<◌, ◌^◌, [], IfOk, OnOk, length};
ghost use Rattle.flow_graph.specs.Owned.{operations, owned};

use crate::lists::first_and_rest;
use crate::{Graph, Node, body_nodes};
use base_io::Memory;
use std::alloc::Global;

/// An operation with what is executed behind it, and the function that it belongs to.
#[derive(Clone, Copy, PartialEq, Eq, Debug)]
pub struct Owned {
    pub function: u32,
    pub node: Node,
}

/// Puts an operation behind the others.
fn put_operation(operations: &mut Vec<Owned>, operation: Owned) -> Result<(), Memory>
    ensures { OnOk result (operations.new.items ≡ operations.old.items ++ operation ∷ []) }
{
    match operations.push(operation) {
        Ok(()) => Ok(()),
        Err(_) => Err(Memory),
    }
}

/// Puts the operations of a function behind the others.
fn put_owned(operations: &mut Vec<Owned>, function: u32, nodes: &[Node]) -> Result<(), Memory>
    ensures { OnOk result (operations.new.items ≡ operations.old.items ++ owned function nodes.now) }
{
    let mut left = nodes;
    while let Some((node, rest)) = first_and_rest(left) {
        put_operation(
            operations,
            Owned {
                function,
                node: *node,
            },
        )?;
        left = rest;
    }
    Ok(())
}

/// The operations of a graph, with the function of each.
pub fn owned_operations(alloc: Global, g: &Graph) -> Result<Vec<Owned>, Memory>
    requires { length g.now.functions < 2 ^ 32 }
    ensures { IfOk result (λ made. made.items ≡ operations g.now) }
{
    let mut made = Vec::new(alloc);
    let mut left = g.functions.as_slice();
    let mut function = 0;
    while let Some((func, rest)) = first_and_rest(left) {
        let nodes = body_nodes(alloc, func.body.as_slice())?;
        put_owned(&mut made, function, &nodes)?;
        function += 1;
        left = rest;
    }
    Ok(made)
}
