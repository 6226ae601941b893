//! How deep calls nest.

ghost use Rattle.std.specs.Prelude.{◌≡◌, ◌<◌, ◌^◌, IfOk, length};
ghost use Rattle.flow_graph.specs.Owned.{operations};
ghost use Rattle.flow_graph.specs.Rules.{IsGraph};
ghost use Rattle.call_depth.specs.Depth.{IsDeepest};
ghost use Rattle.call_depth.specs.Levels.{AreWithin};

use crate::level::{called, lone, some_marked};
use base_io::Memory;
use flow_graph::{Graph, Owned, owned_operations};
use std::alloc::Global;

/// How many calls nest below a function, where they nest less deep than there are functions.
fn depth_below(
    alloc: Global,
    operations: &[Owned],
    count: u32,
    function: u32,
) -> Result<u32, Memory>
    requires function { function < count }
    requires within { AreWithin operations.now count function }
    ensures { IfOk result (λ depth. IsDeepest operations.now function depth) }
{
    let mut level = lone(alloc, count, function)?;
    for depth in 0..count {
        let next = called(alloc, operations, level.as_slice(), count)?;
        if !some_marked(next.as_slice()) {
            return Ok(depth);
        }
        level = next;
    }
    Ok(count)
}

/// How many calls nest below `main`: the greatest number of calls of which each is made while the one before it goes on. It fails
/// only for want of memory, and takes time in proportion to the operations times that number.
pub fn call_depth(alloc: Global, g: &Graph) -> Result<u32, Memory>
    requires rules { IsGraph g.now }
    requires functions { length g.now.functions < 2 ^ 32 }
    ensures { IfOk result (λ depth. IsDeepest (operations g.now) g.now.main depth) }
{
    let operations = owned_operations(alloc, g)?;
    let count = g.functions.as_slice().len() as u32;
    depth_below(alloc, operations.as_slice(), count, g.main)
}
