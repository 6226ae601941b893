//! What planning asks of a graph on a board.

ghost use Rattle.checkpoint_graph.specs.Knowing.{known_of};

use crate::touched::put_touched;
use crate::turn::{op_weights, turn_weights, weights_of};
use base_io::Memory;
use board_table::Board;
use call_summary::Summary;
use chain_units::Knowledge;
use flow_graph::{Graph, Item, Op, first};
use item_weights::Weights;
use live_objects::Liveness;
use op_cost::overhead;
use std::alloc::Global;

/// A graph on a board, with its liveness and the summaries of its functions; what those that are flat cost, which objects
/// are arrays, and the number of objects.
#[derive(Clone, Copy)]
pub struct GraphOnBoard<'a> {
    pub graph: &'a Graph,
    pub live: &'a Liveness,
    pub summaries: &'a [Summary],
    pub costs: &'a [Option<u64>],
    pub arrays: &'a [bool],
    pub objects: u32,
    pub board: Board,
}

impl<'a> Knowledge for GraphOnBoard<'a> {
    ghost known = { known_of };

    fn board(&self) -> Board {
        self.board
    }

    fn overhead(&self) -> u64 {
        overhead(&self.board)
    }

    fn before(&self, op: u32, object: u32) -> bool {
        self.live.before(op, object)
    }

    fn after(&self, op: u32, object: u32) -> bool {
        self.live.after(op, object)
    }

    fn words(&self, object: u32) -> u16 {
        match self.graph.objects.as_slice().get(object as usize) {
            None => 0,
            Some(found) => found.words,
        }
    }

    fn is_array(&self, object: u32) -> bool {
        self.arrays.get(object as usize).copied().unwrap_or(false)
    }

    fn is_flat(&self, function: u32) -> bool {
        match self.summaries.get(function as usize) {
            Some(Summary::Flat { .. }) => true,
            _ => false,
        }
    }

    fn weights(&self, alloc: Global, items: &[Item]) -> Result<Option<Weights>, Memory> {
        weights_of(alloc, self, items)
    }

    fn turn_weights(
        &self,
        alloc: Global,
        pre: &[Item],
        test: &Op,
        post: &[Item],
        step: &[Item],
    ) -> Result<Option<Weights>, Memory> {
        turn_weights(alloc, self, pre, test, post, step)
    }

    fn op_weights(&self, alloc: Global, op: &Op) -> Result<Weights, Memory> {
        op_weights(alloc, self, op)
    }

    fn touched(&self, alloc: Global, items: &[Item]) -> Result<Vec<u32>, Memory> {
        let mut objects = Vec::new(alloc);
        put_touched(&mut objects, self, items)?;
        Ok(objects)
    }

    fn first_of(&self, items: &[Item], behind: u32) -> u32 {
        first(items, behind)
    }
}
