//! Whether one charge pays for each operation, and for all of them.

ghost use Rattle.std.specs.Prelude.{◌≡◌, ◌≤◌, ◌+◌, nat_le, length, MatchOption};
ghost use Rattle.op_cost.specs.Weights.{need as need_lem, overhead as overhead_lem};
ghost use Rattle.each_image.specs.Each.{all_weights};
ghost use Rattle.emit_each.specs.Emitting.{AllFit, IsFirstMisfit};

use crate::fault::EmitFault;
use crate::lists::first_and_rest;
use board_table::Board;
use flow_graph::{Node, Op};
use op_cost::{fits, need, overhead};

/// The first operation for which one charge doesn't pay.
pub fn first_misfit(nodes: &[Node], b: &Board) -> Option<Op>
    ensures { MatchOption result (AllFit b.now nodes.now) (λ op. IsFirstMisfit b.now nodes.now op) }
{
    let mut left = nodes;
    while let Some((node, rest)) = first_and_rest(left) {
        if !fits(&node.op, b) {
            return Some(node.op);
        }
        left = rest;
    }
    None
}

/// The fault of an operation for which one charge doesn't pay.
pub fn too_small(op: &Op, b: &Board) -> EmitFault
    ensures { result ≡ EmitFault.BudgetTooSmall op.now.kind op.now.place (need_lem b.now op.now) b.now.budget }
{
    EmitFault::BudgetTooSmall {
        op: op.kind,
        place: op.place,
        need: need(op, b),
        budget: b.budget,
    }
}

/// Whether one charge pays for all operations, a wake and a sleep.
pub fn all_fit(nodes: &[Node], b: &Board) -> bool
    requires few { length nodes.now ≤ 4096 }
    ensures { result ≡ nat_le (all_weights b.now nodes.now + overhead_lem b.now) b.now.budget }
{
    let around = overhead(b);
    let mut spent = around;
    let mut left = nodes;
    while let Some((node, rest)) = first_and_rest(left) {
        spent += need(&node.op, b) - around;
        left = rest;
    }
    spent <= b.budget
}
