//! Whether one charge pays for each operation.

ghost use Rattle.std.specs.Prelude.{◌≡◌, ◌<◌, MatchResult, Some, length, slice_get};
ghost use Rattle.checkpoint_graph.specs.Placings.{AllFit, IsFaultOf};

use crate::placing::PlanFault;
use board_table::Board;
use flow_graph::Owned;
use op_cost::{fits, need};

fn operation_at(operations: &[Owned], at: usize) -> &Owned
    requires { at < length operations.now }
    ensures { slice_get operations.now at ≡ Some result.now }
{
    &operations[at]
}

/// Looks for the first operation that doesn't fit.
pub fn all_fit(operations: &[Owned], b: &Board) -> Result<(), PlanFault>
    ensures { MatchResult result (λ done. AllFit b.now operations.now) (λ fault. IsFaultOf b.now operations.now fault) }
{
    for at in 0..operations.len() {
        let x = operation_at(operations, at);
        if !fits(&x.node.op, b) {
            return Err(PlanFault::BudgetTooSmall {
                op: x.node.op.kind,
                place: x.node.op.place,
                need: need(&x.node.op, b),
                budget: b.budget,
            });
        }
    }
    Ok(())
}
