//! Conditional loops: those that checkpoint every so many turns.

ghost use Rattle.std.specs.Prelude.{◌≡◌, IfOk, IfSome, MatchOption, true, false};
ghost use Rattle.std.specs.Option.{option_map};
ghost use Rattle.flow_graph.specs.declared.graph.Op.{Op};
ghost use Rattle.flow_graph.specs.Nodes.{first_of, laid_items};
ghost use Rattle.chain_units.specs.Known.{told_weights};
ghost use Rattle.chain_units.specs.Costs.{one_turn_fits, touched_in_all};
ghost use Rattle.chain_units.specs.Marks.{is_conditional, turn_of, turning_of};
ghost use Rattle.chain_units.specs.Parts.{IsConditional};
ghost use Rattle.chain_units.specs.Planned.{IsGreatest};
ghost use Rattle.chain_units.specs.Sums.{Rises};

use crate::cutting::{Greatest, Turning};
use crate::knowledge::Knowledge;
use crate::pieces::{Piece, put_all};
use crate::turning::plan_turning;
use crate::weighing::Behind;
use base_io::Memory;
use flow_graph::{Item, Op};
use item_weights::Weights;
use loop_checkpoints::LoopPlan;
use std::alloc::Global;

/// The turns of a loop whose turn begins with one operation, and behind which another is executed; none where one turn
/// doesn't fit.
fn turning_at<K: Knowledge>(
    alloc: Global,
    k: &K,
    top: u32,
    behind: u32,
    touched: &[u32],
    weights: &Weights,
) -> Result<Option<Greatest>, Memory>
    requires { Rises weights.now.uses.items }
    ensures fits { IfOk result (λ found. MatchOption found (one_turn_fits (turning_of (K.known k.now) touched.now top behind (told_weights weights.now)) 1024 (K.known k.now).board.budget ≡ false) (λ t. one_turn_fits (turning_of (K.known k.now) touched.now top behind (told_weights weights.now)) 1024 (K.known k.now).board.budget ≡ true)) }
    ensures greatest { IfOk result (λ found. IfSome found (λ t. IsGreatest (turning_of (K.known k.now) touched.now top behind (told_weights weights.now)) 1024 (K.known k.now).board.budget t.turns t.homes.items t.cost)) }
{
    let plan = plan_turning(alloc, k, top, behind, touched, weights)?;
    match plan {
        LoopPlan::Split => Ok(None),
        LoopPlan::Every { turns, homes, cost } => Ok(Some(Greatest { turns, homes, cost })),
    }
}

/// The loop with its turn, where there are turns.
fn with_turn(turn: Piece, found: Option<Greatest>) -> Option<Turning>
    ensures { result ≡ option_map (λ g. record { turn = turn; greatest = g }) found }
{
    match found {
        None => None,
        Some(greatest) => Some(Turning { turn, greatest }),
    }
}

/// The objects that flat functions called in a turn touch.
fn turn_touched<K: Knowledge>(
    alloc: Global,
    k: &K,
    pre: &[Item],
    post: &[Item],
    step: &[Item],
) -> Result<Vec<u32>, Memory>
    ensures { IfOk result (λ touched. (test : Op) → touched.items ≡ touched_in_all (K.known k.now) (turn_of pre.now test post.now step.now)) }
{
    let mut touched = k.touched(alloc, pre)?;
    let in_post = k.touched(alloc, post)?;
    let in_step = k.touched(alloc, step)?;
    put_all(&mut touched, &in_post)?;
    put_all(&mut touched, &in_step)?;
    Ok(touched)
}

/// The turns between two checkpoints of a loop, behind which an operation is executed, with its best set of objects; none
/// where its turn has no weight or doesn't fit.
pub fn conditional<K: Knowledge>(
    alloc: Global,
    k: &K,
    pre: &[Item],
    test: &Op,
    post: &[Item],
    step: &[Item],
    behind: u32,
) -> Result<Option<Turning>, Memory>
    ensures { IfOk result (λ found. MatchOption found (is_conditional (K.known k.now) (turn_of pre.now test.now post.now step.now) (first_of (laid_items pre.now) test.now.number) behind ≡ false) (IsConditional (K.known k.now) pre.now test.now post.now step.now behind)) }
{
    let found = k.turn_weights(alloc, pre, test, post, step)?;
    match found {
        None => Ok(None),
        Some(weights) => {
            let touched = turn_touched(alloc, k, pre, post, step)?;
            let top = k.first_of(pre, test.number);
            let greatest = turning_at(alloc, k, top, behind, &touched, &weights)?;
            let turn = Piece {
                first: top,
                behind: Behind::BeforeEither(top, behind),
                touched,
                weights,
            };
            Ok(with_turn(turn, greatest))
        }
    }
}
