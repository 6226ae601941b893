//! The plan of a conditional loop.

ghost use Rattle.std.specs.Prelude.{◌≡◌, ◌<◌, ◌≤◌, ◌+◌, ◌*◌, ◌^◌, ◌↔◌, ℕ, IfOk};
ghost use Rattle.loop_checkpoints.specs.Plans.{IsSplit, WhereEvery};
ghost use Rattle.chain_units.specs.Known.{told_weights};
ghost use Rattle.chain_units.specs.Marks.{long_move, turning_of};
ghost use Rattle.chain_units.specs.Planned.{IsGreatest, NoTurnFits};
ghost use Rattle.chain_units.specs.Sums.{Rises};
ghost use Rattle.chain_units.specs.Wanted.{IsWeightOf};

use crate::knowledge::Knowledge;
use crate::weighing::{Behind, Frame, weigh};
use base_io::Memory;
use board_table::Board;
use item_weights::Weights;
use loop_checkpoints::{LoopPlan, LoopWeight, turns};
use std::alloc::Global;

/// Words of SRAM for the objects of a loop.
const ROOM: u32 = 1024;

/// MOV of a long constant to a register or to PC.
fn long_move(board: &Board) -> u64
    ensures value { result ≡ board.now.core.move_ + 2 * board.now.access.fetch }
    ensures limit { result ≤ 3000000 }
{
    board.core.move_ + 2 * board.access.fetch
}

/// What a turn of a loop costs beside its moves and its accesses.
pub fn turning_frame<K: Knowledge>(k: &K, first: u32, behind: Behind) -> Frame
    ensures { result ≡ record { once = (K.known k.now).overhead + 2 * long_move (K.known k.now); each_turn = (((K.known k.now).board.core.alu + (K.known k.now).board.core.jump) + 2 * (K.known k.now).board.access.fetch) + long_move (K.known k.now); first = first; behind = behind } }
{
    let board = k.board();
    let long = long_move(&board);
    Frame {
        once: k.overhead() + 2 * long,
        each_turn: board.core.alu + board.core.jump + 2 * board.access.fetch + long,
        first,
        behind,
    }
}

/// The weight of a loop whose turn begins with one operation, and behind which another is executed.
fn weight_of<K: Knowledge>(
    alloc: Global,
    k: &K,
    top: u32,
    behind: u32,
    touched: &[u32],
    weights: &Weights,
) -> Result<LoopWeight, Memory>
    ensures { IfOk result (λ w. IsWeightOf w (turning_of (K.known k.now) touched.now top behind (told_weights weights.now))) }
{
    let frame = turning_frame(k, top, Behind::BeforeEither(top, behind));
    weigh(alloc, k, frame, touched, weights)
}

/// The greatest number of turns that fit between two checkpoints of a loop, with a best set of objects for it, or none
/// where one turn doesn't fit.
pub fn plan_turning<K: Knowledge>(
    alloc: Global,
    k: &K,
    top: u32,
    behind: u32,
    touched: &[u32],
    weights: &Weights,
) -> Result<LoopPlan, Memory>
    requires { Rises weights.now.uses.items }
    ensures split { IfOk result (λ plan. IsSplit plan ↔ NoTurnFits (turning_of (K.known k.now) touched.now top behind (told_weights weights.now)) 1024 (K.known k.now).board.budget) }
    ensures every { IfOk result (λ plan. WhereEvery plan (IsGreatest (turning_of (K.known k.now) touched.now top behind (told_weights weights.now)) 1024 (K.known k.now).board.budget)) }
{
    let board = k.board();
    let weight = weight_of(alloc, k, top, behind, touched, weights)?;
    turns(alloc, &weight, ROOM, board.budget)
}
