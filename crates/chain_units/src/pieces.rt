//! A chain as a list of pieces, and its cheapest plan.

ghost use Rattle.std.specs.Prelude.{◌≡◌, ◌<◌, ◌≤◌, ◌+◌, ◌-◌, ◌*◌, ◌^◌, ◌++◌, ◌∷◌, [], ℕ, IfOk, OnOk, length, take, drop};
ghost use Rattle.std.specs.List.{AllByRecursion};
ghost use Rattle.chain_plans.specs.Plans.{IsBestPlan};
ghost use Rattle.chain_plans.specs.Weights.{IsTable};
ghost use Rattle.chain_units.specs.Known.{told_weights, nothing};
ghost use Rattle.chain_units.specs.Pieces.{AreRows, FitsAlone, IsRow, pieces_costs, pieces_first, pieces_weighed};
ghost use Rattle.chain_units.specs.Wanted.{IsWeightOf};

use crate::knowledge::Knowledge;
use crate::sums::add;
use crate::weighing::{Behind, Frame, weigh};
use base_io::Memory;
use chain_plans::{Stretch, least_plan};
use item_weights::Weights;
use loop_checkpoints::LoopWeight;
use std::alloc::Global;

/// A unit of a chain: the operation executed first in it, whose values are wanted behind it, the objects that its flat
/// functions touch, and its weights.
#[derive(Debug, Drop)]
pub struct Piece {
    pub first: u32,
    pub behind: Behind,
    pub touched: Vec<u32>,
    pub weights: Weights,
}

/// Words of SRAM for the objects of a stretch.
const ROOM: u32 = 1024;

/// The operation executed first in pieces, 0 where there are none.
pub fn first_of(pieces: &[Piece]) -> u32
    ensures { result ≡ pieces_first pieces.now }
{
    match pieces {
        [] => 0,
        [piece, ..] => piece.first,
    }
}

/// Puts objects behind others.
pub fn put_all(objects: &mut Vec<u32>, more: &[u32]) -> Result<(), Memory>
    ensures { OnOk result (objects.new.items ≡ objects.old.items ++ more.now) }
{
    match objects.extend_from_slice(more) {
        Ok(()) => Ok(()),
        Err(_) => Err(Memory),
    }
}

/// Puts a weight behind the others.
fn put_weight(row: &mut Vec<LoopWeight>, weight: LoopWeight) -> Result<(), Memory>
    ensures { OnOk result (row.new.items ≡ row.old.items ++ weight ∷ []) }
{
    match row.push(weight) {
        Ok(()) => Ok(()),
        Err(_) => Err(Memory),
    }
}

/// The weights of the stretches that begin with the first piece.
fn row_of<K: Knowledge>(alloc: Global, k: &K, pieces: &[Piece]) -> Result<Vec<LoopWeight>, Memory>
    ensures { IfOk result (λ row. IsRow (K.known k.now) row.items pieces.now) }
{
    let overhead = k.overhead();
    let first = first_of(pieces);
    let mut sum = Weights {
        base: 0,
        uses: Vec::new(alloc),
    };
    let mut barred = Vec::new(alloc);
    let mut row = Vec::new(alloc);
    for piece in pieces {
        add(&mut sum, &piece.weights)?;
        put_all(&mut barred, &piece.touched)?;
        let frame = Frame {
            once: overhead,
            each_turn: 0,
            first,
            behind: piece.behind,
        };
        let weight = weigh(alloc, k, frame, &barred, &sum)?;
        put_weight(&mut row, weight)?;
    }
    Ok(row)
}

/// Puts a row behind the others.
fn put_row(rows: &mut Vec<Vec<LoopWeight>>, row: Vec<LoopWeight>) -> Result<(), Memory>
    ensures { OnOk result (rows.new.items ≡ rows.old.items ++ row ∷ []) }
{
    match rows.push(row) {
        Ok(()) => Ok(()),
        Err(_) => Err(Memory),
    }
}

/// The weights of all stretches, row by row.
fn rows_of<K: Knowledge>(
    alloc: Global,
    k: &K,
    pieces: &[Piece],
) -> Result<Vec<Vec<LoopWeight>>, Memory>
    ensures { IfOk result (λ rows. AreRows (K.known k.now) rows.items pieces.now) }
{
    let mut rows = Vec::new(alloc);
    let mut left = pieces;
    while let [_piece, behind @ ..] = left {
        let row = row_of(alloc, k, left)?;
        put_row(&mut rows, row)?;
        left = behind;
    }
    Ok(rows)
}

/// The cheapest plan of a plain chain, over all cuts into stretches and all sets of objects in SRAM.
pub fn plan_pieces<K: Knowledge>(
    alloc: Global,
    k: &K,
    pieces: &[Piece],
) -> Result<Vec<Stretch>, Memory>
    requires few { length pieces.now ≤ 32 }
    requires alone { AllByRecursion (FitsAlone (K.known k.now)) pieces.now }
    ensures { IfOk result (λ stretches. IsBestPlan (pieces_costs (K.known k.now) pieces.now) 1024 (K.known k.now).board.budget (length pieces.now) stretches.items) }
{
    let board = k.board();
    let rows = rows_of(alloc, k, pieces)?;
    least_plan(alloc, &rows, ROOM, board.budget)
}
