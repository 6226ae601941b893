//! Chains out of marks.

ghost use Rattle.std.specs.Prelude.{◌≡◌, ◌++◌, ◌∷◌, [], ℕ, IfOk, OnOk, List, length};
ghost use Rattle.chain_units.specs.Placements.{HasClosed, HasJoined, StandsAlone};

use crate::pieces::Piece;
use base_io::Memory;
use std::alloc::Global;
use std::mem::replace;

/// The most turns between two checkpoints of a loop, the objects kept in SRAM meanwhile, and what these turns cost.
#[derive(Debug, Drop)]
pub struct Greatest {
    pub turns: u32,
    pub homes: Vec<u32>,
    pub cost: u64,
}

/// A conditional loop: a turn of it, and how many go between two checkpoints.
#[derive(Debug, Drop)]
pub struct Turning {
    pub turn: Piece,
    pub greatest: Greatest,
}

/// A chain.
#[derive(Debug, Drop)]
pub enum Run {
    Plain(Vec<Piece>),
    Alone(Turning),
}

/// Chains so far, and the pieces of the chain that is open.
#[derive(Debug, Drop)]
pub struct Placer {
    pub runs: Vec<Run>,
    pub pieces: Vec<Piece>,
}

/// The most pieces of a chain.
const MOST: usize = 32;

/// Puts a chain behind the others.
fn put_run(runs: &mut Vec<Run>, run: Run) -> Result<(), Memory>
    ensures { OnOk result (runs.new.items ≡ runs.old.items ++ run ∷ []) }
{
    match runs.push(run) {
        Ok(()) => Ok(()),
        Err(_) => Err(Memory),
    }
}

/// Puts a piece behind the others.
fn put_piece(pieces: &mut Vec<Piece>, piece: Piece) -> Result<(), Memory>
    ensures { OnOk result (pieces.new.items ≡ pieces.old.items ++ piece ∷ []) }
{
    match pieces.push(piece) {
        Ok(()) => Ok(()),
        Err(_) => Err(Memory),
    }
}

/// No chain yet.
pub fn begin(alloc: Global) -> Placer
    ensures runs { result.runs.items ≡ [] }
    ensures pieces { result.pieces.items ≡ [] }
{
    Placer {
        runs: Vec::new(alloc),
        pieces: Vec::new(alloc),
    }
}

/// The chain that is open closes.
pub fn close(alloc: Global, placer: &mut Placer) -> Result<(), Memory>
    ensures { OnOk result (HasClosed placer.old placer.new) }
{
    if placer.pieces.is_empty() {
        return Ok(());
    }
    let pieces = replace(&mut placer.pieces, Vec::new(alloc));
    put_run(&mut placer.runs, Run::Plain(pieces))
}

/// A piece joins the chain that is open, which closes where it has its most pieces then.
pub fn join(alloc: Global, placer: &mut Placer, piece: Piece) -> Result<(), Memory>
    ensures { OnOk result (HasJoined placer.old piece placer.new) }
{
    put_piece(&mut placer.pieces, piece)?;
    if placer.pieces.len() == MOST {
        close(alloc, placer)
    } else {
        Ok(())
    }
}

/// A loop is a chain by itself.
pub fn stand_alone(alloc: Global, placer: &mut Placer, turning: Turning) -> Result<(), Memory>
    ensures { OnOk result (StandsAlone placer.old turning placer.new) }
{
    close(alloc, placer)?;
    put_run(&mut placer.runs, Run::Alone(turning))
}
