//! A point inside code.

ghost use Rattle.std.specs.Prelude.{◌≡◌, ◌≤◌, ◌*◌, ◌++◌, ◌∷◌, [], map, OnOk};
ghost use Rattle.certificate.specs.Rows.{point_of};
ghost use Rattle.op_cost.specs.Templates.{code_of};
ghost use Rattle.cert_pieces.specs.Pieces.{address_in};
ghost use Rattle.cert_templates.specs.Frames.{loop_at, plain_at, ranging};
ghost use Rattle.emit_certs.specs.Timed.{code_in};
ghost use Rattle.emit_certs.specs.Framed.{IsFramed, loop_of, point_in};

use crate::code::Timed;
use crate::weighing::{behind, bytes, cost, first, weight};
use base_io::Memory;
use board_table::Board;
use certificate::{Affine, Fact, PointRow, Slot, Term};
use std::alloc::Global;

/// Code that stands at an address, in a stretch, by the address of its head, that has spent so much before it.
#[derive(Clone, Copy)]
pub struct Frame<'a> {
    pub board: &'a Board,
    pub code: &'a [Timed],
    pub at: u16,
    pub stretch: u16,
    pub spent: u64,
}

/// A loop inside code: the number of its first instruction, how many it has, its turns, and the register that counts those that are left.
#[derive(Clone, Copy)]
pub struct Turning {
    pub first: usize,
    pub instructions: usize,
    pub turns: u8,
    pub counter: u8,
}

/// The value of a register lies between these.
pub fn ranging(register: u8, least: u64, greatest: u64) -> Fact
    ensures { result ≡ ranging register least greatest }
{
    Fact {
        of: Slot::Reg(register),
        least,
        greatest,
        even: false,
    }
}

// The address of the instruction of this number.
#[tactic(auto, using(crate::proofs::Framing::address_is, crate::proofs::Framing::bytes_take))]
fn address_at(frame: &Frame, index: usize) -> u16
    requires framed { IsFramed frame.now }
    ensures { result ≡ address_in frame.now.at (code_of (code_in frame.now.code.now)) index }
{
    frame.at + bytes(first(frame.code, index))
}

fn push(row: PointRow, to: &mut Vec<PointRow>) -> Result<(), Memory>
    ensures { OnOk result (map point_of to.new.items ≡ map point_of to.old.items ++ point_of row ∷ []) }
{
    match to.push(row) {
        Ok(()) => Ok(()),
        Err(_) => Err(Memory),
    }
}

// Appends the point on the instruction of this number.
fn put_point(
    alloc: Global,
    frame: &Frame,
    index: usize,
    spent: u64,
    terms: Vec<Term>,
    facts: &[Fact],
    to: &mut Vec<PointRow>,
) -> Result<(), Memory>
    requires framed { IsFramed frame.now }
    requires low { spent ≤ 1000000000000 }
    ensures { OnOk result (map point_of to.new.items ≡ map point_of to.old.items
        ++ point_in frame.now (record { index = index; spent = spent; terms = terms.items; facts = facts.now }) ∷ []) }
{
    let Ok(facts) = Vec::from_slice(alloc, facts) else {
        return Err(Memory);
    };
    let row = PointRow {
        address: address_at(frame, index),
        stretch: frame.stretch,
        spent: Affine {
            base: (frame.spent + spent) as i64,
            terms,
        },
        facts,
        fresh: Vec::new(alloc),
    };
    push(row, to)
}

/// Appends the point before the instruction of this number, all before it counted whole.
#[tactic(auto, using(crate::proofs::Framing::code_take))]
pub fn put_plain(
    alloc: Global,
    frame: &Frame,
    index: usize,
    facts: &[Fact],
    to: &mut Vec<PointRow>,
) -> Result<(), Memory>
    requires framed { IsFramed frame.now }
    ensures { OnOk result (map point_of to.new.items ≡ map point_of to.old.items ++ point_in frame.now (plain_at frame.now.board.now (code_in frame.now.code.now) index facts.now) ∷ []) }
{
    let spent = weight(frame.board, first(frame.code, index));
    put_point(alloc, frame, index, spent, Vec::new(alloc), facts, to)
}

#[tactic(auto, using(crate::proofs::Framing::turns_small))]
fn all_turns(turns: u8, turn: u64) -> u64
    requires small { turn ≤ 672000000 }
    ensures cost { result ≡ turns * turn }
    ensures low { result ≤ 171360000000 }
{
    u64::from(turns) * turn
}

/// Appends the point in a loop before the instruction of this number: each turn that is left takes its cost off.
#[tactic(auto, using(crate::proofs::Framing::code_take, crate::proofs::Framing::code_drop))]
pub fn put_in_loop(
    alloc: Global,
    frame: &Frame,
    turning: &Turning,
    index: usize,
    facts: &[Fact],
    to: &mut Vec<PointRow>,
) -> Result<(), Memory>
    requires framed { IsFramed frame.now }
    requires inside { turning.now.first ≤ index }
    ensures { OnOk result (map point_of to.new.items ≡ map point_of to.old.items
        ++ point_in frame.now (loop_at frame.now.board.now (code_in frame.now.code.now) (loop_of turning.now) index facts.now) ∷ []) }
{
    let from = behind(frame.code, turning.first);
    let turn = cost(frame.board, first(from, turning.instructions));
    let before = weight(frame.board, first(frame.code, turning.first));
    let inside = cost(frame.board, first(from, index - turning.first));
    let spent = before + all_turns(turning.turns, turn) + inside;
    let mut terms = Vec::new(alloc);
    let term = Term {
        minus: true,
        factor: turn,
        of: Slot::Reg(turning.counter),
    };
    if terms.push(term).is_err() {
        return Err(Memory);
    }
    put_point(alloc, frame, index, spent, terms, facts, to)
}
