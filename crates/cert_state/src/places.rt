//! Where the operands of an instruction are, as far as that is known.
ghost use Rattle.std.specs.Prelude.{◌≡◌, ◌≤◌};
ghost use Rattle.cert_rules.specs.Effects.{is_always as is_always_lem};
ghost use Rattle.cert_rules.specs.Places.{changed_by as changed_by_lem, cost_of as cost_of_lem, destination_place as destination_place_lem, in_memory as in_memory_lem, is_certain as is_certain_lem, lies as lies_lem, may_be_destination as may_be_destination_lem, may_change as may_change_lem, may_move_to as may_move_to_lem, may_read as may_read_lem, offset_by as offset_by_lem, one_address as one_address_lem, one_written as one_written_lem, operand_of as operand_of_lem, read_by as read_by_lem, source_place as source_place_lem};
ghost use Rattle.msp430_machine.specs.Addresses.{region};
ghost use Rattle.msp430_machine.specs.Views.{operand_of as operand_shown};
ghost use Rattle.cert_state.specs.Views.{known_of, place_of, ranged, reach_of};
ghost use Rattle.cert_state.specs.Costs.{IsAsCostly};

use crate::range::Range;
use crate::ranges::known_even;
use crate::reach::{Place, Reach};
use crate::slots::Spot;
use crate::state::State;
use board_table::Board;
use msp430_isa::{Cond, Dst, Instr, OneOp, Src, TwoOp};
use msp430_machine::{Operand, cost_by};

// A word of the call stack.
const STACK_WORD: u16 = 0x7FFE;

/// One address.
pub fn one_address(a: u16) -> Reach
    ensures { reach_of result ≡ one_address_lem a }
{
    Reach {
        least: u32::from(a),
        greatest: u32::from(a),
        even: a % 2 == 0,
    }
}

/// Whether a reach is one address.
pub fn is_certain(p: Reach) -> bool
    ensures { result ≡ is_certain_lem (reach_of p) }
{
    p.least == p.greatest
}

fn offset_by(x: u16, r: Range) -> Reach
    ensures { reach_of result ≡ offset_by_lem x (ranged r) }
{
    let least = u32::from(r.least) + u32::from(x);
    let even = if r.least == r.greatest {
        least % 2 == 0
    } else {
        known_even(r) && x % 2 == 0
    };
    Reach {
        least,
        greatest: u32::from(r.greatest) + u32::from(x),
        even,
    }
}

/// Where a source is.
pub fn source_place(s: &State, src: Src) -> Place
    ensures { place_of result ≡ source_place_lem (known_of s.now) src }
{
    match src {
        Src::Reg(r) => Place::InReg(r),
        Src::Index(r, x) => Place::InReach(offset_by(x, s.range_of(Spot::Reg(r)))),
        Src::Abs(a) => Place::InReach(one_address(a)),
        Src::At(_) | Src::AtPlus(_) => Place::InReach(one_address(STACK_WORD)),
        Src::Imm(v) | Src::Short(v) => Place::Number(v),
    }
}

/// Where a destination is.
pub fn destination_place(s: &State, dst: Dst) -> Place
    ensures { place_of result ≡ destination_place_lem (known_of s.now) dst }
{
    match dst {
        Dst::Reg(r) => Place::InReg(r),
        Dst::Index(r, x) => Place::InReach(offset_by(x, s.range_of(Spot::Reg(r)))),
        Dst::Abs(a) => Place::InReach(one_address(a)),
    }
}

// ---- What may be read and written

fn lies(least: u32, greatest: u32, p: Reach) -> bool
    ensures { result ≡ lies_lem least greatest (reach_of p) }
{
    least <= p.least && p.greatest <= greatest
}

fn in_memory(p: Reach) -> bool
    ensures { result ≡ in_memory_lem (reach_of p) }
{
    lies(0x4400, 0x7EFF, p) || lies(0x1C00, 0x23FF, p)
}

/// Whether each address may be read.
pub fn may_read(p: Reach) -> bool
    ensures { result ≡ may_read_lem (reach_of p) }
{
    p.even && (in_memory(p) || lies(0x0F00, 0x0F01, p))
}

fn may_change(p: Reach) -> bool
    ensures { result ≡ may_change_lem (reach_of p) }
{
    p.even && in_memory(p)
}

/// Whether each address may be written by MOV.
pub fn may_move_to(p: Reach) -> bool
    ensures { result ≡ may_move_to_lem (reach_of p) }
{
    p.even && (in_memory(p) || lies(0x0F02, 0x0F07, p))
}

/// Whether each address may be an operation's destination.
pub fn may_be_destination(op: TwoOp, p: Reach) -> bool
    ensures { result ≡ may_be_destination_lem op (reach_of p) }
{
    match op {
        TwoOp::Mov => may_move_to(p),
        _ => may_change(p),
    }
}

// ---- What an instruction costs

/// A word's address in the same memory.
pub fn nearest(a: u32) -> u16
    ensures { region result ≡ region a }
{
    if a <= 65535 { a as u16 } else { 65535 }
}

fn operand_of(p: Place) -> Operand
    ensures { IsAsCostly (operand_shown result) (operand_of_lem (place_of p)) }
{
    match p {
        Place::Number(v) => Operand::Constant(v),
        Place::InReg(r) => Operand::InRegister(r),
        Place::InReach(reach) => Operand::InMemory(nearest(reach.least)),
    }
}

fn one_written(op: OneOp, p: Place) -> Operand
    ensures { IsAsCostly (operand_shown result) (one_written_lem op (place_of p)) }
{
    match op {
        OneOp::Call => Operand::InMemory(STACK_WORD),
        _ => operand_of(p),
    }
}

fn read_by(s: &State, i: Instr) -> Operand
    ensures { IsAsCostly (operand_shown result) (read_by_lem (known_of s.now) i) }
{
    match i {
        Instr::Two { src, .. } | Instr::One { src, .. } => operand_of(source_place(s, src)),
        Instr::Jump { .. } => Operand::Constant(0),
    }
}

fn changed_by(s: &State, i: Instr) -> Operand
    ensures { IsAsCostly (operand_shown result) (changed_by_lem (known_of s.now) i) }
{
    match i {
        Instr::Two { dst, .. } => operand_of(destination_place(s, dst)),
        Instr::One { op, src, .. } => one_written(op, source_place(s, src)),
        Instr::Jump { .. } => Operand::Constant(0),
    }
}

/// What an instruction costs, in energy units.
pub fn cost_of(b: &Board, s: &State, i: Instr) -> u64
    ensures value { result ≡ cost_of_lem b.now (known_of s.now) i }
    ensures small { result ≤ 7000000 }
{
    cost_by(b, i, read_by(s, i), changed_by(s, i))
}

/// The condition that always holds.
pub fn is_always(on: Cond) -> bool
    ensures { result ≡ is_always_lem on }
{
    match on {
        Cond::Jmp => true,
        _ => false,
    }
}
