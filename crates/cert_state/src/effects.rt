//! What is known behind an instruction.
ghost use Rattle.std.specs.Prelude.{◌≡◌, IfOk, option_map};
ghost use Rattle.cert_rules.specs.Effects.{called as called_lem, computed as computed_lem, computed_one as computed_one_lem, computed_two as computed_two_lem, if_ordered as if_ordered_lem, leaves_flags as leaves_flags_lem, narrowed as narrowed_lem, on_edge as on_edge_lem, range_after as range_after_lem, source_range as source_range_lem, spent_after, test_of as test_of_lem, test_of_held as test_of_held_lem, with_result as with_result_lem, with_written as with_written_lem};
ghost use Rattle.certificate.specs.Rows.{flat_of};
ghost use Rattle.cert_rules.specs.Places as rules_places;
ghost use Rattle.cert_state.specs.Spots.{slot_at};
ghost use Rattle.cert_state.specs.Views.{known_of, narrowing_of, place_of, ranged, test_of as test_shown};

use crate::hits::Hit;
use crate::ops::writes_destination;
use crate::places::{cost_of, destination_place, is_certain, source_place};
use crate::range::Range;
use crate::ranges::{
    any_word, apart, below, doubled, equal, falls, from, just, lowered, raised, rises,
};
use crate::reach::Place;
use crate::slots::{Spot, held_slot, is_held, is_register, spot_of};
use crate::state::{State, Test};
use base_io::Memory;
use board_table::Board;
use certificate::FlatPart;
use msp430_isa::{Cond, Instr, TwoOp};
use msp430_machine::IN;
use std::alloc::Global;

// ---- Values

fn source_range(s: &State, p: Place) -> Range
    ensures { ranged result ≡ source_range_lem (known_of s.now) (place_of p) }
{
    match p {
        Place::Number(v) => just(v),
        Place::InReg(r) => s.range_of(Spot::Reg(r)),
        Place::InReach(reach) => {
            if is_certain(reach) && reach.least != u32::from(IN) {
                s.range_of(Spot::Word(reach.least))
            } else {
                any_word()
            }
        }
    }
}

fn added_range(s: &State, src: Place, w: Spot) -> Range
    ensures { ranged result ≡ range_after_lem (known_of s.now) TwoOp.Add (place_of src) (slot_at w) }
{
    match src {
        Place::Number(c) => raised(s.range_of(w), c),
        Place::InReg(r) => {
            if is_register(r, w) {
                doubled(s.range_of(w))
            } else {
                any_word()
            }
        }
        Place::InReach(_) => any_word(),
    }
}

// The range of a destination behind an operation.
fn range_after(s: &State, op: TwoOp, src: Place, w: Spot) -> Range
    ensures { ranged result ≡ range_after_lem (known_of s.now) op (place_of src) (slot_at w) }
{
    match (op, src) {
        (TwoOp::Mov, _) => source_range(s, src),
        (TwoOp::Add, _) => added_range(s, src, w),
        (TwoOp::Sub, Place::Number(c)) => lowered(s.range_of(w), c),
        (TwoOp::And, Place::Number(m)) => Range {
            least: 0,
            greatest: m,
            even: false,
        },
        _ => any_word(),
    }
}

// What is spent, told by the destination's new value.
fn spend_after(alloc: Global, s: &mut State, op: TwoOp, src: Place, w: Spot) -> Result<(), Memory>
    ensures { IfOk result (λ _. known_of s.new ≡ record (known_of s.old) { spent = spent_after (known_of s.old) op (place_of src) (slot_at w) }) }
{
    match (op, src) {
        (TwoOp::Add, Place::Number(c)) => {
            if rises(s.range_of(w), c) {
                s.raise(alloc, w, c)?;
            } else {
                s.settle(alloc, &Hit::One(w))?;
            }
            Ok(())
        }
        (TwoOp::Sub, Place::Number(c)) => {
            if falls(s.range_of(w), c) {
                s.lower(alloc, w, c)?;
            } else {
                s.settle(alloc, &Hit::One(w))?;
            }
            Ok(())
        }
        _ => {
            s.settle(alloc, &Hit::One(w))?;
            Ok(())
        }
    }
}

// ---- Instructions that only compute

fn write(alloc: Global, s: &mut State, op: TwoOp, src: Place, w: Spot) -> Result<(), Memory>
    ensures { IfOk result (λ _. known_of s.new ≡ with_written_lem op (place_of src) (slot_at w) (known_of s.old)) }
{
    let range = range_after(s, op, src, w);
    spend_after(alloc, s, op, src, w)?;
    s.give(alloc, w, range)?;
    Ok(())
}

// A word at one certain address has a value and is fresh; else all words that may be hit are forgotten.
fn put_result(alloc: Global, s: &mut State, op: TwoOp, src: Place, dst: Place) -> Result<(), Memory>
    ensures { IfOk result (λ _. known_of s.new ≡ with_result_lem op (place_of src) (place_of dst) (known_of s.old)) }
{
    match dst {
        Place::Number(_) => Ok(()),
        Place::InReg(r) => {
            write(alloc, s, op, src, Spot::Reg(r))?;
            Ok(())
        }
        Place::InReach(p) => {
            if is_certain(p) {
                write(alloc, s, op, src, Spot::Word(p.least))?;
                s.freshen(p.least, p.least)?;
            } else {
                s.forget(alloc, &Hit::Words(p.least, p.greatest))?;
            }
            Ok(())
        }
    }
}

fn leaves_flags(op: TwoOp) -> bool
    ensures { result ≡ leaves_flags_lem op }
{
    match op {
        TwoOp::Mov | TwoOp::Bis | TwoOp::Bic => false,
        _ => true,
    }
}

fn test_of_slot(op: TwoOp, c: u16, w: Spot) -> Option<Test>
    ensures { option_map test_shown result ≡ test_of_held_lem op c (slot_at w) }
{
    if !is_held(w) {
        return None;
    }
    match op {
        TwoOp::Cmp => Some(Test {
            of: held_slot(w),
            with: c,
            ordered: true,
        }),
        TwoOp::Sub => Some(Test {
            of: held_slot(w),
            with: 0,
            ordered: false,
        }),
        _ => None,
    }
}

// What the flags tell.
fn test_of(op: TwoOp, src: Place, dst: Place) -> Option<Test>
    ensures { option_map test_shown result ≡ test_of_lem op (place_of src) (place_of dst) }
{
    match (src, dst) {
        (Place::Number(c), Place::InReg(r)) => test_of_slot(op, c, Spot::Reg(r)),
        (Place::Number(c), Place::InReach(p)) => {
            if is_certain(p) {
                test_of_slot(op, c, Spot::Word(p.least))
            } else {
                None
            }
        }
        _ => None,
    }
}

fn compute_two(
    alloc: Global,
    s: &mut State,
    op: TwoOp,
    src: Place,
    dst: Place,
) -> Result<(), Memory>
    ensures { IfOk result (λ _. known_of s.new ≡ computed_two_lem op (place_of src) (place_of dst) (known_of s.old)) }
{
    let flags = leaves_flags(op) || s.flags;
    if writes_destination(op) {
        put_result(alloc, s, op, src, dst)?;
    }
    s.flag(flags, test_of(op, src, dst));
    Ok(())
}

// A register has any value, and the flags are left.
fn compute_register(alloc: Global, s: &mut State, r: u8) -> Result<(), Memory>
    ensures { IfOk result (λ _. known_of s.new ≡ computed_one_lem (rules_places.InReg r) (known_of s.old)) }
{
    s.settle(alloc, &Hit::One(Spot::Reg(r)))?;
    s.give(alloc, Spot::Reg(r), any_word())?;
    s.flags = true;
    Ok(())
}

// RRA and SXT
fn compute_one(alloc: Global, s: &mut State, p: Place) -> Result<(), Memory>
    ensures { IfOk result (λ _. known_of s.new ≡ computed_one_lem (place_of p) (known_of s.old)) }
{
    match p {
        Place::InReg(r) => {
            compute_register(alloc, s, r)?;
            Ok(())
        }
        Place::Number(_) | Place::InReach(_) => Ok(()),
    }
}

/// What is known behind an instruction that only computes.
pub fn compute(alloc: Global, b: &Board, s: &mut State, i: Instr) -> Result<(), Memory>
    ensures { IfOk result (λ _. known_of s.new ≡ computed_lem b.now i (known_of s.old)) }
{
    match i {
        Instr::Two { op, src, dst, .. } => {
            let from = source_place(s, src);
            let to = destination_place(s, dst);
            s.pay(cost_of(b, s, i))?;
            compute_two(alloc, s, op, from, to)?;
            Ok(())
        }
        Instr::One { src, .. } => {
            let place = source_place(s, src);
            s.pay(cost_of(b, s, i))?;
            compute_one(alloc, s, place)?;
            Ok(())
        }
        Instr::Jump { .. } => Ok(()),
    }
}

// ---- Conditional jumps

/// How a test narrows a range, where it does.
#[derive(Clone, Copy)]
pub enum Narrowing {
    Stays,
    To(Option<Range>),
}

fn if_ordered(ordered: bool, range: Option<Range>) -> Narrowing
    ensures { narrowing_of result ≡ if_ordered_lem ordered (option_map ranged range) }
{
    if ordered {
        Narrowing::To(range)
    } else {
        Narrowing::Stays
    }
}

fn narrowed(on: Cond, taken: bool, t: Test, r: Range) -> Narrowing
    ensures { narrowing_of result ≡ narrowed_lem on taken (test_shown t) (ranged r) }
{
    match (on, taken) {
        (Cond::Jnc, true) | (Cond::Jc, false) => if_ordered(t.ordered, below(t.with, r)),
        (Cond::Jnc, false) | (Cond::Jc, true) => if_ordered(t.ordered, from(t.with, r)),
        (Cond::Jeq, true) | (Cond::Jne, false) => Narrowing::To(equal(t.with, r)),
        (Cond::Jeq, false) | (Cond::Jne, true) => Narrowing::To(apart(t.with, r)),
        _ => Narrowing::Stays,
    }
}

/// What is known on the edge that is taken, or on the one that isn't; none where no value is left.
pub fn on_edge(
    alloc: Global,
    on: Cond,
    taken: bool,
    test: Option<Test>,
    s: &State,
) -> Result<Option<State>, Memory>
    ensures { IfOk result (λ edge. option_map known_of edge ≡ on_edge_lem on taken (option_map test_shown test) (known_of s.now)) }
{
    let Some(t) = test else {
        return Ok(Some(s.copy(alloc)?));
    };
    match narrowed(on, taken, t, s.range_of(spot_of(t.of))) {
        Narrowing::Stays => Ok(Some(s.copy(alloc)?)),
        Narrowing::To(None) => Ok(None),
        Narrowing::To(Some(range)) => {
            let mut edge = s.copy(alloc)?;
            edge.give(alloc, spot_of(t.of), range)?;
            Ok(Some(edge))
        }
    }
}

/// A call of a function without heads, behind the call itself: R11 to R15 and the flags are lost, and its words may have
/// changed.
pub fn call(alloc: Global, s: &mut State, f: &FlatPart) -> Result<(), Memory>
    ensures { IfOk result (λ _. known_of s.new ≡ called_lem (flat_of f.now) (known_of s.old)) }
{
    s.pay(f.cost)?;
    s.forget(alloc, &Hit::Lost(f))?;
    s.flags = false;
    Ok(())
}
