//! How the code goes on behind an instruction.
ghost use Rattle.std.specs.Prelude.{◌≡◌, ◌<◌, IfOk, Some};
ghost use Rattle.std.specs.Option.{option_map};
ghost use Rattle.certificate.specs.Rows.{flat_of as flat_of_row};
ghost use Rattle.cert_rules.specs.Known.{with_cost};
ghost use Rattle.cert_rules.specs.Outcomes.{always_ends as always_ends_lem, call_outcome as call_outcome_lem, computed_outcome as computed_outcome_lem, falls_only as falls_only_lem, may_end as may_end_lem, outcome_of as outcome_of_lem, target_of as target_of_lem};
ghost use Rattle.cert_rules.specs.Places.{cost_of as cost_of_lem};
ghost use Rattle.cert_state.specs.Views.{known_of, place_of, test_of};
ghost use Rattle.cert_sweep.specs.Views.{branched, kind_shown, outcome_shown, sheet_of};

use crate::calls::flat_of;
use crate::forms::Kind;
use crate::sheet::Sheet;
use base_io::Memory;
use board_table::Board;
use cert_state::{
    Place, Sought, State, Test, call, compute, cost_of, destination_place, first_in, is_always,
    on_edge, writes_destination,
};
use certificate::FlatPart;
use msp430_isa::{Cond, Instr};
use std::alloc::Global;

/// It falls on, or jumps to a target, or both, each with what is known there; it ends the program; it returns; or it calls
/// a function that begins with a head, and goes on at the head behind the call.
#[derive(Drop)]
pub enum Outcome {
    Goes(Option<State>, Option<State>, u32),
    Ends(State),
    Leaves(State),
    Enters(State),
}

/// It falls on.
pub fn falls_only(s: State) -> Outcome
    ensures { outcome_shown result ≡ falls_only_lem (known_of s) }
{
    Outcome::Goes(Some(s), None, 0)
}

// Whether each address that may be written is END or TRAP.
fn always_ends(p: Place) -> bool
    ensures { result ≡ always_ends_lem (place_of p) }
{
    match p {
        Place::Number(_) | Place::InReg(_) => false,
        Place::InReach(reach) => first_in(&Sought::NoEnd, reach.least, reach.greatest).is_none(),
    }
}

/// It falls on, or ends the program where all that it may write does.
pub fn may_end(writes: bool, dst: Place, s: State) -> Outcome
    ensures { outcome_shown result ≡ may_end_lem writes (place_of dst) (known_of s) }
{
    if writes && always_ends(dst) {
        Outcome::Ends(s)
    } else {
        Outcome::Goes(Some(s), None, 0)
    }
}

fn computed_outcome(alloc: Global, b: &Board, s: State, i: Instr) -> Result<Outcome, Memory>
    ensures { IfOk result (λ o. outcome_shown o ≡ computed_outcome_lem b.now (known_of s) i) }
{
    let mut s = s;
    match i {
        Instr::Two { op, dst, .. } => {
            let place = destination_place(&s, dst);
            compute(alloc, b, &mut s, i)?;
            Ok(may_end(writes_destination(op), place, s))
        }
        Instr::One { .. } => {
            compute(alloc, b, &mut s, i)?;
            Ok(Outcome::Goes(Some(s), None, 0))
        }
        Instr::Jump { .. } => Ok(Outcome::Goes(Some(s), None, 0)),
    }
}

// Where a jump goes, without wrapping.
fn target_of(next: u32, words: i16) -> u32
    requires { next < 1048576 }
    ensures { result ≡ target_of_lem next words }
{
    if words >= 0 {
        next + 2 * words as u32
    } else {
        next.saturating_sub(2 * (-(words as i32)) as u32)
    }
}

fn branch_outcome(
    alloc: Global,
    on: Cond,
    target: u32,
    test: Option<Test>,
    s: State,
) -> Result<Outcome, Memory>
    ensures { IfOk result (λ o. outcome_shown o ≡ branched on target (option_map test_of test) (known_of s)) }
{
    if is_always(on) {
        return Ok(Outcome::Goes(None, Some(s), target));
    }
    let falls = on_edge(alloc, on, false, test, &s)?;
    let jumps = on_edge(alloc, on, true, test, &s)?;
    Ok(Outcome::Goes(falls, jumps, target))
}

fn call_flat(alloc: Global, f: &FlatPart, s: State) -> Result<Outcome, Memory>
    ensures { IfOk result (λ o. outcome_shown o ≡ call_outcome_lem (Some (flat_of_row f.now)) (known_of s)) }
{
    let mut s = s;
    call(alloc, &mut s, f)?;
    Ok(falls_only(s))
}

fn call_outcome(alloc: Global, callee: Option<&FlatPart>, s: State) -> Result<Outcome, Memory>
    ensures { IfOk result (λ o. outcome_shown o ≡ call_outcome_lem (option_map (λ f. flat_of_row f.now) callee.entry) (known_of s)) }
{
    match callee {
        None => Ok(Outcome::Enters(s)),
        Some(f) => {
            let outcome = call_flat(alloc, f, s)?;
            Ok(outcome)
        }
    }
}

/// How the code goes on behind an instruction of a form that ends at `next`.
pub fn outcome_of(
    alloc: Global,
    t: &Sheet<'_>,
    next: u32,
    s: State,
    i: Instr,
    kind: Kind,
) -> Result<Outcome, Memory>
    requires { next < 1048576 }
    ensures { IfOk result (λ o. outcome_shown o ≡ outcome_of_lem (sheet_of t.now) next (known_of s) i (kind_shown kind)) }
{
    match kind {
        Kind::Computes => {
            let outcome = computed_outcome(alloc, t.board, s, i)?;
            Ok(outcome)
        }
        Kind::Branches(on, words) => {
            let test = s.test;
            let s = paid(t, s, i)?;
            let outcome = branch_outcome(alloc, on, target_of(next, words), test, s)?;
            Ok(outcome)
        }
        Kind::Leaps(target) => {
            let s = paid(t, s, i)?;
            Ok(Outcome::Goes(None, Some(s), u32::from(target)))
        }
        Kind::Calls(target) => {
            let s = paid(t, s, i)?;
            let callee = t.function_at(u32::from(target));
            let outcome = call_outcome(alloc, flat_of(callee), s)?;
            Ok(outcome)
        }
        Kind::Returns => {
            let s = paid(t, s, i)?;
            Ok(Outcome::Leaves(s))
        }
    }
}

// An instruction is paid for.
fn paid(t: &Sheet<'_>, s: State, i: Instr) -> Result<State, Memory>
    ensures { IfOk result (λ new. known_of new ≡ with_cost (cost_of_lem (sheet_of t.now).board (known_of s) i) (known_of s)) }
{
    let mut s = s;
    s.pay(cost_of(t.board, &s, i))?;
    Ok(s)
}
