//! All rules of one step of the sweep, in their order.
ghost use Rattle.std.specs.Prelude.{◌≡◌, true, IfOk};
ghost use Rattle.std.specs.Option.{option_map};
ghost use Rattle.cert_rules.specs.Going.{falls_with as falls_with_lem, going_fault as going_fault_lem};
ghost use Rattle.cert_rules.specs.Standing.{standing as standing_lem};
ghost use Rattle.cert_rules.specs.Copies.{copied as copied_lem, copied_to as copied_to_lem};
ghost use Rattle.cert_rules.specs.Outcomes.{may_end as may_end_lem};
ghost use Rattle.cert_rules.specs.Places as rules_places;
ghost use Rattle.cert_rules.specs.Steps.{known_fault as known_fault_lem, own_fault as own_fault_lem, own_fault_by as own_fault_by_lem, standing_fault as standing_fault_lem, step_fault as step_fault_lem, step_leaves as step_leaves_lem, step_outcome as step_outcome_lem};
ghost use Rattle.cert_state.specs.Shown.{shown_fault};
ghost use Rattle.cert_state.specs.Views.{known_of};
ghost use Rattle.cert_sweep.specs.Views.{copy_shown, kind_shown, outcome_shown, sheet_of, standing_shown};
ghost use Rattle.cert_sweep.specs.Stepping.{TakesStep, leaves_from};

use crate::accesses::{access_faults, sets_fault};
use crate::array::Copied;
use crate::calls::call_fault;
use crate::copies::{copied, copied_to, copy_fault};
use crate::forms::{Kind, kind_of};
use crate::going::{falls_with, going_fault};
use crate::outcomes::{Outcome, may_end, outcome_of};
use crate::shapes::{counter_of, form_fault, gap_fault, turns_at, turns_fault};
use crate::sheet::Sheet;
use crate::standing::{Standing, bytes_of, stands_at};
use base_io::Memory;
use cert_state::{Fault, State};
use msp430_isa::{Instr, length_of};
use std::alloc::Global;

fn copy_outcome(alloc: Global, t: &Sheet<'_>, c: Copied, s: State) -> Result<Outcome, Memory>
    ensures { IfOk result (λ o. outcome_shown o ≡ may_end_lem true (rules_places.InReach (copied_to_lem (copy_shown c))) (copied_lem (sheet_of t.now).board (copy_shown c) (known_of s))) }
{
    let mut s = s;
    copied(alloc, t.board, c, &mut s)?;
    let to = copied_to(c);
    let outcome = may_end(true, to, s);
    Ok(outcome)
}

fn step_outcome(
    alloc: Global,
    t: &Sheet<'_>,
    a: u16,
    s: State,
    found: Standing,
) -> Result<Outcome, Memory>
    ensures { IfOk result (λ o. outcome_shown o ≡ step_outcome_lem (sheet_of t.now) a (known_of s) (standing_shown found)) }
{
    match found {
        Standing::ACopy(c) => {
            let outcome = copy_outcome(alloc, t, c, s)?;
            Ok(outcome)
        }
        Standing::AnInstruction(i) => {
            let next = u32::from(a) + 2 * u32::from(length_of(i));
            let outcome = outcome_of(alloc, t, next, s, i, kind_of(i))?;
            Ok(outcome)
        }
        Standing::Nothing => Ok(Outcome::Ends(s)),
    }
}

fn own_fault_by(t: &Sheet<'_>, a: u16, s: &State, i: Instr, kind: Kind) -> Option<Fault>
    ensures { shown_fault result ≡ own_fault_by_lem (sheet_of t.now) a (known_of s.now) i (kind_shown kind) }
{
    if let Some(fault) = sets_fault(a, s, i) {
        return Some(fault);
    }
    match kind {
        Kind::Computes => access_faults(t, a, s, i),
        _ => call_fault(t, a, kind),
    }
}

fn own_fault(t: &Sheet<'_>, a: u16, s: &State, found: Standing) -> Option<Fault>
    ensures { shown_fault result ≡ own_fault_lem (sheet_of t.now) a (known_of s.now) (standing_shown found) }
{
    match found {
        Standing::ACopy(c) => copy_fault(t, a, s, c),
        Standing::AnInstruction(i) => own_fault_by(t, a, s, i, kind_of(i)),
        Standing::Nothing => None,
    }
}

/// What a step finds: the first rule that fails, or what is known behind it, where it falls on.
#[derive(Drop)]
pub enum Step {
    Breaks(Fault),
    Goes(Option<State>),
}

fn take_outcome(
    alloc: Global,
    t: &Sheet<'_>,
    stretch: u16,
    a: u16,
    next: u32,
    o: Outcome,
) -> Result<Step, Memory>
    ensures { IfOk result (λ step. TakesStep step (going_fault_lem (sheet_of t.now) stretch a next (outcome_shown o)) (falls_with_lem (outcome_shown o))) }
{
    match going_fault(alloc, t, stretch, a, next, &o)? {
        Some(fault) => Ok(Step::Breaks(fault)),
        None => Ok(Step::Goes(falls_with(o))),
    }
}

fn standing_step(
    alloc: Global,
    t: &Sheet<'_>,
    a: u16,
    s: State,
    found: Standing,
) -> Result<Step, Memory>
    ensures { IfOk result (λ step. TakesStep step (standing_fault_lem (sheet_of t.now) a (known_of s) (standing_shown found)) (falls_with_lem (step_outcome_lem (sheet_of t.now) a (known_of s) (standing_shown found)))) }
{
    if let Some(fault) = form_fault(t, a, found) {
        return Ok(Step::Breaks(fault));
    }
    if let Some(fault) = own_fault(t, a, &s, found) {
        return Ok(Step::Breaks(fault));
    }
    let stretch = s.stretch;
    let next = u32::from(a) + bytes_of(found);
    let outcome = step_outcome(alloc, t, a, s, found)?;
    let step = take_outcome(alloc, t, stretch, a, next, outcome)?;
    Ok(step)
}

// The rules on what stands at an address, with what comes to it.
fn known_step(
    alloc: Global,
    t: &Sheet<'_>,
    a: u16,
    incoming: Option<State>,
    found: Standing,
) -> Result<Step, Memory>
    ensures { IfOk result (λ step. TakesStep step (known_fault_lem (sheet_of t.now) a (option_map known_of incoming) (standing_shown found)) (leaves_from (sheet_of t.now) a (standing_shown found) (option_map known_of incoming))) }
{
    match incoming {
        None => Ok(Step::Goes(None)),
        Some(s) => {
            let step = standing_step(alloc, t, a, s, found)?;
            Ok(step)
        }
    }
}

/// All rules of the step at an address, with what comes to it.
pub fn take_rules(
    alloc: Global,
    t: &Sheet<'_>,
    a: u16,
    incoming: Option<State>,
    found: Standing,
) -> Result<Step, Memory>
    requires { standing_shown found ≡ standing_lem (sheet_of t.now) a }
    ensures { IfOk result (λ step. TakesStep step (step_fault_lem (sheet_of t.now) a (option_map known_of incoming)) (step_leaves_lem (sheet_of t.now) a (option_map known_of incoming))) }
{
    let bytes = bytes_of(found);
    if let Some(fault) = gap_fault(t, a, bytes as u8, incoming.is_some()) {
        return Ok(Step::Breaks(fault));
    }
    let turns = turns_at(t, u32::from(a) + bytes);
    if let Some(fault) = turns_fault(a, counter_of(found), turns) {
        return Ok(Step::Breaks(fault));
    }
    let step = known_step(alloc, t, a, incoming, found)?;
    Ok(step)
}
