//! A copy of an array, as one step.
ghost use Rattle.std.specs.Prelude.{◌≡◌, ◌*◌, ◌≤◌, IfOk};
ghost use Rattle.cert_rules.specs.Copies.{copied as copied_lem, copied_from as copied_from_lem, copied_to as copied_to_lem, copy_cost as copy_cost_lem, copy_fault as copy_fault_lem, copy_places_fault as copy_places_fault_lem, copy_turn as copy_turn_lem};
ghost use Rattle.cert_rules.specs.Places as rules_places;
ghost use Rattle.cert_state.specs.Shown.{shown_fault};
ghost use Rattle.cert_state.specs.Views.{known_of, place_of, reach_of};
ghost use Rattle.cert_sweep.specs.Views.{copy_shown, sheet_of};

use crate::accesses::{fresh_faults, move_fault, read_fault, writes_fault};
use crate::array::Copied;
use crate::sheet::Sheet;
use base_io::Memory;
use board_table::Board;
use cert_state::{Fault, Hit, Place, Reach, Spot, State, just, nearest};
use msp430_isa::{Dst, Instr, Src, TwoOp};
use msp430_machine::{Operand, cost_by};
use std::alloc::Global;

fn reach_from(index: u16, words: u16) -> Reach
    requires { words ≤ 32767 }
    ensures { reach_of result ≡ copied_from_lem (record { words = words; source = index; target = 0 }) }
{
    let first = u32::from(index);
    Reach {
        least: first + 2,
        greatest: first + 2 * u32::from(words),
        even: index % 2 == 0,
    }
}

fn places_fault(a: u16, c: Copied) -> Option<Fault>
    ensures { shown_fault result ≡ copy_places_fault_lem a (copy_shown c) }
{
    match read_fault(a, Place::InReach(reach_from(c.source, c.words))) {
        Some(fault) => Some(fault),
        None => move_fault(a, Place::InReach(reach_from(c.target, c.words))),
    }
}

/// The rules on what a copy reads and writes.
pub fn copy_fault(t: &Sheet<'_>, a: u16, s: &State, c: Copied) -> Option<Fault>
    ensures { shown_fault result ≡ copy_fault_lem (sheet_of t.now) a (known_of s.now) (copy_shown c) }
{
    let from = Place::InReach(reach_from(c.source, c.words));
    let to = copied_to(c);
    if let Some(fault) = places_fault(a, c) {
        return Some(fault);
    }
    if let Some(fault) = fresh_faults(a, s, false, from, to) {
        return Some(fault);
    }
    if let Some(fault) = writes_fault(a, t.flat(), true, to) {
        return Some(fault);
    }
    None
}

/// Where a copy writes.
pub fn copied_to(c: Copied) -> Place
    ensures { place_of result ≡ rules_places.InReach (copied_to_lem (copy_shown c)) }
{
    Place::InReach(reach_from(c.target, c.words))
}

// A turn of the loop.
fn copy_turn(b: &Board, c: Copied) -> u64
    ensures value { result ≡ copy_turn_lem b.now (copy_shown c) }
    ensures small { result ≤ 10000000 }
{
    let moving = Instr::Two {
        op: TwoOp::Mov,
        byte: false,
        src: Src::Abs(0),
        dst: Dst::Abs(0),
    };
    let from = Operand::InMemory(nearest(u32::from(c.source) + 2));
    let to = Operand::InMemory(nearest(u32::from(c.target) + 2));
    let counting = b.core.alu + b.access.fetch;
    cost_by(b, moving, from, to) + counting + (b.core.jump + b.access.fetch)
}

fn turns_cost(b: &Board, c: Copied) -> u64
    ensures value { result ≡ c.words * copy_turn_lem b.now (copy_shown c) }
    ensures small { result ≤ 327670000000 }
{
    u64::from(c.words) * copy_turn(b, c)
}

fn copy_cost(b: &Board, c: Copied) -> u64
    ensures { result ≡ copy_cost_lem b.now (copy_shown c) }
{
    b.core.move_ + 2 * b.access.fetch + turns_cost(b, c)
}

/// What is known behind a copy.
pub fn copied(alloc: Global, b: &Board, c: Copied, s: &mut State) -> Result<(), Memory>
    ensures { IfOk result (λ _. known_of s.new ≡ copied_lem b.now (copy_shown c) (known_of s.old)) }
{
    let to = reach_from(c.target, c.words);
    s.pay(copy_cost(b, c))?;
    s.settle(alloc, &Hit::One(Spot::Reg(15)))?;
    s.give(alloc, Spot::Reg(15), just(0))?;
    s.forget(alloc, &Hit::Words(to.least, to.greatest))?;
    s.freshen(to.least, to.greatest)?;
    s.flags = true;
    Ok(())
}
