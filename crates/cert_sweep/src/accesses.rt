//! The rules on what an instruction reads and writes.
ghost use Rattle.std.specs.Prelude.{◌≡◌, false};
ghost use Rattle.std.specs.Option.{option_map};
ghost use Rattle.certificate.specs.Rows.{flat_of};
ghost use Rattle.cert_rules.specs.Accesses.{access_faults as access_faults_lem, destination_register as destination_register_lem, flags_fault as flags_fault_lem, fresh_faults as fresh_faults_lem, is_kept as is_kept_lem, keep_fault as keep_fault_lem, keep_fault_of as keep_fault_of_lem, needs_carry as needs_carry_lem, places_fault as places_fault_lem, reach_fault as reach_fault_lem, set_fault as set_fault_lem, sets_fault as sets_fault_lem, source_register as source_register_lem, two_fault as two_fault_lem, word_of_reach as word_of_reach_lem, writes_fault as writes_fault_lem};
ghost use Rattle.cert_rules.specs.Places.{may_be_destination as may_be_destination_lem, may_move_to as may_move_to_lem, may_read as may_read_lem};
ghost use Rattle.cert_state.specs.Shown.{shown_fault};
ghost use Rattle.cert_state.specs.Views.{known_of, place_of, sought as sought_lem};
ghost use Rattle.cert_sweep.specs.Views.{sheet_of};

use crate::sheet::Sheet;
use cert_rules::Rule;
use cert_state::{
    Fault, Place, Sought, State, destination_place, first_in, is_always, is_move,
    may_be_destination, may_move_to, may_read, reads_destination, source_place, unless,
    unless_none, writes_destination,
};
use certificate::FlatPart;
use msp430_isa::{Dst, Instr, Src, TwoOp};

// ---- What is set

fn set_fault(a: u16, s: &State, r: Option<u8>) -> Option<Fault>
    ensures { shown_fault result ≡ set_fault_lem a (known_of s.now) r }
{
    match r {
        None => None,
        Some(r) => unless(s.is_set(r), Rule::Set, a, i128::from(r), 0),
    }
}

fn source_register(src: Src) -> Option<u8>
    ensures { result ≡ source_register_lem src }
{
    match src {
        Src::Reg(r) | Src::Index(r, _) => Some(r),
        _ => None,
    }
}

fn destination_register(op: TwoOp, dst: Dst) -> Option<u8>
    ensures { result ≡ destination_register_lem op dst }
{
    match dst {
        Dst::Reg(r) => { if is_move(op) { None } else { Some(r) } }
        Dst::Index(r, _) => Some(r),
        Dst::Abs(_) => None,
    }
}

fn needs_carry(op: TwoOp) -> bool
    ensures { result ≡ needs_carry_lem op }
{
    match op {
        TwoOp::Addc => true,
        _ => false,
    }
}

fn flags_fault(a: u16, s: &State, needed: bool) -> Option<Fault>
    ensures { shown_fault result ≡ flags_fault_lem a (known_of s.now) needed }
{
    unless(!needed || s.flags, Rule::Set, a, 2, 0)
}

fn two_set_fault(a: u16, s: &State, op: TwoOp, src: Src, dst: Dst) -> Option<Fault>
    ensures { shown_fault result ≡ sets_fault_lem a (known_of s.now) (Instr.Two op false src dst) }
{
    if let Some(fault) = set_fault(a, s, source_register(src)) {
        return Some(fault);
    }
    if let Some(fault) = set_fault(a, s, destination_register(op, dst)) {
        return Some(fault);
    }
    if let Some(fault) = flags_fault(a, s, needs_carry(op)) {
        return Some(fault);
    }
    None
}

/// Whether the registers and flags that an instruction reads are set.
pub fn sets_fault(a: u16, s: &State, i: Instr) -> Option<Fault>
    ensures { shown_fault result ≡ sets_fault_lem a (known_of s.now) i }
{
    match i {
        Instr::Two { op, src, dst, .. } => two_set_fault(a, s, op, src, dst),
        Instr::One { src, .. } => set_fault(a, s, source_register(src)),
        Instr::Jump { on, .. } => flags_fault(a, s, !is_always(on)),
    }
}

// ---- Where operands are

/// Whether each address that a place may be may be read.
pub fn read_fault(a: u16, p: Place) -> Option<Fault>
    ensures { shown_fault result ≡ reach_fault_lem a may_read_lem (place_of p) }
{
    match p {
        Place::Number(_) | Place::InReg(_) => None,
        Place::InReach(reach) => unless(
            may_read(reach),
            Rule::Place,
            a,
            i128::from(reach.least),
            i128::from(reach.greatest),
        ),
    }
}

/// Whether each address that a place may be may be moved to.
pub fn move_fault(a: u16, p: Place) -> Option<Fault>
    ensures { shown_fault result ≡ reach_fault_lem a may_move_to_lem (place_of p) }
{
    match p {
        Place::Number(_) | Place::InReg(_) => None,
        Place::InReach(reach) => unless(
            may_move_to(reach),
            Rule::Place,
            a,
            i128::from(reach.least),
            i128::from(reach.greatest),
        ),
    }
}

fn destination_fault(a: u16, op: TwoOp, p: Place) -> Option<Fault>
    ensures { shown_fault result ≡ reach_fault_lem a (may_be_destination_lem op) (place_of p) }
{
    match p {
        Place::Number(_) | Place::InReg(_) => None,
        Place::InReach(reach) => unless(
            may_be_destination(op, reach),
            Rule::Place,
            a,
            i128::from(reach.least),
            i128::from(reach.greatest),
        ),
    }
}

fn places_fault(a: u16, op: TwoOp, src: Place, dst: Place) -> Option<Fault>
    ensures { shown_fault result ≡ places_fault_lem a op (place_of src) (place_of dst) }
{
    match read_fault(a, src) {
        Some(fault) => Some(fault),
        None => destination_fault(a, op, dst),
    }
}

// ---- What was written, and what may be

// The first word of a place that is one of these.
fn word_of(sought: &Sought<'_>, p: Place) -> Option<u32>
    ensures { result ≡ word_of_reach_lem (sought_lem sought.now) (place_of p) }
{
    match p {
        Place::Number(_) | Place::InReg(_) => None,
        Place::InReach(reach) => first_in(sought, reach.least, reach.greatest),
    }
}

/// Whether the words that are read were written.
pub fn fresh_faults(a: u16, s: &State, reads: bool, src: Place, dst: Place) -> Option<Fault>
    ensures { shown_fault result ≡ fresh_faults_lem a (known_of s.now) reads (place_of src) (place_of dst) }
{
    let stale = Sought::Stale(&s.fresh);
    if let Some(fault) = unless_none(word_of(&stale, src), Rule::Fresh, a) {
        return Some(fault);
    }
    let read = if reads { word_of(&stale, dst) } else { None };
    unless_none(read, Rule::Fresh, a)
}

/// Whether a function without heads names the words that it writes.
pub fn writes_fault(a: u16, flat: Option<&FlatPart>, writes: bool, dst: Place) -> Option<Fault>
    ensures { shown_fault result ≡ writes_fault_lem a (option_map (λ f. flat_of f.now) flat.entry) writes (place_of dst) }
{
    let flat = flat?;
    let unnamed = Sought::Unnamed(&flat.writes);
    let written = if writes { word_of(&unnamed, dst) } else { None };
    unless_none(written, Rule::Writes, a)
}

fn is_kept(r: u8) -> bool
    ensures { result ≡ is_kept_lem r }
{
    4 <= r && r <= 10
}

fn keep_fault_of(a: u16, p: Place) -> Option<Fault>
    ensures { shown_fault result ≡ keep_fault_of_lem a (place_of p) }
{
    match p {
        Place::InReg(r) => unless(!is_kept(r), Rule::Keep, a, i128::from(r), 0),
        Place::Number(_) | Place::InReach(_) => None,
    }
}

fn keep_fault(a: u16, flat: Option<&FlatPart>, writes: bool, dst: Place) -> Option<Fault>
    ensures { shown_fault result ≡ keep_fault_lem a (option_map (λ f. flat_of f.now) flat.entry) writes (place_of dst) }
{
    match flat {
        None => None,
        Some(_) => { if writes { keep_fault_of(a, dst) } else { None } }
    }
}

fn two_fault(t: &Sheet<'_>, a: u16, s: &State, op: TwoOp, src: Place, dst: Place) -> Option<Fault>
    ensures { shown_fault result ≡ two_fault_lem (sheet_of t.now) a (known_of s.now) op (place_of src) (place_of dst) }
{
    if let Some(fault) = places_fault(a, op, src, dst) {
        return Some(fault);
    }
    if let Some(fault) = fresh_faults(a, s, reads_destination(op), src, dst) {
        return Some(fault);
    }
    if let Some(fault) = writes_fault(a, t.flat(), writes_destination(op), dst) {
        return Some(fault);
    }
    if let Some(fault) = keep_fault(a, t.flat(), writes_destination(op), dst) {
        return Some(fault);
    }
    None
}

/// The rules on what an instruction that only computes reads and writes.
pub fn access_faults(t: &Sheet<'_>, a: u16, s: &State, i: Instr) -> Option<Fault>
    ensures { shown_fault result ≡ access_faults_lem (sheet_of t.now) a (known_of s.now) i }
{
    match i {
        Instr::Two { op, src, dst, .. } => two_fault(
            t,
            a,
            s,
            op,
            source_place(s, src),
            destination_place(s, dst),
        ),
        Instr::One { src, .. } => keep_fault(a, t.flat(), true, source_place(s, src)),
        Instr::Jump { .. } => None,
    }
}
