//! The rules before an instruction's own: that it is come to, what a loop's counter begins with, and its form.
ghost use Rattle.std.specs.Prelude.{◌≡◌, ◌*◌, ◌≤◌, ◌&&◌, Option, false, is_some, option_map};
ghost use Rattle.certificate.specs.Rows.{point_of};
ghost use Rattle.cert_rules.specs.Tables.{row_at};
ghost use Rattle.cert_rules.specs.Shapes.{counter_of as counter_of_lem, counter_source as counter_source_lem, form_fault as form_fault_lem, gap_fault as gap_fault_lem, turns_at as turns_at_lem, turns_at_point as turns_at_point_lem, turns_fault as turns_fault_lem, turns_of_stretch as turns_of_stretch_lem};
ghost use Rattle.cert_state.specs.Shown.{shown_fault};
ghost use Rattle.cert_rules.specs.Forms.{is_form as is_form_lem};
ghost use Rattle.cert_rules.specs.Known.{Known};
ghost use Rattle.cert_rules.specs.Sheet.{fits_here, holds_words};
ghost use Rattle.msp430_isa.specs.Encoding.{length_of as length_of_lem};
ghost use Rattle.cert_sweep.specs.Views.{points_in, sheet_of, standing_shown};

use crate::forms::is_form;
use crate::sheet::Sheet;
use crate::standing::Standing;
use cert_rules::Rule;
use cert_state::{Fault, shown, unless};
use certificate::{PointRow, StretchRow};
use msp430_isa::{Dst, Instr, Src, TwoOp, length_of};

/// Whether the code comes to so many bytes, and no point stands inside them.
pub fn gap_fault(t: &Sheet<'_>, a: u16, bytes: u8, comes: bool) -> Option<Fault>
    requires { 1 ≤ bytes }
    ensures { (incoming : Option Known) → comes ≡ is_some incoming → shown_fault result ≡ gap_fault_lem (sheet_of t.now) a bytes incoming }
{
    let holds = comes && !t.any_point(u32::from(a) + 1, bytes - 1);
    unless(holds, Rule::Gap, a, i128::from(a), 0)
}

// The first point of a stretch.
fn first_point<'a>(points: &'a [PointRow], stretch: u16) -> Option<&'a PointRow>
    ensures { option_map (λ p. point_of p.now) result ≡ row_at (λ p. p.stretch) (points_in points.now) stretch }
{
    let mut rest = points;
    while let [first, after @ ..] = rest {
        if first.stretch == stretch {
            return Some(first);
        }
        rest = after;
    }
    None
}

fn turns_of(t: &Sheet<'_>, a: u32, s: Option<StretchRow>, p: Option<&PointRow>) -> Option<u64>
    ensures { result ≡ turns_of_stretch_lem (sheet_of t.now) a s (option_map (λ q. point_of q.now) p.entry) }
{
    let s = s?;
    let p = p?;
    if s.turns != 0 && u32::from(p.address) == a {
        Some(s.turns)
    } else {
        None
    }
}

fn turns_at_point(t: &Sheet<'_>, a: u32, p: Option<&PointRow>) -> Option<u64>
    ensures { result ≡ turns_at_point_lem (sheet_of t.now) a (option_map (λ q. point_of q.now) p.entry) }
{
    let p = p?;
    let stretch = t.head_at(u32::from(p.stretch));
    turns_of(t, a, stretch, first_point(t.points.as_slice(), p.stretch))
}

/// The number of turns that a loop whose first point stands here begins with.
pub fn turns_at(t: &Sheet<'_>, a: u32) -> Option<u64>
    ensures { result ≡ turns_at_lem (sheet_of t.now) a }
{
    turns_at_point(t, a, t.point_at(a))
}

fn counter_source(src: Src) -> u16
    ensures { result ≡ counter_source_lem src }
{
    match src {
        Src::Imm(n) => n,
        _ => 0,
    }
}

fn counter_moved(src: Src, dst: Dst) -> u16
    ensures { result ≡ counter_of_lem (standing_shown (Standing.AnInstruction (Instr.Two TwoOp.Mov false src dst))) }
{
    match dst {
        Dst::Reg(r) => { if r == 10 { counter_source(src) } else { 0 } }
        _ => 0,
    }
}

fn counter_two(op: TwoOp, byte: bool, src: Src, dst: Dst) -> u16
    ensures { result ≡ counter_of_lem (standing_shown (Standing.AnInstruction (Instr.Two op byte src dst))) }
{
    match op {
        TwoOp::Mov => { if byte { 0 } else { counter_moved(src, dst) } }
        _ => 0,
    }
}

/// The number that MOV #n,R10 gives, and 0 for all else.
pub fn counter_of(s: Standing) -> u16
    ensures { result ≡ counter_of_lem (standing_shown s) }
{
    match s {
        Standing::AnInstruction(Instr::Two { op, byte, src, dst }) => {
            counter_two(op, byte, src, dst)
        }
        Standing::AnInstruction(Instr::One { .. } | Instr::Jump { .. }) => 0,
        Standing::ACopy(_) | Standing::Nothing => 0,
    }
}

/// Whether a loop's counter begins with its number of turns.
pub fn turns_fault(a: u16, found: u16, turns: Option<u64>) -> Option<Fault>
    ensures { shown_fault result ≡ turns_fault_lem a found turns }
{
    match turns {
        None => None,
        Some(n) => unless(
            u64::from(found) == n,
            Rule::Turns,
            a,
            i128::from(found),
            i128::from(n),
        ),
    }
}

fn has_form(t: &Sheet<'_>, a: u16, i: Instr) -> bool
    ensures { result ≡ (fits_here (sheet_of t.now) a (2 * length_of_lem i) && holds_words (sheet_of t.now) a (length_of_lem i) && is_form_lem i) }
{
    let words = length_of(i);
    t.fits_here(u32::from(a), 2 * u32::from(words))
        && t.holds_words(u32::from(a), words)
        && is_form(i)
}

/// Whether an instruction of a form, or a copy, stands here whole.
pub fn form_fault(t: &Sheet<'_>, a: u16, s: Standing) -> Option<Fault>
    ensures { shown_fault result ≡ form_fault_lem (sheet_of t.now) a (standing_shown s) }
{
    let holds = match s {
        Standing::ACopy(_) => true,
        Standing::AnInstruction(i) => has_form(t, a, i),
        Standing::Nothing => false,
    };
    unless(holds, Rule::Form, a, shown(t.word(u32::from(a))), 0)
}
