//! The forms of instructions that a checked image may have.
ghost use Rattle.std.specs.Prelude.{◌≡◌, false};
ghost use Rattle.cert_rules.specs.Forms.{call as call_lem, goes_on as goes_on_lem, is_form as is_form_lem, is_general as is_general_lem, is_pc as is_pc_lem, is_plain_destination as is_plain_destination_lem, is_plain_source as is_plain_source_lem, is_used as is_used_lem, kind_of as kind_of_lem, leap as leap_lem, one_form as one_form_lem};
ghost use Rattle.cert_sweep.specs.Views.{kind_shown};

use cert_state::is_move;
use msp430_isa::{Cond, Dst, Instr, OneOp, Src, TwoOp};

fn is_general(r: u8) -> bool
    ensures { result ≡ is_general_lem r }
{
    4 <= r && r <= 15
}

fn is_used(op: TwoOp) -> bool
    ensures { result ≡ is_used_lem op }
{
    match op {
        TwoOp::Bic | TwoOp::Subc => false,
        _ => true,
    }
}

fn is_plain_source(src: Src) -> bool
    ensures { result ≡ is_plain_source_lem src }
{
    match src {
        Src::Reg(r) | Src::Index(r, _) => is_general(r),
        Src::Abs(_) | Src::Imm(_) | Src::Short(_) => true,
        Src::At(_) | Src::AtPlus(_) => false,
    }
}

fn is_plain_destination(dst: Dst) -> bool
    ensures { result ≡ is_plain_destination_lem dst }
{
    match dst {
        Dst::Reg(r) | Dst::Index(r, _) => is_general(r),
        Dst::Abs(_) => true,
    }
}

// MOV #t,PC and MOV @SP+,PC
fn goes_on(src: Src) -> bool
    ensures { result ≡ goes_on_lem src }
{
    match src {
        Src::Imm(_) => true,
        Src::AtPlus(r) => r == 1,
        _ => false,
    }
}

fn is_pc(dst: Dst) -> bool
    ensures { result ≡ is_pc_lem dst }
{
    match dst {
        Dst::Reg(r) => r == 0,
        _ => false,
    }
}

fn one_form(op: OneOp, src: Src) -> bool
    ensures { result ≡ one_form_lem op src }
{
    match src {
        Src::Reg(r) => match op {
            OneOp::Rra | OneOp::Sxt => is_general(r),
            _ => false,
        },
        Src::Imm(_) => match op {
            OneOp::Call => true,
            _ => false,
        },
        _ => false,
    }
}

fn two_form(op: TwoOp, src: Src, dst: Dst) -> bool
    ensures { result ≡ is_form_lem (Instr.Two op false src dst) }
{
    if is_pc(dst) {
        is_move(op) && goes_on(src)
    } else {
        is_used(op) && is_plain_source(src) && is_plain_destination(dst)
    }
}

/// Whether a checked image may have the instruction.
pub fn is_form(i: Instr) -> bool
    ensures { result ≡ is_form_lem i }
{
    match i {
        Instr::Two { op, byte, src, dst } => !byte && two_form(op, src, dst),
        Instr::One { op, byte, src } => !byte && one_form(op, src),
        Instr::Jump { .. } => true,
    }
}

/// How the code goes on behind an instruction of a form.
#[derive(Clone, Copy)]
pub enum Kind {
    Computes,
    /// A jump of so many words.
    Branches(Cond, i16),
    /// A branch to an address.
    Leaps(u16),
    /// A call of the function at an address.
    Calls(u16),
    Returns,
}

fn leap(src: Src) -> Kind
    ensures { kind_shown result ≡ leap_lem src }
{
    match src {
        Src::Imm(target) => Kind::Leaps(target),
        _ => Kind::Returns,
    }
}

fn call(src: Src) -> Kind
    ensures { kind_shown result ≡ call_lem src }
{
    match src {
        Src::Imm(target) => Kind::Calls(target),
        _ => Kind::Computes,
    }
}

/// How the code goes on behind an instruction of a form.
pub fn kind_of(i: Instr) -> Kind
    ensures { kind_shown result ≡ kind_of_lem i }
{
    match i {
        Instr::Two { src, dst, .. } => {
            if is_pc(dst) {
                leap(src)
            } else {
                Kind::Computes
            }
        }
        Instr::One { src, .. } => call(src),
        Instr::Jump { on, words } => Kind::Branches(on, words),
    }
}
