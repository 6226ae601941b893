//! Which instructions the profile has.

ghost use Rattle.std.specs.Prelude.{◌≡◌, IsTrue};
ghost use Rattle.msp430_isa.specs.Profile.{is_base as is_base_lem, is_constant as is_constant_lem, is_source as is_source_lem, is_destination as is_destination_lem, guards_pc as guards_pc_lem, guards_sr as guards_sr_lem, guards_r3 as guards_r3_lem, increments_apart as increments_apart_lem, uses as uses_lem, guards_width as guards_width_lem, guards_numbers as guards_numbers_lem, guards_registers as guards_registers_lem, guards_stack as guards_stack_lem, guards_call as guards_call_lem, uses_sp as uses_sp_lem, allows_two as allows_two_lem, allows_one as allows_one_lem, is_allowed as is_allowed_lem, offset_fits as offset_fits_lem, numbers_fit as numbers_fit_lem, source_fits as source_fits_lem, destination_fits as destination_fits_lem, in_profile as in_profile_lem};

use crate::instr::{Dst, Instr, OneOp, Src, TwoOp};

/// Whether the device has the instruction, and its numbers are in their ranges (registers 0 to 15, jumps of -512 to 511
/// words, the six constants of the generators).
pub fn in_profile(i: &Instr) -> bool
    ensures { result ≡ in_profile_lem i.now }
{
    is_allowed(*i) && numbers_fit(*i)
}

pub(crate) fn is_allowed(i: Instr) -> bool
    ensures { result ≡ is_allowed_lem i }
{
    match i {
        Instr::Two { op, byte, src, dst } => allows_two(op, byte, src, dst),
        Instr::One { op, byte, src } => allows_one(op, byte, src),
        Instr::Jump { .. } => true,
    }
}

fn numbers_fit(i: Instr) -> bool
    ensures { result ≡ numbers_fit_lem i }
{
    match i {
        Instr::Two { src, dst, .. } => source_fits(src) && destination_fits(dst),
        Instr::One { src, .. } => source_fits(src),
        Instr::Jump { words, .. } => offset_fits(words),
    }
}

fn source_fits(src: Src) -> bool
    ensures { result ≡ source_fits_lem src }
{
    match src {
        Src::Index(_, word) | Src::Abs(word) | Src::Imm(word) => is_word(word),
        Src::Reg(_) | Src::At(_) | Src::AtPlus(_) | Src::Short(_) => true,
    }
}

fn destination_fits(dst: Dst) -> bool
    ensures { result ≡ destination_fits_lem dst }
{
    match dst {
        Dst::Reg(_) => true,
        Dst::Index(_, word) | Dst::Abs(word) => is_word(word),
    }
}

// Each `u16` is one.
fn is_word(_: u16) -> bool
    ensures { IsTrue result }
{
    true
}

fn offset_fits(words: i16) -> bool
    ensures { result ≡ offset_fits_lem words }
{
    -512 <= words && words < 512
}

// ---- Operands

fn is_base(r: u8) -> bool
    ensures { result ≡ is_base_lem r }
{
    r == 1 || (r > 3 && r < 16)
}

fn is_constant(v: u16) -> bool
    ensures { result ≡ is_constant_lem v }
{
    v == 0 || v == 1 || v == 2 || v == 4 || v == 8 || v == 0xFFFF
}

fn is_source(src: Src) -> bool
    ensures { result ≡ is_source_lem src }
{
    match src {
        Src::Reg(r) => r < 16 && r != 3,
        Src::Index(r, _) | Src::At(r) | Src::AtPlus(r) => is_base(r),
        Src::Abs(_) | Src::Imm(_) => true,
        Src::Short(v) => is_constant(v),
    }
}

fn is_destination(dst: Dst) -> bool
    ensures { result ≡ is_destination_lem dst }
{
    match dst {
        Dst::Reg(r) => r < 16,
        Dst::Index(r, _) => is_base(r),
        Dst::Abs(_) => true,
    }
}

// ---- Two operands

fn allows_two(op: TwoOp, byte: bool, src: Src, dst: Dst) -> bool
    ensures { result ≡ allows_two_lem op byte src dst }
{
    is_source(src)
        && is_destination(dst)
        && guards_pc(op, byte, dst)
        && guards_sr(op, byte, dst)
        && guards_r3(op, byte, src, dst)
        && increments_apart(src, dst)
}

fn guards_pc(op: TwoOp, byte: bool, dst: Dst) -> bool
    ensures { result ≡ guards_pc_lem op byte dst }
{
    dst != Dst::Reg(0) || (op == TwoOp::Mov && !byte)
}

fn guards_sr(op: TwoOp, byte: bool, dst: Dst) -> bool
    ensures { result ≡ guards_sr_lem op byte dst }
{
    dst != Dst::Reg(2) || ((op == TwoOp::Mov || op == TwoOp::Bis) && !byte)
}

fn guards_r3(op: TwoOp, byte: bool, src: Src, dst: Dst) -> bool
    ensures { result ≡ guards_r3_lem op byte src dst }
{
    dst != Dst::Reg(3) || (op == TwoOp::Mov && !byte && src == Src::Short(0))
}

fn increments_apart(src: Src, dst: Dst) -> bool
    ensures { result ≡ increments_apart_lem src dst }
{
    match src {
        Src::AtPlus(r) => !uses(r, dst),
        _ => true,
    }
}

fn uses(r: u8, dst: Dst) -> bool
    ensures { result ≡ uses_lem r dst }
{
    match dst {
        Dst::Reg(d) | Dst::Index(d, _) => d == r,
        Dst::Abs(_) => false,
    }
}

// ---- One operand

fn allows_one(op: OneOp, byte: bool, src: Src) -> bool
    ensures { result ≡ allows_one_lem op byte src }
{
    is_source(src)
        && guards_width(op, byte)
        && guards_numbers(op, src)
        && guards_registers(op, src)
        && guards_stack(op, src)
        && guards_call(op, src)
}

fn guards_width(op: OneOp, byte: bool) -> bool
    ensures { result ≡ guards_width_lem op byte }
{
    !byte || op == OneOp::Rrc || op == OneOp::Rra
}

fn guards_numbers(op: OneOp, src: Src) -> bool
    ensures { result ≡ guards_numbers_lem op src }
{
    match src {
        Src::Imm(_) | Src::Short(_) => op == OneOp::Push || op == OneOp::Call,
        _ => true,
    }
}

fn guards_registers(op: OneOp, src: Src) -> bool
    ensures { result ≡ guards_registers_lem op src }
{
    match src {
        Src::Reg(0 | 2) => op == OneOp::Push,
        _ => true,
    }
}

fn guards_stack(op: OneOp, src: Src) -> bool
    ensures { result ≡ guards_stack_lem op src }
{
    !uses_sp(src) || (op != OneOp::Push && op != OneOp::Call)
}

fn uses_sp(src: Src) -> bool
    ensures { result ≡ uses_sp_lem src }
{
    match src {
        Src::Reg(r) | Src::Index(r, _) | Src::At(r) | Src::AtPlus(r) => r == 1,
        Src::Abs(_) | Src::Imm(_) | Src::Short(_) => false,
    }
}

fn guards_call(op: OneOp, src: Src) -> bool
    ensures { result ≡ guards_call_lem op src }
{
    match src {
        Src::Short(_) => op != OneOp::Call,
        _ => true,
    }
}
