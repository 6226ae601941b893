//! The parts of templates that no operand has a share in.

ghost use Rattle.std.specs.Prelude.{◌≡◌, ◌+ℤ◌, ◌≤ℤ◌, false, [], ◌∷◌, pos, negsuc};
ghost use Rattle.op_cost.specs.Templates as spec;

use msp430_isa::{Cond, Dst, Instr, OneOp, Src, TwoOp};
use msp430_machine::TRAP;

/// A constant, by a generator where one has it.
pub fn constant(v: u16) -> Src
    ensures { result ≡ spec.constant v }
{
    match v {
        0 | 1 | 2 | 4 | 8 | 0xFFFF => Src::Short(v),
        _ => Src::Imm(v),
    }
}

/// A word operation on a register.
pub const fn by(op: TwoOp, src: Src, register: u8) -> Instr
    ensures { result ≡ spec.by op src register }
{
    Instr::Two {
        op,
        byte: false,
        src,
        dst: Dst::Reg(register),
    }
}

/// A jump of so many words.
pub const fn jump(on: Cond, words: i16) -> Instr
    ensures { result ≡ Instr.Jump on words }
{
    Instr::Jump { on, words }
}

/// A trap with this number.
fn trap(number: u16) -> Instr
    ensures { result ≡ spec.trap number }
{
    Instr::Two {
        op: TwoOp::Mov,
        byte: false,
        src: constant(number),
        dst: Dst::Abs(TRAP),
    }
}

fn rotate(register: u8) -> Instr
    ensures { result ≡ Instr.One OneOp.Rra false (Src.Reg register) }
{
    Instr::One {
        op: OneOp::Rra,
        byte: false,
        src: Src::Reg(register),
    }
}

/// The negative of a register.
pub fn negated(register: u8) -> [Instr; 2]
    ensures { result ≡ spec.negated register }
{
    [
        by(TwoOp::Xor, Src::Short(0xFFFF), register),
        by(TwoOp::Add, Src::Short(1), register),
    ]
}

/// A register takes its negative where another one is negative.
pub fn unless_negative(sign: u8, register: u8) -> [Instr; 4]
    ensures { result ≡ spec.unless_negative sign register }
{
    [
        by(TwoOp::Cmp, Src::Short(0), sign),
        jump(Cond::Jge, 2),
        by(TwoOp::Xor, Src::Short(0xFFFF), register),
        by(TwoOp::Add, Src::Short(1), register),
    ]
}

/// 16 turns are to be counted.
pub fn sixteen() -> [Instr; 2]
    ensures { result ≡ spec.sixteen }
{
    [
        by(TwoOp::Mov, Src::Short(0), 13),
        by(TwoOp::Mov, Src::Imm(16), 12),
    ]
}

/// A turn of multiplication.
pub fn mul_turn() -> [Instr; 7]
    ensures { result ≡ spec.mul_turn }
{
    [
        by(TwoOp::Bit, Src::Short(1), 14),
        jump(Cond::Jeq, 1),
        by(TwoOp::Add, Src::Reg(15), 13),
        by(TwoOp::Add, Src::Reg(15), 15),
        rotate(14),
        by(TwoOp::Sub, Src::Short(1), 12),
        jump(Cond::Jne, -7),
    ]
}

/// A divisor of 0 traps.
pub fn unless_zero() -> [Instr; 3]
    ensures { result ≡ spec.code_of spec.unless_zero_core }
{
    [
        by(TwoOp::Cmp, Src::Short(0), 14),
        jump(Cond::Jne, 2),
        trap(1),
    ]
}

/// A turn of division.
pub fn div_turn() -> [Instr; 9]
    ensures { result ≡ spec.div_turn }
{
    [
        by(TwoOp::Add, Src::Reg(15), 15),
        by(TwoOp::Addc, Src::Reg(13), 13),
        jump(Cond::Jc, 2),
        by(TwoOp::Cmp, Src::Reg(14), 13),
        jump(Cond::Jnc, 2),
        by(TwoOp::Sub, Src::Reg(14), 13),
        by(TwoOp::Add, Src::Short(1), 15),
        by(TwoOp::Sub, Src::Short(1), 12),
        jump(Cond::Jne, -9),
    ]
}

/// The sign of a quotient goes to R11.
pub fn sign_of_quotient() -> [Instr; 2]
    ensures { result ≡ spec.sign_of_quotient }
{
    [
        by(TwoOp::Mov, Src::Reg(15), 11),
        by(TwoOp::Xor, Src::Reg(14), 11),
    ]
}

/// The sign of a remainder goes to R11.
pub fn sign_of_remainder() -> [Instr; 1]
    ensures { result ≡ spec.sign_of_remainder }
{
    [by(TwoOp::Mov, Src::Reg(15), 11)]
}

/// A count that is no count of a shift traps, and one of 0 goes past a turn of so many words.
pub fn shift_tests(words: i16) -> [Instr; 5]
    requires small { words ≤ℤ pos 3 }
    requires some { pos 1 ≤ℤ words }
    ensures { result ≡ spec.by TwoOp.Cmp (Src.Imm 16) 14 ∷ Instr.Jump Cond.Jnc (pos 3) ∷ spec.trap 3 ∷ spec.by TwoOp.Cmp (Src.Short 0) 14 ∷ Instr.Jump Cond.Jeq (words +ℤ pos 2) ∷ [] }
{
    [
        by(TwoOp::Cmp, Src::Imm(16), 14),
        jump(Cond::Jnc, 3),
        trap(3),
        by(TwoOp::Cmp, Src::Short(0), 14),
        jump(Cond::Jeq, words + 2),
    ]
}

/// A turn of a shift to the left.
pub fn left_turn() -> [Instr; 3]
    ensures { result ≡ spec.by TwoOp.Add (Src.Reg 15) 15 ∷ spec.by TwoOp.Sub (Src.Short 1) 14 ∷ Instr.Jump Cond.Jne (negsuc 2) ∷ [] }
{
    [
        by(TwoOp::Add, Src::Reg(15), 15),
        by(TwoOp::Sub, Src::Short(1), 14),
        jump(Cond::Jne, -3),
    ]
}

/// A turn of a shift to the right that keeps the sign.
pub fn right_turn() -> [Instr; 3]
    ensures { result ≡ Instr.One OneOp.Rra false (Src.Reg 15) ∷ spec.by TwoOp.Sub (Src.Short 1) 14 ∷ Instr.Jump Cond.Jne (negsuc 2) ∷ [] }
{
    [
        rotate(15),
        by(TwoOp::Sub, Src::Short(1), 14),
        jump(Cond::Jne, -3),
    ]
}

/// A turn of a shift to the right that brings zeros in.
pub fn logical_turn() -> [Instr; 4]
    ensures { result ≡ Instr.One OneOp.Rra false (Src.Reg 15) ∷ spec.by TwoOp.And (Src.Imm 0x7FFF) 15 ∷ spec.by TwoOp.Sub (Src.Short 1) 14 ∷ Instr.Jump Cond.Jne (negsuc 4) ∷ [] }
{
    [
        rotate(15),
        by(TwoOp::And, Src::Imm(0x7FFF), 15),
        by(TwoOp::Sub, Src::Short(1), 14),
        jump(Cond::Jne, -5),
    ]
}

/// 1 in R13 where the jump is taken behind a comparison of R15 with R14, else 0.
pub fn less(on: Cond) -> [Instr; 4]
    ensures { result ≡ spec.code_of (spec.less_core on) }
{
    [
        by(TwoOp::Mov, Src::Short(1), 13),
        by(TwoOp::Cmp, Src::Reg(14), 15),
        jump(on, 1),
        by(TwoOp::Mov, Src::Short(0), 13),
    ]
}

/// The same behind a comparison of R14 with R15.
pub fn turned(on: Cond) -> [Instr; 4]
    ensures { result ≡ spec.code_of (spec.turned_core on) }
{
    [
        by(TwoOp::Mov, Src::Short(1), 13),
        by(TwoOp::Cmp, Src::Reg(15), 14),
        jump(on, 1),
        by(TwoOp::Mov, Src::Short(0), 13),
    ]
}

/// An index in R14 that isn't below the length traps; else it is doubled.
pub fn index_code(length: u16) -> [Instr; 4]
    ensures { result ≡ spec.index_code length }
{
    [
        by(TwoOp::Cmp, constant(length), 14),
        jump(Cond::Jnc, 2),
        trap(2),
        by(TwoOp::Add, Src::Reg(14), 14),
    ]
}
