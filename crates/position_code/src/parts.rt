//! Instructions that positions other than operations are made of.

ghost use Rattle.std.specs.Prelude.{◌≡◌, ◌≤◌, ◌∷◌, [], false, length, take};
ghost use Rattle.msp430_isa.specs.declared.instr.Dst.TheVariants as dst;
ghost use Rattle.msp430_isa.specs.declared.instr.Src.TheVariants as src;
ghost use Rattle.resumed_runs.specs.Code as code;
ghost use Rattle.plan_code.specs.PlanBlocks as plan;

use emit_templates::Instrs;
use msp430_isa::{Cond, Dst, Instr, Src, TwoOp};
use msp430_machine::{GATE, RESUME, SAVED_SP};

fn two(op: TwoOp, src: Src, dst: Dst) -> Instr
    ensures { result ≡ Instr.Two op false src dst }
{
    Instr::Two {
        op,
        byte: false,
        src,
        dst,
    }
}

/// A sleep that is resumed at the address.
pub fn head(resume: u16) -> [Instr; 5]
    ensures { result ≡ code.head resume }
{
    [
        two(TwoOp::Mov, Src::Reg(1), Dst::Abs(SAVED_SP)),
        two(TwoOp::Mov, Src::Imm(resume), Dst::Abs(RESUME)),
        two(TwoOp::Mov, Src::Short(1), Dst::Abs(GATE)),
        two(TwoOp::Bis, Src::Imm(16), Dst::Reg(2)),
        two(TwoOp::Mov, Src::Short(0), Dst::Abs(GATE)),
    ]
}

/// R10 is set to a number of turns.
pub fn sets(turns: u16) -> [Instr; 1]
    ensures { result ≡ code.move (src.Imm turns) (dst.Reg 10) ∷ [] }
{
    [two(TwoOp::Mov, Src::Imm(turns), Dst::Reg(10))]
}

/// A turn is done: where R10 comes to 0 the next instruction, of two words, is jumped over.
pub fn turn_end() -> [Instr; 2]
    ensures { result ≡ plan.turn_end }
{
    [
        two(TwoOp::Sub, Src::Short(1), Dst::Reg(10)),
        Instr::Jump {
            on: Cond::Jeq,
            words: 2,
        },
    ]
}

/// The words of an array, the last first: R15 has twice the number of those that are left.
fn array_move(words: u16, from: u16, to: u16) -> [Instr; 4]
    requires small { words ≤ 0x7FFF }
    ensures { result ≡ plan.array_move words from to }
{
    [
        two(TwoOp::Mov, Src::Imm(2 * words), Dst::Reg(15)),
        two(
            TwoOp::Mov,
            Src::Index(15, from.saturating_sub(2)),
            Dst::Index(15, to.saturating_sub(2)),
        ),
        two(TwoOp::Sub, Src::Short(2), Dst::Reg(15)),
        Instr::Jump {
            on: Cond::Jne,
            words: -5,
        },
    ]
}

fn scalar_move(from: u16, to: u16) -> [Instr; 1]
    ensures { result ≡ code.move (src.Abs from) (dst.Abs to) ∷ [] }
{
    [two(TwoOp::Mov, Src::Abs(from), Dst::Abs(to))]
}

/// These instructions.
pub fn listed(instructions: &[Instr]) -> Instrs
    requires few { length instructions.now ≤ 96 }
    ensures listed { take result.count result.list ≡ instructions.now }
    ensures few { result.count ≤ 96 }
{
    let mut code = Instrs::new();
    code.put(instructions);
    code
}

/// An object of so many words, an array or a scalar, is carried from one address to another.
pub fn object_move(array: bool, words: u16, from: u16, to: u16) -> Instrs
    requires small { words ≤ 0x7FFF }
    ensures listed { take result.count result.list ≡ plan.object_move array words from to }
    ensures few { result.count ≤ 96 }
{
    if array {
        listed(&array_move(words, from, to))
    } else {
        listed(&scalar_move(from, to))
    }
}
