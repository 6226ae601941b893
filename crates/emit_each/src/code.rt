//! The code around operations.

ghost use Rattle.std.specs.Prelude.{◌≡◌, ◌++◌, false, flat_map, All, IsTrue, OnOk};
ghost use Rattle.msp430_isa.specs.Encoding.{words_of};
ghost use Rattle.msp430_isa.specs.Profile.{in_profile};
ghost use Rattle.resumed_runs.specs.Code.{boot, head};
ghost use Rattle.resumed_runs.specs.Bytes.{bytes_of};

use crate::bytes::put_words;
use base_io::Memory;
use msp430_isa::{Cond, Dst, Instr, Src, TwoOp, encode};
use msp430_machine::{GATE, RESUME, SAVED_SP, TRAP};

fn two(op: TwoOp, src: Src, dst: Dst) -> Instr
    ensures { result ≡ Instr.Two op false src dst }
{
    Instr::Two {
        op,
        byte: false,
        src,
        dst,
    }
}

/// The first code of every wake but a warm one.
pub fn boot() -> [Instr; 5]
    ensures { result ≡ boot }
{
    [
        two(TwoOp::Cmp, Src::Short(1), Dst::Abs(GATE)),
        Instr::Jump {
            on: Cond::Jne,
            words: 4,
        },
        two(TwoOp::Mov, Src::Abs(SAVED_SP), Dst::Reg(1)),
        two(TwoOp::Mov, Src::Abs(RESUME), Dst::Reg(0)),
        two(TwoOp::Mov, Src::Short(4), Dst::Abs(TRAP)),
    ]
}

/// A sleep that is resumed at the address.
pub fn head(resume: u16) -> [Instr; 5]
    ensures { result ≡ head resume }
{
    [
        two(TwoOp::Mov, Src::Reg(1), Dst::Abs(SAVED_SP)),
        two(TwoOp::Mov, Src::Imm(resume), Dst::Abs(RESUME)),
        two(TwoOp::Mov, Src::Short(1), Dst::Abs(GATE)),
        two(TwoOp::Bis, Src::Imm(16), Dst::Reg(2)),
        two(TwoOp::Mov, Src::Short(0), Dst::Abs(GATE)),
    ]
}

/// Appends the words of instructions of the profile.
pub fn put_instructions(instructions: &[Instr], to: &mut Vec<u8>) -> Result<(), Memory>
    requires { All (λ i. IsTrue (in_profile i)) instructions.now }
    ensures { OnOk result (to.new.items ≡ to.old.items ++ bytes_of (flat_map words_of instructions.now)) }
{
    for instruction in instructions {
        let words = encode(instruction);
        put_words(&words.w[..words.len as usize], to)?;
    }
    Ok(())
}
