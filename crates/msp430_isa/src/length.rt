//! How many words an instruction has.

ghost use Rattle.std.specs.Prelude.{◌≡◌, ◌≤◌, length};
ghost use Rattle.msp430_isa.specs.Fields.{source_words, destination_words};
ghost use Rattle.msp430_isa.specs.Encoding.{length_of as length_of_lem};

use crate::instr::{Dst, Instr, Src};

/// How many words an instruction has (SLAU367, section 4.5.1): the first word, the source's and the destination's. A word is
/// two bytes.
pub fn length_of(i: Instr) -> u8
    ensures length { result ≡ length_of_lem i }
    ensures some { 1 ≤ result }
    ensures few { result ≤ 3 }
{
    match i {
        Instr::Two { src, dst, .. } => 1 + source_length(src) + destination_length(dst),
        Instr::One { src, .. } => 1 + source_length(src),
        Instr::Jump { .. } => 1,
    }
}

fn source_length(src: Src) -> u8
    ensures length { result ≡ length (source_words src) }
    ensures few { result ≤ 1 }
{
    match src {
        Src::Index(_, _) | Src::Abs(_) | Src::Imm(_) => 1,
        Src::Reg(_) | Src::At(_) | Src::AtPlus(_) | Src::Short(_) => 0,
    }
}

fn destination_length(dst: Dst) -> u8
    ensures length { result ≡ length (destination_words dst) }
    ensures few { result ≤ 1 }
{
    match dst {
        Dst::Reg(_) => 0,
        Dst::Index(_, _) | Dst::Abs(_) => 1,
    }
}
