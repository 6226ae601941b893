//! From an instruction to its words.

ghost use Rattle.std.specs.Prelude.{◌≡◌, ◌+◌, ◌<◌, ◌≤◌, ℕ, IsTrue, ◌∷◌, ◌++◌, length, take, slice_index};
ghost use Rattle.std.specs.Option.{option_to_list};
ghost use Rattle.msp430_isa.specs.Fields.{two_opcode as two_opcode_lem, one_opcode as one_opcode_lem, condition as condition_lem, offset_bits as offset_bits_lem, width_bit as width_bit_lem, generator as generator_lem, generator_mode as generator_mode_lem, source_mode as source_mode_lem, source_register as source_register_lem, source_words as source_words_lem, destination_mode as destination_mode_lem, destination_register as destination_register_lem, destination_words as destination_words_lem};
ghost use Rattle.msp430_isa.specs.Encoding.{two_word as two_word_lem, one_word as one_word_lem, jump_word as jump_word_lem, words_of, length_of};
ghost use Rattle.msp430_isa.specs.Profile.{is_source, is_destination, offset_fits, in_profile};
ghost use Rattle.msp430_isa.specs.Spelled.{Spells};

use crate::instr::{Cond, Dst, Instr, OneOp, Src, TwoOp};
use crate::words::Words;

/// The words of an instruction (SLAU367, section 4.5.1): the first word, the source's, the destination's.
pub fn encode(i: &Instr) -> Words
    requires { IsTrue (in_profile i.now) }
    ensures words { take result.len result.w ≡ words_of i.now }
    ensures length { result.len ≡ length_of i.now }
    ensures some { 1 ≤ result.len }
    ensures few { result.len ≤ 3 }
    ensures beyond { (k : ℕ) → result.len ≤ k → slice_index result.w k ≡ 0 }
    ensures read_back { Spells (take result.len result.w) i.now result.len }
{
    match *i {
        Instr::Two { op, byte, src, dst } => lay(
            two_word(op, byte, src, dst),
            source_word(src),
            destination_word(dst),
        ),
        Instr::One { op, byte, src } => lay(one_word(op, byte, src), source_word(src), None),
        Instr::Jump { on, words } => lay(jump_word(on, words), None, None),
    }
}

fn lay(first: u16, source: Option<u16>, destination: Option<u16>) -> Words
    ensures words { take result.len result.w ≡ first ∷ (option_to_list source ++ option_to_list destination) }
    ensures length { result.len ≡ 1 + length (option_to_list source) + length (option_to_list destination) }
    ensures few { result.len ≤ 3 }
    ensures beyond { (k : ℕ) → result.len ≤ k → slice_index result.w k ≡ 0 }
{
    match (source, destination) {
        (None, None) => Words {
            len: 1,
            w: [first, 0, 0],
        },
        (Some(word), None) | (None, Some(word)) => Words {
            len: 2,
            w: [first, word, 0],
        },
        (Some(next), Some(last)) => Words {
            len: 3,
            w: [first, next, last],
        },
    }
}

fn two_word(op: TwoOp, byte: bool, src: Src, dst: Dst) -> u16
    requires source { IsTrue (is_source src) }
    requires destination { IsTrue (is_destination dst) }
    ensures { result ≡ two_word_lem op byte src dst }
{
    two_opcode(op) * 4096
        + source_register(src) * 256
        + destination_mode(dst) * 128
        + width_bit(byte) * 64
        + source_mode(src) * 16
        + destination_register(dst)
}

fn one_word(op: OneOp, byte: bool, src: Src) -> u16
    requires { IsTrue (is_source src) }
    ensures { result ≡ one_word_lem op byte src }
{
    4096 + one_opcode(op) * 128
        + width_bit(byte) * 64
        + source_mode(src) * 16
        + source_register(src)
}

fn jump_word(on: Cond, words: i16) -> u16
    requires { IsTrue (offset_fits words) }
    ensures { result ≡ jump_word_lem on words }
{
    8192 + condition(on) * 1024 + offset_bits(words)
}

// ---- Fields

fn two_opcode(op: TwoOp) -> u16
    ensures value { result ≡ two_opcode_lem op }
    ensures low { result < 16 }
{
    match op {
        TwoOp::Mov => 4,
        TwoOp::Add => 5,
        TwoOp::Addc => 6,
        TwoOp::Subc => 7,
        TwoOp::Sub => 8,
        TwoOp::Cmp => 9,
        TwoOp::Bit => 11,
        TwoOp::Bic => 12,
        TwoOp::Bis => 13,
        TwoOp::Xor => 14,
        TwoOp::And => 15,
    }
}

fn one_opcode(op: OneOp) -> u16
    ensures value { result ≡ one_opcode_lem op }
    ensures low { result < 8 }
{
    match op {
        OneOp::Rrc => 0,
        OneOp::Swpb => 1,
        OneOp::Rra => 2,
        OneOp::Sxt => 3,
        OneOp::Push => 4,
        OneOp::Call => 5,
    }
}

fn condition(on: Cond) -> u16
    ensures value { result ≡ condition_lem on }
    ensures low { result < 8 }
{
    match on {
        Cond::Jne => 0,
        Cond::Jeq => 1,
        Cond::Jnc => 2,
        Cond::Jc => 3,
        Cond::Jn => 4,
        Cond::Jge => 5,
        Cond::Jl => 6,
        Cond::Jmp => 7,
    }
}

fn offset_bits(words: i16) -> u16
    requires { IsTrue (offset_fits words) }
    ensures value { result ≡ offset_bits_lem words }
    ensures low { result < 1024 }
{
    if words < 0 {
        (words + 1024) as u16
    } else {
        words as u16
    }
}

fn width_bit(byte: bool) -> u16
    ensures value { result ≡ width_bit_lem byte }
    ensures low { result < 2 }
{
    if byte { 1 } else { 0 }
}

fn source_register(src: Src) -> u16
    requires { IsTrue (is_source src) }
    ensures value { result ≡ source_register_lem src }
    ensures low { result < 16 }
{
    match src {
        Src::Reg(r) | Src::Index(r, _) | Src::At(r) | Src::AtPlus(r) => r as u16,
        Src::Abs(_) => 2,
        Src::Imm(_) => 0,
        Src::Short(v) => generator(v),
    }
}

fn source_mode(src: Src) -> u16
    ensures value { result ≡ source_mode_lem src }
    ensures low { result < 4 }
{
    match src {
        Src::Reg(_) => 0,
        Src::Index(_, _) | Src::Abs(_) => 1,
        Src::At(_) => 2,
        Src::AtPlus(_) | Src::Imm(_) => 3,
        Src::Short(v) => generator_mode(v),
    }
}

fn generator(v: u16) -> u16
    ensures value { result ≡ generator_lem v }
    ensures low { result < 4 }
{
    if v == 4 || v == 8 { 2 } else { 3 }
}

fn generator_mode(v: u16) -> u16
    ensures value { result ≡ generator_mode_lem v }
    ensures low { result < 4 }
{
    match v {
        0 => 0,
        1 => 1,
        2 | 4 => 2,
        _ => 3,
    }
}

fn source_word(src: Src) -> Option<u16>
    ensures { option_to_list result ≡ source_words_lem src }
{
    match src {
        Src::Index(_, word) | Src::Abs(word) | Src::Imm(word) => Some(word),
        Src::Reg(_) | Src::At(_) | Src::AtPlus(_) | Src::Short(_) => None,
    }
}

fn destination_register(dst: Dst) -> u16
    requires { IsTrue (is_destination dst) }
    ensures value { result ≡ destination_register_lem dst }
    ensures low { result < 16 }
{
    match dst {
        Dst::Reg(r) | Dst::Index(r, _) => r as u16,
        Dst::Abs(_) => 2,
    }
}

fn destination_mode(dst: Dst) -> u16
    ensures value { result ≡ destination_mode_lem dst }
    ensures low { result < 2 }
{
    match dst {
        Dst::Reg(_) => 0,
        Dst::Index(_, _) | Dst::Abs(_) => 1,
    }
}

fn destination_word(dst: Dst) -> Option<u16>
    ensures { option_to_list result ≡ destination_words_lem dst }
{
    match dst {
        Dst::Reg(_) => None,
        Dst::Index(_, word) | Dst::Abs(word) => Some(word),
    }
}
