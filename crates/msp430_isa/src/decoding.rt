//! From words to the instruction that they spell.

ghost use Rattle.std.specs.Prelude.{◌≡◌, ◌<◌, ◌≤◌, ℕ, Option, length, slice_index, IfOk, IfErr};
ghost use Rattle.msp430_isa.specs.Fields.{source_words};
ghost use Rattle.msp430_isa.specs.Spelled.{Spells};
ghost use Rattle.msp430_isa.specs.Decoding.{two_op_at as two_op_at_lem, one_op_at as one_op_at_lem, cond_at as cond_at_lem, offset_at as offset_at_lem, source_at as source_at_lem, destination_at as destination_at_lem, behind as behind_lem, jump_at as jump_at_lem, one_at as one_at_lem, two_at as two_at_lem, table_at as table_at_lem, instruction_at as instruction_at_lem};

use crate::instr::{Cond, Dst, Instr, OneOp, Src, TwoOp};
use crate::length::length_of;
use crate::profile::is_allowed;
use crate::words::NotInstr;

/// The instruction of the profile that begins at the first word, and how many words it takes; more may follow. NotInstr
/// where none begins there, and where the words end inside it.
pub fn decode(words: &[u16]) -> Result<(Instr, u8), NotInstr>
    requires { 1 ≤ length words.now }
    ensures spelt { IfOk result (λ p. Spells words.now p.0 p.1) }
    ensures every { (i : Instr) (n : ℕ) → Spells words.now i n → result ≡ Ok (i, n) }
    ensures few { IfOk result (λ p. p.1 ≤ 3) }
    ensures word { IfErr result (λ e. e.word ≡ slice_index words.now 0) }
{
    let word = words[0];
    if let Some(i) = instruction_at(word, word_at(words, 1), word_at(words, 2)) {
        let length = length_of(i);
        if length as usize <= words.len() {
            return Ok((i, length));
        }
    }
    Err(NotInstr { word })
}

// 0 where there is none.
fn word_at(words: &[u16], at: usize) -> u16
    ensures { result ≡ slice_index words.now at }
{
    if at < words.len() { words[at] } else { 0 }
}

fn instruction_at(w: u16, x: u16, y: u16) -> Option<Instr>
    ensures { result ≡ instruction_at_lem w x y }
{
    let i = table_at(w, x, y)?;
    if is_allowed(i) { Some(i) } else { None }
}

fn table_at(w: u16, x: u16, y: u16) -> Option<Instr>
    ensures { result ≡ table_at_lem w x y }
{
    if w / 8192 == 1 {
        Some(jump_at(w))
    } else if w / 1024 == 4 {
        Some(one_at(w, x, one_op_at(w / 128 % 8)?))
    } else {
        Some(two_at(w, x, y, two_op_at(w / 4096)?))
    }
}

// ---- Formats

fn jump_at(w: u16) -> Instr
    ensures { result ≡ jump_at_lem w }
{
    Instr::Jump {
        on: cond_at(w / 1024 % 8),
        words: offset_at(w % 1024),
    }
}

fn one_at(w: u16, x: u16, op: OneOp) -> Instr
    ensures { result ≡ one_at_lem w x op }
{
    Instr::One {
        op,
        byte: w / 64 % 2 == 1,
        src: source_at(w / 16 % 4, w % 16, x),
    }
}

fn two_at(w: u16, x: u16, y: u16, op: TwoOp) -> Instr
    ensures { result ≡ two_at_lem w x y op }
{
    let src = source_at(w / 16 % 4, w / 256 % 16, x);
    let dst = destination_at(w / 128 % 2, w % 16, behind(src, x, y));
    Instr::Two {
        op,
        byte: w / 64 % 2 == 1,
        src,
        dst,
    }
}

// ---- Fields

fn two_op_at(n: u16) -> Option<TwoOp>
    ensures { result ≡ two_op_at_lem n }
{
    match n {
        4 => Some(TwoOp::Mov),
        5 => Some(TwoOp::Add),
        6 => Some(TwoOp::Addc),
        7 => Some(TwoOp::Subc),
        8 => Some(TwoOp::Sub),
        9 => Some(TwoOp::Cmp),
        11 => Some(TwoOp::Bit),
        12 => Some(TwoOp::Bic),
        13 => Some(TwoOp::Bis),
        14 => Some(TwoOp::Xor),
        15 => Some(TwoOp::And),
        _ => None,
    }
}

fn one_op_at(n: u16) -> Option<OneOp>
    ensures { result ≡ one_op_at_lem n }
{
    match n {
        0 => Some(OneOp::Rrc),
        1 => Some(OneOp::Swpb),
        2 => Some(OneOp::Rra),
        3 => Some(OneOp::Sxt),
        4 => Some(OneOp::Push),
        5 => Some(OneOp::Call),
        _ => None,
    }
}

fn cond_at(n: u16) -> Cond
    ensures { result ≡ cond_at_lem n }
{
    match n {
        0 => Cond::Jne,
        1 => Cond::Jeq,
        2 => Cond::Jnc,
        3 => Cond::Jc,
        4 => Cond::Jn,
        5 => Cond::Jge,
        6 => Cond::Jl,
        _ => Cond::Jmp,
    }
}

fn offset_at(n: u16) -> i16
    requires { n < 1024 }
    ensures { result ≡ offset_at_lem n }
{
    if n < 512 { n as i16 } else { n as i16 - 1024 }
}

fn source_at(mode: u16, r: u16, x: u16) -> Src
    requires { r < 16 }
    ensures { result ≡ source_at_lem mode r x }
{
    match (mode, r) {
        (0, 3) => Src::Short(0),
        (0, _) => Src::Reg(r as u8),
        (1, 2) => Src::Abs(x),
        (1, 3) => Src::Short(1),
        (1, _) => Src::Index(r as u8, x),
        (2, 2) => Src::Short(4),
        (2, 3) => Src::Short(2),
        (2, _) => Src::At(r as u8),
        (_, 0) => Src::Imm(x),
        (_, 2) => Src::Short(8),
        (_, 3) => Src::Short(0xFFFF),
        _ => Src::AtPlus(r as u8),
    }
}

fn destination_at(mode: u16, r: u16, x: u16) -> Dst
    requires { r < 16 }
    ensures { result ≡ destination_at_lem mode r x }
{
    match (mode, r) {
        (0, _) => Dst::Reg(r as u8),
        (_, 2) => Dst::Abs(x),
        _ => Dst::Index(r as u8, x),
    }
}

// Where the destination's word stands: behind the source's.
fn behind(src: Src, x: u16, y: u16) -> u16
    ensures { result ≡ behind_lem (source_words src) x y }
{
    match src {
        Src::Index(_, _) | Src::Abs(_) | Src::Imm(_) => y,
        Src::Reg(_) | Src::At(_) | Src::AtPlus(_) | Src::Short(_) => x,
    }
}
