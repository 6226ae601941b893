//! The instructions of the 16-bit MSP430 and their words.
#![tactic(auto)]

mod decoding;
mod encoding;
mod instr;
mod laws;
mod length;
mod profile;
mod words;

pub use decoding::decode;
pub use encoding::encode;
pub use instr::{Cond, Dst, Instr, OneOp, Src, TwoOp};
pub use laws::{
    decode_undoes_encode, encode_undoes_decode, instructions_are_computed,
    instructions_are_spelt_by_their_words, instructions_have_words, words_spell_one_instruction,
};
pub use length::length_of;
pub use profile::in_profile;
pub use words::{NotInstr, Words};

#[cfg(test)]
mod tests;
