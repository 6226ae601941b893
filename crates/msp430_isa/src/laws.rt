//! What holds of the words of instructions, whoever reads or writes them, and that `encode` and `decode` undo one
//! another.

ghost use Rattle.std.specs.Prelude.{◌≤◌, length, IsTrue};
ghost use Rattle.msp430_isa.specs.Laws.{HasWords, IsComputed, IsSpelt, IsUnambiguous};
ghost use Rattle.msp430_isa.specs.Profile.{in_profile};

use crate::decoding::decode;
use crate::encoding::encode;
use crate::instr::Instr;

/// No list of words spells two instructions, or one at two lengths.
pub fn words_spell_one_instruction()
    ensures { IsUnambiguous }
{}

/// Each instruction of the profile is spelt by its own words, so that it is read again as what was written.
pub fn instructions_are_spelt_by_their_words()
    ensures { IsSpelt }
{}

/// The words of an instruction of the profile are of sixteen bits.
pub fn instructions_have_words()
    ensures { HasWords }
{}

/// The instruction that a device's step computes from three words is the one that they spell.
pub fn instructions_are_computed()
    ensures { IsComputed }
{}

/// Whether `decode` reads the words that `encode` gives as the instruction and its length. It does.
pub fn decode_undoes_encode(i: &Instr) -> bool
    requires { IsTrue (in_profile i.now) }
    ensures { IsTrue result }
{
    let words = encode(i);
    match decode(&words.w[..words.len as usize]) {
        Ok((read, len)) => read == *i && len == words.len,
        Err(_) => false,
    }
}

/// Whether `encode` gives back the words that `decode` used, where it read an instruction. It does.
pub fn encode_undoes_decode(words: &[u16]) -> bool
    requires { 1 ≤ length words.now }
    ensures { IsTrue result }
{
    match decode(words) {
        Ok((read, len)) => {
            let again = encode(&read);
            again.len == len && again.w[..again.len as usize] == words[..len as usize]
        }
        Err(_) => true,
    }
}
