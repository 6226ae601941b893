//! What stands at an address of the code: an instruction, or a copy of an array.
ghost use Rattle.std.specs.Prelude.{◌≡◌, ◌<◌, ◌≤◌, option_map};
ghost use Rattle.cert_rules.specs.Standing.{bytes_of as bytes_of_lem, copy_of as copy_of_lem, is_copy as is_copy_lem, standing as standing_lem};
ghost use Rattle.cert_sweep.specs.Views.{copy_shown, sheet_of, standing_shown};

use crate::array::Copied;
use crate::sheet::Sheet;
use msp430_isa::{Instr, length_of};

/// The bytes of a copy.
pub const COPY_BYTES: u32 = 14;

// MOV #2n,R15; MOV source(R15),target(R15); SUB #2,R15; JNE to the second
fn is_copy(t: &Sheet<'_>, a: u32, double: u16) -> bool
    requires { a < 65536 }
    ensures { result ≡ is_copy_lem (sheet_of t.now) a double }
{
    t.fits_here(a, COPY_BYTES)
        && t.is_word(a, 0x403F)
        && t.is_word(a + 2, double)
        && t.is_word(a + 4, 0x4F9F)
        && t.word(a + 6).is_some()
        && t.word(a + 8).is_some()
        && t.is_word(a + 10, 0x832F)
        && t.is_word(a + 12, 0x23FB)
        && 2 <= double
        && double % 2 == 0
        && !t.any_point(a + 1, 13)
}

fn copy_of(t: &Sheet<'_>, a: u32) -> Option<Copied>
    requires { a < 65536 }
    ensures { option_map copy_shown result ≡ copy_of_lem (sheet_of t.now) a }
{
    let double = t.word_or_zero(a + 2);
    if is_copy(t, a, double) {
        Some(Copied {
            words: double / 2,
            source: t.word_or_zero(a + 6),
            target: t.word_or_zero(a + 8),
        })
    } else {
        None
    }
}

/// What stands at an address.
#[derive(Clone, Copy)]
pub enum Standing {
    ACopy(Copied),
    AnInstruction(Instr),
    Nothing,
}

/// What stands at an address.
pub fn stands_at(t: &Sheet<'_>, a: u32) -> Standing
    requires { a < 65536 }
    ensures { standing_shown result ≡ standing_lem (sheet_of t.now) a }
{
    match copy_of(t, a) {
        Some(copy) => Standing::ACopy(copy),
        None => match t.instruction_of(a) {
            Some(i) => Standing::AnInstruction(i),
            None => Standing::Nothing,
        },
    }
}

/// How many bytes it has.
pub fn bytes_of(s: Standing) -> u32
    ensures bytes { result ≡ bytes_of_lem (standing_shown s) }
    ensures some { 2 ≤ result }
    ensures few { result ≤ 14 }
{
    match s {
        Standing::ACopy(_) => COPY_BYTES,
        Standing::AnInstruction(i) => 2 * u32::from(length_of(i)),
        Standing::Nothing => 2,
    }
}
