//! The rows beside an address, and the words of the image.
ghost use Rattle.std.specs.Prelude.{◌≡◌, ◌^◌, ◌<◌, option_map};
ghost use Rattle.certificate.specs.Rows.{flat_of, function_of, point_of};
ghost use Rattle.cert_rules.specs.Sheet.{any_point as any_point_lem, fits_here as fits_here_lem, holds_words as holds_words_lem, instruction_of as instruction_of_lem, is_head as is_head_lem, is_point as is_point_lem, is_word as is_word_lem, word_or_zero as word_or_zero_lem};
ghost use Rattle.cert_rules.specs.Words.{word_in as word_in_lem};
ghost use Rattle.cert_rules.specs.Tables.{contains, function_at as function_at_lem, head_at as head_at_lem, point_at as point_at_lem};
ghost use Rattle.msp430_isa.specs.Decoding.{instruction_at as instruction_at_lem};
ghost use Rattle.cert_state.specs.Shown.{blocks_in, functions_in};
ghost use Rattle.cert_sweep.specs.Rising.{Rises};
ghost use Rattle.cert_sweep.specs.Views.{points_in, sheet_of};

use crate::rising::row_at;
use crate::sheet::Sheet;
use cert_state::word_in;
use certificate::{FlatPart, FunctionRow, PointRow, StretchRow};
use msp430_isa::{Instr, decode};
use msp430_machine::FETCH_END;

fn head_at(stretches: &[StretchRow], address: u32) -> Option<StretchRow>
    requires { Rises (λ s. s.head) 0 stretches.now }
    ensures { result ≡ head_at_lem stretches.now address }
{
    match row_at(stretches, u64::from(address)) {
        None => None,
        Some(row) => Some(*row),
    }
}

fn point_at(points: &[PointRow], address: u32) -> Option<&PointRow>
    requires { Rises (λ p. p.address) 0 points.now }
    ensures { option_map (λ p. point_of p.now) result ≡ point_at_lem (points_in points.now) address }
{
    row_at(points, u64::from(address))
}

fn function_at(functions: &[FunctionRow], address: u32) -> Option<&FunctionRow>
    requires { Rises (λ f. f.start) 0 functions.now }
    ensures { option_map (λ f. function_of f.now) result ≡ function_at_lem (functions_in functions.now) address }
{
    row_at(functions, u64::from(address))
}

// The instruction that begins at w.
fn instruction_at(w: u16, x: u16, y: u16) -> Option<Instr>
    ensures { result ≡ instruction_at_lem w x y }
{
    match decode(&[w, x, y]) {
        Ok((instr, _)) => Some(instr),
        Err(_) => None,
    }
}

impl Sheet<'_> {
    /// What the function costs and writes, if it has no heads.
    pub fn flat(&self) -> Option<&FlatPart>
        ensures { option_map (λ f. flat_of f.now) result ≡ (sheet_of self.now).here.flat }
    {
        self.here.flat.as_ref()
    }

    /// Whether an address is in the function's code.
    pub fn has(&self, a: u32) -> bool
        ensures { result ≡ contains (sheet_of self.now).here a }
    {
        u32::from(self.here.start) <= a && a < u32::from(self.here.end)
    }

    /// The word at an address, if the image has it whole.
    pub fn word(&self, a: u32) -> Option<u16>
        requires { a < 2 ^ 31 }
        ensures { result ≡ word_in_lem (sheet_of self.now).blocks a }
    {
        word_in(self.segments.as_slice(), a)
    }

    /// The row of the head at an address.
    pub fn head_at(&self, a: u32) -> Option<StretchRow>
        ensures { result ≡ head_at_lem (sheet_of self.now).stretches a }
    {
        head_at(self.stretches.as_slice(), a)
    }

    /// The first point at an address.
    pub fn point_at(&self, a: u32) -> Option<&PointRow>
        ensures { option_map (λ p. point_of p.now) result ≡ point_at_lem (sheet_of self.now).points a }
    {
        point_at(self.points.as_slice(), a)
    }

    /// The function that begins at an address.
    pub fn function_at(&self, a: u32) -> Option<&FunctionRow>
        ensures { option_map (λ f. function_of f.now) result ≡ function_at_lem (sheet_of self.now).functions a }
    {
        function_at(self.functions.as_slice(), a)
    }

    /// Whether a head begins at an address.
    pub fn is_head(&self, a: u32) -> bool
        ensures { result ≡ is_head_lem (sheet_of self.now) a }
    {
        self.head_at(a).is_some()
    }

    /// Whether a point stands at an address.
    pub fn is_point(&self, a: u32) -> bool
        ensures { result ≡ is_point_lem (sheet_of self.now) a }
    {
        self.point_at(a).is_some()
    }

    /// The word at an address, or 0.
    pub fn word_or_zero(&self, a: u32) -> u16
        requires { a < 2 ^ 31 }
        ensures { result ≡ word_or_zero_lem (sheet_of self.now) a }
    {
        match self.word(a) {
            Some(word) => word,
            None => 0,
        }
    }

    /// The instruction that the words from an address on spell.
    pub fn instruction_of(&self, a: u32) -> Option<Instr>
        requires { a < 1048576 }
        ensures { result ≡ instruction_of_lem (sheet_of self.now) a }
    {
        let word = self.word(a)?;
        instruction_at(word, self.word_or_zero(a + 2), self.word_or_zero(a + 4))
    }

    /// Whether so many words from an address on are in the image.
    pub fn holds_words(&self, a: u32, n: u8) -> bool
        requires { a < 1048576 }
        ensures { result ≡ holds_words_lem (sheet_of self.now) a n }
    {
        let mut at = a;
        let mut left = n;
        while left > 0 {
            if self.word(at).is_none() {
                return false;
            }
            at += 2;
            left -= 1;
        }
        true
    }

    /// Whether a point stands at one of so many addresses.
    pub fn any_point(&self, a: u32, n: u8) -> bool
        requires { a < 1048576 }
        ensures { result ≡ any_point_lem (sheet_of self.now) a n }
    {
        let mut at = a;
        let mut left = n;
        while left > 0 {
            if self.is_point(at) {
                return true;
            }
            at += 1;
            left -= 1;
        }
        false
    }

    /// Whether this word stands at an address.
    pub fn is_word(&self, a: u32, w: u16) -> bool
        requires { a < 2 ^ 31 }
        ensures { result ≡ is_word_lem (sheet_of self.now) a w }
    {
        match self.word(a) {
            Some(word) => word == w,
            None => false,
        }
    }

    /// Whether so many bytes lie at an even address inside the function, and where words are fetched.
    pub fn fits_here(&self, a: u32, bytes: u32) -> bool
        requires low { a < 1048576 }
        requires few { bytes < 1048576 }
        ensures { result ≡ fits_here_lem (sheet_of self.now) a bytes }
    {
        a % 2 == 0 && a + bytes <= u32::from(self.here.end) && a + bytes <= u32::from(FETCH_END)
    }
}
