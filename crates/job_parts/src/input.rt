//! The text of a program's input: words in decimal digits, parted by white space.
ghost use Rattle.std.specs.Prelude.{◌≡◌, ◌<◌, ◌≤◌, ◌+◌, ◌++◌, ◌∷◌, List, ℕ, IfErr, IfOk, IfSome, length, option_to_list};
ghost use Rattle.std.specs.List.{position, position_or_len};
ghost use Rattle.job_parts.specs.Input.{IsRefused, SpellsInput, SpellsNoInput, is_fine, is_white, pieces_behind, pieces_of, word_in};

use crate::decimal::number_in;
use std::alloc::Global;
use std::str;

/// Why a text gave no words.
#[derive(Clone, Copy, Debug, PartialEq, Eq)]
pub enum InputFault {
    /// The first word that isn't a number of at most 65,535 begins at this offset, in bytes.
    BadWord { at: usize },
    /// There was no memory for the words.
    Memory,
}

fn is_white(byte: u8) -> bool
    ensures { result ≡ is_white byte }
{
    byte == b' ' || byte == b'\t' || byte == b'\r' || byte == b'\n'
}

fn word_in(piece: &[u8]) -> Option<u16>
    ensures { result ≡ word_in piece.now }
{
    match str::from_utf8(piece) {
        Ok(text) => match number_in(text, 0, 65_535) {
            Some(number) => Some(number as u16),
            None => None,
        },
        Err(_) => None,
    }
}

fn white_in(text: &[u8]) -> Option<usize>
    ensures at { result ≡ position is_white text.now }
    ensures within { IfSome result (λ at. at < length text.now) }
{
    text.iter().position(|b| is_white(*b))
}

// How many bytes stand before the first white one, or in all.
fn before_white(text: &[u8]) -> usize
    ensures count { result ≡ position_or_len is_white text.now }
    ensures within { result ≤ length text.now }
{
    match white_in(text) {
        Some(at) => at,
        None => text.len(),
    }
}

// The first piece, and what stands behind its white byte, if it has one.
fn cut(text: &[u8]) -> (&[u8], Option<&[u8]>)
    ensures pieces { pieces_of text.now ≡ result.0.now ∷ pieces_behind result.1 }
    ensures length { IfSome result.1 (λ behind. length result.0.now + 1 + length behind.now ≡ length text.now) }
{
    let end = before_white(text);
    if end == text.len() {
        (text, None)
    } else {
        (&text[..end], Some(&text[end + 1..]))
    }
}

// Adds the word of a piece, if it is one, and tells whether the piece is empty or a word.
fn add_piece(words: &mut Vec<u16>, piece: &[u8]) -> Result<bool, InputFault>
    ensures told { IfOk result (λ fine. fine ≡ is_fine piece.now) }
    ensures adds { IfOk result (λ _. words.new.items ≡ words.old.items ++ option_to_list (word_in piece.now)) }
    ensures fault { IfErr result (λ fault. fault ≡ InputFault.Memory) }
{
    match word_in(piece) {
        Some(word) => match words.push(word) {
            Ok(()) => Ok(true),
            Err(_) => Err(InputFault::Memory),
        },
        None => Ok(piece.is_empty()),
    }
}

/// The words of an input text: decimal numbers of at most 65,535, zeros before them allowed, parted by blanks, tabs,
/// carriage returns and line feeds. Any number of those may stand before, between and behind.
pub fn read_input(alloc: Global, text: &[u8]) -> Result<Vec<u16>, InputFault>
    ensures ok { IfOk result (λ words. SpellsInput text.now words.items) }
    ensures only { IfOk result (λ words. (other : List ℕ) → SpellsInput text.now other → other ≡ words.items) }
    ensures err { IfErr result (λ fault. SpellsNoInput text.now fault) }
    ensures refused { IfErr result (λ fault. IsRefused text.now fault) }
{
    let mut words = Vec::new(alloc);
    let mut at = 0;
    let mut rest = text;
    loop {
        let (piece, behind) = cut(rest);
        if !add_piece(&mut words, piece)? {
            return Err(InputFault::BadWord { at });
        }
        let Some(behind) = behind else {
            return Ok(words);
        };
        at += piece.len() + 1;
        rest = behind;
    }
}
