ghost use Rattle.std.specs.Prelude.{◌≡◌, ◌<◌, ◌≤◌, length, Ok, Err};
ghost use Rattle.c_lex.specs.Tokens.{word_kind, taken};
ghost use Rattle.c_lex.specs.Scan.{character_piece, sign_piece, scan_token, scan, Advances};

use crate::bytes::{is_digit, is_nondigit, is_plain, name_len, number_len};
use crate::gaps::gap;
use crate::literals::{escaped, number_kind};
use crate::piece::{Cause, Piece};
use crate::spot::Before;
use crate::token::TokenKind;
use crate::words::{is_keyword, sign_len};

fn word_kind(word: &[u8]) -> Result<TokenKind, Cause>
    ensures { result ≡ word_kind word.now }
{
    if word.len() > 63 {
        Err(Cause::BadByte)
    } else if is_keyword(word) {
        Ok(TokenKind::Keyword)
    } else {
        Ok(TokenKind::Name)
    }
}

fn taken(kind: Result<TokenKind, Cause>, len: usize) -> Piece
    ensures { result ≡ taken kind len }
{
    match kind {
        Ok(kind) => Piece::Take(kind, len),
        Err(cause) => Piece::Stop(cause),
    }
}

fn character_piece(text: &[u8]) -> Piece
    ensures { result ≡ character_piece text.now }
{
    match text {
        [_, b'\\', c, b'\'', ..] => match escaped(*c) {
            Some(value) => Piece::Take(TokenKind::Number(u16::from(value), false), 4),
            None => Piece::Stop(Cause::BadLiteral),
        },
        [_, b, b'\'', ..] if is_plain(*b) => {
            Piece::Take(TokenKind::Number(u16::from(*b), false), 3)
        }
        _ => Piece::Stop(Cause::BadLiteral),
    }
}

fn sign_piece(len: usize) -> Piece
    ensures { result ≡ sign_piece len }
{
    if len == 0 {
        Piece::Stop(Cause::BadByte)
    } else {
        Piece::Take(TokenKind::Sign, len)
    }
}

fn scan_token(text: &[u8]) -> Piece
    ensures { result ≡ scan_token text.now }
{
    let [first, ..] = text else {
        return Piece::Stop(Cause::BadByte);
    };
    if is_nondigit(*first) {
        let len = name_len(text);
        taken(word_kind(&text[..len]), len)
    } else if is_digit(*first) {
        let len = number_len(text);
        taken(number_kind(&text[..len]), len)
    } else if *first == b'\'' {
        character_piece(text)
    } else {
        sign_piece(sign_len(text))
    }
}

/// What stands at the front of a text that isn't empty.
pub fn scan(before: Before, text: &[u8]) -> Piece
    requires { 0 < length text.now }
    ensures piece { result ≡ scan before text.now }
    ensures within { Advances result (length text.now) }
{
    match gap(before, text) {
        Some(piece) => piece,
        None => scan_token(text),
    }
}
