ghost use Rattle.std.specs.Prelude.{◌≡◌, ◌≤◌, ◌+◌, length, drop, IfSome};
ghost use Rattle.c_lex.specs.Gaps.{gap, close_at, comment_to, is_include, hash_piece};

use crate::bytes::{are_blank, is_blank, line_len};
use crate::piece::{Cause, Piece};
use crate::spot::Before;

// Where the end of a comment first stands.
fn close_at(text: &[u8]) -> Option<usize>
    ensures value { result ≡ close_at text.now }
    ensures within { IfSome result (λ n. n + 2 ≤ length text.now) }
{
    let mut len = 0;
    let mut rest = text;
    while let [_, after @ ..] = rest {
        if rest.starts_with(b"*/") {
            return Some(len);
        }
        len += 1;
        rest = after;
    }
    None
}

fn comment_piece(text: &[u8]) -> Piece
    requires { 2 ≤ length text.now }
    ensures { result ≡ comment_to (close_at (drop 2 text.now)) }
{
    match close_at(&text[2..]) {
        Some(len) => Piece::Skip(len + 4),
        None => Piece::Stop(Cause::OpenComment),
    }
}

fn is_include(line: &[u8]) -> bool
    ensures { result ≡ is_include line.now }
{
    line.starts_with(b"#include <stdint.h>") && are_blank(&line[19..])
}

fn hash_piece(before: Before, text: &[u8]) -> Piece
    ensures { result ≡ hash_piece before text.now }
{
    match before {
        Before::TokenOnLine => Piece::Stop(Cause::BadByte),
        Before::TokenAbove => Piece::Stop(Cause::HashLine),
        Before::NoToken => {
            let len = line_len(text);
            if is_include(&text[..len]) {
                Piece::Skip(len)
            } else {
                Piece::Stop(Cause::HashLine)
            }
        }
    }
}

/// What stands at the front of the text, if it is no token: white space, a comment or a line that begins with `#`.
pub fn gap(before: Before, text: &[u8]) -> Option<Piece>
    ensures { result ≡ gap before text.now }
{
    let [first, ..] = text else {
        return None;
    };
    if is_blank(*first) {
        Some(Piece::Skip(1))
    } else if text.starts_with(b"//") {
        Some(Piece::Skip(line_len(text)))
    } else if text.starts_with(b"/*") {
        Some(comment_piece(text))
    } else if *first == b'#' {
        Some(hash_piece(before, text))
    } else {
        None
    }
}
