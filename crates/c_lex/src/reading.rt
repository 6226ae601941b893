ghost use Rattle.std.specs.Prelude.{◌≡◌, ◌+◌, ◌<◌, ◌≤◌, ◌^◌, ◌≢◌, List, length, IfOk, IfErr};
ghost use Rattle.c_lex.specs.Gaps.{past, new_line};
ghost use Rattle.c_lex.specs.Cut.{place_behind, behind, fault_at, Cut, Faulty};
ghost use Rattle.c_lex.specs.declared.token.Token.{Token};
ghost use Rattle.c_lex.specs.declared.token.LexFault.{LexFault};

use crate::piece::{Cause, Piece};
use crate::scanning::scan;
use crate::spot::{Before, Spot};
use crate::token::{LexFault, Token};
use base_io::Place;
use std::alloc::Global;

// The place behind these bytes.
fn place_behind(place: Place, bytes: &[u8]) -> Place
    requires small { place.line + place.column + length bytes.now < 2 ^ 32 }
    requires column { 1 ≤ place.column }
    ensures value { result ≡ place_behind place bytes.now }
    ensures column { 1 ≤ result.column }
    ensures sum { result.line + result.column ≤ place.line + place.column + length bytes.now }
{
    let mut place = place;
    let mut rest = bytes;
    while let [b, after @ ..] = rest {
        place = if *b == b'\n' {
            Place {
                line: place.line + 1,
                column: 1,
            }
        } else {
            Place {
                line: place.line,
                column: place.column + 1,
            }
        };
        rest = after;
    }
    place
}

fn new_line(before: Before) -> Before
    ensures { result ≡ new_line before }
{
    match before {
        Before::NoToken => Before::NoToken,
        Before::TokenAbove | Before::TokenOnLine => Before::TokenAbove,
    }
}

// What stands before a spot behind the bytes between tokens that begin this text.
fn past(before: Before, text: &[u8]) -> Before
    ensures { result ≡ past before text.now }
{
    match text {
        [b'\n', ..] => new_line(before),
        _ => before,
    }
}

// Behind so many bytes of the text that is left.
fn behind(spot: Spot, before: Before, len: usize, rest: &[u8]) -> Spot
    requires within { len ≤ length rest.now }
    requires small { spot.place.line + spot.place.column + length rest.now < 2 ^ 32 }
    requires fits { spot.at + length rest.now < 2 ^ 32 }
    requires column { 1 ≤ spot.place.column }
    ensures column { 1 ≤ result.place.column }
    ensures value { result ≡ behind spot before len rest.now }
    ensures at { result.at ≡ spot.at + len }
    ensures sum { result.place.line + result.place.column ≤ spot.place.line + spot.place.column + len }
{
    Spot {
        at: spot.at + len,
        place: place_behind(spot.place, &rest[..len]),
        before,
    }
}

fn fault_at(cause: Cause, at: Place) -> LexFault
    ensures { result ≡ fault_at cause at }
{
    match cause {
        Cause::BadByte => LexFault::BadByte { at },
        Cause::BadLiteral => LexFault::BadLiteral { at },
        Cause::TooBig => LexFault::TooBig { at },
        Cause::OpenComment => LexFault::OpenComment { at },
        Cause::HashLine => LexFault::HashLine { at },
    }
}

/// The tokens of a text, in its order, or its first lexical fault (C11 6.4). The time is in proportion to the text.
pub fn tokens(alloc: Global, text: &[u8]) -> Result<Vec<Token>, LexFault>
    requires { length text.now ≤ 65536 }
    // The text is cut into these tokens, and into no others.
    ensures found { IfOk result (λ tokens. Cut text.now tokens.items) }
    ensures only { IfOk result (λ tokens. (others : List Token) → Cut text.now others → tokens.items ≡ others) }
    // A fault is the first of the text, and its only first one; then the text is cut into no tokens.
    ensures fault { IfErr result (λ fault. fault ≢ LexFault.Memory → Faulty text.now fault) }
    ensures first { IfErr result (λ fault. fault ≢ LexFault.Memory → (other : LexFault) → Faulty text.now other → fault ≡ other) }
    ensures none { IfErr result (λ fault. fault ≢ LexFault.Memory → (others : List Token) → Cut text.now others → ⊥) }
{
    let mut tokens = Vec::new(alloc);
    let mut spot = Spot {
        at: 0,
        place: Place { line: 1, column: 1 },
        before: Before::NoToken,
    };
    let mut rest = text;
    while !rest.is_empty() {
        match scan(spot.before, rest) {
            Piece::Skip(len) => {
                spot = behind(spot, past(spot.before, rest), len, rest);
                rest = &rest[len..];
            }
            Piece::Take(kind, len) => {
                let token = Token {
                    kind,
                    start: spot.at,
                    end: spot.at + len,
                    place: spot.place,
                };
                if tokens.push(token).is_err() {
                    return Err(LexFault::Memory);
                }
                spot = behind(spot, Before::TokenOnLine, len, rest);
                rest = &rest[len..];
            }
            Piece::Stop(cause) => return Err(fault_at(cause, spot.place)),
        }
    }
    Ok(tokens)
}
