ghost use Rattle.std.specs.Prelude.{◌≡◌, ◌≤◌, ◌<◌, length, Ok, Err, min};
ghost use Rattle.c_lex.specs.Literals.{digit_of, are_digits, value_of, base_of, ends_in_suffix, number_of, number_kind, escaped};

use crate::piece::Cause;
use crate::token::TokenKind;

fn digit_of(b: u8) -> u8
    ensures value { result ≡ digit_of b }
    ensures below { result ≤ 16 }
{
    match b {
        b'0'..=b'9' => b - b'0',
        b'a'..=b'f' => b - b'a' + 10,
        b'A'..=b'F' => b - b'A' + 10,
        _ => 16,
    }
}

fn are_digits(base: u8, digits: &[u8]) -> bool
    ensures { result ≡ are_digits base digits.now }
{
    digits.iter().all(|b| digit_of(*b) < base)
}

// The value, or one above 65,535 where the value is above it.
fn value_within(base: u8, digits: &[u8]) -> u32
    requires { (8 ≤ base) × (base ≤ 16) }
    ensures { min result 65536 ≡ min (value_of base digits.now) 65536 }
{
    let mut value = 0u32;
    let mut rest = digits;
    while let [b, after @ ..] = rest {
        value = (value * u32::from(base) + u32::from(digit_of(*b))).min(65536);
        rest = after;
    }
    value
}

// The base that a number's first bytes tell, and how many of them are no digits.
fn base_of(number: &[u8]) -> (u8, usize)
    ensures base { (result.0 ≡ (base_of number.now).0) × (result.1 ≡ (base_of number.now).1) }
    ensures range { (8 ≤ result.0) × (result.0 ≤ 16) × (result.1 ≤ length number.now) }
{
    if number.starts_with(b"0x") || number.starts_with(b"0X") {
        (16, 2)
    } else if number.starts_with(b"0") {
        (8, 0)
    } else {
        (10, 0)
    }
}

fn ends_in_suffix(word: &[u8]) -> bool
    requires { 0 < length word.now }
    ensures { result ≡ ends_in_suffix word.now }
{
    let last = word[word.len() - 1];
    last == b'u' || last == b'U'
}

fn number_of(base: u8, suffixed: bool, digits: &[u8]) -> Result<TokenKind, Cause>
    requires { (8 ≤ base) × (base ≤ 16) }
    ensures { result ≡ number_of base suffixed digits.now }
{
    if digits.is_empty() || !are_digits(base, digits) {
        return Err(Cause::BadLiteral);
    }
    let value = value_within(base, digits);
    if value > 65535 {
        return Err(Cause::TooBig);
    }
    if value > 32767 && base == 10 && !suffixed {
        return Err(Cause::TooBig);
    }
    Ok(TokenKind::Number(value as u16, suffixed || value > 32767))
}

/// The value and type of a number, or what is wrong with it.
pub fn number_kind(word: &[u8]) -> Result<TokenKind, Cause>
    requires { 0 < length word.now }
    ensures { result ≡ number_kind word.now }
{
    let suffixed = ends_in_suffix(word);
    let body = if suffixed {
        &word[..word.len() - 1]
    } else {
        word
    };
    let (base, marks) = base_of(body);
    number_of(base, suffixed, &body[marks..])
}

/// The byte that stands for the escape with this letter.
pub fn escaped(b: u8) -> Option<u8>
    ensures { result ≡ escaped b }
{
    match b {
        b'n' => Some(b'\n'),
        b't' => Some(b'\t'),
        b'r' => Some(b'\r'),
        b'0' => Some(0),
        b'\\' => Some(b'\\'),
        b'\'' => Some(b'\''),
        _ => None,
    }
}
