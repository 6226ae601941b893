//! Parts of lines: numbers, words, and what stands between marks.
ghost use Rattle.std.specs.Prelude.{◌≡◌, ◌<◌, ◌≤◌, ◌+◌, ◌*◌, ◌-◌, ◌==◌, ◌∷◌, Some, None, IfNone, IfSome, length, nat_lt, if◌then◌else◌};
ghost use Rattle.std.specs.Char.{digit_value};
ghost use Rattle.std.specs.List.{position_or_len};
ghost use Rattle.certificate.specs.Fields.{after_mark, before_mark, decimal_digit, number_behind, number_of, longer_number, parts_behind, parts_of, upper_digit, word_of};
ghost use Rattle.certificate.specs.Texts.{Lacks};

use memchr::memchr;

const MOST: u64 = 9_223_372_036_854_775_807;

fn decimal_digit(byte: u8) -> Option<u64>
    ensures value { result ≡ decimal_digit byte }
    ensures small { IfSome result (λ d. d < 10) }
{
    match byte {
        b'0'..=b'9' => Some(u64::from(byte - b'0')),
        _ => None,
    }
}

// The number with a digit more, if it is below 2^63.
fn longer(number: u64, digit: u64) -> Option<u64>
    requires { digit < 10 }
    ensures value { result ≡ longer_number number digit }
    ensures small { IfSome result (λ n. n ≤ 9223372036854775807) }
{
    if number > MOST / 10 {
        return None;
    }
    let longer = number * 10 + digit;
    if longer > MOST { None } else { Some(longer) }
}

fn number_behind(start: u64, digits: &[u8]) -> Option<u64>
    requires { start ≤ 9223372036854775807 }
    ensures value { result ≡ number_behind start digits.now }
    ensures small { IfSome result (λ n. n ≤ 9223372036854775807) }
{
    let mut number = start;
    let mut rest = digits;
    while let [first, others @ ..] = rest {
        number = longer(number, decimal_digit(*first)?)?;
        rest = others;
    }
    Some(number)
}

/// The number that the digits write, if it is below 2^63 and has no leading zero.
pub fn number_of(digits: &[u8]) -> Option<u64>
    ensures value { result ≡ number_of digits.now }
    ensures small { IfSome result (λ n. n ≤ 9223372036854775807) }
{
    match digits {
        [] => None,
        [b'0'] => Some(0),
        [b'0', ..] => None,
        _ => number_behind(0, digits),
    }
}

fn upper_digit(byte: u8) -> Option<u16>
    ensures value { result ≡ upper_digit byte }
    ensures small { IfSome result (λ d. d < 16) }
{
    match byte {
        b'0'..=b'9' => Some(u16::from(byte - b'0')),
        b'A'..=b'F' => Some(u16::from(byte - b'A' + 10)),
        _ => None,
    }
}

/// The word that four upper-case hexadecimal digits write.
pub fn word_of(digits: &[u8]) -> Option<u16>
    ensures { result ≡ word_of digits.now }
{
    match digits {
        [a, b, c, d] => {
            let a = upper_digit(*a)?;
            let b = upper_digit(*b)?;
            let c = upper_digit(*c)?;
            let d = upper_digit(*d)?;
            Some(4096 * a + 256 * b + 16 * c + d)
        }
        _ => None,
    }
}

// How many bytes stand before the first mark, or in all.
fn before(text: &[u8], mark: u8) -> usize
    ensures count { result ≡ position_or_len (λ b. b == mark) text.now }
    ensures within { result ≤ length text.now }
{
    match memchr(mark, text) {
        Some(at) => at,
        None => text.len(),
    }
}

/// The first part, and what stands behind its mark, if it has one.
pub fn cut(text: &[u8], mark: u8) -> (&[u8], Option<&[u8]>)
    ensures parts { parts_of mark text.now ≡ result.0.now ∷ parts_behind mark result.1 }
    ensures whole { IfNone result.1 (result.0.now ≡ text.now) }
    ensures lacks { IfNone result.1 (Lacks mark result.0.now) }
    ensures length { IfSome result.1 (λ behind. length result.0.now + 1 + length behind.now ≡ length text.now) }
{
    let end = before(text, mark);
    if end == text.len() {
        (text, None)
    } else {
        (&text[..end], Some(&text[end + 1..]))
    }
}

/// What stands before the first mark, and behind it. Where none stands, nothing is behind it.
pub fn split(text: &[u8], mark: u8) -> (&[u8], &[u8])
    ensures before { result.0.now ≡ before_mark mark text.now }
    ensures after { result.1.now ≡ after_mark mark text.now }
{
    let end = before(text, mark);
    if end == text.len() {
        (text, &[])
    } else {
        (&text[..end], &text[end + 1..])
    }
}
