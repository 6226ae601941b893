//! The text of a supply: a row on each line, `AMOUNT keep` or `AMOUNT lose HHHH`.
ghost use Rattle.std.specs.Prelude.{◌≡◌, ◌<◌, ◌≤◌, ◌+◌, ◌==◌, ◌++◌, ◌∷◌, IfErr, IfOk, IfSome, length, option_to_list};
ghost use Rattle.std.specs.List.{position, position_or_len};
ghost use Rattle.supply_trace.specs.Rows.{SpellsNoRows, SpellsRows, is_line, lines_behind, amount_behind, amount_of, bad_line, digit_of, is_blank, is_empty, is_feed, junk_of, lines_of, refill_of, row_of, rows_of};

use msp430_machine::Refill;
use std::alloc::Global;

const MOST: u64 = 1_000_000_000;

/// Why a text gave no rows.
#[derive(Clone, Copy, Debug, PartialEq, Eq)]
pub enum TraceFault {
    /// The first line that is neither empty nor a row begins at this offset, in bytes.
    BadLine { at: usize },
    /// There was no memory for the rows.
    Memory,
}

fn digit(byte: u8, radix: u32) -> Option<u32>
    requires above { 2 ≤ radix }
    requires below { radix ≤ 36 }
    ensures { result ≡ digit_of radix byte }
{
    (byte as char).to_digit(radix)
}

// The number that the digits write, if it is at most a thousand million.
fn number_of(digits: &[u8]) -> Option<u64>
    ensures { result ≡ amount_behind 0 digits.now }
{
    let mut number = 0;
    let mut rest = digits;
    while let [first, others @ ..] = rest {
        number = number * 10 + u64::from(digit(*first, 10)?);
        if number > MOST {
            return None;
        }
        rest = others;
    }
    Some(number)
}

fn amount_of(digits: &[u8]) -> Option<u64>
    ensures { result ≡ amount_of digits.now }
{
    if digits.is_empty() {
        None
    } else {
        number_of(digits)
    }
}

fn junk_of(digits: &[u8]) -> Option<u16>
    ensures { result ≡ junk_of digits.now }
{
    match digits {
        [a, b, c, d] => {
            let a = digit(*a, 16)?;
            let b = digit(*b, 16)?;
            let c = digit(*c, 16)?;
            let d = digit(*d, 16)?;
            Some((((a * 16 + b) * 16 + c) * 16 + d) as u16)
        }
        _ => None,
    }
}

fn refill_of(amount: u64, words: &[u8]) -> Option<Refill>
    ensures { result ≡ refill_of amount words.now }
{
    if words == b"keep".as_slice() {
        return Some(Refill {
            amount,
            keep: true,
            junk: 0,
        });
    }
    if !words.starts_with(b"lose ") {
        return None;
    }
    let junk = junk_of(&words[5..])?;
    Some(Refill {
        amount,
        keep: false,
        junk,
    })
}

fn found_in(text: &[u8], stop: u8) -> Option<usize>
    ensures at { result ≡ position (λ b. b == stop) text.now }
    ensures within { IfSome result (λ at. at < length text.now) }
{
    text.iter().position(|b| *b == stop)
}

// How many bytes stand before the first of this value, or in all.
fn before(text: &[u8], stop: u8) -> usize
    ensures count { result ≡ position_or_len (λ b. b == stop) text.now }
    ensures within { result ≤ length text.now }
{
    match found_in(text, stop) {
        Some(at) => at,
        None => text.len(),
    }
}

fn row_of(line: &[u8]) -> Option<Refill>
    ensures { result ≡ row_of line.now }
{
    let end = before(line, b' ');
    let amount = amount_of(&line[..end])?;
    if end == line.len() {
        refill_of(amount, &[])
    } else {
        refill_of(amount, &line[end + 1..])
    }
}

// The first line, and what stands behind its line feed, if it has one.
fn cut(text: &[u8]) -> (&[u8], Option<&[u8]>)
    ensures lines { lines_of text.now ≡ result.0.now ∷ lines_behind result.1 }
    ensures length { IfSome result.1 (λ behind. length result.0.now + 1 + length behind.now ≡ length text.now) }
{
    let end = before(text, b'\n');
    if end == text.len() {
        (text, None)
    } else {
        (&text[..end], Some(&text[end + 1..]))
    }
}

// Adds the row of a line, if it has one, and tells whether the line is empty or a row.
fn add_line(rows: &mut Vec<Refill>, line: &[u8]) -> Result<bool, TraceFault>
    ensures told { IfOk result (λ good. good ≡ is_line line.now) }
    ensures adds { IfOk result (λ _. rows.new.items ≡ rows.old.items ++ option_to_list (row_of line.now)) }
    ensures fault { IfErr result (λ fault. fault ≡ TraceFault.Memory) }
{
    match row_of(line) {
        Some(row) => match rows.push(row) {
            Ok(()) => Ok(true),
            Err(_) => Err(TraceFault::Memory),
        },
        None => Ok(line.is_empty()),
    }
}

/// The rows of a text. Each line is empty or a row: a decimal amount of at most a thousand million energy units, a blank,
/// and `keep`, or `lose`, a blank and four hexadecimal digits in either case. The last line feed may be missing. A row
/// that keeps has junk 0.
pub fn rows(alloc: Global, text: &[u8]) -> Result<Vec<Refill>, TraceFault>
    ensures ok { IfOk result (λ rows. SpellsRows text.now rows.items) }
    ensures err { IfErr result (λ fault. SpellsNoRows text.now fault) }
{
    let mut rows = Vec::new(alloc);
    let mut at = 0;
    let mut rest = text;
    loop {
        let (line, behind) = cut(rest);
        if !add_line(&mut rows, line)? {
            return Err(TraceFault::BadLine { at });
        }
        let Some(behind) = behind else {
            return Ok(rows);
        };
        at += line.len() + 1;
        rest = behind;
    }
}
