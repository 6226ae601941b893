//! The text that is written.
ghost use Rattle.std.specs.Prelude.{◌≡◌, ◌++◌, ◌∷◌, ◌<◌, [], flat_map, map, decimal, codes, OnOk, OnErr};
ghost use Rattle.std.specs.Fmt.{signed_decimal};
ghost use Rattle.base_io.specs.Digits.{hex_digit, hex_word};
ghost use Rattle.certificate.specs.Appending.{Appends, more_parts};
ghost use Rattle.certificate.specs.Line.{function, point, stretch};
ghost use Rattle.certificate.specs.Rows.{flat_of, function_of, kind_of, point_of, spent_of};
ghost use Rattle.certificate.specs.Spelling.{fact_text, facts_text, fed_line, flat_text, function_text, point_text, rows_text, slot_text, span_text, spans_text, spent_text, stretch_text, term_text, text_of};
ghost use Rattle.certificate.specs.Texts.{Holds};
ghost use Rattle.certificate.specs.Whole.{certificate_of};

use crate::{Affine, Cert, Fact, FlatPart, FunctionRow, PointRow, Slot, Span, StretchRow, Term};
use base_io::Memory;
use itoa::Buffer;

/// Appends the one text of the certificate. Where there is no memory, nothing is appended.
pub fn write(c: &Cert, to: &mut Vec<u8>) -> Result<(), Memory>
    ensures appended { OnOk result (to.new.items ≡ to.old.items ++ text_of (certificate_of c.now)) }
    ensures unchanged { OnErr result (to.new.items ≡ to.old.items) }
    // What is written is read again as the certificate.
    ensures again { Holds (text_of (certificate_of c.now)) (certificate_of c.now) }
{
    let before = to.len();
    let outcome = append(c, to);
    if outcome.is_err() {
        to.truncate(before);
    }
    outcome
}

// Appends the certificate's text. Where there is no memory, a part of it may have been appended.
fn append(c: &Cert, to: &mut Vec<u8>) -> Result<(), Memory>
    ensures { Appends (text_of (certificate_of c.now)) result to.old.items to.new.items }
{
    append_budget(c.budget, to)?;
    append_functions(&c.functions, to)?;
    append_stretches(&c.stretches, to)?;
    append_points(&c.points, to)?;
    put(to, b"end\n")
}

// Appends the first line and that of the budget.
fn append_budget(budget: u64, to: &mut Vec<u8>) -> Result<(), Memory>
    ensures { Appends (codes "schematic-cert 1\nbudget " ++ fed_line (decimal budget)) result to.old.items to.new.items }
{
    put(to, b"schematic-cert 1\nbudget ")?;
    put_number(budget, to)?;
    put(to, b"\n")
}

fn append_functions(functions: &[FunctionRow], to: &mut Vec<u8>) -> Result<(), Memory>
    ensures { Appends (rows_text (map function (map function_of functions.now))) result to.old.items to.new.items }
{
    for row in functions {
        append_function(row, to)?;
    }
    Ok(())
}

fn append_stretches(stretches: &[StretchRow], to: &mut Vec<u8>) -> Result<(), Memory>
    ensures { Appends (rows_text (map stretch stretches.now)) result to.old.items to.new.items }
{
    for row in stretches {
        append_stretch(*row, to)?;
    }
    Ok(())
}

fn append_points(points: &[PointRow], to: &mut Vec<u8>) -> Result<(), Memory>
    ensures { Appends (rows_text (map point (map point_of points.now))) result to.old.items to.new.items }
{
    for row in points {
        append_point(row, to)?;
    }
    Ok(())
}

fn append_function(row: &FunctionRow, to: &mut Vec<u8>) -> Result<(), Memory>
    ensures { Appends (fed_line (function_text (function_of row.now))) result to.old.items to.new.items }
{
    append_extent(row.start, row.end, row.height, to)?;
    append_flat(&row.flat, to)?;
    put(to, b"\n")
}

// Appends from where to where a function's code goes, its height, and the blank behind it.
fn append_extent(start: u16, end: u16, height: u64, to: &mut Vec<u8>) -> Result<(), Memory>
    ensures { Appends (codes "F " ++ (hex_word start ++ 32 ∷ (hex_word end ++ 32 ∷ (decimal height ++ 32 ∷ [])))) result to.old.items to.new.items }
{
    put(to, b"F ")?;
    put_word(start, b' ', to)?;
    put_word(end, b' ', to)?;
    put_number_and(height, b' ', to)
}

fn append_flat(flat: &Option<FlatPart>, to: &mut Vec<u8>) -> Result<(), Memory>
    ensures { Appends (flat_text (kind_of flat.now)) result to.old.items to.new.items }
{
    match flat {
        None => put(to, b"split"),
        Some(part) => {
            put(to, b"flat ")?;
            put_number_and(part.cost, b' ', to)?;
            append_spans(&part.writes, to)
        }
    }
}

fn append_stretch(row: StretchRow, to: &mut Vec<u8>) -> Result<(), Memory>
    ensures { Appends (fed_line (stretch_text row)) result to.old.items to.new.items }
{
    put(to, b"S ")?;
    put_word(row.head, b' ', to)?;
    put_number_and(row.chain, b' ', to)?;
    put_number_and(row.turns, b' ', to)?;
    put_number_and(row.cost, b'\n', to)
}

fn append_point(row: &PointRow, to: &mut Vec<u8>) -> Result<(), Memory>
    ensures { Appends (fed_line (point_text (point_of row.now))) result to.old.items to.new.items }
{
    append_place(row.address, row.stretch, to)?;
    append_spent(&row.spent, to)?;
    put(to, b" ")?;
    append_facts(&row.facts, to)?;
    put(to, b" ")?;
    append_spans(&row.fresh, to)?;
    put(to, b"\n")
}

// Appends where a point stands, and the blank behind it.
fn append_place(address: u16, stretch: u16, to: &mut Vec<u8>) -> Result<(), Memory>
    ensures { Appends (codes "P " ++ (hex_word address ++ 32 ∷ (hex_word stretch ++ 32 ∷ []))) result to.old.items to.new.items }
{
    put(to, b"P ")?;
    put_word(address, b' ', to)?;
    put_word(stretch, b' ', to)
}

fn append_spent(spent: &Affine, to: &mut Vec<u8>) -> Result<(), Memory>
    ensures { Appends (spent_text (spent_of spent.now)) result to.old.items to.new.items }
{
    put_signed(spent.base, to)?;
    append_terms(&spent.terms, to)
}

fn append_terms(terms: &[Term], to: &mut Vec<u8>) -> Result<(), Memory>
    ensures { Appends (flat_map term_text terms.now) result to.old.items to.new.items }
{
    for term in terms {
        append_term(*term, to)?;
    }
    Ok(())
}

fn append_term(term: Term, to: &mut Vec<u8>) -> Result<(), Memory>
    ensures { Appends (term_text term) result to.old.items to.new.items }
{
    put(to, &[if term.minus { b'-' } else { b'+' }])?;
    put_number_and(term.factor, b'*', to)?;
    append_slot(term.of, to)
}

fn append_slot(slot: Slot, to: &mut Vec<u8>) -> Result<(), Memory>
    ensures { Appends (slot_text slot) result to.old.items to.new.items }
{
    match slot {
        Slot::Reg(number) => {
            put(to, b"R")?;
            put_number(u64::from(number), to)
        }
        Slot::Word(address) => put_address(address, to),
    }
}

// Appends facts with commas between, or a dash for none.
fn append_facts(facts: &[Fact], to: &mut Vec<u8>) -> Result<(), Memory>
    ensures { Appends (facts_text facts.now) result to.old.items to.new.items }
{
    match facts {
        [] => put(to, b"-"),
        [first, rest @ ..] => {
            append_fact(*first, to)?;
            append_more_facts(rest, to)
        }
    }
}

fn append_more_facts(facts: &[Fact], to: &mut Vec<u8>) -> Result<(), Memory>
    ensures { Appends (more_parts (map fact_text facts.now)) result to.old.items to.new.items }
{
    for fact in facts {
        append_next_fact(*fact, to)?;
    }
    Ok(())
}

fn append_next_fact(fact: Fact, to: &mut Vec<u8>) -> Result<(), Memory>
    ensures { Appends (44 ∷ fact_text fact) result to.old.items to.new.items }
{
    put(to, b",")?;
    append_fact(fact, to)
}

fn append_fact(fact: Fact, to: &mut Vec<u8>) -> Result<(), Memory>
    ensures { Appends (fact_text fact) result to.old.items to.new.items }
{
    append_slot(fact.of, to)?;
    put(to, b"=")?;
    put_number(fact.least, to)?;
    put(to, b"..")?;
    put_number(fact.greatest, to)?;
    put(
        to,
        if fact.even {
            b"e".as_slice()
        } else {
            b"".as_slice()
        },
    )
}

// Appends spans with commas between, or a dash for none.
fn append_spans(spans: &[Span], to: &mut Vec<u8>) -> Result<(), Memory>
    ensures { Appends (spans_text spans.now) result to.old.items to.new.items }
{
    match spans {
        [] => put(to, b"-"),
        [first, rest @ ..] => {
            append_span(*first, to)?;
            append_more_spans(rest, to)
        }
    }
}

fn append_more_spans(spans: &[Span], to: &mut Vec<u8>) -> Result<(), Memory>
    ensures { Appends (more_parts (map span_text spans.now)) result to.old.items to.new.items }
{
    for span in spans {
        append_next_span(*span, to)?;
    }
    Ok(())
}

fn append_next_span(span: Span, to: &mut Vec<u8>) -> Result<(), Memory>
    ensures { Appends (44 ∷ span_text span) result to.old.items to.new.items }
{
    put(to, b",")?;
    append_span(span, to)
}

fn append_span(span: Span, to: &mut Vec<u8>) -> Result<(), Memory>
    ensures { Appends (span_text span) result to.old.items to.new.items }
{
    put_word(span.lo, b'-', to)?;
    put_address(span.hi, to)
}

fn put_signed(number: i64, to: &mut Vec<u8>) -> Result<(), Memory>
    ensures { Appends (signed_decimal number) result to.old.items to.new.items }
{
    let mut buffer = Buffer::new();
    put(to, buffer.format(number).as_bytes())
}

fn put_number(number: u64, to: &mut Vec<u8>) -> Result<(), Memory>
    ensures { Appends (decimal number) result to.old.items to.new.items }
{
    let mut buffer = Buffer::new();
    put(to, buffer.format(number).as_bytes())
}

fn put_number_and(number: u64, mark: u8, to: &mut Vec<u8>) -> Result<(), Memory>
    ensures { Appends (decimal number ++ mark ∷ []) result to.old.items to.new.items }
{
    put_number(number, to)?;
    put(to, &[mark])
}

fn put_address(address: u16, to: &mut Vec<u8>) -> Result<(), Memory>
    ensures { Appends (hex_word address) result to.old.items to.new.items }
{
    let digits = [
        hex_digit(address / 4096),
        hex_digit(address / 256 % 16),
        hex_digit(address / 16 % 16),
        hex_digit(address % 16),
    ];
    put(to, &digits)
}

fn put_word(address: u16, mark: u8, to: &mut Vec<u8>) -> Result<(), Memory>
    ensures { Appends (hex_word address ++ mark ∷ []) result to.old.items to.new.items }
{
    put_address(address, to)?;
    put(to, &[mark])
}

fn hex_digit(digit: u16) -> u8
    requires { digit < 16 }
    ensures { result ≡ hex_digit digit }
{
    if digit < 10 {
        48 + digit as u8
    } else {
        55 + digit as u8
    }
}

fn put(to: &mut Vec<u8>, piece: &[u8]) -> Result<(), Memory>
    ensures { Appends piece.now result to.old.items to.new.items }
{
    match to.extend_from_slice(piece) {
        Ok(()) => Ok(()),
        Err(_) => Err(Memory),
    }
}
