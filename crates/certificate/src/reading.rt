//! Whole texts.
ghost use Rattle.std.specs.Prelude.{◌≡◌, ◌≢◌, ◌++◌, ◌∷◌, [], ℕ, List, map, IfOk, IfErr, MatchResult};
ghost use Rattle.certificate.specs.Appending.{RowsRead, with_row};
ghost use Rattle.certificate.specs.Grammar.{IsCertificate};
ghost use Rattle.certificate.specs.Line.{rows_of};
ghost use Rattle.certificate.specs.Reading.{fed, line_of_row, nothing_read};
ghost use Rattle.certificate.specs.Rows.{Certificate, certificate_from};
ghost use Rattle.certificate.specs.Texts.{BadLineAt, Holds, IsFaultOf};
ghost use Rattle.certificate.specs.Whole.{certificate_of};

use crate::state::Row;
use crate::{Cert, CertText, FunctionRow, Lines, PointRow, StretchRow};
use std::alloc::Global;

/// Reads a certificate's text whole: the certificate, or the offset of the first line that stands in no certificate
/// behind the lines before it. A last line without a line feed is such a line.
pub fn read(alloc: Global, bytes: &[u8]) -> Result<Cert, CertText>
    ensures holds { IfOk result (λ c. Holds bytes.now (certificate_of c)) }
    ensures bad_line { IfErr result (λ fault. IsFaultOf bytes.now fault) }
    ensures only_certificate { (c : Certificate) → Holds bytes.now c → MatchResult result (λ read. certificate_of read ≡ c) (λ fault. fault ≡ CertText.Memory) }
    ensures only_line { (at : ℕ) → BadLineAt bytes.now at → MatchResult result (λ _. ⊥) (λ fault. fault ≢ CertText.Memory → fault ≡ CertText.BadLine at) }
{
    match rows_in(alloc, bytes) {
        Ok(rows) => cert_of(alloc, rows),
        Err(fault) => Err(fault),
    }
}

// The rows of a whole text.
fn rows_in(alloc: Global, bytes: &[u8]) -> Result<Vec<Row>, CertText>
    ensures { RowsRead (λ rows. map line_of_row rows.items) result (fed nothing_read bytes.now) }
{
    let mut lines = Lines::new(alloc);
    match lines.feed(bytes) {
        Ok(rows) => match lines.end() {
            Ok(()) => Ok(rows),
            Err(fault) => Err(fault),
        },
        Err(fault) => Err(fault),
    }
}

// What a certificate is made of.
#[derive(Drop)]
struct Parts {
    pub budget: u64,
    pub functions: Vec<FunctionRow>,
    pub stretches: Vec<StretchRow>,
    pub points: Vec<PointRow>,
}

fn keep<T: Drop>(items: &mut Vec<T>, item: T) -> Result<(), CertText>
    ensures { MatchResult result (λ _. items.new.items ≡ items.old.items ++ item ∷ []) (λ fault. fault ≡ CertText.Memory) }
{
    match items.push(item) {
        Ok(()) => Ok(()),
        Err(_) => Err(CertText::Memory),
    }
}

// Puts a row behind those of its kind.
fn put_row(parts: &mut Parts, row: Row) -> Result<(), CertText>
    ensures { MatchResult result
        (λ _. certificate_from parts.new.budget parts.new.functions.items parts.new.stretches.items parts.new.points.items
        ≡ with_row (certificate_from parts.old.budget parts.old.functions.items parts.old.stretches.items parts.old.points.items) (line_of_row row))
        (λ fault. fault ≡ CertText.Memory) }
{
    match row {
        Row::Budget(budget) => {
            parts.budget = budget;
            Ok(())
        }
        Row::Function(row) => keep(&mut parts.functions, row),
        Row::Stretch(row) => keep(&mut parts.stretches, row),
        Row::Point(row) => keep(&mut parts.points, row),
        Row::End => Ok(()),
    }
}

fn parts_of(alloc: Global, rows: Vec<Row>) -> Result<Parts, CertText>
    ensures { MatchResult result
        (λ parts. (c : Certificate) → map line_of_row rows.items ≡ rows_of c → certificate_from parts.budget parts.functions.items parts.stretches.items parts.points.items ≡ c)
        (λ fault. fault ≡ CertText.Memory) }
{
    let mut parts = Parts {
        budget: 0,
        functions: Vec::new(alloc),
        stretches: Vec::new(alloc),
        points: Vec::new(alloc),
    };
    for row in rows {
        if put_row(&mut parts, row).is_err() {
            return Err(CertText::Memory);
        }
    }
    Ok(parts)
}

// The certificate of its rows.
fn cert_of(alloc: Global, rows: Vec<Row>) -> Result<Cert, CertText>
    requires { (c : Certificate) × IsCertificate c × (map line_of_row rows.items ≡ rows_of c) }
    ensures { MatchResult result (λ cert. (c : Certificate) → map line_of_row rows.items ≡ rows_of c → certificate_of cert ≡ c) (λ fault. fault ≡ CertText.Memory) }
{
    match parts_of(alloc, rows) {
        Ok(parts) => Ok(Cert {
            budget: parts.budget,
            functions: parts.functions,
            stretches: parts.stretches,
            points: parts.points,
        }),
        Err(fault) => Err(fault),
    }
}
