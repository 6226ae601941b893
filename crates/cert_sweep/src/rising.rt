//! Rows that rise by a number, and what is found in them by halving.
ghost use Rattle.std.specs.Prelude.{◌≡◌, ℕ, ◌<◌, ◌≤◌, length};
ghost use Rattle.std.specs.Option.{option_map};
ghost use Rattle.cert_rules.specs.Tables.{row_at as row_at_lem};
ghost use Rattle.cert_sweep.specs.Rising.{Rises, first_from as first_from_lem};

use certificate::{FunctionRow, PointRow, StretchRow};

/// A row with a number, by which a table rises.
pub trait Numbered {
    ghost number: { Self → ℕ };

    fn number(&self) -> u64
        ensures { result ≡ number self.now };
}

/// Functions rise by their starts.
impl Numbered for FunctionRow {
    ghost number = { λ f. f.start };

    fn number(&self) -> u64 {
        u64::from(self.start)
    }
}

/// Stretches rise by their heads.
impl Numbered for StretchRow {
    ghost number = { λ s. s.head };

    fn number(&self) -> u64 {
        u64::from(self.head)
    }
}

/// Points rise by their addresses.
impl Numbered for PointRow {
    ghost number = { λ p. p.address };

    fn number(&self) -> u64 {
        u64::from(self.address)
    }
}

// The half that holds the first row of at least n.
fn half<T: Numbered>(rows: &[T], n: u64) -> &[T]
    requires some { 1 < length rows.now }
    requires rises { Rises T.number 0 rows.now }
    ensures first { first_from_lem T.number n result.now ≡ first_from_lem T.number n rows.now }
    ensures rises { Rises T.number 0 result.now }
    ensures less { length result.now < length rows.now }
{
    let (low, high) = rows.split_at(rows.len() / 2);
    match low {
        [] => high,
        [.., last] => { if last.number() < n { high } else { low } }
    }
}

fn only_from<T: Numbered>(rows: &[T], n: u64) -> Option<&T>
    requires { length rows.now ≤ 1 }
    ensures { option_map (λ r. r.now) result ≡ first_from_lem T.number n rows.now }
{
    match rows {
        [] => None,
        [only, ..] => { if n <= only.number() { Some(only) } else { None } }
    }
}

/// The first row whose number is at least n.
pub fn first_from<T: Numbered>(rows: &[T], n: u64) -> Option<&T>
    requires { Rises T.number 0 rows.now }
    ensures { option_map (λ r. r.now) result ≡ first_from_lem T.number n rows.now }
{
    let mut rest = rows;
    while rest.len() > 1 {
        rest = half(rest, n);
    }
    only_from(rest, n)
}

/// The row of a number.
pub fn row_at<T: Numbered>(rows: &[T], n: u64) -> Option<&T>
    requires { Rises T.number 0 rows.now }
    ensures { option_map (λ r. r.now) result ≡ row_at_lem T.number rows.now n }
{
    match first_from(rows, n) {
        None => None,
        Some(first) => {
            if first.number() == n {
                Some(first)
            } else {
                None
            }
        }
    }
}
