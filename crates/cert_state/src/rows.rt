//! Functions and stretches beside one another.
ghost use Rattle.std.specs.Prelude.{◌≡◌, ◌+◌, ◌≤◌, ◌&&◌, true, nat_le, is_some};
ghost use Rattle.certificate.specs.Rows.{function_of};
ghost use Rattle.cert_rules.specs.Words.{head_bytes};
ghost use Rattle.cert_rules.specs.Tables.{any_of, contains as contains_lem, head_around as head_around_lem, head_at, is_split as is_split_lem, lies_in as lies_in_lem};
ghost use Rattle.cert_state.specs.Shown.{functions_in, may_hold as may_hold_lem};

use certificate::{FunctionRow, StretchRow};

/// Whether a function has heads of its own.
pub fn is_split(f: &FunctionRow) -> bool
    ensures { result ≡ is_split_lem (function_of f.now) }
{
    match f.flat {
        None => true,
        Some(_) => false,
    }
}

/// Whether an address is in a function's code.
pub fn contains(f: &FunctionRow, address: u16) -> bool
    ensures { result ≡ contains_lem (function_of f.now) address }
{
    f.start <= address && address < f.end
}

/// Whether a head begins at an address.
pub fn is_head(stretches: &[StretchRow], address: u16) -> bool
    ensures { result ≡ is_some (head_at stretches.now address) }
{
    let mut rest = stretches;
    while let [first, after @ ..] = rest {
        if first.head == address {
            return true;
        }
        rest = after;
    }
    false
}

/// The head in whose bytes an address is.
pub fn head_around(stretches: &[StretchRow], address: u16) -> Option<u16>
    ensures { result ≡ head_around_lem stretches.now address }
{
    let mut rest = stretches;
    while let [first, after @ ..] = rest {
        if first.head <= address && (address as u32) < first.head as u32 + 22 {
            return Some(first.head);
        }
        rest = after;
    }
    None
}

// a head at this address would lie whole in the function, which has heads
fn may_hold(f: &FunctionRow, head: u16) -> bool
    ensures value { result ≡ may_hold_lem head (function_of f.now) }
    ensures room { result ≡ true → head + 22 ≤ 65535 }
{
    is_split(f) && f.start <= head && head as u32 + 22 <= f.end as u32
}

fn any_holds(functions: &[FunctionRow], head: u16) -> bool
    ensures value { result ≡ any_of (may_hold_lem head) (functions_in functions.now) }
    ensures room { result ≡ true → head + 22 ≤ 65535 }
{
    let mut rest = functions;
    while let [first, after @ ..] = rest {
        if may_hold(first, head) {
            return true;
        }
        rest = after;
    }
    false
}

/// Whether a head at this address lies whole, and at an even address, in a function that has heads.
pub fn lies_in(functions: &[FunctionRow], head: u16) -> bool
    ensures value { result ≡ lies_in_lem (functions_in functions.now) head }
    ensures room { result ≡ true → head + 22 ≤ 65535 }
{
    head % 2 == 0 && any_holds(functions, head)
}
