//! Where a point may stand.
ghost use Rattle.std.specs.Prelude.{◌≡◌, Some};
ghost use Rattle.certificate.specs.Rows.{function_of, point_of};
ghost use Rattle.cert_rules.specs.Tables.{has_stretch as has_stretch_lem, place_fault, point_fault};
ghost use Rattle.cert_state.specs.Shown.{functions_in, shown_fault};

use cert_rules::Rule;
use cert_state::{Fault, contains, head_around, is_head, is_split, unless};
use certificate::{FunctionRow, PointRow, StretchRow};

// a flat function has its one stretch, any other those of its heads
fn has_stretch(stretches: &[StretchRow], f: &FunctionRow, head: u16) -> bool
    ensures { result ≡ has_stretch_lem stretches.now (function_of f.now) head }
{
    if is_split(f) {
        contains(f, head) && is_head(stretches, head)
    } else {
        head == f.start
    }
}

fn place_in(stretches: &[StretchRow], p: &PointRow, f: &FunctionRow) -> Option<Fault>
    ensures { shown_fault result ≡ place_fault stretches.now (point_of p.now) (Some (function_of f.now)) }
{
    match head_around(stretches, p.address) {
        Some(head) => Some(Fault {
            rule: Rule::Order,
            address: p.address,
            left: p.address as i128,
            right: head as i128,
        }),
        None => unless(
            has_stretch(stretches, f, p.stretch),
            Rule::Order,
            p.address,
            p.stretch as i128,
            f.start as i128,
        ),
    }
}

/// How a point breaks the rule that it lies inside a function and outside heads, and is of a stretch of that function.
pub fn order_fault(
    p: &PointRow,
    functions: &[FunctionRow],
    stretches: &[StretchRow],
) -> Option<Fault>
    ensures { shown_fault result ≡ point_fault (functions_in functions.now) stretches.now (point_of p.now) }
{
    let mut rest = functions;
    while let [first, after @ ..] = rest {
        if contains(first, p.address) {
            return place_in(stretches, p, first);
        }
        rest = after;
    }
    Some(Fault {
        rule: Rule::Order,
        address: p.address,
        left: p.address as i128,
        right: 0,
    })
}
