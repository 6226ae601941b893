//! All rules together.
ghost use Rattle.std.specs.Prelude.{◌≡◌, [], ◌∷◌, Option, None, true, IfErr, IfOk, MatchOption};
ghost use Rattle.ti_txt.specs.Bytes.{blocks_of};
ghost use Rattle.certificate.specs.Rows.{function_of};
ghost use Rattle.certificate.specs.Whole.{certificate_of};
ghost use Rattle.cert_rules.specs.Faults.{first_of};
ghost use Rattle.cert_rules.specs.Sweep.{AllSwept, Certified, SweptFrom, Verdict, sheet};
ghost use Rattle.cert_rules.specs.Tables.{point_fault, tables_fault};
ghost use Rattle.cert_state.specs.Shown.{functions_in, shown_fault};
ghost use Rattle.cert_sweep.specs.Views.{points_in};
ghost use Rattle.cert_check.specs.declared.refused.Refused.TheVariants.{Rule as Breaks};
ghost use Rattle.cert_check.specs.Checking.{EveryRunIsSafe, IsRefusal, RunsSafely};

use crate::points::order_fault;
use crate::refused::Refused;
use crate::row_rules::first_fault;
use base_io::Memory;
use board_table::Board;
use cert_state::Fault;
use cert_sweep::{Sheet, sweep};
use certificate::{Cert, FunctionRow, PointRow, StretchRow};
use std::alloc::Global;
use ti_txt::Image;

// The first point that stands where it may not.
fn points_order(
    points: &[PointRow],
    functions: &[FunctionRow],
    stretches: &[StretchRow],
) -> Option<Fault>
    ensures { shown_fault result ≡ first_of (point_fault (functions_in functions.now) stretches.now) (points_in points.now) }
{
    let mut rest = points;
    while let [first, after @ ..] = rest {
        if let Some(fault) = order_fault(first, functions, stretches) {
            return Some(fault);
        }
        rest = after;
    }
    None
}

// The sweep of one function.
fn sweep_function(
    alloc: Global,
    img: &Image,
    c: &Cert,
    b: &Board,
    is_first: bool,
    here: &FunctionRow,
) -> Result<Option<Fault>, Memory>
    requires { tables_fault (blocks_of img.now) (certificate_of c.now).budget (certificate_of c.now).functions (certificate_of c.now).stretches b.now ≡ None }
    ensures { IfOk result (λ fault. SweptFrom (sheet (blocks_of img.now) (certificate_of c.now) b.now is_first (function_of here.now)) (shown_fault fault)) }
{
    let t = Sheet {
        segments: &img.segments,
        board: b,
        functions: &c.functions,
        stretches: &c.stretches,
        points: &c.points,
        here,
        is_first,
    };
    sweep(alloc, &t)
}

// A list's first row, and those behind it.
fn first_function(rows: &[FunctionRow]) -> Option<(&FunctionRow, &[FunctionRow])>
    ensures { MatchOption result (rows.now ≡ []) (λ first. rows.now ≡ first.0.now ∷ first.1.now) }
{
    match rows {
        [] => None,
        [first, rest @ ..] => Some((first, rest)),
    }
}

// The sweeps of all functions, up to the first fault.
fn sweep_all(alloc: Global, img: &Image, c: &Cert, b: &Board) -> Result<Option<Fault>, Memory>
    requires { tables_fault (blocks_of img.now) (certificate_of c.now).budget (certificate_of c.now).functions (certificate_of c.now).stretches b.now ≡ None }
    ensures { IfOk result (λ fault. AllSwept (blocks_of img.now) (certificate_of c.now) b.now true (certificate_of c.now).functions (shown_fault fault)) }
{
    let mut is_first = true;
    let mut rest = c.functions.as_slice();
    while let Some((here, after)) = first_function(rest) {
        if let Some(fault) = sweep_function(alloc, img, c, b, is_first, here)? {
            return Ok(Some(fault));
        }
        is_first = false;
        rest = after;
    }
    Ok(None)
}

// The first fault of all rules, or none.
fn verdict(alloc: Global, img: &Image, c: &Cert, b: &Board) -> Result<Option<Fault>, Memory>
    ensures { IfOk result (λ fault. Verdict (blocks_of img.now) (certificate_of c.now) b.now (shown_fault fault)) }
{
    let functions = c.functions.as_slice();
    let stretches = c.stretches.as_slice();
    if let Some(fault) = first_fault(img, c.budget, functions, stretches, b) {
        return Ok(Some(fault));
    }
    if let Some(fault) = points_order(c.points.as_slice(), functions, stretches) {
        return Ok(Some(fault));
    }
    sweep_all(alloc, img, c, b)
}

/// A rule that is broken, as a refusal.
pub fn refusal(fault: Fault) -> Refused
    ensures { result ≡ Breaks fault.rule fault.address fault.left fault.right }
{
    Refused::Rule {
        rule: fault.rule,
        address: fault.address,
        left: fault.left,
        right: fault.right,
    }
}

/// Whether an image keeps every rule for its certificate, on a device of this board; or the first that it breaks, in the order
/// of `Rule`. An image that does is never cut inside a stretch and never faults, whatever its refills, if each reaches the budget.
pub fn check(alloc: Global, img: &Image, c: &Cert, b: &Board) -> Result<(), Refused>
    ensures certified { IfOk result (λ _. Certified (blocks_of img.now) (certificate_of c.now) b.now) }
    ensures safe { IfOk result (λ _. RunsSafely (blocks_of img.now) (certificate_of c.now) b.now) }
    ensures every_run { IfOk result (λ _. EveryRunIsSafe (blocks_of img.now) (certificate_of c.now) b.now) }
    ensures refused { IfErr result (λ refused. IsRefusal (blocks_of img.now) (certificate_of c.now) b.now refused) }
{
    match verdict(alloc, img, c, b) {
        Ok(None) => Ok(()),
        Ok(Some(fault)) => Err(refusal(fault)),
        Err(_) => Err(Refused::Memory),
    }
}
