//! What may be spent, and where the code may go.
ghost use Rattle.std.specs.Prelude.{◌≡◌, ◌≤◌, ◌+ℤ◌, [], ◌∷◌, IfOk, if◌then◌else◌, pos};
ghost use Rattle.std.specs.Option.{option_map};
ghost use Rattle.certificate.specs.Rows.{point_of};
ghost use Rattle.cert_rules.specs.Going.{edge_fault as edge_fault_lem, edge_implied as edge_implied_lem, falls_with as falls_with_lem, going_fault as going_fault_lem, greatest_spent as greatest_spent_lem, limit_of as limit_of_lem, may_go_to as may_go_to_lem, over_fault as over_fault_lem, point_implied as point_implied_lem, points_fault as points_fault_lem, row_cost as row_cost_lem, spent_by, spent_to as spent_to_lem};
ghost use Rattle.cert_rules.specs.Overhead.{sleep_cost as sleep_cost_lem};
ghost use Rattle.cert_rules.specs.Sheet.{is_head};
ghost use Rattle.cert_rules.specs.Tables.{is_split as is_split_lem};
ghost use Rattle.cert_state.specs.Amounts.{IsWide};
ghost use Rattle.cert_state.specs.Shown.{shown_fault};
ghost use Rattle.cert_state.specs.Views.{known_of};
ghost use Rattle.cert_sweep.specs.Views.{outcome_shown, sheet_of};

use crate::implied::implied_fault;
use crate::outcomes::Outcome;
use crate::overhead::sleep_cost;
use crate::sheet::Sheet;
use base_io::Memory;
use cert_rules::Rule;
use cert_state::{Fault, State, greatest_bound, is_split, unless};
use certificate::{PointRow, StretchRow};
use std::alloc::Global;

// ---- What is spent

fn greatest_spent(s: &State) -> i128
    ensures value { result ≡ greatest_spent_lem (known_of s.now) }
    ensures wide { IsWide result }
{
    greatest_bound(&s.values, &s.spent)
}

fn spent_and(s: &State, sleep: u64) -> i128
    requires { sleep ≤ 28000000 }
    ensures { result ≡ greatest_spent_lem (known_of s.now) +ℤ pos sleep }
{
    greatest_spent(s) + i128::from(sleep)
}

fn sleep_at(t: &Sheet<'_>, target: u32) -> u64
    ensures value { result ≡ (if is_head (sheet_of t.now) target then sleep_cost_lem (sheet_of t.now).board else 0) }
    ensures small { result ≤ 28000000 }
{
    if t.is_head(target) {
        sleep_cost(t.board)
    } else {
        0
    }
}

fn sleep_behind(t: &Sheet<'_>) -> u64
    ensures value { result ≡ (if is_split_lem (sheet_of t.now).here then sleep_cost_lem (sheet_of t.now).board else 0) }
    ensures small { result ≤ 28000000 }
{
    if is_split(t.here) {
        sleep_cost(t.board)
    } else {
        0
    }
}

// What is spent where the code goes on to a target, with the sleep of a head there.
fn spent_to(t: &Sheet<'_>, target: u32, s: &State) -> i128
    ensures { result ≡ spent_to_lem (sheet_of t.now) target (known_of s.now) }
{
    spent_and(s, sleep_at(t, target))
}

fn row_cost(s: Option<StretchRow>) -> u64
    ensures { result ≡ row_cost_lem s }
{
    match s {
        None => 0,
        Some(s) => s.cost,
    }
}

// The cost of the stretch, or of the function without heads.
fn limit_of(t: &Sheet<'_>, stretch: u16) -> u64
    ensures { result ≡ limit_of_lem (sheet_of t.now) stretch }
{
    match t.flat() {
        Some(flat) => flat.cost,
        None => row_cost(t.head_at(u32::from(stretch))),
    }
}

fn over(a: u16, limit: u64, spent: i128) -> Option<Fault>
    ensures { shown_fault result ≡ over_fault_lem a limit (spent ∷ []) }
{
    unless(
        spent <= i128::from(limit),
        Rule::Limit,
        a,
        spent,
        i128::from(limit),
    )
}

// The rule on what is spent at most, on each way on.
fn over_fault(t: &Sheet<'_>, a: u16, limit: u64, next: u32, o: &Outcome) -> Option<Fault>
    ensures { shown_fault result ≡ over_fault_lem a limit (spent_by (sheet_of t.now) next (outcome_shown o.now)) }
{
    match o {
        Outcome::Goes(Some(falls), Some(jumps), target) => {
            let most = spent_to(t, next, falls).max(spent_to(t, *target, jumps));
            over(a, limit, most)
        }
        Outcome::Goes(Some(falls), None, _) => over(a, limit, spent_to(t, next, falls)),
        Outcome::Goes(None, Some(jumps), target) => over(a, limit, spent_to(t, *target, jumps)),
        Outcome::Goes(None, None, _) => None,
        Outcome::Ends(s) => over(a, limit, greatest_spent(s)),
        Outcome::Leaves(s) => over(a, limit, spent_and(s, sleep_behind(t))),
        Outcome::Enters(s) => over(a, limit, spent_and(s, sleep_cost(t.board))),
    }
}

// ---- Where the code goes

fn may_go_to(t: &Sheet<'_>, target: u32) -> bool
    ensures { result ≡ may_go_to_lem (sheet_of t.now) target }
{
    (t.is_point(target) || t.is_head(target)) && t.has(target)
}

fn edge_fault(t: &Sheet<'_>, a: u16, next: u32, o: &Outcome) -> Option<Fault>
    ensures { shown_fault result ≡ edge_fault_lem (sheet_of t.now) a next (outcome_shown o.now) }
{
    match o {
        Outcome::Goes(falls, jumps, target) => {
            let inside = falls.is_none() || next < u32::from(t.here.end);
            let (from, to) = (i128::from(a), i128::from(*target));
            if let Some(fault) = unless(inside, Rule::Edge, a, i128::from(next), from) {
                return Some(fault);
            }
            unless(
                jumps.is_none() || may_go_to(t, *target),
                Rule::Edge,
                a,
                to,
                from,
            )
        }
        Outcome::Ends(_) | Outcome::Leaves(_) => None,
        Outcome::Enters(_) => unless(
            t.is_head(next) && t.has(next),
            Rule::Edge,
            a,
            i128::from(next),
            i128::from(a),
        ),
    }
}

/// The first promise that doesn't hold of a point, if there is one.
pub fn point_implied(
    alloc: Global,
    a: u16,
    s: &State,
    p: Option<&PointRow>,
) -> Result<Option<Fault>, Memory>
    ensures { IfOk result (λ fault. shown_fault fault ≡ point_implied_lem a (known_of s.now) (option_map (λ p. point_of p.now) p.entry)) }
{
    match p {
        None => Ok(None),
        Some(p) => {
            let fault = implied_fault(alloc, a, s, p)?;
            Ok(fault)
        }
    }
}

fn edge_implied(
    alloc: Global,
    t: &Sheet<'_>,
    a: u16,
    target: u32,
    edge: &Option<State>,
) -> Result<Option<Fault>, Memory>
    ensures { IfOk result (λ fault. shown_fault fault ≡ edge_implied_lem (sheet_of t.now) a target (option_map known_of edge.now)) }
{
    match edge {
        None => Ok(None),
        Some(s) => {
            let fault = point_implied(alloc, a, s, t.point_at(target))?;
            Ok(fault)
        }
    }
}

fn points_fault(
    alloc: Global,
    t: &Sheet<'_>,
    a: u16,
    next: u32,
    o: &Outcome,
) -> Result<Option<Fault>, Memory>
    ensures { IfOk result (λ fault. shown_fault fault ≡ points_fault_lem (sheet_of t.now) a next (outcome_shown o.now)) }
{
    match o {
        Outcome::Goes(falls, jumps, target) => {
            if let Some(fault) = edge_implied(alloc, t, a, next, falls)? {
                return Ok(Some(fault));
            }
            let fault = edge_implied(alloc, t, a, *target, jumps)?;
            Ok(fault)
        }
        Outcome::Ends(_) | Outcome::Leaves(_) | Outcome::Enters(_) => Ok(None),
    }
}

/// The last three rules, of an instruction that ends at `next`, in this stretch: what is spent, where the code goes, and
/// what it promises there.
pub fn going_fault(
    alloc: Global,
    t: &Sheet<'_>,
    stretch: u16,
    a: u16,
    next: u32,
    o: &Outcome,
) -> Result<Option<Fault>, Memory>
    ensures { IfOk result (λ fault. shown_fault fault ≡ going_fault_lem (sheet_of t.now) stretch a next (outcome_shown o.now)) }
{
    if let Some(fault) = over_fault(t, a, limit_of(t, stretch), next, o) {
        return Ok(Some(fault));
    }
    if let Some(fault) = edge_fault(t, a, next, o) {
        return Ok(Some(fault));
    }
    let fault = points_fault(alloc, t, a, next, o)?;
    Ok(fault)
}

/// What is known behind it, where it falls on.
pub fn falls_with(o: Outcome) -> Option<State>
    ensures { option_map known_of result ≡ falls_with_lem (outcome_shown o) }
{
    match o {
        Outcome::Goes(falls, _, _) => falls,
        Outcome::Ends(_) | Outcome::Leaves(_) | Outcome::Enters(_) => None,
    }
}
