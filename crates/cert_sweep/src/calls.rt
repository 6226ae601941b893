//! The rules on calls and returns.
ghost use Rattle.std.specs.Prelude.{◌≡◌};
ghost use Rattle.std.specs.Option.{option_map};
ghost use Rattle.certificate.specs.Rows.{flat_of as flat_of_row, function_of};
ghost use Rattle.cert_rules.specs.Calls.{call_fault as call_fault_lem, callee_fault as callee_fault_lem, callee_writes_fault as callee_writes_fault_lem, flat_of as flat_of_lem, least_word as least_word_lem, unnamed_word as unnamed_word_lem};
ghost use Rattle.cert_state.specs.Shown.{shown_fault};
ghost use Rattle.cert_sweep.specs.Views.{kind_shown, sheet_of};

use crate::forms::Kind;
use crate::sheet::Sheet;
use cert_rules::Rule;
use cert_state::{Fault, Sought, first_in, is_split, unless, unless_none};
use certificate::{FlatPart, FunctionRow, Span};

/// What a function costs and writes, if there is one and it has no heads.
pub fn flat_of(f: Option<&FunctionRow>) -> Option<&FlatPart>
    ensures { option_map (λ flat. flat_of_row flat.now) result ≡ flat_of_lem (option_map (λ f. function_of f.now) f.entry) }
{
    f?.flat.as_ref()
}

fn least_word(one: Option<u32>, other: Option<u32>) -> Option<u32>
    ensures { result ≡ least_word_lem one other }
{
    match (one, other) {
        (None, _) => other,
        (Some(_), None) => one,
        (Some(a), Some(b)) => { if a <= b { one } else { other } }
    }
}

// The least word of these that the function doesn't name.
fn unnamed_word(own: &Vec<Span>, spans: &[Span]) -> Option<u32>
    ensures { result ≡ unnamed_word_lem own.now.items spans.now }
{
    let mut least = None;
    let mut rest = spans;
    while let [first, after @ ..] = rest {
        let unnamed = Sought::Unnamed(own);
        let found = first_in(&unnamed, u32::from(first.lo), u32::from(first.hi));
        least = least_word(least, found);
        rest = after;
    }
    least
}

fn callee_writes_fault(a: u16, own: Option<&FlatPart>, callee: Option<&FlatPart>) -> Option<Fault>
    ensures { shown_fault result ≡ callee_writes_fault_lem a (option_map (λ f. flat_of_row f.now) own.entry) (option_map (λ f. flat_of_row f.now) callee.entry) }
{
    let own = own?;
    let callee = callee?;
    unless_none(
        unnamed_word(&own.writes, callee.writes.as_slice()),
        Rule::Writes,
        a,
    )
}

fn callee_fault(t: &Sheet<'_>, a: u16, target: u16, callee: Option<&FunctionRow>) -> Option<Fault>
    ensures { shown_fault result ≡ callee_fault_lem (sheet_of t.now) a target (option_map (λ f. function_of f.now) callee.entry) }
{
    let Some(callee) = callee else {
        return unless(false, Rule::Call, a, i128::from(target), 0);
    };
    let lower = callee.height < t.here.height;
    let height = i128::from(callee.height);
    if let Some(fault) = unless(lower, Rule::Call, a, height, i128::from(t.here.height)) {
        return Some(fault);
    }
    let allowed = is_split(t.here) || !is_split(callee);
    if let Some(fault) = unless(allowed, Rule::Call, a, i128::from(target), 0) {
        return Some(fault);
    }
    None
}

fn target_fault(t: &Sheet<'_>, a: u16, target: u16) -> Option<Fault>
    ensures { shown_fault result ≡ call_fault_lem (sheet_of t.now) a (kind_shown (Kind.Calls target)) }
{
    let callee = t.function_at(u32::from(target));
    match callee_writes_fault(a, t.flat(), flat_of(callee)) {
        Some(fault) => Some(fault),
        None => callee_fault(t, a, target, callee),
    }
}

/// Whether a call, or a return, is allowed.
pub fn call_fault(t: &Sheet<'_>, a: u16, kind: Kind) -> Option<Fault>
    ensures { shown_fault result ≡ call_fault_lem (sheet_of t.now) a (kind_shown kind) }
{
    match kind {
        Kind::Calls(target) => target_fault(t, a, target),
        Kind::Returns => unless(!t.is_first, Rule::Call, a, i128::from(a), 0),
        Kind::Computes | Kind::Branches(_, _) | Kind::Leaps(_) => None,
    }
}
