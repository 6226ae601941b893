//! The sweep of a function's code.
ghost use Rattle.std.specs.Prelude.{◌≡◌, ◌+◌, ◌<◌, ◌≤◌, IfOk};
ghost use Rattle.std.specs.Option.{option_map};
ghost use Rattle.cert_rules.specs.Sweep.{SweptFrom, Swept, behind_head as behind_head_lem, entry as entry_lem, entry_fault as entry_fault_lem, head_step_fault as head_step_fault_lem, known_here as known_here_lem};
ghost use Rattle.cert_state.specs.Shown.{shown_fault};
ghost use Rattle.cert_state.specs.Views.{known_of};
ghost use Rattle.cert_sweep.specs.Views.{sheet_of};
ghost use Rattle.cert_sweep.specs.Stepping.{Advances, IsReady, PassesHead, PassesStep};

use crate::going::{going_fault, point_implied};
use crate::outcomes::falls_only;
use crate::overhead::wake_cost;
use crate::shapes::{turns_at, turns_fault};
use crate::sheet::Sheet;
use crate::standing::{bytes_of, stands_at};
use crate::steps::{Step, take_rules};
use base_io::Memory;
use cert_state::{Fault, State, bare, known_at};
use std::alloc::Global;

/// Where the sweep stops, or comes to: a fault, or a later address, and what comes there.
#[derive(Drop)]
pub enum Advance {
    Stops(Fault),
    Comes(u32, Option<State>),
}

// A head leads on with what waking costs, and nothing else known.
fn behind_head(alloc: Global, t: &Sheet<'_>, a: u16) -> Result<State, Memory>
    ensures { IfOk result (λ s. known_of s ≡ behind_head_lem (sheet_of t.now) a) }
{
    bare(alloc, a, wake_cost(t.board))
}

fn head_step_fault(alloc: Global, t: &Sheet<'_>, a: u16) -> Result<Option<Fault>, Memory>
    requires { a + 22 ≤ 65535 }
    ensures { IfOk result (λ fault. shown_fault fault ≡ head_step_fault_lem (sheet_of t.now) a) }
{
    let next = u32::from(a) + 22;
    if let Some(fault) = turns_fault(a + 18, 0, turns_at(t, next)) {
        return Ok(Some(fault));
    }
    let behind = behind_head(alloc, t, a)?;
    let falls = falls_only(behind);
    let fault = going_fault(alloc, t, a, a + 18, next, &falls)?;
    Ok(fault)
}

// The bytes of a head are passed over.
fn pass_head(alloc: Global, t: &Sheet<'_>, a: u16) -> Result<Advance, Memory>
    requires { a + 22 ≤ 65535 }
    ensures { IfOk result (λ passed. PassesHead (sheet_of t.now) a passed) }
{
    if let Some(fault) = head_step_fault(alloc, t, a)? {
        return Ok(Advance::Stops(fault));
    }
    let behind = behind_head(alloc, t, a)?;
    Ok(Advance::Comes(u32::from(a) + 22, Some(behind)))
}

// At a point it is known what the point says.
fn known_here(
    alloc: Global,
    t: &Sheet<'_>,
    a: u16,
    incoming: Option<State>,
) -> Result<Option<State>, Memory>
    requires { IsReady (sheet_of t.now) }
    ensures { IfOk result (λ here. option_map known_of here ≡ known_here_lem (sheet_of t.now) a (option_map known_of incoming)) }
{
    match t.point_at(u32::from(a)) {
        None => Ok(incoming),
        Some(p) => Ok(Some(known_at(alloc, p)?)),
    }
}

fn take_step(
    alloc: Global,
    t: &Sheet<'_>,
    a: u16,
    incoming: Option<State>,
) -> Result<Advance, Memory>
    requires { IsReady (sheet_of t.now) }
    ensures { IfOk result (λ passed. PassesStep (sheet_of t.now) a (option_map known_of incoming) passed) }
{
    let here = known_here(alloc, t, a, incoming)?;
    let found = stands_at(t, u32::from(a));
    match take_rules(alloc, t, a, here, found)? {
        Step::Breaks(fault) => Ok(Advance::Stops(fault)),
        Step::Goes(leaves) => Ok(Advance::Comes(u32::from(a) + bytes_of(found), leaves)),
    }
}

fn go_on(alloc: Global, t: &Sheet<'_>, a: u16, incoming: Option<State>) -> Result<Advance, Memory>
    requires ready { IsReady (sheet_of t.now) }
    requires inside { a < (sheet_of t.now).here.end }
    ensures { IfOk result (λ passed. Advances (sheet_of t.now) a (option_map known_of incoming) passed) }
{
    if t.is_head(u32::from(a)) {
        let passed = pass_head(alloc, t, a)?;
        return Ok(passed);
    }
    let passed = take_step(alloc, t, a, incoming)?;
    Ok(passed)
}

// The sweep of the function's code, with what comes to its start.
fn sweep_from(alloc: Global, t: &Sheet<'_>, entry: Option<State>) -> Result<Option<Fault>, Memory>
    requires { IsReady (sheet_of t.now) }
    ensures { IfOk result (λ fault. Swept (sheet_of t.now) (sheet_of t.now).here.start (option_map known_of entry) (shown_fault fault)) }
{
    let end = u32::from(t.here.end);
    let mut a = u32::from(t.here.start);
    let mut incoming = entry;
    while a < end {
        match go_on(alloc, t, a as u16, incoming)? {
            Advance::Stops(fault) => return Ok(Some(fault)),
            Advance::Comes(next, leaves) => {
                a = next;
                incoming = leaves;
            }
        }
    }
    Ok(None)
}

// A function without heads begins with nothing spent and nothing known.
fn entry(alloc: Global, t: &Sheet<'_>) -> Result<Option<State>, Memory>
    ensures { IfOk result (λ s. option_map known_of s ≡ entry_lem (sheet_of t.now).here (sheet_of t.now).here.flat) }
{
    match t.flat() {
        None => Ok(None),
        Some(_) => Ok(Some(bare(alloc, t.here.start, 0)?)),
    }
}

// Its first point is tested against that.
fn entry_fault(alloc: Global, t: &Sheet<'_>, entry: &Option<State>) -> Result<Option<Fault>, Memory>
    ensures { IfOk result (λ fault. shown_fault fault ≡ entry_fault_lem (sheet_of t.now) (option_map known_of entry.now)) }
{
    match entry {
        None => Ok(None),
        Some(s) => {
            let start = t.here.start;
            let first = t.point_at(u32::from(start));
            let fault = point_implied(alloc, start, s, first)?;
            Ok(fault)
        }
    }
}

/// The first fault of a function's code, or none.
pub fn sweep(alloc: Global, t: &Sheet<'_>) -> Result<Option<Fault>, Memory>
    requires { IsReady (sheet_of t.now) }
    ensures { IfOk result (λ fault. SweptFrom (sheet_of t.now) (shown_fault fault)) }
{
    let begins = entry(alloc, t)?;
    let first = entry_fault(alloc, t, &begins)?;
    if let Some(fault) = first {
        return Ok(Some(fault));
    }
    let fault = sweep_from(alloc, t, begins)?;
    Ok(fault)
}
