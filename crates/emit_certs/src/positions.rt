//! The rows of one operation.

ghost use Rattle.std.specs.Prelude.{◌≡◌, ◌≤◌, ◌+◌, ◌++◌, map, IfOk, OnOk};
ghost use Rattle.certificate.specs.Rows.{point_of};
ghost use Rattle.cert_rules.specs.Overhead.{sleep_cost as sleep_cost_lem};
ghost use Rattle.op_cost.specs.Templates.{code_of, length_in as length_in_lem, template};
ghost use Rattle.emit_templates.specs.Placed.{HasHomes, home_in};
ghost use Rattle.cert_templates.specs.Frames.{bytes_of_code, goes_through as goes_through_lem, head_bytes_of};
ghost use Rattle.emit_certs.specs.Standing.{bare_by, entered as entered_lem, own_by, passed, row_by, row_costing};

use crate::frame::Frame;
use crate::inner::put_inner;
use crate::overhead::{sleep_cost, wake_cost};
use crate::standing::Standing;
use crate::timing::timed;
use crate::weighing::{bytes, weight};
use base_io::Memory;
use board_table::Board;
use certificate::{Affine, PointRow, StretchRow};
use emit_templates::Places;
use flow_graph::{ArrayUse, Op, OpKind};
use std::alloc::Global;

/// Bytes of a head.
const HEAD_BYTES: u16 = 22;

fn goes_through(kind: OpKind) -> bool
    ensures { result ≡ goes_through_lem kind }
{
    match kind {
        OpKind::Go | OpKind::Test | OpKind::Below | OpKind::Finish | OpKind::Ret => false,
        _ => true,
    }
}

fn length_in(array: Option<ArrayUse>) -> u16
    ensures { result ≡ length_in_lem array }
{
    match array {
        Some(used) => used.length,
        None => 0,
    }
}

/// Appends the row of the stretch that stands open, if one has begun: it ends here, with a sleep.
pub fn put_row(b: &Board, s: &Standing, to: &mut Vec<StretchRow>) -> Result<(), Memory>
    requires low { s.now.spent ≤ 1000000000000000 }
    ensures { OnOk result (to.new.items ≡ to.old.items ++ row_costing s.now (s.now.spent + sleep_cost_lem b.now)) }
{
    if !s.begun {
        return Ok(());
    }
    let row = StretchRow {
        head: s.stretch,
        chain: 1,
        turns: 0,
        cost: s.spent + sleep_cost(b),
    };
    match to.push(row) {
        Ok(()) => Ok(()),
        Err(_) => Err(Memory),
    }
}

/// Appends the row of the stretch that a head ends.
pub fn put_ended(b: &Board, has: bool, s: &Standing, to: &mut Vec<StretchRow>) -> Result<(), Memory>
    requires low { s.now.spent ≤ 1000000000000000 }
    ensures { OnOk result (to.new.items ≡ to.old.items ++ row_by b.now has s.now) }
{
    if has { put_row(b, s, to) } else { Ok(()) }
}

/// Appends the point where nothing falls in.
pub fn put_bare(
    alloc: Global,
    has: bool,
    s: &Standing,
    to: &mut Vec<PointRow>,
) -> Result<(), Memory>
    requires low { s.now.spent ≤ 1000000000000000 }
    ensures { OnOk result (map point_of to.new.items ≡ map point_of to.old.items ++ bare_by has s.now) }
{
    if has || s.falls {
        return Ok(());
    }
    let row = PointRow {
        address: s.at,
        stretch: s.stretch,
        spent: Affine {
            base: s.spent as i64,
            terms: Vec::new(alloc),
        },
        facts: Vec::new(alloc),
        fresh: Vec::new(alloc),
    };
    match to.push(row) {
        Ok(()) => Ok(()),
        Err(_) => Err(Memory),
    }
}

/// Behind the head, where there is one.
pub fn entered(b: &Board, has: bool, s: Standing) -> Standing
    requires room { s.at + head_bytes_of has ≤ 65535 }
    ensures place { result ≡ entered_lem b.now has s }
    ensures small { result.spent ≤ s.spent + 35000000 }
{
    if has {
        Standing {
            at: s.at + HEAD_BYTES,
            stretch: s.at,
            spent: wake_cost(b),
            falls: true,
            begun: true,
        }
    } else {
        Standing {
            at: s.at,
            stretch: s.stretch,
            spent: s.spent,
            falls: true,
            begun: s.begun,
        }
    }
}

/// Appends the points of the template of an operation, and goes behind it.
#[tactic(auto, using(crate::proofs::EachKind::walked_is))]
pub fn put_operation(
    alloc: Global,
    b: &Board,
    op: &Op,
    places: &Places,
    s: Standing,
    to: &mut Vec<PointRow>,
) -> Result<Standing, Memory>
    requires has { HasHomes places.now.of.items op.now }
    requires room { s.at + bytes_of_code (code_of (template (home_in places.now.of.items) 0 op.now)) ≤ 65535 }
    requires low { s.spent ≤ 1000000000000000 }
    ensures points { OnOk result (map point_of to.new.items ≡ map point_of to.old.items ++ own_by b.now (home_in places.now.of.items) op.now s) }
    ensures behind { IfOk result (λ t. t ≡ passed b.now (home_in places.now.of.items) op.now s) }
    ensures small { IfOk result (λ t. t.spent ≤ s.spent + 171360000000) }
{
    let code = timed(alloc, op, places)?;
    let frame = Frame {
        board: b,
        code: &code,
        at: s.at,
        stretch: s.stretch,
        spent: s.spent,
    };
    put_inner(alloc, op.kind, length_in(op.array), &frame, to)?;
    Ok(Standing {
        at: s.at + bytes(&code),
        stretch: s.stretch,
        spent: s.spent + weight(b, &code),
        falls: goes_through(op.kind),
        begun: s.begun,
    })
}
