//! The rows of operations one behind another.

ghost use Rattle.std.specs.Prelude.{◌≡◌, ◌≤◌, ◌+◌, ◌++◌, false, map, length, IfOk, OnOk};
ghost use Rattle.certificate.specs.Rows.{point_of};
ghost use Rattle.op_cost.specs.Templates.{code_of, template};
ghost use Rattle.emit_templates.specs.Placed.{HasHomes, home_in};
ghost use Rattle.cert_templates.specs.Frames.{bytes_of_all, bytes_of_code, head_bytes_of, points_from, stretch_rows};
ghost use Rattle.emit_certs.specs.Standing.{HaveHomes, bare_by, entered as entered_lem, head_in as head_in_lem, own_by, passed, row_by, still};

use crate::lists::first_and_rest;
use crate::positions::{entered, put_bare, put_ended, put_operation, put_row};
use crate::standing::Standing;
use base_io::Memory;
use board_table::Board;
use certificate::{PointRow, StretchRow};
use emit_templates::Places;
use flow_graph::{Node, Op};
use std::alloc::Global;

/// Where the code of operations begins: behind boot.
pub const FIRST: u16 = 0x8012;

/// The rows of operations, and the address behind the last.
#[derive(Drop)]
pub struct Rows {
    pub stretches: Vec<StretchRow>,
    pub points: Vec<PointRow>,
    pub end: u16,
}

fn head_in(heads: &[bool], number: u32) -> bool
    ensures { result ≡ head_in_lem heads.now number }
{
    heads.get(number as usize).copied().unwrap_or(false)
}

// Appends the rows of one operation, behind its head where it has one.
fn put_position(
    alloc: Global,
    b: &Board,
    has: bool,
    op: &Op,
    places: &Places,
    s: Standing,
    stretches: &mut Vec<StretchRow>,
    points: &mut Vec<PointRow>,
) -> Result<Standing, Memory>
    requires has { HasHomes places.now.of.items op.now }
    requires room { s.at + (head_bytes_of has + bytes_of_code (code_of (template (home_in places.now.of.items) 0 op.now))) ≤ 65535 }
    requires low { s.spent ≤ 999000000000000 }
    ensures rows { OnOk result (stretches.new.items ≡ stretches.old.items ++ row_by b.now has s) }
    ensures points { OnOk result (map point_of points.new.items ≡ map point_of points.old.items
        ++ (bare_by has s ++ own_by b.now (home_in places.now.of.items) op.now (entered_lem b.now has s))) }
    ensures behind { IfOk result (λ t. t ≡ passed b.now (home_in places.now.of.items) op.now (entered_lem b.now has s)) }
    ensures small { IfOk result (λ t. t.spent ≤ s.spent + 171395000000) }
{
    put_ended(b, has, &s, stretches)?;
    put_bare(alloc, has, &s, points)?;
    put_operation(alloc, b, op, places, entered(b, has, s), points)
}

/// The rows of operations one behind another, the first at 0x8012, before which these heads stand.
pub fn rows_of(
    alloc: Global,
    b: &Board,
    nodes: &[Node],
    places: &Places,
    heads: &[bool],
) -> Result<Rows, Memory>
    requires few { length nodes.now ≤ 4096 }
    requires have { HaveHomes places.now.of.items nodes.now }
    requires room { 0x8012 + bytes_of_all (home_in places.now.of.items) (still (head_in_lem heads.now) nodes.now) ≤ 0xFF80 }
    ensures stretches { IfOk result (λ r. r.stretches.items ≡ stretch_rows b.now (home_in places.now.of.items) 0x8012 (still (head_in_lem heads.now) nodes.now)) }
    ensures points { IfOk result (λ r. map point_of r.points.items ≡ points_from b.now (home_in places.now.of.items) 0x8012 0 0x8012 false (still (head_in_lem heads.now) nodes.now)) }
    ensures end { IfOk result (λ r. r.end ≡ 0x8012 + bytes_of_all (home_in places.now.of.items) (still (head_in_lem heads.now) nodes.now)) }
{
    let mut stretches = Vec::new(alloc);
    let mut points = Vec::new(alloc);
    let mut s = Standing {
        at: FIRST,
        stretch: FIRST,
        spent: 0,
        falls: false,
        begun: false,
    };
    let mut left = nodes;
    while let Some((node, rest)) = first_and_rest(left) {
        let has = head_in(heads, node.op.number);
        s = put_position(
            alloc,
            b,
            has,
            &node.op,
            places,
            s,
            &mut stretches,
            &mut points,
        )?;
        left = rest;
    }
    put_row(b, &s, &mut stretches)?;
    Ok(Rows {
        stretches,
        points,
        end: s.at,
    })
}
