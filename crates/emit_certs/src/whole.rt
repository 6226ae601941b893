//! The certificate.

ghost use Rattle.std.specs.Prelude.{◌≡◌, ◌≤◌, ◌+◌, ◌∷◌, [], None, map, length, IfOk};
ghost use Rattle.certificate.specs.Rows.{function_of};
ghost use Rattle.certificate.specs.Whole.{certificate_of as certificate_of_lem};
ghost use Rattle.emit_templates.specs.Placed.{home_in};
ghost use Rattle.cert_templates.specs.Frames.{bytes_of_all, certificate_of as certificate_of_positions};
ghost use Rattle.emit_certs.specs.Standing.{HaveHomes, head_in, still};

use crate::rows::{FIRST, Rows, rows_of};
use base_io::Memory;
use board_table::Board;
use certificate::{Cert, FunctionRow};
use emit_templates::Places;
use flow_graph::Node;
use std::alloc::Global;

fn functions_of(alloc: Global, end: u16) -> Result<Vec<FunctionRow>, Memory>
    ensures { IfOk result (λ functions. map function_of functions.items ≡ record { start = 0x8012; end = end; height = 1; flat = None } ∷ []) }
{
    let mut functions = Vec::new(alloc);
    let function = FunctionRow {
        start: FIRST,
        end,
        height: 1,
        flat: None,
    };
    match functions.push(function) {
        Ok(()) => Ok(functions),
        Err(_) => Err(Memory),
    }
}

/// The certificate of operations that stand one behind another from 0x8012 on, with all objects in FRAM, in the order of their numbers, and
/// with a head before those that have one: a row for each stretch, from a head up to the next one, with what it costs, and the points
/// that each template needs. It takes as many steps as the code has instructions.
pub fn certificate_of(
    alloc: Global,
    b: &Board,
    nodes: &[Node],
    places: &Places,
    heads: &[bool],
) -> Result<Cert, Memory>
    requires few { length nodes.now ≤ 4096 }
    requires have { HaveHomes places.now.of.items nodes.now }
    requires room { 0x8012 + bytes_of_all (home_in places.now.of.items) (still (head_in heads.now) nodes.now) ≤ 0xFF80 }
    ensures { IfOk result (λ c. certificate_of_lem c ≡ certificate_of_positions b.now (home_in places.now.of.items) (still (head_in heads.now) nodes.now)) }
{
    let rows = rows_of(alloc, b, nodes, places, heads)?;
    let functions = functions_of(alloc, rows.end)?;
    let Rows {
        stretches,
        points,
        end: _,
    } = rows;
    Ok(Cert {
        budget: b.budget,
        functions,
        stretches,
        points,
    })
}
