//! The code of an operation whose objects have addresses.

ghost use Rattle.std.specs.Prelude.{◌≡◌, ◌≤◌, ◌++◌, ◌∷◌, [], length, IfOk, OnOk};
ghost use Rattle.op_cost.specs.Templates.{template as template_lem};
ghost use Rattle.emit_templates.specs.Placed.{HasHomes, home_in};
ghost use Rattle.emit_certs.specs.Timed.{code_in};

use crate::code::{Timed, times_in};
use crate::lists::first_and_rest;
use base_io::Memory;
use emit_templates::{Places, template};
use flow_graph::Op;
use msp430_isa::Instr;
use std::alloc::Global;

fn put(instr: Instr, times: u8, to: &mut Vec<Timed>) -> Result<(), Memory>
    ensures { OnOk result (to.new.items ≡ to.old.items ++ record { instr = instr; times = times } ∷ []) }
{
    match to.push(Timed { instr, times }) {
        Ok(()) => Ok(()),
        Err(_) => Err(Memory),
    }
}

/// The template of an operation. Where it jumps, it goes to address 0: nothing that is told of it depends on that.
#[tactic(auto, using(crate::proofs::EachKind::timed_is))]
pub fn timed(alloc: Global, op: &Op, places: &Places) -> Result<Vec<Timed>, Memory>
    requires has { HasHomes places.now.of.items op.now }
    ensures code { IfOk result (λ code. code_in code.items ≡ template_lem (home_in places.now.of.items) 0 op.now) }
    ensures few { IfOk result (λ code. length code.items ≤ 96) }
{
    let made = template(op, places, 0);
    let mut code = Vec::new(alloc);
    let mut index = 0;
    let mut left = &made.list[..made.count as usize];
    while let Some((instr, rest)) = first_and_rest(left) {
        put(*instr, times_in(op.kind, index), &mut code)?;
        index += 1;
        left = rest;
    }
    Ok(code)
}
