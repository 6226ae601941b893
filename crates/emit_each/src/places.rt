//! Where the code of operations stands.

ghost use Rattle.std.specs.Prelude.{◌≡◌, ◌≤◌, ◌+◌, ◌*◌, ℕ, length, take, slice_index_or, IfOk};
ghost use Rattle.resumed_runs.specs.Code.{size_of as size_of_lem};
ghost use Rattle.laid_code.specs.Chosen.{head_size as head_size_lem};
ghost use Rattle.graph_code.specs.Pieces.{jumps_to as jumps_to_lem, pieces_by};
ghost use Rattle.emit_templates.specs.Placed.{HasHomes};
ghost use Rattle.emit_each.specs.Parts.{AllHave, address_in, end_from, head_in as head_in_lem, placed_template, starts_from};

use crate::heads::head_in;
use crate::lists::first_and_rest;
use base_io::Memory;
use emit_templates::{Instrs, Places, template};
use flow_graph::{Next, Node, Op};
use msp430_isa::{Instr, length_of};
use msp430_machine::CODE_START;
use std::alloc::Global;

/// The words of boot.
pub const BOOT_WORDS: u32 = 9;

/// The words of a head.
pub const HEAD_WORDS: u32 = 11;

/// The word at which the code of each operation begins, counted from the beginning of the code, and the word behind the last.
#[derive(Drop)]
pub struct Starts {
    pub of: Vec<u32>,
    pub end: u32,
}

/// How many words instructions have.
pub fn words_in(instructions: &[Instr]) -> u32
    requires few { length instructions.now ≤ 96 }
    ensures words { result ≡ size_of_lem instructions.now }
    ensures small { result ≤ 288 }
{
    let mut words = 0;
    for instruction in instructions {
        words += u32::from(length_of(*instruction));
    }
    words
}

/// The instructions of a template.
pub fn listed(code: &Instrs) -> &[Instr]
    requires few { code.now.count ≤ 96 }
    ensures listed { result.now ≡ take code.now.count code.now.list }
    ensures few { length result.now ≤ 96 }
{
    &code.list[..code.count as usize]
}

/// The words of a head, where there is one.
pub fn head_size(has: bool) -> u32
    ensures words { result ≡ head_size_lem has }
    ensures small { result ≤ 11 }
{
    if has { HEAD_WORDS } else { 0 }
}

fn template_size(op: &Op, places: &Places) -> u32
    requires has { HasHomes places.now.of.items op.now }
    ensures words { result ≡ size_of_lem (placed_template places.now.of.items 0 op.now) }
    ensures small { result ≤ 288 }
{
    let code = template(op, places, 0);
    words_in(listed(&code))
}

/// Where operations begin, and where the last ends.
pub fn starts_of(
    alloc: Global,
    nodes: &[Node],
    places: &Places,
    heads: &[bool],
) -> Result<Starts, Memory>
    requires few { length nodes.now ≤ 4096 }
    requires have { AllHave places.now.of.items nodes.now }
    ensures starts { IfOk result (λ starts. starts.of.items ≡ starts_from 9 (pieces_by (placed_template places.now.of.items) (head_in_lem heads.now) (λ m. 0) nodes.now)) }
    ensures end { IfOk result (λ starts. starts.end ≡ end_from 9 (pieces_by (placed_template places.now.of.items) (head_in_lem heads.now) (λ m. 0) nodes.now)) }
    ensures small { IfOk result (λ starts. starts.end ≤ 1224713) }
{
    let mut starts = Vec::new(alloc);
    let mut at = BOOT_WORDS;
    let mut left = nodes;
    while let Some((node, rest)) = first_and_rest(left) {
        if starts.push(at).is_err() {
            return Err(Memory);
        }
        at += head_size(head_in(heads, node.op.number)) + template_size(&node.op, places);
        left = rest;
    }
    Ok(Starts {
        of: starts,
        end: at,
    })
}

/// The operation that is jumped to.
pub fn jumps_to(next: Next) -> u32
    ensures { result ≡ jumps_to_lem next }
{
    match next {
        Next::To(n) => n,
        Next::Either { passed: _, failed } => failed,
        _ => 0,
    }
}

/// The address of the operation of this number, or of the end of the code.
pub fn address_of(starts: &Starts, number: u32) -> u16
    requires low { slice_index_or starts.now.of.items number starts.now.end ≤ 0x3FC0 }
    ensures { result ≡ address_in starts.now.of.items starts.now.end number }
{
    let at = starts
        .of
        .get(number as usize)
        .copied()
        .unwrap_or(starts.end);
    CODE_START + 2 * at as u16
}
