//! The code of operations.

ghost use Rattle.std.specs.Prelude.{◌≡◌, ◌≤◌, ◌+◌, ◌*◌, ◌++◌, ℕ, length, All, IsTrue, IfOk, OnOk, slice_index_or};
ghost use Rattle.msp430_isa.specs.Profile.{in_profile};
ghost use Rattle.resumed_runs.specs.Bytes.{bytes_in};
ghost use Rattle.resumed_runs.specs.Code.{boot as boot_lem, size_of};
ghost use Rattle.laid_code.specs.Chosen.{chosen_code, head_code, head_size as head_size_lem};
ghost use Rattle.graph_code.specs.Pieces.{pieces_by};
ghost use Rattle.emit_templates.specs.Placed.{HasHomes};
ghost use Rattle.emit_each.specs.Parts.{AllAllowed, AllHave, address_in, end_from, head_in as head_in_lem, placed_template};

use crate::code::{boot, head, put_instructions};
use crate::heads::head_in;
use crate::lists::first_and_rest;
use crate::places::{BOOT_WORDS, Starts, address_of, head_size, jumps_to, listed, words_in};
use base_io::Memory;
use emit_templates::{Places, template};
use flow_graph::{Node, Op};
use msp430_machine::CODE_START;
use std::alloc::Global;

/// Appends a head at a word of the code, where there is one.
#[tactic(auto, using(crate::proofs::Laying::head_allowed))]
fn put_head(has: bool, at: u32, to: &mut Vec<u8>) -> Result<(), Memory>
    requires low { at ≤ 0x3FC0 }
    ensures { OnOk result (to.new.items ≡ to.old.items ++ bytes_in (head_code has at)) }
{
    if has {
        let resume = CODE_START + 2 * (at as u16 + 9);
        put_instructions(&head(resume), to)
    } else {
        Ok(())
    }
}

/// Appends the code of an operation, and answers how many words it has.
fn put_operation(op: &Op, places: &Places, target: u16, to: &mut Vec<u8>) -> Result<u32, Memory>
    requires has { HasHomes places.now.of.items op.now }
    requires allowed { All (λ i. IsTrue (in_profile i)) (placed_template places.now.of.items target op.now) }
    ensures bytes { OnOk result (to.new.items ≡ to.old.items ++ bytes_in (placed_template places.now.of.items target op.now)) }
    ensures words { IfOk result (λ words. words ≡ size_of (placed_template places.now.of.items target op.now)) }
    ensures small { IfOk result (λ words. words ≤ 288) }
{
    let code = template(op, places, target);
    let instructions = listed(&code);
    put_instructions(instructions, to)?;
    Ok(words_in(instructions))
}

/// Appends the code of operations, each behind its head where it has one.
fn put_operations(
    nodes: &[Node],
    places: &Places,
    heads: &[bool],
    starts: &Starts,
    to: &mut Vec<u8>,
) -> Result<(), Memory>
    requires have { AllHave places.now.of.items nodes.now }
    requires allowed { AllAllowed (placed_template places.now.of.items) (address_in starts.now.of.items starts.now.end) nodes.now }
    requires low { (n : ℕ) → slice_index_or starts.now.of.items n starts.now.end ≤ 0x3FC0 }
    requires room { end_from 9 (pieces_by (placed_template places.now.of.items) (head_in_lem heads.now) (address_in starts.now.of.items starts.now.end) nodes.now) ≤ 0x3FC0 }
    ensures { OnOk result (to.new.items ≡ to.old.items ++ bytes_in (chosen_code 9
        (pieces_by (placed_template places.now.of.items) (head_in_lem heads.now) (address_in starts.now.of.items starts.now.end) nodes.now))) }
{
    let mut at = BOOT_WORDS;
    let mut left = nodes;
    while let Some((node, rest)) = first_and_rest(left) {
        let has = head_in(heads, node.op.number);
        let target = address_of(starts, jumps_to(node.next));
        put_head(has, at, to)?;
        let words = put_operation(&node.op, places, target, to)?;
        at += head_size(has) + words;
        left = rest;
    }
    Ok(())
}

/// The bytes of the code: boot, and the operations.
#[tactic(auto, using(crate::proofs::Laying::bytes_joined))]
pub fn code_of(
    alloc: Global,
    nodes: &[Node],
    places: &Places,
    heads: &[bool],
    starts: &Starts,
) -> Result<Vec<u8>, Memory>
    requires have { AllHave places.now.of.items nodes.now }
    requires allowed { AllAllowed (placed_template places.now.of.items) (address_in starts.now.of.items starts.now.end) nodes.now }
    requires low { (n : ℕ) → slice_index_or starts.now.of.items n starts.now.end ≤ 0x3FC0 }
    requires room { end_from 9 (pieces_by (placed_template places.now.of.items) (head_in_lem heads.now) (address_in starts.now.of.items starts.now.end) nodes.now) ≤ 0x3FC0 }
    ensures { IfOk result (λ code. code.items ≡ bytes_in (boot_lem ++ chosen_code 9
        (pieces_by (placed_template places.now.of.items) (head_in_lem heads.now) (address_in starts.now.of.items starts.now.end) nodes.now))) }
{
    let mut bytes = Vec::new(alloc);
    put_instructions(&boot(), &mut bytes)?;
    put_operations(nodes, places, heads, starts, &mut bytes)?;
    Ok(bytes)
}
