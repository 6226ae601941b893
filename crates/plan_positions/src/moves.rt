//! What a section restores and saves.

ghost use Rattle.std.specs.Prelude.{◌≡◌, ◌≤◌, ◌^◌, ◌-◌, ◌++◌, ◌∷◌, ◌||◌, ◌&&◌, [], IfOk, OnOk, drop, if◌then◌else◌, length, take};
ghost use Rattle.graph_flow.specs.GraphFlow.{target_by};
ghost use Rattle.plan_code.specs.Positions as code;
ghost use Rattle.plan_positions.specs.Told.{told_section, told_shape};

use crate::lists::first_and_rest;
use crate::section::{Section, Shape};
use base_io::Memory;
use chain_units::Knowledge;
use flow_graph::{Node, Op, OpKind};
use std::alloc::Global;

/// The most objects that a section moves; more are told as want of memory. No section has more than the words of SRAM.
const MOST: usize = 0x10_0000;

/// The object that an operation writes.
fn target_of(op: &Op) -> Option<u32>
    ensures { result ≡ target_by op.now.kind op.now }
{
    match op.kind {
        OpKind::Store => match op.array {
            None => None,
            Some(array) => Some(array.object),
        },
        OpKind::Output => None,
        OpKind::Finish => None,
        _ => op.dest,
    }
}

fn writes(op: &Op, object: u32) -> bool
    ensures { result ≡ code.is_target (target_by op.now.kind op.now) object }
{
    match target_of(op) {
        None => false,
        Some(target) => target == object,
    }
}

/// Whether one of the operations writes the object.
fn is_written(nodes: &[Node], object: u32) -> bool
    ensures { result ≡ code.is_written nodes.now object }
{
    let mut left = nodes;
    while let Some((node, rest)) = first_and_rest(left) {
        if writes(&node.op, object) {
            return true;
        }
        left = rest;
    }
    false
}

/// Those of the operations that a section has.
pub fn nodes_in<'a>(nodes: &'a [Node], first: u32, behind: u32) -> &'a [Node]
    ensures { result.now ≡ take (behind - first) (drop first nodes.now) }
{
    let left = &nodes[nodes.len().min(first as usize)..];
    let count = behind.saturating_sub(first) as usize;
    &left[..left.len().min(count)]
}

/// Puts an object behind the others, if it is to be there.
fn put_if(objects: &mut Vec<u32>, object: u32, yes: bool) -> Result<(), Memory>
    ensures { OnOk result (objects.new.items ≡ objects.old.items ++ (if yes then object ∷ [] else [])) }
{
    if !yes {
        return Ok(());
    }
    match objects.push(object) {
        Ok(()) => Ok(()),
        Err(_) => Err(Memory),
    }
}

/// As many as a section moves.
fn few(objects: Vec<u32>) -> Result<Vec<u32>, Memory>
    ensures same { IfOk result (λ made. made.items ≡ objects.items) }
    ensures few { IfOk result (λ made. length made.items ≤ 2 ^ 20) }
{
    if objects.len() <= MOST {
        Ok(objects)
    } else {
        Err(Memory)
    }
}

fn restores<K: Knowledge>(k: &K, first: u32, object: u32) -> bool
    ensures { result ≡ ((K.known k.now).is_array object || (K.known k.now).before first object) }
{
    k.is_array(object) || k.before(first, object)
}

/// The objects that a section restores: arrays, and scalars that are live where it begins.
#[tactic(auto, using(crate::proofs::Choosing::chosen_more))]
pub fn restored<K: Knowledge>(alloc: Global, k: &K, section: &Section) -> Result<Vec<u32>, Memory>
    ensures restored { IfOk result (λ made. made.items ≡ code.restored (K.known k.now) (told_section section.now)) }
    ensures few { IfOk result (λ made. length made.items ≤ 2 ^ 20) }
{
    let mut made = Vec::new(alloc);
    let mut left = section.homes.as_slice();
    while let Some((object, rest)) = first_and_rest(left) {
        put_if(&mut made, *object, restores(k, section.first, *object))?;
        left = rest;
    }
    few(made)
}

/// Whether an object is live where a section is left.
fn is_wanted<K: Knowledge>(k: &K, section: &Section, object: u32) -> bool
    ensures { result ≡ code.is_wanted (K.known k.now) (told_shape section.now.shape) (told_section section.now) object }
{
    match section.shape {
        Shape::Callee => false,
        Shape::Straight { ends: false } => k.before(section.behind, object),
        Shape::Straight { ends: true } => k.after(section.behind.saturating_sub(1), object),
        Shape::Rounds { turns: _ } => {
            k.before(section.first, object) || k.before(section.behind, object)
        }
    }
}

fn saves<K: Knowledge>(k: &K, nodes: &[Node], section: &Section, object: u32) -> bool
    ensures { result ≡ (code.is_written nodes.now object && code.is_wanted (K.known k.now) (told_shape section.now.shape) (told_section section.now) object) }
{
    is_written(nodes, object) && is_wanted(k, section, object)
}

/// The objects that a section with these operations saves: those that it writes and that are live where it is left.
#[tactic(auto, using(crate::proofs::Choosing::chosen_more))]
pub fn saved<K: Knowledge>(
    alloc: Global,
    k: &K,
    nodes: &[Node],
    section: &Section,
) -> Result<Vec<u32>, Memory>
    requires nodes { nodes.now ≡ code.nodes_in (K.known k.now).graph (told_section section.now) }
    ensures saved { IfOk result (λ made. made.items ≡ code.saved (K.known k.now) (told_section section.now)) }
    ensures few { IfOk result (λ made. length made.items ≤ 2 ^ 20) }
{
    let mut made = Vec::new(alloc);
    let mut left = section.homes.as_slice();
    while let Some((object, rest)) = first_and_rest(left) {
        put_if(&mut made, *object, saves(k, nodes, section, *object))?;
        left = rest;
    }
    few(made)
}
