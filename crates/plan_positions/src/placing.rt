//! The positions of sections, one behind another.

ghost use Rattle.std.specs.Prelude.{◌≡◌, ◌≤◌, ◌<◌, ◌-◌, ◌^◌, ◌++◌, ◌∷◌, [], ℕ, IfOk, OnOk, List, drop, length, map, take};
ghost use Rattle.flow_graph.specs.Nodes.{graph_nodes};
ghost use Rattle.plan_code.specs.Positions as code;
ghost use Rattle.plan_positions.specs.Listed.{count_of, ending_by, going_by, head_by, inner_by, listed_by, restore_by, save_by, turn_begun_by, turn_by, turn_ended_by};
ghost use Rattle.plan_positions.specs.Told.{all_told, firsts_from, listed, told, told_section};

use crate::frame::{Frame, end_goal, frame_of, inner_goal};
use crate::lists::first_and_rest;
use crate::moves::{nodes_in, restored, saved};
use crate::position::{Goal, Position, What, put};
use crate::section::{Section, Shape};
use base_io::Memory;
use chain_units::Knowledge;
use flow_graph::{Func, Node};
use std::alloc::Global;

/// What a section consists of.
#[derive(Clone, Copy)]
struct Contents<'a> {
    frame: Frame,
    functions: &'a [Func],
    restored: &'a [u32],
    saved: &'a [u32],
    nodes: &'a [Node],
}

fn put_restores(positions: &mut Vec<Position>, spot: u32, objects: &[u32]) -> Result<(), Memory>
    ensures { OnOk result (positions.new.items ≡ positions.old.items ++ map (restore_by spot) objects.now) }
{
    let mut left = objects;
    while let Some((object, rest)) = first_and_rest(left) {
        put(positions, spot, What::Restores(*object), Goal::Nowhere)?;
        left = rest;
    }
    Ok(())
}

fn put_saves(positions: &mut Vec<Position>, spot: u32, objects: &[u32]) -> Result<(), Memory>
    ensures { OnOk result (positions.new.items ≡ positions.old.items ++ map (save_by spot) objects.now) }
{
    let mut left = objects;
    while let Some((object, rest)) = first_and_rest(left) {
        put(positions, spot, What::Saves(*object), Goal::Nowhere)?;
        left = rest;
    }
    Ok(())
}

/// Puts operations that end no chain behind the others.
fn put_inner(
    positions: &mut Vec<Position>,
    f: Frame,
    functions: &[Func],
    nodes: &[Node],
) -> Result<(), Memory>
    requires at { f.at ≤ 2 ^ 40 }
    requires front { f.front ≤ 2 ^ 33 }
    requires exit { f.exit ≤ 2 ^ 33 }
    ensures { OnOk result (positions.new.items ≡ positions.old.items ++ map (inner_by f functions.now) nodes.now) }
{
    let mut left = nodes;
    while let Some((node, rest)) = first_and_rest(left) {
        let goal = inner_goal(f, functions, node.next);
        put(positions, node.op.number, What::Does(*node), goal)?;
        left = rest;
    }
    Ok(())
}

/// Puts the operations that end a chain behind the others.
fn put_ending(
    positions: &mut Vec<Position>,
    functions: &[Func],
    nodes: &[Node],
) -> Result<(), Memory>
    ensures { OnOk result (positions.new.items ≡ positions.old.items ++ map (ending_by functions.now) nodes.now) }
{
    let mut left = nodes;
    while let Some((node, rest)) = first_and_rest(left) {
        let goal = end_goal(functions, node.next);
        put(positions, node.op.number, What::Does(*node), goal)?;
        left = rest;
    }
    Ok(())
}

/// Puts the Go of a loop behind the others.
fn put_going(positions: &mut Vec<Position>, goal: Goal, nodes: &[Node]) -> Result<(), Memory>
    ensures { OnOk result (positions.new.items ≡ positions.old.items ++ map (going_by goal) nodes.now) }
{
    let mut left = nodes;
    while let Some((node, rest)) = first_and_rest(left) {
        put(positions, node.op.number, What::Does(*node), goal)?;
        left = rest;
    }
    Ok(())
}

/// Puts a head, and what is restored behind it.
fn put_head(positions: &mut Vec<Position>, spot: u32, objects: &[u32]) -> Result<(), Memory>
    ensures { OnOk result (positions.new.items ≡ positions.old.items ++ head_by spot objects.now) }
{
    put(positions, spot, What::Sleeps, Goal::Nowhere)?;
    put_restores(positions, spot, objects)
}

/// All operations but the last.
fn leading<'a>(f: Frame, nodes: &'a [Node]) -> &'a [Node]
    ensures { result.now ≡ take (count_of f - 1) nodes.now }
{
    let count = f.behind.saturating_sub(f.first).saturating_sub(1) as usize;
    &nodes[..nodes.len().min(count)]
}

/// The last operation.
fn last<'a>(f: Frame, nodes: &'a [Node]) -> &'a [Node]
    ensures { result.now ≡ drop (count_of f - 1) nodes.now }
{
    let count = f.behind.saturating_sub(f.first).saturating_sub(1) as usize;
    &nodes[nodes.len().min(count)..]
}

/// A stretch of a plain chain.
fn put_straight(positions: &mut Vec<Position>, c: &Contents, ends: bool) -> Result<(), Memory>
    requires at { c.now.frame.at ≤ 2 ^ 40 }
    requires front { c.now.frame.front ≤ 2 ^ 33 }
    requires exit { c.now.frame.exit ≤ 2 ^ 33 }
    ensures { OnOk result (positions.new.items ≡ positions.old.items ++ listed_by (Shape.Straight ends) c.now.frame c.now.functions.now c.now.restored.now c.now.saved.now c.now.nodes.now) }
{
    let f = c.frame;
    put_head(positions, f.first, c.restored)?;
    if ends {
        put_inner(positions, f, c.functions, leading(f, c.nodes))?;
        put_saves(positions, f.behind.saturating_sub(1), c.saved)?;
        put_ending(positions, c.functions, last(f, c.nodes))
    } else {
        put_inner(positions, f, c.functions, c.nodes)?;
        put_saves(positions, f.behind, c.saved)
    }
}

/// A conditional loop up to the end of a turn.
fn put_turn_begun(positions: &mut Vec<Position>, c: &Contents, turns: u32) -> Result<(), Memory>
    requires at { c.now.frame.at ≤ 2 ^ 40 }
    requires front { c.now.frame.front ≤ 2 ^ 33 }
    requires exit { c.now.frame.exit ≤ 2 ^ 33 }
    ensures { OnOk result (positions.new.items ≡ positions.old.items ++ turn_begun_by c.now.frame c.now.functions.now c.now.restored.now c.now.nodes.now turns) }
{
    let f = c.frame;
    put_head(positions, f.first, c.restored)?;
    put(positions, f.first, What::Sets(turns), Goal::Nowhere)?;
    put_inner(positions, f, c.functions, leading(f, c.nodes))
}

/// The end of a turn.
fn put_turn(positions: &mut Vec<Position>, f: Frame) -> Result<(), Memory>
    requires at { f.at ≤ 2 ^ 40 }
    requires front { f.front ≤ 2 ^ 33 }
    ensures { OnOk result (positions.new.items ≡ positions.old.items ++ turn_by f ∷ []) }
{
    let count = f.behind.saturating_sub(f.first);
    let out = Goal::To(f.at + (f.front + (u64::from(count) + 1)));
    put(positions, f.behind.saturating_sub(1), What::Turns, out)
}

/// A conditional loop from the end of a turn on.
fn put_turn_ended(
    positions: &mut Vec<Position>,
    f: Frame,
    objects: &[u32],
    nodes: &[Node],
) -> Result<(), Memory>
    requires at { f.at ≤ 2 ^ 40 }
    requires front { f.front ≤ 2 ^ 33 }
    ensures { OnOk result (positions.new.items ≡ positions.old.items ++ turn_ended_by f objects.now nodes.now) }
{
    let go = last(f, nodes);
    put_turn(positions, f)?;
    put_going(positions, Goal::To(f.at + f.front), go)?;
    put_saves(positions, f.behind.saturating_sub(1), objects)?;
    put_going(positions, Goal::To(f.at), go)?;
    put_saves(positions, f.behind, objects)
}

/// A conditional loop.
fn put_rounds(positions: &mut Vec<Position>, c: &Contents, turns: u32) -> Result<(), Memory>
    requires at { c.now.frame.at ≤ 2 ^ 40 }
    requires front { c.now.frame.front ≤ 2 ^ 33 }
    requires exit { c.now.frame.exit ≤ 2 ^ 33 }
    ensures { OnOk result (positions.new.items ≡ positions.old.items ++ listed_by (Shape.Rounds turns) c.now.frame c.now.functions.now c.now.restored.now c.now.saved.now c.now.nodes.now) }
{
    put_turn_begun(positions, c, turns)?;
    put_turn_ended(positions, c.frame, c.saved, c.nodes)
}

/// A section.
fn put_section(positions: &mut Vec<Position>, c: &Contents, shape: Shape) -> Result<(), Memory>
    requires at { c.now.frame.at ≤ 2 ^ 40 }
    requires front { c.now.frame.front ≤ 2 ^ 33 }
    requires exit { c.now.frame.exit ≤ 2 ^ 33 }
    ensures { OnOk result (positions.new.items ≡ positions.old.items ++ listed_by shape c.now.frame c.now.functions.now c.now.restored.now c.now.saved.now c.now.nodes.now) }
{
    match shape {
        Shape::Callee => put_inner(positions, c.frame, c.functions, c.nodes),
        Shape::Straight { ends } => put_straight(positions, c, ends),
        Shape::Rounds { turns } => put_rounds(positions, c, turns),
    }
}

/// The positions of a section whose first has this number.
#[tactic(auto, using(crate::proofs::Listing::section_told))]
fn positions_of<K: Knowledge>(
    alloc: Global,
    k: &K,
    functions: &[Func],
    nodes: &[Node],
    at: u64,
    section: &Section,
) -> Result<Vec<Position>, Memory>
    requires at { at ≤ 2 ^ 40 }
    requires functions { functions.now ≡ (K.known k.now).graph.functions }
    requires nodes { nodes.now ≡ graph_nodes (K.known k.now).graph }
    ensures { IfOk result (λ made. map (told (told_section section.now)) made.items ≡ code.section_positions (K.known k.now) at (told_section section.now)) }
{
    let inside = nodes_in(nodes, section.first, section.behind);
    let restored = restored(alloc, k, section)?;
    let saved = saved(alloc, k, inside, section)?;
    let contents = Contents {
        frame: frame_of(at, section, restored.len(), saved.len()),
        functions,
        restored: restored.as_slice(),
        saved: saved.as_slice(),
        nodes: inside,
    };
    let mut positions = Vec::new(alloc);
    put_section(&mut positions, &contents, section.shape)?;
    Ok(positions)
}

/// The positions of each section, in the order of the code, and the number of the first of each.
#[derive(Debug, Drop)]
pub struct Laid {
    pub positions: Vec<Vec<Position>>,
    pub firsts: Vec<u64>,
}

/// The most positions of a section, and of all; more are told as want of memory.
const MOST: u64 = 0x40_0000;

fn put_laid(laid: &mut Laid, at: u64, positions: Vec<Position>) -> Result<(), Memory>
    ensures positions { OnOk result (map listed laid.new.positions.items ≡ map listed laid.old.positions.items ++ positions.items ∷ []) }
    ensures firsts { OnOk result (laid.new.firsts.items ≡ laid.old.firsts.items ++ at ∷ []) }
{
    if laid.firsts.push(at).is_err() {
        return Err(Memory);
    }
    match laid.positions.push(positions) {
        Ok(()) => Ok(()),
        Err(_) => Err(Memory),
    }
}

/// The positions of sections of a graph.
#[tactic(auto, using(crate::proofs::Laying::so_begun, crate::proofs::Laying::so_more, crate::proofs::Laying::all_positions, crate::proofs::Laying::all_firsts))]
pub fn lay<K: Knowledge>(
    alloc: Global,
    k: &K,
    functions: &[Func],
    nodes: &[Node],
    sections: &[Section],
) -> Result<Laid, Memory>
    requires functions { functions.now ≡ (K.known k.now).graph.functions }
    requires nodes { nodes.now ≡ graph_nodes (K.known k.now).graph }
    // The positions of the definition, one list for each section.
    ensures positions { IfOk result (λ laid. all_told (map told_section sections.now) (map listed laid.positions.items) ≡ code.positions_from (K.known k.now) 0 (map told_section sections.now)) }
    // The number of the first of each.
    ensures firsts { IfOk result (λ laid. laid.firsts.items ≡ firsts_from (K.known k.now) 0 (map told_section sections.now)) }
{
    let mut laid = Laid {
        positions: Vec::new(alloc),
        firsts: Vec::new(alloc),
    };
    let mut at = 0;
    let mut left = sections;
    while let Some((section, rest)) = first_and_rest(left) {
        let positions = positions_of(alloc, k, functions, nodes, at, section)?;
        let count = positions.len() as u64;
        put_laid(&mut laid, at, positions)?;
        if at > MOST || count > MOST {
            return Err(Memory);
        }
        at += count;
        left = rest;
    }
    Ok(laid)
}
