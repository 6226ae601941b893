//! Placing: the items of a body, one by one, into chains.

ghost use Rattle.std.specs.Prelude.{◌≡◌, [], IfOk, OnOk};
ghost use Rattle.std.specs.List.{AllByRecursion};
ghost use Rattle.flow_graph.specs.declared.graph.Item.{out-Item};
ghost use Rattle.flow_graph.specs.declared.graph.Item.TheVariants as variants;
ghost use Rattle.flow_graph.specs.Nodes.{around_body};
ghost use Rattle.chain_units.specs.Chains.{cut};
ghost use Rattle.chain_units.specs.Fits.{BodyFits};
ghost use Rattle.chain_units.specs.Marks.{flat_or, marks_of, placed_items};
ghost use Rattle.chain_units.specs.Known.{Known};
ghost use Rattle.chain_units.specs.Parts.{IsLoopOf, branch_parts, close_if, loop_parts, marks_by, split_parts, switch_parts};
ghost use Rattle.chain_units.specs.Placements.{AreRuns, Places, RunFits};

use crate::conditional::conditional;
use crate::cutting::{Placer, Run, begin, close, stand_alone};
use crate::flat::{are_flat, begins_pair};
use crate::joining::{join_end, join_flat, place_call, place_one};
use crate::knowledge::Knowledge;
use crate::leaves::turn_continues;
use crate::lists::{alone, behind_two, first_and_rest, two_of};
use base_io::Memory;
use flow_graph::{Around, Item, Op};
use std::alloc::Global;

fn at_behind(around: Around, behind: u32) -> Around
    ensures { result ≡ record { behind = behind; break_to = around.break_to; continue_to = around.continue_to } }
{
    Around { behind, ..around }
}

/// Around the parts of a loop, whose step begins with `again`.
fn in_loop(around: Around, again: u32, behind: u32) -> Around
    ensures { result ≡ record { behind = behind; break_to = around.behind; continue_to = again } }
{
    Around {
        behind,
        break_to: around.behind,
        continue_to: again,
    }
}

fn in_switch(around: Around) -> Around
    ensures { result ≡ record { behind = around.behind; break_to = around.behind; continue_to = around.continue_to } }
{
    Around {
        break_to: around.behind,
        ..around
    }
}

/// The chain that is open closes, where something holds.
fn close_where(alloc: Global, placer: &mut Placer, holds: bool) -> Result<(), Memory>
    ensures { OnOk result ((k : Known) → Places k (close_if holds) placer.old placer.new) }
{
    if holds { close(alloc, placer) } else { Ok(()) }
}

/// Places items one behind the other.
#[cycle(placing)]
fn place_items<K: Knowledge>(
    alloc: Global,
    k: &K,
    items: &[Item],
    around: Around,
    placer: &mut Placer,
) -> Result<(), Memory>
    ensures { OnOk result (Places (K.known k.now) (marks_of (K.known k.now) (placed_items (K.known k.now) items.now) around) placer.old placer.new) }
{
    let mut left = items;
    while let Some((item, behind)) = first_and_rest(left) {
        let paired = begins_pair(alloc, k, left)?;
        if paired {
            let rest = behind_two(left);
            let after = k.first_of(rest, around.behind);
            join_flat(alloc, k, two_of(left), after, placer)?;
            left = rest;
            continue;
        }
        let next = k.first_of(behind, around.behind);
        place_item(alloc, k, item, at_behind(around, next), placer)?;
        left = behind;
    }
    Ok(())
}

/// Places an item.
#[cycle(placing)]
fn place_item<K: Knowledge>(
    alloc: Global,
    k: &K,
    item: &Item,
    around: Around,
    placer: &mut Placer,
) -> Result<(), Memory>
    ensures { OnOk result (Places (K.known k.now) (marks_by (K.known k.now) (out-Item item.now) around) placer.old placer.new) }
{
    match item {
        Item::One(op) => place_one(alloc, k, alone(item), op, around.behind, placer),
        Item::Branch { test, yes, no } => place_branch(
            alloc,
            k,
            item,
            test,
            yes.as_slice(),
            no.as_slice(),
            around,
            placer,
        ),
        Item::Loop {
            pre,
            test,
            post,
            step,
            back,
            count: _,
        } => place_loop(
            alloc,
            k,
            item,
            pre.as_slice(),
            test,
            post.as_slice(),
            step.as_slice(),
            back,
            around,
            placer,
        ),
        Item::Switch { items } => place_switch(alloc, k, item, items.as_slice(), around, placer),
        Item::CallTo { op, function } => {
            place_call(alloc, k, alone(item), op, *function, around.behind, placer)
        }
        Item::Leave { op, to: _ } => join_end(alloc, k, op, placer),
    }
}

/// A branch: where it isn't flat, its test ends a chain, and each arm is placed by itself.
#[cycle(placing)]
fn place_branch<K: Knowledge>(
    alloc: Global,
    k: &K,
    item: &Item,
    test: &Op,
    yes: &[Item],
    no: &[Item],
    around: Around,
    placer: &mut Placer,
) -> Result<(), Memory>
    requires { item.now ≡ variants.Branch test.now yes.now no.now }
    ensures { OnOk result (Places (K.known k.now) (flat_or (K.known k.now) item.now around.behind (branch_parts (K.known k.now) test.now yes.now no.now around)) placer.old placer.new) }
{
    let one = alone(item);
    let flat = are_flat(alloc, k, one)?;
    if flat {
        return join_flat(alloc, k, one, around.behind, placer);
    }
    join_end(alloc, k, test, placer)?;
    place_items(alloc, k, yes, around, placer)?;
    close(alloc, placer)?;
    place_items(alloc, k, no, around, placer)?;
    close(alloc, placer)
}

/// A switch: where it isn't flat, its items are placed, and the chain closes behind them.
#[cycle(placing)]
fn place_switch<K: Knowledge>(
    alloc: Global,
    k: &K,
    item: &Item,
    items: &[Item],
    around: Around,
    placer: &mut Placer,
) -> Result<(), Memory>
    requires { item.now ≡ variants.Switch items.now }
    ensures { OnOk result (Places (K.known k.now) (flat_or (K.known k.now) item.now around.behind (switch_parts (K.known k.now) items.now around)) placer.old placer.new) }
{
    let one = alone(item);
    let flat = are_flat(alloc, k, one)?;
    if flat {
        return join_flat(alloc, k, one, around.behind, placer);
    }
    place_items(alloc, k, items, in_switch(around), placer)?;
    close(alloc, placer)
}

/// A loop: the chain closes, and where a turn of it fits it is a chain by itself, else its parts are placed.
#[cycle(placing)]
fn place_loop<K: Knowledge>(
    alloc: Global,
    k: &K,
    item: &Item,
    pre: &[Item],
    test: &Op,
    post: &[Item],
    step: &[Item],
    back: &Op,
    around: Around,
    placer: &mut Placer,
) -> Result<(), Memory>
    requires { IsLoopOf item.now pre.now test.now post.now step.now back.now }
    ensures { OnOk result (Places (K.known k.now) (loop_parts (K.known k.now) item.now pre.now test.now post.now step.now back.now around) placer.old placer.new) }
{
    close(alloc, placer)?;
    let found = conditional(alloc, k, pre, test, post, step, around.behind)?;
    match found {
        Some(turning) => stand_alone(alloc, placer, turning),
        None => place_split(alloc, k, item, pre, test, post, step, back, around, placer),
    }
}

/// A loop that isn't conditional: each part in turn; its test and its Go each end a chain, and so does what stands before a
/// step that a `continue` goes to.
#[cycle(placing)]
fn place_split<K: Knowledge>(
    alloc: Global,
    k: &K,
    item: &Item,
    pre: &[Item],
    test: &Op,
    post: &[Item],
    step: &[Item],
    back: &Op,
    around: Around,
    placer: &mut Placer,
) -> Result<(), Memory>
    requires { IsLoopOf item.now pre.now test.now post.now step.now back.now }
    ensures { OnOk result (Places (K.known k.now) (split_parts (K.known k.now) pre.now test.now post.now step.now back.now around) placer.old placer.new) }
{
    let again = k.first_of(step, back.number);
    place_items(alloc, k, pre, in_loop(around, again, test.number), placer)?;
    join_end(alloc, k, test, placer)?;
    place_items(alloc, k, post, in_loop(around, again, again), placer)?;
    close_where(alloc, placer, turn_continues(pre, post, step))?;
    place_items(alloc, k, step, in_loop(around, again, back.number), placer)?;
    join_end(alloc, k, back, placer)
}

/// The chains of a function's body, each of which has a plan.
pub fn placed_runs<K: Knowledge>(alloc: Global, k: &K, body: &[Item]) -> Result<Vec<Run>, Memory>
    requires { BodyFits (K.known k.now) body.now }
    ensures runs { IfOk result (λ runs. AreRuns (K.known k.now) (cut [] (marks_of (K.known k.now) (placed_items (K.known k.now) body.now) around_body)) runs.items) }
    ensures fit { IfOk result (λ runs. AllByRecursion (RunFits (K.known k.now)) runs.items) }
{
    let around = Around {
        behind: 0,
        break_to: 0,
        continue_to: 0,
    };
    let mut placer = begin(alloc);
    place_items(alloc, k, body, around, &mut placer)?;
    close(alloc, &mut placer)?;
    let Placer { runs, pieces: _ } = placer;
    Ok(runs)
}
