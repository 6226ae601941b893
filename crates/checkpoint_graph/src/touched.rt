//! The objects that flat functions called in items touch.

ghost use Rattle.std.specs.Prelude.{◌≡◌, ◌++◌, OnOk, slice_get};
ghost use Rattle.flow_graph.specs.declared.graph.Item.{out-Item};
ghost use Rattle.chain_units.specs.Costs.{touched_in_all};
ghost use Rattle.checkpoint_graph.specs.Knowing.{known_of, touched_in_one, touched_parts};

use crate::known::GraphOnBoard;
use crate::lists::first_and_rest;
use base_io::Memory;
use call_summary::Summary;
use flow_graph::Item;

/// Puts the objects that a function touches behind others.
fn put_called(objects: &mut Vec<u32>, summaries: &[Summary], function: u32) -> Result<(), Memory>
    ensures { OnOk result (objects.new.items ≡ objects.old.items ++ touched_in_one (slice_get summaries.now function)) }
{
    match summaries.get(function as usize) {
        Some(Summary::Flat { cost: _, touched }) => match objects.extend_from_slice(touched) {
            Ok(()) => Ok(()),
            Err(_) => Err(Memory),
        },
        _ => Ok(()),
    }
}

/// Puts the objects that flat functions called in an item touch behind others.
#[cycle(touching)]
fn put_touched_in(objects: &mut Vec<u32>, on: &GraphOnBoard, item: &Item) -> Result<(), Memory>
    ensures { OnOk result (objects.new.items ≡ objects.old.items ++ touched_parts (known_of on.now) (out-Item item.now)) }
{
    match item {
        Item::Branch { test: _, yes, no } => {
            put_touched(objects, on, yes.as_slice())?;
            put_touched(objects, on, no.as_slice())
        }
        Item::Loop {
            pre,
            test: _,
            post,
            step,
            back: _,
            count: _,
        } => {
            put_touched(objects, on, pre.as_slice())?;
            put_touched(objects, on, post.as_slice())?;
            put_touched(objects, on, step.as_slice())
        }
        Item::Switch { items } => put_touched(objects, on, items.as_slice()),
        Item::CallTo { op: _, function } => put_called(objects, on.summaries, *function),
        Item::One(_) => Ok(()),
        Item::Leave { .. } => Ok(()),
    }
}

/// Puts the objects that flat functions called in items touch behind others.
#[cycle(touching)]
pub fn put_touched(objects: &mut Vec<u32>, on: &GraphOnBoard, items: &[Item]) -> Result<(), Memory>
    ensures { OnOk result (objects.new.items ≡ objects.old.items ++ touched_in_all (known_of on.now) items.now) }
{
    let mut left = items;
    while let Some((item, rest)) = first_and_rest(left) {
        put_touched_in(objects, on, item)?;
        left = rest;
    }
    Ok(())
}
