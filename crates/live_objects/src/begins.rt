//! The operation that each function of a graph begins with.

ghost use Rattle.std.specs.Prelude.{◌≡◌, ◌++◌, ◌∷◌, [], IfOk, OnOk};
ghost use Rattle.live_objects.specs.GraphArcs.{entries};

use crate::lists::first_and_rest;
use base_io::Memory;
use flow_graph::{Func, first};
use std::alloc::Global;

fn put_entry(entries: &mut Vec<u32>, entry: u32) -> Result<(), Memory>
    ensures { OnOk result (entries.new.items ≡ entries.old.items ++ entry ∷ []) }
{
    match entries.push(entry) {
        Ok(()) => Ok(()),
        Err(_) => Err(Memory),
    }
}

/// The operation that each function begins with.
pub fn entries(alloc: Global, functions: &[Func]) -> Result<Vec<u32>, Memory>
    ensures { IfOk result (λ made. made.items ≡ entries functions.now) }
{
    let mut made = Vec::new(alloc);
    let mut left = functions;
    while let Some((func, rest)) = first_and_rest(left) {
        put_entry(&mut made, first(func.body.as_slice(), 0))?;
        left = rest;
    }
    Ok(made)
}
