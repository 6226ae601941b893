//! Which objects are arrays.

ghost use Rattle.std.specs.Prelude.{◌≡◌, ◌<◌, ◌&&◌, ◌++◌, ◌∷◌, [], ℕ, IfOk, OnOk, false, nat_lt, slice_index_or};
ghost use Rattle.checkpoint_graph.specs.Knowing.{names, some_names};

use base_io::Memory;
use flow_graph::{ArrayUse, Owned};
use std::alloc::Global;

fn names(array: Option<ArrayUse>, object: u32) -> bool
    ensures { result ≡ names array object }
{
    match array {
        None => false,
        Some(array) => array.object == object,
    }
}

/// Whether some operation names an object as an array.
fn some_names(operations: &[Owned], object: u32) -> bool
    ensures { result ≡ some_names operations.now object }
{
    operations.iter().any(|x| names(x.node.op.array, object))
}

/// Puts a flag behind the others.
fn put(flags: &mut Vec<bool>, flag: bool) -> Result<(), Memory>
    ensures { OnOk result (flags.new.items ≡ flags.old.items ++ flag ∷ []) }
{
    match flags.push(flag) {
        Ok(()) => Ok(()),
        Err(_) => Err(Memory),
    }
}

/// For each of so many objects whether it is an array.
pub fn arrays(alloc: Global, operations: &[Owned], objects: u32) -> Result<Vec<bool>, Memory>
    ensures { IfOk result (λ made. (o : ℕ) → slice_index_or made.items o false ≡ (nat_lt o objects && some_names operations.now o)) }
{
    let mut made = Vec::new(alloc);
    for object in 0..objects {
        put(&mut made, some_names(operations, object))?;
    }
    Ok(made)
}
