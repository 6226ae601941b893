//! What a walk notes down.
ghost use Rattle.std.specs.Prelude.{◌≡◌, ◌++◌, ◌∷◌, [], IfOk, OnOk, OnErr};
ghost use Rattle.c_typing.specs.Parts as spec;
ghost use Rattle.c_typing.specs.Parts.{Makes};

use c_parse::NoMemory;
use c_typing::{State, TypeFault};
use sqlite_items::{Boxed, Items};
use std::alloc::Global;

/// A fault is found.
pub fn note(fault: TypeFault, state: &mut State) -> Result<(), NoMemory>
    ensures { Makes (spec.note fault) state.old result state.new }
{
    push(&mut state.faults, fault)
}

/// A fault is found, where the test holds.
pub fn note_if(holds: bool, fault: TypeFault, state: &mut State) -> Result<(), NoMemory>
    ensures { Makes (spec.note_if holds fault) state.old result state.new }
{
    if holds { note(fault, state) } else { Ok(()) }
}

/// So many nodes are in the typed tree.
pub fn count(nodes: u64, state: &mut State) -> Result<(), NoMemory>
    ensures { Makes (spec.count nodes) state.old result state.new }
{
    match state.nodes.checked_add(nodes) {
        Some(nodes) => {
            state.nodes = nodes;
            Ok(())
        }
        None => Err(NoMemory),
    }
}

/// Adds an item behind the others.
pub fn push<T: Drop>(items: &mut Items<T>, item: T) -> Result<(), NoMemory>
    ensures ok { OnOk result (items.new ≡ items.old ++ item ∷ []) }
    ensures err { OnErr result (items.new ≡ items.old) }
{
    match items.push(item) {
        Ok(()) => Ok(()),
        Err(_) => Err(NoMemory),
    }
}

/// Puts a value in a box.
pub fn boxed<T: Drop>(alloc: Global, value: T) -> Result<Boxed<T>, NoMemory>
    ensures { IfOk result (λ b. b ≡ value) }
{
    match Boxed::new(alloc, value) {
        Ok(b) => Ok(b),
        Err(_) => Err(NoMemory),
    }
}
