//! The functions that read or write an object themselves.

ghost use Rattle.std.specs.Prelude.{◌≡◌, ◌<◌, ◌==◌, ◌&&◌, ◌||◌, ◌++◌, ◌∷◌, [], ℕ, IfOk, OnOk, false, length, slice_index_or};
ghost use Rattle.touched_objects.specs.Touched.{names, named_by};
ghost use Rattle.touched_objects.specs.Tables.{role_by, roles_by};

use crate::lists::first_and_rest;
use crate::names::names;
use base_io::Memory;
use flow_graph::Owned;
use graph_paths::Role;
use std::alloc::Global;

fn no_flags(alloc: Global, count: u32) -> Result<Vec<bool>, Memory>
    ensures length { IfOk result (λ made. length made.items ≡ count) }
    ensures none { IfOk result (λ made. (f : ℕ) → slice_index_or made.items f false ≡ false) }
{
    match vec![in alloc; false; count as usize] {
        Ok(made) => Ok(made),
        Err(_) => Err(Memory),
    }
}

/// Marks the operation's function where the operation reads or writes the object.
fn mark(flags: &mut [bool], operation: &Owned, object: u32)
    ensures { (f : ℕ) → f < length flags.old → slice_index_or flags.new f false ≡ (slice_index_or flags.old f false || (operation.now.function == f && names operation.now.node.op object)) }
{
    let at = operation.function as usize;
    if at < flags.len() && names(&operation.node.op, object) {
        flags[at] = true;
    }
}

/// Of so many functions, whether an operation of each reads or writes the object.
pub fn flags(
    alloc: Global,
    operations: &[Owned],
    count: u32,
    object: u32,
) -> Result<Vec<bool>, Memory>
    ensures length { IfOk result (λ made. length made.items ≡ count) }
    ensures named { IfOk result (λ made. (f : ℕ) → f < count → slice_index_or made.items f false ≡ named_by operations.now f object) }
{
    let mut made = no_flags(alloc, count)?;
    let mut left = operations;
    while let Some((operation, rest)) = first_and_rest(left) {
        mark(made.as_mut_slice(), operation, object);
        left = rest;
    }
    Ok(made)
}

fn role_of(is_named: bool) -> Role
    ensures { result ≡ role_by is_named }
{
    if is_named { Role::Goal } else { Role::Open }
}

fn put_role(roles: &mut Vec<Role>, role: Role) -> Result<(), Memory>
    ensures { OnOk result (roles.new.items ≡ roles.old.items ++ role ∷ []) }
{
    match roles.push(role) {
        Ok(()) => Ok(()),
        Err(_) => Err(Memory),
    }
}

/// Functions that are marked are goals of paths, and paths go through the others.
pub fn roles(alloc: Global, flags: &[bool]) -> Result<Vec<Role>, Memory>
    ensures { IfOk result (λ made. made.items ≡ roles_by flags.now) }
{
    let mut made = Vec::new(alloc);
    let mut left = flags;
    while let Some((flag, rest)) = first_and_rest(left) {
        put_role(&mut made, role_of(*flag))?;
        left = rest;
    }
    Ok(made)
}
