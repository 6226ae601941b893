//! What each place of a graph is to the paths along which an object is live.

ghost use Rattle.std.specs.Prelude.{◌≡◌, ◌++◌, ◌∷◌, [], ◌<◌, IfOk, OnOk, IsTrue, ◌↔◌, length, replicate};
ghost use Rattle.live_objects.specs.Live.{is_array, is_dest, is_object, needs, writes};
ghost use Rattle.live_objects.specs.GraphArcs.{role_by, roles_by};

use crate::lists::first_and_rest;
use base_io::Memory;
use flow_graph::{ArrayUse, Op, Operand, Owned};
use graph_paths::Role;
use std::alloc::Global;

fn is_object(operand: &Operand, object: u32) -> bool
    ensures { result ≡ is_object operand.now object }
{
    match operand {
        Operand::Const(_) => false,
        Operand::Object(own) => *own == object,
    }
}

fn is_array(array: &Option<ArrayUse>, object: u32) -> bool
    ensures { result ≡ is_array array.now object }
{
    match array {
        None => false,
        Some(own) => own.object == object,
    }
}

fn is_dest(dest: &Option<u32>, object: u32) -> bool
    ensures { result ≡ is_dest dest.now object }
{
    match dest {
        None => false,
        Some(own) => *own == object,
    }
}

fn needs(op: &Op, object: u32) -> bool
    ensures { result ≡ needs op.now object }
{
    is_object(&op.a, object) || is_object(&op.b, object) || is_array(&op.array, object)
}

fn role_of(op: &Op, object: u32) -> Role
    ensures { result ≡ role_by op.now object }
{
    if needs(op, object) {
        Role::Goal
    } else if is_dest(&op.dest, object) {
        Role::Wall
    } else {
        Role::Open
    }
}

fn put_role(roles: &mut Vec<Role>, role: Role) -> Result<(), Memory>
    ensures { OnOk result (roles.new.items ≡ roles.old.items ++ role ∷ []) }
{
    match roles.push(role) {
        Ok(()) => Ok(()),
        Err(_) => Err(Memory),
    }
}

/// Puts the ends of functions, through which paths go, behind the other places.
fn put_ends(roles: &mut Vec<Role>, functions: u32) -> Result<(), Memory>
    ensures { OnOk result (roles.new.items ≡ roles.old.items ++ replicate functions Role.Open) }
{
    let mut left = functions;
    while left > 0 {
        put_role(roles, Role::Open)?;
        left -= 1;
    }
    Ok(())
}

/// The role of each place for an object.
pub fn roles(
    alloc: Global,
    operations: &[Owned],
    functions: u32,
    object: u32,
) -> Result<Vec<Role>, Memory>
    ensures { IfOk result (λ made. made.items ≡ roles_by object operations.now ++ replicate functions Role.Open) }
{
    let mut made = Vec::new(alloc);
    let mut left = operations;
    while let Some((operation, rest)) = first_and_rest(left) {
        put_role(&mut made, role_of(&operation.node.op, object))?;
        left = rest;
    }
    put_ends(&mut made, functions)?;
    Ok(made)
}
