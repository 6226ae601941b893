//! Calls (C11 6.5.2.2).
ghost use Rattle.std.specs.Prelude.{◌≡◌, ◌∷◌, []};
ghost use Rattle.c_typing.specs.Parts.{Makes};
ghost use Rattle.c_typing.specs.Expressions as spec;

use crate::names::{callee_at, definition_of};
use crate::notes::{boxed, note_if, push};
use crate::values::{absent, converted, faulty, valued, void_node};
use base_io::Place;
use c_parse::NoMemory;
use c_tree::{Expr, ExprKind};
use c_typing::{CallSite, Callee, Meaning, Role, State, TypeFault, Value};
use c_values::Ty;
use sqlite_items::Items;
use std::alloc::Global;

/// A call is remembered, if it is one of a function of the text.
pub fn begin_call(
    name: &[u8],
    place: Place,
    meaning: Option<Meaning>,
    state: &mut State,
) -> Result<(), NoMemory>
    ensures { Makes (spec.begin_call name.now place meaning) state.old result state.new }
{
    match meaning {
        Some(Meaning::Function(_)) => {
            let definition = definition_of(name, state)?;
            remember_call(place, definition, state)
        }
        _ => Ok(()),
    }
}

fn remember_call(place: Place, to: Option<u32>, state: &mut State) -> Result<(), NoMemory>
    ensures { Makes (spec.remember_call place to) state.old result state.new }
{
    match to {
        None => Ok(()),
        Some(to) => remember(place, to, state),
    }
}

fn remember(place: Place, to: u32, state: &mut State) -> Result<(), NoMemory>
    ensures { Makes (spec.remember place to) state.old result state.new }
{
    let Ok(caller) = u32::try_from(state.functions.len()) else {
        return Err(NoMemory);
    };
    push(
        &mut state.calls,
        CallSite {
            caller,
            callee: to,
            place,
        },
    )
}

/// An argument is converted to its parameter's type, where there is one.
pub fn passed(alloc: Global, e: Expr, ty: Option<Ty>, state: &mut State) -> Result<Expr, NoMemory>
    ensures { Makes (spec.passed e ty) state.old result state.new }
{
    match ty {
        None => Ok(e),
        Some(ty) => converted(alloc, ty, e, state),
    }
}

/// A call with its arguments.
pub fn call_made(
    alloc: Global,
    name: &[u8],
    place: Place,
    meaning: Option<Meaning>,
    args: Items<Expr>,
    state: &mut State,
) -> Result<Value, NoMemory>
    ensures { Makes (spec.call_made name.now place meaning args) state.old result state.new }
{
    match meaning {
        None => faulty(TypeFault::Unknown { at: place }, place, state),
        Some(Meaning::Function(function)) => {
            let callee = callee_at(function, state);
            call_function(alloc, name, place, args, callee, state)
        }
        Some(Meaning::Variable { .. }) => {
            faulty(TypeFault::WrongArgs { at: place }, place, state)
        }
    }
}

/// There are as many arguments as parameters.
fn call_function(
    alloc: Global,
    name: &[u8],
    place: Place,
    args: Items<Expr>,
    callee: Option<Callee>,
    state: &mut State,
) -> Result<Value, NoMemory>
    ensures { Makes (spec.call_function name.now place args callee) state.old result state.new }
{
    match callee {
        None => Ok(absent(place)),
        Some(callee) => {
            let wrong = !(args.len() == callee.arity);
            note_if(wrong, TypeFault::WrongArgs { at: place }, state)?;
            call_as(alloc, name, place, callee.result, args, callee.role, state)
        }
    }
}

fn call_as(
    alloc: Global,
    name: &[u8],
    place: Place,
    result_type: Option<Ty>,
    args: Items<Expr>,
    role: Role,
    state: &mut State,
) -> Result<Value, NoMemory>
    ensures { Makes (spec.call_as name.now place result_type args role) state.old result state.new }
{
    match role {
        Role::Input => valued(place, Ty::U16, ExprKind::Input, state),
        Role::Output => output_node(alloc, place, args, state),
        Role::Declared | Role::Defined => {
            let definition = definition_of(name, state)?;
            call_defined(place, result_type, args, definition, state)
        }
    }
}

/// A call of `out`.
fn output_node(
    alloc: Global,
    place: Place,
    args: Items<Expr>,
    state: &mut State,
) -> Result<Value, NoMemory>
    ensures { Makes (spec.output_node place args) state.old result state.new }
{
    let mut args = args;
    match args.pop() {
        Some(e) => if args.is_empty() {
            let e = boxed(alloc, e)?;
            void_node(place, ExprKind::Output(e), state)
        } else {
            drop(e);
            Ok(absent(place))
        },
        None => Ok(absent(place)),
    }
}

/// A function that is called is defined somewhere in the text.
fn call_defined(
    place: Place,
    result_type: Option<Ty>,
    args: Items<Expr>,
    definition: Option<u32>,
    state: &mut State,
) -> Result<Value, NoMemory>
    ensures { Makes (spec.call_defined place result_type args definition) state.old result state.new }
{
    match definition {
        None => faulty(TypeFault::Unknown { at: place }, place, state),
        Some(function) => call_node(place, result_type, function, args, state),
    }
}

fn call_node(
    place: Place,
    result_type: Option<Ty>,
    function: u32,
    args: Items<Expr>,
    state: &mut State,
) -> Result<Value, NoMemory>
    ensures { Makes (spec.call_node place result_type function args) state.old result state.new }
{
    match result_type {
        None => void_node(place, ExprKind::Call { function, args }, state),
        Some(ty) => valued(place, ty, ExprKind::Call { function, args }, state),
    }
}
