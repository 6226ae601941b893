//! Assignments, and expressions whose values aren't used (C11 6.5.16, 6.5.2.4, 6.5.3.1).
ghost use Rattle.std.specs.Prelude.{◌≡◌, ◌∷◌, [], Some, None, map};
ghost use Rattle.c_typing.specs.Parts.{Makes};
ghost use Rattle.c_typing.specs.Judged as judgement;
ghost use Rattle.c_typing.specs.Programs.{judged};
ghost use Rattle.c_typing.specs.Actions as spec;

use crate::conversions::{common, left_type, right_type};
use crate::expressions::{expr, value_of};
use crate::names::meaning_at;
use crate::notes::{boxed, count, note, note_if};
use crate::operators::{compound_op, increment_op};
use crate::trees::{Fronted, NO_PLACE, front, is_token, place, spells, text};
use crate::values::{absent, converted, same_type};
use base_io::Place;
use c_parse::{NoMemory, Raw, RawRule};
use c_tree::{Action, Expr, Target};
use c_typing::{Aim, Meaning, State, TypeFault};
use c_values::{BinaryOp, Ty};
use std::alloc::Global;

/// What stands for a target with a fault.
fn no_aim(place: Place) -> Aim
    ensures { result ≡ judgement.no_aim place }
{
    Aim {
        to: Target {
            place,
            variable: 0,
            index: None,
        },
        ty: Ty::I16,
    }
}

fn no_target(fault: TypeFault, place: Place, state: &mut State) -> Result<Aim, NoMemory>
    ensures { Makes (spec.no_target fault place) state.old result state.new }
{
    note(fault, state)?;
    Ok(no_aim(place))
}

/// A scalar that is assigned to, unless it is `const` (C11 6.7.3).
fn changed_scalar(
    place: Place,
    constant: bool,
    variable: u32,
    ty: Ty,
    state: &mut State,
) -> Result<Aim, NoMemory>
    ensures { Makes (spec.changed place constant variable ty None) state.old result state.new }
{
    note_if(constant, TypeFault::BadAssign { at: place }, state)?;
    Ok(Aim {
        to: Target {
            place,
            variable,
            index: None,
        },
        ty,
    })
}

/// An element that is assigned to, unless its array is `const`.
fn changed_element(
    alloc: Global,
    place: Place,
    constant: bool,
    variable: u32,
    ty: Ty,
    index: Expr,
    state: &mut State,
) -> Result<Aim, NoMemory>
    ensures { Makes (spec.changed place constant variable ty (Some index)) state.old result state.new }
{
    let Ok(()) = note_if(constant, TypeFault::BadAssign { at: place }, state) else {
        drop(index);
        return Err(NoMemory);
    };
    let index = boxed(alloc, index)?;
    Ok(Aim {
        to: Target {
            place,
            variable,
            index: Some(index),
        },
        ty,
    })
}

/// A name without an index is assigned to.
fn scalar_target(place: Place, meaning: Option<Meaning>, state: &mut State) -> Result<Aim, NoMemory>
    ensures { Makes (spec.scalar_target place meaning) state.old result state.new }
{
    match meaning {
        None => no_target(TypeFault::Unknown { at: place }, place, state),
        Some(
            Meaning::Variable {
                number,
                ty,
                length: None,
                is_const,
            },
        ) => changed_scalar(place, is_const, number, ty, state),
        Some(
            Meaning::Variable {
                length: Some(_),
                ..
            },
        ) => { no_target(TypeFault::BadArray { at: place }, place, state) }
        Some(Meaning::Function(_)) => no_target(TypeFault::BadAssign { at: place }, place, state),
    }
}

/// A name with an index is assigned to.
fn element_target(
    alloc: Global,
    place: Place,
    meaning: Option<Meaning>,
    index: Expr,
    state: &mut State,
) -> Result<Aim, NoMemory>
    ensures { Makes (spec.element_target place meaning index) state.old result state.new }
{
    match meaning {
        None => {
            drop(index);
            no_target(TypeFault::Unknown { at: place }, place, state)
        }
        Some(
            Meaning::Variable {
                number,
                ty,
                length: Some(_),
                is_const,
            },
        ) => changed_element(alloc, place, is_const, number, ty, index, state),
        Some(Meaning::Variable { length: None, .. }) => {
            drop(index);
            no_target(TypeFault::BadArray { at: place }, place, state)
        }
        Some(Meaning::Function(_)) => {
            drop(index);
            no_target(TypeFault::BadArray { at: place }, place, state)
        }
    }
}

/// The index of a target, and then the target.
fn indexed_target(
    alloc: Global,
    place: Place,
    index: &Raw,
    meaning: Option<Meaning>,
    state: &mut State,
) -> Result<Aim, NoMemory>
    ensures { Makes (spec.indexed_target place (judged index.now) meaning) state.old result state.new }
{
    let index = value_of(alloc, index, state)?;
    element_target(alloc, place, meaning, index, state)
}

/// The parts of a target.
fn target_parts(alloc: Global, parts: &[Raw], state: &mut State) -> Result<Aim, NoMemory>
    ensures { Makes (spec.target_by (map judged parts.now)) state.old result state.new }
{
    match front(parts) {
        Fronted::One(name) => {
            let meaning = meaning_at(text(name), state);
            scalar_target(place(name), meaning, state)
        }
        Fronted::More(name, _, rest) => match front(rest) {
            Fronted::One(index) | Fronted::More(index, _, _) => {
                let meaning = meaning_at(text(name), state);
                indexed_target(alloc, place(name), index, meaning, state)
            }
            Fronted::Empty => Ok(no_aim(NO_PLACE)),
        },
        Fronted::Empty => Ok(no_aim(NO_PLACE)),
    }
}

/// What is assigned to.
#[tactic(auto, using(c_typing::proofs::Judging::judged_leaf, c_typing::proofs::Judging::judged_node))]
pub fn target(alloc: Global, raw: &Raw, state: &mut State) -> Result<Aim, NoMemory>
    ensures { Makes (judged raw.now).target state.old result state.new }
{
    match raw {
        Raw::Leaf { .. } => Ok(no_aim(NO_PLACE)),
        Raw::Node { rule, parts } => match *rule {
            RawRule::Target => target_parts(alloc, parts.as_slice(), state),
            _ => Ok(no_aim(NO_PLACE)),
        },
    }
}

/// `=` (C11 6.5.16.1).
fn assigned(alloc: Global, aim: Aim, e: Expr, state: &mut State) -> Result<Action, NoMemory>
    ensures { Makes (spec.assigned aim e) state.old result state.new }
{
    let Ok(value) = converted(alloc, aim.ty, e, state) else {
        drop(aim);
        return Err(NoMemory);
    };
    Ok(Action::Assign { to: aim.to, value })
}

/// The nodes of an assignment with an operator: the operator, and the conversions of the value read and of the result.
fn update_nodes(own: Ty, ty: Ty) -> u64
    ensures { result ≡ spec.update_nodes own ty }
{
    if same_type(own, ty) { 1 } else { 3 }
}

/// An assignment with an operator, worked out in `ty`.
fn update(
    aim: Aim,
    at: Place,
    op: BinaryOp,
    ty: Ty,
    by: Option<Expr>,
    state: &mut State,
) -> Result<Action, NoMemory>
    ensures { Makes (spec.update aim at op ty by) state.old result state.new }
{
    let Ok(()) = count(update_nodes(aim.ty, ty), state) else {
        drop(aim);
        drop(by);
        return Err(NoMemory);
    };
    Ok(Action::Update {
        to: aim.to,
        at,
        op,
        ty,
        by,
    })
}

/// An assignment with an operator (C11 6.5.16.2).
fn compounded(
    alloc: Global,
    aim: Aim,
    at: Place,
    op: BinaryOp,
    e: Expr,
    state: &mut State,
) -> Result<Action, NoMemory>
    ensures { Makes (spec.compounded aim at op e) state.old result state.new }
{
    let own = aim.ty;
    let right = e.ty;
    let by = converted(alloc, right_type(op, own, right), e, state)?;
    update(aim, at, op, left_type(op, own, right), Some(by), state)
}

/// `++` and `--` (C11 6.5.2.4).
fn incremented(sign: &Raw, aim: Aim, state: &mut State) -> Result<Action, NoMemory>
    ensures { Makes (spec.incremented (judged sign.now) aim) state.old result state.new }
{
    let ty = common(aim.ty, Ty::I16);
    update(aim, place(sign), increment_op(text(sign)), ty, None, state)
}

/// What is done with the value behind an assignment's sign.
fn set_by(
    alloc: Global,
    sign: &Raw,
    aim: Aim,
    e: Expr,
    state: &mut State,
) -> Result<Action, NoMemory>
    ensures { Makes (spec.set_by (judged sign.now) aim e) state.old result state.new }
{
    if spells(b"=", sign) {
        assigned(alloc, aim, e, state)
    } else {
        compounded(alloc, aim, place(sign), compound_op(text(sign)), e, state)
    }
}

/// An assignment behind its target.
fn assign(
    alloc: Global,
    sign: &Raw,
    part: &Raw,
    aim: Aim,
    state: &mut State,
) -> Result<Action, NoMemory>
    ensures { Makes (spec.assign_by (judged sign.now) (judged part.now) aim) state.old result state.new }
{
    let Ok(e) = value_of(alloc, part, state) else {
        drop(aim);
        return Err(NoMemory);
    };
    set_by(alloc, sign, aim, e, state)
}

/// An action of two parts: `++` or `--`, on either side.
fn increment(alloc: Global, sign: &Raw, aimed: &Raw, state: &mut State) -> Result<Action, NoMemory>
    ensures { Makes (spec.increment_by (judged sign.now) (judged aimed.now)) state.old result state.new }
{
    let aim = target(alloc, aimed, state)?;
    incremented(sign, aim, state)
}

/// The parts of an action.
fn act_parts(alloc: Global, parts: &[Raw], state: &mut State) -> Result<Action, NoMemory>
    ensures { Makes (spec.act_by (map judged parts.now)) state.old result state.new }
{
    match front(parts) {
        Fronted::Empty => Ok(Action::Value(absent(NO_PLACE).tree)),
        Fronted::One(part) => {
            let value = expr(alloc, part, state)?;
            Ok(Action::Value(value.tree))
        }
        Fronted::More(first, second, rest) => match front(rest) {
            Fronted::Empty => if is_token(first) {
                increment(alloc, first, second, state)
            } else {
                increment(alloc, second, first, state)
            },
            Fronted::One(part) => {
                let aim = target(alloc, first, state)?;
                assign(alloc, second, part, aim, state)
            }
            Fronted::More(_, _, _) => Ok(Action::Value(absent(NO_PLACE).tree)),
        },
    }
}

/// An assignment, or an expression for itself.
#[tactic(auto, using(c_typing::proofs::Judging::judged_leaf, c_typing::proofs::Judging::judged_node))]
pub fn act(alloc: Global, raw: &Raw, state: &mut State) -> Result<Action, NoMemory>
    ensures { Makes (judged raw.now).act state.old result state.new }
{
    match raw {
        Raw::Leaf { .. } => Ok(Action::Value(absent(NO_PLACE).tree)),
        Raw::Node { rule, parts } => match *rule {
            RawRule::Action => act_parts(alloc, parts.as_slice(), state),
            _ => Ok(Action::Value(absent(NO_PLACE).tree)),
        },
    }
}
