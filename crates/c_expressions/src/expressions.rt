//! Expressions.
ghost use Rattle.std.specs.Prelude.{◌≡◌, ◌∷◌, [], map, reverse, MatchOption, OnOk};
ghost use Rattle.c_typing.specs.Parts.{Makes};
ghost use Rattle.c_typing.specs.Judged.{spells, is_token};
ghost use Rattle.c_typing.specs.Programs.{judged};
ghost use Rattle.c_typing.specs.Expressions as spec;
ghost use Rattle.c_expressions.specs.Operations.{operated, rests_of};

use crate::calls::{begin_call, call_made, passed};
use crate::names::{meaning_at, parameter_type};
use crate::notes::{boxed, push};
use crate::operators::{binary_op, unary_op};
use crate::trees::{
    Fronted, NO_PLACE, Operation, front, kind, operation_of, place, spells, text, type_of,
};
use crate::values::{
    absent, binary_made, cast_made, choice_made, faulty, unary_made, used, valued,
};
use base_io::Place;
use c_lex::TokenKind;
use c_parse::{NoMemory, Raw, RawRule};
use c_tree::{Expr, ExprKind};
use c_typing::{Meaning, State, TypeFault, Value};
use c_values::{BinaryOp, Ty};
use sqlite_items::Items;
use std::alloc::Global;

/// An expression.
#[tactic(auto, using(c_typing::proofs::Judging::judged_leaf, c_typing::proofs::Judging::judged_node, c_typing::proofs::Judging::size_node))]
#[cycle(walk)]
pub fn expr(alloc: Global, raw: &Raw, state: &mut State) -> Result<Value, NoMemory>
    ensures { Makes (judged raw.now).expr state.old result state.new }
{
    match raw {
        Raw::Leaf { .. } => Ok(absent(NO_PLACE)),
        Raw::Node { rule, parts } => {
            let parts = parts.as_slice();
            match *rule {
                RawRule::Expr => choice(alloc, parts, state),
                RawRule::Binary => binary(alloc, parts, state),
                RawRule::Unary => unary(alloc, parts, state),
                RawRule::Primary => primary(alloc, parts, state),
                _ => Ok(absent(NO_PLACE)),
            }
        }
    }
}

/// The value of an expression.
#[cycle(walk)]
pub fn value_of(alloc: Global, raw: &Raw, state: &mut State) -> Result<Expr, NoMemory>
    ensures { Makes (spec.value_of (judged raw.now)) state.old result state.new }
{
    let value = expr(alloc, raw, state)?;
    used(value, state)
}

/// `?:`, or an expression without it.
#[cycle(walk)]
fn choice(alloc: Global, parts: &[Raw], state: &mut State) -> Result<Value, NoMemory>
    ensures { Makes (spec.choice_by (map judged parts.now)) state.old result state.new }
{
    match front(parts) {
        Fronted::One(part) => expr(alloc, part, state),
        Fronted::More(test, question, rest) => match front(rest) {
            Fronted::More(yes, _, rest) => match front(rest) {
                Fronted::One(no) => {
                    let test = value_of(alloc, test, state)?;
                    arms(alloc, place(question), yes, no, test, state)
                }
                _ => Ok(absent(NO_PLACE)),
            },
            _ => Ok(absent(NO_PLACE)),
        },
        Fronted::Empty => Ok(absent(NO_PLACE)),
    }
}

/// The operands of `?:` behind its test.
#[cycle(walk)]
fn arms(
    alloc: Global,
    place: Place,
    yes: &Raw,
    no: &Raw,
    test: Expr,
    state: &mut State,
) -> Result<Value, NoMemory>
    ensures { Makes (spec.arms place (judged yes.now) (judged no.now) test) state.old result state.new }
{
    let Ok(yes) = value_of(alloc, yes, state) else {
        drop(test);
        return Err(NoMemory);
    };
    last_arm(alloc, place, no, test, yes, state)
}

/// The last operand of `?:`.
#[cycle(walk)]
fn last_arm(
    alloc: Global,
    place: Place,
    no: &Raw,
    test: Expr,
    yes: Expr,
    state: &mut State,
) -> Result<Value, NoMemory>
    ensures { Makes (spec.last_arm place (judged no.now) test yes) state.old result state.new }
{
    let Ok(no) = value_of(alloc, no, state) else {
        drop(test);
        drop(yes);
        return Err(NoMemory);
    };
    choice_made(alloc, place, test, yes, no, state)
}

/// An operator between two operands, or one operand.
#[cycle(walk)]
fn binary(alloc: Global, parts: &[Raw], state: &mut State) -> Result<Value, NoMemory>
    ensures { Makes (spec.binary_by (map judged parts.now)) state.old result state.new }
{
    match front(parts) {
        Fronted::One(part) => expr(alloc, part, state),
        Fronted::More(a, operator, rest) => match front(rest) {
            Fronted::One(b) => {
                let a = left(alloc, a, state)?;
                second_operand(
                    alloc,
                    place(operator),
                    binary_op(text(operator)),
                    b,
                    a,
                    state,
                )
            }
            _ => Ok(absent(NO_PLACE)),
        },
        Fronted::Empty => Ok(absent(NO_PLACE)),
    }
}

/// The value of a left operand. The left operands within it may lie some 1,000 deep in each other: a loop goes down to the innermost, and
/// another one back.
#[cycle(walk)]
fn left(alloc: Global, raw: &Raw, state: &mut State) -> Result<Expr, NoMemory>
    ensures { Makes (spec.value_of (judged raw.now)) state.old result state.new }
{
    let mut above = Vec::new(alloc);
    let mut at = raw;
    while let Some(operation) = operation_of(at) {
        keep(&mut above, operation)?;
        at = operation.left;
    }
    let value = value_of(alloc, at, state)?;
    rests(alloc, above, value, state)
}

/// An operation goes before the others.
fn keep<'a>(above: &mut Vec<Operation<'a>>, operation: Operation<'a>) -> Result<(), NoMemory>
    ensures { OnOk result (reverse above.new.items ≡ operation.entry ∷ reverse above.old.items) }
{
    match above.push(operation) {
        Ok(_) => Ok(()),
        Err(_) => Err(NoMemory),
    }
}

/// Takes the operation that was kept last.
fn last_kept<'a>(above: &mut Vec<Operation<'a>>) -> Option<Operation<'a>>
    ensures { MatchOption result (reverse above.old.items ≡ []) (λ o. reverse above.old.items ≡ o ∷ reverse above.new.items) }
{
    above.pop()
}

/// The value of the last of these operations, from that of the first one's left operand on. Each is the left operand of the next.
#[cycle(walk)]
fn rests(
    alloc: Global,
    above: Vec<Operation<'_>>,
    value: Expr,
    state: &mut State,
) -> Result<Expr, NoMemory>
    ensures { Makes (rests_of (reverse above.entry.items) value) state.old result state.new }
{
    let mut above = above;
    let mut value = value;
    while let Some(operation) = last_kept(&mut above) {
        value = operated(alloc, operation, value, state)?;
    }
    Ok(value)
}

/// The value of an operation, from that of its left operand on.
#[cycle(walk)]
fn operated(
    alloc: Global,
    operation: Operation<'_>,
    a: Expr,
    state: &mut State,
) -> Result<Expr, NoMemory>
    ensures { Makes (operated operation.entry a) state.old result state.new }
{
    let value = second_operand(
        alloc,
        place(operation.operator),
        binary_op(text(operation.operator)),
        operation.right,
        a,
        state,
    )?;
    used(value, state)
}

/// The operand behind an operator.
#[cycle(walk)]
fn second_operand(
    alloc: Global,
    place: Place,
    op: BinaryOp,
    b: &Raw,
    a: Expr,
    state: &mut State,
) -> Result<Value, NoMemory>
    ensures { Makes (spec.second_operand place op (judged b.now) a) state.old result state.new }
{
    let Ok(b) = value_of(alloc, b, state) else {
        drop(a);
        return Err(NoMemory);
    };
    binary_made(alloc, place, op, a, b, state)
}

/// An operator in front of its operand, a cast, or what has neither.
#[cycle(walk)]
fn unary(alloc: Global, parts: &[Raw], state: &mut State) -> Result<Value, NoMemory>
    ensures { Makes (spec.unary_by (map judged parts.now)) state.old result state.new }
{
    match front(parts) {
        Fronted::One(part) => expr(alloc, part, state),
        Fronted::More(operator, a, rest) => match front(rest) {
            Fronted::Empty => {
                let a = value_of(alloc, a, state)?;
                unary_made(alloc, place(operator), unary_op(text(operator)), a, state)
            }
            Fronted::More(_, b, []) => {
                let b = value_of(alloc, b, state)?;
                cast_made(alloc, place(operator), type_of(a), b, state)
            }
            _ => Ok(absent(NO_PLACE)),
        },
        Fronted::Empty => Ok(absent(NO_PLACE)),
    }
}

/// A literal, a name, an element, a call, or an expression in brackets.
#[cycle(walk)]
fn primary(alloc: Global, parts: &[Raw], state: &mut State) -> Result<Value, NoMemory>
    ensures { Makes (spec.primary_by (map judged parts.now)) state.old result state.new }
{
    match front(parts) {
        Fronted::Empty => Ok(absent(NO_PLACE)),
        Fronted::One(part) => token_value(part, state),
        Fronted::More(first, second, rest) => {
            if spells(b"(", first) {
                expr(alloc, second, state)
            } else {
                named(alloc, first, second, rest, state)
            }
        }
    }
}

/// An element or a call.
#[cycle(walk)]
fn named(
    alloc: Global,
    name: &Raw,
    sign: &Raw,
    rest: &[Raw],
    state: &mut State,
) -> Result<Value, NoMemory>
    ensures { Makes (spec.named_by (judged name.now) (judged sign.now) (map judged rest.now)) state.old result state.new }
{
    let meaning = meaning_at(text(name), state);
    if spells(b"[", sign) {
        element(alloc, name, rest, meaning, state)
    } else {
        call(alloc, name, rest, meaning, state)
    }
}

/// An element of an array.
#[cycle(walk)]
fn element(
    alloc: Global,
    name: &Raw,
    parts: &[Raw],
    meaning: Option<Meaning>,
    state: &mut State,
) -> Result<Value, NoMemory>
    ensures { Makes (spec.element_by (judged name.now) (map judged parts.now) meaning) state.old result state.new }
{
    match front(parts) {
        Fronted::Empty => Ok(absent(place(name))),
        Fronted::One(index) | Fronted::More(index, _, _) => {
            let index = value_of(alloc, index, state)?;
            element_value(alloc, place(name), meaning, index, state)
        }
    }
}

/// A call.
#[cycle(walk)]
fn call(
    alloc: Global,
    name: &Raw,
    parts: &[Raw],
    meaning: Option<Meaning>,
    state: &mut State,
) -> Result<Value, NoMemory>
    ensures { Makes (spec.call_by (judged name.now) (map judged parts.now) meaning) state.old result state.new }
{
    begin_call(text(name), place(name), meaning, state)?;
    let args = arguments(alloc, meaning, Items::new(alloc), parts, state)?;
    call_made(alloc, text(name), place(name), meaning, args, state)
}

/// Arguments with the signs behind them, after those that are there.
#[cycle(walk)]
fn arguments(
    alloc: Global,
    meaning: Option<Meaning>,
    done: Items<Expr>,
    parts: &[Raw],
    state: &mut State,
) -> Result<Items<Expr>, NoMemory>
    ensures { Makes (spec.arguments meaning done (map judged parts.now)) state.old result state.new }
{
    let mut done = done;
    let mut rest = parts;
    while let Fronted::More(part, _, behind) = front(rest) {
        let e = argument(alloc, meaning, done.len(), part, state)?;
        push(&mut done, e)?;
        rest = behind;
    }
    Ok(done)
}

/// An argument, converted to the type of its parameter.
#[cycle(walk)]
fn argument(
    alloc: Global,
    meaning: Option<Meaning>,
    at: usize,
    part: &Raw,
    state: &mut State,
) -> Result<Expr, NoMemory>
    ensures { Makes (spec.argument meaning at (judged part.now)) state.old result state.new }
{
    let e = value_of(alloc, part, state)?;
    let ty = parameter_type(meaning, at, state);
    passed(alloc, e, ty, state)
}

/// A literal (C11 6.4.4) or a name.
fn token_value(part: &Raw, state: &mut State) -> Result<Value, NoMemory>
    ensures { Makes (spec.token_value (judged part.now)) state.old result state.new }
{
    match kind(part) {
        TokenKind::Name => name_value(place(part), meaning_at(text(part), state), state),
        other => number_value(place(part), other, state),
    }
}

fn number_value(place: Place, kind: TokenKind, state: &mut State) -> Result<Value, NoMemory>
    ensures { Makes (spec.number_value place kind) state.old result state.new }
{
    match kind {
        TokenKind::Number(word, true) => valued(
            place,
            Ty::U16,
            ExprKind::Number(word as u32),
            state,
        ),
        TokenKind::Number(word, false) => valued(
            place,
            Ty::I16,
            ExprKind::Number(word as u32),
            state,
        ),
        _ => Ok(absent(place)),
    }
}

/// A name as a value.
fn name_value(place: Place, meaning: Option<Meaning>, state: &mut State) -> Result<Value, NoMemory>
    ensures { Makes (spec.name_value place meaning) state.old result state.new }
{
    match meaning {
        None => faulty(TypeFault::Unknown { at: place }, place, state),
        Some(
            Meaning::Variable {
                number,
                ty,
                length: None,
                is_const: _,
            },
        ) => valued(place, ty, ExprKind::Var(number), state),
        Some(
            Meaning::Variable {
                length: Some(_),
                ..
            },
        ) => { faulty(TypeFault::BadArray { at: place }, place, state) }
        Some(Meaning::Function(_)) => faulty(TypeFault::WrongArgs { at: place }, place, state),
    }
}

/// An element as a value.
fn element_value(
    alloc: Global,
    place: Place,
    meaning: Option<Meaning>,
    index: Expr,
    state: &mut State,
) -> Result<Value, NoMemory>
    ensures { Makes (spec.element_value place meaning index) state.old result state.new }
{
    match meaning {
        None => {
            drop(index);
            faulty(TypeFault::Unknown { at: place }, place, state)
        }
        Some(Meaning::Variable { length: None, .. }) => {
            drop(index);
            faulty(TypeFault::BadArray { at: place }, place, state)
        }
        Some(
            Meaning::Variable {
                number,
                ty,
                length: Some(_),
                is_const: _,
            },
        ) => {
            let index = boxed(alloc, index)?;
            valued(
                place,
                ty,
                ExprKind::Element {
                    array: number,
                    index,
                },
                state,
            )
        }
        Some(Meaning::Function(_)) => {
            drop(index);
            faulty(TypeFault::WrongArgs { at: place }, place, state)
        }
    }
}
