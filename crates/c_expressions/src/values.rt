//! Nodes of the typed tree, and conversions of values.
ghost use Rattle.std.specs.Prelude.{◌≡◌, ◌∷◌, []};
ghost use Rattle.c_tree.specs.Nodes.{same_type};
ghost use Rattle.c_typing.specs.Parts.{Makes};
ghost use Rattle.c_typing.specs.Judged as judged;
ghost use Rattle.c_typing.specs.Expressions as spec;

use crate::conversions::{common, left_type, operand_type, result_type, right_type, unary_type};
use crate::notes::{boxed, count, note, note_if};
use base_io::Place;
use c_parse::NoMemory;
use c_tree::{Expr, ExprKind};
use c_typing::{State, TypeFault, Value};
use c_values::{BinaryOp, Ty, UnaryOp};
use std::alloc::Global;

/// What stands for an expression with a fault.
pub fn absent(place: Place) -> Value
    ensures { result ≡ judged.absent place }
{
    Value {
        tree: Expr {
            place,
            ty: Ty::I16,
            kind: ExprKind::Input,
        },
        is_void: false,
    }
}

/// A node of the tree.
pub fn node(place: Place, ty: Ty, kind: ExprKind, state: &mut State) -> Result<Expr, NoMemory>
    ensures { Makes (spec.node place ty kind) state.old result state.new }
{
    let Ok(()) = count(1, state) else {
        drop(kind);
        return Err(NoMemory);
    };
    Ok(Expr { place, ty, kind })
}

/// A node whose value can be used.
pub fn valued(place: Place, ty: Ty, kind: ExprKind, state: &mut State) -> Result<Value, NoMemory>
    ensures { Makes (spec.valued place ty kind) state.old result state.new }
{
    let tree = node(place, ty, kind, state)?;
    Ok(Value {
        tree,
        is_void: false,
    })
}

/// A node of type `void`.
pub fn void_node(place: Place, kind: ExprKind, state: &mut State) -> Result<Value, NoMemory>
    ensures { Makes (spec.void_node place kind) state.old result state.new }
{
    let tree = node(place, Ty::U16, kind, state)?;
    Ok(Value {
        tree,
        is_void: true,
    })
}

/// A fault, with something harmless in the expression's place.
pub fn faulty(fault: TypeFault, place: Place, state: &mut State) -> Result<Value, NoMemory>
    ensures { Makes (spec.faulty fault place) state.old result state.new }
{
    note(fault, state)?;
    Ok(absent(place))
}

/// The value of an expression is used (C11 6.3.2.2).
pub fn used(value: Value, state: &mut State) -> Result<Expr, NoMemory>
    ensures { Makes (spec.used value) state.old result state.new }
{
    let tree = value.tree;
    let fault = TypeFault::BadAssign { at: tree.place };
    let Ok(()) = note_if(value.is_void, fault, state) else {
        drop(tree);
        return Err(NoMemory);
    };
    Ok(tree)
}

/// Both types are the same.
pub fn same_type(a: Ty, b: Ty) -> bool
    ensures { result ≡ same_type a b }
{
    match (a, b) {
        (Ty::I8, Ty::I8) | (Ty::U8, Ty::U8) | (Ty::I16, Ty::I16) | (Ty::U16, Ty::U16) => true,
        _ => false,
    }
}

/// A conversion to another type is a node (C11 6.3.1.3).
pub fn converted(alloc: Global, ty: Ty, e: Expr, state: &mut State) -> Result<Expr, NoMemory>
    ensures { Makes (spec.converted ty e) state.old result state.new }
{
    if same_type(ty, e.ty) {
        Ok(e)
    } else {
        let place = e.place;
        let e = boxed(alloc, e)?;
        node(place, ty, ExprKind::Convert(e), state)
    }
}

/// An operator of one operand, applied to it as converted.
fn unary_node(
    alloc: Global,
    place: Place,
    op: UnaryOp,
    ty: Ty,
    a: Expr,
    state: &mut State,
) -> Result<Value, NoMemory>
    ensures { Makes (spec.unary_node place op ty a) state.old result state.new }
{
    let a = boxed(alloc, a)?;
    valued(place, ty, ExprKind::Unary { op, a }, state)
}

/// An operator of one operand (C11 6.5.3.3).
pub fn unary_made(
    alloc: Global,
    place: Place,
    op: UnaryOp,
    a: Expr,
    state: &mut State,
) -> Result<Value, NoMemory>
    ensures { Makes (spec.unary_made place op a) state.old result state.new }
{
    let ty = a.ty;
    let a = converted(alloc, operand_type(op, ty), a, state)?;
    unary_node(alloc, place, op, unary_type(op, ty), a, state)
}

/// A cast. To the type that the operand has it is no node.
pub fn cast_made(
    alloc: Global,
    place: Place,
    ty: Ty,
    a: Expr,
    state: &mut State,
) -> Result<Value, NoMemory>
    ensures { Makes (spec.cast_made place ty a) state.old result state.new }
{
    if same_type(ty, a.ty) {
        Ok(Value {
            tree: a,
            is_void: false,
        })
    } else {
        let a = boxed(alloc, a)?;
        valued(place, ty, ExprKind::Convert(a), state)
    }
}

/// An operator of two operands, applied to them as converted.
fn binary_node(
    alloc: Global,
    place: Place,
    op: BinaryOp,
    ty: Ty,
    a: Expr,
    b: Expr,
    state: &mut State,
) -> Result<Value, NoMemory>
    ensures { Makes (spec.binary_node place op ty a b) state.old result state.new }
{
    let Ok(a) = boxed(alloc, a) else {
        drop(b);
        return Err(NoMemory);
    };
    let b = boxed(alloc, b)?;
    valued(place, ty, ExprKind::Binary { op, a, b }, state)
}

/// The right operand is converted, and then the operator applied. `left` is the type that the left one had.
fn right_converted(
    alloc: Global,
    place: Place,
    op: BinaryOp,
    left: Ty,
    b: Expr,
    a: Expr,
    state: &mut State,
) -> Result<Value, NoMemory>
    ensures { Makes (spec.right_converted place op left b a) state.old result state.new }
{
    let right = b.ty;
    let Ok(b) = converted(alloc, right_type(op, left, right), b, state) else {
        drop(a);
        return Err(NoMemory);
    };
    binary_node(alloc, place, op, result_type(op, left, right), a, b, state)
}

/// An operator of two operands (C11 6.5.5 to 6.5.14).
pub fn binary_made(
    alloc: Global,
    place: Place,
    op: BinaryOp,
    a: Expr,
    b: Expr,
    state: &mut State,
) -> Result<Value, NoMemory>
    ensures { Makes (spec.binary_made place op a b) state.old result state.new }
{
    let left = a.ty;
    let Ok(a) = converted(alloc, left_type(op, left, b.ty), a, state) else {
        drop(b);
        return Err(NoMemory);
    };
    right_converted(alloc, place, op, left, b, a, state)
}

/// `?:`, applied to its operands as converted.
fn choice_node(
    alloc: Global,
    place: Place,
    ty: Ty,
    test: Expr,
    yes: Expr,
    no: Expr,
    state: &mut State,
) -> Result<Value, NoMemory>
    ensures { Makes (spec.choice_node place ty test yes no) state.old result state.new }
{
    let Ok(test) = boxed(alloc, test) else {
        drop(yes);
        drop(no);
        return Err(NoMemory);
    };
    let Ok(yes) = boxed(alloc, yes) else {
        drop(no);
        return Err(NoMemory);
    };
    let no = boxed(alloc, no)?;
    valued(place, ty, ExprKind::Cond { test, yes, no }, state)
}

/// The last operand of `?:` is converted, and then the operator applied.
fn no_converted(
    alloc: Global,
    place: Place,
    test: Expr,
    ty: Ty,
    no: Expr,
    yes: Expr,
    state: &mut State,
) -> Result<Value, NoMemory>
    ensures { Makes (spec.no_converted place test ty no yes) state.old result state.new }
{
    let Ok(no) = converted(alloc, ty, no, state) else {
        drop(test);
        drop(yes);
        return Err(NoMemory);
    };
    choice_node(alloc, place, ty, test, yes, no, state)
}

/// `?:` (C11 6.5.15).
pub fn choice_made(
    alloc: Global,
    place: Place,
    test: Expr,
    yes: Expr,
    no: Expr,
    state: &mut State,
) -> Result<Value, NoMemory>
    ensures { Makes (spec.choice_made place test yes no) state.old result state.new }
{
    let ty = common(yes.ty, no.ty);
    let Ok(yes) = converted(alloc, ty, yes, state) else {
        drop(test);
        drop(no);
        return Err(NoMemory);
    };
    no_converted(alloc, place, test, ty, no, yes, state)
}
