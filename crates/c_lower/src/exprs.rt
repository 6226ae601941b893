//! What an expression is lowered to.
ghost use Rattle.std.specs.Prelude.{◌≡◌, ◌||◌, ◌++◌, [], ◌∷◌, Some, None, IfOk, map, reverse, slice_get};
ghost use Rattle.std.specs.Option.{option_copied};
ghost use Rattle.c_tree.specs.Chains as chains;
ghost use Rattle.c_tree.specs.declared.tree.ExprKind.{out-ExprKind};
ghost use Rattle.lowered_graphs.specs.Exprs as spec;
ghost use Rattle.c_lower.specs.Operands as operands;
ghost use Rattle.c_lower.specs.Emitting.{Emits};

use crate::calling::{first_of, is_late, is_late_argument, is_late_first};
use crate::homes::{home, place_of, result_home};
use crate::lists::first_and_rest;
use crate::making::{Making, ZERO, copy_into, go, make, numbered, one, test};
use crate::operators::{make_binary, make_conversion, make_unary};
use crate::waiting::{keep, last_kept};
use base_io::{Memory, Place};
use c_tree::{Expr, ExprKind, Function, Program};
use c_values::{BinaryOp, Ty};
use flow_graph::{ArrayUse, Item, Op, OpKind, Operand};
use lowered_graphs::Homes;
use sqlite_items::Items;

fn is_global(p: &Program, x: u32) -> bool
    ensures { result ≡ spec.is_global_in (slice_get p.now.variables x) }
{
    match p.variables.as_slice().get(x as usize) {
        None => false,
        Some(v) => v.global,
    }
}

fn length_of(p: &Program, x: u32) -> u16
    ensures { result ≡ spec.length_in (slice_get p.now.variables x) }
{
    match p.variables.as_slice().get(x as usize) {
        None => 0,
        Some(v) => match v.length {
            None => 1,
            Some(length) => length,
        },
    }
}

/// The array of a variable.
pub fn array_use(p: &Program, homes: &Homes, x: u32) -> ArrayUse
    ensures { result ≡ spec.array_use (spec.setting_of p.now homes.now) x }
{
    ArrayUse {
        object: home(homes, x),
        length: length_of(p, x),
    }
}

/// A scalar, which is copied first where it is a global and what is called behind it may write it.
pub fn read_scalar(
    p: &Program,
    homes: &Homes,
    x: u32,
    place: Place,
    later: bool,
    to: &mut Making,
) -> Result<Operand, Memory>
    ensures { IfOk result (λ a. Emits (spec.read_scalar (spec.setting_of p.now homes.now) x place later) a to.old to.new) }
{
    let home = Operand::Object(home(homes, x));
    if later && is_global(p, x) {
        make(OpKind::Copy, home, ZERO, None, place, to)
    } else {
        Ok(home)
    }
}

/// An element of an array.
pub fn load(
    p: &Program,
    homes: &Homes,
    x: u32,
    index: Operand,
    place: Place,
    to: &mut Making,
) -> Result<Operand, Memory>
    ensures { IfOk result (λ a. Emits (spec.load (spec.setting_of p.now homes.now) x index place) a to.old to.new) }
{
    let array = array_use(p, homes, x);
    make(OpKind::Load, index, ZERO, Some(array), place, to)
}

fn output(a: Operand, place: Place, to: &mut Making) -> Result<Operand, Memory>
    ensures { IfOk result (λ x. Emits (spec.output a place) x to.old to.new) }
{
    one(OpKind::Output, None, a, ZERO, None, place, to)?;
    Ok(ZERO)
}

// The truth of a word goes into a new temporary, and the arm ends.
fn set_truth(a: Operand, place: Place, to: &mut Making) -> Result<u32, Memory>
    ensures { IfOk result (λ t. Emits (spec.set_new (spec.is_set_op place) a place) t to.old to.new) }
{
    let t = to.temporary()?;
    one(OpKind::Ne, Some(t), a, ZERO, None, place, to)?;
    go(place, to)?;
    Ok(t)
}

// A word goes into a new temporary, and the arm ends.
fn set_copy(a: Operand, place: Place, to: &mut Making) -> Result<u32, Memory>
    ensures { IfOk result (λ t. Emits (spec.set_new (spec.copy_op place) a place) t to.old to.new) }
{
    let t = to.temporary()?;
    one(OpKind::Copy, Some(t), a, ZERO, None, place, to)?;
    go(place, to)?;
    Ok(t)
}

/// The operand of an expression's value. It goes down the first operands in a loop: they may lie some 1,000 deep.
#[cycle(lowering)]
pub fn expr(
    p: &Program,
    homes: &Homes,
    e: &Expr,
    later: bool,
    to: &mut Making,
) -> Result<Operand, Memory>
    ensures { IfOk result (λ x. Emits ((spec.lowered (spec.setting_of p.now homes.now) e.now).emit later) x to.old to.new) }
{
    let mut above = Vec::new(to.alloc());
    let mut at = e;
    let mut late = later;
    while let Some(first) = first_of(at) {
        keep(&mut above, at, late)?;
        late = is_late_first(at, late);
        at = first;
    }
    let x = leaf(p, homes, at, late, to)?;
    rests(p, homes, above, x, to)
}

/// What comes behind a first operand, from the innermost kept outwards.
#[cycle(lowering)]
fn rests(
    p: &Program,
    homes: &Homes,
    above: Vec<(&Expr, bool)>,
    x: Operand,
    to: &mut Making,
) -> Result<Operand, Memory>
    ensures { IfOk result (λ y. Emits (operands.rests_of (spec.setting_of p.now homes.now) (map (λ w. operands.waiting w.0.now w.1) (reverse above.entry.items)) x) y to.old to.new) }
{
    let mut above = above;
    let mut x = x;
    while let Some((e, later)) = last_kept(&mut above) {
        x = rest(p, homes, e, later, x, to)?;
    }
    Ok(x)
}

/// An expression that has no first operand.
#[cycle(lowering)]
fn leaf(
    p: &Program,
    homes: &Homes,
    e: &Expr,
    later: bool,
    to: &mut Making,
) -> Result<Operand, Memory>
    ensures { IfOk result (λ x. Emits (operands.leaf_of (spec.setting_of p.now homes.now) (out-ExprKind e.now.kind) e.now.place later) x to.old to.new) }
{
    match &e.kind {
        ExprKind::Number(word) => Ok(Operand::Const((*word % 65536) as u16)),
        ExprKind::Var(x) => read_scalar(p, homes, *x, e.place, later, to),
        ExprKind::Call { function, args } => {
            call_of(p, homes, *function, args.as_slice(), e.place, later, to)
        }
        ExprKind::Input => make(OpKind::Input, ZERO, ZERO, None, e.place, to),
        _ => Ok(ZERO),
    }
}

/// What comes behind the first operand.
#[cycle(lowering)]
fn rest(
    p: &Program,
    homes: &Homes,
    e: &Expr,
    later: bool,
    x: Operand,
    to: &mut Making,
) -> Result<Operand, Memory>
    ensures { IfOk result (λ y. Emits (operands.rest_of (spec.setting_of p.now homes.now) (out-ExprKind e.now.kind) e.now.place e.now.ty later x) y to.old to.new) }
{
    match &e.kind {
        ExprKind::Element { array, index: _ } => load(p, homes, *array, x, e.place, to),
        ExprKind::Convert(inner) => make_conversion(e.ty, inner.get().ty, x, e.place, to),
        ExprKind::Unary { op, a: _ } => make_unary(*op, x, e.place, to),
        ExprKind::Binary { op, a, b } => {
            behind_first(p, homes, *op, a.get().ty, b.get(), e.place, later, x, to)
        }
        ExprKind::Cond { test: _, yes, no } => {
            behind_test(p, homes, yes.get(), no.get(), e.place, later, x, to)
        }
        ExprKind::Output(_) => output(x, e.place, to),
        _ => Ok(x),
    }
}

/// What comes behind the first operand of an operator.
#[cycle(lowering)]
fn behind_first(
    p: &Program,
    homes: &Homes,
    op: BinaryOp,
    ty: Ty,
    b: &Expr,
    place: Place,
    later: bool,
    x: Operand,
    to: &mut Making,
) -> Result<Operand, Memory>
    ensures { IfOk result (λ y. Emits (operands.behind_first op ty (spec.lowered (spec.setting_of p.now homes.now) b.now) place later x) y to.old to.new) }
{
    match op {
        BinaryOp::And => {
            let t = test(x, place, to)?;
            both_arms(p, homes, b, place, later, t, to)
        }
        BinaryOp::Or => {
            let t = test(x, place, to)?;
            either_arms(p, homes, b, place, later, t, to)
        }
        _ => second(p, homes, op, ty, b, place, later, x, to),
    }
}

/// What comes behind the test of a conditional expression.
#[cycle(lowering)]
fn behind_test(
    p: &Program,
    homes: &Homes,
    a: &Expr,
    b: &Expr,
    place: Place,
    later: bool,
    x: Operand,
    to: &mut Making,
) -> Result<Operand, Memory>
    ensures { IfOk result (λ y. Emits (operands.behind_test (spec.lowered (spec.setting_of p.now homes.now) a.now) (spec.lowered (spec.setting_of p.now homes.now) b.now) place later x) y to.old to.new) }
{
    let t = test(x, place, to)?;
    choice_arms(p, homes, a, b, place, later, t, to)
}

#[cycle(lowering)]
fn second(
    p: &Program,
    homes: &Homes,
    op: BinaryOp,
    ty: Ty,
    b: &Expr,
    place: Place,
    later: bool,
    x: Operand,
    to: &mut Making,
) -> Result<Operand, Memory>
    ensures { IfOk result (λ y. Emits (spec.second op ty (spec.lowered (spec.setting_of p.now homes.now) b.now) place later x) y to.old to.new) }
{
    let y = expr(p, homes, b, later, to)?;
    make_binary(op, ty, x, y, place, to)
}

#[cycle(lowering)]
fn new_truth(
    p: &Program,
    homes: &Homes,
    e: &Expr,
    place: Place,
    later: bool,
    to: &mut Making,
) -> Result<u32, Memory>
    ensures { IfOk result (λ t. Emits (spec.new_truth (spec.lowered (spec.setting_of p.now homes.now) e.now) place later) t to.old to.new) }
{
    let y = expr(p, homes, e, later, to)?;
    set_truth(y, place, to)
}

#[cycle(lowering)]
fn new_copy(
    p: &Program,
    homes: &Homes,
    e: &Expr,
    place: Place,
    later: bool,
    to: &mut Making,
) -> Result<u32, Memory>
    ensures { IfOk result (λ t. Emits (spec.new_copy (spec.lowered (spec.setting_of p.now homes.now) e.now) place later) t to.old to.new) }
{
    let y = expr(p, homes, e, later, to)?;
    set_copy(y, place, to)
}

#[cycle(lowering)]
fn truth_into(
    p: &Program,
    homes: &Homes,
    e: &Expr,
    place: Place,
    later: bool,
    t: u32,
    to: &mut Making,
) -> Result<(), Memory>
    ensures { IfOk result (λ u. Emits (spec.truth_into (spec.lowered (spec.setting_of p.now homes.now) e.now) place later t) tt to.old to.new) }
{
    let y = expr(p, homes, e, later, to)?;
    one(OpKind::Ne, Some(t), y, ZERO, None, place, to)
}

#[cycle(lowering)]
fn copy_into_temporary(
    p: &Program,
    homes: &Homes,
    e: &Expr,
    place: Place,
    later: bool,
    t: u32,
    to: &mut Making,
) -> Result<(), Memory>
    ensures { IfOk result (λ u. Emits (spec.copy_into_temporary (spec.lowered (spec.setting_of p.now homes.now) e.now) place later t) tt to.old to.new) }
{
    let y = expr(p, homes, e, later, to)?;
    one(OpKind::Copy, Some(t), y, ZERO, None, place, to)
}

#[cycle(lowering)]
fn both_arms(
    p: &Program,
    homes: &Homes,
    b: &Expr,
    place: Place,
    later: bool,
    test: Op,
    to: &mut Making,
) -> Result<Operand, Memory>
    ensures { IfOk result (λ x. Emits (spec.both_arms (spec.lowered (spec.setting_of p.now homes.now) b.now) place later test) x to.old to.new) }
{
    let outer = to.take();
    let t = new_truth(p, homes, b, place, later, to)?;
    let yes = to.take();
    one(OpKind::Copy, Some(t), ZERO, ZERO, None, place, to)?;
    let no = to.put_back(outer);
    branch(test, yes, no, t, to)
}

#[cycle(lowering)]
fn either_arms(
    p: &Program,
    homes: &Homes,
    b: &Expr,
    place: Place,
    later: bool,
    test: Op,
    to: &mut Making,
) -> Result<Operand, Memory>
    ensures { IfOk result (λ x. Emits (spec.either_arms (spec.lowered (spec.setting_of p.now homes.now) b.now) place later test) x to.old to.new) }
{
    let outer = to.take();
    let t = set_copy(Operand::Const(1), place, to)?;
    let yes = to.take();
    truth_into(p, homes, b, place, later, t, to)?;
    let no = to.put_back(outer);
    branch(test, yes, no, t, to)
}

#[cycle(lowering)]
fn choice_arms(
    p: &Program,
    homes: &Homes,
    a: &Expr,
    b: &Expr,
    place: Place,
    later: bool,
    test: Op,
    to: &mut Making,
) -> Result<Operand, Memory>
    ensures { IfOk result (λ x. Emits (spec.choice_arms (spec.lowered (spec.setting_of p.now homes.now) a.now) (spec.lowered (spec.setting_of p.now homes.now) b.now) place later test) x to.old to.new) }
{
    let late = is_late(b, later);
    let outer = to.take();
    let t = new_copy(p, homes, a, place, late, to)?;
    let yes = to.take();
    copy_into_temporary(p, homes, b, place, later, t, to)?;
    let no = to.put_back(outer);
    branch(test, yes, no, t, to)
}

// A branch whose arms both write the temporary.
fn branch(
    test: Op,
    yes: Items<Item>,
    no: Items<Item>,
    t: u32,
    to: &mut Making,
) -> Result<Operand, Memory>
    ensures { IfOk result (λ x. Emits (spec.branched test yes no t) x to.old to.new) }
{
    to.give(Item::Branch { test, yes, no })?;
    Ok(Operand::Object(t))
}

// ---- calls

/// The operands of the arguments.
#[cycle(lowering)]
fn arguments(
    p: &Program,
    homes: &Homes,
    args: &[Expr],
    later: bool,
    to: &mut Making,
) -> Result<Items<Operand>, Memory>
    ensures { IfOk result (λ xs. Emits (spec.arguments_onto [] later (map (spec.lowered (spec.setting_of p.now homes.now)) args.now)) xs to.old to.new) }
{
    let mut given = Items::new(to.alloc());
    let mut left = args;
    while let Some((e, rest)) = first_and_rest(left) {
        let late = is_late_argument(rest, later);
        let a = expr(p, homes, e, late, to)?;
        put_operand(&mut given, a)?;
        left = rest;
    }
    Ok(given)
}

fn put_operand(given: &mut Items<Operand>, a: Operand) -> Result<(), Memory>
    ensures { IfOk result (λ u. given.new ≡ given.old ++ a ∷ []) }
{
    match given.push(a) {
        Ok(_) => Ok(()),
        Err(_) => Err(Memory),
    }
}

/// Each parameter takes its argument.
fn copy_arguments(
    homes: &Homes,
    params: &[u32],
    args: &[Operand],
    place: Place,
    to: &mut Making,
) -> Result<(), Memory>
    ensures { (s : spec.Setting) → s.homes ≡ homes.now → IfOk result (λ u. Emits (spec.copy_arguments s params.now args.now place) tt to.old to.new) }
{
    let mut names = params;
    let mut left = args;
    while let Some((x, more)) = first_and_rest(names) {
        match first_and_rest(left) {
            None => return Ok(()),
            Some((a, rest)) => {
                copy_into(home(homes, *x), *a, place, to)?;
                left = rest;
            }
        }
        names = more;
    }
    Ok(())
}

fn call_to(homes: &Homes, function: u32, place: Place, to: &mut Making) -> Result<(), Memory>
    ensures { (s : spec.Setting) → s.homes ≡ homes.now → IfOk result (λ u. Emits (spec.call_to s function place) tt to.old to.new) }
{
    let op = numbered(OpKind::Call, None, ZERO, ZERO, None, place, to)?;
    to.give(Item::CallTo {
        op,
        function: place_of(homes, function),
    })
}

fn take_result(
    homes: &Homes,
    function: u32,
    ty: Option<Ty>,
    place: Place,
    to: &mut Making,
) -> Result<Operand, Memory>
    ensures { (s : spec.Setting) → s.homes ≡ homes.now → IfOk result (λ x. Emits (spec.take_result s function ty place) x to.old to.new) }
{
    match ty {
        None => Ok(ZERO),
        Some(_) => make(
            OpKind::Copy,
            Operand::Object(result_home(homes, function)),
            ZERO,
            None,
            place,
            to,
        ),
    }
}

fn call_known(
    homes: &Homes,
    function: u32,
    called: &Function,
    args: &[Operand],
    place: Place,
    to: &mut Making,
) -> Result<Operand, Memory>
    ensures { (s : spec.Setting) → s.homes ≡ homes.now → IfOk result (λ x. Emits (spec.call s function (Some called.now) args.now place) x to.old to.new) }
{
    copy_arguments(homes, called.params.as_slice(), args, place, to)?;
    call_to(homes, function, place, to)?;
    take_result(homes, function, called.result, place, to)
}

fn call(
    p: &Program,
    homes: &Homes,
    function: u32,
    args: &[Operand],
    place: Place,
    to: &mut Making,
) -> Result<Operand, Memory>
    ensures { IfOk result (λ x. Emits (spec.call (spec.setting_of p.now homes.now) function (slice_get p.now.functions function) args.now place) x to.old to.new) }
{
    match p.functions.get(function as usize) {
        None => Ok(ZERO),
        Some(called) => call_known(homes, function, called, args, place, to),
    }
}

/// A call: all arguments, and then what takes them.
#[cycle(lowering)]
fn call_of(
    p: &Program,
    homes: &Homes,
    function: u32,
    args: &[Expr],
    place: Place,
    later: bool,
    to: &mut Making,
) -> Result<Operand, Memory>
    ensures { IfOk result (λ x. Emits (operands.call_of (spec.setting_of p.now homes.now) function (map (spec.lowered (spec.setting_of p.now homes.now)) args.now) place later) x to.old to.new) }
{
    let given = arguments(p, homes, args, later, to)?;
    call(p, homes, function, given.as_slice(), place, to)
}
