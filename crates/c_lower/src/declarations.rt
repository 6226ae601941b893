//! What declarations are lowered to (C11 6.7.9).
ghost use Rattle.std.specs.Prelude.{◌≡◌, Some, IfOk, slice_get};
ghost use Rattle.std.specs.Option.{option_copied};
ghost use Rattle.lowered_graphs.specs.Exprs.{setting_of, Setting};
ghost use Rattle.lowered_graphs.specs.Stmts as spec;
ghost use Rattle.c_lower.specs.Emitting.{Emits};

use crate::actions::full;
use crate::exprs::array_use;
use crate::homes::home;
use crate::lists::first_and_rest;
use crate::making::{Making, ZERO, copy_into, numbered, one, store_into};
use crate::reached::next;
use base_io::{Memory, Place};
use c_tree::{Declared, Expr, Program, Variable};
use flow_graph::{ArrayUse, Item, OpKind, Operand};
use lowered_graphs::Homes;

/// The loop in which t counts through the elements, and each becomes zero.
fn zero_each(array: ArrayUse, t: u32, place: Place, to: &mut Making) -> Result<(), Memory>
    ensures { IfOk result (λ u. Emits (spec.zero_each array t place) tt to.old to.new) }
{
    let counter = Operand::Object(t);
    let length = Operand::Const(array.length);
    let test = numbered(OpKind::Below, None, counter, length, None, place, to)?;
    let outer = to.take();
    store_into(array, ZERO, counter, place, to)?;
    let post = to.take();
    one(OpKind::Step, Some(t), counter, ZERO, None, place, to)?;
    let step = to.put_back(outer);
    let back = numbered(OpKind::Go, None, ZERO, ZERO, None, place, to)?;
    let pre = to.none();
    to.give(Item::Loop {
        pre,
        test,
        post,
        step,
        back,
        count: Some(array.length as u32),
    })
}

fn zero_array(array: ArrayUse, place: Place, to: &mut Making) -> Result<(), Memory>
    ensures { IfOk result (λ u. Emits (spec.zero_array array place) tt to.old to.new) }
{
    let t = to.temporary()?;
    copy_into(t, ZERO, place, to)?;
    zero_each(array, t, place, to)
}

/// The element's number as a constant; an array has fewer than 2^16 elements.
fn element(k: u32) -> Result<Operand, Memory>
    ensures { IfOk result (λ a. a ≡ Operand.Const k) }
{
    match u16::try_from(k) {
        Ok(k) => Ok(Operand::Const(k)),
        Err(_) => Err(Memory),
    }
}

fn fill_one(
    p: &Program,
    homes: &Homes,
    array: ArrayUse,
    k: u32,
    e: &Expr,
    place: Place,
    to: &mut Making,
) -> Result<(), Memory>
    ensures { IfOk result (λ u. Emits (spec.fill_one (setting_of p.now homes.now) array k e.now place) tt to.old to.new) }
{
    let a = full(p, homes, e, to)?;
    let index = element(k)?;
    store_into(array, a, index, place, to)
}

/// The values of a list go into the elements from the first on.
fn fill(
    p: &Program,
    homes: &Homes,
    array: ArrayUse,
    values: &[Expr],
    place: Place,
    to: &mut Making,
) -> Result<(), Memory>
    ensures { IfOk result (λ u. Emits (spec.fill (setting_of p.now homes.now) array 0 values.now place) tt to.old to.new) }
{
    let mut left = values;
    let mut k: u32 = 0;
    while let Some((e, rest)) = first_and_rest(left) {
        fill_one(p, homes, array, k, e, place, to)?;
        k = next(k)?;
        left = rest;
    }
    Ok(())
}

fn declare_scalar(
    p: &Program,
    homes: &Homes,
    x: u32,
    values: &[Expr],
    place: Place,
    to: &mut Making,
) -> Result<(), Memory>
    ensures { IfOk result (λ u. Emits (spec.declare_scalar (setting_of p.now homes.now) x values.now place) tt to.old to.new) }
{
    match first_and_rest(values) {
        None => copy_into(home(homes, x), ZERO, place, to),
        Some((e, _)) => {
            let a = full(p, homes, e, to)?;
            copy_into(home(homes, x), a, place, to)
        }
    }
}

fn declare_array(
    p: &Program,
    homes: &Homes,
    x: u32,
    values: &[Expr],
    place: Place,
    to: &mut Making,
) -> Result<(), Memory>
    ensures { IfOk result (λ u. Emits (spec.declare_array (setting_of p.now homes.now) x values.now place) tt to.old to.new) }
{
    let array = array_use(p, homes, x);
    zero_array(array, place, to)?;
    fill(p, homes, array, values, place, to)
}

fn declare_known(
    p: &Program,
    homes: &Homes,
    v: &Variable,
    d: &Declared,
    to: &mut Making,
) -> Result<(), Memory>
    ensures { IfOk result (λ u. Emits (spec.declare_one (setting_of p.now homes.now) (Some v.now) d.now) tt to.old to.new) }
{
    if v.length.is_none() {
        declare_scalar(p, homes, d.variable, d.values.as_slice(), d.place, to)
    } else {
        declare_array(p, homes, d.variable, d.values.as_slice(), d.place, to)
    }
}

fn declare_one(p: &Program, homes: &Homes, d: &Declared, to: &mut Making) -> Result<(), Memory>
    ensures { IfOk result (λ u. Emits (spec.declare_one (setting_of p.now homes.now) (slice_get p.now.variables d.now.variable) d.now) tt to.old to.new) }
{
    match p.variables.get(d.variable as usize) {
        None => Ok(()),
        Some(v) => declare_known(p, homes, v, d, to),
    }
}

/// Declarators, one after another.
pub fn declare(
    p: &Program,
    homes: &Homes,
    declared: &[Declared],
    to: &mut Making,
) -> Result<(), Memory>
    ensures { IfOk result (λ u. Emits (spec.declare (setting_of p.now homes.now) declared.now) tt to.old to.new) }
{
    let mut left = declared;
    while let Some((d, rest)) = first_and_rest(left) {
        declare_one(p, homes, d, to)?;
        left = rest;
    }
    Ok(())
}
