//! What actions are lowered to (C11 6.5.16).
ghost use Rattle.std.specs.Prelude.{◌≡◌, Some, IfOk};
ghost use Rattle.std.specs.Option.{option_copied};
ghost use Rattle.c_tree.specs.Nodes as nodes;
ghost use Rattle.lowered_graphs.specs.Exprs.{setting_of, Setting, lowered, full};
ghost use Rattle.lowered_graphs.specs.Making as making;
ghost use Rattle.lowered_graphs.specs.Stmts as spec;
ghost use Rattle.c_lower.specs.Emitting.{Emits};

use crate::calling::calls;
use crate::exprs::{array_use, expr, load, read_scalar};
use crate::homes::home;
use crate::making::{Making, ZERO, copy_into, store_into};
use crate::operators::{make_binary, make_conversion};
use base_io::{Memory, Place};
use c_tree::{Action, Expr, Program, Target};
use c_values::{BinaryOp, Ty};
use flow_graph::Operand;
use lowered_graphs::Homes;
use sqlite_items::Boxed;

/// A full expression: no operand stands behind it.
pub fn full(p: &Program, homes: &Homes, e: &Expr, to: &mut Making) -> Result<Operand, Memory>
    ensures { IfOk result (λ x. Emits (full (setting_of p.now homes.now) e.now) x to.old to.new) }
{
    expr(p, homes, e, false, to)
}

/// Whether an expression calls, if there is one.
fn calls_in(e: &Option<Expr>) -> bool
    ensures { (s : Setting) → result ≡ spec.calls_in s e.now }
{
    match e {
        None => false,
        Some(e) => calls(e),
    }
}

fn type_of(p: &Program, x: u32) -> Ty
    ensures { result ≡ nodes.type_of p.now x }
{
    match p.variables.as_slice().get(x as usize) {
        None => Ty::U16,
        Some(v) => v.ty,
    }
}

fn index_of(
    p: &Program,
    homes: &Homes,
    index: &Option<Boxed<Expr>>,
    later: bool,
    to: &mut Making,
) -> Result<Operand, Memory>
    ensures { IfOk result (λ x. Emits (spec.index_of (setting_of p.now homes.now) index.now later) x to.old to.new) }
{
    match index {
        None => Ok(ZERO),
        Some(e) => expr(p, homes, e.get(), later, to),
    }
}

fn store_to(
    p: &Program,
    homes: &Homes,
    target: &Target,
    index: Operand,
    a: Operand,
    to: &mut Making,
) -> Result<(), Memory>
    ensures { IfOk result (λ u. Emits (spec.store_to (setting_of p.now homes.now) target.now index a) tt to.old to.new) }
{
    if target.index.is_none() {
        copy_into(home(homes, target.variable), a, target.place, to)
    } else {
        let array = array_use(p, homes, target.variable);
        store_into(array, a, index, target.place, to)
    }
}

fn load_from(
    p: &Program,
    homes: &Homes,
    target: &Target,
    index: Operand,
    later: bool,
    to: &mut Making,
) -> Result<Operand, Memory>
    ensures { IfOk result (λ x. Emits (spec.load_from (setting_of p.now homes.now) target.now index later) x to.old to.new) }
{
    if target.index.is_none() {
        read_scalar(p, homes, target.variable, target.place, later, to)
    } else {
        load(p, homes, target.variable, index, target.place, to)
    }
}

fn right_side(
    p: &Program,
    homes: &Homes,
    by: &Option<Expr>,
    to: &mut Making,
) -> Result<Operand, Memory>
    ensures { IfOk result (λ x. Emits (spec.right_side (setting_of p.now homes.now) by.now) x to.old to.new) }
{
    match by {
        None => Ok(Operand::Const(1)),
        Some(e) => full(p, homes, e, to),
    }
}

/// The index, then the right side.
fn assign(
    p: &Program,
    homes: &Homes,
    target: &Target,
    value: &Expr,
    to: &mut Making,
) -> Result<(), Memory>
    ensures { IfOk result (λ u. Emits (spec.assign (setting_of p.now homes.now) target.now value.now) tt to.old to.new) }
{
    let late = calls(value);
    let element = index_of(p, homes, &target.index, late, to)?;
    let a = full(p, homes, value, to)?;
    store_to(p, homes, target, element, a, to)
}

/// The operator, and the conversion of its result.
fn finish_update(
    p: &Program,
    homes: &Homes,
    target: &Target,
    place: Place,
    op: BinaryOp,
    ty: Ty,
    index: Operand,
    x: Operand,
    y: Operand,
    to: &mut Making,
) -> Result<(), Memory>
    ensures { IfOk result (λ u. Emits (spec.finish_update (setting_of p.now homes.now) target.now place op ty index x y) tt to.old to.new) }
{
    let w = make_binary(op, ty, x, y, place, to)?;
    let v = make_conversion(type_of(p, target.variable), ty, w, place, to)?;
    store_to(p, homes, target, index, v, to)
}

/// The index, the value read and its conversion, then the right side.
fn update(
    p: &Program,
    homes: &Homes,
    target: &Target,
    place: Place,
    op: BinaryOp,
    ty: Ty,
    by: &Option<Expr>,
    to: &mut Making,
) -> Result<(), Memory>
    ensures { IfOk result (λ u. Emits (spec.update (setting_of p.now homes.now) target.now place op ty by.now) tt to.old to.new) }
{
    let late = calls_in(by);
    let index = index_of(p, homes, &target.index, late, to)?;
    let w = load_from(p, homes, target, index, late, to)?;
    let x = make_conversion(ty, type_of(p, target.variable), w, place, to)?;
    let y = right_side(p, homes, by, to)?;
    finish_update(p, homes, target, place, op, ty, index, x, y, to)
}

/// An action.
pub fn act(p: &Program, homes: &Homes, action: &Action, to: &mut Making) -> Result<(), Memory>
    ensures { IfOk result (λ u. Emits (spec.act (setting_of p.now homes.now) action.now) tt to.old to.new) }
{
    match action {
        Action::Value(e) => {
            full(p, homes, e, to)?;
            Ok(())
        }
        Action::Assign { to: target, value } => assign(p, homes, target, value, to),
        Action::Update {
            to: target,
            at,
            op,
            ty,
            by,
        } => update(p, homes, target, *at, *op, *ty, by, to),
    }
}

/// An action, if there is one.
pub fn act_opt(
    p: &Program,
    homes: &Homes,
    action: &Option<Action>,
    to: &mut Making,
) -> Result<(), Memory>
    ensures { IfOk result (λ u. Emits (spec.act_opt (setting_of p.now homes.now) action.now) tt to.old to.new) }
{
    match action {
        None => Ok(()),
        Some(action) => act(p, homes, action, to),
    }
}
