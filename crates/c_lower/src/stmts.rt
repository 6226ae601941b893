//! What statements are lowered to (C11 6.8).
ghost use Rattle.std.specs.Prelude.{◌≡◌, IfOk, map};
ghost use Rattle.std.specs.Option.{option_map};
ghost use Rattle.c_tree.specs.declared.tree.StmtKind.{out-StmtKind};
ghost use Rattle.lowered_graphs.specs.Exprs.{setting_of};
ghost use Rattle.lowered_graphs.specs.GraphOf.{within_of};
ghost use Rattle.lowered_graphs.specs.Making as making;
ghost use Rattle.lowered_graphs.specs.Counted as counted;
ghost use Rattle.lowered_graphs.specs.Stmts as spec;
ghost use Rattle.c_lower.specs.Arms as nesting;
ghost use Rattle.c_lower.specs.Places as places;
ghost use Rattle.c_lower.specs.Emitting.{Emits};

use crate::actions::{act, act_opt, full};
use crate::arms::{Arm, has_default, labels, nest, put_arm};
use crate::counted::count_head;
use crate::declarations::declare;
use crate::holding::{Sought, has, is_counted};
use crate::homes::{home, result_home};
use crate::lists::first_and_rest;
use crate::making::{Making, ZERO, copy_into, go, leave, make, numbered, one, test};
use base_io::{Memory, Place};
use c_tree::{Action, BlockItem, Expr, ForFirst, Group, Program, Stmt, StmtKind};
use flow_graph::{Item, LeaveTo, Op, OpKind, Operand};
use lowered_graphs::{Count, Homes, Position};
use sqlite_items::{Boxed, Items};
use std::alloc::Global;

// ---- leaves and returns

/// A `break`: none where it ends a group of a `switch`.
fn break_at(at: Position, place: Place, to: &mut Making) -> Result<(), Memory>
    ensures { IfOk result (λ u. Emits (spec.break_at at place) tt to.old to.new) }
{
    match at {
        Position::LastOfGroup => Ok(()),
        _ => leave(LeaveTo::Break, OpKind::Go, ZERO, place, to),
    }
}

/// The operation of a `return`: a leave, unless it ends the body.
fn return_op(
    at: Position,
    kind: OpKind,
    a: Operand,
    place: Place,
    to: &mut Making,
) -> Result<(), Memory>
    ensures { IfOk result (λ u. Emits (spec.return_op at (making.plain kind a place)) tt to.old to.new) }
{
    match at {
        Position::LastOfBody => one(kind, None, a, ZERO, None, place, to),
        _ => leave(LeaveTo::Back, kind, a, place, to),
    }
}

fn return_main(
    p: &Program,
    homes: &Homes,
    value: &Option<Expr>,
    at: Position,
    place: Place,
    to: &mut Making,
) -> Result<(), Memory>
    ensures { (w : spec.Within) → w.setting ≡ setting_of p.now homes.now → IfOk result (λ u. Emits (spec.return_main w value.now at place) tt to.old to.new) }
{
    match value {
        None => return_op(at, OpKind::Finish, ZERO, place, to),
        Some(e) => {
            let a = full(p, homes, e, to)?;
            return_op(at, OpKind::Finish, a, place, to)
        }
    }
}

fn return_from(
    p: &Program,
    homes: &Homes,
    n: u32,
    value: &Option<Expr>,
    at: Position,
    place: Place,
    to: &mut Making,
) -> Result<(), Memory>
    ensures { IfOk result (λ u. Emits (spec.return_from (within_of p.now homes.now n) value.now at place) tt to.old to.new) }
{
    match value {
        None => return_op(at, OpKind::Ret, ZERO, place, to),
        Some(e) => {
            let a = full(p, homes, e, to)?;
            copy_into(result_home(homes, n), a, place, to)?;
            return_op(at, OpKind::Ret, ZERO, place, to)
        }
    }
}

fn return_at(
    p: &Program,
    homes: &Homes,
    n: u32,
    value: &Option<Expr>,
    at: Position,
    place: Place,
    to: &mut Making,
) -> Result<(), Memory>
    ensures { IfOk result (λ u. Emits (spec.return_at (within_of p.now homes.now n) value.now at place) tt to.old to.new) }
{
    if n == p.main {
        return_main(p, homes, value, at, place, to)
    } else {
        return_from(p, homes, n, value, at, place, to)
    }
}

// ---- tests and loops

fn test_of(
    p: &Program,
    homes: &Homes,
    e: &Expr,
    place: Place,
    to: &mut Making,
) -> Result<Op, Memory>
    ensures { IfOk result (λ t. Emits (spec.test (setting_of p.now homes.now) e.now place) t to.old to.new) }
{
    let a = full(p, homes, e, to)?;
    test(a, place, to)
}

fn test_opt(
    p: &Program,
    homes: &Homes,
    e: &Option<Expr>,
    place: Place,
    to: &mut Making,
) -> Result<Op, Memory>
    ensures { IfOk result (λ t. Emits (spec.test_opt (setting_of p.now homes.now) e.now place) t to.old to.new) }
{
    match e {
        None => test(Operand::Const(1), place, to),
        Some(e) => test_of(p, homes, e, place, to),
    }
}

/// The way back, and the loop.
fn close_loop(
    pre: Items<Item>,
    test: Op,
    post: Items<Item>,
    step: Items<Item>,
    count: Option<u32>,
    place: Place,
    to: &mut Making,
) -> Result<(), Memory>
    ensures { IfOk result (λ u. Emits (spec.close_loop pre test post step count place) tt to.old to.new) }
{
    let back = numbered(OpKind::Go, None, ZERO, ZERO, None, place, to)?;
    to.give(Item::Loop {
        pre,
        test,
        post,
        step,
        back,
        count,
    })
}

/// The test of a `do` as its step: it goes on, or breaks.
fn do_step(
    p: &Program,
    homes: &Homes,
    e: &Expr,
    place: Place,
    to: &mut Making,
) -> Result<(), Memory>
    ensures { IfOk result (λ u. Emits (spec.do_step (setting_of p.now homes.now) e.now place) tt to.old to.new) }
{
    let test = test_of(p, homes, e, place, to)?;
    let outer = to.take();
    go(place, to)?;
    let yes = to.take();
    leave(LeaveTo::Break, OpKind::Go, ZERO, place, to)?;
    let no = to.put_back(outer);
    to.give(Item::Branch { test, yes, no })
}

fn first_of(
    p: &Program,
    homes: &Homes,
    first: &Option<ForFirst>,
    to: &mut Making,
) -> Result<(), Memory>
    ensures { IfOk result (λ u. Emits (spec.first_of (setting_of p.now homes.now) first.now) tt to.old to.new) }
{
    match first {
        None => Ok(()),
        Some(ForFirst::Declare(ds)) => declare(p, homes, ds.as_slice(), to),
        Some(ForFirst::Act(action)) => act(p, homes, action, to),
    }
}

// ---- statements

/// A statement, where it stands in the function n.
#[cycle(statements)]
pub fn stmt(
    p: &Program,
    homes: &Homes,
    n: u32,
    s: &Stmt,
    at: Position,
    to: &mut Making,
) -> Result<(), Memory>
    ensures { IfOk result (λ u. Emits ((spec.lowered_stmt (within_of p.now homes.now n) s.now).emit at) tt to.old to.new) }
{
    kind(p, homes, n, &s.kind, s.place, at, to)
}

fn last_position(at: Position) -> Position
    ensures { result ≡ spec.last_position at }
{
    match at {
        Position::Anywhere => Position::Anywhere,
        Position::LastOfGroup => Position::LastOfGroup,
        Position::Body => Position::LastOfBody,
        Position::LastOfBody => Position::Anywhere,
    }
}

#[cycle(statements)]
fn kind(
    p: &Program,
    homes: &Homes,
    n: u32,
    kind: &StmtKind,
    place: Place,
    at: Position,
    to: &mut Making,
) -> Result<(), Memory>
    ensures { IfOk result (λ u. Emits (spec.emit_by (within_of p.now homes.now n) (spec.stmt_parts (within_of p.now homes.now n) (out-StmtKind kind.now)) place at) tt to.old to.new) }
{
    match kind {
        StmtKind::Block(block) => items(p, homes, n, block.as_slice(), last_position(at), to),
        StmtKind::Empty => Ok(()),
        StmtKind::Act(action) => act(p, homes, action, to),
        StmtKind::Break => break_at(at, place, to),
        StmtKind::Continue => leave(LeaveTo::Continue, OpKind::Go, ZERO, place, to),
        StmtKind::Return(value) => return_at(p, homes, n, value, at, place, to),
        StmtKind::If { test, yes, no } => {
            let test = test_of(p, homes, test, place, to)?;
            let outer = to.take();
            yes_arm(p, homes, n, yes.get(), no, place, to)?;
            let yes = to.take();
            no_arm(p, homes, n, no, to)?;
            let no = to.put_back(outer);
            to.give(Item::Branch { test, yes, no })
        }
        StmtKind::While { test, body } => while_at(p, homes, n, body.get(), test, place, to),
        StmtKind::Do { body, test } => do_at(p, homes, n, body.get(), test, place, to),
        StmtKind::For {
            first,
            test,
            step,
            body,
        } => for_at(p, homes, n, first, test, step, body.get(), place, to),
        StmtKind::Switch { value, groups } => {
            switch_at(p, homes, n, groups.as_slice(), value, place, to)
        }
    }
}

#[cycle(statements)]
fn item(
    p: &Program,
    homes: &Homes,
    n: u32,
    item: &BlockItem,
    at: Position,
    to: &mut Making,
) -> Result<(), Memory>
    ensures { IfOk result (λ u. Emits ((spec.lowered_item (within_of p.now homes.now n) item.now).emit at) tt to.old to.new) }
{
    match item {
        BlockItem::Declare(ds) => declare(p, homes, ds.as_slice(), to),
        BlockItem::Act(s) => stmt(p, homes, n, s, at, to),
    }
}

/// One item after another; the last stands where it is said.
#[cycle(statements)]
fn items(
    p: &Program,
    homes: &Homes,
    n: u32,
    items: &[BlockItem],
    last: Position,
    to: &mut Making,
) -> Result<(), Memory>
    ensures { IfOk result (λ u. Emits (spec.each_item last (map (spec.lowered_item (within_of p.now homes.now n)) items.now)) tt to.old to.new) }
{
    let mut left = items;
    while let Some((first, rest)) = first_and_rest(left) {
        let at = position(rest, last);
        item(p, homes, n, first, at, to)?;
        left = rest;
    }
    Ok(())
}

fn position(rest: &[BlockItem], last: Position) -> Position
    ensures { result ≡ places.position rest.now last }
{
    if rest.is_empty() {
        last
    } else {
        Position::Anywhere
    }
}

// ---- branches

#[cycle(statements)]
fn yes_arm(
    p: &Program,
    homes: &Homes,
    n: u32,
    yes: &Stmt,
    no: &Option<Boxed<Stmt>>,
    place: Place,
    to: &mut Making,
) -> Result<(), Memory>
    ensures { IfOk result (λ u. Emits (spec.yes_arm (spec.lowered_stmt (within_of p.now homes.now n) yes.now) (option_map (spec.lowered_stmt (within_of p.now homes.now n)) no.now) place) tt to.old to.new) }
{
    match no {
        None => stmt(p, homes, n, yes, Position::Anywhere, to),
        Some(_) => {
            stmt(p, homes, n, yes, Position::Anywhere, to)?;
            go(place, to)
        }
    }
}

#[cycle(statements)]
fn no_arm(
    p: &Program,
    homes: &Homes,
    n: u32,
    no: &Option<Boxed<Stmt>>,
    to: &mut Making,
) -> Result<(), Memory>
    ensures { IfOk result (λ u. Emits (spec.no_arm (option_map (spec.lowered_stmt (within_of p.now homes.now n)) no.now)) tt to.old to.new) }
{
    match no {
        None => Ok(()),
        Some(s) => stmt(p, homes, n, s.get(), Position::Anywhere, to),
    }
}

// ---- loops

#[cycle(statements)]
fn while_at(
    p: &Program,
    homes: &Homes,
    n: u32,
    body: &Stmt,
    e: &Expr,
    place: Place,
    to: &mut Making,
) -> Result<(), Memory>
    ensures { IfOk result (λ u. Emits (spec.while_at (setting_of p.now homes.now) e.now (spec.lowered_stmt (within_of p.now homes.now n) body.now) place) tt to.old to.new) }
{
    let outer = to.take();
    let test = test_of(p, homes, e, place, to)?;
    let pre = to.take();
    stmt(p, homes, n, body, Position::Anywhere, to)?;
    let post = to.put_back(outer);
    let step = to.none();
    close_loop(pre, test, post, step, None, place, to)
}

#[cycle(statements)]
fn do_at(
    p: &Program,
    homes: &Homes,
    n: u32,
    body: &Stmt,
    e: &Expr,
    place: Place,
    to: &mut Making,
) -> Result<(), Memory>
    ensures { IfOk result (λ u. Emits (spec.do_at (setting_of p.now homes.now) (spec.lowered_stmt (within_of p.now homes.now n) body.now) e.now place) tt to.old to.new) }
{
    if has(Sought::Continue, body) {
        do_by_step(p, homes, n, body, e, place, to)
    } else {
        do_by_test(p, homes, n, body, e, place, to)
    }
}

#[cycle(statements)]
fn do_by_step(
    p: &Program,
    homes: &Homes,
    n: u32,
    body: &Stmt,
    e: &Expr,
    place: Place,
    to: &mut Making,
) -> Result<(), Memory>
    ensures { IfOk result (λ u. Emits (spec.do_by_step (setting_of p.now homes.now) (spec.lowered_stmt (within_of p.now homes.now n) body.now) e.now place) tt to.old to.new) }
{
    let t = test(Operand::Const(1), place, to)?;
    let outer = to.take();
    stmt(p, homes, n, body, Position::Anywhere, to)?;
    let post = to.take();
    do_step(p, homes, e, place, to)?;
    let step = to.put_back(outer);
    let pre = to.none();
    close_loop(pre, t, post, step, None, place, to)
}

#[cycle(statements)]
fn do_by_test(
    p: &Program,
    homes: &Homes,
    n: u32,
    body: &Stmt,
    e: &Expr,
    place: Place,
    to: &mut Making,
) -> Result<(), Memory>
    ensures { IfOk result (λ u. Emits (spec.do_by_test (setting_of p.now homes.now) (spec.lowered_stmt (within_of p.now homes.now n) body.now) e.now place) tt to.old to.new) }
{
    let outer = to.take();
    stmt(p, homes, n, body, Position::Anywhere, to)?;
    let test = test_of(p, homes, e, place, to)?;
    let pre = to.put_back(outer);
    let post = to.none();
    let step = to.none();
    close_loop(pre, test, post, step, None, place, to)
}

/// The loop of a `for`, behind what it does first.
#[cycle(statements)]
fn for_loop(
    p: &Program,
    homes: &Homes,
    n: u32,
    e: &Option<Expr>,
    step: &Option<Action>,
    body: &Stmt,
    place: Place,
    to: &mut Making,
) -> Result<(), Memory>
    ensures { IfOk result (λ u. Emits (spec.for_loop (setting_of p.now homes.now) e.now step.now (spec.lowered_stmt (within_of p.now homes.now n) body.now) place) tt to.old to.new) }
{
    let outer = to.take();
    let test = test_opt(p, homes, e, place, to)?;
    let pre = to.take();
    stmt(p, homes, n, body, Position::Anywhere, to)?;
    let turn = to.take();
    act_opt(p, homes, step, to)?;
    let step = to.put_back(outer);
    close_loop(pre, test, turn, step, None, place, to)
}

/// A loop of a known number of turns, behind its first copy.
#[cycle(statements)]
fn counted_turns(
    p: &Program,
    homes: &Homes,
    n: u32,
    count: Count,
    body: &Stmt,
    place: Place,
    to: &mut Making,
) -> Result<(), Memory>
    ensures { IfOk result (λ u. Emits (spec.counted_turns (setting_of p.now homes.now) count (spec.lowered_stmt (within_of p.now homes.now n) body.now) place) tt to.old to.new) }
{
    let variable = home(homes, count.variable);
    let counter = Operand::Object(variable);
    let bound = Operand::Const(count.to);
    let test = numbered(OpKind::Below, None, counter, bound, None, place, to)?;
    let outer = to.take();
    stmt(p, homes, n, body, Position::Anywhere, to)?;
    let post = to.take();
    one(OpKind::Step, Some(variable), counter, ZERO, None, place, to)?;
    let step = to.put_back(outer);
    let pre = to.none();
    close_loop(pre, test, post, step, Some(turns(count)), place, to)
}

fn turns(count: Count) -> u32
    ensures { result ≡ counted.turns count }
{
    count.to.saturating_sub(count.from) as u32
}

#[cycle(statements)]
fn counted_loop(
    p: &Program,
    homes: &Homes,
    n: u32,
    count: Count,
    body: &Stmt,
    place: Place,
    to: &mut Making,
) -> Result<(), Memory>
    ensures { IfOk result (λ u. Emits (spec.counted_loop (setting_of p.now homes.now) count (spec.lowered_stmt (within_of p.now homes.now n) body.now) place) tt to.old to.new) }
{
    let from = Operand::Const(count.from);
    copy_into(home(homes, count.variable), from, count.place, to)?;
    counted_turns(p, homes, n, count, body, place, to)
}

/// The count of a `for`, where its number of turns is known.
fn count_of(
    alloc: Global,
    p: &Program,
    first: &Option<ForFirst>,
    e: &Option<Expr>,
    step: &Option<Action>,
    body: &Stmt,
) -> Result<Option<Count>, Memory>
    ensures { IfOk result (λ count. (w : spec.Within) → w.setting.program ≡ p.now → count ≡ spec.count_of w.setting first.now e.now step.now (spec.lowered_stmt w body.now)) }
{
    let head = count_head(alloc, p, first, e, step)?;
    Ok(counted_by(head, body))
}

/// A count, where the body of its loop leaves it as it is.
fn counted_by(head: Option<Count>, body: &Stmt) -> Option<Count>
    ensures { (w : spec.Within) → result ≡ spec.if_counted (spec.lowered_stmt w body.now) head }
{
    match head {
        None => None,
        Some(count) => {
            if is_counted(body, count.variable) {
                Some(count)
            } else {
                None
            }
        }
    }
}

#[cycle(statements)]
fn for_at(
    p: &Program,
    homes: &Homes,
    n: u32,
    first: &Option<ForFirst>,
    e: &Option<Expr>,
    step: &Option<Action>,
    body: &Stmt,
    place: Place,
    to: &mut Making,
) -> Result<(), Memory>
    ensures { IfOk result (λ u. Emits (spec.for_at (setting_of p.now homes.now) first.now e.now step.now (spec.lowered_stmt (within_of p.now homes.now n) body.now) place) tt to.old to.new) }
{
    let count = count_of(to.alloc(), p, first, e, step, body)?;
    match count {
        Some(count) => counted_loop(p, homes, n, count, body, place, to),
        None => {
            first_of(p, homes, first, to)?;
            for_loop(p, homes, n, e, step, body, place, to)
        }
    }
}

// ---- switch

/// A switch: its value is copied, and its groups stand within it.
#[cycle(statements)]
fn switch_at(
    p: &Program,
    homes: &Homes,
    n: u32,
    groups: &[Group],
    value: &Expr,
    place: Place,
    to: &mut Making,
) -> Result<(), Memory>
    ensures { IfOk result (λ u. Emits (spec.switch_at (setting_of p.now homes.now) value.now (map (spec.lowered_group (within_of p.now homes.now n)) groups.now) place) tt to.old to.new) }
{
    let a = full(p, homes, value, to)?;
    let v = make(OpKind::Copy, a, ZERO, None, place, to)?;
    let items = chain(p, homes, n, v, groups, place, to)?;
    give_switch(items, to)
}

fn give_switch(items: Items<Item>, to: &mut Making) -> Result<(), Memory>
    ensures { IfOk result (λ u. Emits (spec.give_switch items) tt to.old to.new) }
{
    if items.is_empty() {
        drop(items);
        Ok(())
    } else {
        to.give(Item::Switch { items })
    }
}

/// The groups of a switch, each in what isn't taken of the one before it. They are nested behind the last, in a loop.
#[cycle(statements)]
fn chain(
    p: &Program,
    homes: &Homes,
    n: u32,
    v: Operand,
    groups: &[Group],
    place: Place,
    to: &mut Making,
) -> Result<Items<Item>, Memory>
    ensures { IfOk result (λ xs. Emits (making.inside (spec.all_groups v (map (spec.lowered_group (within_of p.now homes.now n)) groups.now) place)) (record { items = xs; value = tt }) to.old to.new) }
{
    let mut arms = Items::new(to.alloc());
    let mut left = groups;
    while let Some((group, rest)) = first_and_rest(left) {
        add_group(p, homes, n, v, group, place, &mut arms, to)?;
        left = rest;
    }
    let last = group_of_default(p, homes, n, groups, to)?;
    nest(arms, last)
}

/// A group without `default` is one arm more.
#[cycle(statements)]
fn add_group(
    p: &Program,
    homes: &Homes,
    n: u32,
    v: Operand,
    group: &Group,
    place: Place,
    arms: &mut Items<Arm>,
    to: &mut Making,
) -> Result<(), Memory>
    ensures { IfOk result (λ u. nesting.Chains v (spec.lowered_group (within_of p.now homes.now n) group.now) place arms.old arms.new to.old to.new) }
{
    if has_default(group.labels.as_slice()) {
        Ok(())
    } else {
        let arm = group_arm(p, homes, n, v, group, place, to)?;
        put_arm(arms, arm)?;
        Ok(())
    }
}

/// The labels of a group, their test, and what the group does.
#[cycle(statements)]
fn group_arm(
    p: &Program,
    homes: &Homes,
    n: u32,
    v: Operand,
    group: &Group,
    place: Place,
    to: &mut Making,
) -> Result<Arm, Memory>
    ensures { IfOk result (λ arm. Emits (nesting.arm_of v (spec.group_parts (within_of p.now homes.now n) group.now) place) arm to.old to.new) }
{
    let outer = to.take();
    let a = labels(v, group.labels.as_slice(), to)?;
    let test = test(a, place, to)?;
    let before = to.take();
    group_items(p, homes, n, group, to)?;
    go(place, to)?;
    let yes = to.put_back(outer);
    Ok(Arm { before, test, yes })
}

/// What a group does.
#[cycle(statements)]
fn group_items(
    p: &Program,
    homes: &Homes,
    n: u32,
    group: &Group,
    to: &mut Making,
) -> Result<(), Memory>
    ensures { IfOk result (λ u. Emits (spec.group_items (spec.group_parts (within_of p.now homes.now n) group.now)) tt to.old to.new) }
{
    items(
        p,
        homes,
        n,
        group.items.as_slice(),
        Position::LastOfGroup,
        to,
    )
}

#[cycle(statements)]
fn group_of_default(
    p: &Program,
    homes: &Homes,
    n: u32,
    groups: &[Group],
    to: &mut Making,
) -> Result<Items<Item>, Memory>
    ensures { IfOk result (λ xs. Emits (making.inside (spec.default_items (map (spec.lowered_group (within_of p.now homes.now n)) groups.now))) (record { items = xs; value = tt }) to.old to.new) }
{
    let outer = to.take();
    default_items(p, homes, n, groups, to)?;
    Ok(to.put_back(outer))
}

/// The items of the group with `default`, if there is one.
#[cycle(statements)]
fn default_items(
    p: &Program,
    homes: &Homes,
    n: u32,
    groups: &[Group],
    to: &mut Making,
) -> Result<(), Memory>
    ensures { IfOk result (λ u. Emits (spec.default_items (map (spec.lowered_group (within_of p.now homes.now n)) groups.now)) tt to.old to.new) }
{
    let mut left = groups;
    while let Some((group, rest)) = first_and_rest(left) {
        if has_default(group.labels.as_slice()) {
            return group_items(p, homes, n, group, to);
        }
        left = rest;
    }
    Ok(())
}
