//! What statements hold.
ghost use Rattle.std.specs.Prelude.{◌≡◌, ◌||◌};
ghost use Rattle.c_tree.specs.declared.tree.StmtKind.{out-StmtKind};
ghost use Rattle.lowered_graphs.specs.Exprs.{Setting};
ghost use Rattle.lowered_graphs.specs.Stmts.{Within, lowered_stmt, lowered_item, is_counted};
ghost use Rattle.c_lower.specs.Holding as spec;

use crate::calling::{Callee, is_called};
use crate::lists::first_and_rest;
use c_tree::{Action, BlockItem, Declared, Expr, ForFirst, Group, Stmt, StmtKind};
use sqlite_items::Boxed;

/// What is sought in a statement: a `break` or a `continue` of its own loop, a `return`, an assignment to a variable, a call of a function.
#[derive(Clone, Copy, PartialEq, Eq, Debug)]
pub enum Sought {
    Break,
    Continue,
    Return,
    Assigned(u32),
    Call(u32),
}

fn expr_has(sought: Sought, e: &Expr) -> bool
    ensures { (s : Setting) → result ≡ spec.expr_has s sought e.now }
{
    match sought {
        Sought::Call(f) => is_called(Callee::Function(f), e),
        _ => false,
    }
}

fn opt_has(sought: Sought, e: &Option<Expr>) -> bool
    ensures { (s : Setting) → result ≡ spec.opt_has s sought e.now }
{
    match e {
        None => false,
        Some(e) => expr_has(sought, e),
    }
}

fn index_has(sought: Sought, e: &Option<Boxed<Expr>>) -> bool
    ensures { (s : Setting) → result ≡ spec.opt_has s sought e.now }
{
    match e {
        None => false,
        Some(e) => expr_has(sought, e.get()),
    }
}

fn exprs_have(sought: Sought, es: &[Expr]) -> bool
    ensures { (s : Setting) → result ≡ spec.exprs_have s sought es.now }
{
    let mut left = es;
    while let Some((e, rest)) = first_and_rest(left) {
        if expr_has(sought, e) {
            return true;
        }
        left = rest;
    }
    false
}

fn is_assigned(sought: Sought, x: u32) -> bool
    ensures { result ≡ spec.is_assigned sought x }
{
    match sought {
        Sought::Assigned(v) => v == x,
        _ => false,
    }
}

fn action_has(sought: Sought, action: &Action) -> bool
    ensures { (s : Setting) → result ≡ spec.action_has s sought action.now }
{
    match action {
        Action::Value(e) => expr_has(sought, e),
        Action::Assign { to, value } => {
            is_assigned(sought, to.variable)
                || (index_has(sought, &to.index) || expr_has(sought, value))
        }
        Action::Update {
            to,
            at: _,
            op: _,
            ty: _,
            by,
        } => {
            is_assigned(sought, to.variable)
                || (index_has(sought, &to.index) || opt_has(sought, by))
        }
    }
}

fn opt_action_has(sought: Sought, action: &Option<Action>) -> bool
    ensures { (s : Setting) → result ≡ spec.opt_action_has s sought action.now }
{
    match action {
        None => false,
        Some(action) => action_has(sought, action),
    }
}

fn declared_have(sought: Sought, declared: &[Declared]) -> bool
    ensures { (s : Setting) → result ≡ spec.declared_have s sought declared.now }
{
    let mut left = declared;
    while let Some((d, rest)) = first_and_rest(left) {
        if exprs_have(sought, d.values.as_slice()) {
            return true;
        }
        left = rest;
    }
    false
}

fn first_has(sought: Sought, first: &Option<ForFirst>) -> bool
    ensures { (s : Setting) → result ≡ spec.first_has s sought first.now }
{
    match first {
        None => false,
        Some(ForFirst::Declare(ds)) => declared_have(sought, ds.as_slice()),
        Some(ForFirst::Act(action)) => action_has(sought, action),
    }
}

fn leaves_loops(sought: Sought) -> bool
    ensures { result ≡ spec.leaves_loops sought }
{
    match sought {
        Sought::Break | Sought::Continue => false,
        Sought::Return | Sought::Assigned(_) | Sought::Call(_) => true,
    }
}

fn leaves_switches(sought: Sought) -> bool
    ensures { result ≡ spec.leaves_switches sought }
{
    match sought {
        Sought::Break => false,
        Sought::Continue | Sought::Return | Sought::Assigned(_) | Sought::Call(_) => true,
    }
}

fn is_break(sought: Sought) -> bool
    ensures { result ≡ spec.is_break sought }
{
    match sought {
        Sought::Break => true,
        _ => false,
    }
}

fn is_continue(sought: Sought) -> bool
    ensures { result ≡ spec.is_continue sought }
{
    match sought {
        Sought::Continue => true,
        _ => false,
    }
}

fn is_return(sought: Sought) -> bool
    ensures { result ≡ spec.is_return sought }
{
    match sought {
        Sought::Return => true,
        _ => false,
    }
}

/// Whether a statement has what is sought.
#[cycle(holding)]
pub fn has(sought: Sought, s: &Stmt) -> bool
    ensures { (w : Within) → result ≡ spec.has sought (lowered_stmt w s.now) }
{
    has_kind(sought, &s.kind)
}

#[cycle(holding)]
fn has_kind(sought: Sought, kind: &StmtKind) -> bool
    ensures { (w : Within) → result ≡ spec.layer_has w sought (out-StmtKind kind.now) }
{
    match kind {
        StmtKind::Block(items) => items_have(sought, items.as_slice()),
        StmtKind::Empty => false,
        StmtKind::Act(action) => action_has(sought, action),
        StmtKind::Break => is_break(sought),
        StmtKind::Continue => is_continue(sought),
        StmtKind::Return(value) => is_return(sought) || opt_has(sought, value),
        StmtKind::If { test, yes, no } => {
            expr_has(sought, test) || (has(sought, yes.get()) || opt_stmt_has(sought, no))
        }
        StmtKind::While { test, body } => {
            expr_has(sought, test) || (leaves_loops(sought) && has(sought, body.get()))
        }
        StmtKind::Do { body, test } => {
            (leaves_loops(sought) && has(sought, body.get())) || expr_has(sought, test)
        }
        StmtKind::For {
            first,
            test,
            step,
            body,
        } => for_has(sought, first, test, step, body.get()),
        StmtKind::Switch { value, groups } => {
            expr_has(sought, value)
                || (leaves_switches(sought) && groups_have(sought, groups.as_slice()))
        }
    }
}

#[cycle(holding)]
fn for_has(
    sought: Sought,
    first: &Option<ForFirst>,
    test: &Option<Expr>,
    step: &Option<Action>,
    body: &Stmt,
) -> bool
    ensures { (w : Within) → result ≡ spec.for_has w sought first.now test.now step.now body.now }
{
    leaves_loops(sought)
        && (first_has(sought, first)
            || (opt_has(sought, test) || (opt_action_has(sought, step) || has(sought, body))))
}

#[cycle(holding)]
fn opt_stmt_has(sought: Sought, s: &Option<Boxed<Stmt>>) -> bool
    ensures { (w : Within) → result ≡ spec.opt_stmt_has w sought s.now }
{
    match s {
        None => false,
        Some(s) => has(sought, s.get()),
    }
}

#[cycle(holding)]
fn has_item(sought: Sought, item: &BlockItem) -> bool
    ensures { (w : Within) → result ≡ spec.has sought (lowered_item w item.now) }
{
    match item {
        BlockItem::Declare(ds) => declared_have(sought, ds.as_slice()),
        BlockItem::Act(s) => has(sought, s),
    }
}

#[cycle(holding)]
fn items_have(sought: Sought, items: &[BlockItem]) -> bool
    ensures { (w : Within) → result ≡ spec.items_have w sought items.now }
{
    let mut left = items;
    while let Some((item, rest)) = first_and_rest(left) {
        if has_item(sought, item) {
            return true;
        }
        left = rest;
    }
    false
}

#[cycle(holding)]
fn groups_have(sought: Sought, groups: &[Group]) -> bool
    ensures { (w : Within) → result ≡ spec.groups_have w sought groups.now }
{
    let mut left = groups;
    while let Some((group, rest)) = first_and_rest(left) {
        if items_have(sought, group.items.as_slice()) {
            return true;
        }
        left = rest;
    }
    false
}

/// Whether the body of a loop of a known number of turns keeps to it: it assigns to the variable nowhere, and holds no leave.
pub fn is_counted(body: &Stmt, x: u32) -> bool
    ensures { (w : Within) → result ≡ is_counted (lowered_stmt w body.now) x }
{
    !(has(Sought::Break, body)
        || (has(Sought::Continue, body)
            || (has(Sought::Return, body) || has(Sought::Assigned(x), body))))
}
