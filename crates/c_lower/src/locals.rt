//! The variables that statements declare, in the order of the text.
ghost use Rattle.std.specs.Prelude.{◌≡◌, ◌++◌, ◌∷◌, [], IfOk, map};
ghost use Rattle.c_tree.specs.declared.tree.StmtKind.{out-StmtKind};
ghost use Rattle.lowered_graphs.specs.Stmts as spec;
ghost use Rattle.c_lower.specs.Naming as naming;

use crate::lists::first_and_rest;
use base_io::Memory;
use c_tree::{BlockItem, Declared, ForFirst, Group, Stmt, StmtKind};
use sqlite_items::{Boxed, Items};

/// Puts a number behind the others.
pub fn put_number(numbers: &mut Items<u32>, x: u32) -> Result<(), Memory>
    ensures { IfOk result (λ u. numbers.new ≡ numbers.old ++ x ∷ []) }
{
    match numbers.push(x) {
        Ok(_) => Ok(()),
        Err(_) => Err(Memory),
    }
}

fn put_declared(declared: &[Declared], onto: &mut Items<u32>) -> Result<(), Memory>
    ensures { IfOk result (λ u. onto.new ≡ onto.old ++ spec.declared_locals declared.now) }
{
    let mut left = declared;
    while let Some((d, rest)) = first_and_rest(left) {
        put_number(onto, d.variable)?;
        left = rest;
    }
    Ok(())
}

fn put_first(first: &Option<ForFirst>, onto: &mut Items<u32>) -> Result<(), Memory>
    ensures { IfOk result (λ u. onto.new ≡ onto.old ++ spec.first_locals first.now) }
{
    match first {
        Some(ForFirst::Declare(ds)) => put_declared(ds.as_slice(), onto),
        _ => Ok(()),
    }
}

/// Puts the variables that a statement declares behind the others.
#[cycle(naming)]
pub fn put_locals(s: &Stmt, onto: &mut Items<u32>) -> Result<(), Memory>
    ensures { IfOk result (λ u. (w : spec.Within) → onto.new ≡ onto.old ++ (spec.lowered_stmt w s.now).locals) }
{
    put_kind(&s.kind, onto)
}

#[cycle(naming)]
fn put_kind(kind: &StmtKind, onto: &mut Items<u32>) -> Result<(), Memory>
    ensures { IfOk result (λ u. (w : spec.Within) → onto.new ≡ onto.old ++ spec.locals_by (spec.stmt_parts w (out-StmtKind kind.now))) }
{
    match kind {
        StmtKind::Block(items) => put_items(items.as_slice(), onto),
        StmtKind::Empty => Ok(()),
        StmtKind::Act(_) => Ok(()),
        StmtKind::Break => Ok(()),
        StmtKind::Continue => Ok(()),
        StmtKind::Return(_) => Ok(()),
        StmtKind::If { test: _, yes, no } => {
            put_locals(yes.get(), onto)?;
            put_opt(no, onto)
        }
        StmtKind::While { test: _, body } => put_locals(body.get(), onto),
        StmtKind::Do { body, test: _ } => put_locals(body.get(), onto),
        StmtKind::For {
            first,
            test: _,
            step: _,
            body,
        } => {
            put_first(first, onto)?;
            put_locals(body.get(), onto)
        }
        StmtKind::Switch { value: _, groups } => put_groups(groups.as_slice(), onto),
    }
}

#[cycle(naming)]
fn put_opt(s: &Option<Boxed<Stmt>>, onto: &mut Items<u32>) -> Result<(), Memory>
    ensures { IfOk result (λ u. (w : spec.Within) → onto.new ≡ onto.old ++ naming.opt_locals w s.now) }
{
    match s {
        None => Ok(()),
        Some(s) => put_locals(s.get(), onto),
    }
}

#[cycle(naming)]
fn put_item(item: &BlockItem, onto: &mut Items<u32>) -> Result<(), Memory>
    ensures { IfOk result (λ u. (w : spec.Within) → onto.new ≡ onto.old ++ (spec.lowered_item w item.now).locals) }
{
    match item {
        BlockItem::Declare(ds) => put_declared(ds.as_slice(), onto),
        BlockItem::Act(s) => put_locals(s, onto),
    }
}

#[cycle(naming)]
fn put_items(items: &[BlockItem], onto: &mut Items<u32>) -> Result<(), Memory>
    ensures { IfOk result (λ u. (w : spec.Within) → onto.new ≡ onto.old ++ naming.items_locals w items.now) }
{
    let mut left = items;
    while let Some((item, rest)) = first_and_rest(left) {
        put_item(item, onto)?;
        left = rest;
    }
    Ok(())
}

#[cycle(naming)]
fn put_groups(groups: &[Group], onto: &mut Items<u32>) -> Result<(), Memory>
    ensures { IfOk result (λ u. (w : spec.Within) → onto.new ≡ onto.old ++ naming.groups_locals w groups.now) }
{
    let mut left = groups;
    while let Some((group, rest)) = first_and_rest(left) {
        put_items(group.items.as_slice(), onto)?;
        left = rest;
    }
    Ok(())
}
