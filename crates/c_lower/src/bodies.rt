//! The bodies of functions.
ghost use Rattle.std.specs.Prelude.{◌≡◌, ◌++◌, ◌∷◌, [], IfOk};
ghost use Rattle.c_tree.specs.declared.tree.StmtKind.{out-StmtKind};
ghost use Rattle.c_tree.specs.declared.tree.BlockItem.{out-BlockItem};
ghost use Rattle.sound_programs.specs.Counted.{ends_in_return, is_return_item};
ghost use Rattle.lowered_graphs.specs.GraphOf as spec;
ghost use Rattle.c_lower.specs.Adding.{AddsBody};
ghost use Rattle.c_lower.specs.Emitting.{Emits};

use crate::homes::result_home;
use crate::lists::first_and_rest;
use crate::making::{Making, ZERO, copy_into, one};
use crate::numbering::{add_named, add_temporaries, count_of, globals};
use crate::reached::{is_marked, next};
use crate::stmts::stmt;
use base_io::Memory;
use c_tree::{BlockItem, Function, Program, StmtKind};
use flow_graph::{Func, OpKind};
use lowered_graphs::{Homes, Numbering, Position};
use sqlite_items::Items;
use std::alloc::Global;

fn is_return(item: &BlockItem) -> bool
    ensures { result ≡ is_return_item (out-BlockItem item.now) }
{
    match item {
        BlockItem::Act(s) => match &s.kind {
            StmtKind::Return(_) => true,
            _ => false,
        },
        _ => false,
    }
}

/// Whether the last of the items is a `return`.
fn items_return(items: &[BlockItem]) -> bool
    ensures { result ≡ ends_in_return items.now }
{
    let mut left = items;
    while let Some((item, rest)) = first_and_rest(left) {
        if rest.is_empty() {
            return is_return(item);
        }
        left = rest;
    }
    false
}

fn ends_by_return(kind: &StmtKind) -> bool
    ensures { result ≡ spec.ends_by (out-StmtKind kind.now) }
{
    match kind {
        StmtKind::Block(items) => items_return(items.as_slice()),
        _ => false,
    }
}

/// The return that is implied in a function other than `main`.
fn implied_return(
    p: &Program,
    homes: &Homes,
    n: u32,
    f: &Function,
    to: &mut Making,
) -> Result<(), Memory>
    ensures { IfOk result (λ u. Emits (spec.implied_return (spec.within_of p.now homes.now n) f.now) tt to.old to.new) }
{
    if f.result.is_some() {
        copy_into(result_home(homes, n), ZERO, f.end, to)?;
    }
    one(OpKind::Ret, None, ZERO, ZERO, None, f.end, to)
}

/// The return that is implied.
fn implied(p: &Program, homes: &Homes, n: u32, f: &Function, to: &mut Making) -> Result<(), Memory>
    ensures { IfOk result (λ u. Emits (spec.implied (spec.within_of p.now homes.now n) f.now) tt to.old to.new) }
{
    if n == p.main {
        one(OpKind::Finish, None, ZERO, ZERO, None, f.end, to)
    } else {
        implied_return(p, homes, n, f, to)
    }
}

/// A body that doesn't end in `return` returns behind its end.
fn body(p: &Program, homes: &Homes, n: u32, f: &Function, to: &mut Making) -> Result<(), Memory>
    ensures { IfOk result (λ u. Emits (spec.body (spec.within_of p.now homes.now n) f.now) tt to.old to.new) }
{
    stmt(p, homes, n, &f.body, Position::Body, to)?;
    if ends_by_return(&f.body.kind) {
        Ok(())
    } else {
        implied(p, homes, n, f, to)
    }
}

/// How many temporaries a body has: it is lowered without objects, and its operations are let go.
pub fn temporaries(alloc: Global, p: &Program, n: u32, f: &Function) -> Result<u32, Memory>
    ensures { IfOk result (λ count. count ≡ spec.temporaries p.now n f.now) }
{
    let homes = Homes {
        variables: Items::new(alloc),
        results: Items::new(alloc),
        places: Items::new(alloc),
    };
    let mut to = Making::new(alloc, 0, 0);
    body(p, &homes, n, f, &mut to)?;
    Ok(to.next_temporary())
}

fn put_function(functions: &mut Items<Func>, function: Func) -> Result<(), Memory>
    ensures { IfOk result (λ u. functions.new ≡ functions.old ++ function ∷ []) }
{
    match functions.push(function) {
        Ok(_) => Ok(()),
        Err(_) => Err(Memory),
    }
}

fn name_of(alloc: Global, f: &Function) -> Result<Items<u8>, Memory>
    ensures { IfOk result (λ name. name ≡ f.now.name) }
{
    match Items::from_slice(alloc, f.name.as_slice()) {
        Ok(name) => Ok(name),
        Err(_) => Err(Memory),
    }
}

/// A function's body, and the number behind its last operation.
fn function_of(
    alloc: Global,
    p: &Program,
    homes: &Homes,
    n: u32,
    op: u32,
    temp: u32,
    f: &Function,
) -> Result<(Func, u32), Memory>
    ensures func { IfOk result (λ made. made.0 ≡ spec.func_of f.now (spec.made_function p.now homes.now n op temp f.now)) }
    ensures next { IfOk result (λ made. made.1 ≡ (spec.made_function p.now homes.now n op temp f.now).counts.op) }
{
    let name = name_of(alloc, f)?;
    let mut to = Making::new(alloc, op, temp);
    body(p, homes, n, f, &mut to)?;
    let behind = to.next_number();
    Ok((
        Func {
            name,
            body: to.into_items(),
            end: f.end,
        },
        behind,
    ))
}

/// A function that is reached goes behind those made, and its objects behind those numbered.
fn add_body(
    alloc: Global,
    p: &Program,
    homes: &Homes,
    n: u32,
    op: u32,
    f: &Function,
    m: &mut Numbering,
    functions: &mut Items<Func>,
) -> Result<u32, Memory>
    ensures objects { IfOk result (λ behind. m.new ≡ spec.add_function p.now n f.now m.old) }
    ensures functions { IfOk result (λ behind. functions.new ≡ functions.old ++ spec.func_of f.now (spec.made_function p.now homes.now n op (spec.objects_before p.now n f.now m.old) f.now) ∷ []) }
    ensures next { IfOk result (λ behind. behind ≡ (spec.made_function p.now homes.now n op (spec.objects_before p.now n f.now m.old) f.now).counts.op) }
{
    add_named(alloc, p, n, f, m)?;
    let temp = count_of(m)?;
    let (function, behind) = function_of(alloc, p, homes, n, op, temp, f)?;
    put_function(functions, function)?;
    let count = temporaries(alloc, p, n, f)?;
    add_temporaries(alloc, count, m)?;
    Ok(behind)
}

/// A function goes behind those made where it is reached.
fn add_reached(
    alloc: Global,
    p: &Program,
    homes: &Homes,
    marks: &[bool],
    n: u32,
    op: u32,
    f: &Function,
    m: &mut Numbering,
    functions: &mut Items<Func>,
) -> Result<u32, Memory>
    requires { marks.now ≡ spec.reached p.now }
    ensures { IfOk result (λ behind. AddsBody p.now homes.now n op behind f.now m.old m.new functions.old functions.new) }
{
    if is_marked(marks, n) {
        let behind = add_body(alloc, p, homes, n, op, f, m, functions)?;
        Ok(behind)
    } else {
        Ok(op)
    }
}

/// The functions that are reached, and the number of their operations.
pub fn bodies(
    alloc: Global,
    p: &Program,
    homes: &Homes,
    marks: &[bool],
) -> Result<(Items<Func>, u32), Memory>
    requires marks { marks.now ≡ spec.reached p.now }
    requires homes { homes.now ≡ spec.homes_of p.now }
    ensures functions { IfOk result (λ made. made.0 ≡ (spec.bodies p.now).functions) }
    ensures count { IfOk result (λ made. made.1 ≡ (spec.bodies p.now).ops) }
{
    let mut m = globals(alloc, p)?;
    let mut functions = Items::new(alloc);
    let mut left = p.functions.as_slice();
    let mut n: u32 = 0;
    let mut op: u32 = 0;
    while let Some((f, rest)) = first_and_rest(left) {
        op = add_reached(alloc, p, homes, marks, n, op, f, &mut m, &mut functions)?;
        n = next(n)?;
        left = rest;
    }
    Ok((functions, op))
}
