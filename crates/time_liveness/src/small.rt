//! Small graphs, whose rows can be told by hand.

use crate::parts::{
    NONE, bare, graph, op, put, put_branch, put_function, put_leave, put_loop, put_one, store, test,
};
use base_io::Memory;
use flow_graph::{Graph, Item, LeaveTo, OpKind, Operand};
use std::alloc::Global;

fn main_alone(alloc: Global, items: Vec<Item>, objects: u32) -> Result<Graph, Memory> {
    let mut functions = Vec::new(alloc);
    put_function(alloc, &mut functions, items)?;
    graph(alloc, functions, 0, objects)
}

fn copy(number: u32, dest: u32, from: Operand) -> flow_graph::Op {
    op(number, OpKind::Copy, Some(dest), from, NONE)
}

fn output(number: u32, object: u32) -> flow_graph::Op {
    op(number, OpKind::Output, None, Operand::Object(object), NONE)
}

/// A loop with this count that stores a word into an array in each turn. Object 0 is what it counts, 1 the word, 2 the array.
pub fn counted(alloc: Global, count: u16) -> Result<Graph, Memory> {
    let mut turn = Vec::new(alloc);
    put_one(
        &mut turn,
        store(2, 2, Operand::Object(1), Operand::Object(0)),
    )?;
    let mut step = Vec::new(alloc);
    put_one(
        &mut step,
        op(3, OpKind::Step, Some(0), Operand::Object(0), NONE),
    )?;
    let below = op(
        1,
        OpKind::Below,
        None,
        Operand::Object(0),
        Operand::Const(count),
    );
    let mut items = Vec::new(alloc);
    put_one(&mut items, copy(0, 0, NONE))?;
    put_loop(
        alloc,
        &mut items,
        below,
        turn,
        step,
        bare(4, OpKind::Go),
        Some(count as u32),
    )?;
    put_one(&mut items, output(5, 1))?;
    put_one(&mut items, bare(6, OpKind::Finish))?;
    main_alone(alloc, items, 3)
}

/// A return out of two loops. Object 0 is the result, 1 what the outer loop tests, 2 what the inner loop tests.
pub fn leave_of_two(alloc: Global) -> Result<Graph, Memory> {
    let mut inner = Vec::new(alloc);
    put_leave(&mut inner, bare(2, OpKind::Ret), LeaveTo::Back)?;
    let mut outer = Vec::new(alloc);
    put_loop(
        alloc,
        &mut outer,
        test(1, 2),
        inner,
        Vec::new(alloc),
        bare(3, OpKind::Go),
        None,
    )?;
    let mut step = Vec::new(alloc);
    put_one(&mut step, copy(4, 1, NONE))?;
    let mut called = Vec::new(alloc);
    put_loop(
        alloc,
        &mut called,
        test(0, 1),
        outer,
        step,
        bare(5, OpKind::Go),
        None,
    )?;
    put_one(&mut called, copy(6, 0, Operand::Object(2)))?;
    put_one(&mut called, bare(7, OpKind::Ret))?;
    let mut items = Vec::new(alloc);
    let op = bare(8, OpKind::Call);
    put(&mut items, Item::CallTo { op, function: 0 })?;
    put_one(&mut items, output(9, 0))?;
    put_one(&mut items, bare(10, OpKind::Finish))?;
    two_functions(alloc, called, items)
}

fn two_functions(alloc: Global, called: Vec<Item>, items: Vec<Item>) -> Result<Graph, Memory> {
    let mut functions = Vec::new(alloc);
    put_function(alloc, &mut functions, called)?;
    put_function(alloc, &mut functions, items)?;
    graph(alloc, functions, 1, 3)
}

/// The group of a switch, with a break inside it.
fn group(alloc: Global) -> Result<Vec<Item>, Memory> {
    let mut leave = Vec::new(alloc);
    put_leave(&mut leave, bare(4, OpKind::Go), LeaveTo::Break)?;
    let mut yes = Vec::new(alloc);
    put_branch(&mut yes, test(3, 1), leave, Vec::new(alloc))?;
    put_one(&mut yes, copy(5, 2, Operand::Const(1)))?;
    put_one(&mut yes, bare(6, OpKind::Go))?;
    Ok(yes)
}

/// A switch with a group and a default. Object 0 is its value, 1 what the group tests, 2 what it writes, 3 the test of the group.
pub fn switched(alloc: Global) -> Result<Graph, Memory> {
    let yes = group(alloc)?;
    let mut no = Vec::new(alloc);
    put_one(&mut no, output(7, 0))?;
    let mut groups = Vec::new(alloc);
    put_one(
        &mut groups,
        op(
            1,
            OpKind::Eq,
            Some(3),
            Operand::Object(0),
            Operand::Const(1),
        ),
    )?;
    put_branch(&mut groups, test(2, 3), yes, no)?;
    let mut items = Vec::new(alloc);
    put_one(&mut items, copy(0, 0, Operand::Object(1)))?;
    put_switch(&mut items, groups)?;
    put_one(&mut items, output(8, 2))?;
    put_one(&mut items, bare(9, OpKind::Finish))?;
    main_alone(alloc, items, 4)
}

fn put_switch(items: &mut Vec<Item>, groups: Vec<Item>) -> Result<(), Memory> {
    let items_of = sqlite_items::Items::from_vec(groups);
    put(items, Item::Switch { items: items_of })
}

/// A function that returns in two places and is called twice. Object 0 is what it tests, 1 what it writes and what is read behind
/// the first call, 2 what is read behind the second.
pub fn called_twice(alloc: Global) -> Result<Graph, Memory> {
    let mut yes = Vec::new(alloc);
    put_leave(&mut yes, bare(1, OpKind::Ret), LeaveTo::Back)?;
    let mut called = Vec::new(alloc);
    put_branch(&mut called, test(0, 0), yes, Vec::new(alloc))?;
    put_one(&mut called, copy(2, 1, Operand::Const(1)))?;
    put_one(&mut called, bare(3, OpKind::Ret))?;
    let mut items = Vec::new(alloc);
    let first = bare(4, OpKind::Call);
    put(
        &mut items,
        Item::CallTo {
            op: first,
            function: 0,
        },
    )?;
    put_one(&mut items, output(5, 1))?;
    let second = bare(6, OpKind::Call);
    put(
        &mut items,
        Item::CallTo {
            op: second,
            function: 0,
        },
    )?;
    put_one(&mut items, output(7, 2))?;
    put_one(&mut items, bare(8, OpKind::Finish))?;
    two_functions(alloc, called, items)
}
