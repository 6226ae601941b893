//! Graphs of 4,096 operations: a loop, in which each object is live nearly everywhere; and a function with many returns and
//! many calls.

ghost use Rattle.std.specs.Prelude.{◌<◌};

use crate::parts::{
    NONE, bare, graph, op, put, put_branch, put_function, put_leave, put_loop, put_one, test,
};
use base_io::Memory;
use flow_graph::{Graph, Item, LeaveTo, OpKind, Operand};
use std::alloc::Global;

/// A loop over so many operations, each of which reads one object and writes another.
pub fn long_loop(alloc: Global, count: u32, objects: u32) -> Result<Graph, Memory>
    requires { 0 < objects }
{
    let mut body = Vec::new(alloc);
    for number in 1..count {
        let read = Operand::Object(number.wrapping_mul(7) % objects);
        let dest = Some(number.wrapping_mul(13) % objects);
        put_one(&mut body, op(number, OpKind::Add, dest, read, read))?;
    }
    let back = bare(count, OpKind::Go);
    let mut items = Vec::new(alloc);
    put_loop(
        alloc,
        &mut items,
        test(0, 0),
        body,
        Vec::new(alloc),
        back,
        None,
    )?;
    put_one(&mut items, bare(count.wrapping_add(1), OpKind::Finish))?;
    let mut functions = Vec::new(alloc);
    put_function(alloc, &mut functions, items)?;
    graph(alloc, functions, 0, objects)
}

/// So many returns, each behind a test.
fn returns(alloc: Global, count: u32) -> Result<Vec<Item>, Memory> {
    let mut body = Vec::new(alloc);
    for at in 0..count {
        let number = at.wrapping_mul(2);
        let mut yes = Vec::new(alloc);
        put_leave(
            &mut yes,
            bare(number.wrapping_add(1), OpKind::Ret),
            LeaveTo::Back,
        )?;
        put_branch(&mut body, test(number, 0), yes, Vec::new(alloc))?;
    }
    put_one(&mut body, bare(count.wrapping_mul(2), OpKind::Ret))?;
    Ok(body)
}

/// A function with so many returns, and as many calls of it; each object is read at the end.
pub fn many_calls(alloc: Global, count: u32, objects: u32) -> Result<Graph, Memory> {
    let mut number = count.wrapping_mul(2).wrapping_add(1);
    let mut items = Vec::new(alloc);
    for _at in 0..count {
        let op = bare(number, OpKind::Call);
        put(&mut items, Item::CallTo { op, function: 0 })?;
        number = number.wrapping_add(1);
    }
    for object in 0..objects {
        put_one(
            &mut items,
            op(number, OpKind::Output, None, Operand::Object(object), NONE),
        )?;
        number = number.wrapping_add(1);
    }
    put_one(&mut items, bare(number, OpKind::Finish))?;
    let called = returns(alloc, count)?;
    let mut functions = Vec::new(alloc);
    put_function(alloc, &mut functions, called)?;
    put_function(alloc, &mut functions, items)?;
    graph(alloc, functions, 1, objects)
}
