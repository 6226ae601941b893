//! Parts of graphs, put together by hand.

use base_io::{Memory, Place};
use flow_graph::{Func, Graph, Item, Object, Op, OpKind, Operand};
use sqlite_items::Items;
use std::alloc::Global;

/// An operand that isn't used.
pub const NONE: Operand = Operand::Const(0);

/// A function's items.
pub type Body = Vec<Item>;

pub fn op(number: u32, kind: OpKind, dest: Option<u32>, a: Operand, b: Operand) -> Op {
    Op {
        number,
        kind,
        dest,
        a,
        b,
        array: None,
        place: Place { line: 1, column: 1 },
    }
}

/// An operation that neither reads nor writes.
pub fn bare(number: u32, kind: OpKind) -> Op {
    op(number, kind, None, NONE, NONE)
}

pub fn copy(number: u32, dest: u32, from: Operand) -> Op {
    op(number, OpKind::Copy, Some(dest), from, NONE)
}

/// The sum of two objects.
pub fn add(number: u32, dest: u32, a: u32, b: u32) -> Op {
    op(
        number,
        OpKind::Add,
        Some(dest),
        Operand::Object(a),
        Operand::Object(b),
    )
}

/// A test of an object.
pub fn test(number: u32, object: u32) -> Op {
    op(number, OpKind::Test, None, Operand::Object(object), NONE)
}

pub fn put(items: &mut Body, item: Item) -> Result<(), Memory> {
    match items.push(item) {
        Ok(()) => Ok(()),
        Err(_) => Err(Memory),
    }
}

pub fn put_one(items: &mut Body, op: Op) -> Result<(), Memory> {
    put(items, Item::One(op))
}

pub fn put_branch(items: &mut Body, test: Op, yes: Body, no: Body) -> Result<(), Memory> {
    let item = Item::Branch {
        test,
        yes: Items::from_vec(yes),
        no: Items::from_vec(no),
    };
    put(items, item)
}

/// Puts a loop whose test comes first.
pub fn put_loop(
    alloc: Global,
    items: &mut Body,
    test: Op,
    post: Body,
    step: Body,
    back: Op,
    count: Option<u32>,
) -> Result<(), Memory> {
    let item = Item::Loop {
        pre: Items::new(alloc),
        test,
        post: Items::from_vec(post),
        step: Items::from_vec(step),
        back,
        count,
    };
    put(items, item)
}

fn put_object(objects: &mut Vec<Object>, object: Object) -> Result<(), Memory> {
    match objects.push(object) {
        Ok(()) => Ok(()),
        Err(_) => Err(Memory),
    }
}

fn objects(alloc: Global, count: u32) -> Result<Items<Object>, Memory> {
    let mut made = Vec::new(alloc);
    for _at in 0..count {
        let first = Items::new(alloc);
        put_object(&mut made, Object { words: 1, first })?;
    }
    Ok(Items::from_vec(made))
}

pub fn put_function(alloc: Global, functions: &mut Vec<Func>, body: Body) -> Result<(), Memory> {
    let func = Func {
        name: Items::new(alloc),
        body: Items::from_vec(body),
        end: Place { line: 1, column: 1 },
    };
    match functions.push(func) {
        Ok(()) => Ok(()),
        Err(_) => Err(Memory),
    }
}

/// A graph of these functions over so many objects of one word.
pub fn graph(
    alloc: Global,
    functions: Vec<Func>,
    main: u32,
    objects_count: u32,
) -> Result<Graph, Memory> {
    let functions = Items::from_vec(functions);
    let objects = objects(alloc, objects_count)?;
    Ok(Graph {
        objects,
        functions,
        main,
    })
}
