//! The graph of a small program:
//!
//! ```c
//! unsigned int d(unsigned int x) { return x + x; }
//! unsigned int e(unsigned int y) {
//!     unsigned int a = 0;
//!     if (y) a = d(3); else a = -y;
//!     for (unsigned int i = 0; i < 3; i++) a = a + y;
//!     return a;
//! }
//! unsigned int w(void) { while (z) out(z); return 0; }
//! int main(void) { out(d(4)); e(1); w(); return 0; }
//! ```
//!
//! Objects 0 to 2 are the result of `d`, `x` and the sum; 3 to 7 the result of `e`, `y`, `a`, `i` and the sum; 8 is `z`, and 9 the
//! result of `w`.

use crate::parts::{
    Body, NONE, add, bare, copy, graph, op, put, put_branch, put_function, put_loop, put_one, test,
};
use base_io::Memory;
use flow_graph::{Graph, Item, OpKind, Operand};
use std::alloc::Global;

/// The number of objects.
pub const OBJECTS: u32 = 10;

/// The place of `main`.
pub const MAIN: u32 = 3;

fn doubling(alloc: Global) -> Result<Body, Memory> {
    let mut items = Vec::new(alloc);
    put_one(&mut items, add(0, 2, 1, 1))?;
    put_one(&mut items, copy(1, 0, Operand::Object(2)))?;
    put_one(&mut items, bare(2, OpKind::Ret))?;
    Ok(items)
}

fn put_call(items: &mut Body, number: u32, function: u32) -> Result<(), Memory> {
    let op = bare(number, OpKind::Call);
    put(items, Item::CallTo { op, function })
}

fn put_choice(alloc: Global, items: &mut Body) -> Result<(), Memory> {
    let mut yes = Vec::new(alloc);
    put_one(&mut yes, copy(5, 1, Operand::Const(3)))?;
    put_call(&mut yes, 6, 0)?;
    put_one(&mut yes, copy(7, 5, Operand::Object(0)))?;
    put_one(&mut yes, bare(8, OpKind::Go))?;
    let mut no = Vec::new(alloc);
    let negated = op(9, OpKind::Neg, Some(5), Operand::Object(4), NONE);
    put_one(&mut no, negated)?;
    put_branch(items, test(4, 4), yes, no)
}

fn put_counted(alloc: Global, items: &mut Body) -> Result<(), Memory> {
    let mut turn = Vec::new(alloc);
    put_one(&mut turn, add(12, 7, 5, 4))?;
    put_one(&mut turn, copy(13, 5, Operand::Object(7)))?;
    let mut step = Vec::new(alloc);
    let stepped = op(14, OpKind::Step, Some(6), Operand::Object(6), NONE);
    put_one(&mut step, stepped)?;
    let below = op(
        11,
        OpKind::Below,
        None,
        Operand::Object(6),
        Operand::Const(3),
    );
    let back = bare(15, OpKind::Go);
    put_one(items, copy(10, 6, NONE))?;
    put_loop(alloc, items, below, turn, step, back, Some(3))
}

fn choosing(alloc: Global) -> Result<Body, Memory> {
    let mut items = Vec::new(alloc);
    put_one(&mut items, copy(3, 5, NONE))?;
    put_choice(alloc, &mut items)?;
    put_counted(alloc, &mut items)?;
    put_one(&mut items, copy(16, 3, Operand::Object(5)))?;
    put_one(&mut items, bare(17, OpKind::Ret))?;
    Ok(items)
}

fn output(number: u32, object: u32) -> flow_graph::Op {
    op(number, OpKind::Output, None, Operand::Object(object), NONE)
}

fn waiting(alloc: Global) -> Result<Body, Memory> {
    let mut turn = Vec::new(alloc);
    put_one(&mut turn, output(19, 8))?;
    let mut items = Vec::new(alloc);
    let back = bare(20, OpKind::Go);
    put_loop(
        alloc,
        &mut items,
        test(18, 8),
        turn,
        Vec::new(alloc),
        back,
        None,
    )?;
    put_one(&mut items, copy(21, 9, NONE))?;
    put_one(&mut items, bare(22, OpKind::Ret))?;
    Ok(items)
}

fn main_items(alloc: Global) -> Result<Body, Memory> {
    let mut items = Vec::new(alloc);
    put_one(&mut items, copy(23, 1, Operand::Const(4)))?;
    put_call(&mut items, 24, 0)?;
    put_one(&mut items, output(25, 0))?;
    put_one(&mut items, copy(26, 4, Operand::Const(1)))?;
    put_call(&mut items, 27, 1)?;
    put_call(&mut items, 28, 2)?;
    put_one(&mut items, bare(29, OpKind::Finish))?;
    Ok(items)
}

/// The graph, its functions in the order of the text.
pub fn sample(alloc: Global) -> Result<Graph, Memory> {
    let mut functions = Vec::new(alloc);
    let doubling = doubling(alloc)?;
    put_function(alloc, &mut functions, doubling)?;
    let choosing = choosing(alloc)?;
    put_function(alloc, &mut functions, choosing)?;
    let waiting = waiting(alloc)?;
    put_function(alloc, &mut functions, waiting)?;
    let items = main_items(alloc)?;
    put_function(alloc, &mut functions, items)?;
    graph(alloc, functions, MAIN, OBJECTS)
}
