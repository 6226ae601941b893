//! A graph as text.

use base_io::Place;
use flow_graph::{ArrayUse, Func, Graph, Item, LeaveTo, Object, Op, Operand};
use std::io;

/// Prints the objects of a graph, and then of each function an operation a line, with its number, kind, destination, operands, array and
/// place. What stands within an item is indented.
pub fn print_graph(rt: &impl Print, g: &Graph) -> io::Result<()> {
    let mut n: u32 = 0;
    for object in g.objects.as_slice() {
        print_object(rt, n, object)?;
        n = n.wrapping_add(1);
    }
    let mut f: u32 = 0;
    for function in g.functions.as_slice() {
        print_function(rt, f, function)?;
        f = f.wrapping_add(1);
    }
    println!(rt; "main {}", g.main)
}

fn print_object(rt: &impl Print, n: u32, object: &Object) -> io::Result<()> {
    print!(rt; "object {n} words {}", object.words)?;
    for word in object.first.as_slice() {
        print!(rt; " {word}")?;
    }
    println!(rt; "")
}

fn print_function(rt: &impl Print, f: u32, function: &Func) -> io::Result<()> {
    println!(rt;
        "function {f} end {}:{}",
        function.end.line, function.end.column
    )?;
    print_items(rt, function.body.as_slice(), 1)
}

#[cycle(items)]
fn print_items(rt: &impl Print, items: &[Item], depth: u32) -> io::Result<()> {
    for item in items {
        print_item(rt, item, depth)?;
    }
    Ok(())
}

fn indent(rt: &impl Print, depth: u32) -> io::Result<()> {
    for _ in 0..depth {
        print!(rt; "  ")?;
    }
    Ok(())
}

fn heading(rt: &impl Print, depth: u32, name: &str) -> io::Result<()> {
    indent(rt, depth)?;
    println!(rt; "{name}")
}

fn print_operand(rt: &impl Print, a: Operand) -> io::Result<()> {
    match a {
        Operand::Const(w) => print!(rt; " {w}"),
        Operand::Object(o) => print!(rt; " [{o}]"),
    }
}

fn print_dest(rt: &impl Print, dest: Option<u32>) -> io::Result<()> {
    match dest {
        None => print!(rt; " -"),
        Some(o) => print!(rt; " [{o}]"),
    }
}

fn print_array(rt: &impl Print, array: Option<ArrayUse>) -> io::Result<()> {
    match array {
        None => print!(rt; " -"),
        Some(array) => print!(rt; " [{}]:{}", array.object, array.length),
    }
}

fn print_place(rt: &impl Print, at: Place) -> io::Result<()> {
    print!(rt; " {}:{}", at.line, at.column)
}

fn print_fields(rt: &impl Print, op: &Op) -> io::Result<()> {
    print!(rt; "{} {:?}", op.number, op.kind)?;
    print_dest(rt, op.dest)?;
    print_operand(rt, op.a)?;
    print_operand(rt, op.b)?;
    print_array(rt, op.array)?;
    print_place(rt, op.place)
}

/// Prints an operation.
pub fn print_op(rt: &impl Print, op: &Op, depth: u32, behind: &str) -> io::Result<()> {
    indent(rt, depth)?;
    print_fields(rt, op)?;
    println!(rt; "{behind}")
}

fn print_call(rt: &impl Print, op: &Op, function: u32, depth: u32) -> io::Result<()> {
    indent(rt, depth)?;
    print_fields(rt, op)?;
    println!(rt; " function {function}")
}

fn way(to: LeaveTo) -> &'static str {
    match to {
        LeaveTo::Break => " break",
        LeaveTo::Continue => " continue",
        LeaveTo::Back => " back",
    }
}

fn print_loop_head(rt: &impl Print, count: Option<u32>, depth: u32) -> io::Result<()> {
    indent(rt, depth)?;
    match count {
        None => println!(rt; "loop"),
        Some(n) => println!(rt; "loop {n}"),
    }
}

#[cycle(items)]
fn print_item(rt: &impl Print, item: &Item, depth: u32) -> io::Result<()> {
    let inner = depth.wrapping_add(1);
    match item {
        Item::One(op) => print_op(rt, op, depth, ""),
        Item::Branch { test, yes, no } => {
            heading(rt, depth, "branch")?;
            print_op(rt, test, inner, "")?;
            heading(rt, depth, "yes")?;
            print_items(rt, yes.as_slice(), inner)?;
            heading(rt, depth, "no")?;
            print_items(rt, no.as_slice(), inner)
        }
        Item::Loop {
            pre,
            test,
            post,
            step,
            back,
            count,
        } => {
            print_loop_head(rt, *count, depth)?;
            print_items(rt, pre.as_slice(), inner)?;
            print_op(rt, test, inner, "")?;
            heading(rt, depth, "post")?;
            print_items(rt, post.as_slice(), inner)?;
            heading(rt, depth, "step")?;
            print_items(rt, step.as_slice(), inner)?;
            print_op(rt, back, inner, "")
        }
        Item::Switch { items } => {
            heading(rt, depth, "switch")?;
            print_items(rt, items.as_slice(), inner)
        }
        Item::CallTo { op, function } => print_call(rt, op, *function, depth),
        Item::Leave { op, to } => print_op(rt, op, depth, way(*to)),
    }
}
