//! Shows the liveness of small graphs, or times that of large ones. It reads words, one to a line: `rows` prints, of each
//! operation of five small graphs, the objects that are live before and behind it; `times` prints the milliseconds that
//! the liveness of graphs of 4,096 operations takes.
#![tactic(auto)]

use base_io::Memory;
use flow_graph::Graph;
use live_objects::{Liveness, live};
use std::alloc::Global;
use std::io;
use std::time::{Clock, Instant};

mod large;
mod parts;
mod small;

use large::{long_loop, many_calls};
use small::{called_twice, counted, leave_of_two, switched};

/// Prints the objects that are live before or behind an operation.
fn print_objects(
    rt: &impl Print,
    l: &Liveness,
    is_behind: bool,
    op: u32,
    objects: u32,
) -> io::Result<()> {
    for object in 0..objects {
        let is_live = if is_behind {
            l.after(op, object)
        } else {
            l.before(op, object)
        };
        if is_live {
            print!(rt; " {object}")?;
        }
    }
    Ok(())
}

fn print_rows(rt: &impl Print, l: &Liveness, objects: u32) -> io::Result<()> {
    let operations = u32::try_from(l.operations.len()).unwrap_or(0);
    for op in 0..operations {
        print!(rt; "{op} before")?;
        print_objects(rt, l, false, op, objects)?;
        print!(rt; " behind")?;
        print_objects(rt, l, true, op, objects)?;
        println!(rt; "")?;
    }
    Ok(())
}

fn show(rt: &impl Print, alloc: Global, name: &str, g: Result<Graph, Memory>) -> io::Result<()> {
    let Ok(g) = g else {
        return println!(rt; "no memory");
    };
    println!(rt; "{name}")?;
    let Ok(l) = live(alloc, &g) else {
        return println!(rt; "no memory");
    };
    let objects = if g.objects.len() < 10 {
        g.objects.len() as u32
    } else {
        10
    };
    print_rows(rt, &l, objects)
}

fn rows(rt: &impl Print, alloc: Global) -> io::Result<()> {
    show(rt, alloc, "a loop of count 0", counted(alloc, 0))?;
    show(rt, alloc, "a loop of count 1", counted(alloc, 1))?;
    show(rt, alloc, "a return out of two loops", leave_of_two(alloc))?;
    show(rt, alloc, "a switch", switched(alloc))?;
    show(rt, alloc, "a function called twice", called_twice(alloc))
}

/// How many of the first objects are live before an operation of the same number.
fn marks(alloc: Global, g: &Graph) -> Result<u32, Memory> {
    let mut shown = 0u32;
    let l = live(alloc, g)?;
    for at in 0..50 {
        if l.before(at, at) {
            shown = shown.wrapping_add(1);
        }
    }
    Ok(shown)
}

fn time(
    rt: &(impl Print + Clock),
    alloc: Global,
    name: &str,
    g: Result<Graph, Memory>,
) -> io::Result<()> {
    let Ok(g) = g else {
        return println!(rt; "no memory");
    };
    let start = Instant::now(rt)?;
    let shown = marks(alloc, &g).unwrap_or(0);
    let spent = start.elapsed(rt)?;
    let ms = spent.as_millis();
    println!(rt; "{name}: {ms} ms ({shown})")
}

fn times(rt: &(impl Print + Clock), alloc: Global) -> io::Result<()> {
    time(
        rt,
        alloc,
        "a loop of 4,096 operations, 1,000 objects",
        long_loop(alloc, 4094, 1000),
    )?;
    time(
        rt,
        alloc,
        "a loop of 4,096 operations, 5,000 objects",
        long_loop(alloc, 4094, 5000),
    )?;
    time(
        rt,
        alloc,
        "1,000 returns, 1,000 calls, 1,000 objects",
        many_calls(alloc, 1000, 1000),
    )
}

fn main(rt: HostRuntime) -> io::Result<()> {
    let alloc = rt.alloc();
    for line in rt.lines(alloc) {
        let word = line?;
        match word.as_str() {
            "rows" => rows(&rt, alloc)?,
            "times" => times(&rt, alloc)?,
            _ => println!(rt; "rows or times")?,
        }
    }
    Ok(())
}
