//! Where the operations of a section lead.

ghost use Rattle.std.specs.Prelude.{◌≡◌, ◌≤◌, ◌+◌, ◌-◌, ◌^◌, slice_get};
ghost use Rattle.flow_graph.specs.Nodes.{first_in};
ghost use Rattle.plan_positions.specs.Listed.{end_goal_by, front_by, exit_by, inner_goal_by, inside_by};

use crate::position::Goal;
use crate::section::{Section, Shape};
use flow_graph::{Func, Next, first};

/// The number of the first position of a section; the numbers of its first operation and of the one behind it; how many of its
/// positions stand before its first operation, and how many before what is done where it is left by falling through or by
/// the test of a loop.
#[derive(Clone, Copy)]
pub struct Frame {
    pub at: u64,
    pub first: u32,
    pub behind: u32,
    pub front: u64,
    pub exit: u64,
}

/// How many positions stand before the first operation, where so many objects are restored.
fn front_size(shape: Shape, restored: u64) -> u64
    requires few { restored ≤ 2 ^ 20 }
    ensures size { result ≡ front_by shape restored }
    ensures small { result ≤ 2 + 2 ^ 20 }
{
    match shape {
        Shape::Callee => 0,
        Shape::Straight { ends: _ } => 1 + restored,
        Shape::Rounds { turns: _ } => 2 + restored,
    }
}

/// How many positions stand before the exit, where so many operations follow these positions and so many objects are saved.
fn exit_size(shape: Shape, front: u64, count: u32, saved: u64) -> u64
    requires front { front ≤ 2 + 2 ^ 20 }
    requires few { saved ≤ 2 ^ 20 }
    ensures size { result ≡ exit_by shape front count saved }
    ensures small { result ≤ 2 ^ 33 }
{
    match shape {
        Shape::Rounds { turns: _ } => front + (u64::from(count) + (2 + saved)),
        _ => front + u64::from(count),
    }
}

/// The frame of a section whose first position has this number, where so many objects are restored and saved.
pub fn frame_of(at: u64, section: &Section, restored: usize, saved: usize) -> Frame
    requires restored { restored ≤ 2 ^ 20 }
    requires saved { saved ≤ 2 ^ 20 }
    ensures at { result.at ≡ at }
    ensures first { result.first ≡ section.now.first }
    ensures behind { result.behind ≡ section.now.behind }
    ensures front { result.front ≡ front_by section.now.shape restored }
    ensures exit { result.exit ≡ exit_by section.now.shape (front_by section.now.shape restored) (section.now.behind - section.now.first) saved }
    ensures small_front { result.front ≤ 2 ^ 33 }
    ensures small_exit { result.exit ≤ 2 ^ 33 }
{
    let front = front_size(section.shape, restored as u64);
    let count = section.behind.saturating_sub(section.first);
    Frame {
        at,
        first: section.first,
        behind: section.behind,
        front,
        exit: exit_size(section.shape, front, count, saved as u64),
    }
}

/// To an operation of the section, or to the one behind it.
fn inside(f: Frame, number: u32) -> Goal
    requires at { f.at ≤ 2 ^ 40 }
    requires front { f.front ≤ 2 ^ 33 }
    requires exit { f.exit ≤ 2 ^ 33 }
    ensures { result ≡ inside_by f number }
{
    if number < f.behind {
        let before = number.saturating_sub(f.first);
        Goal::To(f.at + (f.front + u64::from(before)))
    } else {
        Goal::To(f.at + f.exit)
    }
}

/// The operation that a function begins with.
fn entry_of(functions: &[Func], function: u32) -> u32
    ensures { result ≡ first_in (slice_get functions.now function) }
{
    match functions.get(function as usize) {
        None => 0,
        Some(func) => first(func.body.as_slice(), 0),
    }
}

/// Where an operation leads that ends no chain.
pub fn inner_goal(f: Frame, functions: &[Func], next: Next) -> Goal
    requires at { f.at ≤ 2 ^ 40 }
    requires front { f.front ≤ 2 ^ 33 }
    requires exit { f.exit ≤ 2 ^ 33 }
    ensures { result ≡ inner_goal_by f functions.now next }
{
    match next {
        Next::To(number) => inside(f, number),
        Next::Either { passed: _, failed } => inside(f, failed),
        Next::Into {
            function,
            behind: _,
        } => Goal::Enters(entry_of(functions, function)),
        Next::Returns => Goal::Nowhere,
        Next::Ends => Goal::Nowhere,
    }
}

/// Where an operation leads that ends a chain.
pub fn end_goal(functions: &[Func], next: Next) -> Goal
    ensures { result ≡ end_goal_by functions.now next }
{
    match next {
        Next::To(number) => Goal::Enters(number),
        Next::Either { passed: _, failed } => Goal::Enters(failed),
        Next::Into {
            function,
            behind: _,
        } => Goal::Enters(entry_of(functions, function)),
        Next::Returns => Goal::Nowhere,
        Next::Ends => Goal::Nowhere,
    }
}
