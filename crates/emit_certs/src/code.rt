//! The code of an operation, with how often the cost of each instruction is counted.

ghost use Rattle.std.specs.Prelude.{◌≡◌, ◌≤◌, length, IfOk};
ghost use Rattle.emit_certs.specs.Timed.{looped as looped_lem, times_in as times_in_lem};

use flow_graph::OpKind;
use msp430_isa::Instr;

/// An instruction of a template, and how often its cost is counted: a loop inside a template counts each of its own 15 or 16 times.
#[derive(Clone, Copy)]
pub struct Timed {
    pub instr: Instr,
    pub times: u8,
}

fn looped(first: usize, instructions: usize, turns: u8, index: usize) -> u8
    ensures { result ≡ looped_lem first instructions turns index }
{
    if first <= index && index - first < instructions {
        turns
    } else {
        1
    }
}

pub fn times_in(kind: OpKind, index: usize) -> u8
    ensures { result ≡ times_in_lem kind index }
{
    match kind {
        OpKind::Mul => looped(4, 7, 16, index),
        OpKind::DivU | OpKind::RemU => looped(7, 9, 16, index),
        OpKind::DivS => looped(17, 9, 16, index),
        OpKind::RemS => looped(16, 9, 16, index),
        OpKind::Shl | OpKind::ShrS => looped(7, 3, 15, index),
        OpKind::ShrU => looped(7, 4, 15, index),
        _ => 1,
    }
}
