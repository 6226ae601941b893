//! The points inside the template of each kind of operation.

ghost use Rattle.std.specs.Prelude.{◌≡◌, ◌≤◌, ◌+◌, ◌-◌, ◌++◌, ◌∷◌, [], map, OnOk};
ghost use Rattle.certificate.specs.Rows.{point_of};
ghost use Rattle.cert_templates.specs.Frames.{any_fact as any_fact_lem, compared_at, division_at, four as four_lem, inner_by, loop_at, operands as operands_lem, plain_at, ranging as ranging_lem, shift_at, signed_at, trapping_at};
ghost use Rattle.emit_certs.specs.Timed.{code_in};
ghost use Rattle.emit_certs.specs.Framed.{IsFramed, division_by, point_in};

use crate::frame::{Frame, Turning, put_in_loop, put_plain, ranging};
use base_io::Memory;
use certificate::{Fact, PointRow};
use flow_graph::OpKind;
use std::alloc::Global;

fn any_fact(register: u8) -> Fact
    ensures { result ≡ any_fact_lem register }
{
    ranging(register, 0, 65535)
}

// The registers of a loop of sixteen turns.
fn four() -> [Fact; 4]
    ensures { result ≡ four_lem }
{
    [ranging(12, 1, 16), any_fact(13), any_fact(14), any_fact(15)]
}

fn operands() -> [Fact; 2]
    ensures { result ≡ operands_lem }
{
    [any_fact(14), any_fact(15)]
}

// The loop of a division from this instruction on, with what is known in it and behind it.
fn put_division(
    alloc: Global,
    frame: &Frame,
    at: usize,
    turn: &[Fact],
    end: &[Fact],
    to: &mut Vec<PointRow>,
) -> Result<(), Memory>
    requires framed { IsFramed frame.now }
    requires early { at ≤ 96 }
    ensures { OnOk result (map point_of to.new.items ≡ map point_of to.old.items ++ map (point_in frame.now) (division_by frame.now at turn.now end.now)) }
{
    let turning = Turning {
        first: at,
        instructions: 9,
        turns: 16,
        counter: 12,
    };
    put_in_loop(alloc, frame, &turning, at, turn, to)?;
    put_in_loop(alloc, frame, &turning, at + 5, turn, to)?;
    put_in_loop(alloc, frame, &turning, at + 7, turn, to)?;
    put_plain(alloc, frame, at + 9, end, to)
}

// A test of R14 that traps before this instruction.
fn put_trapping(
    alloc: Global,
    frame: &Frame,
    at: usize,
    facts: &[Fact],
    to: &mut Vec<PointRow>,
) -> Result<(), Memory>
    requires framed { IsFramed frame.now }
    requires early { at ≤ 96 }
    ensures { OnOk result (map point_of to.new.items ≡ map point_of to.old.items
        ++ map (point_in frame.now) (trapping_at frame.now.board.now (code_in frame.now.code.now) at facts.now)) }
{
    put_plain(alloc, frame, at, &[], to)?;
    put_plain(alloc, frame, at + 1, facts, to)
}

fn put_multiplying(alloc: Global, frame: &Frame, to: &mut Vec<PointRow>) -> Result<(), Memory>
    requires framed { IsFramed frame.now }
    ensures { OnOk result (map point_of to.new.items ≡ map point_of to.old.items
        ++ map (point_in frame.now) (inner_by OpKind.Mul frame.now.board.now 0 (code_in frame.now.code.now))) }
{
    let turning = Turning {
        first: 4,
        instructions: 7,
        turns: 16,
        counter: 12,
    };
    put_in_loop(alloc, frame, &turning, 4, &four(), to)?;
    put_in_loop(alloc, frame, &turning, 7, &four(), to)?;
    put_plain(alloc, frame, 11, &[any_fact(13)], to)
}

fn put_unsigned(alloc: Global, frame: &Frame, to: &mut Vec<PointRow>) -> Result<(), Memory>
    requires framed { IsFramed frame.now }
    ensures { OnOk result (map point_of to.new.items ≡ map point_of to.old.items
        ++ map (point_in frame.now) (inner_by OpKind.DivU frame.now.board.now 0 (code_in frame.now.code.now))) }
{
    put_trapping(alloc, frame, 4, &operands(), to)?;
    put_division(alloc, frame, 7, &four(), &[any_fact(13), any_fact(15)], to)
}

// What is known besides in the template of a division of signed words: its sign, in R11.
fn signed_operands() -> [Fact; 3]
    ensures { result ≡ any_fact_lem 11 ∷ operands_lem }
{
    [any_fact(11), any_fact(14), any_fact(15)]
}

fn signed_four() -> [Fact; 5]
    ensures { result ≡ any_fact_lem 11 ∷ four_lem }
{
    [
        any_fact(11),
        ranging(12, 1, 16),
        any_fact(13),
        any_fact(14),
        any_fact(15),
    ]
}

// The points of a division of signed words whose operands are made positive from this instruction on, with its result in this register.
fn put_positive(
    alloc: Global,
    frame: &Frame,
    at: usize,
    register: u8,
    to: &mut Vec<PointRow>,
) -> Result<(), Memory>
    requires framed { IsFramed frame.now }
    requires early { at ≤ 20 }
    ensures { OnOk result (map point_of to.new.items ≡ map point_of to.old.items
        ++ map (point_in frame.now) (signed_at frame.now.board.now (code_in frame.now.code.now) at register)) }
{
    put_plain(alloc, frame, at, &signed_operands(), to)?;
    put_plain(alloc, frame, at + 4, &signed_operands(), to)?;
    let end = [any_fact(11), any_fact(13), any_fact(15)];
    put_division(alloc, frame, at + 6, &signed_four(), &end, to)?;
    put_plain(alloc, frame, at + 19, &[any_fact(register)], to)
}

fn put_signed(
    alloc: Global,
    frame: &Frame,
    at: usize,
    register: u8,
    to: &mut Vec<PointRow>,
) -> Result<(), Memory>
    requires framed { IsFramed frame.now }
    requires early { at ≤ 20 }
    ensures { OnOk result (map point_of to.new.items ≡ map point_of to.old.items
        ++ (map (point_in frame.now) (trapping_at frame.now.board.now (code_in frame.now.code.now) 4 operands_lem)
        ++ map (point_in frame.now) (signed_at frame.now.board.now (code_in frame.now.code.now) at register))) }
{
    put_trapping(alloc, frame, 4, &operands(), to)?;
    put_positive(alloc, frame, at, register, to)
}

// A shift whose turn has so many instructions before the two that count.
fn put_shift(
    alloc: Global,
    frame: &Frame,
    shifts: usize,
    to: &mut Vec<PointRow>,
) -> Result<(), Memory>
    requires framed { IsFramed frame.now }
    requires few { shifts ≤ 2 }
    ensures { OnOk result (map point_of to.new.items ≡ map point_of to.old.items ++ map (point_in frame.now) (shift_at frame.now.board.now (code_in frame.now.code.now) shifts)) }
{
    let turning = Turning {
        first: 7,
        instructions: shifts + 2,
        turns: 15,
        counter: 14,
    };
    put_trapping(alloc, frame, 4, &[ranging(14, 0, 15), any_fact(15)], to)?;
    put_in_loop(
        alloc,
        frame,
        &turning,
        7,
        &[ranging(14, 1, 15), any_fact(15)],
        to,
    )?;
    put_plain(alloc, frame, shifts + 9, &[any_fact(15)], to)
}

fn index_below(length: u16) -> Fact
    ensures { result ≡ ranging_lem 14 0 (length - 1) }
{
    let greatest = if length == 0 { 0 } else { length - 1 };
    ranging(14, 0, u64::from(greatest))
}

/// Appends the points inside the template of a kind, whose array has so many elements.
pub fn put_inner(
    alloc: Global,
    kind: OpKind,
    length: u16,
    frame: &Frame,
    to: &mut Vec<PointRow>,
) -> Result<(), Memory>
    requires framed { IsFramed frame.now }
    ensures { OnOk result (map point_of to.new.items ≡ map point_of to.old.items
        ++ map (point_in frame.now) (inner_by kind frame.now.board.now length (code_in frame.now.code.now))) }
{
    match kind {
        OpKind::Mul => put_multiplying(alloc, frame, to),
        OpKind::DivU | OpKind::RemU => put_unsigned(alloc, frame, to),
        OpKind::DivS => put_signed(alloc, frame, 11, 15, to),
        OpKind::RemS => put_signed(alloc, frame, 10, 13, to),
        OpKind::Shl | OpKind::ShrS => put_shift(alloc, frame, 1, to),
        OpKind::ShrU => put_shift(alloc, frame, 2, to),
        OpKind::Eq | OpKind::Ne | OpKind::LtS | OpKind::LtU | OpKind::LeS | OpKind::LeU => {
            put_plain(alloc, frame, 6, &[any_fact(13)], to)
        }
        OpKind::Load => put_trapping(alloc, frame, 3, &[index_below(length)], to),
        OpKind::Store => put_trapping(alloc, frame, 4, &[index_below(length), any_fact(15)], to),
        OpKind::Test => put_plain(alloc, frame, 3, &[], to),
        OpKind::Below => put_plain(alloc, frame, 2, &[], to),
        _ => Ok(()),
    }
}
