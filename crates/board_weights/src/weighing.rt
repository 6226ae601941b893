//! The weight of an operation on a board, added to a tally.

ghost use Rattle.std.specs.Prelude.{◌≡◌, ◌++◌, ℕ, length};
ghost use Rattle.item_weights.specs.Weights.{Weight};
ghost use Rattle.item_weights.specs.Tallies.{IsTally};
ghost use Rattle.board_weights.specs.OnBoard.{base_of, flat_number as flat_number_lem, in_array, in_dest, in_operand, own, reads_by, with_reads, with_writes, writes_by};

use crate::numbers::flat_number;
use board_table::Board;
use flow_graph::{ArrayUse, Op, OpKind, Operand};
use item_weights::{FlatRule, OwnWeights, Tally};
use op_cost::{need, overhead};

/// What operations weigh on a board, and which functions are flat on it.
#[derive(Clone, Copy)]
pub struct OnBoard {
    pub board: Board,
}

fn count_operand(operand: Operand) -> u64
    ensures { result ≡ length (in_operand operand) }
{
    match operand {
        Operand::Const(_) => 0,
        Operand::Object(_) => 1,
    }
}

fn count_dest(dest: Option<u32>) -> u64
    ensures { result ≡ length (in_dest dest) }
{
    match dest {
        None => 0,
        Some(_) => 1,
    }
}

fn count_array(array: Option<ArrayUse>) -> u64
    ensures { result ≡ length (in_array array) }
{
    match array {
        None => 0,
        Some(_) => 1,
    }
}

/// How often the operation reads an object.
fn count_reads(op: &Op) -> u64
    ensures { result ≡ length (reads_by op.now.kind op.now) }
{
    match op.kind {
        OpKind::Input | OpKind::Go | OpKind::Call | OpKind::Ret => 0,
        OpKind::Step => count_dest(op.dest),
        OpKind::Load => count_operand(op.a) + count_array(op.array),
        OpKind::Copy
        | OpKind::Neg
        | OpKind::Inv
        | OpKind::ToU8
        | OpKind::ToS8
        | OpKind::Output
        | OpKind::Finish
        | OpKind::Test => count_operand(op.a),
        _ => count_operand(op.a) + count_operand(op.b),
    }
}

/// How often the operation writes an object.
fn count_writes(op: &Op) -> u64
    ensures { result ≡ length (writes_by op.now.kind op.now) }
{
    match op.kind {
        OpKind::Store => count_array(op.array),
        OpKind::Output
        | OpKind::Finish
        | OpKind::Test
        | OpKind::Below
        | OpKind::Go
        | OpKind::Call
        | OpKind::Ret => 0,
        _ => count_dest(op.dest),
    }
}

/// What is left of the operation's cost where its accesses of objects cost nothing.
#[tactic(auto, using(crate::proofs::Adding::base_left))]
fn base(b: &Board, op: &Op) -> u64
    ensures { result ≡ base_of b.now op.now }
{
    let accesses = count_reads(op) * b.access.fram_read + count_writes(op) * b.access.fram_write;
    need(op, b) - overhead(b) - accesses
}

#[tactic(auto, using(crate::proofs::Adding::reads_none, crate::proofs::Adding::reads_one))]
fn read_operand(tally: &mut Tally, operand: Operand)
    ensures { (n : ℕ) (v : Weight) → IsTally n v tally.old → IsTally n (with_reads (in_operand operand) v) tally.new }
{
    if let Operand::Object(object) = operand {
        tally.add_read(object);
    }
}

#[tactic(auto, using(crate::proofs::Adding::reads_none, crate::proofs::Adding::reads_one))]
fn read_dest(tally: &mut Tally, dest: Option<u32>)
    ensures { (n : ℕ) (v : Weight) → IsTally n v tally.old → IsTally n (with_reads (in_dest dest) v) tally.new }
{
    if let Some(object) = dest {
        tally.add_read(object);
    }
}

#[tactic(auto, using(crate::proofs::Adding::reads_none, crate::proofs::Adding::reads_one))]
fn read_array(tally: &mut Tally, array: Option<ArrayUse>)
    ensures { (n : ℕ) (v : Weight) → IsTally n v tally.old → IsTally n (with_reads (in_array array) v) tally.new }
{
    if let Some(array) = array {
        tally.add_read(array.object);
    }
}

#[tactic(auto, using(crate::proofs::Adding::writes_none, crate::proofs::Adding::writes_one))]
fn write_dest(tally: &mut Tally, dest: Option<u32>)
    ensures { (n : ℕ) (v : Weight) → IsTally n v tally.old → IsTally n (with_writes (in_dest dest) v) tally.new }
{
    if let Some(object) = dest {
        tally.add_write(object);
    }
}

#[tactic(auto, using(crate::proofs::Adding::writes_none, crate::proofs::Adding::writes_one))]
fn write_array(tally: &mut Tally, array: Option<ArrayUse>)
    ensures { (n : ℕ) (v : Weight) → IsTally n v tally.old → IsTally n (with_writes (in_array array) v) tally.new }
{
    if let Some(array) = array {
        tally.add_write(array.object);
    }
}

#[tactic(auto, using(crate::proofs::Adding::reads_both))]
fn read_two(tally: &mut Tally, a: Operand, b: Operand)
    ensures { (n : ℕ) (v : Weight) → IsTally n v tally.old → IsTally n (with_reads (in_operand a ++ in_operand b) v) tally.new }
{
    read_operand(tally, a);
    read_operand(tally, b);
}

#[tactic(auto, using(crate::proofs::Adding::reads_both))]
fn read_element(tally: &mut Tally, index: Operand, array: Option<ArrayUse>)
    ensures { (n : ℕ) (v : Weight) → IsTally n v tally.old → IsTally n (with_reads (in_operand index ++ in_array array) v) tally.new }
{
    read_operand(tally, index);
    read_array(tally, array);
}

/// Adds the operation's reads.
#[tactic(auto, using(crate::proofs::Adding::reads_none))]
fn add_reads(tally: &mut Tally, op: &Op)
    ensures { (n : ℕ) (v : Weight) → IsTally n v tally.old → IsTally n (with_reads (reads_by op.now.kind op.now) v) tally.new }
{
    match op.kind {
        OpKind::Input | OpKind::Go | OpKind::Call | OpKind::Ret => {}
        OpKind::Step => read_dest(tally, op.dest),
        OpKind::Load => read_element(tally, op.a, op.array),
        OpKind::Below => read_two(tally, op.b, op.a),
        OpKind::Copy
        | OpKind::Neg
        | OpKind::Inv
        | OpKind::ToU8
        | OpKind::ToS8
        | OpKind::Output
        | OpKind::Finish
        | OpKind::Test => read_operand(tally, op.a),
        _ => read_two(tally, op.a, op.b),
    }
}

/// Adds the operation's writes.
#[tactic(auto, using(crate::proofs::Adding::writes_none))]
fn add_writes(tally: &mut Tally, op: &Op)
    ensures { (n : ℕ) (v : Weight) → IsTally n v tally.old → IsTally n (with_writes (writes_by op.now.kind op.now) v) tally.new }
{
    match op.kind {
        OpKind::Store => write_array(tally, op.array),
        OpKind::Output
        | OpKind::Finish
        | OpKind::Test
        | OpKind::Below
        | OpKind::Go
        | OpKind::Call
        | OpKind::Ret => {}
        _ => write_dest(tally, op.dest),
    }
}

impl OwnWeights for OnBoard {
    ghost own = { λ s. own s.board };

    fn add_to(&self, op: &Op, tally: &mut Tally) {
        tally.add_base(base(&self.board, op));
        add_reads(tally, op);
        add_writes(tally, op);
    }
}

impl FlatRule for OnBoard {
    ghost number_by = { λ s. flat_number_lem s.board };

    fn number(&self, tally: &Tally) -> Option<u64> {
        flat_number(&self.board, tally)
    }
}
