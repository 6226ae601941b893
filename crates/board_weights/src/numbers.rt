//! The number of a flat function on a board.

ghost use Rattle.std.specs.Prelude.{◌≡◌, ◌+◌, ◌*◌, ◌≤◌, ◌↔◌, ℕ, IsTrue, length, slice_index};
ghost use Rattle.op_cost.specs.Weights.{overhead as overhead_lem};
ghost use Rattle.item_weights.specs.Weights.{Weight, kept};
ghost use Rattle.item_weights.specs.Tallies.{IsTally};
ghost use Rattle.board_weights.specs.OnBoard.{call_cost, flat_number, fram_cost};
ghost use Rattle.board_weights.specs.Sums.{uses_sum};

use board_table::Board;
use item_weights::{Tally, product, sum};
use msp430_isa::{Instr, OneOp, Src};
use msp430_machine::instruction_cost;
use op_cost::overhead;

/// What the reads and the writes of one object cost in FRAM, at most 2^63.
fn object_cost(b: &Board, reads: u64, writes: u64) -> u64
    ensures { result ≡ kept (kept (reads * b.now.access.fram_read) + kept (writes * b.now.access.fram_write)) }
{
    sum(
        product(reads, b.access.fram_read),
        product(writes, b.access.fram_write),
    )
}

fn number_at(numbers: &[u64], at: usize) -> u64
    ensures { result ≡ slice_index numbers.now at }
{
    numbers.get(at).copied().unwrap_or(0)
}

/// What the reads and the writes of all objects cost in FRAM, at most 2^63.
fn uses_cost(b: &Board, reads: &[u64], writes: &[u64]) -> u64
    ensures { result ≡ uses_sum b.now reads.now writes.now (length reads.now) }
{
    let mut total = 0;
    for at in 0..reads.len() {
        total = sum(object_cost(b, reads[at], number_at(writes, at)), total);
    }
    total
}

/// What a tally costs where every object is in FRAM, at most 2^63.
fn tally_cost(b: &Board, tally: &Tally) -> u64
    ensures { (n : ℕ) (w : Weight) → IsTally n w tally.now → result ≡ kept (fram_cost b.now n w) }
{
    sum(
        tally.base,
        uses_cost(b, tally.reads.as_slice(), tally.writes.as_slice()),
    )
}

/// What the call of a function costs, in energy units.
fn call_cost(b: &Board) -> u64
    ensures cost { result ≡ call_cost b.now }
    ensures small { result ≤ 7000000 }
{
    instruction_cost(
        b,
        Instr::One {
            op: OneOp::Call,
            byte: false,
            src: Src::Imm(0),
        },
    )
}

/// Whether one charge pays for a call that costs so much, and for a wake and a sleep.
fn pays(b: &Board, cost: u64) -> bool
    ensures { IsTrue result ↔ (call_cost b.now + cost + overhead_lem b.now ≤ b.now.budget) }
{
    cost <= b.budget && call_cost(b) + cost + overhead(b) <= b.budget
}

/// The number of a function whose body is weighed: what it costs with every object in FRAM, where one charge pays for that, for
/// its call, and for a wake and a sleep.
#[tactic(auto, using(crate::proofs::Adding::number_fits, crate::proofs::Adding::number_none))]
pub fn flat_number(b: &Board, tally: &Tally) -> Option<u64>
    ensures { (n : ℕ) (w : Weight) → IsTally n w tally.now → result ≡ flat_number b.now n w }
{
    let cost = tally_cost(b, tally);
    if pays(b, cost) { Some(cost) } else { None }
}
