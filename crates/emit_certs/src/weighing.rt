//! What code costs, and how many bytes it has.

ghost use Rattle.std.specs.Prelude.{◌≡◌, ◌≤◌, ◌*◌, drop, length, take};
ghost use Rattle.msp430_machine.specs.Cost.{instruction_cost as instruction_cost_lem};
ghost use Rattle.cert_rules.specs.Overhead.{cost_sum};
ghost use Rattle.op_cost.specs.Templates.{code_of, weight_of};
ghost use Rattle.cert_templates.specs.Frames.{bytes_of_code};
ghost use Rattle.emit_certs.specs.Timed.{code_in};

use crate::code::Timed;
use board_table::Board;
use msp430_isa::length_of;
use msp430_machine::instruction_cost;

/// The first so many instructions.
pub fn first(code: &[Timed], count: usize) -> &[Timed]
    ensures { result.now ≡ take count code.now }
{
    if count < code.len() {
        &code[..count]
    } else {
        code
    }
}

/// The instructions behind the first so many.
pub fn behind(code: &[Timed], count: usize) -> &[Timed]
    ensures { result.now ≡ drop count code.now }
{
    if count < code.len() {
        &code[count..]
    } else {
        &[]
    }
}

#[tactic(auto, using(crate::proofs::Costs::timed_small))]
fn counted_cost(b: &Board, timed: Timed) -> u64
    ensures cost { result ≡ timed.times * instruction_cost_lem b.now timed.instr }
    ensures small { result ≤ 1785000000 }
{
    u64::from(timed.times) * instruction_cost(b, timed.instr)
}

/// What code costs, each instruction counted as often as it says.
pub fn weight(b: &Board, code: &[Timed]) -> u64
    requires few { length code.now ≤ 96 }
    ensures weight { result ≡ weight_of b.now (code_in code.now) }
    ensures small { result ≤ 1785000000 * length code.now }
{
    let mut sum = 0;
    let mut left = code;
    while let [timed, rest @ ..] = left {
        sum += counted_cost(b, *timed);
        left = rest;
    }
    sum
}

/// What code costs, each instruction counted once.
pub fn cost(b: &Board, code: &[Timed]) -> u64
    requires few { length code.now ≤ 96 }
    ensures cost { result ≡ cost_sum b.now (code_of (code_in code.now)) }
    ensures small { result ≤ 7000000 * length code.now }
{
    let mut sum = 0;
    let mut left = code;
    while let [timed, rest @ ..] = left {
        sum += instruction_cost(b, timed.instr);
        left = rest;
    }
    sum
}

/// The bytes of code.
pub fn bytes(code: &[Timed]) -> u16
    requires few { length code.now ≤ 96 }
    ensures bytes { result ≡ bytes_of_code (code_of (code_in code.now)) }
    ensures small { result ≤ 6 * length code.now }
{
    let mut sum = 0;
    let mut left = code;
    while let [timed, rest @ ..] = left {
        sum += 2 * u16::from(length_of(timed.instr));
        left = rest;
    }
    sum
}
