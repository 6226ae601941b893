//! What code costs.

ghost use Rattle.std.specs.Prelude.{◌≡◌, ◌≤◌, ◌*◌, length, sum_by};
ghost use Rattle.msp430_machine.specs.Cost.{instruction_cost as instruction_cost_lem};

use board_table::Board;
use msp430_isa::Instr;
use msp430_machine::instruction_cost;

/// What instructions cost together, in energy units, where a register that an address is made of counts as 0.
pub fn weigh(b: &Board, code: &[Instr]) -> u64
    requires few { length code.now ≤ 32 }
    ensures cost { result ≡ sum_by (λ i. instruction_cost_lem b.now i) code.now }
    ensures small { result ≤ 7000000 * length code.now }
{
    let mut cost = 0;
    for instr in code {
        cost += instruction_cost(b, *instr);
    }
    cost
}
