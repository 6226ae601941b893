//! What waking and sleeping cost.
ghost use Rattle.std.specs.Prelude.{◌≡◌, ◌≤◌, false};
ghost use Rattle.cert_rules.specs.Overhead.{sleep_cost as sleep_cost_lem, wake_cost as wake_cost_lem};

use board_table::Board;
use msp430_isa::{Cond, Dst, Instr, Src, TwoOp};
use msp430_machine::{GATE, RESUME, SAVED_SP, instruction_cost};

fn two(op: TwoOp, src: Src, dst: Dst) -> Instr
    ensures { result ≡ Instr.Two op false src dst }
{
    Instr::Two {
        op,
        byte: false,
        src,
        dst,
    }
}

/// What boot's first four instructions and the last one of a head cost.
pub fn wake_cost(b: &Board) -> u64
    ensures value { result ≡ wake_cost_lem b.now }
    ensures small { result ≤ 35000000 }
{
    let gate = instruction_cost(b, two(TwoOp::Cmp, Src::Short(1), Dst::Abs(GATE)));
    let jump = instruction_cost(
        b,
        Instr::Jump {
            on: Cond::Jne,
            words: 4,
        },
    );
    let stack = instruction_cost(b, two(TwoOp::Mov, Src::Abs(SAVED_SP), Dst::Reg(1)));
    let resume = instruction_cost(b, two(TwoOp::Mov, Src::Abs(RESUME), Dst::Reg(0)));
    let open = instruction_cost(b, two(TwoOp::Mov, Src::Short(0), Dst::Abs(GATE)));
    gate + (jump + (stack + (resume + open)))
}

/// What the first four instructions of a head cost.
pub fn sleep_cost(b: &Board) -> u64
    ensures value { result ≡ sleep_cost_lem b.now }
    ensures small { result ≤ 28000000 }
{
    let stack = instruction_cost(b, two(TwoOp::Mov, Src::Reg(1), Dst::Abs(SAVED_SP)));
    let resume = instruction_cost(b, two(TwoOp::Mov, Src::Imm(0), Dst::Abs(RESUME)));
    let shut = instruction_cost(b, two(TwoOp::Mov, Src::Short(1), Dst::Abs(GATE)));
    let sleep = instruction_cost(b, two(TwoOp::Bis, Src::Imm(16), Dst::Reg(2)));
    stack + (resume + (shut + sleep))
}
