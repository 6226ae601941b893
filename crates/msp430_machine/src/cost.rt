//! What an instruction costs.

ghost use Rattle.std.specs.Prelude.{◌≡◌, ◌+◌, ◌*◌, ◌≤◌, ◌<◌, ℕ, IsTrue};
ghost use Rattle.msp430_isa.specs.Encoding.{length_of as length_of_lem};
ghost use Rattle.msp430_machine.specs.State.{State};
ghost use Rattle.msp430_machine.specs.Operands.{source, destination};
ghost use Rattle.msp430_machine.specs.Cost.{read_cost_in as read_cost_in_lem, write_cost_in as write_cost_in_lem, read_cost as read_cost_lem, write_cost as write_cost_lem, two_class as two_class_lem, destination_cost as destination_cost_lem, one_class as one_class_lem, one_written as one_written_lem, from_of as from_of_lem, to_of as to_of_lem, cost_by as cost_by_lem, cost as cost_lem, any_state, instruction_cost as instruction_cost_lem, is_fixed};
ghost use Rattle.msp430_machine.specs.Views.{state_of, operand_of, CanExecute};

use crate::addresses::{Region, region_of};
use crate::arith::{reads_destination, writes_destination};
use crate::machine::Machine;
use crate::operand::Operand;
use board_table::Board;
use msp430_isa::{Dst, Instr, OneOp, Src, TwoOp, length_of};

fn read_cost_in(board: &Board, region: Region) -> u64
    ensures value { result ≡ read_cost_in_lem board.now region }
    ensures small { result ≤ 1000000 }
{
    match region {
        Region::Sram => board.access.sram_read,
        Region::Ports => board.access.port_read,
        Region::Fram | Region::Code | Region::Empty => board.access.fram_read,
    }
}

fn write_cost_in(board: &Board, region: Region) -> u64
    ensures value { result ≡ write_cost_in_lem board.now region }
    ensures small { result ≤ 1000000 }
{
    match region {
        Region::Sram => board.access.sram_write,
        Region::Ports => board.access.port_write,
        Region::Fram | Region::Code | Region::Empty => board.access.fram_write,
    }
}

fn read_cost(board: &Board, operand: Operand) -> u64
    ensures value { result ≡ read_cost_lem board.now (operand_of operand) }
    ensures small { result ≤ 1000000 }
{
    match operand {
        Operand::InMemory(address) => read_cost_in(board, region_of(address)),
        Operand::Constant(_) | Operand::InRegister(_) => 0,
    }
}

fn write_cost(board: &Board, operand: Operand) -> u64
    ensures value { result ≡ write_cost_lem board.now (operand_of operand) }
    ensures small { result ≤ 1000000 }
{
    match operand {
        Operand::InMemory(address) => write_cost_in(board, region_of(address)),
        Operand::Constant(_) | Operand::InRegister(_) => 0,
    }
}

fn two_class(board: &Board, op: TwoOp) -> u64
    ensures value { result ≡ two_class_lem board.now op }
    ensures small { result ≤ 1000000 }
{
    match op {
        TwoOp::Mov => board.core.move_,
        _ => board.core.alu,
    }
}

fn one_class(board: &Board, op: OneOp) -> u64
    ensures value { result ≡ one_class_lem board.now op }
    ensures small { result ≤ 1000000 }
{
    match op {
        OneOp::Push => board.core.push,
        OneOp::Call => board.core.call,
        _ => board.core.one,
    }
}

fn destination_cost(board: &Board, op: TwoOp, d: Operand) -> u64
    ensures value { result ≡ destination_cost_lem board.now op (operand_of d) }
    ensures small { result ≤ 2000000 }
{
    let reading = if reads_destination(op) {
        read_cost(board, d)
    } else {
        0
    };
    let writing = if writes_destination(op) {
        write_cost(board, d)
    } else {
        0
    };
    reading + writing
}

fn fetch_cost(board: &Board, instr: Instr) -> u64
    ensures value { result ≡ board.now.access.fetch * length_of_lem instr }
    ensures small { result ≤ 3000000 }
{
    board.access.fetch * length_of(instr) as u64
}

/// What an instruction costs, in energy units, whose source is `from` and whose destination is `to`. An instruction of one
/// operand writes to `to`: PUSH and CALL to the stack, the others to their operand. A jump has neither.
pub fn cost_by(board: &Board, instr: Instr, from: Operand, to: Operand) -> u64
    ensures cost { result ≡ cost_by_lem board.now instr (operand_of from) (operand_of to) }
    ensures small { result ≤ 7000000 }
{
    match instr {
        Instr::Two { op, .. } => {
            let class = two_class(board, op);
            let fetched = fetch_cost(board, instr);
            class + fetched + read_cost(board, from) + destination_cost(board, op, to)
        }
        Instr::One { op, .. } => {
            let class = one_class(board, op);
            let fetched = fetch_cost(board, instr);
            class + fetched + read_cost(board, from) + write_cost(board, to)
        }
        Instr::Jump { .. } => board.core.jump + board.access.fetch,
    }
}

impl Machine {
    fn one_written(&self, op: OneOp, v: Operand) -> Operand
        ensures { operand_of result ≡ one_written_lem op (state_of self.now) (operand_of v) }
    {
        match op {
            OneOp::Push | OneOp::Call => Operand::InMemory(self.pushed_at()),
            _ => v,
        }
    }

    fn from_of(&self, instr: Instr) -> Operand
        requires { CanExecute instr }
        ensures { operand_of result ≡ from_of_lem (state_of self.now) instr }
    {
        match instr {
            Instr::Two { src, .. } | Instr::One { src, .. } => self.source(src),
            Instr::Jump { .. } => Operand::Constant(0),
        }
    }

    fn to_of(&self, instr: Instr) -> Operand
        requires { CanExecute instr }
        ensures { operand_of result ≡ to_of_lem (state_of self.now) instr }
    {
        match instr {
            Instr::Two { dst, .. } => self.destination(dst),
            Instr::One { op, src, .. } => self.one_written(op, self.source(src)),
            Instr::Jump { .. } => Operand::Constant(0),
        }
    }

    /// What an instruction costs here, in energy units.
    pub(crate) fn cost(&self, board: &Board, instr: Instr) -> u64
        requires { CanExecute instr }
        ensures { result ≡ cost_lem board.now (state_of self.now) instr }
    {
        cost_by(board, instr, self.from_of(instr), self.to_of(instr))
    }
}

// ---- By the words alone

fn fixed_source(src: Src) -> Operand
    ensures { operand_of result ≡ source any_state src }
{
    match src {
        Src::Reg(r) => Operand::InRegister(r),
        Src::Index(_, address) | Src::Abs(address) => Operand::InMemory(address),
        Src::At(_) | Src::AtPlus(_) => Operand::InMemory(0),
        Src::Imm(v) | Src::Short(v) => Operand::Constant(v),
    }
}

fn fixed_destination(dst: Dst) -> Operand
    ensures { operand_of result ≡ destination any_state dst }
{
    match dst {
        Dst::Reg(r) => Operand::InRegister(r),
        Dst::Index(_, address) | Dst::Abs(address) => Operand::InMemory(address),
    }
}

fn fixed_from(instr: Instr) -> Operand
    ensures { operand_of result ≡ from_of_lem any_state instr }
{
    match instr {
        Instr::Two { src, .. } | Instr::One { src, .. } => fixed_source(src),
        Instr::Jump { .. } => Operand::Constant(0),
    }
}

fn fixed_written(op: OneOp, v: Operand) -> Operand
    ensures { operand_of result ≡ one_written_lem op any_state (operand_of v) }
{
    match op {
        OneOp::Push | OneOp::Call => Operand::InMemory(0xFFFE),
        _ => v,
    }
}

fn fixed_to(instr: Instr) -> Operand
    ensures { operand_of result ≡ to_of_lem any_state instr }
{
    match instr {
        Instr::Two { dst, .. } => fixed_destination(dst),
        Instr::One { op, src, .. } => fixed_written(op, fixed_source(src)),
        Instr::Jump { .. } => Operand::Constant(0),
    }
}

/// What an instruction costs, in energy units, where each register that an address is made of counts as 0. An instruction
/// that makes no address of a register costs this in each state.
#[tactic(auto, using(crate::proofs::Costs::fixed_cost))]
pub fn instruction_cost(board: &Board, instr: Instr) -> u64
    ensures cost { result ≡ instruction_cost_lem board.now instr }
    ensures fixed { IsTrue (is_fixed instr) → (s : State) → result ≡ cost_lem board.now s instr }
    ensures small { result ≤ 7000000 }
{
    cost_by(board, instr, fixed_from(instr), fixed_to(instr))
}
