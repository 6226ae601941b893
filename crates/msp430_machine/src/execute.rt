//! What an instruction does to the machine.

ghost use Rattle.std.specs.Prelude.{◌≡◌, ◌+◌, ◌*◌, ◌^◌, ◌≤◌, ◌<◌, ℕ, IsTrue, false, []};
ghost use Rattle.msp430_isa.specs.Profile.{guards_width};
ghost use Rattle.msp430_isa.specs.Results.{values};
ghost use Rattle.msp430_machine.specs.Memory.{put_at as put_at_lem};
ghost use Rattle.msp430_machine.specs.Operands.{source, destination};
ghost use Rattle.msp430_machine.specs.Execution.{after_source, two_values, two_done, one_done, done, put_to as put_to_lem, put_by_two as put_by_two_lem, put_by};
ghost use Rattle.msp430_machine.specs.Views.{state_of, operand_of, HasSource, HasDestination, HasOperand, CanExecute};

use crate::addresses::OUT;
use crate::arith::{
    is_taken, jump_target, one_flags, one_result, two_flags, two_result, writes_destination,
};
use crate::machine::Machine;
use crate::operand::Operand;
use msp430_isa::{Cond, Dst, Instr, OneOp, Src, TwoOp};

// The word that a write puts.
fn put_at(address: u16, v: u16) -> Option<u16>
    ensures { result ≡ put_at_lem address v }
{
    if address == OUT { Some(v) } else { None }
}

fn put_to(operand: Operand, v: u16) -> Option<u16>
    ensures { result ≡ put_to_lem (operand_of operand) v }
{
    match operand {
        Operand::InMemory(address) => put_at(address, v),
        Operand::Constant(_) | Operand::InRegister(_) => None,
    }
}

fn put_by_two(op: TwoOp, v: u16, operand: Operand) -> Option<u16>
    ensures { result ≡ put_by_two_lem op v (operand_of operand) }
{
    match op {
        TwoOp::Mov => put_to(operand, v),
        _ => None,
    }
}

impl Machine {
    fn two_values(&mut self, op: TwoOp, byte: bool, v: u16, place: Operand, d: u16)
        requires place { HasOperand place }
        requires v { v < values byte }
        requires d { d < values byte }
        ensures state { state_of self.new ≡ two_values op byte v (operand_of place) (state_of self.old) d }
        ensures taken { self.new.taken ≡ self.old.taken }
    {
        let flags = self.flags();
        self.set_flags(two_flags(op, byte, flags, v, d));
        if writes_destination(op) {
            self.store(byte, place, two_result(op, byte, flags.carry, v, d));
        }
    }

    fn two_done(&mut self, op: TwoOp, byte: bool, v: u16, place: Operand)
        requires place { HasOperand place }
        requires v { v < values byte }
        ensures state { state_of self.new ≡ two_done op byte v (operand_of place) (state_of self.old) }
        ensures taken { self.new.taken ≡ self.old.taken }
    {
        let d = self.destination_value(byte, place);
        self.two_values(op, byte, v, place, d);
    }

    fn two(&mut self, input: &[u16], op: TwoOp, byte: bool, src: Src, dst: Dst) -> Option<u16>
        requires src { HasSource src }
        requires dst { HasDestination dst }
        requires taken { self.old.taken < 2 ^ 63 }
        ensures state { state_of self.new ≡ done input.now (Instr.Two op byte src dst) (state_of self.old) }
        ensures put { result ≡ put_by input.now (Instr.Two op byte src dst) (state_of self.old) }
        ensures taken { self.new.taken ≤ self.old.taken + 1 }
    {
        let operand = self.source(src);
        let v = self.source_value(input, byte, operand);
        self.pass_source(byte, src);
        let place = self.destination(dst);
        self.two_done(op, byte, v, place);
        put_by_two(op, v, place)
    }

    fn call(&mut self, v: u16)
        ensures state { state_of self.new ≡ one_done OneOp.Call false v (operand_of (Operand.Constant 0)) (state_of self.old) }
        ensures taken { self.new.taken ≡ self.old.taken }
    {
        let back = self.register(0);
        self.push(back);
        self.go_to(v);
    }

    fn one_done(&mut self, op: OneOp, byte: bool, v: u16, place: Operand)
        requires width { IsTrue (guards_width op byte) }
        requires place { HasOperand place }
        requires v { v < values byte }
        ensures state { state_of self.new ≡ one_done op byte v (operand_of place) (state_of self.old) }
        ensures taken { self.new.taken ≡ self.old.taken }
    {
        match op {
            OneOp::Push => self.push(v),
            OneOp::Call => self.call(v),
            _ => {
                let flags = self.flags();
                self.set_flags(one_flags(op, byte, flags, v));
                self.store(byte, place, one_result(op, byte, flags.carry, v));
            }
        }
    }

    fn one(&mut self, input: &[u16], op: OneOp, byte: bool, src: Src)
        requires src { HasSource src }
        requires width { IsTrue (guards_width op byte) }
        requires taken { self.old.taken < 2 ^ 63 }
        ensures state { state_of self.new ≡ done input.now (Instr.One op byte src) (state_of self.old) }
        ensures taken { self.new.taken ≤ self.old.taken + 1 }
    {
        let operand = self.source(src);
        let v = self.source_value(input, byte, operand);
        self.pass_source(byte, src);
        self.one_done(op, byte, v, operand);
    }

    fn jump(&mut self, on: Cond, words: i16)
        ensures state { state_of self.new ≡ done [] (Instr.Jump on words) (state_of self.old) }
        ensures taken { self.new.taken ≡ self.old.taken }
    {
        if is_taken(on, self.flags()) {
            let following = self.register(0);
            self.go_to(jump_target(following, words));
        }
    }

    /// Executes an instruction that is paid, with PC behind it: the word that it puts, if it does.
    pub(crate) fn execute(&mut self, input: &[u16], instr: Instr) -> Option<u16>
        requires can { CanExecute instr }
        requires taken { self.old.taken < 2 ^ 63 }
        ensures state { state_of self.new ≡ done input.now instr (state_of self.old) }
        ensures put { result ≡ put_by input.now instr (state_of self.old) }
        ensures taken { self.new.taken ≤ self.old.taken + 1 }
    {
        match instr {
            Instr::Two { op, byte, src, dst } => self.two(input, op, byte, src, dst),
            Instr::One { op, byte, src } => {
                self.one(input, op, byte, src);
                None
            }
            Instr::Jump { on, words } => {
                self.jump(on, words);
                None
            }
        }
    }
}
