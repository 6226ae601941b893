//! One step of an awake machine.

ghost use Rattle.std.specs.Prelude.{◌≡◌, ◌+◌, ◌-◌, ◌*◌, ◌/◌, ◌%◌, ◌^◌, ◌≤◌, ◌<◌, ℕ, Option, IfOk, IfSome};
ghost use Rattle.msp430_isa.specs.Encoding.{length_of as length_of_lem};
ghost use Rattle.msp430_isa.specs.Decoding.{instruction_at as instruction_at_lem};
ghost use Rattle.msp430_machine.specs.State.{Awake};
ghost use Rattle.msp430_machine.specs.Steps.{next, next_decoded as next_decoded_lem, faulted, cut_off as cut_off_lem, executed, stepped_by, stepped, Does};
ghost use Rattle.msp430_machine.specs.Views.{state_of, next_from, CanExecute};

use crate::addresses::{CODE_START, FETCH_END};
use crate::answer::{Did, Why};
use crate::machine::Machine;
use board_table::Board;
use msp430_isa::{Instr, decode, length_of};

// The instruction that begins at w.
fn instruction_at(w: u16, x: u16, y: u16) -> Option<Instr>
    ensures value { result ≡ instruction_at_lem w x y }
    ensures can { IfSome result CanExecute }
{
    match decode(&[w, x, y]) {
        Ok((instr, _)) => Some(instr),
        Err(_) => None,
    }
}

impl Machine {
    fn next_decoded(&self, found: Option<Instr>) -> Result<Instr, Why>
        requires { IfSome found CanExecute }
        ensures value { next_from result ≡ next_decoded_lem (state_of self.now) found }
        ensures can { IfOk result CanExecute }
    {
        let Some(instr) = found else {
            return Err(Why::Instruction);
        };
        if self.register(0) as u32 + 2 * length_of(instr) as u32 > FETCH_END as u32 {
            return Err(Why::Fetch);
        }
        match self.access_fault(instr) {
            Some(why) => Err(why),
            None => Ok(instr),
        }
    }

    fn next(&self) -> Result<Instr, Why>
        ensures value { next_from result ≡ next (state_of self.now) }
        ensures can { IfOk result CanExecute }
    {
        let pc = self.register(0);
        if pc % 2 != 0 || pc < CODE_START || pc >= FETCH_END {
            return Err(Why::Fetch);
        }
        let k = ((pc - CODE_START) / 2) as usize;
        self.next_decoded(instruction_at(
            self.code_word(k),
            self.code_word(k + 1),
            self.code_word(k + 2),
        ))
    }

    fn fault(&mut self, why: Why) -> Did
        ensures state { state_of self.new ≡ (faulted why (state_of self.old)).state }
        ensures answer { result ≡ (faulted why (state_of self.old)).answer }
        ensures taken { self.new.taken ≡ self.old.taken }
    {
        let pc = self.register(0);
        self.stop_by(why);
        Did::Fault { pc, why }
    }

    fn cut_off(&mut self, need: u64) -> Did
        ensures state { state_of self.new ≡ (cut_off_lem need (state_of self.old)).state }
        ensures answer { result ≡ (cut_off_lem need (state_of self.old)).answer }
        ensures taken { self.new.taken ≡ self.old.taken }
    {
        let charge = self.charge();
        self.turn_off();
        Did::Short { need, charge }
    }

    fn run(&mut self, input: &[u16], instr: Instr, need: u64) -> Did
        requires can { CanExecute instr }
        requires paid { need ≤ self.old.charge }
        requires taken { self.old.taken < 2 ^ 63 }
        ensures state { state_of self.new ≡ (executed input.now instr need (state_of self.old)).state }
        ensures answer { result ≡ (executed input.now instr need (state_of self.old)).answer }
        ensures taken { self.new.taken ≤ self.old.taken + 1 }
    {
        self.begin(need, length_of(instr) as u16);
        let put = self.execute(input, instr);
        self.answer(need, put)
    }

    fn pay(&mut self, board: &Board, input: &[u16], instr: Instr) -> Did
        requires can { CanExecute instr }
        requires taken { self.old.taken < 2 ^ 63 }
        ensures state { state_of self.new ≡ (stepped_by board.now input.now (state_of self.old) (Does instr)).state }
        ensures answer { result ≡ (stepped_by board.now input.now (state_of self.old) (Does instr)).answer }
        ensures taken { self.new.taken ≤ self.old.taken + 1 }
    {
        let need = self.cost(board, instr);
        if self.charge() < need {
            self.cut_off(need)
        } else {
            self.run(input, instr, need)
        }
    }

    /// One step of an awake machine on this board with this input, which goes on with zeros behind its end.
    pub fn step(&mut self, board: &Board, input: &[u16]) -> Did
        requires awake { self.old.phase ≡ Awake }
        requires taken { self.old.taken < 2 ^ 63 }
        ensures state { state_of self.new ≡ (stepped board.now input.now (state_of self.old)).state }
        ensures answer { result ≡ (stepped board.now input.now (state_of self.old)).answer }
        ensures taken { self.new.taken ≤ self.old.taken + 1 }
    {
        match self.next() {
            Ok(instr) => self.pay(board, input, instr),
            Err(why) => self.fault(why),
        }
    }
}
