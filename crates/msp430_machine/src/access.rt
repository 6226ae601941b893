//! Which accesses are allowed, and which fault comes first.

ghost use Rattle.std.specs.Prelude.{◌≡◌, ◌+◌, ◌%◌, ◌<◌, ℕ, Bool, true, false};
ghost use Rattle.msp430_machine.specs.Addresses.{Ports};
ghost use Rattle.msp430_machine.specs.Access.{may_use_port as may_use_port_lem, code_fault as code_fault_lem, fault_in, fault_at as fault_at_lem, fault_of as fault_of_lem, first_of as first_of_lem, source_fault as source_fault_lem, destination_fault as destination_fault_lem, one_fault as one_fault_lem, access_fault as access_fault_lem};
ghost use Rattle.msp430_machine.specs.Views.{state_of, operand_of, purpose_of, HasSource, HasDestination, HasOperand, CanExecute};

use crate::addresses::{END, IN, OUT, Region, TRAP, region_of};
use crate::answer::Why;
use crate::machine::Machine;
use crate::operand::Operand;
use msp430_isa::{Instr, OneOp, Src, TwoOp};

/// What an access is for: a source is read, a destination is read, MOV writes, or another operation or the stack does.
#[derive(Clone, Copy, Debug, PartialEq, Eq)]
pub enum Purpose {
    AsSource,
    AsDestination,
    ByMove,
    ByOther,
}

fn may_use_port(purpose: Purpose, byte: bool, address: u16) -> bool
    ensures { result ≡ may_use_port_lem (purpose_of purpose) byte address }
{
    match purpose {
        Purpose::AsSource => !byte && address == IN,
        Purpose::ByMove => !byte && (address == OUT || address == END || address == TRAP),
        Purpose::AsDestination | Purpose::ByOther => false,
    }
}

fn code_fault(purpose: Purpose) -> Option<Why>
    ensures { result ≡ code_fault_lem (purpose_of purpose) }
{
    match purpose {
        Purpose::AsSource | Purpose::AsDestination => None,
        Purpose::ByMove | Purpose::ByOther => Some(Why::ReadOnly),
    }
}

fn port_fault(purpose: Purpose, byte: bool, address: u16) -> Option<Why>
    ensures { result ≡ fault_in Ports (purpose_of purpose) byte address }
{
    if may_use_port(purpose, byte, address) {
        None
    } else {
        Some(Why::Port)
    }
}

fn fault_at(purpose: Purpose, byte: bool, address: u16) -> Option<Why>
    ensures { result ≡ fault_at_lem (purpose_of purpose) byte address }
{
    if !byte && address % 2 == 1 {
        return Some(Why::Odd);
    }
    match region_of(address) {
        Region::Ports => port_fault(purpose, byte, address),
        Region::Sram | Region::Fram => None,
        Region::Code => code_fault(purpose),
        Region::Empty => Some(Why::Unmapped),
    }
}

fn fault_of(purpose: Purpose, byte: bool, operand: Operand) -> Option<Why>
    ensures { result ≡ fault_of_lem (purpose_of purpose) byte (operand_of operand) }
{
    match operand {
        Operand::InMemory(address) => fault_at(purpose, byte, address),
        Operand::Constant(_) | Operand::InRegister(_) => None,
    }
}

fn first_of(first: Option<Why>, second: Option<Why>) -> Option<Why>
    ensures { result ≡ first_of_lem first second }
{
    match first {
        Some(why) => Some(why),
        None => second,
    }
}

fn destination_fault(op: TwoOp, byte: bool, d: Operand) -> Option<Why>
    ensures { result ≡ destination_fault_lem op byte (operand_of d) }
{
    match op {
        TwoOp::Mov => fault_of(Purpose::ByMove, byte, d),
        TwoOp::Cmp | TwoOp::Bit => fault_of(Purpose::AsDestination, byte, d),
        _ => first_of(
            fault_of(Purpose::AsDestination, byte, d),
            fault_of(Purpose::ByOther, byte, d),
        ),
    }
}

impl Machine {
    fn source_fault(&self, byte: bool, src: Src) -> Option<Why>
        requires { HasSource src }
        ensures { result ≡ source_fault_lem byte (state_of self.now) src }
    {
        match src {
            Src::AtPlus(1) if self.register(1) % 2 == 1 => Some(Why::Odd),
            _ => fault_of(Purpose::AsSource, byte, self.source(src)),
        }
    }

    fn one_fault(&self, op: OneOp, byte: bool, v: Operand) -> Option<Why>
        ensures { result ≡ one_fault_lem op byte (state_of self.now) (operand_of v) }
    {
        match op {
            OneOp::Push | OneOp::Call => fault_at(Purpose::ByOther, false, self.pushed_at()),
            _ => fault_of(Purpose::ByOther, byte, v),
        }
    }

    /// The first fault of an instruction's accesses.
    pub(crate) fn access_fault(&self, instr: Instr) -> Option<Why>
        requires { CanExecute instr }
        ensures { result ≡ access_fault_lem (state_of self.now) instr }
    {
        match instr {
            Instr::Two { op, byte, src, dst } => {
                first_of(
                    self.source_fault(byte, src),
                    destination_fault(op, byte, self.destination(dst)),
                )
            }
            Instr::One { op, byte, src } => first_of(
                self.source_fault(byte, src),
                self.one_fault(op, byte, self.source(src)),
            ),
            Instr::Jump { .. } => None,
        }
    }
}
