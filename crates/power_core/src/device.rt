//! The emulator: a machine that is stepped and refilled event by event, and counts.

ghost use Rattle.std.specs.Prelude.{◌≡◌, ◌+◌, ◌*◌, ◌≤◌, ◌<◌, ◌^◌, ℕ, List, [], false};
ghost use Rattle.msp430_machine.specs.State.{Awake};
ghost use Rattle.msp430_machine.specs.Steps.{stepped};
ghost use Rattle.msp430_machine.specs.Views.{state_of};
ghost use Rattle.msp430_machine.specs.Wakes.{CanWake, Wakes};
ghost use Rattle.power_core.specs.Cores.{no_counts, seen, left, is_executed as is_executed_lem, counted_if, counted, Begins, GoesOn, StepsOn};

use board_table::Board;
use msp430_machine::{Did, Machine, Phase, Refill};
use std::marker::Model;

/// What may happen to the device: one step, or a refill.
#[derive(Clone, Copy, Debug, PartialEq, Eq)]
pub enum Event {
    Go,
    Wake(Refill),
}

/// What an event came to.
#[derive(Clone, Copy, Debug, PartialEq, Eq)]
pub enum Seen {
    /// A step, and what it did.
    Done(Did),
    /// A refill. A cold one lost registers and SRAM.
    Woke { cold: bool },
    /// Nothing: a step of a machine that is not awake, or a refill of one that is awake or has stopped.
    NotNow,
}

/// A machine, with the numbers of its refills and of the instructions executed, and what these cost in energy units.
#[derive(Drop)]
pub struct Core {
    machine: Machine,
    charges: u64,
    instructions: u64,
    spent: u64,
}

impl Model for Core {
    ghost use Rattle.std.specs.Prelude.{◌+◌, ◌*◌, ◌≤◌, ◌<◌, ◌^◌};
    ghost use Rattle.power_core.specs.Cores.{CoreView};

    ghost Value = { CoreView };

    ghost view = { λ c. record {
      machine = c.machine;
      counts = record { charges = c.charges; instructions = c.instructions; spent = c.spent };
    } };

    ghost invariant = { λ c. (c.machine.taken < 2 ^ 62 + c.instructions) × (c.instructions ≤ 2 ^ 40) × (c.spent ≤ 10000000 * c.instructions) };
}

// Whether a step executed an instruction.
fn is_executed(did: Did) -> bool
    ensures { result ≡ is_executed_lem did }
{
    !matches!(did, Did::Short { .. } | Did::Fault { .. })
}

// A step, and what it costs: what it takes from the charge.
fn step_and_cost(machine: &mut Machine, b: &Board, input: &[u16]) -> (Did, u64)
    requires awake { machine.old.phase ≡ Awake }
    requires taken { machine.old.taken < 2 ^ 63 }
    ensures answer { result.0 ≡ (stepped b.now input.now (state_of machine.old)).answer }
    ensures cost { result.1 ≡ (stepped b.now input.now (state_of machine.old)).spent }
    ensures small { result.1 ≤ 10000000 }
    ensures state { state_of machine.new ≡ (stepped b.now input.now (state_of machine.old)).state }
    ensures taken { machine.new.taken ≤ machine.old.taken + 1 }
    ensures none_taken { is_executed_lem result.0 ≡ false → machine.new.taken ≡ machine.old.taken }
{
    let before = machine.charge();
    let did = machine.step(b, input);
    (did, before - machine.charge())
}

impl Core {
    /// The device as this machine is, with nothing counted.
    pub fn new(m: Machine) -> Core
        requires few_taken { m.taken < 2 ^ 62 }
        ensures machine { result.machine ≡ m }
        ensures counts { result.counts ≡ no_counts }
        ensures begins { Begins (state_of m) result }
    {
        Core {
            machine: m,
            charges: 0,
            instructions: 0,
            spent: 0,
        }
    }

    /// One event on this board with this input, which goes on with zeros behind its end.
    pub fn apply(&mut self, e: Event, b: &Board, input: &[u16]) -> Seen
        requires few_charges { self.old.counts.charges < 2 ^ 40 }
        requires few_instructions { self.old.counts.instructions < 2 ^ 40 }
        ensures told { result ≡ seen b.now input.now e (state_of self.old.machine) }
        ensures state { state_of self.new.machine ≡ left b.now input.now e self.old.machine }
        ensures counts { self.new.counts ≡ counted result (stepped b.now input.now (state_of self.old.machine)).spent self.old.counts }
        ensures unchanged { result ≡ Seen.NotNow → self.new ≡ self.old }
        ensures goes_on { GoesOn b.now input.now e result self.old self.new }
        ensures steps_on { StepsOn b.now input.now e result self.old self.new }
    {
        match e {
            Event::Go => self.go(b, input),
            Event::Wake(refill) => self.wake(refill, b, input),
        }
    }

    fn go(&mut self, b: &Board, input: &[u16]) -> Seen
        requires { self.old.counts.instructions < 2 ^ 40 }
        ensures told { result ≡ seen b.now input.now Event.Go (state_of self.old.machine) }
        ensures state { state_of self.new.machine ≡ left b.now input.now Event.Go self.old.machine }
        ensures counts { self.new.counts ≡ counted result (stepped b.now input.now (state_of self.old.machine)).spent self.old.counts }
        ensures unchanged { result ≡ Seen.NotNow → self.new ≡ self.old }
    {
        match self.machine.phase() {
            Phase::Awake => Seen::Done(self.step(b, input)),
            Phase::Off | Phase::Asleep | Phase::Stopped => Seen::NotNow,
        }
    }

    fn step(&mut self, b: &Board, input: &[u16]) -> Did
        requires awake { self.old.machine.phase ≡ Awake }
        requires few { self.old.counts.instructions < 2 ^ 40 }
        ensures answer { result ≡ (stepped b.now input.now (state_of self.old.machine)).answer }
        ensures state { state_of self.new.machine ≡ (stepped b.now input.now (state_of self.old.machine)).state }
        ensures counts { self.new.counts ≡ counted_if (is_executed_lem result) (stepped b.now input.now (state_of self.old.machine)).spent self.old.counts }
    {
        let (did, cost) = step_and_cost(&mut self.machine, b, input);
        if is_executed(did) {
            self.instructions += 1;
            self.spent += cost;
        }
        did
    }

    fn wake(&mut self, refill: Refill, b: &Board, input: &[u16]) -> Seen
        requires { self.old.counts.charges < 2 ^ 40 }
        ensures told { result ≡ seen b.now input.now (Event.Wake refill) (state_of self.old.machine) }
        ensures state { state_of self.new.machine ≡ left b.now input.now (Event.Wake refill) self.old.machine }
        ensures counts { self.new.counts ≡ counted result (stepped b.now input.now (state_of self.old.machine)).spent self.old.counts }
        ensures unchanged { result ≡ Seen.NotNow → self.new ≡ self.old }
        ensures wakes { CanWake self.old.machine.phase → Wakes refill.amount refill.keep (state_of self.old.machine) (state_of self.new.machine) }
    {
        let cold = match self.machine.phase() {
            Phase::Off => true,
            Phase::Asleep => !refill.keep,
            Phase::Awake | Phase::Stopped => return Seen::NotNow,
        };
        self.machine.wake(refill);
        self.charges += 1;
        Seen::Woke { cold }
    }

    /// How many refills there were.
    pub fn charges(&self) -> u64
        ensures { result ≡ self.now.counts.charges }
    {
        self.charges
    }

    /// How many instructions were executed.
    pub fn instructions(&self) -> u64
        ensures { result ≡ self.now.counts.instructions }
    {
        self.instructions
    }

    /// What the instructions executed cost, in energy units.
    pub fn spent(&self) -> u64
        ensures { result ≡ self.now.counts.spent }
    {
        self.spent
    }
}
