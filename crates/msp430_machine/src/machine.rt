//! The machine's state, with its registers and memories.

ghost use Rattle.std.specs.Prelude.{◌≡◌, ◌+◌, ◌-◌, ◌*◌, ◌/◌, ◌%◌, ◌^◌, ◌<◌, ◌≤◌, ℕ, List, slice_index, Some, None, IsTrue, true, false, vec_len, replicate, IfOk};
ghost use Rattle.msp430_isa.specs.Results.{values};
ghost use Rattle.msp430_machine.specs.Addresses.{region};
ghost use Rattle.msp430_machine.specs.First.{IsFirst, HoldsImage};
ghost use Rattle.ti_txt.specs.Bytes.{blocks_of};
ghost use Rattle.msp430_machine.specs.Loading.{IsLoaded, IsZeroBut};
ghost use Rattle.msp430_machine.specs.Steps.{answer_of};
ghost use Rattle.msp430_machine.specs.Wakes.{CanWake, IsCold, Wakes, WakesFrom};
ghost use Rattle.msp430_machine.specs.State.{State, AreWords, Off, Awake, Asleep, Faulted, set_at, register, with_register, status_word, with_status, input_word};
ghost use Rattle.msp430_machine.specs.Memory.{at_width as at_width_lem, word_at, half, with_half as with_half_lem, value_at, read, after_read, sent_to, written_in, written, put_at as put_at_lem};
ghost use Rattle.msp430_machine.specs.Operands.{source, destination, incremented, increment as increment_lem, index, pushed_at};
ghost use Rattle.msp430_machine.specs.Execution.{source_value, after_reading, after_source, destination_value, with_value, pushed, gone_to};
ghost use Rattle.msp430_machine.specs.Views.{memory, state_of, operand_of, refilled, refilled_from, cold_cells, flags_in, phase_told, HasSource, HasDestination, HasOperand};

use crate::addresses::{CODE_START, END, OUT, Region, SRAM_START, region_of};
use crate::answer::{Did, Phase, Refill, Why};
use crate::arith::Flags;
use crate::load::{bytes_are_small, image_bytes, words_from, zero_words};
use crate::operand::Operand;
use base_io::Memory;
use msp430_isa::{Dst, Src};
use std::alloc::Global;
use std::marker::Model;
use ti_txt::Image;

/// What the machine is doing, or how it stopped.
#[derive(Clone, Copy, Debug, PartialEq, Eq)]
pub enum Condition {
    Off,
    Awake,
    Asleep,
    Ended(u16),
    Trapped(u16),
    Faulted(Why),
}

/// The device: sixteen registers, SRAM, FRAM, the charge, the number of input words taken, and what it is doing.
#[derive(Drop)]
pub struct Machine {
    condition: Condition,
    charge: u64,
    registers: [u16; 16],
    flags: Flags,
    other_bits: u16,
    sram: Vec<u16>,
    fram: Vec<u16>,
    code: Vec<u16>,
    taken: u64,
}

impl Model for Machine {
    ghost use Rattle.std.specs.Prelude.{◌≡◌, ◌<◌, vec_len};
    ghost use Rattle.msp430_machine.specs.Views.{Cells, flags_in, phase_of};

    ghost Value = { Cells };

    ghost view = { λ m. record {
      phase = phase_of m.condition;
      charge = m.charge;
      registers = m.registers;
      flags = flags_in m.flags;
      other_bits = m.other_bits;
      sram = m.sram.items;
      fram = m.fram.items;
      code = m.code.items;
      taken = m.taken;
    } };

    ghost invariant = { λ m. (vec_len m.sram ≡ 1024) × (vec_len m.fram ≡ 16384) × (vec_len m.code ≡ 16384) × (m.other_bits < 256) };
}

impl Machine {
    /// A machine that is off with no charge, with the image in its memory and zero elsewhere.
    pub fn load(alloc: Global, img: &Image) -> Result<Machine, Memory>
        ensures first { IfOk result (λ m. IsFirst (state_of m)) }
        ensures holds { IfOk result (λ m. HoldsImage img.now (state_of m)) }
        ensures zero { IfOk result (λ m. IsZeroBut img.now (state_of m)) }
        ensures loaded { IfOk result (λ m. IsLoaded (blocks_of img.now) (state_of m)) }
    {
        let bytes = image_bytes(alloc, img)?;
        bytes_are_small(bytes.as_slice());
        let sram = zero_words(alloc)?;
        let fram = words_from(alloc, bytes.as_slice(), 0, 16384)?;
        let code = words_from(alloc, bytes.as_slice(), CODE_START as usize, 16384)?;
        Ok(Machine {
            condition: Condition::Off,
            charge: 0,
            registers: [0; 16],
            flags: Flags {
                carry: false,
                zero_flag: false,
                negative: false,
                overflow: false,
            },
            other_bits: 0,
            sram,
            fram,
            code,
            taken: 0,
        })
    }

    /// What the machine is doing.
    pub fn phase(&self) -> Phase
        ensures value { result ≡ phase_told self.now.phase }
        ensures awake { result ≡ Phase.Awake → self.now.phase ≡ Awake }
        ensures off { result ≡ Phase.Off → CanWake self.now.phase }
        ensures asleep { result ≡ Phase.Asleep → CanWake self.now.phase }
    {
        match self.condition {
            Condition::Off => Phase::Off,
            Condition::Awake => Phase::Awake,
            Condition::Asleep => Phase::Asleep,
            Condition::Ended(_) | Condition::Trapped(_) | Condition::Faulted(_) => Phase::Stopped,
        }
    }

    /// The charge in energy units.
    pub fn charge(&self) -> u64
        ensures { result ≡ self.now.charge }
    {
        self.charge
    }

    /// A refill. Registers and SRAM stay where a sleeping machine keeps them; elsewhere they are lost, and PC is the word
    /// at 0xFFFE.
    pub fn wake(&mut self, refill: Refill)
        requires { CanWake self.old.phase }
        ensures exactly { self.new ≡ refilled refill self.old }
        ensures wakes { Wakes refill.amount refill.keep (state_of self.old) (state_of self.new) }
        ensures taken { self.new.taken ≡ self.old.taken }
    {
        match self.condition {
            Condition::Asleep => self.wake_asleep(refill),
            _ => self.wake_cold(refill),
        }
    }

    fn wake_asleep(&mut self, refill: Refill)
        ensures exactly { self.new ≡ refilled_from Asleep refill self.old }
        ensures wakes { WakesFrom Asleep refill.keep refill.amount (state_of self.old) (state_of self.new) }
        ensures taken { self.new.taken ≡ self.old.taken }
    {
        if refill.keep {
            self.condition = Condition::Awake;
            self.charge = refill.amount;
        } else {
            self.wake_cold(refill);
        }
    }

    fn wake_cold(&mut self, refill: Refill)
        ensures exactly { self.new ≡ cold_cells refill self.old }
        ensures cold { IsCold (state_of self.old) refill.amount (state_of self.new) }
        ensures taken { self.new.taken ≡ self.old.taken }
    {
        let start = self.code_word(16383);
        self.condition = Condition::Awake;
        self.charge = refill.amount;
        self.registers = [refill.junk; 16];
        self.registers[0] = start;
        self.flags = Flags {
            carry: false,
            zero_flag: false,
            negative: false,
            overflow: false,
        };
        self.other_bits = 0;
        forget(&mut self.sram, refill.junk);
    }

    // ---- The ends of steps

    pub(crate) fn stop_by(&mut self, why: Why)
        ensures state { state_of self.new ≡ record (state_of self.old) { phase = Faulted why } }
        ensures taken { self.new.taken ≡ self.old.taken }
    {
        self.condition = Condition::Faulted(why);
    }

    pub(crate) fn turn_off(&mut self)
        ensures state { state_of self.new ≡ record (state_of self.old) { phase = Off } }
        ensures taken { self.new.taken ≡ self.old.taken }
    {
        self.condition = Condition::Off;
    }

    // Pays an instruction, and moves PC behind it.
    pub(crate) fn begin(&mut self, need: u64, words: u16)
        requires paid { need ≤ self.old.charge }
        requires few { words ≤ 3 }
        ensures state { state_of self.new ≡ record (state_of self.old) { charge = self.old.charge - need; reg = set_at (state_of self.old).reg 0 (((state_of self.old).reg 0 + 2 * words) % 65536) } }
        ensures taken { self.new.taken ≡ self.old.taken }
    {
        self.charge -= need;
        self.registers[0] = self.registers[0].wrapping_add(2 * words);
    }

    // What an executed instruction tells.
    pub(crate) fn answer(&self, need: u64, put: Option<u16>) -> Did
        ensures { result ≡ answer_of need put self.now.phase }
    {
        if let Some(v) = put {
            return Did::Out(v);
        }
        match self.condition {
            Condition::Asleep => Did::Slept,
            Condition::Ended(v) => Did::Ended(v),
            Condition::Trapped(v) => Did::Trapped(v),
            Condition::Off | Condition::Awake | Condition::Faulted(_) => Did::Ran { cost: need },
        }
    }

    // ---- Registers

    pub(crate) fn status(&self) -> u16
        ensures { result ≡ status_word (state_of self.now) }
    {
        self.flags.carry as u16
            + 2 * self.flags.zero_flag as u16
            + 4 * self.flags.negative as u16
            + self.other_bits
            + 256 * self.flags.overflow as u16
    }

    pub(crate) fn register(&self, r: u8) -> u16
        requires { r < 16 }
        ensures { result ≡ register (state_of self.now) r }
    {
        if r == 2 {
            self.status()
        } else {
            self.registers[r as usize]
        }
    }

    fn set_status(&mut self, v: u16)
        ensures state { state_of self.new ≡ with_status (state_of self.old) v }
        ensures taken { self.new.taken ≡ self.old.taken }
    {
        if v / 16 % 2 == 1 {
            self.condition = Condition::Asleep;
        }
        self.flags = Flags {
            carry: v % 2 == 1,
            zero_flag: v / 2 % 2 == 1,
            negative: v / 4 % 2 == 1,
            overflow: v / 256 % 2 == 1,
        };
        self.other_bits = v / 8 % 2 * 8 + v / 32 % 8 * 32;
    }

    pub(crate) fn set_register(&mut self, r: u8, v: u16)
        requires { r < 16 }
        ensures state { state_of self.new ≡ with_register (state_of self.old) r v }
        ensures taken { self.new.taken ≡ self.old.taken }
    {
        match r {
            2 => self.set_status(v),
            3 => {}
            _ => self.registers[r as usize] = v,
        }
    }

    pub(crate) fn go_to(&mut self, address: u16)
        ensures state { state_of self.new ≡ gone_to (state_of self.old) address }
        ensures taken { self.new.taken ≡ self.old.taken }
    {
        self.registers[0] = address;
    }

    pub(crate) fn flags(&self) -> Flags
        ensures { flags_in result ≡ self.now.flags }
    {
        self.flags
    }

    pub(crate) fn set_flags(&mut self, flags: Flags)
        ensures state { state_of self.new ≡ record (state_of self.old) { flags = flags_in flags } }
        ensures taken { self.new.taken ≡ self.old.taken }
    {
        self.flags = flags;
    }

    // ---- Memory

    pub(crate) fn word_at(&self, address: u16) -> u16
        ensures { result ≡ word_at (state_of self.now) address }
    {
        match region_of(address) {
            Region::Fram => self.fram[(address / 2) as usize],
            Region::Sram => self.sram[((address - SRAM_START) / 2) as usize],
            Region::Code => self.code[((address - CODE_START) / 2) as usize],
            Region::Ports | Region::Empty => 0,
        }
    }

    pub(crate) fn value_at(&self, byte: bool, address: u16) -> u16
        ensures value { result ≡ value_at byte (state_of self.now) address }
        ensures small { result < values byte }
    {
        if byte {
            half_of(address, self.word_at(address))
        } else {
            self.word_at(address)
        }
    }

    fn write_word(&mut self, address: u16, w: u16)
        ensures state { state_of self.new ≡ written_in (region address) (state_of self.old) address w }
        ensures taken { self.new.taken ≡ self.old.taken }
    {
        match region_of(address) {
            Region::Ports => self.send_to(address, w),
            Region::Fram => self.fram[(address / 2) as usize] = w,
            Region::Sram => self.sram[((address - SRAM_START) / 2) as usize] = w,
            Region::Code | Region::Empty => {}
        }
    }

    fn send_to(&mut self, address: u16, w: u16)
        ensures state { state_of self.new ≡ sent_to (state_of self.old) address w }
        ensures taken { self.new.taken ≡ self.old.taken }
    {
        match address {
            OUT => {}
            END => self.condition = Condition::Ended(w),
            _ => self.condition = Condition::Trapped(w),
        }
    }

    pub(crate) fn write(&mut self, byte: bool, address: u16, v: u16)
        requires { v < values byte }
        ensures state { state_of self.new ≡ written byte (state_of self.old) address v }
        ensures taken { self.new.taken ≡ self.old.taken }
    {
        if byte {
            let w = with_half(address, self.word_at(address), v);
            self.write_word(address, w);
        } else {
            self.write_word(address, v);
        }
    }

    pub(crate) fn code_word(&self, k: usize) -> u16
        requires { k < 16384 }
        ensures { result ≡ (state_of self.now).code k }
    {
        self.code[k]
    }

    // ---- Operands

    fn index(&self, r: u8, x: u16) -> u16
        requires { r < 16 }
        ensures { result ≡ index (state_of self.now) r x }
    {
        self.register(r).wrapping_add(x)
    }

    pub(crate) fn source(&self, src: Src) -> Operand
        requires { HasSource src }
        ensures value { operand_of result ≡ source (state_of self.now) src }
        ensures whole { HasOperand result }
    {
        match src {
            Src::Reg(r) => Operand::InRegister(r),
            Src::Index(r, x) => Operand::InMemory(self.index(r, x)),
            Src::Abs(address) => Operand::InMemory(address),
            Src::At(r) | Src::AtPlus(r) => Operand::InMemory(self.register(r)),
            Src::Imm(v) | Src::Short(v) => Operand::Constant(v),
        }
    }

    pub(crate) fn destination(&self, dst: Dst) -> Operand
        requires { HasDestination dst }
        ensures value { operand_of result ≡ destination (state_of self.now) dst }
        ensures whole { HasOperand result }
    {
        match dst {
            Dst::Reg(r) => Operand::InRegister(r),
            Dst::Index(r, x) => Operand::InMemory(self.index(r, x)),
            Dst::Abs(address) => Operand::InMemory(address),
        }
    }

    pub(crate) fn pushed_at(&self) -> u16
        ensures { result ≡ pushed_at (state_of self.now) }
    {
        self.registers[1].wrapping_sub(2)
    }

    fn read(&self, input: &[u16], byte: bool, address: u16) -> u16
        ensures value { result ≡ read input.now byte (state_of self.now) address }
        ensures small { result < values byte }
    {
        match region_of(address) {
            Region::Ports => at_width(byte, self.next_input(input)),
            Region::Sram | Region::Fram | Region::Code | Region::Empty => self.value_at(
                byte, address,
            ),
        }
    }

    fn next_input(&self, input: &[u16]) -> u16
        ensures { result ≡ input_word input.now self.now.taken }
    {
        let at = self.taken as usize;
        if at < input.len() { input[at] } else { 0 }
    }

    pub(crate) fn source_value(&self, input: &[u16], byte: bool, operand: Operand) -> u16
        requires { HasOperand operand }
        ensures value { result ≡ source_value input.now byte (state_of self.now) (operand_of operand) }
        ensures small { result < values byte }
    {
        match operand {
            Operand::Constant(v) => at_width(byte, v),
            Operand::InRegister(r) => at_width(byte, self.register(r)),
            Operand::InMemory(address) => self.read(input, byte, address),
        }
    }

    pub(crate) fn destination_value(&self, byte: bool, operand: Operand) -> u16
        requires { HasOperand operand }
        ensures value { result ≡ destination_value byte (state_of self.now) (operand_of operand) }
        ensures small { result < values byte }
    {
        match operand {
            Operand::Constant(v) => at_width(byte, v),
            Operand::InRegister(r) => at_width(byte, self.register(r)),
            Operand::InMemory(address) => self.value_at(byte, address),
        }
    }

    fn pass_reading_at(&mut self, address: u16)
        requires { self.old.taken < 2 ^ 63 }
        ensures state { state_of self.new ≡ after_read (state_of self.old) address }
        ensures taken { self.new.taken ≤ self.old.taken + 1 }
    {
        match region_of(address) {
            Region::Ports => self.taken += 1,
            Region::Sram | Region::Fram | Region::Code | Region::Empty => {}
        }
    }

    fn pass_reading(&mut self, operand: Operand)
        requires { self.old.taken < 2 ^ 63 }
        ensures state { state_of self.new ≡ after_reading (state_of self.old) (operand_of operand) }
        ensures taken { self.new.taken ≤ self.old.taken + 1 }
    {
        match operand {
            Operand::InMemory(address) => self.pass_reading_at(address),
            Operand::Constant(_) | Operand::InRegister(_) => {}
        }
    }

    fn pass_increment(&mut self, byte: bool, src: Src)
        requires { HasSource src }
        ensures state { state_of self.new ≡ incremented byte (state_of self.old) src }
        ensures taken { self.new.taken ≡ self.old.taken }
    {
        if let Src::AtPlus(r) = src {
            let v = self.register(r).wrapping_add(increment(byte, r));
            self.set_register(r, v);
        }
    }

    pub(crate) fn pass_source(&mut self, byte: bool, src: Src)
        requires src { HasSource src }
        requires taken { self.old.taken < 2 ^ 63 }
        ensures state { state_of self.new ≡ after_source byte (state_of self.old) src }
        ensures taken { self.new.taken ≤ self.old.taken + 1 }
    {
        let operand = self.source(src);
        self.pass_reading(operand);
        self.pass_increment(byte, src);
    }

    pub(crate) fn store(&mut self, byte: bool, operand: Operand, v: u16)
        requires operand { HasOperand operand }
        requires v { v < values byte }
        ensures state { state_of self.new ≡ with_value byte (state_of self.old) (operand_of operand) v }
        ensures taken { self.new.taken ≡ self.old.taken }
    {
        match operand {
            Operand::Constant(_) => {}
            Operand::InRegister(r) => self.set_register(r, v),
            Operand::InMemory(address) => self.write(byte, address, v),
        }
    }

    pub(crate) fn push(&mut self, v: u16)
        ensures state { state_of self.new ≡ pushed (state_of self.old) v }
        ensures taken { self.new.taken ≡ self.old.taken }
    {
        let at = self.pushed_at();
        self.set_register(1, at);
        self.write_word(at, v);
    }
}

// SRAM's words when they are lost.
fn forget(words: &mut Vec<u16>, junk: u16)
    requires { vec_len words.old ≡ 1024 }
    ensures items { words.new.items ≡ replicate 1024 junk }
    ensures words { AreWords 1024 (memory words.new.items) }
    ensures len { vec_len words.new ≡ 1024 }
{
    words.fill(junk);
}

fn half_of(address: u16, w: u16) -> u16
    ensures value { result ≡ half address w }
    ensures small { result < 256 }
{
    if address % 2 == 0 { w % 256 } else { w / 256 }
}

fn with_half(address: u16, w: u16, v: u16) -> u16
    requires { v < 256 }
    ensures { result ≡ with_half_lem address w v }
{
    if address % 2 == 0 {
        w / 256 * 256 + v
    } else {
        w % 256 + 256 * v
    }
}

fn at_width(byte: bool, v: u16) -> u16
    ensures value { result ≡ at_width_lem byte v }
    ensures small { result < values byte }
{
    if byte { v % 256 } else { v }
}

fn increment(byte: bool, r: u8) -> u16
    ensures { result ≡ increment_lem byte r }
{
    if byte && r != 1 { 1 } else { 2 }
}
