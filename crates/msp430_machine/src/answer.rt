/// What the machine is doing. Stopped is for good: by a write to END or TRAP, or by a fault.
#[derive(Clone, Copy, Debug, PartialEq, Eq)]
pub enum Phase {
    Off,
    Awake,
    Asleep,
    Stopped,
}

/// Why the instruction at PC can't be executed.
#[derive(Clone, Copy, Debug, PartialEq, Eq)]
pub enum Why {
    /// PC is odd, or a word of the instruction lies outside of 0x8000 to 0xFF7F.
    Fetch,
    /// No instruction of the profile begins at PC.
    Instruction,
    /// A word access at an odd address, or an odd SP.
    Odd,
    /// A use of the ports that isn't a word read from IN or a word MOV to OUT, END or TRAP.
    Port,
    /// An address where nothing stands.
    Unmapped,
    /// A write at 0x8000 or above.
    ReadOnly,
}

/// What a step did. Costs and charges are in energy units.
#[derive(Clone, Copy, Debug, PartialEq, Eq)]
pub enum Did {
    /// It executed an instruction of this cost, with no effect that has a name of its own.
    Ran { cost: u64 },
    /// It executed a write of this word to OUT.
    Out(u16),
    /// It set CPUOFF.
    Slept,
    /// It executed a write of this word to END.
    Ended(u16),
    /// It executed a write of this word to TRAP.
    Trapped(u16),
    /// The charge fell short of the cost: nothing was executed, and the machine is off.
    Short { need: u64, charge: u64 },
    /// The instruction at PC can't be executed.
    Fault { pc: u16, why: Why },
}

/// What a refill brings: the charge in energy units, whether a sleeping machine keeps its registers and SRAM, and the
/// word that stands in them where they are lost.
#[derive(Clone, Copy, Debug, PartialEq, Eq)]
pub struct Refill {
    pub amount: u64,
    pub keep: bool,
    pub junk: u16,
}
