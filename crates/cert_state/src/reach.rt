//! Where operands may be.
ghost use Rattle.std.specs.Prelude.{◌≤◌};

/// The addresses that a data address may be, and whether each of them is even. They don't wrap.
#[derive(Clone, Copy)]
pub struct Reach {
    pub least: u32,
    pub greatest: u32,
    pub even: bool,
    pub ghost low: { least ≤ 131070 },
    pub ghost high: { greatest ≤ 131070 },
}

/// A number of the instruction's own, a register, or memory.
#[derive(Clone, Copy)]
pub enum Place {
    Number(u16),
    InReg(u8),
    InReach(Reach),
}
