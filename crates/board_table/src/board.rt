//! What a board costs. The ranges are part of the types: whoever holds a `&Board` may use them.
//!
//! From `b: &Board` each goal of a function above knows `1 ≤ b.now.core.move_`, `b.now.core.move_ ≤ 1000000` and their like, with no proof file
//! and no clause. A proof by hand names the two facts `b.now.core.move_range.0` and `b.now.core.move_range.1`; an access cost has the one fact
//! `b.now.access.fetch_range`. Who builds a `Board` proves its ranges there.

ghost use Rattle.std.specs.Prelude.{◌≤◌};

/// A board: the charge of a full store and what an instruction costs, all in energy units.
#[derive(Clone, Copy, Debug, PartialEq, Eq)]
pub struct Board {
    /// The charge of a full store, 1 to 1,000,000,000.
    pub budget: u64,
    /// What each class of instructions costs.
    pub core: Core,
    /// What each access to memory costs.
    pub access: Access,
    pub ghost budget_range: { (1 ≤ budget) × (budget ≤ 1000000000) },
}

/// What an instruction of each class costs apart from its accesses, each 1 to 1,000,000 energy units.
#[derive(Clone, Copy, Debug, PartialEq, Eq)]
pub struct Core {
    /// MOV.
    pub move_: u64,
    /// Each other instruction with two operands.
    pub alu: u64,
    /// RRC, RRA, SWPB and SXT.
    pub one: u64,
    /// PUSH.
    pub push: u64,
    /// CALL.
    pub call: u64,
    /// Each jump.
    pub jump: u64,
    pub ghost move_range: { (1 ≤ move_) × (move_ ≤ 1000000) },
    pub ghost alu_range: { (1 ≤ alu) × (alu ≤ 1000000) },
    pub ghost one_range: { (1 ≤ one) × (one ≤ 1000000) },
    pub ghost push_range: { (1 ≤ push) × (push ≤ 1000000) },
    pub ghost call_range: { (1 ≤ call) × (call ≤ 1000000) },
    pub ghost jump_range: { (1 ≤ jump) × (jump ≤ 1000000) },
}

/// What an access costs, each 0 to 1,000,000 energy units.
#[derive(Clone, Copy, Debug, PartialEq, Eq)]
pub struct Access {
    /// One word of an instruction.
    pub fetch: u64,
    /// A read of SRAM.
    pub sram_read: u64,
    /// A write of SRAM.
    pub sram_write: u64,
    /// A read of FRAM, which is all that is neither SRAM nor a port.
    pub fram_read: u64,
    /// A write of FRAM.
    pub fram_write: u64,
    /// A read of a port.
    pub port_read: u64,
    /// A write of a port.
    pub port_write: u64,
    pub ghost fetch_range: { fetch ≤ 1000000 },
    pub ghost sram_read_range: { sram_read ≤ 1000000 },
    pub ghost sram_write_range: { sram_write ≤ 1000000 },
    pub ghost fram_read_range: { fram_read ≤ 1000000 },
    pub ghost fram_write_range: { fram_write ≤ 1000000 },
    pub ghost port_read_range: { port_read ≤ 1000000 },
    pub ghost port_write_range: { port_write ≤ 1000000 },
}
