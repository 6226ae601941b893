//! The device: its state, one instruction, one refill.
#![tactic(auto)]

mod access;
mod addresses;
mod answer;
mod arith;
mod cost;
mod execute;
mod load;
mod machine;
mod operand;
mod step;

pub use addresses::{
    CODE_START, END, FETCH_END, FRAM_START, GATE, IN, INFO_END, INFO_START, OUT, PORTS_END,
    PORTS_START, RESET_VECTOR, RESUME, Region, SAVED_SP, SRAM_END, SRAM_START, TRAP, region_of,
};
pub use answer::{Did, Phase, Refill, Why};
pub use cost::{cost_by, instruction_cost};
pub use machine::Machine;
pub use operand::Operand;
