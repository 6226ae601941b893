//! The rules of code, tested from an address on.
#![tactic(auto)]

mod accesses;
mod array;
mod calls;
mod copies;
mod forms;
mod going;
mod implied;
mod lookups;
mod outcomes;
mod overhead;
mod rising;
mod shapes;
mod sheet;
mod standing;
mod steps;
mod sweeping;

pub use sheet::Sheet;
pub use sweeping::sweep;
