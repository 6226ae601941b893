//! The emitter of graphs of one function, with all objects in FRAM and a head before chosen operations: before each, or before the first
//! alone where all is one stretch.
#![tactic(auto)]

mod budget;
mod bytes;
mod code;
mod data;
mod each;
mod fault;
mod heads;
mod image;
mod lists;
mod operations;
mod places;

pub use data::places_of;
pub use each::emit_each;
pub use fault::{EmitFault, Room};
pub use heads::{heads_of, is_one_stretch};
