//! The text of a program: which program it is, or its first fault; and the text that a program's plain meaning shows.
#![tactic(auto)]

mod fault;
mod front;
mod laws;
mod showing;

pub use fault::{ProgramFault, ProgramRefusal};
pub use front::{graph_of_text, program_of, typed_of};
pub use laws::one_reading;
pub use showing::show;
