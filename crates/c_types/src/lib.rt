//! The typed program of an untyped tree.
#![tactic(auto)]

mod externals;
mod functions;
mod parameters;
mod typed_program;

pub use c_typing::TypeFault;
pub use typed_program::typed;
