//! What each node of a program does.

mod actions;
mod calls;
mod declarations;
mod expressions;
mod loops;
mod operands;
mod statements;
mod switches;

pub use calls::call;
