//! The lowering of a typed program to its flow graph.
#![tactic(auto)]

mod actions;
mod arms;
mod bodies;
mod calling;
mod constants;
mod counted;
mod declarations;
mod exprs;
mod holding;
mod homes;
mod lists;
mod locals;
mod making;
mod numbering;
mod operators;
mod programs;
mod reached;
mod stmts;
mod waiting;

pub use programs::{LowerFault, lower};
