//! Declarations of objects, statements and the items of blocks.
#![tactic(auto)]

pub mod declarations;
pub mod statement_parts;
pub mod statements;
mod switches;
