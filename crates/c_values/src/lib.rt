//! Types and operators of the C profile, and what the operators give on words.
#![tactic(auto)]

mod ops;
#[cfg(test)]
mod tests;
mod values;

pub use ops::{BinaryOp, Ty, UnaryOp};
pub use values::{
    DIVIDE_TRAP, INDEX_TRAP, SHIFT_TRAP, binary, converted, from_test, is_set, unary, value,
};
