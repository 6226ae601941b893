//! The code of each operation, and what it costs.
#![tactic(auto)]

mod code;
mod law;
mod weighing;
mod weights;

pub use code::{
    by, constant, div_turn, index_code, jump, left_turn, less, logical_turn, mul_turn, negated,
    right_turn, shift_tests, sign_of_quotient, sign_of_remainder, sixteen, turned, unless_negative,
    unless_zero,
};
pub use law::depend_on_memories;
pub use weights::{Homes, cost, fits, need, overhead, result_of};
