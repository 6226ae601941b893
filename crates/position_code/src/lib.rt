//! The code of a position: a head, the move of an object, an operation, or the counting of turns.
#![tactic(auto)]

mod code;
mod parts;

pub use code::{Moved, code_of, words_in};
