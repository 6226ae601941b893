//! The tokens of a C program text (C11 6.4), or its first lexical fault.
#![tactic(auto)]

mod bytes;
mod gaps;
mod laws;
mod literals;
mod piece;
mod reading;
mod scanning;
mod spot;
mod token;
mod words;

pub use laws::{longest_tokens, one_cut};
pub use reading::tokens;
pub use token::{LexFault, Token, TokenKind};
