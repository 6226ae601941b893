//! Programs that are made from a number.
#![tactic(auto)]

mod draws;
#[cfg(test)]
mod tests;
mod text;

pub use text::generated;
