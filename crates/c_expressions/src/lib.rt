//! Expressions and assignments with their types.
#![tactic(auto)]

pub mod actions;
mod calls;
pub mod constants;
pub mod conversions;
pub mod expressions;
mod names;
pub mod notes;
pub mod operators;
pub mod trees;
pub mod values;
