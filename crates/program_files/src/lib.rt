//! The program of a text, or its graph, or the status that refuses it, for all jobs that read a program.
#![tactic(auto)]

mod program;

pub use program::{graph_in, program_in};
