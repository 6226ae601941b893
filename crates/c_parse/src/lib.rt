//! The untyped tree of a C program's tokens.
#![tactic(auto)]

mod begins;
mod choose;
mod choose_declaration;
mod choose_expression;
mod choose_external;
mod choose_statement;
mod choose_type;
mod class;
mod class_of;
mod endings;
mod fault;
mod fitting;
mod form;
mod grouping;
mod last_words;
mod laws;
mod left_out;
mod machine;
mod no_memory;
mod parsing;
mod profile;
mod raw;
mod tally;
mod waits;
mod words;

pub use class::Class;
pub use fault::ParseFault;
pub use form::{Delay, Form, Late, Symbol, Wait, Within};
pub use laws::{groups_by_level, one_grouping, one_level, one_tree};
pub use left_out::LeftOut;
pub use no_memory::NoMemory;
pub use parsing::parse;
pub use raw::{Raw, RawRule};
