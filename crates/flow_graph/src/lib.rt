//! The flow graph of a program: its operations in the order of their structure, over objects of words.
#![tactic(auto)]

mod graph;
mod laws;
mod lists;
mod nodes;
mod owned;

pub use graph::{ArrayUse, Func, Graph, Item, LeaveTo, Object, Op, OpKind, Operand};
pub use laws::graphs_are_run;
pub use nodes::{Around, Next, Node, body_nodes, first};
pub use owned::{Owned, owned_operations};
