//! The typed tree of a program, what the program means, and the call that says it.
#![tactic(auto)]

mod chains;
mod halt;
mod laws;
mod leaving;
mod line;
mod lists;
mod nodes;
mod quiet;
mod run;
mod saying;
mod tree;

pub use c_values::{BinaryOp, Ty, UnaryOp};
pub use laws::{go_where_another_step_would_begin, is_steady, steps_are_bounded};
pub use leaving::Leaving;
pub use saying::{Said, SaidEnd, SayFault, say};
pub use tree::{
    Action, BlockItem, Declared, Expr, ExprKind, ForFirst, Function, Group, Label, Program, Stmt,
    StmtKind, Target, Variable,
};
