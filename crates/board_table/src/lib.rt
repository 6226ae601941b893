//! The board file: what an instruction costs on a board.
#![tactic(auto)]

mod board;
mod costs;
mod fault;
mod numbers;
mod others;
mod read;

pub use board::{Access, Board, Core};
pub use fault::BoardFault;
pub use read::read_board;
