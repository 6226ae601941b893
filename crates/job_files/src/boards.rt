//! Board files.
ghost use Rattle.std.specs.Prelude.{◌≡◌, ◌≤◌, unwrap_or, IfSome, MatchResult, string_bytes};
ghost use Rattle.board_table.specs.File.{IsBoardOf};
ghost use Rattle.job_files.specs.Answers.{IsRefusedFor, answer_of, refused};
ghost use Rattle.job_files.specs.Boards.{IsBoardWith, RefusesBoard};
ghost use Rattle.job_files.specs.Refusals.{board_refused};

use crate::refusal::{BoardRefusal, Refusal};
use crate::status::Status;
use board_table::{Board, BoardFault, read_board};
use std::alloc::Global;

// A board file that is refused.
fn refused(fault: BoardRefusal, key: String) -> Status
    ensures { answer_of result ≡ refused (board_refused fault (string_bytes key)) }
{
    Status::Refused(Refusal::Board { fault, key })
}

// The board of a file.
fn board_of(alloc: Global, bytes: &[u8]) -> Result<Board, Status>
    ensures { MatchResult result (λ b. IsBoardOf bytes.now b) (λ s. IsRefusedFor (RefusesBoard bytes.now) (answer_of s)) }
{
    match read_board(alloc, bytes) {
        Ok(board) => Ok(board),
        Err(BoardFault::NotToml) => Err(refused(BoardRefusal::NotToml, String::new(alloc))),
        Err(BoardFault::Missing { key }) => Err(refused(BoardRefusal::Missing, key)),
        Err(BoardFault::OutOfRange { key }) => Err(refused(BoardRefusal::OutOfRange, key)),
        Err(BoardFault::Extra { key }) => Err(refused(BoardRefusal::Extra, key)),
        Err(BoardFault::Memory) => Err(Status::Memory),
    }
}

// The board with this budget in place of its own, if one is given.
fn with_budget(board: Board, budget: Option<u64>) -> Board
    requires range { IfSome budget (λ n. (1 ≤ n) × (n ≤ 1000000000)) }
    ensures budget { result.budget ≡ unwrap_or budget board.budget }
    ensures core { result.core ≡ board.core }
    ensures access { result.access ≡ board.access }
{
    match budget {
        Some(budget) => Board {
            budget,
            core: board.core,
            access: board.access,
        },
        None => board,
    }
}

/// The board of a file, with this budget in place of its own, if one is given.
pub fn board_with(alloc: Global, bytes: &[u8], budget: Option<u64>) -> Result<Board, Status>
    requires range { IfSome budget (λ n. (1 ≤ n) × (n ≤ 1000000000)) }
    ensures { MatchResult result (IsBoardWith budget bytes.now) (λ s. IsRefusedFor (RefusesBoard bytes.now) (answer_of s)) }
{
    let board = board_of(alloc, bytes)?;
    Ok(with_budget(board, budget))
}
