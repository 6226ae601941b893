//! The board of a file.

ghost use Rattle.std.specs.Prelude.{◌≡◌, ◌↔◌, MatchResult, Ok};
ghost use Rattle.toml.specs.View.{table_view};
ghost use Rattle.board_table.specs.Faults.{extra, missing, not_toml, out_of_range};
ghost use Rattle.board_table.specs.File.{IsBoardIn, IsBoardOf, IsDocument, IsFault, IsNotToml, IsRefused, Refuses, UnlessMemory};
ghost use Rattle.board_table.specs.Keys.{Text};
ghost use Rattle.board_table.specs.Steps.{IsUnread, RefusesIn};
ghost use Rattle.board_table.specs.declared.board.Board.{Board};

use super::board::Board;
use super::costs::{access_of, core_of};
use super::fault::BoardFault;
use super::numbers::{budget_of, member};
use super::others::least_other;
use std::alloc::Global;
use toml::Table;

/// The board of a document.
fn board_of(alloc: Global, table: &Table) -> Result<Board, BoardFault>
    ensures { MatchResult result (IsBoardIn (table_view table.now)) (RefusesIn (table_view table.now)) }
{
    let budget = budget_of(alloc, member(table, "budget"))?;
    let core = core_of(alloc, member(table, "core"))?;
    let access = access_of(alloc, member(table, "access"))?;
    match least_other(alloc, table) {
        Ok(None) => Ok(Board {
            budget,
            core,
            access,
        }),
        Ok(Some(key)) => Err(BoardFault::Extra { key }),
        Err(_) => Err(BoardFault::Memory),
    }
}

/// The table of the document that the bytes are.
fn table_of(alloc: Global, bytes: &[u8]) -> Result<Table, BoardFault>
    ensures { MatchResult result (λ t. IsDocument bytes.now (table_view t)) (IsUnread bytes.now) }
{
    let text = match std::str::from_utf8(bytes) {
        Ok(text) => text,
        Err(_) => return Err(BoardFault::NotToml),
    };
    match toml::table_from_str(alloc, text) {
        Ok(table) => Ok(table),
        Err(e) => {
            if e.is_memory() {
                Err(BoardFault::Memory)
            } else {
                Err(BoardFault::NotToml)
            }
        }
    }
}

/// The board that the bytes describe.
fn board_in(alloc: Global, bytes: &[u8]) -> Result<Board, BoardFault>
    ensures { MatchResult result (IsBoardOf bytes.now) (Refuses bytes.now) }
{
    let table = table_of(alloc, bytes)?;
    board_of(alloc, &table)
}

/// The board that a file of these bytes describes, or why they are refused.
///
/// The file is a TOML document of the keys `budget`, `core.move` to `core.jump` and `access.fetch` to `access.port_write`, in any order and form. They are
/// tested in this order, each first for `Missing` and then for `OutOfRange`. A table that isn't there misses its first key, and a value in place of
/// a table is itself out of range. Then the least other key, by the bytes of its dotted path, is `Extra`; a table is a key too.
pub fn read_board(alloc: Global, bytes: &[u8]) -> Result<Board, BoardFault>
    ensures answer { MatchResult result (IsBoardOf bytes.now) (Refuses bytes.now) }
    ensures board { UnlessMemory result ((b : Board) → (result ≡ Ok b) ↔ IsBoardOf bytes.now b) }
    ensures not_toml { UnlessMemory result (IsFault result not_toml ↔ IsNotToml bytes.now) }
    ensures missing { UnlessMemory result ((key : Text) → IsFault result (missing key) ↔ IsRefused bytes.now (missing key)) }
    ensures out_of_range { UnlessMemory result ((key : Text) → IsFault result (out_of_range key) ↔ IsRefused bytes.now (out_of_range key)) }
    ensures extra { UnlessMemory result ((key : Text) → IsFault result (extra key) ↔ IsRefused bytes.now (extra key)) }
{
    board_in(alloc, bytes)
}
