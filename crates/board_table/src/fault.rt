//! Why a board file is refused.

ghost use Rattle.board_table.specs.Faults.{missing, out_of_range};
ghost use Rattle.board_table.specs.Reading.{path_of};
ghost use Rattle.board_table.specs.Steps.{Names};

use super::numbers::path_of;
use std::alloc::Global;

/// Why a board file is refused. A key is its dotted path, as `core.move`.
#[derive(Drop)]
pub enum BoardFault {
    /// The bytes are no TOML document.
    NotToml,
    /// A key that each board has isn't there.
    Missing { key: String },
    /// The value of a key of a board has another type, or is a number out of its range.
    OutOfRange { key: String },
    /// A key that no board has.
    Extra { key: String },
    /// Memory ran out.
    Memory,
}

/// The key of the document isn't there.
pub fn missing_key(alloc: Global, key: &str) -> BoardFault
    ensures { Names result (missing key.now) }
{
    match String::from_str(alloc, key) {
        Ok(key) => BoardFault::Missing { key },
        Err(_) => BoardFault::Memory,
    }
}

/// The value of the key of the document isn't as it should be.
pub fn key_out_of_range(alloc: Global, key: &str) -> BoardFault
    ensures { Names result (out_of_range key.now) }
{
    match String::from_str(alloc, key) {
        Ok(key) => BoardFault::OutOfRange { key },
        Err(_) => BoardFault::Memory,
    }
}

/// The key of the table isn't there.
pub fn missing_cost(alloc: Global, name: &str, key: &str) -> BoardFault
    ensures { Names result (missing (path_of name.now key.now)) }
{
    match path_of(alloc, name, key) {
        Ok(key) => BoardFault::Missing { key },
        Err(_) => BoardFault::Memory,
    }
}

/// The value of the key of the table isn't as it should be.
pub fn cost_out_of_range(alloc: Global, name: &str, key: &str) -> BoardFault
    ensures { Names result (out_of_range (path_of name.now key.now)) }
{
    match path_of(alloc, name, key) {
        Ok(key) => BoardFault::OutOfRange { key },
        Err(_) => BoardFault::Memory,
    }
}
