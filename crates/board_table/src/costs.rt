//! The two tables of costs of a board file.

ghost use Rattle.std.specs.Prelude.{◌≡◌, option_map};
ghost use Rattle.toml.specs.View.{view};
ghost use Rattle.board_table.specs.Reading.{access_numbers, core_numbers};
ghost use Rattle.board_table.specs.Steps.{MeetsAll, access_readings, core_readings};

use super::board::{Access, Core};
use super::fault::BoardFault;
use super::numbers::cost;
use std::alloc::Global;
use toml::Value;

/// The costs of the classes of instructions, by what stands under `core`.
pub fn core_of(alloc: Global, table: Option<&Value>) -> Result<Core, BoardFault>
    ensures { MeetsAll core_numbers result (core_readings (option_map (λ v. view v.now) table.entry)) }
{
    let move_ = cost(alloc, table, "core", "move", 1)?;
    let alu = cost(alloc, table, "core", "alu", 1)?;
    let one = cost(alloc, table, "core", "one", 1)?;
    let push = cost(alloc, table, "core", "push", 1)?;
    let call = cost(alloc, table, "core", "call", 1)?;
    let jump = cost(alloc, table, "core", "jump", 1)?;
    Ok(Core {
        move_,
        alu,
        one,
        push,
        call,
        jump,
    })
}

/// The costs of accesses, by what stands under `access`.
pub fn access_of(alloc: Global, table: Option<&Value>) -> Result<Access, BoardFault>
    ensures { MeetsAll access_numbers result (access_readings (option_map (λ v. view v.now) table.entry)) }
{
    let fetch = cost(alloc, table, "access", "fetch", 0)?;
    let sram_read = cost(alloc, table, "access", "sram_read", 0)?;
    let sram_write = cost(alloc, table, "access", "sram_write", 0)?;
    let fram_read = cost(alloc, table, "access", "fram_read", 0)?;
    let fram_write = cost(alloc, table, "access", "fram_write", 0)?;
    let port_read = cost(alloc, table, "access", "port_read", 0)?;
    let port_write = cost(alloc, table, "access", "port_write", 0)?;
    Ok(Access {
        fetch,
        sram_read,
        sram_write,
        fram_read,
        fram_write,
        port_read,
        port_write,
    })
}
