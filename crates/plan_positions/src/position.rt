//! Positions of code.

ghost use Rattle.std.specs.Prelude.{◌≡◌, ◌++◌, ◌∷◌, [], OnOk};

use base_io::Memory;
use flow_graph::Node;

/// Where a position jumps to: nowhere; the position of this number, from 0; or where the section begins that begins with the
/// operation of this number.
#[derive(Clone, Copy, Debug, PartialEq, Eq)]
pub enum Goal {
    Nowhere,
    To(u64),
    Enters(u32),
}

/// A head; an object is restored from FRAM to SRAM; R10 is set to a number of turns; an operation is done; a turn ends, which
/// lowers R10 and jumps where it is 0; an object is saved from SRAM to FRAM.
#[derive(Clone, Copy, Debug, PartialEq, Eq)]
pub enum What {
    Sleeps,
    Restores(u32),
    Sets(u32),
    Does(Node),
    Turns,
    Saves(u32),
}

/// What stands at a position, where it jumps to, and the number of the operation that is done next wherever a run stands there.
#[derive(Clone, Copy, Debug, PartialEq, Eq)]
pub struct Position {
    pub spot: u32,
    pub what: What,
    pub goal: Goal,
}

/// Puts a position behind the others.
pub fn put(positions: &mut Vec<Position>, spot: u32, what: What, goal: Goal) -> Result<(), Memory>
    ensures { OnOk result (positions.new.items ≡ positions.old.items ++ record { spot = spot; what = what; goal = goal } ∷ []) }
{
    match positions.push(Position { spot, what, goal }) {
        Ok(()) => Ok(()),
        Err(_) => Err(Memory),
    }
}
