//! The code of a position.

ghost use Rattle.std.specs.Prelude.{◌≡◌, ◌≤◌, length, take};
ghost use Rattle.emit_templates.specs.Placed.{home_in};
ghost use Rattle.resumed_runs.specs.Code.{size_of};
ghost use Rattle.position_code.specs.Coded.{IsReady, code_with};

use crate::parts::{head, listed, object_move, sets, turn_end};
use emit_templates::{Instrs, Places, template};
use msp430_isa::{Instr, length_of};
use msp430_machine::CODE_START;
use plan_positions::What;

/// What is known of an object that is moved: whether it is an array, and its words.
#[derive(Clone, Copy, Debug, PartialEq, Eq)]
pub struct Moved {
    pub array: bool,
    pub words: u16,
}

fn place_in(places: &Places, object: u32) -> u16
    ensures { result ≡ home_in places.now.of.items object }
{
    places.of.get(object as usize).copied().unwrap_or(0)
}

/// The code of a position at a word of the code, counted from its beginning, which jumps to the address `target`. Objects have
/// the addresses `fram` in FRAM, and `places` where the operations of its section find them; `moved` tells of the one that the
/// position moves.
pub fn code_of(
    what: What,
    moved: Moved,
    fram: &Places,
    places: &Places,
    here: u32,
    target: u16,
) -> Instrs
    requires here { here ≤ 0x3FC0 }
    requires small { moved.words ≤ 0x7FFF }
    requires ready { IsReady places.now.of.items what }
    ensures listed { take result.count result.list ≡ code_with moved fram.now.of.items places.now.of.items here target what }
    ensures few { result.count ≤ 96 }
{
    match what {
        What::Sleeps => listed(&head(CODE_START + 2 * (here as u16 + 9))),
        What::Restores(object) => object_move(
            moved.array,
            moved.words,
            place_in(fram, object),
            place_in(places, object),
        ),
        What::Sets(turns) => listed(&sets(turns as u16)),
        What::Does(node) => template(&node.op, places, target),
        What::Turns => listed(&turn_end()),
        What::Saves(object) => object_move(
            moved.array,
            moved.words,
            place_in(places, object),
            place_in(fram, object),
        ),
    }
}

/// How many words the instructions have.
fn size_of_all(instructions: &[Instr]) -> u32
    requires few { length instructions.now ≤ 96 }
    ensures words { result ≡ size_of instructions.now }
    ensures small { result ≤ 288 }
{
    let mut words = 0;
    for instruction in instructions {
        words += u32::from(length_of(*instruction));
    }
    words
}

/// How many words a list of instructions has.
pub fn words_in(code: &Instrs) -> u32
    requires few { code.now.count ≤ 96 }
    ensures words { result ≡ size_of (take code.now.count code.now.list) }
    ensures small { result ≤ 288 }
{
    size_of_all(&code.list[..code.count as usize])
}
