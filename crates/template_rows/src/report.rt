//! What is printed of an operation.

ghost use Rattle.emit_templates.specs.Placed.{HasHomes};

use board_table::{Access, Board, Core};
use emit_templates::{Places, template};
use flow_graph::Op;
use msp430_isa::{Instr, encode, in_profile};
use msp430_machine::FRAM_START;
use op_cost::{Homes, cost, fits};
use std::alloc::{AllocError, Global};

const TARGET: u16 = 39612;

/// The line with the words, the cost and whether the operation fits; or what is missing.
pub fn report(alloc: Global, line: &str, op: &Op, places: &Places) -> Result<String, AllocError> {
    if !places.has(op) {
        return format!(in alloc; "{line}: an object has no place");
    }
    let words = words_of(alloc, op, places)?;
    let homes = Homes {
        sram: in_sram(alloc, &places.of)?,
    };
    let board = board();
    let units = cost(op, &homes, &board);
    let fit = if fits(op, &board) {
        "fits"
    } else {
        "doesn't fit"
    };
    format!(in alloc; "{line}:{words}, costs {units}, {fit}")
}

fn words_of(alloc: Global, op: &Op, places: &Places) -> Result<String, AllocError>
    requires { HasHomes places.now.of.items op.now }
{
    let code = template(op, places, TARGET);
    let mut text = String::new(alloc);
    for instr in code.list.iter().take(code.count as usize) {
        add_words(&mut text, instr)?;
    }
    Ok(text)
}

fn add_words(text: &mut String, instr: &Instr) -> Result<(), AllocError> {
    if in_profile(instr) {
        let words = encode(instr);
        for word in words.w.iter().take(words.len as usize) {
            write!(text, " {:04X}", word)?;
        }
    }
    Ok(())
}

// The objects that are in SRAM.
fn in_sram(alloc: Global, places: &[u16]) -> Result<Vec<u32>, AllocError> {
    let mut objects = Vec::new(alloc);
    let mut number: u32 = 0;
    for place in places {
        if *place < FRAM_START {
            objects.push(number)?;
        }
        number = number.saturating_add(1);
    }
    Ok(objects)
}

// All costs differ, so that none stands for another.
fn board() -> Board {
    Board {
        budget: 2300,
        core: Core {
            move_: 3,
            alu: 5,
            one: 7,
            push: 11,
            call: 13,
            jump: 17,
        },
        access: Access {
            fetch: 19,
            sram_read: 23,
            sram_write: 29,
            fram_read: 31,
            fram_write: 37,
            port_read: 41,
            port_write: 43,
        },
    }
}
