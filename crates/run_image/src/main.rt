//! Reads an image as TI-TXT, runs it on one refill that no program here uses up, and prints each word that it puts out,
//! one to a line, and how it ended.
#![tactic(auto)]

use board_table::{Access, Board, Core as Classes};
use msp430_machine::{Did, Machine, Refill};
use power_core::{Core, Event, Seen};
use std::alloc::Global;
use std::io;
use ti_txt::{Image, read};

const REFILL: Refill = Refill {
    amount: 1_000_000_000_000,
    keep: false,
    junk: 0,
};

const STEPS: u32 = 1_000_000;

fn main(rt: HostRuntime) -> io::Result<()> {
    let mut text = Vec::new(rt.alloc());
    for line in rt.lines(rt.alloc()) {
        text.extend_from_slice(line?.as_str().as_bytes())?;
        text.push(b'\n')?;
    }
    match read(rt.alloc(), text.as_slice()) {
        Ok(image) => run(rt, &image),
        Err(fault) => println!(rt; "{fault:?}"),
    }
}

fn run(rt: HostRuntime, image: &Image) -> io::Result<()> {
    match loaded(rt.alloc(), image) {
        Some(core) => print_run(rt, core),
        None => println!(rt; "no memory"),
    }
}

fn loaded(alloc: Global, image: &Image) -> Option<Core> {
    match Machine::load(alloc, image) {
        Ok(machine) => Some(Core::new(machine)),
        Err(_) => None,
    }
}

fn print_run(rt: HostRuntime, mut core: Core) -> io::Result<()> {
    let board = plain_board();
    for _ in 0..STEPS {
        if core.charges() >= 1 << 40 || core.instructions() >= 1 << 40 {
            return Ok(());
        }
        match core.apply(Event::Go, &board, &[]) {
            Seen::Done(Did::Ran { .. }) => {}
            Seen::Done(Did::Out(word)) => println!(rt; "{word}")?,
            Seen::Done(did) => return println!(rt; "{did:?}"),
            Seen::Woke { .. } | Seen::NotNow => {
                if core.charges() >= 1 {
                    return Ok(());
                }
                core.apply(Event::Wake(REFILL), &board, &[]);
            }
        }
    }
    Ok(())
}

// What an instruction costs doesn't matter here.
fn plain_board() -> Board {
    Board {
        budget: 1,
        core: Classes {
            move_: 1,
            alu: 1,
            one: 1,
            push: 1,
            call: 1,
            jump: 1,
        },
        access: Access {
            fetch: 0,
            sram_read: 0,
            sram_write: 0,
            fram_read: 0,
            fram_write: 0,
            port_read: 0,
            port_write: 0,
        },
    }
}
