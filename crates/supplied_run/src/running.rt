//! The run.
ghost use Rattle.std.specs.Prelude.{◌≡◌, ◌≤◌, ◌<◌, ◌^◌, length};
ghost use Rattle.base_io.specs.Counts.{CountsFaults};
ghost use Rattle.base_io.specs.Pieces.{AddsTold};
ghost use Rattle.msp430_machine.specs.Views.{state_of};
ghost use Rattle.power_core.specs.Cores.{no_counts};
ghost use Rattle.supply_trace.specs.Boxes.{all_rows, boxes_of};
ghost use Rattle.supplied_run.specs.Lines.{last_lines, word_lines};
ghost use Rattle.supplied_run.specs.Rows.{IsRunning};
ghost use Rattle.supplied_run.specs.Shown.{AreLeft, FrontCounts, Shows};
ghost use Rattle.supplied_run.specs.Turns.{words_of};

use crate::End;
use crate::line::{put_counts, put_end, put_word};
use crate::turn::{Turn, take_turn};
use base_io::{Sink, SinkFault};
use board_table::Board;
use power_core::Core;
use supply_trace::{Bench, Supply};

// Puts the last two lines.
fn finish<K: Sink>(core: &Core, end: End, sink: &mut K) -> Result<(), SinkFault>
    ensures told { AddsTold (last_lines end core.now.counts) result (K.taken sink.old) (K.taken sink.new) }
    ensures cause { CountsFaults result (K.faults sink.old) (K.faults sink.new) }
{
    put_end(end, sink)?;
    put_counts(core, sink)
}

// Puts the line of the word that an event puts, if it does.
fn put_turn<K: Sink>(turn: Turn, sink: &mut K) -> Result<(), SinkFault>
    ensures told { AddsTold (word_lines (words_of turn)) result (K.taken sink.old) (K.taken sink.new) }
    ensures cause { CountsFaults result (K.faults sink.old) (K.faults sink.new) }
{
    match turn {
        Turn::Puts(word) => put_word(word, sink),
        Turn::On | Turn::Stops(_) => Ok(()),
    }
}

/// Runs the device on this board and input, which goes on with zeros behind its end. A step is taken while the machine is
/// awake; a wake is by the next row of the bench. It ends, in this order, where the machine has stopped, where so many
/// instructions (1 to a thousand million) were executed, and where no row can be had. The sink is given a line for each
/// word, the line of the end and the line of the counts, each in one `put`; behind one that failed nothing more is put.
/// It takes no memory.
pub fn run<K: Sink>(
    core: Core,
    bench: &mut Bench,
    board: &Board,
    input: &[u16],
    steps: u64,
    sink: &mut K,
) -> Result<End, SinkFault>
    requires fresh { core.counts ≡ no_counts }
    requires running { IsRunning core.machine.phase }
    requires few_steps { steps ≤ 1000000000 }
    requires few_rows { length (all_rows (λ b. (⟦<dyn Supply as Supply>⟧ b.vtable).rows_left b.value) (boxes_of bench.old)) < 2 ^ 33 }
    // The run that the rows decide, and its text.
    ensures shown { Shows board.now input.now steps (state_of core.machine)
        (all_rows (λ b. (⟦<dyn Supply as Supply>⟧ b.vtable).rows_left b.value) (boxes_of bench.old)) (all_rows (λ b. (⟦<dyn Supply as Supply>⟧ b.vtable).rows_left b.value) (boxes_of bench.new))
        result (K.taken sink.old) (K.taken sink.new) }
    // Boxes are dropped from the front; the one in front has failed where the supply did.
    ensures boxes { AreLeft (λ b. (⟦<dyn Supply as Supply>⟧ b.vtable).supply_faults b.value) (FrontCounts result) (boxes_of bench.old) (boxes_of bench.new) }
    ensures cause { CountsFaults result (K.faults sink.old) (K.faults sink.new) }
{
    let mut core = core;
    loop {
        let turn = take_turn(&mut core, bench, board, input, steps);
        if let Turn::Stops(end) = turn {
            match finish(&core, end, sink) {
                Ok(()) => return Ok(end),
                Err(fault) => return Err(fault),
            }
        }
        match put_turn(turn, sink) {
            Ok(()) => {}
            Err(fault) => return Err(fault),
        }
    }
}
