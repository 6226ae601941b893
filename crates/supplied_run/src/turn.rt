//! One event of a run, and what it means for the run.
ghost use Rattle.std.specs.Prelude.{◌≡◌, ◌≤◌, ◌<◌, ◌^◌, ℕ};
ghost use Rattle.msp430_machine.specs.Wakes.{CanWake};
ghost use Rattle.supply_trace.specs.Boxes.{all_rows, boxes_of};
ghost use Rattle.supplied_run.specs.Rows.{IsRunning};
ghost use Rattle.supplied_run.specs.Shown.{AreLeft};
ghost use Rattle.supplied_run.specs.Turns.{TurnCounts, Turns, turn_of as turn_of_lem};

use crate::End;
use board_table::Board;
use msp430_machine::Did;
use power_core::{Core, Event, Seen};
use supply_trace::{Bench, Given, Supply};

/// What an event means for the run: it goes on, it puts a word and goes on, or it ends.
#[derive(Clone, Copy, Debug, PartialEq, Eq)]
pub enum Turn {
    On,
    Puts(u16),
    Stops(End),
}

// What a step means.
fn turn_of(did: Did) -> Turn
    ensures { result ≡ turn_of_lem did }
{
    match did {
        Did::Ran { .. } | Did::Slept | Did::Short { .. } => Turn::On,
        Did::Out(word) => Turn::Puts(word),
        Did::Ended(word) => Turn::Stops(End::Ended(word)),
        Did::Trapped(word) => {
            if word == 4 {
                Turn::Stops(End::PowerFault)
            } else {
                Turn::Stops(End::Trapped(word))
            }
        }
        Did::Fault { pc, why } => Turn::Stops(End::MachineFault { pc, why }),
    }
}

// A wake is due: it is by the next row, if one can be had.
fn wake(core: &mut Core, bench: &mut Bench, board: &Board, input: &[u16]) -> Turn
    requires due { CanWake core.old.machine.phase }
    requires few_charges { core.old.counts.charges < 2 ^ 40 }
    requires few_instructions { core.old.counts.instructions < 2 ^ 40 }
    ensures turns { (limit : ℕ) → core.old.counts.instructions < limit → Turns board.now input.now limit result
        (all_rows (λ b. (⟦<dyn Supply as Supply>⟧ b.vtable).rows_left b.value) (boxes_of bench.old)) core.old (all_rows (λ b. (⟦<dyn Supply as Supply>⟧ b.vtable).rows_left b.value) (boxes_of bench.new)) core.new }
    ensures boxes { AreLeft (λ b. (⟦<dyn Supply as Supply>⟧ b.vtable).supply_faults b.value) (TurnCounts result) (boxes_of bench.old) (boxes_of bench.new) }
{
    match bench.next() {
        Given::Row(row) => {
            core.apply(Event::Wake(row), board, input);
            Turn::On
        }
        Given::Ended => Turn::Stops(End::SupplyEnded),
        Given::Failed => Turn::Stops(End::SupplyFault),
    }
}

/// The next event of a run that hasn't stopped: none where the limit is reached, else a step, else a wake.
pub fn take_turn(
    core: &mut Core,
    bench: &mut Bench,
    board: &Board,
    input: &[u16],
    steps: u64,
) -> Turn
    requires running { IsRunning core.old.machine.phase }
    requires few_charges { core.old.counts.charges < 2 ^ 40 }
    requires few_steps { steps ≤ 1000000000 }
    requires within { core.old.counts.instructions ≤ steps }
    ensures turns { Turns board.now input.now steps result
        (all_rows (λ b. (⟦<dyn Supply as Supply>⟧ b.vtable).rows_left b.value) (boxes_of bench.old)) core.old (all_rows (λ b. (⟦<dyn Supply as Supply>⟧ b.vtable).rows_left b.value) (boxes_of bench.new)) core.new }
    ensures boxes { AreLeft (λ b. (⟦<dyn Supply as Supply>⟧ b.vtable).supply_faults b.value) (TurnCounts result) (boxes_of bench.old) (boxes_of bench.new) }
{
    if core.instructions() >= steps {
        return Turn::Stops(End::StepLimit);
    }
    match core.apply(Event::Go, board, input) {
        Seen::Done(did) => turn_of(did),
        _ => wake(core, bench, board, input),
    }
}
