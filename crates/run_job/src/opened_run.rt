//! A run of an image, from its files to its end.
ghost use Rattle.std.specs.Prelude.{◌≡◌, ◌++◌, ◌<◌, ◌≤◌, ◌^◌, MatchResult, drop, length, map, string_bytes};
ghost use Rattle.msp430_machine.specs.State.{Off};
ghost use Rattle.msp430_machine.specs.Views.{state_of};
ghost use Rattle.power_core.specs.Cores.{no_counts};
ghost use Rattle.supply_trace.specs.Boxes.{all_rows};
ghost use Rattle.job_files.specs.Answers.{answer_of};
ghost use Rattle.job_files.specs.Stores.{seen_of};
ghost use Rattle.job_files.specs.Text.{output};
ghost use Rattle.run_job.specs.Boxes.{FitBoxes, IsPartlyLoaded, boxes_seen, loaded};
ghost use Rattle.run_job.specs.Ends.{IsShown, RunRefuses};
ghost use Rattle.run_job.specs.InCode.{held_in, run_named};
ghost use Rattle.run_job.specs.Opening.{IsOpenedRun, MayRun};

use crate::job::RunJob;
use crate::run_contents::{Contents, contents_of};
use crate::run_texts::texts_of;
use base_io::{Memory, Sink, Store};
use board_table::Board;
use job_files::{Status, status_of};
use msp430_machine::{Machine, Refill};
use power_core::Core;
use std::alloc::Global;
use std::mem;
use supplied_run::run;
use supply_trace::{Bench, Supply};

/// A run that may begin: its files are read and its supplies are loaded. From here on it takes no memory.
#[derive(Drop)]
pub struct OpenedRun {
    pub core: Core,
    pub board: Board,
    pub input: Vec<u16>,
    /// The most instructions.
    pub steps: u64,
}

fn load_box(b: &mut Box<dyn Supply>, rows: Vec<Refill>) -> Result<(), Memory>
    ensures rows { MatchResult result
        (λ _. (⟦<dyn Supply as Supply>⟧ b.new.vtable).rows_left b.new.value ≡ (⟦<dyn Supply as Supply>⟧ b.old.vtable).rows_left b.old.value ++ rows.items)
        (λ _. (⟦<dyn Supply as Supply>⟧ b.new.vtable).rows_left b.new.value ≡ (⟦<dyn Supply as Supply>⟧ b.old.vtable).rows_left b.old.value) }
    ensures faults { (⟦<dyn Supply as Supply>⟧ b.new.vtable).supply_faults b.new.value ≡ (⟦<dyn Supply as Supply>⟧ b.old.vtable).supply_faults b.old.value }
{
    match b.load(rows) {
        Ok(()) => Ok(()),
        Err(_) => Err(Memory),
    }
}

// Loads the rows of each file into the box of its place.
fn load_each(rows: Vec<Vec<Refill>>, supplies: &mut Vec<Box<dyn Supply>>) -> Result<(), Memory>
    requires { length rows.items ≤ length supplies.old.items }
    ensures { MatchResult result
        (λ _. (boxes_seen (λ b. rows_left b) (λ b. supply_faults b) supplies.new.items) ≡ loaded (boxes_seen (λ b. rows_left b) (λ b. supply_faults b) supplies.old.items) (map (λ v. v.items) rows.items) ++ drop (length rows.items) (boxes_seen (λ b. rows_left b) (λ b. supply_faults b) supplies.old.items))
        (λ _. IsPartlyLoaded (boxes_seen (λ b. rows_left b) (λ b. supply_faults b) supplies.old.items) (boxes_seen (λ b. rows_left b) (λ b. supply_faults b) supplies.new.items)) }
{
    let mut i = 0;
    for more in rows {
        if load_box(&mut supplies[i], more).is_err() {
            return Err(Memory);
        }
        i += 1;
    }
    Ok(())
}

// Loads the device and the supplies, and drops the boxes behind those unasked.
fn loaded(
    alloc: Global,
    steps: u64,
    contents: Contents,
    supplies: &mut Vec<Box<dyn Supply>>,
) -> Result<OpenedRun, Memory>
    requires { length contents.rows.items ≤ length supplies.old.items }
    ensures { MatchResult result
        (λ opened. IsOpenedRun steps (held_in contents) (boxes_seen (λ b. rows_left b) (λ b. supply_faults b) supplies.old.items) (boxes_seen (λ b. rows_left b) (λ b. supply_faults b) supplies.new.items) opened)
        (λ _. IsPartlyLoaded (boxes_seen (λ b. rows_left b) (λ b. supply_faults b) supplies.old.items) (boxes_seen (λ b. rows_left b) (λ b. supply_faults b) supplies.new.items)) }
{
    let machine = Machine::load(alloc, &contents.image)?;
    let count = contents.rows.len();
    load_each(contents.rows, supplies)?;
    supplies.truncate(count);
    Ok(OpenedRun {
        core: Core::new(machine),
        board: contents.board,
        input: contents.input,
        steps,
    })
}

/// Reads the files of a run, and loads the device and the supplies.
pub fn open_run<S: Store>(
    alloc: Global,
    job: &RunJob,
    store: &mut S,
    supplies: &mut Vec<Box<dyn Supply>>,
) -> Result<OpenedRun, Status>
    requires boxes { FitBoxes (run_named job.now).supplies (length supplies.old.items) }
    ensures { MatchResult result
        (λ opened. MayRun (run_named job.now)
        (seen_of S.files S.read_faults S.write_faults S.bad_name store.old)
        (seen_of S.files S.read_faults S.write_faults S.bad_name store.new)
        (boxes_seen (λ b. rows_left b) (λ b. supply_faults b) supplies.old.items) (boxes_seen (λ b. rows_left b) (λ b. supply_faults b) supplies.new.items) opened)
        (λ status. RunRefuses (run_named job.now)
        (seen_of S.files S.read_faults S.write_faults S.bad_name store.old)
        (seen_of S.files S.read_faults S.write_faults S.bad_name store.new)
        (boxes_seen (λ b. rows_left b) (λ b. supply_faults b) supplies.old.items) (boxes_seen (λ b. rows_left b) (λ b. supply_faults b) supplies.new.items) (answer_of status)) }
{
    let texts = texts_of(alloc, job, store)?;
    let contents = contents_of(alloc, job, &texts)?;
    match loaded(alloc, job.steps, contents, supplies) {
        Ok(opened) => Ok(opened),
        Err(_) => Err(Status::Memory),
    }
}

/// Runs the device over the rows of the supplies, and leaves the boxes that weren't dropped. It puts the lines of the run. Where
/// the output, of this name, fails, that is the status.
pub fn show_run<K: Sink>(
    alloc: Global,
    opened: OpenedRun,
    name: String,
    supplies: &mut Vec<Box<dyn Supply>>,
    sink: &mut K,
) -> Status
    requires fresh { opened.core.counts ≡ no_counts }
    requires off { opened.core.machine.phase ≡ Off }
    requires few_steps { opened.steps ≤ 1000000000 }
    requires few_rows { length (all_rows (λ b. rows_left b) supplies.old.items) < 2 ^ 33 }
    requires output { string_bytes name ≡ output }
    ensures { IsShown opened.board opened.input.items opened.steps (state_of opened.core.machine)
        (boxes_seen (λ b. rows_left b) (λ b. supply_faults b) supplies.old.items) (boxes_seen (λ b. rows_left b) (λ b. supply_faults b) supplies.new.items)
        (K.taken sink.old) (K.taken sink.new) (K.faults sink.old) (K.faults sink.new) (answer_of result) }
{
    let mut bench = Bench::new(mem::replace(supplies, Vec::new(alloc)));
    let told = run(
        opened.core,
        &mut bench,
        &opened.board,
        &opened.input,
        opened.steps,
        sink,
    );
    *supplies = bench.boxes();
    match told {
        Ok(end) => status_of(end),
        Err(_) => Status::WriteFault { name },
    }
}
