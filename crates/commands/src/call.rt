//! The call, and the jobs that it knows.
ghost use Rattle.std.specs.Prelude.{◌≡◌, ◌<◌, ◌≤◌, ◌^◌, length, IfSome, MatchResult, string_bytes};
ghost use Rattle.base_io.specs.Counts.{Rose};
ghost use Rattle.job_parts.specs.Asked.{IsInRange, asked, job_task, request};
ghost use Rattle.supply_trace.specs.Boxes.{all_rows};
ghost use Rattle.job_files.specs.Answers.{answer_of, done, not_built, write_fault};
ghost use Rattle.job_files.specs.Output.{Puts, sunk_of};
ghost use Rattle.job_files.specs.Stores.{IsUnwritten, seen_of};
ghost use Rattle.job_files.specs.Text.{output};
ghost use Rattle.build_job.specs.Build.{Build};
ghost use Rattle.build_job.specs.Ends.{BuildEnds};
ghost use Rattle.build_job.specs.InCode.{build_named};
ghost use Rattle.check_job.specs.Ends.{CheckEnds};
ghost use Rattle.check_job.specs.InCode.{check_named};
ghost use Rattle.plan_job.specs.Ends.{PlanEnds};
ghost use Rattle.plan_job.specs.InCode.{plan_named};
ghost use Rattle.run_job.specs.Boxes.{FitBoxes, boxes_seen};
ghost use Rattle.run_job.specs.Ends.{RunEnds};
ghost use Rattle.run_job.specs.InCode.{run_named};
ghost use Rattle.run_job.specs.Opening.{GivesUp, MayRun};
ghost use Rattle.say_job.specs.Ends.{SayEnds};
ghost use Rattle.say_job.specs.InCode.{say_named};
ghost use Rattle.say_job.specs.Opening.{MaySay};
ghost use Rattle.commands.specs.Beginnings.{FitsBoxes, MatchBeginning, Opens, Speaks, TaskGivesUp, TaskRuns, TaskSays, WordsGiveUp};
ghost use Rattle.commands.specs.Call.{Called, ComesTo, TaskEnds};
ghost use Rattle.commands.specs.Causes.{HasCause};
ghost use Rattle.commands.specs.Faults.{IsComplete, IsReadFaultOrFree, IsWriteFault, NoBoxRose, ReadFaultIs, SupplyFaultIs, TooLargeIs, WordsAre, WriteFaultIs};
ghost use Rattle.commands.specs.Headline.{IsKeptTold};
ghost use Rattle.commands.specs.Laws.{DecideOne};
ghost use Rattle.commands.specs.Left.{LeavesTold};
ghost use Rattle.commands.specs.Refusing.{IsRefusal};
ghost use Rattle.commands.specs.Words.{AskBuild, words_in};

use base_io::{Memory, Sink, Store};
use build_job::{BuildJob, build};
use check_job::{CheckJob, check};
use job_files::{Ending, Status, put_line, put_lines, told};
use job_parts::{Asked, Job, read_words};
use lowered_images::lowered_images_agree;
use plan_job::{PlanJob, plan};
use run_job::{OpenedRun, RunJob, open_run, show_run};
use say_job::{OpenedSay, SayJob, open_say, show_say};
use std::alloc::Global;
use supply_trace::Supply;

/// What a job comes to before anything is put: it ends and tells its lines, or it is a run or a say that may begin.
#[derive(Drop)]
pub enum Beginning {
    Ends(Ending),
    Runs(OpenedRun),
    Says(OpenedSay),
}

/// Does the job that the words after the program's name ask for, which are read as `job_parts::read_words` says:
/// `build PROG BOARD IMAGE CERT` builds the image of a program for a board and writes it under IMAGE. Words without a reading, and
/// those of a job that isn't built yet, touch no file. `check IMAGE CERT BOARD` tests an image by its certificate on a board. `run IMAGE BOARD INPUT SUPPLY...` emulates an image: the file of
/// each SUPPLY is loaded into the box of its place, behind the rows that the box holds, and further boxes are dropped. As the call
/// ends, `supplies` holds the boxes that weren't dropped. `say PROG INPUT` runs the plain meaning of a C program. `plan PROG BOARD`
/// tells the plan of a program's checkpoints on a board. It puts one line that tells how the job ended, or the lines of a run, of a say or of
/// a plan.
pub fn schematic<S: Store, K: Sink>(
    alloc: Global,
    words: &[&str],
    store: &mut S,
    supplies: &mut Vec<Box<dyn Supply>>,
    sink: &mut K,
) -> Status
    // There is a box for each word, and what they hold can be counted.
    requires boxes { length words.now ≤ length supplies.old.items }
    requires rows { length (all_rows (λ b. rows_left b) supplies.old.items) < 2 ^ 32 }
    // A build that was done: the image under IMAGE agrees with the program that was read, on the board that was read.
    ensures headline { (job : Build) → AskBuild (words_in words.now) job → answer_of result ≡ done → IsKeptTold (words_in words.now) (S.files store.old) (S.files store.new) }
    // Why each status comes, and that no other comes where no fault is counted.
    ensures cause { IfSome (S.files store.old) (λ files. HasCause (words_in words.now) files (boxes_seen (λ b. rows_left b) (λ b. supply_faults b) supplies.old.items) (answer_of result)) }
    ensures complete { IfSome (S.files store.old) (λ files.
        ¬ Rose (S.read_faults store.old) (S.read_faults store.new) → ¬ Rose (S.write_faults store.old) (S.write_faults store.new)
        → ¬ Rose (K.faults sink.old) (K.faults sink.new)
        → NoBoxRose (words_in words.now) (boxes_seen (λ b. rows_left b) (λ b. supply_faults b) supplies.old.items) (boxes_seen (λ b. rows_left b) (λ b. supply_faults b) supplies.new.items)
        → IsComplete (words_in words.now) files (boxes_seen (λ b. rows_left b) (λ b. supply_faults b) supplies.old.items) (answer_of result)) }
    ensures words { WordsAre (words_in words.now) (answer_of result) }
    // Faults, by the counts of the store, of the boxes and of the output.
    ensures read_fault { ReadFaultIs (words_in words.now) (S.read_faults store.old) (S.read_faults store.new)
        (S.bad_name store.new) (answer_of result) }
    ensures read_rose { S.read_faults store.old < S.read_faults store.new → IsReadFaultOrFree (answer_of result) }
    ensures too_large { TooLargeIs (words_in words.now) (answer_of result) }
    ensures write_fault { WriteFaultIs (words_in words.now) (S.write_faults store.old) (S.write_faults store.new)
        (K.faults sink.old) (K.faults sink.new) (answer_of result) }
    ensures write_rose { S.write_faults store.old < S.write_faults store.new → IsWriteFault (answer_of result) }
    ensures supply_fault { SupplyFaultIs (words_in words.now) (boxes_seen (λ b. rows_left b) (λ b. supply_faults b) supplies.old.items) (boxes_seen (λ b. rows_left b) (λ b. supply_faults b) supplies.new.items) (answer_of result) }
    ensures output_rose { K.faults sink.old < K.faults sink.new → answer_of result ≡ write_fault output }
    // What is left in the files; and the whole: how the job ended, what was put of it, and what is left of the boxes.
    ensures leaves { LeavesTold (words_in words.now) (answer_of result) (S.files store.old) (S.files store.new) }
    ensures failed_write { S.write_faults store.old < S.write_faults store.new → S.files store.new ≡ S.files store.old }
    ensures call { Called (words_in words.now)
        (seen_of S.files S.read_faults S.write_faults S.bad_name store.old)
        (seen_of S.files S.read_faults S.write_faults S.bad_name store.new)
        (boxes_seen (λ b. rows_left b) (λ b. supply_faults b) supplies.old.items)
        (boxes_seen (λ b. rows_left b) (λ b. supply_faults b) supplies.new.items)
        (sunk_of K.taken K.faults sink.old)
        (sunk_of K.taken K.faults sink.new)
        (answer_of result) }
{
    lowered_images_agree();
    run(alloc, words, store, supplies, sink)
}

/// Words, files and boxes decide one answer at most, so that each cause is that of its own status alone.
pub fn words_files_and_boxes_decide_one()
    ensures { DecideOne }
{}

// What a job comes to.
fn job_begun<S: Store>(
    alloc: Global,
    asked: &Asked<'_>,
    store: &mut S,
    supplies: &mut Vec<Box<dyn Supply>>,
) -> Result<Beginning, Memory>
    requires range { IsInRange (request asked.now) }
    requires boxes { FitsBoxes (job_task asked.now.job) (length supplies.old.items) }
    ensures { MatchResult result
        (λ e. MatchBeginning e
        (λ ending. TaskEnds (job_task asked.now.job) asked.now.budget asked.now.steps
        (seen_of S.files S.read_faults S.write_faults S.bad_name store.old)
        (seen_of S.files S.read_faults S.write_faults S.bad_name store.new)
        (boxes_seen (λ b. rows_left b) (λ b. supply_faults b) supplies.old.items) (boxes_seen (λ b. rows_left b) (λ b. supply_faults b) supplies.new.items)
        (answer_of ending.status) (string_bytes ending.line))
        (λ opened. TaskRuns (job_task asked.now.job) asked.now.budget asked.now.steps
        (seen_of S.files S.read_faults S.write_faults S.bad_name store.old)
        (seen_of S.files S.read_faults S.write_faults S.bad_name store.new)
        (boxes_seen (λ b. rows_left b) (λ b. supply_faults b) supplies.old.items) (boxes_seen (λ b. rows_left b) (λ b. supply_faults b) supplies.new.items) opened)
        (λ opened. TaskSays (job_task asked.now.job) asked.now.steps
        (seen_of S.files S.read_faults S.write_faults S.bad_name store.old)
        (seen_of S.files S.read_faults S.write_faults S.bad_name store.new)
        (boxes_seen (λ b. rows_left b) (λ b. supply_faults b) supplies.old.items) (boxes_seen (λ b. rows_left b) (λ b. supply_faults b) supplies.new.items) opened))
        (λ _. TaskGivesUp (job_task asked.now.job)
        (seen_of S.files S.read_faults S.write_faults S.bad_name store.old)
        (seen_of S.files S.read_faults S.write_faults S.bad_name store.new)
        (boxes_seen (λ b. rows_left b) (λ b. supply_faults b) supplies.old.items) (boxes_seen (λ b. rows_left b) (λ b. supply_faults b) supplies.new.items)) }
{
    match &asked.job {
        Job::Build {
            program,
            board,
            image,
            certificate,
        } => {
            let job = BuildJob {
                program,
                board,
                image,
                certificate,
                budget: asked.budget,
            };
            build_begun(alloc, &job, store)
        }
        Job::Run {
            image,
            board,
            input,
            supplies: names,
        } => {
            let budget = asked.budget;
            let job = RunJob {
                image,
                board,
                input,
                supplies: names.as_slice(),
                budget,
                steps: asked.steps,
            };
            run_begun(alloc, &job, store, supplies)
        }
        Job::Say { program, input } => {
            let job = SayJob {
                program,
                input,
                steps: asked.steps,
            };
            say_begun(alloc, &job, store)
        }
        Job::Check {
            image,
            certificate,
            board,
        } => {
            let job = CheckJob {
                image,
                certificate,
                board,
                budget: asked.budget,
            };
            check_begun(alloc, &job, store)
        }
        Job::Plan { program, board } => {
            let job = PlanJob {
                program,
                board,
                budget: asked.budget,
            };
            plan_begun(alloc, &job, store)
        }
        Job::Gen { .. } => unbuilt(alloc),
    }
}

// A job that is refused with this status.
fn refused(alloc: Global, status: Status) -> Result<Beginning, Memory>
    ensures { IsRefusal (answer_of status) result }
{
    let ending = told(alloc, status)?;
    Ok(Beginning::Ends(ending))
}

// A job that isn't built yet.
fn unbuilt(alloc: Global) -> Result<Beginning, Memory>
    ensures { IsRefusal not_built result }
{
    refused(alloc, Status::NotBuilt)
}

// What a build comes to: it always ends.
fn build_begun<S: Store>(alloc: Global, job: &BuildJob, store: &mut S) -> Result<Beginning, Memory>
    ensures { MatchResult result
        (λ e. MatchBeginning e
        (λ ending. BuildEnds (build_named job.now)
        (seen_of S.files S.read_faults S.write_faults S.bad_name store.old)
        (seen_of S.files S.read_faults S.write_faults S.bad_name store.new)
        (answer_of ending.status) (string_bytes ending.line))
        (λ opened. ⊥)
        (λ opened. ⊥))
        (λ _. IsUnwritten
        (seen_of S.files S.read_faults S.write_faults S.bad_name store.old)
        (seen_of S.files S.read_faults S.write_faults S.bad_name store.new)) }
{
    match build(alloc, job, store) {
        Ok(ending) => Ok(Beginning::Ends(ending)),
        Err(e) => Err(e),
    }
}

// What a check comes to: it always ends.
fn check_begun<S: Store>(alloc: Global, job: &CheckJob, store: &mut S) -> Result<Beginning, Memory>
    ensures { MatchResult result
        (λ e. MatchBeginning e
        (λ ending. CheckEnds (check_named job.now)
        (seen_of S.files S.read_faults S.write_faults S.bad_name store.old)
        (seen_of S.files S.read_faults S.write_faults S.bad_name store.new)
        (answer_of ending.status) (string_bytes ending.line))
        (λ opened. ⊥)
        (λ opened. ⊥))
        (λ _. IsUnwritten
        (seen_of S.files S.read_faults S.write_faults S.bad_name store.old)
        (seen_of S.files S.read_faults S.write_faults S.bad_name store.new)) }
{
    match check(alloc, job, store) {
        Ok(ending) => Ok(Beginning::Ends(ending)),
        Err(e) => Err(e),
    }
}

// What a plan comes to: it always ends.
fn plan_begun<S: Store>(alloc: Global, job: &PlanJob, store: &mut S) -> Result<Beginning, Memory>
    ensures { MatchResult result
        (λ e. MatchBeginning e
        (λ ending. PlanEnds (plan_named job.now)
        (seen_of S.files S.read_faults S.write_faults S.bad_name store.old)
        (seen_of S.files S.read_faults S.write_faults S.bad_name store.new)
        (answer_of ending.status) (string_bytes ending.line))
        (λ opened. ⊥)
        (λ opened. ⊥))
        (λ _. IsUnwritten
        (seen_of S.files S.read_faults S.write_faults S.bad_name store.old)
        (seen_of S.files S.read_faults S.write_faults S.bad_name store.new)) }
{
    match plan(alloc, job, store) {
        Ok(ending) => Ok(Beginning::Ends(ending)),
        Err(e) => Err(e),
    }
}

// What a run comes to: it may begin, or it is refused.
fn run_begun<S: Store>(
    alloc: Global,
    job: &RunJob,
    store: &mut S,
    supplies: &mut Vec<Box<dyn Supply>>,
) -> Result<Beginning, Memory>
    requires boxes { FitBoxes (run_named job.now).supplies (length supplies.old.items) }
    ensures { MatchResult result
        (λ e. MatchBeginning e
        (λ ending. RunEnds (run_named job.now)
        (seen_of S.files S.read_faults S.write_faults S.bad_name store.old)
        (seen_of S.files S.read_faults S.write_faults S.bad_name store.new)
        (boxes_seen (λ b. rows_left b) (λ b. supply_faults b) supplies.old.items) (boxes_seen (λ b. rows_left b) (λ b. supply_faults b) supplies.new.items)
        (answer_of ending.status) (string_bytes ending.line))
        (λ opened. MayRun (run_named job.now)
        (seen_of S.files S.read_faults S.write_faults S.bad_name store.old)
        (seen_of S.files S.read_faults S.write_faults S.bad_name store.new)
        (boxes_seen (λ b. rows_left b) (λ b. supply_faults b) supplies.old.items) (boxes_seen (λ b. rows_left b) (λ b. supply_faults b) supplies.new.items) opened)
        (λ opened. ⊥))
        (λ _. GivesUp
        (seen_of S.files S.read_faults S.write_faults S.bad_name store.old)
        (seen_of S.files S.read_faults S.write_faults S.bad_name store.new)
        (boxes_seen (λ b. rows_left b) (λ b. supply_faults b) supplies.old.items) (boxes_seen (λ b. rows_left b) (λ b. supply_faults b) supplies.new.items)) }
{
    match open_run(alloc, job, store, supplies) {
        Ok(opened) => Ok(Beginning::Runs(opened)),
        Err(status) => refused(alloc, status),
    }
}

// What a say comes to: it may begin, or it is refused.
fn say_begun<S: Store>(alloc: Global, job: &SayJob, store: &mut S) -> Result<Beginning, Memory>
    ensures { MatchResult result
        (λ e. MatchBeginning e
        (λ ending. SayEnds (say_named job.now)
        (seen_of S.files S.read_faults S.write_faults S.bad_name store.old)
        (seen_of S.files S.read_faults S.write_faults S.bad_name store.new)
        (answer_of ending.status) (string_bytes ending.line))
        (λ opened. ⊥)
        (λ opened. MaySay (say_named job.now)
        (seen_of S.files S.read_faults S.write_faults S.bad_name store.old)
        (seen_of S.files S.read_faults S.write_faults S.bad_name store.new) opened))
        (λ _. IsUnwritten
        (seen_of S.files S.read_faults S.write_faults S.bad_name store.old)
        (seen_of S.files S.read_faults S.write_faults S.bad_name store.new)) }
{
    match open_say(alloc, job, store) {
        Ok(opened) => Ok(Beginning::Says(opened)),
        Err(status) => Ok(Beginning::Ends(told(alloc, status)?)),
    }
}

// What the job of the words comes to.
fn words_begun<S: Store>(
    alloc: Global,
    words: &[&str],
    store: &mut S,
    supplies: &mut Vec<Box<dyn Supply>>,
) -> Result<Beginning, Memory>
    requires boxes { length words.now ≤ length supplies.old.items }
    ensures { MatchResult result
        (λ e. MatchBeginning e
        (λ ending. ComesTo (asked (words_in words.now))
        (seen_of S.files S.read_faults S.write_faults S.bad_name store.old)
        (seen_of S.files S.read_faults S.write_faults S.bad_name store.new)
        (boxes_seen (λ b. rows_left b) (λ b. supply_faults b) supplies.old.items) (boxes_seen (λ b. rows_left b) (λ b. supply_faults b) supplies.new.items)
        (answer_of ending.status) (string_bytes ending.line))
        (λ opened. Opens (words_in words.now)
        (seen_of S.files S.read_faults S.write_faults S.bad_name store.old)
        (seen_of S.files S.read_faults S.write_faults S.bad_name store.new)
        (boxes_seen (λ b. rows_left b) (λ b. supply_faults b) supplies.old.items) (boxes_seen (λ b. rows_left b) (λ b. supply_faults b) supplies.new.items) opened)
        (λ opened. Speaks (words_in words.now)
        (seen_of S.files S.read_faults S.write_faults S.bad_name store.old)
        (seen_of S.files S.read_faults S.write_faults S.bad_name store.new)
        (boxes_seen (λ b. rows_left b) (λ b. supply_faults b) supplies.old.items) (boxes_seen (λ b. rows_left b) (λ b. supply_faults b) supplies.new.items) opened))
        (λ _. WordsGiveUp (words_in words.now)
        (seen_of S.files S.read_faults S.write_faults S.bad_name store.old)
        (seen_of S.files S.read_faults S.write_faults S.bad_name store.new)
        (boxes_seen (λ b. rows_left b) (λ b. supply_faults b) supplies.old.items) (boxes_seen (λ b. rows_left b) (λ b. supply_faults b) supplies.new.items)) }
{
    match read_words(alloc, words)? {
        Some(asked) => job_begun(alloc, &asked, store, supplies),
        None => refused(alloc, Status::Usage),
    }
}

// Puts the lines of an ending.
fn put_ending<K: Sink>(ending: Ending, name: String, sink: &mut K) -> Status
    requires output { string_bytes name ≡ output }
    ensures { Puts (answer_of ending.status) (string_bytes ending.line)
        (sunk_of K.taken K.faults sink.old)
        (sunk_of K.taken K.faults sink.new)
        (answer_of result) }
{
    put_lines(name, ending.status, ending.line.as_str(), sink)
}

// The whole call.
fn run<S: Store, K: Sink>(
    alloc: Global,
    words: &[&str],
    store: &mut S,
    supplies: &mut Vec<Box<dyn Supply>>,
    sink: &mut K,
) -> Status
    requires boxes { length words.now ≤ length supplies.old.items }
    requires rows { length (all_rows (λ b. rows_left b) supplies.old.items) < 2 ^ 32 }
    ensures { Called (words_in words.now)
        (seen_of S.files S.read_faults S.write_faults S.bad_name store.old)
        (seen_of S.files S.read_faults S.write_faults S.bad_name store.new)
        (boxes_seen (λ b. rows_left b) (λ b. supply_faults b) supplies.old.items)
        (boxes_seen (λ b. rows_left b) (λ b. supply_faults b) supplies.new.items)
        (sunk_of K.taken K.faults sink.old)
        (sunk_of K.taken K.faults sink.new)
        (answer_of result) }
{
    let Ok(output) = String::from_str(alloc, "-") else {
        return Status::Memory;
    };
    match words_begun(alloc, words, store, supplies) {
        Ok(Beginning::Ends(ending)) => put_ending(ending, output, sink),
        Ok(Beginning::Runs(opened)) => show_run(alloc, opened, output, supplies, sink),
        Ok(Beginning::Says(opened)) => show_say(alloc, opened, output, sink),
        Err(_) => put_line(output, Status::Memory, "out of memory\n", sink),
    }
}
