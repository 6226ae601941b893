//! The plain meaning of a program on an input, from its files to its end.
ghost use Rattle.std.specs.Prelude.{◌≡◌, ◌≤◌, IfOk, IfSome, MatchResult, length, string_bytes};
ghost use Rattle.job_files.specs.Answers.{IsRefusedFor, answer_of};
ghost use Rattle.job_files.specs.Reads.{CountsReading, most_program};
ghost use Rattle.job_files.specs.Text.{output};
ghost use Rattle.say_job.specs.Ends.{IsSaid};
ghost use Rattle.say_job.specs.InCode.{say_named};
ghost use Rattle.say_job.specs.Opening.{IsHeldOf, SayHolds};
ghost use Rattle.say_job.specs.Say.{say_files};
ghost use Rattle.say_job.specs.Saying.{RefusesSay, RefusesSayTexts, SayCauses};

use crate::job::SayJob;
use base_io::{Sink, Store};
use c_tree::{Program, SayFault};
use job_files::{MOST_INPUT, MOST_PROGRAM, Status, input_of, put_line, read_two, status_of};
use program_files::program_in;
use program_texts::show;
use std::alloc::Global;

/// A program and its input, with the most steps that it may begin.
#[derive(Drop)]
pub struct OpenedSay {
    pub program: Program,
    pub input: Vec<u16>,
    pub steps: u64,
}

// What the texts of a say hold. The program is looked at first.
fn contents_of(
    alloc: Global,
    job: &SayJob,
    program: &[u8],
    input: &[u8],
) -> Result<OpenedSay, Status>
    requires { length program.now ≤ most_program }
    ensures { MatchResult result
        (λ s. IsHeldOf (say_named job.now) program.now input.now s)
        (λ s. IsRefusedFor (RefusesSayTexts (say_named job.now) program.now input.now) (answer_of s)) }
{
    let program = match program_in(alloc, program) {
        Ok(program) => program,
        Err(status) => return Err(status),
    };
    match input_of(alloc, job.input, input) {
        Ok(input) => Ok(OpenedSay {
            program,
            input,
            steps: job.steps,
        }),
        Err(status) => Err(status),
    }
}

/// Reads the files of a say.
pub fn open_say<S: Store>(alloc: Global, job: &SayJob, store: &mut S) -> Result<OpenedSay, Status>
    ensures files { S.files store.new ≡ S.files store.old }
    ensures writes { S.write_faults store.new ≡ S.write_faults store.old }
    ensures later { S.read_faults store.old ≤ S.read_faults store.new }
    ensures told { IfSome (S.files store.old) (λ files. MatchResult result
        (λ s. SayHolds (say_named job.now) files s)
        (λ status. SayCauses (say_named job.now) files (answer_of status))) }
    ensures steps { IfOk result (λ s. s.steps ≡ job.now.steps) }
    ensures counts { MatchResult result
        (λ s. S.read_faults store.new ≡ S.read_faults store.old)
        (λ status. CountsReading (say_files (say_named job.now)) (RefusesSay (say_named job.now)) (S.read_faults store.old) (S.read_faults store.new) (S.bad_name store.new) (answer_of status)) }
{
    match read_two(
        alloc,
        job.program,
        MOST_PROGRAM,
        job.input,
        MOST_INPUT,
        store,
    ) {
        Ok(texts) => contents_of(alloc, job, &texts.first, &texts.second),
        Err(status) => Err(status),
    }
}

// Puts what the plain meaning shows. Where the output, of this name, fails, that is the status.
fn spoken<K: Sink>(
    alloc: Global,
    program: &Program,
    input: &[u16],
    steps: u64,
    name: String,
    sink: &mut K,
) -> Status
    requires { string_bytes name ≡ output }
    ensures { IsSaid program.now input.now steps (K.taken sink.old) (K.taken sink.new) (K.faults sink.old) (K.faults sink.new) (answer_of result) }
{
    match show(alloc, program, input, steps, sink) {
        Ok(end) => status_of(end),
        Err(SayFault::Sink) => Status::WriteFault { name },
        Err(SayFault::Memory) => put_line(name, Status::Memory, "out of memory\n", sink),
    }
}

/// Puts what the plain meaning shows. Where the output, of this name, fails, that is the status.
pub fn show_say<K: Sink>(alloc: Global, say: OpenedSay, name: String, sink: &mut K) -> Status
    requires { string_bytes name ≡ output }
    ensures { IsSaid say.program say.input.items say.steps (K.taken sink.old) (K.taken sink.new) (K.faults sink.old) (K.faults sink.new) (answer_of result) }
{
    spoken(alloc, &say.program, &say.input, say.steps, name, sink)
}
