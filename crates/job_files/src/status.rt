//! How a job ended: its code, and the line that tells it.
ghost use Rattle.std.specs.Prelude.{◌≡◌, IfOk, string_bytes};
ghost use Rattle.job_files.specs.Answers.{answer_of, came_of, code_of, done, line_of};

use crate::refusal::{Refusal, refusal_line};
use base_io::Memory;
use msp430_machine::Why;
use std::alloc::{AllocError, Global};
use supplied_run::End;

/// How a job ended.
#[derive(Debug, Drop)]
pub enum Status {
    /// The job was done.
    Done,
    /// The words of the command line have no reading.
    Usage,
    /// The job that the words of the command line ask for isn't built yet.
    NotBuilt,
    /// The file could not be read.
    ReadFault { name: String },
    /// The file has more bytes than may be read; at least `seen` of them.
    TooLarge { name: String, seen: usize },
    /// The file could not be written; `-` is the output.
    WriteFault { name: String },
    /// There was no memory.
    Memory,
    /// What the files hold is refused.
    Refused(Refusal),
    /// A run wrote this word, which isn't 4, to TRAP, or the plain meaning trapped: 1 divide, 2 index, 3 shift.
    Trapped { word: u16 },
    /// A run was due a wake, and no box had a row left.
    SupplyEnded,
    /// As many instructions were executed, or steps begun, as were allowed, and the run hadn't ended.
    StepLimit,
    /// A run wrote 4 to TRAP: its charge ended inside a stretch.
    PowerFault,
    /// A run came to an instruction that can't be executed, at this address.
    MachineFault { pc: u16, why: Why },
    /// A run was due a wake, and the box that was asked for a row failed.
    SupplyFault,
}

impl Status {
    /// The exit status of the program.
    pub fn code(&self) -> u8
        ensures { result ≡ code_of (answer_of self.now) }
    {
        match self {
            Status::Done => 0,
            Status::Usage => 2,
            Status::NotBuilt => 30,
            Status::ReadFault { .. } => 3,
            Status::TooLarge { .. } => 20,
            Status::WriteFault { .. } => 4,
            Status::Memory => 5,
            Status::Refused(refusal) => refusal.code(),
            Status::Trapped { .. } => 14,
            Status::SupplyEnded => 15,
            Status::StepLimit => 16,
            Status::PowerFault => 17,
            Status::MachineFault { .. } => 18,
            Status::SupplyFault => 19,
        }
    }
}

/// How a job ends whose run, or say, ended so.
pub fn status_of(end: End) -> Status
    ensures { answer_of result ≡ came_of end }
{
    match end {
        End::Ended(_) => Status::Done,
        End::Trapped(word) => Status::Trapped { word },
        End::PowerFault => Status::PowerFault,
        End::SupplyEnded => Status::SupplyEnded,
        End::StepLimit => Status::StepLimit,
        End::MachineFault { pc, why } => Status::MachineFault { pc, why },
        End::SupplyFault => Status::SupplyFault,
    }
}

/// The line that tells a status, ended by a line feed. The line of a job that was done is its own, and so are the lines of a
/// run or a say that has begun.
pub fn line_of(alloc: Global, status: &Status, done: &str) -> Result<String, Memory>
    ensures { IfOk result (λ line. string_bytes line ≡ line_of done.now (answer_of status.now)) }
{
    match written_line(alloc, status, done) {
        Ok(line) => Ok(line),
        Err(_) => Err(Memory),
    }
}

fn written_line(alloc: Global, status: &Status, done: &str) -> Result<String, AllocError>
    ensures { IfOk result (λ line. string_bytes line ≡ line_of done.now (answer_of status.now)) }
{
    match status {
        Status::Done
        | Status::Trapped { .. }
        | Status::SupplyEnded
        | Status::StepLimit
        | Status::PowerFault
        | Status::MachineFault { .. }
        | Status::SupplyFault => String::from_str(alloc, done),
        Status::Usage => String::from_str(
            alloc,
            "usage: schematic [--budget N] [--steps N] JOB [FILE]...\n",
        ),
        Status::NotBuilt => String::from_str(alloc, "not built: words\n"),
        Status::ReadFault { name } => format!(in alloc; "cannot read {name}\n"),
        Status::TooLarge { name, .. } => format!(in alloc; "too large: {name}\n"),
        Status::WriteFault { name } => format!(in alloc; "cannot write {name}\n"),
        Status::Memory => String::from_str(alloc, "out of memory\n"),
        Status::Refused(refusal) => refusal_line(alloc, refusal),
    }
}
