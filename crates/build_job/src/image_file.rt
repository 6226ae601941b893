//! The file of an image: it is built from the files that are read, and written.
ghost use Rattle.std.specs.Prelude.{◌≡◌, ◌≤◌, ℕ, [], IfOk, IfSome, MatchResult, string_bytes};
ghost use Rattle.job_files.specs.Answers.{answer_of, line_of, write_fault};
ghost use Rattle.job_files.specs.Reads.{CountsReading};
ghost use Rattle.job_files.specs.Stores.{IsUnwritten, seen_of};
ghost use Rattle.build_job.specs.Build.{build_files};
ghost use Rattle.build_job.specs.Building.{BuildCauses, RefusesBuild};
ghost use Rattle.build_job.specs.Ends.{BuildEnds, built_line};
ghost use Rattle.build_job.specs.InCode.{build_named};
ghost use Rattle.build_job.specs.Parts.{IsReady, IsWritten};

use crate::image_text::{Ready, ready_of};
use crate::job::BuildJob;
use base_io::{Memory, Store};
use job_files::{Ending, MOST_BOARD, MOST_PROGRAM, Status, read_two, told};
use std::alloc::Global;

// Reads the files and builds the image's text.
fn ready<S: Store>(alloc: Global, job: &BuildJob, store: &mut S) -> Result<Ready, Status>
    ensures files { S.files store.new ≡ S.files store.old }
    ensures writes { S.write_faults store.new ≡ S.write_faults store.old }
    ensures later { S.read_faults store.old ≤ S.read_faults store.new }
    ensures told { IfSome (S.files store.old) (λ files. MatchResult result
        (λ r. IsReady (build_named job.now) files r.text.items (string_bytes r.line))
        (λ status. BuildCauses (build_named job.now) files (answer_of status))) }
    ensures line { IfOk result (λ r. (code : ℕ) × (bytes : ℕ) × (string_bytes r.line ≡ built_line code bytes)) }
    ensures counts { MatchResult result
        (λ r. S.read_faults store.new ≡ S.read_faults store.old)
        (λ status. CountsReading (build_files (build_named job.now)) (RefusesBuild (build_named job.now)) (S.read_faults store.old) (S.read_faults store.new) (S.bad_name store.new) (answer_of status)) }
{
    match read_two(
        alloc,
        job.program,
        MOST_PROGRAM,
        job.board,
        MOST_BOARD,
        store,
    ) {
        Ok(texts) => ready_of(alloc, &texts.first, &texts.second, job.budget),
        Err(status) => Err(status),
    }
}

// How a build ends whose image can't be written.
fn unwritten(alloc: Global, name: &str) -> Result<Ending, Memory>
    ensures { IfOk result (λ e. (answer_of e.status ≡ write_fault name.now)
        × (string_bytes e.line ≡ line_of [] (write_fault name.now))) }
{
    match String::from_str(alloc, name) {
        Ok(name) => told(alloc, Status::WriteFault { name }),
        Err(_) => Err(Memory),
    }
}

// Writes the image. All that may be said behind it was made before, so that no want of memory comes behind a write.
fn write<S: Store>(alloc: Global, name: &str, ready: Ready, store: &mut S) -> Result<Ending, Memory>
    ensures { MatchResult result
        (λ e. IsWritten name.now ready.text.items (string_bytes ready.line)
        (seen_of S.files S.read_faults S.write_faults S.bad_name store.old)
        (seen_of S.files S.read_faults S.write_faults S.bad_name store.new)
        (answer_of e.status) (string_bytes e.line))
        (λ _. IsUnwritten
        (seen_of S.files S.read_faults S.write_faults S.bad_name store.old)
        (seen_of S.files S.read_faults S.write_faults S.bad_name store.new)) }
{
    let failed = unwritten(alloc, name)?;
    match store.put(name, &ready.text) {
        Ok(()) => Ok(Ending {
            status: Status::Done,
            line: ready.line,
        }),
        Err(_) => Ok(failed),
    }
}

/// Builds the image of a program for a board, and writes it.
pub fn build<S: Store>(alloc: Global, job: &BuildJob, store: &mut S) -> Result<Ending, Memory>
    ensures { MatchResult result
        (λ e. BuildEnds (build_named job.now)
        (seen_of S.files S.read_faults S.write_faults S.bad_name store.old)
        (seen_of S.files S.read_faults S.write_faults S.bad_name store.new)
        (answer_of e.status) (string_bytes e.line))
        (λ _. IsUnwritten
        (seen_of S.files S.read_faults S.write_faults S.bad_name store.old)
        (seen_of S.files S.read_faults S.write_faults S.bad_name store.new)) }
{
    match ready(alloc, job, store) {
        Ok(ready) => write(alloc, job.image, ready, store),
        Err(status) => told(alloc, status),
    }
}
