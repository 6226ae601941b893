//! A check of an image, from its files to its end.
ghost use Rattle.std.specs.Prelude.{◌≡◌, ◌≤◌, IfOk, IfSome, MatchResult, string_bytes};
ghost use Rattle.job_files.specs.Answers.{answer_of, done};
ghost use Rattle.job_files.specs.Reads.{CountsReading};
ghost use Rattle.job_files.specs.Stores.{IsUnwritten, seen_of};
ghost use Rattle.check_job.specs.Check.{check_files};
ghost use Rattle.check_job.specs.Checking.{AreCertifiedFiles, CheckCauses, RefusesCheck};
ghost use Rattle.check_job.specs.Ends.{CheckEnds, certified_line};
ghost use Rattle.check_job.specs.InCode.{check_named};

use crate::check_contents::certified_texts;
use crate::check_texts::texts_of;
use crate::job::CheckJob;
use base_io::{Memory, Store};
use job_files::{Ending, Status, told};
use std::alloc::Global;

// Whether the files hold an image that its certificate certifies on the board; if not, why.
fn certified_files<S: Store>(alloc: Global, job: &CheckJob, store: &mut S) -> Result<(), Status>
    ensures files { S.files store.new ≡ S.files store.old }
    ensures writes { S.write_faults store.new ≡ S.write_faults store.old }
    ensures later { S.read_faults store.old ≤ S.read_faults store.new }
    ensures told { IfSome (S.files store.old) (λ files. MatchResult result
        (λ _. AreCertifiedFiles (check_named job.now) files)
        (λ status. CheckCauses (check_named job.now) files (answer_of status))) }
    ensures counts { MatchResult result
        (λ _. S.read_faults store.new ≡ S.read_faults store.old)
        (λ status. CountsReading (check_files (check_named job.now)) (RefusesCheck (check_named job.now)) (S.read_faults store.old) (S.read_faults store.new) (S.bad_name store.new) (answer_of status)) }
{
    match texts_of(alloc, job, store) {
        Ok(texts) => certified_texts(alloc, job, &texts),
        Err(status) => Err(status),
    }
}

// How a check ends that was done.
fn certified(alloc: Global) -> Result<Ending, Memory>
    ensures { IfOk result (λ e. (answer_of e.status ≡ done) × (string_bytes e.line ≡ certified_line)) }
{
    match String::from_str(alloc, "certified\n") {
        Ok(line) => Ok(Ending {
            status: Status::Done,
            line,
        }),
        Err(_) => Err(Memory),
    }
}

/// Tests whether the image is one that its certificate certifies on the board: whether every rule holds. It writes nothing.
pub fn check<S: Store>(alloc: Global, job: &CheckJob, store: &mut S) -> Result<Ending, Memory>
    ensures { MatchResult result
        (λ e. CheckEnds (check_named job.now)
        (seen_of S.files S.read_faults S.write_faults S.bad_name store.old)
        (seen_of S.files S.read_faults S.write_faults S.bad_name store.new)
        (answer_of e.status) (string_bytes e.line))
        (λ _. IsUnwritten
        (seen_of S.files S.read_faults S.write_faults S.bad_name store.old)
        (seen_of S.files S.read_faults S.write_faults S.bad_name store.new)) }
{
    match certified_files(alloc, job, store) {
        Ok(()) => certified(alloc),
        Err(status) => told(alloc, status),
    }
}
