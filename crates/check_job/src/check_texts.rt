//! The texts of the files of a check.
ghost use Rattle.std.specs.Prelude.{◌≡◌, ◌≤◌, IfSome, MatchResult};
ghost use Rattle.job_files.specs.Answers.{answer_of};
ghost use Rattle.job_files.specs.Reads.{AreHad, AreNotHad, CountsUnhad};
ghost use Rattle.check_job.specs.Check.{check_files, texts_in};
ghost use Rattle.check_job.specs.InCode.{check_named, texts_seen};

use crate::job::CheckJob;
use base_io::Store;
use job_files::{MOST_BOARD, MOST_CERTIFICATE, MOST_IMAGE, Status, read};
use std::alloc::Global;

/// What the files of a check hold.
#[derive(Drop)]
pub struct Texts {
    pub image: Vec<u8>,
    pub certificate: Vec<u8>,
    pub board: Vec<u8>,
}

/// The texts of the files of a check, which are got in the order of the words.
pub fn texts_of<S: Store>(alloc: Global, job: &CheckJob, store: &mut S) -> Result<Texts, Status>
    ensures files { S.files store.new ≡ S.files store.old }
    ensures writes { S.write_faults store.new ≡ S.write_faults store.old }
    ensures later { S.read_faults store.old ≤ S.read_faults store.new }
    ensures told { IfSome (S.files store.old) (λ files. MatchResult result
        (λ texts. AreHad files (check_files (check_named job.now)) (texts_in (texts_seen texts)))
        (λ status. AreNotHad files (check_files (check_named job.now)) (answer_of status))) }
    ensures counts { MatchResult result
        (λ texts. S.read_faults store.new ≡ S.read_faults store.old)
        (λ status. CountsUnhad (check_files (check_named job.now)) (S.read_faults store.old) (S.read_faults store.new) (S.bad_name store.new) (answer_of status)) }
{
    let image = read(alloc, job.image, MOST_IMAGE, store)?;
    let certificate = read(alloc, job.certificate, MOST_CERTIFICATE, store)?;
    let board = read(alloc, job.board, MOST_BOARD, store)?;
    Ok(Texts {
        image,
        certificate,
        board,
    })
}
