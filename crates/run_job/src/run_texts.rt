//! The texts of the files of a run.
ghost use Rattle.std.specs.Prelude.{◌≡◌, ◌≤◌, IfOk, IfSome, MatchResult, length, map};
ghost use Rattle.job_files.specs.Answers.{answer_of};
ghost use Rattle.job_files.specs.Reads.{AreHad, AreNotHad, CountsUnhad};
ghost use Rattle.run_job.specs.InCode.{run_named, texts_seen};
ghost use Rattle.run_job.specs.Opening.{AreShort, supplies_wanted};
ghost use Rattle.run_job.specs.Run.{run_files, texts_in};

use crate::job::RunJob;
use base_io::Store;
use job_files::{MOST_BOARD, MOST_IMAGE, MOST_INPUT, Status, add, read};
use std::alloc::Global;

/// What the files of a run hold.
#[derive(Drop)]
pub struct Texts {
    pub image: Vec<u8>,
    pub board: Vec<u8>,
    pub input: Vec<u8>,
    pub supplies: Vec<Vec<u8>>,
}

// The texts of supplies, in the order of their names.
fn supply_texts<S: Store>(
    alloc: Global,
    names: &[&str],
    store: &mut S,
) -> Result<Vec<Vec<u8>>, Status>
    ensures files { S.files store.new ≡ S.files store.old }
    ensures writes { S.write_faults store.new ≡ S.write_faults store.old }
    ensures later { S.read_faults store.old ≤ S.read_faults store.new }
    ensures told { IfSome (S.files store.old) (λ files. MatchResult result
        (λ texts. AreHad files (supplies_wanted (map (λ n. n.now) names.now)) (map (λ v. v.items) texts.items))
        (λ status. AreNotHad files (supplies_wanted (map (λ n. n.now) names.now)) (answer_of status))) }
    ensures counts { MatchResult result
        (λ texts. S.read_faults store.new ≡ S.read_faults store.old)
        (λ status. CountsUnhad (supplies_wanted (map (λ n. n.now) names.now)) (S.read_faults store.old) (S.read_faults store.new) (S.bad_name store.new) (answer_of status)) }
    ensures short { IfOk result (λ texts. AreShort (map (λ v. v.items) texts.items)) }
    ensures number { IfOk result (λ texts. length texts.items ≡ length names.now) }
{
    let mut texts = Vec::new(alloc);
    let mut rest = names;
    while let [name, others @ ..] = rest {
        let text = read(alloc, name, MOST_INPUT, store)?;
        add(&mut texts, text)?;
        rest = others;
    }
    Ok(texts)
}

/// The texts of the files of a run, which are got in the order of the words.
pub fn texts_of<S: Store>(alloc: Global, job: &RunJob, store: &mut S) -> Result<Texts, Status>
    ensures files { S.files store.new ≡ S.files store.old }
    ensures writes { S.write_faults store.new ≡ S.write_faults store.old }
    ensures later { S.read_faults store.old ≤ S.read_faults store.new }
    ensures told { IfSome (S.files store.old) (λ files. MatchResult result
        (λ texts. AreHad files (run_files (run_named job.now)) (texts_in (texts_seen texts)))
        (λ status. AreNotHad files (run_files (run_named job.now)) (answer_of status))) }
    ensures counts { MatchResult result
        (λ texts. S.read_faults store.new ≡ S.read_faults store.old)
        (λ status. CountsUnhad (run_files (run_named job.now)) (S.read_faults store.old) (S.read_faults store.new) (S.bad_name store.new) (answer_of status)) }
    ensures short { IfOk result (λ texts. AreShort (texts_seen texts).supplies) }
    ensures number { IfOk result (λ texts. length texts.supplies.items ≡ length job.now.supplies.now) }
{
    let image = read(alloc, job.image, MOST_IMAGE, store)?;
    let board = read(alloc, job.board, MOST_BOARD, store)?;
    let input = read(alloc, job.input, MOST_INPUT, store)?;
    let supplies = supply_texts(alloc, job.supplies, store)?;
    Ok(Texts {
        image,
        board,
        input,
        supplies,
    })
}
