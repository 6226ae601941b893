//! What the texts of a run hold.
ghost use Rattle.std.specs.Prelude.{◌≡◌, MatchResult, length, map};
ghost use Rattle.supply_trace.specs.Rows.{SpellsRows};
ghost use Rattle.job_files.specs.Answers.{IsRefusedFor, answer_of};
ghost use Rattle.job_files.specs.Inputs.{RefusesText};
ghost use Rattle.run_job.specs.InCode.{held_in, run_named, texts_seen};
ghost use Rattle.run_job.specs.Running.{AreHeld, IsBadLine, IsBadSupply, RefusesRunTexts, SpellEach};

use crate::job::RunJob;
use crate::run_texts::Texts;
use board_table::Board;
use job_files::{Status, add, board_with, image_of, input_of, text_refused};
use msp430_machine::Refill;
use std::alloc::Global;
use supply_trace::{TraceFault, rows};
use ti_txt::Image;

/// What the texts of a run hold, each of which is in its grammar.
#[derive(Drop)]
pub struct Contents {
    pub image: Image,
    pub board: Board,
    pub input: Vec<u16>,
    /// The rows of each supply.
    pub rows: Vec<Vec<Refill>>,
}

fn rows_of(alloc: Global, name: &str, text: &[u8]) -> Result<Vec<Refill>, Status>
    ensures { MatchResult result (λ rows. SpellsRows text.now rows.items)
        (λ s. IsRefusedFor (RefusesText (IsBadLine name.now text.now)) (answer_of s)) }
{
    match rows(alloc, text) {
        Ok(rows) => Ok(rows),
        Err(TraceFault::BadLine { at }) => Err(text_refused(alloc, name, at)),
        Err(TraceFault::Memory) => Err(Status::Memory),
    }
}

// The rows of each text, in the order of their names.
fn rows_each(alloc: Global, names: &[&str], texts: &[Vec<u8>]) -> Result<Vec<Vec<Refill>>, Status>
    requires { length names.now ≡ length texts.now }
    ensures { MatchResult result
        (λ all. SpellEach (map (λ v. v.items) texts.now) (map (λ v. v.items) all.items))
        (λ s. IsRefusedFor (RefusesText (IsBadSupply (map (λ n. n.now) names.now) (map (λ v. v.items) texts.now))) (answer_of s)) }
{
    let mut all = Vec::new(alloc);
    let mut names_left = names;
    let mut texts_left = texts;
    while let [name, other_names @ ..] = names_left {
        let [text, other_texts @ ..] = texts_left else {
            return Ok(all);
        };
        let rows = rows_of(alloc, name, text)?;
        add(&mut all, rows)?;
        names_left = other_names;
        texts_left = other_texts;
    }
    Ok(all)
}

/// What the texts of a run hold. They are looked at in the order image, board, input, supplies.
pub fn contents_of(alloc: Global, job: &RunJob, texts: &Texts) -> Result<Contents, Status>
    requires { length job.now.supplies.now ≡ length texts.now.supplies.items }
    ensures { MatchResult result
        (λ h. AreHeld job.now.budget (texts_seen texts.now) (held_in h))
        (λ s. IsRefusedFor (RefusesRunTexts (run_named job.now) (texts_seen texts.now)) (answer_of s)) }
{
    let image = image_of(alloc, &texts.image)?;
    let board = board_with(alloc, &texts.board, job.budget)?;
    let input = input_of(alloc, job.input, &texts.input)?;
    let rows = rows_each(alloc, job.supplies, &texts.supplies)?;
    Ok(Contents {
        image,
        board,
        input,
        rows,
    })
}
