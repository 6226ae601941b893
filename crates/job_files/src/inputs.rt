//! Input texts, and texts that are refused by their names.
ghost use Rattle.std.specs.Prelude.{MatchResult};
ghost use Rattle.job_parts.specs.Input.{SpellsInput};
ghost use Rattle.job_files.specs.Answers.{IsOrNoMemory, IsRefusedFor, answer_of, refused};
ghost use Rattle.job_files.specs.Inputs.{IsBadInput, RefusesText};
ghost use Rattle.job_files.specs.Refusals.{text_refused};

use crate::refusal::Refusal;
use crate::status::Status;
use job_parts::{InputFault, read_input};
use std::alloc::Global;

/// How a text is refused that isn't in its grammar: by its name, and the offset in bytes.
pub fn text_refused(alloc: Global, name: &str, at: usize) -> Status
    ensures { IsOrNoMemory result (refused (text_refused name.now at)) }
{
    match String::from_str(alloc, name) {
        Ok(name) => Status::Refused(Refusal::Text { name, at }),
        Err(_) => Status::Memory,
    }
}

/// The words of an input text, or the status that refuses it by its name.
pub fn input_of(alloc: Global, name: &str, text: &[u8]) -> Result<Vec<u16>, Status>
    ensures { MatchResult result (λ words. SpellsInput text.now words.items)
        (λ s. IsRefusedFor (RefusesText (IsBadInput name.now text.now)) (answer_of s)) }
{
    match read_input(alloc, text) {
        Ok(words) => Ok(words),
        Err(InputFault::BadWord { at }) => Err(text_refused(alloc, name, at)),
        Err(InputFault::Memory) => Err(Status::Memory),
    }
}
