//! The words of the command line: what job they ask for, on which files.
#![tactic(auto)]

ghost use Rattle.std.specs.Prelude.{◌≡◌, ◌≤◌, IfOk, IfSome, map, option_map, option_and_then, IsUtf8};
ghost use Rattle.std.specs.List.{AllByRecursion};
ghost use Rattle.clap.specs.Words.{all_of, app_of, found_of, rows_of};
ghost use Rattle.job_parts.specs.Command.{command_app};
ghost use Rattle.job_parts.specs.Asked.{IsInRange, IsSetting, asked, request, request_of};
ghost use Rattle.job_parts.specs.Found.{numbers, read_slot, texts_of};

mod decimal;
mod input;
mod job;

use base_io::Memory;
use clap::error::ErrorKind;
use clap::{Arg, ArgAction, ArgMatches, Command};
use decimal::number_in;
pub use input::{InputFault, read_input};
pub use job::Job;
use std::alloc::{AllocError, Global};

/// What a command line asks for.
#[derive(Drop)]
pub struct Asked<'a> {
    pub job: Job<'a>,
    /// Energy units of a full charge, from 1 to a thousand million, in place of the board's budget.
    pub budget: Option<u64>,
    /// The most steps of a program's plain meaning, or instructions of a run, from 1 to a thousand million.
    pub steps: u64,
}

// The command: two options, and any number of words.
fn command<'a>(alloc: Global) -> Result<Command<'a>, AllocError>
    ensures { IfOk result (λ c. app_of c ≡ command_app) }
{
    let budget = Arg::new(alloc, "budget").long("budget");
    let steps = Arg::new(alloc, "steps").long("steps");
    let words = Arg::new(alloc, "words").action(ArgAction::Append);
    Command::new(alloc, "schematic")
        .no_binary_name(true)
        .disable_help_flag(true)
        .arg(budget)?
        .arg(steps)?
        .arg(words)
}

// The values that stand under an id.
fn values<'m, 'a>(matches: &'m ArgMatches<'a>, id: &str) -> Option<&'m [&'a str]>
    ensures { option_map (λ s. map (λ v. v.now) s.now) result ≡ all_of id.now (rows_of (found_of matches.now)) }
{
    matches.get_strs(id)
}

// The value of an option, if it stands there, which is a number from 1 to a thousand million.
fn setting(values: Option<&[&str]>) -> Option<Option<u64>>
    ensures value { result ≡ read_slot (option_map (λ s. map (λ v. v.now) s.now) values.entry) }
    ensures range { IfSome result (λ n. IsSetting n) }
{
    match values {
        None => Some(None),
        Some([]) => None,
        Some([text, ..]) => Some(Some(number_in(text, 1, 1_000_000_000)?)),
    }
}

#[tactic(auto, unfolding(crate::specs::Asked::task_of))]
// What the matches ask for.
fn asked_of<'a>(alloc: Global, matches: &ArgMatches<'a>) -> Result<Option<Asked<'a>>, Memory>
    ensures asks { IfOk result (λ r. option_map request r ≡ option_and_then request_of (numbers (texts_of (rows_of (found_of matches.now))))) }
    ensures ranges { IfOk result (λ r. IfSome r (λ a. IsInRange (request a))) }
{
    let Some(budget) = setting(values(matches, "budget")) else {
        return Ok(None);
    };
    let Some(steps) = setting(values(matches, "steps")) else {
        return Ok(None);
    };
    let Some(words) = values(matches, "words") else {
        return Ok(None);
    };
    match job::job_of(alloc, words)? {
        Some(job) => Ok(Some(Asked {
            job,
            budget,
            steps: steps.unwrap_or(1_000_000),
        })),
        None => Ok(None),
    }
}

// Each word is text, which a proof learns of a word that is read.
fn read_texts(words: &[&str])
    ensures { AllByRecursion IsUtf8 (map (λ s. s.now) words.now) }
{
    let mut rest = words;
    while let [first, others @ ..] = rest {
        let _bytes = first.as_bytes();
        rest = others;
    }
}

/// What the words behind the program's name ask for, or `None` where they have no reading. Words are
/// `[--budget N] [--steps N] JOB [FILE]...`, with the options anywhere before a word `--`.
pub fn read_words<'a>(alloc: Global, words: &'a [&'a str]) -> Result<Option<Asked<'a>>, Memory>
    ensures reads { IfOk result (λ r. option_map request r ≡ asked (map (λ s. s.now) words.entry.now)) }
    ensures ranges { IfOk result (λ r. IfSome r (λ a. IsInRange (request a))) }
{
    read_texts(words);
    let command = match command(alloc) {
        Ok(command) => command,
        Err(_) => return Err(Memory),
    };
    match command.try_get_matches_from(words) {
        Ok(matches) => asked_of(alloc, &matches),
        Err(e) => {
            if e.kind() == ErrorKind::OutOfMemory {
                Err(Memory)
            } else {
                Ok(None)
            }
        }
    }
}
