//! The table of jobs.
ghost use Rattle.std.specs.Prelude.{◌≡◌, IfOk, map, option_map};
ghost use Rattle.std.specs.List.{list_any};
ghost use Rattle.std.specs.Str.{bytes_eq};
ghost use Rattle.job_parts.specs.Asked.{build_of, check_of, differ, files_of, gen_of, job_task, plan_of, run_of, say_of, task_of};

use crate::decimal::number_in;
use base_io::Memory;
use std::alloc::Global;

/// A job with its files, in the order of the words. Each name is as it was given, and may be empty; but for those of a
/// build, names may be the same.
#[derive(Drop)]
pub enum Job<'a> {
    /// Reads a program and a board; writes an image and a certificate. The four names differ.
    Build {
        program: &'a str,
        board: &'a str,
        image: &'a str,
        certificate: &'a str,
    },
    /// Checks an image by its certificate.
    Check {
        image: &'a str,
        certificate: &'a str,
        board: &'a str,
    },
    /// Runs an image on an input under the supplies, of which there are from 1 to 256.
    Run {
        image: &'a str,
        board: &'a str,
        input: &'a str,
        supplies: Vec<&'a str>,
    },
    /// Runs a program's plain meaning on an input.
    Say {
        program: &'a str,
        input: &'a str,
    },
    /// Tells the plan of a program's checkpoints for a board.
    Plan {
        program: &'a str,
        board: &'a str,
    },
    /// Builds and runs the generated program of a seed and of a size from 1 to 300.
    Gen {
        seed: u16,
        size: u16,
        board: &'a str,
    },
}

// Whether one of the words is this one.
fn is_among(word: &str, words: &[&str]) -> bool
    ensures { result ≡ list_any (λ w. bytes_eq w word.now) (map (λ s. s.now) words.now) }
{
    let mut rest = words;
    while let [first, others @ ..] = rest {
        if *first == word {
            return true;
        }
        rest = others;
    }
    false
}

// Whether no two of the words are the same.
fn all_differ(words: &[&str]) -> bool
    ensures { result ≡ differ (map (λ s. s.now) words.now) }
{
    let mut rest = words;
    while let [first, others @ ..] = rest {
        if is_among(first, others) {
            return false;
        }
        rest = others;
    }
    true
}

fn build<'a>(files: &[&'a str]) -> Option<Job<'a>>
    ensures { option_map job_task result ≡ build_of (map (λ s. s.now) files.now) }
{
    match files {
        [program, board, image, certificate] if all_differ(files) => Some(Job::Build {
            program,
            board,
            image,
            certificate,
        }),
        _ => None,
    }
}

fn check<'a>(files: &[&'a str]) -> Option<Job<'a>>
    ensures { option_map job_task result ≡ check_of (map (λ s. s.now) files.now) }
{
    match files {
        [image, certificate, board] => Some(Job::Check {
            image,
            certificate,
            board,
        }),
        _ => None,
    }
}

fn run<'a>(alloc: Global, files: &[&'a str]) -> Result<Option<Job<'a>>, Memory>
    ensures { IfOk result (λ r. option_map job_task r ≡ run_of (map (λ s. s.now) files.now)) }
{
    match files {
        [image, board, input, supplies @ ..] if 1 <= supplies.len() && supplies.len() <= 256 => {
            match supplies.to_vec(alloc) {
                Ok(supplies) => Ok(Some(Job::Run {
                    image,
                    board,
                    input,
                    supplies,
                })),
                Err(_) => Err(Memory),
            }
        }
        _ => Ok(None),
    }
}

fn say<'a>(files: &[&'a str]) -> Option<Job<'a>>
    ensures { option_map job_task result ≡ say_of (map (λ s. s.now) files.now) }
{
    match files {
        [program, input] => Some(Job::Say { program, input }),
        _ => None,
    }
}

fn plan<'a>(files: &[&'a str]) -> Option<Job<'a>>
    ensures { option_map job_task result ≡ plan_of (map (λ s. s.now) files.now) }
{
    match files {
        [program, board] => Some(Job::Plan { program, board }),
        _ => None,
    }
}

fn generate<'a>(files: &[&'a str]) -> Option<Job<'a>>
    ensures { option_map job_task result ≡ gen_of (map (λ s. s.now) files.now) }
{
    match files {
        [seed, size, board] => {
            let seed = number_in(seed, 0, 65535)?;
            let size = number_in(size, 1, 300)?;
            Some(Job::Gen {
                seed: seed as u16,
                size: size as u16,
                board,
            })
        }
        _ => None,
    }
}

// The job of this name on these files.
fn named<'a>(alloc: Global, name: &str, files: &[&'a str]) -> Result<Option<Job<'a>>, Memory>
    ensures { IfOk result (λ r. option_map job_task r ≡ files_of name.now (map (λ s. s.now) files.now)) }
{
    if name == "build" {
        Ok(build(files))
    } else if name == "check" {
        Ok(check(files))
    } else if name == "run" {
        run(alloc, files)
    } else if name == "say" {
        Ok(say(files))
    } else if name == "plan" {
        Ok(plan(files))
    } else if name == "gen" {
        Ok(generate(files))
    } else {
        Ok(None)
    }
}

#[tactic(auto, unfolding(crate::specs::Asked::task_of))]
/// The job that the words name. No file is the word `-`.
pub fn job_of<'a>(alloc: Global, words: &[&'a str]) -> Result<Option<Job<'a>>, Memory>
    ensures { IfOk result (λ r. option_map job_task r ≡ task_of (map (λ s. s.now) words.now)) }
{
    match words {
        [name, files @ ..] if !is_among("-", files) => named(alloc, name, files),
        _ => Ok(None),
    }
}
