//! A program, said: its words as lines, and how it ends.
ghost use Rattle.std.specs.Prelude.{◌≡◌, ℕ, ◌≤◌, List, [], map, IfOk, slice_get};
ghost use Rattle.std.specs.Option.{option_copied};
ghost use Rattle.c_tree.specs.Lines.{lines, seen};
ghost use Rattle.c_tree.specs.Meaning.{meaning, steps, start, run_of, first_words};
ghost use Rattle.c_tree.specs.Follows.{Follows};
ghost use Rattle.c_tree.specs.Said.{outcome_of_end, Says, SaysCause};

use crate::halt::Halt;
use crate::lists::first_and_rest;
use crate::nodes::call;
use crate::run::Run;
use crate::tree::{Program, Variable};
use base_io::Sink;
use sqlite_items::Items;
use std::alloc::{AllocError, Global};

/// How a program stands: it would begin another step, it ended with a value, or it was stopped by a trap: 1 divide, 2 index, 3 shift.
#[derive(Clone, Copy, PartialEq, Eq, Debug)]
pub enum SaidEnd {
    Going,
    Ended(u16),
    Trapped(u16),
}

/// How a program stands, and how many steps it has begun.
#[derive(Clone, Copy, PartialEq, Eq, Debug)]
pub struct Said {
    pub end: SaidEnd,
    pub steps: u64,
}

/// Why a program wasn't said to its end: the sink failed, or there was no memory.
#[derive(Clone, Copy, PartialEq, Eq, Debug)]
pub enum SayFault {
    Sink,
    Memory,
}

// The words with which a variable begins.
fn first_words(alloc: Global, v: &Variable) -> Result<Items<u16>, AllocError>
    ensures { IfOk result (λ words. words ≡ first_words v.now) }
{
    let mut words = Vec::from_slice(alloc, v.first.as_slice())?;
    match v.length {
        Some(length) => words.resize(length as usize, 0)?,
        None => words.resize(1, 0)?,
    }
    Ok(Items::from_vec(words))
}

// The words with which all variables begin.
fn first_store(alloc: Global, variables: &[Variable]) -> Result<Vec<Items<u16>>, AllocError>
    ensures { IfOk result (λ store. store.items ≡ map first_words variables.now) }
{
    let mut store = Vec::new(alloc);
    let mut rest = variables;
    while let Some((v, after)) = first_and_rest(rest) {
        let words = first_words(alloc, v)?;
        store.push(words)?;
        rest = after;
    }
    Ok(store)
}

/// Runs the program for at most `n` steps, and puts a line `out W` for each word. The end is `Going` exactly where it has begun
/// `n` steps and would begin another. After a fault a front of the lines has been put.
pub fn say<K: Sink>(
    alloc: Global,
    p: &Program,
    input: &[u16],
    n: u64,
    sink: &mut K,
) -> Result<Said, SayFault>
    ensures put { Says (lines (meaning p.now input.now n).words) result (K.taken sink.old) (K.taken sink.new) }
    ensures ends { IfOk result (λ said. outcome_of_end said.end ≡ (meaning p.now input.now n).outcome) }
    ensures counted { IfOk result (λ said. said.steps ≡ steps p.now input.now n) }
    ensures cause { SaysCause result (K.faults sink.old) (K.faults sink.new) }
{
    let Ok(store) = first_store(alloc, p.variables.as_slice()) else {
        return Err(SayFault::Memory);
    };
    let mut run = Run::new(alloc, store, input, n);
    let ended = call(p, p.main, &[], &mut run, sink);
    match ended {
        Ok(word) => Ok(Said {
            end: SaidEnd::Ended(word),
            steps: n - run.left(),
        }),
        Err(Halt::Trap(trap)) => Ok(Said {
            end: SaidEnd::Trapped(trap),
            steps: n - run.left(),
        }),
        Err(Halt::Stopped) => Ok(Said {
            end: SaidEnd::Going,
            steps: n - run.left(),
        }),
        Err(Halt::Sink) => Err(SayFault::Sink),
        Err(Halt::Memory) => Err(SayFault::Memory),
    }
}
