ghost use Rattle.std.specs.Prelude.{◌≡◌, ◌≤◌, ◌++◌, ◌∷◌, [], length, map, reverse, All, IfOk};
ghost use Rattle.c_lex.specs.Cut.{IsIn};
ghost use Rattle.c_parse.specs.Grammar.{IsOpen};
ghost use Rattle.c_parse.specs.Profile.{IsRoomy, MayBegin, Tells, spelt};
ghost use Rattle.c_parse.specs.Steps.{Stands, Steps};
ghost use Rattle.c_parse.specs.Words.{word_of, words_of};

use crate::class_of::class_of;
use crate::machine::{DEEPEST, Machine};
use crate::no_memory::NoMemory;
use crate::raw::Raw;
use crate::words::{leaf_of, word_class};
use base_io::Place;
use c_lex::{Token, TokenKind};
use sqlite_items::Items;
use std::alloc::Global;

/// A token that may come next: its kind and its bytes.
pub type Sample = (TokenKind, &'static [u8]);

/// The token is read; or it is refused where so many forms that nest are open.
pub fn read_word(
    machine: &mut Machine,
    alloc: Global,
    text: &[u8],
    token: &Token,
) -> Result<Option<usize>, NoMemory>
    requires { (token.now.start ≤ token.now.end) × (token.now.end ≤ length text.now) }
    ensures { IfOk result (λ told. Steps told (word_of text.now token.now) (reverse machine.old.waits.stack.items) (reverse machine.old.builds.items) (reverse machine.new.waits.stack.items) (reverse machine.new.builds.items)) }
{
    let class = word_class(text, token);
    let leaf = leaf_of(alloc, text, token)?;
    machine.step(alloc, class, leaf)
}

fn read_sample(
    machine: &mut Machine,
    alloc: Global,
    kind: TokenKind,
    bytes: &[u8],
) -> Result<Option<usize>, NoMemory>
    ensures { IfOk result (λ told. Steps told (spelt kind bytes.now) (reverse machine.old.waits.stack.items) (reverse machine.old.builds.items) (reverse machine.new.waits.stack.items) (reverse machine.new.builds.items)) }
{
    let class = class_of(kind, bytes);
    let text = match Items::from_slice(alloc, bytes) {
        Ok(text) => text,
        Err(_) => return Err(NoMemory),
    };
    let place = Place { line: 1, column: 1 };
    machine.step(alloc, class, Raw::Leaf { kind, text, place })
}

// The machine behind these tokens, none of which it refuses.
fn behind(alloc: Global, text: &[u8], before: &[Token]) -> Result<Machine, NoMemory>
    requires cut { All (λ token. IsIn text.now token) before.now }
    requires fit { MayBegin (words_of text.now before.now) }
    ensures { IfOk result (λ m. Stands (words_of text.now before.now) (reverse m.waits.stack.items) (reverse m.builds.items)) }
{
    let mut machine = Machine::new(alloc)?;
    let mut at = 0;
    'tokens: while let Some(token) = before.get(at) {
        match read_word(&mut machine, alloc, text, token) {
            Ok(None) => at += 1,
            Ok(Some(_depth)) => unreachable!(),
            Err(no_memory) => return Err(no_memory),
        }
    }
    Ok(machine)
}

/// Some text of the grammar goes on with this token behind these.
pub fn may_stand(
    alloc: Global,
    text: &[u8],
    before: &[Token],
    kind: TokenKind,
    bytes: &[u8],
) -> Result<bool, NoMemory>
    requires cut { All (λ token. IsIn text.now token) before.now }
    requires roomy { IsRoomy (words_of text.now before.now) }
    ensures { IfOk result (λ yes. Tells yes (IsOpen (words_of text.now before.now ++ spelt kind bytes.now ∷ []))) }
{
    let mut machine = behind(alloc, text, before)?;
    match read_sample(&mut machine, alloc, kind, bytes) {
        Ok(None) => Ok(true),
        Ok(Some(depth)) => Ok(depth > DEEPEST),
        Err(no_memory) => Err(no_memory),
    }
}

/// Some text of the grammar in which nothing is nested too deep goes on with the samples behind these tokens.
pub fn fits(
    alloc: Global,
    text: &[u8],
    before: &[Token],
    samples: &[Sample],
) -> Result<bool, NoMemory>
    requires cut { All (λ token. IsIn text.now token) before.now }
    requires fit { MayBegin (words_of text.now before.now) }
    ensures { IfOk result (λ yes. Tells yes (MayBegin (words_of text.now before.now ++ map (λ s. spelt s.0 s.1.now) samples.now))) }
{
    let mut machine = behind(alloc, text, before)?;
    let mut at = 0;
    'samples: while let Some(sample) = samples.get(at) {
        match read_sample(&mut machine, alloc, sample.0, sample.1) {
            Ok(None) => at += 1,
            Ok(Some(_depth)) => return Ok(false),
            Err(no_memory) => return Err(no_memory),
        }
    }
    Ok(true)
}
