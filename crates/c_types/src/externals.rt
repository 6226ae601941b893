//! The externals of a file, one after the other (C11 6.9).
ghost use Rattle.std.specs.Prelude.{◌≡◌, ◌++◌, map, OnOk};
ghost use Rattle.c_typing.specs.Parts.{Makes};
ghost use Rattle.c_typing.specs.Functions as functions;
ghost use Rattle.c_typing.specs.Programs as spec;
ghost use Rattle.c_typing.specs.Programs.{judged};

use crate::functions::{external_parts, unstatic};
use c_expressions::notes::push;
use c_expressions::trees::{Fronted, front, is_token, spells, text};
use c_parse::{NoMemory, Raw, RawRule};
use c_typing::State;
use sqlite_items::Items;
use std::alloc::Global;

/// A text, or an external of it.
#[tactic(auto, using(c_typing::proofs::Judging::judged_leaf, c_typing::proofs::Judging::judged_node, c_typing::proofs::Judging::size_node))]
#[cycle(externals)]
pub fn external(alloc: Global, raw: &Raw, state: &mut State) -> Result<(), NoMemory>
    ensures { Makes (judged raw.now).external state.old result state.new }
{
    match raw {
        Raw::Leaf { .. } => Ok(()),
        Raw::Node { rule, parts } => match *rule {
            RawRule::Program => each(alloc, parts.as_slice(), state),
            RawRule::External => external_parts(alloc, parts.as_slice(), state),
            _ => Ok(()),
        },
    }
}

#[cycle(externals)]
fn each(alloc: Global, parts: &[Raw], state: &mut State) -> Result<(), NoMemory>
    ensures { Makes (spec.externals (map judged parts.now)) state.old result state.new }
{
    let mut rest = parts;
    while let Some((part, behind)) = rest.split_first() {
        external(alloc, part, state)?;
        rest = behind;
    }
    Ok(())
}

/// The names of the functions that a text defines, behind those that are there.
#[tactic(auto, using(c_typing::proofs::Judging::judged_leaf, c_typing::proofs::Judging::judged_node, c_typing::proofs::Judging::size_node))]
#[cycle(defines)]
pub fn add_defines(alloc: Global, raw: &Raw, done: &mut Items<Items<u8>>) -> Result<(), NoMemory>
    ensures { OnOk result (done.new ≡ done.old ++ (judged raw.now).defines) }
{
    match raw {
        Raw::Leaf { .. } => Ok(()),
        Raw::Node { rule, parts } => match *rule {
            RawRule::Program => add_all(alloc, parts.as_slice(), done),
            RawRule::External => add_own(alloc, unstatic(parts.as_slice()), done),
            _ => Ok(()),
        },
    }
}

#[cycle(defines)]
fn add_all(alloc: Global, parts: &[Raw], done: &mut Items<Items<u8>>) -> Result<(), NoMemory>
    ensures { OnOk result (done.new ≡ done.old ++ spec.all_defined (map judged parts.now)) }
{
    let mut rest = parts;
    while let Some((part, behind)) = rest.split_first() {
        add_defines(alloc, part, done)?;
        rest = behind;
    }
    Ok(())
}

/// The name of a function that these parts define.
fn add_own(alloc: Global, parts: &[Raw], done: &mut Items<Items<u8>>) -> Result<(), NoMemory>
    ensures { OnOk result (done.new ≡ done.old ++ functions.defined_by_function (map judged parts.now)) }
{
    match front(parts) {
        Fronted::More(_, name, rest) => match front(rest) {
            Fronted::More(bracket, _, rest) => match front(rest) {
                Fronted::More(_, ending, _) => add_name(alloc, name, bracket, ending, done),
                _ => Ok(()),
            },
            _ => Ok(()),
        },
        _ => Ok(()),
    }
}

fn add_name(
    alloc: Global,
    name: &Raw,
    bracket: &Raw,
    ending: &Raw,
    done: &mut Items<Items<u8>>,
) -> Result<(), NoMemory>
    ensures { OnOk result (done.new ≡ done.old ++ functions.defined_name (judged name.now) (judged bracket.now) (judged ending.now)) }
{
    if is_token(name) && !is_token(ending) && spells(b"(", bracket) {
        match Items::from_slice(alloc, text(name)) {
            Ok(bytes) => push(done, bytes),
            Err(_) => Err(NoMemory),
        }
    } else {
        Ok(())
    }
}
