//! Labels of a `switch` (C11 6.8.4.2).
ghost use Rattle.std.specs.Prelude.{◌≡◌, ◌∷◌, [], ◌++◌, map, IfOk, OnOk};
ghost use Rattle.c_tree.specs.Nodes as nodes;
ghost use Rattle.c_typing.specs.Parts.{Makes, uncounted};
ghost use Rattle.c_typing.specs.Programs.{judged};
ghost use Rattle.c_typing.specs.Declarations.{initial_value};
ghost use Rattle.c_typing.specs.Constants as constants;
ghost use Rattle.c_typing.specs.Statements as spec;

use base_io::Place;
use c_expressions::constants::constant_of;
use c_expressions::expressions::value_of;
use c_expressions::notes::{count, note, note_if, push};
use c_expressions::trees::{Fronted, front, place};
use c_expressions::values::converted;
use c_parse::{NoMemory, Raw, RawRule};
use c_tree::{Expr, Label};
use c_typing::{State, TypeFault};
use c_values::Ty;
use sqlite_items::Items;
use std::alloc::Global;

/// A `default` is among these labels.
fn has_default(labels: &[Label]) -> bool
    ensures { result ≡ nodes.has_default labels.now }
{
    let mut rest = labels;
    while let Some((label, behind)) = rest.split_first() {
        if label.value.is_none() {
            return true;
        }
        rest = behind;
    }
    false
}

/// A label's value is this word.
fn is_label(word: u32, value: Option<u32>) -> bool
    ensures { result ≡ nodes.is_label word value }
{
    match value {
        Some(value) => word == value,
        None => false,
    }
}

/// This word is among the values of labels.
fn has_label(word: u32, labels: &[Label]) -> bool
    ensures { result ≡ nodes.has_label word labels.now }
{
    let mut rest = labels;
    while let Some((label, behind)) = rest.split_first() {
        if is_label(word, label.value) {
            return true;
        }
        rest = behind;
    }
    false
}

/// A `default` is among labels that stand in two lists.
#[tactic(auto, using(crate::proofs::Labels::default_in_both))]
fn has_default_in(before: &[Label], labels: &[Label]) -> bool
    ensures { result ≡ nodes.has_default (before.now ++ labels.now) }
{
    has_default(before) || has_default(labels)
}

/// This word is among the values of labels that stand in two lists.
#[tactic(auto, using(crate::proofs::Labels::label_in_both))]
fn has_label_in(word: u32, before: &[Label], labels: &[Label]) -> bool
    ensures { result ≡ nodes.has_label word (before.now ++ labels.now) }
{
    has_label(word, before) || has_label(word, labels)
}

/// A label is a node.
fn label_made(
    alloc: Global,
    place: Place,
    value: Option<u32>,
    state: &mut State,
) -> Result<Items<Label>, NoMemory>
    ensures { Makes (spec.label_made place value) state.old result state.new }
{
    count(1, state)?;
    let mut labels = Items::new(alloc);
    push(&mut labels, Label { place, value })?;
    Ok(labels)
}

/// A `default`, behind the labels in two lists.
fn default_label(
    alloc: Global,
    place: Place,
    before: &[Label],
    labels: &[Label],
    state: &mut State,
) -> Result<Items<Label>, NoMemory>
    ensures { Makes (spec.default_by place (before.now ++ labels.now)) state.old result state.new }
{
    let twice = has_default_in(before, labels);
    note_if(twice, TypeFault::Redeclared { at: place }, state)?;
    label_made(alloc, place, None, state)
}

/// A `case` of this value, which it has if it is a constant.
fn case_from(
    alloc: Global,
    place: Place,
    before: &[Label],
    labels: &[Label],
    e: Expr,
    value: Option<u32>,
    state: &mut State,
) -> Result<Items<Label>, NoMemory>
    ensures { Makes (spec.case_from place (before.now ++ labels.now) e value) state.old result state.new }
{
    let at = e.place;
    drop(e);
    match value {
        None => {
            note(TypeFault::NotConst { at }, state)?;
            Ok(Items::new(alloc))
        }
        Some(word) => {
            let twice = has_label_in(word, before, labels);
            note_if(twice, TypeFault::Redeclared { at }, state)?;
            label_made(alloc, place, Some(word), state)
        }
    }
}

/// The value of a `case`, converted to the type of the switch.
fn case_value(alloc: Global, part: &Raw, ty: Ty, state: &mut State) -> Result<Expr, NoMemory>
    ensures { Makes (initial_value ty (judged part.now)) state.old result state.new }
{
    let e = value_of(alloc, part, state)?;
    converted(alloc, ty, e, state)
}

/// The same, of which no node stands in the typed tree.
fn uncounted_value(alloc: Global, part: &Raw, ty: Ty, state: &mut State) -> Result<Expr, NoMemory>
    ensures { Makes (uncounted (initial_value ty (judged part.now))) state.old result state.new }
{
    let nodes = state.nodes;
    let e = case_value(alloc, part, ty, state)?;
    state.nodes = nodes;
    Ok(e)
}

/// The word of a constant, as labels hold it.
fn label_word(alloc: Global, e: &Expr) -> Result<Option<u32>, NoMemory>
    ensures { IfOk result (λ word. word ≡ constants.constant_of e.now) }
{
    match constant_of(alloc, e)? {
        Some(word) => Ok(Some(word as u32)),
        None => Ok(None),
    }
}

/// A `case`, behind the labels in two lists.
fn case_label(
    alloc: Global,
    place: Place,
    part: &Raw,
    ty: Ty,
    before: &[Label],
    labels: &[Label],
    state: &mut State,
) -> Result<Items<Label>, NoMemory>
    ensures { Makes (spec.case_by place (judged part.now) ty (before.now ++ labels.now)) state.old result state.new }
{
    let e = uncounted_value(alloc, part, ty, state)?;
    let Ok(value) = label_word(alloc, &e) else {
        drop(e);
        return Err(NoMemory);
    };
    case_from(alloc, place, before, labels, e, value, state)
}

/// The parts of a label.
fn label_parts(
    alloc: Global,
    parts: &[Raw],
    ty: Ty,
    before: &[Label],
    labels: &[Label],
    state: &mut State,
) -> Result<Items<Label>, NoMemory>
    ensures { Makes (spec.label_by (map judged parts.now) ty (before.now ++ labels.now)) state.old result state.new }
{
    match front(parts) {
        Fronted::More(word, _, []) => default_label(alloc, place(word), before, labels, state),
        Fronted::More(word, part, _) => {
            case_label(alloc, place(word), part, ty, before, labels, state)
        }
        _ => Ok(Items::new(alloc)),
    }
}

/// A label of a switch of this type, behind the labels in two lists.
#[tactic(auto, using(c_typing::proofs::Judging::judged_leaf, c_typing::proofs::Judging::judged_node))]
pub fn label(
    alloc: Global,
    raw: &Raw,
    ty: Ty,
    before: &[Label],
    labels: &[Label],
    state: &mut State,
) -> Result<Items<Label>, NoMemory>
    ensures { Makes ((judged raw.now).label ty (before.now ++ labels.now)) state.old result state.new }
{
    match raw {
        Raw::Leaf { .. } => Ok(Items::new(alloc)),
        Raw::Node { rule, parts } => match *rule {
            RawRule::Label => label_parts(alloc, parts.as_slice(), ty, before, labels, state),
            _ => Ok(Items::new(alloc)),
        },
    }
}

/// Adds labels behind others.
pub fn add_labels(labels: &mut Items<Label>, more: Items<Label>) -> Result<(), NoMemory>
    ensures { OnOk result (labels.new ≡ labels.old ++ more) }
{
    match labels.append(more) {
        Ok(()) => Ok(()),
        Err(_) => Err(NoMemory),
    }
}

/// Adds copies of labels behind others.
pub fn copy_labels(alloc: Global, labels: &mut Items<Label>, more: &[Label]) -> Result<(), NoMemory>
    ensures { OnOk result (labels.new ≡ labels.old ++ more.now) }
{
    match Items::from_slice(alloc, more) {
        Ok(more) => add_labels(labels, more),
        Err(_) => Err(NoMemory),
    }
}
