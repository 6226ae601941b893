//! Declarations of objects (C11 6.7).
ghost use Rattle.std.specs.Prelude.{◌≡◌, ◌∷◌, [], None, Some, map};
ghost use Rattle.c_typing.specs.Judged.{no_place};
ghost use Rattle.c_typing.specs.Parts.{Makes};
ghost use Rattle.c_typing.specs.Programs.{judged};
ghost use Rattle.c_typing.specs.Declarations as spec;

use base_io::Place;
use c_expressions::constants::constant_of;
use c_expressions::expressions::value_of;
use c_expressions::notes::{count, note, note_if, push};
use c_expressions::trees::{Fronted, NO_PLACE, front, place, spells, text, type_of};
use c_expressions::values::converted;
use c_parse::{NoMemory, Raw, RawRule};
use c_tree::{Declared, Expr, Variable};
use c_typing::{Base, Meaning, State, TypeFault};
use c_values::{Ty, value};
use sqlite_items::Items;
use std::alloc::Global;

/// There are no more objects than this.
const MOST_OBJECTS: usize = 1024;

/// An array has no more elements than this.
const MOST_ELEMENTS: u16 = 1024;

fn is_full(state: &State) -> bool
    ensures { result ≡ spec.is_full state.now }
{
    MOST_OBJECTS <= state.variables.len()
}

fn is_taken(name: &[u8], state: &State) -> bool
    ensures { result ≡ spec.is_taken name.now state.now }
{
    state.scopes.find_here(name).is_some()
}

/// A name in the innermost scope, unless it is there already.
pub fn add_name(name: &[u8], meaning: Meaning, state: &mut State) -> Result<(), NoMemory>
    ensures { Makes (spec.add_name name.now meaning) state.old result state.new }
{
    match state.scopes.declare(name, meaning) {
        Ok(_told) => Ok(()),
        Err(_) => Err(NoMemory),
    }
}

/// A name has one meaning in a scope (C11 6.7).
pub fn declare_name(
    name: &[u8],
    place: Place,
    meaning: Meaning,
    state: &mut State,
) -> Result<(), NoMemory>
    ensures { Makes (spec.declare_name name.now place meaning) state.old result state.new }
{
    let taken = is_taken(name, state);
    note_if(taken, TypeFault::Redeclared { at: place }, state)?;
    add_name(name, meaning, state)
}

fn add_variable(alloc: Global, v: Variable, state: &mut State) -> Result<u32, NoMemory>
    ensures { Makes (spec.add_variable v) state.old result state.new }
{
    let Ok(number) = u32::try_from(state.variables.len()) else {
        return Err(NoMemory);
    };
    push(&mut state.variables, v)?;
    state.unready = Items::new(alloc);
    Ok(number)
}

/// An object's name, once it has its number.
fn name_object(
    name: &[u8],
    place: Place,
    meaning: Meaning,
    number: u32,
    state: &mut State,
) -> Result<u32, NoMemory>
    ensures { Makes (spec.name_object name.now place meaning number) state.old result state.new }
{
    declare_name(name, place, meaning, state)?;
    Ok(number)
}

/// An object and its name.
fn named_object(
    alloc: Global,
    name: &[u8],
    place: Place,
    constant: bool,
    v: Variable,
    state: &mut State,
) -> Result<u32, NoMemory>
    ensures { Makes (spec.named_object name.now place constant v) state.old result state.new }
{
    let ty = v.ty;
    let length = v.length;
    let number = add_variable(alloc, v, state)?;
    let meaning = Meaning::Variable {
        number,
        ty,
        length,
        is_const: constant,
    };
    name_object(name, place, meaning, number, state)
}

/// An object comes into scope, behind its initialiser; its number.
pub fn add_object(
    alloc: Global,
    name: &[u8],
    place: Place,
    constant: bool,
    v: Variable,
    state: &mut State,
) -> Result<u32, NoMemory>
    ensures { Makes (spec.add_object name.now place constant v) state.old result state.new }
{
    let full = is_full(state);
    note_if(full, TypeFault::TooMany { at: place }, state)?;
    named_object(alloc, name, place, constant, v, state)
}

/// From here on an initialiser of this name.
fn begin_initialiser(alloc: Global, name: &[u8], state: &mut State) -> Result<(), NoMemory>
    ensures { Makes (spec.begin_initialiser name.now) state.old result state.new }
{
    match Items::from_slice(alloc, name) {
        Ok(name) => {
            state.unready = name;
            Ok(())
        }
        Err(_) => Err(NoMemory),
    }
}

fn bad_length(fault: TypeFault, state: &mut State) -> Result<u16, NoMemory>
    ensures { Makes (spec.bad_length fault) state.old result state.new }
{
    note(fault, state)?;
    Ok(MOST_ELEMENTS)
}

/// A length from 1 to the most elements (C11 6.7.6.2).
fn length_within(place: Place, value: i64, state: &mut State) -> Result<u16, NoMemory>
    ensures { Makes (spec.length_within place value) state.old result state.new }
{
    if 1 <= value && value <= 1024 {
        Ok(value as u16)
    } else {
        bad_length(TypeFault::BadArray { at: place }, state)
    }
}

fn length_from(e: &Expr, constant: Option<u16>, state: &mut State) -> Result<u16, NoMemory>
    ensures { Makes (spec.length_from e.now constant) state.old result state.new }
{
    match constant {
        None => bad_length(TypeFault::NotConst { at: e.place }, state),
        Some(w) => length_within(e.place, value(e.ty, w), state),
    }
}

fn length_value(alloc: Global, part: &Raw, state: &mut State) -> Result<u16, NoMemory>
    ensures { Makes (spec.length_value (judged part.now)) state.old result state.new }
{
    let e = value_of(alloc, part, state)?;
    let Ok(constant) = constant_of(alloc, &e) else {
        drop(e);
        return Err(NoMemory);
    };
    let length = length_from(&e, constant, state);
    drop(e);
    length
}

/// The length of an array. A name in it is looked up before the array's is in scope.
fn length_of(alloc: Global, part: &Raw, state: &mut State) -> Result<u16, NoMemory>
    ensures { Makes (spec.length_of (judged part.now)) state.old result state.new }
{
    let nodes = state.nodes;
    let length = length_value(alloc, part, state)?;
    state.nodes = nodes;
    Ok(length)
}

/// An initialiser's value, converted as by an assignment (C11 6.7.9).
fn initial_value(alloc: Global, ty: Ty, part: &Raw, state: &mut State) -> Result<Expr, NoMemory>
    ensures { Makes (spec.initial_value ty (judged part.now)) state.old result state.new }
{
    let e = value_of(alloc, part, state)?;
    converted(alloc, ty, e, state)
}

/// The first value too many of a list.
fn note_excess(most: u16, done: &[Expr], e: &Expr, state: &mut State) -> Result<(), NoMemory>
    ensures { Makes (spec.note_excess most done.now e.now) state.old result state.new }
{
    let excess = done.len() == most as usize;
    note_if(excess, TypeFault::BadArray { at: e.place }, state)
}

/// The next value of a list, where these are there.
fn next_value(
    alloc: Global,
    ty: Ty,
    most: u16,
    done: &[Expr],
    part: &Raw,
    state: &mut State,
) -> Result<Expr, NoMemory>
    ensures { Makes (spec.next_value ty most done.now (judged part.now)) state.old result state.new }
{
    let e = initial_value(alloc, ty, part, state)?;
    let Ok(()) = note_excess(most, done, &e, state) else {
        drop(e);
        return Err(NoMemory);
    };
    Ok(e)
}

/// The values of a list, each with a sign behind it.
fn listed(
    alloc: Global,
    ty: Ty,
    most: u16,
    parts: &[Raw],
    state: &mut State,
) -> Result<Items<Expr>, NoMemory>
    ensures { Makes (spec.listed ty most [] (map judged parts.now)) state.old result state.new }
{
    let mut done = Items::new(alloc);
    let mut rest = parts;
    while let Fronted::More(part, _, behind) = front(rest) {
        let e = next_value(alloc, ty, most, done.as_slice(), part, state)?;
        push(&mut done, e)?;
        rest = behind;
    }
    Ok(done)
}

/// The values behind a scalar's name.
fn scalar_values(
    alloc: Global,
    ty: Ty,
    parts: &[Raw],
    state: &mut State,
) -> Result<Items<Expr>, NoMemory>
    ensures { Makes (spec.scalar_values ty (map judged parts.now)) state.old result state.new }
{
    match front(parts) {
        Fronted::More(_, part, []) => scalar_value(alloc, ty, part, state),
        _ => Ok(Items::new(alloc)),
    }
}

fn scalar_value(
    alloc: Global,
    ty: Ty,
    part: &Raw,
    state: &mut State,
) -> Result<Items<Expr>, NoMemory>
    ensures { Makes (spec.scalar_value ty (judged part.now)) state.old result state.new }
{
    let e = initial_value(alloc, ty, part, state)?;
    let mut values = Items::new(alloc);
    push(&mut values, e)?;
    Ok(values)
}

/// The values behind an array's name.
fn list_values(
    alloc: Global,
    ty: Ty,
    most: u16,
    parts: &[Raw],
    state: &mut State,
) -> Result<Items<Expr>, NoMemory>
    ensures { Makes (spec.list_values ty most (map judged parts.now)) state.old result state.new }
{
    match front(parts) {
        Fronted::More(_, _, rest) => listed(alloc, ty, most, rest, state),
        _ => Ok(Items::new(alloc)),
    }
}

/// An object of a function.
pub fn local(alloc: Global, ty: Ty, length: Option<u16>) -> Variable
    ensures { result ≡ spec.local ty length }
{
    Variable {
        ty,
        length,
        first: Items::new(alloc),
        global: false,
    }
}

/// A declarator of a function behind its initialiser.
fn made_local(
    alloc: Global,
    base: Base,
    name: &Raw,
    length: Option<u16>,
    nodes: u64,
    values: Items<Expr>,
    state: &mut State,
) -> Result<Declared, NoMemory>
    ensures { Makes (spec.made_local base (judged name.now) length nodes values) state.old result state.new }
{
    count(nodes, state)?;
    local_object(alloc, base, name, length, values, state)
}

fn local_object(
    alloc: Global,
    base: Base,
    name: &Raw,
    length: Option<u16>,
    values: Items<Expr>,
    state: &mut State,
) -> Result<Declared, NoMemory>
    ensures { Makes (spec.local_object base (judged name.now) length values) state.old result state.new }
{
    let v = local(alloc, base.ty, length);
    let number = add_object(alloc, text(name), place(name), base.constant, v, state)?;
    Ok(Declared {
        place: place(name),
        variable: number,
        values,
    })
}

fn declare_scalar(
    alloc: Global,
    base: Base,
    name: &Raw,
    rest: &[Raw],
    state: &mut State,
) -> Result<Declared, NoMemory>
    ensures { Makes (spec.declare_scalar base (judged name.now) (map judged rest.now)) state.old result state.new }
{
    begin_initialiser(alloc, text(name), state)?;
    let values = scalar_values(alloc, base.ty, rest, state)?;
    made_local(alloc, base, name, None, 1, values, state)
}

fn declare_array(
    alloc: Global,
    base: Base,
    name: &Raw,
    rest: &[Raw],
    length: u16,
    state: &mut State,
) -> Result<Declared, NoMemory>
    ensures { Makes (spec.declare_array base (judged name.now) (map judged rest.now) length) state.old result state.new }
{
    begin_initialiser(alloc, text(name), state)?;
    let values = list_values(alloc, base.ty, length, rest, state)?;
    made_local(alloc, base, name, Some(length), 2, values, state)
}

/// The parts of a local's declarator.
fn declare_parts(
    alloc: Global,
    parts: &[Raw],
    base: Base,
    state: &mut State,
) -> Result<Declared, NoMemory>
    ensures { Makes (spec.declare_by (map judged parts.now) base) state.old result state.new }
{
    match parts.split_first() {
        None => Ok(no_declared(alloc)),
        Some((name, behind)) => declare_shaped(alloc, name, behind, base, state),
    }
}

fn no_declared(alloc: Global) -> Declared
    ensures { result ≡ record { place = no_place; variable = 0; values = [] } }
{
    Declared {
        place: NO_PLACE,
        variable: 0,
        values: Items::new(alloc),
    }
}

fn declare_shaped(
    alloc: Global,
    name: &Raw,
    behind: &[Raw],
    base: Base,
    state: &mut State,
) -> Result<Declared, NoMemory>
    ensures { Makes (spec.declare_by (judged name.now ∷ map judged behind.now) base) state.old result state.new }
{
    match front(behind) {
        Fronted::More(_, part, close) => match close.split_first() {
            Some((_, rest)) => {
                let length = length_of(alloc, part, state)?;
                declare_array(alloc, base, name, rest, length, state)
            }
            None => declare_scalar(alloc, base, name, behind, state),
        },
        _ => declare_scalar(alloc, base, name, behind, state),
    }
}

/// A local's declarator.
#[tactic(auto, using(c_typing::proofs::Judging::judged_leaf, c_typing::proofs::Judging::judged_node))]
fn declare(alloc: Global, raw: &Raw, base: Base, state: &mut State) -> Result<Declared, NoMemory>
    ensures { Makes ((judged raw.now).declare base) state.old result state.new }
{
    match raw {
        Raw::Leaf { .. } => Ok(no_declared(alloc)),
        Raw::Node { rule, parts } => match *rule {
            RawRule::Declarator => declare_parts(alloc, parts.as_slice(), base, state),
            _ => Ok(no_declared(alloc)),
        },
    }
}

/// The word of a constant (C11 6.7.9).
fn word_from(e: &Expr, constant: Option<u16>, state: &mut State) -> Result<u16, NoMemory>
    ensures { Makes (spec.word_from e.now constant) state.old result state.new }
{
    match constant {
        None => {
            note(TypeFault::NotConst { at: e.place }, state)?;
            Ok(0)
        }
        Some(w) => Ok(w),
    }
}

/// The words of constants.
fn words(alloc: Global, es: &[Expr], state: &mut State) -> Result<Items<u16>, NoMemory>
    ensures { Makes (spec.words_onto [] es.now) state.old result state.new }
{
    let mut done = Items::new(alloc);
    let mut rest = es;
    while let Some((e, behind)) = rest.split_first() {
        let constant = constant_of(alloc, e)?;
        let w = word_from(e, constant, state)?;
        push(&mut done, w)?;
        rest = behind;
    }
    Ok(done)
}

/// The words behind a scalar's name. Their nodes stand in no tree.
fn scalar_words(
    alloc: Global,
    ty: Ty,
    parts: &[Raw],
    state: &mut State,
) -> Result<Items<u16>, NoMemory>
    ensures { Makes (spec.words_from (spec.scalar_values ty (map judged parts.now))) state.old result state.new }
{
    let nodes = state.nodes;
    let values = scalar_values(alloc, ty, parts, state)?;
    state.nodes = nodes;
    words(alloc, values.as_slice(), state)
}

/// The words behind an array's name.
fn list_words(
    alloc: Global,
    ty: Ty,
    most: u16,
    parts: &[Raw],
    state: &mut State,
) -> Result<Items<u16>, NoMemory>
    ensures { Makes (spec.words_from (spec.list_values ty most (map judged parts.now))) state.old result state.new }
{
    let nodes = state.nodes;
    let values = list_values(alloc, ty, most, parts, state)?;
    state.nodes = nodes;
    words(alloc, values.as_slice(), state)
}

/// A declarator of the file behind its initialiser.
fn made_global(
    alloc: Global,
    base: Base,
    name: &Raw,
    length: Option<u16>,
    first: Items<u16>,
    state: &mut State,
) -> Result<(), NoMemory>
    ensures { Makes (spec.made_global base (judged name.now) length first) state.old result state.new }
{
    let v = Variable {
        ty: base.ty,
        length,
        first,
        global: true,
    };
    add_object(alloc, text(name), place(name), base.constant, v, state)?;
    Ok(())
}

fn declare_global_scalar(
    alloc: Global,
    base: Base,
    name: &Raw,
    rest: &[Raw],
    state: &mut State,
) -> Result<(), NoMemory>
    ensures { Makes (spec.declare_global_scalar base (judged name.now) (map judged rest.now)) state.old result state.new }
{
    begin_initialiser(alloc, text(name), state)?;
    let first = scalar_words(alloc, base.ty, rest, state)?;
    made_global(alloc, base, name, None, first, state)
}

fn declare_global_array(
    alloc: Global,
    base: Base,
    name: &Raw,
    rest: &[Raw],
    length: u16,
    state: &mut State,
) -> Result<(), NoMemory>
    ensures { Makes (spec.declare_global_array base (judged name.now) (map judged rest.now) length) state.old result state.new }
{
    begin_initialiser(alloc, text(name), state)?;
    let first = list_words(alloc, base.ty, length, rest, state)?;
    made_global(alloc, base, name, Some(length), first, state)
}

fn declare_global_shaped(
    alloc: Global,
    name: &Raw,
    behind: &[Raw],
    base: Base,
    state: &mut State,
) -> Result<(), NoMemory>
    ensures { Makes (spec.declare_global_by (judged name.now ∷ map judged behind.now) base) state.old result state.new }
{
    match front(behind) {
        Fronted::More(_, part, close) => match close.split_first() {
            Some((_, rest)) => {
                let length = length_of(alloc, part, state)?;
                declare_global_array(alloc, base, name, rest, length, state)
            }
            None => declare_global_scalar(alloc, base, name, behind, state),
        },
        _ => declare_global_scalar(alloc, base, name, behind, state),
    }
}

/// The parts of a declarator of the file.
fn declare_global_parts(
    alloc: Global,
    parts: &[Raw],
    base: Base,
    state: &mut State,
) -> Result<(), NoMemory>
    ensures { Makes (spec.declare_global_by (map judged parts.now) base) state.old result state.new }
{
    match parts.split_first() {
        None => Ok(()),
        Some((name, behind)) => declare_global_shaped(alloc, name, behind, base, state),
    }
}

/// A declarator of the file.
#[tactic(auto, using(c_typing::proofs::Judging::judged_leaf, c_typing::proofs::Judging::judged_node))]
fn declare_global(alloc: Global, raw: &Raw, base: Base, state: &mut State) -> Result<(), NoMemory>
    ensures { Makes ((judged raw.now).declare_global base) state.old result state.new }
{
    match raw {
        Raw::Leaf { .. } => Ok(()),
        Raw::Node { rule, parts } => match *rule {
            RawRule::Declarator => { declare_global_parts(alloc, parts.as_slice(), base, state) }
            _ => Ok(()),
        },
    }
}

/// The objects of declarators, each with a sign behind it.
fn declare_each(
    alloc: Global,
    base: Base,
    parts: &[Raw],
    state: &mut State,
) -> Result<Items<Declared>, NoMemory>
    ensures { Makes (spec.declare_each base [] (map judged parts.now)) state.old result state.new }
{
    let mut done = Items::new(alloc);
    let mut rest = parts;
    while let Fronted::More(part, _, behind) = front(rest) {
        let d = declare(alloc, part, base, state)?;
        push(&mut done, d)?;
        rest = behind;
    }
    Ok(done)
}

/// Declarators of the file, each with a sign behind it.
pub fn declare_each_global(
    alloc: Global,
    base: Base,
    parts: &[Raw],
    state: &mut State,
) -> Result<(), NoMemory>
    ensures { Makes (spec.declare_each_global base (map judged parts.now)) state.old result state.new }
{
    let mut rest = parts;
    while let Fronted::More(part, _, behind) = front(rest) {
        declare_global(alloc, part, base, state)?;
        rest = behind;
    }
    Ok(())
}

/// Where the declarators behind a type name stand.
pub fn based(constant: bool, ty: &Raw) -> Base
    ensures { result ≡ spec.based constant (judged ty.now) }
{
    Base {
        ty: type_of(ty),
        constant,
    }
}

/// A declaration behind its `const`.
fn typed_declaration(
    alloc: Global,
    constant: bool,
    parts: &[Raw],
    state: &mut State,
) -> Result<Items<Declared>, NoMemory>
    ensures { Makes (spec.typed_declaration constant (map judged parts.now)) state.old result state.new }
{
    match parts.split_first() {
        None => Ok(Items::new(alloc)),
        Some((ty, rest)) => declare_typed(alloc, constant, ty, rest, state),
    }
}

/// Declarators behind their type name.
fn declare_typed(
    alloc: Global,
    constant: bool,
    ty: &Raw,
    rest: &[Raw],
    state: &mut State,
) -> Result<Items<Declared>, NoMemory>
    ensures { Makes (spec.declare_each (spec.based constant (judged ty.now)) [] (map judged rest.now)) state.old result state.new }
{
    declare_each(alloc, based(constant, ty), rest, state)
}

/// The parts of a declaration.
fn declaration_parts(
    alloc: Global,
    parts: &[Raw],
    state: &mut State,
) -> Result<Items<Declared>, NoMemory>
    ensures { Makes (spec.declaration_by (map judged parts.now)) state.old result state.new }
{
    match parts.split_first() {
        None => Ok(Items::new(alloc)),
        Some((first, rest)) => {
            if spells(b"const", first) {
                typed_declaration(alloc, true, rest, state)
            } else {
                typed_declaration(alloc, false, parts, state)
            }
        }
    }
}

/// A declaration of objects of a function.
#[tactic(auto, using(c_typing::proofs::Judging::judged_leaf, c_typing::proofs::Judging::judged_node))]
pub fn declaration(alloc: Global, raw: &Raw, state: &mut State) -> Result<Items<Declared>, NoMemory>
    ensures { Makes (judged raw.now).declaration state.old result state.new }
{
    match raw {
        Raw::Leaf { .. } => Ok(Items::new(alloc)),
        Raw::Node { rule, parts } => match *rule {
            RawRule::Declaration => declaration_parts(alloc, parts.as_slice(), state),
            _ => Ok(Items::new(alloc)),
        },
    }
}
