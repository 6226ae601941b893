//! The parameters of a function (C11 6.7.6.3).
ghost use Rattle.std.specs.Prelude.{◌≡◌, ◌∷◌, [], ◌++◌, map, IfOk, OnOk, option_to_list};
ghost use Rattle.c_typing.specs.Programs.{judged};
ghost use Rattle.c_typing.specs.Functions as spec;

use base_io::Place;
use c_expressions::notes::push;
use c_expressions::trees::{Fronted, front, place, spells, text, type_of};
use c_parse::{NoMemory, Raw, RawRule};
use c_typing::Parameter;
use c_values::Ty;
use sqlite_items::Items;
use std::alloc::Global;

/// The parameters of a list of them, behind those that are there.
#[tactic(auto, using(c_typing::proofs::Judging::judged_leaf, c_typing::proofs::Judging::judged_node, c_typing::proofs::Judging::size_node))]
#[cycle(params)]
fn add_params(alloc: Global, raw: &Raw, done: &mut Items<Parameter>) -> Result<(), NoMemory>
    ensures { OnOk result (done.new ≡ done.old ++ (judged raw.now).params) }
{
    match raw {
        Raw::Leaf { .. } => Ok(()),
        Raw::Node { rule, parts } => match *rule {
            RawRule::Params => add_each(alloc, parts.as_slice(), done),
            RawRule::Param => {
                let p = parameter_parts(alloc, place(raw), parts.as_slice())?;
                add_some(p, done)
            }
            _ => Ok(()),
        },
    }
}

/// The parameters of each part. `void` and the commas between parameters are none.
#[cycle(params)]
fn add_each(alloc: Global, parts: &[Raw], done: &mut Items<Parameter>) -> Result<(), NoMemory>
    ensures { OnOk result (done.new ≡ done.old ++ spec.params_by (map judged parts.now)) }
{
    let mut rest = parts;
    while let Some((part, behind)) = rest.split_first() {
        add_params(alloc, part, done)?;
        rest = behind;
    }
    Ok(())
}

fn add_some(p: Option<Parameter>, done: &mut Items<Parameter>) -> Result<(), NoMemory>
    ensures { OnOk result (done.new ≡ done.old ++ option_to_list p) }
{
    match p {
        None => Ok(()),
        Some(p) => push(done, p),
    }
}

/// The parameter that these parts make, if there are any.
fn parameter_parts(alloc: Global, at: Place, parts: &[Raw]) -> Result<Option<Parameter>, NoMemory>
    ensures { IfOk result (λ p. option_to_list p ≡ spec.parameter_by at (map judged parts.now)) }
{
    match parts.split_first() {
        None => Ok(None),
        Some((first, rest)) => {
            if spells(b"const", first) {
                let p = parameter(alloc, true, at, rest)?;
                Ok(Some(p))
            } else {
                let p = parameter(alloc, false, at, parts)?;
                Ok(Some(p))
            }
        }
    }
}

/// A parameter, which may have no name.
fn parameter(
    alloc: Global,
    constant: bool,
    place: Place,
    parts: &[Raw],
) -> Result<Parameter, NoMemory>
    ensures { IfOk result (λ p. p ≡ spec.parameter constant place (map judged parts.now)) }
{
    match front(parts) {
        Fronted::Empty => Ok(nameless(alloc, Ty::I16, constant, place)),
        Fronted::One(ty) => Ok(nameless(alloc, type_of(ty), constant, place)),
        Fronted::More(ty, name, _) => named(alloc, type_of(ty), constant, place, name),
    }
}

fn nameless(alloc: Global, ty: Ty, constant: bool, place: Place) -> Parameter
    ensures { result ≡ record { ty = ty; constant = constant; name = []; name_place = place; place = place } }
{
    Parameter {
        ty,
        constant,
        name: Items::new(alloc),
        name_place: place,
        place,
    }
}

fn named(
    alloc: Global,
    ty: Ty,
    constant: bool,
    at: Place,
    name: &Raw,
) -> Result<Parameter, NoMemory>
    ensures { IfOk result (λ p. p ≡ record { ty = ty; constant = constant; name = (judged name.now).text; name_place = (judged name.now).place; place = at }) }
{
    match Items::from_slice(alloc, text(name)) {
        Ok(bytes) => Ok(Parameter {
            ty,
            constant,
            name: bytes,
            name_place: place(name),
            place: at,
        }),
        Err(_) => Err(NoMemory),
    }
}

/// The parameters of a list of them.
pub fn params_of(alloc: Global, list: &Raw) -> Result<Items<Parameter>, NoMemory>
    ensures { IfOk result (λ ps. ps ≡ (judged list.now).params) }
{
    let mut ps = Items::new(alloc);
    add_params(alloc, list, &mut ps)?;
    Ok(ps)
}

/// The types of parameters.
pub fn types_of(alloc: Global, ps: &[Parameter]) -> Result<Items<Ty>, NoMemory>
    ensures { IfOk result (λ types. types ≡ spec.types_of ps.now) }
{
    let mut done = Items::new(alloc);
    let mut rest = ps;
    while let Some((p, behind)) = rest.split_first() {
        push(&mut done, p.ty)?;
        rest = behind;
    }
    Ok(done)
}
