//! Functions of the file (C11 6.7.6.3, 6.9.1).
ghost use Rattle.std.specs.Prelude.{◌≡◌, ◌∷◌, [], None, Some, map, IfOk};
ghost use Rattle.c_tree.specs.declared.tree.BlockItem.{out-BlockItem};
ghost use Rattle.c_typing.specs.Parts.{Makes, either};
ghost use Rattle.c_typing.specs.Judged.{is_token};
ghost use Rattle.c_typing.specs.Texts as texts;
ghost use Rattle.c_typing.specs.Statements as statements;
ghost use Rattle.c_typing.specs.Declarations as declarations;
ghost use Rattle.c_typing.specs.Expressions as expressions;
ghost use Rattle.c_typing.specs.Programs.{judged};
ghost use Rattle.c_typing.specs.Functions as spec;

use crate::parameters::{params_of, types_of};
use base_io::Place;
use c_expressions::notes::{count, note, note_if, push};
use c_expressions::trees::{Fronted, end, front, is_token, place, spells, text, type_of};
use c_expressions::values::same_type;
use c_parse::{NoMemory, Raw, RawRule};
use c_statements::declarations::{
    add_name, add_object, based, declare_each_global, declare_name, local,
};
use c_statements::statement_parts::{close_scope, open_scope};
use c_statements::statements::items;
use c_tree::{BlockItem, Function, Stmt, StmtKind};
use c_typing::{Meaning, Parameter, Role, Signature, State, TypeFault, last_and_others};
use c_values::Ty;
use sqlite_items::Items;
use std::alloc::Global;

/// A file has no more functions than this.
const MOST_FUNCTIONS: usize = 256;

/// A function has no more parameters than this.
const MOST_PARAMETERS: usize = 8;

/// The same types, one by one.
fn same_types(a: &[Ty], b: &[Ty]) -> bool
    ensures { result ≡ spec.same_types a.now b.now }
{
    let mut xs = a;
    let mut ys = b;
    while let Some((x, behind)) = xs.split_first() {
        match ys.split_first() {
            Some((y, others)) if same_type(*x, *y) => {
                xs = behind;
                ys = others;
            }
            _ => return false,
        }
    }
    ys.is_empty()
}

fn same_result(a: Option<Ty>, b: Option<Ty>) -> bool
    ensures { result ≡ spec.same_result a b }
{
    match (a, b) {
        (None, None) => true,
        (Some(a), Some(b)) => same_type(a, b),
        _ => false,
    }
}

/// A function that is only declared so far may be defined.
fn may_define(role: Role) -> bool
    ensures { result ≡ spec.may_define role }
{
    match role {
        Role::Declared => true,
        _ => false,
    }
}

/// A function is declared again with the same type, and not defined twice.
fn may_follow(defines: bool, params: &[Ty], result_type: Option<Ty>, old: &Signature) -> bool
    ensures { result ≡ spec.may_follow defines params.now result_type old.now }
{
    same_types(params, old.params.as_slice())
        && same_result(result_type, old.result)
        && (!defines || may_define(old.role))
}

fn role_of(defines: bool) -> Role
    ensures { result ≡ spec.role_of defines }
{
    if defines {
        Role::Defined
    } else {
        Role::Declared
    }
}

/// The function of this number, as it is known so far.
fn signature_at(alloc: Global, f: u32, state: &State) -> Result<Option<Signature>, NoMemory>
    ensures { IfOk result (λ found. found ≡ expressions.signature_at f state.now) }
{
    match state.signatures.get(f as usize) {
        None => Ok(None),
        Some(known) => match Items::from_slice(alloc, known.params.as_slice()) {
            Ok(params) => Ok(Some(Signature {
                params,
                result: known.result,
                role: known.role,
            })),
            Err(_) => Err(NoMemory),
        },
    }
}

#[tactic(auto, using(crate::proofs::Ends::set_nowhere))]
fn set_signature(f: u32, new: Signature, state: &mut State) -> Result<(), NoMemory>
    ensures { Makes (spec.set_signature f new) state.old result state.new }
{
    if (f as usize) < state.signatures.len() {
        state.signatures.set(f as usize, new);
    }
    Ok(())
}

fn defined_now(defines: bool, f: u32, old: Signature, state: &mut State) -> Result<(), NoMemory>
    ensures { Makes (spec.defined_now defines f old) state.old result state.new }
{
    if defines && may_define(old.role) {
        let new = Signature {
            params: old.params,
            result: old.result,
            role: Role::Defined,
        };
        set_signature(f, new, state)
    } else {
        Ok(())
    }
}

/// A function that was declared before is declared again.
fn name_again(
    defines: bool,
    params: &[Ty],
    result_type: Option<Ty>,
    place: Place,
    f: u32,
    old: Option<Signature>,
    state: &mut State,
) -> Result<(), NoMemory>
    ensures { Makes (spec.name_again defines params.now result_type place f old) state.old result state.new }
{
    match old {
        None => Ok(()),
        Some(old) => {
            let wrong = !may_follow(defines, params, result_type, &old);
            note_if(wrong, TypeFault::Redeclared { at: place }, state)?;
            defined_now(defines, f, old, state)
        }
    }
}

fn add_signature(new: Signature, state: &mut State) -> Result<u32, NoMemory>
    ensures { Makes (spec.add_signature new) state.old result state.new }
{
    let Ok(f) = u32::try_from(state.signatures.len()) else {
        return Err(NoMemory);
    };
    push(&mut state.signatures, new)?;
    Ok(f)
}

/// A function is declared for the first time.
fn name_first(
    defines: bool,
    params: Items<Ty>,
    result_type: Option<Ty>,
    name: &[u8],
    state: &mut State,
) -> Result<(), NoMemory>
    ensures { Makes (spec.name_first defines params result_type name.now) state.old result state.new }
{
    let new = Signature {
        params,
        result: result_type,
        role: role_of(defines),
    };
    let f = add_signature(new, state)?;
    add_name(name, Meaning::Function(f), state)
}

fn name_from(
    alloc: Global,
    defines: bool,
    params: Items<Ty>,
    result_type: Option<Ty>,
    name: &Raw,
    meaning: Option<Meaning>,
    state: &mut State,
) -> Result<(), NoMemory>
    ensures { Makes (spec.name_from defines params result_type (judged name.now) meaning) state.old result state.new }
{
    match meaning {
        None => name_first(defines, params, result_type, text(name), state),
        Some(Meaning::Function(f)) => {
            let old = signature_at(alloc, f, state)?;
            name_again(
                defines,
                params.as_slice(),
                result_type,
                place(name),
                f,
                old,
                state,
            )
        }
        Some(Meaning::Variable { .. }) => { note(TypeFault::Redeclared { at: place(name) }, state) }
    }
}

fn meaning_in_file(name: &[u8], state: &State) -> Option<Meaning>
    ensures { result ≡ spec.meaning_in_file name.now state.now }
{
    state.scopes.find_here(name)
}

/// A declaration of a function, which may be a definition.
fn name_function(
    alloc: Global,
    defines: bool,
    params: Items<Ty>,
    result_type: Option<Ty>,
    name: &Raw,
    state: &mut State,
) -> Result<(), NoMemory>
    ensures { Makes (spec.name_function defines params result_type (judged name.now)) state.old result state.new }
{
    let meaning = meaning_in_file(text(name), state);
    name_from(alloc, defines, params, result_type, name, meaning, state)
}

/// The first parameter above the limit.
fn note_many(ps: &[Parameter], state: &mut State) -> Result<(), NoMemory>
    ensures { Makes (spec.note_many ps.now) state.old result state.new }
{
    match ps.get(MOST_PARAMETERS) {
        None => Ok(()),
        Some(p) => note(TypeFault::TooMany { at: p.place }, state),
    }
}

fn is_empty(name: &[u8]) -> bool
    ensures { result ≡ texts.is_empty name.now }
{
    match name {
        [] => true,
        _ => false,
    }
}

/// A parameter of a prototype.
fn name_parameter(p: &Parameter, state: &mut State) -> Result<(), NoMemory>
    ensures { Makes (spec.name_parameter p.now) state.old result state.new }
{
    if is_empty(p.name.as_slice()) {
        return Ok(());
    }
    let meaning = Meaning::Variable {
        number: 0,
        ty: p.ty,
        length: None,
        is_const: p.constant,
    };
    declare_name(p.name.as_slice(), p.name_place, meaning, state)
}

fn name_parameters(ps: &[Parameter], state: &mut State) -> Result<(), NoMemory>
    ensures { Makes (spec.name_parameters ps.now) state.old result state.new }
{
    let mut rest = ps;
    while let Some((p, behind)) = rest.split_first() {
        name_parameter(p, state)?;
        rest = behind;
    }
    Ok(())
}

/// The parameters of a prototype have a scope of their own (C11 6.2.1).
fn scoped_parameters(ps: &[Parameter], state: &mut State) -> Result<(), NoMemory>
    ensures { Makes (statements.scoped (spec.name_parameters ps.now)) state.old result state.new }
{
    open_scope(state)?;
    name_parameters(ps, state)?;
    close_scope(state);
    Ok(())
}

fn prototype(
    alloc: Global,
    result_type: Option<Ty>,
    name: &Raw,
    ps: &[Parameter],
    state: &mut State,
) -> Result<(), NoMemory>
    ensures { Makes (spec.prototype result_type (judged name.now) ps.now) state.old result state.new }
{
    let types = types_of(alloc, ps)?;
    name_function(alloc, false, types, result_type, name, state)?;
    note_many(ps, state)?;
    scoped_parameters(ps, state)
}

fn add_parameter(alloc: Global, p: &Parameter, state: &mut State) -> Result<u32, NoMemory>
    ensures { Makes (spec.add_parameter p.now) state.old result state.new }
{
    let v = local(alloc, p.ty, None);
    add_object(alloc, p.name.as_slice(), p.name_place, p.constant, v, state)
}

/// Parameters of a definition stand in the scope of its body (C11 6.2.1).
fn add_parameters(
    alloc: Global,
    ps: &[Parameter],
    state: &mut State,
) -> Result<Items<u32>, NoMemory>
    ensures { Makes (spec.add_parameters [] ps.now) state.old result state.new }
{
    let mut done = Items::new(alloc);
    let mut rest = ps;
    while let Some((p, behind)) = rest.split_first() {
        let number = add_parameter(alloc, p, state)?;
        push(&mut done, number)?;
        rest = behind;
    }
    Ok(done)
}

fn is_return(item: &BlockItem) -> bool
    ensures { result ≡ spec.is_return_item (out-BlockItem item.now) }
{
    match item {
        BlockItem::Act(s) => match &s.kind {
            StmtKind::Return(_) => true,
            _ => false,
        },
        BlockItem::Declare(_) => false,
    }
}

#[tactic(auto, using(crate::proofs::Ends::ends_in_last))]
fn ends_in_return(items: &[BlockItem]) -> bool
    ensures { result ≡ spec.ends_in_return items.now }
{
    match last_and_others(items) {
        None => false,
        Some((last, _)) => is_return(last),
    }
}

fn body_nodes(items: &[BlockItem]) -> u64
    ensures { result ≡ spec.body_nodes items.now }
{
    if ends_in_return(items) { 1 } else { 2 }
}

fn function(
    alloc: Global,
    result_type: Option<Ty>,
    name: &Raw,
    block: &Raw,
    params: Items<u32>,
    items: Items<BlockItem>,
) -> Result<Function, NoMemory>
    ensures { IfOk result (λ f. f ≡ spec.function result_type (judged name.now) (judged block.now) params items) }
{
    match Items::from_slice(alloc, text(name)) {
        Ok(bytes) => Ok(Function {
            name: bytes,
            params,
            result: result_type,
            body: Stmt {
                place: place(block),
                kind: StmtKind::Block(items),
            },
            end: end(block),
        }),
        Err(_) => Err(NoMemory),
    }
}

/// A function, behind its parameters.
fn body(
    alloc: Global,
    result_type: Option<Ty>,
    name: &Raw,
    block: &Raw,
    params: Items<u32>,
    state: &mut State,
) -> Result<Function, NoMemory>
    ensures { Makes (spec.body_by result_type (judged name.now) (judged block.now) params) state.old result state.new }
{
    let items = items(alloc, block, state)?;
    count(body_nodes(items.as_slice()), state)?;
    function(alloc, result_type, name, block, params, items)
}

fn parameters_and_body(
    alloc: Global,
    result_type: Option<Ty>,
    name: &Raw,
    ps: &[Parameter],
    block: &Raw,
    state: &mut State,
) -> Result<Function, NoMemory>
    ensures { Makes (spec.parameters_and_body result_type (judged name.now) ps.now (judged block.now)) state.old result state.new }
{
    let params = add_parameters(alloc, ps, state)?;
    body(alloc, result_type, name, block, params, state)
}

fn scoped_body(
    alloc: Global,
    result_type: Option<Ty>,
    name: &Raw,
    ps: &[Parameter],
    block: &Raw,
    state: &mut State,
) -> Result<Function, NoMemory>
    ensures { Makes (statements.scoped (spec.parameters_and_body result_type (judged name.now) ps.now (judged block.now))) state.old result state.new }
{
    open_scope(state)?;
    let f = parameters_and_body(alloc, result_type, name, ps, block, state)?;
    close_scope(state);
    Ok(f)
}

fn is_last(state: &State) -> bool
    ensures { result ≡ spec.is_last state.now }
{
    MOST_FUNCTIONS <= state.functions.len()
}

/// What a definition declares before its body.
fn definition_head(
    alloc: Global,
    result_type: Option<Ty>,
    name: &Raw,
    ps: &[Parameter],
    state: &mut State,
) -> Result<(), NoMemory>
    ensures { Makes (spec.definition_head result_type (judged name.now) ps.now) state.old result state.new }
{
    let full = is_last(state);
    note_if(full, TypeFault::TooMany { at: place(name) }, state)?;
    let types = types_of(alloc, ps)?;
    name_function(alloc, true, types, result_type, name, state)?;
    note_many(ps, state)
}

fn definition(
    alloc: Global,
    result_type: Option<Ty>,
    name: &Raw,
    ps: &[Parameter],
    block: &Raw,
    state: &mut State,
) -> Result<(), NoMemory>
    ensures { Makes (spec.definition result_type (judged name.now) ps.now (judged block.now)) state.old result state.new }
{
    definition_head(alloc, result_type, name, ps, state)?;
    state.result = result_type;
    let f = scoped_body(alloc, result_type, name, ps, block, state)?;
    push(&mut state.functions, f)
}

/// The type of a result: none for `void`, which is a token.
fn result_of(part: &Raw) -> Option<Ty>
    ensures { result ≡ spec.result_of (judged part.now) }
{
    if is_token(part) {
        None
    } else {
        Some(type_of(part))
    }
}

/// A function's declaration begins with a type, a name and a bracket, and has parameters behind it.
fn is_function(parts: &[Raw]) -> bool
    ensures { result ≡ spec.is_function (map judged parts.now) }
{
    match front(parts) {
        Fronted::More(_, name, rest) => match front(rest) {
            Fronted::More(bracket, _, _) => is_token(name) && spells(b"(", bracket),
            _ => false,
        },
        _ => false,
    }
}

fn function_made(
    alloc: Global,
    ty: &Raw,
    name: &Raw,
    list: &Raw,
    ending: &Raw,
    state: &mut State,
) -> Result<(), NoMemory>
    ensures { Makes (spec.function_made (judged ty.now) (judged name.now) (judged list.now) (judged ending.now)) state.old result state.new }
{
    let ps = params_of(alloc, list)?;
    function_ended(alloc, result_of(ty), name, ps.as_slice(), ending, state)
}

/// A semicolon ends a prototype, and a body a definition.
fn function_ended(
    alloc: Global,
    result_type: Option<Ty>,
    name: &Raw,
    ps: &[Parameter],
    ending: &Raw,
    state: &mut State,
) -> Result<(), NoMemory>
    ensures { Makes (either (is_token (judged ending.now)) (spec.prototype result_type (judged name.now) ps.now) (spec.definition result_type (judged name.now) ps.now (judged ending.now))) state.old result state.new }
{
    if is_token(ending) {
        prototype(alloc, result_type, name, ps, state)
    } else {
        definition(alloc, result_type, name, ps, ending, state)
    }
}

fn function_parts(alloc: Global, parts: &[Raw], state: &mut State) -> Result<(), NoMemory>
    ensures { Makes (spec.function_by (map judged parts.now)) state.old result state.new }
{
    match front(parts) {
        Fronted::More(ty, name, rest) => match front(rest) {
            Fronted::More(_, list, rest) => match front(rest) {
                Fronted::More(_, ending, _) => {
                    function_made(alloc, ty, name, list, ending, state)
                }
                _ => Ok(()),
            },
            _ => Ok(()),
        },
        _ => Ok(()),
    }
}

fn objects(alloc: Global, constant: bool, parts: &[Raw], state: &mut State) -> Result<(), NoMemory>
    ensures { Makes (spec.objects_by constant (map judged parts.now)) state.old result state.new }
{
    match parts.split_first() {
        None => Ok(()),
        Some((ty, rest)) => objects_typed(alloc, constant, ty, rest, state),
    }
}

/// Objects of the file behind their type name.
fn objects_typed(
    alloc: Global,
    constant: bool,
    ty: &Raw,
    rest: &[Raw],
    state: &mut State,
) -> Result<(), NoMemory>
    ensures { Makes (declarations.declare_each_global (declarations.based constant (judged ty.now)) (map judged rest.now)) state.old result state.new }
{
    declare_each_global(alloc, based(constant, ty), rest, state)
}

fn declared(alloc: Global, parts: &[Raw], state: &mut State) -> Result<(), NoMemory>
    ensures { Makes (spec.declared_by (map judged parts.now)) state.old result state.new }
{
    match parts.split_first() {
        None => Ok(()),
        Some((first, rest)) => {
            if spells(b"const", first) {
                objects(alloc, true, rest, state)
            } else if is_function(parts) {
                function_parts(alloc, parts, state)
            } else {
                objects(alloc, false, parts, state)
            }
        }
    }
}

/// What stands behind a `static`, which means nothing here.
pub fn unstatic(parts: &[Raw]) -> &[Raw]
    ensures { map judged result.now ≡ spec.unstatic (map judged parts.now) }
{
    match parts.split_first() {
        None => parts,
        Some((first, rest)) => if spells(b"static", first) {
            rest
        } else {
            parts
        },
    }
}

pub fn external_parts(alloc: Global, parts: &[Raw], state: &mut State) -> Result<(), NoMemory>
    ensures { Makes (spec.external_by (map judged parts.now)) state.old result state.new }
{
    declared(alloc, unstatic(parts), state)
}
