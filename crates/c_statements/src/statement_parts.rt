//! Small parts of statements.
ghost use Rattle.std.specs.Prelude.{◌≡◌, ◌∷◌, [], ◌+◌, map, MatchOption, ◌≤◌};
ghost use Rattle.c_typing.specs.Parts.{Makes, Gives};
ghost use Rattle.c_typing.specs.Judged as judgement;
ghost use Rattle.c_typing.specs.Sizes.{size, total};
ghost use Rattle.c_typing.specs.Programs.{judged, first_place};
ghost use Rattle.c_typing.specs.Statements as spec;

use base_io::Place;
use c_expressions::actions::act;
use c_expressions::expressions::value_of;
use c_expressions::notes::{count, note};
use c_expressions::trees::{Fronted, NO_PLACE, front, place, rule};
use c_expressions::values::converted;
use c_parse::{NoMemory, Raw, RawRule};
use c_tree::{Expr, Stmt, StmtKind};
use c_typing::{State, TypeFault};
use c_values::Ty;
use sqlite_items::Boxed;
use std::alloc::Global;

/// The first tree of a list, and those behind it.
pub fn first_and_rest(parts: &[Raw]) -> Option<(&Raw, &[Raw])>
    ensures items { MatchOption result (parts.now ≡ []) (λ r. parts.now ≡ r.0.now ∷ r.1.now) }
    ensures total { MatchOption result (total parts.now ≡ 0) (λ r. total parts.now ≡ size r.0.now + total r.1.now) }
{
    match parts.split_first() {
        None => None,
        Some((first, rest)) => Some((first, rest)),
    }
}

/// The trees behind the first of a list.
pub fn but_first(parts: &[Raw]) -> &[Raw]
    ensures items { map judged result.now ≡ spec.but_first (map judged parts.now) }
    ensures total { total result.now ≤ total parts.now }
{
    match first_and_rest(parts) {
        Some((_, rest)) => rest,
        None => parts,
    }
}

/// Where a list of trees begins.
pub fn first_place(parts: &[Raw]) -> Place
    ensures { result ≡ first_place (map judged parts.now) }
{
    match parts.split_first() {
        Some((part, _)) => place(part),
        None => NO_PLACE,
    }
}

/// A tree is a declaration.
#[tactic(auto, using(crate::proofs::Rules::other_declaration))]
pub fn is_declaration(raw: &Raw) -> bool
    ensures { result ≡ spec.is_declaration (judged raw.now).rule }
{
    match rule(raw) {
        None => false,
        Some(rule) => match rule {
            RawRule::Declaration => true,
            _ => false,
        },
    }
}

/// A tree is a block.
#[tactic(auto, using(crate::proofs::Rules::other_block))]
pub fn is_block(raw: &Raw) -> bool
    ensures { result ≡ spec.is_block (judged raw.now).rule }
{
    match rule(raw) {
        None => false,
        Some(rule) => match rule {
            RawRule::Block => true,
            _ => false,
        },
    }
}

/// A tree is a label.
#[tactic(auto, using(crate::proofs::Rules::other_label))]
pub fn is_label(raw: &Raw) -> bool
    ensures { result ≡ spec.is_label (judged raw.now).rule }
{
    match rule(raw) {
        None => false,
        Some(rule) => match rule {
            RawRule::Label => true,
            _ => false,
        },
    }
}

/// A scope begins.
pub fn open_scope(state: &mut State) -> Result<(), NoMemory>
    ensures { Makes spec.open_scope state.old result state.new }
{
    state.scopes.open()
}

/// The innermost scope ends.
pub fn close_scope(state: &mut State)
    ensures { spec.close_scope state.old ≡ Gives tt state.new }
{
    state.scopes.close();
}

/// What stands for no statement.
pub fn empty_stmt() -> Stmt
    ensures { result ≡ judgement.empty_stmt }
{
    Stmt {
        place: NO_PLACE,
        kind: StmtKind::Empty,
    }
}

/// A statement is a node.
pub fn made(place: Place, kind: StmtKind, state: &mut State) -> Result<Stmt, NoMemory>
    ensures { Makes (spec.made place kind) state.old result state.new }
{
    let Ok(()) = count(1, state) else {
        drop(kind);
        return Err(NoMemory);
    };
    Ok(Stmt { place, kind })
}

/// An assignment, or an expression for itself.
pub fn act_kind(alloc: Global, part: &Raw, state: &mut State) -> Result<StmtKind, NoMemory>
    ensures { Makes (spec.act_kind (judged part.now)) state.old result state.new }
{
    let action = act(alloc, part, state)?;
    Ok(StmtKind::Act(action))
}

/// A `return` without a value, from a function with a result of this type.
fn returned_nothing(place: Place, ty: Option<Ty>, state: &mut State) -> Result<StmtKind, NoMemory>
    ensures { Makes (spec.returned_nothing place ty) state.old result state.new }
{
    match ty {
        None => Ok(StmtKind::Return(None)),
        Some(_) => {
            note(TypeFault::BadAssign { at: place }, state)?;
            Ok(StmtKind::Return(None))
        }
    }
}

/// A `return` of a value, from a function with a result of this type.
fn returned(
    alloc: Global,
    place: Place,
    e: Expr,
    ty: Option<Ty>,
    state: &mut State,
) -> Result<StmtKind, NoMemory>
    ensures { Makes (spec.returned place e ty) state.old result state.new }
{
    match ty {
        None => {
            drop(e);
            note(TypeFault::BadAssign { at: place }, state)?;
            Ok(StmtKind::Return(None))
        }
        Some(ty) => {
            let e = converted(alloc, ty, e, state)?;
            Ok(StmtKind::Return(Some(e)))
        }
    }
}

/// `return` behind its word (C11 6.8.6.4).
pub fn return_parts(
    alloc: Global,
    place: Place,
    parts: &[Raw],
    state: &mut State,
) -> Result<StmtKind, NoMemory>
    ensures { Makes (spec.return_by place (map judged parts.now)) state.old result state.new }
{
    match front(parts) {
        Fronted::More(part, _, []) => {
            let e = value_of(alloc, part, state)?;
            returned(alloc, place, e, state.result, state)
        }
        _ => returned_nothing(place, state.result, state),
    }
}

/// `do` behind its body.
pub fn do_test(
    alloc: Global,
    part: &Raw,
    body: Boxed<Stmt>,
    state: &mut State,
) -> Result<StmtKind, NoMemory>
    ensures { Makes (spec.do_test (judged part.now) body) state.old result state.new }
{
    let test = value_of(alloc, part, state)?;
    Ok(StmtKind::Do { body, test })
}
