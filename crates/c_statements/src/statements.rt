//! Statements and the items of blocks (C11 6.8).
ghost use Rattle.std.specs.Prelude.{◌≡◌, ◌∷◌, [], map};
ghost use Rattle.c_typing.specs.Parts.{Makes};
ghost use Rattle.c_typing.specs.Judged.{is_token};
ghost use Rattle.c_typing.specs.Programs.{judged, first_place};
ghost use Rattle.c_typing.specs.Statements as spec;

use crate::declarations::declaration;
use crate::statement_parts::{
    act_kind, but_first, close_scope, do_test, empty_stmt, first_and_rest, first_place, is_block,
    is_declaration, is_label, made, open_scope, return_parts,
};
use crate::switches::{add_labels, copy_labels, label};
use base_io::Place;
use c_expressions::actions::act;
use c_expressions::conversions::promoted;
use c_expressions::expressions::value_of;
use c_expressions::notes::{boxed, count, push};
use c_expressions::trees::{Fronted, front, is_token, place, spells};
use c_expressions::values::converted;
use c_parse::{NoMemory, Raw, RawRule};
use c_tree::{Action, BlockItem, Expr, ForFirst, Group, Label, Stmt, StmtKind};
use c_typing::State;
use c_values::Ty;
use sqlite_items::{Boxed, Items};
use std::alloc::Global;

/// A statement.
#[tactic(auto, using(c_typing::proofs::Judging::judged_leaf, c_typing::proofs::Judging::judged_node, c_typing::proofs::Judging::size_node))]
#[cycle(nested)]
pub fn stmt(alloc: Global, raw: &Raw, state: &mut State) -> Result<Stmt, NoMemory>
    ensures { Makes (judged raw.now).stmt state.old result state.new }
{
    match raw {
        Raw::Leaf { .. } => Ok(empty_stmt()),
        Raw::Node { rule, parts } => match *rule {
            RawRule::Statement => stmt_parts(alloc, parts.as_slice(), state),
            _ => Ok(empty_stmt()),
        },
    }
}

/// A statement in a box.
#[cycle(nested)]
fn boxed_stmt(alloc: Global, raw: &Raw, state: &mut State) -> Result<Boxed<Stmt>, NoMemory>
    ensures { Makes (judged raw.now).stmt state.old result state.new }
{
    let found = stmt(alloc, raw, state)?;
    boxed(alloc, found)
}

/// The parts of a statement.
#[cycle(nested)]
fn stmt_parts(alloc: Global, parts: &[Raw], state: &mut State) -> Result<Stmt, NoMemory>
    ensures { Makes (spec.stmt_by (first_place (map judged parts.now)) (map judged parts.now)) state.old result state.new }
{
    let kind = stmt_kind(alloc, parts, state)?;
    made(first_place(parts), kind, state)
}

/// What a statement is.
#[cycle(nested)]
fn stmt_kind(alloc: Global, parts: &[Raw], state: &mut State) -> Result<StmtKind, NoMemory>
    ensures { Makes (spec.stmt_kind (map judged parts.now)) state.old result state.new }
{
    match first_and_rest(parts) {
        Some((part, rest)) => if is_token(part) {
            word_kind(alloc, part, rest, state)
        } else {
            node_kind(alloc, part, state)
        },
        None => Ok(StmtKind::Empty),
    }
}

/// A statement behind its first word.
#[cycle(nested)]
fn word_kind(
    alloc: Global,
    word: &Raw,
    rest: &[Raw],
    state: &mut State,
) -> Result<StmtKind, NoMemory>
    ensures { Makes (spec.word_kind (judged word.now) (map judged rest.now)) state.old result state.new }
{
    if spells(b"break", word) {
        Ok(StmtKind::Break)
    } else if spells(b"continue", word) {
        Ok(StmtKind::Continue)
    } else if spells(b"return", word) {
        return_parts(alloc, place(word), rest, state)
    } else if spells(b"if", word) {
        if_parts(alloc, rest, state)
    } else {
        loop_kind(alloc, word, rest, state)
    }
}

/// A loop or a `switch`, behind its first word.
#[cycle(nested)]
fn loop_kind(
    alloc: Global,
    word: &Raw,
    rest: &[Raw],
    state: &mut State,
) -> Result<StmtKind, NoMemory>
    ensures { Makes (spec.loop_kind (judged word.now).text (map judged rest.now)) state.old result state.new }
{
    if spells(b"while", word) {
        while_parts(alloc, rest, state)
    } else if spells(b"do", word) {
        do_parts(alloc, rest, state)
    } else if spells(b"for", word) {
        for_parts(alloc, rest, state)
    } else if spells(b"switch", word) {
        switch_parts(alloc, rest, state)
    } else {
        Ok(StmtKind::Empty)
    }
}

/// A block, or an action.
#[cycle(nested)]
fn node_kind(alloc: Global, part: &Raw, state: &mut State) -> Result<StmtKind, NoMemory>
    ensures { Makes (spec.node_kind (judged part.now)) state.old result state.new }
{
    if is_block(part) {
        let items = block(alloc, part, state)?;
        Ok(StmtKind::Block(items))
    } else {
        act_kind(alloc, part, state)
    }
}

/// The items of a block, which is a scope.
#[cycle(nested)]
fn block(alloc: Global, part: &Raw, state: &mut State) -> Result<Items<BlockItem>, NoMemory>
    ensures { Makes (spec.scoped (judged part.now).items) state.old result state.new }
{
    open_scope(state)?;
    let found = items(alloc, part, state)?;
    close_scope(state);
    Ok(found)
}

/// The items of a block.
#[tactic(auto, using(c_typing::proofs::Judging::judged_leaf, c_typing::proofs::Judging::judged_node, c_typing::proofs::Judging::size_node))]
#[cycle(nested)]
pub fn items(alloc: Global, raw: &Raw, state: &mut State) -> Result<Items<BlockItem>, NoMemory>
    ensures { Makes (judged raw.now).items state.old result state.new }
{
    match raw {
        Raw::Leaf { .. } => Ok(Items::new(alloc)),
        Raw::Node { rule, parts } => match *rule {
            RawRule::Block => block_parts(alloc, parts.as_slice(), state),
            _ => Ok(Items::new(alloc)),
        },
    }
}

/// The parts of a block.
#[cycle(nested)]
fn block_parts(
    alloc: Global,
    parts: &[Raw],
    state: &mut State,
) -> Result<Items<BlockItem>, NoMemory>
    ensures { Makes (spec.items_by (map judged parts.now)) state.old result state.new }
{
    match first_and_rest(parts) {
        Some((_, rest)) => items_in(alloc, rest, state),
        None => Ok(Items::new(alloc)),
    }
}

/// The items up to the first token.
#[cycle(nested)]
fn items_in(alloc: Global, parts: &[Raw], state: &mut State) -> Result<Items<BlockItem>, NoMemory>
    ensures { Makes (spec.items_onto [] (map judged parts.now)) state.old result state.new }
{
    let mut done = Items::new(alloc);
    let mut rest = parts;
    while let Some((part, behind)) = first_and_rest(rest) {
        if is_token(part) {
            return Ok(done);
        }
        let found = item(alloc, part, state)?;
        push(&mut done, found)?;
        rest = behind;
    }
    Ok(done)
}

/// An item of a block.
#[tactic(auto, using(c_typing::proofs::Judging::judged_leaf, c_typing::proofs::Judging::judged_node, c_typing::proofs::Judging::size_node))]
#[cycle(nested)]
fn item(alloc: Global, raw: &Raw, state: &mut State) -> Result<BlockItem, NoMemory>
    ensures { Makes (judged raw.now).item state.old result state.new }
{
    match raw {
        Raw::Leaf { .. } => Ok(BlockItem::Declare(Items::new(alloc))),
        Raw::Node { rule, parts } => match *rule {
            RawRule::Item => item_parts(alloc, parts.as_slice(), state),
            _ => Ok(BlockItem::Declare(Items::new(alloc))),
        },
    }
}

/// The parts of an item.
#[cycle(nested)]
fn item_parts(alloc: Global, parts: &[Raw], state: &mut State) -> Result<BlockItem, NoMemory>
    ensures { Makes (spec.item_by (map judged parts.now)) state.old result state.new }
{
    match first_and_rest(parts) {
        Some((part, _)) => if is_declaration(part) {
            let declared = declaration(alloc, part, state)?;
            Ok(BlockItem::Declare(declared))
        } else {
            let found = stmt(alloc, part, state)?;
            Ok(BlockItem::Act(found))
        },
        None => Ok(BlockItem::Declare(Items::new(alloc))),
    }
}

/// `if` behind its word (C11 6.8.4.1).
#[cycle(nested)]
fn if_parts(alloc: Global, parts: &[Raw], state: &mut State) -> Result<StmtKind, NoMemory>
    ensures { Makes (spec.if_by (map judged parts.now)) state.old result state.new }
{
    match front(parts) {
        Fronted::More(_, test, rest) => match front(rest) {
            Fronted::More(_, part, rest) => {
                let test = value_of(alloc, test, state)?;
                yes_parts(alloc, part, rest, test, state)
            }
            _ => Ok(StmtKind::Empty),
        },
        _ => Ok(StmtKind::Empty),
    }
}

/// `if` behind its test.
#[cycle(nested)]
fn yes_parts(
    alloc: Global,
    part: &Raw,
    rest: &[Raw],
    test: Expr,
    state: &mut State,
) -> Result<StmtKind, NoMemory>
    ensures { Makes (spec.yes_by (judged part.now) (map judged rest.now) test) state.old result state.new }
{
    let Ok(yes) = boxed_stmt(alloc, part, state) else {
        drop(test);
        return Err(NoMemory);
    };
    else_parts(alloc, rest, test, yes, state)
}

/// `if` behind its first statement.
#[cycle(nested)]
fn else_parts(
    alloc: Global,
    parts: &[Raw],
    test: Expr,
    yes: Boxed<Stmt>,
    state: &mut State,
) -> Result<StmtKind, NoMemory>
    ensures { Makes (spec.else_by (map judged parts.now) test yes) state.old result state.new }
{
    match front(parts) {
        Fronted::More(_, part, _) => {
            let Ok(no) = boxed_stmt(alloc, part, state) else {
                drop(test);
                drop(yes);
                return Err(NoMemory);
            };
            Ok(StmtKind::If {
                test,
                yes,
                no: Some(no),
            })
        }
        _ => Ok(StmtKind::If {
            test,
            yes,
            no: None,
        }),
    }
}

/// `while` behind its word (C11 6.8.5.1).
#[cycle(nested)]
fn while_parts(alloc: Global, parts: &[Raw], state: &mut State) -> Result<StmtKind, NoMemory>
    ensures { Makes (spec.while_by (map judged parts.now)) state.old result state.new }
{
    match front(parts) {
        Fronted::More(_, test, rest) => match front(rest) {
            Fronted::More(_, part, _) => {
                count(1, state)?;
                let test = value_of(alloc, test, state)?;
                while_body(alloc, part, test, state)
            }
            _ => Ok(StmtKind::Empty),
        },
        _ => Ok(StmtKind::Empty),
    }
}

/// `while` behind its test.
#[cycle(nested)]
fn while_body(
    alloc: Global,
    part: &Raw,
    test: Expr,
    state: &mut State,
) -> Result<StmtKind, NoMemory>
    ensures { Makes (spec.while_body (judged part.now) test) state.old result state.new }
{
    let Ok(body) = boxed_stmt(alloc, part, state) else {
        drop(test);
        return Err(NoMemory);
    };
    Ok(StmtKind::While { test, body })
}

/// `do` behind its word (C11 6.8.5.2).
#[cycle(nested)]
fn do_parts(alloc: Global, parts: &[Raw], state: &mut State) -> Result<StmtKind, NoMemory>
    ensures { Makes (spec.do_by (map judged parts.now)) state.old result state.new }
{
    match front(parts) {
        Fronted::More(part, _, rest) => match front(rest) {
            Fronted::More(_, test, _) => {
                count(1, state)?;
                let body = boxed_stmt(alloc, part, state)?;
                do_test(alloc, test, body, state)
            }
            _ => Ok(StmtKind::Empty),
        },
        _ => Ok(StmtKind::Empty),
    }
}

/// `for` behind its word (C11 6.8.5.3).
#[cycle(nested)]
fn for_parts(alloc: Global, parts: &[Raw], state: &mut State) -> Result<StmtKind, NoMemory>
    ensures { Makes (spec.for_by (map judged parts.now)) state.old result state.new }
{
    match first_and_rest(parts) {
        Some((_, rest)) => {
            count(1, state)?;
            scoped_for(alloc, rest, state)
        }
        None => Ok(StmtKind::Empty),
    }
}

/// `for` behind its bracket, as a scope.
#[cycle(nested)]
fn scoped_for(alloc: Global, parts: &[Raw], state: &mut State) -> Result<StmtKind, NoMemory>
    ensures { Makes (spec.scoped (spec.first_by (map judged parts.now))) state.old result state.new }
{
    open_scope(state)?;
    let kind = first_parts(alloc, parts, state)?;
    close_scope(state);
    Ok(kind)
}

/// `for` behind its bracket.
#[cycle(nested)]
fn first_parts(alloc: Global, parts: &[Raw], state: &mut State) -> Result<StmtKind, NoMemory>
    ensures { Makes (spec.first_by (map judged parts.now)) state.old result state.new }
{
    match first_and_rest(parts) {
        Some((part, rest)) => if is_token(part) {
            test_parts(alloc, rest, None, state)
        } else {
            first_some(alloc, part, rest, state)
        },
        None => Ok(StmtKind::Empty),
    }
}

/// `for` with something in front of its first semicolon, which a declaration has itself.
#[tactic(auto, using(crate::proofs::Grouped::first_acts))]
#[cycle(nested)]
fn first_some(
    alloc: Global,
    part: &Raw,
    rest: &[Raw],
    state: &mut State,
) -> Result<StmtKind, NoMemory>
    ensures { Makes (spec.first_some (judged part.now) (map judged rest.now)) state.old result state.new }
{
    if is_declaration(part) {
        let declared = declaration(alloc, part, state)?;
        test_parts(alloc, rest, Some(ForFirst::Declare(declared)), state)
    } else {
        let action = act(alloc, part, state)?;
        test_parts(alloc, but_first(rest), Some(ForFirst::Act(action)), state)
    }
}

/// `for` behind its first semicolon.
#[tactic(auto, using(crate::proofs::Grouped::test_stands))]
#[cycle(nested)]
fn test_parts(
    alloc: Global,
    parts: &[Raw],
    first: Option<ForFirst>,
    state: &mut State,
) -> Result<StmtKind, NoMemory>
    ensures { Makes (spec.test_by (map judged parts.now) first) state.old result state.new }
{
    match first_and_rest(parts) {
        Some((part, rest)) => if is_token(part) {
            step_parts(alloc, first, rest, None, state)
        } else {
            let Ok(test) = value_of(alloc, part, state) else {
                drop(first);
                return Err(NoMemory);
            };
            step_parts(alloc, first, but_first(rest), Some(test), state)
        },
        None => {
            drop(first);
            Ok(StmtKind::Empty)
        }
    }
}

/// `for` behind its second semicolon.
#[tactic(auto, using(crate::proofs::Grouped::step_stands))]
#[cycle(nested)]
fn step_parts(
    alloc: Global,
    first: Option<ForFirst>,
    parts: &[Raw],
    test: Option<Expr>,
    state: &mut State,
) -> Result<StmtKind, NoMemory>
    ensures { Makes (spec.step_by first (map judged parts.now) test) state.old result state.new }
{
    match first_and_rest(parts) {
        Some((part, rest)) => if is_token(part) {
            for_body(alloc, first, test, rest, None, state)
        } else {
            let Ok(step) = act(alloc, part, state) else {
                drop(first);
                drop(test);
                return Err(NoMemory);
            };
            for_body(alloc, first, test, but_first(rest), Some(step), state)
        },
        None => {
            drop(first);
            drop(test);
            Ok(StmtKind::Empty)
        }
    }
}

/// `for` behind its closing bracket.
#[cycle(nested)]
fn for_body(
    alloc: Global,
    first: Option<ForFirst>,
    test: Option<Expr>,
    parts: &[Raw],
    step: Option<Action>,
    state: &mut State,
) -> Result<StmtKind, NoMemory>
    ensures { Makes (spec.for_body first test (map judged parts.now) step) state.old result state.new }
{
    match first_and_rest(parts) {
        Some((part, _)) => {
            let Ok(body) = boxed_stmt(alloc, part, state) else {
                drop(first);
                drop(test);
                drop(step);
                return Err(NoMemory);
            };
            Ok(StmtKind::For {
                first,
                test,
                step,
                body,
            })
        }
        None => {
            drop(first);
            drop(test);
            drop(step);
            Ok(StmtKind::Empty)
        }
    }
}

/// `switch` behind its word (C11 6.8.4.2).
#[cycle(nested)]
fn switch_parts(alloc: Global, parts: &[Raw], state: &mut State) -> Result<StmtKind, NoMemory>
    ensures { Makes (spec.switch_by (map judged parts.now)) state.old result state.new }
{
    match front(parts) {
        Fronted::More(_, part, rest) => match front(rest) {
            Fronted::More(_, _, rest) => {
                let value = value_of(alloc, part, state)?;
                switch_value(alloc, rest, value, state)
            }
            _ => Ok(StmtKind::Empty),
        },
        _ => Ok(StmtKind::Empty),
    }
}

/// The value of a `switch` is promoted.
#[cycle(nested)]
fn switch_value(
    alloc: Global,
    parts: &[Raw],
    e: Expr,
    state: &mut State,
) -> Result<StmtKind, NoMemory>
    ensures { Makes (spec.switch_value (map judged parts.now) e) state.old result state.new }
{
    let ty = promoted(e.ty);
    let e = converted(alloc, ty, e, state)?;
    switched(alloc, parts, e, state)
}

/// `switch` behind its opening brace.
#[cycle(nested)]
fn switched(
    alloc: Global,
    parts: &[Raw],
    value: Expr,
    state: &mut State,
) -> Result<StmtKind, NoMemory>
    ensures { Makes (spec.switched (map judged parts.now) value) state.old result state.new }
{
    let Ok(groups) = groups_in(alloc, value.ty, parts, state) else {
        drop(value);
        return Err(NoMemory);
    };
    Ok(StmtKind::Switch { value, groups })
}

/// The groups up to the first token.
#[cycle(nested)]
fn groups_in(
    alloc: Global,
    ty: Ty,
    parts: &[Raw],
    state: &mut State,
) -> Result<Items<Group>, NoMemory>
    ensures { Makes (spec.groups_onto ty [] [] (map judged parts.now)) state.old result state.new }
{
    let mut before = Items::new(alloc);
    let mut done = Items::new(alloc);
    let mut rest = parts;
    while let Some((part, behind)) = first_and_rest(rest) {
        if is_token(part) {
            return Ok(done);
        }
        let found = group(alloc, ty, before.as_slice(), part, state)?;
        let Ok(()) = copy_labels(alloc, &mut before, found.labels.as_slice()) else {
            drop(found);
            return Err(NoMemory);
        };
        push(&mut done, found)?;
        rest = behind;
    }
    Ok(done)
}

/// A group of a switch of this type, behind labels.
#[tactic(auto, using(c_typing::proofs::Judging::judged_leaf, c_typing::proofs::Judging::judged_node, c_typing::proofs::Judging::size_node, crate::proofs::Grouped::node_group))]
#[cycle(nested)]
fn group(
    alloc: Global,
    ty: Ty,
    before: &[Label],
    raw: &Raw,
    state: &mut State,
) -> Result<Group, NoMemory>
    ensures { Makes ((judged raw.now).group ty before.now) state.old result state.new }
{
    match raw {
        Raw::Leaf { .. } => Ok(Group {
            labels: Items::new(alloc),
            items: Items::new(alloc),
        }),
        Raw::Node { rule, parts } => match *rule {
            RawRule::Group => scoped_group(alloc, ty, before, parts.as_slice(), state),
            _ => Ok(Group {
                labels: Items::new(alloc),
                items: Items::new(alloc),
            }),
        },
    }
}

/// The parts of a group, which is a scope.
#[cycle(nested)]
fn scoped_group(
    alloc: Global,
    ty: Ty,
    before: &[Label],
    parts: &[Raw],
    state: &mut State,
) -> Result<Group, NoMemory>
    ensures { Makes (spec.group_by (map judged parts.now) ty before.now) state.old result state.new }
{
    open_scope(state)?;
    let found = group_parts(alloc, ty, before, parts, state)?;
    close_scope(state);
    Ok(found)
}

/// The labels of a group, and behind them its items.
#[cycle(nested)]
fn group_parts(
    alloc: Global,
    ty: Ty,
    before: &[Label],
    parts: &[Raw],
    state: &mut State,
) -> Result<Group, NoMemory>
    ensures { Makes (spec.group_onto ty before.now [] (map judged parts.now)) state.old result state.new }
{
    let mut labels = Items::new(alloc);
    let mut rest = parts;
    while let Some((part, behind)) = first_and_rest(rest) {
        if !is_label(part) {
            let items = items_in(alloc, rest, state)?;
            return Ok(Group { labels, items });
        }
        let more = label(alloc, part, ty, before, labels.as_slice(), state)?;
        add_labels(&mut labels, more)?;
        rest = behind;
    }
    Ok(Group {
        labels,
        items: Items::new(alloc),
    })
}
