//! Statements, and the groups of a `switch`.
ghost use Rattle.std.specs.Prelude.{◌≡◌, IfOk};
ghost use Rattle.c_parse.specs.Machine.{choose};
ghost use Rattle.c_parse.specs.Grammar.{switched};
ghost use Rattle.c_parse.specs.Steps.{Unfolds, symbols_of};
ghost use Rattle.c_parse.specs.declared.form.Form.{Form};

use crate::begins::{begins_action, begins_declaration, begins_statement};
use crate::choose::want;
use crate::class::Class;
use crate::form::{Form, Symbol, Within};
use crate::no_memory::NoMemory;
use crate::waits::Waits;
use Symbol::{Sub, Token};

fn switched(within: Within) -> Within
    ensures { result ≡ switched within }
{
    match within {
        Within::Body => Within::Switch,
        Within::Switch => Within::Switch,
        Within::Loop => Within::Loop,
    }
}

pub fn choose_items(
    waits: &mut Waits,
    within: Within,
    look: Option<Class>,
) -> Result<bool, NoMemory>
    ensures { IfOk result (λ done. Unfolds (symbols_of (choose (Form.Items within) look) (Form.Items within)) done waits.old.stack.items waits.new.stack.items) }
{
    match look {
        Some(Class::CloseBrace | Class::Case | Class::Default) | None => Ok(true),
        _ => want(waits, &[Sub(Form::Item(within)), Sub(Form::Items(within))]),
    }
}

pub fn choose_item(waits: &mut Waits, within: Within, look: Option<Class>) -> Result<bool, NoMemory>
    ensures { IfOk result (λ done. Unfolds (symbols_of (choose (Form.Item within) look) (Form.Item within)) done waits.old.stack.items waits.new.stack.items) }
{
    if begins_declaration(look) {
        want(waits, &[Sub(Form::Declaration)])
    } else if begins_statement(within, look) {
        want(waits, &[Sub(Form::Statement(within))])
    } else {
        Ok(false)
    }
}

pub fn choose_statement(
    waits: &mut Waits,
    within: Within,
    look: Option<Class>,
) -> Result<bool, NoMemory>
    ensures { IfOk result (λ done. Unfolds (symbols_of (choose (Form.Statement within) look) (Form.Statement within)) done waits.old.stack.items waits.new.stack.items) }
{
    match look {
        Some(Class::OpenBrace) => want(waits, &[Sub(Form::Block(within))]),
        Some(Class::Semicolon) => want(waits, &[Token(Class::Semicolon)]),
        Some(Class::Return) => want(
            waits,
            &[
                Token(Class::Return),
                Sub(Form::Returned),
                Token(Class::Semicolon),
            ],
        ),
        Some(Class::If) => want(
            waits,
            &[
                Token(Class::If),
                Token(Class::Open),
                Sub(Form::Expr),
                Token(Class::Close),
                Sub(Form::Statement(within)),
                Sub(Form::ElsePart(within)),
            ],
        ),
        Some(Class::While) => want(
            waits,
            &[
                Token(Class::While),
                Token(Class::Open),
                Sub(Form::Expr),
                Token(Class::Close),
                Sub(Form::Statement(Within::Loop)),
            ],
        ),
        Some(Class::Do) => want(
            waits,
            &[
                Token(Class::Do),
                Sub(Form::Statement(Within::Loop)),
                Token(Class::While),
                Token(Class::Open),
                Sub(Form::Expr),
                Token(Class::Close),
                Token(Class::Semicolon),
            ],
        ),
        Some(Class::For) => want(
            waits,
            &[
                Token(Class::For),
                Token(Class::Open),
                Sub(Form::ForFirst),
                Sub(Form::Tested),
                Token(Class::Semicolon),
                Sub(Form::Stepped),
                Token(Class::Close),
                Sub(Form::Statement(Within::Loop)),
            ],
        ),
        Some(Class::Switch) => want(
            waits,
            &[
                Token(Class::Switch),
                Token(Class::Open),
                Sub(Form::Expr),
                Token(Class::Close),
                Token(Class::OpenBrace),
                Sub(Form::Groups(switched(within), true)),
                Token(Class::CloseBrace),
            ],
        ),
        Some(Class::Break) => match within {
            Within::Body => Ok(false),
            Within::Switch => want(waits, &[Token(Class::Break), Token(Class::Semicolon)]),
            Within::Loop => want(waits, &[Token(Class::Break), Token(Class::Semicolon)]),
        },
        Some(Class::Continue) => match within {
            Within::Body => Ok(false),
            Within::Switch => Ok(false),
            Within::Loop => want(waits, &[Token(Class::Continue), Token(Class::Semicolon)]),
        },
        _ => {
            if begins_action(look) {
                want(waits, &[Sub(Form::Action), Token(Class::Semicolon)])
            } else {
                Ok(false)
            }
        },
    }
}

pub fn choose_else_part(
    waits: &mut Waits,
    within: Within,
    look: Option<Class>,
) -> Result<bool, NoMemory>
    ensures { IfOk result (λ done. Unfolds (symbols_of (choose (Form.ElsePart within) look) (Form.ElsePart within)) done waits.old.stack.items waits.new.stack.items) }
{
    match look {
        Some(Class::Else) => want(waits, &[Token(Class::Else), Sub(Form::Statement(within))]),
        _ => Ok(true),
    }
}

pub fn choose_returned(waits: &mut Waits, look: Option<Class>) -> Result<bool, NoMemory>
    ensures { IfOk result (λ done. Unfolds (symbols_of (choose Form.Returned look) Form.Returned) done waits.old.stack.items waits.new.stack.items) }
{
    match look {
        Some(Class::Semicolon) => Ok(true),
        _ => want(waits, &[Sub(Form::Expr)]),
    }
}

pub fn choose_for_first(waits: &mut Waits, look: Option<Class>) -> Result<bool, NoMemory>
    ensures { IfOk result (λ done. Unfolds (symbols_of (choose Form.ForFirst look) Form.ForFirst) done waits.old.stack.items waits.new.stack.items) }
{
    match look {
        Some(Class::Semicolon) => want(waits, &[Token(Class::Semicolon)]),
        _ => {
            if begins_declaration(look) {
                want(waits, &[Sub(Form::Declaration)])
            } else if begins_action(look) {
                want(waits, &[Sub(Form::Action), Token(Class::Semicolon)])
            } else {
                Ok(false)
            }
        },
    }
}

pub fn choose_tested(waits: &mut Waits, look: Option<Class>) -> Result<bool, NoMemory>
    ensures { IfOk result (λ done. Unfolds (symbols_of (choose Form.Tested look) Form.Tested) done waits.old.stack.items waits.new.stack.items) }
{
    match look {
        Some(Class::Semicolon) => Ok(true),
        _ => want(waits, &[Sub(Form::Expr)]),
    }
}

pub fn choose_stepped(waits: &mut Waits, look: Option<Class>) -> Result<bool, NoMemory>
    ensures { IfOk result (λ done. Unfolds (symbols_of (choose Form.Stepped look) Form.Stepped) done waits.old.stack.items waits.new.stack.items) }
{
    match look {
        Some(Class::Close) => Ok(true),
        _ => want(waits, &[Sub(Form::Action)]),
    }
}

pub fn choose_groups(
    waits: &mut Waits,
    within: Within,
    ended: bool,
    look: Option<Class>,
) -> Result<bool, NoMemory>
    ensures { IfOk result (λ done. Unfolds (symbols_of (choose (Form.Groups within ended) look) (Form.Groups within ended)) done waits.old.stack.items waits.new.stack.items) }
{
    match (ended, look) {
        (true, Some(Class::Case)) => Ok(false),
        (true, Some(Class::Default)) => Ok(false),
        _ => Ok(true),
    }
}

pub fn choose_labelled(
    waits: &mut Waits,
    within: Within,
    look: Option<Class>,
) -> Result<bool, NoMemory>
    ensures { IfOk result (λ done. Unfolds (symbols_of (choose (Form.Labelled within) look) (Form.Labelled within)) done waits.old.stack.items waits.new.stack.items) }
{
    match look {
        Some(Class::Case | Class::Default) => want(
            waits,
            &[Sub(Form::Label), Sub(Form::Labelled(within))],
        ),
        Some(Class::CloseBrace) | None => Ok(true),
        _ => want(waits, &[Sub(Form::Item(within)), Sub(Form::Items(within))]),
    }
}

pub fn choose_label(waits: &mut Waits, look: Option<Class>) -> Result<bool, NoMemory>
    ensures { IfOk result (λ done. Unfolds (symbols_of (choose Form.Label look) Form.Label) done waits.old.stack.items waits.new.stack.items) }
{
    match look {
        Some(Class::Case) => want(
            waits,
            &[Token(Class::Case), Sub(Form::Expr), Token(Class::Colon)],
        ),
        Some(Class::Default) => want(waits, &[Token(Class::Default), Token(Class::Colon)]),
        _ => Ok(false),
    }
}
