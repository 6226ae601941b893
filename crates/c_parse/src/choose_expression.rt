//! Actions and expressions.
ghost use Rattle.std.specs.Prelude.{IfOk};
ghost use Rattle.c_parse.specs.Machine.{choose};
ghost use Rattle.c_parse.specs.Steps.{Unfolds, symbols_of};
ghost use Rattle.c_parse.specs.declared.form.Form.{Form};

use crate::begins::begins_unary;
use crate::choose::want;
use crate::class::Class;
use crate::form::{Form, Symbol};
use crate::no_memory::NoMemory;
use crate::waits::Waits;
use Symbol::{Sub, Token};

pub fn choose_action(waits: &mut Waits, look: Option<Class>) -> Result<bool, NoMemory>
    ensures { IfOk result (λ done. Unfolds (symbols_of (choose Form.Action look) Form.Action) done waits.old.stack.items waits.new.stack.items) }
{
    match look {
        Some(Class::Increment) => want(waits, &[Token(Class::Increment), Sub(Form::Target)]),
        Some(Class::Number | Class::Plus | Class::Minus | Class::Complement | Class::Open) => want(
            waits,
            &[Sub(Form::Expr)],
        ),
        _ => Ok(false),
    }
}

pub fn choose_assign(waits: &mut Waits, look: Option<Class>) -> Result<bool, NoMemory>
    ensures { IfOk result (λ done. Unfolds (symbols_of (choose Form.Assign look) Form.Assign) done waits.old.stack.items waits.new.stack.items) }
{
    match look {
        Some(Class::Equals) => want(waits, &[Token(Class::Equals)]),
        Some(Class::Compound) => want(waits, &[Token(Class::Compound)]),
        _ => Ok(false),
    }
}

pub fn choose_subscript(waits: &mut Waits, look: Option<Class>) -> Result<bool, NoMemory>
    ensures { IfOk result (λ done. Unfolds (symbols_of (choose Form.Subscript look) Form.Subscript) done waits.old.stack.items waits.new.stack.items) }
{
    match look {
        Some(Class::OpenIndex) => want(waits, &[Token(Class::OpenIndex), Sub(Form::Subscripted)]),
        _ => Ok(true),
    }
}

pub fn choose_expr(waits: &mut Waits, look: Option<Class>) -> Result<bool, NoMemory>
    ensures { IfOk result (λ done. Unfolds (symbols_of (choose Form.Expr look) Form.Expr) done waits.old.stack.items waits.new.stack.items) }
{
    if begins_unary(look) {
        want(waits, &[Sub(Form::Binary), Sub(Form::Choice)])
    } else {
        Ok(false)
    }
}

pub fn choose_choice(waits: &mut Waits, look: Option<Class>) -> Result<bool, NoMemory>
    ensures { IfOk result (λ done. Unfolds (symbols_of (choose Form.Choice look) Form.Choice) done waits.old.stack.items waits.new.stack.items) }
{
    match look {
        Some(Class::Question) => want(waits, &[Token(Class::Question), Sub(Form::Chosen)]),
        _ => Ok(true),
    }
}

pub fn choose_operations(waits: &mut Waits, look: Option<Class>) -> Result<bool, NoMemory>
    ensures { IfOk result (λ done. Unfolds (symbols_of (choose Form.Operations look) Form.Operations) done waits.old.stack.items waits.new.stack.items) }
{
    match look {
        Some(Class::Star) => want(
            waits,
            &[Token(Class::Star), Sub(Form::Unary), Sub(Form::Operations)],
        ),
        Some(Class::Divide) => want(
            waits,
            &[
                Token(Class::Divide),
                Sub(Form::Unary),
                Sub(Form::Operations),
            ],
        ),
        Some(Class::Plus) => want(
            waits,
            &[Token(Class::Plus), Sub(Form::Unary), Sub(Form::Operations)],
        ),
        Some(Class::Minus) => want(
            waits,
            &[Token(Class::Minus), Sub(Form::Unary), Sub(Form::Operations)],
        ),
        Some(Class::Shift) => want(
            waits,
            &[Token(Class::Shift), Sub(Form::Unary), Sub(Form::Operations)],
        ),
        Some(Class::Relation) => want(
            waits,
            &[
                Token(Class::Relation),
                Sub(Form::Unary),
                Sub(Form::Operations),
            ],
        ),
        Some(Class::Equality) => want(
            waits,
            &[
                Token(Class::Equality),
                Sub(Form::Unary),
                Sub(Form::Operations),
            ],
        ),
        Some(Class::Ampersand) => want(
            waits,
            &[
                Token(Class::Ampersand),
                Sub(Form::Unary),
                Sub(Form::Operations),
            ],
        ),
        Some(Class::Caret) => want(
            waits,
            &[Token(Class::Caret), Sub(Form::Unary), Sub(Form::Operations)],
        ),
        Some(Class::Bar) => want(
            waits,
            &[Token(Class::Bar), Sub(Form::Unary), Sub(Form::Operations)],
        ),
        Some(Class::AndAnd) => want(
            waits,
            &[
                Token(Class::AndAnd),
                Sub(Form::Unary),
                Sub(Form::Operations),
            ],
        ),
        Some(Class::BarBar) => want(
            waits,
            &[
                Token(Class::BarBar),
                Sub(Form::Unary),
                Sub(Form::Operations),
            ],
        ),
        _ => Ok(true),
    }
}

pub fn choose_unary(waits: &mut Waits, look: Option<Class>) -> Result<bool, NoMemory>
    ensures { IfOk result (λ done. Unfolds (symbols_of (choose Form.Unary look) Form.Unary) done waits.old.stack.items waits.new.stack.items) }
{
    match look {
        Some(Class::Plus) => want(waits, &[Token(Class::Plus), Sub(Form::Operand)]),
        Some(Class::Minus) => want(waits, &[Token(Class::Minus), Sub(Form::Operand)]),
        Some(Class::Complement) => want(waits, &[Token(Class::Complement), Sub(Form::Operand)]),
        Some(Class::Name | Class::Number) => want(waits, &[Sub(Form::Primary)]),
        _ => Ok(false),
    }
}

pub fn choose_operand(waits: &mut Waits, look: Option<Class>) -> Result<bool, NoMemory>
    ensures { IfOk result (λ done. Unfolds (symbols_of (choose Form.Operand look) Form.Operand) done waits.old.stack.items waits.new.stack.items) }
{
    if begins_unary(look) {
        want(waits, &[Sub(Form::Unary)])
    } else {
        Ok(false)
    }
}

pub fn choose_primary(waits: &mut Waits, look: Option<Class>) -> Result<bool, NoMemory>
    ensures { IfOk result (λ done. Unfolds (symbols_of (choose Form.Primary look) Form.Primary) done waits.old.stack.items waits.new.stack.items) }
{
    match look {
        Some(Class::Number) => want(waits, &[Token(Class::Number)]),
        Some(Class::Open) => want(waits, &[Token(Class::Open), Sub(Form::Grouped)]),
        _ => Ok(false),
    }
}

pub fn choose_arguments(waits: &mut Waits, look: Option<Class>) -> Result<bool, NoMemory>
    ensures { IfOk result (λ done. Unfolds (symbols_of (choose Form.Arguments look) Form.Arguments) done waits.old.stack.items waits.new.stack.items) }
{
    match look {
        Some(Class::Close) => Ok(true),
        _ => want(waits, &[Sub(Form::Expr), Sub(Form::MoreArguments)]),
    }
}

pub fn choose_more_arguments(waits: &mut Waits, look: Option<Class>) -> Result<bool, NoMemory>
    ensures { IfOk result (λ done. Unfolds (symbols_of (choose Form.MoreArguments look) Form.MoreArguments) done waits.old.stack.items waits.new.stack.items) }
{
    match look {
        Some(Class::Comma) => want(
            waits,
            &[
                Token(Class::Comma),
                Sub(Form::Expr),
                Sub(Form::MoreArguments),
            ],
        ),
        _ => Ok(true),
    }
}
