//! What stands outside functions: declarations, functions and their parameters.
ghost use Rattle.std.specs.Prelude.{IfOk};
ghost use Rattle.c_parse.specs.Machine.{choose};
ghost use Rattle.c_parse.specs.Steps.{Unfolds, symbols_of};
ghost use Rattle.c_parse.specs.declared.form.Form.{Form};

use crate::begins::begins_type;
use crate::choose::want;
use crate::class::Class;
use crate::form::{Form, Symbol, Within};
use crate::no_memory::NoMemory;
use crate::waits::Waits;
use Symbol::{Sub, Token};

pub fn choose_externals(waits: &mut Waits, look: Option<Class>) -> Result<bool, NoMemory>
    ensures { IfOk result (λ done. Unfolds (symbols_of (choose Form.Externals look) Form.Externals) done waits.old.stack.items waits.new.stack.items) }
{
    match look {
        None => Ok(true),
        _ => want(waits, &[Sub(Form::External), Sub(Form::Externals)]),
    }
}

pub fn choose_external(waits: &mut Waits, look: Option<Class>) -> Result<bool, NoMemory>
    ensures { IfOk result (λ done. Unfolds (symbols_of (choose Form.External look) Form.External) done waits.old.stack.items waits.new.stack.items) }
{
    match look {
        Some(Class::Static) => want(waits, &[Token(Class::Static), Sub(Form::Unstatic)]),
        _ => want(waits, &[Sub(Form::Unstatic)]),
    }
}

pub fn choose_unstatic(waits: &mut Waits, look: Option<Class>) -> Result<bool, NoMemory>
    ensures { IfOk result (λ done. Unfolds (symbols_of (choose Form.Unstatic look) Form.Unstatic) done waits.old.stack.items waits.new.stack.items) }
{
    match look {
        Some(Class::Const) => want(
            waits,
            &[
                Token(Class::Const),
                Sub(Form::TypeName),
                Sub(Form::Declarators),
                Token(Class::Semicolon),
            ],
        ),
        Some(Class::Void) => want(
            waits,
            &[
                Token(Class::Void),
                Token(Class::Name),
                Token(Class::Open),
                Sub(Form::Signature),
            ],
        ),
        _ => {
            if begins_type(look) {
                want(waits, &[Sub(Form::TypeName), Sub(Form::Titled)])
            } else {
                Ok(false)
            }
        },
    }
}

pub fn choose_titled(waits: &mut Waits, look: Option<Class>) -> Result<bool, NoMemory>
    ensures { IfOk result (λ done. Unfolds (symbols_of (choose Form.Titled look) Form.Titled) done waits.old.stack.items waits.new.stack.items) }
{
    match look {
        Some(Class::Name) => Ok(false),
        _ => Ok(false),
    }
}

pub fn choose_ending(waits: &mut Waits, all: bool, look: Option<Class>) -> Result<bool, NoMemory>
    ensures { IfOk result (λ done. Unfolds (symbols_of (choose (Form.Ending all) look) (Form.Ending all)) done waits.old.stack.items waits.new.stack.items) }
{
    match look {
        Some(Class::Semicolon) => want(waits, &[Token(Class::Semicolon)]),
        Some(Class::OpenBrace) => {
            if all {
                want(waits, &[Sub(Form::Block(Within::Body))])
            } else {
                Ok(false)
            }
        },
        _ => Ok(false),
    }
}

pub fn choose_param_list(waits: &mut Waits, look: Option<Class>) -> Result<bool, NoMemory>
    ensures { IfOk result (λ done. Unfolds (symbols_of (choose Form.ParamList look) Form.ParamList) done waits.old.stack.items waits.new.stack.items) }
{
    match look {
        Some(Class::Close) => Ok(true),
        Some(Class::Void) => want(waits, &[Token(Class::Void)]),
        _ => want(waits, &[Sub(Form::Param), Sub(Form::MoreParams)]),
    }
}

pub fn choose_more_params(waits: &mut Waits, look: Option<Class>) -> Result<bool, NoMemory>
    ensures { IfOk result (λ done. Unfolds (symbols_of (choose Form.MoreParams look) Form.MoreParams) done waits.old.stack.items waits.new.stack.items) }
{
    match look {
        Some(Class::Comma) => want(
            waits,
            &[Token(Class::Comma), Sub(Form::Param), Sub(Form::MoreParams)],
        ),
        _ => Ok(true),
    }
}

pub fn choose_param(waits: &mut Waits, look: Option<Class>) -> Result<bool, NoMemory>
    ensures { IfOk result (λ done. Unfolds (symbols_of (choose Form.Param look) Form.Param) done waits.old.stack.items waits.new.stack.items) }
{
    match look {
        Some(Class::Const) => want(
            waits,
            &[
                Token(Class::Const),
                Sub(Form::TypeName),
                Sub(Form::ParamName),
            ],
        ),
        _ => {
            if begins_type(look) {
                want(waits, &[Sub(Form::TypeName), Sub(Form::ParamName)])
            } else {
                Ok(false)
            }
        },
    }
}

pub fn choose_param_name(waits: &mut Waits, look: Option<Class>) -> Result<bool, NoMemory>
    ensures { IfOk result (λ done. Unfolds (symbols_of (choose Form.ParamName look) Form.ParamName) done waits.old.stack.items waits.new.stack.items) }
{
    match look {
        Some(Class::Name) => want(waits, &[Token(Class::Name)]),
        _ => Ok(true),
    }
}
