//! Declarations and their initialisers.
ghost use Rattle.std.specs.Prelude.{IfOk};
ghost use Rattle.c_parse.specs.Machine.{choose};
ghost use Rattle.c_parse.specs.Steps.{Unfolds, symbols_of};
ghost use Rattle.c_parse.specs.declared.form.Form.{Form};

use crate::begins::begins_type;
use crate::choose::want;
use crate::class::Class;
use crate::form::{Form, Symbol};
use crate::no_memory::NoMemory;
use crate::waits::Waits;
use Symbol::{Sub, Token};

pub fn choose_declaration(waits: &mut Waits, look: Option<Class>) -> Result<bool, NoMemory>
    ensures { IfOk result (λ done. Unfolds (symbols_of (choose Form.Declaration look) Form.Declaration) done waits.old.stack.items waits.new.stack.items) }
{
    match look {
        Some(Class::Const) => want(
            waits,
            &[
                Token(Class::Const),
                Sub(Form::TypeName),
                Sub(Form::Declarators),
                Token(Class::Semicolon),
            ],
        ),
        _ => {
            if begins_type(look) {
                want(
                    waits,
                    &[
                        Sub(Form::TypeName),
                        Sub(Form::Declarators),
                        Token(Class::Semicolon),
                    ],
                )
            } else {
                Ok(false)
            }
        },
    }
}

pub fn choose_more_declarators(waits: &mut Waits, look: Option<Class>) -> Result<bool, NoMemory>
    ensures { IfOk result (λ done. Unfolds (symbols_of (choose Form.MoreDeclarators look) Form.MoreDeclarators) done waits.old.stack.items waits.new.stack.items) }
{
    match look {
        Some(Class::Comma) => want(
            waits,
            &[
                Token(Class::Comma),
                Sub(Form::Declarator),
                Sub(Form::MoreDeclarators),
            ],
        ),
        _ => Ok(true),
    }
}

pub fn choose_initial(waits: &mut Waits, look: Option<Class>) -> Result<bool, NoMemory>
    ensures { IfOk result (λ done. Unfolds (symbols_of (choose Form.Initial look) Form.Initial) done waits.old.stack.items waits.new.stack.items) }
{
    match look {
        Some(Class::Equals) => want(waits, &[Token(Class::Equals), Sub(Form::Expr)]),
        Some(Class::OpenIndex) => want(
            waits,
            &[
                Token(Class::OpenIndex),
                Sub(Form::Expr),
                Token(Class::CloseIndex),
                Sub(Form::ListInitial),
            ],
        ),
        _ => Ok(true),
    }
}

pub fn choose_list_initial(waits: &mut Waits, look: Option<Class>) -> Result<bool, NoMemory>
    ensures { IfOk result (λ done. Unfolds (symbols_of (choose Form.ListInitial look) Form.ListInitial) done waits.old.stack.items waits.new.stack.items) }
{
    match look {
        Some(Class::Equals) => want(
            waits,
            &[
                Token(Class::Equals),
                Token(Class::OpenBrace),
                Sub(Form::Expr),
                Sub(Form::MoreValues),
                Token(Class::CloseBrace),
            ],
        ),
        _ => Ok(true),
    }
}

pub fn choose_more_values(waits: &mut Waits, look: Option<Class>) -> Result<bool, NoMemory>
    ensures { IfOk result (λ done. Unfolds (symbols_of (choose Form.MoreValues look) Form.MoreValues) done waits.old.stack.items waits.new.stack.items) }
{
    match look {
        Some(Class::Comma) => want(waits, &[Token(Class::Comma), Sub(Form::NextValue)]),
        _ => Ok(true),
    }
}

pub fn choose_next_value(waits: &mut Waits, look: Option<Class>) -> Result<bool, NoMemory>
    ensures { IfOk result (λ done. Unfolds (symbols_of (choose Form.NextValue look) Form.NextValue) done waits.old.stack.items waits.new.stack.items) }
{
    match look {
        Some(Class::CloseBrace) => Ok(true),
        _ => want(waits, &[Sub(Form::Expr), Sub(Form::MoreValues)]),
    }
}
