ghost use Rattle.std.specs.Prelude.{◌≡◌};
ghost use Rattle.c_parse.specs.Machine.{begins_type, begins_declaration, begins_unary, begins_action, is_chosen, choose_statement};

use crate::class::Class;
use crate::form::Within;

pub fn begins_type(look: Option<Class>) -> bool
    ensures { result ≡ begins_type look }
{
    matches!(
        look,
        Some(Class::Char | Class::Sign | Class::Short | Class::Int | Class::Fixed)
    )
}

pub fn begins_declaration(look: Option<Class>) -> bool
    ensures { result ≡ begins_declaration look }
{
    match look {
        Some(Class::Const) => true,
        _ => begins_type(look),
    }
}

pub fn begins_unary(look: Option<Class>) -> bool
    ensures { result ≡ begins_unary look }
{
    matches!(
        look,
        Some(
            Class::Name
                | Class::Number
                | Class::Plus
                | Class::Minus
                | Class::Complement
                | Class::Open
        )
    )
}

pub fn begins_action(look: Option<Class>) -> bool
    ensures { result ≡ begins_action look }
{
    match look {
        Some(Class::Increment) => true,
        _ => begins_unary(look),
    }
}

pub fn begins_statement(within: Within, look: Option<Class>) -> bool
    ensures { result ≡ is_chosen (choose_statement within look) }
{
    match (within, look) {
        (Within::Switch | Within::Loop, Some(Class::Break)) => true,
        (Within::Loop, Some(Class::Continue)) => true,
        (
            _,
            Some(
                Class::OpenBrace
                | Class::Semicolon
                | Class::Return
                | Class::If
                | Class::While
                | Class::Do
                | Class::For
                | Class::Switch,
            ),
        ) => true,
        _ => begins_action(look),
    }
}
