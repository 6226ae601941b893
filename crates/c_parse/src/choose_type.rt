ghost use Rattle.std.specs.Prelude.{◌≡◌, IfOk, reverse};
ghost use Rattle.c_parse.specs.Machine.{choose};
ghost use Rattle.c_parse.specs.Steps.{Unfolds, symbols_of};
ghost use Rattle.c_parse.specs.declared.form.Form.{Form};

use crate::choose::want;
use crate::class::Class;
use crate::form::{Form, Symbol};
use crate::no_memory::NoMemory;
use crate::waits::Waits;
use Symbol::{Sub, Token};

pub fn choose_type_name(waits: &mut Waits, look: Option<Class>) -> Result<bool, NoMemory>
    ensures { IfOk result (λ done. Unfolds (symbols_of (choose Form.TypeName look) Form.TypeName) done waits.old.stack.items waits.new.stack.items) }
{
    match look {
        Some(Class::Fixed) => want(waits, &[Token(Class::Fixed)]),
        Some(Class::Char) => want(waits, &[Token(Class::Char), Sub(Form::AfterChar)]),
        Some(Class::Sign) => want(waits, &[Token(Class::Sign), Sub(Form::AfterSign)]),
        Some(Class::Short) => want(waits, &[Token(Class::Short), Sub(Form::AfterShort)]),
        Some(Class::Int) => want(waits, &[Token(Class::Int), Sub(Form::AfterInt)]),
        _ => Ok(false),
    }
}

pub fn choose_after_char(waits: &mut Waits, look: Option<Class>) -> Result<bool, NoMemory>
    ensures { IfOk result (λ done. Unfolds (symbols_of (choose Form.AfterChar look) Form.AfterChar) done waits.old.stack.items waits.new.stack.items) }
{
    match look {
        Some(Class::Sign) => want(waits, &[Token(Class::Sign)]),
        _ => Ok(true),
    }
}

pub fn choose_after_sign(waits: &mut Waits, look: Option<Class>) -> Result<bool, NoMemory>
    ensures { IfOk result (λ done. Unfolds (symbols_of (choose Form.AfterSign look) Form.AfterSign) done waits.old.stack.items waits.new.stack.items) }
{
    match look {
        Some(Class::Char) => want(waits, &[Token(Class::Char)]),
        Some(Class::Short) => want(waits, &[Token(Class::Short), Sub(Form::AfterSignShort)]),
        Some(Class::Int) => want(waits, &[Token(Class::Int), Sub(Form::AfterSignInt)]),
        _ => Ok(true),
    }
}

pub fn choose_after_short(waits: &mut Waits, look: Option<Class>) -> Result<bool, NoMemory>
    ensures { IfOk result (λ done. Unfolds (symbols_of (choose Form.AfterShort look) Form.AfterShort) done waits.old.stack.items waits.new.stack.items) }
{
    match look {
        Some(Class::Sign) => want(waits, &[Token(Class::Sign), Sub(Form::AfterSignShort)]),
        Some(Class::Int) => want(waits, &[Token(Class::Int), Sub(Form::AfterShortInt)]),
        _ => Ok(true),
    }
}

pub fn choose_after_int(waits: &mut Waits, look: Option<Class>) -> Result<bool, NoMemory>
    ensures { IfOk result (λ done. Unfolds (symbols_of (choose Form.AfterInt look) Form.AfterInt) done waits.old.stack.items waits.new.stack.items) }
{
    match look {
        Some(Class::Sign) => want(waits, &[Token(Class::Sign), Sub(Form::AfterSignInt)]),
        Some(Class::Short) => want(waits, &[Token(Class::Short), Sub(Form::AfterShortInt)]),
        _ => Ok(true),
    }
}

pub fn choose_after_sign_short(waits: &mut Waits, look: Option<Class>) -> Result<bool, NoMemory>
    ensures { IfOk result (λ done. Unfolds (symbols_of (choose Form.AfterSignShort look) Form.AfterSignShort) done waits.old.stack.items waits.new.stack.items) }
{
    match look {
        Some(Class::Int) => want(waits, &[Token(Class::Int)]),
        _ => Ok(true),
    }
}

pub fn choose_after_sign_int(waits: &mut Waits, look: Option<Class>) -> Result<bool, NoMemory>
    ensures { IfOk result (λ done. Unfolds (symbols_of (choose Form.AfterSignInt look) Form.AfterSignInt) done waits.old.stack.items waits.new.stack.items) }
{
    match look {
        Some(Class::Short) => want(waits, &[Token(Class::Short)]),
        _ => Ok(true),
    }
}

pub fn choose_after_short_int(waits: &mut Waits, look: Option<Class>) -> Result<bool, NoMemory>
    ensures { IfOk result (λ done. Unfolds (symbols_of (choose Form.AfterShortInt look) Form.AfterShortInt) done waits.old.stack.items waits.new.stack.items) }
{
    match look {
        Some(Class::Sign) => want(waits, &[Token(Class::Sign)]),
        _ => Ok(true),
    }
}
