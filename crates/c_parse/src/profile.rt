ghost use Rattle.std.specs.Prelude.{◌≡◌, List, All, IfOk};
ghost use Rattle.c_lex.specs.Cut.{IsIn};
ghost use Rattle.c_parse.specs.Profile.{IsLeftOut, IsRoomy, Tells, left_out, nearest};
ghost use Rattle.c_parse.specs.Words.{Word, words_of};
ghost use Rattle.c_parse.specs.declared.left_out.LeftOut.{LeftOut};

use crate::class::Class;
use crate::fitting::{Sample, fits, may_stand};
use crate::last_words::{
    begins_close_index, begins_increment, begins_type_word, begins_void, ends_in_parameter,
    ends_in_step, has_body, is_in_switch,
};
use crate::left_out::LeftOut;
use crate::no_memory::NoMemory;
use crate::words::word_class;
use c_lex::{Token, TokenKind};
use std::alloc::Global;

const END_OF_CAST: [Sample; 2] = [(TokenKind::Sign, b")"), (TokenKind::Number(0, false), b"0")];

const REST_OF_CAST: [Sample; 3] = [
    (TokenKind::Keyword, b"int"),
    (TokenKind::Sign, b")"),
    (TokenKind::Number(0, false), b"0"),
];

// Where a token of the class begins what is left out.
fn left_out(class: Class) -> LeftOut
    ensures { result ≡ left_out class }
{
    match class {
        Class::Unused | Class::Member | Class::Increment | Class::Equals | Class::Compound =>
            LeftOut::Anywhere,
        Class::Static => LeftOut::InFunction,
        Class::Void => LeftOut::InCast,
        Class::Star | Class::Ampersand => LeftOut::AsPointer,
        Class::Open => LeftOut::AsDeclarator,
        Class::OpenIndex => LeftOut::AsIndex,
        Class::Comma => LeftOut::AsComma,
        Class::Case | Class::Default => LeftOut::AsLabel,
        _ => LeftOut::Nowhere,
    }
}

// The classes of the tokens, the last first.
fn classes_before(alloc: Global, text: &[u8], before: &[Token]) -> Result<Vec<Class>, NoMemory>
    requires cut { All (λ token. IsIn text.now token) before.now }
    ensures { IfOk result (λ classes. classes.items ≡ nearest (words_of text.now before.now)) }
{
    let mut classes = Vec::new(alloc);
    let mut left = before.len();
    while left > 0 {
        left -= 1;
        let class = word_class(text, &before[left]);
        match classes.push(class) {
            Ok(()) => {},
            Err(_) => return Err(NoMemory),
        }
    }
    Ok(classes)
}

// In a cast: behind its ( or words of its type.
fn is_in_cast(
    alloc: Global,
    text: &[u8],
    before: &[Token],
    classes: &[Class],
) -> Result<bool, NoMemory>
    requires cut { All (λ token. IsIn text.now token) before.now }
    requires roomy { IsRoomy (words_of text.now before.now) }
    requires near { classes.now ≡ nearest (words_of text.now before.now) }
    ensures { IfOk result (λ yes. Tells yes (IsLeftOut LeftOut.InCast (words_of text.now before.now))) }
{
    let begun = fits(alloc, text, before, &REST_OF_CAST)?;
    if begun {
        return Ok(true);
    }
    let typed = begins_type_word(classes);
    if typed {
        let ended = fits(alloc, text, before, &END_OF_CAST)?;
        Ok(ended)
    } else {
        Ok(false)
    }
}

// Where an operand, a target or a declarator may begin.
fn is_pointer(
    alloc: Global,
    text: &[u8],
    before: &[Token],
    classes: &[Class],
) -> Result<bool, NoMemory>
    requires cut { All (λ token. IsIn text.now token) before.now }
    requires roomy { IsRoomy (words_of text.now before.now) }
    requires near { classes.now ≡ nearest (words_of text.now before.now) }
    ensures { IfOk result (λ yes. Tells yes (IsLeftOut LeftOut.AsPointer (words_of text.now before.now))) }
{
    let void = begins_void(classes);
    if void {
        Ok(true)
    } else {
        let named = may_stand(alloc, text, before, TokenKind::Name, b"a")?;
        Ok(named)
    }
}

// Where a declarator may begin.
fn is_declarator(
    alloc: Global,
    text: &[u8],
    before: &[Token],
    classes: &[Class],
) -> Result<bool, NoMemory>
    requires cut { All (λ token. IsIn text.now token) before.now }
    requires roomy { IsRoomy (words_of text.now before.now) }
    requires near { classes.now ≡ nearest (words_of text.now before.now) }
    ensures { IfOk result (λ yes. Tells yes (IsLeftOut LeftOut.AsDeclarator (words_of text.now before.now))) }
{
    let void = begins_void(classes);
    if void {
        return Ok(true);
    }
    let stepped = begins_increment(classes);
    if stepped {
        return Ok(false);
    }
    let named = may_stand(alloc, text, before, TokenKind::Name, b"a")?;
    if named {
        let operand = may_stand(alloc, text, before, TokenKind::Number(0, false), b"0")?;
        Ok(!operand)
    } else {
        Ok(false)
    }
}

// Behind an expression.
fn is_comma(
    alloc: Global,
    text: &[u8],
    before: &[Token],
    classes: &[Class],
) -> Result<bool, NoMemory>
    requires cut { All (λ token. IsIn text.now token) before.now }
    requires roomy { IsRoomy (words_of text.now before.now) }
    requires near { classes.now ≡ nearest (words_of text.now before.now) }
    ensures { IfOk result (λ yes. Tells yes (IsLeftOut LeftOut.AsComma (words_of text.now before.now))) }
{
    let stepped = ends_in_step(classes);
    if stepped {
        Ok(true)
    } else {
        let operated = may_stand(alloc, text, before, TokenKind::Sign, b"?")?;
        Ok(operated)
    }
}

// Behind a group that doesn't end in a jump.
fn is_label(
    alloc: Global,
    text: &[u8],
    before: &[Token],
    classes: &[Class],
) -> Result<bool, NoMemory>
    requires cut { All (λ token. IsIn text.now token) before.now }
    requires roomy { IsRoomy (words_of text.now before.now) }
    requires near { classes.now ≡ nearest (words_of text.now before.now) }
    ensures { IfOk result (λ yes. Tells yes (IsLeftOut LeftOut.AsLabel (words_of text.now before.now))) }
{
    let inside = is_in_switch(classes);
    if inside {
        let ended = may_stand(alloc, text, before, TokenKind::Sign, b"}")?;
        Ok(ended)
    } else {
        Ok(false)
    }
}

// Behind a ] or a parameter's name.
fn is_index(classes: &[Class]) -> bool
    ensures { (before : List Word) → classes.now ≡ nearest before → Tells result (IsLeftOut LeftOut.AsIndex before) }
{
    let indexed = begins_close_index(classes);
    if indexed {
        true
    } else {
        ends_in_parameter(classes)
    }
}

/// Behind these tokens a token of the class begins what the profile leaves out.
pub fn is_left_out(
    alloc: Global,
    text: &[u8],
    before: &[Token],
    class: Class,
) -> Result<bool, NoMemory>
    requires cut { All (λ token. IsIn text.now token) before.now }
    requires roomy { IsRoomy (words_of text.now before.now) }
    ensures { IfOk result (λ yes. Tells yes (IsLeftOut (left_out class) (words_of text.now before.now))) }
{
    let classes = classes_before(alloc, text, before)?;
    let classes = classes.as_slice();
    match left_out(class) {
        LeftOut::Nowhere => Ok(false),
        LeftOut::Anywhere => Ok(true),
        LeftOut::InFunction => Ok(has_body(classes)),
        LeftOut::InCast => is_in_cast(alloc, text, before, classes),
        LeftOut::AsPointer => is_pointer(alloc, text, before, classes),
        LeftOut::AsDeclarator => is_declarator(alloc, text, before, classes),
        LeftOut::AsIndex => Ok(is_index(classes)),
        LeftOut::AsComma => is_comma(alloc, text, before, classes),
        LeftOut::AsLabel => is_label(alloc, text, before, classes),
    }
}
