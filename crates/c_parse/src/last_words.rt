ghost use Rattle.std.specs.Prelude.{◌≡◌, ◌≤◌, ◌<◌, ◌+◌, ◌^◌};
ghost use Rattle.c_parse.specs.Profile.{begins, closed_behind, ends_in_parameter, ends_in_step, ends_in_switch, has_body, is_close, is_close_index, is_closing, is_in_switch, is_increment, is_open_brace, is_opening, is_parameter, is_stepped, is_switch, is_type_word, is_void, outside};

use crate::class::Class;

fn is_type_word(class: Class) -> bool
    ensures { result ≡ is_type_word class }
{
    matches!(
        class,
        Class::Char | Class::Sign | Class::Short | Class::Int | Class::Fixed
    )
}

pub fn begins_type_word(classes: &[Class]) -> bool
    ensures { result ≡ begins is_type_word classes.now }
{
    match classes {
        [first, ..] => is_type_word(*first),
        [] => false,
    }
}

pub fn begins_void(classes: &[Class]) -> bool
    ensures { result ≡ begins is_void classes.now }
{
    match classes {
        [first, ..] => matches!(*first, Class::Void),
        [] => false,
    }
}

pub fn begins_increment(classes: &[Class]) -> bool
    ensures { result ≡ begins is_increment classes.now }
{
    match classes {
        [first, ..] => matches!(*first, Class::Increment),
        [] => false,
    }
}

fn begins_switch(classes: &[Class]) -> bool
    ensures { result ≡ begins is_switch classes.now }
{
    match classes {
        [first, ..] => matches!(*first, Class::Switch),
        [] => false,
    }
}

fn begins_close(classes: &[Class]) -> bool
    ensures { result ≡ begins is_close classes.now }
{
    match classes {
        [first, ..] => matches!(*first, Class::Close),
        [] => false,
    }
}

pub fn begins_close_index(classes: &[Class]) -> bool
    ensures { result ≡ begins is_close_index classes.now }
{
    match classes {
        [first, ..] => matches!(*first, Class::CloseIndex),
        [] => false,
    }
}

fn is_stepped(last: Class, other: Class) -> bool
    ensures { result ≡ is_stepped last other }
{
    match (last, other) {
        (Class::Increment, Class::Name | Class::CloseIndex) => true,
        (Class::Name, Class::Increment) => true,
        (Class::CloseIndex, _) => true,
        _ => false,
    }
}

pub fn ends_in_step(classes: &[Class]) -> bool
    ensures { result ≡ ends_in_step classes.now }
{
    match classes {
        [last, other, ..] => is_stepped(*last, *other),
        _ => false,
    }
}

fn is_parameter(last: Class, other: Class) -> bool
    ensures { result ≡ is_parameter last other }
{
    match last {
        Class::Name => is_type_word(other),
        _ => false,
    }
}

pub fn ends_in_parameter(classes: &[Class]) -> bool
    ensures { result ≡ ends_in_parameter classes.now }
{
    match classes {
        [last, other, ..] => is_parameter(*last, *other),
        _ => false,
    }
}

fn is_opening(class: Class) -> bool
    ensures { result ≡ is_opening class }
{
    matches!(class, Class::Open | Class::OpenIndex | Class::OpenBrace)
}

fn is_closing(class: Class) -> bool
    ensures { result ≡ is_closing class }
{
    matches!(class, Class::Close | Class::CloseIndex | Class::CloseBrace)
}

fn is_open_brace(class: Class) -> bool
    ensures { result ≡ is_open_brace class }
{
    matches!(class, Class::OpenBrace)
}

fn closed_behind(closed: usize, last: Class) -> usize
    requires { closed + 1 < 2 ^ 64 }
    ensures is { result ≡ closed_behind closed last }
    ensures small { result ≤ closed + 1 }
{
    if is_closing(last) {
        closed + 1
    } else if is_opening(last) {
        closed.saturating_sub(1)
    } else {
        closed
    }
}

pub fn has_body(classes: &[Class]) -> bool
    ensures { result ≡ has_body 0 classes.now }
{
    let mut closed = 0;
    let mut rest = classes;
    while let [last, after @ ..] = rest {
        if closed == 0 && is_open_brace(*last) && begins_close(after) {
            return true;
        }
        closed = closed_behind(closed, *last);
        rest = after;
    }
    false
}

fn outside(classes: &[Class]) -> &[Class]
    ensures { result.now ≡ outside 0 classes.now }
{
    let mut closed = 0;
    let mut rest = classes;
    while let [last, after @ ..] = rest {
        if closed == 0 && is_opening(*last) {
            return after;
        }
        closed = closed_behind(closed, *last);
        rest = after;
    }
    rest
}

fn ends_in_switch(classes: &[Class]) -> bool
    ensures { result ≡ ends_in_switch classes.now }
{
    match classes {
        [last, rest @ ..] => matches!(*last, Class::Close) && begins_switch(outside(rest)),
        [] => false,
    }
}

pub fn is_in_switch(classes: &[Class]) -> bool
    ensures { result ≡ is_in_switch classes.now }
{
    ends_in_switch(outside(classes))
}
