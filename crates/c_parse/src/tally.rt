ghost use Rattle.std.specs.Prelude.{◌≡◌, ◌<◌, ◌≤◌};
ghost use Rattle.c_parse.specs.Tally.{added, behind, closed, closing, counted, deeper, opening, operated, outside, parting};

use crate::class::Class;

/// How many binary operators an expression may have that is part of no other.
pub const MOST_OPERATORS: usize = 1000;

/// What the last token tells of the next.
#[derive(Clone, Copy)]
pub enum Last {
    /// An operand ends here: a sign behind it is a binary operator.
    Operand,
    /// A word of a type: a `)` behind it ends a cast.
    TypeWord,
    /// `if`, `while`, `for` or `switch`: a `(` behind it is no part of an expression.
    Head,
    Other,
}

/// Of the expression that is being read and is part of no other: how many brackets and `?` are open
/// in it, and how many binary operators it has so far.
#[derive(Clone, Copy)]
pub struct Tally {
    pub brackets: usize,
    pub operators: usize,
    pub last: Last,
}

/// No expression has begun.
pub fn outside(last: Last) -> Tally
    ensures { result ≡ outside last }
{
    Tally {
        brackets: 0,
        operators: 0,
        last,
    }
}

fn behind(last: Last, tally: Tally) -> Tally
    ensures { result ≡ behind last tally }
{
    Tally {
        brackets: tally.brackets,
        operators: tally.operators,
        last,
    }
}

fn added(last: Last, operators: usize) -> usize
    requires { operators ≤ 1000 }
    ensures { result ≡ added last operators }
{
    match last {
        Last::Operand => operators + 1,
        _ => operators,
    }
}

fn operated(tally: Tally) -> Tally
    requires { tally.operators ≤ 1000 }
    ensures { result ≡ operated tally }
{
    Tally {
        brackets: tally.brackets,
        operators: added(tally.last, tally.operators),
        last: Last::Other,
    }
}

fn deeper(tally: Tally) -> Tally
    requires { tally.brackets < usize.MAX }
    ensures { result ≡ deeper tally }
{
    Tally {
        brackets: tally.brackets + 1,
        operators: tally.operators,
        last: Last::Other,
    }
}

fn opening(tally: Tally) -> Tally
    requires { tally.brackets < usize.MAX }
    ensures { result ≡ opening tally.last tally }
{
    match tally.last {
        Last::Head => outside(Last::Other),
        _ => deeper(tally),
    }
}

fn closed(last: Last) -> Last
    ensures { result ≡ closed last }
{
    match last {
        Last::TypeWord => Last::Other,
        _ => Last::Operand,
    }
}

#[tactic(auto, using(crate::proofs::Tallies::closing_rules))]
fn closing(tally: Tally, last: Last) -> Tally
    ensures { result ≡ closing tally.brackets last tally.operators }
{
    if tally.brackets == 0 {
        outside(Last::Other)
    } else {
        Tally {
            brackets: tally.brackets - 1,
            operators: tally.operators,
            last,
        }
    }
}

#[tactic(auto, using(crate::proofs::Tallies::closing_rules))]
fn parting(tally: Tally) -> Tally
    ensures { result ≡ parting tally.brackets tally.operators }
{
    if tally.brackets == 0 {
        outside(Last::Other)
    } else {
        behind(Last::Other, tally)
    }
}

/// A token of this class is read.
pub fn counted(tally: Tally, class: Class) -> Tally
    requires brackets { tally.brackets < usize.MAX }
    requires operators { tally.operators ≤ 1000 }
    ensures { result ≡ counted tally class }
{
    match class {
        Class::Name | Class::Number => behind(Last::Operand, tally),
        Class::Plus
        | Class::Minus
        | Class::Star
        | Class::Divide
        | Class::Shift
        | Class::Relation
        | Class::Equality
        | Class::Ampersand
        | Class::Caret
        | Class::Bar
        | Class::AndAnd
        | Class::BarBar => operated(tally),
        Class::Complement => behind(Last::Other, tally),
        Class::Question | Class::OpenIndex => deeper(tally),
        Class::Open => opening(tally),
        Class::Close => closing(tally, closed(tally.last)),
        Class::CloseIndex => closing(tally, Last::Operand),
        Class::Colon => closing(tally, Last::Other),
        Class::Comma => parting(tally),
        Class::Char | Class::Sign | Class::Short | Class::Int | Class::Fixed => {
            behind(Last::TypeWord, tally)
        },
        Class::If | Class::While | Class::For | Class::Switch => outside(Last::Head),
        _ => outside(Last::Other),
    }
}
