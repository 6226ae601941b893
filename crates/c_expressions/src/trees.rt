//! What is read off a tree itself.
ghost use Rattle.std.specs.Prelude.{◌≡◌, ◌∷◌, [], map, IfSome};
ghost use Rattle.c_typing.specs.Judged.{no_place, spells, is_token};
ghost use Rattle.c_typing.specs.Texts.{has, type_of_words};
ghost use Rattle.c_typing.specs.Programs.{judged, texts};
ghost use Rattle.c_typing.specs.Sizes.{size, total};
ghost use Rattle.c_expressions.specs.Fronts.{items_of, weight};

use crate::operators::is;
use base_io::Place;
use c_lex::TokenKind;
use c_parse::{Raw, RawRule};
use c_typing::last_and_others;
use c_values::Ty;

/// The place of what stands nowhere.
pub const NO_PLACE: Place = Place { line: 0, column: 0 };

/// The trees in front of a list, and those behind them.
#[derive(Clone, Copy)]
pub enum Fronted<'a> {
    Empty,
    One(&'a Raw),
    More(&'a Raw, &'a Raw, &'a [Raw]),
}

/// The trees in front of a list.
pub fn front(parts: &[Raw]) -> Fronted<'_>
    ensures items { parts.now ≡ items_of result }
    ensures total { total parts.now ≡ weight result }
{
    match parts.split_first() {
        None => Fronted::Empty,
        Some((first, rest)) => match rest.split_first() {
            None => Fronted::One(first),
            Some((second, rest)) => Fronted::More(first, second, rest),
        },
    }
}

/// An operator between two operands.
#[derive(Clone, Copy)]
pub struct Operation<'a> {
    pub left: &'a Raw,
    pub operator: &'a Raw,
    pub right: &'a Raw,
}

/// The operator between two operands that a tree is, if it is one. No clause needs a `None` to be right: it is a matter of the stack alone.
pub fn operation_of(raw: &Raw) -> Option<Operation<'_>>
    ensures { IfSome result (λ o. raw.now ≡ Raw.Node RawRule.Binary (o.left.now ∷ o.operator.now ∷ o.right.now ∷ [])) }
{
    match raw {
        Raw::Leaf { .. } => None,
        Raw::Node { rule, parts } => match *rule {
            RawRule::Binary => joined(parts.as_slice()),
            _ => None,
        },
    }
}

/// The operator between two operands that these parts are.
fn joined(parts: &[Raw]) -> Option<Operation<'_>>
    ensures { IfSome result (λ o. parts.now ≡ o.left.now ∷ o.operator.now ∷ o.right.now ∷ []) }
{
    match front(parts) {
        Fronted::More(left, operator, rest) => match front(rest) {
            Fronted::One(right) => Some(Operation {
                left,
                operator,
                right,
            }),
            _ => None,
        },
        _ => None,
    }
}

/// The rule of a node, and none of a token.
pub fn rule(raw: &Raw) -> Option<RawRule>
    ensures { result ≡ (judged raw.now).rule }
{
    match raw {
        Raw::Leaf { .. } => None,
        Raw::Node { rule, .. } => Some(*rule),
    }
}

/// What kind of a token a tree is; nodes are as signs.
pub fn kind(raw: &Raw) -> TokenKind
    ensures { result ≡ (judged raw.now).kind }
{
    match raw {
        Raw::Leaf { kind, .. } => *kind,
        Raw::Node { .. } => TokenKind::Sign,
    }
}

/// The bytes of a token; nodes have none, but that of an assignment's sign.
#[tactic(auto, using(c_typing::proofs::Judging::judged_leaf, c_typing::proofs::Judging::judged_node))]
pub fn text(raw: &Raw) -> &[u8]
    ensures { result.now ≡ (judged raw.now).text }
{
    match raw {
        Raw::Leaf { text, .. } => text.as_slice(),
        Raw::Node { rule, parts } => match (*rule, front(parts.as_slice())) {
            (RawRule::Assign, Fronted::One(part) | Fronted::More(part, _, _)) => text(part),
            _ => &[],
        },
    }
}

/// Where the first token of a tree stands. Left operands lie within each other as long as a text wants.
#[tactic(auto, using(c_typing::proofs::Judging::judged_leaf, c_typing::proofs::Judging::judged_node, c_typing::proofs::Judging::size_node))]
pub fn place(raw: &Raw) -> Place
    ensures { result ≡ (judged raw.now).place }
{
    let mut at = raw;
    loop {
        match at {
            Raw::Leaf { place, .. } => return *place,
            Raw::Node { parts, .. } => match front(parts.as_slice()) {
                Fronted::Empty => return NO_PLACE,
                Fronted::One(part) | Fronted::More(part, _, _) => at = part,
            },
        }
    }
}

/// Where the last token of a tree stands.
#[tactic(auto, using(c_typing::proofs::Judging::judged_leaf, c_typing::proofs::Judging::judged_node, crate::proofs::Ends::last_of))]
pub fn end(raw: &Raw) -> Place
    ensures { result ≡ (judged raw.now).end }
{
    match raw {
        Raw::Leaf { place, .. } => *place,
        Raw::Node { parts, .. } => match last_and_others(parts.as_slice()) {
            None => NO_PLACE,
            Some((last, _)) => end(last),
        },
    }
}

/// A token has these bytes.
pub fn spells(word: &[u8], raw: &Raw) -> bool
    ensures { result ≡ spells word.now (judged raw.now) }
{
    is(text(raw), word)
}

/// A tree is a token.
pub fn is_token(raw: &Raw) -> bool
    ensures { result ≡ is_token (judged raw.now) }
{
    rule(raw).is_none()
}

/// The type of a type name (C11 6.7.2).
pub fn type_of(raw: &Raw) -> Ty
    ensures { result ≡ (judged raw.now).ty }
{
    match raw {
        Raw::Leaf { .. } => Ty::I16,
        Raw::Node { rule, parts } => match *rule {
            RawRule::TypeName => type_of_words(parts.as_slice()),
            _ => Ty::I16,
        },
    }
}

/// The type of these words, in any order.
fn type_of_words(words: &[Raw]) -> Ty
    ensures { result ≡ type_of_words (texts (map judged words.now)) }
{
    if has(b"uint8_t", words) {
        Ty::U8
    } else if has(b"int8_t", words) {
        Ty::I8
    } else if has(b"uint16_t", words) {
        Ty::U16
    } else if has(b"char", words) {
        if has(b"signed", words) {
            Ty::I8
        } else {
            Ty::U8
        }
    } else if has(b"unsigned", words) {
        Ty::U16
    } else {
        Ty::I16
    }
}

/// A word is among these.
fn has(word: &[u8], words: &[Raw]) -> bool
    ensures { result ≡ has word.now (texts (map judged words.now)) }
{
    let mut rest = words;
    while let Some((first, behind)) = rest.split_first() {
        if spells(word, first) {
            return true;
        }
        rest = behind;
    }
    false
}
