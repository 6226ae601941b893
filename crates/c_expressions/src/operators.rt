//! Which operators tokens spell.
ghost use Rattle.std.specs.Prelude.{◌≡◌};
ghost use Rattle.std.specs.Str.{bytes_eq};
ghost use Rattle.c_typing.specs.Texts as spec;

use c_values::{BinaryOp, UnaryOp};

/// A text has these bytes.
pub fn is(text: &[u8], word: &[u8]) -> bool
    ensures { result ≡ bytes_eq text.now word.now }
{
    text == word
}

/// The operator of one operand that a token spells.
pub fn unary_op(text: &[u8]) -> UnaryOp
    ensures { result ≡ spec.unary_op text.now }
{
    if is(text, b"+") {
        UnaryOp::Plus
    } else if is(text, b"-") {
        UnaryOp::Minus
    } else if is(text, b"~") {
        UnaryOp::Inv
    } else {
        UnaryOp::Not
    }
}

/// The comparison, `&&` or `||` that a token spells.
fn relation_op(text: &[u8]) -> BinaryOp
    ensures { result ≡ spec.relation_op text.now }
{
    if is(text, b"<") {
        BinaryOp::Less
    } else if is(text, b">") {
        BinaryOp::Greater
    } else if is(text, b"<=") {
        BinaryOp::LessEq
    } else if is(text, b">=") {
        BinaryOp::GreaterEq
    } else if is(text, b"==") {
        BinaryOp::Equal
    } else if is(text, b"!=") {
        BinaryOp::NotEqual
    } else if is(text, b"&&") {
        BinaryOp::And
    } else {
        BinaryOp::Or
    }
}

/// The operator of two operands that a token spells.
pub fn binary_op(text: &[u8]) -> BinaryOp
    ensures { result ≡ spec.binary_op text.now }
{
    if is(text, b"*") {
        BinaryOp::Mul
    } else if is(text, b"/") {
        BinaryOp::Div
    } else if is(text, b"%") {
        BinaryOp::Rem
    } else if is(text, b"+") {
        BinaryOp::Add
    } else if is(text, b"-") {
        BinaryOp::Sub
    } else if is(text, b"<<") {
        BinaryOp::Shl
    } else if is(text, b">>") {
        BinaryOp::Shr
    } else if is(text, b"&") {
        BinaryOp::BitAnd
    } else if is(text, b"^") {
        BinaryOp::BitXor
    } else if is(text, b"|") {
        BinaryOp::BitOr
    } else {
        relation_op(text)
    }
}

/// The operator of an assignment with an operator.
pub fn compound_op(text: &[u8]) -> BinaryOp
    ensures { result ≡ spec.compound_op text.now }
{
    if is(text, b"*=") {
        BinaryOp::Mul
    } else if is(text, b"/=") {
        BinaryOp::Div
    } else if is(text, b"%=") {
        BinaryOp::Rem
    } else if is(text, b"+=") {
        BinaryOp::Add
    } else if is(text, b"-=") {
        BinaryOp::Sub
    } else if is(text, b"<<=") {
        BinaryOp::Shl
    } else if is(text, b">>=") {
        BinaryOp::Shr
    } else if is(text, b"&=") {
        BinaryOp::BitAnd
    } else if is(text, b"^=") {
        BinaryOp::BitXor
    } else {
        BinaryOp::BitOr
    }
}

/// The operator of `++` and `--`.
pub fn increment_op(text: &[u8]) -> BinaryOp
    ensures { result ≡ spec.increment_op text.now }
{
    if is(text, b"++") {
        BinaryOp::Add
    } else {
        BinaryOp::Sub
    }
}
