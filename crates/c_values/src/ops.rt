//! Types and operators.
/// A type of one number: its width in bits, with a sign or without. `short` and `int` are both of 16 bits.
#[derive(Clone, Copy, PartialEq, Eq, Debug)]
pub enum Ty {
    I8,
    U8,
    I16,
    U16,
}

/// An operator of one operand (C11 6.5.3.3): `+`, `-`, `~` and `!`.
#[derive(Clone, Copy, PartialEq, Eq, Debug)]
pub enum UnaryOp {
    Plus,
    Minus,
    Inv,
    Not,
}

/// An operator of two operands (C11 6.5.5 to 6.5.14).
#[derive(Clone, Copy, PartialEq, Eq, Debug)]
pub enum BinaryOp {
    Mul,
    Div,
    Rem,
    Add,
    Sub,
    Shl,
    Shr,
    Less,
    Greater,
    LessEq,
    GreaterEq,
    Equal,
    NotEqual,
    BitAnd,
    BitXor,
    BitOr,
    And,
    Or,
}
