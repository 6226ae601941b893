use crate::token::TokenKind;

/// Why a text can't be cut further: the faults of `LexFault` without their place.
#[derive(Clone, Copy, Debug, PartialEq, Eq)]
pub enum Cause {
    BadByte,
    BadLiteral,
    TooBig,
    OpenComment,
    HashLine,
}

/// What stands at the front of a text: so many bytes between tokens, a token of so many bytes, or a fault.
#[derive(Clone, Copy, Debug, PartialEq, Eq)]
pub enum Piece {
    Skip(usize),
    Take(TokenKind, usize),
    Stop(Cause),
}
