use base_io::Place;
use thiserror::Error;

/// What a token is (C11 6.4.1, 6.4.2, 6.4.4 and 6.4.6).
#[derive(Clone, Copy, Debug, PartialEq, Eq)]
pub enum TokenKind {
    Name,
    /// The value of an integer or character literal, and whether its type is unsigned.
    Number(u16, bool),
    Sign,
    Keyword,
}

/// A token: the range of its bytes in the text, and the place of the first.
#[derive(Clone, Copy, Debug, PartialEq, Eq)]
pub struct Token {
    pub kind: TokenKind,
    pub start: usize,
    pub end: usize,
    pub place: Place,
}

/// Why a text has no tokens. Each but `Memory` has the place of the first byte of what is at fault.
#[derive(Clone, Copy, Debug, PartialEq, Eq, Error)]
pub enum LexFault {
    /// No token and no comment begins here, or a name of more than 63 bytes does.
    #[error("BadByte at {}:{}", .at.line, .at.column)]
    BadByte { at: Place },
    /// A number has a digit or a letter that its form doesn't allow, or a character literal isn't
    /// closed or has an unknown escape.
    #[error("BadLiteral at {}:{}", .at.line, .at.column)]
    BadLiteral { at: Place },
    /// A decimal literal without suffix is above 32,767, or a literal is above 65,535.
    #[error("TooBig at {}:{}", .at.line, .at.column)]
    TooBig { at: Place },
    /// A comment isn't closed.
    #[error("OpenComment at {}:{}", .at.line, .at.column)]
    OpenComment { at: Place },
    /// A line that begins with `#` isn't an `#include <stdint.h>` before the first token.
    #[error("HashLine at {}:{}", .at.line, .at.column)]
    HashLine { at: Place },
    /// There was no memory.
    #[error("Memory")]
    Memory,
}
