use base_io::Place;
use thiserror::Error;

/// Why a program's tokens have no tree, with the place where the first text that has one parts from them.
#[derive(Clone, Copy, Debug, PartialEq, Eq, Error)]
pub enum ParseFault {
    /// No text of the profile goes on with this token, which begins nothing that the profile leaves out; or
    /// the text ends before a declaration, definition or statement does: then the place is one byte past its end.
    #[error("Unexpected at {}:{}", .at.line, .at.column)]
    Unexpected { at: Place },
    /// No text of the profile goes on with this token, and it begins what the profile leaves out of C.
    #[error("NotInProfile at {}:{}", .at.line, .at.column)]
    NotInProfile { at: Place },
    /// Statements or expressions nest more than 64 deep, or it is the 1,001st binary operator of an expression
    /// that is part of no other.
    #[error("TooDeep at {}:{}", .at.line, .at.column)]
    TooDeep { at: Place },
    /// There was no memory.
    #[error("Memory")]
    Memory,
}
