use base_io::Place;

/// Why a text is no program: the names of `LexFault`, `ParseFault`, `TypeFault` and `LowerFault` without their places.
#[derive(Clone, Copy, Debug, PartialEq, Eq)]
pub enum ProgramRefusal {
    BadByte,
    BadLiteral,
    TooBig,
    OpenComment,
    HashLine,
    Unexpected,
    NotInProfile,
    TooDeep,
    Unknown,
    Redeclared,
    WrongArgs,
    NotConst,
    BadArray,
    BadAssign,
    NoMain,
    Recursion,
    TooMany,
    TooManyOps,
}

/// Why a text gave no program.
#[derive(Clone, Copy, Debug, PartialEq, Eq)]
pub enum ProgramFault {
    /// The first fault of the text, and its place.
    Refused { fault: ProgramRefusal, place: Place },
    /// There was no memory.
    Memory,
}
