ghost use Rattle.std.specs.Prelude.{◌≡◌};
ghost use Rattle.c_typing.specs.FirstFaults as spec;

use base_io::Place;
use std::error::Error;
use std::fmt;
use std::fmt::{Display, Formatter, Write};

/// Why a tree has no typed program. Each but `Memory` has the place of what is at fault.
#[derive(Clone, Copy, Debug)]
pub enum TypeFault {
    /// A name isn't declared here, or a function that is called is never defined.
    Unknown { at: Place },
    /// A name is declared a second time in one scope, a prototype disagrees, or a label comes a second time.
    Redeclared { at: Place },
    /// A call has another number of arguments or calls what is no function, or a function is used as a value.
    WrongArgs { at: Place },
    /// An array's length, a global's initialiser or a label isn't a constant expression.
    NotConst { at: Place },
    /// An array's length isn't 1 to 1,024, it has too many initialisers, it stands without an index, or what has an
    /// index is no array.
    BadArray { at: Place },
    /// What is assigned to is `const` or no object, a void value is used, or a `return` disagrees with its function.
    BadAssign { at: Place },
    /// There is no `int main(void)`.
    NoMain { at: Place },
    /// A call lies on a cycle of calls.
    Recursion { at: Place },
    /// There are more functions, objects or parameters than the limits allow.
    TooMany { at: Place },
    /// There was no memory.
    Memory,
}

impl TypeFault {
    /// Where it stands. Want of memory has no place of its own and stands before all else.
    pub fn place(&self) -> Place
        ensures { result ≡ spec.place_of self.now }
    {
        match *self {
            TypeFault::Unknown { at }
            | TypeFault::Redeclared { at }
            | TypeFault::WrongArgs { at }
            | TypeFault::NotConst { at }
            | TypeFault::BadArray { at }
            | TypeFault::BadAssign { at }
            | TypeFault::NoMain { at }
            | TypeFault::Recursion { at }
            | TypeFault::TooMany { at } => at,
            TypeFault::Memory => Place { line: 0, column: 0 },
        }
    }

    fn name(&self) -> &'static str {
        match self {
            TypeFault::Unknown { .. } => "Unknown",
            TypeFault::Redeclared { .. } => "Redeclared",
            TypeFault::WrongArgs { .. } => "WrongArgs",
            TypeFault::NotConst { .. } => "NotConst",
            TypeFault::BadArray { .. } => "BadArray",
            TypeFault::BadAssign { .. } => "BadAssign",
            TypeFault::NoMain { .. } => "NoMain",
            TypeFault::Recursion { .. } => "Recursion",
            TypeFault::TooMany { .. } => "TooMany",
            TypeFault::Memory => "Memory",
        }
    }
}

impl Display for TypeFault {
    fn fmt<W: Write>(&self, f: &mut Formatter<W>) -> Result<(), fmt::Error> {
        let place = self.place();
        match self {
            TypeFault::Memory => f.write_str(self.name()),
            _ => write!(f, "{} at {}:{}", self.name(), place.line, place.column),
        }
    }
}

impl Error for TypeFault {}
