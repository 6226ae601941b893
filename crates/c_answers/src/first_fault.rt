//! The fault that is answered.
ghost use Rattle.std.specs.Prelude.{◌≡◌, ℕ, None, Some, List, ◌∷◌, [], ◌++◌, Option};
ghost use Rattle.c_typing.specs.FirstFaults as spec;

use base_io::Place;
use c_typing::TypeFault;
use std::marker::Model;

/// Of all faults told so far the one that stands first in the text, and of two at one place the one whose variant stands first.
#[derive(Drop)]
pub struct FirstFault {
    kept: Option<TypeFault>,
}

impl Model for FirstFault {
    ghost use Rattle.std.specs.Prelude.{Option};
    ghost use Rattle.c_typing.specs.declared.type_fault.TypeFault.{TypeFault};

    ghost Value = { Option TypeFault };

    ghost view = { λ f. f.kept };
}

impl FirstFault {
    /// No fault has been told.
    pub fn new() -> FirstFault
        ensures { result ≡ None }
    {
        FirstFault { kept: None }
    }

    /// Tells a fault.
    pub fn note(&mut self, fault: TypeFault)
        ensures { self.new ≡ spec.sooner self.old (Some fault) }
    {
        match self.kept {
            Some(kept) => {
                if !precedes(kept, fault) {
                    self.kept = Some(fault);
                }
            }
            None => self.kept = Some(fault),
        }
    }

    /// The fault that stands first, if any was told.
    pub fn get(&self) -> Option<TypeFault>
        ensures { result ≡ self.now }
    {
        self.kept
    }
}

/// Which variant a fault is, in their order.
fn rank_of(fault: TypeFault) -> u8
    ensures { result ≡ spec.rank_of fault }
{
    match fault {
        TypeFault::Memory => 0,
        TypeFault::Unknown { .. } => 1,
        TypeFault::Redeclared { .. } => 2,
        TypeFault::WrongArgs { .. } => 3,
        TypeFault::NotConst { .. } => 4,
        TypeFault::BadArray { .. } => 5,
        TypeFault::BadAssign { .. } => 6,
        TypeFault::NoMain { .. } => 7,
        TypeFault::Recursion { .. } => 8,
        TypeFault::TooMany { .. } => 9,
    }
}

/// A place and a variant come no later than others.
fn comes_first(a: Place, i: u8, b: Place, j: u8) -> bool
    ensures { result ≡ spec.comes_first a i b j }
{
    a.line < b.line
        || (a.line == b.line && (a.column < b.column || (a.column == b.column && i <= j)))
}

/// The first fault is the second, or is answered in its stead.
fn precedes(a: TypeFault, b: TypeFault) -> bool
    ensures { result ≡ spec.precedes a b }
{
    comes_first(a.place(), rank_of(a), b.place(), rank_of(b))
}

/// Of any faults one is answered, and no other; and of two lists of faults it is the one that stands first of both answers.
pub fn one_is_answered()
    ensures first { (faults : List TypeFault) → spec.IsFirst faults (spec.first_of faults) }
    ensures only { (faults : List TypeFault) (a b : Option TypeFault) → spec.IsFirst faults a → spec.IsFirst faults b → a ≡ b }
    ensures both { (faults others : List TypeFault) → spec.first_of (faults ++ others) ≡ spec.sooner (spec.first_of faults) (spec.first_of others) }
{}
