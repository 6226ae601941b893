//! Loops of a known number of turns.

use base_io::Place;

/// The variable of such a loop, the place where it is declared, and the numbers from which and to which it goes.
#[derive(Clone, Copy, PartialEq, Eq, Debug)]
pub struct Count {
    pub variable: u32,
    pub place: Place,
    pub from: u16,
    pub to: u16,
}
