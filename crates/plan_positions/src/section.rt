//! Sections of code.

/// A flat function, which has no head; a stretch of a plain chain, and whether its last operation ends the chain; or a
/// conditional loop, and its turns between two heads.
#[derive(Clone, Copy, Debug, PartialEq, Eq)]
pub enum Shape {
    Callee,
    Straight { ends: bool },
    Rounds { turns: u32 },
}

/// A section: the number of the operation that it begins with, and that behind its last one; the objects that live in SRAM
/// in it, ascending; and the number of its chain and its cost by the plan, in energy units, both 0 for a flat function.
#[derive(Debug, Drop)]
pub struct Section {
    pub first: u32,
    pub behind: u32,
    pub shape: Shape,
    pub homes: Vec<u32>,
    pub chain: u32,
    pub cost: u64,
}
