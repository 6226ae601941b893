//! Want of memory.
/// There was no memory: the whole fault of a call that can fail in no other way.
#[derive(Clone, Copy, Debug, PartialEq, Eq)]
pub struct Memory;
