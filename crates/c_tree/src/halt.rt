//! Why a run stops.
/// Why a run goes no further: a trap by its number, no step left, a fault of the sink, or want of memory.
#[derive(Clone, Copy, PartialEq, Eq, Debug)]
pub enum Halt {
    Trap(u16),
    Stopped,
    Sink,
    Memory,
}
