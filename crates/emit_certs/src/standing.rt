//! Where an operation stands.

/// Where an operation begins, by its address; in which stretch, by the address of its head; what the stretch has spent, where code
/// falls in, or may have spent where none does; and whether some stretch has begun.
#[derive(Clone, Copy)]
pub struct Standing {
    pub at: u16,
    pub stretch: u16,
    pub spent: u64,
    pub falls: bool,
    pub begun: bool,
}
