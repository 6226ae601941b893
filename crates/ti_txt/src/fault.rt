/// Why a text is no image. `at` is an offset in bytes: of the first digit of the byte at fault, of the byte that fits
/// no form, or, where the text ends too early, its length.
#[derive(Clone, Copy, Debug, PartialEq, Eq)]
pub enum TxtFault {
    /// A byte that no text goes on with.
    BadByte { at: usize },
    /// A byte whose address an earlier byte has.
    Overlap { at: usize },
    /// A byte with an address above 0xFFFF.
    PastEnd { at: usize },
    /// A byte at an address where no image has one.
    Unmapped { at: usize },
    /// The text ends before its `q`.
    NoEnd { at: usize },
    /// There was no memory.
    Memory,
}
