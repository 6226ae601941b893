//! Why an image isn't certified.
use cert_rules::Rule;

/// Why an image isn't certified.
#[derive(Clone, Copy, Debug, PartialEq, Eq)]
pub enum Refused {
    /// The first rule that fails, the address at which it does, and the two values that don't fit.
    Rule {
        rule: Rule,
        address: u16,
        left: i128,
        right: i128,
    },
    /// There was no memory.
    Memory,
}
