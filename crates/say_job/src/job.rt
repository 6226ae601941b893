//! What a say is asked to do.

/// A run of the plain meaning of a program on an input.
#[derive(Debug, Drop)]
pub struct SayJob<'w> {
    pub program: &'w str,
    pub input: &'w str,
    /// The most steps.
    pub steps: u64,
}
