//! Where a statement stands.

/// Anywhere, as the last item of a group of a `switch`, as the body of a function, or as the body's last item.
#[derive(Clone, Copy, PartialEq, Eq, Debug)]
pub enum Position {
    Anywhere,
    LastOfGroup,
    Body,
    LastOfBody,
}
