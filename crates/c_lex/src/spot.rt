use base_io::Place;

/// Which tokens stand before a spot of a text. A comment is one blank (C11 5.1.1.2), so a line goes on behind a
/// comment that holds line feeds.
#[derive(Clone, Copy, Debug, PartialEq, Eq)]
pub enum Before {
    NoToken,
    /// The last one stands on an earlier line.
    TokenAbove,
    /// The last one stands on this line.
    TokenOnLine,
}

/// Where a reader stands in a text: so many bytes behind its start, at this place.
#[derive(Clone, Copy, Debug, PartialEq, Eq)]
pub struct Spot {
    pub at: usize,
    pub place: Place,
    pub before: Before,
}
