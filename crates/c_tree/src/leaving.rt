//! How statements are left.
/// How a statement is left: to what follows it, by `break`, by `continue`, or by `return` with a word, 0 where it gives no value.
#[derive(Clone, Copy, PartialEq, Eq, Debug)]
pub enum Leaving {
    Next,
    Broke,
    Continued,
    Returned(u16),
}
