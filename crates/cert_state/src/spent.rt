//! What is spent.
ghost use Rattle.std.specs.Prelude.{◌≤◌, length};
ghost use Rattle.cert_state.specs.Amounts.{IsSmall};

use certificate::Term;

/// At most so much is spent: a number and terms.
#[derive(Drop)]
pub struct Spending {
    pub base: i128,
    pub terms: Vec<Term>,
    pub ghost few: { length terms.items ≤ 80 },
    pub ghost small: { IsSmall base },
}
