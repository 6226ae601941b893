//! What a check is asked to do.
ghost use Rattle.std.specs.Prelude.{◌≤◌, IfSome};
ghost use Rattle.std.proofs.Props.{props};

/// A check of an image by its certificate on a board.
#[derive(Debug, Drop)]
pub struct CheckJob<'w> {
    pub image: &'w str,
    pub certificate: &'w str,
    pub board: &'w str,
    /// Takes the place of the board's budget.
    pub budget: Option<u64>,
    pub ghost budget_range: { IfSome budget (λ n. (1 ≤ n) × (n ≤ 1000000000)) } by { Prim.hlevel props },
}
