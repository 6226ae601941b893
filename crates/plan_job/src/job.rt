//! What a plan is asked of.
ghost use Rattle.std.specs.Prelude.{◌≤◌, IfSome};
ghost use Rattle.std.proofs.Props.{props};

/// A plan of a program's checkpoints for a board.
#[derive(Debug, Drop)]
pub struct PlanJob<'w> {
    pub program: &'w str,
    pub board: &'w str,
    /// Takes the place of the board's budget.
    pub budget: Option<u64>,
    pub ghost budget_range: { IfSome budget (λ n. (1 ≤ n) × (n ≤ 1000000000)) } by { Prim.hlevel props },
}
