//! What a run is asked to do.
ghost use Rattle.std.specs.Prelude.{◌≤◌, IfSome};
ghost use Rattle.std.proofs.Props.{props};

/// A run of an image on an input under supplies.
#[derive(Debug, Drop)]
pub struct RunJob<'w> {
    pub image: &'w str,
    pub board: &'w str,
    pub input: &'w str,
    pub supplies: &'w [&'w str],
    /// Takes the place of the board's budget.
    pub budget: Option<u64>,
    /// The most instructions.
    pub steps: u64,
    pub ghost budget_range: { IfSome budget (λ n. (1 ≤ n) × (n ≤ 1000000000)) } by { Prim.hlevel props },
    pub ghost steps_range: { steps ≤ 1000000000 } by { Prim.hlevel props },
}
