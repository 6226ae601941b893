//! Laws of the definitions: each contract is one, and the functions do nothing.
ghost use Rattle.chain_units.specs.Planned.{TestsOneTurn};

/// A loop is conditional exactly where some set of objects lets one turn of it fit.
pub fn one_turn_is_tested()
    ensures { TestsOneTurn }
{}
