//! What holds of the numbers of flat functions.

ghost use Rattle.item_weights.specs.Flat.{FlatsAreFlats};

/// Where calls have no cycle, the number of each function is what the rule says of its body and of the numbers of the functions
/// that it calls.
pub fn flats_are_flats()
    ensures { FlatsAreFlats }
{}
