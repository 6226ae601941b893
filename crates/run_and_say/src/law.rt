//! A law of whole calls: its function does nothing.

ghost use Rattle.run_and_say.specs.RunAndSay.{ShownAlike};

use c_tree::is_steady;
use program_texts::one_reading;

/// After a build that was done, a run of the image over rows that each reach the budget and a say of the program on the same input show
/// the same words, as far as both go; where both tell an end, it is the same.
pub fn shown_alike()
    ensures { ShownAlike }
{
    is_steady();
    one_reading();
}
