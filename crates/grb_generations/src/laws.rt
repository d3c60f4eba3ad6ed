//! What holds of the stores of a chain, by what their passes promise.
ghost use Rattle.grb_generations.specs.Lossless.{NothingIsLost, OneHistory};

use grb_context::laws::full_knows_all;
use grb_numbers::laws::{calls_commute, first_numbers_change_nothing, next_numbers_show_the_same};

/// A generation that is made where one knows all that its own takes has all that any other knows, or will know, of that.
pub fn nothing_is_lost()
    ensures { NothingIsLost }
{
    full_knows_all();
    next_numbers_show_the_same();
}

/// However many generations there were, the store of the last is seen as the one that all calls leave which were entered in any of them, in
/// one order, by the numbers that users have.
pub fn one_history()
    ensures { OneHistory }
{
    calls_commute();
    first_numbers_change_nothing();
    next_numbers_show_the_same();
}
