//! What the calls that make a store anew leave.
ghost use Rattle.grb_rebuild.specs.Rebuilt.{HistoryGoesOn, RebuildIsShort, RebuildIsTaken, RebuildLeavesTheStore};

/// The calls that make a store anew leave it, none of them is refused, and they are two at most for each number.
pub fn a_rebuild_leaves_the_store()
    ensures leaves { RebuildLeavesTheStore }
    ensures taken { RebuildIsTaken }
    ensures short { RebuildIsShort }
{}

/// After the calls that make a store anew, further calls leave what they leave after all the calls that made the store: a history goes on.
pub fn a_history_goes_on()
    ensures { HistoryGoesOn }
{}
