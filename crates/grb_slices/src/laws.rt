//! What a reader relies on that evaluates what an object depends on, and nothing else.
ghost use Rattle.grb_slices.specs.Laws.{EntriesStayEvaluated, OthersStay, OutcomeReadsItsObjects, SliceIsEnough, SliceIsEnoughFor, TargetHoldsOutcome};

/// A call that shapes do not refuse leaves in its target what the call makes of the objects that it reads, and changes no other
/// object. What it makes is a matter of these objects alone: its inputs, its mask, and what its output held.
///
/// Source: GraphBLAS C API 2.0, "Execution modes"; the form is own.
pub fn a_call_changes_its_target()
    ensures target { TargetHoldsOutcome }
    ensures others { OthersStay }
    ensures reads { OutcomeReadsItsObjects }
{}

/// What an object holds after all calls of a list is had by making the calls of its slice alone: those, going back from the last, whose
/// target is wanted, where a call makes wanted what it reads. Nothing else of the store before has to be there than what is wanted
/// before the first call; and what was evaluated earlier, at any place of the list, may be recalled there in place of the calls before.
///
/// Source: Weiser, "Program slicing", 1981; over calls own.
pub fn a_slice_is_enough()
    ensures one { SliceIsEnough }
    ensures all { SliceIsEnoughFor }
{}

/// What was evaluated at its place in a list of calls stays so when more calls come after them, and more may be known of these.
///
/// Source: own.
pub fn entries_stay_evaluated()
    ensures { EntriesStayEvaluated }
{}
