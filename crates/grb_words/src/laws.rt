//! What a reader of the definitions of scripts relies on. Each function has a law as its contract, and does nothing.
ghost use Rattle.grb_words.specs.Laws.{OptionsAreSpelled, SpelledOptionsAreRead, SemiringsAreSpelled, SpelledSemiringsAreRead};

/// Options are read exactly where they are spelled: the words of the mask, `structure`, `comp`, of the accumulator, `replace`, `tran`
/// and `tran1`, in this order, with none of them twice and nothing else. So no two choices of options are spelled alike.
pub fn options_are_read_as_spelled()
    ensures spelled { OptionsAreSpelled }
    ensures read { SpelledOptionsAreRead }
{}

/// A semiring is read exactly where it is spelled: the word of its monoid, a `.` and the word of its operator. So no two semirings are
/// spelled alike.
pub fn semirings_are_read_as_spelled()
    ensures spelled { SemiringsAreSpelled }
    ensures read { SpelledSemiringsAreRead }
{}
