//! What a reader of the definitions of texts relies on. Each function has a law as its contract, and does nothing.
ghost use Rattle.grb_market.specs.Laws.{FaultlessTextsSpell, SpellingTextsAreFaultless, SpellAtMostOne, SpellMatrices, CanonicalTextsSpell, CanonicalTextsAreReadBack};

/// A text has a fault exactly where it spells no matrix.
pub fn spells_or_has_a_fault()
    ensures faultless { FaultlessTextsSpell }
    ensures spelling { SpellingTextsAreFaultless }
{}

/// A text spells at most one matrix.
pub fn spells_at_most_one()
    ensures { SpellAtMostOne }
{}

/// What a text spells has its entries in order, within the dimensions and of the domain.
pub fn spells_whole_matrices()
    ensures { SpellMatrices }
{}

/// The canonical text of a matrix that stores no false spells it, and nothing else: what was written is read back.
pub fn written_texts_are_read_back()
    ensures spells { CanonicalTextsSpell }
    ensures same { CanonicalTextsAreReadBack }
{}
