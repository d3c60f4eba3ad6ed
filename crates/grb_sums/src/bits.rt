//! Places that are marked by the bits of words, 64 a word.
ghost use Rattle.std.specs.Prelude.{◌≡◌, ◌≢◌, ◌*◌, ◌/◌, ◌^◌, ◌<◌, ℕ, Bool, true, List, length, slice_set, sum_by, count_ones};
ghost use Rattle.grb_sums.specs.Bits.{is_marked};
ghost use Rattle.grb_sums.specs.Marks.{touched, AreMarks};

/// Marks a place: each list of marks that the words have is marked there. Takes no memory.
pub fn mark(words: &mut [u64], at: usize)
    requires in_range { at < 64 * length words.old }
    ensures here { is_marked words.new at ≡ true }
    ensures others { (p : ℕ) → (p ≢ at) → is_marked words.new p ≡ is_marked words.old p }
    ensures marked { (marks : List Bool) → at < length marks → AreMarks marks words.old → AreMarks (slice_set marks at true) words.new }
    ensures touched { touched words.new ≡ slice_set (touched words.old) (at / 64) true }
{
    let w = at / 64;
    words[w] = words[w] | 1 << (at % 64);
}

/// How many places are marked.
pub(crate) fn count_marks(words: &[u64]) -> usize
    requires few { length words.now < 2 ^ 58 }
    ensures { result ≡ sum_by (λ word. count_ones word) words.now }
{
    let mut count = 0usize;
    'words: for w in 0..words.len() {
        count += words[w].count_ones() as usize;
    }
    count
}
