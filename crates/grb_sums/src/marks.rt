//! The marks of a row of sums as the bits of words, so that a row is read in order and cleared by what was marked. For a row of few
//! products a second level, `tops`, has a bit for each word that has one, so that no other word is looked at.
ghost use Rattle.std.specs.Prelude.{◌≡◌, ◌+◌, ◌<◌, ◌≤◌, ◌≢◌, ◌*◌, ◌/◌, ◌^◌, ◌++◌, ℕ, length, slice_index, true, Some, None};
ghost use Rattle.grb_core.specs.Monoid.{identity_of};
ghost use Rattle.grb_kernels.specs.Typed.{first_entries};
ghost use Rattle.grb_sums.specs.Naming.{name_in};
ghost use Rattle.grb_kernels.specs.Bits.{has_bit};
ghost use Rattle.grb_sums.specs.Bits.{value_at};
ghost use Rattle.grb_sums.specs.Marks.{bits_from, AreTops, AreNoTops, AreOpen, AreTaken, marks_of};
ghost use Rattle.grb_sums.specs.Reach.{IsOutside};
ghost use Rattle.grb_semirings.specs.Open.{marked_at};

use crate::naming::Names;
use grb_kernels::{Scalar, lowest_bit, without_bit};
use grb_semirings::MonoidOver;

/// Writes the sums at the set bits of a word, by rising place, after the first `k` entries of a result, and puts the identity in place of
/// each. Bit `t` stands for the place `base + t`, and each sum goes to the column that is its place's name. Answers how many entries there
/// are then.
fn take_word<T: Scalar, M: MonoidOver<T>>(
    base: usize,
    word: u64,
    names: &Names,
    sums: &mut [T],
    columns: &mut [u32],
    values: &mut [T],
    k: usize,
) -> usize
    requires in_range { (t : ℕ) → has_bit word t ≡ true → (base + t < length sums.old) }
    requires before { k ≤ base }
    requires within { k ≤ length sums.old }
    requires named { length sums.old ≡ length names.now }
    requires room { length sums.old ≤ length columns.old }
    requires room_same { length columns.old ≡ length values.old }
    ensures entries { first_entries T.value result columns.new values.new ≡ first_entries T.value k columns.old values.old ++ bits_from (name_in names.now) (has_bit word) (value_at T.value sums.old) base 64 0 }
    ensures most { result ≤ base + 64 }
    ensures within { result ≤ length sums.old }
    ensures clear { (t : ℕ) → t < 64 → has_bit word t ≡ true → value_at T.value sums.new (base + t) ≡ Some (identity_of M.monoid) }
    ensures stay { (i : ℕ) → value_at T.value sums.old i ≡ Some (identity_of M.monoid) → value_at T.value sums.new i ≡ Some (identity_of M.monoid) }
    ensures above { (i : ℕ) → base + 64 ≤ i → value_at T.value sums.new i ≡ value_at T.value sums.old i }
{
    let mut left = word;
    let mut k = k;
    'bits: while left != 0 {
        let t = lowest_bit(left);
        let at = base + t;
        columns[k] = names.name(at);
        values[k] = sums[at];
        sums[at] = M::identity();
        k += 1;
        left = without_bit(left, t);
    }
    k
}

/// Writes the sums as entries, by rising column, where the bits of `words` are set. Takes the bits away, and puts the identity in place of
/// the sums. Answers how many entries there are.
pub fn take_words<T: Scalar, M: MonoidOver<T>>(
    words: &mut [u64],
    names: &Names,
    sums: &mut [T],
    columns: &mut [u32],
    values: &mut [T],
) -> usize
    requires sound { AreOpen T.value (identity_of M.monoid) words.old sums.old names.now columns.old values.old }
    ensures { AreTaken T.value (identity_of M.monoid) words.old sums.old names.now result words.new sums.new columns.new values.new }
{
    let mut k = 0;
    'words: for w in 0..words.len() {
        k = take_word::<T, M>(64 * w, words[w], names, sums, columns, values, k);
        words[w] = 0;
    }
    k
}

/// So many words are looked at together, where words without a bit are passed over.
pub const LOOKED_AT: usize = 16;

/// Whether none of the words has a bit.
fn are_untouched(words: &[u64]) -> bool
    ensures { result ≡ true → (u : ℕ) → u < length words.now → slice_index words.now u ≡ 0 }
{
    let mut none = true;
    'words: for i in 0..words.len() {
        none = (words[i] == 0) & none;
    }
    none
}

/// Whether 16 words stand from a place up to another, none of which has a bit.
fn has_untouched(words: &[u64], at: usize, upto: usize) -> bool
    requires up { at ≤ upto }
    requires within { upto ≤ length words.now }
    ensures within { result ≡ true → at + 16 ≤ upto }
    ensures none { result ≡ true → (u : ℕ) → at ≤ u → u < at + 16 → slice_index words.now u ≡ 0 }
{
    if upto - at < LOOKED_AT {
        return false;
    }
    are_untouched(&words[at..at + LOOKED_AT])
}

/// The first place from one up to another at which a word has a bit, or else the other. Words without one are passed over 16 at a time.
fn next_touched(words: &[u64], from: usize, upto: usize) -> usize
    requires up { from ≤ upto }
    requires within { upto ≤ length words.now }
    ensures fit { (u : ℕ) → u < length words.now → slice_index words.now u < 2 ^ 64 }
    ensures onward { from ≤ result }
    ensures within { result ≤ upto }
    ensures none { (u : ℕ) → from ≤ u → u < result → slice_index words.now u ≡ 0 }
{
    if from < upto && words[from] != 0 {
        return from;
    }
    let mut at = from;
    'blocks: while has_untouched(words, at, upto) {
        at += LOOKED_AT;
    }
    'rest: while at < upto && words[at] == 0 {
        at += 1;
    }
    at
}

/// Writes and clears as `take_words` does, and looks at no word but those of which `tops` has the bit, among which is each that has a bit.
/// Takes those bits away too. No sum lies open outside of the words of `tops` from `from` up to `upto`, and no others are looked at.
pub fn take_topped<T: Scalar, M: MonoidOver<T>>(
    tops: &mut [u64],
    from: usize,
    upto: usize,
    words: &mut [u64],
    names: &Names,
    sums: &mut [T],
    columns: &mut [u32],
    values: &mut [T],
) -> usize
    requires tops { AreTops words.old tops.old }
    requires up { from ≤ upto }
    requires within { upto ≤ length tops.old }
    requires outside { (p : ℕ) → p < length sums.old → IsOutside from upto (p / 4096) → marked_at T.value (marks_of (length sums.old) words.old) sums.old p ≡ None }
    requires sound { AreOpen T.value (identity_of M.monoid) words.old sums.old names.now columns.old values.old }
    ensures taken { AreTaken T.value (identity_of M.monoid) words.old sums.old names.now result words.new sums.new columns.new values.new }
    ensures none { AreNoTops words.new tops.new }
{
    let mut k = 0;
    let mut h = next_touched(tops, from, upto);
    'tops: while h < upto {
        let mut left = tops[h];
        tops[h] = 0;
        'words: while left != 0 {
            let t = lowest_bit(left);
            let w = 64 * h + t;
            k = take_word::<T, M>(64 * w, words[w], names, sums, columns, values, k);
            words[w] = 0;
            left = without_bit(left, t);
        }
        h = next_touched(tops, h + 1, upto);
    }
    k
}
