//! The sums of a row at all places, with a bit for each place at which one lies open.
ghost use Rattle.std.specs.Prelude.{◌≡◌, ◌≢◌, ◌<◌, ◌≤◌, ℕ, Bool, List, ◌*◌, ◌/◌, length, true, false, Some, IsTrue, All, slice_set, slice_index_or};
ghost use Rattle.std.specs.List.{AllByRecursion};
ghost use Rattle.std.specs.Ordering.{nat_cmp};
ghost use Rattle.std.specs.FinMap.{is_sorted, find};
ghost use Rattle.grb_core.specs.Value.{IsValueOf};
ghost use Rattle.grb_core.specs.Operator.{value_of_op};
ghost use Rattle.grb_core.specs.Monoid.{monoid_op, monoid_domain, identity_of};
ghost use Rattle.grb_core.specs.Written.{either_value, both_values};
ghost use Rattle.grb_kernels.specs.Typed.{entries_of};
ghost use Rattle.grb_semirings.specs.Open.{marked_at};
ghost use Rattle.grb_sums.specs.Marks.{marks_of, touched, AreMarks, HoldUnmarked, AreTops, AreOpenSums};

use crate::bits::mark;
use crate::gustavson::RowSums;
use grb_ewise::Stored;
use grb_kernels::{Operator, Scalar};
use grb_semirings::MonoidOver;

/// Adds a product to the sum at a place, and sets its bit of `words`.
fn add_at<T: Scalar, M: MonoidOver<T>>(at: usize, product: T, sums: &mut [T], words: &mut [u64])
    requires in_range { at < length sums.old }
    requires enough { length sums.old ≤ 64 * length words.old }
    requires of_domain { IsValueOf (monoid_domain M.monoid) (T.value product) }
    requires bits { AreMarks (marks_of (length sums.old) words.old) words.old }
    requires clear { HoldUnmarked T.value (identity_of M.monoid) (marks_of (length sums.old) words.old) sums.old }
    ensures added { marked_at T.value (marks_of (length sums.new) words.new) sums.new at ≡ either_value (value_of_op (monoid_op M.monoid)) (marked_at T.value (marks_of (length sums.old) words.old) sums.old at) (Some (T.value product)) }
    ensures others { (p : ℕ) → p ≢ at → marked_at T.value (marks_of (length sums.new) words.new) sums.new p ≡ marked_at T.value (marks_of (length sums.old) words.old) sums.old p }
    ensures bits { AreMarks (marks_of (length sums.new) words.new) words.new }
    ensures clear { HoldUnmarked T.value (identity_of M.monoid) (marks_of (length sums.new) words.new) sums.new }
    ensures touched { touched words.new ≡ slice_set (touched words.old) (at / 64) true }
{
    sums[at] = M::add(sums[at], product);
    mark(words, at);
}

/// Adds a row, times `x`, to the sums: at a place there is a sum where its bit of `words` is set, and elsewhere the identity.
fn add_row<T: Stored, M: MonoidOver<T>, O: Operator<T>>(
    x: T,
    places: &[u32],
    values: &[T],
    sums: &mut [T],
    words: &mut [u64],
)
    requires same { length places.now ≡ length values.now }
    requires rising { IsTrue (is_sorted nat_cmp (entries_of T.value places.now values.now)) }
    requires in_range { All (λ p. p < length sums.old) places.now }
    requires enough { length sums.old ≤ 64 * length words.old }
    requires bits { AreMarks (marks_of (length sums.old) words.old) words.old }
    requires clear { HoldUnmarked T.value (identity_of M.monoid) (marks_of (length sums.old) words.old) sums.old }
    ensures added { (p : ℕ) → marked_at T.value (marks_of (length sums.new) words.new) sums.new p ≡ either_value (value_of_op (monoid_op M.monoid)) (marked_at T.value (marks_of (length sums.old) words.old) sums.old p) (both_values (value_of_op O.op) (Some (T.value x)) (find nat_cmp p (entries_of T.value places.now values.now))) }
    ensures of_domain { AllByRecursion (λ e. IsValueOf T.domain (value_of_op O.op (T.value x) e.1)) (entries_of T.value places.now values.now) }
    ensures bits { AreMarks (marks_of (length sums.new) words.new) words.new }
    ensures clear { HoldUnmarked T.value (identity_of M.monoid) (marks_of (length sums.new) words.new) sums.new }
{
    'row: for i in 0..places.len() {
        let made = O::apply(x, values[i]);
        let product = made.read();
        add_at::<T, M>(places[i] as usize, product, sums, words);
    }
}

/// Sets the bit of a word in `tops`, but where it is the word before, whose bit is set: neighbours wait for no write then.
fn mark_after(before: usize, word: usize, tops: &mut [u64])
    requires in_range { word < 64 * length tops.old }
    ensures { (marks : List Bool) → word < length marks → (word ≡ before → slice_index_or marks word false ≡ true) → AreMarks marks tops.old → AreMarks (slice_set marks word true) tops.new }
{
    if word == before {
        return;
    }
    mark(tops, word);
}

/// Adds a row as `add_row` does, and sets the bit of `tops` of each word that gets one.
fn add_topped<T: Stored, M: MonoidOver<T>, O: Operator<T>>(
    x: T,
    places: &[u32],
    values: &[T],
    sums: &mut [T],
    words: &mut [u64],
    tops: &mut [u64],
)
    requires same { length places.now ≡ length values.now }
    requires rising { IsTrue (is_sorted nat_cmp (entries_of T.value places.now values.now)) }
    requires in_range { All (λ p. p < length sums.old) places.now }
    requires enough { length sums.old ≤ 64 * length words.old }
    requires bits { AreMarks (marks_of (length sums.old) words.old) words.old }
    requires clear { HoldUnmarked T.value (identity_of M.monoid) (marks_of (length sums.old) words.old) sums.old }
    requires tops { AreTops words.old tops.old }
    ensures added { (p : ℕ) → marked_at T.value (marks_of (length sums.new) words.new) sums.new p ≡ either_value (value_of_op (monoid_op M.monoid)) (marked_at T.value (marks_of (length sums.old) words.old) sums.old p) (both_values (value_of_op O.op) (Some (T.value x)) (find nat_cmp p (entries_of T.value places.now values.now))) }
    ensures of_domain { AllByRecursion (λ e. IsValueOf T.domain (value_of_op O.op (T.value x) e.1)) (entries_of T.value places.now values.now) }
    ensures bits { AreMarks (marks_of (length sums.new) words.new) words.new }
    ensures clear { HoldUnmarked T.value (identity_of M.monoid) (marks_of (length sums.new) words.new) sums.new }
    ensures tops { AreTops words.new tops.new }
{
    let mut before = words.len();
    'row: for i in 0..places.len() {
        let at = places[i] as usize;
        let made = O::apply(x, values[i]);
        let product = made.read();
        add_at::<T, M>(at, product, sums, words);
        mark_after(before, at / 64, tops);
        before = at / 64;
    }
}

/// A sum for each place, and a bit for each at which one lies open.
#[derive(Drop)]
pub struct OpenSums<T> {
    /// The sums; the identity, where none lies open.
    pub sums: Vec<T>,
    /// The bits, 64 a word.
    pub words: Vec<u64>,
}

impl<T: Stored, M: MonoidOver<T>> RowSums<T, M> for OpenSums<T> {
    ghost width = { λ work. length work.sums.items };

    ghost asks = { λ work p. true };

    ghost sum = { λ work p. marked_at T.value (marks_of (length work.sums.items) work.words.items) work.sums.items p };

    ghost sound = { λ work. AreOpenSums T.value (identity_of M.monoid) work.sums.items work.words.items };

    fn add<O: Operator<T>>(&mut self, x: T, places: &[u32], values: &[T]) {
        add_row::<T, M, O>(
            x,
            places,
            values,
            self.sums.as_mut_slice(),
            self.words.as_mut_slice(),
        );
    }
}

/// Open sums, and a bit for each word of theirs that has one: so that a row of a few sums looks at those words alone.
#[derive(Drop)]
pub struct ToppedSums<T> {
    /// The sums.
    pub lower: OpenSums<T>,
    /// The bits of the words, 64 a word.
    pub tops: Vec<u64>,
}

impl<T: Stored, M: MonoidOver<T>> RowSums<T, M> for ToppedSums<T> {
    ghost width = { λ work. length work.lower.sums.items };

    ghost asks = { λ work p. true };

    ghost sum = { λ work p. marked_at T.value (marks_of (length work.lower.sums.items) work.lower.words.items) work.lower.sums.items p };

    ghost sound = { λ work. (AreOpenSums T.value (identity_of M.monoid) work.lower.sums.items work.lower.words.items) × (AreTops work.lower.words.items work.tops.items) };

    fn add<O: Operator<T>>(&mut self, x: T, places: &[u32], values: &[T]) {
        add_topped::<T, M, O>(
            x,
            places,
            values,
            self.lower.sums.as_mut_slice(),
            self.lower.words.as_mut_slice(),
            self.tops.as_mut_slice(),
        );
    }
}
