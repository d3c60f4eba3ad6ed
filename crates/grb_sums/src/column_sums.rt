//! Sums by column. What is added comes in any order of columns; the columns that are summed have places, and at each place a sum lies open.
ghost use Rattle.std.specs.Prelude.{◌≡◌, ◌≢◌, ◌+◌, ◌<◌, ◌≤◌, ◌^◌, ◌++◌, ℕ, true, [], List, length, slice_index, All, IfOk, IfSome, IfNone};
ghost use Rattle.grb_core.specs.declared.value.Value.{Value};
ghost use Rattle.grb_core.specs.declared.monoid.Monoid.{Monoid};
ghost use Rattle.grb_core.specs.Entries.{VectorEntries};
ghost use Rattle.grb_kernels.specs.Bits.{has_bit};
ghost use Rattle.grb_kernels.specs.Typed.{entries_of, first_entries};
ghost use Rattle.grb_ewise.specs.Ranks.{Rise};
ghost use Rattle.grb_sums.specs.Bits.{marked_values, word_values, AreMarked};
ghost use Rattle.grb_sums.specs.ColumnSums.{AreSums, column_folds, numbers_below, with_values};
ghost use Rattle.grb_sums.specs.Numbers.{numbers_below-rise};

use crate::bits::{count_marks, mark};
use crate::row_sums::OpenSums;
use grb_ewise::{Stored, place_of};
use grb_kernels::{EntryList, Scalar, lowest_bit, without_bit};
use grb_semirings::MonoidOver;
use std::alloc::{AllocError, Global};

/// The columns that are summed: each has a place, in rising order.
pub trait Columns {
    /// The columns, by their places.
    ghost names: { Self → List ℕ };

    /// The columns of the matrix are below this.
    ghost below: { Self → ℕ };

    /// How many they are.
    fn count(&self) -> usize
        ensures { result ≡ length (names self.now) };

    /// The place of a column, if it is one of them.
    fn place(&self, column: u32) -> Option<usize>
        requires { column < below self.now }
        ensures found { IfSome result (λ p. (p < length (names self.now)) × (slice_index (names self.now) p ≡ column)) }
        ensures absent { IfNone result ((p : ℕ) → p < length (names self.now) → slice_index (names self.now) p ≢ column) };

    /// The column at a place.
    fn name(&self, place: usize) -> u32
        requires { place < length (names self.now) }
        ensures { result ≡ slice_index (names self.now) place };

    /// They rise.
    ghost rising: { (columns : Self) → Rise (names columns) };
}

/// All columns below a number, each at the place that is its own number.
#[derive(Drop)]
pub struct AllColumns {
    /// The number.
    pub ncols: u32,
    ghost few: { ncols < 2 ^ 32 },
}

impl Columns for AllColumns {
    ghost names = { λ all. numbers_below all.ncols };

    ghost below = { λ all. all.ncols };

    fn count(&self) -> usize {
        self.ncols as usize
    }

    fn place(&self, column: u32) -> Option<usize> {
        Some(column as usize)
    }

    fn name(&self, place: usize) -> u32 {
        place as u32
    }

    ghost rising = { λ all. numbers_below-rise all.ncols };
}

/// The columns of a list that rises. A column is searched there.
#[derive(Drop)]
pub struct NamedColumns<'a> {
    /// The list.
    pub names: &'a [u32],
    ghost rising: { Rise names.now },
}

impl<'a> Columns for NamedColumns<'a> {
    ghost names = { λ named. named.names.now };

    ghost below = { λ named. 2 ^ 32 };

    fn count(&self) -> usize {
        self.names.len()
    }

    fn place(&self, column: u32) -> Option<usize> {
        place_of(self.names, column)
    }

    fn name(&self, place: usize) -> u32 {
        self.names[place]
    }

    ghost rising = { λ named. named.rising };
}

/// What is added of an entry: a value that is made of its own.
pub trait Term<T: Scalar> {
    /// The value that is made of a value.
    ghost gives: { Self → Value → Value };

    /// Makes it.
    fn of(&self, value: T) -> T
        ensures { T.value result ≡ gives self.now (T.value value) };
}

/// Sums to which nothing was added. Takes memory for as many places, and for a bit of each. `AllocError` where that is refused; then
/// nothing is made.
pub fn open_sums<T: Stored + Drop, M: MonoidOver<T>>(
    alloc: Global,
    count: usize,
) -> Result<OpenSums<T>, AllocError>
    ensures marked { IfOk result (λ made. AreMarked count made.words.items made.sums.items) }
    ensures none { IfOk result (λ made. (names : List ℕ) → length names ≡ count → AreSums T.value M.monoid names [] made.words.items made.sums.items) }
{
    let words = vec![in alloc; 0u64; count / 64 + 1]?;
    let sums = vec![in alloc; M::identity(); count]?;
    Ok(OpenSums { words, sums })
}

/// Adds entries, each at its column: what the term makes of its value. An entry at a column that has no place is passed over. Takes no
/// memory.
pub fn add_entries<T: Stored, M: MonoidOver<T>, C: Columns, R: Term<T>>(
    columns: &C,
    term: &R,
    indices: &[u32],
    values: &[T],
    words: &mut [u64],
    sums: &mut [T],
)
    requires same { length indices.now ≡ length values.now }
    requires in_range { All (λ j. j < C.below columns.now) indices.now }
    requires marked { AreMarked (length (C.names columns.now)) words.old sums.old }
    ensures marked { AreMarked (length (C.names columns.now)) words.new sums.new }
    ensures added { (added : VectorEntries) → AreSums T.value M.monoid (C.names columns.now) added words.old sums.old → AreSums T.value M.monoid (C.names columns.now) (added ++ with_values (R.gives term.now) (entries_of T.value indices.now values.now)) words.new sums.new }
{
    'entries: for i in 0..indices.len() {
        if let Some(at) = columns.place(indices[i]) {
            let made = term.of(values[i]);
            let value = made.read();
            sums[at] = M::add(sums[at], value);
            mark(words, at);
        }
    }
}

/// The sums as entries: one at each column to which something was added. Takes memory for these alone. `AllocError` where that is refused;
/// then nothing is made.
pub fn close_sums<T: Stored + Drop, C: Columns>(
    alloc: Global,
    columns: &C,
    words: &[u64],
    sums: &[T],
) -> Result<EntryList<T>, AllocError>
    requires marked { AreMarked (length (C.names columns.now)) words.now sums.now }
    ensures values { IfOk result (λ made. entries_of T.value made.indices.items made.values.items ≡ marked_values T.value (C.names columns.now) words.now sums.now) }
    ensures folds { IfOk result (λ made. (m : Monoid) (added : VectorEntries) → AreSums T.value m (C.names columns.now) added words.now sums.now → entries_of T.value made.indices.items made.values.items ≡ column_folds m (C.names columns.now) added) }
{
    let count = count_marks(words);
    let mut indices = vec![in alloc; 0u32; count]?;
    let mut values = vec![in alloc; T::any(); count]?;
    close_into(
        columns,
        words,
        sums,
        indices.as_mut_slice(),
        values.as_mut_slice(),
    );
    Ok(EntryList { indices, values })
}

/// Writes them to `indices` and `values`, which have a place for each.
fn close_into<T: Stored, C: Columns>(
    columns: &C,
    words: &[u64],
    sums: &[T],
    indices: &mut [u32],
    values: &mut [T],
)
    requires marked { AreMarked (length (C.names columns.now)) words.now sums.now }
    requires room { length indices.old ≡ length (marked_values T.value (C.names columns.now) words.now sums.now) }
    requires room_same { length indices.old ≡ length values.old }
    ensures { entries_of T.value indices.new values.new ≡ marked_values T.value (C.names columns.now) words.now sums.now }
{
    let mut k = 0;
    'words: for w in 0..words.len() {
        k = close_word(columns, 64 * w, words[w], sums, indices, values, k);
    }
}

/// Writes the sums at the set bits of a word, from the lowest up, after the first `k` entries of a result: bit `t` stands for the place
/// `base + t`. Answers how many entries there are then.
fn close_word<T: Stored, C: Columns>(
    columns: &C,
    base: usize,
    word: u64,
    sums: &[T],
    indices: &mut [u32],
    values: &mut [T],
    k: usize,
) -> usize
    requires in_range { (t : ℕ) → has_bit word t ≡ true → (base + t < length (C.names columns.now)) }
    requires sums_long { length sums.now ≡ length (C.names columns.now) }
    requires room { k + length (word_values T.value (C.names columns.now) word base sums.now) ≤ length indices.old }
    requires room_same { length indices.old ≡ length values.old }
    ensures entries { first_entries T.value result indices.new values.new ≡ first_entries T.value k indices.old values.old ++ word_values T.value (C.names columns.now) word base sums.now }
    ensures count { result ≡ k + length (word_values T.value (C.names columns.now) word base sums.now) }
{
    let mut left = word;
    let mut k = k;
    'bits: while left != 0 {
        let t = lowest_bit(left);
        let at = base + t;
        indices[k] = columns.name(at);
        values[k] = sums[at];
        k += 1;
        left = without_bit(left, t);
    }
    k
}
