//! Rows of the product of two matrices: one walk, whichever of its rows are made and whichever of its cells are computed.
ghost use Rattle.std.specs.Prelude.{◌≡◌, ◌≢◌, ◌+◌, ◌<◌, ◌≤◌, ◌^◌, ◌++◌, ℕ, List, [], ◌∷◌, length, All, IfOk, OnOk, IsTrue, slice_index};
ghost use Rattle.std.specs.FinMap.{is_sorted};
ghost use Rattle.grb_core.specs.Entries.{MatrixEntries, cell_cmp};
ghost use Rattle.grb_core.specs.Results.{row_of};
ghost use Rattle.grb_kernels.specs.Typed.{first_entries};
ghost use Rattle.grb_ewise.specs.Ranks.{Rise};
ghost use Rattle.grb_ewise.specs.Rows.{flat_entries};
ghost use Rattle.grb_mxm.specs.Rows.{AreAppended, AreBelow};

use grb_ewise::Stored;
use grb_kernels::Scalar;
use grb_lists::next_place;
use std::alloc::{AllocError, Global};

/// Rows of a matrix as flat lists, which more rows are put after.
///
/// Source: own.
#[derive(Drop)]
pub struct MadeRows<T> {
    /// The numbers of the rows that have entries.
    pub rows: Vec<u32>,
    /// Where the entries of each of them begin.
    pub starts: Vec<usize>,
    /// The column of each entry.
    pub columns: Vec<u32>,
    /// The value of each entry.
    pub values: Vec<T>,
}

/// No rows. Takes no memory.
///
/// Source: own.
pub fn no_rows<T: Stored + Drop>(alloc: Global) -> MadeRows<T>
    ensures lists { (upto : ℕ) → AreBelow upto result.rows.items result.starts.items result.columns.items result.values.items }
    ensures entries { flat_entries T.value result.rows.items result.starts.items result.columns.items result.values.items ≡ [] }
{
    MadeRows {
        rows: Vec::new(alloc),
        starts: Vec::new(alloc),
        columns: Vec::new(alloc),
        values: Vec::new(alloc),
    }
}

/// Which rows of a product are made, from one up to another, and the rows that they are put after, which come before them.
#[derive(Drop)]
pub(crate) struct Part<T: Scalar> {
    pub(crate) made: MadeRows<T>,
    pub(crate) from: u64,
    pub(crate) upto: u64,
    /// Whether memory is reserved ahead for the entries of all rows of the product, where there is no entry yet.
    pub(crate) reserves: bool,
    ghost rises: { from ≤ upto },
    ghost lists: { AreBelow from made.rows.items made.starts.items made.columns.items made.values.items },
    ghost below: { All (λ e. e.0.0 < from) (flat_entries T.value made.rows.items made.starts.items made.columns.items made.values.items) },
}

/// Puts a row after those so far, where it has entries. `AllocError` where memory is refused; then a part of the row may stand in the
/// lists.
///
/// Source: own.
pub fn push_row<T: Stored>(
    made: &mut MadeRows<T>,
    row: u32,
    columns: &[u32],
    values: &[T],
) -> Result<(), AllocError>
    requires same { length columns.now ≡ length values.now }
    ensures fit { (k : ℕ) → k < length columns.now → slice_index columns.now k < 2 ^ 32 }
    ensures rows_pushed { OnOk result (0 < length columns.now → made.new.rows.items ≡ made.old.rows.items ++ row ∷ []) }
    ensures starts_pushed { OnOk result (0 < length columns.now → made.new.starts.items ≡ made.old.starts.items ++ length made.old.columns.items ∷ []) }
    ensures rows_same { OnOk result (length columns.now ≡ 0 → made.new.rows.items ≡ made.old.rows.items) }
    ensures starts_same { OnOk result (length columns.now ≡ 0 → made.new.starts.items ≡ made.old.starts.items) }
    ensures columns { OnOk result (made.new.columns.items ≡ made.old.columns.items ++ columns.now) }
    ensures values { OnOk result (made.new.values.items ≡ made.old.values.items ++ values.now) }
{
    if columns.len() == 0 {
        return Ok(());
    }
    made.rows.push(row)?;
    made.starts.push(made.columns.len())?;
    made.columns.extend_from_slice(columns)?;
    made.values.extend_from_slice(values)?;
    Ok(())
}

/// Rows of a product of two matrices, which are made one after another in the same memory.
pub(crate) trait RowMaker<T: Scalar> {
    /// Memory to work in at one row.
    type Work: Drop;

    /// What is made of the product.
    ghost makes: { Self → MatrixEntries };

    /// The numbers of the rows in which there may be entries.
    ghost listed: { Self → List ℕ };

    /// A row has no more entries.
    ghost most: { Self → ℕ };

    /// Between rows nothing lies open.
    ghost ready: { Self → Self.Work → Type 0 };

    /// The memory to work in. `AllocError` where it is refused; then nothing is made.
    fn work(&self, alloc: Global) -> Result<Self::Work, AllocError>
        ensures { IfOk result (λ work. ready self.now work) };

    /// How many entries a row has at most.
    fn width(&self) -> usize
        ensures { result ≡ most self.now };

    /// The numbers of the rows in which there may be entries.
    fn numbers(&self) -> &[u32]
        ensures list { result.now ≡ listed self.now }
        ensures rise { Rise result.now }
        ensures sorted { IsTrue (is_sorted cell_cmp (makes self.now)) }
        ensures all { (i : ℕ) → ((k : ℕ) → k < length result.now → slice_index result.now k ≢ i) → row_of i (makes self.now) ≡ [] };

    /// Makes the row whose number stands at a place, to the front of `columns` and `values`. Answers how many entries it has.
    fn make(
        &self,
        place: usize,
        work: &mut Self::Work,
        columns: &mut [u32],
        values: &mut [T],
    ) -> usize
        requires at { place < length (listed self.now) }
        requires ready { ready self.now work.old }
        requires room { most self.now ≤ length columns.old }
        requires room_same { length columns.old ≡ length values.old }
        ensures ready { ready self.now work.new }
        ensures within { result ≤ length columns.new }
        ensures room_same { length columns.new ≡ length values.new }
        ensures entries { first_entries T.value result columns.new values.new ≡ row_of (slice_index (listed self.now) place) (makes self.now) };
}

/// How many of these numbers, which rise, are below another.
fn count_below(numbers: &[u32], number: u64) -> usize
    requires { Rise numbers.now }
    ensures within { result ≤ length numbers.now }
    ensures below { (q : ℕ) → q < result → slice_index numbers.now q < number }
    ensures above { (q : ℕ) → result ≤ q → q < length numbers.now → number ≤ slice_index numbers.now q }
{
    if number > u32::MAX as u64 {
        return numbers.len();
    }
    next_place(numbers, 0, number as u32)
}

/// Where the numbers from one up to another stand, of those that rise: from a place up to another.
fn places_between(numbers: &[u32], from: u64, upto: u64) -> (usize, usize)
    requires rise { Rise numbers.now }
    requires rises { from ≤ upto }
    ensures order { result.0 ≤ result.1 }
    ensures within { result.1 ≤ length numbers.now }
    ensures from { (q : ℕ) → result.0 ≤ q → q < result.1 → from ≤ slice_index numbers.now q }
    ensures upto { (q : ℕ) → result.0 ≤ q → q < result.1 → slice_index numbers.now q < upto }
    ensures after { (q : ℕ) → q < length numbers.now → from ≤ slice_index numbers.now q → result.0 ≤ q }
    ensures before { (q : ℕ) → q < length numbers.now → slice_index numbers.now q < upto → q < result.1 }
{
    let first = count_below(numbers, from);
    let last = count_below(numbers, upto);
    (first, last)
}

/// The numbers from one up to another, of those that rise, and where the first of them stands: found by two binary searches. Takes no memory.
///
/// Source: own.
pub fn numbers_between(numbers: &[u32], from: u64, upto: u64) -> (usize, &[u32])
    requires rise { Rise numbers.now }
    requires rises { from ≤ upto }
    ensures at { (k : ℕ) → k < length result.1.now → result.0 + k < length numbers.now }
    ensures fit { (k : ℕ) → k < length result.1.now → result.0 + k < 2 ^ 64 }
    ensures same { (k : ℕ) → k < length result.1.now → slice_index result.1.now k ≡ slice_index numbers.now (result.0 + k) }
    ensures rise { Rise result.1.now }
    ensures from { (k : ℕ) → k < length result.1.now → from ≤ slice_index result.1.now k }
    ensures upto { (k : ℕ) → k < length result.1.now → slice_index result.1.now k < upto }
    ensures all { (i : ℕ) → from ≤ i → i < upto → ((k : ℕ) → k < length result.1.now → slice_index result.1.now k ≢ i) → (q : ℕ) → q < length numbers.now → slice_index numbers.now q ≢ i }
{
    let (first, last) = places_between(numbers, from, upto);
    (first, &numbers[first..last])
}

/// So many rows are made ahead of all, to tell how many entries there may be.
const SAMPLED_ROWS: usize = 64;

/// Rows are sampled where they are so many or more, so one in 64 at most is made twice.
const MANY_ROWS: usize = 4096;

/// How many entries 64 rows have that stand far apart. They are made, and left. The first row is none of them, since it is often the
/// longest; and each stands one place further on in its part than the one before it, so that they are not all at the edge of a grid.
fn sampled_entries<T: Stored, R: RowMaker<T>>(
    maker: &R,
    work: &mut R::Work,
    columns: &mut [u32],
    values: &mut [T],
) -> usize
    requires some { 0 < length (R.listed maker.now) }
    requires ready { R.ready maker.now work.old }
    requires room { R.most maker.now ≤ length columns.old }
    requires room_same { length columns.old ≡ length values.old }
    ensures ready { R.ready maker.now work.new }
{
    let rows = maker.numbers().len();
    let apart = rows / SAMPLED_ROWS + 1;
    let mut count = 0usize;
    'sampled: for k in 0..SAMPLED_ROWS {
        let place = k
            .saturating_mul(apart)
            .saturating_add(apart / 2)
            .min(rows - 1);
        count = count.saturating_add(maker.make(place, work, columns, values));
    }
    count
}

/// How many entries all rows may have: a sixteenth more than those that are sampled tell, and `most` at most; `most`, where rows are not
/// many. It bears on memory alone, for lists grow as they are written.
fn expected_entries<T: Stored, R: RowMaker<T>>(
    maker: &R,
    work: &mut R::Work,
    columns: &mut [u32],
    values: &mut [T],
    most: usize,
) -> usize
    requires ready { R.ready maker.now work.old }
    requires room { R.most maker.now ≤ length columns.old }
    requires room_same { length columns.old ≡ length values.old }
    ensures ready { R.ready maker.now work.new }
    ensures most { result ≤ most }
{
    let rows = maker.numbers().len();
    if rows < MANY_ROWS {
        return most;
    }
    let sampled = sampled_entries(maker, work, columns, values);
    let each = sampled.saturating_add(sampled / 16);
    each.saturating_mul(rows / SAMPLED_ROWS + 1).min(most)
}

/// Makes room in a list for so many more elements, if that memory is there; else it grows as it is written.
fn make_room<U>(list: &mut Vec<U>, more: usize)
    ensures { list.new.items ≡ list.old.items }
{
    let _else_it_grows = list.reserve(more);
}

/// Makes room for so many rows and, of all rows of the product, for as many entries as `expected_entries` tells, for `most` at most. Does
/// nothing where there is an entry already, or `most` is 0.
fn reserve<T: Stored, R: RowMaker<T>>(
    made: &mut MadeRows<T>,
    maker: &R,
    work: &mut R::Work,
    columns: &mut [u32],
    values: &mut [T],
    rows: usize,
    most: usize,
)
    requires ready { R.ready maker.now work.old }
    requires room { R.most maker.now ≤ length columns.old }
    requires room_same { length columns.old ≡ length values.old }
    ensures ready { R.ready maker.now work.new }
    ensures rows { made.new.rows.items ≡ made.old.rows.items }
    ensures starts { made.new.starts.items ≡ made.old.starts.items }
    ensures columns { made.new.columns.items ≡ made.old.columns.items }
    ensures values { made.new.values.items ≡ made.old.values.items }
{
    if most == 0 || made.columns.len() > 0 {
        return;
    }
    let entries = expected_entries(maker, work, columns, values, most);
    make_room(&mut made.rows, rows);
    make_room(&mut made.starts, rows);
    make_room(&mut made.columns, entries);
    make_room(&mut made.values, entries);
}

/// The rows of the part, one after another, after those that are there. Takes memory to work in, and for the result, of which at first as
/// much is reserved as `reserve` tells, for `room` entries at most. `AllocError` where memory is refused; then nothing is made.
pub(crate) fn make_rows<T: Stored + Drop, R: RowMaker<T>>(
    alloc: Global,
    maker: &R,
    part: Part<T>,
    room: usize,
) -> Result<MadeRows<T>, AllocError>
    ensures { IfOk result (λ made. AreAppended T.value (flat_entries T.value part.made.rows.items part.made.starts.items part.made.columns.items part.made.values.items) part.from part.upto (R.makes maker.now) made.rows.items made.starts.items made.columns.items made.values.items) }
{
    let width = maker.width();
    let mut work = maker.work(alloc)?;
    let mut column_room = vec![in alloc; 0u32; width]?;
    let mut value_room = vec![in alloc; T::any(); width]?;
    let columns = column_room.as_mut_slice();
    let values = value_room.as_mut_slice();
    let (first, numbers) = numbers_between(maker.numbers(), part.from, part.upto);
    let mut made = part.made;
    reserve(
        &mut made,
        maker,
        &mut work,
        columns,
        values,
        numbers.len(),
        room,
    );
    'making: for k in 0..numbers.len() {
        let count = maker.make(first + k, &mut work, columns, values);
        push_row(&mut made, numbers[k], &columns[..count], &values[..count])?;
    }
    Ok(made)
}
