//! A value made of each row of a matrix.
ghost use Rattle.std.specs.Prelude.{◌≡◌, ◌<◌, ◌≤◌, ◌+◌, ℕ, [], cond, true, map, length, take, drop, slice_index, slice_index_or, Option, Some, None, All, IfOk, IsTrue};
ghost use Rattle.std.specs.List.{AllByRecursion};
ghost use Rattle.std.specs.Ordering.{nat_cmp};
ghost use Rattle.std.specs.FinMap.{is_sorted};
ghost use Rattle.grb_core.specs.declared.value.Value.{Value};
ghost use Rattle.grb_core.specs.Value.{IsValueOf};
ghost use Rattle.grb_core.specs.Monoid.{monoid_domain};
ghost use Rattle.grb_core.specs.Fold.{fold_of};
ghost use Rattle.grb_core.specs.Entries.{VectorEntries, restricted};
ghost use Rattle.grb_core.specs.Results.{each_row};
ghost use Rattle.grb_kernels.specs.Typed.{kept, entries_of, first_entries};
ghost use Rattle.grb_lists.specs.Cells.{decoded};
ghost use Rattle.grb_pull.specs.RowSums.{added, AreSums};
ghost use Rattle.grb_push.specs.Wanted.{is_wanted};

use grb_ewise::Stored;
use grb_kernels::{EntryList, Scalar, emit};
use grb_lists::FlatRows;
use grb_push::Wanted;
use grb_semirings::MonoidOver;
use std::alloc::{AllocError, Global};

/// What is made of each row of a matrix.
pub(crate) trait RowRule<T: Scalar> {
    /// Columns below this can be read.
    ghost reads: { Self → ℕ };

    /// The value that is made of a row, if there is one.
    ghost gives: { Self → VectorEntries → Option Value };

    /// Makes it of a row, which stands from one place up to another among all columns and values: a value, and whether it is kept. The row
    /// has entries.
    fn row(&self, columns: &[u32], values: &[T], start: usize, end: usize) -> (T, bool)
        requires same { length columns.now ≡ length values.now }
        requires some { start < end }
        requires within { end ≤ length columns.now }
        requires in_range { All (λ c. c < reads self.now) columns.now }
        ensures { kept (T.value result.0) result.1 ≡ gives self.now (entries_of T.value (drop start (take end columns.now)) (drop start (take end values.now))) };

    /// Of a row without entries nothing is made.
    ghost none: { (rule : Self) → gives rule [] ≡ None };
}

/// What is made of each row by the sum of what its entries add, by a monoid as a type.
pub(crate) trait SumRule<T: Scalar, M: MonoidOver<T>>: RowRule<T> {
    /// What an entry of a row, by its column and its value, adds to the sum.
    ghost adds: { Self → ℕ × Value → Value };

    /// What an entry adds.
    fn term(&self, column: u32, value: T) -> T
        requires in_range { column < Self.reads self.now }
        ensures is { T.value result ≡ adds self.now (column, T.value value) }
        ensures of_domain { IsValueOf (monoid_domain M.monoid) (T.value result) };

    /// Whether a row has a value, which then is its sum. The row stands from one place up to another, and has entries.
    fn is_kept(&self, columns: &[u32], values: &[T], start: usize, end: usize, sum: T) -> bool
        requires same { length columns.now ≡ length values.now }
        requires some { start < end }
        requires within { end ≤ length columns.now }
        requires in_range { All (λ c. c < Self.reads self.now) columns.now }
        requires of_domain { AllByRecursion (IsValueOf (monoid_domain M.monoid)) (added T.value (adds self.now) columns.now values.now start end) }
        requires is_sum { T.value sum ≡ fold_of M.monoid (added T.value (adds self.now) columns.now values.now start end) }
        ensures { kept (T.value sum) result ≡ Self.gives self.now (entries_of T.value (drop start (take end columns.now)) (drop start (take end values.now))) };
}

/// What is made of each row, where each row that has entries has a value.
pub(crate) trait WholeRule<T: Scalar>: RowRule<T> {
    /// The value of a row, which stands from one place up to another among all columns and values. The row has entries.
    fn value(&self, columns: &[u32], values: &[T], start: usize, end: usize) -> T
        requires same { length columns.now ≡ length values.now }
        requires some { start < end }
        requires within { end ≤ length columns.now }
        requires in_range { All (λ c. c < Self.reads self.now) columns.now }
        ensures { Some (T.value result) ≡ Self.gives self.now (entries_of T.value (drop start (take end columns.now)) (drop start (take end values.now))) };
}

/// Where the entries of the `k`th row end: where the next one starts, or else at the end of all.
fn end_of(starts: &[usize], k: usize, len: usize) -> usize
    requires among { k < length starts.now }
    requires rise { (i j : ℕ) → i < j → j < length starts.now → slice_index starts.now i < slice_index starts.now j }
    requires inside { (i : ℕ) → i < length starts.now → slice_index starts.now i < len }
    ensures after { slice_index starts.now k < result }
    ensures within { result ≤ len }
    ensures is { result ≡ slice_index_or starts.now (k + 1) len }
{
    if k + 1 < starts.len() {
        return starts[k + 1];
    }
    len
}

/// What a rule makes of a row, where it is wanted.
fn made_of<T: Stored, R: RowRule<T>>(
    rule: &R,
    wanted: bool,
    columns: &[u32],
    values: &[T],
    start: usize,
    end: usize,
) -> (T, bool)
    requires same { length columns.now ≡ length values.now }
    requires some { start < end }
    requires within { end ≤ length columns.now }
    requires in_range { All (λ c. c < R.reads rule.now) columns.now }
    ensures { kept (T.value result.0) result.1 ≡ cond wanted (R.gives rule.now (entries_of T.value (drop start (take end columns.now)) (drop start (take end values.now)))) None }
{
    if wanted {
        return rule.row(columns, values, start, end);
    }
    (T::any(), false)
}

/// Makes a value of each row that is wanted, written to the front of `indices` and `results`. Answers how many there are.
fn make_rows<T: Stored, R: RowRule<T>>(
    rule: &R,
    lists: &FlatRows,
    wanted: &Wanted,
    indices: &mut [u32],
    results: &mut [T],
) -> usize
    requires domain { lists.now.domain ≡ T.domain }
    requires in_range { All (λ e. e.0.1 < R.reads rule.now) (decoded lists.now.entries) }
    requires room { length lists.now.rows ≤ length indices.old }
    requires room_same { length indices.old ≡ length results.old }
    ensures entries { first_entries T.value result indices.new results.new ≡ restricted (is_wanted wanted.now.among wanted.now.names.now) (each_row (R.gives rule.now) (decoded lists.now.entries)) }
    ensures rising { IsTrue (is_sorted nat_cmp (first_entries T.value result indices.new results.new)) }
    ensures most { result ≤ length lists.now.rows }
{
    let rows = lists.rows();
    let starts = lists.starts();
    let columns = lists.columns();
    let values = T::of_lists(lists);
    let mut from = 0;
    let mut k = 0;
    'rows: for place in 0..rows.len() {
        let (wants, reached) = wanted.wants(from, rows[place]);
        from = reached;
        let end = end_of(starts, place, columns.len());
        let (value, keep) = made_of(rule, wants, columns, values, starts[place], end);
        k = emit(indices, results, k, rows[place], value, keep);
    }
    k
}

/// What the rule makes of each row that is wanted. Takes memory for as many entries as there are rows that store something. `AllocError`
/// where that is refused; then nothing is made.
pub(crate) fn made_rows<T: Stored + Drop, R: RowRule<T>>(
    alloc: Global,
    rule: &R,
    lists: &FlatRows,
    wanted: &Wanted,
) -> Result<EntryList<T>, AllocError>
    requires domain { lists.now.domain ≡ T.domain }
    requires in_range { All (λ e. e.0.1 < R.reads rule.now) (decoded lists.now.entries) }
    ensures { IfOk result (λ made. entries_of T.value made.indices.items made.values.items ≡ restricted (is_wanted wanted.now.among wanted.now.names.now) (each_row (R.gives rule.now) (decoded lists.now.entries))) }
{
    let room = lists.rows().len();
    let mut indices = vec![in alloc; 0u32; room]?;
    let mut values = vec![in alloc; T::any(); room]?;
    let count = make_rows(
        rule,
        lists,
        wanted,
        indices.as_mut_slice(),
        values.as_mut_slice(),
    );
    indices.truncate(count);
    values.truncate(count);
    Ok(EntryList { indices, values })
}

/// Writes the value of each row at its place among those that have entries.
fn write_values<T: Stored, R: WholeRule<T>>(rule: &R, lists: &FlatRows, results: &mut [T])
    requires domain { lists.now.domain ≡ T.domain }
    requires in_range { All (λ e. e.0.1 < R.reads rule.now) (decoded lists.now.entries) }
    requires room { length results.old ≡ length lists.now.rows }
    ensures { entries_of T.value lists.now.rows results.new ≡ each_row (R.gives rule.now) (decoded lists.now.entries) }
{
    let rows = lists.rows();
    let starts = lists.starts();
    let columns = lists.columns();
    let values = T::of_lists(lists);
    'rows: for place in 0..rows.len() {
        let end = end_of(starts, place, columns.len());
        results[place] = rule.value(columns, values, starts[place], end);
    }
}

/// The same as `made_rows`, where each row that has entries has a value: if all rows are wanted, their numbers are copied as they lie, and
/// each value is written at its place. `AllocError` where memory is refused; then nothing is made.
pub(crate) fn whole_rows<T: Stored + Drop, R: WholeRule<T>>(
    alloc: Global,
    rule: &R,
    lists: &FlatRows,
    wanted: &Wanted,
) -> Result<EntryList<T>, AllocError>
    requires domain { lists.now.domain ≡ T.domain }
    requires in_range { All (λ e. e.0.1 < R.reads rule.now) (decoded lists.now.entries) }
    ensures { IfOk result (λ made. entries_of T.value made.indices.items made.values.items ≡ restricted (is_wanted wanted.now.among wanted.now.names.now) (each_row (R.gives rule.now) (decoded lists.now.entries))) }
{
    if !wanted.is_all() {
        let made = made_rows(alloc, rule, lists, wanted)?;
        return Ok(made);
    }
    let rows = lists.rows();
    let indices = Vec::from_slice(alloc, rows)?;
    let mut values = vec![in alloc; T::any(); rows.len()]?;
    write_values(rule, lists, values.as_mut_slice());
    Ok(EntryList { indices, values })
}

/// The sums of so many entries are kept at once, at most: a list that stays near at hand.
const WINDOW: usize = 1024;

/// Writes the sums of what the entries from one place on add: first that of none, then that of one, and so on, as far as there is room.
/// Answers the place up to which they reach.
fn fill_sums<T: Stored, M: MonoidOver<T>, R: SumRule<T, M>>(
    rule: &R,
    columns: &[u32],
    values: &[T],
    from: usize,
    sums: &mut [T],
) -> usize
    requires same { length columns.now ≡ length values.now }
    requires in_range { All (λ c. c < R.reads rule.now) columns.now }
    requires from { from ≤ length columns.now }
    requires some { 0 < length sums.old }
    ensures after { from ≤ result }
    ensures within { result ≤ length columns.now }
    ensures room { result < from + length sums.new }
    ensures sums { AreSums M.monoid T.value (R.adds rule.now) columns.now values.now from result sums.new }
{
    let upto = from + (columns.len() - from).min(sums.len() - 1);
    let mut sum = M::identity();
    sums[0] = sum;
    let mut at = 0;
    'entries: while at < upto - from {
        let place = from + at;
        let term = rule.term(columns[place], values[place]);
        sum = M::add(sum, term);
        at += 1;
        sums[at] = sum;
    }
    upto
}

/// Sees to it that the sums reach the end of a row, if it is not longer than all of them: else they begin anew, where the row does. Answers
/// from which place up to which they are.
fn reach<T: Stored, M: MonoidOver<T>, R: SumRule<T, M>>(
    rule: &R,
    columns: &[u32],
    values: &[T],
    start: usize,
    end: usize,
    from: usize,
    upto: usize,
    sums: &mut [T],
) -> (usize, usize)
    requires same { length columns.now ≡ length values.now }
    requires in_range { All (λ c. c < R.reads rule.now) columns.now }
    requires some { start < end }
    requires end { end ≤ length columns.now }
    requires order { from ≤ start }
    requires within { upto ≤ length columns.now }
    requires room { upto < from + length sums.old }
    requires sums { AreSums M.monoid T.value (R.adds rule.now) columns.now values.now from upto sums.old }
    ensures order { result.0 ≤ start }
    ensures within { result.1 ≤ length columns.now }
    ensures room { result.1 < result.0 + length sums.new }
    ensures sums { AreSums M.monoid T.value (R.adds rule.now) columns.now values.now result.0 result.1 sums.new }
{
    if upto < end && end - start < sums.len() {
        let reached = fill_sums::<T, M, R>(rule, columns, values, start, sums);
        return (start, reached);
    }
    (from, upto)
}

/// What is made of a row, by the sums at its ends where they are known, and where the monoid tells their difference.
fn summed_row<T: Stored, M: MonoidOver<T>, R: SumRule<T, M>>(
    rule: &R,
    columns: &[u32],
    values: &[T],
    start: usize,
    end: usize,
    from: usize,
    upto: usize,
    sums: &[T],
) -> (T, bool)
    requires same { length columns.now ≡ length values.now }
    requires in_range { All (λ c. c < R.reads rule.now) columns.now }
    requires some { start < end }
    requires end { end ≤ length columns.now }
    requires order { from ≤ start }
    requires within { upto ≤ length columns.now }
    requires room { upto < from + length sums.now }
    requires sums { AreSums M.monoid T.value (R.adds rule.now) columns.now values.now from upto sums.now }
    ensures { kept (T.value result.0) result.1 ≡ R.gives rule.now (entries_of T.value (drop start (take end columns.now)) (drop start (take end values.now))) }
{
    if end <= upto {
        let first = start - from;
        let last = end - from;
        match M::difference(sums[last], sums[first]) {
            Some(sum) => return (sum, rule.is_kept(columns, values, start, end, sum)),
            None => {}
        }
    }
    rule.row(columns, values, start, end)
}

/// Makes a value of each row, where all are wanted, by differences of sums, for which there is a work list.
fn make_summed_rows<T: Stored, M: MonoidOver<T>, R: SumRule<T, M>>(
    rule: &R,
    lists: &FlatRows,
    wanted: &Wanted,
    sums: &mut [T],
    indices: &mut [u32],
    results: &mut [T],
) -> usize
    requires domain { lists.now.domain ≡ T.domain }
    requires in_range { All (λ e. e.0.1 < R.reads rule.now) (decoded lists.now.entries) }
    requires room { length lists.now.rows ≤ length indices.old }
    requires room_same { length indices.old ≡ length results.old }
    requires all { (q : ℕ) → is_wanted wanted.now.among wanted.now.names.now q ≡ true }
    requires some { 0 < length sums.old }
    ensures entries { first_entries T.value result indices.new results.new ≡ restricted (is_wanted wanted.now.among wanted.now.names.now) (each_row (R.gives rule.now) (decoded lists.now.entries)) }
    ensures rising { IsTrue (is_sorted nat_cmp (first_entries T.value result indices.new results.new)) }
    ensures most { result ≤ length lists.now.rows }
{
    let rows = lists.rows();
    let starts = lists.starts();
    let columns = lists.columns();
    let values = T::of_lists(lists);
    let mut from = 0;
    let mut upto = fill_sums::<T, M, R>(rule, columns, values, from, sums);
    let mut k = 0;
    'rows: for place in 0..rows.len() {
        let start = starts[place];
        let end = end_of(starts, place, columns.len());
        let (first, reached) = reach::<T, M, R>(
            rule, columns, values, start, end, from, upto, sums,
        );
        from = first;
        upto = reached;
        let (value, keep) = summed_row::<T, M, R>(
            rule, columns, values, start, end, from, upto, sums,
        );
        k = emit(indices, results, k, rows[place], value, keep);
    }
    k
}

/// Whether a monoid tells what a sum has beyond a part of it.
pub(crate) fn tells_differences<T: Scalar, M: MonoidOver<T>>() -> bool {
    M::difference(M::identity(), M::identity()).is_some()
}

/// The same as `made_rows`, by differences of sums where all rows are wanted and the monoid tells differences: then the ends of rows cost
/// little, however unlike their lengths are. Then it takes memory for a work list beside: of one value more than there are entries, and of
/// 1,025 at most. `AllocError` where memory is refused; then nothing is made.
pub(crate) fn summed_rows<T: Stored + Drop, M: MonoidOver<T>, R: SumRule<T, M>>(
    alloc: Global,
    rule: &R,
    lists: &FlatRows,
    wanted: &Wanted,
) -> Result<EntryList<T>, AllocError>
    requires domain { lists.now.domain ≡ T.domain }
    requires in_range { All (λ e. e.0.1 < R.reads rule.now) (decoded lists.now.entries) }
    ensures { IfOk result (λ made. entries_of T.value made.indices.items made.values.items ≡ restricted (is_wanted wanted.now.among wanted.now.names.now) (each_row (R.gives rule.now) (decoded lists.now.entries))) }
{
    if !wanted.is_all() || !tells_differences::<T, M>() {
        let made = made_rows(alloc, rule, lists, wanted)?;
        return Ok(made);
    }
    let room = lists.rows().len();
    let mut sums = vec![in alloc; M::identity(); lists.len().min(WINDOW) + 1]?;
    let mut indices = vec![in alloc; 0u32; room]?;
    let mut values = vec![in alloc; T::any(); room]?;
    let count = make_summed_rows::<T, M, R>(
        rule,
        lists,
        wanted,
        sums.as_mut_slice(),
        indices.as_mut_slice(),
        values.as_mut_slice(),
    );
    indices.truncate(count);
    values.truncate(count);
    Ok(EntryList { indices, values })
}

/// Where rows have this many entries on average, or more, the end of a row that is guessed badly is dearer than some values too many.
const SHORT: usize = 6;

/// So many rows are looked at to tell whether their lengths are unlike.
const LOOKED_AT: usize = 64;

/// Whether rows of unlike lengths seem to follow each other, so that where a row ends is guessed badly.
pub(crate) fn seem_unlike(lists: &FlatRows) -> bool {
    let starts = lists.starts();
    let mut changes = 0usize;
    'rows: for k in 2..starts.len().min(LOOKED_AT) {
        let before = starts[k - 1].wrapping_sub(starts[k - 2]);
        let here = starts[k].wrapping_sub(starts[k - 1]);
        changes = changes.wrapping_add(usize::from(before != here));
    }
    (lists.rows().len() <= lists.len() / SHORT) & (changes > starts.len().min(LOOKED_AT) / 4)
}
