//! Two matrices made into one, row by row.
ghost use Rattle.std.specs.Prelude.{◌≡◌, ◌+◌, ◌<◌, ◌≤◌, ◌^◌, ◌++◌, ℕ, [], ◌∷◌, length, take, drop, slice_index, true, false, All, IsTrue, IfOk, OnOk};
ghost use Rattle.std.specs.Ordering.{nat_cmp};
ghost use Rattle.std.specs.FinMap.{is_sorted};
ghost use Rattle.std.specs.Vec.{vec_len, vec_capacity};
ghost use Rattle.grb_core.specs.Value.{IsValueOf};
ghost use Rattle.grb_core.specs.Entries.{cell_cmp};
ghost use Rattle.grb_core.specs.Written.{pointwise};
ghost use Rattle.grb_core.specs.Results.{row_of};
ghost use Rattle.grb_kernels.specs.Merging.{most_of};
ghost use Rattle.grb_kernels.specs.Typed.{entries_of};
ghost use Rattle.grb_lists.specs.Cells.{decoded, IsFlat};
ghost use Rattle.grb_ewise.specs.Marks.{AreClear};
ghost use Rattle.grb_ewise.specs.Rows.{flat_entries};

use crate::marks::{Laid, is_cut, lay_common, marks_for};
use crate::stored::Stored;
use crate::typed_rows::TypedRows;
use grb_kernels::{EntrySlice, Rule, merge, most_entries};
use grb_sparse::FlatRows;
use std::alloc::{AllocError, Global};

/// The number of the row at a cursor; past the last row a number above all.
fn number_at(rows: &[u32], i: usize) -> u64
    ensures number { i < length rows.now → result ≡ slice_index rows.now i }
    ensures fits { i < length rows.now → result < 2 ^ 32 }
    ensures past { length rows.now ≤ i → result ≡ 2 ^ 32 }
{
    if i < rows.len() {
        rows[i] as u64
    } else {
        0x1_0000_0000
    }
}

/// Whether a number is not above another.
fn is_upto(p: u64, q: u64) -> bool
    ensures upto { result ≡ true → p ≤ q }
    ensures above { result ≡ false → q < p }
{
    p <= q
}

/// The lower of two row numbers, one of which is that of a row.
fn lower(p: u64, q: u64) -> u32
    requires left { p ≤ q → p < 2 ^ 32 }
    requires right { q ≤ p → q < 2 ^ 32 }
    ensures left { p ≤ q → result ≡ p }
    ensures right { q ≤ p → result ≡ q }
{
    if p <= q { p as u32 } else { q as u32 }
}

/// The row at a cursor, if it is its turn, and where the cursor then stands; no entries and the same cursor, if it is not.
fn take_row<'a, T: Stored>(
    rows: &TypedRows<'a, T>,
    i: usize,
    here: bool,
) -> (EntrySlice<'a, T>, usize)
    requires at { here ≡ true → i < length rows.now.lists.now.rows }
    requires few { i < 2 ^ 63 }
    ensures row { here ≡ true → entries_of T.value result.0.indices.now result.0.values.now ≡ row_of (slice_index rows.now.lists.now.rows i) (decoded rows.now.lists.now.entries) }
    ensures on { here ≡ true → result.1 ≡ i + 1 }
    ensures none { here ≡ false → result.0.indices.now ≡ [] }
    ensures stays { here ≡ false → result.1 ≡ i }
{
    if here {
        return (T::row(rows.lists, i), i + 1);
    }
    let nothing = EntrySlice {
        indices: &[],
        values: &[],
    };
    (nothing, i)
}

/// Writes what the rule makes of two rows after the first `k` columns and values. Answers how many entries it has.
fn merge_row<T: Stored, U: Stored, R: Rule<T, U>>(
    rule: &R,
    x: &EntrySlice<T>,
    y: &EntrySlice<U>,
    columns: &mut [u32],
    values: &mut [T],
    k: usize,
) -> usize
    requires room { k + most_of (R.left rule.now) (R.right rule.now) (length x.now.indices.now) (length y.now.indices.now) ≤ length columns.old }
    requires same { length columns.old ≡ length values.old }
    ensures columns_before { take k columns.new ≡ take k columns.old }
    ensures values_before { take k values.new ≡ take k values.old }
    ensures entries { entries_of T.value (take result (drop k columns.new)) (take result (drop k values.new)) ≡ pointwise nat_cmp (R.gives rule.now) (entries_of T.value x.now.indices.now x.now.values.now) (entries_of U.value y.now.indices.now y.now.values.now) }
    ensures most { result ≤ most_of (R.left rule.now) (R.right rule.now) (length x.now.indices.now) (length y.now.indices.now) }
{
    merge(
        rule,
        x.indices,
        x.values,
        y.indices,
        y.values,
        &mut columns[k..],
        &mut values[k..],
    )
}

/// How many places are made ahead, where there is room for them.
const AHEAD: usize = 4096;

/// Makes two lists at least so long, where they are shorter: then by some 4,096 places more at once, if there is room for these.
/// `AllocError` where memory is refused; then one of them may be longer than before.
pub(crate) fn lengthen<T: Stored>(
    columns: &mut Vec<u32>,
    values: &mut Vec<T>,
    len: usize,
) -> Result<(), AllocError>
    requires same { length columns.old.items ≡ length values.old.items }
    ensures same { OnOk result (length values.new.items ≡ length columns.new.items) }
    ensures long { OnOk result (len ≤ length columns.new.items) }
    ensures columns_before { OnOk result (take (length columns.old.items) columns.new.items ≡ columns.old.items) }
    ensures values_before { OnOk result (take (length columns.old.items) values.new.items ≡ values.old.items) }
{
    if len <= columns.len() {
        return Ok(());
    }
    let ahead = len.max(columns.capacity().min(len.saturating_add(AHEAD)));
    columns.resize(ahead, 0)?;
    values.resize(ahead, T::any())?;
    Ok(())
}

/// Writes what the rule makes of two rows after the first `k` columns and values, and answers how many entries that is. The lists are made
/// longer, where they have no places for as many as it may be. `AllocError` where memory is refused.
fn write_row<T: Stored, U: Stored, R: Rule<T, U>>(
    rule: &R,
    x: &EntrySlice<T>,
    y: &EntrySlice<U>,
    columns: &mut Vec<u32>,
    values: &mut Vec<T>,
    k: usize,
) -> Result<usize, AllocError>
    requires same { length columns.old.items ≡ length values.old.items }
    requires within { k ≤ length columns.old.items }
    ensures same { OnOk result (length values.new.items ≡ length columns.new.items) }
    ensures columns_before { OnOk result (take k columns.new.items ≡ take k columns.old.items) }
    ensures values_before { OnOk result (take k values.new.items ≡ take k values.old.items) }
    ensures within { IfOk result (λ count. k + count ≤ length columns.new.items) }
    ensures entries { IfOk result (λ count. entries_of T.value (take count (drop k columns.new.items)) (take count (drop k values.new.items)) ≡ pointwise nat_cmp (R.gives rule.now) (entries_of T.value x.now.indices.now x.now.values.now) (entries_of U.value y.now.indices.now y.now.values.now)) }
    ensures fit { OnOk result ((n : ℕ) → n < length columns.new.items → slice_index columns.new.items n < 2 ^ 32) }
{
    let most = most_entries::<T, U, R>(rule, x.indices.len(), y.indices.len());
    lengthen(columns, values, k.saturating_add(most))?;
    let (open_columns, open_values) = (columns.as_mut_slice(), values.as_mut_slice());
    let count = merge_row(rule, x, y, open_columns, open_values, k);
    Ok(count)
}

/// Writes what the rule makes of two rows after the first `k` columns and values, as `write_row` does, and answers how many entries that is.
/// A row that is cut (`is_cut`) is laid first, without its entries at other columns than those of the second row: for that no order of two
/// columns is guessed. `AllocError` where memory is refused; then the lists may be longer than before.
///
/// - `marks`: one for each column, or none; none is set, before and after.
/// - `laid`: lists for a row that is cut, of one length. What stands in them is any.
fn append_row<T: Stored, U: Stored, R: Rule<T, U>>(
    rule: &R,
    x: &EntrySlice<T>,
    y: &EntrySlice<U>,
    columns: &mut Vec<u32>,
    values: &mut Vec<T>,
    k: usize,
    marks: &mut [bool],
    laid: &mut Laid<T>,
) -> Result<usize, AllocError>
    requires same { length columns.old.items ≡ length values.old.items }
    requires within { k ≤ length columns.old.items }
    requires clear { AreClear marks.old }
    requires laid { length laid.old.columns.items ≡ length laid.old.values.items }
    ensures same { OnOk result (length values.new.items ≡ length columns.new.items) }
    ensures columns_before { OnOk result (take k columns.new.items ≡ take k columns.old.items) }
    ensures values_before { OnOk result (take k values.new.items ≡ take k values.old.items) }
    ensures within { IfOk result (λ count. k + count ≤ length columns.new.items) }
    ensures entries { IfOk result (λ count. entries_of T.value (take count (drop k columns.new.items)) (take count (drop k values.new.items)) ≡ pointwise nat_cmp (R.gives rule.now) (entries_of T.value x.now.indices.now x.now.values.now) (entries_of U.value y.now.indices.now y.now.values.now)) }
    ensures fit { OnOk result ((n : ℕ) → n < length columns.new.items → slice_index columns.new.items n < 2 ^ 32) }
    ensures clear { AreClear marks.new }
    ensures laid { OnOk result (length laid.new.columns.items ≡ length laid.new.values.items) }
{
    if is_cut(rule, x, y, &*marks, &*laid) {
        let n = lay_common(x, y, marks, laid)?;
        let cut = EntrySlice {
            indices: &laid.columns[..n],
            values: &laid.values[..n],
        };
        let count = write_row(rule, &cut, y, columns, values, k)?;
        return Ok(count);
    }
    let count = write_row(rule, x, y, columns, values, k)?;
    Ok(count)
}

/// Puts a row after those so far, where it has entries, the first of which is the `start`th of all.
fn push_row(rows: &mut Vec<u32>, starts: &mut Vec<usize>, row: u32, start: usize, count: usize)
    requires rows_room { vec_len rows.old < vec_capacity rows.old }
    requires starts_room { vec_len starts.old < vec_capacity starts.old }
    ensures rows_pushed { 0 < count → rows.new.items ≡ rows.old.items ++ row ∷ [] }
    ensures starts_pushed { 0 < count → starts.new.items ≡ starts.old.items ++ start ∷ [] }
    ensures rows_same { count ≡ 0 → rows.new.items ≡ rows.old.items }
    ensures starts_same { count ≡ 0 → starts.new.items ≡ starts.old.items }
    ensures rows_most { vec_len rows.new ≤ vec_len rows.old + 1 }
    ensures starts_most { vec_len starts.new ≤ vec_len starts.old + 1 }
    ensures rows_capacity { vec_capacity rows.new ≡ vec_capacity rows.old }
    ensures starts_capacity { vec_capacity starts.new ≡ vec_capacity starts.old }
{
    if count > 0 {
        rows.push_reserved(row);
        starts.push_reserved(start);
    }
}

/// Puts what the rule makes of two matrices into empty lists, row by row: each row by the two cursors over the rows of both. `AllocError`
/// where memory is refused; then a part may stand in the lists. `marks` and `laid` are as in `append_row`.
fn fill_rows<T: Stored, U: Stored, R: Rule<T, U>>(
    rule: &R,
    a: &TypedRows<T>,
    b: &TypedRows<U>,
    rows: &mut Vec<u32>,
    starts: &mut Vec<usize>,
    columns: &mut Vec<u32>,
    values: &mut Vec<T>,
    marks: &mut [bool],
    laid: &mut Laid<T>,
) -> Result<(), AllocError>
    requires no_rows { rows.old.items ≡ [] }
    requires no_starts { starts.old.items ≡ [] }
    requires no_columns { columns.old.items ≡ [] }
    requires no_values { values.old.items ≡ [] }
    requires clear { AreClear marks.old }
    requires laid { length laid.old.columns.items ≡ length laid.old.values.items }
    requires rows_room { length a.now.lists.now.rows + length b.now.lists.now.rows ≤ vec_capacity rows.old }
    requires starts_room { length a.now.lists.now.rows + length b.now.lists.now.rows ≤ vec_capacity starts.old }
    ensures flat { OnOk result (IsFlat rows.new.items starts.new.items columns.new.items) }
    ensures same { OnOk result (length values.new.items ≡ length columns.new.items) }
    ensures entries { OnOk result (flat_entries T.value rows.new.items starts.new.items columns.new.items values.new.items ≡ pointwise cell_cmp (R.gives rule.now) (decoded a.now.lists.now.entries) (decoded b.now.lists.now.entries)) }
    ensures ordered { OnOk result (IsTrue (is_sorted cell_cmp (flat_entries T.value rows.new.items starts.new.items columns.new.items values.new.items))) }
{
    let rows_a = a.lists.rows();
    let rows_b = b.lists.rows();
    let total = rows_a.len() + rows_b.len();
    let mut i = 0;
    let mut j = 0;
    // How many entries there are so far; the lists may be longer.
    let mut k = 0;
    'merging: while i + j < total {
        let p = number_at(rows_a, i);
        let q = number_at(rows_b, j);
        let (x, next_i) = take_row::<T>(&*a, i, is_upto(p, q));
        let (y, next_j) = take_row::<U>(&*b, j, is_upto(q, p));
        let count = append_row(rule, &x, &y, columns, values, k, marks, laid)?;
        push_row(rows, starts, lower(p, q), k, count);
        i = next_i;
        j = next_j;
        k += count;
    }
    columns.truncate(k);
    values.truncate(k);
    Ok(())
}

/// The map that the rule makes of two matrices. Memory is reserved for as many entries as it has at most and as many rows as both have;
/// of what is not written of it no more than some 4,096 places are touched. Where rows may be cut, memory is taken for marks of columns and
/// for a row too. `AllocError` where any is refused; then nothing is made.
///
/// - `ncols`: how many columns the matrices have. Rows are cut only at columns below that.
pub(crate) fn merge_rows<T: Stored + Drop, U: Stored, R: Rule<T, U>>(
    alloc: Global,
    rule: &R,
    ncols: u64,
    a: &TypedRows<T>,
    b: &TypedRows<U>,
) -> Result<FlatRows, AllocError>
    ensures entries { IfOk result (λ made. decoded made.entries ≡ pointwise cell_cmp (R.gives rule.now) (decoded a.now.lists.now.entries) (decoded b.now.lists.now.entries)) }
    ensures ordered { IfOk result (λ made. IsTrue (is_sorted cell_cmp (decoded made.entries))) }
    ensures domain { IfOk result (λ made. made.domain ≡ T.domain) }
    ensures of_domain { IfOk result (λ made. All (λ e. IsValueOf T.domain e.1) (decoded made.entries)) }
{
    let room = most_entries::<T, U, R>(rule, a.lists.len(), b.lists.len());
    let rows_room = a.lists.rows().len() + b.lists.rows().len();
    let mut rows = Vec::with_capacity(alloc, rows_room)?;
    let mut starts = Vec::with_capacity(alloc, rows_room)?;
    let mut columns = Vec::with_capacity(alloc, room)?;
    let mut values = Vec::with_capacity(alloc, room)?;
    let keeps = rule.keeps_left() || rule.keeps_right();
    let entries = a.lists.len().saturating_add(b.lists.len());
    let mut marks = marks_for(alloc, keeps, ncols, a.lists.columns(), entries)?;
    let mut laid = Laid {
        columns: Vec::new(alloc),
        values: Vec::new(alloc),
        tried: 0,
        left: 0,
    };
    fill_rows(
        rule,
        a,
        b,
        &mut rows,
        &mut starts,
        &mut columns,
        &mut values,
        marks.as_mut_slice(),
        &mut laid,
    )?;
    T::show(values.as_slice());
    Ok(T::keep(rows, starts, columns, values))
}
