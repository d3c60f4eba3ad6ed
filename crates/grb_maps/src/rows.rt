//! What is made of each entry of a matrix, row by row.
ghost use Rattle.std.specs.Prelude.{◌≡◌, ◌+◌, ◌<◌, ◌≤◌, ◌^◌, ◌++◌, ℕ, [], ◌∷◌, length, map, take, drop, slice_index, slice_index_or, true, All, IsTrue, IfOk};
ghost use Rattle.std.specs.FinMap.{is_sorted};
ghost use Rattle.std.specs.Vec.{vec_len, vec_capacity};
ghost use Rattle.grb_core.specs.Value.{IsValueOf};
ghost use Rattle.grb_core.specs.Entries.{cell_cmp, values_of};
ghost use Rattle.grb_core.specs.Results.{row_of};
ghost use Rattle.grb_kernels.specs.Typed.{entries_of};
ghost use Rattle.grb_lists.specs.Cells.{decoded, in_row, IsFlat};
ghost use Rattle.grb_lists.specs.Stored.{row_entries, started_at};
ghost use Rattle.grb_ewise.specs.Rows.{flat_entries};
ghost use Rattle.grb_core.specs.Each.{each_made};

use crate::each::{Each, make_row};
use grb_ewise::Stored;
use grb_kernels::EntrySlice;
use grb_lists::FlatRows;
use std::alloc::{AllocError, Global};

/// Writes what is made of a row after the first `k` columns and values. Answers how many entries it has.
fn make_after<T: Stored, E: Each<T>>(
    each: &E,
    row: &EntrySlice<T>,
    columns: &mut [u32],
    values: &mut [T],
    k: usize,
) -> usize
    requires room { k + length row.now.indices.now ≤ length columns.old }
    requires same { length columns.old ≡ length values.old }
    ensures columns_before { take k columns.new ≡ take k columns.old }
    ensures values_before { take k values.new ≡ take k values.old }
    ensures entries { entries_of T.value (take result (drop k columns.new)) (take result (drop k values.new)) ≡ each_made (E.gives each.now) (entries_of T.value row.now.indices.now row.now.values.now) }
    ensures most { result ≤ length row.now.indices.now }
    ensures fit { (n : ℕ) → n < length columns.new → slice_index columns.new n < 2 ^ 32 }
{
    make_row(
        each,
        row.indices,
        row.values,
        &mut columns[k..],
        &mut values[k..],
    )
}

/// Puts a row after those so far, where it has entries, the first of which is the `start`th of all. Takes no memory.
///
/// Source: own.
pub fn push_row(rows: &mut Vec<u32>, starts: &mut Vec<usize>, row: u32, start: usize, count: usize)
    requires rows_room { vec_len rows.old < vec_capacity rows.old }
    requires starts_room { vec_len starts.old < vec_capacity starts.old }
    ensures rows_pushed { 0 < count → rows.new.items ≡ rows.old.items ++ row ∷ [] }
    ensures starts_pushed { 0 < count → starts.new.items ≡ starts.old.items ++ start ∷ [] }
    ensures rows_same { count ≡ 0 → rows.new.items ≡ rows.old.items }
    ensures starts_same { count ≡ 0 → starts.new.items ≡ starts.old.items }
    ensures rows_most { vec_len rows.new ≤ vec_len rows.old + 1 }
    ensures starts_most { vec_len starts.new ≤ vec_len starts.old + 1 }
    ensures rows_capacity { vec_capacity rows.new ≡ vec_capacity rows.old }
    ensures starts_capacity { vec_capacity starts.new ≡ vec_capacity starts.old }
{
    if count > 0 {
        rows.push_reserved(row);
        starts.push_reserved(start);
    }
}

/// The entries of the `k`th row that has some, from the lists of a matrix and where its rows start.
#[inline(always)]
fn row_between<'a, T: Stored>(
    lists: &'a FlatRows,
    starts: &'a [usize],
    columns: &'a [u32],
    values: &'a [T],
    k: usize,
) -> EntrySlice<'a, T>
    requires at { k < length lists.now.rows }
    requires ordered { IsTrue (is_sorted cell_cmp (decoded lists.now.entries)) }
    requires len { length starts.now ≡ length lists.now.rows }
    requires rise { (i j : ℕ) → i < j → j < length starts.now → slice_index starts.now i < slice_index starts.now j }
    requires within { (i : ℕ) → i < length starts.now → slice_index starts.now i < length lists.now.entries }
    requires spans { (i : ℕ) → i < length lists.now.rows → row_entries lists.now i ≡ in_row (started_at starts.now i lists.now.entries) }
    requires columns { columns.now ≡ map (λ e. e.0.1) (decoded lists.now.entries) }
    requires values { map T.value values.now ≡ values_of lists.now.entries }
    ensures { entries_of T.value result.indices.now result.values.now ≡ row_of (slice_index lists.now.rows k) (decoded lists.now.entries) }
{
    let start = starts[k];
    let end = end_of(starts, k, lists.len());
    let indices = &columns[start..end];
    let of_row = &values[start..end];
    EntrySlice {
        indices,
        values: of_row,
    }
}

/// Where the entries of a row end: where the next one starts, or else at the end of all.
#[inline(always)]
fn end_of(starts: &[usize], k: usize, len: usize) -> usize
    requires among { k < length starts.now }
    requires rise { (i j : ℕ) → i < j → j < length starts.now → slice_index starts.now i < slice_index starts.now j }
    requires inside { (i : ℕ) → i < length starts.now → slice_index starts.now i < len }
    ensures after { slice_index starts.now k < result }
    ensures within { result ≤ len }
    ensures is { result ≡ slice_index_or starts.now (k + 1) len }
{
    if k + 1 < starts.len() {
        return starts[k + 1];
    }
    len
}

/// Writes what is made of a matrix to the front of `columns` and `values`, and its rows into empty lists. Answers how many entries it has.
fn fill_rows<T: Stored, E: Each<T>>(
    each: &E,
    a: &FlatRows,
    rows: &mut Vec<u32>,
    starts: &mut Vec<usize>,
    columns: &mut [u32],
    values: &mut [T],
) -> usize
    requires domain { a.now.domain ≡ T.domain }
    requires ordered { IsTrue (is_sorted cell_cmp (decoded a.now.entries)) }
    requires no_rows { rows.old.items ≡ [] }
    requires no_starts { starts.old.items ≡ [] }
    requires rows_room { length a.now.rows ≤ vec_capacity rows.old }
    requires starts_room { length a.now.rows ≤ vec_capacity starts.old }
    requires room { length a.now.entries ≤ length columns.old }
    requires same { length columns.old ≡ length values.old }
    ensures within { result ≤ length columns.new }
    ensures flat { IsFlat rows.new.items starts.new.items (take result columns.new) }
    ensures entries { flat_entries T.value rows.new.items starts.new.items (take result columns.new) (take result values.new) ≡ each_made (λ c v. E.row_gives each.now c.0 c.1 v) (decoded a.now.entries) }
{
    let numbers = a.rows();
    let starts_a = a.starts();
    let columns_a = a.columns();
    let values_a = T::of_lists(a);
    let mut at = 0;
    'each: for k in 0..numbers.len() {
        let i = numbers[k];
        let here = each.in_row(i);
        let row = row_between(a, starts_a, columns_a, values_a, k);
        let count = make_after(&here, &row, columns, values, at);
        push_row(rows, starts, i, at, count);
        at += count;
    }
    at
}

/// What is made of each entry of a matrix. Takes memory for as many entries and rows as it has. `AllocError` where that is refused; then
/// nothing is made.
pub(crate) fn make_rows<T: Stored + Drop, E: Each<T>>(
    alloc: Global,
    each: &E,
    a: &FlatRows,
) -> Result<FlatRows, AllocError>
    requires domain { a.now.domain ≡ T.domain }
    requires ordered { IsTrue (is_sorted cell_cmp (decoded a.now.entries)) }
    ensures entries { IfOk result (λ made. decoded made.entries ≡ each_made (λ c v. E.row_gives each.now c.0 c.1 v) (decoded a.now.entries)) }
    ensures domain { IfOk result (λ made. made.domain ≡ T.domain) }
    ensures of_domain { IfOk result (λ made. All (λ e. IsValueOf T.domain e.1) (decoded made.entries)) }
{
    let lines = a.rows().len();
    let mut rows = Vec::with_capacity(alloc, lines)?;
    let mut starts = Vec::with_capacity(alloc, lines)?;
    let mut columns = vec![in alloc; 0u32; a.len()]?;
    let mut values = vec![in alloc; T::any(); a.len()]?;
    let count = fill_rows(
        each,
        a,
        &mut rows,
        &mut starts,
        columns.as_mut_slice(),
        values.as_mut_slice(),
    );
    columns.truncate(count);
    values.truncate(count);
    T::show(values.as_slice());
    Ok(T::keep(rows, starts, columns, values))
}
