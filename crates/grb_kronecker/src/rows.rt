//! The rows of a Kronecker product: each row of the first matrix with each row of the second.
ghost use Rattle.std.specs.Prelude.{◌≡◌, ◌+◌, ◌*◌, ◌<◌, ◌≤◌, ◌^◌, ◌++◌, ℕ, [], ◌∷◌, length, take, drop, slice_index, All, IsTrue, IfOk, OnOk};
ghost use Rattle.std.specs.FinMap.{is_sorted};
ghost use Rattle.std.specs.Vec.{vec_capacity};
ghost use Rattle.grb_core.specs.Value.{IsValueOf};
ghost use Rattle.grb_core.specs.Operator.{value_of_op};
ghost use Rattle.grb_core.specs.Entries.{cell_cmp};
ghost use Rattle.grb_kernels.specs.Typed.{entries_of};
ghost use Rattle.grb_lists.specs.Cells.{decoded, IsFlat};
ghost use Rattle.grb_ewise.specs.Rows.{flat_entries};
ghost use Rattle.grb_core.specs.Maps.{kronecker_of};
ghost use Rattle.grb_kronecker.specs.Crossing.{crossed};
ghost use Rattle.grb_kronecker.specs.Rows.{AreIn};

use crate::crossing::cross_row;
use grb_ewise::Stored;
use grb_kernels::{EntrySlice, Operator};
use grb_lists::FlatRows;
use grb_maps::push_row;
use std::alloc::{AllocError, Global};

/// Writes a row of a product after the first `k` columns and values. Answers how many entries it has.
fn cross_after<T: Stored, O: Operator<T>>(
    x: &EntrySlice<T>,
    y: &EntrySlice<T>,
    ncols: u64,
    columns: &mut [u32],
    values: &mut [T],
    k: usize,
) -> usize
    requires columns { All (λ j. j * ncols + ncols ≤ 2 ^ 32) x.now.indices.now }
    requires within { All (λ j. j < ncols) y.now.indices.now }
    requires room { k + length x.now.indices.now * length y.now.indices.now ≤ length columns.old }
    requires same { length columns.old ≡ length values.old }
    ensures columns_before { take k columns.new ≡ take k columns.old }
    ensures values_before { take k values.new ≡ take k values.old }
    ensures entries { entries_of T.value (take result (drop k columns.new)) (take result (drop k values.new)) ≡ crossed (value_of_op O.op) ncols (entries_of T.value x.now.indices.now x.now.values.now) (entries_of T.value y.now.indices.now y.now.values.now) }
    ensures count { result ≡ length x.now.indices.now * length y.now.indices.now }
{
    cross_row::<T, O>(x, y, ncols, &mut columns[k..], &mut values[k..])
}

/// Puts a row of a product after the columns and values so far, and answers how many entries that is. `AllocError` where memory is refused;
/// then more may stand in them than so far.
fn append_crossed<T: Stored, O: Operator<T>>(
    x: &EntrySlice<T>,
    y: &EntrySlice<T>,
    ncols: u64,
    columns: &mut Vec<u32>,
    values: &mut Vec<T>,
) -> Result<usize, AllocError>
    requires columns { All (λ j. j * ncols + ncols ≤ 2 ^ 32) x.now.indices.now }
    requires within { All (λ j. j < ncols) y.now.indices.now }
    requires same { length columns.old.items ≡ length values.old.items }
    ensures columns_before { OnOk result (take (length columns.old.items) columns.new.items ≡ columns.old.items) }
    ensures values_before { OnOk result (take (length columns.old.items) values.new.items ≡ values.old.items) }
    ensures columns_long { IfOk result (λ count. length columns.new.items ≡ length columns.old.items + count) }
    ensures values_long { IfOk result (λ count. length values.new.items ≡ length columns.old.items + count) }
    ensures entries { OnOk result (entries_of T.value (drop (length columns.old.items) columns.new.items) (drop (length columns.old.items) values.new.items) ≡ crossed (value_of_op O.op) ncols (entries_of T.value x.now.indices.now x.now.values.now) (entries_of T.value y.now.indices.now y.now.values.now)) }
    ensures fit { (n : ℕ) → n < length columns.new.items → slice_index columns.new.items n < 2 ^ 32 }
{
    let k = columns.len();
    let most = x.indices.len().saturating_mul(y.indices.len());
    columns.resize(k.saturating_add(most), 0)?;
    values.resize(k.saturating_add(most), T::any())?;
    let count = cross_after::<T, O>(
        x,
        y,
        ncols,
        columns.as_mut_slice(),
        values.as_mut_slice(),
        k,
    );
    columns.truncate(k + count);
    values.truncate(k + count);
    Ok(count)
}

/// Which row of the first and which of the second make the `t`th row of a product.
fn pair_of(t: usize, first: usize, second: usize) -> (usize, usize)
    requires { t < first * second }
    ensures first { result.0 < first }
    ensures second { result.1 < second }
    ensures is { result.0 * second + result.1 ≡ t }
{
    (t / second, t % second)
}

/// The number of a row of a product.
fn row_number(i: u32, r: u64, p: u32) -> u32
    requires { i * r + p < 2 ^ 32 }
    ensures { result ≡ i * r + p }
{
    (i as u64 * r + p as u64) as u32
}

/// Puts a product into empty lists, row by row, where the first matrix has `m` rows and `n` columns and the second `r` and `c`. `AllocError`
/// where memory is refused; then a part may stand in the lists.
fn fill_rows<T: Stored, O: Operator<T>>(
    a: &FlatRows,
    b: &FlatRows,
    dims: (u64, u64),
    r: u64,
    c: u64,
    rows: &mut Vec<u32>,
    starts: &mut Vec<usize>,
    columns: &mut Vec<u32>,
    values: &mut Vec<T>,
) -> Result<(), AllocError>
    requires a_domain { a.now.domain ≡ T.domain }
    requires b_domain { b.now.domain ≡ T.domain }
    requires a { AreIn dims.0 dims.1 (decoded a.now.entries) }
    requires b { AreIn r c (decoded b.now.entries) }
    requires some_rows { 0 < r }
    requires some_columns { 0 < c }
    requires few_rows { dims.0 * r < 2 ^ 32 }
    requires few_columns { dims.1 * c < 2 ^ 32 }
    requires no_rows { rows.old.items ≡ [] }
    requires no_starts { starts.old.items ≡ [] }
    requires no_columns { columns.old.items ≡ [] }
    requires no_values { values.old.items ≡ [] }
    requires rows_room { length a.now.rows * length b.now.rows ≤ vec_capacity rows.old }
    requires starts_room { length a.now.rows * length b.now.rows ≤ vec_capacity starts.old }
    ensures flat { OnOk result (IsFlat rows.new.items starts.new.items columns.new.items) }
    ensures same { OnOk result (length values.new.items ≡ length columns.new.items) }
    ensures entries { OnOk result (flat_entries T.value rows.new.items starts.new.items columns.new.items values.new.items ≡ kronecker_of O.op r c (dims.0 * r) (dims.1 * c) (decoded a.now.entries) (decoded b.now.entries)) }
{
    let first = a.rows();
    let second = b.rows();
    let _first_starts = a.starts();
    let _second_starts = b.starts();
    'each: for t in 0..first.len() * second.len() {
        let (k, l) = pair_of(t, first.len(), second.len());
        let row = row_number(first[k], r, second[l]);
        let start = columns.len();
        let count = append_crossed::<T, O>(&T::row(a, k), &T::row(b, l), c, columns, values)?;
        push_row(rows, starts, row, start, count);
    }
    Ok(())
}

/// The flat lists of a product. `AllocError` where memory is refused; then nothing is made.
pub(crate) fn product_lists<T: Stored + Drop, O: Operator<T>>(
    alloc: Global,
    a: &FlatRows,
    b: &FlatRows,
    dims: (u64, u64),
    r: u64,
    c: u64,
) -> Result<FlatRows, AllocError>
    requires a_domain { a.now.domain ≡ T.domain }
    requires b_domain { b.now.domain ≡ T.domain }
    requires a { AreIn dims.0 dims.1 (decoded a.now.entries) }
    requires b { AreIn r c (decoded b.now.entries) }
    requires some_rows { 0 < r }
    requires some_columns { 0 < c }
    requires few_rows { dims.0 * r < 2 ^ 32 }
    requires few_columns { dims.1 * c < 2 ^ 32 }
    ensures entries { IfOk result (λ made. decoded made.entries ≡ kronecker_of O.op r c (dims.0 * r) (dims.1 * c) (decoded a.now.entries) (decoded b.now.entries)) }
    ensures domain { IfOk result (λ made. made.domain ≡ T.domain) }
    ensures of_domain { IfOk result (λ made. All (λ e. IsValueOf T.domain e.1) (decoded made.entries)) }
{
    let lines = a.rows().len().saturating_mul(b.rows().len());
    let room = a.len().saturating_mul(b.len());
    let mut rows = Vec::with_capacity(alloc, lines)?;
    let mut starts = Vec::with_capacity(alloc, lines)?;
    let mut columns = Vec::with_capacity(alloc, room)?;
    let mut values = Vec::with_capacity(alloc, room)?;
    fill_rows::<T, O>(
        a,
        b,
        dims,
        r,
        c,
        &mut rows,
        &mut starts,
        &mut columns,
        &mut values,
    )?;
    T::show(values.as_slice());
    Ok(T::keep(rows, starts, columns, values))
}
