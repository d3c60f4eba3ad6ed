//! A row and changes, put together as one row.
ghost use Rattle.std.specs.Prelude.{◌≡◌, ◌+◌, ◌<◌, ◌≤◌, ◌^◌, ◌++◌, ℕ, [], ◌∷◌, cond, take, drop, length, IfOk, OnOk, IsTrue, slice_index_or};
ghost use Rattle.std.specs.List.{All, AllByRecursion};
ghost use Rattle.std.specs.Ordering.{nat_cmp};
ghost use Rattle.std.specs.FinMap.{is_sorted};
ghost use Rattle.grb_core.specs.declared.value.Value.{Value as Stored};
ghost use Rattle.grb_core.specs.Contents.{is_cell_in};
ghost use Rattle.grb_lists.specs.Cells.{cell_of, entries_within};
ghost use Rattle.grb_rows.specs.Pending.{changed, changed_at, IsChangeOf};

use grb_core::Value;
use grb_lists::FlatRows;
use std::alloc::AllocError;

/// The entries of a row after changes in rising order of their indices. The entries between two changes are copied whole, and the entry at
/// the index of a change is left out. `AllocError` where memory is refused.
pub(crate) fn merged(
    row: &FlatRows,
    changes: &Vec<(u64, Option<Value>)>,
) -> Result<FlatRows, AllocError>
    requires row_ordered { IsTrue (is_sorted nat_cmp row.now.entries) }
    requires ordered { IsTrue (is_sorted nat_cmp changes.now.items) }
    requires inside { All (IsChangeOf row.now.domain) changes.now.items }
    ensures entries { IfOk result (λ new. new.entries ≡ changed row.now.entries changes.now.items) }
    ensures domain { IfOk result (λ new. new.domain ≡ row.now.domain) }
{
    let mut new = room_for(row, changes)?;
    let mut i = 0;
    let mut row_of_change = 0;
    let mut row_of_run = 0;
    for j in 0..changes.len() {
        let next = row.place_from(changes[j].0, i, &mut row_of_change);
        let spare = changes.len() - j;
        keep(&mut new, row, i, next, spare, &mut row_of_run)?;
        store_last(&mut new, changes[j]);
        i = row.place_after(changes[j].0, next, row_of_change);
    }
    keep(&mut new, row, i, row.len(), 0, &mut row_of_run)?;
    new.shrink();
    Ok(new)
}

/// The same, of which those within so many rows and columns are kept, copied once: `dims` is the number of rows and that of columns.
/// `AllocError` where memory is refused.
pub(crate) fn merged_within(
    row: &FlatRows,
    changes: &Vec<(u64, Option<Value>)>,
    dims: (u64, u64),
) -> Result<FlatRows, AllocError>
    requires row_ordered { IsTrue (is_sorted nat_cmp row.now.entries) }
    requires ordered { IsTrue (is_sorted nat_cmp changes.now.items) }
    requires inside { All (IsChangeOf row.now.domain) changes.now.items }
    ensures entries { IfOk result (λ new. new.entries ≡ entries_within dims.0 dims.1 (changed row.now.entries changes.now.items)) }
    ensures domain { IfOk result (λ new. new.domain ≡ row.now.domain) }
{
    let mut new = room_for(row, changes)?;
    let mut i = 0;
    let mut row_of_change = 0;
    let mut row_of_run = 0;
    for j in 0..changes.len() {
        let next = row.place_from(changes[j].0, i, &mut row_of_change);
        let spare = changes.len() - j;
        keep_within(&mut new, row, i, next, spare, dims, &mut row_of_run)?;
        store_within(&mut new, changes[j], dims);
        i = row.place_after(changes[j].0, next, row_of_change);
    }
    keep_within(&mut new, row, i, row.len(), 0, dims, &mut row_of_run)?;
    new.shrink();
    Ok(new)
}

/// No entries, and memory for those of a row and for changes. As many rows as these have together are not exceeded, so lists of rows take
/// no memory for each entry. `AllocError` where memory is refused.
fn room_for(row: &FlatRows, changes: &Vec<(u64, Option<Value>)>) -> Result<FlatRows, AllocError>
    ensures entries { IfOk result (λ new. new.entries ≡ []) }
    ensures domain { IfOk result (λ new. new.domain ≡ row.now.domain) }
    ensures room { IfOk result (λ new. length changes.now.items ≤ new.room) }
{
    // one more row, since a row may go on after a change
    let rows = row.rows().len() + changes.len() + 1;
    let entries = row.len() + changes.len();
    FlatRows::with_rooms(row.allocator(), row.domain(), rows, entries)
}

/// The entries of a row from a place to another, after others that come before them. There is room for `spare` more then, as before.
/// `AllocError` where memory is refused.
fn keep(
    new: &mut FlatRows,
    row: &FlatRows,
    start: usize,
    end: usize,
    spare: usize,
    hint: &mut usize,
) -> Result<(), AllocError>
    requires spare { spare < 2 ^ 63 }
    requires room { spare ≤ new.old.room }
    requires order { start ≤ end }
    requires within { end ≤ length row.now.entries }
    requires above { start < end → (d : ℕ × Stored) → AllByRecursion (λ e. e.0 < (slice_index_or row.now.entries start d).0) new.old.entries }
    requires domain { row.now.domain ≡ new.old.domain }
    ensures entries { OnOk result (new.new.entries ≡ new.old.entries ++ drop start (take end row.now.entries)) }
    ensures domain { new.new.domain ≡ new.old.domain }
    ensures room { OnOk result (spare ≤ new.new.room) }
{
    if start < end {
        return new.append(row, start, end, spare, hint);
    }
    Ok(())
}

/// A change at an index above all others.
fn store_last(new: &mut FlatRows, change: (u64, Option<Value>))
    requires room { 0 < new.old.room }
    requires above { AllByRecursion (λ e. e.0 < change.0) new.old.entries }
    requires inside { IsChangeOf new.old.domain change }
    ensures entries { new.new.entries ≡ changed_at change.0 change.1 new.old.entries }
    ensures domain { new.new.domain ≡ new.old.domain }
    ensures room { new.old.room ≤ new.new.room + 1 }
{
    match change.1 {
        Some(value) => {
            new.push_reserved(change.0, value);
            return;
        }
        None => {
            return;
        }
    }
}

/// Whether a cell is within so many rows and columns.
fn is_within(number: u64, dims: (u64, u64)) -> bool
    ensures { result ≡ is_cell_in dims.0 dims.1 (cell_of number) }
{
    number / 0x1_0000_0000 < dims.0 && number % 0x1_0000_0000 < dims.1
}

/// The entries of a row from a place to another within so many rows and columns, after others that come before them: each run of them is
/// copied whole. There is room for `spare` more then, as before. `AllocError` where memory is refused.
fn keep_within(
    new: &mut FlatRows,
    row: &FlatRows,
    start: usize,
    end: usize,
    spare: usize,
    dims: (u64, u64),
    hint: &mut usize,
) -> Result<(), AllocError>
    requires row_ordered { IsTrue (is_sorted nat_cmp row.now.entries) }
    requires spare { spare < 2 ^ 63 }
    requires room { spare ≤ new.old.room }
    requires order { start ≤ end }
    requires within { end ≤ length row.now.entries }
    requires above { start < end → (d : ℕ × Stored) → AllByRecursion (λ e. e.0 < (slice_index_or row.now.entries start d).0) new.old.entries }
    requires domain { row.now.domain ≡ new.old.domain }
    ensures entries { OnOk result (new.new.entries ≡ new.old.entries ++ entries_within dims.0 dims.1 (drop start (take end row.now.entries))) }
    ensures domain { new.new.domain ≡ new.old.domain }
    ensures room { OnOk result (spare ≤ new.new.room) }
{
    let mut from = start;
    let mut row_of_entry = *hint;
    for at in start..end {
        let inside = is_within(row.index_at(at, &mut row_of_entry), dims);
        if !inside {
            keep(new, row, from, at, spare, hint)?;
            from = at + 1;
            *hint = row_of_entry;
        }
    }
    keep(new, row, from, end, spare, hint)
}

/// A change at an index above all others, if its cell is within so many rows and columns.
fn store_within(new: &mut FlatRows, change: (u64, Option<Value>), dims: (u64, u64))
    requires room { 0 < new.old.room }
    requires above { AllByRecursion (λ e. e.0 < change.0) new.old.entries }
    requires inside { IsChangeOf new.old.domain change }
    ensures entries { new.new.entries ≡ cond (is_cell_in dims.0 dims.1 (cell_of change.0)) (changed_at change.0 change.1 new.old.entries) new.old.entries }
    ensures domain { new.new.domain ≡ new.old.domain }
    ensures room { new.old.room ≤ new.new.room + 1 }
{
    let inside = is_within(change.0, dims);
    if inside {
        store_last(new, change);
    }
}
