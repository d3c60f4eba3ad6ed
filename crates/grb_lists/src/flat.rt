//! Entries as flat lists: the rows that have some, where each begins, and the column and the value of each entry.
ghost use Rattle.std.specs.Prelude.{◌≡◌, ◌≢◌, ◌↔◌, ◌+◌, ◌-◌, ◌*◌, ◌/◌, ◌%◌, ◌<◌, ◌≤◌, ◌^◌, ◌++◌, ℕ, [], ◌∷◌, Some, None, true, nat_eq, filter, take, drop, length, map, All, IfOk, IfSome, IfNone, IsTrue, slice_set, slice_index_or, slice_index};
ghost use Rattle.std.specs.List.{AllByRecursion};
ghost use Rattle.std.specs.Ordering.{nat_cmp};
ghost use Rattle.std.specs.FinMap.{find, is_sorted};
ghost use Rattle.std.specs.Vec.{vec_len, vec_capacity};
ghost use Rattle.grb_core.specs.declared.value.Value.{Value as Stored};
ghost use Rattle.grb_core.specs.Value.{value_domain};
ghost use Rattle.grb_core.specs.Entries.{values_of};
ghost use Rattle.grb_core.specs.Results.{row_of};
ghost use Rattle.grb_lists.specs.Cells.{row_at, codes_of, decoded, entries_within, in_row, IsFlat};
ghost use Rattle.grb_lists.specs.Stored.{row_entries, started_at, IsCellAt, IsInRow};

use crate::same::{are_same_numbers, are_same_places};
use crate::values::{self, Values, shrink_list};
use grb_core::{Domain, Value};
use std::alloc::{AllocError, Global};
use std::marker::Model;

/// Entries in rising order of the numbers of their cells, row * 2^32 + column. Each row has a start for its entries, which end where those
/// of the next row start.
///
/// An assembled matrix lends its lists (`SparseMatrix::lists`): those that read them, `rows` to `row_numbers`, take no memory and copy
/// nothing.
pub struct FlatRows {
    pub(crate) rows: Vec<u32>,
    pub(crate) starts: Vec<usize>,
    pub(crate) columns: Vec<u32>,
    pub(crate) values: Values,
}

/// One call drops all lists, in place of one for each wherever rows go.
impl Drop for FlatRows {
    fn drop(self) {
        let FlatRows {
            rows: _,
            starts: _,
            columns: _,
            values: _,
        } = self;
    }
}

impl Model for FlatRows {
    ghost use Rattle.std.specs.Prelude.{◌≡◌, ◌-◌, length, min, IsTrue};
    ghost use Rattle.std.specs.Ordering.{nat_cmp};
    ghost use Rattle.std.specs.FinMap.{is_sorted};
    ghost use Rattle.std.specs.Vec.{vec_len, vec_capacity};
    ghost use Rattle.grb_lists.specs.Values.{values_list, values_domain, values_len, values_capacity};
    ghost use Rattle.grb_lists.specs.Stored.{RowView, paired};
    ghost use Rattle.grb_lists.specs.Cells.{codes_of, IsFlat};

    ghost Value = { RowView };

    ghost view = { λ r. record { entries = paired (codes_of r.rows.items r.starts.items r.columns.items) (values_list r.values); rows = r.rows.items; domain = values_domain r.values; room = min (min (vec_capacity r.rows - vec_len r.rows) (vec_capacity r.starts - vec_len r.starts)) (min (vec_capacity r.columns - vec_len r.columns) (values_capacity r.values - values_len r.values)) } };

    ghost invariant = { λ r. (length (values_list r.values) ≡ length (codes_of r.rows.items r.starts.items r.columns.items)) × IsTrue (is_sorted nat_cmp (paired (codes_of r.rows.items r.starts.items r.columns.items) (values_list r.values))) × IsFlat r.rows.items r.starts.items r.columns.items };
}

impl FlatRows {
    /// No entries. Takes no memory.
    pub fn new(alloc: Global, domain: Domain) -> FlatRows
        ensures entries { result.entries ≡ [] }
        ensures domain { result.domain ≡ domain }
    {
        FlatRows {
            rows: Vec::new(alloc),
            starts: Vec::new(alloc),
            columns: Vec::new(alloc),
            values: Values::new(alloc, domain),
        }
    }

    /// No entries, and memory for `room`. `AllocError` where it is refused; then nothing is made.
    pub fn with_capacity(alloc: Global, domain: Domain, room: usize) -> Result<FlatRows, AllocError>
        ensures entries { IfOk result (λ row. row.entries ≡ []) }
        ensures domain { IfOk result (λ row. row.domain ≡ domain) }
        ensures room { IfOk result (λ row. row.room ≡ room) }
    {
        let rows = Vec::with_capacity(alloc, room)?;
        let starts = Vec::with_capacity(alloc, room)?;
        let columns = Vec::with_capacity(alloc, room)?;
        let values = Values::with_capacity(alloc, domain, room)?;
        Ok(FlatRows {
            rows,
            starts,
            columns,
            values,
        })
    }

    /// Its allocator.
    pub fn allocator(&self) -> Global {
        *self.columns.allocator()
    }

    /// The domain of the values.
    pub fn domain(&self) -> Domain
        ensures { result ≡ self.now.domain }
    {
        self.values.domain()
    }

    /// The number of entries.
    pub fn len(&self) -> usize
        ensures len { result ≡ length self.now.entries }
        ensures bound { length self.now.entries < 2 ^ 63 }
        ensures ordered { IsTrue (is_sorted nat_cmp self.now.entries) }
    {
        self.columns.len()
    }

    /// Where the entry of an index stands, if there is one.
    pub fn place_of(&self, index: u64) -> Option<usize>
        ensures found { IfSome result (λ at. (at < length self.now.entries) × ((d : ℕ × Stored) → (slice_index_or self.now.entries at d).0 ≡ index)) }
        ensures stands { IfSome result (λ at. (d : ℕ × Stored) → find nat_cmp index self.now.entries ≡ Some (slice_index_or self.now.entries at d).1) }
        ensures absent { IfNone result (find nat_cmp index self.now.entries ≡ None) }
    {
        match place_in(&self.rows, &self.starts, &self.columns, index) {
            Some(at) => Some(at),
            None => None,
        }
    }

    /// The value at an index, if there is one.
    pub fn get(&self, index: u64) -> Option<Value>
        ensures { result ≡ find nat_cmp index self.now.entries }
    {
        match self.place_of(index) {
            Some(at) => Some(self.value_at(at)),
            None => None,
        }
    }

    /// The number of the cell at a place. It tries the row `hint` and the next one before it searches all, and leaves the row that it
    /// found in `hint`, so that a walk over all places takes the same time for each.
    pub fn index_at(&self, at: usize, hint: &mut usize) -> u64
        requires { at < length self.now.entries }
        ensures { (d : ℕ × Stored) → result ≡ (slice_index_or self.now.entries at d).0 }
    {
        let k = row_place(&self.starts, at, *hint);
        *hint = k;
        let row = self.rows[k];
        row as u64 * 0x1_0000_0000 + self.columns[at] as u64
    }

    /// The column of the cell at a place.
    pub fn column_at(&self, at: usize) -> u64
        requires { at < length self.now.entries }
        ensures { (d : ℕ × Stored) → result ≡ (slice_index_or self.now.entries at d).0 % 2 ^ 32 }
    {
        self.columns[at] as u64
    }

    /// The value at a place.
    pub fn value_at(&self, at: usize) -> Value
        requires { at < length self.now.entries }
        ensures value { (d : ℕ × Stored) → result ≡ (slice_index_or self.now.entries at d).1 }
        ensures domain { value_domain result ≡ self.now.domain }
    {
        self.values.get(at)
    }

    /// The number of the last entry's cell, if there is an entry.
    pub fn last_index(&self) -> Option<u64>
        ensures some { IfSome result (λ index. (0 < length self.now.entries) × IsCellAt self.now.entries (length self.now.entries - 1) index) }
        ensures none { IfNone result (self.now.entries ≡ []) }
    {
        let count = self.len();
        if count == 0 {
            return None;
        }
        let mut hint = self.rows.len().saturating_sub(1);
        Some(self.index_at(count - 1, &mut hint))
    }

    /// Writes a value over the one at a place.
    pub fn write(&mut self, at: usize, value: Value)
        requires at { at < length self.old.entries }
        requires domain { value_domain value ≡ self.old.domain }
        ensures entries { (d : ℕ × Stored) → self.new.entries ≡ slice_set self.old.entries at ((slice_index_or self.old.entries at d).0, value) }
        ensures domain { self.new.domain ≡ self.old.domain }
        ensures room { self.new.room ≡ self.old.room }
    {
        self.values.set(at, value);
    }

    /// One more entry, at an index above all others.
    pub fn push_reserved(&mut self, index: u64, value: Value)
        requires room { 0 < self.old.room }
        requires above { AllByRecursion (λ e. e.0 < index) self.old.entries }
        requires domain { value_domain value ≡ self.old.domain }
        ensures entries { self.new.entries ≡ self.old.entries ++ (index, value) ∷ [] }
        ensures domain { self.new.domain ≡ self.old.domain }
        ensures room { self.old.room ≤ self.new.room + 1 }
    {
        let row = (index / 0x1_0000_0000) as u32;
        begin_row(&mut self.rows, &mut self.starts, &self.columns, row);
        self.columns.push_reserved((index % 0x1_0000_0000) as u32);
        self.values.push_reserved(value);
    }

    /// Gives back the memory that no entry takes, of each list that has room for more than an eighth of what it holds. A list that has less
    /// stays as it lies: to cut it gains little, and when it is dropped its memory serves the next that is made with the same room.
    pub fn shrink(&mut self)
        ensures entries { self.new.entries ≡ self.old.entries }
        ensures domain { self.new.domain ≡ self.old.domain }
    {
        shrink_list(&mut self.rows);
        shrink_list(&mut self.starts);
        shrink_list(&mut self.columns);
        self.values.shrink();
    }

    /// The same entries in lists of their own, each copied whole. `AllocError` where memory is refused; then nothing is made.
    pub fn try_clone(&self) -> Result<FlatRows, AllocError>
        ensures entries { IfOk result (λ copy. copy.entries ≡ self.now.entries) }
        ensures domain { IfOk result (λ copy. copy.domain ≡ self.now.domain) }
    {
        let alloc = self.allocator();
        let rows = values::copied(alloc, &self.rows)?;
        let starts = values::copied(alloc, &self.starts)?;
        let columns = values::copied(alloc, &self.columns)?;
        let values = self.values.try_clone(alloc)?;
        Ok(FlatRows {
            rows,
            starts,
            columns,
            values,
        })
    }

    /// Where the entries of row `i` start and where they end.
    pub fn span(&self, i: u64) -> (usize, usize)
        ensures { drop result.0 (take result.1 self.now.entries) ≡ filter (λ e. nat_eq (e.0 / 2 ^ 32) i) self.now.entries }
    {
        span_in(&self.rows, &self.starts, &self.columns, i)
    }

    /// Whether all columns are below `ncols`.
    fn has_columns_below(&self, ncols: u64) -> bool
        ensures { result ≡ true ↔ ((q : ℕ) (d : ℕ × Stored) → q < length self.now.entries → (slice_index_or self.now.entries q d).0 % 2 ^ 32 < ncols) }
    {
        let mut below = true;
        for at in 0..self.len() {
            below = below & (self.column_at(at) < ncols);
        }
        below
    }

    /// Whether all entries are within `nrows` rows and `ncols` columns.
    pub fn is_within(&self, nrows: u64, ncols: u64) -> bool
        ensures { result ≡ true ↔ (entries_within nrows ncols self.now.entries ≡ self.now.entries) }
    {
        let count = self.len();
        if count == 0 {
            return true;
        }
        let mut hint = self.rows.len().saturating_sub(1);
        let last = self.index_at(count - 1, &mut hint);
        last / 0x1_0000_0000 < nrows && self.has_columns_below(ncols)
    }

    /// The rows that have entries, in rising order.
    pub fn rows(&self) -> &[u32]
        ensures list { result.now ≡ self.now.rows }
        ensures rise { (i j : ℕ) → i < j → j < length self.now.rows → slice_index self.now.rows i < slice_index self.now.rows j }
        ensures all { (i : ℕ) → ((k : ℕ) → k < length self.now.rows → slice_index self.now.rows k ≢ i) → row_of i (decoded self.now.entries) ≡ [] }
        ensures first { 0 < length self.now.entries → IsInRow self.now 0 0 }
    {
        &self.rows
    }

    /// Where the entries of each of these rows begin in `columns` and in the values. They end where the next row begins, and those of the
    /// last row at the end of all.
    pub fn starts(&self) -> &[usize]
        ensures len { length result.now ≡ length self.now.rows }
        ensures rise { (i j : ℕ) → i < j → j < length result.now → slice_index result.now i < slice_index result.now j }
        ensures within { (k : ℕ) → k < length result.now → slice_index result.now k < length self.now.entries }
        ensures spans { (k : ℕ) → k < length self.now.rows → row_entries self.now k ≡ in_row (started_at result.now k self.now.entries) }
    {
        &self.starts
    }

    /// The columns of all entries, row by row, and in each row in rising order.
    pub fn columns(&self) -> &[u32]
        ensures columns { result.now ≡ map (λ e. e.0.1) (decoded self.now.entries) }
        ensures below { (n : ℕ) → All (λ e. e.0.1 < n) (decoded self.now.entries) → All (λ j. j < n) result.now }
    {
        &self.columns
    }

    /// The values of all entries, which are of the domain `Bool`, in the order of `columns`.
    pub fn bools(&self) -> &[bool]
        requires { self.now.domain ≡ Domain.Bool }
        ensures { map (λ b. Value.Bool b) result.now ≡ values_of self.now.entries }
    {
        match &self.values {
            Values::Bool(bools) => bools,
            Values::Uint64(_) => unreachable!(),
        }
    }

    /// The values of all entries, which are of the domain `Uint64`, in the order of `columns`.
    pub fn numbers(&self) -> &[u64]
        requires { self.now.domain ≡ Domain.Uint64 }
        ensures { map (λ n. Value.Uint64 n) result.now ≡ values_of self.now.entries }
    {
        match &self.values {
            Values::Uint64(numbers) => numbers,
            Values::Bool(_) => unreachable!(),
        }
    }

    /// Whether all lists are known to be the same, each compared whole: of equal entries it may answer no where one is of another domain. Takes
    /// no memory.
    pub fn is_same(&self, other: &FlatRows) -> bool
        ensures { result ≡ true → self.now.entries ≡ other.now.entries }
    {
        if !are_same_numbers(&self.rows, &other.rows) {
            return false;
        }
        if !are_same_places(&self.starts, &other.starts) {
            return false;
        }
        if !are_same_numbers(&self.columns, &other.columns) {
            return false;
        }
        self.values.is_same(&other.values)
    }

    /// Where the entries of the `k`th row end: there those of the next row begin, or it is the end of all.
    pub fn row_end(&self, k: usize) -> usize
        requires { k < length self.now.rows }
        ensures within { result ≤ length self.now.entries }
        ensures after { (at : ℕ) → at < length self.now.entries → IsInRow self.now k at → at < result }
        ensures row { (at p : ℕ) → at < length self.now.entries → IsInRow self.now k at → at ≤ p → p < result → IsInRow self.now k p }
        ensures next { result < length self.now.entries → IsInRow self.now (k + 1) result }
    {
        let (_start, end) = bounds(&self.rows, &self.starts, &self.columns, k);
        end
    }

    /// The columns of the `k`th row that has entries, in rising order.
    pub fn row_columns(&self, k: usize) -> &[u32]
        requires { k < length self.now.rows }
        ensures columns { result.now ≡ map (λ e. e.0) (row_entries self.now k) }
        ensures some { 0 < length result.now }
        ensures below { (n : ℕ) → All (λ e. e.0.1 < n) (decoded self.now.entries) → All (λ j. j < n) result.now }
    {
        let (start, end) = bounds(&self.rows, &self.starts, &self.columns, k);
        part(&self.columns, start, end)
    }

    /// The values of the `k`th row, which are of the domain `Bool`, in the order of its columns.
    pub fn row_bools(&self, k: usize) -> &[bool]
        requires at { k < length self.now.rows }
        requires domain { self.now.domain ≡ Domain.Bool }
        ensures { map (λ b. Value.Bool b) result.now ≡ values_of (row_entries self.now k) }
    {
        let (start, end) = bounds(&self.rows, &self.starts, &self.columns, k);
        match &self.values {
            Values::Bool(bools) => part(bools, start, end),
            Values::Uint64(_) => unreachable!(),
        }
    }

    /// The values of the `k`th row, which are of the domain `Uint64`, in the order of its columns.
    pub fn row_numbers(&self, k: usize) -> &[u64]
        requires at { k < length self.now.rows }
        requires domain { self.now.domain ≡ Domain.Uint64 }
        ensures { map (λ n. Value.Uint64 n) result.now ≡ values_of (row_entries self.now k) }
    {
        let (start, end) = bounds(&self.rows, &self.starts, &self.columns, k);
        match &self.values {
            Values::Uint64(numbers) => part(numbers, start, end),
            Values::Bool(_) => unreachable!(),
        }
    }
}

/// Where an index stands among those that rise.
fn search(indices: &[u32], index: u64) -> Option<usize>
    requires { (i j : ℕ) → i ≤ j → j < length indices.now → slice_index indices.now i ≤ slice_index indices.now j }
    ensures found { IfSome result (λ at. (at < length indices.now) × (slice_index indices.now at ≡ index)) }
    ensures absent { IfNone result ((k : ℕ) → k < length indices.now → slice_index indices.now k ≢ index) }
{
    if index > u32::MAX as u64 {
        return None;
    }
    match indices.binary_search(&(index as u32)) {
        Ok(at) => Some(at),
        Err(_) => None,
    }
}

/// Which row has the entry at a place: the last that starts there or before.
pub(crate) fn row_place(starts: &[usize], at: usize, hint: usize) -> usize
    requires some { 0 < length starts.now }
    requires first { slice_index starts.now 0 ≤ at }
    requires rise { (i j : ℕ) → i < j → j < length starts.now → slice_index starts.now i < slice_index starts.now j }
    ensures inside { result < length starts.now }
    ensures upto { slice_index starts.now result ≤ at }
    ensures above { (i : ℕ) → result < i → i < length starts.now → at < slice_index starts.now i }
{
    if is_row_of(starts, hint, at) {
        return hint;
    }
    if hint < starts.len() {
        if is_row_of(starts, hint + 1, at) {
            return hint + 1;
        }
    }
    row_search(starts, at)
}

/// Whether the `k`th row has the entry at a place.
fn is_row_of(starts: &[usize], k: usize, at: usize) -> bool
    requires rise { (i j : ℕ) → i < j → j < length starts.now → slice_index starts.now i < slice_index starts.now j }
    ensures inside { result ≡ true → k < length starts.now }
    ensures upto { result ≡ true → slice_index starts.now k ≤ at }
    ensures above { result ≡ true → (i : ℕ) → k < i → i < length starts.now → at < slice_index starts.now i }
{
    if k >= starts.len() {
        return false;
    }
    if starts[k] > at {
        return false;
    }
    if k + 1 == starts.len() {
        return true;
    }
    at < starts[k + 1]
}

/// The same by a binary search.
fn row_search(starts: &[usize], at: usize) -> usize
    requires some { 0 < length starts.now }
    requires first { slice_index starts.now 0 ≤ at }
    requires rise { (i j : ℕ) → i < j → j < length starts.now → slice_index starts.now i < slice_index starts.now j }
    ensures inside { result < length starts.now }
    ensures upto { slice_index starts.now result ≤ at }
    ensures above { (i : ℕ) → result < i → i < length starts.now → at < slice_index starts.now i }
{
    starts.partition_point(|start| *start <= at) - 1
}

/// Where the entries of a row end: where the next one starts, or else at the end of all.
pub(crate) fn end_of(starts: &[usize], k: usize, len: usize) -> usize
    requires among { k < length starts.now }
    requires rise { (i j : ℕ) → i < j → j < length starts.now → slice_index starts.now i < slice_index starts.now j }
    requires inside { (i : ℕ) → i < length starts.now → slice_index starts.now i < len }
    ensures after { slice_index starts.now k < result }
    ensures within { result ≤ len }
    ensures is { result ≡ slice_index_or starts.now (k + 1) len }
{
    if k + 1 < starts.len() {
        return starts[k + 1];
    }
    len
}

/// Where the entries of row `i` start and where they end; both 0, if there are none.
fn span_in(rows: &[u32], starts: &[usize], columns: &[u32], i: u64) -> (usize, usize)
    requires flat { IsFlat rows.now starts.now columns.now }
    ensures inside { (p : ℕ) → result.0 ≤ p → p < result.1 → row_at p 0 rows.now starts.now ≡ i }
    ensures outside { (p : ℕ) → p < length columns.now → row_at p 0 rows.now starts.now ≡ i → (result.0 ≤ p) × (p < result.1) }
    ensures within { result.1 ≤ length columns.now }
{
    match search(rows, i) {
        Some(k) => {
            let start = starts[k];
            let end = end_of(starts, k, columns.len());
            return (start, end);
        }
        None => {
            return (0, 0);
        }
    }
}

/// Where the entries of the `k`th row start and where they end.
fn bounds(rows: &[u32], starts: &[usize], columns: &[u32], k: usize) -> (usize, usize)
    requires flat { IsFlat rows.now starts.now columns.now }
    requires among { k < length rows.now }
    ensures inside { (p : ℕ) → result.0 ≤ p → p < result.1 → row_at p 0 rows.now starts.now ≡ slice_index rows.now k }
    ensures outside { (p : ℕ) → p < length columns.now → row_at p 0 rows.now starts.now ≡ slice_index rows.now k → (result.0 ≤ p) × (p < result.1) }
    ensures order { result.0 < result.1 }
    ensures within { result.1 ≤ length columns.now }
    ensures next { result.1 < length columns.now → (k + 1 < length rows.now) × (row_at result.1 0 rows.now starts.now ≡ slice_index rows.now (k + 1)) }
{
    let start = starts[k];
    let end = end_of(starts, k, columns.len());
    (start, end)
}

/// A part of a list.
pub(crate) fn part<T>(list: &[T], start: usize, end: usize) -> &[T]
    requires order { start ≤ end }
    requires within { end ≤ length list.now }
    ensures { result.now ≡ take (end - start) (drop start list.now) }
{
    &list[start..end]
}

/// The number of a cell.
pub fn code(i: u64, j: u64) -> u64
    requires row { i < 2 ^ 32 }
    requires column { j < 2 ^ 32 }
    ensures { result ≡ i * 2 ^ 32 + j }
{
    i * 0x1_0000_0000 + j
}

/// Where a cell stands, if it does.
fn place_in(rows: &[u32], starts: &[usize], columns: &[u32], code: u64) -> Option<usize>
    requires flat { IsFlat rows.now starts.now columns.now }
    requires rising { (i j : ℕ) → i ≤ j → j < length columns.now → slice_index (codes_of rows.now starts.now columns.now) i ≤ slice_index (codes_of rows.now starts.now columns.now) j }
    ensures found { IfSome result (λ at. (at < length columns.now) × (slice_index (codes_of rows.now starts.now columns.now) at ≡ code)) }
    ensures absent { IfNone result ((k : ℕ) → k < length columns.now → slice_index (codes_of rows.now starts.now columns.now) k ≢ code) }
{
    match search(rows, code / 0x1_0000_0000) {
        Some(k) => {
            let start = starts[k];
            let end = end_of(starts, k, columns.len());
            match search(&columns[start..end], code % 0x1_0000_0000) {
                Some(at) => {
                    return Some(start + at);
                }
                None => {
                    return None;
                }
            }
        }
        None => {
            return None;
        }
    }
}

/// Makes `row`, which is none below the last one, the row of the next entry.
pub(crate) fn begin_row(rows: &mut Vec<u32>, starts: &mut Vec<usize>, columns: &Vec<u32>, row: u32)
    requires flat { IsFlat rows.old.items starts.old.items columns.now.items }
    requires above { 0 < length columns.now.items → row_at (length columns.now.items - 1) 0 rows.old.items starts.old.items ≤ row }
    requires rows_room { vec_len rows.old < vec_capacity rows.old }
    requires starts_room { vec_len starts.old < vec_capacity starts.old }
    ensures flat { (j : ℕ) → j < 2 ^ 32 → IsFlat rows.new.items starts.new.items (columns.now.items ++ j ∷ []) }
    ensures before { (q : ℕ) → q < length columns.now.items → row_at q 0 rows.new.items starts.new.items ≡ row_at q 0 rows.old.items starts.old.items }
    ensures here { row_at (length columns.now.items) 0 rows.new.items starts.new.items ≡ row }
    ensures rows_len { vec_len rows.new ≤ vec_len rows.old + 1 }
    ensures rows_capacity { vec_capacity rows.new ≡ vec_capacity rows.old }
    ensures starts_len { vec_len starts.new ≤ vec_len starts.old + 1 }
    ensures starts_capacity { vec_capacity starts.new ≡ vec_capacity starts.old }
{
    let count = rows.len();
    if count == 0 {
        rows.push_reserved(row);
        starts.push_reserved(columns.len());
        return;
    }
    if rows[count - 1] == row {
        return;
    }
    rows.push_reserved(row);
    starts.push_reserved(columns.len());
}
