//! The values of sparse objects in the Rust type of their domain.
ghost use Rattle.std.specs.Prelude.{◌≡◌, ◌<◌, true, map, length, slice_index, All, IfOk, IsTrue};
ghost use Rattle.std.specs.FinMap.{is_sorted};
ghost use Rattle.grb_core.specs.declared.domain.Domain.TheVariants as domain;
ghost use Rattle.grb_core.specs.declared.value.Value.TheVariants as value;
ghost use Rattle.grb_core.specs.Value.{IsValueOf};
ghost use Rattle.grb_core.specs.Entries.{cell_cmp, values_of};
ghost use Rattle.grb_core.specs.Contents.{IsVector};
ghost use Rattle.grb_core.specs.Results.{row_of};
ghost use Rattle.grb_kernels.specs.Typed.{entries_of};
ghost use Rattle.grb_lists.specs.Cells.{decoded, IsFlat};
ghost use Rattle.grb_ewise.specs.Made.{listed_vector};
ghost use Rattle.grb_ewise.specs.Rows.{flat_entries};

use grb_kernels::{EntryList, EntrySlice, Operated};
use grb_lists::FlatRows;
use grb_sparse::SparseVector;
use std::alloc::{AllocError, Global};

/// A Rust type in which objects of its domain keep their values. No method takes memory.
///
/// Source: own.
pub trait Stored: Operated {
    /// The value itself. What reading it shows: it is one of the domain.
    fn read(self) -> Self
        ensures same { result ≡ self }
        ensures of_domain { IsValueOf Self.domain (Self.value self) };

    /// All values of a list are ones of the domain. It only shows that.
    fn show(values: &[Self])
        ensures { All (λ v. IsValueOf Self.domain (Self.value v)) values.now };

    /// The entries of a vector.
    fn lend(vector: &SparseVector) -> EntrySlice<'_, Self>
        requires assembled { vector.now.assembled ≡ true }
        requires domain { vector.now.vector.domain ≡ Self.domain }
        ensures entries { entries_of Self.value result.indices.now result.values.now ≡ vector.now.vector.entries }
        ensures below { All (λ j. j < vector.now.vector.size) result.indices.now }
        ensures whole { IsVector vector.now.vector }
    {
        EntrySlice {
            indices: vector.indices(),
            values: Self::of_vector(vector),
        }
    }

    /// The values of a vector, in the order of their indices.
    fn of_vector(vector: &SparseVector) -> &[Self]
        requires assembled { vector.now.assembled ≡ true }
        requires domain { vector.now.vector.domain ≡ Self.domain }
        ensures { map Self.value result.now ≡ values_of vector.now.vector.entries };

    /// The values of all entries of a matrix, row by row.
    fn of_lists(lists: &FlatRows) -> &[Self]
        requires { lists.now.domain ≡ Self.domain }
        ensures { map Self.value result.now ≡ values_of lists.now.entries };

    /// The values of the `k`th row of a matrix that has entries, in the order of their columns.
    fn of_row(lists: &FlatRows, k: usize) -> &[Self]
        requires at { k < length lists.now.rows }
        requires domain { lists.now.domain ≡ Self.domain }
        ensures { map Self.value result.now ≡ values_of (row_of (slice_index lists.now.rows k) (decoded lists.now.entries)) };

    /// The entries of the `k`th row of a matrix that has entries, by column.
    fn row(lists: &FlatRows, k: usize) -> EntrySlice<'_, Self>
        requires at { k < length lists.now.rows }
        requires domain { lists.now.domain ≡ Self.domain }
        requires ordered { IsTrue (is_sorted cell_cmp (decoded lists.now.entries)) }
        ensures { entries_of Self.value result.indices.now result.values.now ≡ row_of (slice_index lists.now.rows k) (decoded lists.now.entries) }
    {
        EntrySlice {
            indices: lists.row_columns(k),
            values: Self::of_row(lists, k),
        }
    }

    /// The flat lists of these rows, where each of them begins, and the column and the value of each entry. They are not copied.
    fn keep(rows: Vec<u32>, starts: Vec<usize>, columns: Vec<u32>, values: Vec<Self>) -> FlatRows
        requires flat { IsFlat rows.items starts.items columns.items }
        requires same { length values.items ≡ length columns.items }
        requires ordered { IsTrue (is_sorted cell_cmp (flat_entries Self.value rows.items starts.items columns.items values.items)) }
        ensures entries { decoded result.entries ≡ flat_entries Self.value rows.items starts.items columns.items values.items }
        ensures domain { result.domain ≡ Self.domain };

    /// The vector of `size` that stores these values at these indices. They are not copied. `AllocError` where memory is refused; then the
    /// lists are dropped.
    fn keep_entries(
        alloc: Global,
        size: u64,
        indices: Vec<u32>,
        values: Vec<Self>,
    ) -> Result<SparseVector, AllocError>
        requires same { length values.items ≡ length indices.items }
        requires whole { IsVector (listed_vector Self.domain size Self.value indices.items values.items).vector }
        ensures { IfOk result (λ v. v ≡ listed_vector Self.domain size Self.value indices.items values.items) };

    /// A clone of a value is that value.
    ghost same_clone: { (x y : Self) → Self.is_clone x y → y ≡ x };
}

impl Stored for bool {
    fn read(self) -> bool {
        self
    }

    fn show(_values: &[bool]) {}

    fn of_vector(vector: &SparseVector) -> &[bool] {
        vector.bools()
    }

    fn of_lists(lists: &FlatRows) -> &[bool] {
        lists.bools()
    }

    fn of_row(lists: &FlatRows, k: usize) -> &[bool] {
        lists.row_bools(k)
    }

    fn keep(rows: Vec<u32>, starts: Vec<usize>, columns: Vec<u32>, values: Vec<bool>) -> FlatRows
        requires flat { IsFlat rows.items starts.items columns.items }
        requires same { length values.items ≡ length columns.items }
        requires ordered { IsTrue (is_sorted cell_cmp (flat_entries (λ b. value.Bool b) rows.items starts.items columns.items values.items)) }
        ensures entries { decoded result.entries ≡ flat_entries (λ b. value.Bool b) rows.items starts.items columns.items values.items }
        ensures domain { result.domain ≡ domain.Bool }
    {
        FlatRows::from_bools(rows, starts, columns, values)
    }

    fn keep_entries(
        alloc: Global,
        size: u64,
        indices: Vec<u32>,
        values: Vec<bool>,
    ) -> Result<SparseVector, AllocError>
        requires same { length values.items ≡ length indices.items }
        requires whole { IsVector (listed_vector domain.Bool size (λ b. value.Bool b) indices.items values.items).vector }
        ensures { IfOk result (λ v. v ≡ listed_vector domain.Bool size (λ b. value.Bool b) indices.items values.items) }
    {
        SparseVector::from_bools(alloc, size, indices, values)
    }

    ghost same_clone = { λ x y e. e };
}

impl Stored for u64 {
    fn read(self) -> u64 {
        self
    }

    fn show(_values: &[u64]) {}

    fn of_vector(vector: &SparseVector) -> &[u64] {
        vector.numbers()
    }

    fn of_lists(lists: &FlatRows) -> &[u64] {
        lists.numbers()
    }

    fn of_row(lists: &FlatRows, k: usize) -> &[u64] {
        lists.row_numbers(k)
    }

    fn keep(rows: Vec<u32>, starts: Vec<usize>, columns: Vec<u32>, values: Vec<u64>) -> FlatRows
        requires flat { IsFlat rows.items starts.items columns.items }
        requires same { length values.items ≡ length columns.items }
        requires ordered { IsTrue (is_sorted cell_cmp (flat_entries (λ n. value.Uint64 n) rows.items starts.items columns.items values.items)) }
        ensures entries { decoded result.entries ≡ flat_entries (λ n. value.Uint64 n) rows.items starts.items columns.items values.items }
        ensures domain { result.domain ≡ domain.Uint64 }
    {
        FlatRows::from_numbers(rows, starts, columns, values)
    }

    fn keep_entries(
        alloc: Global,
        size: u64,
        indices: Vec<u32>,
        values: Vec<u64>,
    ) -> Result<SparseVector, AllocError>
        requires same { length values.items ≡ length indices.items }
        requires whole { IsVector (listed_vector domain.Uint64 size (λ n. value.Uint64 n) indices.items values.items).vector }
        ensures { IfOk result (λ v. v ≡ listed_vector domain.Uint64 size (λ n. value.Uint64 n) indices.items values.items) }
    {
        SparseVector::from_numbers(alloc, size, indices, values)
    }

    ghost same_clone = { λ x y e. e };
}

/// The vector of these truth values. They are not copied. `AllocError` where memory is refused; then the entries are dropped.
///
/// Source: own.
pub fn keep_bools(
    alloc: Global,
    size: u64,
    entries: EntryList<bool>,
) -> Result<SparseVector, AllocError>
    requires whole { IsVector (listed_vector domain.Bool size (λ b. value.Bool b) entries.indices.items entries.values.items).vector }
    ensures { IfOk result (λ v. v ≡ listed_vector domain.Bool size (λ b. value.Bool b) entries.indices.items entries.values.items) }
{
    bool::keep_entries(alloc, size, entries.indices, entries.values)
}

/// The vector of these numbers. They are not copied. `AllocError` where memory is refused; then the entries are dropped.
///
/// Source: own.
pub fn keep_numbers(
    alloc: Global,
    size: u64,
    entries: EntryList<u64>,
) -> Result<SparseVector, AllocError>
    requires whole { IsVector (listed_vector domain.Uint64 size (λ n. value.Uint64 n) entries.indices.items entries.values.items).vector }
    ensures { IfOk result (λ v. v ≡ listed_vector domain.Uint64 size (λ n. value.Uint64 n) entries.indices.items entries.values.items) }
{
    u64::keep_entries(alloc, size, entries.indices, entries.values)
}
