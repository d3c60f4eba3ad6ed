//! Objects made of arrays, where the places of these rise.
ghost use Rattle.std.specs.Prelude.{◌≡◌, true, length, map, IfOk, IfSome, IfNone};
ghost use Rattle.grb_core.specs.declared.domain.Domain.TheVariants as domain;
ghost use Rattle.grb_core.specs.declared.value.Value.TheVariants as value;
ghost use Rattle.grb_rows.specs.Stored.{bool_entries, number_entries};
ghost use Rattle.grb_rows.specs.Arrays.{AreIndicesRising, AreRising};
ghost use Rattle.grb_sparse.specs.Arrays.{entries_of_arrays};

use crate::matrix::SparseMatrix;
use crate::vector::SparseVector;
use grb_rows::{FlatRows, dims_of_rising, size_of_rising};
use std::alloc::{AllocError, Global};

impl SparseMatrix {
    /// A matrix of these arrays, a row, a column and a truth value at each place, if each cell comes before the next one and the largest
    /// dimensions have them all; else `None`. It is assembled, and copies may share its entries. The arrays are copied once. `AllocError`
    /// where memory is refused; then nothing is made.
    ///
    /// Source: own.
    pub fn of_bools(
        alloc: Global,
        rows: &[u64],
        columns: &[u64],
        bools: &[bool],
    ) -> Result<Option<SparseMatrix>, AllocError>
        requires columns { length columns.now ≡ length rows.now }
        requires bools { length bools.now ≡ length rows.now }
        ensures entries { IfOk result (λ made. IfSome made (λ a. a.matrix.entries ≡ entries_of_arrays rows.now columns.now (map (λ b. value.Bool b) bools.now))) }
        ensures domain { IfOk result (λ made. IfSome made (λ a. a.matrix.domain ≡ domain.Bool)) }
        ensures assembled { IfOk result (λ made. IfSome made (λ a. a.assembled ≡ true)) }
        ensures rising { IfOk result (λ made. IfNone made (AreRising rows.now columns.now → ⊥)) }
    {
        let Some((nrows, ncols)) = dims_of_rising(rows, columns) else {
            return Ok(None);
        };
        let lists = FlatRows::of_bool_arrays(alloc, rows, columns, bools)?;
        let mut matrix = SparseMatrix::from_lists(alloc, nrows, ncols, lists);
        matrix.make_shareable();
        Ok(Some(matrix))
    }

    /// The same with a number at each place.
    ///
    /// Source: own.
    pub fn of_numbers(
        alloc: Global,
        rows: &[u64],
        columns: &[u64],
        numbers: &[u64],
    ) -> Result<Option<SparseMatrix>, AllocError>
        requires columns { length columns.now ≡ length rows.now }
        requires numbers { length numbers.now ≡ length rows.now }
        ensures entries { IfOk result (λ made. IfSome made (λ a. a.matrix.entries ≡ entries_of_arrays rows.now columns.now (map (λ n. value.Uint64 n) numbers.now))) }
        ensures domain { IfOk result (λ made. IfSome made (λ a. a.matrix.domain ≡ domain.Uint64)) }
        ensures assembled { IfOk result (λ made. IfSome made (λ a. a.assembled ≡ true)) }
        ensures rising { IfOk result (λ made. IfNone made (AreRising rows.now columns.now → ⊥)) }
    {
        let Some((nrows, ncols)) = dims_of_rising(rows, columns) else {
            return Ok(None);
        };
        let lists = FlatRows::of_number_arrays(alloc, rows, columns, numbers)?;
        let mut matrix = SparseMatrix::from_lists(alloc, nrows, ncols, lists);
        matrix.make_shareable();
        Ok(Some(matrix))
    }
}

impl SparseVector {
    /// A vector of these arrays, an index and a truth value at each place, if each index is below the next one and the largest size has
    /// them all; else `None`. It is assembled, and copies may share its entries. The arrays are copied once. `AllocError` where memory is
    /// refused; then nothing is made.
    ///
    /// Source: own.
    pub fn of_bools(
        alloc: Global,
        indices: &[u64],
        bools: &[bool],
    ) -> Result<Option<SparseVector>, AllocError>
        requires { length bools.now ≡ length indices.now }
        ensures entries { IfOk result (λ made. IfSome made (λ v. v.vector.entries ≡ bool_entries indices.now bools.now)) }
        ensures domain { IfOk result (λ made. IfSome made (λ v. v.vector.domain ≡ domain.Bool)) }
        ensures assembled { IfOk result (λ made. IfSome made (λ v. v.assembled ≡ true)) }
        ensures rising { IfOk result (λ made. IfNone made (AreIndicesRising indices.now → ⊥)) }
    {
        let Some(size) = size_of_rising(indices) else {
            return Ok(None);
        };
        let row = FlatRows::row_of_bool_arrays(alloc, indices, bools)?;
        let mut vector = SparseVector::from_row(alloc, size, row);
        vector.make_shareable();
        Ok(Some(vector))
    }

    /// The same with a number at each place.
    ///
    /// Source: own.
    pub fn of_numbers(
        alloc: Global,
        indices: &[u64],
        numbers: &[u64],
    ) -> Result<Option<SparseVector>, AllocError>
        requires { length numbers.now ≡ length indices.now }
        ensures entries { IfOk result (λ made. IfSome made (λ v. v.vector.entries ≡ number_entries indices.now numbers.now)) }
        ensures domain { IfOk result (λ made. IfSome made (λ v. v.vector.domain ≡ domain.Uint64)) }
        ensures assembled { IfOk result (λ made. IfSome made (λ v. v.assembled ≡ true)) }
        ensures rising { IfOk result (λ made. IfNone made (AreIndicesRising indices.now → ⊥)) }
    {
        let Some(size) = size_of_rising(indices) else {
            return Ok(None);
        };
        let row = FlatRows::row_of_number_arrays(alloc, indices, numbers)?;
        let mut vector = SparseVector::from_row(alloc, size, row);
        vector.make_shareable();
        Ok(Some(vector))
    }
}
