//! Objects made of flat lists that were written elsewhere, with no copy.
ghost use Rattle.std.specs.Prelude.{◌≡◌, length, IfOk};
ghost use Rattle.grb_core.specs.Contents.{IsVector, IsMatrix};
ghost use Rattle.grb_rows.specs.Stored.{bool_entries, number_entries};
ghost use Rattle.grb_rows.specs.Cells.{decoded};
ghost use Rattle.grb_sparse.specs.Vector.{settled_vector};
ghost use Rattle.grb_sparse.specs.Matrix.{settled_matrix};

use crate::matrix::SparseMatrix;
use crate::vector::SparseVector;
use grb_core::Domain;
use grb_rows::{FlatRows, Held};
use std::alloc::{AllocError, Global};

impl SparseVector {
    /// The vector of these entries, assembled. Takes no memory, and gives back what no entry takes.
    pub(crate) fn from_row(alloc: Global, size: u64, mut row: FlatRows) -> SparseVector
        requires whole { IsVector (record { domain = row.domain; size = size; entries = row.entries }) }
        ensures { result ≡ settled_vector row.domain size row.entries }
    {
        row.shrink();
        SparseVector {
            size,
            held: Held::of(alloc, row, true),
        }
    }

    /// The vector of `size` that stores these truth values at these indices, assembled. The lists are kept, and not copied; memory is taken
    /// for the list of its one row. `AllocError` where that is refused; then both lists are dropped.
    ///
    /// Source: own.
    pub fn from_bools(
        alloc: Global,
        size: u64,
        indices: Vec<u32>,
        bools: Vec<bool>,
    ) -> Result<SparseVector, AllocError>
        requires same { length bools.items ≡ length indices.items }
        requires whole { IsVector (record { domain = Domain.Bool; size = size; entries = bool_entries indices.items bools.items }) }
        ensures { IfOk result (λ v. v ≡ settled_vector Domain.Bool size (bool_entries indices.items bools.items)) }
    {
        let row = FlatRows::row_from_bools(alloc, indices, bools)?;
        Ok(SparseVector::from_row(alloc, size, row))
    }

    /// The vector of `size` that stores these numbers at these indices, assembled. The lists are kept, and not copied; memory is taken for
    /// the list of its one row. `AllocError` where that is refused; then both lists are dropped.
    ///
    /// Source: own.
    pub fn from_numbers(
        alloc: Global,
        size: u64,
        indices: Vec<u32>,
        numbers: Vec<u64>,
    ) -> Result<SparseVector, AllocError>
        requires same { length numbers.items ≡ length indices.items }
        requires whole { IsVector (record { domain = Domain.Uint64; size = size; entries = number_entries indices.items numbers.items }) }
        ensures { IfOk result (λ v. v ≡ settled_vector Domain.Uint64 size (number_entries indices.items numbers.items)) }
    {
        let row = FlatRows::row_from_numbers(alloc, indices, numbers)?;
        Ok(SparseVector::from_row(alloc, size, row))
    }
}

impl SparseMatrix {
    /// The matrix of `nrows` rows and `ncols` columns that stores these lists, assembled. Takes no memory, and gives back what no entry
    /// takes, where a list has room for more than an eighth of what it holds.
    ///
    /// Source: own.
    pub fn from_lists(alloc: Global, nrows: u64, ncols: u64, mut lists: FlatRows) -> SparseMatrix
        requires whole { IsMatrix (record { domain = lists.domain; nrows = nrows; ncols = ncols; entries = decoded lists.entries }) }
        ensures { result ≡ settled_matrix lists.domain nrows ncols (decoded lists.entries) }
    {
        lists.shrink();
        SparseMatrix {
            nrows,
            ncols,
            held: Held::of(alloc, lists, true),
        }
    }
}
