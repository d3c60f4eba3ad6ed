//! The rows of a matrix that a kernel reads, in the Rust type of its domain.
ghost use Rattle.std.specs.Prelude.{◌≡◌, ◌<◌, ◌^◌, true, All, IsTrue};
ghost use Rattle.std.specs.FinMap.{is_sorted};
ghost use Rattle.grb_core.specs.Entries.{cell_cmp};
ghost use Rattle.grb_core.specs.Contents.{IsMatrix};
ghost use Rattle.grb_lists.specs.Cells.{decoded};

use grb_kernels::Scalar;
use grb_lists::FlatRows;
use grb_sparse::SparseMatrix;
use std::marker::PhantomData;

/// A matrix that is lent to a kernel: how many columns it has, below 2^32, and its flat lists, in order, whose values are of the Rust
/// type `T` and whose columns are below that number.
///
/// Source: own.
#[derive(Drop)]
pub struct MatrixRows<'a, T: Scalar> {
    /// The number of columns.
    pub ncols: u64,
    /// The entries, as compressed rows.
    pub lists: &'a FlatRows,
    /// The Rust type of the values.
    pub of: PhantomData<T>,
    ghost few: { ncols < 2 ^ 32 },
    ghost domain: { lists.now.domain ≡ T.domain },
    ghost ordered: { IsTrue (is_sorted cell_cmp (decoded lists.now.entries)) },
    ghost in_range: { All (λ e. e.0.1 < ncols) (decoded lists.now.entries) },
}

/// Lends a matrix to a kernel whose values are of the Rust type of its domain: of assembled matrices alone. Nothing is copied.
///
/// Source: own.
pub fn lend_matrix<'a, T: Scalar>(matrix: &'a SparseMatrix) -> MatrixRows<'a, T>
    requires assembled { matrix.now.assembled ≡ true }
    requires domain { matrix.now.matrix.domain ≡ T.domain }
    ensures ncols { result.ncols ≡ matrix.now.matrix.ncols }
    ensures entries { decoded result.lists.now.entries ≡ matrix.now.matrix.entries }
    ensures whole { IsMatrix matrix.now.matrix }
{
    let (_nrows, ncols) = matrix.dims();
    MatrixRows {
        ncols,
        lists: matrix.lists(),
        of: PhantomData,
    }
}
