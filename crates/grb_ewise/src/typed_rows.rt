//! Flat lists that are lent, in the Rust type of their domain.
ghost use Rattle.std.specs.Prelude.{◌≡◌, ◌<◌, true, IsTrue};
ghost use Rattle.std.specs.FinMap.{is_sorted};
ghost use Rattle.grb_core.specs.Entries.{cell_cmp};
ghost use Rattle.grb_core.specs.Contents.{IsMatrix};
ghost use Rattle.grb_lists.specs.Cells.{decoded};

use grb_kernels::Scalar;
use grb_sparse::{FlatRows, SparseMatrix};
use std::marker::PhantomData;

/// Flat lists that are lent, in order, whose values are of the Rust type `T`.
#[derive(Drop)]
pub(crate) struct TypedRows<'a, T: Scalar> {
    pub(crate) lists: &'a FlatRows,
    pub(crate) of: PhantomData<T>,
    ghost domain: { lists.now.domain ≡ T.domain },
    ghost ordered: { IsTrue (is_sorted cell_cmp (decoded lists.now.entries)) },
}

/// The flat lists of a matrix, whose values are of the Rust type `T`.
pub(crate) fn lend_rows<'a, T: Scalar>(matrix: &'a SparseMatrix) -> TypedRows<'a, T>
    requires assembled { matrix.now.assembled ≡ true }
    requires domain { matrix.now.matrix.domain ≡ T.domain }
    ensures entries { decoded result.lists.now.entries ≡ matrix.now.matrix.entries }
    ensures whole { IsMatrix matrix.now.matrix }
{
    TypedRows {
        lists: matrix.lists(),
        of: PhantomData,
    }
}
