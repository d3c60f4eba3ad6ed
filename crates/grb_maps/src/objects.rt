//! What is made of each entry of a whole object, of a vector and of a matrix alike.
ghost use Rattle.std.specs.Prelude.{◌≡◌, ℕ, true, All, IfOk};
ghost use Rattle.grb_core.specs.Value.{IsValueOf};
ghost use Rattle.grb_core.specs.Entries.{Cell};
ghost use Rattle.grb_ewise.specs.Objects.{Contents, IsLike, contents_of_vector, contents_of_matrix};
ghost use Rattle.grb_core.specs.Each.{each_made};
ghost use Rattle.grb_maps.specs.Changed.{with_values};

use crate::changing::{Change, change_rows, change_values};
use crate::each::{Each, make_list};
use crate::rows::make_rows;
use grb_ewise::Stored;
use grb_lists::copied;
use grb_sparse::{SparseMatrix, SparseVector};
use std::alloc::{AllocError, Global};

/// A vector or a matrix: a map from places, which are indices or cells, to values of a domain. An index is a column of row 0.
pub(crate) trait EachObject: Drop {
    /// An index, or a cell.
    ghost Place: { Type 0 };

    /// The row of a place.
    ghost row_at: { Place → ℕ };

    /// The column of a place.
    ghost column_at: { Place → ℕ };

    /// What it stores.
    ghost contents: { Self → Contents Place };

    /// All values are of the domain. It only shows that.
    fn show(&self)
        ensures { All (λ e. IsValueOf (contents self.now).domain e.1) (contents self.now).entries };

    /// One like it, with what is made of each entry. `AllocError` where memory is refused; then nothing is made.
    fn made<T: Stored + Drop, E: Each<T>>(
        alloc: Global,
        each: &E,
        a: &Self,
    ) -> Result<Self, AllocError>
        requires assembled { (contents a.now).assembled ≡ true }
        requires domain { (contents a.now).domain ≡ T.domain }
        ensures { IfOk result (λ made. IsLike (contents a.now) (each_made (λ k v. E.row_gives each.now (row_at k) (column_at k) v) (contents a.now).entries) (contents made)) };

    /// One like it, with what is made of each value. `AllocError` where memory is refused; then nothing is made.
    fn changed<T: Stored + Drop, C: Change<T>>(
        alloc: Global,
        change: &C,
        a: &Self,
    ) -> Result<Self, AllocError>
        requires assembled { (contents a.now).assembled ≡ true }
        requires domain { (contents a.now).domain ≡ T.domain }
        ensures { IfOk result (λ made. IsLike (contents a.now) (with_values (C.gives change.now) (contents a.now).entries) (contents made)) };
}

impl EachObject for SparseMatrix {
    ghost Place = { Cell };

    ghost row_at = { λ cell. cell.0 };

    ghost column_at = { λ cell. cell.1 };

    ghost contents = { contents_of_matrix };

    fn show(&self) {
        self.dims();
    }

    fn made<T: Stored + Drop, E: Each<T>>(
        alloc: Global,
        each: &E,
        a: &SparseMatrix,
    ) -> Result<SparseMatrix, AllocError> {
        let (nrows, ncols) = a.dims();
        let lists = make_rows::<T, E>(alloc, each, a.lists())?;
        Ok(SparseMatrix::from_lists(alloc, nrows, ncols, lists))
    }

    fn changed<T: Stored + Drop, C: Change<T>>(
        alloc: Global,
        change: &C,
        a: &SparseMatrix,
    ) -> Result<SparseMatrix, AllocError> {
        let (nrows, ncols) = a.dims();
        let lists = change_rows::<T, C>(alloc, change, a.lists())?;
        Ok(SparseMatrix::from_lists(alloc, nrows, ncols, lists))
    }
}

impl EachObject for SparseVector {
    ghost Place = { ℕ };

    ghost row_at = { λ j. 0 };

    ghost column_at = { λ j. j };

    ghost contents = { contents_of_vector };

    fn show(&self) {
        self.dims();
    }

    fn made<T: Stored + Drop, E: Each<T>>(
        alloc: Global,
        each: &E,
        a: &SparseVector,
    ) -> Result<SparseVector, AllocError> {
        let here = each.in_row(0);
        let list = make_list(alloc, &here, &T::lend(a))?;
        T::show(list.values.as_slice());
        let made = T::keep_entries(alloc, a.dims(), list.indices, list.values)?;
        Ok(made)
    }

    fn changed<T: Stored + Drop, C: Change<T>>(
        alloc: Global,
        change: &C,
        a: &SparseVector,
    ) -> Result<SparseVector, AllocError> {
        let list = T::lend(a);
        let indices = copied(alloc, list.indices)?;
        let values = change_values(alloc, change, list.values)?;
        T::show(values.as_slice());
        let made = T::keep_entries(alloc, a.dims(), indices, values)?;
        Ok(made)
    }
}
