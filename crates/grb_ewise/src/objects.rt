//! Vectors and matrices as far as what is done to both is the same.
ghost use Rattle.std.specs.Prelude.{◌≡◌, ◌<◌, ℕ, [], length, true, false, IfOk, IsTrue};
ghost use Rattle.std.specs.Ordering.{nat_cmp};
ghost use Rattle.std.specs.declared.cmp.Ordering.{Ordering};
ghost use Rattle.std.specs.Cmp.{IsTotalOrder, nat_cmp_total};
ghost use Rattle.std.specs.FinMap.{is_sorted, IsAntisymmetric, nat_cmp-IsAntisymmetric};
ghost use Rattle.grb_core.specs.Entries.{Cell, cell_cmp};
ghost use Rattle.grb_core.specs.Written.{pointwise};
ghost use Rattle.grb_core.proofs.Maps.{cell_cmp_total, cell_cmp-IsAntisymmetric};
ghost use Rattle.grb_ewise.specs.Objects.{Contents, AreAlike, IsLike, contents_of_vector, contents_of_matrix};

use crate::rows::merge_rows;
use crate::stored::Stored;
use crate::typed_rows::lend_rows;
use grb_core::Domain;
use grb_kernels::{Rule, merged};
use grb_sparse::{SparseMatrix, SparseVector};
use std::alloc::{AllocError, Global};

/// A vector or a matrix: a map from places, which are indices or cells, to values of a domain.
pub(crate) trait SparseObject: Drop {
    /// An index, or a cell.
    ghost Place: { Type 0 };

    /// The order of the places.
    ghost order: { Place → Place → Ordering };

    /// What it stores.
    ghost contents: { Self → Contents Place };

    /// Its domain. What reading it shows: its entries are in order.
    fn stores(&self) -> Domain
        ensures domain { result ≡ (contents self.now).domain }
        ensures ordered { IsTrue (is_sorted order (contents self.now).entries) };

    /// Whether it stores nothing.
    fn is_empty(&self) -> bool
        ensures none { result ≡ true → (contents self.now).entries ≡ [] }
        ensures some { result ≡ false → 0 < length (contents self.now).entries };

    /// One like it that stores nothing. Takes no memory.
    fn emptied(&self, alloc: Global) -> Self
        ensures { IsLike (contents self.now) [] (contents result) };

    /// One like it with the same entries. `AllocError` where memory is refused; then nothing is made.
    fn copied(&self) -> Result<Self, AllocError>
        requires assembled { (contents self.now).assembled ≡ true }
        ensures like { IfOk result (λ made. IsLike (contents self.now) (contents self.now).entries (contents made)) }
        ensures ordered { IsTrue (is_sorted order (contents self.now).entries) };

    /// One like `a`, with what the rule makes of both. `AllocError` where memory is refused; then nothing is made.
    fn merged<T: Stored + Drop, U: Stored, R: Rule<T, U>>(
        alloc: Global,
        rule: &R,
        a: &Self,
        b: &Self,
    ) -> Result<Self, AllocError>
        requires alike { AreAlike (contents a.now) (contents b.now) }
        requires a_domain { (contents a.now).domain ≡ T.domain }
        requires b_domain { (contents b.now).domain ≡ U.domain }
        ensures { IfOk result (λ made. IsLike (contents a.now) (pointwise order (R.gives rule.now) (contents a.now).entries (contents b.now).entries) (contents made)) };

    /// The order is total.
    ghost total: { IsTotalOrder order };

    /// Places that are equal in that order are the same.
    ghost same: { IsAntisymmetric order };
}

impl SparseObject for SparseVector {
    ghost Place = { ℕ };

    ghost order = { nat_cmp };

    ghost contents = { contents_of_vector };

    fn stores(&self) -> Domain {
        self.dims();
        self.domain()
    }

    fn is_empty(&self) -> bool {
        self.nvals() == 0
    }

    fn emptied(&self, alloc: Global) -> SparseVector {
        SparseVector::new(alloc, self.domain(), self.dims())
    }

    fn copied(&self) -> Result<SparseVector, AllocError> {
        self.dims();
        self.try_clone()
    }

    fn merged<T: Stored + Drop, U: Stored, R: Rule<T, U>>(
        alloc: Global,
        rule: &R,
        a: &SparseVector,
        b: &SparseVector,
    ) -> Result<SparseVector, AllocError> {
        let entries = merged(alloc, rule, &T::lend(a), &U::lend(b))?;
        T::show(entries.values.as_slice());
        let made = T::keep_entries(alloc, a.dims(), entries.indices, entries.values)?;
        Ok(made)
    }

    ghost total = { nat_cmp_total };

    ghost same = { nat_cmp-IsAntisymmetric };
}

impl SparseObject for SparseMatrix {
    ghost Place = { Cell };

    ghost order = { cell_cmp };

    ghost contents = { contents_of_matrix };

    fn stores(&self) -> Domain {
        self.dims();
        self.domain()
    }

    fn is_empty(&self) -> bool {
        self.nvals() == 0
    }

    fn emptied(&self, alloc: Global) -> SparseMatrix {
        let (nrows, ncols) = self.dims();
        SparseMatrix::new(alloc, self.domain(), nrows, ncols)
    }

    fn copied(&self) -> Result<SparseMatrix, AllocError> {
        self.dims();
        self.try_clone()
    }

    fn merged<T: Stored + Drop, U: Stored, R: Rule<T, U>>(
        alloc: Global,
        rule: &R,
        a: &SparseMatrix,
        b: &SparseMatrix,
    ) -> Result<SparseMatrix, AllocError> {
        let (nrows, ncols) = a.dims();
        let lists = merge_rows::<T, U, R>(alloc, rule, ncols, &lend_rows(a), &lend_rows(b))?;
        Ok(SparseMatrix::from_lists(alloc, nrows, ncols, lists))
    }

    ghost total = { cell_cmp_total };

    ghost same = { cell_cmp-IsAntisymmetric };
}
