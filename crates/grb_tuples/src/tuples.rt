//! The lists of places and values that a build takes.
ghost use Rattle.std.specs.Prelude.{◌≡◌, ◌<◌, ◌/◌, ◌%◌, ◌^◌, ◌&&◌, ℕ, nat_lt, [], length, map, true, slice_index_or, All, IfOk, OnOk, OnErr};
ghost use Rattle.grb_core.specs.declared.value.Value.{Value as StoredValue};
ghost use Rattle.std.specs.Ordering.{nat_cmp};
ghost use Rattle.std.specs.List.{list_all};
ghost use Rattle.std.specs.Cmp.Lexicographic.{pointwise, lists_per, lists_equiv};
ghost use Rattle.std.specs.Cmp.Rules.{comparing};
ghost use Rattle.std.proofs.Common.{rules};
ghost use Rattle.grb_core.specs.Value.{value_domain};
ghost use Rattle.grb_core.specs.Monoid.{monoid_domain};
ghost use Rattle.grb_core.specs.Entries.{built_from, cell_cmp, cells_of};
ghost use Rattle.grb_core.specs.Contents.{edited_matrix, edited_vector};
ghost use Rattle.grb_sparse.specs.Matrix.{decoded};
ghost use Rattle.grb_tuples.specs.SameDomain.{same_domain};
ghost use Rattle.grb_tuples.specs.Tuples.{tuples_of};

use crate::apart::{are_cells_within, are_indices_below, are_values_of, build_apart_matrix};
use crate::sources::{
    MatrixSource, VectorSource, build_stored_matrix, build_stored_vector, is_matrix_of,
    is_matrix_within, is_vector_of, is_vector_within, matrix_list, vector_list,
};
use grb_core::{Domain, Monoid, Value};
use grb_sparse::{ApartTuples, SparseMatrix, SparseVector};
use std::alloc::AllocError;
use std::marker::Model;
use std::sync::Arc;

/// The list from which a vector is built: indices from 0, each with a value. An index may stand more than once.
///
/// It is a list of its own, or two that lie apart ([`VectorTuples::from_apart`]), or the entries of a vector that is there already
/// ([`VectorTuples::from_vector`]). Copies share it. What a check asks of
/// all tuples is known without a walk of them, unless that vector is larger than the one that is built.
///
/// Source: GraphBLAS C API 2.0, `GrB_Vector_build`.
#[derive(Drop)]
pub struct VectorTuples {
    source: VectorSource,
}

/// The list from which a matrix is built: rows and columns from 0, each pair with a value. A pair may stand more than once.
///
/// It is a list of its own, or two that lie apart ([`MatrixTuples::from_apart`]), or the entries of a matrix that is there already
/// ([`MatrixTuples::from_matrix`]). Copies share it. What a check asks of
/// all tuples is known without a walk of them, unless that matrix is larger than the one that is built.
///
/// Source: GraphBLAS C API 2.0, `GrB_Matrix_build`.
#[derive(Drop)]
pub struct MatrixTuples {
    source: MatrixSource,
}

impl Model for VectorTuples {
    ghost use Rattle.std.specs.Prelude.{List, ℕ};
    ghost use Rattle.grb_core.specs.declared.value.Value.{Value as StoredValue};
    ghost use Rattle.grb_tuples.specs.Sources.{IsVectorSource, vector_tuples_in};

    ghost Value = { List (ℕ × StoredValue) };

    ghost view = { λ t. vector_tuples_in t.source };

    ghost invariant = { λ t. IsVectorSource t.source };
}

impl Model for MatrixTuples {
    ghost use Rattle.std.specs.Prelude.{List, ℕ};
    ghost use Rattle.grb_core.specs.declared.value.Value.{Value as StoredValue};
    ghost use Rattle.grb_tuples.specs.Sources.{IsMatrixSource, matrix_tuples_in};

    ghost Value = { List (ℕ × ℕ × StoredValue) };

    ghost view = { λ t. matrix_tuples_in t.source };

    ghost invariant = { λ t. IsMatrixSource t.source };
}

impl Clone for VectorTuples {
    ghost is_clone = { λ tuples copy. copy ≡ tuples };

    /// One more share of the list, which is not copied and takes no memory. `AllocError` where 2^63 - 1 hold it already; then nothing
    /// changes.
    fn clone(&self) -> Result<Self, AllocError> {
        let source = match &self.source {
            VectorSource::Listed(list) => VectorSource::Listed(Arc::try_clone(list)?),
            VectorSource::Apart(list) => VectorSource::Apart(Arc::try_clone(list)?),
            VectorSource::Stored(vector) => VectorSource::Stored(Arc::try_clone(vector)?),
        };
        Ok(VectorTuples { source })
    }
}

impl PartialEq for VectorTuples {
    ghost eq = { pointwise ⟦<(u64, Value) as PartialEq>⟧.eq };

    ghost laws = { lists_per (Prim.search (comparing, rules)) };

    fn eq(&self, other: &Self) -> bool {
        are_vectors_alike(self, other)
    }
}

/// Whether two lists have the same tuples, in one order.
fn are_vectors_alike(a: &VectorTuples, b: &VectorTuples) -> bool
    ensures { result ≡ pointwise ⟦<(u64, Value) as PartialEq>⟧.eq a.now b.now }
{
    let count = a.count();
    if b.count() != count {
        return false;
    }
    let mut in_a = 0;
    let mut in_b = 0;
    for at in 0..count {
        if a.tuple_at(at, &mut in_a) != b.tuple_at(at, &mut in_b) {
            return false;
        }
    }
    true
}

/// Whether two lists have the same tuples, in one order.
fn are_vectors_listed(a: &[(u64, Value)], b: &[(u64, Value)]) -> bool
    ensures { result ≡ true → a.now ≡ b.now }
{
    a == b
}

impl Eq for VectorTuples {
    ghost laws = { lists_equiv (Prim.search (comparing, rules)) };
}

impl VectorTuples {
    /// The tuples of this `Vec`, in its order. Walks them once, and takes memory for one block, which counts who shares the list.
    /// `AllocError` where that is refused; then the list is dropped.
    pub fn from_vec(tuples: Vec<(u64, Value)>) -> Result<VectorTuples, AllocError>
        ensures { IfOk result (λ list. list ≡ tuples.items) }
    {
        let alloc = *tuples.allocator();
        let list = vector_list(tuples);
        Ok(VectorTuples {
            source: VectorSource::Listed(Arc::new(alloc, list)?),
        })
    }

    /// The entries of this vector, in their order. They are shared, and none is copied: a build of them takes the time of a `new`. Takes no
    /// memory.
    pub fn from_vector(vector: Arc<SparseVector>) -> VectorTuples
        requires assembled { vector.value.assembled ≡ true }
        ensures { result ≡ vector.value.vector.entries }
    {
        VectorTuples {
            source: VectorSource::Stored(vector),
        }
    }

    /// The tuples of these lists, in their order. Takes no memory.
    pub fn from_apart(list: Arc<ApartTuples>) -> VectorTuples
        requires fit { All (λ e. e.0 < 2 ^ 32) list.value }
        ensures { result ≡ list.value }
    {
        VectorTuples {
            source: VectorSource::Apart(list),
        }
    }

    /// The number of tuples.
    fn count(&self) -> usize
        ensures { result ≡ length self.now }
    {
        match &self.source {
            VectorSource::Listed(list) => list.tuples.len(),
            VectorSource::Apart(list) => list.len(),
            VectorSource::Stored(vector) => vector.lists().len(),
        }
    }

    /// The tuple at a place. A walk over all places keeps in `hint` where the one before was found.
    fn tuple_at(&self, at: usize, hint: &mut usize) -> (u64, Value)
        requires { at < length self.now }
        ensures { (d : ℕ × StoredValue) → result ≡ slice_index_or self.now at d }
    {
        match &self.source {
            VectorSource::Listed(list) => list.tuples[at],
            VectorSource::Apart(list) => (list.cell_at(at), list.value_at(at)),
            VectorSource::Stored(vector) => {
                let lists = vector.lists();
                (lists.index_at(at, hint), lists.value_at(at))
            }
        }
    }

    /// Whether both are known to be one list: where both stand in one form, their lists are compared, each whole. Of equal lists that stand in
    /// different forms it answers no. Takes no memory.
    pub fn is_one(&self, other: &VectorTuples) -> bool
        ensures { result ≡ true → self.now ≡ other.now }
    {
        match &self.source {
            VectorSource::Listed(list) => match &other.source {
                VectorSource::Listed(others) => are_vectors_listed(&list.tuples, &others.tuples),
                VectorSource::Apart(_) | VectorSource::Stored(_) => false,
            },
            VectorSource::Apart(list) => match &other.source {
                VectorSource::Apart(others) => list.is_same(others),
                VectorSource::Listed(_) | VectorSource::Stored(_) => false,
            },
            VectorSource::Stored(vector) => match &other.source {
                VectorSource::Stored(others) => vector.is_same(others),
                VectorSource::Listed(_) | VectorSource::Apart(_) => false,
            },
        }
    }

    /// How many tuples a build has to look at: none, where they are the entries of an object. Takes no memory.
    pub fn listed(&self) -> usize {
        match &self.source {
            VectorSource::Listed(list) => list.tuples.len(),
            VectorSource::Apart(list) => list.len(),
            VectorSource::Stored(_) => 0,
        }
    }

    /// Builds a vector that stores nothing, as [`SparseVector::build`] does; the values of one place are combined by `dup`. Where the tuples
    /// are the entries of an object, these are shared and not copied. `AllocError` where memory is refused, and then nothing changes.
    pub fn build(&self, vector: &mut SparseVector, dup: Monoid) -> Result<(), AllocError>
        requires empty { vector.old.vector.entries ≡ [] }
        requires in_range { All (λ e. e.0 < vector.old.vector.size) self.now }
        requires same_domain { monoid_domain dup ≡ vector.old.vector.domain }
        requires tuples_domain { All (λ e. value_domain e.1 ≡ vector.old.vector.domain) self.now }
        ensures ok { OnOk result (vector.new.vector ≡ edited_vector (λ _. built_from nat_cmp dup self.now) vector.old.vector) }
        ensures err { OnErr result (vector.new.vector ≡ vector.old.vector) }
    {
        match &self.source {
            VectorSource::Listed(list) => vector.build(&list.tuples, dup),
            VectorSource::Apart(list) => vector.build_apart(list, dup),
            VectorSource::Stored(stored) => build_stored_vector(stored, vector, dup),
        }
    }

    /// Whether all values are of the domain. Walks nothing.
    pub fn are_of(&self, domain: Domain) -> bool
        ensures { result ≡ list_all (same_domain domain) (map (λ e. value_domain e.1) self.now) }
    {
        match &self.source {
            VectorSource::Listed(list) => list.domains.are(domain),
            VectorSource::Apart(list) => are_values_of(list, domain),
            VectorSource::Stored(vector) => is_vector_of(vector, domain),
        }
    }

    /// Whether all indices are below the size. Walks nothing, unless the tuples are the entries of a vector that is larger.
    pub fn are_within(&self, size: u64) -> bool
        ensures { result ≡ list_all (λ e. nat_lt e.0 size) self.now }
    {
        match &self.source {
            VectorSource::Listed(list) => list.indices.is_below(size),
            VectorSource::Apart(list) => are_indices_below(list, size),
            VectorSource::Stored(vector) => is_vector_within(vector, size),
        }
    }
}

impl Clone for MatrixTuples {
    ghost is_clone = { λ tuples copy. copy ≡ tuples };

    /// One more share of the list, which is not copied and takes no memory. `AllocError` where 2^63 - 1 hold it already; then nothing
    /// changes.
    fn clone(&self) -> Result<Self, AllocError> {
        let source = match &self.source {
            MatrixSource::Listed(list) => MatrixSource::Listed(Arc::try_clone(list)?),
            MatrixSource::Apart(list) => MatrixSource::Apart(Arc::try_clone(list)?),
            MatrixSource::Stored(matrix) => MatrixSource::Stored(Arc::try_clone(matrix)?),
        };
        Ok(MatrixTuples { source })
    }
}

impl PartialEq for MatrixTuples {
    ghost eq = { pointwise ⟦<(u64, u64, Value) as PartialEq>⟧.eq };

    ghost laws = { lists_per (Prim.search (comparing, rules)) };

    fn eq(&self, other: &Self) -> bool {
        are_matrices_alike(self, other)
    }
}

/// Whether two lists have the same tuples, in one order.
fn are_matrices_alike(a: &MatrixTuples, b: &MatrixTuples) -> bool
    ensures { result ≡ pointwise ⟦<(u64, u64, Value) as PartialEq>⟧.eq a.now b.now }
{
    let count = a.count();
    if b.count() != count {
        return false;
    }
    let mut in_a = 0;
    let mut in_b = 0;
    for at in 0..count {
        if a.tuple_at(at, &mut in_a) != b.tuple_at(at, &mut in_b) {
            return false;
        }
    }
    true
}

/// Whether two lists have the same tuples, in one order.
fn are_matrices_listed(a: &[(u64, u64, Value)], b: &[(u64, u64, Value)]) -> bool
    ensures { result ≡ true → a.now ≡ b.now }
{
    a == b
}

/// A value with the row and the column of a cell.
fn cell_tuple(cell: u64, value: Value) -> (u64, u64, Value)
    ensures { result ≡ (cell / 2 ^ 32, cell % 2 ^ 32, value) }
{
    (cell / 0x1_0000_0000, cell % 0x1_0000_0000, value)
}

impl Eq for MatrixTuples {
    ghost laws = { lists_equiv (Prim.search (comparing, rules)) };
}

impl MatrixTuples {
    /// The tuples of this `Vec`, in its order. Walks them once, and takes memory for one block, which counts who shares the list.
    /// `AllocError` where that is refused; then the list is dropped.
    pub fn from_vec(tuples: Vec<(u64, u64, Value)>) -> Result<MatrixTuples, AllocError>
        ensures { IfOk result (λ list. list ≡ tuples.items) }
    {
        let alloc = *tuples.allocator();
        let list = matrix_list(tuples);
        Ok(MatrixTuples {
            source: MatrixSource::Listed(Arc::new(alloc, list)?),
        })
    }

    /// The entries of this matrix, in their order. They are shared, and none is copied: a build of them takes the time of a `new`. Takes no
    /// memory.
    pub fn from_matrix(matrix: Arc<SparseMatrix>) -> MatrixTuples
        requires assembled { matrix.value.assembled ≡ true }
        ensures { result ≡ tuples_of matrix.value.matrix.entries }
    {
        MatrixTuples {
            source: MatrixSource::Stored(matrix),
        }
    }

    /// The tuples of these lists, in their order. Takes no memory.
    pub fn from_apart(list: Arc<ApartTuples>) -> MatrixTuples
        ensures { result ≡ tuples_of (decoded list.value) }
    {
        MatrixTuples {
            source: MatrixSource::Apart(list),
        }
    }

    /// The number of tuples.
    fn count(&self) -> usize
        ensures { result ≡ length self.now }
    {
        match &self.source {
            MatrixSource::Listed(list) => list.tuples.len(),
            MatrixSource::Apart(list) => list.len(),
            MatrixSource::Stored(matrix) => matrix.lists().len(),
        }
    }

    /// The tuple at a place. A walk over all places keeps in `hint` where the one before was found.
    fn tuple_at(&self, at: usize, hint: &mut usize) -> (u64, u64, Value)
        requires { at < length self.now }
        ensures { (d : ℕ × ℕ × StoredValue) → result ≡ slice_index_or self.now at d }
    {
        match &self.source {
            MatrixSource::Listed(list) => list.tuples[at],
            MatrixSource::Apart(list) => cell_tuple(list.cell_at(at), list.value_at(at)),
            MatrixSource::Stored(matrix) => {
                let lists = matrix.lists();
                cell_tuple(lists.index_at(at, hint), lists.value_at(at))
            }
        }
    }

    /// Whether both are known to be one list: where both stand in one form, their lists are compared, each whole. Of equal lists that stand in
    /// different forms it answers no. Takes no memory.
    pub fn is_one(&self, other: &MatrixTuples) -> bool
        ensures { result ≡ true → self.now ≡ other.now }
    {
        match &self.source {
            MatrixSource::Listed(list) => match &other.source {
                MatrixSource::Listed(others) => are_matrices_listed(&list.tuples, &others.tuples),
                MatrixSource::Apart(_) | MatrixSource::Stored(_) => false,
            },
            MatrixSource::Apart(list) => match &other.source {
                MatrixSource::Apart(others) => list.is_same(others),
                MatrixSource::Listed(_) | MatrixSource::Stored(_) => false,
            },
            MatrixSource::Stored(matrix) => match &other.source {
                MatrixSource::Stored(others) => matrix.is_same(others),
                MatrixSource::Listed(_) | MatrixSource::Apart(_) => false,
            },
        }
    }

    /// How many tuples a build has to look at: none, where they are the entries of an object. Takes no memory.
    pub fn listed(&self) -> usize {
        match &self.source {
            MatrixSource::Listed(list) => list.tuples.len(),
            MatrixSource::Apart(list) => list.len(),
            MatrixSource::Stored(_) => 0,
        }
    }

    /// Builds a matrix that stores nothing, as [`SparseMatrix::build`] does; the values of one place are combined by `dup`. Where the tuples
    /// are the entries of an object, these are shared and not copied. `AllocError` where memory is refused, and then nothing changes.
    pub fn build(&self, matrix: &mut SparseMatrix, dup: Monoid) -> Result<(), AllocError>
        requires empty { matrix.old.matrix.entries ≡ [] }
        requires rows { All (λ e. e.0 < matrix.old.matrix.nrows) self.now }
        requires columns { All (λ e. e.1 < matrix.old.matrix.ncols) self.now }
        requires same_domain { monoid_domain dup ≡ matrix.old.matrix.domain }
        requires tuples_domain { All (λ e. value_domain e.2 ≡ matrix.old.matrix.domain) self.now }
        ensures ok { OnOk result (matrix.new.matrix ≡ edited_matrix (λ _. built_from cell_cmp dup (cells_of self.now)) matrix.old.matrix) }
        ensures err { OnErr result (matrix.new.matrix ≡ matrix.old.matrix) }
    {
        match &self.source {
            MatrixSource::Listed(list) => matrix.build(&list.tuples, dup),
            MatrixSource::Apart(list) => build_apart_matrix(list, matrix, dup),
            MatrixSource::Stored(stored) => build_stored_matrix(stored, matrix, dup),
        }
    }

    /// Whether all values are of the domain. Walks nothing.
    pub fn are_of(&self, domain: Domain) -> bool
        ensures { result ≡ list_all (same_domain domain) (map (λ e. value_domain e.2) self.now) }
    {
        match &self.source {
            MatrixSource::Listed(list) => list.domains.are(domain),
            MatrixSource::Apart(list) => are_values_of(list, domain),
            MatrixSource::Stored(matrix) => is_matrix_of(matrix, domain),
        }
    }

    /// Whether all rows are below `nrows`, and all columns below `ncols`. Walks nothing, unless the tuples are the entries of a matrix that
    /// is larger.
    pub fn are_within(&self, nrows: u64, ncols: u64) -> bool
        ensures { result ≡ list_all (λ e. nat_lt e.0 nrows && nat_lt e.1 ncols) self.now }
    {
        match &self.source {
            MatrixSource::Listed(list) => {
                list.rows.is_below(nrows) & list.columns.is_below(ncols)
            }
            MatrixSource::Apart(list) => are_cells_within(list, nrows, ncols),
            MatrixSource::Stored(matrix) => is_matrix_within(matrix, nrows, ncols),
        }
    }
}
