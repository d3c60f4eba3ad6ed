//! The values of one domain as C has them.
ghost use Rattle.std.specs.Prelude.{◌≡◌, ◌<◌, ◌^◌, true, length, map, All, IfOk, IfSome};
ghost use Rattle.grb_core.specs.declared.domain.Domain.{Domain};
ghost use Rattle.grb_core.specs.declared.domain.Domain.TheVariants as domain;
ghost use Rattle.grb_core.specs.declared.value.Value.{Value};
ghost use Rattle.grb_core.specs.declared.value.Value.TheVariants as value;
ghost use Rattle.grb_core.specs.Entries.{values_of};
ghost use Rattle.grb_sparse.specs.Arrays.{entries_of_arrays, paired};
ghost use Rattle.grb_sparse.specs.Matrix.{decoded};
ghost use Rattle.grb_codes.specs.Arrays.{bool_in, number_in};

use grb_core::{Domain, Value};
use grb_sparse::{ApartTuples, FlatRows, SparseMatrix, SparseVector};
use std::alloc::{AllocError, Global};

/// What stands in an array of C for the values of one domain.
pub trait Item: Copy {
    /// The domain.
    ghost domain: { Domain };

    /// The value that an item stands for.
    ghost value: { Self → Value };

    /// What C has of a value of the domain.
    ghost item: { Value → Self };

    /// The domain.
    fn domain() -> Domain
        ensures { result ≡ domain };

    /// The value that the item stands for.
    fn value(self) -> Value
        ensures { result ≡ value self };

    /// What C has of a value of the domain.
    fn of(stored: Value) -> Self
        ensures { result ≡ item stored };

    /// The values of a matrix of the domain, in the order of its entries.
    fn of_lists(lists: &FlatRows) -> &[Self]
        requires { lists.now.domain ≡ domain }
        ensures { result.now ≡ map item (values_of lists.now.entries) };

    /// The values of a vector of the domain, in the order of its entries.
    fn of_vector(vector: &SparseVector) -> &[Self]
        requires assembled { vector.now.assembled ≡ true }
        requires domain { vector.now.vector.domain ≡ domain }
        ensures { result.now ≡ map item (values_of vector.now.vector.entries) };

    /// The matrix of these arrays, if each cell comes before the next one.
    fn matrix_of(
        alloc: Global,
        rows: &[u64],
        columns: &[u64],
        items: &[Self],
    ) -> Result<Option<SparseMatrix>, AllocError>
        requires columns { length columns.now ≡ length rows.now }
        requires items { length items.now ≡ length rows.now }
        ensures entries { IfOk result (λ made. IfSome made (λ a. a.matrix.entries ≡ entries_of_arrays rows.now columns.now (map value items.now))) }
        ensures assembled { IfOk result (λ made. IfSome made (λ a. a.assembled ≡ true)) };

    /// The vector of these arrays, if each index is below the next one.
    fn vector_of(
        alloc: Global,
        indices: &[u64],
        items: &[Self],
    ) -> Result<Option<SparseVector>, AllocError>
        requires { length items.now ≡ length indices.now }
        ensures entries { IfOk result (λ made. IfSome made (λ v. v.vector.entries ≡ paired indices.now (map value items.now))) }
        ensures assembled { IfOk result (λ made. IfSome made (λ v. v.assembled ≡ true)) };

    /// The tuples of these arrays, which lie apart, if each row and each column is below 2^32.
    fn apart_of(
        alloc: Global,
        rows: &[u64],
        columns: &[u64],
        items: &[Self],
    ) -> Result<Option<ApartTuples>, AllocError>
        requires columns { length columns.now ≡ length rows.now }
        requires items { length items.now ≡ length rows.now }
        ensures tuples { IfOk result (λ made. IfSome made (λ tuples. decoded tuples ≡ entries_of_arrays rows.now columns.now (map value items.now))) };

    /// The same of indices, if each is below 2^32.
    fn row_apart_of(
        alloc: Global,
        indices: &[u64],
        items: &[Self],
    ) -> Result<Option<ApartTuples>, AllocError>
        requires { length items.now ≡ length indices.now }
        ensures tuples { IfOk result (λ made. IfSome made (λ tuples. tuples ≡ paired indices.now (map value items.now))) }
        ensures within { IfOk result (λ made. IfSome made (λ tuples. All (λ i. i < 2 ^ 32) indices.now)) };
}

impl Item for u64 {
    ghost domain = { domain.Uint64 };

    ghost value = { λ n. value.Uint64 n };

    ghost item = { number_in };

    fn domain() -> Domain {
        Domain::Uint64
    }

    fn value(self) -> Value {
        Value::Uint64(self)
    }

    fn of(stored: Value) -> u64 {
        match stored {
            Value::Uint64(x) => x,
            Value::Bool(_) => 0,
        }
    }

    fn of_lists(lists: &FlatRows) -> &[u64] {
        lists.numbers()
    }

    fn of_vector(vector: &SparseVector) -> &[u64] {
        vector.numbers()
    }

    fn matrix_of(
        alloc: Global,
        rows: &[u64],
        columns: &[u64],
        items: &[u64],
    ) -> Result<Option<SparseMatrix>, AllocError> {
        SparseMatrix::of_numbers(alloc, rows, columns, items)
    }

    fn vector_of(
        alloc: Global,
        indices: &[u64],
        items: &[u64],
    ) -> Result<Option<SparseVector>, AllocError> {
        SparseVector::of_numbers(alloc, indices, items)
    }

    fn apart_of(
        alloc: Global,
        rows: &[u64],
        columns: &[u64],
        items: &[u64],
    ) -> Result<Option<ApartTuples>, AllocError> {
        ApartTuples::of_numbers(alloc, rows, columns, items)
    }

    fn row_apart_of(
        alloc: Global,
        indices: &[u64],
        items: &[u64],
    ) -> Result<Option<ApartTuples>, AllocError> {
        ApartTuples::row_of_numbers(alloc, indices, items)
    }
}

impl Item for bool {
    ghost domain = { domain.Bool };

    ghost value = { λ b. value.Bool b };

    ghost item = { bool_in };

    fn domain() -> Domain {
        Domain::Bool
    }

    fn value(self) -> Value {
        Value::Bool(self)
    }

    fn of(stored: Value) -> bool {
        match stored {
            Value::Bool(x) => x,
            Value::Uint64(_) => false,
        }
    }

    fn of_lists(lists: &FlatRows) -> &[bool] {
        lists.bools()
    }

    fn of_vector(vector: &SparseVector) -> &[bool] {
        vector.bools()
    }

    fn matrix_of(
        alloc: Global,
        rows: &[u64],
        columns: &[u64],
        items: &[bool],
    ) -> Result<Option<SparseMatrix>, AllocError> {
        SparseMatrix::of_bools(alloc, rows, columns, items)
    }

    fn vector_of(
        alloc: Global,
        indices: &[u64],
        items: &[bool],
    ) -> Result<Option<SparseVector>, AllocError> {
        SparseVector::of_bools(alloc, indices, items)
    }

    fn apart_of(
        alloc: Global,
        rows: &[u64],
        columns: &[u64],
        items: &[bool],
    ) -> Result<Option<ApartTuples>, AllocError> {
        ApartTuples::of_bools(alloc, rows, columns, items)
    }

    fn row_apart_of(
        alloc: Global,
        indices: &[u64],
        items: &[bool],
    ) -> Result<Option<ApartTuples>, AllocError> {
        ApartTuples::row_of_bools(alloc, indices, items)
    }
}
