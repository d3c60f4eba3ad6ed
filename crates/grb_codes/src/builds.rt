//! The calls of builds from arrays.
ghost use Rattle.std.specs.Prelude.{◌≡◌, ◌⊎◌, IfOk, Err, length};
ghost use Rattle.grb_codes.specs.Arrays.{build_matrix, build_vector, cells_of_arrays, indices_of_arrays};
ghost use Rattle.grb_codes.specs.Codes.{out_of_memory};

use crate::codes::{INVALID_VALUE, OUT_OF_MEMORY, monoid_at};
use crate::item::Item;
use grb_call::{Call, MatrixId, MatrixTuples, VectorId, VectorTuples};
use std::alloc::{AllocError, Global};
use std::sync::Arc;

/// The cells of these arrays in a list, made once with its room reserved. `AllocError` where memory is refused; then nothing is made.
fn matrix_cells<T: Item>(
    alloc: Global,
    rows: &[u64],
    columns: &[u64],
    values: &[T],
) -> Result<MatrixTuples, AllocError>
    requires rows { length rows.now ≡ length values.now }
    requires columns { length columns.now ≡ length values.now }
    ensures { IfOk result (λ tuples. tuples ≡ cells_of_arrays T.value rows.now columns.now values.now) }
{
    let mut cells = Vec::with_capacity(alloc, values.len())?;
    'cells: for at in 0..values.len() {
        cells.push_reserved((rows[at], columns[at], values[at].value()));
    }
    MatrixTuples::from_vec(cells)
}

/// The indices of these arrays in a list, made once with its room reserved. `AllocError` where memory is refused; then nothing is made.
fn vector_cells<T: Item>(
    alloc: Global,
    indices: &[u64],
    values: &[T],
) -> Result<VectorTuples, AllocError>
    requires { length indices.now ≡ length values.now }
    ensures { IfOk result (λ tuples. tuples ≡ indices_of_arrays T.value indices.now values.now) }
{
    let mut cells = Vec::with_capacity(alloc, values.len())?;
    'cells: for at in 0..values.len() {
        cells.push_reserved((indices[at], values[at].value()));
    }
    VectorTuples::from_vec(cells)
}

/// The tuples of these arrays, whose cells do not rise: apart, where each row and each column is below 2^32, and else in a list.
/// `AllocError` where memory is refused; then nothing is made.
fn unordered_cells<T: Item>(
    alloc: Global,
    rows: &[u64],
    columns: &[u64],
    values: &[T],
) -> Result<MatrixTuples, AllocError>
    requires rows { length rows.now ≡ length values.now }
    requires columns { length columns.now ≡ length values.now }
    ensures { IfOk result (λ tuples. tuples ≡ cells_of_arrays T.value rows.now columns.now values.now) }
{
    match T::apart_of(alloc, rows, columns, values)? {
        Some(list) => Ok(MatrixTuples::from_apart(Arc::new(alloc, list)?)),
        None => matrix_cells(alloc, rows, columns, values),
    }
}

/// The tuples of these arrays, whose indices do not rise: apart, where each index is below 2^32, and else in a list. `AllocError` where
/// memory is refused; then nothing is made.
fn unordered_indices<T: Item>(
    alloc: Global,
    indices: &[u64],
    values: &[T],
) -> Result<VectorTuples, AllocError>
    requires { length indices.now ≡ length values.now }
    ensures { IfOk result (λ tuples. tuples ≡ indices_of_arrays T.value indices.now values.now) }
{
    match T::row_apart_of(alloc, indices, values)? {
        Some(list) => Ok(VectorTuples::from_apart(Arc::new(alloc, list)?)),
        None => vector_cells(alloc, indices, values),
    }
}

/// The tuples of these arrays: where each cell comes before the next one, the entries of a matrix, which a build shares; else a list.
/// `AllocError` where memory is refused; then nothing is made.
fn matrix_tuples<T: Item>(
    alloc: Global,
    rows: &[u64],
    columns: &[u64],
    values: &[T],
) -> Result<MatrixTuples, AllocError>
    requires rows { length rows.now ≡ length values.now }
    requires columns { length columns.now ≡ length values.now }
    ensures { IfOk result (λ tuples. tuples ≡ cells_of_arrays T.value rows.now columns.now values.now) }
{
    match T::matrix_of(alloc, rows, columns, values)? {
        Some(matrix) => Ok(MatrixTuples::from_matrix(Arc::new(alloc, matrix)?)),
        None => unordered_cells(alloc, rows, columns, values),
    }
}

/// The tuples of these arrays: where each index is below the next one, the entries of a vector, which a build shares; else a list.
/// `AllocError` where memory is refused; then nothing is made.
fn vector_tuples<T: Item>(
    alloc: Global,
    indices: &[u64],
    values: &[T],
) -> Result<VectorTuples, AllocError>
    requires { length indices.now ≡ length values.now }
    ensures { IfOk result (λ tuples. tuples ≡ indices_of_arrays T.value indices.now values.now) }
{
    match T::vector_of(alloc, indices, values)? {
        Some(vector) => Ok(VectorTuples::from_vector(Arc::new(alloc, vector)?)),
        None => unordered_indices(alloc, indices, values),
    }
}

/// The build of a matrix from these arrays. `OUT_OF_MEMORY` where memory is refused to the list of its tuples; `INVALID_VALUE` for arrays of
/// two lengths, and for a number that stands for no monoid.
pub fn matrix_build<T: Item>(
    alloc: Global,
    a: u32,
    rows: &[u64],
    columns: &[u64],
    values: &[T],
    dup: u32,
) -> Result<Call, i32>
    ensures { (result ≡ Err out_of_memory) ⊎ (result ≡ build_matrix T.value a rows.now columns.now values.now dup) }
{
    let Some(dup) = monoid_at(dup) else {
        return Err(INVALID_VALUE);
    };
    if rows.len() != values.len() || columns.len() != values.len() {
        return Err(INVALID_VALUE);
    }
    match matrix_tuples(alloc, rows, columns, values) {
        Ok(tuples) => Ok(Call::BuildMatrix {
            a: MatrixId(a),
            tuples,
            dup,
        }),
        Err(_refused) => Err(OUT_OF_MEMORY),
    }
}

/// The build of a vector from these arrays. `OUT_OF_MEMORY` and `INVALID_VALUE` as of [`matrix_build`].
pub fn vector_build<T: Item>(
    alloc: Global,
    v: u32,
    indices: &[u64],
    values: &[T],
    dup: u32,
) -> Result<Call, i32>
    ensures { (result ≡ Err out_of_memory) ⊎ (result ≡ build_vector T.value v indices.now values.now dup) }
{
    let Some(dup) = monoid_at(dup) else {
        return Err(INVALID_VALUE);
    };
    if indices.len() != values.len() {
        return Err(INVALID_VALUE);
    }
    match vector_tuples(alloc, indices, values) {
        Ok(tuples) => Ok(Call::BuildVector {
            v: VectorId(v),
            tuples,
            dup,
        }),
        Err(_refused) => Err(OUT_OF_MEMORY),
    }
}
