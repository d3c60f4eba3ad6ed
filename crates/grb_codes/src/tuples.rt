//! All entries of an object, into arrays.
ghost use Rattle.std.specs.Prelude.{◌≡◌, IfOk, true};
ghost use Rattle.std.specs.Result.{result_map_both};
ghost use Rattle.grb_codes.specs.Arrays.{PutsHanded, PutsHandedVector, PutsMatrix, PutsVector};

use crate::codes::{DOMAIN_MISMATCH, INSUFFICIENT_SPACE, SUCCESS, refusal_code};
use crate::item::Item;
use crate::written::{write_matrix, write_vector};
use grb_core::Refusal;
use grb_sparse::{SparseMatrix, SparseVector};
use std::sync::Arc;

/// Writes all entries of a matrix of this domain to the front of the arrays, where each has room, and tells how many there are; answers the
/// status. Takes no memory.
pub fn put_matrix<T: Item>(
    matrix: &SparseMatrix,
    rows: &mut [u64],
    columns: &mut [u64],
    values: &mut [T],
    count: &mut u64,
) -> i32
    requires assembled { matrix.now.assembled ≡ true }
    ensures { PutsMatrix T.domain T.item matrix.now result rows.old columns.old values.old count.old rows.new columns.new values.new count.new }
{
    if matrix.domain() != T::domain() {
        return DOMAIN_MISMATCH;
    }
    let nvals = matrix.nvals();
    *count = nvals;
    let room = rows.len().min(columns.len().min(values.len()));
    if nvals > room as u64 {
        return INSUFFICIENT_SPACE;
    }
    write_matrix(matrix, rows, columns, values);
    SUCCESS
}

/// Writes all entries of a vector of this domain to the front of the arrays, where each has room, and tells how many there are; answers the
/// status. Takes no memory.
pub fn put_vector<T: Item>(
    vector: &SparseVector,
    indices: &mut [u64],
    values: &mut [T],
    count: &mut u64,
) -> i32
    requires assembled { vector.now.assembled ≡ true }
    ensures { PutsVector T.domain T.item vector.now result indices.old values.old count.old indices.new values.new count.new }
{
    if vector.domain() != T::domain() {
        return DOMAIN_MISMATCH;
    }
    let nvals = vector.nvals();
    *count = nvals;
    let room = indices.len().min(values.len());
    if nvals > room as u64 {
        return INSUFFICIENT_SPACE;
    }
    write_vector(vector, indices, values);
    SUCCESS
}

/// Writes all entries of the matrix that was handed out, where it was, as [`put_matrix`] does. Takes no memory.
pub fn put_handed<T: Item>(
    handed: Result<Arc<SparseMatrix>, Refusal>,
    rows: &mut [u64],
    columns: &mut [u64],
    values: &mut [T],
    count: &mut u64,
) -> i32
    requires assembled { IfOk handed (λ matrix. matrix.value.assembled ≡ true) }
    ensures { PutsHanded T.domain T.item (result_map_both (λ matrix. matrix.value) (λ refusal. refusal) handed) result rows.old columns.old values.old count.old rows.new columns.new values.new count.new }
{
    match handed {
        Ok(matrix) => put_matrix(&matrix, rows, columns, values, count),
        Err(refusal) => refusal_code(refusal),
    }
}

/// Writes all entries of the vector that was handed out, where it was, as [`put_vector`] does. Takes no memory.
pub fn put_handed_vector<T: Item>(
    handed: Result<Arc<SparseVector>, Refusal>,
    indices: &mut [u64],
    values: &mut [T],
    count: &mut u64,
) -> i32
    requires assembled { IfOk handed (λ vector. vector.value.assembled ≡ true) }
    ensures { PutsHandedVector T.domain T.item (result_map_both (λ vector. vector.value) (λ refusal. refusal) handed) result indices.old values.old count.old indices.new values.new count.new }
{
    match handed {
        Ok(vector) => put_vector(&vector, indices, values, count),
        Err(refusal) => refusal_code(refusal),
    }
}
