//! All entries of an object combined to one value.
ghost use Rattle.std.specs.Prelude.{◌≡◌};
ghost use Rattle.grb_core.specs.Monoid.{monoid_domain};
ghost use Rattle.grb_core.specs.Results.{reduce_of};

use crate::changed::reduce_changed;
use crate::folding::fold;
use grb_core::{Domain, Monoid, Value};
use grb_ewise::Stored;
use grb_sparse::{SparseMatrix, SparseVector};

/// All values that `vector` stores, combined by `monoid`; its identity where it stores none. Takes no memory, and time in proportion to the
/// stored entries and to the changes that wait. Of these, those of entries that stood are looked through for each 8,192 entries.
///
/// The vector and the monoid are of one domain.
///
/// Source: GraphBLAS C API 2.0, "reduce", of a vector to a scalar.
pub fn reduce_vector(vector: &SparseVector, monoid: Monoid) -> Value
    requires domain { monoid_domain monoid ≡ vector.now.vector.domain }
    ensures { result ≡ reduce_of monoid vector.now.vector.entries }
{
    if !vector.is_assembled() {
        return reduce_changed(monoid, vector.layers());
    }
    match vector.domain() {
        Domain::Bool => Value::Bool(fold(monoid, bool::of_vector(vector))),
        Domain::Uint64 => Value::Uint64(fold(monoid, u64::of_vector(vector))),
    }
}

/// All values that `matrix` stores, combined by `monoid`; its identity where it stores none. Takes no memory, and time in proportion to the
/// stored entries and to the changes that wait. Of these, those of entries that stood are looked through for each 8,192 entries.
///
/// The matrix and the monoid are of one domain.
///
/// Source: GraphBLAS C API 2.0, "reduce", of a matrix to a scalar.
pub fn reduce_matrix(matrix: &SparseMatrix, monoid: Monoid) -> Value
    requires domain { monoid_domain monoid ≡ matrix.now.matrix.domain }
    ensures { result ≡ reduce_of monoid matrix.now.matrix.entries }
{
    if !matrix.is_assembled() {
        return reduce_changed(monoid, matrix.layers());
    }
    let lists = matrix.lists();
    match lists.domain() {
        Domain::Bool => Value::Bool(fold(monoid, bool::of_lists(lists))),
        Domain::Uint64 => Value::Uint64(fold(monoid, u64::of_lists(lists))),
    }
}
