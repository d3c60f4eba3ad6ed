//! Builds of the entries of another store's object, which are shared: a result of a branch comes back by one call.
ghost use Rattle.std.specs.Prelude.{◌≡◌, true, IfOk};
ghost use Rattle.std.specs.Result.{result_map_both};
ghost use Rattle.grb_rebuild.specs.Rebuilt.{monoid_for};
ghost use Rattle.grb_c.specs.Branching.{BuildsHanded, BuildsMatrixFrom, BuildsVectorFrom, matrix_build_of, vector_build_of};

use crate::handle::TrbPass;
use grb_call::{Call, MatrixId, MatrixTuples, VectorId, VectorTuples};
use grb_codes::{UNINITIALIZED_OBJECT, refusal_code};
use grb_core::{Domain, Monoid, Refusal};
use grb_sparse::{SparseMatrix, SparseVector};
use std::alloc::Global;
use std::sync::Arc;

/// A monoid of the domain: no place stands twice, so that any does.
fn monoid_for(domain: Domain) -> Monoid
    ensures { result ≡ monoid_for domain }
{
    match domain {
        Domain::Bool => Monoid::Lor,
        Domain::Uint64 => Monoid::Plus,
    }
}

/// The build of all entries of the matrix, which it shares. Takes no memory.
fn matrix_build(c: u32, matrix: Arc<SparseMatrix>) -> Call
    requires { matrix.value.assembled ≡ true }
    ensures { result ≡ matrix_build_of c matrix.value }
{
    let dup = monoid_for(matrix.domain());
    Call::BuildMatrix {
        a: MatrixId(c),
        tuples: MatrixTuples::from_matrix(matrix),
        dup,
    }
}

/// The build of all entries of the vector, which it shares. Takes no memory.
fn vector_build(w: u32, vector: Arc<SparseVector>) -> Call
    requires { vector.value.assembled ≡ true }
    ensures { result ≡ vector_build_of w vector.value }
{
    let dup = monoid_for(vector.domain());
    Call::BuildVector {
        v: VectorId(w),
        tuples: VectorTuples::from_vector(vector),
        dup,
    }
}

impl TrbPass {
    /// Makes the build of what was handed out.
    fn build_matrix(
        &mut self,
        alloc: Global,
        c: u32,
        handed: Result<Arc<SparseMatrix>, Refusal>,
    ) -> i32
        requires { IfOk handed (λ matrix. matrix.value.assembled ≡ true) }
        ensures { BuildsHanded (matrix_build_of c) self.old self.new (result_map_both (λ matrix. matrix.value) (λ refusal. refusal) handed) result }
    {
        match handed {
            Ok(matrix) => self.done(alloc, Ok(matrix_build(c, matrix))),
            Err(refusal) => refusal_code(refusal),
        }
    }

    /// Makes the build of what was handed out.
    fn build_vector(
        &mut self,
        alloc: Global,
        w: u32,
        handed: Result<Arc<SparseVector>, Refusal>,
    ) -> i32
        requires { IfOk handed (λ vector. vector.value.assembled ≡ true) }
        ensures { BuildsHanded (vector_build_of w) self.old self.new (result_map_both (λ vector. vector.value) (λ refusal. refusal) handed) result }
    {
        match handed {
            Ok(vector) => self.done(alloc, Ok(vector_build(w, vector))),
            Err(refusal) => refusal_code(refusal),
        }
    }
}

/// Fills a matrix that stores nothing with all entries of a matrix that the other pass has, of any store: these are shared, and none is
/// copied.
#[unsafe(no_mangle)]
pub extern "C" fn trb_matrix_build_from(
    alloc: Global,
    pass: &mut TrbPass,
    c: u32,
    other: &mut TrbPass,
    a: u32,
) -> i32
    ensures { BuildsMatrixFrom c a pass.old pass.new other.old other.new result }
{
    let Some(mut theirs) = other.take(alloc) else {
        return UNINITIALIZED_OBJECT;
    };
    let handed = theirs.snapshot_matrix(MatrixId(a));
    other.put(theirs);
    pass.build_matrix(alloc, c, handed)
}

/// Fills a vector that stores nothing with all entries of a vector that the other pass has, of any store: these are shared, and none is
/// copied.
#[unsafe(no_mangle)]
pub extern "C" fn trb_vector_build_from(
    alloc: Global,
    pass: &mut TrbPass,
    w: u32,
    other: &mut TrbPass,
    v: u32,
) -> i32
    ensures { BuildsVectorFrom w v pass.old pass.new other.old other.new result }
{
    let Some(mut theirs) = other.take(alloc) else {
        return UNINITIALIZED_OBJECT;
    };
    let handed = theirs.snapshot_vector(VectorId(v));
    other.put(theirs);
    pass.build_vector(alloc, w, handed)
}
