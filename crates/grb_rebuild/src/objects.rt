//! The calls that make one object anew.
ghost use Rattle.std.specs.Prelude.{◌≡◌, ◌++◌, true, None, OnOk, IfOk, IfSome};
ghost use Rattle.std.specs.Option.{option_map};
ghost use Rattle.grb_core.specs.Contents.{IsMatrix, IsVector};
ghost use Rattle.grb_rebuild.specs.Rebuilt.{monoid_for, matrix_build, matrix_calls, vector_build, vector_calls};

use grb_call::{Call, MatrixId, MatrixTuples, VectorId, VectorTuples};
use grb_core::{Domain, Monoid};
use grb_sparse::{SparseMatrix, SparseVector};
use std::alloc::AllocError;
use std::sync::Arc;

/// A monoid of the domain.
fn monoid_for(domain: Domain) -> Monoid
    ensures { result ≡ monoid_for domain }
{
    match domain {
        Domain::Bool => Monoid::Lor,
        Domain::Uint64 => Monoid::Plus,
    }
}

/// Puts the build of the matrix after the calls, if it stores an entry. `AllocError` where memory is refused; then it is not put.
fn push_matrix_build(
    calls: &mut Vec<Call>,
    a: MatrixId,
    matrix: &Arc<SparseMatrix>,
) -> Result<(), AllocError>
    requires { matrix.now.value.assembled ≡ true }
    ensures { OnOk result (calls.new.items ≡ calls.old.items ++ matrix_build a matrix.now.value.matrix.domain matrix.now.value.matrix.entries) }
{
    if matrix.nvals() == 0 {
        return Ok(());
    }
    let tuples = MatrixTuples::from_matrix(Arc::try_clone(matrix)?);
    let dup = monoid_for(matrix.domain());
    calls.push(Call::BuildMatrix { a, tuples, dup })?;
    Ok(())
}

/// Puts the build of the vector after the calls, if it stores an entry. `AllocError` where memory is refused; then it is not put.
fn push_vector_build(
    calls: &mut Vec<Call>,
    v: VectorId,
    vector: &Arc<SparseVector>,
) -> Result<(), AllocError>
    requires { vector.now.value.assembled ≡ true }
    ensures { OnOk result (calls.new.items ≡ calls.old.items ++ vector_build v vector.now.value.vector.domain vector.now.value.vector.entries) }
{
    if vector.nvals() == 0 {
        return Ok(());
    }
    let tuples = VectorTuples::from_vector(Arc::try_clone(vector)?);
    let dup = monoid_for(vector.domain());
    calls.push(Call::BuildVector { v, tuples, dup })?;
    Ok(())
}

/// Puts a new matrix, and that it is freed, after the calls: its number is taken by no later one. `AllocError` where memory is refused;
/// then the first of the two may be there.
fn push_freed_matrix(calls: &mut Vec<Call>, a: MatrixId) -> Result<(), AllocError>
    ensures { OnOk result (calls.new.items ≡ calls.old.items ++ matrix_calls a.0 None) }
{
    calls.push(Call::NewMatrix {
        domain: Domain::Bool,
        nrows: 1,
        ncols: 1,
    })?;
    calls.push(Call::FreeMatrix { a })?;
    Ok(())
}

/// The same of a vector. `AllocError` where memory is refused; then the first of the two may be there.
fn push_freed_vector(calls: &mut Vec<Call>, v: VectorId) -> Result<(), AllocError>
    ensures { OnOk result (calls.new.items ≡ calls.old.items ++ vector_calls v.0 None) }
{
    calls.push(Call::NewVector {
        domain: Domain::Bool,
        size: 1,
    })?;
    calls.push(Call::FreeVector { v })?;
    Ok(())
}

/// Puts the calls that make what stands at a matrix's number after these. `AllocError` where memory is refused; then some of these calls
/// may be there.
pub(crate) fn push_matrix(
    calls: &mut Vec<Call>,
    number: u32,
    matrix: Option<&Arc<SparseMatrix>>,
) -> Result<(), AllocError>
    requires { IfSome matrix (λ m. m.now.value.assembled ≡ true) }
    ensures whole { IfSome (option_map (λ m. m.now.value.matrix) matrix.entry) IsMatrix }
    ensures calls { OnOk result (calls.new.items ≡ calls.old.items ++ matrix_calls number (option_map (λ m. m.now.value.matrix) matrix.entry)) }
{
    let a = MatrixId(number);
    match matrix {
        None => push_freed_matrix(calls, a),
        Some(matrix) => {
            let (nrows, ncols) = matrix.dims();
            let domain = matrix.domain();
            calls.push(Call::NewMatrix {
                domain,
                nrows,
                ncols,
            })?;
            push_matrix_build(calls, a, matrix)
        }
    }
}

/// Puts the calls that make what stands at a vector's number after these. `AllocError` where memory is refused; then some of these calls
/// may be there.
pub(crate) fn push_vector(
    calls: &mut Vec<Call>,
    number: u32,
    vector: Option<&Arc<SparseVector>>,
) -> Result<(), AllocError>
    requires { IfSome vector (λ v. v.now.value.assembled ≡ true) }
    ensures whole { IfSome (option_map (λ v. v.now.value.vector) vector.entry) IsVector }
    ensures calls { OnOk result (calls.new.items ≡ calls.old.items ++ vector_calls number (option_map (λ v. v.now.value.vector) vector.entry)) }
{
    let v = VectorId(number);
    match vector {
        None => push_freed_vector(calls, v),
        Some(vector) => {
            let size = vector.dims();
            let domain = vector.domain();
            calls.push(Call::NewVector { domain, size })?;
            push_vector_build(calls, v, vector)
        }
    }
}
