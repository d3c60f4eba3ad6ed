//! Calls as tables hold them.
ghost use Rattle.grb_context.specs.Known.{IsPassOf};

use crate::tests::stores::Answer;
use grb_call::{Call, MatrixId, VectorId, VectorTuples};
use grb_context::{Context, Pass};
use grb_core::{Domain, Monoid, Refusal, Value};
use std::alloc::{AllocError, Global};

/// A call.
#[derive(Clone, Copy, Debug)]
pub(super) enum Asked {
    NewMatrix(Domain, u64, u64),
    NewVector(Domain, u64),
    FreeMatrix(MatrixId),
    FreeVector(VectorId),
    SetMatrix(MatrixId, u64, u64, Value),
    SetVector(VectorId, u64, Value),
    GetMatrix(MatrixId, u64, u64),
    GetVector(VectorId, u64),
    NvalsMatrix(MatrixId),
    NvalsVector(VectorId),
    SizeMatrix(MatrixId),
    SizeVector(VectorId),
    /// All values stand at different places.
    BuildVector(VectorId, Monoid, &'static [(u64, Value)]),
    TotalMatrix(MatrixId, Monoid),
    TotalVector(VectorId, Monoid),
}

fn vector_tuples(alloc: Global, list: &'static [(u64, Value)]) -> Result<VectorTuples, AllocError> {
    let mut tuples = Vec::new(alloc);
    for tuple in list {
        tuples.push(*tuple)?;
    }
    VectorTuples::from_vec(tuples)
}

/// The call. `AllocError` where memory is refused to the list of a build.
fn call_of(alloc: Global, asked: Asked) -> Result<Call, AllocError> {
    Ok(match asked {
        Asked::NewMatrix(domain, nrows, ncols) => Call::NewMatrix {
            domain,
            nrows,
            ncols,
        },
        Asked::NewVector(domain, size) => Call::NewVector { domain, size },
        Asked::FreeMatrix(a) => Call::FreeMatrix { a },
        Asked::FreeVector(v) => Call::FreeVector { v },
        Asked::SetMatrix(a, i, j, value) => Call::SetMatrix { a, i, j, value },
        Asked::SetVector(v, i, value) => Call::SetVector { v, i, value },
        Asked::GetMatrix(a, i, j) => Call::GetMatrix { a, i, j },
        Asked::GetVector(v, i) => Call::GetVector { v, i },
        Asked::NvalsMatrix(a) => Call::NvalsMatrix { a },
        Asked::NvalsVector(v) => Call::NvalsVector { v },
        Asked::SizeMatrix(a) => Call::SizeMatrix { a },
        Asked::SizeVector(v) => Call::SizeVector { v },
        Asked::BuildVector(v, dup, list) => Call::BuildVector {
            v,
            tuples: vector_tuples(alloc, list)?,
            dup,
        },
        Asked::TotalMatrix(a, monoid) => Call::ReduceMatrix { a, monoid },
        Asked::TotalVector(v, monoid) => Call::ReduceVector { v, monoid },
    })
}

/// Makes a call.
pub(super) fn ask(alloc: Global, context: &Context, pass: &mut Pass, asked: Asked) -> Answer
    requires { IsPassOf context.now pass.old }
    ensures { IsPassOf context.now pass.new }
{
    match call_of(alloc, asked) {
        Ok(call) => context.call(pass, call),
        Err(_) => Err(Refusal::OutOfMemory),
    }
}
