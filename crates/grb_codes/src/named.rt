//! The objects that stand at the numbers of an array.
ghost use Rattle.std.specs.Prelude.{◌≡◌, IfOk};
ghost use Rattle.grb_codes.specs.Named.{matrices_named, vectors_named};

use grb_call::{MatrixId, VectorId};
use std::alloc::{AllocError, Global};

/// The matrices of these numbers. `AllocError` where memory is refused.
pub fn matrices_named(alloc: Global, numbers: &[u32]) -> Result<Vec<MatrixId>, AllocError>
    ensures { IfOk result (λ all. all.items ≡ matrices_named numbers.now) }
{
    let mut all = Vec::with_capacity(alloc, numbers.len())?;
    'numbers: for at in 0..numbers.len() {
        all.push(MatrixId(numbers[at]))?;
    }
    Ok(all)
}

/// The vectors of these numbers. `AllocError` where memory is refused.
pub fn vectors_named(alloc: Global, numbers: &[u32]) -> Result<Vec<VectorId>, AllocError>
    ensures { IfOk result (λ all. all.items ≡ vectors_named numbers.now) }
{
    let mut all = Vec::with_capacity(alloc, numbers.len())?;
    'numbers: for at in 0..numbers.len() {
        all.push(VectorId(numbers[at]))?;
    }
    Ok(all)
}
