//! The objects that are there after all calls that a pass knows, by their numbers.
ghost use Rattle.std.specs.Prelude.{◌≡◌, IfOk};
ghost use Rattle.grb_call.specs.History.{store_of};
ghost use Rattle.grb_reader.specs.Known.{known};
ghost use Rattle.grb_reader.specs.LiveNumbers.{AreLiveObjects, live_numbers, matrix_ids, vector_ids};

use crate::reader::Reader;
use grb_call::{MatrixId, Shapes, VectorId};
use std::alloc::{AllocError, Global};

/// The objects that are there, and how many numbers were given.
#[derive(Debug, Drop)]
pub struct LiveObjects {
    /// The matrices that are there, in the order of their numbers.
    pub matrices: Vec<MatrixId>,
    /// The vectors that are there, in the order of their numbers.
    pub vectors: Vec<VectorId>,
    /// How many matrices were made, with those that were freed.
    pub matrix_count: u32,
    /// How many vectors were made, with those that were freed.
    pub vector_count: u32,
}

/// The matrices that have a shape, in the order of their numbers. `AllocError` where memory is refused.
fn live_matrices(alloc: Global, shapes: &Shapes) -> Result<Vec<MatrixId>, AllocError>
    ensures { IfOk result (λ ids. ids.items ≡ matrix_ids (live_numbers shapes.now.objects.matrices)) }
{
    let mut ids = Vec::new(alloc);
    'matrices: for number in 0..shapes.matrices() {
        let a = MatrixId(number);
        if shapes.matrix(a).is_some() {
            ids.push(a)?;
        }
    }
    Ok(ids)
}

/// The vectors that have a shape, in the order of their numbers. `AllocError` where memory is refused.
fn live_vectors(alloc: Global, shapes: &Shapes) -> Result<Vec<VectorId>, AllocError>
    ensures { IfOk result (λ ids. ids.items ≡ vector_ids (live_numbers shapes.now.objects.vectors)) }
{
    let mut ids = Vec::new(alloc);
    'vectors: for number in 0..shapes.vectors() {
        let v = VectorId(number);
        if shapes.vector(v).is_some() {
            ids.push(v)?;
        }
    }
    Ok(ids)
}

impl Reader {
    /// The objects that are there after all known calls. It takes one step for each number that was given. `AllocError` where memory for the
    /// lists is refused.
    pub fn live(&self, alloc: Global) -> Result<LiveObjects, AllocError>
        ensures live { IfOk result (AreLiveObjects (store_of (known self.now))) }
    {
        let shapes = self.shapes();
        Ok(LiveObjects {
            matrices: live_matrices(alloc, shapes)?,
            vectors: live_vectors(alloc, shapes)?,
            matrix_count: shapes.matrices(),
            vector_count: shapes.vectors(),
        })
    }
}
