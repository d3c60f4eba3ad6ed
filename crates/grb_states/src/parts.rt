//! The objects of a state for more holders, and a state of such objects.
ghost use Rattle.std.specs.Prelude.{◌≡◌, ◌<◌, ◌^◌, map, length, IfOk, IfSome};
ghost use Rattle.std.specs.Option.{option_map};
ghost use Rattle.grb_call.specs.Store.{matrix_shape, vector_shape};
ghost use Rattle.grb_objects.specs.SharedContent.{IsThere, is_assembled_content};
ghost use Rattle.grb_objects.specs.Stored.{stored, stored_matrices, stored_matrix, stored_vector, stored_vectors};
ghost use Rattle.grb_states.specs.State.{is_assembled_in};

use crate::objects::Objects;
use crate::state::State;
use grb_call::{Object, Shapes};
use grb_core::Domain;
use grb_objects::{Places, SharedContent, SharedObject, share};
use grb_sparse::{SparseMatrix, SparseVector};
use std::alloc::{AllocError, Global};

/// The shape of the matrix of a place, if there is one.
fn shape_of_matrix(place: &Option<SharedObject<SparseMatrix>>) -> Option<(Domain, u64, u64)>
    ensures { result ≡ option_map matrix_shape (option_map stored_matrix place.now) }
{
    match place {
        Some(shared) => {
            let (nrows, ncols) = shared.lent().dims();
            Some((shared.lent().domain(), nrows, ncols))
        }
        None => None,
    }
}

/// The shape of the vector of a place, if there is one.
fn shape_of_vector(place: &Option<SharedObject<SparseVector>>) -> Option<(Domain, u64)>
    ensures { result ≡ option_map vector_shape (option_map stored_vector place.now) }
{
    match place {
        Some(shared) => Some((shared.lent().domain(), shared.lent().dims())),
        None => None,
    }
}

/// The shapes of the matrices of these places. `AllocError` where memory is refused.
fn shapes_of_matrices(
    matrices: &Places<SparseMatrix>,
) -> Result<Vec<Option<(Domain, u64, u64)>>, AllocError>
    ensures { IfOk result (λ all. all.items ≡ map (option_map matrix_shape) (stored_matrices matrices.now.items)) }
{
    let mut all = Vec::with_capacity(*matrices.allocator(), matrices.len())?;
    'matrices: for at in 0..matrices.len() {
        all.push_reserved(shape_of_matrix(&matrices[at]));
    }
    Ok(all)
}

/// The shapes of the vectors of these places. `AllocError` where memory is refused.
fn shapes_of_vectors(
    vectors: &Places<SparseVector>,
) -> Result<Vec<Option<(Domain, u64)>>, AllocError>
    ensures { IfOk result (λ all. all.items ≡ map (option_map vector_shape) (stored_vectors vectors.now.items)) }
{
    let mut all = Vec::with_capacity(*vectors.allocator(), vectors.len())?;
    'vectors: for at in 0..vectors.len() {
        all.push_reserved(shape_of_vector(&vectors[at]));
    }
    Ok(all)
}

/// The shapes of these objects, with room for no call. `AllocError` where memory is refused.
fn shapes_of_objects(
    alloc: Global,
    matrices: &Places<SparseMatrix>,
    vectors: &Places<SparseVector>,
) -> Result<Shapes, AllocError>
    requires matrices { length matrices.now.items < 2 ^ 32 }
    requires vectors { length vectors.now.items < 2 ^ 32 }
    ensures matrices { IfOk result (λ shapes. shapes.objects.matrices ≡ map (option_map matrix_shape) (stored_matrices matrices.now.items)) }
    ensures vectors { IfOk result (λ shapes. shapes.objects.vectors ≡ map (option_map vector_shape) (stored_vectors vectors.now.items)) }
    ensures room { IfOk result (λ shapes. shapes.room ≡ 0) }
{
    let matrix_shapes = shapes_of_matrices(matrices)?;
    let vector_shapes = shapes_of_vectors(vectors)?;
    Shapes::of(alloc, 0, &matrix_shapes, &vector_shapes)
}

impl State {
    /// What the object holds, for one more holder, if it was made and not freed; no entry is copied, and no memory is taken. `AllocError`
    /// where 2^63 - 1 hold it.
    pub fn share(&self, object: Object) -> Result<Option<SharedContent>, AllocError>
        ensures there { IfOk result (λ found. IsThere self.now.store object found) }
        ensures assembled { IfOk result (λ found. IfSome found (λ x. is_assembled_content x ≡ is_assembled_in self.now object)) }
    {
        match object {
            Object::Matrix(a) => match share(&self.objects.matrices, a)? {
                Some(matrix) => Ok(Some(SharedContent::Matrix(matrix))),
                None => Ok(None),
            },
            Object::Vector(v) => match share(&self.objects.vectors, v)? {
                Some(vector) => Ok(Some(SharedContent::Vector(vector))),
                None => Ok(None),
            },
        }
    }

    /// The store of these objects, by their numbers, with room for no further call. It takes memory for their shapes. `AllocError` where
    /// memory is refused (own).
    pub fn of(
        alloc: Global,
        matrices: Vec<Option<SharedObject<SparseMatrix>>>,
        vectors: Vec<Option<SharedObject<SparseVector>>>,
    ) -> Result<State, AllocError>
        requires matrices { length matrices.items < 2 ^ 32 }
        requires vectors { length vectors.items < 2 ^ 32 }
        ensures { IfOk result (λ state. state ≡ record { store = stored matrices.items vectors.items; room = 0; matrices = matrices.items; vectors = vectors.items }) }
    {
        Ok(State {
            shapes: shapes_of_objects(alloc, &matrices, &vectors)?,
            objects: Objects { matrices, vectors },
        })
    }
}
