//! What a state lends of its objects, and a copy of it that shares them.
ghost use Rattle.std.specs.Prelude.{◌≡◌, ◌+◌, ◌<◌, ◌^◌, true, length, IfOk};
ghost use Rattle.std.specs.Option.{option_map, option_map_or};
ghost use Rattle.grb_call.specs.Store.{matrix_at, shapes_of, vector_at};
ghost use Rattle.grb_states.specs.State.{count_in, is_assembled_in};

use crate::objects::Objects;
use crate::state::State;
use grb_call::{MatrixId, Object, Shapes, VectorId};
use grb_objects::{held_of, object_of, share_all};
use grb_sparse::{SparseMatrix, SparseVector};
use std::alloc::AllocError;
use std::sync::Arc;

impl State {
    /// How many matrices were made. Takes no memory.
    pub fn matrices(&self) -> u32
        ensures { result ≡ length self.now.store.matrices }
    {
        self.shapes.matrices()
    }

    /// How many vectors were made. Takes no memory.
    pub fn vectors(&self) -> u32
        ensures { result ≡ length self.now.store.vectors }
    {
        self.shapes.vectors()
    }

    /// How many entries the object stores; none where it was freed or never made. Takes no memory.
    pub fn nvals(&self, object: Object) -> u64
        ensures { result ≡ count_in self.now.store object }
    {
        match object {
            Object::Matrix(a) => self.nvals_matrix(a),
            Object::Vector(v) => self.nvals_vector(v),
        }
    }

    /// The matrix, if it was made and not freed. Takes no memory.
    pub fn matrix(&self, a: MatrixId) -> Option<&SparseMatrix>
        ensures stored { option_map (λ matrix. matrix.now.matrix) result ≡ matrix_at self.now.store a }
        ensures assembled { option_map_or (λ matrix. matrix.now.assembled) result true ≡ is_assembled_in self.now (Object.Matrix a) }
    {
        object_of(&self.objects.matrices, a)
    }

    /// The vector, if it was made and not freed. Takes no memory.
    pub fn vector(&self, v: VectorId) -> Option<&SparseVector>
        ensures stored { option_map (λ vector. vector.now.vector) result ≡ vector_at self.now.store v }
        ensures assembled { option_map_or (λ vector. vector.now.assembled) result true ≡ is_assembled_in self.now (Object.Vector v) }
    {
        object_of(&self.objects.vectors, v)
    }

    /// The matrix as all share it that hold it, if it was made and not freed: who clones the `Arc` holds it too, and no entry is copied. It
    /// stays what it is; a state that changes its matrix while another holds it changes a copy. Takes no memory.
    pub fn held_matrix(&self, a: MatrixId) -> Option<&Arc<SparseMatrix>>
        ensures stored { option_map (λ matrix. matrix.now.value.matrix) result ≡ matrix_at self.now.store a }
        ensures assembled { option_map_or (λ matrix. matrix.now.value.assembled) result true ≡ is_assembled_in self.now (Object.Matrix a) }
    {
        held_of(&self.objects.matrices, a)
    }

    /// The vector as all share it that hold it, if it was made and not freed, as [`State::held_matrix`] gives a matrix. Takes no memory.
    pub fn held_vector(&self, v: VectorId) -> Option<&Arc<SparseVector>>
        ensures stored { option_map (λ vector. vector.now.value.vector) result ≡ vector_at self.now.store v }
        ensures assembled { option_map_or (λ vector. vector.now.value.assembled) result true ≡ is_assembled_in self.now (Object.Vector v) }
    {
        held_of(&self.objects.vectors, v)
    }

    /// The domain and dimensions of all objects. Takes no memory.
    pub fn shapes(&self) -> &Shapes
        ensures { result.now.objects ≡ shapes_of self.now.store }
    {
        &self.shapes
    }

    /// An equal store, with room for so many further calls: both stores hold the same objects, until one of them changes one, and no entry
    /// is copied. It takes memory for places: one for each object, and one of each sort for each further call. `AllocError` where memory
    /// is refused (own).
    pub fn try_clone(&self, room: u32) -> Result<State, AllocError>
        requires matrices { length self.now.store.matrices + room < 2 ^ 32 }
        requires vectors { length self.now.store.vectors + room < 2 ^ 32 }
        ensures { IfOk result (λ copy. copy ≡ record self.now { room = room }) }
    {
        Ok(State {
            shapes: self.shapes.try_clone(room)?,
            objects: Objects {
                matrices: share_all(&self.objects.matrices, room)?,
                vectors: share_all(&self.objects.vectors, room)?,
            },
        })
    }
}
