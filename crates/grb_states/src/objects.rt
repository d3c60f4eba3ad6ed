//! The objects of a state, at their numbers.
ghost use Rattle.std.specs.Prelude.{◌≡◌, OnOk};
ghost use Rattle.grb_call.specs.declared.ids.Object.{Object};
ghost use Rattle.grb_states.specs.Objects.{store_of, places_of, IsAssembledIn};

use grb_call::Object;
use grb_objects::{Places, assemble, has_many_changes};
use grb_sparse::{SparseMatrix, SparseVector};
use std::alloc::AllocError;

/// The matrices and vectors that calls made, by their numbers.
#[derive(Drop)]
pub struct Objects {
    /// The place of each matrix.
    pub matrices: Places<SparseMatrix>,
    /// The place of each vector.
    pub vectors: Places<SparseVector>,
}

impl Objects {
    /// Assembles the object, if it is there. `AllocError` where memory is refused; the entries are as before in any case, and what was
    /// assembled stays so.
    pub fn assemble(&mut self, object: Object) -> Result<(), AllocError>
        ensures same { store_of self.new ≡ store_of self.old }
        ensures assembled { OnOk result (IsAssembledIn self.new object) }
        ensures kept { (o : Object) → IsAssembledIn self.old o → IsAssembledIn self.new o }
        ensures places { places_of self.new ≡ places_of self.old }
    {
        match object {
            Object::Matrix(a) => assemble(&mut self.matrices, a),
            Object::Vector(v) => assemble(&mut self.vectors, v),
        }
    }

    /// Whether so many changes wait in the object that it pays to do them. Takes no memory.
    pub fn has_many_changes(&self, object: Object) -> bool {
        match object {
            Object::Matrix(a) => has_many_changes(&self.matrices, a),
            Object::Vector(v) => has_many_changes(&self.vectors, v),
        }
    }
}
