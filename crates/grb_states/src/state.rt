//! A state: the objects that calls made, what refuses one call more, and what waits in them.
ghost use Rattle.std.specs.Prelude.{◌≡◌, ◌+◌, ◌<◌, [], true, OnOk};
ghost use Rattle.grb_core.specs.Entries.{nvals_of};
ghost use Rattle.grb_call.specs.Kinds.{class_of};
ghost use Rattle.grb_call.specs.Refused.{is_in_bounds};
ghost use Rattle.grb_call.specs.Store.{empty_store, shapes_of, matrix_entries, vector_entries, with_place};
ghost use Rattle.grb_call.specs.After.{has_old_entries, refused, refused_build};
ghost use Rattle.grb_states.specs.Settled.{AreAllAssembled};
ghost use Rattle.grb_states.specs.State.{is_assembled};

use crate::objects::Objects;
use grb_call::{Call, Class, Kind, MatrixId, Object, Shapes, VectorId, check};
use grb_core::Refusal;
use grb_objects::{assemble_all, object_of};
use std::alloc::{AllocError, Global};
use std::marker::Model;

/// The store that a list of calls leaves, with room reserved for the calls to come.
#[derive(Drop)]
pub struct State {
    /// The domain and dimensions of each object, and the room.
    pub shapes: Shapes,
    /// The objects, to be changed by who makes calls on them: the invariant ties them to the shapes.
    pub objects: Objects,
}

impl Model for State {
    ghost use Rattle.grb_states.specs.Objects.{places_of, store_of};
    ghost use Rattle.grb_states.specs.State.{RoomyStore, IsState};

    ghost Value = { RoomyStore };

    ghost view = { λ s. record { store = store_of s.objects; room = s.shapes.room; matrices = s.objects.matrices.items; vectors = s.objects.vectors.items } };

    ghost invariant = { λ s. IsState s.shapes (store_of s.objects) (places_of s.objects).0 (places_of s.objects).1 };
}

impl State {
    /// The store with no objects, and room for no call. Takes no memory.
    pub fn empty(alloc: Global) -> State
        ensures { result ≡ record { store = empty_store; room = 0; matrices = []; vectors = [] } }
    {
        State {
            shapes: Shapes::empty(alloc),
            objects: Objects {
                matrices: Vec::new(alloc),
                vectors: Vec::new(alloc),
            },
        }
    }

    /// How many entries the matrix stores.
    pub(crate) fn nvals_matrix(&self, a: MatrixId) -> u64
        ensures { result ≡ nvals_of (matrix_entries self.now.store a) }
    {
        object_of(&self.objects.matrices, a).map_or(0, |matrix| matrix.nvals())
    }

    /// How many entries the vector stores.
    pub(crate) fn nvals_vector(&self, v: VectorId) -> u64
        ensures { result ≡ nvals_of (vector_entries self.now.store v) }
    {
        object_of(&self.objects.vectors, v).map_or(0, |vector| vector.nvals())
    }

    /// Whether the call, which edits an object, is a build of one that stores an entry.
    fn is_build_over_entries(&self, call: &Call) -> bool
        requires { class_of call.now ≡ Class.Edits }
        ensures { result ≡ has_old_entries self.now.store call.now }
    {
        match call {
            Call::BuildMatrix { a, .. } => self.nvals_matrix(*a) != 0,
            Call::BuildVector { v, .. } => self.nvals_vector(*v) != 0,
            Call::ClearMatrix { .. }
            | Call::ClearVector { .. }
            | Call::FreeMatrix { .. }
            | Call::FreeVector { .. }
            | Call::RemoveMatrix { .. }
            | Call::RemoveVector { .. }
            | Call::ResizeMatrix { .. }
            | Call::ResizeVector { .. }
            | Call::SetMatrix { .. }
            | Call::SetVector { .. } => false,
            _ => unreachable!(),
        }
    }

    /// Whether the call is a build of an object that stores an entry.
    fn has_old_entries(&self, call: &Call) -> bool
        ensures { result ≡ has_old_entries self.now.store call.now }
    {
        match call.class() {
            Class::Edits => self.is_build_over_entries(call),
            Class::Makes | Class::Operates | Class::Reads(_) | Class::AsksDimensions => false,
        }
    }

    /// Why what is stored refuses the build, if it does: the object stores an entry, or else an index is out of bounds. Takes no
    /// memory.
    pub fn refused_build(&self, call: &Call, in_bounds: bool) -> Option<Refusal>
        requires { in_bounds ≡ is_in_bounds (shapes_of self.now.store) call.now }
        ensures { result ≡ refused_build self.now.store call.now }
    {
        if self.has_old_entries(call) {
            return Some(Refusal::OutputNotEmpty);
        }
        if !in_bounds {
            return Some(Refusal::IndexOutOfBounds);
        }
        None
    }

    /// Why the call is refused in this store, if it is. Takes no memory.
    pub fn refused(&self, call: &Call) -> Option<Refusal>
        ensures { result ≡ refused self.now.store call.now }
    {
        match check(&self.shapes, call) {
            Err(refusal) => Some(refusal),
            Ok(Kind::Build { in_bounds }) => self.refused_build(call, in_bounds),
            Ok(Kind::Enters) => None,
            Ok(Kind::Reads) => None,
        }
    }

    /// Does the changes that wait in the object, if it is there. `AllocError` where memory is refused; the entries are as before in any
    /// case.
    ///
    /// Source: GraphBLAS C API 2.0, "wait: Wait for pending operations on an object to complete".
    pub fn complete(&mut self, object: Object) -> Result<(), AllocError>
        ensures store { self.new.store ≡ self.old.store }
        ensures room { self.new.room ≡ self.old.room }
        ensures assembled { OnOk result (is_assembled self.new.matrices self.new.vectors object ≡ true) }
    {
        self.objects.assemble(object)
    }

    /// Does the changes that wait in any object. `AllocError` where memory is refused; the entries are as before in any case.
    ///
    /// Source: GraphBLAS C API 2.0, "wait: Wait for pending operations on an object to complete".
    pub fn materialize(&mut self) -> Result<(), AllocError>
        ensures store { self.new.store ≡ self.old.store }
        ensures room { self.new.room ≡ self.old.room }
        ensures assembled { OnOk result (AreAllAssembled (is_assembled self.new.matrices self.new.vectors)) }
    {
        assemble_all(&mut self.objects.matrices)?;
        assemble_all(&mut self.objects.vectors)
    }

    /// Leaves the next number of the object's sort with nothing there, as where the object of this number was freed: one that is made later
    /// has a later number. Takes no memory (own).
    pub fn add_place(&mut self, object: Object)
        requires { 0 < self.old.room }
        ensures store { self.new.store ≡ with_place self.old.store object }
        ensures room { self.new.room + 1 ≡ self.old.room }
    {
        match object {
            Object::Matrix(_) => self.objects.matrices.push_reserved(None),
            Object::Vector(_) => self.objects.vectors.push_reserved(None),
        }
        self.shapes.add_place(object);
    }
}
