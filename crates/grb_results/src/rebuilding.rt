//! A table and a whole state: of what it keeps, and from what it begins with.
ghost use Rattle.std.specs.Prelude.{◌≡◌, ◌<◌, ◌^◌, true, List, length, IfOk, IfSome, IfNone};
ghost use Rattle.std.specs.Option.{option_map, option_map_or};
ghost use Rattle.grb_call.specs.declared.call.Call.{Call};
ghost use Rattle.grb_call.specs.declared.ids.Object.{Object};
ghost use Rattle.grb_call.specs.History.{after_all};
ghost use Rattle.grb_call.specs.Store.{empty_store, matrix_at, vector_at};
ghost use Rattle.grb_objects.specs.Stored.{stored_matrix, stored_vector};
ghost use Rattle.grb_states.specs.State.{AreAllAssembledIn};
ghost use Rattle.grb_results.specs.Exchanged.{AreMatricesOf, AreVectorsOf, Begins, IsLastKept, OfEach};
ghost use Rattle.grb_results.specs.Kept.{AreReady, IsReady, IsReadyIfThere, IsSameBut, IsTableOf, KeepsAll};
ghost use Rattle.grb_results.specs.Results.{IsTable};

use crate::table::Table;
use grb_call::{MatrixId, Object, VectorId};
use grb_objects::{SharedContent, SharedObject};
use grb_sparse::{SparseMatrix, SparseVector};
use grb_states::State;
use std::alloc::AllocError;

impl Table {
    /// The result of the call that last changed the object, if it is kept.
    fn last_kept(&self, object: Object) -> Option<&SharedContent>
        ensures kept { IfSome result (λ content. IsLastKept self.now object content.now) }
        ensures none { IfNone result (IsReady self.now object → ⊥) }
    {
        let count = self.learnt.last_of(object);
        if count == 0 {
            return None;
        }
        self.kept(count as usize - 1)
    }

    /// The matrix for one more holder, if it is there; then it lies ready. No entry is copied, and no memory is taken. `AllocError` where
    /// 2^63 - 1 hold it.
    pub fn shared_matrix(
        &self,
        a: MatrixId,
    ) -> Result<Option<SharedObject<SparseMatrix>>, AllocError>
        requires { IsReadyIfThere self.now (Object.Matrix a) }
        ensures stored { (cs : List Call) → IsTableOf cs self.now → IfOk result (λ found. option_map stored_matrix found ≡ matrix_at (after_all empty_store cs) a) }
        ensures assembled { IfOk result (λ found. option_map_or (λ m. m.assembled) found true ≡ true) }
    {
        if !self.learnt.contains(Object::Matrix(a)) {
            return Ok(None);
        }
        match self.last_kept(Object::Matrix(a)) {
            Some(content) => content.share_matrix(),
            None => Ok(None),
        }
    }

    /// The vector for one more holder, if it is there, as [`Table::shared_matrix`] gives a matrix.
    pub fn shared_vector(
        &self,
        v: VectorId,
    ) -> Result<Option<SharedObject<SparseVector>>, AllocError>
        requires { IsReadyIfThere self.now (Object.Vector v) }
        ensures stored { (cs : List Call) → IsTableOf cs self.now → IfOk result (λ found. option_map stored_vector found ≡ vector_at (after_all empty_store cs) v) }
        ensures assembled { IfOk result (λ found. option_map_or (λ x. x.assembled) found true ≡ true) }
    {
        if !self.learnt.contains(Object::Vector(v)) {
            return Ok(None);
        }
        match self.last_kept(Object::Vector(v)) {
            Some(content) => content.share_vector(),
            None => Ok(None),
        }
    }

    /// The matrices by their numbers, for one more holder. `AllocError` where memory is refused to places.
    fn shared_matrices(&self) -> Result<Vec<Option<SharedObject<SparseMatrix>>>, AllocError>
        requires { AreReady self.now }
        ensures stored { IfOk result (λ all. AreMatricesOf self.now all.items (length self.now.learnt.shapes.objects.matrices)) }
        ensures assembled { IfOk result (λ all. OfEach (λ m. m.assembled) all.items) }
        ensures few { IfOk result (λ all. length all.items < 2 ^ 32) }
    {
        let mut all = Vec::new(self.alloc);
        'matrices: for number in 0..self.learnt.matrices() {
            all.push(self.shared_matrix(MatrixId(number))?)?;
        }
        Ok(all)
    }

    /// The vectors by their numbers, for one more holder. `AllocError` where memory is refused to places.
    fn shared_vectors(&self) -> Result<Vec<Option<SharedObject<SparseVector>>>, AllocError>
        requires { AreReady self.now }
        ensures stored { IfOk result (λ all. AreVectorsOf self.now all.items (length self.now.learnt.shapes.objects.vectors)) }
        ensures assembled { IfOk result (λ all. OfEach (λ x. x.assembled) all.items) }
        ensures few { IfOk result (λ all. length all.items < 2 ^ 32) }
    {
        let mut all = Vec::new(self.alloc);
        'vectors: for number in 0..self.learnt.vectors() {
            all.push(self.shared_vector(VectorId(number))?)?;
        }
        Ok(all)
    }

    /// The store after the calls learnt, where each object lies ready, with room for no further call: both hold the same objects, and no entry
    /// is copied. `AllocError` where memory is refused to places.
    pub fn state(&self) -> Result<State, AllocError>
        requires { AreReady self.now }
        ensures store { (cs : List Call) → IsTableOf cs self.now → IfOk result (λ state. state.store ≡ after_all empty_store cs) }
        ensures assembled { IfOk result AreAllAssembledIn }
    {
        let matrices = self.shared_matrices()?;
        let vectors = self.shared_vectors()?;
        State::of(self.alloc, matrices, vectors)
    }

    /// Takes what the state holds of the object for its last result, if that is not kept.
    fn begin_object(&mut self, state: &State, object: Object)
        ensures { Begins state.now.store self.old self.new }
    {
        let count = self.learnt.last_of(object);
        if count == 0 || self.kept(count as usize - 1).is_some() {
            return;
        }
        match state.share(object) {
            Ok(Some(content)) => self.fill(count as usize - 1, content),
            Ok(None) => {}
            Err(_refused) => {}
        }
    }

    /// Takes what this state holds, which the calls learnt leave, for their last results, as far as none is kept here. No entry is copied.
    /// Takes no memory.
    pub fn begin_with(&mut self, state: &State)
        ensures table { (cs : List Call) → IsTableOf cs self.old → state.now.store ≡ after_all empty_store cs → IsTable cs self.new }
        ensures same { IsSameBut self.old self.new }
        ensures stays { KeepsAll self.old self.new }
    {
        'objects: for place in 0..self.learnt.objects() {
            if let Some(object) = self.learnt.live_at(place) {
                self.begin_object(state, object);
            }
        }
    }
}
