//! What a table has of objects: whether one lies ready, and the reply to a call that only reads one.
ghost use Rattle.std.specs.Prelude.{◌≡◌, ◌+◌, ◌<◌, true, List, Some, length, slice_get, IfSome, IfNone, OnOk, OnErr};
ghost use Rattle.std.specs.Option.{option_map};
ghost use Rattle.grb_sparse.specs.Matrix.{SparseMatrixView};
ghost use Rattle.grb_sparse.specs.Vector.{SparseVectorView};
ghost use Rattle.grb_call.specs.declared.call.Call.{Call};
ghost use Rattle.grb_call.specs.declared.ids.Object.{Object};
ghost use Rattle.grb_call.specs.After.{reply_of};
ghost use Rattle.grb_call.specs.History.{after_all};
ghost use Rattle.grb_call.specs.Store.{empty_store};
ghost use Rattle.grb_links.specs.Lasts.{last_of};
ghost use Rattle.grb_states.specs.Settled.{settles};
ghost use Rattle.grb_objects.specs.declared.shared_content.SharedContent.{SharedContent};
ghost use Rattle.grb_objects.specs.SharedContent.{is_assembled_content};
ghost use Rattle.grb_states.specs.StoredIn.{IsMatrixOf, IsVectorOf};
ghost use Rattle.grb_results.specs.Kept.{IsKept, IsReady, IsSameBut, IsTableOf, MayReply, ReadsObject};
ghost use Rattle.grb_results.specs.Results.{IsTable};
ghost use Rattle.grb_results.specs.Settling.{IsSettledAt};
ghost use Rattle.grb_results.specs.Value.{content_of};

use crate::table::Table;
use grb_call::{Call, MatrixId, Object, Reply, VectorId};
use grb_objects::{Operates, SharedContent};
use grb_sparse::{SparseMatrix, SparseVector};
use std::alloc::{AllocError, Global};
use std::sync::Arc;

/// Does the changes that wait in what stands here, if something does. `AllocError` where memory is refused; the entries are as before in any
/// case.
fn assemble_place(alloc: Global, place: &mut Option<SharedContent>) -> Result<(), AllocError>
    ensures same { option_map content_of place.new ≡ option_map content_of place.old }
    ensures assembled { OnOk result (IfSome place.new (λ content. is_assembled_content content ≡ true)) }
{
    match place {
        Some(content) => content.assemble(alloc),
        None => Ok(()),
    }
}

/// Does the changes that wait in the result at this place, if one is kept. `AllocError` where memory is refused; the entries are as before in
/// any case.
fn assemble_at(
    alloc: Global,
    results: &mut Vec<Option<SharedContent>>,
    at: usize,
) -> Result<(), AllocError>
    requires { at < length results.old.items }
    ensures settled { IsSettledAt at results.old.items results.new.items }
    ensures assembled { OnOk result ((v : SharedContent) → slice_get results.new.items at ≡ Some (Some v) → is_assembled_content v ≡ true) }
{
    assemble_place(alloc, &mut results[at])
}

/// The matrix as all share it that hold it, where it is one in which no change waits. Takes no memory.
fn ready_matrix(content: &SharedContent) -> Option<&Arc<SparseMatrix>>
    ensures matrix { IfSome result (λ matrix. content.now ≡ SharedContent.Matrix matrix.now.value) }
    ensures assembled { IfSome result (λ matrix. matrix.now.value.assembled ≡ true) }
    ensures none { IfNone result ((matrix : SparseMatrixView) → content.now ≡ SharedContent.Matrix matrix → matrix.assembled ≡ true → ⊥) }
{
    if content.is_assembled() {
        content.held_matrix()
    } else {
        None
    }
}

/// The vector as all share it that hold it, where it is one in which no change waits. Takes no memory.
fn ready_vector(content: &SharedContent) -> Option<&Arc<SparseVector>>
    ensures vector { IfSome result (λ vector. content.now ≡ SharedContent.Vector vector.now.value) }
    ensures assembled { IfSome result (λ vector. vector.now.value.assembled ≡ true) }
    ensures none { IfNone result ((vector : SparseVectorView) → content.now ≡ SharedContent.Vector vector → vector.assembled ≡ true → ⊥) }
{
    if content.is_assembled() {
        content.held_vector()
    } else {
        None
    }
}

impl Table {
    /// Whether the result of the call that last changed the object is kept and no change waits in it. Takes no memory.
    pub fn is_ready(&self, object: Object) -> bool
        ensures ready { result ≡ true → IsReady self.now object }
        ensures lacks { IsReady self.now object → result ≡ true }
    {
        match self.last(object) {
            Some(content) => content.is_assembled(),
            None => false,
        }
    }

    /// Does the changes that wait in the result of the call at this place, if one is kept. `AllocError` where memory is refused.
    pub(crate) fn assemble(&mut self, at: usize) -> Result<(), AllocError>
        ensures table { (cs : List Call) → IsTable cs self.old → IsTable cs self.new }
        ensures same { IsSameBut self.old self.new }
        ensures places { length self.new.results.items ≡ length self.old.results.items }
        ensures kept { (o : Object) → last_of self.old.learnt.lasts o ≡ at + 1 → IsKept self.old o → IsKept self.new o }
        ensures ready { OnOk result ((o : Object) → last_of self.old.learnt.lasts o ≡ at + 1 → IsKept self.old o → IsReady self.new o) }
    {
        let Some(value) = self.kept(at) else {
            return Ok(());
        };
        if value.is_assembled() {
            return Ok(());
        }
        self.unsettle(at);
        assemble_at(self.alloc, &mut self.results, at)
    }

    /// Does the changes that wait in the last result of the object, which is kept: where it lies, if nothing else holds it. `AllocError` where
    /// memory is refused; the entries are as before in any case.
    pub fn assemble_last(&mut self, object: Object) -> Result<(), AllocError>
        requires kept { IsKept self.old object }
        ensures table { (cs : List Call) → IsTable cs self.old → IsTable cs self.new }
        ensures same { IsSameBut self.old self.new }
        ensures kept { IsKept self.new object }
        ensures ready { OnOk result (IsReady self.new object) }
    {
        let count = self.learnt.last_of(object);
        self.assemble(count as usize - 1)
    }

    /// Whether so many changes wait in the last result of the object that it pays to do them. Takes no memory.
    fn has_many_changes(&self, object: Object) -> bool {
        match self.last(object) {
            Some(content) => content.has_many_changes(),
            None => false,
        }
    }

    /// Does the changes that wait in the last result of the object, if they are so many that a total is dear which reads them where they wait.
    /// Where memory is refused, they wait on.
    fn assemble_many(&mut self, object: Object)
        requires kept { IsKept self.old object }
        ensures table { (cs : List Call) → IsTable cs self.old → IsTable cs self.new }
        ensures same { IsSameBut self.old self.new }
        ensures kept { IsKept self.new object }
    {
        if self.has_many_changes(object) {
            let _refused = self.assemble_last(object);
        }
    }

    /// Has the changes done that a call which only reads the object asks for: where it waits, all that wait in the object, and for a total
    /// where they are many. `AllocError` where memory is refused to a wait; the entries are as before in any case.
    ///
    /// Source: GraphBLAS C API 2.0, "wait: Wait for pending operations on an object to complete".
    pub fn settle(&mut self, object: Object, call: &Call) -> Result<(), AllocError>
        requires kept { IsKept self.old object }
        ensures table { (cs : List Call) → IsTable cs self.old → IsTable cs self.new }
        ensures same { IsSameBut self.old self.new }
        ensures kept { IsKept self.new object }
        ensures ready { OnOk result (settles call.now ≡ true → IsReady self.new object) }
        ensures memory { OnErr result (settles call.now ≡ true) }
    {
        match call {
            Call::WaitMatrix { .. } | Call::WaitVector { .. } => self.assemble_last(object),
            Call::ReduceMatrix { .. } | Call::ReduceVector { .. } => {
                self.assemble_many(object);
                Ok(())
            }
            _ => Ok(()),
        }
    }

    /// The reply to a call that only reads the object, after all calls that were learnt, as the bench reads it. Takes no memory.
    pub fn reply<O: Operates>(&self, bench: &O, object: Object, call: &Call) -> Reply
        requires kept { IsKept self.now object }
        requires may { MayReply self.now object call.now }
        ensures { (cs : List Call) → IsTableOf cs self.now → ReadsObject (after_all empty_store cs) object call.now → result ≡ reply_of (after_all empty_store cs) call.now }
    {
        match self.last(object) {
            Some(content) => bench.reply_from(content, call),
            None => unreachable!(),
        }
    }

    /// The matrix as all share it that hold it, where it is kept and no change waits in it. Takes no memory.
    pub fn held_matrix(&self, a: MatrixId) -> Option<&Arc<SparseMatrix>>
        ensures matrix { (cs : List Call) → IsTableOf cs self.now → IfSome result (λ matrix. IsMatrixOf (after_all empty_store cs) a matrix.now.value) }
        ensures ready { IfSome result (λ matrix. IsReady self.now (Object.Matrix a)) }
        ensures none { (cs : List Call) → IsTable cs self.now → IfNone result (IsReady self.now (Object.Matrix a) → ⊥) }
    {
        match self.last(Object::Matrix(a)) {
            Some(content) => ready_matrix(content),
            None => None,
        }
    }

    /// The vector as all share it that hold it, as [`Table::held_matrix`] gives a matrix. Takes no memory.
    pub fn held_vector(&self, v: VectorId) -> Option<&Arc<SparseVector>>
        ensures vector { (cs : List Call) → IsTableOf cs self.now → IfSome result (λ vector. IsVectorOf (after_all empty_store cs) v vector.now.value) }
        ensures ready { IfSome result (λ vector. IsReady self.now (Object.Vector v)) }
        ensures none { (cs : List Call) → IsTable cs self.now → IfNone result (IsReady self.now (Object.Vector v) → ⊥) }
    {
        match self.last(Object::Vector(v)) {
            Some(content) => ready_vector(content),
            None => None,
        }
    }
}
