//! Some objects, evaluated for who goes on with them, and nothing else.
ghost use Rattle.std.specs.Prelude.{◌≡◌, ◌<◌, ◌≤◌, ◌+◌, ◌*◌, ◌^◌, false, true, [], Ok, length, map, All, Contains, IfOk, IfErr, IfSome, IfNone, OnErr, OnOk};
ghost use Rattle.std.specs.Option.{option_map, option_map_or};
ghost use Rattle.grb_order.specs.declared.limits.TheConstants.{MOST_PASSES, MOST_PLACES, MOST_ROOM, MOST_WORDS};
ghost use Rattle.grb_records.specs.Token.{IsOf};
ghost use Rattle.grb_call.specs.History.{calls_of, store_of};
ghost use Rattle.grb_call.specs.Shapes.{is_live};
ghost use Rattle.grb_call.specs.Store.{matrix_at, shapes_of, vector_at};
ghost use Rattle.grb_objects.specs.Stored.{stored_matrices, stored_matrix, stored_vector, stored_vectors};
ghost use Rattle.grb_results.specs.Exchanged.{OfEach};
ghost use Rattle.grb_results.specs.Kept.{IsReady, IsReadyIfThere, IsTableOf};
ghost use Rattle.grb_rebuild.specs.Rebuilding.{IsRebuild};
ghost use Rattle.grb_pass.specs.Chosen.{IsNoSuccessor, MayHaveRoom, NamesChosen, chosen_store, room_beside};
ghost use Rattle.grb_pass.specs.Evaluated.{IsAssembled, IsEvaluatedFor, LiesReadyAfter};
ghost use Rattle.grb_pass.specs.Making.{IsForMemory, IsNotBegun};
ghost use Rattle.grb_reader.specs.Known.{known};

use super::Evaluated;
use grb_call::{MatrixId, Object, VectorId};
use grb_objects::{Helps, SharedObject};
use grb_order::{MOST_PLACES, MOST_WORDS};
use grb_reader::Reader;
use grb_rebuild::{NoSuccessor, Rebuild, needed, rebuild_all};
use grb_records::Records;
use grb_sparse::{SparseMatrix, SparseVector};
use grb_states::State;
use std::alloc::{AllocError, Global};

/// The room of a history that begins with so many calls and takes `room` more, if one that so many passes share may have it.
fn room_with(needed: u64, room: u32, passes: u32) -> Option<u32>
    requires room { room ≤ MOST_ROOM }
    requires passes { (0 < passes) × (passes ≤ MOST_PASSES) }
    ensures some { IfSome result (λ whole. (whole ≡ needed + room) × MayHaveRoom whole passes) }
    ensures none { IfNone result (MayHaveRoom (needed + room) passes → ⊥) }
{
    if needed > u64::from(MOST_WORDS) {
        return None;
    }
    let whole = needed as u32 + room;
    if whole > MOST_WORDS || whole.saturating_mul(passes) > MOST_PLACES {
        return None;
    }
    Some(whole)
}

/// The calls that make the store anew, and the store with room for `room` more, where a history that so many passes share may have room for
/// all. `RoomTooSmall` tells how many calls make the store, where it may not; then no call was made. `OutOfMemory` where memory is refused.
pub(super) fn rebuild_beside(
    alloc: Global,
    state: &State,
    room: u32,
    passes: u32,
) -> Result<Rebuild, NoSuccessor>
    requires assembled { IsAssembled state.now }
    requires room { room ≤ MOST_ROOM }
    requires passes { (0 < passes) × (passes ≤ MOST_PASSES) }
    ensures rebuild { IfOk result (λ r. IsRebuild (room_beside state.now.store room) r.calls.items r.state) }
    ensures fits { IfOk result (λ r. MayHaveRoom (room_beside state.now.store room) passes) }
    ensures store { IfOk result (λ r. r.state.store ≡ state.now.store) }
    ensures refused { IfErr result (IsNotBegun room passes state.now.store) }
{
    let needed = needed(state);
    let Some(whole) = room_with(needed, room, passes) else {
        return Err(NoSuccessor::RoomTooSmall { needed });
    };
    rebuild_all(alloc, state, whole)
}

impl<O: Helps> Evaluated<O> {
    /// Makes what the object holds after all known calls, which were learnt, and has the changes done that wait in it. It is there. Nothing is
    /// done where it lies ready. `AllocError` where memory is refused; what was made stays so.
    fn make_one_ready(
        &mut self,
        records: &Records,
        reader: &mut Reader,
        object: Object,
    ) -> Result<(), AllocError>
        requires evaluated { IsEvaluatedFor reader.old self.old }
        requires of { All (IsOf records.now) reader.old.shown }
        requires table { IsTableOf (calls_of (known reader.old)) self.old }
        requires live { is_live self.old.learnt.shapes.objects object ≡ true }
        ensures same { reader.new ≡ reader.old }
        ensures evaluated { IsEvaluatedFor reader.new self.new }
        ensures table { IsTableOf (calls_of (known reader.new)) self.new }
        ensures ready { OnOk result (IsReadyIfThere self.new object) }
        ensures memory { OnErr result (IsReady self.old object → ⊥) }
    {
        if self.table.is_ready(object) {
            return Ok(());
        }
        self.make_and_share(records, reader, object)?;
        self.table.assemble_last(object)
    }

    /// Makes what the object holds after all known calls, if it is there, and has the changes done that wait in it, as
    /// [`Evaluated::make_one_ready`] does; whether it is there.
    pub(crate) fn evaluate(
        &mut self,
        records: &Records,
        reader: &mut Reader,
        object: Object,
    ) -> Result<bool, AllocError>
        requires evaluated { IsEvaluatedFor reader.old self.old }
        requires of { All (IsOf records.now) reader.old.shown }
        ensures same { reader.new ≡ reader.old }
        ensures evaluated { IsEvaluatedFor reader.new self.new }
        ensures there { IfOk result (λ there. there ≡ is_live (shapes_of (store_of (known reader.old))) object) }
        ensures ready { result ≡ Ok true → LiesReadyAfter self.new object (length (known reader.old)) }
        ensures memory { OnErr result (reader.old.settled < length (known reader.old)) }
    {
        self.learn(records, reader)?;
        if !self.table.is_there(object) {
            return Ok(false);
        }
        self.make_one_ready(records, reader, object)?;
        Ok(true)
    }

    /// How much work it is, about, to make what the object holds after all known calls. Where memory is refused, none is known.
    pub(crate) fn work_left(
        &mut self,
        records: &Records,
        reader: &mut Reader,
        object: Object,
    ) -> u64
        requires evaluated { IsEvaluatedFor reader.old self.old }
        requires of { All (IsOf records.now) reader.old.shown }
        ensures same { reader.new ≡ reader.old }
        ensures evaluated { IsEvaluatedFor reader.new self.new }
        ensures made { self.new.made ≡ self.old.made }
    {
        match self.learn(records, reader) {
            Ok(()) => self.table.work_for(reader, records, object),
            Err(_refused) => 0,
        }
    }

    /// The matrix as it is after all known calls, which were learnt, for one more holder, if it is there. No entry is copied. `AllocError` where
    /// memory is refused.
    fn chosen_matrix(
        &mut self,
        records: &Records,
        reader: &mut Reader,
        a: MatrixId,
    ) -> Result<Option<SharedObject<SparseMatrix>>, AllocError>
        requires evaluated { IsEvaluatedFor reader.old self.old }
        requires of { All (IsOf records.now) reader.old.shown }
        requires table { IsTableOf (calls_of (known reader.old)) self.old }
        ensures same { reader.new ≡ reader.old }
        ensures evaluated { IsEvaluatedFor reader.new self.new }
        ensures table { IsTableOf (calls_of (known reader.new)) self.new }
        ensures stored { IfOk result (λ found. option_map stored_matrix found ≡ matrix_at (store_of (known reader.old)) a) }
        ensures assembled { IfOk result (λ found. option_map_or (λ m. m.assembled) found true ≡ true) }
        ensures there { OnErr result (is_live (shapes_of (store_of (known reader.old))) (Object.Matrix a) ≡ true) }
    {
        let object = Object::Matrix(a);
        if !self.table.is_there(object) {
            return Ok(None);
        }
        self.make_one_ready(records, reader, object)?;
        self.table.shared_matrix(a)
    }

    /// The vector as it is after all known calls, as [`Evaluated::chosen_matrix`] gives a matrix.
    fn chosen_vector(
        &mut self,
        records: &Records,
        reader: &mut Reader,
        v: VectorId,
    ) -> Result<Option<SharedObject<SparseVector>>, AllocError>
        requires evaluated { IsEvaluatedFor reader.old self.old }
        requires of { All (IsOf records.now) reader.old.shown }
        requires table { IsTableOf (calls_of (known reader.old)) self.old }
        ensures same { reader.new ≡ reader.old }
        ensures evaluated { IsEvaluatedFor reader.new self.new }
        ensures table { IsTableOf (calls_of (known reader.new)) self.new }
        ensures stored { IfOk result (λ found. option_map stored_vector found ≡ vector_at (store_of (known reader.old)) v) }
        ensures assembled { IfOk result (λ found. option_map_or (λ x. x.assembled) found true ≡ true) }
        ensures there { OnErr result (is_live (shapes_of (store_of (known reader.old))) (Object.Vector v) ≡ true) }
    {
        let object = Object::Vector(v);
        if !self.table.is_there(object) {
            return Ok(None);
        }
        self.make_one_ready(records, reader, object)?;
        self.table.shared_vector(v)
    }

    /// These matrices, in turn, as [`Evaluated::chosen_matrix`] gives one. `Unmade` names one to which memory is refused.
    fn chosen_matrices(
        &mut self,
        alloc: Global,
        records: &Records,
        reader: &mut Reader,
        chosen: &[MatrixId],
    ) -> Result<Vec<Option<SharedObject<SparseMatrix>>>, NoSuccessor>
        requires evaluated { IsEvaluatedFor reader.old self.old }
        requires of { All (IsOf records.now) reader.old.shown }
        requires table { IsTableOf (calls_of (known reader.old)) self.old }
        ensures same { reader.new ≡ reader.old }
        ensures evaluated { IsEvaluatedFor reader.new self.new }
        ensures table { IsTableOf (calls_of (known reader.new)) self.new }
        ensures stored { IfOk result (λ all. stored_matrices all.items ≡ map (matrix_at (store_of (known reader.old))) chosen.now) }
        ensures assembled { IfOk result (λ all. OfEach (λ m. m.assembled) all.items) }
        ensures count { IfOk result (λ all. length all.items ≡ length chosen.now) }
        ensures memory { IfErr result IsForMemory }
        ensures named { IfErr result (NamesChosen (store_of (known reader.old)) chosen.now []) }
    {
        let mut all = Vec::new(alloc);
        'chosen: for at in 0..chosen.len() {
            let Ok(matrix) = self.chosen_matrix(records, reader, chosen[at]) else {
                let object = Object::Matrix(chosen[at]);
                return Err(NoSuccessor::Unmade { object });
            };
            let Ok(()) = all.push(matrix) else {
                return Err(NoSuccessor::OutOfMemory);
            };
        }
        Ok(all)
    }

    /// These vectors, in turn, as [`Evaluated::chosen_vector`] gives one. `Unmade` names one to which memory is refused.
    fn chosen_vectors(
        &mut self,
        alloc: Global,
        records: &Records,
        reader: &mut Reader,
        chosen: &[VectorId],
    ) -> Result<Vec<Option<SharedObject<SparseVector>>>, NoSuccessor>
        requires evaluated { IsEvaluatedFor reader.old self.old }
        requires of { All (IsOf records.now) reader.old.shown }
        requires table { IsTableOf (calls_of (known reader.old)) self.old }
        ensures same { reader.new ≡ reader.old }
        ensures evaluated { IsEvaluatedFor reader.new self.new }
        ensures table { IsTableOf (calls_of (known reader.new)) self.new }
        ensures stored { IfOk result (λ all. stored_vectors all.items ≡ map (vector_at (store_of (known reader.old))) chosen.now) }
        ensures assembled { IfOk result (λ all. OfEach (λ x. x.assembled) all.items) }
        ensures count { IfOk result (λ all. length all.items ≡ length chosen.now) }
        ensures memory { IfErr result IsForMemory }
        ensures named { IfErr result (NamesChosen (store_of (known reader.old)) [] chosen.now) }
    {
        let mut all = Vec::new(alloc);
        'chosen: for at in 0..chosen.len() {
            let Ok(vector) = self.chosen_vector(records, reader, chosen[at]) else {
                let object = Object::Vector(chosen[at]);
                return Err(NoSuccessor::Unmade { object });
            };
            let Ok(()) = all.push(vector) else {
                return Err(NoSuccessor::OutOfMemory);
            };
        }
        Ok(all)
    }

    /// The store of these objects as they are after all known calls, which were learnt, with no change left that waits: nothing else is made,
    /// and no entry is copied. `Unmade` names an object to which memory is refused, and `OutOfMemory` is of memory for the lists; what was made
    /// stays so.
    pub(super) fn chosen(
        &mut self,
        alloc: Global,
        records: &Records,
        reader: &mut Reader,
        matrices: &[MatrixId],
        vectors: &[VectorId],
    ) -> Result<State, NoSuccessor>
        requires evaluated { IsEvaluatedFor reader.old self.old }
        requires of { All (IsOf records.now) reader.old.shown }
        requires matrices { length matrices.now < 2 ^ 32 }
        requires vectors { length vectors.now < 2 ^ 32 }
        ensures same { reader.new ≡ reader.old }
        ensures evaluated { IsEvaluatedFor reader.new self.new }
        ensures store { IfOk result (λ state. state.store ≡ chosen_store (store_of (known reader.old)) matrices.now vectors.now) }
        ensures assembled { IfOk result IsAssembled }
        ensures memory { IfErr result IsForMemory }
        ensures named { IfErr result (NamesChosen (store_of (known reader.old)) matrices.now vectors.now) }
    {
        let Ok(()) = self.learn(records, reader) else {
            return Err(NoSuccessor::OutOfMemory);
        };
        let matrices = self.chosen_matrices(alloc, records, reader, matrices)?;
        let vectors = self.chosen_vectors(alloc, records, reader, vectors)?;
        match State::of(alloc, matrices, vectors) {
            Ok(state) => Ok(state),
            Err(_refused) => Err(NoSuccessor::OutOfMemory),
        }
    }

    /// The store of these objects, with the calls that make it anew and room for so many more, where a history that so many passes share may
    /// have it. `RoomTooSmall` tells how many calls make the store, where it may not.
    pub(crate) fn rebuild_chosen(
        &mut self,
        alloc: Global,
        records: &Records,
        reader: &mut Reader,
        matrices: &[MatrixId],
        vectors: &[VectorId],
        room: u32,
        passes: u32,
    ) -> Result<Rebuild, NoSuccessor>
        requires evaluated { IsEvaluatedFor reader.old self.old }
        requires of { All (IsOf records.now) reader.old.shown }
        requires matrices { length matrices.now < 2 ^ 32 }
        requires vectors { length vectors.now < 2 ^ 32 }
        requires room { room ≤ MOST_ROOM }
        requires passes { (0 < passes) × (passes ≤ MOST_PASSES) }
        ensures same { reader.new ≡ reader.old }
        ensures evaluated { IsEvaluatedFor reader.new self.new }
        ensures rebuild { IfOk result (λ r. IsRebuild (room_beside r.state.store room) r.calls.items r.state) }
        ensures fits { IfOk result (λ r. MayHaveRoom (room_beside r.state.store room) passes) }
        ensures store { IfOk result (λ r. r.state.store ≡ chosen_store (store_of (known reader.old)) matrices.now vectors.now) }
        ensures refused { IfErr result (IsNoSuccessor room passes (chosen_store (store_of (known reader.old)) matrices.now vectors.now)) }
        ensures named { IfErr result (NamesChosen (store_of (known reader.old)) matrices.now vectors.now) }
    {
        let state = self.chosen(alloc, records, reader, matrices, vectors)?;
        rebuild_beside(alloc, &state, room, passes)
    }
}
