//! What a successor begins with: the store that all known calls leave, with the calls that make it anew; and a store that is taken for what
//! was evaluated. And what passes that adopt this one find made.
ghost use Rattle.std.specs.Prelude.{◌≡◌, ◌+◌, ◌<◌, ◌≤◌, ◌^◌, length, All, IfOk, IfErr};
ghost use Rattle.grb_order.specs.declared.limits.TheConstants.{MOST_PASSES, MOST_ROOM};
ghost use Rattle.grb_records.specs.Token.{IsOf};
ghost use Rattle.grb_call.specs.History.{calls_of, store_of};
ghost use Rattle.grb_rebuild.specs.Rebuilding.{IsRebuild};
ghost use Rattle.grb_results.specs.Kept.{IsTableOf};
ghost use Rattle.grb_pass.specs.Chosen.{IsNoSuccessor, MayHaveRoom, NamesLive, room_beside};
ghost use Rattle.grb_pass.specs.Evaluated.{IsAssembled, IsEvaluatedFor};
ghost use Rattle.grb_pass.specs.Making.{IsForMemory};
ghost use Rattle.grb_reader.specs.Known.{known};
ghost use Rattle.grb_reader.specs.LiveNumbers.{matrix_ids, numbers_below, vector_ids};

use super::Evaluated;
use super::choosing::rebuild_beside;
use super::exchange::DEAR;
use grb_call::{MatrixId, VectorId};
use grb_objects::Helps;
use grb_reader::Reader;
use grb_rebuild::{NoSuccessor, Rebuild};
use grb_records::Records;
use grb_states::State;
use std::alloc::{AllocError, Global};

/// The matrices of the first numbers. `AllocError` where memory is refused.
fn all_matrices(alloc: Global, count: u32) -> Result<Vec<MatrixId>, AllocError>
    ensures { IfOk result (λ ids. ids.items ≡ matrix_ids (numbers_below count)) }
{
    let mut ids = Vec::with_capacity(alloc, count as usize)?;
    'matrices: for number in 0..count {
        ids.push(MatrixId(number))?;
    }
    Ok(ids)
}

/// The vectors of the first numbers. `AllocError` where memory is refused.
fn all_vectors(alloc: Global, count: u32) -> Result<Vec<VectorId>, AllocError>
    ensures { IfOk result (λ ids. ids.items ≡ vector_ids (numbers_below count)) }
{
    let mut ids = Vec::with_capacity(alloc, count as usize)?;
    'vectors: for number in 0..count {
        ids.push(VectorId(number))?;
    }
    Ok(ids)
}

impl<O: Helps> Evaluated<O> {
    /// The store that all known calls leave, evaluated object by object, with no change left that waits, as [`Evaluated::chosen`] has one.
    fn whole(
        &mut self,
        alloc: Global,
        records: &Records,
        reader: &mut Reader,
    ) -> Result<State, NoSuccessor>
        requires evaluated { IsEvaluatedFor reader.old self.old }
        requires of { All (IsOf records.now) reader.old.shown }
        ensures same { reader.new ≡ reader.old }
        ensures evaluated { IsEvaluatedFor reader.new self.new }
        ensures store { IfOk result (λ state. state.store ≡ store_of (known reader.old)) }
        ensures assembled { IfOk result IsAssembled }
        ensures memory { IfErr result IsForMemory }
        ensures named { IfErr result (NamesLive (store_of (known reader.old))) }
    {
        let Ok(matrices) = all_matrices(alloc, reader.shapes().matrices()) else {
            return Err(NoSuccessor::OutOfMemory);
        };
        let Ok(vectors) = all_vectors(alloc, reader.shapes().vectors()) else {
            return Err(NoSuccessor::OutOfMemory);
        };
        self.chosen(
            alloc,
            records,
            reader,
            matrices.as_slice(),
            vectors.as_slice(),
        )
    }

    /// The store that all known calls leave, with the calls that make it anew and room for so many more, as [`rebuild_beside`] has them.
    pub(crate) fn rebuild(
        &mut self,
        alloc: Global,
        records: &Records,
        reader: &mut Reader,
        room: u32,
        passes: u32,
    ) -> Result<Rebuild, NoSuccessor>
        requires evaluated { IsEvaluatedFor reader.old self.old }
        requires of { All (IsOf records.now) reader.old.shown }
        requires room { room ≤ MOST_ROOM }
        requires passes { (0 < passes) × (passes ≤ MOST_PASSES) }
        ensures same { reader.new ≡ reader.old }
        ensures evaluated { IsEvaluatedFor reader.new self.new }
        ensures rebuild { IfOk result (λ r. IsRebuild (room_beside r.state.store room) r.calls.items r.state) }
        ensures fits { IfOk result (λ r. MayHaveRoom (room_beside r.state.store room) passes) }
        ensures store { IfOk result (λ r. r.state.store ≡ store_of (known reader.old)) }
        ensures refused { IfErr result (IsNoSuccessor room passes (store_of (known reader.old))) }
        ensures named { IfErr result (NamesLive (store_of (known reader.old))) }
    {
        let state = self.whole(alloc, records, reader)?;
        rebuild_beside(alloc, &state, room, passes)
    }

    /// Takes this store, which the known calls leave, for what was evaluated. Where memory is refused, an answer makes what it needs.
    pub(crate) fn begin_with(&mut self, records: &Records, reader: &mut Reader, state: &State)
        requires evaluated { IsEvaluatedFor reader.old self.old }
        requires of { All (IsOf records.now) reader.old.shown }
        requires store { state.now.store ≡ store_of (known reader.old) }
        ensures same { reader.new ≡ reader.old }
        ensures evaluated { IsEvaluatedFor reader.new self.new }
        ensures made { self.new.made ≡ self.old.made }
    {
        if self.learn(records, reader).is_ok() {
            self.table.begin_with(state);
        }
    }

    /// Makes what the objects hold that are there after all known calls, which were learnt, where that is dear. Where memory is refused, fewer.
    fn make_where_dear(&mut self, records: &Records, reader: &mut Reader)
        requires evaluated { IsEvaluatedFor reader.old self.old }
        requires of { All (IsOf records.now) reader.old.shown }
        requires table { IsTableOf (calls_of (known reader.old)) self.old }
        ensures same { reader.new ≡ reader.old }
        ensures evaluated { IsEvaluatedFor reader.new self.new }
    {
        if self.table.work_for_all(reader, records) < DEAR {
            return;
        }
        let _ = self.make_ready(records, reader);
    }

    /// Makes what the objects hold that are there after all known calls, where that is dear, so that others can go on from there; how many of
    /// the known calls no answer makes any more before another one. Where memory is refused, fewer.
    pub(crate) fn prepare(&mut self, records: &Records, reader: &mut Reader) -> u32
        requires evaluated { IsEvaluatedFor reader.old self.old }
        requires of { All (IsOf records.now) reader.old.shown }
        ensures same { reader.new ≡ reader.old }
        ensures evaluated { IsEvaluatedFor reader.new self.new }
        ensures count { result ≤ length (known reader.new) }
    {
        if self.learn(records, reader).is_err() {
            return 0;
        }
        self.make_where_dear(records, reader);
        self.table.evaluated().min(reader.known())
    }
}
