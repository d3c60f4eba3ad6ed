//! A new store that begins with some objects of an old one.
ghost use Rattle.std.specs.Prelude.{◌≡◌, ◌<◌, ◌≤◌, ◌^◌, length, All, IfOk, IfErr, OnOk};
ghost use Rattle.grb_order.specs.declared.limits.TheConstants.{MOST_PASSES, MOST_ROOM};
ghost use Rattle.grb_order.specs.Order.{room_of};
ghost use Rattle.grb_records.specs.Token.{HasRows};
ghost use Rattle.grb_call.specs.History.{store_of};
ghost use Rattle.grb_reader.specs.Known.{IsPassOf, known};
ghost use Rattle.grb_pass.specs.Chosen.{IsNoSuccessor, NamesChosen, chosen_store, room_beside};
ghost use Rattle.grb_pass.specs.Looking.{IsNow, Looks};
ghost use Rattle.grb_pass.specs.Succeeding.{AreBegun};

use crate::pass::Pass;
use crate::shared::Shared;
use grb_call::{MatrixId, VectorId};
use grb_core::Refusal;
use grb_objects::Helps;
use grb_reader::End;
use grb_rebuild::NoSuccessor;
use std::alloc::Global;

impl<O: Helps> Shared<O> {
    /// A new store that begins with these objects, as this pass knows them, and the passes of it: the matrix at place k of its list has the
    /// number k, and so has the vector at place k of its own; one that is not there is not there. Its history takes `room` calls beside
    /// those that make this store, which the first pass enters and all know. The pass makes what these objects hold and nothing else; no
    /// entry is copied, and nothing else of it or of this store changes. `RoomTooSmall` tells how many calls make the store, where no history
    /// has room for all; `Unmade` names a chosen object to which memory is refused, `OutOfMemory` where memory is refused to anything else, and
    /// `Panic` where a record of the new store is not taken.
    pub fn branch(
        &self,
        alloc: Global,
        pass: &mut Pass<O>,
        matrices: &[MatrixId],
        vectors: &[VectorId],
        room: u32,
        passes: u32,
    ) -> Result<(Shared<O>, Vec<Pass<O>>), NoSuccessor>
        requires pass { IsPassOf self.now pass.old }
        requires room { (0 < room) × (room ≤ MOST_ROOM) }
        requires passes { (0 < passes) × (passes ≤ MOST_PASSES) }
        requires matrices { length matrices.now < 2 ^ 32 }
        requires vectors { length vectors.now < 2 ^ 32 }
        ensures same { pass.new ≡ record pass.old { made = pass.new.made } }
        ensures room { IfOk result (λ opened. room_of opened.0.order ≡ room_beside (chosen_store (store_of (known pass.old)) matrices.now vectors.now) room) }
        ensures records { IfOk result (λ opened. HasRows passes (room_beside (chosen_store (store_of (known pass.old)) matrices.now vectors.now) room) opened.0.records) }
        ensures begun { IfOk result (λ opened. AreBegun opened.0 (chosen_store (store_of (known pass.old)) matrices.now vectors.now) passes opened.1.items) }
        ensures ours { IfOk result (λ opened. All (IsPassOf opened.0) opened.1.items) }
        ensures refused { IfErr result (IsNoSuccessor room passes (chosen_store (store_of (known pass.old)) matrices.now vectors.now)) }
        ensures named { IfErr result (NamesChosen (store_of (known pass.old)) matrices.now vectors.now) }
    {
        let rebuild = pass.rebuild_chosen(alloc, &self.records, matrices, vectors, room, passes)?;
        Shared::begin_beside(alloc, rebuild, room, passes)
    }

    /// Learns the order to its end, as a call does that only reads. `Panic` where a record is not shown.
    pub(crate) fn look(&self, pass: &mut Pass<O>) -> Result<End, Refusal>
        requires pass { IsPassOf self.now pass.old }
        ensures pass { IsPassOf self.now pass.new }
        ensures looks { Looks (room_of self.now.order) pass.old pass.new }
        ensures now { OnOk result (IsNow (room_of self.now.order) pass.old pass.new) }
    {
        pass.begin();
        self.learn(&mut pass.reader)
    }

    /// The same of these objects as they are now: the pass first learns the newest words, as a call does that only reads, so the moment is
    /// one inside this call. `Panic` also where a record is not shown.
    pub fn branch_now(
        &self,
        alloc: Global,
        pass: &mut Pass<O>,
        matrices: &[MatrixId],
        vectors: &[VectorId],
        room: u32,
        passes: u32,
    ) -> Result<(Shared<O>, Vec<Pass<O>>), NoSuccessor>
        requires pass { IsPassOf self.now pass.old }
        requires room { (0 < room) × (room ≤ MOST_ROOM) }
        requires passes { (0 < passes) × (passes ≤ MOST_PASSES) }
        requires matrices { length matrices.now < 2 ^ 32 }
        requires vectors { length vectors.now < 2 ^ 32 }
        ensures pass { IsPassOf self.now pass.new }
        ensures looks { Looks (room_of self.now.order) pass.old pass.new }
        ensures now { OnOk result (IsNow (room_of self.now.order) pass.old pass.new) }
        ensures room { IfOk result (λ opened. room_of opened.0.order ≡ room_beside (chosen_store (store_of (known pass.new)) matrices.now vectors.now) room) }
        ensures records { IfOk result (λ opened. HasRows passes (room_beside (chosen_store (store_of (known pass.new)) matrices.now vectors.now) room) opened.0.records) }
        ensures begun { IfOk result (λ opened. AreBegun opened.0 (chosen_store (store_of (known pass.new)) matrices.now vectors.now) passes opened.1.items) }
        ensures ours { IfOk result (λ opened. All (IsPassOf opened.0) opened.1.items) }
        ensures refused { IfErr result (IsNoSuccessor room passes (chosen_store (store_of (known pass.new)) matrices.now vectors.now)) }
        ensures named { IfErr result (NamesChosen (store_of (known pass.new)) matrices.now vectors.now) }
    {
        let Ok(_end) = self.look(pass) else {
            return Err(NoSuccessor::Panic);
        };
        self.branch(alloc, pass, matrices, vectors, room, passes)
    }
}
