//! A context of its own that begins with some objects of another one.
ghost use Rattle.std.specs.Prelude.{◌≡◌, ◌<◌, ◌≤◌, ◌^◌, length, All, IfErr, IfOk, OnOk};
ghost use Rattle.grb_order.specs.declared.limits.TheConstants.{MOST_PASSES, MOST_ROOM};
ghost use Rattle.grb_order.specs.Order.{room_of};
ghost use Rattle.grb_records.specs.Token.{HasRows};
ghost use Rattle.grb_call.specs.History.{store_of};
ghost use Rattle.grb_context.specs.Chosen.{IsNoSuccessor, NamesChosen, chosen_store, room_beside};
ghost use Rattle.grb_context.specs.Known.{IsPassOf, known};
ghost use Rattle.grb_context.specs.Looking.{IsNow, Looks};
ghost use Rattle.grb_context.specs.Succeeding.{AreBegun};

use crate::Pass;
use crate::context::Context;
use grb_call::{MatrixId, VectorId};
use grb_pass::NoSuccessor;
use std::alloc::Global;

impl Context {
    /// A context of its own that begins with these objects, just as this pass knows them: all of them as they are at one moment, that of the
    /// last word which the pass has learnt. [`Context::branch_now`] learns the newest words first. The matrix at place k of its list has
    /// the number k, and so has the vector at place k of its own; one that was freed or never made is not there. What is made, changed or
    /// freed there is not seen here, and the other way round; it takes no room here and ends with the branch. So an analysis of many calls
    /// reads one moment, and leaves no object behind.
    ///
    /// The pass makes what these objects hold and nothing else. Objects are shared with this context until one of the two changes one, and no
    /// entry is copied. Each new pass is as one of [`Context::succeed`], and knows the calls of pass 0 that make these objects: one, or two
    /// where entries are stored or there is no such object. `room` is how many calls the branch takes beside these: then its history is full.
    ///
    /// `RoomTooSmall` tells how many calls make the objects, where these and `room` are more than `MOST_WORDS`, or times `passes` more than
    /// `MOST_PLACES`. `Unmade` names a chosen object to which memory is refused: free it, or leave it out. `OutOfMemory` where memory is
    /// refused to anything else, and `Panic` where a record of the new context is not taken. In each case no context is made, and this one
    /// and its passes are as before, but for what the pass has evaluated (own).
    pub fn branch(
        &self,
        alloc: Global,
        pass: &mut Pass,
        matrices: &[MatrixId],
        vectors: &[VectorId],
        room: u32,
        passes: u32,
    ) -> Result<(Context, Vec<Pass>), NoSuccessor>
        requires pass { IsPassOf self.now pass.old }
        requires room { (0 < room) × (room ≤ MOST_ROOM) }
        requires passes { (0 < passes) × (passes ≤ MOST_PASSES) }
        requires matrices { length matrices.now < 2 ^ 32 }
        requires vectors { length vectors.now < 2 ^ 32 }
        ensures pass { IsPassOf self.now pass.new }
        ensures same { pass.new ≡ record pass.old { made = pass.new.made } }
        ensures room { IfOk result (λ opened. room_of opened.0.order ≡ room_beside (chosen_store (store_of (known pass.old)) matrices.now vectors.now) room) }
        ensures records { IfOk result (λ opened. HasRows passes (room_beside (chosen_store (store_of (known pass.old)) matrices.now vectors.now) room) opened.0.records) }
        ensures begun { IfOk result (λ opened. AreBegun opened.0 (chosen_store (store_of (known pass.old)) matrices.now vectors.now) passes opened.1.items) }
        ensures ours { IfOk result (λ opened. All (IsPassOf opened.0) opened.1.items) }
        ensures refused { IfErr result (IsNoSuccessor room passes (chosen_store (store_of (known pass.old)) matrices.now vectors.now)) }
        ensures named { IfErr result (NamesChosen (store_of (known pass.old)) matrices.now vectors.now) }
    {
        let (shared, opened) = self
            .shared
            .branch(alloc, pass, matrices, vectors, room, passes)?;
        Ok((Context { shared, alloc }, opened))
    }

    /// The same of these objects as they are now: the pass first learns the newest words, as a call does that only reads, so the moment is one
    /// inside this call. A call that returned before this one began is seen, and what the pass knows afterwards is as after a read. `Panic`
    /// also where the record of an earlier call is not shown yet; the next call asks for it again (own).
    pub fn branch_now(
        &self,
        alloc: Global,
        pass: &mut Pass,
        matrices: &[MatrixId],
        vectors: &[VectorId],
        room: u32,
        passes: u32,
    ) -> Result<(Context, Vec<Pass>), NoSuccessor>
        requires pass { IsPassOf self.now pass.old }
        requires room { (0 < room) × (room ≤ MOST_ROOM) }
        requires passes { (0 < passes) × (passes ≤ MOST_PASSES) }
        requires matrices { length matrices.now < 2 ^ 32 }
        requires vectors { length vectors.now < 2 ^ 32 }
        ensures pass { IsPassOf self.now pass.new }
        ensures looks { Looks (room_of self.now.order) pass.old pass.new }
        ensures now { OnOk result (IsNow (room_of self.now.order) pass.old pass.new) }
        ensures room { IfOk result (λ opened. room_of opened.0.order ≡ room_beside (chosen_store (store_of (known pass.new)) matrices.now vectors.now) room) }
        ensures records { IfOk result (λ opened. HasRows passes (room_beside (chosen_store (store_of (known pass.new)) matrices.now vectors.now) room) opened.0.records) }
        ensures begun { IfOk result (λ opened. AreBegun opened.0 (chosen_store (store_of (known pass.new)) matrices.now vectors.now) passes opened.1.items) }
        ensures ours { IfOk result (λ opened. All (IsPassOf opened.0) opened.1.items) }
        ensures refused { IfErr result (IsNoSuccessor room passes (chosen_store (store_of (known pass.new)) matrices.now vectors.now)) }
        ensures named { IfErr result (NamesChosen (store_of (known pass.new)) matrices.now vectors.now) }
    {
        let (shared, opened) = self
            .shared
            .branch_now(alloc, pass, matrices, vectors, room, passes)?;
        Ok((Context { shared, alloc }, opened))
    }
}
