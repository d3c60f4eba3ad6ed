//! A context that goes on where another ends.
ghost use Rattle.std.specs.Prelude.{◌≡◌, ◌<◌, ◌≤◌, All, IfErr, IfOk, OnOk};
ghost use Rattle.grb_order.specs.declared.limits.TheConstants.{MOST_PASSES, MOST_ROOM};
ghost use Rattle.grb_order.specs.Order.{room_of};
ghost use Rattle.grb_records.specs.Token.{HasRows};
ghost use Rattle.grb_call.specs.History.{store_of};
ghost use Rattle.grb_context.specs.Chosen.{IsNoSuccessor, NamesLive, room_beside};
ghost use Rattle.grb_context.specs.Known.{IsPassOf, known};
ghost use Rattle.grb_context.specs.Looking.{IsNow, Looks};
ghost use Rattle.grb_context.specs.Succeeding.{AreBegun};

use crate::Pass;
use crate::context::Context;
use grb_pass::NoSuccessor;
use std::alloc::Global;

impl Context {
    /// A context that goes on where this one ends, and its passes: its history begins with calls of its pass 0 that make just the store that
    /// all calls leave which this pass knows, two at most for each number, and takes `room` calls beside these; then it is full. So each
    /// number means the same object, freed numbers stay freed, and the next object is given the next number. Each new pass knows just these
    /// calls and how many passes there are, shares what is evaluated of the calls, has no status, settled no call, and has counted no step
    /// and no call that it made; the one at index k has the number k. This context and its passes are as before, but for what the pass has
    /// evaluated.
    ///
    /// Where [`Pass::is_at_end`] holds of the pass, nothing is lost by going on. Called earlier it makes a store beside this one: what is
    /// entered here later is not there. Of some objects alone [`Context::branch`] makes one.
    ///
    /// Objects are shared with this context until one of the two changes one; no entry is copied. `RoomTooSmall` tells how many calls make the
    /// store, where these and `room` are more than `MOST_WORDS`, or times `passes` more than `MOST_PLACES`. `Unmade` names an object to which
    /// memory is refused: free it, or leave it out of a branch. `OutOfMemory` where memory is refused to anything else, and `Panic` where a
    /// record of the new context is not taken. In each case no context is made (own).
    pub fn succeed(
        &self,
        alloc: Global,
        pass: &mut Pass,
        room: u32,
        passes: u32,
    ) -> Result<(Context, Vec<Pass>), NoSuccessor>
        requires pass { IsPassOf self.now pass.old }
        requires room { (0 < room) × (room ≤ MOST_ROOM) }
        requires passes { (0 < passes) × (passes ≤ MOST_PASSES) }
        ensures pass { IsPassOf self.now pass.new }
        ensures same { pass.new ≡ record pass.old { made = pass.new.made } }
        ensures room { IfOk result (λ opened. room_of opened.0.order ≡ room_beside (store_of (known pass.old)) room) }
        ensures records { IfOk result (λ opened. HasRows passes (room_beside (store_of (known pass.old)) room) opened.0.records) }
        ensures begun { IfOk result (λ opened. AreBegun opened.0 (store_of (known pass.old)) passes opened.1.items) }
        ensures ours { IfOk result (λ opened. All (IsPassOf opened.0) opened.1.items) }
        ensures refused { IfErr result (IsNoSuccessor room passes (store_of (known pass.old))) }
        ensures named { IfErr result (NamesLive (store_of (known pass.old))) }
    {
        let (shared, opened) = self.shared.succeed(alloc, pass, room, passes)?;
        Ok((Context { shared, alloc }, opened))
    }

    /// The same of the store as it is now: the pass first learns the newest words, as a call does that only reads, so the moment is one inside
    /// this call. A call that returned before this one began is in the new context, and no number is given there that was given before. What
    /// the pass knows afterwards is as after a read. `Panic` also where the record of an earlier call is not shown yet; the next call asks for
    /// it again (own).
    pub fn succeed_now(
        &self,
        alloc: Global,
        pass: &mut Pass,
        room: u32,
        passes: u32,
    ) -> Result<(Context, Vec<Pass>), NoSuccessor>
        requires pass { IsPassOf self.now pass.old }
        requires room { (0 < room) × (room ≤ MOST_ROOM) }
        requires passes { (0 < passes) × (passes ≤ MOST_PASSES) }
        ensures pass { IsPassOf self.now pass.new }
        ensures looks { Looks (room_of self.now.order) pass.old pass.new }
        ensures now { OnOk result (IsNow (room_of self.now.order) pass.old pass.new) }
        ensures room { IfOk result (λ opened. room_of opened.0.order ≡ room_beside (store_of (known pass.new)) room) }
        ensures records { IfOk result (λ opened. HasRows passes (room_beside (store_of (known pass.new)) room) opened.0.records) }
        ensures begun { IfOk result (λ opened. AreBegun opened.0 (store_of (known pass.new)) passes opened.1.items) }
        ensures ours { IfOk result (λ opened. All (IsPassOf opened.0) opened.1.items) }
        ensures refused { IfErr result (IsNoSuccessor room passes (store_of (known pass.new))) }
        ensures named { IfErr result (NamesLive (store_of (known pass.new))) }
    {
        let (shared, opened) = self.shared.succeed_now(alloc, pass, room, passes)?;
        Ok((Context { shared, alloc }, opened))
    }
}
