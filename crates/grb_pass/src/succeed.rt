//! A new store that begins as an old one ends.
ghost use Rattle.std.specs.Prelude.{◌≡◌, ◌<◌, ◌≤◌, ◌+◌, ◌^◌, ◌∷◌, ◌++◌, ◌⊎◌, ℕ, true, [], Some, None, length, slice_get, All, IfOk, IfErr, OnOk};
ghost use Rattle.grb_order.specs.declared.limits.TheConstants.{MOST_PASSES, MOST_ROOM};
ghost use Rattle.grb_order.specs.View.{LookedLast};
ghost use Rattle.grb_order.specs.Order.{room_of};
ghost use Rattle.grb_records.specs.Token.{HasRows};
ghost use Rattle.grb_call.specs.Kinds.{enters};
ghost use Rattle.grb_call.specs.Store.{empty_store};
ghost use Rattle.grb_call.specs.After.{refused};
ghost use Rattle.grb_call.specs.History.{after_all, store_of};
ghost use Rattle.grb_rebuild.specs.Rebuilding.{IsRebuild};
ghost use Rattle.grb_rebuild.specs.Rebuilt.{AreTaken};
ghost use Rattle.grb_reader.specs.Known.{AreNew, IsPassOf, Knowing, known, none_made};
ghost use Rattle.grb_reader.specs.Learning.{IsSteady};
ghost use Rattle.grb_pass.specs.Chosen.{IsNoSuccessor, MayHaveRoom, NamesLive, room_beside};
ghost use Rattle.grb_pass.specs.Looking.{IsNow, Looks};
ghost use Rattle.grb_pass.specs.Succeeding.{made_by, AreBegun, IsOpenedWith};

use crate::pass::Pass;
use crate::shared::Shared;
use grb_call::Call;
use grb_core::Refusal;
use grb_objects::Helps;
use grb_reader::End;
use grb_rebuild::{NoSuccessor, Rebuild};
use grb_states::State;
use std::alloc::Global;

/// What a refusal of a call of the new store says.
fn why(refusal: Refusal) -> NoSuccessor
    ensures { (result ≡ NoSuccessor.OutOfMemory) ⊎ (result ≡ NoSuccessor.Panic) }
{
    match refusal {
        Refusal::OutOfMemory => NoSuccessor::OutOfMemory,
        _ => NoSuccessor::Panic,
    }
}

impl<O: Helps> Shared<O> {
    /// Looks once at the word after those that the pass knows. `Panic` where another pass has entered one.
    fn ready_alone(&self, pass: &mut Pass<O>) -> Result<(), Refusal>
        requires pass { IsPassOf self.now pass.old }
        ensures pass { OnOk result (IsPassOf self.now pass.new) }
        ensures number { OnOk result (pass.new.view.number ≡ pass.old.view.number) }
        ensures passes { OnOk result (pass.new.view.passes ≡ pass.old.view.passes) }
        ensures statuses { OnOk result (pass.new.statuses ≡ pass.old.statuses) }
        ensures settled { OnOk result (pass.new.settled ≡ pass.old.settled) }
        ensures few { OnOk result (pass.new.steps < 2 ^ 28) }
        ensures steady { OnOk result (IsSteady pass.new) }
        ensures known { OnOk result (known pass.new ≡ known pass.old) }
        ensures all { OnOk result (length pass.new.shown ≡ length pass.new.view.words) }
        ensures looked { OnOk result (LookedLast pass.new.view) }
        ensures room_left { OnOk result (length pass.new.view.words < room_of self.now.order) }
    {
        pass.begin();
        let known = pass.known();
        let end = self.learn(&mut pass.reader)?;
        if pass.known() != known {
            return Err(Refusal::Panic);
        }
        match end {
            End::Vacant => Ok(()),
            End::Full => Err(Refusal::OrderFull),
        }
    }

    /// Enters a call that is not refused after all that the pass knows. `Panic` where another pass has entered one meanwhile, or the record
    /// was not taken. A build is not evaluated before. `OutOfMemory` where memory for its record is refused.
    fn enter_alone(&self, pass: &mut Pass<O>, call: Call) -> Result<(), Refusal>
        requires pass { IsPassOf self.now pass.old }
        requires enters { enters call ≡ true }
        requires accepted { refused (store_of (known pass.old)) call ≡ None }
        ensures pass { OnOk result (IsPassOf self.now pass.new) }
        ensures number { OnOk result (pass.new.view.number ≡ pass.old.view.number) }
        ensures passes { OnOk result (pass.new.view.passes ≡ pass.old.view.passes) }
        ensures statuses { OnOk result (pass.new.statuses ≡ pass.old.statuses) }
        ensures settled { OnOk result (pass.new.settled ≡ pass.old.settled) }
        ensures known { OnOk result (known pass.new ≡ known pass.old ++ (pass.old.view.number, call) ∷ []) }
    {
        self.ready_alone(pass)?;
        let known = pass.known();
        let token = pass.put(&self.records, call)?;
        self.enter_token(pass, token)?;
        if pass.known() != known + 1 {
            return Err(Refusal::Panic);
        }
        Ok(())
    }

    /// Enters calls of which none is refused where it is made. `OutOfMemory` where memory for a record is refused; those before it stay
    /// entered.
    fn enter_all(&self, pass: &mut Pass<O>, calls: Vec<Call>) -> Result<(), Refusal>
        requires pass { IsPassOf self.now pass.old }
        requires none { known pass.old ≡ [] }
        requires taken { AreTaken empty_store calls.items }
        ensures pass { OnOk result (IsPassOf self.now pass.new) }
        ensures number { OnOk result (pass.new.view.number ≡ pass.old.view.number) }
        ensures passes { OnOk result (pass.new.view.passes ≡ pass.old.view.passes) }
        ensures statuses { OnOk result (pass.new.statuses ≡ pass.old.statuses) }
        ensures settled { OnOk result (pass.new.settled ≡ pass.old.settled) }
        ensures known { OnOk result (known pass.new ≡ made_by pass.old.view.number calls.items) }
    {
        'calls: for call in calls {
            self.enter_alone(pass, call)?;
        }
        Ok(())
    }

    /// Enters these calls, none of which is refused where it is made, and takes the store that they leave for what the pass has evaluated.
    /// What that took is not counted.
    fn begin_first(
        &self,
        pass: &mut Pass<O>,
        calls: Vec<Call>,
        state: State,
    ) -> Result<(), NoSuccessor>
        requires pass { IsPassOf self.now pass.old }
        requires none { known pass.old ≡ [] }
        requires taken { AreTaken empty_store calls.items }
        requires store { state.store ≡ after_all empty_store calls.items }
        ensures pass { OnOk result (IsPassOf self.now pass.new) }
        ensures number { OnOk result (pass.new.view.number ≡ pass.old.view.number) }
        ensures passes { OnOk result (pass.new.view.passes ≡ pass.old.view.passes) }
        ensures statuses { OnOk result (pass.new.statuses ≡ pass.old.statuses) }
        ensures settled { OnOk result (pass.new.settled ≡ pass.old.settled) }
        ensures counted { OnOk result ((pass.new.steps ≡ 0) × (pass.new.made ≡ none_made)) }
        ensures known { OnOk result (known pass.new ≡ made_by pass.old.view.number calls.items) }
        ensures refused { IfErr result (λ no. (no ≡ NoSuccessor.OutOfMemory) ⊎ (no ≡ NoSuccessor.Panic)) }
    {
        if let Err(refusal) = self.enter_all(pass, calls) {
            return Err(why(refusal));
        }
        pass.begin();
        pass.begin_with(&self.records, &state);
        Ok(())
    }

    /// Lets the pass adopt the first, which knows no less. What that took is not counted. `Panic` where a record is not shown, or the pass
    /// knows more.
    fn tell(&self, first: &mut Pass<O>, other: &mut Pass<O>) -> Result<(), NoSuccessor>
        requires first { IsPassOf self.now first.old }
        requires other { IsPassOf self.now other.old }
        ensures first { first.new ≡ first.old }
        ensures pass { OnOk result (IsPassOf self.now other.new) }
        ensures number { OnOk result (other.new.view.number ≡ other.old.view.number) }
        ensures passes { OnOk result (other.new.view.passes ≡ other.old.view.passes) }
        ensures statuses { OnOk result (other.new.statuses ≡ other.old.statuses) }
        ensures settled { OnOk result (other.new.settled ≡ other.old.settled) }
        ensures counted { OnOk result ((other.new.steps ≡ 0) × (other.new.made ≡ none_made)) }
        ensures known { OnOk result (known other.new ≡ known first.old) }
        ensures refused { IfErr result (λ no. no ≡ NoSuccessor.Panic) }
    {
        let Ok(()) = self.adopt(other, first) else {
            return Err(NoSuccessor::Panic);
        };
        if other.known() != first.known() {
            return Err(NoSuccessor::Panic);
        }
        other.begin();
        Ok(())
    }

    /// Lets each of these passes, which are those after the first, adopt it.
    fn tell_all(&self, first: &mut Pass<O>, others: &mut Vec<Pass<O>>) -> Result<(), NoSuccessor>
        requires first { IsPassOf self.now first.old }
        requires opened { (n : ℕ) (p : Knowing) → slice_get others.old.items n ≡ Some p → IsOpenedWith self.now first.old (n + 1) p }
        ensures first { first.new ≡ first.old }
        ensures opened { OnOk result ((n : ℕ) (p : Knowing) → slice_get others.new.items n ≡ Some p → IsOpenedWith self.now first.old (n + 1) p) }
        ensures count { OnOk result (length others.new.items ≡ length others.old.items) }
        ensures known { OnOk result ((n : ℕ) (p : Knowing) → slice_get others.new.items n ≡ Some p → known p ≡ known first.old) }
        ensures refused { IfErr result (λ no. no ≡ NoSuccessor.Panic) }
    {
        'others: for at in 0..others.len() {
            self.tell(first, &mut others[at])?;
        }
        Ok(())
    }

    /// Has the first of new passes enter the calls that make the store anew, and the others adopt it.
    fn begin_all(&self, opened: Vec<Pass<O>>, rebuild: Rebuild) -> Result<Vec<Pass<O>>, NoSuccessor>
        requires some { 0 < length opened.items }
        requires opened { AreNew self.now.order (length opened.items) opened.items (length opened.items) }
        requires ours { All (IsPassOf self.now) opened.items }
        requires rebuild { IsRebuild (room_of self.now.order) rebuild.calls.items rebuild.state }
        ensures begun { IfOk result (λ passes. AreBegun self.now rebuild.state.store (length opened.items) passes.items) }
        ensures ours { IfOk result (λ passes. All (IsPassOf self.now) passes.items) }
        ensures refused { IfErr result (λ no. (no ≡ NoSuccessor.OutOfMemory) ⊎ (no ≡ NoSuccessor.Panic)) }
    {
        let mut others = opened;
        let mut first = others.remove(0);
        self.begin_first(&mut first, rebuild.calls, rebuild.state)?;
        self.tell_all(&mut first, &mut others)?;
        let Ok(()) = others.insert(0, first) else {
            return Err(NoSuccessor::OutOfMemory);
        };
        Ok(others)
    }

    /// A new store that begins with this one, and so many passes of it. Its history takes `room` calls beside those that make the store anew.
    pub(crate) fn begin_beside(
        alloc: Global,
        rebuild: Rebuild,
        room: u32,
        passes: u32,
    ) -> Result<(Shared<O>, Vec<Pass<O>>), NoSuccessor>
        requires room { 0 < room }
        requires passes { (0 < passes) × (passes ≤ MOST_PASSES) }
        requires rebuild { IsRebuild (room_beside rebuild.state.store room) rebuild.calls.items rebuild.state }
        requires fits { MayHaveRoom (room_beside rebuild.state.store room) passes }
        ensures room { IfOk result (λ opened. room_of opened.0.order ≡ room_beside rebuild.state.store room) }
        ensures records { IfOk result (λ opened. HasRows passes (room_beside rebuild.state.store room) opened.0.records) }
        ensures begun { IfOk result (λ opened. AreBegun opened.0 rebuild.state.store passes opened.1.items) }
        ensures ours { IfOk result (λ opened. All (IsPassOf opened.0) opened.1.items) }
        ensures refused { IfErr result (λ no. (no ≡ NoSuccessor.OutOfMemory) ⊎ (no ≡ NoSuccessor.Panic)) }
    {
        let whole = rebuild.calls.len() as u32 + room;
        let Ok((next, opened)) = Shared::open(alloc, whole, passes) else {
            return Err(NoSuccessor::OutOfMemory);
        };
        let begun = next.begin_all(opened, rebuild)?;
        Ok((next, begun))
    }

    /// A new store that so many passes share: it begins with calls of its first pass that make just the store that all calls leave which this
    /// pass knows, and its history takes `room` calls beside these. Objects have their numbers, those that were freed stay freed, and the
    /// next one is given the next number. All new passes know these calls and share what is evaluated of them; none has counted a step, or a
    /// call that it made. The pass evaluates the calls that it knows; nothing else of it or of this store changes. No entry is copied.
    /// `RoomTooSmall` tells how many calls make the store, where no history has room for all; `Unmade` names an object to which memory is
    /// refused, `OutOfMemory` where memory is refused to anything else, and `Panic` where a record of the new store is not taken.
    pub fn succeed(
        &self,
        alloc: Global,
        pass: &mut Pass<O>,
        room: u32,
        passes: u32,
    ) -> Result<(Shared<O>, Vec<Pass<O>>), NoSuccessor>
        requires pass { IsPassOf self.now pass.old }
        requires room { (0 < room) × (room ≤ MOST_ROOM) }
        requires passes { (0 < passes) × (passes ≤ MOST_PASSES) }
        ensures same { pass.new ≡ record pass.old { made = pass.new.made } }
        ensures room { IfOk result (λ opened. room_of opened.0.order ≡ room_beside (store_of (known pass.old)) room) }
        ensures records { IfOk result (λ opened. HasRows passes (room_beside (store_of (known pass.old)) room) opened.0.records) }
        ensures begun { IfOk result (λ opened. AreBegun opened.0 (store_of (known pass.old)) passes opened.1.items) }
        ensures ours { IfOk result (λ opened. All (IsPassOf opened.0) opened.1.items) }
        ensures refused { IfErr result (IsNoSuccessor room passes (store_of (known pass.old))) }
        ensures named { IfErr result (NamesLive (store_of (known pass.old))) }
    {
        let rebuild = pass.rebuild(alloc, &self.records, room, passes)?;
        Shared::begin_beside(alloc, rebuild, room, passes)
    }

    /// The same of the store as it is now: the pass first learns the newest words, as a call does that only reads, so the moment is one inside
    /// this call. `Panic` also where a record is not shown.
    pub fn succeed_now(
        &self,
        alloc: Global,
        pass: &mut Pass<O>,
        room: u32,
        passes: u32,
    ) -> Result<(Shared<O>, Vec<Pass<O>>), NoSuccessor>
        requires pass { IsPassOf self.now pass.old }
        requires room { (0 < room) × (room ≤ MOST_ROOM) }
        requires passes { (0 < passes) × (passes ≤ MOST_PASSES) }
        ensures pass { IsPassOf self.now pass.new }
        ensures looks { Looks (room_of self.now.order) pass.old pass.new }
        ensures now { OnOk result (IsNow (room_of self.now.order) pass.old pass.new) }
        ensures room { IfOk result (λ opened. room_of opened.0.order ≡ room_beside (store_of (known pass.new)) room) }
        ensures records { IfOk result (λ opened. HasRows passes (room_beside (store_of (known pass.new)) room) opened.0.records) }
        ensures begun { IfOk result (λ opened. AreBegun opened.0 (store_of (known pass.new)) passes opened.1.items) }
        ensures ours { IfOk result (λ opened. All (IsPassOf opened.0) opened.1.items) }
        ensures refused { IfErr result (IsNoSuccessor room passes (store_of (known pass.new))) }
        ensures named { IfErr result (NamesLive (store_of (known pass.new))) }
    {
        let Ok(_end) = self.look(pass) else {
            return Err(NoSuccessor::Panic);
        };
        self.succeed(alloc, pass, room, passes)
    }
}
