//! Results of calls, by their numbers.
ghost use Rattle.std.specs.Prelude.{◌≡◌, ◌+◌, ◌-◌, ◌<◌, ◌^◌, ◌++◌, ◌∷◌, [], ℕ, false, true, List, Some, None, length, min, slice_get, slice_set, IfNone, IfOk, IfSome, OnOk, OnErr};
ghost use Rattle.grb_call.specs.declared.call.Call.{Call};
ghost use Rattle.grb_objects.specs.declared.shared_content.SharedContent.{SharedContent};
ghost use Rattle.grb_call.specs.Store.{empty_store};
ghost use Rattle.grb_call.specs.History.{after_all};
ghost use Rattle.grb_slices.specs.Content.{content_at};
ghost use Rattle.grb_links.specs.Lasts.{last_of};
ghost use Rattle.grb_call.specs.Shapes.{is_live};
ghost use Rattle.grb_results.specs.Kept.{IsKept, IsLast, IsSameBut};
ghost use Rattle.grb_results.specs.Results.{IsApart, IsResult, IsTable};
ghost use Rattle.grb_results.specs.Value.{content_of};

use crate::recent::Recent;
use grb_call::{Call, Object};
use grb_links::{EDIT_WORK, Learnt};
use grb_objects::SharedContent;
use std::alloc::{AllocError, Global};

/// For some calls of a list what their target held right after them.
#[derive(Drop)]
pub struct Table {
    pub(crate) alloc: Global,
    pub(crate) learnt: Learnt,
    pub(crate) results: Vec<Option<SharedContent>>,
    // Each object that is there lies ready which one of so many first calls was the last to change.
    pub(crate) settled: usize,
    // Which calls an operation or a dup reads, how many calls were made, and of how much work: no contract says any of it.
    pub(crate) reads: Vec<bool>,
    pub(crate) made: u32,
    pub(crate) work: u64,
    // How much work there is when results are dropped next, and how many entries results had that calls have ended: such as are kept, and
    // such as were dropped at once.
    pub(crate) swept: u64,
    pub(crate) freed: u64,
    pub(crate) ended: u64,
    // How many objects were looked at, to wait for all, and how many places, to adopt.
    pub(crate) looks: u64,
    // In which blocks of calls results were put last, and from which put on results of each other pass are new.
    pub(crate) recent: Recent,
    pub(crate) taken: Vec<u64>,
}

/// What stands at this place, which is left empty.
fn take_place(results: &mut Vec<Option<SharedContent>>, at: usize) -> Option<SharedContent>
    requires { at < length results.old.items }
    ensures empty { results.new.items ≡ slice_set results.old.items at None }
    ensures result { slice_get results.old.items at ≡ Some result }
{
    results[at].take()
}

impl Table {
    /// No call was learnt. Takes no memory.
    pub fn open(alloc: Global) -> Table
        ensures table { (cs : List Call) → IsTable cs result }
        ensures none { length result.learnt.nodes.items ≡ 0 }
        ensures places { length result.results.items ≡ 0 }
        ensures made { result.made ≡ 0 }
    {
        Table {
            alloc,
            learnt: Learnt::open(alloc),
            results: Vec::new(alloc),
            reads: Vec::new(alloc),
            settled: 0,
            made: 0,
            work: 0,
            swept: 0,
            freed: 0,
            ended: 0,
            looks: 0,
            recent: Recent {
                blocks: Vec::new(alloc),
                puts: 0,
            },
            taken: Vec::new(alloc),
        }
    }

    /// Learns the call that comes after those learnt: it is not made. `AllocError` where memory is refused; then it is not learnt.
    pub fn learn(&mut self, call: &Call) -> Result<(), AllocError>
        requires few { length self.old.learnt.nodes.items + 1 < 2 ^ 32 }
        ensures learnt { OnOk result ((cs : List Call) → IsTable cs self.old → slice_get cs (length self.old.learnt.nodes.items) ≡ Some call.now → IsTable cs self.new) }
        ensures grown { OnOk result ((cs : List Call) → IsTable cs self.old → length self.old.learnt.nodes.items ≡ length cs → IsTable (cs ++ call.now ∷ []) self.new) }
        ensures err { OnErr result ((cs : List Call) → IsTable cs self.old → IsTable cs self.new) }
        ensures more { OnOk result (length self.new.learnt.nodes.items ≡ length self.old.learnt.nodes.items + 1) }
        ensures no_more { OnErr result (length self.new.learnt.nodes.items ≡ length self.old.learnt.nodes.items) }
        ensures kept { OnOk result (self.new.results.items ≡ self.old.results.items ++ None ∷ []) }
        ensures stays { OnErr result (self.new.results.items ≡ self.old.results.items) }
        ensures made { self.new.made ≡ self.old.made }
    {
        self.results.reserve(1)?;
        self.reads.reserve(1)?;
        self.recent.reserve_for(self.results.len())?;
        self.learnt.learn(call)?;
        self.results.push_reserved(None);
        self.reads.push_reserved(false);
        self.mark();
        Ok(())
    }

    /// Notes which calls left what the last one reads, but for what its own object held.
    fn mark(&mut self)
        ensures learnt { self.new.learnt ≡ self.old.learnt }
        ensures results { self.new.results ≡ self.old.results }
        ensures settled { self.new.settled ≡ self.old.settled }
        ensures made { self.new.made ≡ self.old.made }
    {
        let learnt = &self.learnt;
        let last = learnt.count().saturating_sub(1);
        learnt.mark_others(&mut self.reads, last);
    }

    /// How many entries the result at this place has, if one is kept.
    pub(crate) fn entries_at(&self, at: u32) -> u64 {
        match self.kept(at as usize) {
            Some(value) => value.nvals(),
            None => 0,
        }
    }

    /// Drops what the object of the call at this place held before it, if nothing else is known to need it.
    pub(crate) fn drop_own(&mut self, at: u32)
        ensures table { (cs : List Call) → IsTable cs self.old → IsTable cs self.new }
        ensures learnt { self.new.learnt ≡ self.old.learnt }
        ensures places { length self.new.results.items ≡ length self.old.results.items }
    {
        let Some(before) = self.learnt.own_before(at) else {
            return;
        };
        if !self.is_free_to_change(before) {
            return;
        }
        let _dropped = self.take(before as usize);
    }

    /// What the call at this place left is about to be changed. Where it is noted that something reads it, a copy counts as work;
    /// and where a copy takes longer than to see what is needed, that is noted anew.
    pub(crate) fn before_change(&mut self, at: u32)
        ensures table { (cs : List Call) → IsTable cs self.old → IsTable cs self.new }
        ensures learnt { self.new.learnt ≡ self.old.learnt }
        ensures places { length self.new.results.items ≡ length self.old.results.items }
    {
        if self.is_free_to_change(at) {
            return;
        }
        let entries = self.entries_at(at);
        self.work = self.work.saturating_add(entries);
        if entries > self.learnt.count() as u64 {
            self.sweep();
        }
    }

    /// How many calls were learnt. Takes no memory.
    pub fn count(&self) -> usize
        ensures { result ≡ length self.now.learnt.nodes.items }
    {
        self.learnt.count()
    }

    /// Calls that are made count from here on. Takes no memory.
    pub fn begin(&mut self)
        ensures { self.new ≡ record self.old { made = 0 } }
    {
        self.made = 0;
    }

    /// How many calls were made since it was opened or last begun, each time that one was; at most 2^32 - 1. Takes no memory.
    pub fn made(&self) -> u32
        ensures { result ≡ self.now.made }
    {
        self.made
    }

    /// Of how much work the calls were that were made, in all: a measure without a unit. Takes no memory.
    pub fn work(&self) -> u64
        ensures { result ≡ self.now.work }
    {
        self.work
    }

    /// One call of so much work was made.
    pub(crate) fn count_one(&mut self, work: u64)
        ensures table { (cs : List Call) → IsTable cs self.old → IsTable cs self.new }
        ensures learnt { self.new.learnt ≡ self.old.learnt }
        ensures results { self.new.results ≡ self.old.results }
        ensures made { self.new.made ≡ min (self.old.made + 1) (2 ^ 32 - 1) }
    {
        self.made = self.made.saturating_add(1);
        self.work = self.work.saturating_add(work);
    }

    /// So many edits were made.
    pub(crate) fn count_edits(&mut self, edits: usize)
        ensures table { (cs : List Call) → IsTable cs self.old → IsTable cs self.new }
        ensures learnt { self.new.learnt ≡ self.old.learnt }
        ensures results { self.new.results ≡ self.old.results }
        ensures made { self.new.made ≡ min (self.old.made + edits) (2 ^ 32 - 1) }
    {
        self.made = self
            .made
            .saturating_add(edits.min(u32::MAX as usize) as u32);
        self.work = self
            .work
            .saturating_add(EDIT_WORK.saturating_mul(edits as u64));
    }

    /// The result that is kept of the call at this place, if there is one. Takes no memory.
    pub fn kept(&self, at: usize) -> Option<&SharedContent>
        ensures kept { IfSome result (λ v. slice_get self.now.results.items at ≡ Some (Some v.now)) }
        ensures none { IfNone result ((v : SharedContent) → slice_get self.now.results.items at ≡ Some (Some v) → ⊥) }
    {
        match self.results.get(at) {
            Some(Some(value)) => Some(value),
            _ => None,
        }
    }

    /// The object which the call at this place was the last to change, if it is there. Takes no memory.
    pub(crate) fn last_at(&self, at: usize) -> Option<Object>
        ensures some { IfSome result (λ o. (is_live self.now.learnt.shapes.objects o ≡ true) × (last_of self.now.learnt.lasts o ≡ at + 1)) }
        ensures all { (cs : List Call) (o : Object) → IsTable cs self.now → is_live self.now.learnt.shapes.objects o ≡ true → last_of self.now.learnt.lasts o ≡ at + 1 → result ≡ Some o }
    {
        if at >= self.learnt.count() {
            return None;
        }
        let object = self.learnt.node_at(at).target?;
        if self.learnt.last_of(object) as usize == at + 1 && self.learnt.contains(object) {
            Some(object)
        } else {
            None
        }
    }

    /// What is kept of the call at this place is about to change: where that is the last result of an object, only those stay settled that
    /// calls before it changed.
    pub(crate) fn unsettle(&mut self, at: usize)
        ensures table { (cs : List Call) → IsTable cs self.old → IsTable cs self.new }
        ensures learnt { self.new.learnt ≡ self.old.learnt }
        ensures results { self.new.results ≡ self.old.results }
        ensures made { self.new.made ≡ self.old.made }
        ensures apart { (cs : List Call) → IsTable cs self.old → IsApart self.new at }
    {
        if at < self.settled && self.last_at(at).is_some() {
            self.settled = at;
        }
    }

    /// Keeps this as the result of the call at this place. Takes no memory.
    pub(crate) fn put(&mut self, at: usize, value: SharedContent)
        requires { at < length self.old.results.items }
        ensures results { self.new.results.items ≡ slice_set self.old.results.items at (Some value) }
        ensures table { (cs : List Call) → IsTable cs self.old → IsResult cs at value → IsTable cs self.new }
        ensures learnt { self.new.learnt ≡ self.old.learnt }
    {
        self.unsettle(at);
        self.recent.note(at);
        self.results[at] = Some(value);
    }

    /// The result of the call at this place, shared, if one is kept. `AllocError` where 2^63 - 1 hold it.
    pub(crate) fn shared(&self, at: u32) -> Result<Option<SharedContent>, AllocError>
        ensures { (cs : List Call) → IsTable cs self.now → IfOk result (λ found. IfSome found (IsResult cs at)) }
    {
        match self.kept(at as usize) {
            Some(value) => Ok(Some(value.share()?)),
            None => Ok(None),
        }
    }

    /// Takes the result of the call at this place out of the table.
    pub(crate) fn take(&mut self, at: usize) -> Option<SharedContent>
        ensures table { (cs : List Call) → IsTable cs self.old → IsTable cs self.new }
        ensures result { (cs : List Call) → IsTable cs self.old → IfSome result (IsResult cs at) }
        ensures near { IfSome result (λ v. at < length self.old.results.items) }
        ensures same { IsSameBut self.old self.new }
        ensures places { length self.new.results.items ≡ length self.old.results.items }
    {
        if at >= self.results.len() || self.kept(at).is_none() {
            return None;
        }
        self.unsettle(at);
        take_place(&mut self.results, at)
    }

    /// Whether no operation and no dup is known to read what the call at this place left.
    pub(crate) fn is_free_to_change(&self, at: u32) -> bool {
        !self.reads.get(at as usize).copied().unwrap_or(true)
    }

    /// What the call at this place left, to be changed: taken out of the table where nothing else is known to read it, and else shared.
    /// `AllocError` where 2^63 - 1 hold it.
    pub(crate) fn take_or_share(&mut self, at: u32) -> Result<Option<SharedContent>, AllocError>
        ensures table { (cs : List Call) → IsTable cs self.old → IsTable cs self.new }
        ensures result { (cs : List Call) → IsTable cs self.old → IfOk result (λ found. IfSome found (IsResult cs at)) }
        ensures learnt { self.new.learnt ≡ self.old.learnt }
        ensures places { length self.new.results.items ≡ length self.old.results.items }
    {
        if self.is_free_to_change(at) {
            return Ok(self.take(at as usize));
        }
        self.shared(at)
    }

    /// The result of the call that last changed the object, of those learnt, if it is kept. Takes no memory.
    pub fn last(&self, object: Object) -> Option<&SharedContent>
        ensures content { (cs : List Call) → IsTable cs self.now → length self.now.learnt.nodes.items ≡ length cs → IfSome result (λ v. Some (content_of v.now) ≡ content_at (after_all empty_store cs) object) }
        ensures last { IfSome result (λ v. IsLast self.now object v.now) }
        ensures none { IfNone result ((k : ℕ) (v : SharedContent) → last_of self.now.learnt.lasts object ≡ k + 1 → slice_get self.now.results.items k ≡ Some (Some v) → ⊥) }
    {
        let count = self.learnt.last_of(object);
        if count == 0 {
            return None;
        }
        self.kept(count as usize - 1)
    }

    /// Whether the result of the call that last changed the object is kept. Takes no memory.
    pub fn is_kept(&self, object: Object) -> bool
        ensures has { result ≡ true → IsKept self.now object }
        ensures lacks { result ≡ false → IsKept self.now object → ⊥ }
    {
        self.last(object).is_some()
    }
}
