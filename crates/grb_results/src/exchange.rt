//! Results that tables give to one another, by the numbers of their calls.
ghost use Rattle.std.specs.Prelude.{◌≡◌, ◌<◌, true, false, List, Some, Option, length, slice_get, IfOk};
ghost use Rattle.std.specs.Option.{option_map};
ghost use Rattle.grb_call.specs.declared.call.Call.{Call};
ghost use Rattle.grb_objects.specs.declared.shared_content.SharedContent.{SharedContent};
ghost use Rattle.grb_results.specs.Kept.{AreKept, IsKeptAt, IsLastCall, IsSameBut, KeepsAll, KeepsOthers};
ghost use Rattle.grb_results.specs.Results.{AreTaken, IsResult, IsTable};
ghost use Rattle.grb_results.specs.Value.{content_of};

use crate::table::Table;
use grb_objects::SharedContent;
use std::alloc::{AllocError, Global};

/// What the target of a call held right after it.
#[derive(Drop)]
pub struct Kept {
    /// The number of the call, from 0.
    pub at: u32,
    /// What its target held.
    pub content: SharedContent,
}

impl Table {
    /// Keeps this as the result of the call at this place, where none is kept and that call was learnt. Takes no memory.
    pub(crate) fn fill(&mut self, at: usize, value: SharedContent)
        ensures taken { (theirs : List (Option SharedContent)) (w : SharedContent) → slice_get theirs at ≡ Some (Some w) → content_of value ≡ content_of w → AreTaken self.old.results.items theirs self.new.results.items }
        ensures table { (cs : List Call) → IsTable cs self.old → IsResult cs at value → IsTable cs self.new }
        ensures same { IsSameBut self.old self.new }
        ensures stays { KeepsAll self.old self.new }
        ensures others { KeepsOthers self.old at self.new }
        ensures places { length self.new.results.items ≡ length self.old.results.items }
        ensures settled { self.new.settled ≡ self.old.settled }
        ensures kept { at < length self.old.results.items → IsKeptAt self.new at }
    {
        if at >= self.results.len() {
            return;
        }
        if let Some(_kept) = self.kept(at) {
            return;
        }
        self.recent.note(at);
        self.results[at] = Some(value);
    }

    /// Keeps this result also, where none is kept here of that call; of a call that was not learnt it keeps none. `AllocError` where 2^63 - 1
    /// hold it.
    pub fn keep(&mut self, kept: &Kept) -> Result<(), AllocError>
        ensures table { (cs : List Call) → IsTable cs self.old → IsResult cs kept.now.at kept.now.content → IsTable cs self.new }
        ensures same { IsSameBut self.old self.new }
        ensures stays { KeepsAll self.old self.new }
        ensures others { KeepsOthers self.old kept.now.at self.new }
    {
        if self.kept(kept.at as usize).is_some() {
            return Ok(());
        }
        let shared = kept.content.share()?;
        self.fill(kept.at as usize, shared);
        Ok(())
    }

    /// Gives the result of the call at this place, if one is kept in which no change waits. `AllocError` where memory is refused, or 2^63 - 1
    /// hold it.
    fn give_at(&self, given: &mut Vec<Kept>, at: u32) -> Result<(), AllocError>
        ensures { (cs : List Call) → IsTable cs self.now → AreKept cs given.old.items → AreKept cs given.new.items }
    {
        match self.kept(at as usize) {
            Some(value) => {
                if !value.is_assembled() {
                    return Ok(());
                }
                given.reserve(1)?;
                let content = value.share()?;
                given.push_reserved(Kept { at, content });
                Ok(())
            }
            None => Ok(()),
        }
    }

    /// Gives the last result of the object at this place of those that the calls made, if it is there and lies ready. `AllocError` where memory
    /// is refused.
    fn give_last(&self, given: &mut Vec<Kept>, place: u64) -> Result<(), AllocError>
        ensures { (cs : List Call) → IsTable cs self.now → AreKept cs given.old.items → AreKept cs given.new.items }
    {
        let Some(object) = self.learnt.live_at(place) else {
            return Ok(());
        };
        let count = self.learnt.last_of(object);
        if count == 0 {
            return Ok(());
        }
        self.give_at(given, count - 1)
    }

    /// Whether the call at this place is the last that changed an object which is there after the calls learnt. Takes no memory.
    pub fn is_last(&self, at: u32) -> bool
        ensures { result ≡ true → IsLastCall self.now at }
    {
        let Some(node) = self.learnt.node(at as usize) else {
            return false;
        };
        let Some(object) = node.target else {
            return false;
        };
        let count = self.learnt.last_of(object);
        self.learnt.contains(object) && count > at && count - at == 1
    }

    /// The last results of the objects that are there after the calls learnt and lie ready. No entry is copied. `AllocError` where memory is
    /// refused.
    pub fn last_results(&self) -> Result<Vec<Kept>, AllocError>
        ensures { (cs : List Call) → IsTable cs self.now → IfOk result (λ kept. AreKept cs kept.items) }
    {
        let mut given = Vec::new(self.alloc);
        'objects: for place in 0..self.learnt.objects() {
            self.give_last(&mut given, place)?;
        }
        Ok(given)
    }
}
