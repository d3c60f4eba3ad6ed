//! Results that nothing needs any more.
ghost use Rattle.std.specs.Prelude.{◌≡◌, List, length};
ghost use Rattle.grb_call.specs.declared.call.Call.{Call};
ghost use Rattle.grb_results.specs.Kept.{IsSameBut};
ghost use Rattle.grb_results.specs.Results.{IsTable};

use crate::table::Table;
use grb_links::{clear_all, is_marked};
use std::alloc::AllocError;

impl Table {
    /// Marks what the call at this place reads, if it is needed itself and no result of it is kept.
    fn mark_read(&self, marks: &mut [bool], at: usize) {
        if !is_marked(marks, at) || self.kept(at).is_some() {
            return;
        }
        self.learnt.mark_links(marks, at);
    }

    /// Marks what is needed to make what is marked: from the last call back, since each reads what calls before it left.
    fn mark_back(&self, marks: &mut [bool]) {
        let count = self.learnt.count();
        'back: for later in 0..count {
            self.mark_read(marks, count - 1 - later);
        }
    }

    /// A mark for each place: whether its result is needed. `AllocError` where memory is refused.
    pub(crate) fn needed(&self) -> Result<Vec<bool>, AllocError> {
        let mut marks = Vec::new(self.alloc);
        marks.resize(self.results.len(), false)?;
        self.learnt.mark_lasts(&mut marks);
        self.mark_back(&mut marks);
        Ok(marks)
    }

    /// Notes anew what is read: by calls that are needed and of which no result is kept.
    fn note_reads(&mut self, marks: &[bool])
        ensures results { self.new.results ≡ self.old.results }
        ensures settled { self.new.settled ≡ self.old.settled }
        ensures same { IsSameBut self.old self.new }
    {
        clear_all(&mut self.reads);
        'places: for at in 0..self.results.len() {
            if is_marked(marks, at) && self.kept(at).is_none() {
                let learnt = &self.learnt;
                learnt.mark_others(&mut self.reads, at);
            }
        }
    }

    /// Drops what is kept at this place, if that is not needed.
    fn drop_unless(&mut self, at: usize, needed: bool)
        ensures table { (cs : List Call) → IsTable cs self.old → IsTable cs self.new }
        ensures same { IsSameBut self.old self.new }
        ensures places { length self.new.results.items ≡ length self.old.results.items }
    {
        if needed {
            return;
        }
        let _dropped = self.take(at);
    }

    /// Drops what is kept at places that are not marked.
    fn drop_unmarked(&mut self, marks: &[bool])
        ensures table { (cs : List Call) → IsTable cs self.old → IsTable cs self.new }
        ensures same { IsSameBut self.old self.new }
        ensures places { length self.new.results.items ≡ length self.old.results.items }
    {
        'places: for at in 0..self.results.len() {
            self.drop_unless(at, is_marked(marks, at));
        }
    }

    /// Drops the results that no object needs which is there: neither as the last of its calls, nor to make a call that it needs. Which it
    /// drops no contract says; where memory for marks is refused, none.
    pub fn sweep(&mut self)
        ensures table { (cs : List Call) → IsTable cs self.old → IsTable cs self.new }
        ensures same { IsSameBut self.old self.new }
        ensures places { length self.new.results.items ≡ length self.old.results.items }
    {
        match self.needed() {
            Ok(marks) => {
                self.drop_unmarked(&marks);
                self.note_reads(&marks);
                self.freed = 0;
            }
            Err(_refused) => {}
        }
    }

    /// Notes what each call reads, whether a result of it is kept or not.
    fn note_all_reads(&mut self)
        ensures results { self.new.results ≡ self.old.results }
        ensures settled { self.new.settled ≡ self.old.settled }
        ensures same { IsSameBut self.old self.new }
    {
        'places: for at in 0..self.results.len() {
            let learnt = &self.learnt;
            learnt.mark_others(&mut self.reads, at);
        }
    }

    /// Drops all results. What an answer needs is made anew, so what any call reads may be read again.
    pub fn release(&mut self)
        ensures table { (cs : List Call) → IsTable cs self.old → IsTable cs self.new }
        ensures same { IsSameBut self.old self.new }
    {
        self.settled = 0;
        self.drop_unmarked(&[]);
        self.note_all_reads();
        self.freed = 0;
        self.taken.clear();
    }

    /// How many entries the results have that are kept. Takes no memory.
    pub fn entries(&self) -> u64 {
        let mut entries: u64 = 0;
        'results: for at in 0..self.results.len() {
            if let Some(content) = self.kept(at) {
                entries = entries.saturating_add(content.nvals());
            }
        }
        entries
    }

    /// Sweeps, as [`Table::sweep`] does, where what was made since the last time took more work than 16 for each call learnt and 1 for each
    /// entry kept. So what sweeps take is bounded by what was made.
    pub fn sweep_where_due(&mut self)
        ensures table { (cs : List Call) → IsTable cs self.old → IsTable cs self.new }
        ensures same { IsSameBut self.old self.new }
        ensures places { length self.new.results.items ≡ length self.old.results.items }
    {
        if self.work <= self.swept {
            return;
        }
        self.sweep();
        let calls = (self.learnt.count() as u64).saturating_mul(16);
        self.swept = self
            .work
            .saturating_add(calls)
            .saturating_add(self.entries());
    }

    /// Whether the last of the calls learnt changed an object and needs nothing of what that held before.
    fn last_forgets(&self) -> bool {
        let Ok(last) = u32::try_from(self.learnt.count().saturating_sub(1)) else {
            return false;
        };
        let Some(node) = self.learnt.node(last as usize) else {
            return false;
        };
        match node.target {
            Some(object) => {
                !self.learnt.contains(object) || self.learnt.own_before(last).is_none()
            }
            None => false,
        }
    }

    /// The last of the calls learnt may have ended what its object held before it, after so many calls: then what is kept of that is dropped
    /// where nothing else is known to read it, and its entries are counted.
    pub(crate) fn let_go(&mut self, before: u32)
        ensures table { (cs : List Call) → IsTable cs self.old → IsTable cs self.new }
        ensures same { IsSameBut self.old self.new }
    {
        if before == 0 || !self.last_forgets() {
            return;
        }
        let mut at = before - 1;
        let mut read = false;
        'back: for _ in 0..before {
            read = read || !self.is_free_to_change(at);
            if self.kept(at as usize).is_some() {
                self.drop_or_count(at, read);
                return;
            }
            match self.learnt.own_before(at) {
                Some(earlier) => at = earlier,
                None => return,
            }
        }
    }

    /// The result of the call at this place is not needed by its object any more: it is dropped, unless something else is known to read it.
    fn drop_or_count(&mut self, at: u32, read: bool)
        ensures table { (cs : List Call) → IsTable cs self.old → IsTable cs self.new }
        ensures same { IsSameBut self.old self.new }
    {
        let entries = self.entries_at(at);
        if read {
            self.freed = self.freed.saturating_add(entries);
        } else {
            self.ended = self.ended.saturating_add(entries);
            let _dropped = self.take(at as usize);
        }
    }

    /// Sweeps, where calls have ended results that are kept of more than 16 entries for each call learnt. Whether results of so many entries
    /// were ended since it was last so, dropped or not.
    pub(crate) fn sweep_ended(&mut self) -> bool
        ensures table { (cs : List Call) → IsTable cs self.old → IsTable cs self.new }
        ensures same { IsSameBut self.old self.new }
    {
        let most = (self.learnt.count() as u64).saturating_mul(16);
        if self.freed.saturating_add(self.ended) <= most {
            return false;
        }
        self.ended = 0;
        if self.freed <= most {
            return true;
        }
        self.sweep();
        true
    }
}
