//! Results that a table takes from another one.
ghost use Rattle.std.specs.Prelude.{◌≡◌, ◌<◌, ◌≤◌, ℕ, List, None, length, slice_get, OnOk};
ghost use Rattle.grb_call.specs.declared.call.Call.{Call};
ghost use Rattle.grb_links.specs.Learnt.{AreOneHistory};
ghost use Rattle.grb_results.specs.Exchanged.{IsTakenFrom};
ghost use Rattle.grb_results.specs.Kept.{IsKeptAt, IsSameBut, KeepsAll, KeepsAlso};
ghost use Rattle.grb_results.specs.Results.{AreTaken, IsTable};

use crate::recent::BLOCK;
use crate::table::Table;
use std::alloc::AllocError;

impl Table {
    /// Keeps also the result that the other table keeps of the call at this place, where none is kept here. `AllocError` where 2^63 - 1
    /// hold it.
    fn take_one(&mut self, other: &Table, at: usize) -> Result<(), AllocError>
        ensures taken { IsTakenFrom self.old other.now self.new }
        ensures kept { OnOk result (at < length self.old.results.items → IsKeptAt other.now at → IsKeptAt self.new at) }
    {
        self.looks = self.looks.saturating_add(1);
        if let Some(_kept) = self.kept(at) {
            return Ok(());
        }
        match other.kept(at) {
            Some(value) => {
                let shared = value.share()?;
                self.fill(at, shared);
                Ok(())
            }
            None => Ok(()),
        }
    }

    /// The same, of the calls from this place on, up to another one. `AllocError` where 2^63 - 1 hold one; what was taken stays so.
    fn take_places(&mut self, other: &Table, first: usize, end: usize) -> Result<(), AllocError>
        ensures taken { IsTakenFrom self.old other.now self.new }
        ensures kept { OnOk result ((k : ℕ) → first ≤ k → k < end → k < length self.new.results.items → IsKeptAt other.now k → IsKeptAt self.new k) }
    {
        'places: for at in first..end {
            self.take_one(other, at)?;
        }
        Ok(())
    }

    /// Keeps also the results that the other table keeps of the calls that both have learnt, where none is kept here: nothing is copied.
    /// `AllocError` where 2^63 - 1 hold one; what was taken stays so.
    pub fn take_from(&mut self, other: &Table) -> Result<(), AllocError>
        ensures taken { AreTaken self.old.results.items other.now.results.items self.new.results.items }
        ensures learnt { self.new.learnt ≡ self.old.learnt }
        ensures table { (cs ds : List Call) → IsTable cs self.old → IsTable ds other.now → AreOneHistory cs ds → IsTable cs self.new }
        ensures stays { KeepsAll self.old self.new }
        ensures same { IsSameBut self.old self.new }
        ensures all { OnOk result (KeepsAlso other.now self.new) }
    {
        self.take_since(other, 0)
    }

    /// Keeps also the results that were put into the other table from this put on, where none is kept here; all, where it is none.
    /// `AllocError` where 2^63 - 1 hold one; what was taken stays so.
    fn take_since(&mut self, other: &Table, since: u64) -> Result<(), AllocError>
        ensures taken { IsTakenFrom self.old other.now self.new }
        ensures all { OnOk result (since ≡ 0 → KeepsAlso other.now self.new) }
    {
        if since == 0 {
            return self.take_places(other, 0, other.results.len());
        }
        let mut number = other.recent.block(0).older;
        'walk: for _ in 0..other.recent.blocks.len() {
            let block = other.recent.block(number);
            if number == 0 || block.put < since {
                return Ok(());
            }
            let end = (number as usize).saturating_mul(BLOCK);
            self.take_places(other, end.saturating_sub(BLOCK), end)?;
            number = block.older;
        }
        Ok(())
    }

    /// From which put on results of the pass of this number are new; 0 where that is not noted.
    fn taken_of(&self, pass: u16) -> u64
        ensures { slice_get self.now.taken.items pass ≡ None → result ≡ 0 }
    {
        match self.taken.get(pass as usize) {
            Some(puts) => *puts,
            None => 0,
        }
    }

    /// Notes from which put on results of the pass of this number are new. `AllocError` where memory is refused.
    fn note_taken(&mut self, pass: u16, puts: u64) -> Result<(), AllocError>
        ensures { self.new ≡ record self.old { taken = self.new.taken } }
    {
        let place = pass as usize;
        if self.taken.len() <= place {
            self.taken.resize(place + 1, 0)?;
        }
        if let Some(taken) = self.taken.get_mut(place) {
            *taken = puts;
        }
        Ok(())
    }

    /// Keeps also the results that the other table, which is that of the pass of this number, keeps of the calls that both have learnt, as
    /// [`Table::take_from`] does: after the first time, and until all results are dropped here, those alone that it kept since the last time.
    /// `AllocError` where memory is refused; what was taken stays so.
    pub fn take_new(&mut self, other: &Table, pass: u16) -> Result<(), AllocError>
        ensures taken { AreTaken self.old.results.items other.now.results.items self.new.results.items }
        ensures learnt { self.new.learnt ≡ self.old.learnt }
        ensures table { (cs ds : List Call) → IsTable cs self.old → IsTable ds other.now → AreOneHistory cs ds → IsTable cs self.new }
        ensures stays { KeepsAll self.old self.new }
        ensures same { IsSameBut self.old self.new }
        ensures all { OnOk result (slice_get self.old.taken.items pass ≡ None → KeepsAlso other.now self.new) }
    {
        self.take_since(other, self.taken_of(pass))?;
        if other.count() > self.count() {
            return Ok(());
        }
        self.note_taken(pass, other.recent.puts.saturating_add(1))
    }
}
