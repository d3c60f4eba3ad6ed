//! How much is left to make of what objects hold.
ghost use Rattle.std.specs.Prelude.{◌≡◌};
ghost use Rattle.grb_results.specs.Kept.{IsSameBut, IsTableOf};

use crate::table::Table;
use grb_links::is_marked;
use grb_slices::CallList;

impl Table {
    /// How much work it is, about, to make what all objects hold that are there and are not settled, each by itself, as [`Table::work_for`] has
    /// it.
    pub fn work_for_all<S, C: CallList<S>>(&mut self, calls: &mut C, source: &S) -> u64
        requires held { C.is_in source.now calls.old }
        requires table { IsTableOf (C.calls source.now calls.old) self.old }
        ensures same { calls.new ≡ calls.old }
        ensures table { IsTableOf (C.calls source.now calls.old) self.new }
        ensures learnt { IsSameBut self.old self.new }
        ensures results { self.new.results ≡ self.old.results }
    {
        let mut work: u64 = 0;
        'calls: for at in self.settled..self.count() {
            self.looks = self.looks.saturating_add(1);
            if let Some(object) = self.last_at(at) {
                work = work.saturating_add(self.work_for(calls, source, object));
            }
        }
        work
    }

    /// The first place that is marked and of which no result is kept; how many places there are where there is none.
    fn first_to_make(&self, marks: &[bool]) -> usize {
        'places: for at in 0..self.results.len() {
            if is_marked(marks, at) && self.kept(at).is_none() {
                return at;
            }
        }
        self.results.len()
    }

    /// Before how many of the calls learnt no answer about an object that is there after them makes one: all, where each of these objects is
    /// kept; 0 where memory for marks is refused. No contract says more of it.
    pub fn evaluated(&self) -> u32 {
        match self.needed() {
            Ok(marks) => u32::try_from(self.first_to_make(&marks)).unwrap_or(u32::MAX),
            Err(_refused) => 0,
        }
    }
}
