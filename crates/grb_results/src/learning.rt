//! A list of calls, learnt at once.
ghost use Rattle.std.specs.Prelude.{◌≡◌, ◌+◌, ◌<◌, ◌≤◌, ◌^◌, List, Some, length, slice_get, OnOk, OnErr};
ghost use Rattle.grb_call.specs.declared.call.Call.{Call};
ghost use Rattle.grb_results.specs.Results.{IsTable};

use crate::table::Table;
use grb_call::Call;
use grb_slices::CallList;
use std::alloc::AllocError;

impl Table {
    /// Memory for so many calls more, so that lists which grow by many are copied once. `AllocError` where it is refused; the table is the
    /// same in any case.
    fn reserve(&mut self, more: usize) -> Result<(), AllocError>
        ensures table { (cs : List Call) → IsTable cs self.old → IsTable cs self.new }
        ensures nodes { self.new.learnt.nodes.items ≡ self.old.learnt.nodes.items }
        ensures shapes { self.new.learnt.shapes ≡ self.old.learnt.shapes }
        ensures made { self.new.made ≡ self.old.made }
    {
        self.results.reserve(more)?;
        self.reads.reserve(more)?;
        self.learnt.reserve(more)
    }

    /// Learns the call that comes after those learnt, and drops what it ends, where nothing else is known to need that. `AllocError` where memory
    /// is refused; then it is not learnt.
    fn learn_next(&mut self, call: &Call) -> Result<(), AllocError>
        requires few { length self.old.learnt.nodes.items + 1 < 2 ^ 32 }
        ensures learnt { OnOk result ((cs : List Call) → IsTable cs self.old → slice_get cs (length self.old.learnt.nodes.items) ≡ Some call.now → IsTable cs self.new) }
        ensures err { OnErr result ((cs : List Call) → IsTable cs self.old → IsTable cs self.new) }
        ensures more { OnOk result (length self.new.learnt.nodes.items ≡ length self.old.learnt.nodes.items + 1) }
        ensures made { self.new.made ≡ self.old.made }
    {
        let before = match call.output() {
            Some(object) => self.learnt.last_of(object),
            None => 0,
        };
        self.learn(call)?;
        self.let_go(before);
        Ok(())
    }

    /// Learns those of the calls of the list, so many, that were not learnt: they are not made. Whether what they ended was much, so that
    /// results were dropped. `AllocError` where memory is refused; those learnt until then stay so.
    pub fn learn_all<S, C: CallList<S>>(
        &mut self,
        calls: &mut C,
        source: &S,
        count: usize,
    ) -> Result<bool, AllocError>
        requires held { C.is_in source.now calls.old }
        requires count { count ≡ length (C.calls source.now calls.old) }
        requires table { IsTable (C.calls source.now calls.old) self.old }
        requires few { length (C.calls source.now calls.old) < 2 ^ 32 }
        ensures same { calls.new ≡ calls.old }
        ensures table { IsTable (C.calls source.now calls.old) self.new }
        ensures made { self.new.made ≡ self.old.made }
        ensures all { OnOk result (length self.new.learnt.nodes.items ≡ length (C.calls source.now calls.old)) }
        ensures stays { length self.old.learnt.nodes.items ≡ length (C.calls source.now calls.old) → self.new ≡ self.old }
        ensures memory { OnErr result (length self.old.learnt.nodes.items < length (C.calls source.now calls.old)) }
    {
        let learnt = self.count();
        if learnt >= count {
            return Ok(false);
        }
        self.reserve(count - learnt)?;
        'calls: for at in learnt..count {
            self.learn_next(calls.call_at(source, at))?;
        }
        Ok(self.sweep_ended())
    }
}
