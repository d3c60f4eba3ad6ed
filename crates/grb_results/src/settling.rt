//! All objects that are there, evaluated, with no change left that waits.
ghost use Rattle.std.specs.Prelude.{◌≡◌, true, List, length, OnOk, OnErr};
ghost use Rattle.grb_call.specs.declared.call.Call.{Call};
ghost use Rattle.grb_call.specs.Shapes.{is_live};
ghost use Rattle.grb_results.specs.Kept.{AreReady, IsSameBut, IsTableOf};
ghost use Rattle.grb_results.specs.Results.{IsReadyAfter, IsTable};

use crate::table::Table;
use grb_call::{Call, Object};
use grb_objects::Operates;
use grb_slices::CallList;
use std::alloc::AllocError;

impl Table {
    /// Whether the object is there after the calls learnt. Takes no memory.
    pub fn is_there(&self, object: Object) -> bool
        ensures { result ≡ is_live self.now.learnt.shapes.objects object }
    {
        self.learnt.contains(object)
    }

    /// Whether each object that is there after the calls learnt lies ready: those are looked at alone that were changed after the calls of which
    /// that was seen before. Takes no memory.
    pub fn are_ready(&mut self) -> bool
        ensures table { (cs : List Call) → IsTable cs self.old → IsTable cs self.new }
        ensures results { self.new.results ≡ self.old.results }
        ensures same { IsSameBut self.old self.new }
        ensures ready { (cs : List Call) → IsTable cs self.old → result ≡ true → AreReady self.new }
        ensures lacks { AreReady self.old → result ≡ true }
    {
        'calls: for at in self.settled..self.count() {
            self.looks = self.looks.saturating_add(1);
            if !self.is_last_ready(at) {
                return false;
            }
            self.settled = at + 1;
        }
        true
    }

    /// Whether the object that the call at this place was the last to change lies ready, if it is there.
    fn is_last_ready(&self, at: usize) -> bool
        ensures ready { result ≡ true → (cs : List Call) → IsTable cs self.now → IsReadyAfter self.now at }
        ensures lacks { AreReady self.now → result ≡ true }
    {
        match self.last_at(at) {
            Some(object) => self.is_ready(object),
            None => true,
        }
    }

    /// How many objects were looked at to wait for all, and how many places to adopt results, in all. Takes no memory.
    pub fn looks(&self) -> u64 {
        self.looks
    }

    /// Makes what the object holds that the call at this place was the last to change, if it is there, and has the changes done that wait in it.
    /// `AllocError` where memory is refused.
    fn make_ready<S, C: CallList<S>, O: Operates>(
        &mut self,
        bench: &mut O,
        stack: &mut Vec<u32>,
        calls: &mut C,
        source: &S,
        at: usize,
    ) -> Result<(), AllocError>
        requires held { C.is_in source.now calls.old }
        requires table { IsTableOf (C.calls source.now calls.old) self.old }
        ensures same { calls.new ≡ calls.old }
        ensures table { IsTable (C.calls source.now calls.old) self.new }
        ensures learnt { self.new.learnt ≡ self.old.learnt }
    {
        self.looks = self.looks.saturating_add(1);
        let Some(object) = self.last_at(at) else {
            return Ok(());
        };
        self.make(bench, stack, calls, source, object)?;
        self.assemble_last(object)
    }

    /// Makes what each object holds that is there, and has all changes done. `AllocError` where memory is refused.
    fn make_all<S, C: CallList<S>, O: Operates>(
        &mut self,
        bench: &mut O,
        stack: &mut Vec<u32>,
        calls: &mut C,
        source: &S,
    ) -> Result<(), AllocError>
        requires held { C.is_in source.now calls.old }
        requires table { IsTableOf (C.calls source.now calls.old) self.old }
        ensures same { calls.new ≡ calls.old }
        ensures table { IsTable (C.calls source.now calls.old) self.new }
        ensures learnt { self.new.learnt ≡ self.old.learnt }
        ensures ready { OnOk result (AreReady self.new) }
    {
        'calls: for at in self.settled..self.count() {
            self.make_ready(bench, stack, calls, source, at)?;
        }
        if !self.are_ready() {
            return Err(AllocError);
        }
        Ok(())
    }

    /// Makes what each object holds that is there after these calls, which were all learnt, and has all changes done. Nothing is made where all
    /// lie ready, and no object is looked at that was settled before and not changed since. `AllocError` where memory is refused; what was made stays so.
    ///
    /// Source: GraphBLAS C API 2.0, `GrB_MATERIALIZE`; that it is for all objects is own.
    pub fn settle_all<S, C: CallList<S>, O: Operates>(
        &mut self,
        bench: &mut O,
        stack: &mut Vec<u32>,
        calls: &mut C,
        source: &S,
    ) -> Result<(), AllocError>
        requires held { C.is_in source.now calls.old }
        requires table { IsTableOf (C.calls source.now calls.old) self.old }
        ensures same { calls.new ≡ calls.old }
        ensures table { IsTable (C.calls source.now calls.old) self.new }
        ensures learnt { self.new.learnt ≡ self.old.learnt }
        ensures ready { OnOk result (AreReady self.new) }
        ensures stays { AreReady self.old → (self.new.results ≡ self.old.results) × IsSameBut self.old self.new }
        ensures memory { OnErr result (AreReady self.old → ⊥) }
    {
        if self.are_ready() {
            return Ok(());
        }
        self.make_all(bench, stack, calls, source)
    }
}
