//! What a read makes: the calls that it depends on and of which no result is kept, each once.
ghost use Rattle.std.specs.Prelude.{◌≡◌, ◌+◌, ◌<◌, true, Some, None, length, slice_get, All, IfOk, IfSome, OnOk, OnErr};
ghost use Rattle.std.specs.Option.{option_map};
ghost use Rattle.grb_call.specs.declared.call.Call.{Call};
ghost use Rattle.grb_call.specs.Store.{empty_store};
ghost use Rattle.grb_call.specs.History.{after_all};
ghost use Rattle.grb_call.specs.Shapes.{is_live};
ghost use Rattle.grb_slices.specs.Content.{content_at};
ghost use Rattle.grb_results.specs.Kept.{IsKept, IsTableOf};
ghost use Rattle.grb_results.specs.Results.{IsTable, IsToMake, LinksTo};
ghost use Rattle.grb_results.specs.Value.{content_of};

use crate::made::{clear, is_edit};
use crate::table::Table;
use grb_call::{Call, Object};
use grb_links::work_of;
use grb_objects::{Operates, SharedContent};
use grb_slices::CallList;
use std::alloc::AllocError;

impl Table {
    /// The first of the calls that left what the one at this place reads of which no result is kept.
    pub(crate) fn lacking(&self, at: u32) -> Option<u32>
        requires { at < length self.now.learnt.nodes.items }
        ensures { IfSome result (λ before. LinksTo self.now at (before + 1)) }
    {
        let node = self.learnt.node_at(at as usize);
        'links: for place in 0..4 {
            let link = node.links[place];
            if link == 0 {
                return None;
            }
            if self.kept(link as usize - 1).is_none() {
                return Some(link - 1);
            }
        }
        None
    }

    /// Makes this call, where all that it reads is kept, and the edits on top of the stack that go on with it. `AllocError` where memory is
    /// refused; what is kept stays so.
    fn make_call<S, C: CallList<S>, O: Operates>(
        &mut self,
        bench: &mut O,
        stack: &mut Vec<u32>,
        calls: &mut C,
        source: &S,
        call: &Call,
        at: u32,
    ) -> Result<(), AllocError>
        requires held { C.is_in source.now calls.old }
        requires table { IsTable (C.calls source.now calls.old) self.old }
        requires all { length self.old.results.items ≡ length (C.calls source.now calls.old) }
        requires to_make { IsToMake (C.calls source.now calls.old) (length (C.calls source.now calls.old)) at }
        requires stack { All (IsToMake (C.calls source.now calls.old) (length (C.calls source.now calls.old))) stack.old.items }
        requires call { slice_get (C.calls source.now calls.old) at ≡ Some call.now }
        ensures same { calls.new ≡ calls.old }
        ensures table { IsTable (C.calls source.now calls.old) self.new }
        ensures learnt { self.new.learnt ≡ self.old.learnt }
        ensures places { length self.new.results.items ≡ length self.old.results.items }
        ensures stack { All (IsToMake (C.calls source.now calls.old) (length (C.calls source.now calls.old))) stack.new.items }
    {
        if is_edit(call) {
            return self.edit_first(stack, calls, source, call, at);
        }
        match self.computed_at(bench, calls, source, call, at)? {
            Some(value) => {
                self.count_one(work_of(call, value.nvals()));
                self.drop_own(at);
                self.run_on(stack, calls, source, at, value)
            }
            None => Ok(()),
        }
    }

    /// Makes the call at this place, where all that it reads is kept, as [`Table::make_call`] does.
    fn make_at<S, C: CallList<S>, O: Operates>(
        &mut self,
        bench: &mut O,
        stack: &mut Vec<u32>,
        calls: &mut C,
        source: &S,
        at: u32,
    ) -> Result<(), AllocError>
        requires held { C.is_in source.now calls.old }
        requires table { IsTable (C.calls source.now calls.old) self.old }
        requires all { length self.old.results.items ≡ length (C.calls source.now calls.old) }
        requires to_make { IsToMake (C.calls source.now calls.old) (length (C.calls source.now calls.old)) at }
        requires stack { All (IsToMake (C.calls source.now calls.old) (length (C.calls source.now calls.old))) stack.old.items }
        ensures same { calls.new ≡ calls.old }
        ensures table { IsTable (C.calls source.now calls.old) self.new }
        ensures learnt { self.new.learnt ≡ self.old.learnt }
        ensures places { length self.new.results.items ≡ length self.old.results.items }
        ensures stack { All (IsToMake (C.calls source.now calls.old) (length (C.calls source.now calls.old))) stack.new.items }
    {
        let call = calls.call_at(source, at as usize);
        self.make_call(bench, stack, calls, source, call, at)
    }

    /// Makes the call at this place, or one that it waits for, and the edits that go on with that. `AllocError` where memory is refused;
    /// what is kept stays so.
    fn step<S, C: CallList<S>, O: Operates>(
        &mut self,
        bench: &mut O,
        stack: &mut Vec<u32>,
        calls: &mut C,
        source: &S,
        at: u32,
    ) -> Result<(), AllocError>
        requires held { C.is_in source.now calls.old }
        requires table { IsTable (C.calls source.now calls.old) self.old }
        requires all { length self.old.results.items ≡ length (C.calls source.now calls.old) }
        requires to_make { IsToMake (C.calls source.now calls.old) (length (C.calls source.now calls.old)) at }
        requires stack { All (IsToMake (C.calls source.now calls.old) (length (C.calls source.now calls.old))) stack.old.items }
        ensures same { calls.new ≡ calls.old }
        ensures table { IsTable (C.calls source.now calls.old) self.new }
        ensures learnt { self.new.learnt ≡ self.old.learnt }
        ensures places { length self.new.results.items ≡ length self.old.results.items }
        ensures stack { OnOk result (All (IsToMake (C.calls source.now calls.old) (length (C.calls source.now calls.old))) stack.new.items) }
    {
        if self.kept(at as usize).is_some() {
            return Ok(());
        }
        let first = self.go_back(stack, calls, source, at)?;
        self.make_at(bench, stack, calls, source, first)
    }

    /// Makes the call at this place and all that it depends on and whose results are not kept. `AllocError` where memory is refused; what
    /// is kept stays so.
    fn evaluate<S, C: CallList<S>, O: Operates>(
        &mut self,
        bench: &mut O,
        stack: &mut Vec<u32>,
        calls: &mut C,
        source: &S,
        at: u32,
    ) -> Result<(), AllocError>
        requires held { C.is_in source.now calls.old }
        requires table { IsTable (C.calls source.now calls.old) self.old }
        requires all { length self.old.results.items ≡ length (C.calls source.now calls.old) }
        requires to_make { IsToMake (C.calls source.now calls.old) (length (C.calls source.now calls.old)) at }
        ensures same { calls.new ≡ calls.old }
        ensures table { IsTable (C.calls source.now calls.old) self.new }
        ensures learnt { self.new.learnt ≡ self.old.learnt }
        ensures places { length self.new.results.items ≡ length self.old.results.items }
    {
        stack.clear();
        self.step(bench, stack, calls, source, at)?;
        'making: for _ in 0..u64::MAX {
            let Some(top) = stack.pop() else {
                return Ok(());
            };
            self.sweep_where_due();
            self.step(bench, stack, calls, source, top)?;
        }
        Err(AllocError)
    }

    /// Makes what the object holds after these calls, which were all learnt, where it is not kept. Only calls are made that it depends on,
    /// each once as long as its result is kept. `AllocError` where memory is refused; what was made stays so.
    pub fn make<S, C: CallList<S>, O: Operates>(
        &mut self,
        bench: &mut O,
        stack: &mut Vec<u32>,
        calls: &mut C,
        source: &S,
        object: Object,
    ) -> Result<(), AllocError>
        requires held { C.is_in source.now calls.old }
        requires table { IsTableOf (C.calls source.now calls.old) self.old }
        ensures same { calls.new ≡ calls.old }
        ensures table { IsTable (C.calls source.now calls.old) self.new }
        ensures learnt { self.new.learnt ≡ self.old.learnt }
        ensures kept { OnOk result (is_live self.old.learnt.shapes.objects object ≡ true → IsKept self.new object) }
        ensures stays { IsKept self.old object → self.new ≡ self.old }
        ensures memory { OnErr result (IsKept self.old object → ⊥) }
    {
        if self.is_kept(object) {
            return Ok(());
        }
        let count = self.learnt.last_of(object);
        if count == 0 {
            return Ok(());
        }
        self.evaluate(bench, stack, calls, source, count - 1)?;
        if self.is_kept(object) {
            return Ok(());
        }
        Err(AllocError)
    }

    /// What the object holds after these calls, which were all learnt; none where it is not there. Only calls are made that it depends on,
    /// each once as long as its result is kept. `AllocError` where memory is refused; what was made stays so.
    pub fn result_of<S, C: CallList<S>, O: Operates>(
        &mut self,
        bench: &mut O,
        stack: &mut Vec<u32>,
        calls: &mut C,
        source: &S,
        object: Object,
    ) -> Result<Option<SharedContent>, AllocError>
        requires held { C.is_in source.now calls.old }
        requires table { IsTableOf (C.calls source.now calls.old) self.old }
        ensures same { calls.new ≡ calls.old }
        ensures table { IsTable (C.calls source.now calls.old) self.new }
        ensures learnt { self.new.learnt ≡ self.old.learnt }
        ensures result { IfOk result (λ found. option_map content_of found ≡ content_at (after_all empty_store (C.calls source.now calls.old)) object) }
    {
        if !self.learnt.contains(object) {
            return Ok(None);
        }
        self.make(bench, stack, calls, source, object)?;
        match self.last(object) {
            Some(value) => Ok(Some(value.share()?)),
            None => Err(AllocError),
        }
    }
}
