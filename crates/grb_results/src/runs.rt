//! The result of a run of edits: each next edit goes into the content that the one before left.
ghost use Rattle.std.specs.Prelude.{◌≡◌, ◌<◌, true, Some, None, length, slice_get, All, IfOk, OnOk, OnErr};
ghost use Rattle.grb_call.specs.declared.call.Call.{Call};
ghost use Rattle.grb_links.specs.Learnt.{Follows};
ghost use Rattle.grb_results.specs.Results.{IsResult, IsTable, IsToMake};
ghost use Rattle.grb_results.specs.Value.{IsEdit};

use crate::made::{edit, is_edit};
use crate::table::Table;
use grb_call::Call;
use grb_links::{is_short_edit, work_of_edit};
use grb_objects::SharedContent;
use grb_slices::CallList;
use std::alloc::AllocError;

impl Table {
    /// The first call back from this place of which all that it reads is kept: the place, and each on the way, goes on the stack, where it
    /// waits for what the one above it leaves. `AllocError` where memory is refused.
    pub(crate) fn go_back<S, C: CallList<S>>(
        &self,
        stack: &mut Vec<u32>,
        calls: &C,
        source: &S,
        at: u32,
    ) -> Result<u32, AllocError>
        requires table { IsTable (C.calls source.now calls.now) self.now }
        requires all { length self.now.results.items ≡ length (C.calls source.now calls.now) }
        requires to_make { IsToMake (C.calls source.now calls.now) (length (C.calls source.now calls.now)) at }
        requires stack { All (IsToMake (C.calls source.now calls.now) (length (C.calls source.now calls.now))) stack.old.items }
        ensures stack { OnOk result (All (IsToMake (C.calls source.now calls.now) (length (C.calls source.now calls.now))) stack.new.items) }
        ensures first { IfOk result (IsToMake (C.calls source.now calls.now) (length (C.calls source.now calls.now))) }
    {
        let mut first = at;
        'back: while let Some(before) = self.lacking(first) {
            stack.push(first)?;
            first = before;
        }
        Ok(first)
    }

    /// Whether the call at this place edits what the call at `before` left, in the time of one entry, and nothing else is known to read that.
    fn goes_on(&self, call: &Call, at: u32, before: u32) -> bool
        requires { at < length self.now.learnt.nodes.items }
        ensures { result ≡ true → IsEdit call.now × Follows self.now.learnt at before }
    {
        is_edit(call)
            && is_short_edit(call)
            && self.learnt.follows(at as usize, before)
            && self.is_free_to_change(before)
    }

    /// Makes the call at this place of what the call at `before` left, where it edits that and nothing else is known to read it: its place;
    /// and else the place before. `AllocError` where memory is refused; then what the call at `before` left is as it was.
    fn edit_next<S, C: CallList<S>>(
        &self,
        calls: &mut C,
        source: &S,
        at: u32,
        before: u32,
        value: &mut SharedContent,
    ) -> Result<u32, AllocError>
        requires held { C.is_in source.now calls.old }
        requires table { IsTable (C.calls source.now calls.old) self.now }
        requires all { length self.now.results.items ≡ length (C.calls source.now calls.old) }
        requires to_make { IsToMake (C.calls source.now calls.old) (length (C.calls source.now calls.old)) at }
        requires near { before < length (C.calls source.now calls.old) }
        requires result { IsResult (C.calls source.now calls.old) before value.old }
        ensures same { calls.new ≡ calls.old }
        ensures made { IfOk result (λ last. IsResult (C.calls source.now calls.old) last value.new) }
        ensures near { IfOk result (λ last. last < length (C.calls source.now calls.old)) }
        ensures err { OnErr result (IsResult (C.calls source.now calls.old) before value.new) }
    {
        let call = calls.call_at(source, at as usize);
        if !self.goes_on(call, at, before) {
            return Ok(before);
        }
        edit(self.alloc, value, call)?;
        Ok(at)
    }

    /// Makes the calls on top of the stack that edit, one after another, what the call at `before` left, where it lies: they are taken off.
    /// The place of the last of them, and `AllocError` where memory was refused to the next.
    fn run<S, C: CallList<S>>(
        &self,
        stack: &mut Vec<u32>,
        calls: &mut C,
        source: &S,
        before: u32,
        value: &mut SharedContent,
    ) -> (u32, Result<(), AllocError>)
        requires held { C.is_in source.now calls.old }
        requires table { IsTable (C.calls source.now calls.old) self.now }
        requires all { length self.now.results.items ≡ length (C.calls source.now calls.old) }
        requires stack { All (IsToMake (C.calls source.now calls.old) (length (C.calls source.now calls.old))) stack.old.items }
        requires near { before < length (C.calls source.now calls.old) }
        requires result { IsResult (C.calls source.now calls.old) before value.old }
        ensures same { calls.new ≡ calls.old }
        ensures stack { All (IsToMake (C.calls source.now calls.old) (length (C.calls source.now calls.old))) stack.new.items }
        ensures near { result.0 < length (C.calls source.now calls.old) }
        ensures result { IsResult (C.calls source.now calls.old) result.0 value.new }
    {
        let mut last = before;
        'run: while let Some(at) = stack.pop() {
            match self.edit_next(calls, source, at, last, value) {
                Ok(made) => {
                    if made == last {
                        stack.push_reserved(at);
                        return (last, Ok(()));
                    }
                    last = made;
                }
                Err(refused) => return (last, Err(refused)),
            }
        }
        (last, Ok(()))
    }

    /// Makes the edits on top of the stack that go on with this value, which the call at this place left, and keeps what the last of them
    /// leaves. `AllocError` where memory is refused; what was made is kept.
    pub(crate) fn run_on<S, C: CallList<S>>(
        &mut self,
        stack: &mut Vec<u32>,
        calls: &mut C,
        source: &S,
        at: u32,
        value: SharedContent,
    ) -> Result<(), AllocError>
        requires held { C.is_in source.now calls.old }
        requires table { IsTable (C.calls source.now calls.old) self.old }
        requires all { length self.old.results.items ≡ length (C.calls source.now calls.old) }
        requires stack { All (IsToMake (C.calls source.now calls.old) (length (C.calls source.now calls.old))) stack.old.items }
        requires near { at < length (C.calls source.now calls.old) }
        requires result { IsResult (C.calls source.now calls.old) at value }
        ensures same { calls.new ≡ calls.old }
        ensures table { IsTable (C.calls source.now calls.old) self.new }
        ensures learnt { self.new.learnt ≡ self.old.learnt }
        ensures places { length self.new.results.items ≡ length self.old.results.items }
        ensures stack { All (IsToMake (C.calls source.now calls.old) (length (C.calls source.now calls.old))) stack.new.items }
    {
        let mut value = value;
        let waiting = stack.len();
        let (last, done) = self.run(stack, calls, source, at, &mut value);
        self.count_edits(waiting.saturating_sub(stack.len()));
        self.put(last as usize, value);
        done
    }

    /// Makes the edit at this place of what the call at `before` left, which is no longer kept, and those on top of the stack that go on
    /// with that. `AllocError` where memory is refused; what was made is kept.
    fn edit_on<S, C: CallList<S>>(
        &mut self,
        stack: &mut Vec<u32>,
        calls: &mut C,
        source: &S,
        call: &Call,
        at: u32,
        before: u32,
        value: SharedContent,
    ) -> Result<(), AllocError>
        requires held { C.is_in source.now calls.old }
        requires table { IsTable (C.calls source.now calls.old) self.old }
        requires all { length self.old.results.items ≡ length (C.calls source.now calls.old) }
        requires to_make { IsToMake (C.calls source.now calls.old) (length (C.calls source.now calls.old)) at }
        requires stack { All (IsToMake (C.calls source.now calls.old) (length (C.calls source.now calls.old))) stack.old.items }
        requires call { slice_get (C.calls source.now calls.old) at ≡ Some call.now }
        requires edits { IsEdit call.now }
        requires near { before < length self.old.results.items }
        requires result { IsResult (C.calls source.now calls.old) before value }
        requires follows { Follows self.old.learnt at before }
        ensures same { calls.new ≡ calls.old }
        ensures table { IsTable (C.calls source.now calls.old) self.new }
        ensures learnt { self.new.learnt ≡ self.old.learnt }
        ensures places { length self.new.results.items ≡ length self.old.results.items }
        ensures stack { All (IsToMake (C.calls source.now calls.old) (length (C.calls source.now calls.old))) stack.new.items }
    {
        let mut value = value;
        match edit(self.alloc, &mut value, call) {
            Ok(()) => {
                self.count_one(work_of_edit(call));
                self.run_on(stack, calls, source, at, value)
            }
            Err(refused) => {
                self.put(before as usize, value);
                Err(refused)
            }
        }
    }

    /// Makes the edit at this place, where what it reads is kept, and those on top of the stack that go on with it. `AllocError` where
    /// memory is refused; what was made is kept.
    pub(crate) fn edit_first<S, C: CallList<S>>(
        &mut self,
        stack: &mut Vec<u32>,
        calls: &mut C,
        source: &S,
        call: &Call,
        at: u32,
    ) -> Result<(), AllocError>
        requires held { C.is_in source.now calls.old }
        requires table { IsTable (C.calls source.now calls.old) self.old }
        requires all { length self.old.results.items ≡ length (C.calls source.now calls.old) }
        requires to_make { IsToMake (C.calls source.now calls.old) (length (C.calls source.now calls.old)) at }
        requires stack { All (IsToMake (C.calls source.now calls.old) (length (C.calls source.now calls.old))) stack.old.items }
        requires call { slice_get (C.calls source.now calls.old) at ≡ Some call.now }
        requires edits { IsEdit call.now }
        ensures same { calls.new ≡ calls.old }
        ensures table { IsTable (C.calls source.now calls.old) self.new }
        ensures learnt { self.new.learnt ≡ self.old.learnt }
        ensures places { length self.new.results.items ≡ length self.old.results.items }
        ensures stack { All (IsToMake (C.calls source.now calls.old) (length (C.calls source.now calls.old))) stack.new.items }
    {
        let Some(before) = self.learnt.first_link(at as usize) else {
            return Ok(());
        };
        if before >= at {
            return Ok(());
        }
        self.before_change(before);
        match self.take_or_share(before)? {
            Some(value) => self.edit_on(stack, calls, source, call, at, before, value),
            None => Ok(()),
        }
    }
}
