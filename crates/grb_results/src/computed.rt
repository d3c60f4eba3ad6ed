//! The result of one call, of the results that it reads.
ghost use Rattle.std.specs.Prelude.{◌≡◌, ◌<◌, ◌≤◌, ◌^◌, false, true, List, Some, None, length, slice_get, IfOk, IfSome, OnOk};
ghost use Rattle.grb_call.specs.declared.call.Call.{Call};
ghost use Rattle.grb_call.specs.declared.call.Call.TheVariants.{Diag};
ghost use Rattle.grb_call.specs.Kinds.{class_of};
ghost use Rattle.grb_call.specs.Operands.{objects_read};
ghost use Rattle.grb_links.specs.Overwrites.{forgets, inputs_of, is_clear, objects_needed};
ghost use Rattle.grb_links.specs.Learnt.{contents_after};
ghost use Rattle.grb_results.specs.Results.{HoldsAlso, IsBlankAt, IsResult, IsTable, IsToMake};
ghost use Rattle.grb_links.specs.Dup.{is_dup};

use crate::made::{blank, clear, diagonal_of, hold, new_object, operated};
use crate::table::Table;
use grb_call::{Call, Class, Diagonal, Object, VectorId, objects_read};
use grb_links::{forgets, is_clear, is_dup};
use grb_objects::{Operates, SharedContent};
use grb_slices::CallList;
use std::alloc::AllocError;

/// The object at this place of the list.
fn object_at(objects: &[Object], at: usize) -> Object
    requires { at < length objects.now }
    ensures { slice_get objects.now at ≡ Some result }
{
    objects[at]
}

impl Table {
    /// Does the changes that wait in what the call at this place reads. `AllocError` where memory is refused.
    fn assemble_read(&mut self, at: u32) -> Result<(), AllocError>
        requires { at < length self.old.learnt.nodes.items }
        ensures table { (cs : List Call) → IsTable cs self.old → IsTable cs self.new }
        ensures learnt { self.new.learnt ≡ self.old.learnt }
        ensures places { length self.new.results.items ≡ length self.old.results.items }
    {
        let links = self.learnt.node_at(at as usize).links;
        'links: for place in 0..4 {
            let link = links[place];
            if link > 0 {
                self.assemble(link as usize - 1)?;
            }
        }
        Ok(())
    }

    /// Puts on the bench, next to others, what the call at this place needs. `AllocError` where memory is refused.
    fn hold_read<S, C: CallList<S>, O: Operates>(
        &self,
        bench: &mut O,
        calls: &C,
        source: &S,
        read: &[Object],
        at: u32,
    ) -> Result<(), AllocError>
        requires table { IsTable (C.calls source.now calls.now) self.now }
        requires near { at < length self.now.results.items }
        requires read { (call : Call) → slice_get (C.calls source.now calls.now) at ≡ Some call → read.now ≡ objects_needed call }
        requires few { length read.now ≤ 4 }
        ensures { OnOk result (HoldsAlso (contents_after (C.calls source.now calls.now) at) read.now (O.on bench.old) (O.on bench.new)) }
    {
        let links = self.learnt.node_at(at as usize).links;
        'places: for place in 0..read.len() {
            let link = links[place];
            if link == 0 {
                return Err(AllocError);
            }
            match self.shared(link - 1)? {
                Some(value) => hold(bench, object_at(read, place), value)?,
                None => return Err(AllocError),
            }
        }
        Ok(())
    }

    /// What the operation at this place leaves of its output, where all that it reads is kept. `AllocError` where memory is refused.
    fn operated_on<S, C: CallList<S>, O: Operates>(
        &self,
        bench: &mut O,
        calls: &C,
        source: &S,
        call: &Call,
        read: &[Object],
        at: u32,
    ) -> Result<Option<SharedContent>, AllocError>
        requires table { IsTable (C.calls source.now calls.now) self.now }
        requires all { length self.now.results.items ≡ length (C.calls source.now calls.now) }
        requires to_make { IsToMake (C.calls source.now calls.now) (length (C.calls source.now calls.now)) at }
        requires call { slice_get (C.calls source.now calls.now) at ≡ Some call.now }
        requires operates { (call : Call) → slice_get (C.calls source.now calls.now) at ≡ Some call → class_of call ≡ Class.Operates }
        requires read { (call : Call) → slice_get (C.calls source.now calls.now) at ≡ Some call → read.now ≡ objects_read call }
        requires keeps { forgets call.now ≡ false }
        requires few { length read.now ≤ 4 }
        ensures { IfOk result (λ found. IfSome found (IsResult (C.calls source.now calls.now) at)) }
    {
        self.hold_read(bench, calls, source, read, at)?;
        operated(bench, call)
    }

    /// What the operation at this place leaves of its output; nothing is on the bench then. `AllocError` where memory is refused.
    fn operated_at<S, C: CallList<S>, O: Operates>(
        &self,
        bench: &mut O,
        calls: &C,
        source: &S,
        call: &Call,
        at: u32,
    ) -> Result<Option<SharedContent>, AllocError>
        requires table { IsTable (C.calls source.now calls.now) self.now }
        requires all { length self.now.results.items ≡ length (C.calls source.now calls.now) }
        requires to_make { IsToMake (C.calls source.now calls.now) (length (C.calls source.now calls.now)) at }
        requires call { slice_get (C.calls source.now calls.now) at ≡ Some call.now }
        requires operates { class_of call.now ≡ Class.Operates }
        requires keeps { forgets call.now ≡ false }
        ensures { IfOk result (λ found. IfSome found (IsResult (C.calls source.now calls.now) at)) }
    {
        let read = objects_read(self.alloc, call);
        let made = self.operated_on(bench, calls, source, call, read.as_slice(), at);
        clear(bench, read.as_slice());
        made
    }

    /// Puts on the bench, next to others, the inputs of the call at this place, which needs nothing else. `AllocError` where memory is
    /// refused.
    fn hold_inputs<S, C: CallList<S>, O: Operates>(
        &self,
        bench: &mut O,
        calls: &C,
        source: &S,
        call: &Call,
        at: u32,
    ) -> Result<(), AllocError>
        requires table { IsTable (C.calls source.now calls.now) self.now }
        requires near { at < length self.now.results.items }
        requires call { slice_get (C.calls source.now calls.now) at ≡ Some call.now }
        requires forgets { forgets call.now ≡ true }
        requires operates { class_of call.now ≡ Class.Operates }
        ensures { OnOk result (HoldsAlso (contents_after (C.calls source.now calls.now) at) (inputs_of call.now) (O.on bench.old) (O.on bench.new)) }
    {
        match call.operation() {
            Some(operation) => {
                let read = operation.inputs(self.alloc);
                self.hold_read(bench, calls, source, read.as_slice(), at)
            }
            None => Err(AllocError),
        }
    }

    /// An object that stores nothing, of the shape of the output of the call at this place, which needs nothing else of it. `AllocError`
    /// where memory is refused.
    fn blank_at(&self, at: u32) -> Result<Option<SharedContent>, AllocError>
        requires { at < length self.now.learnt.nodes.items }
        ensures { IfOk result (λ found. IfSome found (IsBlankAt self.now at)) }
    {
        match self.learnt.shape_at(at as usize) {
            Some(shape) => blank(self.alloc, shape),
            None => Ok(None),
        }
    }

    /// What the clear at this place leaves of its object. `AllocError` where memory is refused.
    fn cleared_at<S, C: CallList<S>>(
        &self,
        calls: &C,
        source: &S,
        call: &Call,
        at: u32,
    ) -> Result<Option<SharedContent>, AllocError>
        requires table { IsTable (C.calls source.now calls.now) self.now }
        requires all { length self.now.results.items ≡ length (C.calls source.now calls.now) }
        requires to_make { IsToMake (C.calls source.now calls.now) (length (C.calls source.now calls.now)) at }
        requires call { slice_get (C.calls source.now calls.now) at ≡ Some call.now }
        requires clears { is_clear call.now ≡ true }
        ensures { IfOk result (λ found. IfSome found (IsResult (C.calls source.now calls.now) at)) }
    {
        self.blank_at(at)
    }

    /// What the operation at this place leaves of its output, which is put on the bench with nothing stored; it needs its inputs alone.
    /// `AllocError` where memory is refused.
    fn overwritten_on<S, C: CallList<S>, O: Operates>(
        &self,
        bench: &mut O,
        calls: &C,
        source: &S,
        call: &Call,
        at: u32,
    ) -> Result<Option<SharedContent>, AllocError>
        requires table { IsTable (C.calls source.now calls.now) self.now }
        requires all { length self.now.results.items ≡ length (C.calls source.now calls.now) }
        requires to_make { IsToMake (C.calls source.now calls.now) (length (C.calls source.now calls.now)) at }
        requires call { slice_get (C.calls source.now calls.now) at ≡ Some call.now }
        requires operates { class_of call.now ≡ Class.Operates }
        requires forgets { forgets call.now ≡ true }
        ensures { IfOk result (λ found. IfSome found (IsResult (C.calls source.now calls.now) at)) }
    {
        let Some(output) = call.output() else {
            return Ok(None);
        };
        let Some(value) = self.blank_at(at)? else {
            return Ok(None);
        };
        hold(bench, output, value)?;
        self.hold_inputs(bench, calls, source, call, at)?;
        operated(bench, call)
    }

    /// What the operation at this place leaves of its output, of which it needs nothing; nothing is on the bench then. `AllocError` where
    /// memory is refused.
    fn overwritten_at<S, C: CallList<S>, O: Operates>(
        &self,
        bench: &mut O,
        calls: &C,
        source: &S,
        call: &Call,
        at: u32,
    ) -> Result<Option<SharedContent>, AllocError>
        requires table { IsTable (C.calls source.now calls.now) self.now }
        requires all { length self.now.results.items ≡ length (C.calls source.now calls.now) }
        requires to_make { IsToMake (C.calls source.now calls.now) (length (C.calls source.now calls.now)) at }
        requires call { slice_get (C.calls source.now calls.now) at ≡ Some call.now }
        requires operates { class_of call.now ≡ Class.Operates }
        requires forgets { forgets call.now ≡ true }
        ensures { IfOk result (λ found. IfSome found (IsResult (C.calls source.now calls.now) at)) }
    {
        let made = self.overwritten_on(bench, calls, source, call, at);
        clear(bench, objects_read(self.alloc, call).as_slice());
        made
    }

    /// What the dup at this place makes: what it reads, shared. `AllocError` where 2^63 - 1 hold it.
    fn dup_at<S, C: CallList<S>>(
        &self,
        calls: &C,
        source: &S,
        call: &Call,
        at: u32,
    ) -> Result<Option<SharedContent>, AllocError>
        requires table { IsTable (C.calls source.now calls.now) self.now }
        requires all { length self.now.results.items ≡ length (C.calls source.now calls.now) }
        requires to_make { IsToMake (C.calls source.now calls.now) (length (C.calls source.now calls.now)) at }
        requires call { slice_get (C.calls source.now calls.now) at ≡ Some call.now }
        requires dup { is_dup call.now ≡ true }
        ensures { IfOk result (λ found. IfSome found (IsResult (C.calls source.now calls.now) at)) }
    {
        match self.learnt.first_link(at as usize) {
            Some(before) => self.shared(before),
            None => Ok(None),
        }
    }

    /// What the call at this place makes, which puts a vector on a diagonal. `AllocError` where memory is refused.
    fn diagonal_at<S, C: CallList<S>, O: Operates>(
        &self,
        bench: &O,
        calls: &C,
        source: &S,
        v: VectorId,
        diagonal: Diagonal,
        at: u32,
    ) -> Result<Option<SharedContent>, AllocError>
        requires table { IsTable (C.calls source.now calls.now) self.now }
        requires all { length self.now.results.items ≡ length (C.calls source.now calls.now) }
        requires to_make { IsToMake (C.calls source.now calls.now) (length (C.calls source.now calls.now)) at }
        requires call { slice_get (C.calls source.now calls.now) at ≡ Some (Diag v diagonal) }
        ensures { IfOk result (λ found. IfSome found (IsResult (C.calls source.now calls.now) at)) }
    {
        let Some(before) = self.learnt.first_link(at as usize) else {
            return Ok(None);
        };
        match self.shared(before)? {
            Some(value) => diagonal_of(bench, self.alloc, diagonal, value),
            None => Ok(None),
        }
    }

    /// What the call at this place makes or computes, where all that it reads is kept; none of a call that ends its object or only reads.
    /// `AllocError` where memory is refused.
    pub(crate) fn computed_at<S, C: CallList<S>, O: Operates>(
        &mut self,
        bench: &mut O,
        calls: &C,
        source: &S,
        call: &Call,
        at: u32,
    ) -> Result<Option<SharedContent>, AllocError>
        requires table { IsTable (C.calls source.now calls.now) self.old }
        requires all { length self.old.results.items ≡ length (C.calls source.now calls.now) }
        requires to_make { IsToMake (C.calls source.now calls.now) (length (C.calls source.now calls.now)) at }
        requires call { slice_get (C.calls source.now calls.now) at ≡ Some call.now }
        ensures table { IsTable (C.calls source.now calls.now) self.new }
        ensures learnt { self.new.learnt ≡ self.old.learnt }
        ensures places { length self.new.results.items ≡ length self.old.results.items }
        ensures found { IfOk result (λ found. IfSome found (IsResult (C.calls source.now calls.now) at)) }
    {
        match call.class() {
            Class::Operates => {
                self.assemble_read(at)?;
                if forgets(call) {
                    return self.overwritten_at(bench, calls, source, call, at);
                }
                self.operated_at(bench, calls, source, call, at)
            }
            Class::Makes => {
                if is_dup(call) {
                    return self.dup_at(calls, source, call, at);
                }
                match call {
                    Call::Diag { v, diagonal } => {
                        self.assemble_read(at)?;
                        self.diagonal_at(bench, calls, source, *v, *diagonal, at)
                    }
                    _ => new_object(self.alloc, call),
                }
            }
            Class::Edits => {
                if is_clear(call) {
                    return self.cleared_at(calls, source, call, at);
                }
                Ok(None)
            }
            Class::Reads(_) | Class::AsksDimensions => Ok(None),
        }
    }
}
