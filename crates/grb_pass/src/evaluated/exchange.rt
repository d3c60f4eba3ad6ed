//! When a pass looks for results that others left, and when it leaves its own to them. No contract knows of it but that the table stays one
//! of the known calls: each choice is right, and bears on time and memory alone.
ghost use Rattle.std.specs.Prelude.{◌≡◌, ◌<◌, ◌≤◌, ◌^◌, length, map, All, IfOk, OnErr};
ghost use Rattle.grb_records.specs.Token.{IsOf};
ghost use Rattle.grb_call.specs.History.{calls_of};
ghost use Rattle.grb_results.specs.Kept.{IsSameBut, IsTableOf, KeepsAll};
ghost use Rattle.grb_results.specs.Results.{IsTable};
ghost use Rattle.grb_pass.specs.Evaluated.{IsEvaluatedFor};
ghost use Rattle.grb_reader.specs.Known.{known};

use super::Evaluated;
use grb_call::{Call, Object};
use grb_objects::Helps;
use grb_reader::Reader;
use grb_records::Records;
use grb_slices::CallList;
use std::alloc::AllocError;

/// From how much work on results are dear: that of 4,096 sets. A pass leaves them to the others when it has made them for one answer (own).
pub(super) const DEAR: u64 = 4096 * 64;

/// How much work it is, about, to copy a call for an edition (own).
const COPIED: u64 = 16;

/// How much work it is, about, to compare a call with one of an edition (own).
const COMPARED: u64 = 4;

/// The known calls, in turn. `AllocError` where memory is refused; then none is lent.
fn lent_calls<'a>(records: &'a Records, reader: &mut Reader) -> Result<Vec<&'a Call>, AllocError>
    requires of { All (IsOf records.now) reader.old.shown }
    ensures calls { IfOk result (λ calls. map (λ c. c.now) calls.items ≡ calls_of (known reader.old)) }
    ensures same { reader.new ≡ reader.old }
{
    let known = reader.known() as usize;
    let mut calls = Vec::with_capacity(reader.allocator(), known)?;
    'calls: for at in 0..known {
        calls.push_reserved(reader.call_at(records, at));
    }
    Ok(calls)
}

impl<O: Helps> Evaluated<O> {
    /// Keeps also the results of the longest edition found that was not looked at, where so much work is worth to compare calls. Nothing is
    /// missed where memory is refused.
    fn look_where_worth(&mut self, records: &Records, reader: &mut Reader, work: u64)
        requires of { All (IsOf records.now) reader.old.shown }
        requires table { IsTableOf (calls_of (known reader.old)) self.old }
        ensures same { reader.new ≡ reader.old }
        ensures table { IsTableOf (calls_of (known reader.new)) self.new }
        ensures learnt { IsSameBut self.old self.new }
        ensures stays { KeepsAll self.old self.new }
    {
        let known = reader.known();
        if work / COMPARED < u64::from(known)
            || !self.versions.has_new(&self.looked, known as usize)
        {
            return;
        }
        if let Ok(calls) = lent_calls(records, reader) {
            let _found = self
                .versions
                .take_into(calls.as_slice(), &mut self.table, &mut self.looked);
        }
    }

    /// Keeps also results that another pass left, before what the object needs is made, where that takes more than to compare calls.
    pub(super) fn look(&mut self, records: &Records, reader: &mut Reader, object: Object)
        requires of { All (IsOf records.now) reader.old.shown }
        requires table { IsTableOf (calls_of (known reader.old)) self.old }
        ensures same { reader.new ≡ reader.old }
        ensures table { IsTableOf (calls_of (known reader.new)) self.new }
        ensures learnt { IsSameBut self.old self.new }
        ensures stays { KeepsAll self.old self.new }
    {
        let work = self.table.work_for(reader, records, object);
        self.look_where_worth(records, reader, work);
    }

    /// Keeps also results that another pass left, before what all objects need is made, where that takes more than to compare calls.
    pub(super) fn look_for_all(&mut self, records: &Records, reader: &mut Reader)
        requires of { All (IsOf records.now) reader.old.shown }
        requires table { IsTableOf (calls_of (known reader.old)) self.old }
        ensures same { reader.new ≡ reader.old }
        ensures table { IsTableOf (calls_of (known reader.new)) self.new }
        ensures learnt { IsSameBut self.old self.new }
        ensures stays { KeepsAll self.old self.new }
    {
        let work = self.table.work_for_all(reader, records);
        self.look_where_worth(records, reader, work);
    }

    /// Leaves the last results, as far as they lie ready, to the other passes. `AllocError` where memory is refused; then none is left.
    fn leave(&mut self, records: &Records, reader: &mut Reader) -> Result<(), AllocError>
        requires of { All (IsOf records.now) reader.old.shown }
        requires table { IsTable (calls_of (known reader.old)) self.old }
        ensures same { reader.new ≡ reader.old }
        ensures table { self.new ≡ self.old }
    {
        self.left = self.table.work();
        let calls = lent_calls(records, reader)?;
        let results = self.table.last_results()?;
        self.versions
            .leave(calls.as_slice(), results, &mut self.looked)
    }

    /// Whether what was made for the answer is dear, also next to copies of the calls, and there are other passes.
    pub(super) fn is_worth_sharing(&self, reader: &Reader) -> bool {
        let spent = self.table.work().saturating_sub(self.begun);
        !self.alone && spent >= DEAR && spent / COPIED >= u64::from(reader.known())
    }

    /// Leaves the last results to the other passes. Nothing is missed where memory is refused to that.
    pub(super) fn share(&mut self, records: &Records, reader: &mut Reader)
        requires of { All (IsOf records.now) reader.old.shown }
        requires table { IsTable (calls_of (known reader.old)) self.old }
        ensures same { reader.new ≡ reader.old }
        ensures table { self.new ≡ self.old }
    {
        let _ = self.leave(records, reader);
    }

    /// Offers the last results, as far as they lie ready, to the other passes, where there are some and what was made since results were last
    /// left is worth copies of the calls. `AllocError` where memory is refused; then none is offered.
    pub(super) fn offer(&mut self, records: &Records, reader: &mut Reader) -> Result<(), AllocError>
        requires of { All (IsOf records.now) reader.old.shown }
        requires table { IsTable (calls_of (known reader.old)) self.old }
        ensures same { reader.new ≡ reader.old }
        ensures table { self.new ≡ self.old }
    {
        let since = self.table.work().saturating_sub(self.left);
        let known = reader.known();
        if self.alone || since / COPIED < u64::from(known) || !self.versions.takes(known as usize) {
            return Ok(());
        }
        let calls = lent_calls(records, reader)?;
        let results = self.table.last_results()?;
        self.versions
            .offer(calls.as_slice(), results, &mut self.looked)?;
        self.left = self.table.work();
        Ok(())
    }
}
