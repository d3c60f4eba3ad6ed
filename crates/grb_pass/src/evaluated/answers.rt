//! The reply to a call that reads entries or has changes done: what it needs is made.
ghost use Rattle.std.specs.Prelude.{◌≡◌, ◌<◌, ◌≤◌, false, true, Some, length, All, IfOk, IfSome, OnErr, OnOk};
ghost use Rattle.grb_records.specs.Token.{IsOf};
ghost use Rattle.grb_call.specs.After.{reply_of};
ghost use Rattle.grb_call.specs.History.{calls_of, store_of};
ghost use Rattle.grb_call.specs.Shapes.{is_live};
ghost use Rattle.grb_call.specs.Store.{shapes_of};
ghost use Rattle.grb_results.specs.Kept.{AreReady, IsKept, IsSameBut, IsTableOf, ReadsObject};
ghost use Rattle.grb_results.specs.Results.{IsTable};
ghost use Rattle.grb_pass.specs.Evaluated.{IsEvaluatedFor, LiesReadyAfter};
ghost use Rattle.grb_pass.specs.Given.{IsGiven};
ghost use Rattle.grb_reader.specs.Known.{known};
ghost use Rattle.grb_reader.specs.Replying.{ReadsStore};
ghost use Rattle.grb_reader.specs.Settled.{is_materialize, settled_by, waited_for};

use super::Evaluated;
use grb_call::{Call, Class, Extent, Object, Reply};
use grb_objects::Helps;
use grb_reader::Reader;
use grb_records::Records;
use std::alloc::AllocError;

/// Whether the call waits for all objects.
fn is_materialize(call: &Call) -> bool
    ensures { result ≡ is_materialize call.now }
{
    match call.class() {
        Class::Reads(Extent::All) => true,
        Class::Reads(Extent::Object)
        | Class::Makes
        | Class::Edits
        | Class::Operates
        | Class::AsksDimensions => false,
    }
}

impl<O: Helps> Evaluated<O> {
    /// Makes what the object holds after all known calls, which were learnt: from results that other passes left, where that pays. Nothing is
    /// done where it is kept. `AllocError` where memory is refused; what was made stays so.
    fn make(
        &mut self,
        records: &Records,
        reader: &mut Reader,
        object: Object,
    ) -> Result<(), AllocError>
        requires of { All (IsOf records.now) reader.old.shown }
        requires table { IsTableOf (calls_of (known reader.old)) self.old }
        ensures same { reader.new ≡ reader.old }
        ensures table { IsTable (calls_of (known reader.new)) self.new }
        ensures learnt { self.new.learnt ≡ self.old.learnt }
        ensures kept { OnOk result (is_live self.old.learnt.shapes.objects object ≡ true → IsKept self.new object) }
        ensures stays { IsKept self.old object → self.new ≡ self.old }
        ensures memory { OnErr result (IsKept self.old object → ⊥) }
    {
        if self.table.is_kept(object) {
            return Ok(());
        }
        self.table.sweep_where_due();
        self.look(records, reader, object);
        self.table
            .make(&mut self.bench, &mut self.stack, reader, records, object)
    }

    /// Leaves what was made for the answer to the other passes, with no change left that waits in the object, where it was dear. Nothing is
    /// missed where memory is refused to that.
    fn share_dear(&mut self, records: &Records, reader: &mut Reader, object: Object)
        requires of { All (IsOf records.now) reader.old.shown }
        requires table { IsTable (calls_of (known reader.old)) self.old }
        requires kept { IsKept self.old object }
        ensures same { reader.new ≡ reader.old }
        ensures table { IsTable (calls_of (known reader.new)) self.new }
        ensures learnt { IsSameBut self.old self.new }
        ensures kept { IsKept self.new object }
    {
        if self.is_worth_sharing(reader) {
            let _ = self.table.assemble_last(object);
            self.share(records, reader);
        }
    }

    /// Makes what the object holds, as [`Evaluated::make`] does, and leaves it to the other passes where that was dear.
    pub(super) fn make_and_share(
        &mut self,
        records: &Records,
        reader: &mut Reader,
        object: Object,
    ) -> Result<(), AllocError>
        requires of { All (IsOf records.now) reader.old.shown }
        requires table { IsTableOf (calls_of (known reader.old)) self.old }
        requires live { is_live self.old.learnt.shapes.objects object ≡ true }
        ensures same { reader.new ≡ reader.old }
        ensures table { IsTable (calls_of (known reader.new)) self.new }
        ensures learnt { self.new.learnt ≡ self.old.learnt }
        ensures kept { OnOk result (IsKept self.new object) }
        ensures stays { IsKept self.old object → self.new ≡ self.old }
        ensures memory { OnErr result (IsKept self.old object → ⊥) }
    {
        if self.table.is_kept(object) {
            return Ok(());
        }
        self.make(records, reader, object)?;
        self.share_dear(records, reader, object);
        Ok(())
    }

    /// Has the changes done that a call asks for which only reads the object, which is kept, unless all known calls are settled: then none
    /// waits. `AllocError` where memory is refused to a wait.
    fn complete(&mut self, reader: &Reader, object: Object, call: &Call) -> Result<(), AllocError>
        requires evaluated { IsEvaluatedFor reader.now self.old }
        requires kept { IsKept self.old object }
        requires live { is_live self.old.learnt.shapes.objects object ≡ true }
        requires about { ReadsObject (store_of (known reader.now)) object call.now }
        ensures evaluated { IsEvaluatedFor reader.now self.new }
        ensures learnt { self.new.learnt ≡ self.old.learnt }
        ensures made { self.new.made ≡ self.old.made }
        ensures kept { IsKept self.new object }
        ensures ready { OnOk result (IfSome (waited_for call.now) (λ o. LiesReadyAfter self.new o (length self.new.learnt.nodes.items))) }
        ensures memory { OnErr result (reader.now.settled < length (known reader.now)) }
    {
        if reader.settled() >= reader.known() {
            return Ok(());
        }
        self.table.settle(object, call)
    }

    /// The reply to a call that only reads one object, after all known calls, which were learnt.
    fn reply_of_object(
        &mut self,
        records: &Records,
        reader: &mut Reader,
        object: Object,
        call: &Call,
    ) -> Result<Reply, AllocError>
        requires evaluated { IsEvaluatedFor reader.old self.old }
        requires of { All (IsOf records.now) reader.old.shown }
        requires table { IsTableOf (calls_of (known reader.old)) self.old }
        requires call { ReadsObject (store_of (known reader.old)) object call.now }
        requires one { is_materialize call.now ≡ false }
        ensures { IsGiven reader.old reader.new self.old self.new call.now result }
    {
        self.make_and_share(records, reader, object)?;
        self.complete(reader, object, call)?;
        Ok(self.table.reply(&self.bench, object, call))
    }

    /// Makes what all objects hold that are there after all known calls, which were learnt, has all changes done, and offers that to the other
    /// passes: the known calls are settled then. `AllocError` where memory is refused to any of it; no call is settled then, and what was
    /// done stays done.
    fn settle(&mut self, records: &Records, reader: &mut Reader) -> Result<(), AllocError>
        requires evaluated { IsEvaluatedFor reader.old self.old }
        requires of { All (IsOf records.now) reader.old.shown }
        requires table { IsTableOf (calls_of (known reader.old)) self.old }
        ensures same { reader.new ≡ record reader.old { settled = reader.new.settled } }
        ensures evaluated { IsEvaluatedFor reader.new self.new }
        ensures settled { OnOk result (reader.new.settled ≡ length (known reader.old)) }
        ensures err { OnErr result (reader.new ≡ reader.old) }
        ensures memory { OnErr result (reader.old.settled < length (known reader.old)) }
        ensures made { length (known reader.old) ≤ reader.old.settled → self.new.made ≡ self.old.made }
    {
        if reader.settled() >= reader.known() {
            return Ok(());
        }
        self.make_ready(records, reader)?;
        self.offer(records, reader)?;
        reader.settle();
        Ok(())
    }

    /// Makes what all objects hold that are there after all known calls, which were learnt, and has all changes done: with results that other
    /// passes left. `AllocError` where memory is refused; what was done stays done.
    pub(super) fn make_ready(
        &mut self,
        records: &Records,
        reader: &mut Reader,
    ) -> Result<(), AllocError>
        requires of { All (IsOf records.now) reader.old.shown }
        requires table { IsTableOf (calls_of (known reader.old)) self.old }
        ensures same { reader.new ≡ reader.old }
        ensures table { IsTable (calls_of (known reader.new)) self.new }
        ensures learnt { self.new.learnt ≡ self.old.learnt }
        ensures ready { OnOk result (AreReady self.new) }
        ensures stays { AreReady self.old → (self.new.results ≡ self.old.results) × IsSameBut self.old self.new }
        ensures memory { OnErr result (AreReady self.old → ⊥) }
    {
        if self.table.are_ready() {
            return Ok(());
        }
        self.table.sweep_where_due();
        self.look_for_all(records, reader);
        self.table
            .settle_all(&mut self.bench, &mut self.stack, reader, records)
    }

    /// The reply to a call that reads entries or has changes done and is not refused, after all known calls: only calls are made that it needs.
    /// One that waits for all objects settles all. `AllocError` where memory is refused; what was made stays made.
    pub(crate) fn reply(
        &mut self,
        records: &Records,
        reader: &mut Reader,
        call: &Call,
    ) -> Result<Reply, AllocError>
        requires evaluated { IsEvaluatedFor reader.old self.old }
        requires of { All (IsOf records.now) reader.old.shown }
        requires call { ReadsStore (store_of (known reader.old)) call.now }
        ensures { IsGiven reader.old reader.new self.old self.new call.now result }
    {
        self.learn(records, reader)?;
        if is_materialize(call) {
            self.settle(records, reader)?;
            return Ok(Reply::Done);
        }
        match call.object() {
            Some(object) => self.reply_of_object(records, reader, object, call),
            None => unreachable!(),
        }
    }
}
