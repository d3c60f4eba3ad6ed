//! Calls that only read, answered at the end of the order.
ghost use Rattle.std.specs.Prelude.{◌≡◌, false, length, OnOk};
ghost use Rattle.grb_order.specs.Order.{room_of};
ghost use Rattle.grb_call.specs.Kinds.{enters};
ghost use Rattle.grb_reader.specs.Known.{IsPassOf, known};
ghost use Rattle.grb_reader.specs.Explains.{ExplainsAnswer, IsCaughtUp, ground_of};
ghost use Rattle.grb_pass.specs.Answered.{Answered};
ghost use Rattle.grb_reader.specs.Counting.{CountsCall, LooksOnce};
ghost use Rattle.grb_reader.specs.Learning.{IsSteady};
ghost use Rattle.grb_reader.specs.Made.{ReadsNone};
ghost use Rattle.grb_reader.specs.Settled.{LeavesReady, settled_after};

use crate::pass::Pass;
use crate::shared::Shared;
use grb_call::{Call, Reply};
use grb_core::Refusal;
use grb_objects::Helps;

impl<O: Helps> Shared<O> {
    /// Learns the order to its end, checks the call there, evaluates what its answer needs, and settles all where it waits for all.
    /// `OutOfMemory` where memory for that is refused: no entry changes, and what was made stays made.
    fn read_at_end(&self, pass: &mut Pass<O>, call: &Call) -> Result<Reply, Refusal>
        requires pass { IsPassOf self.now pass.old }
        requires reads { enters call.now ≡ false }
        requires begun { pass.old.steps ≡ 0 }
        ensures pass { IsPassOf self.now pass.new }
        ensures statuses { pass.new.statuses ≡ pass.old.statuses }
        ensures settled { pass.new.settled ≡ settled_after call.now result (length (known pass.new)) pass.old.settled }
        ensures counts { CountsCall (room_of self.now.order) pass.old pass.new }
        ensures looks { LooksOnce pass.old pass.new }
        ensures made { ReadsNone pass.old.settled (known pass.new) call.now → pass.new.made.count ≡ pass.old.made.count }
        ensures ready { OnOk result (LeavesReady pass.new call.now) }
        ensures explains { ExplainsAnswer (room_of self.now.order) pass.old pass.new call.now result }
        ensures steady { IsSteady pass.new }
        ensures caught_up { IsCaughtUp (ground_of result) pass.new }
    {
        self.learn(&mut pass.reader)?;
        pass.reader.check(call)?;
        pass.reply(&self.records, call)
            .or(Err(Refusal::OutOfMemory))
    }

    /// Answers a call that only reads. Takes memory for the evaluation of calls and for the changes that wait, and none where all known
    /// calls are settled; does not wait. `OutOfMemory` where that is refused: no entry changes, and what was made stays made.
    pub fn read(&self, pass: &mut Pass<O>, call: &Call) -> Result<Reply, Refusal>
        requires pass { IsPassOf self.now pass.old }
        requires reads { enters call.now ≡ false }
        ensures pass { IsPassOf self.now pass.new }
        ensures answered { Answered self.now pass.old pass.new call.now result }
    {
        pass.begin();
        let answer = self.read_at_end(pass, call);
        pass.keep(call.object(), &answer);
        answer
    }
}
