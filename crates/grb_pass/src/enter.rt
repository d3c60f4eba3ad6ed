//! Calls that change an object: checked, kept in a record, and entered into the order.
//!
//! A call is entered in this order:
//!
//! 1. The order is learnt to its end: each word after those known is loaded, and its record is read, up to a load that finds 0. A word
//!    whose record is not shown is answered by `Panic`, and the next call reads it again.
//! 2. The call is checked against the shapes that all known calls leave, a build also by how many entries its object stores; then comes
//!    `OrderFull`. So far nothing was written.
//! 3. The call is written into the next cell of the pass's own row of records, where no other pass writes. That is all that takes memory,
//!    the evaluation for a build aside.
//! 4. The word that names this record is compared and exchanged with the 0 that step 1 found. Where it is written, the call is entered in
//!    that step, after just the calls that it was checked against, and nothing can be refused any more.
//! 5. Where another word is found, the try is lost: that word is learnt, the pass idles for a bounded number of turns, and steps 1 and 2
//!    are made again, and step 4 with the same record.
//! 6. The answer is kept as the status of the call's object.
//!
//! A record is written before its word, so who finds a word asks for a record that was put. No call waits for another thread: cells are set
//! once and read without a lock, and each lost try is a word of another call that is then known. So the room of the order bounds the loop,
//! and the steps of a call are bounded by the calls that came in meanwhile.
ghost use Rattle.std.specs.Prelude.{◌≡◌, ◌+◌, ◌<◌, ◌≤◌, ◌^◌, length, true, false, OnOk, IfErr};
ghost use Rattle.grb_order.specs.Order.{room_of};
ghost use Rattle.grb_records.specs.Token.{IsOf};
ghost use Rattle.grb_call.specs.Kinds.{enters, is_build};
ghost use Rattle.grb_reader.specs.Known.{IsPassOf};
ghost use Rattle.grb_reader.specs.Point.{GrewTo};
ghost use Rattle.grb_reader.specs.Explains.{ExplainsAnswer, IsCaughtUp, ground_of};
ghost use Rattle.grb_pass.specs.Answered.{Answered};
ghost use Rattle.grb_reader.specs.Counting.{Counts, CountsTries, CountsCall};
ghost use Rattle.grb_reader.specs.Cells.{OwnBelow};
ghost use Rattle.grb_reader.specs.Learning.{IsReady, IsRefused, IsSteady, Learns, LooksAtEnd};

use crate::pass::Pass;
use crate::shared::Shared;
use grb_call::{Call, Reply};
use grb_core::Refusal;
use grb_objects::Helps;
use grb_reader::End;
use grb_records::Token;

impl<O: Helps> Shared<O> {
    /// Learns the order to its end, and checks there a call that enters. Takes memory for a build alone, whose object is evaluated, and
    /// does not wait. `OutOfMemory` where that is refused; then the pass has learnt what it learnt.
    #[inline(always)]
    fn ready(&self, pass: &mut Pass<O>, call: &Call) -> Result<(), Refusal>
        requires pass { IsPassOf self.now pass.old }
        requires enters { enters call.now ≡ true }
        requires few { pass.old.steps < 2 ^ 30 }
        ensures pass { IsPassOf self.now pass.new }
        ensures counts { Counts pass.old pass.new }
        ensures looks { LooksAtEnd (room_of self.now.order) pass.old pass.new }
        ensures learns { Learns pass.old pass.new }
        ensures steady { IsSteady pass.new }
        ensures made { is_build call.now ≡ false → pass.new.made ≡ pass.old.made }
        ensures ready { OnOk result (IsReady (room_of self.now.order) pass.new call.now) }
        ensures looked { OnOk result (GrewTo pass.old.view.looks pass.new.view.looks (length pass.new.view.words)) }
        ensures refused { IfErr result (λ refusal. IsRefused (room_of self.now.order) pass.old pass.new call.now refusal) }
    {
        let end = self.learn(&mut pass.reader)?;
        pass.check(&self.records, call)?;
        match end {
            End::Vacant => Ok(()),
            End::Full => Err(Refusal::OrderFull),
        }
    }

    /// Enters the record of a token, whose call is not refused after all that the pass knows. After a lost try the call is checked again,
    /// with the words learnt since. `OutOfMemory` of a build alone, where memory is refused to the evaluation of its object; then its
    /// record is spent, and nothing is entered.
    #[inline(always)]
    pub(crate) fn enter_token(&self, pass: &mut Pass<O>, token: Token) -> Result<Reply, Refusal>
        requires pass { IsPassOf self.now pass.old }
        requires steady { IsSteady pass.old }
        requires of { IsOf self.now.records token }
        requires own { token.pass ≡ pass.old.view.number }
        requires index { token.index < 2 ^ 48 }
        requires fresh { OwnBelow token.index pass.old.view }
        requires enters { enters token.call ≡ true }
        requires ready { IsReady (room_of self.now.order) pass.old token.call }
        requires few { pass.old.steps < 2 ^ 28 }
        ensures pass { IsPassOf self.now pass.new }
        ensures statuses { pass.new.statuses ≡ pass.old.statuses }
        ensures settled { pass.new.settled ≡ pass.old.settled }
        ensures counts { CountsTries (room_of self.now.order) pass.old pass.new }
        ensures made { is_build token.call ≡ false → pass.new.made ≡ pass.old.made }
        ensures explains { ExplainsAnswer (room_of self.now.order) pass.old pass.new token.call result }
        ensures steady { IsSteady pass.new }
        ensures caught_up { IsCaughtUp (ground_of result) pass.new }
    {
        let mut token = token;
        'tries: loop {
            let call = self.records.call_of(&mut token);
            let reply = pass.reader.reply(call);
            let Some(back) = pass.enter(&self.order, token, call) else {
                return Ok(reply);
            };
            token = back;
            self.ready(pass, call)?;
        }
    }

    /// Puts the record of a call and enters it. `OutOfMemory` where memory is refused to the record, or to the evaluation of a build's
    /// object; then nothing is entered.
    #[inline(always)]
    fn enter_record(&self, pass: &mut Pass<O>, call: Call) -> Result<Reply, Refusal>
        requires pass { IsPassOf self.now pass.old }
        requires enters { enters call ≡ true }
        requires begun { pass.old.steps ≡ 0 }
        ensures pass { IsPassOf self.now pass.new }
        ensures statuses { pass.new.statuses ≡ pass.old.statuses }
        ensures settled { pass.new.settled ≡ pass.old.settled }
        ensures counts { CountsCall (room_of self.now.order) pass.old pass.new }
        ensures made { is_build call ≡ false → pass.new.made ≡ pass.old.made }
        ensures explains { ExplainsAnswer (room_of self.now.order) pass.old pass.new call result }
        ensures steady { IsSteady pass.new }
        ensures caught_up { IsCaughtUp (ground_of result) pass.new }
    {
        self.ready(pass, &call)?;
        let token = pass.put(&self.records, call)?;
        self.enter_token(pass, token)
    }

    /// Puts the record of a copy of a call and enters it. The copy is made once the call is found not to be refused. `OutOfMemory` as of
    /// `enter_record`.
    fn enter_record_of_copy(&self, pass: &mut Pass<O>, call: &Call) -> Result<Reply, Refusal>
        requires pass { IsPassOf self.now pass.old }
        requires enters { enters call.now ≡ true }
        requires begun { pass.old.steps ≡ 0 }
        ensures pass { IsPassOf self.now pass.new }
        ensures statuses { pass.new.statuses ≡ pass.old.statuses }
        ensures settled { pass.new.settled ≡ pass.old.settled }
        ensures counts { CountsCall (room_of self.now.order) pass.old pass.new }
        ensures made { is_build call.now ≡ false → pass.new.made ≡ pass.old.made }
        ensures explains { ExplainsAnswer (room_of self.now.order) pass.old pass.new call.now result }
        ensures steady { IsSteady pass.new }
        ensures caught_up { IsCaughtUp (ground_of result) pass.new }
    {
        self.ready(pass, call)?;
        let Ok(copy) = call.try_clone() else {
            return Err(Refusal::OutOfMemory);
        };
        let token = pass.put(&self.records, copy)?;
        self.enter_token(pass, token)
    }

    /// Enters a call that changes the store, after all that were entered before it. Takes memory for its record, and for a build for the
    /// evaluation of its object, and does not wait. `OutOfMemory` where that is refused; then nothing is entered.
    #[inline(always)]
    pub fn enter(&self, pass: &mut Pass<O>, call: Call) -> Result<Reply, Refusal>
        requires pass { IsPassOf self.now pass.old }
        requires enters { enters call ≡ true }
        ensures pass { IsPassOf self.now pass.new }
        ensures answered { Answered self.now pass.old pass.new call result }
    {
        pass.begin();
        let object = call.object();
        let answer = self.enter_record(pass, call);
        pass.keep(object, &answer);
        answer
    }

    /// Enters a copy of a call that changes the store, as `enter` does, and does not wait. The copy takes no memory: it shares the list of
    /// a build. `OutOfMemory` as of `enter`.
    pub fn enter_copy(&self, pass: &mut Pass<O>, call: &Call) -> Result<Reply, Refusal>
        requires pass { IsPassOf self.now pass.old }
        requires enters { enters call.now ≡ true }
        ensures pass { IsPassOf self.now pass.new }
        ensures answered { Answered self.now pass.old pass.new call.now result }
    {
        pass.begin();
        let answer = self.enter_record_of_copy(pass, call);
        pass.keep(call.object(), &answer);
        answer
    }
}
