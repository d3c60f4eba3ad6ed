//! What one pass tells another: its calls, and what it has evaluated; and how it helps others.
ghost use Rattle.std.specs.Prelude.{◌≡◌, ◌<◌, ◌≤◌, true, Ok, length, IfOk, OnErr};
ghost use Rattle.grb_call.specs.History.{store_of};
ghost use Rattle.grb_call.specs.Shapes.{is_live};
ghost use Rattle.grb_call.specs.Store.{shapes_of};
ghost use Rattle.grb_reader.specs.Known.{known, IsPassOf};
ghost use Rattle.grb_reader.specs.Meeting.{Met};
ghost use Rattle.grb_reader.specs.Settled.{IsLeftReady};

use crate::pass::Pass;
use crate::shared::Shared;
use grb_call::Object;
use grb_core::Refusal;
use grb_objects::Helps;
use std::alloc::AllocError;

impl<O: Helps> Shared<O> {
    /// Lets the pass learn all that the other knows: one atomic load of each word that it had not learnt, and three of the first word,
    /// which are not counted. `Panic` where a record is not shown; the words stay learnt, and the next call or meeting asks for it again.
    /// Nothing that the other pass knows changes, whatever is answered. Takes no memory and does not wait.
    pub fn meet(&self, pass: &mut Pass<O>, other: &mut Pass<O>) -> Result<(), Refusal>
        requires pass { IsPassOf self.now pass.old }
        requires other { IsPassOf self.now other.old }
        ensures met { Met self.now pass.old pass.new other.old result }
        ensures other { other.new ≡ other.old }
    {
        pass.begin();
        pass.reader
            .meet(&self.order, &self.records, &mut other.reader)
    }

    /// Lets the pass learn all that the other knows, as `meet` does, and then keep also what the other has evaluated: an answer makes what is
    /// left. Both share those objects until one of them changes one; no entry is copied before. Where memory is refused, the pass evaluates
    /// for itself.
    pub fn adopt(&self, pass: &mut Pass<O>, other: &mut Pass<O>) -> Result<(), Refusal>
        requires pass { IsPassOf self.now pass.old }
        requires other { IsPassOf self.now other.old }
        ensures met { Met self.now pass.old pass.new other.old result }
        ensures other { other.new ≡ other.old }
    {
        let met = self.meet(pass, other);
        if met.is_ok() {
            pass.take_over(&self.records, other);
        }
        met
    }

    /// Evaluates what the pass knows where that is dear, so that passes that adopt it have no work of their own with that, and answers before
    /// how many of the calls that it knows none is made any more, whatever is asked: all of them where each object is evaluated. It learns
    /// nothing and changes no answer. Takes memory for the evaluation; where it is refused, fewer are evaluated.
    pub fn prepare(&self, pass: &mut Pass<O>) -> u32
        requires { IsPassOf self.now pass.old }
        ensures pass { IsPassOf self.now pass.new }
        ensures same { pass.new ≡ record pass.old { made = pass.new.made } }
        ensures count { result ≤ length (known pass.new) }
    {
        pass.prepare(&self.records)
    }

    /// Makes what the object holds after all calls that the pass knows, if it is there, has the changes done that wait in it, and leaves it
    /// ready, as a wait for it does; whether it is there. It learns nothing and makes nothing else. `AllocError` where memory is refused; what
    /// was made stays so.
    pub fn evaluate(&self, pass: &mut Pass<O>, object: Object) -> Result<bool, AllocError>
        requires { IsPassOf self.now pass.old }
        ensures pass { IsPassOf self.now pass.new }
        ensures same { pass.new ≡ record pass.old { made = pass.new.made } }
        ensures there { IfOk result (λ there. there ≡ is_live (shapes_of (store_of (known pass.old))) object) }
        ensures ready { result ≡ Ok true → IsLeftReady pass.new object }
        ensures memory { OnErr result (pass.old.settled < length (known pass.old)) }
    {
        pass.evaluate(&self.records, object)
    }

    /// How much work it is, about, to make what the object holds after all calls that the pass knows: a measure without a unit.
    pub fn work_left(&self, pass: &mut Pass<O>, object: Object) -> u64
        requires { IsPassOf self.now pass.old }
        ensures pass { IsPassOf self.now pass.new }
        ensures same { pass.new ≡ record pass.old { made = pass.new.made } }
    {
        pass.work_left(&self.records, object)
    }

    /// Makes blocks of the dear products that other passes make at the moment, and answers how many: 0 where there is none. It learns
    /// nothing, changes no answer and waits for no one. Takes memory for the blocks; where it is refused, it ends, and nothing is lost.
    pub fn help(&self, pass: &mut Pass<O>) -> u32
        requires { IsPassOf self.now pass.old }
        ensures same { pass.new ≡ pass.old }
        ensures pass { IsPassOf self.now pass.new }
    {
        pass.help()
    }
}
