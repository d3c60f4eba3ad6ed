//! A list of calls, one after another.
ghost use Rattle.std.specs.Prelude.{◌≡◌, IfOk, IfErr};
ghost use Rattle.grb_context.specs.Known.{IsPassOf};
ghost use Rattle.grb_context.specs.Answered.{Answered};
ghost use Rattle.grb_context.specs.Ran.{Ran};

use crate::Pass;
use crate::context::Context;
use grb_call::{Call, Reply};
use grb_core::Refusal;

impl Context {
    /// Makes one call that is lent, as `call` does. The copy that is entered shares the list of a build. `OutOfMemory` as of `call`.
    fn call_lent(&self, pass: &mut Pass, call: &Call) -> Result<Reply, Refusal>
        requires pass { IsPassOf self.now pass.old }
        ensures pass { IsPassOf self.now pass.new }
        ensures answered { Answered self.now pass.old pass.new call.now result }
    {
        if call.enters() {
            self.shared.enter_copy(pass, call)
        } else {
            self.shared.read(pass, call)
        }
    }

    /// Makes the calls of a list, one after another, and gives the answer to each at its place. Each is answered as by `call`; a refused
    /// one does not keep the next from being made. `OutOfMemory` outside says that there was no memory for the answers: then no call was
    /// made, and the pass is as before.
    pub fn run(
        &self,
        pass: &mut Pass,
        calls: &[Call],
    ) -> Result<Vec<Result<Reply, Refusal>>, Refusal>
        requires pass { IsPassOf self.now pass.old }
        ensures pass { IsPassOf self.now pass.new }
        ensures ran { IfOk result (λ answers. Ran self.now pass.old pass.new calls.now answers.items) }
        ensures unmade { IfErr result (λ refusal. (refusal ≡ Refusal.OutOfMemory) × (pass.new ≡ pass.old)) }
    {
        let Ok(mut answers) = Vec::with_capacity(self.alloc, calls.len()) else {
            return Err(Refusal::OutOfMemory);
        };
        for call in calls {
            answers.push_reserved(self.call_lent(pass, call));
        }
        Ok(answers)
    }
}
