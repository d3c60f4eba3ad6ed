//! What a member's pass evaluates, lets go and learns from another member.
ghost use Rattle.std.specs.Prelude.{◌≡◌, ◌<◌, ◌≤◌, true, Ok, length, IfOk, OnErr};
ghost use Rattle.grb_call.specs.History.{store_of};
ghost use Rattle.grb_call.specs.Shapes.{is_live};
ghost use Rattle.grb_call.specs.Store.{shapes_of};
ghost use Rattle.grb_context.specs.Known.{known, none_made};
ghost use Rattle.grb_context.specs.Settled.{IsLeftReady};
ghost use Rattle.grb_context.specs.Statuses.{status_at};
ghost use Rattle.grb_numbers.specs.Inside.{inside_object};
ghost use Rattle.grb_generations.specs.Meeting.{IsBeside, Meets, MeetsHere, MeetsNow};
ghost use Rattle.grb_generations.specs.Seated.{Comes, Stays};

use crate::member::Member;
use grb_call::Object;
use grb_core::{Info, Refusal};
use std::alloc::AllocError;

/// Where one member sits beside another that it is to meet (own).
#[derive(Clone, Copy, Debug, PartialEq, Eq)]
pub enum Meeting {
    /// In the same generation: they met.
    Here,
    /// In a later generation, which begins with all that the other can know where it sits: there is nothing to learn.
    Ahead,
    /// In an earlier generation, and it could not move on at the moment. A later call tries again.
    Behind,
}

impl Member {
    /// The status of the object, as [`Pass::last_info`](grb_context::Pass::last_info) has it: of the member's calls in the generation in
    /// which it sits. Takes no memory.
    pub fn last_info(&self, object: Object) -> Option<Info>
        ensures { result ≡ status_at self.now.pass.statuses (inside_object self.now.numbers object) }
    {
        self.pass.last_info(self.numbers.inside_object(object))
    }

    /// Drops all that the member's pass has evaluated, as [`Pass::release`](grb_context::Pass::release) does. Takes no memory (own).
    pub fn release(&mut self)
        ensures { self.new ≡ record self.old { pass = record self.old.pass { settled = 0; made = none_made } } }
    {
        self.pass.release();
    }

    /// Evaluates the calls that the member's pass knows, where that is dear, and answers before how many of them none is made any more, as
    /// [`Context::prepare`](grb_context::Context::prepare) does (own).
    pub fn prepare(&mut self) -> u32
        ensures stays { Stays self.old self.new }
        ensures count { result ≤ length (known self.new.pass) }
    {
        self.context.prepare(&mut self.pass)
    }

    /// Makes what the object of this number holds, as the member's pass knows it where it sits, and leaves it ready, as
    /// [`Context::evaluate`](grb_context::Context::evaluate) does; whether it is there. It does not move. `AllocError` as of that (own).
    pub fn evaluate(&mut self, object: Object) -> Result<bool, AllocError>
        ensures stays { Stays self.old self.new }
        ensures there { IfOk result (λ there. there ≡ is_live (shapes_of (store_of (known self.old.pass))) (inside_object self.old.numbers object)) }
        ensures ready { result ≡ Ok true → IsLeftReady self.new.pass (inside_object self.new.numbers object) }
        ensures memory { OnErr result (self.old.pass.settled < length (known self.old.pass)) }
    {
        let inner = self.numbers.inside_object(object);
        self.context.evaluate(&mut self.pass, inner)
    }

    /// Makes blocks of the dear products that other members make at the moment in the generation in which this one sits, and answers how
    /// many, as [`Context::help`](grb_context::Context::help) does. It does not move (own).
    pub fn help(&mut self) -> u32
        ensures { self.new ≡ self.old }
    {
        self.context.help(&mut self.pass)
    }

    /// How many blocks of dear products were made so far in the generation in which the member sits, as
    /// [`Context::blocks`](grb_context::Context::blocks) counts them. Takes no memory (own).
    pub fn blocks(&self) -> u64 {
        self.context.blocks()
    }

    /// Where the member sits beside the other.
    fn beside(&self, other: &Member) -> Meeting
        requires chain { self.now.chain ≡ other.now.chain }
        ensures { IsBeside self.now other.now result }
    {
        if self.generation == other.generation {
            return Meeting::Here;
        }
        if self.generation < other.generation {
            return Meeting::Behind;
        }
        let _begins = other.page.begins(&self.page);
        Meeting::Ahead
    }

    /// Looks and moves as far as it can, where the other sits in a later generation; where it then sits beside the other.
    fn come_to(&mut self, other: &Member) -> Meeting
        requires chain { self.old.chain ≡ other.now.chain }
        ensures comes { Comes self.old self.new }
        ensures chain { self.new.chain ≡ self.old.chain }
        ensures beside { IsBeside self.new other.now result }
        ensures stays { other.now.generation ≤ self.old.generation → self.new ≡ self.old }
        ensures later { self.old.generation ≤ self.new.generation }
    {
        if self.generation < other.generation {
            self.follow();
        }
        self.beside(other)
    }

    /// Meets the other, which sits in the same generation.
    fn meet_here(&mut self, other: &mut Member) -> Result<(), Refusal>
        requires chain { self.old.chain ≡ other.old.chain }
        requires together { self.old.generation ≡ other.old.generation }
        ensures met { MeetsHere self.old self.new other.old result }
        ensures other { other.new ≡ other.old }
    {
        let _same = self.page.begins(&other.page);
        self.context.meet(&mut self.pass, &mut other.pass)
    }

    /// The same, and keeps also what the other has evaluated.
    fn adopt_here(&mut self, other: &mut Member) -> Result<(), Refusal>
        requires chain { self.old.chain ≡ other.old.chain }
        requires together { self.old.generation ≡ other.old.generation }
        ensures met { MeetsHere self.old self.new other.old result }
        ensures other { other.new ≡ other.old }
    {
        let _same = self.page.begins(&other.page);
        self.context.adopt(&mut self.pass, &mut other.pass)
    }

    /// Lets the member learn all that the other knows, where both sit in one generation, as
    /// [`Context::meet`](grb_context::Context::meet) does. Where the other sits in a later one, the member first looks and moves as far as it
    /// can. Where the member sits in a later one it learns nothing, since each generation begins with all of those before it. The answer
    /// tells which it was. `Panic` as of `Context::meet`. Takes no memory (own).
    pub fn meet(&mut self, other: &mut Member) -> Result<Meeting, Refusal>
        requires chain { self.old.chain ≡ other.old.chain }
        ensures meets { Meets self.old self.new other.old result }
        ensures together { self.old.generation ≡ other.old.generation → MeetsNow self.old self.new other.old result }
        ensures ahead { other.old.generation < self.old.generation → (result ≡ Ok Meeting.Ahead) × (self.new ≡ self.old) }
        ensures other { other.new ≡ other.old }
        ensures later { self.old.generation ≤ self.new.generation }
    {
        match self.come_to(other) {
            Meeting::Here => match self.meet_here(other) {
                Ok(()) => Ok(Meeting::Here),
                Err(refusal) => Err(refusal),
            },
            Meeting::Ahead => Ok(Meeting::Ahead),
            Meeting::Behind => Ok(Meeting::Behind),
        }
    }

    /// The same, and where they meet the member keeps also what the other has evaluated, as
    /// [`Context::adopt`](grb_context::Context::adopt) does. Takes memory for what it has to learn; where it is refused, the member evaluates
    /// for itself. `Panic` as of `meet` (own).
    pub fn adopt(&mut self, other: &mut Member) -> Result<Meeting, Refusal>
        requires chain { self.old.chain ≡ other.old.chain }
        ensures meets { Meets self.old self.new other.old result }
        ensures together { self.old.generation ≡ other.old.generation → MeetsNow self.old self.new other.old result }
        ensures ahead { other.old.generation < self.old.generation → (result ≡ Ok Meeting.Ahead) × (self.new ≡ self.old) }
        ensures other { other.new ≡ other.old }
        ensures later { self.old.generation ≤ self.new.generation }
    {
        match self.come_to(other) {
            Meeting::Here => match self.adopt_here(other) {
                Ok(()) => Ok(Meeting::Here),
                Err(refusal) => Err(refusal),
            },
            Meeting::Ahead => Ok(Meeting::Ahead),
            Meeting::Behind => Ok(Meeting::Behind),
        }
    }
}
