//! A member: one thread's seat in a chain of stores.
ghost use Rattle.std.specs.Prelude.{◌≡◌, ◌<◌, ◌≤◌, ◌+◌, ◌-◌, ◌⊎◌, Ok, Err, None, Some, is_some, true, false, All, IfErr, IfOk, IfSome, MatchOption, OnErr};
ghost use Rattle.grb_core.specs.declared.refusal.Refusal.TheVariants as Refusal;
ghost use Rattle.grb_order.specs.Order.{room_of};
ghost use Rattle.grb_order.specs.declared.limits.TheConstants.{MOST_ROOM};
ghost use Rattle.grb_context.specs.Known.{IsPassOf, known};
ghost use Rattle.grb_call.specs.Kinds.{enters};
ghost use Rattle.grb_numbers.specs.Inside.{inside};
ghost use Rattle.grb_numbers.specs.Numbers.{first_numbers};
ghost use Rattle.grb_context.specs.Explains.{entered_calls, is_entered};
ghost use Rattle.grb_context.specs.Answered.{Answered};
ghost use Rattle.grb_generations.specs.Attempts.{Attempts};
ghost use Rattle.grb_generations.specs.Reserve.{HasPlace};
ghost use Rattle.grb_generations.specs.declared.reason.NoGeneration.TheVariants as NoGeneration;
ghost use Rattle.grb_generations.specs.Reasons.{IsMember, IsNoGeneration, TakesSeat};
ghost use mathlib.Core.List.{IsPrefix};
ghost use Rattle.grb_generations.specs.Placed.{IsFirstOf, IsPlaced};
ghost use Rattle.grb_generations.specs.Seated.{Brings, Calls, CallsHere, CallsThere, Comes, GoesOn, IsAtEnd, IsEnded, IsThere, Keeps, Moves, Stays};
ghost use Rattle.grb_generations.specs.Sites.{IsSiteIn, chain_of};

use crate::desk::Left;
use crate::ended::Ended;
use crate::generation::{Next, Shown};
use crate::generations::Generations;
use crate::latest::MOST_LOOKS;
use crate::reason::NoGeneration;
use crate::told::Told;
use grb_call::{Call, MatrixId, Reply};
use grb_chronicle::Page;
use grb_context::{Context, Pass};
use grb_core::Refusal;
use grb_numbers::Numbers;
use grb_slots::Slots;
use std::marker::Model;
use std::sync::Arc;

/// How many generations one call goes on to at most (own).
pub const MOST_MOVES: u32 = 64;

/// What one attempt at a call comes to.
#[derive(Clone, Copy, Debug, PartialEq, Eq)]
pub(crate) enum Attempt {
    /// It was answered, and that answer counts.
    Answered(Result<Reply, Refusal>),
    /// It was not entered, and the member moved to a later generation.
    Moved,
    /// It was not entered, and there is no later generation to be had.
    Stayed,
}

/// What an attempt comes to that was not entered, after a try to go on.
fn went(on: Result<bool, NoGeneration>) -> Attempt
    ensures { (result ≡ Attempt.Moved) ⊎ (result ≡ Attempt.Stayed) }
{
    match on {
        Ok(true) => Attempt::Moved,
        Ok(false) => Attempt::Stayed,
        Err(_) => Attempt::Stayed,
    }
}

/// One thread's seat in a chain of stores: the store of the generation in which it sits, and the pass of it that has the member's number.
/// It may go to another thread. Where it is dropped, another one may take its seat by [`Generations::member`]; so a member that will be idle
/// for long is dropped, and holds no store then.
pub struct Member {
    pub(crate) generations: Arc<Generations>,
    // Of the chain's chronicle, with the generations up to its own.
    pub(crate) page: Page<Told>,
    pub(crate) context: Arc<Context>,
    pub(crate) numbers: Arc<Numbers>,
    // Where the pass lies that knew the end of its generation, once the next one stands.
    pub(crate) ending: Arc<Slots<Option<Ended>>>,
    pub(crate) pass: Pass,
    pub(crate) generation: u64,
    // Why its last try to go on from there failed.
    pub(crate) reason: Option<NoGeneration>,
}

impl Model for Member {
    ghost use Rattle.grb_generations.specs.Reasons.{IsMember};
    ghost use Rattle.grb_generations.specs.Seated.{Seated};
    ghost use Rattle.grb_generations.specs.Sites.{IsSiteIn};

    ghost Value = { Seated };

    ghost view = { λ m. record { chain = m.generations.value; page = m.page; context = m.context.value; numbers = m.numbers.value; pass = m.pass; generation = m.generation; reason = m.reason } };

    ghost invariant = { λ m. IsMember (record { chain = m.generations.value; page = m.page; context = m.context.value; numbers = m.numbers.value; pass = m.pass; generation = m.generation; reason = m.reason }) × IsSiteIn m.ending.value.tag m.generations.value.book m.context.value m.generation };
}

impl Drop for Member {
    fn drop(self) {
        let Member {
            generations,
            page,
            context,
            numbers,
            ending,
            pass,
            generation,
            reason: _,
        } = self;
        generations.leave(Left {
            room: generations.room,
            members: generations.members,
            page,
            context,
            numbers,
            ending,
            pass,
            generation,
        });
    }
}

impl Member {
    /// A member that sits in the first generation.
    pub(crate) fn new(
        generations: Arc<Generations>,
        page: Page<Told>,
        context: Arc<Context>,
        numbers: Arc<Numbers>,
        ending: Arc<Slots<Option<Ended>>>,
        pass: Pass,
    ) -> Member
        requires placed { IsPlaced generations.value.book context.value numbers.value 0 page }
        requires site { IsSiteIn ending.value.tag generations.value.book context.value 0 }
        requires pass { IsPassOf context.value pass }
        requires numbers { numbers.value ≡ first_numbers }
        requires room { generations.value.room ≡ room_of context.value.order }
        requires most { generations.value.room ≤ MOST_ROOM }
        requires first { IsFirstOf page.told }
        requires passes { pass.view.passes ≡ generations.value.members }
        ensures { result ≡ record { chain = generations.value; page = page; context = context.value; numbers = first_numbers; pass = pass; generation = 0; reason = None } }
    {
        Member {
            generations,
            page,
            context,
            numbers,
            ending,
            pass,
            generation: 0,
            reason: None,
        }
    }

    /// A member that has the seat which another one left. None where 2^63 - 1 hold the chain.
    pub(crate) fn again(generations: &Arc<Generations>, left: Left) -> Option<Member>
        requires { left.chain ≡ generations.now.value }
        ensures same { IfSome result (λ m. m ≡ left) }
        ensures member { IfSome result IsMember }
        ensures reason { IfSome result (λ m. m.reason ≡ None) }
    {
        let Ok(generations) = Arc::try_clone(generations) else {
            return None;
        };
        let Left {
            room: _,
            members: _,
            page,
            context,
            numbers,
            ending,
            pass,
            generation,
        } = left;
        Some(Member {
            generations,
            page,
            context,
            numbers,
            ending,
            pass,
            generation,
            reason: None,
        })
    }

    /// The number of the generation in which the member sits, from 0. Takes no memory.
    pub fn generation(&self) -> u64
        ensures { result ≡ self.now.generation }
    {
        self.generation
    }

    /// The member's number, which is that of its pass in each generation. Takes no memory.
    pub fn number(&self) -> u32
        ensures { result ≡ self.now.pass.view.number }
    {
        self.pass.number()
    }

    /// What the members share.
    pub fn generations(&self) -> &Arc<Generations>
        ensures { result.now.value ≡ self.now.chain }
    {
        &self.generations
    }

    /// The store of the generation in which the member sits. Who clones the `Arc` keeps that store when all members have left it.
    pub fn context(&self) -> &Arc<Context>
        ensures { result.now.value ≡ self.now.context }
    {
        &self.context
    }

    /// The member's pass in the generation in which it sits: what it knows there, its last statuses and counts, and objects that lie ready, all
    /// by the numbers of [`Member::numbers`]. A move to another generation begins all of these anew: no object has a status, and no call is
    /// settled.
    pub fn pass(&self) -> &Pass
        ensures { result.now ≡ self.now.pass }
    {
        &self.pass
    }

    /// Which number an object of the generation has in its store, and which its users have. Takes no memory.
    pub fn numbers(&self) -> &Arc<Numbers>
        ensures { result.now.value ≡ self.now.numbers }
    {
        &self.numbers
    }

    /// Why the member's last try to go on from the generation in which it sits failed; none where it did not. After an answer `OrderFull` it is
    /// there. A member that stands at the end of its generation learns nothing more there, so what it says of the store stays true. Takes no
    /// memory (own).
    pub fn reason(&self) -> Option<NoGeneration>
        ensures reason { result ≡ self.now.reason }
        ensures holds { IfSome result (IsNoGeneration self.now.chain self.now.numbers self.now.pass) }
    {
        self.reason
    }

    /// Makes one call, as on one store that never ends. It waits for no other thread without a bound.
    ///
    /// The answer is that of a call by the member's pass in the generation in which it then sits. It takes in every change that any member
    /// was answered before the call began: no generation takes a call before the one before it is full; and where the member's own is full,
    /// it looks after the answer whether a later one stands, moves there if so, and makes the call again, unless it was entered. That holds
    /// for a call that only reads and for one that was refused too. The exceptions are a call during which others fill [`MOST_MOVES`]
    /// generations, and one that finds the place of the latest generation being changed at each of [`MOST_LOOKS`](crate::MOST_LOOKS) looks:
    /// it is answered as of the end of the generation in which it sits.
    ///
    /// A change that finds its generation full has the member make the next one, or wait a bounded time for another member that makes it,
    /// and is made there. `OrderFull` says that it was made nowhere, since the generation is full and the next one was not to be had: memory
    /// or a record is refused, or a bound was reached; or the call makes an object for which the chain has no place; no other call is
    /// refused for that. [`Member::reason`] tells which, and a later call tries again. All other refusals are as of
    /// [`Context::call`].
    ///
    /// Nothing is lost on the way: what the member sees after the call is what it saw before, with calls of others made on it, and then this
    /// one, if it was entered. So a call that was answered `Done` is in every generation to which the member comes.
    ///
    /// Objects keep the numbers that they were given, in all generations, and no number is given twice; one that was freed names no object
    /// for good. The store of a generation numbers what was there anew, so what was freed costs nothing. Of each sort some 4,294,900,000
    /// numbers are given: all but as many as one history takes.
    ///
    /// Takes memory as a call of a context does, and for a generation that it makes (own).
    pub fn call(&mut self, call: Call) -> Result<Reply, Refusal>
        ensures later { self.old.generation ≤ self.new.generation }
        ensures calls { Calls self.old self.new call result }
        ensures keeps { Keeps self.old self.new (entered_calls call result) }
        ensures full { result ≡ Err Refusal.OrderFull → is_some self.new.reason ≡ true }
    {
        let _ = &self.generations;
        match self.attempts(&call) {
            Some(answer) => answer,
            None => self.call_in_place(call),
        }
    }

    /// The answer to the call at the first attempt of which it counts; none where there is no later generation to be had, or so many were.
    /// `OutOfMemory` as of `Context::call`.
    fn attempts(&mut self, call: &Call) -> Option<Result<Reply, Refusal>>
        ensures later { self.old.generation ≤ self.new.generation }
        ensures calls { MatchOption result (Comes self.old self.new) (λ answer. Calls self.old self.new call.now answer) }
        ensures full { result ≡ Some (Err Refusal.OrderFull) → is_some self.new.reason ≡ true }
    {
        'moves: for _ in 0..MOST_MOVES {
            match self.attempt(call) {
                Attempt::Answered(answer) => return Some(answer),
                Attempt::Moved => {}
                Attempt::Stayed => return None,
            }
        }
        None
    }

    /// Moves on where it can, makes a copy of the call there, and goes on to a later generation where the answer may be of a store that
    /// others have left, or the call found no room.
    fn attempt(&mut self, call: &Call) -> Attempt
        ensures later { self.old.generation ≤ self.new.generation }
        ensures attempts { Attempts self.old self.new call.now result }
        ensures full { result ≡ Attempt.Answered (Err Refusal.OrderFull) → is_some self.new.reason ≡ true }
    {
        let Ok(copy) = call.try_clone() else {
            return Attempt::Stayed;
        };
        self.follow();
        self.look_for_place(call);
        let answer = self.call_in_place(copy);
        if !self.is_behind(call, &answer) {
            return Attempt::Answered(answer);
        }
        went(self.go_on())
    }

    /// Makes one call in the generation in which the member sits, by the numbers of its store. `OutOfMemory` as of `Context::call`.
    fn call_inside(&mut self, call: Call) -> Result<Reply, Refusal>
        ensures there { IsThere self.old self.new }
        ensures answered { Answered self.new.context self.old.pass self.new.pass call result }
        ensures full { result ≡ Err Refusal.OrderFull → is_some self.new.reason ≡ true }
    {
        let answer = self.context.call(&mut self.pass, call);
        if answer == Err(Refusal::OrderFull) && self.reason.is_none() {
            self.reason = Some(NoGeneration::Busy);
        }
        answer
    }

    /// The same, of a call and with an answer by the numbers that users have; but one that makes an object for which there is no place is held
    /// back.
    fn call_in_place(&mut self, call: Call) -> Result<Reply, Refusal>
        ensures calls { CallsThere self.old self.new call result }
        ensures full { result ≡ Err Refusal.OrderFull → is_some self.new.reason ≡ true }
    {
        if self.is_crowded_for(&call) {
            return self.hold_back();
        }
        self.call_there(call)
    }

    /// Refuses a call for which there is no place.
    fn hold_back(&mut self) -> Result<Reply, Refusal>
        requires { HasPlace self.old.chain (room_of self.old.pass.order) (known self.old.pass) → ⊥ }
        ensures same { self.new ≡ record self.old { reason = Some NoGeneration.Crowded } }
        ensures full { result ≡ Err Refusal.OrderFull }
    {
        let _why = self.because(NoGeneration::Crowded);
        Err(Refusal::OrderFull)
    }

    /// One call in the generation in which the member sits, by the numbers that users have.
    fn call_there(&mut self, call: Call) -> Result<Reply, Refusal>
        ensures calls { CallsHere self.old self.new call result }
        ensures full { result ≡ Err Refusal.OrderFull → is_some self.new.reason ≡ true }
    {
        let inner = self.numbers.inside(call);
        let answer = self.call_inside(inner);
        self.numbers.outside_reply(answer)
    }

    /// Learns the newest words, by a call that is refused and has no status.
    pub(crate) fn look(&mut self)
        ensures comes { Comes self.old self.new }
        ensures generation { self.new.generation ≡ self.old.generation }
    {
        let none = MatrixId(u32::MAX);
        let _refused = self.call_inside(Call::SizeMatrix { a: none });
    }

    /// Whether others have left its generation, as far as it looks.
    fn is_left(&self) -> bool {
        self.generations.latest() != self.generation
    }

    /// Looks, where others have left its generation, and moves on where it can.
    pub(crate) fn follow(&mut self)
        ensures comes { Comes self.old self.new }
        ensures later { self.old.generation ≤ self.new.generation }
    {
        if self.is_left() {
            self.look();
        }
        let _moved = self.move_on();
    }

    /// Whether the answer to a call may be of a store that others have left, or the call found no room: the generation is full, and the
    /// call was not entered there.
    fn is_behind(&self, call: &Call, answer: &Result<Reply, Refusal>) -> bool
        ensures { result ≡ true → is_entered call.now answer.now ≡ false }
    {
        if !self.pass.is_at_end() {
            return false;
        }
        match answer {
            Ok(_) if call.enters() => false,
            Err(Refusal::OrderFull) => true,
            _ => self.generations.latest() != self.generation,
        }
    }

    /// Goes to the latest generation that stands, where the member's own is full and it knows all of that; whether it moved. There it has
    /// the pass of its number. It never moves before, and makes no generation. Each call begins with it, so a member that only calls needs
    /// it not; one that does not know yet that its generation is full finds that out by a call. No call is left out: the member's pass meets
    /// the one that the next generation was made of, and both know one history. Takes no memory, and waits for no other thread without a
    /// bound (own).
    pub fn move_on(&mut self) -> bool
        ensures moved { result ≡ true → Moves self.old self.new }
        ensures stayed { result ≡ false → self.new ≡ self.old }
        ensures later { self.old.generation ≤ self.new.generation }
    {
        if !self.pass.is_at_end() || !self.is_left() {
            return false;
        }
        let Some((shown, pass)) = self.next_seat() else {
            return false;
        };
        self.sit(shown, pass);
        true
    }

    /// The latest generation with the pass of the member's number in it, where no call of the member's generation is left out of that. None
    /// where there is no such generation yet, no such pass, or others had the place of one of them at each of so many looks.
    fn next_seat(&mut self) -> Option<(Shown, Pass)>
        requires end { IsAtEnd self.old.pass }
        ensures same { self.new ≡ self.old }
        ensures chain { IfSome result (λ taken. chain_of taken.0.next.site ≡ self.old.chain) }
        ensures carries { IfSome result (λ taken. Brings self.old taken.0.page) }
        ensures number { IfSome result (λ taken. taken.1.view.number ≡ self.old.pass.view.number) }
        ensures goes_on { IfSome result (λ taken. GoesOn self.old.chain.room self.old.chain.members taken.0.next.site.mark taken.1) }
    {
        let Some(page) = self.ended() else {
            return None;
        };
        let number = self.pass.number();
        self.generations.seat_after(&self.page, &page, number)
    }

    /// A page on which the generation after the member's own stands, which was made of just what the member's pass knows: so its meeting with
    /// the pass tells that it was made of. None where there is no such generation yet, or others had that pass at each of so many looks.
    fn ended(&mut self) -> Option<Page<Told>>
        requires end { IsAtEnd self.old.pass }
        ensures same { self.new ≡ self.old }
        ensures ended { IfSome result (IsEnded self.old) }
    {
        let (found, claim) = self.ending.claim_within(MOST_LOOKS, 0)?;
        let Some(mut ended) = found else {
            self.ending.give(claim, None);
            return None;
        };
        let met = self.context.meet(&mut ended.pass, &mut self.pass);
        let page = ended.page.again();
        self.ending.give(claim, Some(ended));
        if met.is_err() {
            return None;
        }
        Some(page)
    }

    /// Takes the pass of the generation.
    fn sit(&mut self, shown: Shown, pass: Pass)
        requires end { IsAtEnd self.old.pass }
        requires chain { chain_of shown.next.site ≡ self.old.chain }
        requires carries { Brings self.old shown.page }
        requires number { pass.view.number ≡ self.old.pass.view.number }
        requires goes_on { GoesOn self.old.chain.room self.old.chain.members shown.next.site.mark pass }
        ensures { Moves self.old self.new }
    {
        let Shown { next, page } = shown;
        let Next {
            room: _,
            generation,
            context,
            numbers,
            ending,
            seats: _,
        } = next;
        self.page = page;
        self.context = context;
        self.numbers = numbers;
        self.ending = ending;
        self.pass = pass;
        self.generation = generation;
        self.reason = None;
    }

    /// A member of this number, as [`Generations::member`] gives one, which sits in no earlier generation than this one. Takes no memory (own).
    pub fn seat(&self, number: u32) -> Option<Member>
        ensures seat { IfSome result (TakesSeat self.now.chain number) }
        ensures newest { IfSome result (λ m. IsPrefix self.now.page.told m.page.told) }
    {
        let member = Generations::member(&self.generations, number)?;
        if !self.page.begins(&member.page) {
            return None;
        }
        Some(member)
    }

    /// Goes to a later generation, where the member's own is full and it knows all of that; whether it moved. Where none stands it makes
    /// the next one of all that it knows, or waits a bounded time for another member that set out to make it.
    ///
    /// [`NoGeneration`] says why there is none, and [`Member::reason`] says it until the member moves. The member then sits where it sat, and may
    /// try again. A call that finds no room does this by itself: it is for who was answered `OrderFull`, and for who makes the next
    /// generation ahead of the call that needs it (own).
    pub fn go_on(&mut self) -> Result<bool, NoGeneration>
        ensures moved { result ≡ Ok true → Moves self.old self.new }
        ensures stayed { result ≡ Ok false → Stays self.old self.new }
        ensures room { result ≡ Ok false → IsAtEnd self.old.pass → ⊥ }
        ensures err { OnErr result (Stays self.old self.new) }
        ensures end { OnErr result (IsAtEnd self.old.pass) }
        ensures refused { IfErr result (IsNoGeneration self.old.chain self.old.numbers self.old.pass) }
        ensures reason { IfErr result (λ why. self.new.reason ≡ Some why) }
        ensures later { self.old.generation ≤ self.new.generation }
    {
        if self.move_on() {
            return Ok(true);
        }
        if !self.pass.is_at_end() {
            return Ok(false);
        }
        if self.provide_next()? {
            return Ok(true);
        }
        if self.move_on() {
            return Ok(true);
        }
        Err(self.because(NoGeneration::Busy))
    }

    /// Keeps why there is no next generation.
    fn because(&mut self, why: NoGeneration) -> NoGeneration
        requires { IsNoGeneration self.old.chain self.old.numbers self.old.pass why }
        ensures same { self.new ≡ record self.old { reason = Some why } }
        ensures why { result ≡ why }
    {
        self.reason = Some(why);
        why
    }

    /// Has the next generation made, by another member that set out to make it, in a bounded time, or by this one; whether this one made it,
    /// and moved there. Whether it stands else, no clause says.
    fn provide_next(&mut self) -> Result<bool, NoGeneration>
        requires end { IsAtEnd self.old.pass }
        ensures moved { result ≡ Ok true → Moves self.old self.new }
        ensures stayed { result ≡ Ok false → Stays self.old self.new }
        ensures err { OnErr result (Stays self.old self.new) }
        ensures refused { IfErr result (IsNoGeneration self.old.chain self.old.numbers self.old.pass) }
        ensures reason { IfErr result (λ why. self.new.reason ≡ Some why) }
        ensures later { self.old.generation ≤ self.new.generation }
    {
        let number = match self.generation.checked_add(1) {
            Some(number) => number,
            None => return Ok(false),
        };
        let turn = match self.generations.turn_to_make(number) {
            Some(turn) => turn,
            None => return Ok(false),
        };
        let made = self.make(turn, number);
        self.generations.ends(turn, number);
        match made {
            Ok(moved) => Ok(moved),
            Err(why) => Err(self.because(why)),
        }
    }
}
