//! What the members of a chain of stores share.
ghost use Rattle.std.specs.Prelude.{◌≡◌, ◌<◌, ◌≤◌, ◌*◌, [], None, length, All, IfOk, IfSome};
ghost use mathlib.Core.List.{IsPrefix};
ghost use Rattle.grb_order.specs.Order.{room_of};
ghost use Rattle.grb_order.specs.declared.limits.TheConstants.{MOST_PASSES, MOST_ROOM, MOST_SEATS};
ghost use Rattle.grb_context.specs.Known.{AreNew, IsPassOf, known};
ghost use Rattle.grb_generations.specs.Chain.{IsChain};
ghost use Rattle.grb_generations.specs.Placed.{IsFirstOf, IsPlaced};
ghost use Rattle.grb_generations.specs.Reasons.{TakesSeat};
ghost use Rattle.grb_generations.specs.Seated.{AreNewMembers, GoesOn, ShareTheFirst};
ghost use Rattle.grb_generations.specs.Sites.{IsSiteIn, chain_of};
ghost use Rattle.grb_numbers.specs.Numbers.{first_numbers};

use crate::desk::{Desks, Left};
use crate::ended::Ended;
use crate::generation::{Next, Seat, Shown};
use crate::latest::Latest;
use crate::member::Member;
use crate::site::Site;
use crate::told::{Founded, Founding, Told};
use grb_chronicle::{Chronicle, Mark, Page};
use grb_context::{Context, Pass};
use grb_numbers::Numbers;
use grb_slots::Slots;
use std::alloc::{AllocError, Global};
use std::marker::Model;
use std::sync::Arc;
use std::sync::atomic::AtomicU64;

/// A chain of stores: the latest of them, and the sizes that all have. Threads share it by the members that they have.
#[derive(Drop)]
pub struct Generations {
    pub(crate) latest: Latest,
    // To make the next generation.
    pub(crate) claim: AtomicU64,
    desks: Desks,
    pub(crate) alloc: Global,
    pub(crate) room: u32,
    pub(crate) members: u32,
}

impl Model for Generations {
    ghost use Rattle.std.specs.Prelude.{◌≡◌};
    ghost use Rattle.grb_generations.specs.Chain.{Chain, IsChain};

    ghost Value = { Chain };

    ghost view = { λ g. record { room = g.room; members = g.members; book = g.latest.book } };

    ghost invariant = { λ g. IsChain g.room g.members × (g.latest ≡ record { room = g.room; members = g.members; book = g.latest.book }) × (g.desks ≡ g.latest) };
}

/// A member for each of the passes, by their numbers, all of which share this context and know no call of it. `AllocError` where memory is
/// refused; then the passes are dropped.
fn members_of(
    alloc: Global,
    generations: &Arc<Generations>,
    page: &Page<Told>,
    context: &Arc<Context>,
    numbers: &Arc<Numbers>,
    ending: &Arc<Slots<Option<Ended>>>,
    passes: Vec<Pass>,
) -> Result<Vec<Member>, AllocError>
    requires numbers { numbers.now.value ≡ first_numbers }
    requires placed { IsPlaced generations.now.value.book context.now.value numbers.now.value 0 page.now }
    requires site { IsSiteIn ending.now.value.tag generations.now.value.book context.now.value 0 }
    requires room { generations.now.value.room ≡ room_of context.now.value.order }
    requires most { generations.now.value.room ≤ MOST_ROOM }
    requires first { IsFirstOf page.now.told }
    requires all { generations.now.value.members ≡ length passes.items }
    requires ours { All (IsPassOf context.now.value) passes.items }
    requires new { AreNew context.now.value.order (length passes.items) passes.items (length passes.items) }
    ensures count { IfOk result (λ members. length members.items ≡ length passes.items) }
    ensures members { IfOk result (λ members. AreNewMembers generations.now.value context.now.value members.items (length members.items)) }
{
    let mut members = Vec::with_capacity(alloc, passes.len())?;
    'passes: for pass in passes {
        let member = member_of(generations, page, context, numbers, ending, pass)?;
        members.push(member)?;
    }
    Ok(members)
}

/// A member of the first generation with this pass. `AllocError` where 2^63 - 1 hold a part of that.
fn member_of(
    generations: &Arc<Generations>,
    page: &Page<Told>,
    context: &Arc<Context>,
    numbers: &Arc<Numbers>,
    ending: &Arc<Slots<Option<Ended>>>,
    pass: Pass,
) -> Result<Member, AllocError>
    requires numbers { numbers.now.value ≡ first_numbers }
    requires placed { IsPlaced generations.now.value.book context.now.value numbers.now.value 0 page.now }
    requires site { IsSiteIn ending.now.value.tag generations.now.value.book context.now.value 0 }
    requires room { generations.now.value.room ≡ room_of context.now.value.order }
    requires most { generations.now.value.room ≤ MOST_ROOM }
    requires first { IsFirstOf page.now.told }
    requires pass { IsPassOf context.now.value pass }
    requires passes { pass.view.passes ≡ generations.now.value.members }
    ensures { IfOk result (λ m. m ≡ record { chain = generations.now.value; page = page.now; context = context.now.value; numbers = first_numbers; pass = pass; generation = 0; reason = None }) }
{
    let (generations, context, numbers, ending) = held(generations, context, numbers, ending)?;
    let page = page.again();
    Ok(Member::new(generations, page, context, numbers, ending, pass))
}

/// Another hold of each of these. `AllocError` where 2^63 - 1 hold one of them.
fn held(
    generations: &Arc<Generations>,
    context: &Arc<Context>,
    numbers: &Arc<Numbers>,
    ending: &Arc<Slots<Option<Ended>>>,
) -> Result<
    (
        Arc<Generations>,
        Arc<Context>,
        Arc<Numbers>,
        Arc<Slots<Option<Ended>>>,
    ),
    AllocError,
>
    ensures generations { IfOk result (λ h. h.0.value ≡ generations.now.value) }
    ensures context { IfOk result (λ h. h.1.value ≡ context.now.value) }
    ensures numbers { IfOk result (λ h. h.2.value ≡ numbers.now.value) }
    ensures ending { IfOk result (λ h. h.3.value ≡ ending.now.value) }
{
    let generations = Arc::try_clone(generations)?;
    let context = Arc::try_clone(context)?;
    let numbers = Arc::try_clone(numbers)?;
    let ending = Arc::try_clone(ending)?;
    Ok((generations, context, numbers, ending))
}

/// A slot for the pass that will know the end of the site's generation. `AllocError` where memory is refused.
pub(crate) fn ending_at(alloc: Global, site: &Site) -> Result<Arc<Slots<Option<Ended>>>, AllocError>
    ensures { IfOk result (λ ending. ending.value.tag ≡ site.now) }
{
    let ending = Arc::new(alloc, Slots::empty(alloc, 1, site)?)?;
    Ok(ending)
}

/// The site of the first generation of a chain of these sizes, and the chronicle that begins with it.
fn first_site(
    room: u32,
    members: u32,
    context: &Arc<Context>,
    numbers: &Arc<Numbers>,
    last: &Pass,
) -> (Site, Chronicle<Told>)
    requires { known last.now ≡ [] }
    ensures sizes { (result.0.room ≡ room) × (result.0.members ≡ members) × (result.0.generation ≡ 0) }
    ensures context { result.0.mark.context ≡ context.now.value }
    ensures placed { IsPlaced result.1 context.now.value numbers.now.value 0 result.0.page }
    ensures first { IsFirstOf result.0.page.told }
{
    let mark = Mark::of::<Founding<'_>, Founded>(&Founding {
        context,
        numbers,
        last,
    });
    let (chronicle, page) = Chronicle::open(&mark);
    let _linked = page.number();
    let site = Site {
        room,
        members,
        page,
        generation: 0,
        mark,
    };
    (site, chronicle)
}

impl Generations {
    /// A chain whose generations take `room` calls each beside those that begin them, from 1 to `MOST_ROOM`, and so many members, from 1 to
    /// `MOST_PASSES`, which sit in the first: that has the number 0 and an empty store, and the member at index k has the number k. `room`
    /// times `members` is at most `MOST_SEATS`. A later generation begins with one or two calls for each object that is there, and has room
    /// for these too; numbers of freed objects cost nothing. After this memory is taken for the records of entered calls, for evaluation,
    /// and for each further generation; the one before is freed when its last member has left. `AllocError` where memory is refused; then
    /// nothing is made (own).
    pub fn open(
        alloc: Global,
        room: u32,
        members: u32,
    ) -> Result<(Arc<Generations>, Vec<Member>), AllocError>
        requires room { (0 < room) × (room ≤ MOST_ROOM) }
        requires members { (0 < members) × (members ≤ MOST_PASSES) }
        requires seats { room * members ≤ MOST_SEATS }
        ensures chain { IfOk result (λ opened. (opened.0.value.room ≡ room) × (opened.0.value.members ≡ members)) }
        ensures count { IfOk result (λ opened. length opened.1.items ≡ members) }
        ensures members { IfOk result (λ opened. ShareTheFirst opened.0.value opened.1.items) }
    {
        let (context, passes) = Context::open(alloc, room, members)?;
        let context = Arc::new(alloc, context)?;
        let numbers = Arc::new(alloc, Numbers::first(alloc))?;
        let (site, chronicle) = first_site(room, members, &context, &numbers, &passes[0]);
        let ending = ending_at(alloc, &site)?;
        let generations = Generations::at(alloc, &site, chronicle)?;
        let generations = Arc::new(alloc, generations)?;
        let opened = members_of(
            alloc,
            &generations,
            &site.page,
            &context,
            &numbers,
            &ending,
            passes,
        )?;
        Ok((generations, opened))
    }

    /// What the members of a chain with this first site share. `AllocError` where memory is refused.
    fn at(alloc: Global, site: &Site, chronicle: Chronicle<Told>) -> Result<Generations, AllocError>
        requires sizes { IsChain site.now.room site.now.members }
        requires chronicle { site.now.page.chain ≡ chronicle }
        ensures { IfOk result (λ generations. generations ≡ chain_of site.now) }
    {
        Ok(Generations {
            latest: Latest::open(alloc, chronicle, site)?,
            claim: AtomicU64::new(0),
            desks: Desks::open(alloc, site)?,
            alloc,
            room: site.room,
            members: site.members,
        })
    }

    /// A member of this number, where the last one was dropped: in the generation in which that sat, if it is still the latest, and else in
    /// the latest. None where there is no such number, or a member has it; where its seat lay in a generation that others have left, and
    /// that after the next one is not made yet; and where others had the place of the latest at each of so many looks. Takes no memory (own).
    pub fn member(generations: &Arc<Generations>, number: u32) -> Option<Member>
        ensures { IfSome result (TakesSeat generations.now.value number) }
    {
        if !generations.desks.take(number) {
            return None;
        }
        let member = match generations.seat_anew(number) {
            Some(left) => Member::again(generations, left),
            None => None,
        };
        if member.is_none() {
            generations.desks.free(number);
        }
        member
    }

    /// The seat that the last member of this number left, if it is in the latest generation, or that of the latest generation.
    fn seat_anew(&self, number: u32) -> Option<Left>
        ensures chain { IfSome result (λ left. left.chain ≡ self.now) }
        ensures number { IfSome result (λ left. left.pass.view.number ≡ number) }
    {
        if let Some(left) = self.desks.left(number) {
            if left.generation == self.latest.number() {
                return Some(left);
            }
        }
        let shown = self.latest.get()?;
        let (seat, _given) = shown.next.seats.take(number as usize)?;
        Some(self.left_of(shown, seat))
    }

    /// A seat of a generation that no one took, as one that was left.
    fn left_of(&self, shown: Shown, seat: Seat) -> Left
        requires chain { chain_of shown.next.site ≡ self.now }
        requires goes_on { GoesOn self.now.room self.now.members shown.next.site.mark seat.pass }
        ensures chain { result.chain ≡ self.now }
        ensures pass { result.pass ≡ seat.pass }
    {
        let Shown { next, page } = shown;
        let Next {
            room,
            generation,
            context,
            numbers,
            ending,
            seats: _,
        } = next;
        let Seat { pass } = seat;
        Left {
            room,
            members: self.members,
            page,
            context,
            numbers,
            ending,
            pass,
            generation,
        }
    }

    /// Keeps the seat of a member that is dropped, unless others have left its generation, and has its number free.
    pub(crate) fn leave(&self, left: Left)
        requires { left.chain ≡ self.now }
    {
        let number = left.pass.number();
        if left.generation == self.latest.number() {
            self.desks.put(left);
        }
        self.desks.free(number);
    }

    /// Drops the seats that dropped members left in generations before this one.
    pub(crate) fn clear(&self, number: u64) {
        self.desks.clear(number);
    }

    /// The number of the latest generation that stands, from 0. Takes no memory.
    pub fn latest(&self) -> u64 {
        self.latest.number()
    }

    /// The latest generation and the pass of this number in it, where no one has taken that, and both of these pages of the chain begin that
    /// of the generation. None too where others had the place of the latest at each of so many looks. Takes no memory.
    pub(crate) fn seat_after(
        &self,
        own: &Page<Told>,
        page: &Page<Told>,
        number: u32,
    ) -> Option<(Shown, Pass)>
        requires own { own.now.chain ≡ self.now.book }
        requires chain { page.now.chain ≡ self.now.book }
        ensures chain { IfSome result (λ taken. chain_of taken.0.next.site ≡ self.now) }
        ensures goes { IfSome result (λ taken. IsPrefix own.now.told taken.0.page.told) }
        ensures begins { IfSome result (λ taken. IsPrefix page.now.told taken.0.page.told) }
        ensures number { IfSome result (λ taken. taken.1.view.number ≡ number) }
        ensures goes_on { IfSome result (λ taken. GoesOn self.now.room self.now.members taken.0.next.site.mark taken.1) }
    {
        let shown = self.latest.get()?;
        if !own.begins(&shown.page) || !page.begins(&shown.page) {
            return None;
        }
        let (Seat { pass }, _given) = shown.next.seats.take(number as usize)?;
        Some((shown, pass))
    }
}
