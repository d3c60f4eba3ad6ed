//! The next generation of a chain, as the member makes it that knows the end of its own.
ghost use Rattle.std.specs.Prelude.{◌≡◌, ◌<◌, ◌+◌, ◌^◌, false, true, Ok, Some, length, slice_get, All, IfErr, IfOk, IfSome, OnErr};
ghost use Rattle.grb_chronicle.specs.Linked.{MayFollow};
ghost use Rattle.grb_order.specs.Order.{room_of};
ghost use Rattle.grb_call.specs.History.{store_of};
ghost use Rattle.grb_context.specs.Chosen.{IsNoSuccessor, NamesLive, room_beside};
ghost use Rattle.grb_context.specs.Known.{Knowing, known};
ghost use Rattle.grb_context.specs.LiveNumbers.{AreLiveObjects};
ghost use Rattle.grb_context.specs.Succeeding.{AreBegun};
ghost use Rattle.grb_numbers.specs.Inside.{outwards, renamed_object};
ghost use Rattle.grb_generations.specs.Follows.{Follows};
ghost use Rattle.grb_generations.specs.Keeping.{Suffice, kept_numbers, kept_store};
ghost use Rattle.grb_generations.specs.Reasons.{IsNoGeneration};
ghost use Rattle.grb_generations.specs.Seated.{GoesOn, IsAtEnd, Moves, Stays};
ghost use Rattle.grb_generations.specs.Sites.{IsPassAt, IsSeatAt, chain_of};
ghost use Rattle.grb_slots.specs.Row.{AllFit};

use crate::ended::Ended;
use crate::generation::{Next, Seat};
use crate::generations::{Generations, ending_at};
use crate::latest::MOST_LOOKS;
use crate::member::Member;
use crate::reason::NoGeneration;
use crate::site::Site;
use crate::told::{Founded, Founding, Told};
use grb_call::{MatrixId, Object, VectorId};
use grb_chronicle::Mark;
use grb_context::{Context, LiveObjects, NoSuccessor, Pass};
use grb_numbers::Numbers;
use grb_slots::Slots;
use std::alloc::{AllocError, Global};
use std::mem::replace;
use std::sync::Arc;

/// What the members of the site's generation are to share, with these seats. `AllocError` where memory is refused.
fn next_at(
    alloc: Global,
    site: &Site,
    context: Arc<Context>,
    numbers: Arc<Numbers>,
    seats: Vec<Option<Seat>>,
) -> Result<Next, AllocError>
    requires context { site.now.mark.context ≡ context.value }
    requires numbers { site.now.mark.numbers ≡ numbers.value }
    requires seats { AllFit (λ k x. IfSome x (IsSeatAt site.now k)) seats.items }
    ensures { IfOk result (λ next. next ≡ record { room = site.now.room; context = context.value; numbers = numbers.value; generation = site.now.generation; site = site.now }) }
{
    let ending = ending_at(alloc, site)?;
    let seats = Arc::new(alloc, Slots::open(alloc, seats, site)?)?;
    Ok(Next {
        room: site.room,
        generation: site.generation,
        context,
        numbers,
        ending,
        seats,
    })
}

/// The passes of the site's generation as its seats, but for that of this number, which comes apart; none where there is none of that number.
/// `AllocError` where memory is refused.
fn seats_at(
    alloc: Global,
    site: &Site,
    number: u32,
    passes: Vec<Pass>,
) -> Result<Option<(Vec<Option<Seat>>, Pass)>, AllocError>
    requires passes { AllFit (IsPassAt site.now) passes.items }
    ensures seats { IfOk result (λ made. IfSome made (λ m. AllFit (λ k x. IfSome x (IsSeatAt site.now k)) m.0.items)) }
    ensures own { IfOk result (λ made. IfSome made (λ m. GoesOn site.now.room site.now.members site.now.mark m.1)) }
    ensures number { IfOk result (λ made. IfSome made (λ m. m.1.view.number ≡ number)) }
{
    let mut own = None;
    let mut seats = Vec::with_capacity(alloc, site.members as usize)?;
    'passes: for pass in passes {
        if pass.number() == number {
            own = Some(pass);
            seats.push(None)?;
        } else {
            seats.push(Some(Seat { pass }))?;
        }
    }
    match own {
        Some(pass) => Ok(Some((seats, pass))),
        None => Ok(None),
    }
}

/// How many calls the history of the first of these passes takes.
fn room_of_first(passes: &Vec<Pass>) -> u64
    requires { 0 < length passes.now.items }
    ensures some { 0 < length passes.now.items }
    ensures room { (p : Knowing) → slice_get passes.now.items 0 ≡ Some p → result ≡ room_of p.order }
{
    let pass = &passes[0];
    u64::from(pass.room_left()) + u64::from(pass.words())
}

/// Whether a history of so many calls gives no number that no object may have.
fn suffice(numbers: &Numbers, room: u64) -> bool
    ensures enough { result ≡ true → Suffice numbers.now room }
    ensures few { result ≡ false → Suffice numbers.now room → ⊥ }
{
    numbers.are_numbers();
    if room > u64::from(u32::MAX) {
        return false;
    }
    let a = numbers.outer_matrix(MatrixId(room as u32));
    let v = numbers.outer_vector(VectorId(room as u32));
    a.0 < u32::MAX && v.0 < u32::MAX
}

/// Whether there are less than 2^32 objects of each sort.
fn are_few(live: &LiveObjects) -> bool
    ensures matrices { result ≡ true → length live.now.matrices.items < 2 ^ 32 }
    ensures vectors { result ≡ true → length live.now.vectors.items < 2 ^ 32 }
{
    live.matrices.len() <= u32::MAX as usize && live.vectors.len() <= u32::MAX as usize
}

impl Member {
    /// Makes the generation after its own, which has this number, of all that the member knows, shows it and moves there, unless another stands
    /// by then, or others have its place; whether it moved. The turn is that of the claim.
    pub(crate) fn make(&mut self, turn: u64, number: u64) -> Result<bool, NoGeneration>
        requires end { IsAtEnd self.old.pass }
        requires number { number ≡ self.old.generation + 1 }
        ensures moved { result ≡ Ok true → Moves self.old self.new }
        ensures stayed { result ≡ Ok false → Stays self.old self.new }
        ensures err { OnErr result (Stays self.old self.new) }
        ensures refused { IfErr result (IsNoGeneration self.old.chain self.old.numbers self.old.pass) }
    {
        let Ok(live) = self.pass.live(self.generations.alloc) else {
            return Err(NoGeneration::OutOfMemory);
        };
        self.make_objects(turn, &live);
        let (context, passes) = self.succeed(&live)?;
        self.show(number, &live, context, passes)
    }

    /// Makes what the object of this inner number holds, where it does not lie ready, and says before how much work that is.
    fn make_one(&mut self, turn: u64, object: Object)
        ensures { Stays self.old self.new }
    {
        let work = self.context.work_left(&mut self.pass, object);
        self.generations.goes_on(turn, work);
        let _unmade = self.context.evaluate(&mut self.pass, object);
    }

    /// The same of all of these objects, one after another. Then it says how much work their store is.
    fn make_objects(&mut self, turn: u64, live: &LiveObjects)
        ensures { Stays self.old self.new }
    {
        let (matrices, vectors) = (live.matrices.len(), live.vectors.len());
        'matrices: for at in 0..matrices {
            self.make_one(turn, Object::Matrix(live.matrices[at]));
        }
        'vectors: for at in 0..vectors {
            self.make_one(turn, Object::Vector(live.vectors[at]));
        }
        let (objects, passes) = (
            (matrices as u64).saturating_add(vectors as u64),
            u64::from(self.generations.members),
        );
        let calls = objects
            .saturating_mul(2)
            .saturating_add(u64::from(self.generations.room));
        self.generations
            .goes_on(turn, calls.saturating_mul(passes + 32));
    }

    /// The store of the objects that are there at the end of the member's generation, and its passes. That is all that its generation
    /// takes, so no call is left out.
    fn succeed(&mut self, live: &LiveObjects) -> Result<(Context, Vec<Pass>), NoGeneration>
        requires end { IsAtEnd self.old.pass }
        requires live { AreLiveObjects (store_of (known self.old.pass)) live.now }
        ensures stays { Stays self.old self.new }
        ensures room { IfOk result (λ next. room_of next.0.order ≡ room_beside (kept_store (store_of (known self.old.pass))) self.old.chain.room) }
        ensures begun { IfOk result (λ next. AreBegun next.0 (kept_store (store_of (known self.old.pass))) self.old.chain.members next.1.items) }
        ensures refused { IfErr result (IsNoGeneration self.old.chain self.old.numbers self.old.pass) }
    {
        if !are_few(live) {
            return Err(NoGeneration::OutOfMemory);
        }
        let alloc = self.generations.alloc;
        let (room, members) = (self.generations.room, self.generations.members);
        match self.branch_inside(alloc, &live.matrices, &live.vectors, room, members) {
            Ok(next) => Ok(next),
            Err(why) => Err(self.no_generation(why)),
        }
    }

    /// Why there is no next generation, where there is no store of the objects that are there; by the numbers that users have.
    fn no_generation(&self, why: NoSuccessor) -> NoGeneration
        requires end { IsAtEnd self.now.pass }
        requires why { IsNoSuccessor self.now.chain.room self.now.chain.members (kept_store (store_of (known self.now.pass))) why }
        requires named { NamesLive (store_of (known self.now.pass)) why }
        ensures { IsNoGeneration self.now.chain self.now.numbers self.now.pass result }
    {
        match why {
            NoSuccessor::RoomTooSmall { needed } => NoGeneration::RoomTooSmall { needed },
            NoSuccessor::Unmade { object } => NoGeneration::Unmade {
                object: self.outer_object(object),
            },
            NoSuccessor::OutOfMemory => NoGeneration::OutOfMemory,
            NoSuccessor::Panic => NoGeneration::Panic,
        }
    }

    /// The object by the number that users have.
    pub(crate) fn outer_object(&self, object: Object) -> Object
        ensures { result ≡ renamed_object (outwards self.now.numbers) object }
    {
        match object {
            Object::Matrix(a) => Object::Matrix(self.numbers.outer_matrix(a)),
            Object::Vector(v) => Object::Vector(self.numbers.outer_vector(v)),
        }
    }

    /// The numbers by which the next generation is seen as this one. `AllocError` where memory is refused.
    fn next_numbers(&self, live: &LiveObjects) -> Result<Numbers, AllocError>
        requires end { IsAtEnd self.now.pass }
        requires live { AreLiveObjects (store_of (known self.now.pass)) live.now }
        ensures { IfOk result (λ n. n ≡ kept_numbers self.now.numbers (store_of (known self.now.pass))) }
    {
        self.numbers.are_numbers();
        self.numbers.next(
            self.generations.alloc,
            &live.matrices,
            live.matrix_count,
            &live.vectors,
            live.vector_count,
        )
    }

    /// Shows the store of the objects that are there as the generation of this number and moves there, unless another stands by then; whether
    /// it moved.
    fn show(
        &mut self,
        number: u64,
        live: &LiveObjects,
        context: Context,
        passes: Vec<Pass>,
    ) -> Result<bool, NoGeneration>
        requires end { IsAtEnd self.old.pass }
        requires number { number ≡ self.old.generation + 1 }
        requires live { AreLiveObjects (store_of (known self.old.pass)) live.now }
        requires room { room_of context.order ≡ room_beside (kept_store (store_of (known self.old.pass))) self.old.chain.room }
        requires begun { AreBegun context (kept_store (store_of (known self.old.pass))) self.old.chain.members passes.items }
        ensures moved { result ≡ Ok true → Moves self.old self.new }
        ensures stayed { result ≡ Ok false → self.new ≡ self.old }
        ensures err { OnErr result (self.new ≡ self.old) }
        ensures refused { IfErr result (IsNoGeneration self.old.chain self.old.numbers self.old.pass) }
    {
        let numbers = self.numbers_for(live, &context, &passes)?;
        match self.show_with(number, numbers, context, passes) {
            Ok(moved) => Ok(moved),
            Err(AllocError) => Err(NoGeneration::OutOfMemory),
        }
    }

    /// The numbers by which the next generation is seen, which has this store and these passes, and which suffice for its history.
    fn numbers_for(
        &self,
        live: &LiveObjects,
        context: &Context,
        passes: &Vec<Pass>,
    ) -> Result<Numbers, NoGeneration>
        requires end { IsAtEnd self.now.pass }
        requires live { AreLiveObjects (store_of (known self.now.pass)) live.now }
        requires room { room_of context.now.order ≡ room_beside (kept_store (store_of (known self.now.pass))) self.now.chain.room }
        requires begun { AreBegun context.now (kept_store (store_of (known self.now.pass))) self.now.chain.members passes.now.items }
        ensures numbers { IfOk result (λ n. n ≡ kept_numbers self.now.numbers (store_of (known self.now.pass))) }
        ensures suffice { IfOk result (λ n. Suffice n (room_of context.now.order)) }
        ensures refused { IfErr result (IsNoGeneration self.now.chain self.now.numbers self.now.pass) }
    {
        let Ok(numbers) = self.next_numbers(live) else {
            return Err(NoGeneration::OutOfMemory);
        };
        if passes.is_empty() {
            return Err(NoGeneration::Busy);
        }
        if !suffice(&numbers, room_of_first(passes)) {
            return Err(NoGeneration::NumbersSpent);
        }
        Ok(numbers)
    }

    /// The same, with these numbers. `AllocError` where memory is refused.
    fn show_with(
        &mut self,
        number: u64,
        numbers: Numbers,
        context: Context,
        passes: Vec<Pass>,
    ) -> Result<bool, AllocError>
        requires end { IsAtEnd self.old.pass }
        requires number { number ≡ self.old.generation + 1 }
        requires numbers { numbers ≡ kept_numbers self.old.numbers (store_of (known self.old.pass)) }
        requires suffice { Suffice numbers (room_of context.order) }
        requires room { room_of context.order ≡ room_beside (kept_store (store_of (known self.old.pass))) self.old.chain.room }
        requires begun { AreBegun context (kept_store (store_of (known self.old.pass))) self.old.chain.members passes.items }
        ensures moved { result ≡ Ok true → Moves self.old self.new }
        ensures stayed { result ≡ Ok false → self.new ≡ self.old }
        ensures err { OnErr result (self.new ≡ self.old) }
    {
        let alloc = self.generations.alloc;
        let context = Arc::new(alloc, context)?;
        let numbers = Arc::new(alloc, numbers)?;
        self.show_shared(number, numbers, context, passes)
    }

    /// The same, of a store and numbers that its members share.
    fn show_shared(
        &mut self,
        number: u64,
        numbers: Arc<Numbers>,
        context: Arc<Context>,
        passes: Vec<Pass>,
    ) -> Result<bool, AllocError>
        requires end { IsAtEnd self.old.pass }
        requires number { number ≡ self.old.generation + 1 }
        requires numbers { numbers.value ≡ kept_numbers self.old.numbers (store_of (known self.old.pass)) }
        requires suffice { Suffice numbers.value (room_of context.value.order) }
        requires room { room_of context.value.order ≡ room_beside (kept_store (store_of (known self.old.pass))) self.old.chain.room }
        requires begun { AreBegun context.value (kept_store (store_of (known self.old.pass))) self.old.chain.members passes.items }
        ensures moved { result ≡ Ok true → Moves self.old self.new }
        ensures stayed { result ≡ Ok false → self.new ≡ self.old }
        ensures err { OnErr result (self.new ≡ self.old) }
    {
        let site = self.next_site(number, &context, &numbers);
        let alloc = self.generations.alloc;
        let Some((seats, own)) = seats_at(alloc, &site, self.pass.number(), passes)? else {
            return Ok(false);
        };
        let next = next_at(alloc, &site, context, numbers, seats)?;
        Ok(self.turn_to(&site.mark, next, own))
    }

    /// Shows the next generation and moves there, as `turn` does, unless 2^63 - 1 hold a part of it; whether it moved.
    fn turn_to(&mut self, mark: &Mark<Told>, next: Next, own: Pass) -> bool
        requires end { IsAtEnd self.old.pass }
        requires follows { MayFollow Follows self.old.page.told mark.now }
        requires told { mark.now ≡ record { context = next.context; numbers = next.numbers; last = self.old.pass } }
        requires chain { chain_of next.site ≡ self.old.chain }
        requires site { next.site.mark ≡ mark.now }
        requires number { next.generation ≡ self.old.generation + 1 }
        requires own { own.view.number ≡ self.old.pass.view.number }
        requires goes_on { GoesOn self.old.chain.room self.old.chain.members mark.now own }
        ensures moved { result ≡ true → Moves self.old self.new }
        ensures stayed { result ≡ false → self.new ≡ self.old }
    {
        let Some(copy) = next.try_clone() else {
            return false;
        };
        self.turn(mark, next, copy, own)
    }

    /// The site of the next generation, with this store and these numbers.
    fn next_site(&self, number: u64, context: &Arc<Context>, numbers: &Arc<Numbers>) -> Site
        ensures chain { chain_of result ≡ self.now.chain }
        ensures generation { result.generation ≡ number }
        ensures told { result.mark ≡ record { context = context.now.value; numbers = numbers.now.value; last = self.now.pass } }
    {
        let mark = Mark::of::<Founding<'_>, Founded>(&Founding {
            context,
            numbers,
            last: &self.pass,
        });
        Site {
            room: self.generations.room,
            members: self.generations.members,
            page: self.page.again(),
            generation: number,
            mark,
        }
    }

    /// Shows the next generation with this mark in the chronicle and moves there, with this pass of it, unless the chronicle tells of another
    /// next one, or others have its place or that of the own end at each of so many looks; whether it moved. The member's pass is left at
    /// the end of its generation, for the members that come after. Takes no memory.
    fn turn(&mut self, mark: &Mark<Told>, next: Next, copy: Next, own: Pass) -> bool
        requires end { IsAtEnd self.old.pass }
        requires follows { MayFollow Follows self.old.page.told mark.now }
        requires told { mark.now ≡ record { context = next.context; numbers = next.numbers; last = self.old.pass } }
        requires copy { copy ≡ next }
        requires chain { chain_of next.site ≡ self.old.chain }
        requires site { next.site.mark ≡ mark.now }
        requires number { next.generation ≡ self.old.generation + 1 }
        requires own { own.view.number ≡ self.old.pass.view.number }
        requires goes_on { GoesOn self.old.chain.room self.old.chain.members mark.now own }
        ensures moved { result ≡ true → Moves self.old self.new }
        ensures stayed { result ≡ false → self.new ≡ self.old }
    {
        let Some((before, claim)) = self.ending.claim_within(MOST_LOOKS, 0) else {
            return false;
        };
        let mut page = self.page.again();
        if !self.generations.latest.turn(&mut page, mark, next) {
            self.ending.give(claim, before);
            return false;
        }
        let _linked = page.number();
        self.generations.clear(copy.generation);
        let Next {
            room: _,
            generation,
            context,
            numbers,
            ending,
            seats: _,
        } = copy;
        let last = replace(&mut self.pass, own);
        let ended = Ended {
            pass: last,
            page: page.again(),
        };
        self.ending.give(claim, Some(ended));
        self.page = page;
        self.context = context;
        self.numbers = numbers;
        self.ending = ending;
        self.generation = generation;
        self.reason = None;
        true
    }
}
