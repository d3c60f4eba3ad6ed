//! A generation that goes on where the one before ends: a pass for each member, until that member takes it.
ghost use Rattle.std.specs.Prelude.{◌≡◌, IfSome};

use crate::ended::Ended;
use crate::site::Site;
use crate::told::Told;
use grb_chronicle::Page;
use grb_context::{Context, Pass};
use grb_numbers::Numbers;
use grb_slots::{FitsAt, Slots};
use std::marker::Model;
use std::sync::Arc;

/// A pass that no one has yet, of a store that goes on where one before it ends.
#[derive(Drop)]
pub(crate) struct Seat {
    pub(crate) pass: Pass,
}

impl FitsAt for Seat {
    type Tag = Site;

    ghost use Rattle.grb_generations.specs.Sites.{IsSeatAt};

    ghost fits = { IsSeatAt };
}

/// What the members of one generation share: its store, the numbers by which that is seen, where the pass lies that knew its end, and the
/// passes that no one has taken, that of a member at the member's number; the chain's room, and the number of the generation.
#[derive(Drop)]
pub(crate) struct Next {
    pub(crate) room: u32,
    pub(crate) generation: u64,
    pub(crate) context: Arc<Context>,
    pub(crate) numbers: Arc<Numbers>,
    pub(crate) ending: Arc<Slots<Option<Ended>>>,
    pub(crate) seats: Arc<Slots<Option<Seat>>>,
}

impl Model for Next {
    ghost use Rattle.std.specs.Prelude.{◌≡◌};
    ghost use Rattle.grb_generations.specs.Seated.{Standing};
    ghost use Rattle.grb_generations.specs.Sites.{IsSiteOf};

    ghost Value = { Standing };

    ghost view = { λ s. record { room = s.room; context = s.context.value; numbers = s.numbers.value; generation = s.generation; site = s.ending.value.tag } };

    ghost invariant = { λ s. IsSiteOf s.ending.value.tag s.context.value s.numbers.value s.generation × (s.seats.value.tag ≡ s.ending.value.tag) × (s.ending.value.tag.room ≡ s.room) };
}

impl Next {
    /// Another hold of the same. `None` where 2^63 - 1 have it.
    pub(crate) fn try_clone(&self) -> Option<Next>
        ensures { IfSome result (λ next. next ≡ self.now) }
    {
        Some(Next {
            room: self.room,
            generation: self.generation,
            context: Arc::try_clone(&self.context).ok()?,
            numbers: Arc::try_clone(&self.numbers).ok()?,
            ending: Arc::try_clone(&self.ending).ok()?,
            seats: Arc::try_clone(&self.seats).ok()?,
        })
    }
}

/// A generation after the first that the chain shows, with a page whose last generation it is.
#[derive(Drop)]
pub(crate) struct Shown {
    pub(crate) next: Next,
    pub(crate) page: Page<Told>,
}

impl Model for Shown {
    ghost use Rattle.grb_chronicle.specs.Linked.{IsLast};
    ghost use Rattle.grb_generations.specs.Placed.{IsPlaced};
    ghost use Rattle.grb_generations.specs.Seated.{Showing};

    ghost Value = { Showing };

    ghost view = { λ s. record { next = s.next; page = s.page } };

    ghost invariant = { λ s. IsPlaced s.next.site.page.chain s.next.context s.next.numbers s.next.generation s.page × IsLast s.page.told s.next.site.mark };
}

impl Shown {
    /// Another hold of the same. `None` where 2^63 - 1 have it.
    pub(crate) fn try_clone(&self) -> Option<Shown>
        ensures { IfSome result (λ shown. shown ≡ self.now) }
    {
        let next = self.next.try_clone()?;
        Some(Shown {
            next,
            page: self.page.again(),
        })
    }
}
