//! The latest generation that stands: a slot that many look into, and that who made the next one fills as the chronicle tells of it.
ghost use Rattle.std.specs.Prelude.{◌≡◌, ◌++◌, ◌∷◌, [], true, length, IfOk, IfSome};
ghost use Rattle.grb_chronicle.specs.Linked.{MayFollow};
ghost use Rattle.grb_generations.specs.Follows.{Follows};
ghost use Rattle.grb_generations.specs.Sites.{chain_of};

use crate::generation::{Next, Shown};
use crate::site::Site;
use crate::told::Told;
use grb_chronicle::{Chronicle, Mark, Page};
use grb_slots::{FitsAt, Slots};
use std::alloc::{AllocError, Global};
use std::marker::Model;
use std::sync::atomic::{AtomicU64, Ordering};

/// How often a slot that another thread has is looked at before it is given up, with a hint to the processor between: some ten milliseconds
/// (own). No thread has one for longer than it takes to copy what is in it, or for two passes to meet.
pub const MOST_LOOKS: u32 = 1_048_576;

impl FitsAt for Shown {
    type Tag = Site;

    ghost use Rattle.grb_generations.specs.Sites.{IsShownIn};

    ghost fits = { λ site _ shown. IsShownIn site shown };
}

/// The latest generation, which threads share, and the chronicle of the chain. The first generation is not in the slot: its members have
/// their passes from the start. Contracts see the chain.
#[derive(Drop)]
pub(crate) struct Latest {
    place: Slots<Option<Shown>>,
    chronicle: Chronicle<Told>,
    // The number of the generation that is in the slot.
    number: AtomicU64,
}

impl Model for Latest {
    ghost use Rattle.std.specs.Prelude.{◌≡◌};
    ghost use Rattle.grb_generations.specs.Chain.{Chain};
    ghost use Rattle.grb_generations.specs.Sites.{chain_of};

    ghost Value = { Chain };

    ghost view = { λ l. chain_of l.place.tag };

    ghost invariant = { λ l. l.place.tag.page.chain ≡ l.chronicle };
}

impl Latest {
    /// The place of a chain whose first generation this site is at. `AllocError` where memory is refused.
    pub(crate) fn open(
        alloc: Global,
        chronicle: Chronicle<Told>,
        site: &Site,
    ) -> Result<Latest, AllocError>
        requires chronicle { site.now.page.chain ≡ chronicle }
        ensures { IfOk result (λ latest. latest ≡ chain_of site.now) }
    {
        Ok(Latest {
            place: Slots::empty(alloc, 1, site)?,
            chronicle,
            number: AtomicU64::new(0),
        })
    }

    /// The number of the latest generation that stands. Takes no memory.
    pub(crate) fn number(&self) -> u64 {
        self.number.load(Ordering::SeqCst)
    }

    /// The latest generation after the first, with a page on which it is the last. None where there is none yet, and where others had the slot
    /// at each of `MOST_LOOKS` looks. Takes no memory.
    pub(crate) fn get(&self) -> Option<Shown>
        ensures chain { IfSome result (λ shown. chain_of shown.next.site ≡ self.now) }
    {
        let (found, claim) = self.place.claim_within(MOST_LOOKS, 0)?;
        let copy = match &found {
            Some(shown) => shown.try_clone(),
            None => None,
        };
        self.place.give(claim, found);
        copy
    }

    /// Shows this generation as the latest, with this mark in the chronicle, after the one that the page has reached last; whether it did. Not
    /// where the chronicle tells of another generation after that, or others had the slot at each of `MOST_LOOKS` looks. The generation before
    /// is dropped once no one else has it. Takes no memory.
    pub(crate) fn turn(&self, page: &mut Page<Told>, mark: &Mark<Told>, next: Next) -> bool
        requires chain { page.old.chain ≡ self.now.book }
        requires site { chain_of next.site ≡ self.now }
        requires told { next.site.mark ≡ mark.now }
        requires count { length page.old.told ≡ next.generation }
        requires follows { MayFollow Follows page.old.told mark.now }
        ensures chain { page.new.chain ≡ page.old.chain }
        ensures told { result ≡ true → page.new.told ≡ page.old.told ++ mark.now ∷ [] }
    {
        let Some((before, claim)) = self.place.claim_within(MOST_LOOKS, 0) else {
            return false;
        };
        if !self.chronicle.turn(page, mark) {
            self.place.give(claim, before);
            return false;
        }
        self.number.store(next.generation, Ordering::SeqCst);
        let page = page.again();
        let _linked = page.number();
        self.place.give(claim, Some(Shown { next, page }));
        true
    }
}
