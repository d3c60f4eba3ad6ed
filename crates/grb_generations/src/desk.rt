//! The desks of a chain's numbers: whether a member has each, and the seat that the last one left.
ghost use Rattle.std.specs.Prelude.{◌≡◌, Some, IfOk, IfSome};
ghost use Rattle.grb_generations.specs.Sites.{chain_of};

use crate::ended::Ended;
use crate::latest::MOST_LOOKS;
use crate::site::Site;
use crate::told::Told;
use grb_chronicle::Page;
use grb_context::{Context, Pass};
use grb_numbers::Numbers;
use grb_slots::{FitsAt, Slots};
use std::alloc::{AllocError, Global};
use std::marker::Model;
use std::sync::Arc;
use std::sync::atomic::{AtomicBool, Ordering};

/// A seat that a member left when it was dropped, with the chain's sizes.
#[derive(Drop)]
pub(crate) struct Left {
    pub(crate) room: u32,
    pub(crate) members: u32,
    pub(crate) page: Page<Told>,
    pub(crate) context: Arc<Context>,
    pub(crate) numbers: Arc<Numbers>,
    pub(crate) ending: Arc<Slots<Option<Ended>>>,
    pub(crate) pass: Pass,
    pub(crate) generation: u64,
}

impl Model for Left {
    ghost use Rattle.std.specs.Prelude.{None};
    ghost use Rattle.grb_generations.specs.Reasons.{IsMember};
    ghost use Rattle.grb_generations.specs.Seated.{Seated};
    ghost use Rattle.grb_generations.specs.Sites.{IsSiteIn};

    ghost Value = { Seated };

    ghost view = { λ l. record { chain = record { room = l.room; members = l.members; book = l.page.chain }; page = l.page; context = l.context.value; numbers = l.numbers.value; pass = l.pass; generation = l.generation; reason = None } };

    ghost invariant = { λ l. IsMember (record { chain = record { room = l.room; members = l.members; book = l.page.chain }; page = l.page; context = l.context.value; numbers = l.numbers.value; pass = l.pass; generation = l.generation; reason = None }) × IsSiteIn l.ending.value.tag l.page.chain l.context.value l.generation };
}

impl FitsAt for Left {
    type Tag = Site;

    ghost use Rattle.grb_generations.specs.Sites.{IsLeftIn};

    ghost fits = { IsLeftIn };
}

/// What the members of each number share, of whom one is there at a time. Contracts see the chain.
#[derive(Drop)]
pub(crate) struct Desks {
    // Whether a member has the number.
    taken: Vec<AtomicBool>,
    left: Slots<Option<Left>>,
}

impl Model for Desks {
    ghost use Rattle.grb_generations.specs.Chain.{Chain};
    ghost use Rattle.grb_generations.specs.Sites.{chain_of};

    ghost Value = { Chain };

    ghost view = { λ d. chain_of d.left.tag };
}

impl Desks {
    /// A desk for each number of the site's chain, all of which a member has. `AllocError` where memory is refused.
    pub(crate) fn open(alloc: Global, site: &Site) -> Result<Desks, AllocError>
        ensures { IfOk result (λ desks. desks ≡ chain_of site.now) }
    {
        let mut taken = Vec::with_capacity(alloc, site.members as usize)?;
        'members: for _ in 0..site.members {
            taken.push(AtomicBool::new(true))?;
        }
        Ok(Desks {
            taken,
            left: Slots::empty(alloc, site.members as usize, site)?,
        })
    }

    /// Whether there is such a number, it was free, and is taken now.
    pub(crate) fn take(&self, number: u32) -> bool {
        match self.taken.get(number as usize) {
            Some(taken) => taken
                .compare_exchange(false, true, Ordering::SeqCst, Ordering::SeqCst)
                .is_ok(),
            None => false,
        }
    }

    /// Has the number free for another member.
    pub(crate) fn free(&self, number: u32) {
        if let Some(taken) = self.taken.get(number as usize) {
            taken.store(false, Ordering::SeqCst);
        }
    }

    /// Keeps the seat for the next member of its number. The seat is dropped where another thread has the slot at each of `MOST_LOOKS` looks.
    pub(crate) fn put(&self, left: Left)
        requires { left.chain ≡ self.now }
    {
        let at = left.pass.number() as usize;
        if let Some((_before, claim)) = self.left.claim_within(MOST_LOOKS, at) {
            self.left.give(claim, Some(left));
        }
    }

    /// The seat that was left at this number, if there is one.
    pub(crate) fn left(&self, number: u32) -> Option<Left>
        ensures chain { IfSome result (λ left. left.chain ≡ self.now) }
        ensures number { IfSome result (λ left. left.pass.view.number ≡ number) }
    {
        let (left, claim) = self.left.claim_within(MOST_LOOKS, number as usize)?;
        self.left.give(claim, None);
        left
    }

    /// Drops the seats that were left in generations before this one. A slot that another thread has just then is left to that.
    pub(crate) fn clear(&self, generation: u64) {
        'desks: for at in 0..self.taken.len() {
            if let Some((left, claim)) = self.left.claim(at) {
                self.left.give(claim, newer(left, generation));
            }
        }
    }
}

/// What was left, unless in a generation before this one.
fn newer(left: Option<Left>, generation: u64) -> Option<Left>
    ensures { IfSome result (λ seat. left ≡ Some seat) }
{
    match left {
        Some(left) if left.generation >= generation => Some(left),
        _ => None,
    }
}
