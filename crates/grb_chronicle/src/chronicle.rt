//! The word that a chain's threads share, and what each of them has seen of the chain's generations.
ghost use Rattle.std.specs.Prelude.{◌≡◌, ◌+◌, ◌<◌, ◌^◌, ◌++◌, ◌∷◌, [], length, MatchBool};
ghost use mathlib.Core.List.{IsPrefix};
ghost use Rattle.grb_chronicle.specs.Linked.{AreLinked, IsLonger, MayFollow};

use crate::rule::{Asking, Chained, Law, Nothing, Telling, Turn};
use logbook::{Offer, Seen, Start, Word};
use std::marker::Model;

/// The number of a chain's latest generation, which threads share. Contracts see which chain it is.
#[derive(Drop)]
pub struct Chronicle<E: Chained> {
    latest: Word<E, u64, Law<E>>,
}

impl<E: Chained> Model for Chronicle<E> {
    ghost use Rattle.std.specs.Prelude.{◌≡◌};
    ghost use Rattle.logbook.specs.Pages.{Book, book_coded};
    ghost use Rattle.grb_chronicle.specs.Steps.{head_of};

    ghost Value = { Book };

    ghost coded = { book_coded };

    ghost view = { λ c. c.latest.book };

    ghost invariant = { λ c. c.latest ≡ head_of c.latest.book };
}

/// What is told of one generation, which may be in no chain yet. It has no bytes. Contracts see what is told.
#[derive(Drop)]
pub struct Mark<E: Chained> {
    seen: Seen<E, u64, Law<E>>,
}

impl<E: Chained> Model for Mark<E> {
    ghost use Rattle.std.specs.Prelude.{slice_index_or};

    ghost Value = { E };

    ghost coded = { E.code };

    ghost view = { λ m. slice_index_or m.seen.log 0 E.any };
}

/// How a mark tells of its generation. No value of it is made.
struct Marked;

impl<E: Chained> Telling<Mark<E>, E> for Marked {
    ghost told = { λ mark. mark };
}

/// A beginning of a chain that was seen: the generations up to that of the page's number. Contracts see which chain it is, and what is told
/// of each of these generations.
#[derive(Drop)]
pub struct Page<E: Chained> {
    number: u64,
    seen: Seen<E, u64, Law<E>>,
}

impl<E: Chained> Model for Page<E> {
    ghost use Rattle.std.specs.Prelude.{◌≡◌, ◌+◌, [], length};
    ghost use Rattle.grb_chronicle.specs.Linked.{AreLinked, Reached};

    ghost Value = { Reached E };

    ghost view = { λ p. record { chain = p.seen.book; told = p.seen.log } };

    ghost invariant = { λ p. (length p.seen.log ≡ p.number + 1) × (p.seen.names ≡ []) × AreLinked E.follows p.seen.log };
}

impl<E: Chained> Mark<E> {
    /// The mark of the generation of which this tells. Takes no memory.
    pub fn of<X, M: Telling<X, E>>(generation: &X) -> Mark<E>
        ensures { result ≡ M.told generation.now }
    {
        let (seen, _pens) = Seen::open_row::<X, Asking<M>>(generation, Start::alone(), 1);
        Mark { seen }
    }
}

impl<E: Chained> Chronicle<E> {
    /// The chronicle of a new chain with one generation, which has the number 0, and the page of that. Takes no memory.
    pub fn open(first: &Mark<E>) -> (Chronicle<E>, Page<E>)
        ensures chain { result.1.chain ≡ result.0 }
        ensures told { result.1.told ≡ first.now ∷ [] }
    {
        let (seen, mut pens) = Seen::open_row::<Mark<E>, Asking<Marked>>(first, Start::alone(), 1);
        let mut pen = pens.take();
        let latest = Word::tracked(0, &mut pen);
        (Chronicle { latest }, Page { number: 0, seen })
    }

    /// Adds the generation with this mark after the last one that the page has reached, and says whether it did: not where there is
    /// one more already, which the page has then reached. One step, which waits for no other thread. Takes no memory.
    pub fn turn(&self, page: &mut Page<E>, next: &Mark<E>) -> bool
        requires chain { page.old.chain ≡ self.now }
        requires room { length page.old.told < 2 ^ 64 }
        requires follows { MayFollow E.follows page.old.told next.now }
        ensures chain { page.new.chain ≡ self.now }
        ensures told { MatchBool result (page.new.told ≡ page.old.told ++ next.now ∷ []) (IsLonger page.old.told page.new.told) }
    {
        let mut offer: Offer<E, u64, Law<E>, Nothing> = page
            .seen
            .plain::<Nothing, Mark<E>, Asking<Marked>>(next);
        let mut pen = page.seen.no_pen();
        let number = page.number;
        let found = self
            .latest
            .compare_exchange::<Turn<E>, Nothing>(
                number,
                number + 1,
                &mut page.seen,
                &mut offer,
                &mut pen,
            );
        page.number = if found == number { number + 1 } else { found };
        found == number
    }
}

impl<E: Chained> Page<E> {
    /// The number of the last generation that it has reached, from 0. Takes no memory.
    pub fn number(&self) -> u64
        ensures number { length self.now.told ≡ result + 1 }
        ensures linked { AreLinked E.follows self.now.told }
    {
        self.number
    }

    /// A copy. Takes no memory.
    pub fn again(&self) -> Page<E>
        ensures { result ≡ self.now }
    {
        Page {
            number: self.number,
            seen: self.seen.again(),
        }
    }

    /// Whether the other page of the chain has reached as much; of two pages the one begins the other. Takes no memory.
    pub fn begins(&self, other: &Page<E>) -> bool
        requires chain { self.now.chain ≡ other.now.chain }
        ensures { MatchBool result (IsPrefix self.now.told other.now.told) (IsLonger other.now.told self.now.told) }
    {
        let mut both = self.seen.again();
        both.learn(&other.seen);
        self.number <= other.number
    }
}
