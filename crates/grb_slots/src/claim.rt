//! What a thread has of a slot: the slot itself, or that it was given back.
use crate::fits::FitsAt;
use crate::rule::Visitor;
use atomic_table::Seat;
use std::marker::Model;
use std::snapshot::Snapshot;

/// A slot that one thread has for itself, with nothing in it. It is given back by [`Slots::give`](crate::Slots::give), and cannot be
/// dropped. Contracts see the visit: of which row the slot is, its index, and what was found in it.
pub struct Claim<X: FitsAt> {
    pub(crate) seat: Seat<Option<X>, Visitor<X, X::Tag>>,
    pub(crate) at: usize,
    pub(crate) found: Snapshot<X>,
}

impl<X: FitsAt> Model for Claim<X> {
    ghost use Rattle.std.specs.Prelude.{◌≡◌, ◌<◌, ◌∷◌, [], None, Some};
    ghost use Rattle.grb_slots.specs.Row.{Visit};

    ghost Value = { Visit X };

    ghost view = { λ c. record { row = c.seat.table_id; number = c.seat.id; at = c.at; found = c.found.value } };

    ghost invariant = { λ c. (c.seat.me ≡ (record { tag = c.seat.me.0.tag; at = c.at; found = Some c.found.value; left = None }, (c.at, None) ∷ [])) × (c.at < c.seat.table_id.slots) };
}

/// A slot was given back, by who has this: it was opened with what is told here in it, which the next visit to it found or will find. It has
/// no bytes. Contracts see the visit, and what it left.
#[derive(Drop)]
pub struct Given<X: FitsAt> {
    pub(crate) seat: Seat<Option<X>, Visitor<X, X::Tag>>,
    pub(crate) at: usize,
    pub(crate) found: Snapshot<X>,
    pub(crate) left: Snapshot<X>,
}

impl<X: FitsAt> Model for Given<X> {
    ghost use Rattle.std.specs.Prelude.{◌≡◌, [], Some};
    ghost use Rattle.grb_slots.specs.Row.{Giving};

    ghost Value = { Giving X };

    ghost view = { λ g. record { visit = record { row = g.seat.table_id; number = g.seat.id; at = g.at; found = g.found.value }; left = g.left.value } };

    ghost invariant = { λ g. g.seat.me ≡ (record { tag = g.seat.me.0.tag; at = g.at; found = Some g.found.value; left = Some g.left.value }, []) };
}
