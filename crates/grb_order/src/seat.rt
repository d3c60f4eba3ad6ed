//! A pass's seat at the order.
ghost use Rattle.std.specs.Prelude.{◌≡◌, ◌≤◌};
ghost use Rattle.grb_order.specs.declared.limits.TheConstants.{MOST_WORDS};
ghost use Rattle.grb_order.specs.Order.{room_of};

use crate::standing::Standing;
use std::marker::Model;

/// What the table of the order keeps for one seat, and for the dealer and each note: no other can make a step by it.
pub type TableSeat = atomic_table::Seat<(), Standing>;

/// One pass's seat at an order, for one thread at a time: from it the order is read and filled.
#[derive(Drop)]
pub struct Seat {
    pub(crate) number: u32,
    // How many words the order has.
    pub(crate) room: u32,
    pub(crate) table_seat: TableSeat,
    // The words learnt, with room for all words of the order.
    pub(crate) words: Vec<u64>,
}

impl Model for Seat {
    ghost use Rattle.grb_order.specs.Holding.{Holding};

    ghost Value = { Holding };

    ghost use Rattle.grb_order.specs.Seat.{holding, IsSeat};

    ghost view = { holding };

    ghost invariant = { IsSeat };
}

impl Seat {
    ghost use Rattle.grb_order.specs.View.{IsSound};

    /// How many words the order has. Takes no memory.
    pub fn room(&self) -> u32
        ensures room { result ≡ room_of self.now.table_id }
        ensures few { result ≤ MOST_WORDS }
    {
        self.room
    }

    /// The words learnt, from the first of the order on. Takes no memory.
    pub fn words(&self) -> &[u64]
        ensures words { result.now ≡ self.now.view.words }
        ensures sound { IsSound self.now.table_id.words self.now.view }
    {
        &self.words
    }
}
