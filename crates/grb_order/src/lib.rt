//! One growing row of words, which several passes fill in one order for all of them.
//!
//! The row has a fixed number of words, its room. A word is 0 until one seat enters a word of its own there, the first vacant one
//! first, and it never changes again. Each pass has one seat at the row, which learns the words from the first one on. It makes
//! atomic steps on the first word that it has not learnt: a load, and a compare-and-swap from 0; and it is told what another seat has
//! learnt by a note of that seat and a load of each word. Nothing here waits for another thread, and no call after `Order::open`
//! takes memory. What a word stands for is its user's: it has the pass's number and the index of a record.
//!
//! Source: Herlihy, "Wait-free synchronization", 1991, the agreement on each next operation in the universal construction.
#![tactic(auto)]

pub mod laws;
mod limits;
mod order;
mod rule;
mod seat;
mod standing;
mod step;
mod view;
mod word;

pub use limits::{MOST_PASSES, MOST_PLACES, MOST_ROOM, MOST_SEATS, MOST_WORDS};
pub use order::Order;
pub use seat::Seat;
pub use step::{Entered, Look};
pub use view::View;
pub use word::{index_of, number_of};
