//! Looking at the order and entering a call into it: a counted number of steps, whatever other passes do.
//!
//! The order is a row of atomic words, of which 0 is vacant. A seat keeps the words that it has learnt, which begin the row, and each step
//! is made at the first word after these. Both kinds of step are sequentially consistent.
//!
//! 1. `look` loads that word. Another than 0 was entered by another seat, and is learnt. 0 is the end: at this step the order had no word
//!    but those learnt. Where all words of the row are learnt, none is loaded.
//! 2. `enter` is made only where the last look of the seat found 0 there. It compares the word with 0 and, where it is 0 still, writes the
//!    own word in its place, in one step. Else nothing is written, and the word that it found is learnt.
//! 3. `tell` takes a note of the other seat, and compares what both have learnt by loads of the first word; then it loads each word
//!    that the other has learnt and the seat has not.
//!
//! A word is written once and never changes, so none is loaded again to see whether it is still there. No step waits: `look` and `enter`
//! make one at most, and `tell` one for each word that it learns. An exchange that fails has found a word of another seat, which is
//! learnt; so a seat loses no more tries than the row has words. What any step of any seat keeps is the rule of `specs/Rule.antt`.
ghost use Rattle.std.specs.Prelude.{◌≡◌, ◌^◌, ◌<◌, All, drop, length};
ghost use Rattle.grb_order.specs.Word.{StartsWith};
ghost use Rattle.grb_order.specs.View.{is_told, IsOthers, IsSound, LookedLast};
ghost use Rattle.grb_order.specs.Order.{room_of};

use crate::order::Order;
use crate::rule::{Comparing, Entering, Hearing, Looking, Read, Write};
use crate::seat::Seat;
use crate::word::order_word;

/// What a look found after the words that the seat had learnt.
#[derive(Clone, Copy, Debug, PartialEq, Eq)]
pub enum Look {
    /// A word of another seat, which is learnt now.
    Next(u64),
    /// No word: the words learnt are all that the order held at that step.
    Vacant,
    /// All words of the order were learnt before, and no step was made.
    Full,
}

/// How a try to enter a word ended.
#[derive(Clone, Copy, Debug, PartialEq, Eq)]
pub enum Entered {
    /// The own word is entered and learnt.
    Won,
    /// Another seat was first, and its word is learnt.
    Lost(u64),
}

impl Order {
    ghost use Rattle.grb_order.specs.Steps.{Looks, Tries};

    /// Loads the word after those that the seat has learnt, in one atomic step. With all words learnt there is none, and no step is
    /// made. Takes no memory.
    pub fn look(&self, seat: &mut Seat) -> Look
        requires { seat.old.table_id ≡ self.now }
        ensures order { seat.new.table_id ≡ self.now }
        ensures look { Looks (room_of self.now) seat.old.view result seat.new.view }
        ensures sound { IsSound (room_of seat.new.table_id) seat.new.view }
    {
        let at = seat.words.len();
        if at == self.table.word_count() {
            return Look::Full;
        }
        let found = self.table.shared.load::<Looking>(&mut seat.table_seat, at);
        if found == 0 {
            return Look::Vacant;
        }
        seat.words.push_reserved(found);
        Look::Next(found)
    }

    /// Enters the seat's word for the record of this index, unless another seat's word is there by now: one compare-and-swap from 0
    /// of the word after those that the seat has learnt. The seat looked last at just that word, as after `Vacant`. Takes no memory.
    pub fn enter(&self, seat: &mut Seat, index: u64) -> Entered
        requires order { seat.old.table_id ≡ self.now }
        requires looked { LookedLast seat.old.view }
        requires index { index < 2 ^ 48 }
        ensures order { seat.new.table_id ≡ self.now }
        ensures entered { Tries (room_of self.now) index seat.old.view result seat.new.view }
        ensures sound { IsSound (room_of seat.new.table_id) seat.new.view }
    {
        let at = seat.words.len();
        let own = order_word(seat.number, index);
        let row = &self.table.shared;
        let found = row.compare_exchange::<Entering>(&mut seat.table_seat, at, 0, own);
        if found == 0 {
            seat.words.push_reserved(own);
            return Entered::Won;
        }
        seat.words.push_reserved(found);
        Entered::Lost(found)
    }

    /// Tells the seat all that the other has learnt: it goes by a note of the other, and each word that the seat had not learnt
    /// is loaded once. Beside these the first word is loaded three times, by the note and to compare the two. Nothing of the other
    /// changes. Takes no memory.
    pub fn tell(&self, seat: &mut Seat, other: &mut Seat)
        requires seat { seat.old.table_id ≡ self.now }
        requires other { other.old.table_id ≡ self.now }
        ensures order { seat.new.table_id ≡ self.now }
        ensures told { seat.new.view ≡ is_told seat.old.view other.old.view.words }
        ensures known { StartsWith seat.new.view.words other.old.view.words }
        ensures others { All (IsOthers seat.old.view) (drop (length seat.old.view.words) other.old.view.words) }
        ensures other { other.new ≡ other.old }
        ensures sound { IsSound (room_of seat.new.table_id) seat.new.view }
    {
        let row = &self.table.shared;
        let note = row.split_seat::<Write>(&mut other.table_seat);
        row.join_seat::<Read>(&mut seat.table_seat, note);
        row.load::<Comparing>(&mut seat.table_seat, 0);
        while seat.words.len() < other.words.len() {
            let at = seat.words.len();
            let word = row.load::<Hearing>(&mut seat.table_seat, at);
            seat.words.push_reserved(word);
        }
    }
}
