//! The words that a pass has not learnt, up to the end of the order.
ghost use Rattle.std.specs.Prelude.{◌≡◌, ◌+◌, ◌<◌, ◌≤◌, ◌^◌, length, All, OnOk, IfErr};
ghost use Rattle.grb_order.specs.Order.{room_of};
ghost use Rattle.grb_records.specs.Token.{IsOf};
ghost use Rattle.grb_reader.specs.Known.{known};
ghost use Rattle.grb_reader.specs.Counting.{Counts};
ghost use Rattle.grb_reader.specs.Learning.{Finds, IsSteady, Learns, LooksAtEnd};

use crate::reader::Reader;
use grb_core::Refusal;
use grb_order::{Look, Order, index_of, number_of};
use grb_records::Records;

/// What stands after the words that a pass has learnt.
#[derive(Clone, Copy, Debug, PartialEq, Eq)]
pub enum End {
    /// A vacant word, at the last look.
    Vacant,
    /// No word: the order is full.
    Full,
}

impl Reader {
    /// Has the records of all words learnt shown, unless one is not shown: then `Panic`. Takes no memory and does not wait.
    pub(crate) fn catch_up(&mut self, records: &Records) -> Result<(), Refusal>
        requires of { All (IsOf records.now) self.old.shown }
        ensures order { self.new.order ≡ self.old.order }
        ensures of { All (IsOf records.now) self.new.shown }
        ensures view { self.new.view ≡ self.old.view }
        ensures steps { self.new.steps ≡ self.old.steps }
        ensures learns { Learns self.old self.new }
        ensures steady { IsSteady self.new }
        ensures made { self.new.made ≡ self.old.made }
        ensures all { OnOk result (length self.new.shown ≡ length self.new.view.words) }
        ensures refused { IfErr result (λ refusal. (refusal ≡ Refusal.Panic) × (length (known self.new) < length self.new.view.words)) }
    {
        'unshown: while let Some(word) = self.next_unshown() {
            let Some((call, token)) = records.show(number_of(word), index_of(word)) else {
                return Err(Refusal::Panic);
            };
            self.admit(token, call);
        }
        Ok(())
    }

    /// Learns the order to its end. `Panic` where a record is not shown. Takes no memory and does not wait.
    pub fn learn(&mut self, order: &Order, records: &Records) -> Result<End, Refusal>
        requires order { self.old.order ≡ order.now }
        requires of { All (IsOf records.now) self.old.shown }
        requires few { self.old.steps < 2 ^ 30 }
        ensures order { self.new.order ≡ self.old.order }
        ensures of { All (IsOf records.now) self.new.shown }
        ensures learns { Learns self.old self.new }
        ensures steady { IsSteady self.new }
        ensures counts { Counts self.old self.new }
        ensures made { self.new.made ≡ self.old.made }
        ensures looks { LooksAtEnd (room_of order.now) self.old self.new }
        ensures finds { Finds (room_of order.now) self.old result self.new }
    {
        'words: loop {
            self.catch_up(records)?;
            match self.look(order) {
                Look::Next(_) => {}
                Look::Vacant => return Ok(End::Vacant),
                Look::Full => return Ok(End::Full),
            }
        }
    }
}
