//! What one pass tells another of the calls that it knows.
ghost use Rattle.std.specs.Prelude.{◌≡◌, ◌≤◌, length, All};
ghost use Rattle.grb_order.specs.Word.{StartsWith};
ghost use Rattle.grb_records.specs.Token.{IsOf};
ghost use Rattle.grb_reader.specs.Known.{known, none_made};
ghost use Rattle.grb_reader.specs.Laws.{Begins};
ghost use Rattle.grb_reader.specs.Learning.{IsSteady};
ghost use Rattle.grb_reader.specs.Meeting.{Met};

use crate::reader::Reader;
use grb_core::Refusal;
use grb_order::Order;
use grb_records::Records;

impl Reader {
    /// What the other pass knows begins what the first one knows, since each record has one call. Changes neither; the loop says it for each
    /// record, and compares none.
    fn agree(&mut self, records: &Records, other: &mut Reader)
        requires of { All (IsOf records.now) self.old.shown }
        requires of_other { All (IsOf records.now) other.old.shown }
        requires steady { IsSteady self.old }
        requires steady_other { IsSteady other.old }
        requires words { StartsWith self.old.view.words other.old.view.words }
        requires all { length self.old.shown ≡ length self.old.view.words }
        ensures begins { Begins (known other.old) (known self.old) }
        ensures same { self.new ≡ self.old }
        ensures other { other.new ≡ other.old }
    {
        for at in 0..other.known() as usize {
            self.agree_at(records, other, at);
        }
    }

    /// Lets the reader learn all that the other knows. `Panic` where a record is not shown. Nothing that the other knows changes, whatever is
    /// answered. Takes no memory and does not wait.
    pub fn meet(
        &mut self,
        order: &Order,
        records: &Records,
        other: &mut Reader,
    ) -> Result<(), Refusal>
        requires order { self.old.order ≡ order.now }
        requires of { All (IsOf records.now) self.old.shown }
        requires order_other { other.old.order ≡ order.now }
        requires of_other { All (IsOf records.now) other.old.shown }
        requires begun { self.old.steps ≡ 0 }
        requires made { self.old.made ≡ none_made }
        ensures met { Met (record { order = order.now; records = records.now }) self.old self.new other.old result }
        ensures other { other.new ≡ other.old }
    {
        self.tell(order, other);
        self.catch_up(records)?;
        self.agree(records, other);
        Ok(())
    }
}
