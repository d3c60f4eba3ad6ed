//! The words that a pass has not learnt, up to the end of the context's order.
ghost use Rattle.std.specs.Prelude.{◌≡◌, ◌<◌, ◌^◌};
ghost use Rattle.grb_order.specs.Order.{room_of};
ghost use Rattle.grb_reader.specs.Known.{IsPassOf};
ghost use Rattle.grb_reader.specs.Counting.{Counts};
ghost use Rattle.grb_reader.specs.Learning.{Finds, IsSteady, Learns, LooksAtEnd};

use crate::shared::Shared;
use grb_core::Refusal;
use grb_objects::Helps;
use grb_reader::{End, Reader};

impl<O: Helps> Shared<O> {
    /// Has the reader of a pass learn the order to its end, as [`Reader::learn`] does.
    pub(crate) fn learn(&self, reader: &mut Reader) -> Result<End, Refusal>
        requires pass { IsPassOf self.now reader.old }
        requires few { reader.old.steps < 2 ^ 30 }
        ensures pass { IsPassOf self.now reader.new }
        ensures learns { Learns reader.old reader.new }
        ensures steady { IsSteady reader.new }
        ensures counts { Counts reader.old reader.new }
        ensures made { reader.new.made ≡ reader.old.made }
        ensures looks { LooksAtEnd (room_of self.now.order) reader.old reader.new }
        ensures finds { Finds (room_of self.now.order) reader.old result reader.new }
    {
        reader.learn(&self.order, &self.records)
    }
}
