//! The order in which the calls of all passes stand.
ghost use Rattle.std.specs.Prelude.{◌≡◌, ◌<◌, ◌≤◌, ◌*◌, [], IfOk};
ghost use Rattle.grb_order.specs.declared.limits.TheConstants.{MOST_PASSES, MOST_PLACES, MOST_WORDS};
ghost use Rattle.grb_order.specs.Steps.{dealing};
ghost use Rattle.grb_order.specs.Order.{AreFresh};

use crate::rule::{Deal, Rule, Size};
use crate::seat::{Seat, TableSeat};
use crate::standing::Standing;
use atomic_table::{Shared, Table};
use std::alloc::{AllocError, Global};
use std::marker::Model;

/// A row of words, of which each is 0 until a seat enters a word of its own there, the first one first.
#[derive(Drop)]
pub struct Order {
    pub(crate) table: Table<(), Standing, Size, Rule, Global>,
}

impl Model for Order {
    ghost use Rattle.std.specs.Prelude.{◌≡◌, ◌<◌};
    ghost use Rattle.atomic_table.specs.Seated.{TableId, table_id_coded};

    ghost Value = { TableId };

    ghost coded = { table_id_coded };

    ghost view = { λ order. order.table.shared.table_id };

    ghost invariant = { λ order. (0 < order.table.shared.table_id.words) × (order.table.shared.table_id.words ≡ order.table.shared.key.room) };
}

type Row = Shared<(), Standing, Size, Rule>;

/// Cuts a seat for each pass off the dealer, each with room for all words of the row. `AllocError` where memory is refused; then all
/// seats are dropped.
fn deal(
    alloc: Global,
    row: &Row,
    mut dealer: TableSeat,
    size: Size,
) -> Result<Vec<Seat>, AllocError>
    requires row { (row.now.key ≡ size) × (row.now.table_id.words ≡ size.room) × (0 < size.room) }
    requires dealer { (dealer.table_id ≡ row.now.table_id) × (dealer.me ≡ (dealing 0 size.passes, [])) }
    requires room { size.room ≤ MOST_WORDS }
    requires passes { size.passes ≤ MOST_PASSES }
    ensures { IfOk result (λ seats. AreFresh row.now.table_id size.passes seats.items size.passes) }
{
    let mut seats = Vec::with_capacity(alloc, size.passes as usize)?;
    for number in 0..size.passes {
        let words = Vec::with_capacity(alloc, size.room as usize)?;
        let table_seat = row.split_seat::<Deal>(&mut dealer);
        seats.push(Seat {
            number,
            room: size.room,
            table_seat,
            words,
        })?;
    }
    Ok(seats)
}

impl Order {
    ghost use Rattle.grb_order.specs.Order.{room_of};

    /// An order with `room` vacant words, from 1 to `MOST_WORDS`, and a seat for each of `passes` passes, from 1 to `MOST_PASSES`, where
    /// `room` times `passes` is at most `MOST_PLACES`: the one at index k has the number k and has learnt no word. All memory is taken here,
    /// the room for each seat's words too. `AllocError` where it is refused; then nothing is made.
    pub fn open(alloc: Global, room: u32, passes: u32) -> Result<(Order, Vec<Seat>), AllocError>
        requires room { (0 < room) × (room ≤ MOST_WORDS) }
        requires passes { (0 < passes) × (passes ≤ MOST_PASSES) }
        requires places { room * passes ≤ MOST_PLACES }
        ensures room { IfOk result (λ opened. room_of opened.0 ≡ room) }
        ensures seats { IfOk result (λ opened. AreFresh opened.0 passes opened.1.items passes) }
    {
        let size = Size { room, passes };
        let vacant = Vec::from_elem(alloc, 0u64, room as usize)?;
        let (table, dealer) = Table::of_words(alloc, &vacant, &size)?;
        let seats = deal(alloc, &table.shared, dealer, size)?;
        Ok((Order { table }, seats))
    }
}
