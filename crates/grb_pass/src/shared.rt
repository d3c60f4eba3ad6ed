//! What the passes of a context share, and their opening.
ghost use Rattle.std.specs.Prelude.{◌≡◌, ◌<◌, ◌≤◌, ◌*◌, All, IfOk};
ghost use Rattle.grb_order.specs.declared.limits.TheConstants.{MOST_PASSES, MOST_PLACES, MOST_WORDS};
ghost use Rattle.grb_order.specs.Order.{room_of, AreFresh};
ghost use Rattle.grb_records.specs.Token.{HasRows};
ghost use Rattle.grb_reader.specs.Known.{AreNew, HasNoStatus, IsPassOf};

use crate::pass::Pass;
use grb_editions::Versions;
use grb_objects::Helps;
use grb_order::{Order, Seat};
use grb_records::Records;
use std::alloc::{AllocError, Global};
use std::marker::Model;
use std::sync::Arc;

/// What the passes of a context share: the order of all calls, their records, and where they make dear products of two matrices
/// together.
#[derive(Drop)]
pub struct Shared<O: Helps> {
    pub(crate) order: Order,
    pub(crate) records: Records,
    // On which nothing is made: those of the passes are opened beside it.
    bench: O,
}

impl<O: Helps> Model for Shared<O> {
    ghost use Rattle.grb_reader.specs.Known.{Shared};

    ghost Value = { Shared };

    ghost view = { λ s. record { order = s.order; records = s.records } };
}

/// Places for the results that passes share. `AllocError` where memory is refused.
fn versions_for(alloc: Global, room: u32) -> Result<Arc<Versions>, AllocError> {
    let versions = Versions::open(alloc, room)?;
    match Arc::new(alloc, versions) {
        Ok(versions) => Ok(versions),
        Err(_refused) => Err(AllocError),
    }
}

/// A pass for each of the seats. `AllocError` where memory is refused; then the seats are dropped.
fn passes_of<O: Helps>(
    alloc: Global,
    order: &Order,
    seats: Vec<Seat>,
    room: u32,
    passes: u32,
    versions: &Arc<Versions>,
    bench: &O,
) -> Result<Vec<Pass<O>>, AllocError>
    requires room { (room_of order.now ≡ room) × (room ≤ MOST_WORDS) }
    requires passes { passes ≤ MOST_PASSES }
    requires seats { AreFresh order.now passes seats.items passes }
    ensures { IfOk result (λ opened. AreNew order.now passes opened.items passes) }
{
    let mut opened = Vec::with_capacity(alloc, passes as usize)?;
    for seat in seats {
        let number = opened.len() as u32;
        let versions = Arc::try_clone(versions)?;
        let bench = bench.beside();
        opened.push_reserved(Pass::open(alloc, number, seat, room, versions, bench, passes == 1)?);
    }
    Ok(opened)
}

impl<O: Helps> Shared<O> {
    /// What passes share whose history takes `room` calls, from 1 to `MOST_WORDS`, and those passes, from 1 to `MOST_PASSES`, which know no
    /// call: the one at index k has the number k. `room` times `passes` is at most `MOST_PLACES`. Each pass has `room` cells for its
    /// records. Two passes and more have a place where they make dear products together; where memory for that is refused, they make them
    /// alone. `AllocError` where memory is refused to anything else; then nothing is made.
    pub fn open(
        alloc: Global,
        room: u32,
        passes: u32,
    ) -> Result<(Shared<O>, Vec<Pass<O>>), AllocError>
        requires room { (0 < room) × (room ≤ MOST_WORDS) }
        requires passes { (0 < passes) × (passes ≤ MOST_PASSES) }
        requires places { room * passes ≤ MOST_PLACES }
        ensures room { IfOk result (λ opened. room_of opened.0.order ≡ room) }
        ensures records { IfOk result (λ opened. HasRows passes room opened.0.records) }
        ensures passes { IfOk result (λ opened. AreNew opened.0.order passes opened.1.items passes) }
        ensures ours { IfOk result (λ opened. All (IsPassOf opened.0) opened.1.items) }
        ensures statuses { IfOk result (λ opened. All HasNoStatus opened.1.items) }
    {
        Shared::open_with(alloc, room, passes, false)
    }

    /// The same. Where it is to be helped, one pass too has a place for dear products, so that threads without a pass can help.
    pub fn open_with(
        alloc: Global,
        room: u32,
        passes: u32,
        helped: bool,
    ) -> Result<(Shared<O>, Vec<Pass<O>>), AllocError>
        requires room { (0 < room) × (room ≤ MOST_WORDS) }
        requires passes { (0 < passes) × (passes ≤ MOST_PASSES) }
        requires places { room * passes ≤ MOST_PLACES }
        ensures room { IfOk result (λ opened. room_of opened.0.order ≡ room) }
        ensures records { IfOk result (λ opened. HasRows passes room opened.0.records) }
        ensures passes { IfOk result (λ opened. AreNew opened.0.order passes opened.1.items passes) }
        ensures ours { IfOk result (λ opened. All (IsPassOf opened.0) opened.1.items) }
        ensures statuses { IfOk result (λ opened. All HasNoStatus opened.1.items) }
    {
        let (order, seats) = Order::open(alloc, room, passes)?;
        let records = Records::open(alloc, passes, room)?;
        let versions = versions_for(alloc, room)?;
        let bench = O::open(alloc, helped || passes > 1);
        let opened = passes_of(alloc, &order, seats, room, passes, &versions, &bench)?;
        let shared = Shared {
            order,
            records,
            bench,
        };
        Ok((shared, opened))
    }

    /// Makes blocks of the dear products that passes make at the moment, by a thread without a pass, and answers how many.
    pub fn lend_hand(&self) -> u32 {
        self.bench.help()
    }

    /// How many blocks of dear products were made so far, by passes that read and by who helps; one that two made counts twice.
    pub fn blocks(&self) -> u64 {
        self.bench.blocks()
    }
}
