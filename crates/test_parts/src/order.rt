//! Words of two seats of one order. A contract lets a try be lost, or won, by what the atomic step finds; which of them comes, and that two
//! threads enter each word once, no contract says. No script sees the words of an order.
ghost use Rattle.std.specs.Prelude.{◌≡◌, ◌<◌, ◌≤◌, ◌^◌, ◌+◌, IfOk};
ghost use Rattle.grb_order.specs.declared.limits.TheConstants.{MOST_ROOM};
ghost use Rattle.grb_order.specs.Order.{room_of};

use crate::same::same;
use grb_order::{Entered, Look, MOST_PASSES, MOST_ROOM, Order, Seat};
use std::alloc::{AllocError, Global};
use std::process::Abort;
use std::thread::join_mut;

fn two_seats(alloc: Global, room: u32) -> Result<(Order, Seat, Seat), AllocError>
    requires { (0 < room) × (room ≤ MOST_ROOM) }
    ensures { IfOk result (λ made. (made.1.table_id ≡ made.0) × (made.2.table_id ≡ made.0)) }
{
    let (order, mut seats) = Order::open(alloc, room, 2)?;
    let Some(second) = seats.pop() else {
        unreachable!()
    };
    let Some(first) = seats.pop() else {
        unreachable!()
    };
    Ok((order, first, second))
}

// Enters records with the indices below `count` in turn, as long as there is room.
fn enter_all(order: &Order, seat: &mut Seat, count: u64)
    requires order { seat.old.table_id ≡ order.now }
    requires indices { count ≤ 2 ^ 48 }
    ensures { seat.new.table_id ≡ order.now }
{
    for index in 0..count {
        enter_next(order, seat, index);
    }
}

fn enter_next(order: &Order, seat: &mut Seat, index: u64) -> bool
    requires order { seat.old.table_id ≡ order.now }
    requires index { index < 2 ^ 48 }
    ensures { seat.new.table_id ≡ order.now }
{
    loop {
        match order.look(seat) {
            Look::Next(_) => {}
            Look::Full => return false,
            Look::Vacant => {
                if order.enter(seat, index) == Entered::Won {
                    return true;
                }
            }
        }
    }
}

fn look_at_all(order: &Order, seat: &mut Seat)
    requires { seat.old.table_id ≡ order.now }
    ensures { seat.new.table_id ≡ order.now }
{
    while let Look::Next(_) = order.look(seat) {}
}

fn expect_found(rt: &impl Abort, order: &Order, p: &mut Seat, q: &mut Seat)
    requires first { p.old.table_id ≡ order.now }
    requires second { q.old.table_id ≡ order.now }
{
    let Look::Vacant = order.look(p) else {
        panic!(rt; "a word at the start")
    };
    let Look::Vacant = order.look(q) else {
        panic!(rt; "a word at the start")
    };
    let won = order.enter(q, 0) == Entered::Won;
    same(rt, won, true, "the first try");
    let lost = order.enter(p, 0) == Entered::Lost(0x0002_0000_0000_0000);
    same(rt, lost, true, "the try that comes too late");
    let Look::Vacant = order.look(p) else {
        panic!(rt; "no second word is entered yet")
    };
    let won = order.enter(p, 0) == Entered::Won;
    same(rt, won, true, "the second word");
    same(rt, order.look(p) == Look::Full, true, "the end of p");
    let found = order.look(q) == Look::Next(0x0001_0000_0000_0000);
    same(rt, found, true, "what q finds of p");
    same(rt, order.look(q) == Look::Full, true, "the end of q");
}

#[test]
fn a_seat_finds_what_the_other_entered(rt: HostRuntime) -> Result<(), AllocError> {
    let (order, mut p, mut q) = two_seats(rt.alloc(), 2)?;
    expect_found(&rt, &order, &mut p, &mut q);
    Ok(())
}

/// The words of one number are of the indices below 100 in turn.
fn expect_indices(rt: &impl Abort, words: &[u64], number: u64) {
    let mut next = 0;
    for word in words {
        if (*word >> 48) == number {
            same(rt, *word % (1 << 48), next, number);
            next = next.saturating_add(1);
        }
    }
    same(rt, next, 100, number);
}

/// Both know 200 words, a hundred of each.
fn expect_words(rt: &impl Abort, p: &Seat, q: &Seat) {
    same(rt, p.words() == q.words(), true, "the words of both");
    same(rt, p.words().len(), 200, "the count of words");
    expect_indices(rt, p.words(), 1);
    expect_indices(rt, p.words(), 2);
}

#[test]
fn two_threads_enter_each_record_once(rt: HostRuntime) -> Result<(), AllocError> {
    let (order, mut p, mut q) = two_seats(rt.alloc(), 200)?;
    join_mut(
        &rt,
        &mut || enter_all(&order, &mut p, 100),
        &mut || enter_all(&order, &mut q, 100),
    );
    look_at_all(&order, &mut p);
    look_at_all(&order, &mut q);
    expect_words(&rt, &p, &q);
    Ok(())
}

/// The words of two seats of a full order, which are the same.
fn expect_full(rt: &impl Abort, p: &Seat, q: &Seat) {
    same(rt, p.words().len(), MOST_ROOM as usize, "the words");
    same(rt, p.words() == q.words(), true, "the same words");
}

#[test]
fn two_threads_fill_an_order_of_65536_words(rt: HostRuntime) -> Result<(), AllocError> {
    let (order, mut p, mut q) = two_seats(rt.alloc(), MOST_ROOM)?;
    join_mut(
        &rt,
        &mut || enter_all(&order, &mut p, 65_536),
        &mut || enter_all(&order, &mut q, 65_536),
    );
    look_at_all(&order, &mut p);
    look_at_all(&order, &mut q);
    expect_full(&rt, &p, &q);
    Ok(())
}

/// The pass of the highest number enters the record of the highest index that a full room has.
#[test]
fn the_last_record_of_the_last_pass_has_the_greatest_word(
    rt: HostRuntime,
) -> Result<(), AllocError> {
    let (order, mut seats) = Order::open(rt.alloc(), 1, MOST_PASSES)?;
    let Some(mut last) = seats.pop() else {
        unreachable!()
    };
    enter_next(&order, &mut last, 65_535);
    let word = last.words().first().copied().unwrap_or(0);
    same(&rt, word, 0x0100_0000_0000_FFFF, "the word");
    Ok(())
}
