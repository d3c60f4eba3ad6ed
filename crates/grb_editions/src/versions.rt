//! The editions of a context: those by which numbers of calls double, and the four latest.
//!
//! An edition is made whole before it is shown: results of calls, and copies of the calls. It never changes after.
//!
//! 1. Each slot has an atomic word: the number of calls of its edition, a stamp, the number of its readers, and a state. A slot is chosen by
//!    loads of the words alone.
//! 2. To read, the word that was seen is exchanged for one with a reader more. The edition is compared where it lies, its results are
//!    shared with the reader's table, and the reader is taken off again.
//! 3. To put, a word without a reader is exchanged for `TAKEN`, the edition is written, and the word of its length is stored. The edition
//!    that lay there is dropped. To let one go is to put none.
//! 4. An exchange that finds another word than was seen has changed nothing. A reader looks for a slot again, `LOOKS` times at most; who
//!    puts leaves no edition then.
//! 5. `take_into` tries the longest first of those that the pass has not looked at. It compares the edition's calls with the first of its
//!    own, and takes results only where all are the same. So nothing is presumed of who offered it, and no result of other calls is ever
//!    taken.
//! 6. What a pass has looked at, or put there itself, it remembers by the high half of the slot's word. That a stamp comes again, after 512
//!    editions at one slot, hides one edition at most.
//!
//! No call waits: no one looks at a slot until readers are gone, and each loop is bounded, by `LOOKS`, by the number of slots or by that of
//! the results. What is missed is work that a pass does for itself; no answer depends on it.
ghost use Rattle.std.specs.Prelude.{◌≡◌, ◌+◌, ◌*◌, ◌%◌, ◌<◌, ◌≤◌, ◌^◌, true, Ok, IfOk, length, map};
ghost use Rattle.counted_slot.specs.Counting.{readers};
ghost use Rattle.grb_results.specs.Kept.{AreKept, IsSameBut, KeepsAll, KeepsFrom};
ghost use Rattle.grb_results.specs.Results.{IsTable};

use crate::edition::Edition;
use crate::looked::Looked;
use crate::slots::{
    LATEST, LENGTHS, MOST_CALLS, Seen, Slot, doubled, is_unread, longest, offered_place, place_for,
    put, read,
};
use counted_slot::Counted;
use grb_call::Call;
use grb_results::{Kept, Table};
use std::alloc::{AllocError, Global};
use std::marker::Model;

/// How often one who takes results looks for another edition, where the one that it found does not serve or has made way (own).
const LOOKS: usize = 8;

/// Editions that passes share, calls with results of them. Some are kept by which numbers of calls double: one of up to 64 calls, one of up
/// to 128, and so on, where the others of them have half as many calls at most, or twice as many at least: so there are a dozen, whatever
/// is offered. Four slots are for the latest beside: a further one takes the place of the one of the fewest calls. None of this is in a
/// contract.
#[derive(Drop)]
pub struct Versions {
    alloc: Global,
    /// Editions of up to 64 times as many calls are kept.
    blocks: usize,
    slots: Vec<Slot>,
}

impl Model for Versions {
    ghost use Rattle.std.specs.Prelude.{◌≤◌, ℕ, length};

    ghost Value = { ℕ };

    ghost view = { λ v. v.blocks };

    ghost invariant = { λ v. 4 ≤ length v.slots.items };
}

/// Puts an edition at a slot, unless that has changed since it was seen. What the pass puts there it has looked at. `AllocError` where memory
/// is refused; then nothing is put.
fn keep(
    alloc: Global,
    slots: &[Slot],
    seen: Seen,
    calls: &[&Call],
    results: Vec<Kept>,
    looked: &mut Looked,
) -> Result<(), AllocError>
    requires slot { seen.at < length slots.now }
    requires unread { (seen.word % 4 < 3) × (readers seen.word ≡ 0) }
    requires kept { AreKept (map (λ c. c.now) calls.now) results.items }
    requires counted { 0 < length calls.now }
    requires few { length calls.now < 2 ^ 23 }
{
    let edition = Edition::of(alloc, calls, results)?;
    if let Some(word) = put(&slots[seen.at], seen.word, calls.len(), Some(edition)) {
        looked.note(seen.at, word);
    }
    Ok(())
}

impl Versions {
    /// Places for the editions of histories of up to `room` calls. `AllocError` where memory is refused; then nothing is made.
    pub fn open(alloc: Global, room: u32) -> Result<Versions, AllocError>
        ensures places { IfOk result (λ versions. (room ≤ 64 * versions) × (64 * versions < room + 64)) }
    {
        let blocks = (room as usize).div_ceil(LENGTHS);
        let count = LATEST + doubled((room as usize).min(MOST_CALLS)) + 1;
        let mut slots = Vec::with_capacity(alloc, count)?;
        for _ in 0..count {
            slots.push_reserved(Counted::new(None, &()));
        }
        Ok(Versions {
            alloc,
            blocks,
            slots,
        })
    }

    /// Whether an edition of so many calls would be kept. Takes no memory.
    pub fn takes(&self, count: usize) -> bool
        ensures { result ≡ true → (0 < count) × (count ≤ 64 * self.now) }
    {
        offered_place(&self.slots, self.blocks, count).is_some()
    }

    /// Keeps these results of the calls, if numbers of calls double by that, and else among the latest, as `leave` does, unless there is an
    /// edition of another number of calls within the same 64. It keeps none of no calls, and none of more than there are places for. What it
    /// does not keep takes no memory; which it keeps no contract says. What is kept the pass has looked at. `AllocError` where memory is
    /// refused; then nothing is kept.
    pub fn offer(
        &self,
        calls: &[&Call],
        results: Vec<Kept>,
        looked: &mut Looked,
    ) -> Result<(), AllocError>
        requires kept { AreKept (map (λ c. c.now) calls.now) results.items }
        ensures none { length calls.now ≡ 0 → result ≡ Ok tt }
        ensures beyond { 64 * self.now < length calls.now → result ≡ Ok tt }
    {
        match offered_place(&self.slots, self.blocks, calls.len()) {
            Some(seen) => keep(self.alloc, &self.slots, seen, calls, results, looked),
            None => Ok(()),
        }
    }

    /// Keeps these results of the calls among the latest editions, of which there are four: in place of one of as many calls, and else of the
    /// one of the fewest. They are not kept where each of the latest has more calls or is read at the moment, nor of no calls, nor of 2^23 or
    /// more: then it takes no memory. What is kept the pass has looked at. `AllocError` where memory is refused; then nothing is kept.
    pub fn leave(
        &self,
        calls: &[&Call],
        results: Vec<Kept>,
        looked: &mut Looked,
    ) -> Result<(), AllocError>
        requires kept { AreKept (map (λ c. c.now) calls.now) results.items }
        ensures none { length calls.now ≡ 0 → result ≡ Ok tt }
        ensures beyond { 2 ^ 23 ≤ length calls.now → result ≡ Ok tt }
    {
        if calls.len() > MOST_CALLS {
            return Ok(());
        }
        match place_for(&self.slots[..LATEST], calls.len()) {
            Some(seen) => keep(self.alloc, &self.slots, seen, calls, results, looked),
            None => Ok(()),
        }
    }

    /// Whether there is an edition that was not looked at, of no more calls than are known. Takes no memory, and compares no call.
    pub fn has_new(&self, looked: &Looked, known: usize) -> bool
        ensures { result ≡ true → 0 < known }
    {
        longest(&self.slots, looked, known).is_some()
    }

    /// Lets the table keep also the results of the longest edition found that was not looked at and whose calls begin these; how many calls it
    /// has, and 0 where there is none. A result is kept only of a call that the table has learnt and has no result of, and one that cannot be
    /// shared once more is passed over. No entry is copied. Each edition whose calls are compared was looked at then, whether it serves or
    /// not. Takes no memory.
    pub fn take_into(&self, calls: &[&Call], table: &mut Table, looked: &mut Looked) -> usize
        ensures table { IsTable (map (λ c. c.now) calls.now) table.old → IsTable (map (λ c. c.now) calls.now) table.new }
        ensures same { IsSameBut table.old table.new }
        ensures stays { KeepsAll table.old table.new }
        ensures first { KeepsFrom result table.old table.new }
        ensures within { result ≤ length calls.now }
        ensures none { result ≡ 0 → table.new ≡ table.old }
    {
        'looks: for _ in 0..LOOKS {
            let Some(seen) = longest(&self.slots, looked, calls.len()) else {
                return 0;
            };
            if let Some(claim) = read(&self.slots[seen.at], seen.word) {
                looked.note(seen.at, seen.word);
                let edition: &Option<Edition> = claim.get();
                let count = match edition {
                    Some(edition) => edition.take_into(calls, table, looked),
                    None => 0,
                };
                let _ = claim.leave();
                if count > 0 {
                    return count;
                }
            }
        }
        0
    }

    /// Lets go each edition of which more entries are of calls that are not the last of an object that is there, by the table, than are of such
    /// that are: one that is read at the moment, or has more calls than the table has learnt, is passed by. Which it lets go no contract
    /// says. Takes no memory.
    pub fn let_go(&self, table: &Table) {
        'slots: for slot in &self.slots {
            let word = slot.load();
            if !is_unread(word) {
                continue;
            }
            if let Some(claim) = read(slot, word) {
                let edition: &Option<Edition> = claim.get();
                let is_outdated = match edition {
                    Some(edition) => edition.is_outdated(table),
                    None => false,
                };
                let _ = claim.leave();
                if is_outdated {
                    let _ = put(slot, word, 0, None);
                }
            }
        }
    }

    /// How many entries the results have of all editions, but for those that cannot be read at the moment. Takes no memory.
    pub fn entries(&self) -> u64 {
        let mut entries: u64 = 0;
        'slots: for slot in &self.slots {
            if let Some(claim) = read(slot, slot.load()) {
                let edition: &Option<Edition> = claim.get();
                if let Some(edition) = edition {
                    entries = entries.saturating_add(edition.entries(None));
                }
                let _ = claim.leave();
            }
        }
        entries
    }
}
