//! Slots that passes share, each for an edition: many read it where it lies, and who puts an edition there has the slot while no one reads.
//!
//! The word of a slot has the state and the number of readers in its low half. Of its high half 23 bits tell how many calls the edition has,
//! so that a slot is chosen by its word alone; the others are a stamp, one more each time that something is put there, so that another
//! edition of as many calls has another high half.
//!
//! The first four slots are for the latest editions. The others are for those by which numbers of calls double: the first of them is for an
//! edition of up to 64 calls, the next for one of up to 128, and so on.
ghost use Rattle.std.specs.Prelude.{◌≡◌, ◌*◌, ◌+◌, ◌/◌, ◌%◌, ◌<◌, ◌≤◌, ◌^◌, true, IfSome, length};
ghost use Rattle.counted_slot.specs.Counting.{IsTurn, readers};

use crate::edition::Edition;
use crate::looked::Looked;
use counted_slot::{Claim, Counted, MOST_READERS, ONE_READER, PRESENT, TAKEN};

/// How many slots are for the latest editions.
pub(crate) const LATEST: usize = 4;

/// How many slots there are at most.
pub(crate) const SLOTS: usize = 22;

/// How many calls an edition has at most.
pub(crate) const MOST_CALLS: usize = 0x7f_ffff;

/// How many lengths the first slot by which lengths double is for, and of how many lengths one edition is kept at most among the latest (own).
pub(crate) const LENGTHS: usize = 64;

/// An edition, or none.
pub(crate) type Slot = Counted<Option<Edition>>;

/// A slot and its word, as it was seen.
#[derive(Clone, Copy)]
pub(crate) struct Seen {
    pub(crate) at: usize,
    pub(crate) word: u64,
}

/// The high half of a slot's word: how many calls the edition has that is there, or is being put there, and the stamp.
pub(crate) fn high_of(word: u64) -> u32 {
    (word / 0x1_0000_0000) as u32
}

/// How many calls the edition has that is at a slot, or is being put there; 0 where there is none.
pub(crate) fn length_of(word: u64) -> usize {
    high_of(word) as usize % (MOST_CALLS + 1)
}

/// Whether something is at a slot, which one more may read.
fn is_readable(word: u64) -> bool
    ensures { result ≡ true → IsTurn word (word + 4) }
{
    word % 4 == PRESENT && word % 0x1_0000_0000 / ONE_READER < MOST_READERS
}

/// Whether no one reads what is at a slot, or puts something there.
pub(crate) fn is_unread(word: u64) -> bool
    ensures { result ≡ true → (word % 4 < 3) × (readers word ≡ 0) }
{
    word % 0x1_0000_0000 < TAKEN
}

/// The right to read what is at a slot; none where nothing is, or the slot has changed since it was seen.
pub(crate) fn read(slot: &Slot, word: u64) -> Option<Claim<'_, Option<Edition>>>
    ensures { IfSome result (λ claim. claim.right ≡ 1) }
{
    if !is_readable(word) {
        return None;
    }
    let (found, claim) = slot.turn(word, word + ONE_READER);
    if found != word {
        claim.done();
        return None;
    }
    Some(claim)
}

/// Puts an edition of so many calls at a slot, or none of 0, unless the slot has changed since it was seen: the stamp is one more then, and what
/// was there is dropped. The word that the slot has then; none where nothing was put.
pub(crate) fn put(slot: &Slot, word: u64, count: usize, edition: Option<Edition>) -> Option<u64>
    requires unread { (word % 4 < 3) × (readers word ≡ 0) }
    requires few { count < 2 ^ 23 }
{
    let stamp = (word / 0x80_0000_0000_0000 + 1) % 0x200;
    let next = (stamp * 0x80_0000 + count as u64) * 0x1_0000_0000;
    let (found, claim) = slot.turn(word, next + TAKEN);
    if found != word {
        claim.done();
        return None;
    }
    let _ = claim.put(edition, next + PRESENT);
    Some(next + PRESENT)
}

/// The slot with the longest edition of no more than `most` calls that was not looked at, and may be read.
pub(crate) fn longest(slots: &[Slot], looked: &Looked, most: usize) -> Option<Seen>
    ensures { IfSome result (λ seen. (seen.at < length slots.now) × (0 < most)) }
{
    let mut longest = 0;
    let mut found: Option<Seen> = None;
    'slots: for at in 0..slots.len() {
        let word = slots[at].load();
        let count = length_of(word);
        if count > longest && count <= most && is_readable(word) && !looked.has(at, word) {
            longest = count;
            found = Some(Seen { at, word });
        }
    }
    found
}

/// Whether one of the slots has an edition of more than `above` calls, and of no more than `most`.
fn has_between(slots: &[Slot], above: usize, most: usize) -> bool {
    'slots: for slot in slots {
        let count = length_of(slot.load());
        if above < count && count <= most {
            return true;
        }
    }
    false
}

/// The slot that no one reads with an edition of just so many calls; where there is none, the one with the shortest of fewer, or with none.
pub(crate) fn place_for(slots: &[Slot], count: usize) -> Option<Seen>
    ensures { IfSome result (λ seen. (seen.at < length slots.now) × (seen.word % 4 < 3) × (readers seen.word ≡ 0) × (0 < count)) }
{
    let mut shortest = count;
    let mut found: Option<Seen> = None;
    'slots: for at in 0..slots.len() {
        let word = slots[at].load();
        let length = length_of(word);
        if length == count && count > 0 && is_unread(word) {
            return Some(Seen { at, word });
        }
        if length < shortest && is_unread(word) {
            shortest = length;
            found = Some(Seen { at, word });
        }
    }
    found
}

/// Which of the slots by which lengths double is for an edition of so many calls, from 0.
pub(crate) fn doubled(count: usize) -> usize
    ensures { result ≤ 64 }
{
    let before = count.saturating_sub(1) / LENGTHS;
    if before == 0 {
        0
    } else {
        before.ilog2() as usize + 1
    }
}

/// The slot that is for an edition of so many calls, if lengths double by it: none where one of those slots has an edition of more than half
/// as many calls and fewer than twice as many, or where it has one already.
fn doubling_place(slots: &[Slot], count: usize) -> Option<Seen>
    requires { 4 ≤ length slots.now }
    ensures { IfSome result (λ seen. (seen.at < length slots.now) × (seen.word % 4 < 3) × (readers seen.word ≡ 0)) }
{
    let most = count.saturating_mul(2).saturating_sub(1);
    if has_between(&slots[LATEST..], count / 2, most) {
        return None;
    }
    let at = LATEST + doubled(count);
    let word = slots.get(at)?.load();
    if length_of(word) == 0 && is_unread(word) {
        Some(Seen { at, word })
    } else {
        None
    }
}

/// Where an edition of so many calls is put that is offered, one at least and no more than 64 times `blocks`: the slot by which lengths double,
/// and else one of the latest, unless there is an edition of another number of calls within the same 64, as from 65 to 128.
pub(crate) fn offered_place(slots: &[Slot], blocks: usize, count: usize) -> Option<Seen>
    requires { 4 ≤ length slots.now }
    ensures place { IfSome result (λ seen. (seen.at < length slots.now) × (seen.word % 4 < 3) × (readers seen.word ≡ 0)) }
    ensures range { IfSome result (λ seen. (0 < count) × (count ≤ 64 * blocks) × (count < 2 ^ 23)) }
{
    if count == 0 || count > MOST_CALLS || count.div_ceil(LENGTHS) > blocks {
        return None;
    }
    if let Some(seen) = doubling_place(slots, count) {
        return Some(seen);
    }
    let latest = &slots[..LATEST];
    let start = (count - 1) / LENGTHS * LENGTHS;
    if has_between(slots, start, start + LENGTHS) && !has_between(latest, count - 1, count) {
        return None;
    }
    place_for(latest, count)
}
