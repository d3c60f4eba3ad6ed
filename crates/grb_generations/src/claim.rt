//! The claim to make the next generation: one word that tells which generation is being made, by the how-manieth member that set out for that,
//! how far it is, and how patient the others are to be.
//!
//! It keeps members from making the same objects side by side, and nothing else rests on it: who makes a generation without the claim shows
//! it, or finds that another stands. From the lowest on the word has 13 bits for the patience, 11 for the steps of the maker, 8 for the number
//! of the maker, from 0, and 32 for that of the generation; the last two are a turn. To who needs another generation the word is nobody's, and
//! so is that of turn 0 to all.
use crate::generations::Generations;
use std::hint::spin_loop;
use std::sync::atomic::Ordering;

/// How often a member that needs the next generation looks at least, with a hint to the processor between, and finds that its maker goes not
/// on, before it makes one itself: some ten milliseconds. Where the object at hand is dear it looks more: 16 times for each entry that could be
/// copied instead; and eight times as often after each member that took over (own).
pub const LEAST_WAITS: u32 = 1_048_576;

/// How often it looks at most, whatever the makers do (own).
pub const MOST_WAITS_IN_ALL: u64 = 0x1_0000_0000;

/// The patience of `MOST_WAITS_IN_ALL` looks: patience is counted in `LEAST_WAITS` looks.
const MOST_PATIENCE: u64 = 4096;

/// As many copied entries as are worth `LEAST_WAITS` looks more.
const ENTRIES: u64 = 65_536;

/// The word of a maker with this turn that has made so many steps, and next makes what is so much work.
fn word_of(turn: u64, steps: u64, work: u64) -> u64 {
    let makers = (turn & 0xff).min(4);
    let patience = (work / ENTRIES)
        .saturating_add(1)
        .saturating_mul(1 << (3 * makers))
        .min(MOST_PATIENCE);
    (turn << 24) | ((steps & 0x7ff) << 13) | patience
}

/// The turn in which a member sets out for the generation of this number, where this word stood at so many looks in a row; none where its maker
/// is to have more patience.
fn turn_after(word: u64, number: u64, looks: u64) -> Option<u64> {
    let generation = number & 0xffff_ffff;
    if word >> 32 != generation {
        return Some(generation << 8);
    }
    if looks < (word & 0x1fff).saturating_mul(u64::from(LEAST_WAITS)) {
        return None;
    }
    let maker = ((word >> 24) & 0xff).saturating_add(1);
    Some((generation << 8) | maker.min(0xff))
}

impl Generations {
    /// The turn in which a member is to make the generation of this number: it is the first to set out for that, or who did last has not gone
    /// on in as many looks as others are patient for, and of all that find so it is the one that takes the claim over. None where the
    /// generation stands. Takes no memory.
    pub(crate) fn turn_to_make(&self, number: u64) -> Option<u64> {
        let mut seen = self.claim.load(Ordering::SeqCst);
        let mut looks = 0u64;
        'looks: for _ in 0..MOST_WAITS_IN_ALL {
            let word = self.claim.load(Ordering::SeqCst);
            if self.latest() >= number {
                return None;
            }
            looks = if word == seen {
                looks.saturating_add(1)
            } else {
                0
            };
            seen = word;
            if let Some(turn) = turn_after(word, number, looks) {
                if self.goes_from(word, turn, 0, 0) {
                    return Some(turn);
                }
            }
            spin_loop();
        }
        turn_after(seen, number, MOST_WAITS_IN_ALL)
    }

    /// Whether the claim was this word, and is now that of a maker with this turn, so many steps and so much work before it.
    fn goes_from(&self, word: u64, turn: u64, steps: u64, work: u64) -> bool {
        self.claim
            .compare_exchange(
                word,
                word_of(turn, steps, work),
                Ordering::SeqCst,
                Ordering::SeqCst,
            )
            .is_ok()
    }

    /// Says that the maker with this turn goes on, and that what it makes next is so much work, unless another took over.
    pub(crate) fn goes_on(&self, turn: u64, work: u64) {
        let word = self.claim.load(Ordering::SeqCst);
        if word >> 24 == turn {
            let _ = self.goes_from(word, turn, (word >> 13).wrapping_add(1), work);
        }
    }

    /// Says that the maker with this turn has done with the generation of this number. Where that does not stand, the next member that needs it sets
    /// out anew.
    pub(crate) fn ends(&self, turn: u64, number: u64) {
        let word = self.claim.load(Ordering::SeqCst);
        if word >> 24 == turn && self.latest() < number {
            let _ = self.goes_from(word, 0, 0, 0);
        }
    }
}
