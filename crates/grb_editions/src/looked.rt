//! What a pass has looked at.

use crate::slots::{SLOTS, high_of};

/// What a pass has looked at of the editions that it shares with others: of each slot the edition that lay there. So it compares none twice,
/// and none that it put there itself. No contract depends on it.
#[derive(Drop)]
pub struct Looked {
    /// The high half of each slot's word as it was then; 0 where none was looked at.
    highs: [u32; SLOTS],
    /// How many calls were compared.
    pub(crate) compared: u64,
}

impl Looked {
    /// Nothing was looked at. Takes no memory.
    pub fn none() -> Looked {
        Looked {
            highs: [0; SLOTS],
            compared: 0,
        }
    }

    /// As if nothing was looked at, for a pass that has let go all its results: how many calls were compared stays. Takes no memory.
    pub fn clear(&mut self) {
        self.highs = [0; SLOTS];
    }

    /// How many calls were compared with those of editions, in all. Takes no memory.
    pub fn compared(&self) -> u64 {
        self.compared
    }

    /// Whether the edition was looked at that lies at this slot, which has this word.
    pub(crate) fn has(&self, at: usize, word: u64) -> bool {
        at < SLOTS && self.highs[at] == high_of(word)
    }

    /// The edition was looked at that lies at this slot, which has this word.
    pub(crate) fn note(&mut self, at: usize, word: u64) {
        if at < SLOTS {
            self.highs[at] = high_of(word);
        }
    }
}
