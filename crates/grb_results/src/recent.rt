//! Where results were put last, so that who takes them over looks at what is new alone. No contract knows any of it.

use std::alloc::AllocError;

/// So many calls that follow one another are a block.
pub(crate) const BLOCK: usize = 64;

/// A block of calls: which of all puts was the last of a result of one of them, and which blocks the last puts before that and after it were
/// in, by their numbers from 1. It was the newest, or the oldest, where that is 0.
#[derive(Clone, Copy)]
pub(crate) struct Block {
    pub(crate) put: u64,
    pub(crate) older: u32,
    pub(crate) newer: u32,
}

/// The blocks of the calls learnt, in the order in which results were last put there. The first stands for both ends: the newest is the one
/// that is older than it.
#[derive(Drop)]
pub(crate) struct Recent {
    pub(crate) blocks: Vec<Block>,
    pub(crate) puts: u64,
}

impl Recent {
    /// The block of this number; where there is none, one in which nothing was put.
    pub(crate) fn block(&self, number: u32) -> Block {
        let none = Block {
            put: 0,
            older: 0,
            newer: 0,
        };
        self.blocks.get(number as usize).copied().unwrap_or(none)
    }

    /// Makes a place for the block of the call at this place, if there is none. `AllocError` where memory is refused.
    pub(crate) fn reserve_for(&mut self, at: usize) -> Result<(), AllocError> {
        let places = at / BLOCK + 2;
        if self.blocks.len() < places {
            let none = self.block(u32::MAX);
            self.blocks.resize(places, none)?;
        }
        Ok(())
    }

    /// The one block is the next that is older than the other.
    fn join(&mut self, older: u32, newer: u32) {
        if let Some(block) = self.blocks.get_mut(older as usize) {
            block.newer = newer;
        }
        if let Some(block) = self.blocks.get_mut(newer as usize) {
            block.older = older;
        }
    }

    /// A result of the call at this place is put: its block is the newest. Takes no memory.
    pub(crate) fn note(&mut self, at: usize) {
        let number = u32::try_from(at / BLOCK + 1).unwrap_or(0);
        let block = self.block(number);
        self.puts = self.puts.saturating_add(1);
        if block.put > 0 {
            self.join(block.older, block.newer);
        }
        let newest = self.block(0).older;
        self.join(newest, number);
        self.join(number, 0);
        if let Some(block) = self.blocks.get_mut(number as usize) {
            block.put = self.puts;
        }
    }
}
