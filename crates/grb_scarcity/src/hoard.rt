//! Memory that is held back, but for what a test leaves free.
ghost use Rattle.std.specs.Prelude.{◌<◌};

use std::alloc::{AllocError, Global};

/// The size of a spare, and so the most that is left over.
pub const SPARE: usize = 65_528;

/// The first size that is asked for: half of what a process can address.
const LARGEST: usize = 70_368_744_177_664;

/// Up to this size each size is asked for that the allocator tells apart.
const SMALL: usize = 1_032;

/// How far apart those sizes are.
const STEP: usize = 16;

/// At so many blocks the machine counts as one that refuses nothing. Each costs three pages.
const MOST: usize = 40_000;

/// How many blocks are held at most, with those that are taken later.
const PLACES: usize = 1_000_000;

/// How many bytes one call of `deepen` puts on the stack.
const DEPTH: usize = 65_536;

/// Memory that is held back, and spares, from which a little can be left over.
#[derive(Drop)]
pub struct Hoard {
    alloc: Global,
    blocks: Vec<Vec<u8>>,
    spares: Vec<Vec<u8>>,
}

/// The last byte of a slice, read by a call so that the slice is really made.
#[inline(never)]
fn last_of(bytes: &[u8]) -> Option<u8> {
    bytes.last().copied()
}

/// Makes the stack grow by `times` + 1 times 65,536 bytes, and answers the byte.
#[inline(never)]
pub fn deepen(byte: u8, times: u32) -> Option<u8> {
    let bytes = [byte; DEPTH];
    if times > 0 {
        let deeper = deepen(byte, times - 1);
        if deeper != Some(byte) {
            return deeper;
        }
    }
    last_of(&bytes)
}

/// The size to ask for after this one.
fn smaller(size: usize) -> usize
    ensures smaller { 0 < size → result < size }
{
    if size > 1_048_576 {
        size - size / 8
    } else if size > SMALL * 2 {
        size / 2
    } else if size > SMALL {
        SMALL
    } else {
        size.saturating_sub(STEP)
    }
}

impl Hoard {
    /// A hoard with so many spares, which holds nothing else back. `AllocError` where memory is refused.
    pub fn open(alloc: Global, spares: usize) -> Result<Hoard, AllocError> {
        let mut hoard = Hoard {
            alloc,
            blocks: Vec::with_capacity(alloc, PLACES)?,
            spares: Vec::with_capacity(alloc, spares)?,
        };
        for _ in 0..spares {
            hoard.spares.push(Vec::with_capacity(alloc, SPARE)?)?;
        }
        Ok(hoard)
    }

    /// Keeps one more block of this size. Whether it was had, and a place for it.
    fn take(&mut self, size: usize) -> bool {
        if self.blocks.len() == self.blocks.capacity() {
            return false;
        }
        match Vec::with_capacity(self.alloc, size) {
            Ok(block) => self.blocks.push(block).is_ok(),
            Err(_) => false,
        }
    }

    /// Keeps blocks of this size and of all smaller ones, as many of each as are had, up to `most`.
    fn take_down_from(&mut self, size: usize, most: usize) {
        let mut size = size;
        while size > 0 {
            for _ in 0..most {
                if !self.take(size) {
                    break;
                }
            }
            size = smaller(size);
        }
    }

    /// Holds all memory back but the spares, after the stack has grown by a million bytes, since it cannot grow later. Whether the machine
    /// refuses more; where it seems to refuse nothing, all blocks are given back.
    pub fn take_all(&mut self) -> bool {
        let _ = deepen(0, 16);
        self.take_down_from(LARGEST, MOST);
        if self.blocks.len() < MOST {
            return true;
        }
        self.blocks.clear();
        false
    }

    /// Holds back what was given back since, and then leaves `bytes` of one spare over, in one piece, or all `SPARE` of it. Whether there
    /// was a spare.
    pub fn leave(&mut self, bytes: usize) -> bool {
        self.take_down_from(SPARE, PLACES);
        match self.spares.pop() {
            Some(spare) => {
                drop(spare);
                bytes >= SPARE || self.take(SPARE - bytes)
            }
            None => false,
        }
    }

    /// Gives all back, the spares too.
    pub fn release(&mut self) {
        self.blocks.clear();
        self.spares.clear();
    }
}
