//! One product, and the blocks of its rows, as far as they stand: whoever helps makes blocks, and puts them in their cells.
ghost use Rattle.std.specs.Prelude.{◌≡◌, ◌<◌, ◌≤◌, All, IfOk, IfSome};
ghost use Rattle.grb_jobs.specs.Blocks.{IsBlock};

use crate::cells::{Block, Cell, cells_for, claim, give_back, put};
use crate::inputs::Inputs;
use crate::joined::block_of;
use counted_slot::{Counted, FREE, MARKED};
use std::alloc::{AllocError, Global};
use std::snapshot::Snapshot;
use std::sync::atomic::{AtomicU64, Ordering};

/// A product, and the blocks of its rows that stand.
#[derive(Drop)]
pub(crate) struct Job {
    pub(crate) alloc: Global,
    pub(crate) inputs: Inputs,
    /// The row with which each block begins, and at last the number of rows.
    cuts: Vec<u64>,
    /// How many blocks were put in their cells.
    pub(crate) kept: AtomicU64,
    /// How many read the product at the moment.
    pub(crate) readers: AtomicU64,
    pub(crate) cells: Vec<Cell>,
    /// All rows, as soon as one has put them together. It is claimed and stays empty where the job was given up.
    pub(crate) whole: Cell,
    ghost tied: { All (λ tag. tag.value ≡ inputs) cells.items },
    ghost whole_tied: { whole.value ≡ inputs },
}

impl Job {
    /// No block stands; those to come begin at these rows. `AllocError` where memory is refused; then nothing is made.
    pub(crate) fn open(alloc: Global, inputs: Inputs, cuts: Vec<u64>) -> Result<Job, AllocError>
        ensures { IfOk result (λ job. job.inputs ≡ inputs) }
    {
        let tag = Snapshot::of(&inputs);
        let count = cuts.len().saturating_sub(1);
        let cells = cells_for(alloc, &tag, count)?;
        let whole = Counted::new(None, &tag);
        Ok(Job {
            alloc,
            inputs,
            cuts,
            kept: AtomicU64::new(0),
            readers: AtomicU64::new(0),
            cells,
            whole,
        })
    }

    /// Claims the block of a cell, if no one has claimed it.
    pub(crate) fn claims(&self, k: usize) -> bool {
        match self.cells.get(k) {
            Some(cell) => claim(cell),
            None => false,
        }
    }

    /// Gives back a claim on the block of a cell.
    pub(crate) fn give_back(&self, k: usize) {
        if let Some(cell) = self.cells.get(k) {
            give_back(cell);
        }
    }

    /// Whether the block of a cell stands, or its cell changes at the moment.
    fn stands(&self, k: usize) -> bool {
        match self.cells.get(k) {
            Some(cell) => {
                let word = cell.load();
                word != FREE && word != MARKED
            }
            None => true,
        }
    }

    /// Gives the job up, unless all rows were put together: then no one comes to it, and who needs it makes it without help.
    pub(crate) fn give_up(&self) {
        let _ = claim(&self.whole);
    }

    /// Whether it was given up.
    pub(crate) fn is_given_up(&self) -> bool {
        self.whole.load() == MARKED
    }

    /// Whether all rows were put together, or the job was given up: then no one is to help.
    fn is_done(&self) -> bool {
        self.whole.load() != FREE
    }

    /// Whether no one is to come to it: it was given up, or all rows were put together and all who came have the product.
    pub(crate) fn is_over(&self) -> bool {
        self.is_given_up() || self.is_done() && self.readers.load(Ordering::SeqCst) == 0
    }

    /// Where the block ends that has a row.
    pub(crate) fn end_of(&self, k: usize, row: u64) -> u64
        requires { row < self.now.inputs.nrows }
        ensures after { row < result }
        ensures within { result ≤ self.now.inputs.nrows }
    {
        let (nrows, _ncols) = self.inputs.dims();
        match self.cuts.get(k.saturating_add(1)) {
            Some(cut) => {
                if *cut > row && *cut < nrows {
                    return *cut;
                }
                nrows
            }
            None => nrows,
        }
    }

    /// Up to which row one goes on from a row of a block: to its end, where the block is claimed; else for an eighth of it, or for one row.
    pub(crate) fn reach(&self, k: usize, row: u64, claimed: bool) -> u64
        requires { row < self.now.inputs.nrows }
        ensures after { row < result }
        ensures within { result ≤ self.now.inputs.nrows }
    {
        let end = self.end_of(k, row);
        if claimed {
            return end;
        }
        let begin = match self.cuts.get(k) {
            Some(cut) => *cut,
            None => row,
        };
        let rows = end.saturating_sub(begin) / 8;
        row.saturating_add(rows.max(1)).min(end)
    }

    /// The block that has a row, of one and the next.
    pub(crate) fn block_at(&self, k: usize, row: u64) -> usize {
        let next = k.saturating_add(1);
        match self.cuts.get(next) {
            Some(cut) => { if row >= *cut { next } else { k } }
            None => k,
        }
    }

    /// Makes the block of a cell that is claimed and puts it there, and says whether it did. `AllocError` where memory is refused; then
    /// nothing is made, and the claim is given back.
    fn make(&self, k: usize, from: u64) -> Result<bool, AllocError>
        requires { from < self.now.inputs.nrows }
    {
        let upto = self.end_of(k, from);
        match block_of(self.alloc, &self.inputs, from, upto) {
            Ok(made) => Ok(self.keep(k, Block { from, upto, made })),
            Err(refused) => {
                self.give_back(k);
                Err(refused)
            }
        }
    }

    /// Puts a block in its cell, and says whether it did.
    fn keep(&self, k: usize, block: Block) -> bool
        requires { IsBlock self.now.inputs block.from block.upto block.made }
    {
        let Some(cell) = self.cells.get(k) else {
            return false;
        };
        let _ = self.kept.fetch_add(1, Ordering::SeqCst);
        put(cell, block)
    }

    /// Claims the first block that no one has claimed, and answers which, and where it begins; none, where all are claimed or no one is to
    /// help.
    fn claim(&self) -> Option<(usize, u64)>
        ensures { IfSome result (λ claimed. claimed.1 < self.now.inputs.nrows) }
    {
        if self.is_done() {
            return None;
        }
        let (nrows, _ncols) = self.inputs.dims();
        'cells: for k in 0..self.cells.len() {
            if let Some(from) = self.cuts.get(k) {
                if *from < nrows && self.claims(k) {
                    return Some((k, *from));
                }
            }
        }
        None
    }

    /// Makes the next block that no one has claimed, and answers how many it put, one or none; `None` where there was no such block, or
    /// memory is refused. It counts what is made in `made`.
    fn help_once(&self, made: &AtomicU64) -> Option<u32> {
        let (k, from) = self.claim()?;
        let put = self.make(k, from).ok()?;
        let _ = made.fetch_add(1, Ordering::SeqCst);
        if put { Some(1) } else { Some(0) }
    }

    /// Makes blocks that no one has claimed, until all are, and answers how many it put. Where memory is refused, it ends. It counts what is
    /// made in `made`.
    pub(crate) fn help(&self, made: &AtomicU64) -> u32 {
        let mut count: u32 = 0;
        for _ in 0..self.cells.len() {
            let Some(put) = self.help_once(made) else {
                return count;
            };
            count = count.saturating_add(put);
        }
        count
    }

    /// Makes blocks that no one has claimed, until the block of a cell stands, and says whether it does: it does not, where all are claimed,
    /// or memory is refused.
    pub(crate) fn help_before(&self, k: usize, made: &AtomicU64) -> bool {
        for _ in 0..self.cells.len() {
            if self.stands(k) {
                return true;
            }
            if self.help_once(made).is_none() {
                return false;
            }
        }
        self.stands(k)
    }
}
