//! How one who needs a product has all rows of it: blocks that stand are joined as they come, and others are made.
ghost use Rattle.std.specs.Prelude.{◌≡◌, ◌<◌, ◌≤◌, true, IfOk, IfSome, OnOk};
ghost use Rattle.grb_jobs.specs.Blocks.{IsBlock, whole_of};
ghost use Rattle.grb_jobs.specs.Lists.{IsSoFar};

use crate::cells::{Block, Cell, claim, put, read, take};
use crate::inputs::Inputs;
use crate::job::Job;
use crate::joined::{add_own, add_rows, finished, nothing_of};
use grb_core::Domain;
use grb_ewise::Stored;
use grb_mxm::{InBits, MadeRows};
use grb_semirings::Folded;
use grb_sparse::SparseMatrix;
use std::alloc::AllocError;
use std::sync::atomic::{AtomicU64, Ordering};

/// Puts the rows of a block from one on after those so far, where it has that row, and answers where it ends; else the row. `AllocError`
/// where memory is refused; then the lists may have some of its rows.
fn add_found<T: Stored + Drop>(
    inputs: &Inputs,
    block: &Option<Block>,
    from: u64,
    made: &mut MadeRows<T>,
) -> Result<u64, AllocError>
    requires domain { inputs.now.domain ≡ T.domain }
    requires block { IfSome block.now (λ b. IsBlock inputs.now b.from b.upto b.made) }
    requires so_far { IsSoFar T.value inputs.now from made.old.rows.items made.old.starts.items made.old.columns.items made.old.values.items }
    ensures rises { IfOk result (λ upto. from ≤ upto) }
    ensures so_far { IfOk result (λ upto. IsSoFar T.value inputs.now upto made.new.rows.items made.new.starts.items made.new.columns.items made.new.values.items) }
{
    if let Some(block) = block {
        if block.from <= from && from < block.upto {
            add_rows::<T>(inputs, from, block, made)?;
            return Ok(block.upto);
        }
    }
    Ok(from)
}

/// The same matrix once more, if the block is the whole; its lists are shared where they may be.
fn copy_of_whole(inputs: &Inputs, block: &Option<Block>) -> Option<SparseMatrix>
    requires { IfSome block.now (λ b. IsBlock inputs.now b.from b.upto b.made) }
    ensures matrix { IfSome result (λ made. made.matrix ≡ whole_of inputs.now) }
    ensures assembled { IfSome result (λ made. made.assembled ≡ true) }
{
    let (nrows, _ncols) = inputs.dims();
    match block {
        Some(block) => {
            if block.from != 0 {
                return None;
            }
            if block.upto != nrows {
                return None;
            }
            let Ok(copy) = block.made.try_clone() else {
                return None;
            };
            Some(copy)
        }
        None => None,
    }
}

/// Leaves all rows in a cell; false where memory is refused, or they lie there.
fn put_whole(inputs: &Inputs, cell: &Cell, made: &SparseMatrix) -> bool
    requires tied { cell.now.value ≡ inputs.now }
    requires matrix { made.now.matrix ≡ whole_of inputs.now }
    requires assembled { made.now.assembled ≡ true }
{
    let (nrows, _ncols) = inputs.dims();
    let Ok(copy) = made.try_clone() else {
        return false;
    };
    let block = Block {
        from: 0,
        upto: nrows,
        made: copy,
    };
    let _ = claim(cell);
    put(cell, block)
}

impl Job {
    /// Puts the block of a cell after the rows so far, where it stands and begins there, and answers where it ends; else the row. Where no
    /// other puts rows together, the block is taken out of its cell and dropped. `AllocError` where memory is refused; then the lists may
    /// have some of its rows.
    fn take_up<T: Stored + Drop>(
        &self,
        k: usize,
        from: u64,
        made: &mut MadeRows<T>,
    ) -> Result<u64, AllocError>
        requires domain { self.now.inputs.domain ≡ T.domain }
        requires so_far { IsSoFar T.value self.now.inputs from made.old.rows.items made.old.starts.items made.old.columns.items made.old.values.items }
        ensures rises { IfOk result (λ upto. from ≤ upto) }
        ensures so_far { IfOk result (λ upto. IsSoFar T.value self.now.inputs upto made.new.rows.items made.new.starts.items made.new.columns.items made.new.values.items) }
    {
        let Some(cell) = self.cells.get(k) else {
            return Ok(from);
        };
        let cell: &Cell = cell;
        if self.readers.load(Ordering::SeqCst) == 1 {
            let block = take(cell);
            return add_found::<T>(&self.inputs, &block, from, made);
        }
        let Some(claim) = read(cell) else {
            return Ok(from);
        };
        let answer = add_found::<T>(&self.inputs, claim.get(), from, made);
        let _ = claim.leave();
        answer
    }

    /// Puts rows after those so far, and answers where they end: all of a block that is claimed here; else those of the block where it
    /// stands, or a part of them that is made in place. It counts in `counter` the blocks that are made. `AllocError` where memory is
    /// refused; then nothing is made, and the claim is given back.
    fn go_on<T: InBits + Folded + Drop>(
        &self,
        k: usize,
        from: u64,
        mut made: MadeRows<T>,
        claimed: bool,
        counter: &AtomicU64,
    ) -> Result<(u64, MadeRows<T>), AllocError>
        requires domain { self.now.inputs.domain ≡ T.domain }
        requires from { from < self.now.inputs.nrows }
        requires so_far { IsSoFar T.value self.now.inputs from made.rows.items made.starts.items made.columns.items made.values.items }
        ensures rises { IfOk result (λ more. from < more.0) }
        ensures so_far { IfOk result (λ more. IsSoFar T.value self.now.inputs more.0 more.1.rows.items more.1.starts.items more.1.columns.items more.1.values.items) }
    {
        if !claimed {
            let upto = self.take_up::<T>(k, from, &mut made)?;
            if upto > from {
                return Ok((upto, made));
            }
        }
        let upto = self.reach(k, from, claimed);
        match add_own::<T>(self.alloc, &self.inputs, from, upto, made) {
            Ok(all) => {
                if self.block_at(k, upto) != k {
                    let _ = counter.fetch_add(1, Ordering::SeqCst);
                }
                Ok((upto, all))
            }
            Err(refused) => {
                if claimed {
                    self.give_back(k);
                }
                Err(refused)
            }
        }
    }

    /// All rows, where another has put them together already.
    fn found_whole(&self) -> Option<SparseMatrix>
        ensures matrix { IfSome result (λ made. made.matrix ≡ whole_of self.now.inputs) }
        ensures assembled { IfSome result (λ made. made.assembled ≡ true) }
    {
        let Some(claim) = read(&self.whole) else {
            return None;
        };
        let copy = copy_of_whole(&self.inputs, claim.get());
        let _ = claim.leave();
        copy
    }

    /// Leaves all rows to those who need them too, and takes the blocks away, of which there is no more need.
    fn leave_whole(&self, made: &SparseMatrix)
        requires matrix { made.now.matrix ≡ whole_of self.now.inputs }
        requires assembled { made.now.assembled ≡ true }
    {
        if put_whole(&self.inputs, &self.whole, made) {
            for k in 0..self.cells.len() {
                let _ = take(&self.cells[k]);
            }
        }
    }

    /// The product, whose values are of one Rust type: blocks that stand are joined as they come, and what is claimed by another and does
    /// not stand is made here, a part at a time, unless another has put all together. It counts in `counter` the blocks that are made.
    /// `AllocError` where memory is refused; then nothing is made.
    fn all_by<T: InBits + Folded + Drop>(
        &self,
        counter: &AtomicU64,
    ) -> Result<SparseMatrix, AllocError>
        requires { self.now.inputs.domain ≡ T.domain }
        ensures matrix { IfOk result (λ made. made.matrix ≡ whole_of self.now.inputs) }
        ensures assembled { IfOk result (λ made. made.assembled ≡ true) }
    {
        let (nrows, _ncols) = self.inputs.dims();
        let mut made = nothing_of::<T>(self.alloc, &self.inputs);
        let mut at: u64 = 0;
        let mut k: usize = 0;
        let mut helps = true;
        'turns: while at < nrows {
            let claimed = self.claims(k);
            if !claimed {
                helps = helps && self.help_before(k, counter);
                if let Some(whole) = self.found_whole() {
                    return Ok(whole);
                }
            }
            let (upto, all) = self.go_on::<T>(k, at, made, claimed, counter)?;
            made = all;
            at = upto;
            k = self.block_at(k, at);
        }
        let mut whole = finished::<T>(self.alloc, &self.inputs, made);
        whole.make_shareable();
        self.leave_whole(&whole);
        Ok(whole)
    }

    /// The product, by the Rust type of its values. `AllocError` where memory is refused; then nothing is made.
    fn all_of(&self, counter: &AtomicU64) -> Result<SparseMatrix, AllocError>
        ensures matrix { IfOk result (λ made. made.matrix ≡ whole_of self.now.inputs) }
        ensures assembled { IfOk result (λ made. made.assembled ≡ true) }
    {
        match self.inputs.first.domain() {
            Domain::Bool => self.all_by::<bool>(counter),
            Domain::Uint64 => self.all_by::<u64>(counter),
        }
    }

    /// The product. It counts in `counter` the blocks that are made here. In the end all rows are put together, or the job is given up. Where
    /// memory is refused nothing is made: `None` where blocks took some of it, so that the product may be made alone; else `AllocError`.
    pub(crate) fn all(&self, counter: &AtomicU64) -> Result<Option<SparseMatrix>, AllocError>
        ensures matrix { IfOk result (λ found. IfSome found (λ made. made.matrix ≡ whole_of self.now.inputs)) }
        ensures assembled { IfOk result (λ found. IfSome found (λ made. made.assembled ≡ true)) }
    {
        let _ = self.readers.fetch_add(1, Ordering::SeqCst);
        let made = self.all_of(counter);
        self.give_up();
        let _ = self.readers.fetch_sub(1, Ordering::SeqCst);
        match made {
            Ok(whole) => Ok(Some(whole)),
            Err(_) if self.kept.load(Ordering::SeqCst) > 0 => Ok(None),
            Err(refused) => Err(refused),
        }
    }
}
