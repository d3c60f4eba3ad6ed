//! Cells in which blocks of a product lie: one claims a cell and puts a block there, many read it where it is, and one takes it out.
//!
//! A cell is `FREE` until it is claimed, `MARKED` while it is claimed and has no block, `PRESENT` while its block stands, and `TAKEN` for the
//! moment of a change. From `MARKED` it goes back to `FREE` where a claim is given back.
ghost use Rattle.std.specs.Prelude.{◌≡◌, ◌<◌, ◌+◌, true, All, IfOk, IfSome};
ghost use Rattle.counted_slot.specs.Counting.{IsTurn};
ghost use Rattle.grb_jobs.specs.Blocks.{IsBlock};

use crate::inputs::Inputs;
use counted_slot::{Claim, Counted, FREE, Fits, MARKED, MOST_READERS, ONE_READER, PRESENT, TAKEN};
use grb_sparse::SparseMatrix;
use std::alloc::{AllocError, Global};
use std::snapshot::Snapshot;

/// The rows of a product from one up to another.
#[derive(Drop)]
pub(crate) struct Block {
    pub(crate) from: u64,
    pub(crate) upto: u64,
    pub(crate) made: SparseMatrix,
}

/// A block is one of the product that its cell was made for.
impl Fits for Block {
    type Tag = Snapshot<Inputs>;

    ghost fits = { λ tag block. IsBlock tag.value block.from block.upto block.made };
}

/// A place for a block.
pub(crate) type Cell = Counted<Option<Block>>;

/// So many cells for blocks of a product. `AllocError` where memory is refused; then nothing is made.
pub(crate) fn cells_for(
    alloc: Global,
    tag: &Snapshot<Inputs>,
    count: usize,
) -> Result<Vec<Cell>, AllocError>
    ensures { IfOk result (λ cells. All (λ t. t.value ≡ tag.now.value) cells.items) }
{
    let mut cells = Vec::with_capacity(alloc, count)?;
    'cells: for _ in 0..count {
        cells.push_reserved(Counted::new(None, tag));
    }
    Ok(cells)
}

/// Whether one more may read what is in a cell or at a place.
pub(crate) fn is_readable(word: u64) -> bool
    ensures { result ≡ true → IsTurn word (word + 4) }
{
    word % 4 == PRESENT && word % 0x1_0000_0000 / ONE_READER < MOST_READERS
}

/// The right to read the block in a cell; none where there is none, or it changes at the moment.
pub(crate) fn read(cell: &Cell) -> Option<Claim<'_, Option<Block>>>
    ensures right { IfSome result (λ claim. claim.right ≡ 1) }
    ensures tag { IfSome result (λ claim. claim.tag ≡ cell.now) }
{
    let word = cell.load();
    if !is_readable(word) {
        return None;
    }
    let (found, claim) = cell.turn(word, word + ONE_READER);
    if found != word {
        claim.done();
        return None;
    }
    Some(claim)
}

/// Takes a cell from one state to another, puts this in it, and answers what was there; none, where it is in another state.
fn change(cell: &Cell, old: u64, block: Option<Block>, new: u64) -> Option<Option<Block>>
    requires old { old < 3 }
    requires new { new < 3 }
    requires block { IfSome block (λ b. IsBlock cell.now.value b.from b.upto b.made) }
    ensures { IfSome result (λ was. IfSome was (λ b. IsBlock cell.now.value b.from b.upto b.made)) }
{
    let (found, claim) = cell.turn(old, TAKEN);
    if found != old {
        claim.done();
        return None;
    }
    Some(claim.put(block, new))
}

/// Claims a cell that no one has claimed, and says whether it did.
pub(crate) fn claim(cell: &Cell) -> bool {
    cell.load() == FREE && change(cell, FREE, None, MARKED).is_some()
}

/// Gives back a claim of which no block was made: then another may claim the cell.
pub(crate) fn give_back(cell: &Cell) {
    let _ = change(cell, MARKED, None, FREE);
}

/// Puts a block in a cell that was claimed, unless one stands there or it changes at the moment, and says whether it did.
pub(crate) fn put(cell: &Cell, block: Block) -> bool
    requires { IsBlock cell.now.value block.from block.upto block.made }
{
    change(cell, MARKED, Some(block), PRESENT).is_some()
}

/// Takes the block out of a cell, which stays claimed; none where there is none, or someone reads it at the moment.
pub(crate) fn take(cell: &Cell) -> Option<Block>
    ensures { IfSome result (λ block. IsBlock cell.now.value block.from block.upto block.made) }
{
    change(cell, PRESENT, None, MARKED)?
}
