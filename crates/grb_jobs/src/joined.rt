//! Rows of a product put one after another, and the matrix that all of them are.
ghost use Rattle.std.specs.Prelude.{◌≡◌, ◌<◌, ◌≤◌, ◌++◌, true, All, IfOk, OnOk};
ghost use Rattle.grb_ewise.specs.Rows.{flat_entries};
ghost use Rattle.grb_mxm.specs.Rows.{AreBelow, rows_between};
ghost use Rattle.grb_jobs.specs.Blocks.{IsBlock, made_by, whole_of};
ghost use Rattle.grb_jobs.specs.Lists.{IsSoFar};

use crate::cells::Block;
use crate::inputs::Inputs;
use crate::rows::append_rows;
use grb_core::Domain;
use grb_ewise::Stored;
use grb_mxm::{InBits, MadeRows, append_product, keep_rows, no_rows};
use grb_semirings::{Folded, lend_matrix};
use grb_sparse::SparseMatrix;
use std::alloc::{AllocError, Global};

/// Makes the rows of a product from one up to another, after rows that come before them. `AllocError` where memory is refused; then nothing
/// is made.
fn append_own<T: InBits + Folded + Drop>(
    alloc: Global,
    inputs: &Inputs,
    from: u64,
    upto: u64,
    made: MadeRows<T>,
    reserves: bool,
) -> Result<MadeRows<T>, AllocError>
    requires domain { inputs.now.domain ≡ T.domain }
    requires rises { from ≤ upto }
    requires lists { AreBelow from made.rows.items made.starts.items made.columns.items made.values.items }
    requires below { All (λ e. e.0.0 < from) (flat_entries T.value made.rows.items made.starts.items made.columns.items made.values.items) }
    ensures lists { IfOk result (λ all. AreBelow upto all.rows.items all.starts.items all.columns.items all.values.items) }
    ensures entries { IfOk result (λ all. flat_entries T.value all.rows.items all.starts.items all.columns.items all.values.items ≡ flat_entries T.value made.rows.items made.starts.items made.columns.items made.values.items ++ rows_between from upto (made_by inputs.now)) }
{
    let _domain = inputs.semiring.domain();
    let mask = inputs.bound();
    let first = lend_matrix::<T>(&inputs.first);
    let second = lend_matrix::<T>(&inputs.second);
    let all = append_product::<T>(
        alloc,
        inputs.semiring,
        inputs.structure,
        mask,
        first,
        second,
        made,
        from,
        upto,
        reserves,
    )?;
    Ok(all)
}

/// No rows of a product yet. Takes no memory.
pub(crate) fn nothing_of<T: Stored + Drop>(alloc: Global, inputs: &Inputs) -> MadeRows<T>
    ensures { IsSoFar T.value inputs.now 0 result.rows.items result.starts.items result.columns.items result.values.items }
{
    let _ = inputs;
    no_rows::<T>(alloc)
}

/// Makes rows of a product in place, after those so far. Where there is no entry yet, memory is reserved for all rows. `AllocError` where
/// memory is refused; then nothing is made.
pub(crate) fn add_own<T: InBits + Folded + Drop>(
    alloc: Global,
    inputs: &Inputs,
    from: u64,
    upto: u64,
    made: MadeRows<T>,
) -> Result<MadeRows<T>, AllocError>
    requires domain { inputs.now.domain ≡ T.domain }
    requires rises { from ≤ upto }
    requires within { upto ≤ inputs.now.nrows }
    requires so_far { IsSoFar T.value inputs.now from made.rows.items made.starts.items made.columns.items made.values.items }
    ensures { IfOk result (λ all. IsSoFar T.value inputs.now upto all.rows.items all.starts.items all.columns.items all.values.items) }
{
    let (_nrows, _ncols) = inputs.dims();
    let reserves = made.columns.len() == 0;
    let all = append_own::<T>(alloc, inputs, from, upto, made, reserves)?;
    Ok(all)
}

/// Puts the rows of a block from one on after those so far. `AllocError` where memory is refused; then the lists may have some of them.
pub(crate) fn add_rows<T: Stored + Drop>(
    inputs: &Inputs,
    from: u64,
    block: &Block,
    made: &mut MadeRows<T>,
) -> Result<(), AllocError>
    requires domain { inputs.now.domain ≡ T.domain }
    requires block { IsBlock inputs.now block.now.from block.now.upto block.now.made }
    requires begins { block.now.from ≤ from }
    requires ends { from ≤ block.now.upto }
    requires so_far { IsSoFar T.value inputs.now from made.old.rows.items made.old.starts.items made.old.columns.items made.old.values.items }
    ensures { OnOk result (IsSoFar T.value inputs.now block.now.upto made.new.rows.items made.new.starts.items made.new.columns.items made.new.values.items) }
{
    let (_nrows, _ncols) = inputs.dims();
    let lent = lend_matrix::<T>(&block.made);
    append_rows::<T>(made, &lent, from, block.upto)?;
    Ok(())
}

/// The matrix of all rows of a product. They are not copied.
pub(crate) fn finished<T: Stored + Drop>(
    alloc: Global,
    inputs: &Inputs,
    made: MadeRows<T>,
) -> SparseMatrix
    requires domain { inputs.now.domain ≡ T.domain }
    requires all { IsSoFar T.value inputs.now inputs.now.nrows made.rows.items made.starts.items made.columns.items made.values.items }
    ensures matrix { result.matrix ≡ whole_of inputs.now }
    ensures assembled { result.assembled ≡ true }
{
    let (nrows, ncols) = inputs.dims();
    keep_rows::<T>(alloc, nrows, ncols, made)
}

/// The rows of a product from one up to another, whose values are of one Rust type. `AllocError` where memory is refused; then nothing is
/// made.
fn block_by<T: InBits + Folded + Drop>(
    alloc: Global,
    inputs: &Inputs,
    from: u64,
    upto: u64,
) -> Result<SparseMatrix, AllocError>
    requires domain { inputs.now.domain ≡ T.domain }
    requires rises { from ≤ upto }
    requires within { upto ≤ inputs.now.nrows }
    ensures { IfOk result (λ block. IsBlock inputs.now from upto block) }
{
    let (nrows, ncols) = inputs.dims();
    let none = no_rows::<T>(alloc);
    let made = append_own::<T>(alloc, inputs, from, upto, none, false)?;
    Ok(keep_rows::<T>(alloc, nrows, ncols, made))
}

/// The rows of a product from one up to another, as a matrix. `AllocError` where memory is refused; then nothing is made.
pub(crate) fn block_of(
    alloc: Global,
    inputs: &Inputs,
    from: u64,
    upto: u64,
) -> Result<SparseMatrix, AllocError>
    requires rises { from ≤ upto }
    requires within { upto ≤ inputs.now.nrows }
    ensures { IfOk result (λ block. IsBlock inputs.now from upto block) }
{
    match inputs.first.domain() {
        Domain::Bool => block_by::<bool>(alloc, inputs, from, upto),
        Domain::Uint64 => block_by::<u64>(alloc, inputs, from, upto),
    }
}
