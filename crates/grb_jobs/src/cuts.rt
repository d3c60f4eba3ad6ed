//! Whether a product is dear, and where its blocks begin: each has about as many products of entries as an eighth of those that are left.
//! Both are told by a sample of the first matrix's entries. Nothing here bears on what is made.
ghost use Rattle.std.specs.Prelude.{◌≡◌, ◌<◌, true, IfSome};

use grb_ewise::{is_worth_opening, place_of};
use grb_lists::FlatRows;
use grb_sparse::SparseMatrix;
use std::alloc::{AllocError, Global};

/// A product is dear that has so many products of entries at the least (own).
const DEAR: u64 = 1 << 20;

/// And so many for each entry that it reads, since inputs are compared (own).
const FOR_ONE_ENTRY: u64 = 16;

/// Of so many entries of the first matrix one is looked at (own).
const APART: usize = 128;

/// Or of more, so that so many are looked at, at the most (own).
const MOST_SAMPLES: usize = 4096;

/// A product has so many blocks at the most (own).
const MOST_BLOCKS: u64 = 64;

/// A block has so many products for each column of the second matrix at the least, since memory is prepared for each column in each block
/// (own).
const FOR_ONE_COLUMN: u64 = 4;

/// Of how many entries one is looked at.
fn step_of(entries: usize) -> usize
    ensures { 0 < result }
{
    (entries / MOST_SAMPLES).max(APART)
}

/// How many entries a row has.
fn length_of(lists: &FlatRows, row: u32) -> u64 {
    let rows = lists.rows();
    let at = row as usize;
    if at < rows.len() && rows[at] == row {
        return lists.row_columns(at).len() as u64;
    }
    match place_of(rows, row) {
        Some(at) => lists.row_columns(at).len() as u64,
        None => 0,
    }
}

/// About how many products of entries there are, if no mask bounds the product.
fn products_of(first: &FlatRows, second: &FlatRows, step: usize) -> u64
    requires { 0 < step }
{
    let columns = first.columns();
    let mut sum: u64 = 0;
    for k in 0..(columns.len() / step).saturating_add(1) {
        if let Some(column) = columns.get(k.saturating_mul(step)) {
            sum = sum.saturating_add(length_of(second, *column));
        }
    }
    sum.saturating_mul(step as u64)
}

/// The same of a product that is made in the rows alone in which a mask stores something.
fn bounded(products: u64, first: &FlatRows, mask: Option<&SparseMatrix>) -> u64
    requires { IfSome mask (λ m. m.now.assembled ≡ true) }
{
    let Some(mask) = mask else {
        return products;
    };
    let rows = (first.rows().len() as u64).max(1);
    let made = (mask.lists().rows().len() as u64).min(rows);
    (products / rows).saturating_mul(made)
}

/// How many products a block has at the least where so many are left: an eighth of them, so that the first blocks are large, since each is
/// prepared for, and the last ones small, so that all who make them end at about one time.
fn share_of(left: u64, least: u64) -> u64 {
    (left / 8).max(least)
}

/// The rows with which blocks begin, of which each has so many products at the least, and at last the number of rows. `AllocError` where
/// memory is refused.
fn cut(
    alloc: Global,
    first: &FlatRows,
    second: &FlatRows,
    step: usize,
    nrows: u64,
    all: u64,
    least: u64,
) -> Result<Vec<u64>, AllocError>
    requires { 0 < step }
{
    let columns = first.columns();
    let mut cuts = Vec::new(alloc);
    cuts.push(0)?;
    let mut last: u64 = 0;
    let mut left = all;
    let mut count: u64 = 0;
    let mut hint: usize = 0;
    'samples: for k in 0..(columns.len() / step).saturating_add(1) {
        let at = k.saturating_mul(step);
        if at >= first.len() {
            break;
        }
        if count >= share_of(left, least) {
            let row = first.index_at(at, &mut hint) / 0x1_0000_0000;
            if row > last {
                cuts.push(row)?;
                last = row;
                left = left.saturating_sub(count);
                count = 0;
            }
        }
        if let Some(column) = columns.get(at) {
            let length = length_of(second, *column);
            count = count.saturating_add(length.saturating_mul(step as u64));
        }
    }
    cuts.push(nrows)?;
    Ok(cuts)
}

/// Where the blocks of a dear product begin, and where they end; none where it is not dear, the second matrix has far more columns than
/// there are entries, or memory is refused.
pub(crate) fn cuts_of(
    alloc: Global,
    mask: Option<&SparseMatrix>,
    first: &SparseMatrix,
    second: &SparseMatrix,
) -> Option<Vec<u64>>
    requires mask { IfSome mask (λ m. m.now.assembled ≡ true) }
    requires first { first.now.assembled ≡ true }
    requires second { second.now.assembled ≡ true }
{
    let (nrows, _inner) = first.dims();
    let (inner, ncols) = second.dims();
    let (a, b) = (first.lists(), second.lists());
    let entries = a.len().saturating_add(b.len());
    if (a.len() as u64).saturating_mul((b.len() as u64).min(ncols)) < DEAR {
        return None;
    }
    if !is_worth_opening(ncols, entries) || !is_worth_opening(inner, entries) {
        return None;
    }
    let step = step_of(a.len());
    let all = bounded(products_of(a, b, step), a, mask);
    let masked = match mask {
        Some(mask) => mask.nvals(),
        None => 0,
    };
    let read = (entries as u64).saturating_add(masked);
    if all < DEAR || all < read.saturating_mul(FOR_ONE_ENTRY) {
        return None;
    }
    let least = ncols.saturating_mul(FOR_ONE_COLUMN).max(all / MOST_BLOCKS);
    if all / least.max(1) < 4 {
        return None;
    }
    cut(alloc, a, b, step, nrows, all, least).ok()
}
