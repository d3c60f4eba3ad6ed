//! Marks of columns, by which the entries of a row are found that stand at columns of another row.
ghost use Rattle.std.specs.Prelude.{◌≡◌, ◌<◌, ◌≤◌, true, false, length, slice_index_or, All, IfOk, OnOk};
ghost use Rattle.grb_core.specs.Entries.{restricted};
ghost use Rattle.grb_kernels.specs.Typed.{entries_of, first_entries};
ghost use Rattle.grb_ewise.specs.Marks.{AreClear, IsCutTo, marked};
ghost use Rattle.grb_ewise.specs.Ranks.{Rise};

use crate::rows::lengthen;
use crate::stored::Stored;
use grb_kernels::{EntrySlice, Rule, emit};
use std::alloc::{AllocError, Global};

/// Lists in which entries of a row are laid that is cut.
#[derive(Drop)]
pub(crate) struct Laid<T> {
    pub(crate) columns: Vec<u32>,
    pub(crate) values: Vec<T>,
    /// How many entries the rows had that were cut so far.
    pub(crate) tried: usize,
    /// How many of them were left.
    pub(crate) left: usize,
}

/// So many columns at most are looked at to tell whether those of a row stand near each other.
const LOOKED_AT: usize = 512;

/// Columns that are at most this far apart stand near each other.
const NEAR: u32 = 4;

/// Whether the columns of a row stand near each other, as in a grid: then rows are merged as they lie, since the order of two columns is
/// guessed well. Columns are looked at all over the list, since the first rows may be unlike the others. Either answer is right; it bears
/// on time alone.
fn seem_near(columns: &[u32]) -> bool {
    let last = columns.len().saturating_sub(1);
    // Odd, so that in rows of one even length not the same places are met again and again.
    let step = columns.len() / LOOKED_AT | 1;
    let mut place = 0usize;
    let mut near = 0usize;
    let looked_at = last.min(LOOKED_AT);
    'places: for _ in 0..looked_at {
        if place < last {
            let apart = columns[place + 1].wrapping_sub(columns[place]);
            near = near.wrapping_add(usize::from(apart <= NEAR));
        }
        place = place.saturating_add(step);
    }
    near > looked_at / 3
}

/// A mark for each column, of a byte, none of which is set: where nothing is kept that one matrix alone stores, the columns of a row stand
/// apart, and the matrix has no more than 8 columns for each entry. Else there are none. `AllocError` where memory is refused.
///
/// - `columns`: those of the first matrix, row by row.
/// - `entries`: how many entries both have.
pub(crate) fn marks_for(
    alloc: Global,
    keeps: bool,
    ncols: u64,
    columns: &[u32],
    entries: usize,
) -> Result<Vec<bool>, AllocError>
    ensures { IfOk result (λ marks. AreClear marks.items) }
{
    if keeps || ncols / 8 > entries as u64 || seem_near(columns) {
        return Ok(Vec::new(alloc));
    }
    let marks = vec![in alloc; false; ncols as usize]?;
    Ok(marks)
}

/// Whether there is a mark for each of some columns, which rise.
fn have_marks(columns: &[u32], marks: &[bool]) -> bool
    requires rising { Rise columns.now }
    requires some { 0 < length columns.now }
    ensures { result ≡ true → All (λ j. j < length marks.now) columns.now }
{
    (columns[columns.len() - 1] as usize) < marks.len()
}

/// A row has so many entries at least, if it is cut.
const FEW: usize = 4;

/// A row has so many entries at most, if it is cut: the longest rows of a matrix share more than others do.
const MANY: usize = 128;

/// How many times as long as another a row is at most, if one of them is cut.
const ALIKE: usize = 16;

/// So many entries may be left of rows, before it is asked how many these are of all.
const SOME: usize = 64;

/// Whether little was left of the rows that were cut so far: some entries, or no more than an eighth. Either answer is right; it bears on
/// time alone.
fn is_little_left<T>(laid: &Laid<T>) -> bool {
    laid.left <= SOME || laid.left <= laid.tried / 8
}

/// Whether a row is cut to the columns of another one before both are merged: where nothing is kept of the first alone, there are marks for
/// the columns of both, both have some entries, none of them very many, and little was left of the rows so far.
pub(crate) fn is_cut<T: Stored, U: Stored, R: Rule<T, U>>(
    rule: &R,
    x: &EntrySlice<T>,
    y: &EntrySlice<U>,
    marks: &[bool],
    laid: &Laid<T>,
) -> bool
    ensures left { result ≡ true → R.left rule.now ≡ false }
    ensures x_marks { result ≡ true → All (λ j. j < length marks.now) x.now.indices.now }
    ensures y_marks { result ≡ true → All (λ j. j < length marks.now) y.now.indices.now }
{
    let (a, b) = (x.indices.len(), y.indices.len());
    if marks.is_empty() || rule.keeps_left() || !is_little_left(laid) {
        return false;
    }
    if a < FEW || b < FEW || a > MANY || a / ALIKE >= b || b / ALIKE >= a {
        return false;
    }
    have_marks(x.indices, marks) && have_marks(y.indices, marks)
}

/// Marks columns, or takes their marks away.
fn mark(marks: &mut [bool], columns: &[u32], here: bool)
    requires { All (λ j. j < length marks.old) columns.now }
    ensures { marks.new ≡ marked here columns.now marks.old }
{
    'columns: for column in columns {
        marks[*column as usize] = here;
    }
}

/// Writes the entries of a row that stand at marked columns to the front of two lists, and answers how many these are.
fn keep_marked<T: Stored>(
    x: &EntrySlice<T>,
    marks: &[bool],
    columns: &mut [u32],
    values: &mut [T],
) -> usize
    requires marks { All (λ j. j < length marks.now) x.now.indices.now }
    requires room { length x.now.indices.now ≤ length columns.old }
    requires same { length columns.old ≡ length values.old }
    ensures entries { first_entries T.value result columns.new values.new ≡ restricted (λ j. slice_index_or marks.now j false) (entries_of T.value x.now.indices.now x.now.values.now) }
    ensures most { result ≤ length x.now.indices.now }
{
    let mut k = 0;
    'entries: for i in 0..x.indices.len() {
        let column = x.indices[i];
        k = emit(
            columns,
            values,
            k,
            column,
            x.values[i],
            marks[column as usize],
        );
    }
    k
}

/// Lays the entries of a row that stand at columns of another one, and answers how many these are. `AllocError` where memory is refused.
pub(crate) fn lay_common<T: Stored, U: Stored>(
    x: &EntrySlice<T>,
    y: &EntrySlice<U>,
    marks: &mut [bool],
    laid: &mut Laid<T>,
) -> Result<usize, AllocError>
    requires clear { AreClear marks.old }
    requires same { length laid.old.columns.items ≡ length laid.old.values.items }
    requires x_marks { All (λ j. j < length marks.old) x.now.indices.now }
    requires y_marks { All (λ j. j < length marks.old) y.now.indices.now }
    ensures clear { AreClear marks.new }
    ensures same { OnOk result (length laid.new.values.items ≡ length laid.new.columns.items) }
    ensures within { IfOk result (λ n. n ≤ length laid.new.columns.items) }
    ensures most { IfOk result (λ n. n ≤ length x.now.indices.now) }
    ensures entries { IfOk result (λ n. IsCutTo y.now.indices.now (entries_of T.value x.now.indices.now x.now.values.now) (first_entries T.value n laid.new.columns.items laid.new.values.items)) }
{
    lengthen(&mut laid.columns, &mut laid.values, x.indices.len())?;
    mark(marks, y.indices, true);
    let (columns, values) = (laid.columns.as_mut_slice(), laid.values.as_mut_slice());
    let n = keep_marked(x, marks, columns, values);
    mark(marks, y.indices, false);
    laid.tried = laid.tried.saturating_add(x.indices.len());
    laid.left = laid.left.saturating_add(n);
    Ok(n)
}
