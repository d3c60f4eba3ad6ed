//! Flat lists made of arrays, where the cells of these rise.
ghost use Rattle.std.specs.Prelude.{◌≡◌, ◌<◌, ◌^◌, true, length, All, IfOk, IfSome, IfNone, slice_index};
ghost use Rattle.grb_core.specs.declared.domain.Domain.TheVariants as domain;
ghost use Rattle.grb_core.specs.Contents.{IsDimension};
ghost use Rattle.grb_lists.specs.Cells.{codes_of, IsFlat};
ghost use Rattle.grb_lists.specs.Stored.{bool_entries, number_entries};
ghost use Rattle.grb_lists.specs.Arrays.{cells_in, AreIndicesRising, AreRising, IsBefore};

use crate::flat::{FlatRows, begin_row};
use crate::values::copied;
use std::alloc::{AllocError, Global};

/// The largest row and the largest column within the largest dimensions, which are 2^32 - 1.
const LARGEST: u64 = 0xffff_fffe;

/// The lists of the cells of flat rows.
#[derive(Drop)]
struct CellLists {
    rows: Vec<u32>,
    starts: Vec<usize>,
    columns: Vec<u32>,
}

/// Whether the cell of row `i` and column `j` comes before that of row `k` and column `l`.
fn comes_before(i: u64, j: u64, k: u64, l: u64) -> bool
    ensures yes { result ≡ true → IsBefore i j k l }
    ensures no { IsBefore i j k l → result ≡ true }
{
    (i < k) | ((i == k) & (j < l))
}

/// Numbers of rows and of columns within which the cells of these arrays lie, if each cell comes before the next one and the largest
/// dimensions have them all. Walks the arrays once, and takes no memory.
pub fn dims_of_rising(rows: &[u64], columns: &[u64]) -> Option<(u64, u64)>
    requires { length columns.now ≡ length rows.now }
    ensures rising { IfSome result (λ dims. AreRising rows.now columns.now) }
    ensures rows { IfSome result (λ dims. IsDimension dims.0 × All (λ i. i < dims.0) rows.now) }
    ensures columns { IfSome result (λ dims. IsDimension dims.1 × All (λ j. j < dims.1) columns.now) }
    ensures none { IfNone result (AreRising rows.now columns.now → ⊥) }
{
    let count = rows.len();
    if count == 0 {
        return Some((1, 1));
    }
    let mut rise = true;
    let mut widest = columns[0];
    for at in 1..count {
        rise = rise & comes_before(rows[at - 1], columns[at - 1], rows[at], columns[at]);
        widest = widest.max(columns[at]);
    }
    let last = rows[count - 1];
    if rise && last <= LARGEST && widest <= LARGEST {
        return Some((last + 1, widest + 1));
    }
    None
}

/// The lists of the cells of these arrays. Takes memory for as many rows as there are cells. `AllocError` where that is refused; then
/// nothing is made.
fn cell_lists(alloc: Global, rows: &[u64], columns: &[u64]) -> Result<CellLists, AllocError>
    requires same { length columns.now ≡ length rows.now }
    requires rising { AreRising rows.now columns.now }
    ensures flat { IfOk result (λ lists. IsFlat lists.rows.items lists.starts.items lists.columns.items) }
    ensures codes { IfOk result (λ lists. codes_of lists.rows.items lists.starts.items lists.columns.items ≡ cells_in rows.now columns.now) }
    ensures len { IfOk result (λ lists. length lists.columns.items ≡ length columns.now) }
{
    let mut listed = Vec::with_capacity(alloc, rows.len())?;
    let mut starts = Vec::with_capacity(alloc, rows.len())?;
    let mut places = Vec::with_capacity(alloc, rows.len())?;
    'cells: for at in 0..rows.len() {
        begin_row(&mut listed, &mut starts, &places, rows[at] as u32);
        places.push_reserved(columns[at] as u32);
    }
    Ok(CellLists {
        rows: listed,
        starts,
        columns: places,
    })
}

/// Numbers below 2^32, each in half the memory. `AllocError` where memory is refused; then nothing is made.
fn narrowed(alloc: Global, numbers: &[u64]) -> Result<Vec<u32>, AllocError>
    requires { All (λ n. n < 2 ^ 32) numbers.now }
    ensures { IfOk result (λ narrow. narrow.items ≡ numbers.now) }
{
    let mut narrow = Vec::with_capacity(alloc, numbers.len())?;
    'numbers: for number in numbers {
        narrow.push_reserved(*number as u32);
    }
    Ok(narrow)
}

impl FlatRows {
    /// The entries of these arrays, whose cells rise: a row, a column and a truth value at each place. Each list is written once, with room
    /// for as many rows as there are entries. `AllocError` where memory is refused; then nothing is made.
    pub fn of_bool_arrays(
        alloc: Global,
        rows: &[u64],
        columns: &[u64],
        bools: &[bool],
    ) -> Result<FlatRows, AllocError>
        requires columns { length columns.now ≡ length rows.now }
        requires bools { length bools.now ≡ length rows.now }
        requires rising { AreRising rows.now columns.now }
        ensures entries { IfOk result (λ lists. lists.entries ≡ bool_entries (cells_in rows.now columns.now) bools.now) }
        ensures domain { IfOk result (λ lists. lists.domain ≡ domain.Bool) }
    {
        let cells = cell_lists(alloc, rows, columns)?;
        let bools = copied(alloc, bools)?;
        Ok(FlatRows::from_bools(cells.rows, cells.starts, cells.columns, bools))
    }

    /// The same with a number at each place.
    pub fn of_number_arrays(
        alloc: Global,
        rows: &[u64],
        columns: &[u64],
        numbers: &[u64],
    ) -> Result<FlatRows, AllocError>
        requires columns { length columns.now ≡ length rows.now }
        requires numbers { length numbers.now ≡ length rows.now }
        requires rising { AreRising rows.now columns.now }
        ensures entries { IfOk result (λ lists. lists.entries ≡ number_entries (cells_in rows.now columns.now) numbers.now) }
        ensures domain { IfOk result (λ lists. lists.domain ≡ domain.Uint64) }
    {
        let cells = cell_lists(alloc, rows, columns)?;
        let numbers = copied(alloc, numbers)?;
        Ok(FlatRows::from_numbers(cells.rows, cells.starts, cells.columns, numbers))
    }

    /// The entries of these arrays in row 0, whose indices rise: a column and a truth value at each place. `AllocError` where memory is
    /// refused; then nothing is made.
    pub fn row_of_bool_arrays(
        alloc: Global,
        indices: &[u64],
        bools: &[bool],
    ) -> Result<FlatRows, AllocError>
        requires same { length bools.now ≡ length indices.now }
        requires rising { AreIndicesRising indices.now }
        ensures entries { IfOk result (λ row. row.entries ≡ bool_entries indices.now bools.now) }
        ensures domain { IfOk result (λ row. row.domain ≡ domain.Bool) }
    {
        FlatRows::row_from_bools(alloc, narrowed(alloc, indices)?, copied(alloc, bools)?)
    }

    /// The same with a number at each place.
    pub fn row_of_number_arrays(
        alloc: Global,
        indices: &[u64],
        numbers: &[u64],
    ) -> Result<FlatRows, AllocError>
        requires same { length numbers.now ≡ length indices.now }
        requires rising { AreIndicesRising indices.now }
        ensures entries { IfOk result (λ row. row.entries ≡ number_entries indices.now numbers.now) }
        ensures domain { IfOk result (λ row. row.domain ≡ domain.Uint64) }
    {
        FlatRows::row_from_numbers(alloc, narrowed(alloc, indices)?, copied(alloc, numbers)?)
    }
}

/// A size within which these indices lie, if each is below the next one and the largest size has them all. Walks them once, and takes no
/// memory.
pub fn size_of_rising(indices: &[u64]) -> Option<u64>
    ensures rising { IfSome result (λ size. AreIndicesRising indices.now) }
    ensures size { IfSome result (λ size. IsDimension size × All (λ i. i < size) indices.now) }
    ensures none { IfNone result (AreIndicesRising indices.now → ⊥) }
{
    let count = indices.len();
    if count == 0 {
        return Some(1);
    }
    let mut rise = true;
    for at in 1..count {
        rise = rise & (indices[at - 1] < indices[at]);
    }
    let last = indices[count - 1];
    if rise && last <= LARGEST {
        return Some(last + 1);
    }
    None
}
