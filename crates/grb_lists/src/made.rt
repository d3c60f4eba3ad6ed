//! Flat lists made of lists that were written elsewhere, with no copy.
ghost use Rattle.std.specs.Prelude.{◌≡◌, ◌<◌, ◌^◌, [], ◌∷◌, length, All, IfOk, IsTrue};
ghost use Rattle.std.specs.Ordering.{nat_cmp};
ghost use Rattle.std.specs.FinMap.{is_sorted};
ghost use Rattle.grb_lists.specs.Cells.{codes_of, IsFlat};
ghost use Rattle.grb_lists.specs.Stored.{bool_entries, number_entries};

use crate::flat::FlatRows;
use crate::values::Values;
use grb_core::Domain;
use std::alloc::{AllocError, Global};

/// The lists of rows and starts of one row, the row 0.
fn first_row(alloc: Global) -> Result<(Vec<u32>, Vec<usize>), AllocError>
    ensures rows { IfOk result (λ lists. lists.0.items ≡ 0 ∷ []) }
    ensures starts { IfOk result (λ lists. lists.1.items ≡ 0 ∷ []) }
{
    let rows = vec![in alloc; 0u32; 1]?;
    let starts = vec![in alloc; 0usize; 1]?;
    Ok((rows, starts))
}

impl FlatRows {
    /// The rows that have entries, where each of them begins, and the column and the truth value of each entry. Takes no memory.
    pub fn from_bools(
        rows: Vec<u32>,
        starts: Vec<usize>,
        columns: Vec<u32>,
        bools: Vec<bool>,
    ) -> FlatRows
        requires flat { IsFlat rows.items starts.items columns.items }
        requires same { length bools.items ≡ length columns.items }
        requires ordered { IsTrue (is_sorted nat_cmp (bool_entries (codes_of rows.items starts.items columns.items) bools.items)) }
        ensures entries { result.entries ≡ bool_entries (codes_of rows.items starts.items columns.items) bools.items }
        ensures domain { result.domain ≡ Domain.Bool }
    {
        FlatRows {
            rows,
            starts,
            columns,
            values: Values::Bool(bools),
        }
    }

    /// The same with a number for each entry. Takes no memory.
    pub fn from_numbers(
        rows: Vec<u32>,
        starts: Vec<usize>,
        columns: Vec<u32>,
        numbers: Vec<u64>,
    ) -> FlatRows
        requires flat { IsFlat rows.items starts.items columns.items }
        requires same { length numbers.items ≡ length columns.items }
        requires ordered { IsTrue (is_sorted nat_cmp (number_entries (codes_of rows.items starts.items columns.items) numbers.items)) }
        ensures entries { result.entries ≡ number_entries (codes_of rows.items starts.items columns.items) numbers.items }
        ensures domain { result.domain ≡ Domain.Uint64 }
    {
        FlatRows {
            rows,
            starts,
            columns,
            values: Values::Uint64(numbers),
        }
    }

    /// The row 0 alone, of the column and the truth value of each entry. Takes memory for one row; `AllocError` where it is refused, and
    /// then nothing is made.
    pub fn row_from_bools(
        alloc: Global,
        columns: Vec<u32>,
        bools: Vec<bool>,
    ) -> Result<FlatRows, AllocError>
        requires fit { All (λ j. j < 2 ^ 32) columns.items }
        requires same { length bools.items ≡ length columns.items }
        requires ordered { IsTrue (is_sorted nat_cmp (bool_entries columns.items bools.items)) }
        ensures entries { IfOk result (λ row. row.entries ≡ bool_entries columns.items bools.items) }
        ensures domain { IfOk result (λ row. row.domain ≡ Domain.Bool) }
    {
        if columns.is_empty() {
            return Ok(FlatRows::new(alloc, Domain::Bool));
        }
        let (rows, starts) = first_row(alloc)?;
        Ok(FlatRows::from_bools(rows, starts, columns, bools))
    }

    /// The row 0 alone, of the column and the number of each entry. Takes memory for one row; `AllocError` where it is refused, and then
    /// nothing is made.
    pub fn row_from_numbers(
        alloc: Global,
        columns: Vec<u32>,
        numbers: Vec<u64>,
    ) -> Result<FlatRows, AllocError>
        requires fit { All (λ j. j < 2 ^ 32) columns.items }
        requires same { length numbers.items ≡ length columns.items }
        requires ordered { IsTrue (is_sorted nat_cmp (number_entries columns.items numbers.items)) }
        ensures entries { IfOk result (λ row. row.entries ≡ number_entries columns.items numbers.items) }
        ensures domain { IfOk result (λ row. row.domain ≡ Domain.Uint64) }
    {
        if columns.is_empty() {
            return Ok(FlatRows::new(alloc, Domain::Uint64));
        }
        let (rows, starts) = first_row(alloc)?;
        Ok(FlatRows::from_numbers(rows, starts, columns, numbers))
    }
}
