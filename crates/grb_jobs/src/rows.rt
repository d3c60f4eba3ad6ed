//! Rows of a matrix from one up to another, put after other rows.
ghost use Rattle.std.specs.Prelude.{◌≡◌, ◌<◌, ◌≤◌, ◌++◌, length, All, OnOk, slice_index};
ghost use Rattle.grb_core.specs.Results.{row_of};
ghost use Rattle.grb_kernels.specs.Typed.{entries_of};
ghost use Rattle.grb_lists.specs.Cells.{decoded};
ghost use Rattle.grb_ewise.specs.Rows.{flat_entries};
ghost use Rattle.grb_mxm.specs.Rows.{AreBelow, rows_between};

use grb_ewise::Stored;
use grb_kernels::EntrySlice;
use grb_mxm::{MadeRows, numbers_between, push_row};
use grb_semirings::MatrixRows;
use std::alloc::AllocError;

/// The `k`th row that has entries.
fn row_placed<'a, T: Stored>(m: &MatrixRows<'a, T>, k: usize) -> EntrySlice<'a, T>
    requires at { k < length m.now.lists.now.rows }
    ensures entries { entries_of T.value result.indices.now result.values.now ≡ row_of (slice_index m.now.lists.now.rows k) (decoded m.now.lists.now.entries) }
{
    T::row(m.lists, k)
}

/// Puts the rows of a matrix from one up to another after those so far, which are before them. Each row is copied whole. `AllocError` where
/// memory is refused; then some of them may stand in the lists.
pub(crate) fn append_rows<T: Stored + Drop>(
    made: &mut MadeRows<T>,
    m: &MatrixRows<T>,
    from: u64,
    upto: u64,
) -> Result<(), AllocError>
    requires rises { from ≤ upto }
    requires lists { AreBelow from made.old.rows.items made.old.starts.items made.old.columns.items made.old.values.items }
    requires below { All (λ e. e.0.0 < from) (flat_entries T.value made.old.rows.items made.old.starts.items made.old.columns.items made.old.values.items) }
    ensures lists { OnOk result (AreBelow upto made.new.rows.items made.new.starts.items made.new.columns.items made.new.values.items) }
    ensures entries { OnOk result (flat_entries T.value made.new.rows.items made.new.starts.items made.new.columns.items made.new.values.items ≡ flat_entries T.value made.old.rows.items made.old.starts.items made.old.columns.items made.old.values.items ++ rows_between from upto (decoded m.now.lists.now.entries)) }
{
    let (first, numbers) = numbers_between(m.lists.rows(), from, upto);
    'joining: for k in 0..numbers.len() {
        let row = row_placed::<T>(&*m, first + k);
        push_row(made, numbers[k], row.indices, row.values)?;
    }
    Ok(())
}
