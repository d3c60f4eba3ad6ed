//! Each column of a matrix folded to one value, in one pass over its entries.
ghost use Rattle.std.specs.Prelude.{◌≡◌, ◌<◌, All, IfOk};
ghost use Rattle.grb_core.specs.Results.{reduce_rows_of, transposed};
ghost use Rattle.grb_kernels.specs.Typed.{entries_of};
ghost use Rattle.grb_lists.specs.Cells.{decoded};
ghost use Rattle.grb_sums.specs.ColumnSums.{by_column, column_folds};

use grb_core::transposed_exchanges_rows_and_columns;
use grb_ewise::{Stored, distinct, is_worth_opening};
use grb_kernels::{EntryList, Scalar};
use grb_lists::FlatRows;
use grb_semirings::{MatrixRows, MonoidOver};
use grb_sums::{AllColumns, Columns, NamedColumns, Term, add_entries, close_sums, open_sums};
use std::alloc::{AllocError, Global};

/// Of an entry its own value is added.
#[derive(Drop)]
struct OwnValue;

impl<T: Scalar> Term<T> for OwnValue {
    ghost gives = { λ term. λ v. v };

    fn of(&self, value: T) -> T {
        value
    }
}

/// These columns folded by a monoid as a type. Takes memory for as many places as there are columns. `AllocError` where that is refused;
/// then nothing is made.
fn fold_these_columns<T: Stored + Drop, M: MonoidOver<T>, C: Columns>(
    alloc: Global,
    columns: &C,
    lists: &FlatRows,
) -> Result<EntryList<T>, AllocError>
    requires domain { lists.now.domain ≡ T.domain }
    requires in_range { All (λ e. e.0.1 < C.below columns.now) (decoded lists.now.entries) }
    ensures { IfOk result (λ made. entries_of T.value made.indices.items made.values.items ≡ column_folds M.monoid (C.names columns.now) (by_column (decoded lists.now.entries))) }
{
    let mut opened = open_sums::<T, M>(alloc, columns.count())?;
    let words = opened.words.as_mut_slice();
    let sums = opened.sums.as_mut_slice();
    add_entries::<T, M, C, OwnValue>(
        columns,
        &OwnValue,
        lists.columns(),
        T::of_lists(lists),
        words,
        sums,
    );
    let made = close_sums(alloc, columns, words, sums)?;
    Ok(made)
}

/// Each column folded by a monoid as a type, in one pass. Where `ncols` is more than 8 times the entries, the columns that store something
/// are sorted first, and that of each entry is searched among them. Values after a terminal one are read too. `AllocError` where memory is
/// refused; then nothing is made.
pub fn fold_columns<T: Stored + Drop, M: MonoidOver<T>>(
    alloc: Global,
    rows: &MatrixRows<T>,
) -> Result<EntryList<T>, AllocError>
    ensures { IfOk result (λ made. entries_of T.value made.indices.items made.values.items ≡ reduce_rows_of M.monoid (transposed (decoded rows.now.lists.now.entries))) }
{
    // The rows of the transposed are the columns.
    transposed_exchanges_rows_and_columns();
    let lists = rows.lists;
    if is_worth_opening(rows.ncols, lists.len()) {
        let all = AllColumns {
            ncols: rows.ncols as u32,
        };
        let made = fold_these_columns::<T, M, AllColumns>(alloc, &all, lists)?;
        return Ok(made);
    }
    let names = distinct(alloc, lists.columns(), &[])?;
    let named = NamedColumns {
        names: names.as_slice(),
    };
    let made = fold_these_columns::<T, M, NamedColumns>(alloc, &named, lists)?;
    Ok(made)
}
