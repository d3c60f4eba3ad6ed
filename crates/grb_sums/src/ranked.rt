//! The rows of a matrix by their numbers, with the columns of all its entries numbered from 0 on.
ghost use Rattle.std.specs.Prelude.{◌≡◌, ◌<◌, length, map, slice_index, All, IsTrue};
ghost use Rattle.std.specs.FinMap.{is_sorted};
ghost use Rattle.grb_core.specs.Entries.{cell_cmp, values_of};
ghost use Rattle.grb_core.specs.Results.{row_of};
ghost use Rattle.grb_kernels.specs.Typed.{entries_of};
ghost use Rattle.grb_lists.specs.Cells.{decoded};
ghost use Rattle.grb_ewise.specs.Ranks.{Rise};
ghost use Rattle.grb_sums.specs.Naming.{name_in, renamed};
ghost use Rattle.grb_sums.specs.Spans.{AreSpans};

use crate::naming::Names;
use crate::spans::{part, span_at, span_of};
use grb_ewise::Stored;
use grb_kernels::EntrySlice;
use grb_lists::FlatRows;

/// A matrix whose columns have ranks: `names` has the columns, each once and in rising order, and `ranks` for each entry the place of its
/// column there. A column of `names` in which nothing is stored does no harm. `values` has the value of each entry, and `spans` where each
/// row begins, by its number, or nothing.
#[derive(Drop)]
pub struct RankedRows<'a, T: Stored> {
    /// The entries, as compressed rows.
    pub lists: &'a FlatRows,
    /// For each entry the place of its column.
    pub ranks: &'a [u32],
    /// The value of each entry.
    pub values: &'a [T],
    /// The columns, by their places.
    pub names: &'a Names<'a>,
    /// Where each row begins, by its number; or nothing.
    pub spans: &'a [u32],
    ghost domain: { lists.now.domain ≡ T.domain },
    ghost ordered: { IsTrue (is_sorted cell_cmp (decoded lists.now.entries)) },
    ghost in_range: { All (λ r. r < length names.now) ranks.now },
    ghost named: { map (name_in names.now) ranks.now ≡ map (λ e. e.0.1) (decoded lists.now.entries) },
    ghost rising: { Rise names.now },
    ghost valued: { map T.value values.now ≡ values_of lists.now.entries },
    ghost spanned: { 0 < length spans.now → AreSpans lists.now.entries spans.now },
}

/// The `k`th row that has entries, by the ranks of its columns.
pub fn row_at<'a, T: Stored>(
    lists: &'a FlatRows,
    ranks: &'a [u32],
    names: &Names,
    k: usize,
) -> EntrySlice<'a, T>
    requires at { k < length lists.now.rows }
    requires domain { lists.now.domain ≡ T.domain }
    requires ordered { IsTrue (is_sorted cell_cmp (decoded lists.now.entries)) }
    requires in_range { All (λ r. r < length names.now) ranks.now }
    requires named { map (name_in names.now) ranks.now ≡ map (λ e. e.0.1) (decoded lists.now.entries) }
    requires rising { Rise names.now }
    ensures in_range { All (λ r. r < length names.now) result.indices.now }
    ensures entries { renamed (name_in names.now) (entries_of T.value result.indices.now result.values.now) ≡ row_of (slice_index lists.now.rows k) (decoded lists.now.entries) }
{
    let (start, end) = span_at(lists, k);
    EntrySlice {
        indices: part(ranks, start, end),
        values: T::of_row(lists, k),
    }
}

impl<'a, T: Stored> RankedRows<'a, T> {
    /// The row of a number, by the ranks of its columns; no entries, where it stores nothing.
    pub fn row(&self, number: u32) -> EntrySlice<'a, T>
        ensures in_range { All (λ r. r < length self.now.names.now) result.indices.now }
        ensures entries { renamed (name_in self.now.names.now) (entries_of T.value result.indices.now result.values.now) ≡ row_of number (decoded self.now.lists.now.entries) }
    {
        let (start, end) = span_of(self.lists, self.spans, number);
        EntrySlice {
            indices: part(self.ranks, start, end),
            values: part(self.values, start, end),
        }
    }
}
