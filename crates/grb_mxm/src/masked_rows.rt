//! The rows of the product of two matrices at the cells that a mask selects, by the rows of the mask.
ghost use Rattle.std.specs.Prelude.{◌≡◌, ◌<◌, length, Some, IfOk};
ghost use Rattle.grb_core.specs.Monoid.{identity_of};
ghost use Rattle.grb_core.specs.Results.{row_of};
ghost use Rattle.grb_kernels.specs.Typed.{entries_of};
ghost use Rattle.grb_lists.specs.Cells.{decoded};
ghost use Rattle.grb_ewise.specs.Rows.{flat_entries};
ghost use Rattle.grb_mxm.specs.Rows.{AreAppended, selected_product};
ghost use Rattle.grb_sums.specs.Spans.{AreSpans};
ghost use Rattle.grb_mxm.specs.AllowedSums.{IsUnmarked};

use crate::allowed_sums::{AllowedSums, OUTSIDE, take_picked};
use crate::mask_rows::MaskRows;
use crate::rows::{MadeRows, Part, RowMaker, make_rows};
use grb_ewise::Stored;
use grb_kernels::{EntrySlice, Operator};
use grb_semirings::{MatrixRows, MonoidOver};
use grb_sums::{RankedRows, part, span_of, spans_of, sum_row};
use std::alloc::{AllocError, Global};
use std::marker::PhantomData;

/// The cells of the product of two matrices that a mask selects. The rows of the mask are read, and of the first matrix those alone in
/// which the mask stores something; `spans` has where those of the first begin, by their numbers, or nothing.
#[derive(Drop)]
struct MaskedRows<'a, T: Stored, M, O> {
    a: &'a MatrixRows<'a, T>,
    spans: &'a [u32],
    b: &'a RankedRows<'a, T>,
    mask: &'a MaskRows<'a>,
    of: PhantomData<(M, O)>,
    ghost spanned: { 0 < length spans.now → AreSpans a.now.lists.now.entries spans.now },
    ghost names: { mask.now.names.now ≡ b.now.names.now },
}

/// The row of a number; no entries, where it stores nothing.
fn row_numbered<'a, T: Stored>(
    rows: &MatrixRows<'a, T>,
    spans: &[u32],
    number: u32,
) -> EntrySlice<'a, T>
    requires spans { 0 < length spans.now → AreSpans rows.now.lists.now.entries spans.now }
    ensures { entries_of T.value result.indices.now result.values.now ≡ row_of number (decoded rows.now.lists.now.entries) }
{
    let (start, end) = span_of(rows.lists, spans, number);
    EntrySlice {
        indices: part(rows.lists.columns(), start, end),
        values: part(T::of_lists(rows.lists), start, end),
    }
}

impl<'a, T: Stored + Drop, M: MonoidOver<T>, O: Operator<T>> RowMaker<T>
    for MaskedRows<'a, T, M, O> {
    type Work = AllowedSums<T>;

    ghost makes = { λ rows. selected_product (record { monoid = M.monoid; op = O.op }) rows.mask.now.structure (Some (decoded rows.mask.now.lists.now.entries)) (decoded rows.a.now.lists.now.entries) (decoded rows.b.now.lists.now.entries) };

    ghost listed = { λ rows. rows.mask.now.lists.now.rows };

    ghost most = { λ rows. length rows.b.now.names.now };

    ghost ready = { λ rows work. IsUnmarked T.value (identity_of M.monoid) (length rows.b.now.names.now) work.sums.items work.states.items };

    fn work(&self, alloc: Global) -> Result<AllowedSums<T>, AllocError> {
        let count = self.b.names.len();
        let states = vec![in alloc; OUTSIDE; count]?;
        let sums = vec![in alloc; M::identity(); count]?;
        Ok(AllowedSums { sums, states })
    }

    fn width(&self) -> usize {
        self.b.names.len()
    }

    fn numbers(&self) -> &[u32] {
        self.mask.lists.rows()
    }

    fn make(
        &self,
        place: usize,
        work: &mut AllowedSums<T>,
        columns: &mut [u32],
        values: &mut [T],
    ) -> usize {
        let number = self.mask.lists.rows()[place];
        let row = row_numbered(self.a, self.spans, number);
        let places = self.mask.allow(place, &mut work.states);
        sum_row::<T, M, O, AllowedSums<T>>(&row, self.b, work);
        take_picked::<T, M>(
            places,
            self.b.names,
            work.states.as_mut_slice(),
            work.sums.as_mut_slice(),
            columns,
            values,
        )
    }
}

/// Rows of the product of two matrices at the cells that a mask selects, by a monoid and an operator as types. Takes memory to work in,
/// some places for each name, for where the rows of the first begin, and for the result, which is no longer than the mask. `AllocError`
/// where that is refused; then nothing is made.
pub(crate) fn multiply_masked<T: Stored + Drop, M: MonoidOver<T>, O: Operator<T>>(
    alloc: Global,
    a: &MatrixRows<T>,
    b: &RankedRows<T>,
    mask: &MaskRows,
    part: Part<T>,
) -> Result<MadeRows<T>, AllocError>
    requires names { mask.now.names.now ≡ b.now.names.now }
    ensures { IfOk result (λ made. AreAppended T.value (flat_entries T.value part.made.rows.items part.made.starts.items part.made.columns.items part.made.values.items) part.from part.upto (selected_product (record { monoid = M.monoid; op = O.op }) mask.now.structure (Some (decoded mask.now.lists.now.entries)) (decoded a.now.lists.now.entries) (decoded b.now.lists.now.entries)) made.rows.items made.starts.items made.columns.items made.values.items) }
{
    let spans = spans_of(alloc, a.lists, a.lists.len() + mask.lists.len())?;
    let rows: MaskedRows<T, M, O> = MaskedRows {
        a,
        spans: spans.as_slice(),
        b,
        mask,
        of: PhantomData,
    };
    let room = if part.reserves { mask.lists.len() } else { 0 };
    make_rows(alloc, &rows, part, room)
}
