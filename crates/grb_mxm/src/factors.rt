//! The product of two matrices by a monoid and an operator as types: whether a mask bounds it, and the ranks of columns.
ghost use Rattle.std.specs.Prelude.{◌≡◌, ◌<◌, ℕ, length, map, Some, All, IsTrue, IfOk, IfSome};
ghost use Rattle.std.specs.Option.{option_map};
ghost use Rattle.std.specs.Borrow.{Bor};
ghost use Rattle.std.specs.FinMap.{is_sorted};
ghost use Rattle.grb_core.specs.Entries.{cell_cmp};
ghost use Rattle.grb_lists.specs.Cells.{decoded};
ghost use Rattle.grb_lists.specs.Stored.{RowView};
ghost use Rattle.grb_ewise.specs.Ranks.{Rise};
ghost use Rattle.grb_ewise.specs.Rows.{flat_entries};
ghost use Rattle.grb_mxm.specs.RowProducts.{columns_in};
ghost use Rattle.grb_mxm.specs.Rows.{AreAppended, selected_product};
ghost use Rattle.grb_sums.specs.Naming.{name_in};

use crate::mask_rows::MaskRows;
use crate::masked_rows::multiply_masked;
use crate::rows::{MadeRows, Part};
use crate::true_rows::InBits;
use crate::whole_rows::multiply_whole;
use grb_ewise::{Stored, distinct, is_worth_opening, ranks_of};
use grb_kernels::{Operator, Scalar};
use grb_lists::FlatRows;
use grb_semirings::{BySemiring, MatrixRows, MonoidOver};
use grb_sums::{Names, RankedRows, spans_of};
use std::alloc::{AllocError, Global};

/// Two matrices that are multiplied by whichever semiring at the cells that a mask selects, which is read by structure or by value; at all
/// cells, where there is no mask.
#[derive(Drop)]
pub(crate) struct Factors<'a, T: Scalar> {
    pub(crate) alloc: Global,
    pub(crate) structure: bool,
    pub(crate) mask: Option<&'a FlatRows>,
    pub(crate) a: MatrixRows<'a, T>,
    pub(crate) b: MatrixRows<'a, T>,
    ghost mask_ordered: { (m : Bor RowView) → mask ≡ Some m → IsTrue (is_sorted cell_cmp (decoded m.now.entries)) },
    ghost mask_in_range: { (m : Bor RowView) → mask ≡ Some m → All (λ e. e.0.1 < b.ncols) (decoded m.now.entries) },
}

/// The column of each entry of a mask; none, where there is no mask.
fn columns_of(mask: Option<&FlatRows>) -> &[u32]
    ensures columns { result.now ≡ columns_in (option_map (λ m. decoded m.now.entries) mask.entry) }
    ensures below { (n : ℕ) → IfSome mask.entry (λ m. All (λ e. e.0.1 < n) (decoded m.now.entries)) → All (λ j. j < n) result.now }
{
    match mask {
        None => &[],
        Some(mask) => mask.columns(),
    }
}

impl<'a, T: InBits + Drop> Factors<'a, T> {
    /// Rows of the product, where the columns of the second and of the mask have these ranks by these names. `AllocError` where memory is
    /// refused; then nothing is made.
    fn multiply_ranked<M: MonoidOver<T>, O: Operator<T>>(
        &'a self,
        ranks: &'a [u32],
        mask_ranks: &'a [u32],
        names: &'a Names<'a>,
        part: Part<T>,
    ) -> Result<MadeRows<T>, AllocError>
        requires rising { Rise names.now }
        requires in_range { All (λ r. r < length names.now) ranks.now }
        requires named { map (name_in names.now) ranks.now ≡ map (λ e. e.0.1) (decoded self.now.b.lists.now.entries) }
        requires mask_in_range { All (λ r. r < length names.now) mask_ranks.now }
        requires mask_named { map (name_in names.now) mask_ranks.now ≡ columns_in (option_map (λ m. decoded m.now.entries) self.now.mask) }
        ensures { IfOk result (λ made. AreAppended T.value (flat_entries T.value part.made.rows.items part.made.starts.items part.made.columns.items part.made.values.items) part.from part.upto (selected_product (record { monoid = M.monoid; op = O.op }) self.now.structure (option_map (λ m. decoded m.now.entries) self.now.mask) (decoded self.now.a.lists.now.entries) (decoded self.now.b.lists.now.entries)) made.rows.items made.starts.items made.columns.items made.values.items) }
    {
        let lists = self.b.lists;
        let spans = spans_of(self.alloc, lists, self.a.lists.len() + lists.len())?;
        let ranked: RankedRows<T> = RankedRows {
            lists,
            ranks,
            values: T::of_lists(lists),
            names: &*names,
            spans: spans.as_slice(),
        };
        match self.mask {
            None => multiply_whole::<T, M, O>(self.alloc, &self.a, &ranked, part),
            Some(lists) => {
                let mask = MaskRows {
                    lists,
                    ranks: mask_ranks,
                    names: &*names,
                    structure: self.structure,
                };
                multiply_masked::<T, M, O>(self.alloc, &self.a, &ranked, &mask, part)
            }
        }
    }
}

/// Rows of a product that are made by whichever semiring.
#[derive(Drop)]
pub(crate) struct RowsOfProduct<'a, T: Scalar> {
    pub(crate) factors: Factors<'a, T>,
    pub(crate) part: Part<T>,
}

impl<'a, T: InBits + Drop> BySemiring<T> for RowsOfProduct<'a, T> {
    type Output = Result<MadeRows<T>, AllocError>;

    ghost Gives = { λ f semiring result. IfOk result (λ made. AreAppended T.value (flat_entries T.value f.part.made.rows.items f.part.made.starts.items f.part.made.columns.items f.part.made.values.items) f.part.from f.part.upto (selected_product semiring f.factors.structure (option_map (λ m. decoded m.now.entries) f.factors.mask) (decoded f.factors.a.lists.now.entries) (decoded f.factors.b.lists.now.entries)) made.rows.items made.starts.items made.columns.items made.values.items) };

    /// The rows, after those that are there. Where the columns are not many more than the entries, each is its own rank; else those that
    /// store something, in the second or in the mask, have ranks. `AllocError` where memory is refused; then nothing is made.
    fn by<M: MonoidOver<T>, O: Operator<T>>(self) -> Result<MadeRows<T>, AllocError> {
        let factors = self.factors;
        let part = self.part;
        let alloc = factors.alloc;
        let columns = factors.b.lists.columns();
        let mask_columns = columns_of(factors.mask);
        if is_worth_opening(
            factors.b.ncols,
            factors.a.lists.len() + factors.b.lists.len(),
        ) {
            let own = Names::own(factors.b.ncols as u32);
            return factors.multiply_ranked::<M, O>(columns, mask_columns, &own, part);
        }
        let stored = distinct(alloc, columns, mask_columns)?;
        let listed = stored.as_slice();
        let ranks = ranks_of(alloc, columns, listed)?;
        let mask_ranks = ranks_of(alloc, mask_columns, listed)?;
        let names = Names::listed(listed);
        factors.multiply_ranked::<M, O>(ranks.as_slice(), mask_ranks.as_slice(), &names, part)
    }
}
