//! The sums of one row of the product of two matrices: rows of the second are added, each times a value of the first (Gustavson 1978).
ghost use Rattle.std.specs.Prelude.{◌≡◌, ◌<◌, ℕ, Bool, true, length, Option, Some, None, IsTrue, All};
ghost use Rattle.std.specs.List.{AllByRecursion};
ghost use Rattle.std.specs.Ordering.{nat_cmp};
ghost use Rattle.std.specs.FinMap.{is_sorted, find};
ghost use Rattle.grb_core.specs.declared.value.Value.{Value};
ghost use Rattle.grb_core.specs.Value.{IsValueOf};
ghost use Rattle.grb_core.specs.Operator.{value_of_op};
ghost use Rattle.grb_core.specs.Monoid.{monoid_op};
ghost use Rattle.grb_core.specs.Fold.{fold_of_some};
ghost use Rattle.grb_core.specs.Written.{either_value, both_values};
ghost use Rattle.grb_core.specs.Results.{row_of};
ghost use Rattle.grb_kernels.specs.Typed.{entries_of};
ghost use Rattle.grb_lists.specs.Cells.{decoded};
ghost use Rattle.grb_semirings.specs.Products.{products};
ghost use Rattle.grb_sums.specs.Naming.{name_in};

use crate::ranked::RankedRows;
use grb_ewise::Stored;
use grb_kernels::{EntrySlice, Operator};
use grb_semirings::MonoidOver;

/// Sums of a row, at places, by a monoid as a type.
pub trait RowSums<T: Stored, M: MonoidOver<T>> {
    /// How many places there are.
    ghost width: { Self → ℕ };

    /// Whether the sum at a place is asked for: else it may be any.
    ghost asks: { Self → ℕ → Bool };

    /// The sum at a place, if anything was added there.
    ghost sum: { Self → ℕ → Option Value };

    /// The memory is as it is while a row is summed.
    ghost sound: { Self → Type 0 };

    /// Adds a row, times `x`, to the sums that are asked for.
    fn add<O: Operator<T>>(&mut self, x: T, places: &[u32], values: &[T])
        requires sound { sound self.old }
        requires same { length places.now ≡ length values.now }
        requires rising { IsTrue (is_sorted nat_cmp (entries_of T.value places.now values.now)) }
        requires in_range { All (λ p. p < width self.old) places.now }
        ensures sound { sound self.new }
        ensures width { width self.new ≡ width self.old }
        ensures asks { (p : ℕ) → asks self.new p ≡ asks self.old p }
        ensures added { (p : ℕ) → asks self.new p ≡ true → sum self.new p ≡ either_value (value_of_op (monoid_op M.monoid)) (sum self.old p) (both_values (value_of_op O.op) (Some (T.value x)) (find nat_cmp p (entries_of T.value places.now values.now))) }
        ensures of_domain { AllByRecursion (λ e. IsValueOf T.domain (value_of_op O.op (T.value x) e.1)) (entries_of T.value places.now values.now) };
}

/// Sums a row of the product of two matrices by the row of the first, where nothing was added before.
pub fn sum_row<T: Stored, M: MonoidOver<T>, O: Operator<T>, S: RowSums<T, M>>(
    first: &EntrySlice<T>,
    b: &RankedRows<T>,
    sums: &mut S,
)
    requires sound { S.sound sums.old }
    requires width { S.width sums.old ≡ length b.now.names.now }
    requires none { (p : ℕ) → S.sum sums.old p ≡ None }
    ensures sound { S.sound sums.new }
    ensures width { S.width sums.new ≡ length b.now.names.now }
    ensures asks { (p : ℕ) → S.asks sums.new p ≡ S.asks sums.old p }
    ensures sums { (p : ℕ) → p < length b.now.names.now → S.asks sums.new p ≡ true → S.sum sums.new p ≡ fold_of_some M.monoid (products O.op (λ k. find nat_cmp (name_in b.now.names.now p) (row_of k (decoded b.now.lists.now.entries))) (entries_of T.value first.now.indices.now first.now.values.now)) }
{
    let (columns, values) = (first.indices, first.values);
    'entries: for i in 0..columns.len() {
        let row = (&*b).row(columns[i]);
        sums.add::<O>(values[i], row.indices, row.values);
    }
}
