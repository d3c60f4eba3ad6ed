//! The product of a row with a vector.
ghost use Rattle.std.specs.Prelude.{◌≡◌, ◌<◌, false, length, All, refl};
ghost use Rattle.grb_core.specs.Monoid.{identity_of};
ghost use Rattle.grb_core.specs.Fold.{fold_of_some};
ghost use Rattle.grb_kernels.specs.Typed.{kept, entries_of};
ghost use Rattle.grb_semirings.specs.Products.{products, is_any};
ghost use Rattle.grb_pull.specs.RowSums.{product_or};

use crate::lookup::{Full, Lookup, has_any, meets};
use crate::row_sums::row_sum;
use crate::rows::{RowRule, SumRule, WholeRule};
use grb_ewise::Stored;
use grb_kernels::{Operator, chosen};
use grb_semirings::{Folded, MonoidOver};
use std::marker::PhantomData;

/// The fold of the products of a row with a vector, and whether there is one. Products after a terminal one are not made.
fn dot<T: Stored + Folded, M: MonoidOver<T>, O: Operator<T>, L: Lookup<T>>(
    vector: &L,
    columns: &[u32],
    values: &[T],
) -> (T, bool)
    requires row { length columns.now ≡ length values.now }
    requires in_range { All (λ c. c < L.size vector.now) columns.now }
    ensures { kept (T.value result.0) result.1 ≡ fold_of_some M.monoid (products O.op (L.holds vector.now) (entries_of T.value columns.now values.now)) }
{
    let mut sum = M::identity();
    let mut any = false;
    'row: for i in 0..columns.len() {
        let (value, here) = vector.at(columns[i]);
        let made = O::apply(values[i], value);
        let product = made.read();
        if here & M::is_terminal(product) {
            return (product, true);
        }
        sum = M::add(sum, chosen(here, product, M::identity()));
        any = here | any;
    }
    if L::is_open() {
        return (sum, is_made::<T, M, L>(vector, columns, sum));
    }
    (sum, any)
}

/// The same. Of a vector of few entries it is asked first whether the row meets one.
fn met_dot<T: Stored + Folded, M: MonoidOver<T>, O: Operator<T>, L: Lookup<T>>(
    vector: &L,
    columns: &[u32],
    values: &[T],
) -> (T, bool)
    requires row { length columns.now ≡ length values.now }
    requires in_range { All (λ c. c < L.size vector.now) columns.now }
    ensures { kept (T.value result.0) result.1 ≡ fold_of_some M.monoid (products O.op (L.holds vector.now) (entries_of T.value columns.now values.now)) }
{
    if L::is_scarce() && !meets(vector, columns) {
        return (M::identity(), false);
    }
    dot::<T, M, O, L>(vector, columns, values)
}

/// Whether a row has products, of which this is the sum: none has only the identity as its sum, so the vector is asked again only there.
fn is_made<T: Stored + Folded, M: MonoidOver<T>, L: Lookup<T>>(
    vector: &L,
    columns: &[u32],
    sum: T,
) -> bool
    requires in_range { All (λ c. c < L.size vector.now) columns.now }
    ensures other { result ≡ false → is_any (L.holds vector.now) columns.now ≡ false }
    ensures same { T.value sum ≡ identity_of M.monoid → result ≡ is_any (L.holds vector.now) columns.now }
{
    if T::is_same(sum, M::identity()) {
        return has_any(vector, columns);
    }
    true
}

/// The product of each row with a vector.
#[derive(Drop)]
pub(crate) struct RowTimesVector<'a, L, M, O> {
    pub(crate) vector: &'a L,
    pub(crate) of: PhantomData<(M, O)>,
}

impl<'a, T: Stored + Folded, M: MonoidOver<T>, O: Operator<T>, L: Lookup<T>> RowRule<T>
    for RowTimesVector<'a, L, M, O> {
    ghost reads = { λ rule. L.size rule.vector.now };

    ghost gives = { λ rule. λ x. fold_of_some M.monoid (products O.op (L.holds rule.vector.now) x) };

    fn row(&self, columns: &[u32], values: &[T], start: usize, end: usize) -> (T, bool) {
        met_dot::<T, M, O, L>(self.vector, &columns[start..end], &values[start..end])
    }

    ghost none = { λ rule. refl };
}

impl<'a, T: Stored + Folded, M: MonoidOver<T>, O: Operator<T>, L: Lookup<T>> SumRule<T, M>
    for RowTimesVector<'a, L, M, O> {
    ghost adds = { λ rule. λ e. product_or M.monoid O.op (L.holds rule.vector.now) e };

    fn term(&self, column: u32, value: T) -> T {
        let (held, here) = self.vector.at(column);
        let made = O::apply(value, held);
        let product = made.read();
        chosen(here, product, M::identity())
    }

    fn is_kept(&self, columns: &[u32], _values: &[T], start: usize, end: usize, sum: T) -> bool {
        is_made::<T, M, L>(self.vector, &columns[start..end], sum)
    }
}

impl<'a, 'b, T: Stored + Folded, M: MonoidOver<T>, O: Operator<T>> WholeRule<T>
    for RowTimesVector<'a, Full<'b, T>, M, O> {
    fn value(&self, columns: &[u32], values: &[T], start: usize, end: usize) -> T {
        match row_sum::<T, M, RowTimesVector<Full<T>, M, O>>(self, columns, values, start, end) {
            Some(sum) => sum,
            None => {
                let (value, _made) = dot::<T, M, O, Full<T>>(
                    self.vector,
                    &columns[start..end],
                    &values[start..end],
                );
                value
            }
        }
    }
}
