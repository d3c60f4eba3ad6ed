//! The sums of a row where a mask selects it: they are made at the columns of the mask's row alone.
ghost use Rattle.std.specs.Prelude.{◌≡◌, ◌≢◌, ◌<◌, ◌≤◌, ℕ, length, true, false, Some, All, IsTrue, slice_index_or};
ghost use Rattle.std.specs.List.{AllByRecursion};
ghost use Rattle.std.specs.Ordering.{nat_cmp};
ghost use Rattle.std.specs.FinMap.{is_sorted, find};
ghost use Rattle.grb_core.specs.Value.{IsValueOf};
ghost use Rattle.grb_core.specs.Operator.{value_of_op};
ghost use Rattle.grb_core.specs.Monoid.{monoid_op, monoid_domain, identity_of};
ghost use Rattle.grb_core.specs.Written.{either_value, both_values};
ghost use Rattle.grb_kernels.specs.Typed.{entries_of, first_entries};
ghost use Rattle.grb_semirings.specs.Open.{marked_at};
ghost use Rattle.grb_ewise.specs.Ranks.{Rise};
ghost use Rattle.grb_sums.specs.Naming.{name_in};
ghost use Rattle.grb_mxm.specs.RowProducts.{picked};
ghost use Rattle.grb_sums.specs.Marks.{HoldUnmarked};
ghost use Rattle.grb_mxm.specs.AllowedSums.{StandsIn, IsUnmarked, AreAllowedSums, allowed_of, summed_of};

use grb_ewise::Stored;
use grb_kernels::{Operator, Scalar, emit};
use grb_semirings::MonoidOver;
use grb_sums::{Names, RowSums};

/// The state of a place that the mask does not select.
pub(crate) const OUTSIDE: u8 = 0;

/// The state of a place that the mask selects, where there is no sum.
pub(crate) const ALLOWED: u8 = 1;

/// The state of a place that the mask selects, where there is a sum.
const SUMMED: u8 = 2;

/// Adds a product to the sum at a place, where that is allowed.
fn add_where<T: Scalar, M: MonoidOver<T>>(at: usize, product: T, states: &mut [u8], sums: &mut [T])
    requires in_range { at < length states.old }
    requires room { length states.old ≡ length sums.old }
    requires of_domain { IsValueOf (monoid_domain M.monoid) (T.value product) }
    requires clear { HoldUnmarked T.value (identity_of M.monoid) (summed_of states.old) sums.old }
    ensures added { slice_index_or (allowed_of states.old) at false ≡ true → marked_at T.value (summed_of states.new) sums.new at ≡ either_value (value_of_op (monoid_op M.monoid)) (marked_at T.value (summed_of states.old) sums.old at) (Some (T.value product)) }
    ensures others { (p : ℕ) → p ≢ at → marked_at T.value (summed_of states.new) sums.new p ≡ marked_at T.value (summed_of states.old) sums.old p }
    ensures allowed { allowed_of states.new ≡ allowed_of states.old }
    ensures clear { HoldUnmarked T.value (identity_of M.monoid) (summed_of states.new) sums.new }
{
    if states[at] == OUTSIDE {
        return;
    }
    sums[at] = M::add(sums[at], product);
    states[at] = SUMMED;
}

/// Adds a row, times `x`, to the sums at the places that are allowed: there is a sum where `states` says so, and elsewhere the identity.
fn add_allowed<T: Stored, M: MonoidOver<T>, O: Operator<T>>(
    x: T,
    places: &[u32],
    values: &[T],
    states: &mut [u8],
    sums: &mut [T],
)
    requires same { length places.now ≡ length values.now }
    requires rising { IsTrue (is_sorted nat_cmp (entries_of T.value places.now values.now)) }
    requires in_range { All (λ p. p < length states.old) places.now }
    requires room { length states.old ≡ length sums.old }
    requires clear { HoldUnmarked T.value (identity_of M.monoid) (summed_of states.old) sums.old }
    ensures added { (p : ℕ) → slice_index_or (allowed_of states.old) p false ≡ true → marked_at T.value (summed_of states.new) sums.new p ≡ either_value (value_of_op (monoid_op M.monoid)) (marked_at T.value (summed_of states.old) sums.old p) (both_values (value_of_op O.op) (Some (T.value x)) (find nat_cmp p (entries_of T.value places.now values.now))) }
    ensures of_domain { AllByRecursion (λ e. IsValueOf T.domain (value_of_op O.op (T.value x) e.1)) (entries_of T.value places.now values.now) }
    ensures allowed { allowed_of states.new ≡ allowed_of states.old }
    ensures clear { HoldUnmarked T.value (identity_of M.monoid) (summed_of states.new) sums.new }
{
    'row: for i in 0..places.len() {
        let made = O::apply(x, values[i]);
        let product = made.read();
        add_where::<T, M>(places[i] as usize, product, states, sums);
    }
}

/// A sum for each place, and its state: whether one lies open there, and whether it may.
#[derive(Drop)]
pub(crate) struct AllowedSums<T> {
    pub(crate) sums: Vec<T>,
    pub(crate) states: Vec<u8>,
}

impl<T: Stored, M: MonoidOver<T>> RowSums<T, M> for AllowedSums<T> {
    ghost width = { λ work. length work.sums.items };

    ghost asks = { λ work p. slice_index_or (allowed_of work.states.items) p false };

    ghost sum = { λ work p. marked_at T.value (summed_of work.states.items) work.sums.items p };

    ghost sound = { λ work. AreAllowedSums T.value (identity_of M.monoid) work.sums.items work.states.items };

    fn add<O: Operator<T>>(&mut self, x: T, places: &[u32], values: &[T]) {
        add_allowed::<T, M, O>(
            x,
            places,
            values,
            self.states.as_mut_slice(),
            self.sums.as_mut_slice(),
        );
    }
}

/// Writes the sums at these places, in their order, at the names of the places. Then nothing is allowed there, and the identity stands in
/// place of the sums. Answers how many sums there are.
pub(crate) fn take_picked<T: Scalar, M: MonoidOver<T>>(
    places: &[u32],
    names: &Names,
    states: &mut [u8],
    sums: &mut [T],
    columns: &mut [u32],
    values: &mut [T],
) -> usize
    requires sound { AreAllowedSums T.value (identity_of M.monoid) sums.old states.old }
    requires named { length sums.old ≡ length names.now }
    requires in_range { All (λ p. p < length sums.old) places.now }
    requires rising { Rise places.now }
    requires picked { (p : ℕ) → slice_index_or (allowed_of states.old) p false ≡ true → StandsIn places.now p }
    requires room { length places.now ≤ length columns.old }
    requires room_same { length columns.old ≡ length values.old }
    ensures entries { first_entries T.value result columns.new values.new ≡ picked (name_in names.now) (marked_at T.value (summed_of states.old) sums.old) places.now }
    ensures within { result ≤ length columns.new }
    ensures ready { IsUnmarked T.value (identity_of M.monoid) (length names.now) sums.new states.new }
{
    let mut k = 0;
    'places: for i in 0..places.len() {
        let at = places[i] as usize;
        let column = names.name(at);
        k = emit(columns, values, k, column, sums[at], states[at] == SUMMED);
        states[at] = OUTSIDE;
        sums[at] = M::identity();
    }
    k
}
