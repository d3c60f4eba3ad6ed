//! One row of a Kronecker product: each entry of a row with each of another.
ghost use Rattle.std.specs.Prelude.{◌≡◌, ◌+◌, ◌*◌, ◌<◌, ◌≤◌, ◌^◌, ◌++◌, length, All};
ghost use Rattle.grb_core.specs.Operator.{value_of_op};
ghost use Rattle.grb_kernels.specs.Typed.{entries_of, first_entries};
ghost use Rattle.grb_kronecker.specs.Crossing.{crossed, shifted};

use grb_kernels::{EntrySlice, Operator, Scalar};

/// Writes what an operator makes of one value and each entry of a row, `base` columns further on, after the first `k` entries of a result.
fn cross_entry<T: Scalar, O: Operator<T>>(
    base: u64,
    a: T,
    js: &[u32],
    vs: &[T],
    columns: &mut [u32],
    values: &mut [T],
    k: usize,
) -> usize
    requires list { length js.now ≡ length vs.now }
    requires fits { All (λ j. base + j < 2 ^ 32) js.now }
    requires room { k + length js.now ≤ length columns.old }
    requires same { length columns.old ≡ length values.old }
    ensures entries { first_entries T.value result columns.new values.new ≡ first_entries T.value k columns.old values.old ++ shifted (value_of_op O.op) base (T.value a) (entries_of T.value js.now vs.now) }
    ensures count { result ≡ k + length js.now }
{
    'entries: for at in 0..js.len() {
        columns[k + at] = (base + js[at] as u64) as u32;
        values[k + at] = O::apply(a, vs[at]);
    }
    k + js.len()
}

/// Writes what an operator makes of each entry of a row and each of another, which has `ncols` columns, to the front of `columns` and
/// `values`. Answers how many entries that is.
pub(crate) fn cross_row<T: Scalar, O: Operator<T>>(
    x: &EntrySlice<T>,
    y: &EntrySlice<T>,
    ncols: u64,
    columns: &mut [u32],
    values: &mut [T],
) -> usize
    requires columns { All (λ j. j * ncols + ncols ≤ 2 ^ 32) x.now.indices.now }
    requires within { All (λ j. j < ncols) y.now.indices.now }
    requires room { length x.now.indices.now * length y.now.indices.now ≤ length columns.old }
    requires same { length columns.old ≡ length values.old }
    ensures entries { first_entries T.value result columns.new values.new ≡ crossed (value_of_op O.op) ncols (entries_of T.value x.now.indices.now x.now.values.now) (entries_of T.value y.now.indices.now y.now.values.now) }
    ensures count { result ≡ length x.now.indices.now * length y.now.indices.now }
{
    let mut k = 0;
    'entries: for at in 0..x.indices.len() {
        let base = x.indices[at] as u64 * ncols;
        k = cross_entry::<T, O>(base, x.values[at], y.indices, y.values, columns, values, k);
    }
    k
}
