//! Products with their columns, put in the order of the columns, and the fold of each run of one column.
ghost use Rattle.std.specs.Prelude.{◌≡◌, ◌≢◌, ◌+◌, ◌-◌, ◌<◌, ◌≤◌, ◌↔◌, ◌++◌, true, false, length, slice_index, All, IsTrue, IfOk};
ghost use Rattle.std.specs.Ordering.{is_gt, nat_cmp};
ghost use Rattle.std.specs.List.Sorted.{IsPermutation, IsSortedByKey};
ghost use Rattle.std.specs.FinMap.{find, put, is_sorted};
ghost use Rattle.std.specs.Vec.{vec_len, vec_capacity};
ghost use Rattle.grb_core.specs.Value.{IsValueOf};
ghost use Rattle.grb_core.specs.Entries.{built_from};
ghost use Rattle.grb_sparse.specs.Build.{joined};
ghost use Rattle.grb_kernels.specs.Typed.{entries_of, first_entries};
ghost use Rattle.grb_sums.specs.ColumnSums.{as_entries, with_values};

use grb_ewise::Stored;
use grb_kernels::EntryList;
use grb_semirings::MonoidOver;
use grb_sums::Term;
use std::alloc::{AllocError, Global};

/// Puts what the term makes of each value of a row after other products, with its column. There is room for them.
pub(crate) fn push_row<T: Stored + Drop, R: Term<T>>(
    term: &R,
    columns: &[u32],
    values: &[T],
    products: &mut Vec<(u32, T)>,
)
    requires same { length columns.now ≡ length values.now }
    requires room { vec_len products.old + length columns.now ≤ vec_capacity products.old }
    requires of_domain { All (λ p. IsValueOf T.domain (T.value p.1)) products.old.items }
    ensures of_domain { All (λ p. IsValueOf T.domain (T.value p.1)) products.new.items }
    ensures added { as_entries T.value products.new.items ≡ as_entries T.value products.old.items ++ with_values (R.gives term.now) (entries_of T.value columns.now values.now) }
{
    'row: for i in 0..columns.len() {
        let made = term.of(values[i]);
        let value = made.read();
        products.push_reserved((columns[i], value));
    }
}

/// Whether the columns rise, or stay as they are, from each product to the next.
fn is_in_order<T: Stored>(products: &[(u32, T)]) -> bool
    ensures { result ≡ true ↔ IsSortedByKey (λ p. p.0) nat_cmp products.now }
{
    'products: for at in 1..products.len() {
        if products[at].0.cmp(&products[at - 1].0).is_lt() {
            return false;
        }
    }
    true
}

/// Puts products in the order of their columns. Those that are in order stay as they are.
fn put_in_order<T: Stored>(products: &mut [(u32, T)])
    ensures permutation { IsPermutation products.old products.new }
    ensures rising { IsSortedByKey (λ p. p.0) nat_cmp products.new }
{
    if is_in_order(products) {
        return;
    }
    products.sort_unstable_by_key(|p| p.0);
}

/// Whether the last of the first `k` indices is this column.
fn ends_with(indices: &[u32], k: usize, column: u32) -> bool
    requires { k ≤ length indices.now }
    ensures last { result ≡ true → (0 < k) × (slice_index indices.now (k - 1) ≡ column) }
    ensures other { result ≡ false → 0 < k → slice_index indices.now (k - 1) ≢ column }
{
    k > 0 && indices[k - 1] == column
}

/// Adds a product to the first `k` entries, whose columns are none higher: to the last of them where that is of its column, and else after
/// it. Answers how many entries there are then.
fn add_product<T: Stored, M: MonoidOver<T>>(
    indices: &mut [u32],
    values: &mut [T],
    k: usize,
    product: (u32, T),
) -> usize
    requires room { k < length indices.old }
    requires same { length indices.old ≡ length values.old }
    requires sorted { IsTrue (is_sorted nat_cmp (first_entries T.value k indices.old values.old)) }
    requires rising { All (λ e. is_gt (nat_cmp e.0 product.0) ≡ false) (first_entries T.value k indices.old values.old) }
    ensures entries { first_entries T.value result indices.new values.new ≡ put nat_cmp product.0 (joined M.monoid (find nat_cmp product.0 (first_entries T.value k indices.old values.old)) (T.value product.1)) (first_entries T.value k indices.old values.old) }
    ensures most { result ≤ k + 1 }
{
    if ends_with(indices, k, product.0) {
        let last = values[k - 1];
        values[k - 1] = M::add(last, product.1);
        return k;
    }
    indices[k] = product.0;
    values[k] = product.1;
    k + 1
}

/// Folds products that are in the order of their columns, to the front of `indices` and `values`. Answers how many columns there are.
fn fold_runs<T: Stored, M: MonoidOver<T>>(
    products: &[(u32, T)],
    indices: &mut [u32],
    values: &mut [T],
) -> usize
    requires rising { IsSortedByKey (λ p. p.0) nat_cmp products.now }
    requires of_domain { All (λ p. IsValueOf T.domain (T.value p.1)) products.now }
    requires room { length indices.old ≡ length products.now }
    requires room_same { length values.old ≡ length products.now }
    ensures entries { first_entries T.value result indices.new values.new ≡ built_from nat_cmp M.monoid (as_entries T.value products.now) }
    ensures rising { IsTrue (is_sorted nat_cmp (first_entries T.value result indices.new values.new)) }
    ensures most { result ≤ length products.now }
{
    let mut k = 0;
    'products: for i in 0..products.len() {
        let product = products[i];
        k = add_product::<T, M>(indices, values, k, product);
    }
    k
}

/// The fold of the products at each column, which come in any order. Takes memory for as many entries as there are products, and gives back
/// what is not needed. `AllocError` where it is refused; the products are sorted by column in any case.
pub(crate) fn folds_of<T: Stored + Drop, M: MonoidOver<T>>(
    alloc: Global,
    products: &mut [(u32, T)],
) -> Result<EntryList<T>, AllocError>
    requires of_domain { All (λ p. IsValueOf T.domain (T.value p.1)) products.old }
    ensures { IfOk result (λ made. entries_of T.value made.indices.items made.values.items ≡ built_from nat_cmp M.monoid (as_entries T.value products.old)) }
{
    put_in_order(products);
    let count = products.len();
    let mut indices = vec![in alloc; 0u32; count]?;
    let mut values = vec![in alloc; T::any(); count]?;
    let made = fold_runs::<T, M>(products, indices.as_mut_slice(), values.as_mut_slice());
    indices.truncate(made);
    indices.shrink_to_fit();
    values.truncate(made);
    values.shrink_to_fit();
    Ok(EntryList { indices, values })
}
