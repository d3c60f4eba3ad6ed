//! The product of a vector and a matrix where something seems to come to every column: no place is marked, and the list of sums is the
//! result, if none of them is the identity, which is the sum of nothing.
ghost use Rattle.std.specs.Prelude.{◌≡◌, ◌≢◌, ◌<◌, ◌≤◌, ◌++◌, ℕ, true, [], length, slice_index, Some, All, IfOk, IfSome};
ghost use Rattle.std.specs.Ordering.{nat_cmp};
ghost use Rattle.grb_core.specs.Monoid.{identity_of};
ghost use Rattle.grb_core.specs.Entries.{VectorEntries, built_from};
ghost use Rattle.grb_kernels.specs.Typed.{entries_of};
ghost use Rattle.grb_lists.specs.Cells.{decoded};
ghost use Rattle.grb_sums.specs.Bits.{value_at};
ghost use Rattle.grb_sums.specs.ColumnSums.{with_values};
ghost use Rattle.grb_push.specs.Pushes.{pushed};
ghost use Rattle.grb_push.specs.Unmarked.{AreFolds};

use crate::sides::{Product, Side};
use grb_ewise::Stored;
use grb_kernels::{EntryList, EntrySlice, Operator};
use grb_lists::FlatRows;
use grb_semirings::{Folded, MonoidOver};
use grb_sums::Term;
use std::alloc::{AllocError, Global};
use std::marker::PhantomData;

/// So many entries are looked at to tell whether those of a row stand near each other.
const LOOKED_AT: usize = 512;

/// Columns that are less than this apart have their marks in one word, or in two that follow each other.
const NEAR: u32 = 64;

/// Whether each row stores something, and the columns of a row stand near each other, as in a grid: then each column may have an entry, and
/// marks would be written to the same words again and again. Either answer is right; it bears on time alone.
pub(crate) fn seem_near(lists: &FlatRows, ncols: u32) -> bool {
    let columns = lists.columns();
    let looked_at = columns.len().min(LOOKED_AT);
    let mut near = 0usize;
    'entries: for i in 1..looked_at {
        let apart = columns[i].wrapping_sub(columns[i - 1]);
        near = near.wrapping_add(usize::from(apart < NEAR));
    }
    (ncols as usize <= lists.rows().len()) & (near > looked_at / 2)
}

/// Adds the products of a row's values to the sums, each at its column. Takes no memory.
fn add_products<T: Stored, M: MonoidOver<T>, R: Term<T>>(
    term: &R,
    columns: &[u32],
    values: &[T],
    sums: &mut [T],
)
    requires same { length columns.now ≡ length values.now }
    requires in_range { All (λ j. j < length sums.old) columns.now }
    ensures { (added : VectorEntries) → AreFolds T.value M.monoid added sums.old → AreFolds T.value M.monoid (added ++ with_values (R.gives term.now) (entries_of T.value columns.now values.now)) sums.new }
{
    'entries: for i in 0..columns.len() {
        let at = columns[i] as usize;
        let made = term.of(values[i]);
        let value = made.read();
        sums[at] = M::add(sums[at], value);
    }
}

/// Adds each row, with the products of the vector's value at its number, to sums to which nothing was added.
fn add_unmarked<T: Stored, M: MonoidOver<T>, O: Operator<T>, S: Side>(
    lists: &FlatRows,
    u: &EntrySlice<T>,
    sums: &mut [T],
)
    requires domain { lists.now.domain ≡ T.domain }
    requires own { (i : ℕ) → i < length u.now.indices.now → slice_index u.now.indices.now i ≡ i }
    requires within { (k : ℕ) → k < length lists.now.rows → slice_index lists.now.rows k < length u.now.indices.now }
    requires in_range { All (λ e. e.0.1 < length sums.old) (decoded lists.now.entries) }
    requires none { AreFolds T.value M.monoid [] sums.old }
    ensures { AreFolds T.value M.monoid (pushed (S.makes O.op) (entries_of T.value u.now.indices.now u.now.values.now) (decoded lists.now.entries)) sums.new }
{
    let numbers = lists.rows();
    let values = u.values;
    'each: for k in 0..numbers.len() {
        let at = numbers[k] as usize;
        let term: Product<T, O, S> = Product {
            x: values[at],
            of: PhantomData,
        };
        let columns = lists.row_columns(k);
        add_products::<T, M, Product<T, O, S>>(&term, columns, T::of_row(lists, k), sums);
    }
}

/// Whether a sum differs from the identity, and those before it did.
fn differs_too<T: Stored + Folded, M: MonoidOver<T>>(sum: T, before: bool) -> bool
    ensures before { result ≡ true → before ≡ true }
    ensures here { result ≡ true → T.value sum ≢ identity_of M.monoid }
{
    if sum.is_same(M::identity()) {
        return false;
    }
    before
}

/// Whether all sums differ from the identity.
fn all_differ<T: Stored + Folded, M: MonoidOver<T>>(sums: &[T]) -> bool
    ensures { result ≡ true → (p : ℕ) → p < length sums.now → value_at T.value sums.now p ≢ Some (identity_of M.monoid) }
{
    let mut differ = true;
    'sums: for p in 0..sums.len() {
        differ = differs_too::<T, M>(sums[p], differ);
    }
    differ
}

/// The sums of all rows, of which the vector has one value for each, where none is the identity: their list is the result, and is not
/// copied. `None` where one is. `AllocError` where memory is refused; then nothing is made.
pub(crate) fn sum_unmarked<T: Stored + Folded + Drop, M: MonoidOver<T>, O: Operator<T>, S: Side>(
    alloc: Global,
    ncols: u32,
    lists: &FlatRows,
    u: &EntrySlice<T>,
) -> Result<Option<EntryList<T>>, AllocError>
    requires domain { lists.now.domain ≡ T.domain }
    requires own { (i : ℕ) → i < length u.now.indices.now → slice_index u.now.indices.now i ≡ i }
    requires within { (k : ℕ) → k < length lists.now.rows → slice_index lists.now.rows k < length u.now.indices.now }
    requires in_range { All (λ e. e.0.1 < ncols) (decoded lists.now.entries) }
    requires numbered { ncols ≤ length u.now.indices.now }
    ensures { IfOk result (λ answer. IfSome answer (λ made. entries_of T.value made.indices.items made.values.items ≡ built_from nat_cmp M.monoid (pushed (S.makes O.op) (entries_of T.value u.now.indices.now u.now.values.now) (decoded lists.now.entries)))) }
{
    let count = ncols as usize;
    let mut sums = vec![in alloc; M::identity(); count]?;
    add_unmarked::<T, M, O, S>(lists, u, sums.as_mut_slice());
    if all_differ::<T, M>(sums.as_slice()) {
        let indices = Vec::from_slice(alloc, &u.indices[..count])?;
        return Ok(Some(EntryList {
            indices,
            values: sums,
        }));
    }
    Ok(None)
}
