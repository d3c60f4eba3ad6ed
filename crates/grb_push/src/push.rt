//! The product of a vector and a matrix by the rows that the vector picks: each is read once and added by column.
ghost use Rattle.std.specs.Prelude.{◌≡◌, ◌-◌, ◌*◌, ◌<◌, ◌≤◌, ◌^◌, ℕ, true, false, [], length, map, min, slice_index, All, IfOk, IfSome, IsTrue};
ghost use Rattle.std.specs.FinMap.{is_sorted};
ghost use Rattle.std.specs.Ordering.{nat_cmp};
ghost use Rattle.grb_core.specs.declared.value.Value.{Value};
ghost use Rattle.grb_core.specs.Value.{IsValueOf};
ghost use Rattle.grb_core.specs.Entries.{built_from, cell_cmp, restricted};
ghost use Rattle.grb_core.specs.Results.{row_of};
ghost use Rattle.grb_kernels.specs.Typed.{entries_of};
ghost use Rattle.grb_lists.specs.Cells.{decoded};
ghost use Rattle.grb_ewise.specs.Ranks.{Rise};
ghost use Rattle.grb_sums.specs.Bits.{AreMarked};
ghost use Rattle.grb_sums.specs.ColumnSums.{AreSums, as_entries, column_folds, with_values};
ghost use Rattle.grb_push.specs.Pushes.{pushed, pushed_of, at_numbers, columns_at};
ghost use Rattle.grb_push.specs.Wanted.{is_among, is_wanted, IsMade};

use crate::kept::close_wanted;
use crate::late::{seem_near, sum_unmarked};
use crate::picks::pick_rows;
use crate::runs::{folds_of, push_row};
use crate::sides::{Product, Side};
use crate::wanted::Wanted;
use grb_ewise::{Stored, place_of};
use grb_kernels::{EntryList, EntrySlice, Operator, Scalar};
use grb_lists::FlatRows;
use grb_semirings::{Folded, MatrixRows, MonoidOver};
use grb_sums::{
    AllColumns, Columns, NamedColumns, OpenSums, Term, add_entries, close_sums, open_sums,
};
use std::alloc::{AllocError, Global};
use std::marker::PhantomData;

/// How many entries the picked rows have; 2^64 - 1, where they are more.
fn picked_len<T: Stored>(lists: &FlatRows, picks: &[(usize, T)]) -> usize
    requires within { All (λ p. p.0 < length lists.now.rows) picks.now }
    ensures { result ≡ min (length (columns_at lists.now.rows picks.now (decoded lists.now.entries))) (2 ^ 64 - 1) }
{
    let mut count = 0usize;
    'rows: for i in 0..picks.len() {
        let pick = picks[i];
        count = count.saturating_add(lists.row_columns(pick.0).len());
    }
    count
}

/// A Rust type of which sums lie open: one for each column, where these are few.
pub(crate) trait Placed {
    /// How many sums are zeroed, and their marks read, in less time than a product takes to be sorted.
    ghost places: { ℕ };

    /// Whether a place for each of `ncols` columns is worth its memory: where they are no more than so many times the `count` products.
    /// Takes no memory.
    fn is_worth_a_place_each(ncols: u64, count: usize) -> bool
        requires few { ncols < 2 ^ 32 }
        ensures short { result ≡ true → ncols ≤ places * count }
        ensures long { result ≡ false → places * count < ncols };
}

impl Placed for bool {
    ghost places = { 128 };

    fn is_worth_a_place_each(ncols: u64, count: usize) -> bool {
        (ncols + 127) / 128 <= count as u64
    }
}

impl Placed for u64 {
    ghost places = { 32 };

    fn is_worth_a_place_each(ncols: u64, count: usize) -> bool {
        (ncols + 31) / 32 <= count as u64
    }
}

/// Adds the picked rows, each with the products of its pick's value, to sums of which none lies open.
fn add_rows<T: Stored, M: MonoidOver<T>, O: Operator<T>, S: Side, C: Columns>(
    columns: &C,
    lists: &FlatRows,
    picks: &[(usize, T)],
    words: &mut [u64],
    sums: &mut [T],
)
    requires domain { lists.now.domain ≡ T.domain }
    requires within { All (λ p. p.0 < length lists.now.rows) picks.now }
    requires in_range { All (λ e. e.0.1 < C.below columns.now) (decoded lists.now.entries) }
    requires marked { AreMarked (length (C.names columns.now)) words.old sums.old }
    requires none { AreSums T.value M.monoid (C.names columns.now) [] words.old sums.old }
    ensures marked { AreMarked (length (C.names columns.now)) words.new sums.new }
    ensures added { AreSums T.value M.monoid (C.names columns.now) (pushed (S.makes O.op) (at_numbers lists.now.rows (as_entries T.value picks.now)) (decoded lists.now.entries)) words.new sums.new }
{
    'rows: for i in 0..picks.len() {
        let pick = picks[i];
        let term: Product<T, O, S> = Product {
            x: pick.1,
            of: PhantomData,
        };
        add_entries::<T, M, C, Product<T, O, S>>(
            columns,
            &term,
            lists.row_columns(pick.0),
            T::of_row(lists, pick.0),
            words,
            sums,
        );
    }
}

/// The sums of the picked rows at these columns. Takes memory for as many places as there are columns. `AllocError` where that is refused;
/// then nothing is made.
fn sum_rows<T: Stored + Drop, M: MonoidOver<T>, O: Operator<T>, S: Side, C: Columns>(
    alloc: Global,
    columns: &C,
    lists: &FlatRows,
    picks: &[(usize, T)],
) -> Result<EntryList<T>, AllocError>
    requires domain { lists.now.domain ≡ T.domain }
    requires within { All (λ p. p.0 < length lists.now.rows) picks.now }
    requires in_range { All (λ e. e.0.1 < C.below columns.now) (decoded lists.now.entries) }
    ensures { IfOk result (λ made. entries_of T.value made.indices.items made.values.items ≡ column_folds M.monoid (C.names columns.now) (pushed (S.makes O.op) (at_numbers lists.now.rows (as_entries T.value picks.now)) (decoded lists.now.entries))) }
{
    let open = open_sums::<T, M>(alloc, columns.count())?;
    let OpenSums {
        mut words,
        mut sums,
    } = open;
    add_rows::<T, M, O, S, C>(
        columns,
        lists,
        picks,
        words.as_mut_slice(),
        sums.as_mut_slice(),
    );
    close_sums(alloc, columns, words.as_slice(), sums.as_slice())
}

/// The sums of the picked rows, which have `count` entries, by a place for each of `ncols` columns: no more for each entry of these rows
/// than the type is worth. Beside them is whether places that are not wanted may be among them. `AllocError` where memory is refused; then
/// nothing is made.
fn sum_all<T: Stored + Placed + Drop, M: MonoidOver<T>, O: Operator<T>, S: Side>(
    alloc: Global,
    ncols: u32,
    wanted: &Wanted,
    lists: &FlatRows,
    picks: &[(usize, T)],
    count: usize,
) -> Result<(EntryList<T>, bool), AllocError>
    requires domain { lists.now.domain ≡ T.domain }
    requires within { All (λ p. p.0 < length lists.now.rows) picks.now }
    requires in_range { All (λ e. e.0.1 < ncols) (decoded lists.now.entries) }
    requires short { ncols ≤ T.places * length (columns_at lists.now.rows picks.now (decoded lists.now.entries)) }
    ensures { IfOk result (λ made. IsMade made.1 (is_wanted wanted.now.among wanted.now.names.now) (built_from nat_cmp M.monoid (pushed (S.makes O.op) (at_numbers lists.now.rows (as_entries T.value picks.now)) (decoded lists.now.entries))) (entries_of T.value made.0.indices.items made.0.values.items)) }
{
    let all = AllColumns { ncols };
    let mut open = open_sums::<T, M>(alloc, all.count())?;
    let words = open.words.as_mut_slice();
    let sums = open.sums.as_mut_slice();
    add_rows::<T, M, O, S, AllColumns>(&all, lists, picks, words, sums);
    let made = close_wanted(alloc, &all, wanted, words, sums, count)?;
    Ok(made)
}

/// The products of the picked rows with the values of their picks, row by row, each with its column. Takes memory for `room`, and for more
/// if they are more. `AllocError` where that is refused; then nothing is made.
fn picked_products<T: Stored + Drop, O: Operator<T>, S: Side>(
    alloc: Global,
    lists: &FlatRows,
    picks: &[(usize, T)],
    room: usize,
) -> Result<Vec<(u32, T)>, AllocError>
    requires domain { lists.now.domain ≡ T.domain }
    requires within { All (λ p. p.0 < length lists.now.rows) picks.now }
    ensures of_domain { IfOk result (λ products. All (λ p. IsValueOf T.domain (T.value p.1)) products.items) }
    ensures pushed { IfOk result (λ products. as_entries T.value products.items ≡ pushed (S.makes O.op) (at_numbers lists.now.rows (as_entries T.value picks.now)) (decoded lists.now.entries)) }
{
    let mut products = Vec::with_capacity(alloc, room)?;
    'picks: for i in 0..picks.len() {
        let pick = picks[i];
        let term: Product<T, O, S> = Product {
            x: pick.1,
            of: PhantomData,
        };
        let columns = lists.row_columns(pick.0);
        products.reserve(columns.len())?;
        push_row(&term, columns, T::of_row(lists, pick.0), &mut products);
    }
    Ok(products)
}

/// The same by the products one after another, sorted by column. The picked rows have `count` entries. `AllocError` where memory is
/// refused; then nothing is made.
fn sum_named<T: Stored + Drop, M: MonoidOver<T>, O: Operator<T>, S: Side>(
    alloc: Global,
    lists: &FlatRows,
    picks: &[(usize, T)],
    count: usize,
) -> Result<EntryList<T>, AllocError>
    requires domain { lists.now.domain ≡ T.domain }
    requires within { All (λ p. p.0 < length lists.now.rows) picks.now }
    requires in_range { All (λ e. e.0.1 < 2 ^ 32) (decoded lists.now.entries) }
    ensures { IfOk result (λ made. entries_of T.value made.indices.items made.values.items ≡ built_from nat_cmp M.monoid (pushed (S.makes O.op) (at_numbers lists.now.rows (as_entries T.value picks.now)) (decoded lists.now.entries))) }
{
    let mut products = picked_products::<T, O, S>(alloc, lists, picks, count)?;
    let made = folds_of::<T, M>(alloc, products.as_mut_slice())?;
    Ok(made)
}

/// The sums of the picked rows at these columns alone, which rise. `AllocError` where memory is refused; then nothing is made.
fn sum_bounded<T: Stored + Drop, M: MonoidOver<T>, O: Operator<T>, S: Side>(
    alloc: Global,
    names: &[u32],
    lists: &FlatRows,
    picks: &[(usize, T)],
) -> Result<EntryList<T>, AllocError>
    requires rising { Rise names.now }
    requires domain { lists.now.domain ≡ T.domain }
    requires within { All (λ p. p.0 < length lists.now.rows) picks.now }
    requires in_range { All (λ e. e.0.1 < 2 ^ 32) (decoded lists.now.entries) }
    ensures { IfOk result (λ made. entries_of T.value made.indices.items made.values.items ≡ restricted (λ j. is_among j names.now) (built_from nat_cmp M.monoid (pushed (S.makes O.op) (at_numbers lists.now.rows (as_entries T.value picks.now)) (decoded lists.now.entries)))) }
{
    let named = NamedColumns { names };
    let made = sum_rows::<T, M, O, S, NamedColumns>(alloc, &named, lists, picks)?;
    Ok(made)
}

/// The sums of the picked rows where no place for each column of the matrix is kept: at the columns that are wanted, if they are known and
/// no more than the `count` entries of these rows, and else at those of the rows. Beside them is whether columns that are not wanted may be
/// among them. `AllocError` where memory is refused; then nothing is made.
fn sum_few<T: Stored + Drop, M: MonoidOver<T>, O: Operator<T>, S: Side>(
    alloc: Global,
    wanted: &Wanted,
    lists: &FlatRows,
    picks: &[(usize, T)],
    count: usize,
) -> Result<(EntryList<T>, bool), AllocError>
    requires domain { lists.now.domain ≡ T.domain }
    requires within { All (λ p. p.0 < length lists.now.rows) picks.now }
    requires in_range { All (λ e. e.0.1 < 2 ^ 32) (decoded lists.now.entries) }
    ensures { IfOk result (λ made. IsMade made.1 (is_wanted wanted.now.among wanted.now.names.now) (built_from nat_cmp M.monoid (pushed (S.makes O.op) (at_numbers lists.now.rows (as_entries T.value picks.now)) (decoded lists.now.entries))) (entries_of T.value made.0.indices.items made.0.values.items)) }
{
    if wanted.among && wanted.names.len() <= count {
        let named = sum_bounded::<T, M, O, S>(alloc, wanted.names, lists, picks)?;
        return Ok((named, false));
    }
    let all = sum_named::<T, M, O, S>(alloc, lists, picks, count)?;
    Ok((all, true))
}

/// Writes to `made` what the term makes of each of these values.
fn make_each<T: Stored, R: Term<T>>(term: &R, values: &[T], made: &mut [T])
    requires room { length made.old ≡ length values.now }
    ensures { map T.value made.new ≡ map (λ v. R.gives term.now (T.value v)) values.now }
{
    'values: for i in 0..values.len() {
        made[i] = term.of(values[i]);
    }
}

/// The products of a value with those of one row: its columns rise, so they are copied. Takes memory for these entries alone. `AllocError`
/// where that is refused; then nothing is made.
fn multiply_row<T: Stored + Drop, O: Operator<T>, S: Side>(
    alloc: Global,
    lists: &FlatRows,
    place: usize,
    x: T,
) -> Result<EntryList<T>, AllocError>
    requires domain { lists.now.domain ≡ T.domain }
    requires ordered { IsTrue (is_sorted cell_cmp (decoded lists.now.entries)) }
    requires within { place < length lists.now.rows }
    ensures of_domain { IfOk result (λ made. All (λ v. IsValueOf T.domain (T.value v)) made.values.items) }
    ensures products { IfOk result (λ made. entries_of T.value made.indices.items made.values.items ≡ with_values (S.makes O.op (T.value x)) (row_of (slice_index lists.now.rows place) (decoded lists.now.entries))) }
{
    let row = T::row(lists, place);
    let term: Product<T, O, S> = Product { x, of: PhantomData };
    let indices = Vec::from_slice(alloc, row.indices)?;
    let mut values = vec![in alloc; T::any(); row.values.len()]?;
    make_each(&term, row.values, values.as_mut_slice());
    T::show(values.as_slice());
    Ok(EntryList { indices, values })
}

/// The product of a vector that stores one value: of the row that it picks, if the matrix stores something there. Nothing is listed or
/// sorted. `AllocError` where memory for the result is refused; then nothing is made.
fn push_one<T: Stored + Drop, M: MonoidOver<T>, O: Operator<T>, S: Side>(
    alloc: Global,
    u: &EntrySlice<T>,
    lists: &FlatRows,
) -> Result<EntryList<T>, AllocError>
    requires one { length u.now.indices.now ≡ 1 }
    requires domain { lists.now.domain ≡ T.domain }
    requires ordered { IsTrue (is_sorted cell_cmp (decoded lists.now.entries)) }
    ensures { IfOk result (λ made. entries_of T.value made.indices.items made.values.items ≡ built_from nat_cmp M.monoid (pushed (S.makes O.op) (entries_of T.value u.now.indices.now u.now.values.now) (decoded lists.now.entries))) }
{
    match place_of(lists.rows(), u.indices[0]) {
        Some(place) => {
            let made = multiply_row::<T, O, S>(alloc, lists, place, u.values[0])?;
            Ok(made)
        }
        None => Ok(EntryList {
            indices: Vec::new(alloc),
            values: Vec::new(alloc),
        }),
    }
}

/// Whether the vector stores a value at each index from 0 up to the last of its own, and no row of the matrix has a greater number: so the
/// value at the number of a row is the one that picks it.
fn has_each_row<T: Scalar>(u: &EntrySlice<T>, lists: &FlatRows) -> bool
    ensures own { result ≡ true → (i : ℕ) → i < length u.now.indices.now → slice_index u.now.indices.now i ≡ i }
    ensures within { result ≡ true → (k : ℕ) → k < length lists.now.rows → slice_index lists.now.rows k < length u.now.indices.now }
{
    let indices = u.indices;
    let rows = lists.rows();
    if indices.len() == 0 || rows.len() == 0 {
        return false;
    }
    let last = indices[indices.len() - 1] as usize;
    let last_row = rows[rows.len() - 1] as usize;
    if last + 1 != indices.len() || last_row > last {
        return false;
    }
    true
}

/// Adds each row, with the products of the vector's value at its number, to sums of which none lies open.
fn add_each_row<T: Stored, M: MonoidOver<T>, O: Operator<T>, S: Side, C: Columns>(
    columns: &C,
    lists: &FlatRows,
    u: &EntrySlice<T>,
    words: &mut [u64],
    sums: &mut [T],
)
    requires domain { lists.now.domain ≡ T.domain }
    requires own { (i : ℕ) → i < length u.now.indices.now → slice_index u.now.indices.now i ≡ i }
    requires within { (k : ℕ) → k < length lists.now.rows → slice_index lists.now.rows k < length u.now.indices.now }
    requires in_range { All (λ e. e.0.1 < C.below columns.now) (decoded lists.now.entries) }
    requires marked { AreMarked (length (C.names columns.now)) words.old sums.old }
    requires none { AreSums T.value M.monoid (C.names columns.now) [] words.old sums.old }
    ensures marked { AreMarked (length (C.names columns.now)) words.new sums.new }
    ensures added { AreSums T.value M.monoid (C.names columns.now) (pushed (S.makes O.op) (entries_of T.value u.now.indices.now u.now.values.now) (decoded lists.now.entries)) words.new sums.new }
{
    let numbers = lists.rows();
    let values = u.values;
    'each: for k in 0..numbers.len() {
        let at = numbers[k] as usize;
        let term: Product<T, O, S> = Product {
            x: values[at],
            of: PhantomData,
        };
        add_entries::<T, M, C, Product<T, O, S>>(
            columns,
            &term,
            lists.row_columns(k),
            T::of_row(lists, k),
            words,
            sums,
        );
    }
}

/// The sums of all rows, of which the vector has one value for each, by a place for each of `ncols` columns: no more for each entry than
/// the type is worth. No row is searched or listed. Where columns seem to stand near each other they are summed without marks first, and
/// again with marks where a sum of them is the identity. Beside the sums is whether places that are not wanted may be among them.
/// `AllocError` where memory is refused; then nothing is made.
fn sum_each_row<T: Stored + Folded + Placed + Drop, M: MonoidOver<T>, O: Operator<T>, S: Side>(
    alloc: Global,
    ncols: u32,
    wanted: &Wanted,
    lists: &FlatRows,
    u: &EntrySlice<T>,
) -> Result<(EntryList<T>, bool), AllocError>
    requires domain { lists.now.domain ≡ T.domain }
    requires own { (i : ℕ) → i < length u.now.indices.now → slice_index u.now.indices.now i ≡ i }
    requires within { (k : ℕ) → k < length lists.now.rows → slice_index lists.now.rows k < length u.now.indices.now }
    requires in_range { All (λ e. e.0.1 < ncols) (decoded lists.now.entries) }
    requires short { ncols ≤ T.places * length lists.now.entries }
    ensures { IfOk result (λ made. IsMade made.1 (is_wanted wanted.now.among wanted.now.names.now) (built_from nat_cmp M.monoid (pushed (S.makes O.op) (entries_of T.value u.now.indices.now u.now.values.now) (decoded lists.now.entries))) (entries_of T.value made.0.indices.items made.0.values.items)) }
{
    if ncols as usize <= u.indices.len() && seem_near(lists, ncols) {
        let unmarked = sum_unmarked::<T, M, O, S>(alloc, ncols, lists, u)?;
        if let Some(found) = unmarked {
            return Ok((found, true));
        }
    }
    let all = AllColumns { ncols };
    let mut open = open_sums::<T, M>(alloc, all.count())?;
    let words = open.words.as_mut_slice();
    let sums = open.sums.as_mut_slice();
    add_each_row::<T, M, O, S, AllColumns>(&all, lists, u, words, sums);
    let made = close_wanted(alloc, &all, wanted, words, sums, lists.len())?;
    Ok(made)
}

/// The product of a vector and a matrix by a monoid and an operator as types: at each column the fold of the products where both store
/// something. Columns that are not wanted may be left out; beside the product is whether they may be among it. Time and memory are in
/// proportion to the entries of the vector and of the rows that it picks, and to what is wanted where that bounds the product; of a vector
/// that stores one value memory is taken for the result alone, and of one that stores a value for each row no row is listed. `AllocError`
/// where memory is refused; then nothing is made.
pub(crate) fn push<T: Stored + Folded + Placed + Drop, M: MonoidOver<T>, O: Operator<T>, S: Side>(
    alloc: Global,
    wanted: &Wanted,
    u: &EntrySlice<T>,
    rows: &MatrixRows<T>,
) -> Result<(EntryList<T>, bool), AllocError>
    ensures { IfOk result (λ made. IsMade made.1 (is_wanted wanted.now.among wanted.now.names.now) (pushed_of M.monoid (S.makes O.op) (entries_of T.value u.now.indices.now u.now.values.now) (decoded rows.now.lists.now.entries)) (entries_of T.value made.0.indices.items made.0.values.items)) }
{
    let lists = rows.lists;
    if u.indices.len() == 1 {
        let made = push_one::<T, M, O, S>(alloc, u, lists)?;
        return Ok((made, true));
    }
    if has_each_row(u, lists) {
        if T::is_worth_a_place_each(rows.ncols, lists.len()) {
            let made = sum_each_row::<T, M, O, S>(alloc, rows.ncols as u32, wanted, lists, u)?;
            return Ok(made);
        }
    }
    let picked = pick_rows(alloc, lists, u)?;
    let picks = picked.as_slice();
    let count = picked_len(lists, picks);
    if T::is_worth_a_place_each(rows.ncols, count) {
        let made = sum_all::<T, M, O, S>(alloc, rows.ncols as u32, wanted, lists, picks, count)?;
        return Ok(made);
    }
    let made = sum_few::<T, M, O, S>(alloc, wanted, lists, picks, count)?;
    Ok(made)
}
