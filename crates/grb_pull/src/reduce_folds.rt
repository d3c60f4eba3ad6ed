//! Each row of a matrix, or of its transposed, folded to one value.
ghost use Rattle.std.specs.Prelude.{◌≡◌, ◌≤◌, true, refl, if◌then◌else◌, IfOk, All, ◌<◌, length, map, take, drop};
ghost use Rattle.grb_core.specs.Monoid.{monoid_domain};
ghost use Rattle.grb_core.specs.Entries.{values_of};
ghost use Rattle.grb_core.specs.Fold.{fold_of, fold_of_some};
ghost use Rattle.grb_core.specs.Written.{written};
ghost use Rattle.grb_core.specs.Results.{reduce_rows_of, turned};
ghost use Rattle.grb_kernels.specs.Typed.{entries_of};
ghost use Rattle.grb_ewise.specs.Premises.{IsMatrixInput, IsVectorOutput};
ghost use Rattle.grb_ewise.specs.Written.{written_into_vector};
ghost use Rattle.grb_lists.specs.Cells.{decoded};
ghost use Rattle.grb_push.specs.Wanted.{is_wanted, IsMade};

use crate::rows::{
    RowRule, SumRule, WholeRule, seem_unlike, summed_rows, tells_differences, whole_rows,
};
use grb_core::{BinaryOp, Descriptor, Domain, Monoid};
use grb_ewise::{Stored, keep_bools, keep_numbers};
use grb_folds::{fold_part, fold_row};
use grb_kernels::{EntryList, Scalar};
use grb_push::{Wanted, fold_columns, wanted_of, write_wanted};
use grb_semirings::{ByMonoid, Folded, MatrixRows, MonoidOver, lend_matrix};
use grb_sparse::{SparseMatrix, SparseVector};
use std::alloc::{AllocError, Global};
use std::marker::PhantomData;

/// The values of a row combined by a monoid as a type: by parts that are folded whole, where lengths are `unlike`.
fn fold_values<T: Stored + Folded, M: MonoidOver<T>>(
    unlike: bool,
    values: &[T],
    start: usize,
    end: usize,
) -> T
    requires order { start ≤ end }
    requires within { end ≤ length values.now }
    ensures { T.value result ≡ fold_of M.monoid (map T.value (drop start (take end values.now))) }
{
    if unlike {
        return fold_part::<T, M>(values, start, end);
    }
    fold_row::<T, M>(values, start, end)
}

/// The fold of a row.
#[derive(Drop)]
struct Sum<M> {
    /// Columns are below this.
    ncols: u64,
    /// Rows are short, and of lengths so unlike that parts of them are folded whole.
    unlike: bool,
    of: PhantomData<M>,
}

impl<T: Stored + Folded, M: MonoidOver<T>> RowRule<T> for Sum<M> {
    ghost reads = { λ rule. rule.ncols };

    ghost gives = { λ rule. λ x. fold_of_some M.monoid (values_of x) };

    fn row(&self, _columns: &[u32], values: &[T], start: usize, end: usize) -> (T, bool) {
        (fold_values::<T, M>(self.unlike, values, start, end), true)
    }

    ghost none = { λ rule. refl };
}

impl<T: Stored + Folded, M: MonoidOver<T>> WholeRule<T> for Sum<M> {
    fn value(&self, _columns: &[u32], values: &[T], start: usize, end: usize) -> T {
        fold_values::<T, M>(self.unlike, values, start, end)
    }
}

impl<T: Stored + Folded, M: MonoidOver<T>> SumRule<T, M> for Sum<M> {
    ghost adds = { λ rule. λ e. e.1 };

    fn term(&self, _column: u32, value: T) -> T {
        value.read()
    }

    fn is_kept(
        &self,
        _columns: &[u32],
        _values: &[T],
        _start: usize,
        _end: usize,
        _sum: T,
    ) -> bool {
        true
    }
}

/// Each row that is wanted folded by a monoid as a type; each column, where `tran` says that the matrix is read transposed. `AllocError`
/// where memory is refused; then nothing is made.
fn fold_rows<T: Stored + Folded + Drop, M: MonoidOver<T>>(
    alloc: Global,
    wanted: &Wanted,
    tran: bool,
    rows: &MatrixRows<T>,
) -> Result<EntryList<T>, AllocError>
    ensures { IfOk result (λ made. IsMade tran (is_wanted wanted.now.among wanted.now.names.now) (reduce_rows_of M.monoid (turned tran (decoded rows.now.lists.now.entries))) (entries_of T.value made.indices.items made.values.items)) }
{
    if tran {
        let made = fold_columns::<T, M>(alloc, rows)?;
        return Ok(made);
    }
    let unlike = seem_unlike(rows.lists);
    let rule: Sum<M> = Sum {
        ncols: rows.ncols,
        unlike,
        of: PhantomData,
    };
    if unlike && tells_differences::<T, M>() {
        let made = summed_rows::<T, M, Sum<M>>(alloc, &rule, rows.lists, wanted)?;
        return Ok(made);
    }
    let made = whole_rows(alloc, &rule, rows.lists, wanted)?;
    Ok(made)
}

/// A matrix whose wanted rows are folded by whichever monoid; its columns, where `tran` says that it is read transposed.
#[derive(Drop)]
struct Rows<'a, T: Scalar> {
    alloc: Global,
    wanted: &'a Wanted<'a>,
    tran: bool,
    rows: MatrixRows<'a, T>,
}

impl<'a, T: Stored + Folded + Drop> ByMonoid<T> for Rows<'a, T> {
    type Output = Result<EntryList<T>, AllocError>;

    ghost Gives = { λ r monoid result. IfOk result (λ made. IsMade r.tran (is_wanted r.wanted.now.among r.wanted.now.names.now) (reduce_rows_of monoid (turned r.tran (decoded r.rows.lists.now.entries))) (entries_of T.value made.indices.items made.values.items)) };

    /// The folds of the rows, by a monoid as a type. `AllocError` where memory is refused; then nothing is made.
    fn by<M: MonoidOver<T>>(self) -> Result<EntryList<T>, AllocError> {
        fold_rows::<T, M>(self.alloc, self.wanted, self.tran, &self.rows)
    }
}

/// Each row that is wanted folded by a monoid; each column, where `tran` says that the matrix is read transposed. `AllocError` where memory
/// is refused; then nothing is made.
fn fold_rows_by<T: Stored + Folded + Drop>(
    alloc: Global,
    monoid: Monoid,
    wanted: &Wanted,
    tran: bool,
    rows: MatrixRows<T>,
) -> Result<EntryList<T>, AllocError>
    requires monoid_domain { monoid_domain monoid ≡ T.domain }
    ensures { IfOk result (λ made. IsMade tran (is_wanted wanted.now.among wanted.now.names.now) (reduce_rows_of monoid (turned tran (decoded rows.entry.lists.now.entries))) (entries_of T.value made.indices.items made.values.items)) }
{
    let made = Rows {
        alloc,
        wanted,
        tran,
        rows,
    };
    T::choose_monoid(monoid, made)
}

/// The number of rows of a matrix with these dimensions; of its columns, where it is read transposed.
fn turned_rows(tran: bool, nrows: u64, ncols: u64) -> u64
    ensures { result ≡ (if tran then ncols else nrows) }
{
    if tran { ncols } else { nrows }
}

/// The folds of the rows of a matrix, which `tran` has read transposed, as a vector. Rows that are not wanted are left out; with `tran`
/// they need not be. `AllocError` where memory is refused; then nothing is made.
fn row_folds(
    alloc: Global,
    monoid: Monoid,
    wanted: &Wanted,
    tran: bool,
    a: &SparseMatrix,
) -> Result<SparseVector, AllocError>
    requires assembled { a.now.assembled ≡ true }
    requires domain { monoid_domain monoid ≡ a.now.matrix.domain }
    ensures domain { IfOk result (λ made. made.vector.domain ≡ a.now.matrix.domain) }
    ensures size { IfOk result (λ made. made.vector.size ≡ (if tran then a.now.matrix.ncols else a.now.matrix.nrows)) }
    ensures entries { IfOk result (λ made. IsMade tran (is_wanted wanted.now.among wanted.now.names.now) (reduce_rows_of monoid (turned tran a.now.matrix.entries)) made.vector.entries) }
    ensures assembled { IfOk result (λ made. made.assembled ≡ true) }
{
    let (nrows, ncols) = a.dims();
    let size = turned_rows(tran, nrows, ncols);
    match a.domain() {
        Domain::Bool => {
            let entries = fold_rows_by::<bool>(alloc, monoid, wanted, tran, lend_matrix(a))?;
            keep_bools(alloc, size, entries)
        }
        Domain::Uint64 => {
            let entries = fold_rows_by::<u64>(alloc, monoid, wanted, tran, lend_matrix(a))?;
            keep_numbers(alloc, size, entries)
        }
    }
}

/// Reduction of a matrix to a vector: at each row that stores something its values combined by the monoid, and nothing elsewhere; written
/// into `output` by the accumulator, the mask and the descriptor. With the descriptor's `tran` the matrix is read transposed, and so each
/// column is combined. `AllocError` where memory is refused; then nothing is made, and `output` is as before.
///
/// - `output`: the old output, which is read.
/// - `mask`: which indices may be written, read as `descriptor` says; `None` for all, or with `comp` for none.
/// - `accum`: combines the old value and the computed one where both are there; `None` for the computed one alone.
/// - `monoid`: combines the values of a row.
/// - `a`: the matrix.
/// - `descriptor`: how the mask is read, whether what lies outside of it is removed, and whether `a` is read transposed.
///
/// All are of one domain, the mask aside, and the output and the mask have one place for each row of `a`; for each column, with `tran`.
/// Time and memory are in proportion to the stored entries. Rows at which a mask lets nothing be written are not folded. Where numbers are
/// added up, a row is the difference of two running sums if all rows are made and their lengths seem unlike: these stand in a work list of
/// 1,025 at most. With `tran` the entries are read once, and there is memory for a sum at each column; where the columns are more than 8
/// times the entries, at each that stores something: these are sorted first, and searched for each entry.
///
/// Source: GraphBLAS C API 2.0, "reduce", of a matrix to a vector.
pub fn reduce_rows(
    alloc: Global,
    output: &SparseVector,
    mask: Option<&SparseVector>,
    accum: Option<BinaryOp>,
    monoid: Monoid,
    a: &SparseMatrix,
    descriptor: Descriptor,
) -> Result<SparseVector, AllocError>
    requires output { IsVectorOutput output.now mask accum }
    requires monoid_domain { monoid_domain monoid ≡ output.now.vector.domain }
    requires a { IsMatrixInput descriptor.tran output.now.vector.domain output.now.vector.size
        (if descriptor.tran then a.now.matrix.nrows else a.now.matrix.ncols) a.now }
    ensures vector { IfOk result (λ made. made.vector ≡ written_into_vector output.now mask.entry accum descriptor
        (reduce_rows_of monoid (turned descriptor.tran a.now.matrix.entries))) }
    ensures assembled { IfOk result (λ made. made.assembled ≡ true) }
{
    let wanted = wanted_of(mask, descriptor);
    let computed = row_folds(alloc, monoid, &wanted, descriptor.tran, a)?;
    write_wanted(
        alloc,
        output,
        mask,
        accum,
        descriptor,
        descriptor.tran,
        computed,
    )
}
