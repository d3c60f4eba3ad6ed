//! The product of a matrix and a vector.
ghost use Rattle.std.specs.Prelude.{◌≡◌, ◌<◌, ◌≤◌, ◌*◌, ◌+◌, true, false, length, All, IfOk, if◌then◌else◌};
ghost use Rattle.grb_core.specs.Operator.{op_domain};
ghost use Rattle.grb_core.specs.Monoid.{monoid_domain};
ghost use Rattle.grb_core.specs.Fold.{fold_of_some};
ghost use Rattle.grb_core.specs.Entries.{restricted};
ghost use Rattle.grb_core.specs.Results.{each_row, mxv_of, turned};
ghost use Rattle.grb_kernels.specs.Typed.{entries_of};
ghost use Rattle.grb_ewise.specs.Premises.{IsMatrixInput, IsVectorInput, IsVectorOutput};
ghost use Rattle.grb_ewise.specs.Written.{written_into_vector};
ghost use Rattle.grb_lists.specs.Cells.{decoded};
ghost use Rattle.grb_semirings.specs.Products.{products};
ghost use Rattle.grb_push.specs.Wanted.{is_wanted, IsMade};

use crate::lookup::{Few, Full, Lookup, Many, Open, scatter};
use crate::row_products::RowTimesVector;
use crate::rows::{made_rows, seem_unlike, summed_rows, tells_differences, whole_rows};
use grb_core::{BinaryOp, Descriptor, Domain, Semiring};
use grb_ewise::{Stored, is_worth_opening, keep_bools, keep_numbers};
use grb_kernels::{EntryList, EntrySlice, Operator, Scalar};
use grb_lists::FlatRows;
use grb_push::{MatrixFirst, Wanted, pushed_product, wanted_of, write_wanted};
use grb_semirings::{BySemiring, Folded, MatrixRows, MonoidOver, by_semiring, lend_matrix};
use grb_sparse::{SparseMatrix, SparseVector};
use std::alloc::{AllocError, Global};
use std::marker::PhantomData;

/// The product of each row that is wanted with a vector, in whatever form it is read. `AllocError` where memory is refused; then nothing is
/// made.
fn multiply_each_row<T: Stored + Folded + Drop, M: MonoidOver<T>, O: Operator<T>, L: Lookup<T>>(
    alloc: Global,
    lists: &FlatRows,
    wanted: &Wanted,
    vector: &L,
) -> Result<EntryList<T>, AllocError>
    requires domain { lists.now.domain ≡ T.domain }
    requires in_range { All (λ e. e.0.1 < L.size vector.now) (decoded lists.now.entries) }
    ensures { IfOk result (λ made. entries_of T.value made.indices.items made.values.items ≡ restricted (is_wanted wanted.now.among wanted.now.names.now) (each_row (λ x. fold_of_some M.monoid (products O.op (L.holds vector.now) x)) (decoded lists.now.entries))) }
{
    let rule: RowTimesVector<L, M, O> = RowTimesVector {
        vector,
        of: PhantomData,
    };
    if L::is_open() && seem_unlike(lists) {
        let made = summed_rows::<T, M, RowTimesVector<L, M, O>>(alloc, &rule, lists, wanted)?;
        return Ok(made);
    }
    made_rows(alloc, &rule, lists, wanted)
}

/// A vector has few entries for its rows, where there are so many columns for each.
const COLUMNS_FOR_ONE: usize = 8;

/// The product of a matrix and a vector that is laid open first, which takes memory for `ncols` places: no more than 8 times the entries
/// that are there. `AllocError` where that is refused; then nothing is made.
fn multiply_open<T: Stored + Folded + Drop, M: MonoidOver<T>, O: Operator<T>>(
    alloc: Global,
    rows: &MatrixRows<T>,
    wanted: &Wanted,
    u: &EntrySlice<T>,
) -> Result<EntryList<T>, AllocError>
    requires short { rows.now.ncols ≤ 8 * (length rows.now.lists.now.entries + length u.now.indices.now) }
    requires u_in_range { All (λ j. j < rows.now.ncols) u.now.indices.now }
    ensures { IfOk result (λ made. entries_of T.value made.indices.items made.values.items ≡ restricted (is_wanted wanted.now.among wanted.now.names.now) (mxv_of (record { monoid = M.monoid; op = O.op }) (decoded rows.now.lists.now.entries) (entries_of T.value u.now.indices.now u.now.values.now))) }
{
    let ncols = rows.ncols as usize;
    let mut marks = vec![in alloc; false; ncols]?;
    let mut dense = vec![in alloc; T::any(); ncols]?;
    let open_marks = marks.as_mut_slice();
    let open_values = dense.as_mut_slice();
    scatter(u.indices, u.values, open_marks, open_values);
    if u.indices.len() <= ncols / COLUMNS_FOR_ONE {
        let vector: Open<T, Few> = Open {
            marks: open_marks,
            dense: open_values,
            of: PhantomData,
        };
        let made = multiply_each_row::<T, M, O, Open<T, Few>>(alloc, rows.lists, wanted, &vector)?;
        return Ok(made);
    }
    let vector: Open<T, Many> = Open {
        marks: open_marks,
        dense: open_values,
        of: PhantomData,
    };
    let made = multiply_each_row::<T, M, O, Open<T, Many>>(alloc, rows.lists, wanted, &vector)?;
    Ok(made)
}

/// The product of a matrix and a vector that stores a value at each index: it is read as it lies, and takes no memory but for the result.
/// `AllocError` where that is refused; then nothing is made.
fn multiply_full<T: Stored + Folded + Drop, M: MonoidOver<T>, O: Operator<T>>(
    alloc: Global,
    rows: &MatrixRows<T>,
    wanted: &Wanted,
    u: &EntrySlice<T>,
) -> Result<EntryList<T>, AllocError>
    requires full { length u.now.indices.now ≡ rows.now.ncols }
    requires u_in_range { All (λ j. j < rows.now.ncols) u.now.indices.now }
    ensures { IfOk result (λ made. entries_of T.value made.indices.items made.values.items ≡ restricted (is_wanted wanted.now.among wanted.now.names.now) (mxv_of (record { monoid = M.monoid; op = O.op }) (decoded rows.now.lists.now.entries) (entries_of T.value u.now.indices.now u.now.values.now))) }
{
    let vector = Full { values: u.values };
    if tells_differences::<T, M>() && seem_unlike(rows.lists) {
        let made = multiply_each_row::<T, M, O, Full<T>>(alloc, rows.lists, wanted, &vector)?;
        return Ok(made);
    }
    let rule: RowTimesVector<Full<T>, M, O> = RowTimesVector {
        vector: &vector,
        of: PhantomData,
    };
    let made = whole_rows(alloc, &rule, rows.lists, wanted)?;
    Ok(made)
}

/// The product of a matrix and a vector, by a monoid and an operator as types. `AllocError` where memory is refused; then nothing is made.
fn multiply<T: Stored + Folded + Drop, M: MonoidOver<T>, O: Operator<T>>(
    alloc: Global,
    rows: &MatrixRows<T>,
    wanted: &Wanted,
    u: &EntrySlice<T>,
) -> Result<EntryList<T>, AllocError>
    requires u_in_range { All (λ j. j < rows.now.ncols) u.now.indices.now }
    ensures { IfOk result (λ made. entries_of T.value made.indices.items made.values.items ≡ restricted (is_wanted wanted.now.among wanted.now.names.now) (mxv_of (record { monoid = M.monoid; op = O.op }) (decoded rows.now.lists.now.entries) (entries_of T.value u.now.indices.now u.now.values.now))) }
{
    if u.indices.len() as u64 == rows.ncols {
        let made = multiply_full::<T, M, O>(alloc, rows, wanted, u)?;
        return Ok(made);
    }
    if is_worth_opening(rows.ncols, rows.lists.len() + u.indices.len()) {
        let made = multiply_open::<T, M, O>(alloc, rows, wanted, u)?;
        return Ok(made);
    }
    let made = multiply_each_row::<T, M, O, EntrySlice<T>>(alloc, rows.lists, wanted, u)?;
    Ok(made)
}

/// A matrix and a vector that are multiplied by whichever semiring, at the rows that are wanted.
#[derive(Drop)]
struct Factors<'a, T: Scalar> {
    alloc: Global,
    rows: MatrixRows<'a, T>,
    wanted: &'a Wanted<'a>,
    u: &'a EntrySlice<'a, T>,
    ghost u_in_range: { All (λ j. j < rows.ncols) u.now.indices.now },
}

impl<'a, T: Stored + Folded + Drop> BySemiring<T> for Factors<'a, T> {
    type Output = Result<EntryList<T>, AllocError>;

    ghost Gives = { λ f semiring result. IfOk result (λ made. entries_of T.value made.indices.items made.values.items ≡ restricted (is_wanted f.wanted.now.among f.wanted.now.names.now) (mxv_of semiring (decoded f.rows.lists.now.entries) (entries_of T.value f.u.now.indices.now f.u.now.values.now))) };

    /// The product of matrix and vector, by monoid and operator as types. `AllocError` where memory is refused; then nothing is made.
    fn by<M: MonoidOver<T>, O: Operator<T>>(self) -> Result<EntryList<T>, AllocError> {
        multiply::<T, M, O>(self.alloc, &self.rows, self.wanted, self.u)
    }
}

/// The product of a matrix and a vector whose values are of one Rust type. `AllocError` where memory is refused; then nothing is made.
fn multiply_by<T: Stored + Folded + Drop>(
    alloc: Global,
    semiring: Semiring,
    rows: MatrixRows<T>,
    wanted: &Wanted,
    u: &EntrySlice<T>,
) -> Result<EntryList<T>, AllocError>
    requires monoid_domain { monoid_domain semiring.monoid ≡ T.domain }
    requires op_domain { op_domain semiring.op ≡ T.domain }
    requires u_in_range { All (λ j. j < rows.ncols) u.now.indices.now }
    ensures { IfOk result (λ made. entries_of T.value made.indices.items made.values.items ≡ restricted (is_wanted wanted.now.among wanted.now.names.now) (mxv_of semiring (decoded rows.entry.lists.now.entries) (entries_of T.value u.now.indices.now u.now.values.now))) }
{
    let factors = Factors {
        alloc,
        rows,
        wanted,
        u,
    };
    by_semiring(semiring, factors)
}

/// The product of a matrix and a vector, as a vector: at the rows that are wanted. `AllocError` where memory is refused; then nothing is
/// made.
pub(crate) fn product(
    alloc: Global,
    semiring: Semiring,
    wanted: &Wanted,
    a: &SparseMatrix,
    u: &SparseVector,
) -> Result<SparseVector, AllocError>
    requires a { IsMatrixInput false (op_domain semiring.op) a.now.matrix.nrows u.now.vector.size a.now }
    requires u { IsVectorInput (op_domain semiring.op) u.now.vector.size u.now }
    ensures vector { IfOk result (λ made. made.vector ≡ record { domain = a.now.matrix.domain; size = a.now.matrix.nrows; entries = restricted (is_wanted wanted.now.among wanted.now.names.now) (mxv_of semiring a.now.matrix.entries u.now.vector.entries) }) }
    ensures assembled { IfOk result (λ made. made.assembled ≡ true) }
{
    let (nrows, _ncols) = a.dims();
    match semiring.domain() {
        Domain::Bool => {
            let lent = bool::lend(u);
            let entries = multiply_by(alloc, semiring, lend_matrix::<bool>(a), wanted, &lent)?;
            keep_bools(alloc, nrows, entries)
        }
        Domain::Uint64 => {
            let lent = u64::lend(u);
            let entries = multiply_by(alloc, semiring, lend_matrix::<u64>(a), wanted, &lent)?;
            keep_numbers(alloc, nrows, entries)
        }
    }
}

/// The product of a matrix, transposed or not, and a vector; the matrix's value comes first. Rows that are not wanted are left out; with
/// `tran` they need not be, and beside the product is whether they may be among it. `AllocError` where memory is refused; then nothing is
/// made.
fn turned_product(
    alloc: Global,
    semiring: Semiring,
    wanted: &Wanted,
    a: &SparseMatrix,
    u: &SparseVector,
    tran: bool,
) -> Result<(SparseVector, bool), AllocError>
    requires a { IsMatrixInput tran (op_domain semiring.op) (if tran then a.now.matrix.ncols else a.now.matrix.nrows) u.now.vector.size a.now }
    requires u { IsVectorInput (op_domain semiring.op) u.now.vector.size u.now }
    ensures domain { IfOk result (λ made. made.0.vector.domain ≡ a.now.matrix.domain) }
    ensures size { IfOk result (λ made. made.0.vector.size ≡ (if tran then a.now.matrix.ncols else a.now.matrix.nrows)) }
    ensures entries { IfOk result (λ made. IsMade made.1 (is_wanted wanted.now.among wanted.now.names.now) (mxv_of semiring (turned tran a.now.matrix.entries) u.now.vector.entries) made.0.vector.entries) }
    ensures assembled { IfOk result (λ made. made.0.assembled ≡ true) }
{
    if tran {
        return pushed_product::<MatrixFirst>(alloc, semiring, wanted, u, a);
    }
    let made = product(alloc, semiring, wanted, a, u)?;
    Ok((made, false))
}

/// The product of a matrix and a vector: at each row the fold, by the semiring's monoid, of what its operator makes of the row's and the
/// vector's values where both are stored, and nothing where there is no such place; written into `output` by the accumulator, the mask and
/// the descriptor. `AllocError` where memory is refused; then nothing is made, and `output` is as before.
///
/// - `output`: the old output, which is read.
/// - `mask`: which indices may be written, read as `descriptor` says; `None` for all, or with `comp` for none.
/// - `accum`: combines the old value and the computed one where both are there; `None` for the computed one alone.
/// - `semiring`: its operator multiplies, its monoid adds up the products.
/// - `a`: the matrix; its value comes first in a product.
/// - `u`: the vector.
/// - `descriptor`: how the mask is read, whether what lies outside of it is removed, and whether `a` is read transposed.
///
/// All are of one domain, the mask aside; `u` has one place for each column of `a`, and the output and the mask one for each row. Time is
/// in proportion to the stored entries, and so is memory: a work array of one place for each column is made only where it is no longer
/// than 8 times the entries of `a` and `u`. Else each entry of `a` costs a binary search in `u`. A `u` that stores a value at each index is
/// read as it lies. Where the products are numbers that are added up, a row is the difference of two running sums if all rows are made and
/// their lengths seem unlike: these stand in a work list of 1,025 at most. Rows at which a mask lets nothing be written are not multiplied:
/// those that it does not store, and with the complement of a structural mask those that it stores, or of no mask all. By a structural mask
/// the products are written as they are, and not masked again.
///
/// With `tran` the matrix is the transposed of `a`, whose rows are the columns of `a`. It is not made: time and memory are those of `vxm`
/// without `tran1`. `tran1` is not read.
///
/// Source: GraphBLAS C API 2.0, "mxv".
pub fn mxv(
    alloc: Global,
    output: &SparseVector,
    mask: Option<&SparseVector>,
    accum: Option<BinaryOp>,
    semiring: Semiring,
    a: &SparseMatrix,
    u: &SparseVector,
    descriptor: Descriptor,
) -> Result<SparseVector, AllocError>
    requires output { IsVectorOutput output.now mask accum }
    requires semiring_domain { op_domain semiring.op ≡ output.now.vector.domain }
    requires a { IsMatrixInput descriptor.tran output.now.vector.domain output.now.vector.size u.now.vector.size a.now }
    requires u { IsVectorInput output.now.vector.domain u.now.vector.size u.now }
    ensures vector { IfOk result (λ made. made.vector ≡ written_into_vector output.now mask.entry accum descriptor
        (mxv_of semiring (turned descriptor.tran a.now.matrix.entries) u.now.vector.entries)) }
    ensures assembled { IfOk result (λ made. made.assembled ≡ true) }
{
    let wanted = wanted_of(mask, descriptor);
    let (computed, whole) = turned_product(alloc, semiring, &wanted, a, u, descriptor.tran)?;
    write_wanted(alloc, output, mask, accum, descriptor, whole, computed)
}
