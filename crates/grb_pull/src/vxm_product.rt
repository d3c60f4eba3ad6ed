//! The product of a vector and a matrix.
ghost use Rattle.std.specs.Prelude.{◌≡◌, true, false, IfOk, IfSome};
ghost use Rattle.grb_core.specs.Operator.{op_domain};
ghost use Rattle.grb_core.specs.Results.{transposed, turned, vxm_of};
ghost use Rattle.grb_ewise.specs.Premises.{IsMatrixInput, IsVectorInput, IsVectorOutput, columns_read};
ghost use Rattle.grb_ewise.specs.Written.{written_into_vector};
ghost use Rattle.grb_push.specs.Wanted.{is_wanted, IsMade};
ghost use Rattle.grb_pull.specs.Exchanged.{IsExchanged, exchanged_op};

use crate::mxv_product::product;
use grb_core::{
    BinaryOp, Descriptor, Semiring, transposed_exchanges_rows_and_columns,
    vxm_is_a_product_of_the_transposed,
};
use grb_ewise::transposed;
use grb_push::{VectorFirst, Wanted, pushed_product, wanted_of, write_wanted};
use grb_sparse::{SparseMatrix, SparseVector};
use std::alloc::{AllocError, Global};

/// The operator that takes its arguments the other way around, if there is one: of a difference there is none. One that commutes is its own.
fn exchanged_op(op: BinaryOp) -> Option<BinaryOp>
    ensures { result ≡ exchanged_op op }
{
    match op {
        BinaryOp::Minus => None,
        BinaryOp::FirstBool => Some(BinaryOp::SecondBool),
        BinaryOp::SecondBool => Some(BinaryOp::FirstBool),
        BinaryOp::First => Some(BinaryOp::Second),
        BinaryOp::Second => Some(BinaryOp::First),
        BinaryOp::Lor
        | BinaryOp::Land
        | BinaryOp::Lxor
        | BinaryOp::Lxnor
        | BinaryOp::Plus
        | BinaryOp::Times
        | BinaryOp::Min
        | BinaryOp::Max => Some(op),
    }
}

/// The semiring whose operator takes its arguments the other way around, if there is one.
fn exchanged(semiring: Semiring) -> Option<Semiring>
    ensures { IfSome result (λ other. (other.monoid ≡ semiring.monoid) × IsExchanged other.op semiring.op) }
{
    match exchanged_op(semiring.op()) {
        Some(other) => Semiring::new(semiring.monoid(), other).ok(),
        None => None,
    }
}

/// The product of a vector and the transposed of a matrix, of which the columns are the rows of that matrix. They are read in place, where
/// the operator has one that takes its arguments the other way around; else the transposed is made first. Beside it is whether places that
/// are not wanted may be among it. `AllocError` where memory is refused; then nothing is made.
fn product_by_rows(
    alloc: Global,
    semiring: Semiring,
    wanted: &Wanted,
    u: &SparseVector,
    a: &SparseMatrix,
) -> Result<(SparseVector, bool), AllocError>
    requires u { IsVectorInput (op_domain semiring.op) u.now.vector.size u.now }
    requires a { IsMatrixInput false (op_domain semiring.op) a.now.matrix.nrows u.now.vector.size a.now }
    ensures domain { IfOk result (λ made. made.0.vector.domain ≡ a.now.matrix.domain) }
    ensures size { IfOk result (λ made. made.0.vector.size ≡ a.now.matrix.nrows) }
    ensures entries { IfOk result (λ made. IsMade made.1 (is_wanted wanted.now.among wanted.now.names.now) (vxm_of semiring u.now.vector.entries (transposed a.now.matrix.entries)) made.0.vector.entries) }
    ensures assembled { IfOk result (λ made. made.0.assembled ≡ true) }
{
    match exchanged(semiring) {
        Some(other) => {
            u.dims();
            a.dims();
            transposed_exchanges_rows_and_columns();
            vxm_is_a_product_of_the_transposed();
            let made = product(alloc, other, wanted, a, u)?;
            Ok((made, false))
        }
        None => {
            let turned = transposed(alloc, a)?;
            let pushed = pushed_product::<VectorFirst>(alloc, semiring, wanted, u, &turned)?;
            Ok(pushed)
        }
    }
}

/// The product of a vector and a matrix as it is read; the vector's value comes first. Beside it is whether places that are not wanted may
/// be among it. `AllocError` where memory is refused; then nothing is made.
fn turned_product(
    alloc: Global,
    semiring: Semiring,
    wanted: &Wanted,
    u: &SparseVector,
    a: &SparseMatrix,
    tran1: bool,
) -> Result<(SparseVector, bool), AllocError>
    requires u { IsVectorInput (op_domain semiring.op) u.now.vector.size u.now }
    requires a { IsMatrixInput tran1 (op_domain semiring.op) u.now.vector.size (columns_read tran1 a.now.matrix) a.now }
    ensures domain { IfOk result (λ made. made.0.vector.domain ≡ a.now.matrix.domain) }
    ensures size { IfOk result (λ made. made.0.vector.size ≡ columns_read tran1 a.now.matrix) }
    ensures entries { IfOk result (λ made. IsMade made.1 (is_wanted wanted.now.among wanted.now.names.now) (vxm_of semiring u.now.vector.entries (turned tran1 a.now.matrix.entries)) made.0.vector.entries) }
    ensures assembled { IfOk result (λ made. made.0.assembled ≡ true) }
{
    if tran1 {
        let by_rows = product_by_rows(alloc, semiring, wanted, u, a)?;
        return Ok(by_rows);
    }
    let made = pushed_product::<VectorFirst>(alloc, semiring, wanted, u, a)?;
    Ok(made)
}

/// The product of a vector and a matrix: at each column the fold, by the semiring's monoid, of what its operator makes of the vector's and
/// the column's values where both are stored, and nothing where there is no such place; written into `output` by the accumulator, the mask
/// and the descriptor. `AllocError` where memory is refused; then nothing is made, and `output` is as before.
///
/// - `output`: the old output, which is read.
/// - `mask`: which indices may be written, read as `descriptor` says; `None` for all, or with `comp` for none.
/// - `accum`: combines the old value and the computed one where both are there; `None` for the computed one alone.
/// - `semiring`: its operator multiplies, its monoid adds up the products.
/// - `u`: the vector; its value comes first in a product.
/// - `a`: the matrix.
/// - `descriptor`: how the mask is read, whether what lies outside of it is removed, and by `tran1` whether `a`, which stands second, is read
///   transposed; its `tran` is not read.
///
/// All are of one domain, the mask aside; `u` has one place for each row of `a`, and the output and the mask one for each column. Only the
/// rows are read at which `u` stores something. Time is in proportion to their entries, to those of `u` and to what is written, and so is
/// memory: a work array of one place for each column is made only where it is no longer than 32 times the entries of these rows, or of
/// truth values 128 times. Else the products are sorted by column; or, where the mask's indices are no more than these entries and bound
/// what is written, each entry costs a binary search among them. Where `u` stores one value its row is copied with the products, and no
/// work array is made. Where it stores a value at the index of each row no row is searched or listed. Where there is a work array, columns
/// at which a mask lets nothing be written are left out of the sums before these become entries, if the mask stores no more than 4 for each
/// product: those that it does not store, and with the complement of a structural mask those that it stores. By a structural mask the
/// products are then written as they are, and not masked again.
///
/// With `tran1` the matrix is the transposed of `a`, whose columns are the rows of `a`. It is not made: time and memory are those of `mxv`
/// without `tran`, by the operator that takes its arguments the other way around. Where there is none, as of a difference, it is made first,
/// as `grb_ewise::transposed` does.
///
/// Source: GraphBLAS C API 2.0, "vxm".
pub fn vxm(
    alloc: Global,
    output: &SparseVector,
    mask: Option<&SparseVector>,
    accum: Option<BinaryOp>,
    semiring: Semiring,
    u: &SparseVector,
    a: &SparseMatrix,
    descriptor: Descriptor,
) -> Result<SparseVector, AllocError>
    requires output { IsVectorOutput output.now mask accum }
    requires semiring_domain { op_domain semiring.op ≡ output.now.vector.domain }
    requires u { IsVectorInput output.now.vector.domain u.now.vector.size u.now }
    requires a { IsMatrixInput descriptor.tran1 output.now.vector.domain u.now.vector.size output.now.vector.size a.now }
    ensures vector { IfOk result (λ made. made.vector ≡ written_into_vector output.now mask.entry accum descriptor
        (vxm_of semiring u.now.vector.entries (turned descriptor.tran1 a.now.matrix.entries))) }
    ensures assembled { IfOk result (λ made. made.assembled ≡ true) }
{
    let wanted = wanted_of(mask, descriptor);
    let (computed, whole) = turned_product(alloc, semiring, &wanted, u, a, descriptor.tran1)?;
    write_wanted(alloc, output, mask, accum, descriptor, whole, computed)
}
