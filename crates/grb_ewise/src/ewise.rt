//! eWiseAdd and eWiseMult of vectors and of matrices.
ghost use Rattle.std.specs.Prelude.{◌≡◌, true, IfOk};
ghost use Rattle.std.specs.Ordering.{nat_cmp};
ghost use Rattle.grb_core.specs.Operator.{op_domain, value_of_op};
ghost use Rattle.grb_core.specs.Entries.{cell_cmp};
ghost use Rattle.grb_core.specs.Contents.{edited_matrix};
ghost use Rattle.grb_core.specs.Written.{pointwise};
ghost use Rattle.grb_core.specs.Results.{ewise_add, ewise_mult, turned};
ghost use Rattle.grb_kernels.specs.Pairing.{paired};
ghost use Rattle.grb_ewise.specs.Made.{turned_matrix};
ghost use Rattle.grb_ewise.specs.Premises.{IsMatrixInput, IsMatrixOutput, IsVectorInput, IsVectorOutput, columns_read, rows_read};
ghost use Rattle.grb_ewise.specs.Written.{written_into_matrix, written_into_vector};

use crate::inputs::read_matrix;
use crate::pairing::pair;
use crate::transposing::transposed;
use crate::writing::{write_masked_matrix, write_masked_vector};
use grb_core::{BinaryOp, Descriptor, transposed_exchanges_rows_and_columns};
use grb_kernels::Pairing;
use grb_sparse::{SparseMatrix, SparseVector};
use std::alloc::{AllocError, Global};

/// eWiseAdd: over the union of the indices of `u` and `v`, what the operator makes of both values, else the one value; written into
/// `output` by the accumulator, the mask and the descriptor. `AllocError` where memory is refused; then nothing is made, and `output` is as
/// before.
///
/// - `output`: the old output, which is read.
/// - `mask`: which indices may be written, read as `descriptor` says; `None` for all, or with `comp` for none.
/// - `accum`: combines the old value and the computed one where both are there; `None` for the computed one alone.
/// - `op`: makes one value of that of `u` and that of `v`, in this order.
/// - `u`, `v`: the first and the second input.
/// - `descriptor`: how the mask is read, whether what lies outside of it is removed; `tran` and `tran1` are not read.
///
/// All are of one domain, the mask aside, and of one size. Time and memory are in proportion to the stored entries.
///
/// Source: GraphBLAS C API 2.0, "eWiseAdd".
pub fn ewise_add_vector(
    alloc: Global,
    output: &SparseVector,
    mask: Option<&SparseVector>,
    accum: Option<BinaryOp>,
    op: BinaryOp,
    u: &SparseVector,
    v: &SparseVector,
    descriptor: Descriptor,
) -> Result<SparseVector, AllocError>
    requires output { IsVectorOutput output.now mask accum }
    requires op_domain { op_domain op ≡ output.now.vector.domain }
    requires u { IsVectorInput output.now.vector.domain output.now.vector.size u.now }
    requires v { IsVectorInput output.now.vector.domain output.now.vector.size v.now }
    ensures vector { IfOk result (λ made. made.vector ≡ written_into_vector output.now mask.entry accum descriptor
        (ewise_add nat_cmp op u.now.vector.entries v.now.vector.entries)) }
    ensures assembled { IfOk result (λ made. made.assembled ≡ true) }
{
    let computed = pair(alloc, Pairing::Union, op, u, v)?;
    write_masked_vector(alloc, output, mask, accum, descriptor, computed)
}

/// eWiseMult: over the intersection of the indices of `u` and `v`, what the operator makes of both values; written into `output` by the
/// accumulator, the mask and the descriptor. `AllocError` where memory is refused; then nothing is made, and `output` is as before.
///
/// - `output`: the old output, which is read.
/// - `mask`: which indices may be written, read as `descriptor` says; `None` for all, or with `comp` for none.
/// - `accum`: combines the old value and the computed one where both are there; `None` for the computed one alone.
/// - `op`: makes one value of that of `u` and that of `v`, in this order.
/// - `u`, `v`: the first and the second input.
/// - `descriptor`: how the mask is read, whether what lies outside of it is removed; `tran` and `tran1` are not read.
///
/// All are of one domain, the mask aside, and of one size. Time and memory are in proportion to the stored entries.
///
/// Source: GraphBLAS C API 2.0, "eWiseMult".
pub fn ewise_mult_vector(
    alloc: Global,
    output: &SparseVector,
    mask: Option<&SparseVector>,
    accum: Option<BinaryOp>,
    op: BinaryOp,
    u: &SparseVector,
    v: &SparseVector,
    descriptor: Descriptor,
) -> Result<SparseVector, AllocError>
    requires output { IsVectorOutput output.now mask accum }
    requires op_domain { op_domain op ≡ output.now.vector.domain }
    requires u { IsVectorInput output.now.vector.domain output.now.vector.size u.now }
    requires v { IsVectorInput output.now.vector.domain output.now.vector.size v.now }
    ensures vector { IfOk result (λ made. made.vector ≡ written_into_vector output.now mask.entry accum descriptor
        (ewise_mult nat_cmp op u.now.vector.entries v.now.vector.entries)) }
    ensures assembled { IfOk result (λ made. made.assembled ≡ true) }
{
    let computed = pair(alloc, Pairing::Intersection, op, u, v)?;
    write_masked_vector(alloc, output, mask, accum, descriptor, computed)
}

/// Two matrices as they are read, combined by an operator of their domain. Where both are read transposed, what they make is turned in
/// place of both. `AllocError` where memory is refused; then nothing is made.
fn pair_read(
    alloc: Global,
    pairing: Pairing,
    op: BinaryOp,
    a: &SparseMatrix,
    b: &SparseMatrix,
    tran: bool,
    tran1: bool,
) -> Result<SparseMatrix, AllocError>
    requires a_assembled { a.now.assembled ≡ true }
    requires b_assembled { b.now.assembled ≡ true }
    requires a_domain { a.now.matrix.domain ≡ op_domain op }
    requires b_domain { b.now.matrix.domain ≡ op_domain op }
    requires rows { rows_read tran1 b.now.matrix ≡ rows_read tran a.now.matrix }
    requires columns { columns_read tran1 b.now.matrix ≡ columns_read tran a.now.matrix }
    ensures matrix { IfOk result (λ made. made.matrix ≡ edited_matrix (λ m. pointwise cell_cmp (paired pairing (value_of_op op)) m (turned tran1 b.now.matrix.entries)) (turned_matrix tran a.now.matrix)) }
    ensures assembled { IfOk result (λ made. made.assembled ≡ true) }
{
    if tran & tran1 {
        transposed_exchanges_rows_and_columns();
        let of_both = pair(alloc, pairing, op, a, b)?;
        let turned = transposed(alloc, &of_both)?;
        return Ok(turned);
    }
    let first = read_matrix(alloc, a, tran)?;
    let second = read_matrix(alloc, b, tran1)?;
    let made = pair(alloc, pairing, op, first.matrix(), second.matrix())?;
    Ok(made)
}

/// eWiseAdd: over the union of the cells of `a` and `b`, what the operator makes of both values, else the one value; written into `output`
/// by the accumulator, the mask and the descriptor. `AllocError` where memory is refused; then nothing is made, and `output` is as before.
///
/// - `output`: the old output, which is read.
/// - `mask`: which cells may be written, read as `descriptor` says; `None` for all, or with `comp` for none.
/// - `accum`: combines the old value and the computed one where both are there; `None` for the computed one alone.
/// - `op`: makes one value of that of `a` and that of `b`, in this order.
/// - `a`, `b`: the first and the second input.
/// - `descriptor`: how the mask is read, whether what lies outside of it is removed, whether `a` is read transposed, and whether `b` is.
///
/// All are of one domain, the mask aside, and of the same dimensions, those of `a` exchanged where the descriptor says `tran`, and those of
/// `b` where it says `tran1`: then the matrix stands for its transposed, which is made first, as `transposed` does; where both are, what
/// they make is turned instead. Else nothing is copied, and time and memory are in proportion to the stored entries.
///
/// Source: GraphBLAS C API 2.0, "eWiseAdd".
pub fn ewise_add_matrix(
    alloc: Global,
    output: &SparseMatrix,
    mask: Option<&SparseMatrix>,
    accum: Option<BinaryOp>,
    op: BinaryOp,
    a: &SparseMatrix,
    b: &SparseMatrix,
    descriptor: Descriptor,
) -> Result<SparseMatrix, AllocError>
    requires output { IsMatrixOutput output.now mask accum }
    requires op_domain { op_domain op ≡ output.now.matrix.domain }
    requires a { IsMatrixInput descriptor.tran output.now.matrix.domain output.now.matrix.nrows output.now.matrix.ncols a.now }
    requires b { IsMatrixInput descriptor.tran1 output.now.matrix.domain output.now.matrix.nrows output.now.matrix.ncols b.now }
    ensures matrix { IfOk result (λ made. made.matrix ≡ written_into_matrix output.now mask.entry accum descriptor
        (ewise_add cell_cmp op (turned descriptor.tran a.now.matrix.entries) (turned descriptor.tran1 b.now.matrix.entries))) }
    ensures assembled { IfOk result (λ made. made.assembled ≡ true) }
{
    let (tran, tran1) = (descriptor.tran, descriptor.tran1);
    let computed = pair_read(alloc, Pairing::Union, op, a, b, tran, tran1)?;
    write_masked_matrix(alloc, output, mask, accum, descriptor, computed)
}

/// eWiseMult: over the intersection of the cells of `a` and `b`, what the operator makes of both values; written into `output` by the
/// accumulator, the mask and the descriptor. `AllocError` where memory is refused; then nothing is made, and `output` is as before.
///
/// - `output`: the old output, which is read.
/// - `mask`: which cells may be written, read as `descriptor` says; `None` for all, or with `comp` for none.
/// - `accum`: combines the old value and the computed one where both are there; `None` for the computed one alone.
/// - `op`: makes one value of that of `a` and that of `b`, in this order.
/// - `a`, `b`: the first and the second input.
/// - `descriptor`: how the mask is read, whether what lies outside of it is removed, whether `a` is read transposed, and whether `b` is.
///
/// All are of one domain, the mask aside, and of the same dimensions, those of `a` exchanged where the descriptor says `tran`, and those of
/// `b` where it says `tran1`: then the matrix stands for its transposed, which is made first, as `transposed` does; where both are, what
/// they make is turned instead. Else nothing is copied, and time and memory are in proportion to the stored entries.
///
/// Source: GraphBLAS C API 2.0, "eWiseMult".
pub fn ewise_mult_matrix(
    alloc: Global,
    output: &SparseMatrix,
    mask: Option<&SparseMatrix>,
    accum: Option<BinaryOp>,
    op: BinaryOp,
    a: &SparseMatrix,
    b: &SparseMatrix,
    descriptor: Descriptor,
) -> Result<SparseMatrix, AllocError>
    requires output { IsMatrixOutput output.now mask accum }
    requires op_domain { op_domain op ≡ output.now.matrix.domain }
    requires a { IsMatrixInput descriptor.tran output.now.matrix.domain output.now.matrix.nrows output.now.matrix.ncols a.now }
    requires b { IsMatrixInput descriptor.tran1 output.now.matrix.domain output.now.matrix.nrows output.now.matrix.ncols b.now }
    ensures matrix { IfOk result (λ made. made.matrix ≡ written_into_matrix output.now mask.entry accum descriptor
        (ewise_mult cell_cmp op (turned descriptor.tran a.now.matrix.entries) (turned descriptor.tran1 b.now.matrix.entries))) }
    ensures assembled { IfOk result (λ made. made.assembled ≡ true) }
{
    let (tran, tran1) = (descriptor.tran, descriptor.tran1);
    let computed = pair_read(alloc, Pairing::Intersection, op, a, b, tran, tran1)?;
    write_masked_matrix(alloc, output, mask, accum, descriptor, computed)
}
