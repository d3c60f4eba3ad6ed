//! The product of two matrices, which passes that come to it at one time make together.
ghost use Rattle.std.specs.Prelude.{◌≡◌, ℕ, true, IfOk, IfSome, false};
ghost use Rattle.std.specs.Option.{option_map};
ghost use Rattle.grb_core.specs.Operator.{op_domain};
ghost use Rattle.grb_core.specs.Results.{mxm_of, turned};
ghost use Rattle.grb_ewise.specs.Premises.{IsMatrixInput, IsMatrixOutput, columns_read, rows_read};
ghost use Rattle.grb_ewise.specs.Written.{written_into_matrix};
ghost use Rattle.grb_mxm.specs.Rows.{bounding, selected_product};
ghost use Rattle.grb_jobs.specs.Blocks.{IsReady};

use crate::board::Board;
use grb_core::{BinaryOp, Descriptor, Semiring};
use grb_ewise::read_matrix;
use grb_mxm::{bounding_lists, mxm, product, write_product};
use grb_sparse::SparseMatrix;
use std::alloc::{AllocError, Global};

/// The mask that bounds the product; none, where there is no mask or its complement is meant.
fn bounding_mask(mask: Option<&SparseMatrix>, comp: bool) -> Option<&SparseMatrix>
    ensures assembled { IfSome mask.entry (λ m. m.now.assembled ≡ true) → IfSome (option_map (λ m. m.now) result) (λ m. m.assembled ≡ true) }
    ensures columns { (n : ℕ) → IfSome mask.entry (λ m. m.now.matrix.ncols ≡ n) → IfSome (option_map (λ m. m.now) result) (λ m. m.matrix.ncols ≡ n) }
    ensures entries { option_map (λ m. m.now.matrix.entries) result ≡ bounding comp (option_map (λ m. m.now.matrix.entries) mask.entry) }
{
    if comp { None } else { mask }
}

/// The product of two matrices at the cells that a mask selects: by a job, where it is dear; else by the thread alone. `AllocError` where
/// memory is refused; then nothing is made.
fn product_by(
    alloc: Global,
    board: &Board,
    semiring: Semiring,
    structure: bool,
    mask: Option<&SparseMatrix>,
    a: &SparseMatrix,
    b: &SparseMatrix,
) -> Result<SparseMatrix, AllocError>
    requires { IsReady semiring (option_map (λ m. m.now) mask) a.now b.now }
    ensures matrix { IfOk result (λ made. made.matrix ≡ record { domain = a.now.matrix.domain; nrows = a.now.matrix.nrows; ncols = b.now.matrix.ncols; entries = selected_product semiring structure (option_map (λ m. m.now.matrix.entries) mask.entry) a.now.matrix.entries b.now.matrix.entries }) }
    ensures assembled { IfOk result (λ made. made.assembled ≡ true) }
{
    if let Some(made) = board.product(semiring, structure, mask, a, b)? {
        return Ok(made);
    }
    let bound = bounding_lists(mask, false);
    let alone = product(alloc, semiring, structure, bound, a, b)?;
    Ok(alone)
}

/// The same of two matrices as they are read. `AllocError` where memory is refused; then nothing is made.
fn product_read(
    alloc: Global,
    board: &Board,
    semiring: Semiring,
    structure: bool,
    mask: Option<&SparseMatrix>,
    a: &SparseMatrix,
    b: &SparseMatrix,
    tran: bool,
    tran1: bool,
) -> Result<SparseMatrix, AllocError>
    requires a { IsMatrixInput tran (op_domain semiring.op) (rows_read tran a.now.matrix) (rows_read tran1 b.now.matrix) a.now }
    requires b { IsMatrixInput tran1 (op_domain semiring.op) (rows_read tran1 b.now.matrix) (columns_read tran1 b.now.matrix) b.now }
    requires mask_assembled { IfSome (option_map (λ m. m.now) mask) (λ m. m.assembled ≡ true) }
    requires mask_columns { IfSome (option_map (λ m. m.now) mask) (λ m. m.matrix.ncols ≡ columns_read tran1 b.now.matrix) }
    ensures matrix { IfOk result (λ made. made.matrix ≡ record { domain = a.now.matrix.domain; nrows = rows_read tran a.now.matrix; ncols = columns_read tran1 b.now.matrix; entries = selected_product semiring structure (option_map (λ m. m.now.matrix.entries) mask.entry) (turned tran a.now.matrix.entries) (turned tran1 b.now.matrix.entries) }) }
    ensures assembled { IfOk result (λ made. made.assembled ≡ true) }
{
    let first = read_matrix(alloc, a, tran)?;
    let second = read_matrix(alloc, b, tran1)?;
    let made = product_by(
        alloc,
        board,
        semiring,
        structure,
        mask,
        first.matrix(),
        second.matrix(),
    )?;
    Ok(made)
}

/// The product of two matrices, written into `output`, as `grb_mxm::mxm` makes it. Where there is a board and the product is dear, those who
/// come to it at one time make it together, by blocks of rows, and none of them waits; where memory is refused for what that takes besides the
/// product, it is made as without a board. `AllocError` where memory is refused; then nothing is made, and `output` is as before.
///
/// Source: GraphBLAS C API 2.0, "mxm"; that it is made together is our own.
pub fn multiply(
    alloc: Global,
    board: Option<&Board>,
    output: &SparseMatrix,
    mask: Option<&SparseMatrix>,
    accum: Option<BinaryOp>,
    semiring: Semiring,
    a: &SparseMatrix,
    b: &SparseMatrix,
    descriptor: Descriptor,
) -> Result<SparseMatrix, AllocError>
    requires output { IsMatrixOutput output.now mask accum }
    requires semiring_domain { op_domain semiring.op ≡ output.now.matrix.domain }
    requires a { IsMatrixInput descriptor.tran output.now.matrix.domain output.now.matrix.nrows (rows_read descriptor.tran1 b.now.matrix) a.now }
    requires b { IsMatrixInput descriptor.tran1 output.now.matrix.domain (rows_read descriptor.tran1 b.now.matrix) output.now.matrix.ncols b.now }
    ensures matrix { IfOk result (λ made. made.matrix ≡ written_into_matrix output.now mask.entry accum descriptor
        (mxm_of semiring (turned descriptor.tran a.now.matrix.entries) (turned descriptor.tran1 b.now.matrix.entries))) }
    ensures assembled { IfOk result (λ made. made.assembled ≡ true) }
{
    let Some(board) = board else {
        return mxm(alloc, output, mask, accum, semiring, a, b, descriptor);
    };
    let bound = bounding_mask(mask, descriptor.comp);
    let (structure, tran, tran1) = (descriptor.structure, descriptor.tran, descriptor.tran1);
    let computed = product_read(alloc, board, semiring, structure, bound, a, b, tran, tran1)?;
    let made = write_product(alloc, output, mask, accum, descriptor, computed)?;
    Ok(made)
}
