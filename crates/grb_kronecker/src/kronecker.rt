//! kronecker: the Kronecker product of two matrices.
ghost use Rattle.std.specs.Prelude.{◌≡◌, ◌*◌, ◌<◌, ◌^◌, true, IfOk};
ghost use Rattle.grb_core.specs.Operator.{op_domain};
ghost use Rattle.grb_core.specs.Results.{turned};
ghost use Rattle.grb_ewise.specs.Premises.{IsMatrixOutput, columns_read, rows_read};
ghost use Rattle.grb_ewise.specs.Written.{written_into_matrix};
ghost use Rattle.grb_core.specs.Maps.{kronecker_of};
ghost use Rattle.grb_kronecker.specs.Factors.{AreFactors};
ghost use Rattle.grb_kronecker.specs.Product.{product_matrix};

use crate::rows::product_lists;
use grb_core::{BinaryOp, Descriptor, Domain};
use grb_ewise::{Stored, read_matrix, write_masked_matrix};
use grb_kernels::{ByOperator, Operator};
use grb_sparse::SparseMatrix;
use std::alloc::{AllocError, Global};
use std::marker::PhantomData;

/// Two matrices of one domain, in which no change waits, whose product has dimensions in their range.
#[derive(Drop)]
struct Pair<'a, T: Stored> {
    alloc: Global,
    a: &'a SparseMatrix,
    b: &'a SparseMatrix,
    of: PhantomData<T>,
    ghost a_assembled: { a.now.assembled ≡ true },
    ghost b_assembled: { b.now.assembled ≡ true },
    ghost a_domain: { a.now.matrix.domain ≡ T.domain },
    ghost b_domain: { b.now.matrix.domain ≡ T.domain },
    ghost few_rows: { a.now.matrix.nrows * b.now.matrix.nrows < 2 ^ 32 },
    ghost few_columns: { a.now.matrix.ncols * b.now.matrix.ncols < 2 ^ 32 },
}

impl<'a, T: Stored + Drop> ByOperator<T> for Pair<'a, T> {
    type Output = Result<SparseMatrix, AllocError>;

    ghost Gives = { λ p op result. IfOk result (λ made. (made.matrix ≡ product_matrix op p.a.now.matrix p.b.now.matrix) × (made.assembled ≡ true)) };

    /// Their product by an operator as a type. `AllocError` where memory is refused; then nothing is made.
    fn by<O: Operator<T>>(self) -> Result<SparseMatrix, AllocError> {
        let (m, n) = self.a.dims();
        let (r, c) = self.b.dims();
        let lists = product_lists::<T, O>(
            self.alloc,
            self.a.lists(),
            self.b.lists(),
            (m, n),
            r,
            c,
        )?;
        let made = SparseMatrix::from_lists(self.alloc, m * r, n * c, lists);
        Ok(made)
    }
}

/// The product of two matrices whose values are of the Rust type `T`. `AllocError` where memory is refused; then nothing is made.
fn multiply<T: Stored + Drop>(
    alloc: Global,
    op: BinaryOp,
    a: &SparseMatrix,
    b: &SparseMatrix,
) -> Result<SparseMatrix, AllocError>
    requires domain { op_domain op ≡ T.domain }
    requires a_assembled { a.now.assembled ≡ true }
    requires b_assembled { b.now.assembled ≡ true }
    requires a_domain { a.now.matrix.domain ≡ T.domain }
    requires b_domain { b.now.matrix.domain ≡ T.domain }
    requires few_rows { a.now.matrix.nrows * b.now.matrix.nrows < 2 ^ 32 }
    requires few_columns { a.now.matrix.ncols * b.now.matrix.ncols < 2 ^ 32 }
    ensures matrix { IfOk result (λ made. made.matrix ≡ product_matrix op a.now.matrix b.now.matrix) }
    ensures assembled { IfOk result (λ made. made.assembled ≡ true) }
{
    let pair: Pair<T> = Pair {
        alloc,
        a,
        b,
        of: PhantomData,
    };
    let made = T::choose(op, pair)?;
    Ok(made)
}

/// The product of two matrices of the operator's domain. `AllocError` where memory is refused; then nothing is made.
fn product(
    alloc: Global,
    op: BinaryOp,
    a: &SparseMatrix,
    b: &SparseMatrix,
) -> Result<SparseMatrix, AllocError>
    requires a_assembled { a.now.assembled ≡ true }
    requires b_assembled { b.now.assembled ≡ true }
    requires a_domain { a.now.matrix.domain ≡ op_domain op }
    requires b_domain { b.now.matrix.domain ≡ op_domain op }
    requires few_rows { a.now.matrix.nrows * b.now.matrix.nrows < 2 ^ 32 }
    requires few_columns { a.now.matrix.ncols * b.now.matrix.ncols < 2 ^ 32 }
    ensures matrix { IfOk result (λ made. made.matrix ≡ product_matrix op a.now.matrix b.now.matrix) }
    ensures assembled { IfOk result (λ made. made.assembled ≡ true) }
{
    match op.domain() {
        Domain::Bool => {
            let made = multiply::<bool>(alloc, op, a, b)?;
            Ok(made)
        }
        Domain::Uint64 => {
            let made = multiply::<u64>(alloc, op, a, b)?;
            Ok(made)
        }
    }
}

/// kronecker: the Kronecker product of `a` and `b`, written into `output` by the accumulator, the mask and the descriptor. `AllocError` where
/// memory is refused; then nothing is made, and `output` is as before.
///
/// - `output`: the old output, which is read.
/// - `mask`: which cells may be written, read as `descriptor` says; `None` for all, or with `comp` for none.
/// - `accum`: combines the old value and the computed one where both are there; `None` for the computed one alone.
/// - `op`: makes a value of two, that of `a` first.
/// - `a`, `b`: the inputs. Where `b` as it is read has `r` rows and `c` columns, row `i` and column `j` of `a` with row `p` and column `q` of
///   `b` make row `i r + p` and column `j c + q`.
/// - `descriptor`: how the mask is read, whether what lies outside of it is removed, whether `a` is read transposed, and whether `b` is.
///
/// All are of one domain, the mask aside. The output has as many rows, and columns, as those of both inputs make together. Time and memory
/// are in proportion to the entries of the product, the mask or not, and to those of the output and the mask.
///
/// Source: GraphBLAS C API 2.0, "kronecker".
pub fn kronecker_matrix(
    alloc: Global,
    output: &SparseMatrix,
    mask: Option<&SparseMatrix>,
    accum: Option<BinaryOp>,
    op: BinaryOp,
    a: &SparseMatrix,
    b: &SparseMatrix,
    descriptor: Descriptor,
) -> Result<SparseMatrix, AllocError>
    requires output { IsMatrixOutput output.now mask accum }
    requires operator { op_domain op ≡ output.now.matrix.domain }
    requires factors { AreFactors descriptor.tran descriptor.tran1 output.now.matrix.domain output.now.matrix.nrows output.now.matrix.ncols a.now b.now }
    ensures matrix { IfOk result (λ made. made.matrix ≡ written_into_matrix output.now mask.entry accum descriptor
        (kronecker_of op (rows_read descriptor.tran1 b.now.matrix) (columns_read descriptor.tran1 b.now.matrix) output.now.matrix.nrows output.now.matrix.ncols
        (turned descriptor.tran a.now.matrix.entries) (turned descriptor.tran1 b.now.matrix.entries))) }
    ensures assembled { IfOk result (λ made. made.assembled ≡ true) }
{
    output.dims();
    let first = read_matrix(alloc, a, descriptor.tran)?;
    let second = read_matrix(alloc, b, descriptor.tran1)?;
    let computed = product(alloc, op, first.matrix(), second.matrix())?;
    write_masked_matrix(alloc, output, mask, accum, descriptor, computed)
}
