//! An input matrix as an operation reads it.
ghost use Rattle.std.specs.Prelude.{◌≡◌, true, IfOk};
ghost use Rattle.grb_ewise.specs.Inputs.{matrix_read};
ghost use Rattle.grb_ewise.specs.Made.{turned_matrix};

use crate::transposing::transposed;
use grb_sparse::SparseMatrix;
use std::alloc::{AllocError, Global};

/// A matrix as an operation reads it.
#[derive(Drop)]
pub enum MatrixRead<'a> {
    /// As it was lent.
    Lent(&'a SparseMatrix),
    /// Transposed: one that was made for the operation.
    Turned(SparseMatrix),
}

impl<'a> MatrixRead<'a> {
    /// The matrix that is read.
    pub fn matrix(&self) -> &SparseMatrix
        ensures { result.now ≡ matrix_read self.now }
    {
        match self {
            MatrixRead::Lent(a) => a,
            MatrixRead::Turned(a) => a,
        }
    }
}

/// A matrix, or where `tran` says so its transposed, which is made, as `transposed` does. Else nothing is copied, and it takes no memory.
/// `AllocError` where memory is refused; then nothing is made.
///
/// Source: GraphBLAS C API 2.0, "Descriptors": `GrB_TRAN`.
pub fn read_matrix(
    alloc: Global,
    a: &SparseMatrix,
    tran: bool,
) -> Result<MatrixRead<'_>, AllocError>
    requires { a.now.assembled ≡ true }
    ensures matrix { IfOk result (λ read. (matrix_read read).matrix ≡ turned_matrix tran a.now.matrix) }
    ensures assembled { IfOk result (λ read. (matrix_read read).assembled ≡ true) }
{
    if tran {
        let turned = transposed(alloc, a)?;
        return Ok(MatrixRead::Turned(turned));
    }
    Ok(MatrixRead::Lent(a))
}
