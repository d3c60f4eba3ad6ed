//! Terms: what an operation with one input, or with an operator for each pair of entries, computes.
ghost use Rattle.std.specs.Prelude.{◌≡◌};
ghost use Rattle.grb_call.specs.Operation.{matrix_term_first, matrix_term_kind, matrix_term_second, vector_term_first, vector_term_kind};

use crate::ids::{MatrixId, Object, VectorId};
use crate::operation::OperationKind;
use grb_core::{BinaryOp, Function, Test};

/// What `WriteMatrix` computes of its inputs, before mask, accumulator and descriptor say how that is written.
///
/// Source: GraphBLAS C API 2.0, "transpose", "apply", "select" and "kronecker".
#[derive(Clone, Copy, PartialEq, Eq)]
pub enum MatrixTerm {
    /// The matrix with its rows and columns exchanged; with the descriptor's `tran`, which turns it once more, as it is
    /// (`GrB_transpose`).
    Transposed {
        a: MatrixId,
    },
    /// What the function makes of each value (`GrB_Matrix_apply`). It is read transposed by `tran`, and by `tran1` where the function has its
    /// first argument bound, since the matrix then stands second.
    Applied {
        f: Function,
        a: MatrixId,
    },
    /// The entries that pass (`GrB_select`).
    Selected {
        test: Test,
        a: MatrixId,
    },
    /// The Kronecker product: in row `i r + p`, column `j c + q` what the operator makes of the value of `a` in row `i`, column `j`, and of
    /// that of `b`, which has `r` rows and `c` columns, in row `p`, column `q` (`GrB_kronecker`).
    Kronecker {
        op: BinaryOp,
        a: MatrixId,
        b: MatrixId,
    },
}

/// What `WriteVector` computes of its input, before mask, accumulator and descriptor say how that is written.
///
/// Source: GraphBLAS C API 2.0, "apply" and "select".
#[derive(Clone, Copy, PartialEq, Eq)]
pub enum VectorTerm {
    /// What the function makes of each value (`GrB_Vector_apply`).
    Applied { f: Function, u: VectorId },
    /// The entries that pass, where an index is a row and the column is 0 (`GrB_select`).
    Selected { test: Test, u: VectorId },
}

impl MatrixTerm {
    /// What is computed. Takes no memory.
    pub fn kind(self) -> OperationKind
        ensures { result ≡ matrix_term_kind self }
    {
        match self {
            MatrixTerm::Transposed { .. } => OperationKind::Transpose,
            MatrixTerm::Applied { f, .. } => OperationKind::Apply(f),
            MatrixTerm::Selected { test, .. } => OperationKind::Select(test),
            MatrixTerm::Kronecker { op, .. } => OperationKind::Kronecker(op),
        }
    }

    /// The first input, or the only one. Takes no memory.
    pub fn first(self) -> Object
        ensures { result ≡ matrix_term_first self }
    {
        match self {
            MatrixTerm::Transposed { a }
            | MatrixTerm::Applied { a, .. }
            | MatrixTerm::Selected { a, .. }
            | MatrixTerm::Kronecker { a, .. } => Object::Matrix(a),
        }
    }

    /// The second input: a Kronecker product alone has one. Takes no memory.
    pub fn second(self) -> Option<Object>
        ensures { result ≡ matrix_term_second self }
    {
        match self {
            MatrixTerm::Kronecker { b, .. } => Some(Object::Matrix(b)),
            MatrixTerm::Transposed { .. }
            | MatrixTerm::Applied { .. }
            | MatrixTerm::Selected { .. } => None,
        }
    }
}

impl VectorTerm {
    /// What is computed. Takes no memory.
    pub fn kind(self) -> OperationKind
        ensures { result ≡ vector_term_kind self }
    {
        match self {
            VectorTerm::Applied { f, .. } => OperationKind::Apply(f),
            VectorTerm::Selected { test, .. } => OperationKind::Select(test),
        }
    }

    /// The input. Takes no memory.
    pub fn first(self) -> Object
        ensures { result ≡ vector_term_first self }
    {
        match self {
            VectorTerm::Applied { u, .. } | VectorTerm::Selected { u, .. } => Object::Vector(u),
        }
    }
}
