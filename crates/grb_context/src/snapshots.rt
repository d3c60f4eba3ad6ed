//! Whole objects, as they stand at the point of a call.
ghost use Rattle.std.specs.Prelude.{IfOk};
ghost use Rattle.grb_call.specs.declared.call.Call.TheVariants as Call;
ghost use Rattle.grb_call.specs.declared.wait_mode.WaitMode.TheVariants as WaitMode;
ghost use Rattle.grb_call.specs.History.{store_of};
ghost use Rattle.grb_context.specs.Known.{IsPassOf, known};
ghost use Rattle.grb_context.specs.Snapshot.{IsSnapshot};
ghost use Rattle.grb_context.specs.StoredIn.{IsMatrixOf, IsVectorOf};

use crate::Pass;
use crate::context::Context;
use grb_call::{MatrixId, VectorId, WaitMode};
use grb_core::Refusal;
use grb_sparse::{SparseMatrix, SparseVector};
use std::sync::Arc;

impl Context {
    /// The matrix as it stands at the point of a wait for its completion, which is made: all its entries, with no change left that waits.
    /// It is shared with the pass and not copied, and stays what it is whatever comes; a pass that changes its matrix while a snapshot is
    /// held changes a copy. Its status, its point, its steps and its memory are those of [`Context::wait_matrix`] with `Complete`; it is
    /// refused as that is, and `OutOfMemory` also where 2^63 - 1 hold the matrix. An answered wait leaves the matrix ready, so nothing is
    /// evaluated after it. Who only reads the entries may wait, and borrow them by [`Pass::matrix`], which then has them (own).
    pub fn snapshot_matrix(
        &self,
        pass: &mut Pass,
        a: MatrixId,
    ) -> Result<Arc<SparseMatrix>, Refusal>
        requires pass { IsPassOf self.now pass.old }
        ensures pass { IsPassOf self.now pass.new }
        ensures snapshot { IsSnapshot self.now pass.old pass.new (Call.WaitMatrix a WaitMode.Complete) result }
        ensures matrix { IfOk result (λ matrix. IsMatrixOf (store_of (known pass.new)) a matrix.value) }
    {
        self.wait_matrix(pass, a, WaitMode::Complete)?;
        match pass.matrix(a) {
            Some(matrix) => Arc::try_clone(matrix).or(Err(Refusal::OutOfMemory)),
            None => unreachable!(),
        }
    }

    /// The vector as it stands at the point of a wait for its completion, as [`Context::snapshot_matrix`] gives a matrix (own).
    /// `OutOfMemory` as of that.
    pub fn snapshot_vector(
        &self,
        pass: &mut Pass,
        v: VectorId,
    ) -> Result<Arc<SparseVector>, Refusal>
        requires pass { IsPassOf self.now pass.old }
        ensures pass { IsPassOf self.now pass.new }
        ensures snapshot { IsSnapshot self.now pass.old pass.new (Call.WaitVector v WaitMode.Complete) result }
        ensures vector { IfOk result (λ vector. IsVectorOf (store_of (known pass.new)) v vector.value) }
    {
        self.wait_vector(pass, v, WaitMode::Complete)?;
        match pass.vector(v) {
            Some(vector) => Arc::try_clone(vector).or(Err(Refusal::OutOfMemory)),
            None => unreachable!(),
        }
    }
}
