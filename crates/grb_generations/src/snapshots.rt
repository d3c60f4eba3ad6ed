//! Whole objects, as they stand at the point of a member's call.
ghost use Rattle.std.specs.Prelude.{◌≤◌, IfOk};
ghost use Rattle.grb_call.specs.declared.call.Call.TheVariants as Call;
ghost use Rattle.grb_call.specs.declared.wait_mode.WaitMode.TheVariants as WaitMode;
ghost use Rattle.grb_call.specs.History.{store_of};
ghost use Rattle.grb_context.specs.Known.{known};
ghost use Rattle.grb_context.specs.StoredIn.{IsMatrixOf, IsVectorOf};
ghost use Rattle.grb_numbers.specs.Inside.{inner_matrix, inner_vector};
ghost use Rattle.grb_generations.specs.Snapped.{Snaps};

use crate::member::Member;
use grb_call::{Call, MatrixId, VectorId, WaitMode};
use grb_core::Refusal;
use grb_sparse::{SparseMatrix, SparseVector};
use std::sync::Arc;

impl Member {
    /// The matrix as it stands at the point of a wait for its completion, which the member makes as any call: all its entries, with no
    /// change left that waits. It is shared and not copied, and stays what it is whatever comes. It is refused as that call is, and
    /// `OutOfMemory` also where 2^63 - 1 hold the matrix. Who only reads the entries may wait, and borrow them by [`Pass::matrix`] (own).
    ///
    /// [`Pass::matrix`]: grb_context::Pass::matrix
    pub fn snapshot_matrix(&mut self, a: MatrixId) -> Result<Arc<SparseMatrix>, Refusal>
        ensures later { self.old.generation ≤ self.new.generation }
        ensures snapshot { Snaps self.old self.new (Call.WaitMatrix a WaitMode.Complete) result }
        ensures matrix { IfOk result (λ matrix. IsMatrixOf (store_of (known self.new.pass)) (inner_matrix self.new.numbers a) matrix.value) }
    {
        self.call(Call::WaitMatrix {
            a,
            mode: WaitMode::Complete,
        })?;
        match self.pass.matrix(self.numbers.inner_matrix(a)) {
            Some(matrix) => Arc::try_clone(matrix).or(Err(Refusal::OutOfMemory)),
            None => unreachable!(),
        }
    }

    /// The vector as it stands at the point of a wait for its completion, as [`Member::snapshot_matrix`] gives a matrix (own).
    /// `OutOfMemory` as of that.
    pub fn snapshot_vector(&mut self, v: VectorId) -> Result<Arc<SparseVector>, Refusal>
        ensures later { self.old.generation ≤ self.new.generation }
        ensures snapshot { Snaps self.old self.new (Call.WaitVector v WaitMode.Complete) result }
        ensures vector { IfOk result (λ vector. IsVectorOf (store_of (known self.new.pass)) (inner_vector self.new.numbers v) vector.value) }
    {
        self.call(Call::WaitVector {
            v,
            mode: WaitMode::Complete,
        })?;
        match self.pass.vector(self.numbers.inner_vector(v)) {
            Some(vector) => Arc::try_clone(vector).or(Err(Refusal::OutOfMemory)),
            None => unreachable!(),
        }
    }
}
