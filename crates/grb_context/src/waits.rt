//! Waits for one object, or for all.
ghost use Rattle.grb_context.specs.Known.{IsPassOf};
ghost use Rattle.grb_context.specs.Answered.{Answered};

use crate::Pass;
use crate::context::Context;
use grb_call::{Call, MatrixId, Reply, VectorId, WaitMode};
use grb_core::Refusal;

impl Context {
    /// Has the pending work on the matrix done for this pass, or with `Materialize` that on all objects, up to the point of the call, and
    /// answers `Done`. It enters nothing, waits for no other thread, and changes no value. `UninitializedObject` where there is no such
    /// matrix; `OutOfMemory` where memory is refused to the work, or to what `Materialize` keeps for other passes, and then a later
    /// call does what is left. After `Done` of `Materialize` all calls that the pass knows are settled, as [`Pass::settled`] says.
    /// (`GrB_wait`; that it enters nothing and what `Materialize` does for other objects are own.)
    pub fn wait_matrix(
        &self,
        pass: &mut Pass,
        a: MatrixId,
        mode: WaitMode,
    ) -> Result<Reply, Refusal>
        requires pass { IsPassOf self.now pass.old }
        ensures pass { IsPassOf self.now pass.new }
        ensures answered { Answered self.now pass.old pass.new (Call.WaitMatrix a mode) result }
    {
        self.shared.read(pass, &Call::WaitMatrix { a, mode })
    }

    /// Has the pending work on the vector done for this pass, or with `Materialize` that on all objects, up to the point of the call, and
    /// answers `Done`. It enters nothing, waits for no other thread, and changes no value. `UninitializedObject` where there is no such
    /// vector; `OutOfMemory` where memory is refused to the work, or to what `Materialize` keeps for other passes, and then a later
    /// call does what is left. After `Done` of `Materialize` all calls that the pass knows are settled, as [`Pass::settled`] says.
    /// (`GrB_wait`; that it enters nothing and what `Materialize` does for other objects are own.)
    pub fn wait_vector(
        &self,
        pass: &mut Pass,
        v: VectorId,
        mode: WaitMode,
    ) -> Result<Reply, Refusal>
        requires pass { IsPassOf self.now pass.old }
        ensures pass { IsPassOf self.now pass.new }
        ensures answered { Answered self.now pass.old pass.new (Call.WaitVector v mode) result }
    {
        self.shared.read(pass, &Call::WaitVector { v, mode })
    }
}
