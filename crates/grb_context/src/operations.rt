//! A method for each element-wise operation.
ghost use Rattle.grb_context.specs.Known.{IsPassOf};
ghost use Rattle.grb_context.specs.Answered.{Answered};

use crate::Pass;
use crate::context::Context;
use grb_call::{Call, Descriptor, MatrixId, Reply, VectorId};
use grb_core::{BinaryOp, Refusal};

impl Context {
    /// `C<M> = accum(C, A + B)`: `op` of the values of `a` and `b` where both store one, else the one value, written into `c`. With
    /// `d.tran` the transposed of `a` stands for `a`.
    ///
    /// - `c`: the output.
    /// - `mask`: which cells of `c` may be written, read as `d` says; `None` for all, or with `d.comp` for none.
    /// - `accum`: combines the old value and the computed one where both are there; with `None` the computed one alone is written.
    /// - `op`: makes one value of that of `a` and that of `b`, in this order.
    /// - `a`: the first input, which `d.tran` has read transposed.
    /// - `b`: the second input, never transposed.
    /// - `d`: `structure` and `comp` say how the mask is read, `replace` that what lies outside of it is removed, and `tran` that `a` is
    ///   read transposed.
    ///
    /// It is refused by these, and as [`Context::call`] says; then no entry changes:
    ///
    /// - `UninitializedObject`: an object of the call, the mask too, is not there.
    /// - `DomainMismatch`: output, inputs, operator and accumulator are not of one domain.
    /// - `DimensionMismatch`: the inputs, `a` after `d.tran`, and the mask have not the dimensions of `c`.
    /// - `OutOfMemory`: memory for the record of the call is refused.
    ///
    /// The mask may be of either domain, and one object may be output, input and mask at once. (`GrB_eWiseAdd`.)
    pub fn ewise_add_matrix(
        &self,
        pass: &mut Pass,
        c: MatrixId,
        mask: Option<MatrixId>,
        accum: Option<BinaryOp>,
        op: BinaryOp,
        a: MatrixId,
        b: MatrixId,
        d: Descriptor,
    ) -> Result<Reply, Refusal>
        requires pass { IsPassOf self.now pass.old }
        ensures pass { IsPassOf self.now pass.new }
        ensures answered { Answered self.now pass.old pass.new (Call.EwiseAddMatrix c mask accum op a b d) result }
    {
        self.call(
            pass,
            Call::EwiseAddMatrix {
                c,
                mask,
                accum,
                op,
                a,
                b,
                d,
            },
        )
    }

    /// `w<m> = accum(w, u + v)`: `op` of the values of `u` and `v` where both store one, else the one value, written into `w`.
    ///
    /// - `w`: the output.
    /// - `mask`: which indices of `w` may be written, read as `d` says; `None` for all, or with `d.comp` for none.
    /// - `accum`: combines the old value and the computed one where both are there; with `None` the computed one alone is written.
    /// - `op`: makes one value of that of `u` and that of `v`, in this order.
    /// - `u`, `v`: the first and the second input.
    /// - `d`: `structure` and `comp` say how the mask is read, `replace` that what lies outside of it is removed; `tran` is not read.
    ///
    /// It is refused by these, and as [`Context::call`] says; then no entry changes:
    ///
    /// - `UninitializedObject`: an object of the call, the mask too, is not there.
    /// - `DomainMismatch`: output, inputs, operator and accumulator are not of one domain.
    /// - `DimensionMismatch`: inputs and mask have not the size of `w`.
    /// - `OutOfMemory`: memory for the record of the call is refused.
    ///
    /// The mask may be of either domain, and one object may be output, input and mask at once. (`GrB_eWiseAdd`.)
    pub fn ewise_add_vector(
        &self,
        pass: &mut Pass,
        w: VectorId,
        mask: Option<VectorId>,
        accum: Option<BinaryOp>,
        op: BinaryOp,
        u: VectorId,
        v: VectorId,
        d: Descriptor,
    ) -> Result<Reply, Refusal>
        requires pass { IsPassOf self.now pass.old }
        ensures pass { IsPassOf self.now pass.new }
        ensures answered { Answered self.now pass.old pass.new (Call.EwiseAddVector w mask accum op u v d) result }
    {
        self.call(
            pass,
            Call::EwiseAddVector {
                w,
                mask,
                accum,
                op,
                u,
                v,
                d,
            },
        )
    }

    /// `C<M> = accum(C, A .* B)`: `op` of the values of `a` and `b` where both store one, written into `c`. With `d.tran` the transposed of
    /// `a` stands for `a`.
    ///
    /// - `c`: the output.
    /// - `mask`: which cells of `c` may be written, read as `d` says; `None` for all, or with `d.comp` for none.
    /// - `accum`: combines the old value and the computed one where both are there; with `None` the computed one alone is written.
    /// - `op`: makes one value of that of `a` and that of `b`, in this order.
    /// - `a`: the first input, which `d.tran` has read transposed.
    /// - `b`: the second input, never transposed.
    /// - `d`: `structure` and `comp` say how the mask is read, `replace` that what lies outside of it is removed, and `tran` that `a` is
    ///   read transposed.
    ///
    /// It is refused by these, and as [`Context::call`] says; then no entry changes:
    ///
    /// - `UninitializedObject`: an object of the call, the mask too, is not there.
    /// - `DomainMismatch`: output, inputs, operator and accumulator are not of one domain.
    /// - `DimensionMismatch`: the inputs, `a` after `d.tran`, and the mask have not the dimensions of `c`.
    /// - `OutOfMemory`: memory for the record of the call is refused.
    ///
    /// The mask may be of either domain, and one object may be output, input and mask at once. (`GrB_eWiseMult`.)
    pub fn ewise_mult_matrix(
        &self,
        pass: &mut Pass,
        c: MatrixId,
        mask: Option<MatrixId>,
        accum: Option<BinaryOp>,
        op: BinaryOp,
        a: MatrixId,
        b: MatrixId,
        d: Descriptor,
    ) -> Result<Reply, Refusal>
        requires pass { IsPassOf self.now pass.old }
        ensures pass { IsPassOf self.now pass.new }
        ensures answered { Answered self.now pass.old pass.new (Call.EwiseMultMatrix c mask accum op a b d) result }
    {
        self.call(
            pass,
            Call::EwiseMultMatrix {
                c,
                mask,
                accum,
                op,
                a,
                b,
                d,
            },
        )
    }

    /// `w<m> = accum(w, u .* v)`: `op` of the values of `u` and `v` where both store one, written into `w`.
    ///
    /// - `w`: the output.
    /// - `mask`: which indices of `w` may be written, read as `d` says; `None` for all, or with `d.comp` for none.
    /// - `accum`: combines the old value and the computed one where both are there; with `None` the computed one alone is written.
    /// - `op`: makes one value of that of `u` and that of `v`, in this order.
    /// - `u`, `v`: the first and the second input.
    /// - `d`: `structure` and `comp` say how the mask is read, `replace` that what lies outside of it is removed; `tran` is not read.
    ///
    /// It is refused by these, and as [`Context::call`] says; then no entry changes:
    ///
    /// - `UninitializedObject`: an object of the call, the mask too, is not there.
    /// - `DomainMismatch`: output, inputs, operator and accumulator are not of one domain.
    /// - `DimensionMismatch`: inputs and mask have not the size of `w`.
    /// - `OutOfMemory`: memory for the record of the call is refused.
    ///
    /// The mask may be of either domain, and one object may be output, input and mask at once. (`GrB_eWiseMult`.)
    pub fn ewise_mult_vector(
        &self,
        pass: &mut Pass,
        w: VectorId,
        mask: Option<VectorId>,
        accum: Option<BinaryOp>,
        op: BinaryOp,
        u: VectorId,
        v: VectorId,
        d: Descriptor,
    ) -> Result<Reply, Refusal>
        requires pass { IsPassOf self.now pass.old }
        ensures pass { IsPassOf self.now pass.new }
        ensures answered { Answered self.now pass.old pass.new (Call.EwiseMultVector w mask accum op u v d) result }
    {
        self.call(
            pass,
            Call::EwiseMultVector {
                w,
                mask,
                accum,
                op,
                u,
                v,
                d,
            },
        )
    }
}
