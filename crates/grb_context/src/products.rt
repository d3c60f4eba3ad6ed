//! A method for each product and each reduction.
ghost use Rattle.grb_context.specs.Known.{IsPassOf};
ghost use Rattle.grb_context.specs.Answered.{Answered};

use crate::Pass;
use crate::context::Context;
use grb_call::{Call, Descriptor, MatrixId, Reply, VectorId};
use grb_core::{BinaryOp, Monoid, Refusal, Semiring};

impl Context {
    /// `w<m> = accum(w, A * u)`: at row `i` the monoid's fold of the products of row `i` of `a` and `u` where both store a value, and
    /// nothing where there is no such place; written into `w`. With `d.tran` the transposed of `a` stands for `a`.
    ///
    /// - `w`: the output.
    /// - `mask`: which indices of `w` may be written, read as `d` says; `None` for all, or with `d.comp` for none.
    /// - `accum`: combines the old value and the computed one where both are there; with `None` the computed one alone is written.
    /// - `semiring`: its operator multiplies, its monoid adds up the products.
    /// - `a`: the matrix, which `d.tran` has read transposed; its value comes first in a product.
    /// - `u`: the vector.
    /// - `d`: `structure` and `comp` say how the mask is read, `replace` that what lies outside of it is removed, and `tran` that `a` is
    ///   read transposed.
    ///
    /// It is refused by these, and as [`Context::call`] says; then no entry changes:
    ///
    /// - `UninitializedObject`: an object of the call, the mask too, is not there.
    /// - `DomainMismatch`: output, inputs, semiring and accumulator are not of one domain.
    /// - `DimensionMismatch`: `a`, after `d.tran`, has not a row for each index of `w` and a column for each of `u`, or the mask has not
    ///   the size of `w`.
    /// - `OutOfMemory`: memory for the record of the call is refused.
    ///
    /// The mask may be of either domain, and one object may be output, input and mask at once. (`GrB_mxv`.)
    pub fn mxv(
        &self,
        pass: &mut Pass,
        w: VectorId,
        mask: Option<VectorId>,
        accum: Option<BinaryOp>,
        semiring: Semiring,
        a: MatrixId,
        u: VectorId,
        d: Descriptor,
    ) -> Result<Reply, Refusal>
        requires pass { IsPassOf self.now pass.old }
        ensures pass { IsPassOf self.now pass.new }
        ensures answered { Answered self.now pass.old pass.new (Call.Mxv w mask accum semiring a u d) result }
    {
        self.call(
            pass,
            Call::Mxv {
                w,
                mask,
                accum,
                semiring,
                a,
                u,
                d,
            },
        )
    }

    /// `w<m> = accum(w, u * A)`: at column `j` the monoid's fold of the products of `u` and column `j` of `a` where both store a value, the
    /// value of `u` first, and nothing where there is no such place; written into `w`. `d.tran` is not read.
    ///
    /// - `w`: the output.
    /// - `mask`: which indices of `w` may be written, read as `d` says; `None` for all, or with `d.comp` for none.
    /// - `accum`: combines the old value and the computed one where both are there; with `None` the computed one alone is written.
    /// - `semiring`: its operator multiplies, its monoid adds up the products.
    /// - `u`: the vector; its value comes first in a product.
    /// - `a`: the matrix, never transposed.
    /// - `d`: `structure` and `comp` say how the mask is read, `replace` that what lies outside of it is removed.
    ///
    /// It is refused by these, and as [`Context::call`] says; then no entry changes:
    ///
    /// - `UninitializedObject`: an object of the call, the mask too, is not there.
    /// - `DomainMismatch`: output, inputs, semiring and accumulator are not of one domain.
    /// - `DimensionMismatch`: `a` has not a row for each index of `u` and a column for each of `w`, or the mask has not the size of `w`.
    /// - `OutOfMemory`: memory for the record of the call is refused.
    ///
    /// The mask may be of either domain, and one object may be output, input and mask at once. (`GrB_vxm`.)
    pub fn vxm(
        &self,
        pass: &mut Pass,
        w: VectorId,
        mask: Option<VectorId>,
        accum: Option<BinaryOp>,
        semiring: Semiring,
        u: VectorId,
        a: MatrixId,
        d: Descriptor,
    ) -> Result<Reply, Refusal>
        requires pass { IsPassOf self.now pass.old }
        ensures pass { IsPassOf self.now pass.new }
        ensures answered { Answered self.now pass.old pass.new (Call.Vxm w mask accum semiring u a d) result }
    {
        self.call(
            pass,
            Call::Vxm {
                w,
                mask,
                accum,
                semiring,
                u,
                a,
                d,
            },
        )
    }

    /// `C<M> = accum(C, A * B)`: at row `i` and column `j` the monoid's fold of the products of row `i` of `a` and column `j` of `b` where
    /// both store a value, and nothing where there is no such place; written into `c`. With `d.tran` the transposed of `a` stands for `a`.
    ///
    /// - `c`: the output.
    /// - `mask`: which cells of `c` may be written, read as `d` says; `None` for all, or with `d.comp` for none.
    /// - `accum`: combines the old value and the computed one where both are there; with `None` the computed one alone is written.
    /// - `semiring`: its operator multiplies, its monoid adds up the products.
    /// - `a`: the first input, which `d.tran` has read transposed; its value comes first in a product.
    /// - `b`: the second input, never transposed.
    /// - `d`: `structure` and `comp` say how the mask is read, `replace` that what lies outside of it is removed, and `tran` that `a` is
    ///   read transposed.
    ///
    /// It is refused by these, and as [`Context::call`] says; then no entry changes:
    ///
    /// - `UninitializedObject`: an object of the call, the mask too, is not there.
    /// - `DomainMismatch`: output, inputs, semiring and accumulator are not of one domain.
    /// - `DimensionMismatch`: `a`, after `d.tran`, has not the rows of `c`, `b` not its columns, or `a` not as many columns as `b` has
    ///   rows; or the mask has not the dimensions of `c`.
    /// - `OutOfMemory`: memory for the record of the call is refused.
    ///
    /// The mask may be of either domain, and one object may be output, input and mask at once. (`GrB_mxm`.)
    pub fn mxm(
        &self,
        pass: &mut Pass,
        c: MatrixId,
        mask: Option<MatrixId>,
        accum: Option<BinaryOp>,
        semiring: Semiring,
        a: MatrixId,
        b: MatrixId,
        d: Descriptor,
    ) -> Result<Reply, Refusal>
        requires pass { IsPassOf self.now pass.old }
        ensures pass { IsPassOf self.now pass.new }
        ensures answered { Answered self.now pass.old pass.new (Call.Mxm c mask accum semiring a b d) result }
    {
        self.call(
            pass,
            Call::Mxm {
                c,
                mask,
                accum,
                semiring,
                a,
                b,
                d,
            },
        )
    }

    /// `w<m> = accum(w, fold of each row of A)`: the monoid's fold of each row of `a` that stores a value, and nothing for any other row;
    /// written into `w`. With `d.tran` the columns of `a` are folded.
    ///
    /// - `w`: the output.
    /// - `mask`: which indices of `w` may be written, read as `d` says; `None` for all, or with `d.comp` for none.
    /// - `accum`: combines the old value and the computed one where both are there; with `None` the computed one alone is written.
    /// - `monoid`: combines the values of a row.
    /// - `a`: the matrix, which `d.tran` has read transposed.
    /// - `d`: `structure` and `comp` say how the mask is read, `replace` that what lies outside of it is removed, and `tran` that `a` is
    ///   read transposed.
    ///
    /// It is refused by these, and as [`Context::call`] says; then no entry changes:
    ///
    /// - `UninitializedObject`: an object of the call, the mask too, is not there.
    /// - `DomainMismatch`: output, input, monoid and accumulator are not of one domain.
    /// - `DimensionMismatch`: `a`, after `d.tran`, has not a row for each index of `w`, or the mask has not the size of `w`.
    /// - `OutOfMemory`: memory for the record of the call is refused.
    ///
    /// The mask may be of either domain. (`GrB_reduce`, to a vector.)
    pub fn reduce_rows(
        &self,
        pass: &mut Pass,
        w: VectorId,
        mask: Option<VectorId>,
        accum: Option<BinaryOp>,
        monoid: Monoid,
        a: MatrixId,
        d: Descriptor,
    ) -> Result<Reply, Refusal>
        requires pass { IsPassOf self.now pass.old }
        ensures pass { IsPassOf self.now pass.new }
        ensures answered { Answered self.now pass.old pass.new (Call.ReduceRows w mask accum monoid a d) result }
    {
        self.call(
            pass,
            Call::ReduceRows {
                w,
                mask,
                accum,
                monoid,
                a,
                d,
            },
        )
    }

    /// All values that the matrix `a` stores, combined by `monoid`; its identity where none is stored. `UninitializedObject` or
    /// `DomainMismatch` where there is no such matrix, or the monoid is of the other domain; `OutOfMemory` where memory is refused to
    /// evaluate calls or to do changes that wait, and then no entry changes. Does not wait. (`GrB_reduce`, to a scalar.)
    pub fn reduce_matrix(
        &self,
        pass: &mut Pass,
        a: MatrixId,
        monoid: Monoid,
    ) -> Result<Reply, Refusal>
        requires pass { IsPassOf self.now pass.old }
        ensures pass { IsPassOf self.now pass.new }
        ensures answered { Answered self.now pass.old pass.new (Call.ReduceMatrix a monoid) result }
    {
        self.shared.read(pass, &Call::ReduceMatrix { a, monoid })
    }

    /// All values that the vector `v` stores, combined by `monoid`; its identity where none is stored. `UninitializedObject` or
    /// `DomainMismatch` where there is no such vector, or the monoid is of the other domain; `OutOfMemory` where memory is refused to
    /// evaluate calls or to do changes that wait, and then no entry changes. Does not wait. (`GrB_reduce`, to a scalar.)
    pub fn reduce_vector(
        &self,
        pass: &mut Pass,
        v: VectorId,
        monoid: Monoid,
    ) -> Result<Reply, Refusal>
        requires pass { IsPassOf self.now pass.old }
        ensures pass { IsPassOf self.now pass.new }
        ensures answered { Answered self.now pass.old pass.new (Call.ReduceVector v monoid) result }
    {
        self.shared.read(pass, &Call::ReduceVector { v, monoid })
    }
}
