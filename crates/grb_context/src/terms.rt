//! A method for each operation on the entries of one input, for kronecker, and for all entries of an object.
ghost use Rattle.std.specs.Prelude.{◌≡◌, IfOk};
ghost use Rattle.grb_call.specs.declared.call.Call.TheVariants as Call;
ghost use Rattle.grb_call.specs.declared.wait_mode.WaitMode.TheVariants as WaitMode;
ghost use Rattle.grb_call.specs.declared.term.MatrixTerm.TheVariants as MatrixTerm;
ghost use Rattle.grb_call.specs.declared.term.VectorTerm.TheVariants as VectorTerm;
ghost use Rattle.grb_call.specs.History.{store_of};
ghost use Rattle.grb_call.specs.Store.{matrix_entries, vector_entries};
ghost use Rattle.grb_context.specs.Answered.{Answered};
ghost use Rattle.grb_context.specs.Known.{IsPassOf, known};
ghost use Rattle.grb_context.specs.Snapshot.{IsSnapshot};
ghost use Rattle.grb_tuples.specs.Tuples.{tuples_of};

use crate::Pass;
use crate::context::Context;
use grb_call::{
    Call, Descriptor, MatrixId, MatrixTerm, MatrixTuples, Reply, VectorId, VectorTerm, VectorTuples,
};
use grb_core::{BinaryOp, Diagonal, Function, Refusal, Test};

impl Context {
    /// `C<M> = accum(C, A')`: the rows of `a` as columns, written into `c`; with `d.tran` that is `a` itself, since it is turned twice.
    ///
    /// - `c`: the output.
    /// - `mask`: which cells of `c` may be written, read as `d` says; `None` for all, or with `d.comp` for none.
    /// - `accum`: combines the old value and the computed one where both are there; with `None` the computed one alone is written.
    /// - `a`: the input.
    /// - `d`: `structure` and `comp` say how the mask is read, `replace` that what lies outside of it is removed, and `tran` that `a` is
    ///   turned once more; `tran1` is not read.
    ///
    /// It is refused by these, and as [`Context::call`] says; then no entry changes:
    ///
    /// - `UninitializedObject`: an object of the call, the mask too, is not there.
    /// - `DomainMismatch`: output, input and accumulator are not of one domain.
    /// - `DimensionMismatch`: the input as it is turned, or the mask, has not the dimensions of `c`.
    /// - `OutOfMemory`: memory for the record of the call is refused.
    ///
    /// The mask may be of either domain, and one object may be output, input and mask at once. (`GrB_transpose`.)
    pub fn transpose(
        &self,
        pass: &mut Pass,
        c: MatrixId,
        mask: Option<MatrixId>,
        accum: Option<BinaryOp>,
        a: MatrixId,
        d: Descriptor,
    ) -> Result<Reply, Refusal>
        requires pass { IsPassOf self.now pass.old }
        ensures pass { IsPassOf self.now pass.new }
        ensures answered { Answered self.now pass.old pass.new (Call.WriteMatrix c mask accum (MatrixTerm.Transposed a) d) result }
    {
        let term = MatrixTerm::Transposed { a };
        self.call(
            pass,
            Call::WriteMatrix {
                c,
                mask,
                accum,
                term,
                d,
            },
        )
    }

    /// `C<M> = accum(C, f(A))`: what `f` makes of each value of `a`, written into `c`.
    ///
    /// - `c`: the output.
    /// - `mask`: which cells of `c` may be written, read as `d` says; `None` for all, or with `d.comp` for none.
    /// - `accum`: combines the old value and the computed one where both are there; with `None` the computed one alone is written.
    /// - `f`: a unary operator, or a binary one with its first or its second argument bound.
    /// - `a`: the input. It stands second where the first argument of `f` is bound, and first otherwise.
    /// - `d`: `structure` and `comp` say how the mask is read, `replace` that what lies outside of it is removed, `tran` that an input which
    ///   stands first is read transposed, and `tran1` the same of one that stands second.
    ///
    /// It is refused by these, and as [`Context::call`] says; then no entry changes:
    ///
    /// - `UninitializedObject`: an object of the call, the mask too, is not there.
    /// - `DomainMismatch`: output, input, what `f` brings, and accumulator are not of one domain.
    /// - `DimensionMismatch`: the input as it is read, or the mask, has not the dimensions of `c`.
    /// - `OutOfMemory`: memory for the record of the call is refused.
    ///
    /// The mask may be of either domain, and one object may be output, input and mask at once. (`GrB_Matrix_apply`.)
    pub fn apply_matrix(
        &self,
        pass: &mut Pass,
        c: MatrixId,
        mask: Option<MatrixId>,
        accum: Option<BinaryOp>,
        f: Function,
        a: MatrixId,
        d: Descriptor,
    ) -> Result<Reply, Refusal>
        requires pass { IsPassOf self.now pass.old }
        ensures pass { IsPassOf self.now pass.new }
        ensures answered { Answered self.now pass.old pass.new (Call.WriteMatrix c mask accum (MatrixTerm.Applied f a) d) result }
    {
        let term = MatrixTerm::Applied { f, a };
        self.call(
            pass,
            Call::WriteMatrix {
                c,
                mask,
                accum,
                term,
                d,
            },
        )
    }

    /// `w<m> = accum(w, f(u))`: what `f` makes of each value of `u`, written into `w`, as [`Context::apply_matrix`] does of a matrix; neither
    /// `tran` nor `tran1` is read. `DimensionMismatch` where the input or the mask has not the size of `w`. (`GrB_Vector_apply`.)
    pub fn apply_vector(
        &self,
        pass: &mut Pass,
        w: VectorId,
        mask: Option<VectorId>,
        accum: Option<BinaryOp>,
        f: Function,
        u: VectorId,
        d: Descriptor,
    ) -> Result<Reply, Refusal>
        requires pass { IsPassOf self.now pass.old }
        ensures pass { IsPassOf self.now pass.new }
        ensures answered { Answered self.now pass.old pass.new (Call.WriteVector w mask accum (VectorTerm.Applied f u) d) result }
    {
        let term = VectorTerm::Applied { f, u };
        self.call(
            pass,
            Call::WriteVector {
                w,
                mask,
                accum,
                term,
                d,
            },
        )
    }

    /// `C<M> = accum(C, entries of A that pass)`: written into `c`.
    ///
    /// - `c`: the output.
    /// - `mask`: which cells of `c` may be written, read as `d` says; `None` for all, or with `d.comp` for none.
    /// - `accum`: combines the old value and the computed one where both are there; with `None` the computed one alone is written.
    /// - `test`: which entries pass, by row, column and value of `a` as it is read.
    /// - `a`: the input.
    /// - `d`: `structure` and `comp` say how the mask is read, `replace` that what lies outside of it is removed, and `tran` that `a` is read
    ///   transposed; `tran1` is not read.
    ///
    /// It is refused by these, and as [`Context::call`] says; then no entry changes:
    ///
    /// - `UninitializedObject`: an object of the call, the mask too, is not there.
    /// - `DomainMismatch`: output, input, the value of the test, and accumulator are not of one domain.
    /// - `DimensionMismatch`: the input as it is read, or the mask, has not the dimensions of `c`.
    /// - `OutOfMemory`: memory for the record of the call is refused.
    ///
    /// The mask may be of either domain, and one object may be output, input and mask at once. (`GrB_select`.)
    pub fn select_matrix(
        &self,
        pass: &mut Pass,
        c: MatrixId,
        mask: Option<MatrixId>,
        accum: Option<BinaryOp>,
        test: Test,
        a: MatrixId,
        d: Descriptor,
    ) -> Result<Reply, Refusal>
        requires pass { IsPassOf self.now pass.old }
        ensures pass { IsPassOf self.now pass.new }
        ensures answered { Answered self.now pass.old pass.new (Call.WriteMatrix c mask accum (MatrixTerm.Selected test a) d) result }
    {
        let term = MatrixTerm::Selected { test, a };
        self.call(
            pass,
            Call::WriteMatrix {
                c,
                mask,
                accum,
                term,
                d,
            },
        )
    }

    /// `w<m> = accum(w, entries of u that pass)`: written into `w`, as [`Context::select_matrix`] does of a matrix. An index is a row, and the
    /// column is 0; neither `tran` nor `tran1` is read. `DimensionMismatch` where the input or the mask has not the size of `w`.
    /// (`GrB_select`.)
    pub fn select_vector(
        &self,
        pass: &mut Pass,
        w: VectorId,
        mask: Option<VectorId>,
        accum: Option<BinaryOp>,
        test: Test,
        u: VectorId,
        d: Descriptor,
    ) -> Result<Reply, Refusal>
        requires pass { IsPassOf self.now pass.old }
        ensures pass { IsPassOf self.now pass.new }
        ensures answered { Answered self.now pass.old pass.new (Call.WriteVector w mask accum (VectorTerm.Selected test u) d) result }
    {
        let term = VectorTerm::Selected { test, u };
        self.call(
            pass,
            Call::WriteVector {
                w,
                mask,
                accum,
                term,
                d,
            },
        )
    }

    /// `C<M> = accum(C, Kronecker product of A and B)`: where `b` as it is read has `r` rows and `k` columns, `op` of the value of `a` in row
    /// `i`, column `j` and of that of `b` in row `p`, column `q` is written into row `i r + p`, column `j k + q` of `c`.
    ///
    /// - `c`: the output, which has as many rows, and columns, as those of both inputs make together.
    /// - `mask`: which cells of `c` may be written, read as `d` says; `None` for all, or with `d.comp` for none.
    /// - `accum`: combines the old value and the computed one where both are there; with `None` the computed one alone is written.
    /// - `op`: makes one value of that of `a` and that of `b`, in this order.
    /// - `a`, `b`: the first and the second input.
    /// - `d`: `structure` and `comp` say how the mask is read, `replace` that what lies outside of it is removed, `tran` that `a` is read
    ///   transposed, and `tran1` that `b` is.
    ///
    /// It is refused by these, and as [`Context::call`] says; then no entry changes:
    ///
    /// - `UninitializedObject`: an object of the call, the mask too, is not there.
    /// - `DomainMismatch`: output, inputs, operator and accumulator are not of one domain.
    /// - `DimensionMismatch`: the dimensions of the inputs do not make those of `c`, or the mask has not those of `c`.
    /// - `OutOfMemory`: memory for the record of the call is refused.
    ///
    /// Whether the product fits into memory, shows where it is made: see [`Context::call`]. (`GrB_kronecker`.)
    pub fn kronecker(
        &self,
        pass: &mut Pass,
        c: MatrixId,
        mask: Option<MatrixId>,
        accum: Option<BinaryOp>,
        op: BinaryOp,
        a: MatrixId,
        b: MatrixId,
        d: Descriptor,
    ) -> Result<Reply, Refusal>
        requires pass { IsPassOf self.now pass.old }
        ensures pass { IsPassOf self.now pass.new }
        ensures answered { Answered self.now pass.old pass.new (Call.WriteMatrix c mask accum (MatrixTerm.Kronecker op a b) d) result }
    {
        let term = MatrixTerm::Kronecker { op, a, b };
        self.call(
            pass,
            Call::WriteMatrix {
                c,
                mask,
                accum,
                term,
                d,
            },
        )
    }

    /// Makes a square matrix of the domain and with the entries of `v`: the entry at `k` stands in the `k`th place of the diagonal. It has so
    /// many rows more than `v` has places as the diagonal is away from the main one.
    ///
    /// It is refused by these, and as [`Context::call`] says; then nothing is made:
    ///
    /// - `UninitializedObject`: there is no such vector.
    /// - `InvalidValue`: no matrix can have so many rows.
    /// - `OutOfMemory`: memory for the record of the call is refused.
    ///
    /// (`GrB_Matrix_diag`.)
    pub fn diag(&self, pass: &mut Pass, v: VectorId, diagonal: Diagonal) -> Result<Reply, Refusal>
        requires pass { IsPassOf self.now pass.old }
        ensures pass { IsPassOf self.now pass.new }
        ensures answered { Answered self.now pass.old pass.new (Call.Diag v diagonal) result }
    {
        self.call(pass, Call::Diag { v, diagonal })
    }

    /// All entries of the matrix in rising order, row by row, as they stand at the point of a wait for its completion, which is made. They are
    /// the entries of the object itself: nothing is copied, and they stay what they are whatever comes. Status, point, steps, memory and
    /// refusals are those of [`Context::snapshot_matrix`]. (`GrB_Matrix_extractTuples`; the order is own.)
    pub fn tuples_matrix(&self, pass: &mut Pass, a: MatrixId) -> Result<MatrixTuples, Refusal>
        requires pass { IsPassOf self.now pass.old }
        ensures pass { IsPassOf self.now pass.new }
        ensures snapshot { IsSnapshot self.now pass.old pass.new (Call.WaitMatrix a WaitMode.Complete) result }
        ensures tuples { IfOk result (λ tuples. tuples ≡ tuples_of (matrix_entries (store_of (known pass.new)) a)) }
    {
        let matrix = self.snapshot_matrix(pass, a)?;
        Ok(MatrixTuples::from_matrix(matrix))
    }

    /// All entries of the vector in rising order, as [`Context::tuples_matrix`] gives those of a matrix. (`GrB_Vector_extractTuples`; the
    /// order is own.)
    pub fn tuples_vector(&self, pass: &mut Pass, v: VectorId) -> Result<VectorTuples, Refusal>
        requires pass { IsPassOf self.now pass.old }
        ensures pass { IsPassOf self.now pass.new }
        ensures snapshot { IsSnapshot self.now pass.old pass.new (Call.WaitVector v WaitMode.Complete) result }
        ensures tuples { IfOk result (λ tuples. tuples ≡ vector_entries (store_of (known pass.new)) v) }
    {
        let vector = self.snapshot_vector(pass, v)?;
        Ok(VectorTuples::from_vector(vector))
    }
}
