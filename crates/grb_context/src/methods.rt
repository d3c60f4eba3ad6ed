//! A method for each call that makes, frees, changes or reads one object.
ghost use Rattle.grb_context.specs.Known.{IsPassOf};
ghost use Rattle.grb_context.specs.Answered.{Answered};

use crate::Pass;
use crate::context::Context;
use grb_call::{Call, MatrixId, MatrixTuples, Reply, VectorId, VectorTuples};
use grb_core::{Domain, Monoid, Refusal, Value};

impl Context {
    /// Makes a matrix with no entries; `nrows` and `ncols` are from 1 to 4,294,967,295. Otherwise `InvalidValue`. `OutOfMemory` where
    /// memory for its record is refused; then it is not entered. (`GrB_Matrix_new`.)
    pub fn new_matrix(
        &self,
        pass: &mut Pass,
        domain: Domain,
        nrows: u64,
        ncols: u64,
    ) -> Result<Reply, Refusal>
        requires pass { IsPassOf self.now pass.old }
        ensures pass { IsPassOf self.now pass.new }
        ensures answered { Answered self.now pass.old pass.new (Call.NewMatrix domain nrows ncols) result }
    {
        self.call(
            pass,
            Call::NewMatrix {
                domain,
                nrows,
                ncols,
            },
        )
    }

    /// Makes a vector with no entries; `size` is from 1 to 4,294,967,295. Otherwise `InvalidValue`. `OutOfMemory` where memory for its
    /// record is refused; then it is not entered. (`GrB_Vector_new`.)
    pub fn new_vector(&self, pass: &mut Pass, domain: Domain, size: u64) -> Result<Reply, Refusal>
        requires pass { IsPassOf self.now pass.old }
        ensures pass { IsPassOf self.now pass.new }
        ensures answered { Answered self.now pass.old pass.new (Call.NewVector domain size) result }
    {
        self.call(pass, Call::NewVector { domain, size })
    }

    /// Ends the matrix; its number is not used again. `UninitializedObject` where there is no such matrix. `OutOfMemory` where memory for
    /// its record is refused; then it is not entered. (`GrB_free`.)
    pub fn free_matrix(&self, pass: &mut Pass, a: MatrixId) -> Result<Reply, Refusal>
        requires pass { IsPassOf self.now pass.old }
        ensures pass { IsPassOf self.now pass.new }
        ensures answered { Answered self.now pass.old pass.new (Call.FreeMatrix a) result }
    {
        self.call(pass, Call::FreeMatrix { a })
    }

    /// Ends the vector; its number is not used again. `UninitializedObject` where there is no such vector. `OutOfMemory` where memory for
    /// its record is refused; then it is not entered. (`GrB_free`.)
    pub fn free_vector(&self, pass: &mut Pass, v: VectorId) -> Result<Reply, Refusal>
        requires pass { IsPassOf self.now pass.old }
        ensures pass { IsPassOf self.now pass.new }
        ensures answered { Answered self.now pass.old pass.new (Call.FreeVector v) result }
    {
        self.call(pass, Call::FreeVector { v })
    }

    /// Stores `value` in row `i`, column `j`, in place of what was stored there. `UninitializedObject`, `InvalidIndex` or `DomainMismatch`
    /// where there is no such matrix, it has no such row or column, or another domain. `OutOfMemory` where memory for its record is
    /// refused; then it is not entered. (`GrB_Matrix_setElement`.)
    pub fn set_matrix(
        &self,
        pass: &mut Pass,
        a: MatrixId,
        i: u64,
        j: u64,
        value: Value,
    ) -> Result<Reply, Refusal>
        requires pass { IsPassOf self.now pass.old }
        ensures pass { IsPassOf self.now pass.new }
        ensures answered { Answered self.now pass.old pass.new (Call.SetMatrix a i j value) result }
    {
        self.call(pass, Call::SetMatrix { a, i, j, value })
    }

    /// Stores `value` at `i`, in place of what was stored there. `UninitializedObject`, `InvalidIndex` or `DomainMismatch` where there is
    /// no such vector, it has no such index or another domain. `OutOfMemory` where memory for its record is refused; then it is not
    /// entered. (`GrB_Vector_setElement`.)
    pub fn set_vector(
        &self,
        pass: &mut Pass,
        v: VectorId,
        i: u64,
        value: Value,
    ) -> Result<Reply, Refusal>
        requires pass { IsPassOf self.now pass.old }
        ensures pass { IsPassOf self.now pass.new }
        ensures answered { Answered self.now pass.old pass.new (Call.SetVector v i value) result }
    {
        self.call(pass, Call::SetVector { v, i, value })
    }

    /// Removes the entry in row `i`, column `j`, if there is one. `UninitializedObject` or `InvalidIndex` where there is no such matrix or
    /// it has no such row or column. `OutOfMemory` where memory for its record is refused; then it is not entered.
    /// (`GrB_Matrix_removeElement`.)
    pub fn remove_matrix(
        &self,
        pass: &mut Pass,
        a: MatrixId,
        i: u64,
        j: u64,
    ) -> Result<Reply, Refusal>
        requires pass { IsPassOf self.now pass.old }
        ensures pass { IsPassOf self.now pass.new }
        ensures answered { Answered self.now pass.old pass.new (Call.RemoveMatrix a i j) result }
    {
        self.call(pass, Call::RemoveMatrix { a, i, j })
    }

    /// Removes the entry at `i`, if there is one. `UninitializedObject` or `InvalidIndex` where there is no such vector or it has no such
    /// index. `OutOfMemory` where memory for its record is refused; then it is not entered. (`GrB_Vector_removeElement`.)
    pub fn remove_vector(&self, pass: &mut Pass, v: VectorId, i: u64) -> Result<Reply, Refusal>
        requires pass { IsPassOf self.now pass.old }
        ensures pass { IsPassOf self.now pass.new }
        ensures answered { Answered self.now pass.old pass.new (Call.RemoveVector v i) result }
    {
        self.call(pass, Call::RemoveVector { v, i })
    }

    /// The value stored in row `i`, column `j`. `UninitializedObject` or `InvalidIndex` where there is no such matrix or it has no such row
    /// or column. `OutOfMemory` where memory to evaluate calls is refused; then no entry changes. Does not wait.
    /// (`GrB_Matrix_extractElement`.)
    pub fn get_matrix(&self, pass: &mut Pass, a: MatrixId, i: u64, j: u64) -> Result<Reply, Refusal>
        requires pass { IsPassOf self.now pass.old }
        ensures pass { IsPassOf self.now pass.new }
        ensures answered { Answered self.now pass.old pass.new (Call.GetMatrix a i j) result }
    {
        self.shared.read(pass, &Call::GetMatrix { a, i, j })
    }

    /// The value stored at `i`. `UninitializedObject` or `InvalidIndex` where there is no such vector or it has no such index.
    /// `OutOfMemory` where memory to evaluate calls is refused; then no entry changes. Does not wait. (`GrB_Vector_extractElement`.)
    pub fn get_vector(&self, pass: &mut Pass, v: VectorId, i: u64) -> Result<Reply, Refusal>
        requires pass { IsPassOf self.now pass.old }
        ensures pass { IsPassOf self.now pass.new }
        ensures answered { Answered self.now pass.old pass.new (Call.GetVector v i) result }
    {
        self.shared.read(pass, &Call::GetVector { v, i })
    }

    /// The number of stored entries. `UninitializedObject` where there is no such matrix. `OutOfMemory` where memory to evaluate calls is
    /// refused; then no entry changes. Does not wait. (`GrB_Matrix_nvals`.)
    pub fn nvals_matrix(&self, pass: &mut Pass, a: MatrixId) -> Result<Reply, Refusal>
        requires pass { IsPassOf self.now pass.old }
        ensures pass { IsPassOf self.now pass.new }
        ensures answered { Answered self.now pass.old pass.new (Call.NvalsMatrix a) result }
    {
        self.shared.read(pass, &Call::NvalsMatrix { a })
    }

    /// The number of stored entries. `UninitializedObject` where there is no such vector. `OutOfMemory` where memory to evaluate calls is
    /// refused; then no entry changes. Does not wait. (`GrB_Vector_nvals`.)
    pub fn nvals_vector(&self, pass: &mut Pass, v: VectorId) -> Result<Reply, Refusal>
        requires pass { IsPassOf self.now pass.old }
        ensures pass { IsPassOf self.now pass.new }
        ensures answered { Answered self.now pass.old pass.new (Call.NvalsVector v) result }
    {
        self.shared.read(pass, &Call::NvalsVector { v })
    }

    /// The numbers of rows and columns. `UninitializedObject` where there is no such matrix. Takes no memory and does not wait.
    /// (`GrB_Matrix_nrows`, `GrB_Matrix_ncols`.)
    pub fn size_matrix(&self, pass: &mut Pass, a: MatrixId) -> Result<Reply, Refusal>
        requires pass { IsPassOf self.now pass.old }
        ensures pass { IsPassOf self.now pass.new }
        ensures answered { Answered self.now pass.old pass.new (Call.SizeMatrix a) result }
    {
        self.shared.read(pass, &Call::SizeMatrix { a })
    }

    /// The size. `UninitializedObject` where there is no such vector. Takes no memory and does not wait. (`GrB_Vector_size`.)
    pub fn size_vector(&self, pass: &mut Pass, v: VectorId) -> Result<Reply, Refusal>
        requires pass { IsPassOf self.now pass.old }
        ensures pass { IsPassOf self.now pass.new }
        ensures answered { Answered self.now pass.old pass.new (Call.SizeVector v) result }
    {
        self.shared.read(pass, &Call::SizeVector { v })
    }

    /// Removes all entries; the dimensions stay. `UninitializedObject` where there is no such matrix. `OutOfMemory` where memory for its
    /// record is refused; then it is not entered. (`GrB_Matrix_clear`.)
    pub fn clear_matrix(&self, pass: &mut Pass, a: MatrixId) -> Result<Reply, Refusal>
        requires pass { IsPassOf self.now pass.old }
        ensures pass { IsPassOf self.now pass.new }
        ensures answered { Answered self.now pass.old pass.new (Call.ClearMatrix a) result }
    {
        self.call(pass, Call::ClearMatrix { a })
    }

    /// Removes all entries; the size stays. `UninitializedObject` where there is no such vector. `OutOfMemory` where memory for its record
    /// is refused; then it is not entered. (`GrB_Vector_clear`.)
    pub fn clear_vector(&self, pass: &mut Pass, v: VectorId) -> Result<Reply, Refusal>
        requires pass { IsPassOf self.now pass.old }
        ensures pass { IsPassOf self.now pass.new }
        ensures answered { Answered self.now pass.old pass.new (Call.ClearVector v) result }
    {
        self.call(pass, Call::ClearVector { v })
    }

    /// Gives new dimensions, each from 1 to 4,294,967,295; entries outside them are gone for good. `UninitializedObject` or `InvalidValue`
    /// where there is no such matrix or a dimension is out of its range. `OutOfMemory` where memory for its record is refused; then it is
    /// not entered. (`GrB_Matrix_resize`.)
    pub fn resize_matrix(
        &self,
        pass: &mut Pass,
        a: MatrixId,
        nrows: u64,
        ncols: u64,
    ) -> Result<Reply, Refusal>
        requires pass { IsPassOf self.now pass.old }
        ensures pass { IsPassOf self.now pass.new }
        ensures answered { Answered self.now pass.old pass.new (Call.ResizeMatrix a nrows ncols) result }
    {
        self.call(pass, Call::ResizeMatrix { a, nrows, ncols })
    }

    /// Gives a new size, from 1 to 4,294,967,295; entries outside it are gone for good. `UninitializedObject` or `InvalidValue` where there
    /// is no such vector or the size is out of its range. `OutOfMemory` where memory for its record is refused; then it is not entered.
    /// (`GrB_Vector_resize`.)
    pub fn resize_vector(&self, pass: &mut Pass, v: VectorId, size: u64) -> Result<Reply, Refusal>
        requires pass { IsPassOf self.now pass.old }
        ensures pass { IsPassOf self.now pass.new }
        ensures answered { Answered self.now pass.old pass.new (Call.ResizeVector v size) result }
    {
        self.call(pass, Call::ResizeVector { v, size })
    }

    /// Makes a matrix of the same domain, dimensions and entries. `UninitializedObject` where there is no such matrix. `OutOfMemory` where
    /// memory for its record is refused; then it is not entered. (`GrB_Matrix_dup`.)
    pub fn dup_matrix(&self, pass: &mut Pass, a: MatrixId) -> Result<Reply, Refusal>
        requires pass { IsPassOf self.now pass.old }
        ensures pass { IsPassOf self.now pass.new }
        ensures answered { Answered self.now pass.old pass.new (Call.DupMatrix a) result }
    {
        self.call(pass, Call::DupMatrix { a })
    }

    /// Makes a vector of the same domain, size and entries. `UninitializedObject` where there is no such vector. `OutOfMemory` where memory
    /// for its record is refused; then it is not entered. (`GrB_Vector_dup`.)
    pub fn dup_vector(&self, pass: &mut Pass, v: VectorId) -> Result<Reply, Refusal>
        requires pass { IsPassOf self.now pass.old }
        ensures pass { IsPassOf self.now pass.new }
        ensures answered { Answered self.now pass.old pass.new (Call.DupVector v) result }
    {
        self.call(pass, Call::DupVector { v })
    }

    /// Fills a matrix that stores nothing; values at one place are combined by `dup`. `UninitializedObject` where there is no such matrix,
    /// `DomainMismatch` where `dup` or a value is of another domain, `OutputNotEmpty` where it stores an entry, `IndexOutOfBounds` where a
    /// row or column of the list is not below the dimensions. Evaluates what the matrix stores. `OutOfMemory` where memory for that or for
    /// its record is refused; then it is not entered. (`GrB_Matrix_build`.)
    pub fn build_matrix(
        &self,
        pass: &mut Pass,
        a: MatrixId,
        tuples: MatrixTuples,
        dup: Monoid,
    ) -> Result<Reply, Refusal>
        requires pass { IsPassOf self.now pass.old }
        ensures pass { IsPassOf self.now pass.new }
        ensures answered { Answered self.now pass.old pass.new (Call.BuildMatrix a tuples dup) result }
    {
        self.call(pass, Call::BuildMatrix { a, tuples, dup })
    }

    /// Fills a vector that stores nothing; values at one index are combined by `dup`. `UninitializedObject` where there is no such vector,
    /// `DomainMismatch` where `dup` or a value is of another domain, `OutputNotEmpty` where it stores an entry, `IndexOutOfBounds` where an
    /// index of the list is not below the size. Evaluates what the vector stores. `OutOfMemory` where memory for that or for its record is
    /// refused; then it is not entered. (`GrB_Vector_build`.)
    pub fn build_vector(
        &self,
        pass: &mut Pass,
        v: VectorId,
        tuples: VectorTuples,
        dup: Monoid,
    ) -> Result<Reply, Refusal>
        requires pass { IsPassOf self.now pass.old }
        ensures pass { IsPassOf self.now pass.new }
        ensures answered { Answered self.now pass.old pass.new (Call.BuildVector v tuples dup) result }
    {
        self.call(pass, Call::BuildVector { v, tuples, dup })
    }
}
