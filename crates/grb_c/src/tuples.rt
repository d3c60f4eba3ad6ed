//! All entries of an object, into arrays.
ghost use Rattle.std.specs.Prelude.{◌≡◌, IfOk, true};
ghost use Rattle.std.specs.Result.{result_map_both};
ghost use Rattle.grb_call.specs.declared.call.Call.TheVariants as Call;
ghost use Rattle.grb_call.specs.declared.wait_mode.WaitMode.TheVariants as WaitMode;
ghost use Rattle.grb_c.specs.Kinds.{HandsOutBy, IsMemberMatrix, IsMemberVector};
ghost use Rattle.grb_c.specs.Handles.{ReadsBools, ReadsBoolsOfVector, ReadsNumbers, ReadsNumbersOfVector};
ghost use Rattle.grb_c.specs.Tuples.{ReadsAll, ReadsAllOfVector, ReadsMatrixBy, ReadsMatrixByMember, ReadsMatrixOf, ReadsVectorBy, ReadsVectorByMember, ReadsVectorOf};

use crate::bounded::Bounded;
use crate::handle::TrbPass;
use crate::session::{Kind, Session};
use grb_call::{MatrixId, VectorId, WaitMode};
use grb_codes::{
    Item, UNINITIALIZED_OBJECT, put_handed, put_handed_vector, put_matrix, put_vector, refusal_code,
};
use grb_core::Refusal;
use grb_generations::Member;
use grb_sparse::{SparseMatrix, SparseVector};
use std::alloc::Global;
use std::sync::Arc;

impl Bounded {
    /// Reads all entries of a matrix, as they stand at the point of the call.
    fn read_matrix<T: Item>(
        &mut self,
        a: MatrixId,
        rows: &mut [u64],
        columns: &mut [u64],
        values: &mut [T],
        count: &mut u64,
    ) -> i32
        ensures { ReadsMatrixBy T.domain T.item self.old self.new a.0 result rows.old columns.old values.old count.old rows.new columns.new values.new count.new }
    {
        let waited = self
            .context
            .wait_matrix(&mut self.pass, a, WaitMode::Complete);
        match waited {
            Ok(_done) => match self.pass.matrix(a) {
                Some(matrix) => put_matrix(matrix, rows, columns, values, count),
                None => unreachable!(),
            },
            Err(refusal) => refusal_code(refusal),
        }
    }

    /// Reads all entries of a vector, as they stand at the point of the call.
    fn read_vector<T: Item>(
        &mut self,
        v: VectorId,
        indices: &mut [u64],
        values: &mut [T],
        count: &mut u64,
    ) -> i32
        ensures { ReadsVectorBy T.domain T.item self.old self.new v.0 result indices.old values.old count.old indices.new values.new count.new }
    {
        let waited = self
            .context
            .wait_vector(&mut self.pass, v, WaitMode::Complete);
        match waited {
            Ok(_done) => match self.pass.vector(v) {
                Some(vector) => put_vector(vector, indices, values, count),
                None => unreachable!(),
            },
            Err(refusal) => refusal_code(refusal),
        }
    }
}

/// The matrix that a member of a chain hands out.
fn snapshot_matrix(member: &mut Member, a: MatrixId) -> Result<Arc<SparseMatrix>, Refusal>
    ensures hands { HandsOutBy (Call.WaitMatrix a WaitMode.Complete) (λ n m. IsMemberMatrix n a m) (result_map_both (λ matrix. matrix.value) (λ refusal. refusal) result) member.old member.new }
    ensures assembled { IfOk result (λ matrix. matrix.value.assembled ≡ true) }
{
    member.snapshot_matrix(a)
}

/// The vector that a member of a chain hands out.
fn snapshot_vector(member: &mut Member, v: VectorId) -> Result<Arc<SparseVector>, Refusal>
    ensures hands { HandsOutBy (Call.WaitVector v WaitMode.Complete) (λ n x. IsMemberVector n v x) (result_map_both (λ vector. vector.value) (λ refusal. refusal) result) member.old member.new }
    ensures assembled { IfOk result (λ vector. vector.value.assembled ≡ true) }
{
    member.snapshot_vector(v)
}

/// Reads all entries of a matrix by a member of a chain, as they stand at the point of the call.
fn read_matrix_by<T: Item>(
    member: &mut Member,
    a: MatrixId,
    rows: &mut [u64],
    columns: &mut [u64],
    values: &mut [T],
    count: &mut u64,
) -> i32
    ensures { ReadsMatrixByMember T.domain T.item member.old member.new a.0 result rows.old columns.old values.old count.old rows.new columns.new values.new count.new }
{
    let handed = snapshot_matrix(member, a);
    put_handed(handed, rows, columns, values, count)
}

/// Reads all entries of a vector by a member of a chain, as they stand at the point of the call.
fn read_vector_by<T: Item>(
    member: &mut Member,
    v: VectorId,
    indices: &mut [u64],
    values: &mut [T],
    count: &mut u64,
) -> i32
    ensures { ReadsVectorByMember T.domain T.item member.old member.new v.0 result indices.old values.old count.old indices.new values.new count.new }
{
    let handed = snapshot_vector(member, v);
    put_handed_vector(handed, indices, values, count)
}

impl Session {
    /// Reads all entries of a matrix, as they stand at the point of the call.
    fn read_matrix<T: Item>(
        &mut self,
        a: MatrixId,
        rows: &mut [u64],
        columns: &mut [u64],
        values: &mut [T],
        count: &mut u64,
    ) -> i32
        ensures { ReadsMatrixOf T.domain T.item self.old self.new a.0 result rows.old columns.old values.old count.old rows.new columns.new values.new count.new }
    {
        match &mut self.kind {
            Kind::Bounded(own) => own.read_matrix(a, rows, columns, values, count),
            Kind::Member(own) => read_matrix_by(own, a, rows, columns, values, count),
        }
    }

    /// Reads all entries of a vector, as they stand at the point of the call.
    fn read_vector<T: Item>(
        &mut self,
        v: VectorId,
        indices: &mut [u64],
        values: &mut [T],
        count: &mut u64,
    ) -> i32
        ensures { ReadsVectorOf T.domain T.item self.old self.new v.0 result indices.old values.old count.old indices.new values.new count.new }
    {
        match &mut self.kind {
            Kind::Bounded(own) => own.read_vector(v, indices, values, count),
            Kind::Member(own) => read_vector_by(own, v, indices, values, count),
        }
    }
}

impl TrbPass {
    /// Reads all entries of a matrix, if there is a pass.
    fn read_matrix<T: Item>(
        &mut self,
        alloc: Global,
        a: u32,
        rows: &mut [u64],
        columns: &mut [u64],
        values: &mut [T],
        count: &mut u64,
    ) -> i32
        ensures { ReadsAll T.domain T.item self.old.raw.session self.new.raw.session a result rows.old columns.old values.old count.old rows.new columns.new values.new count.new }
    {
        let Some(mut session) = self.take(alloc) else {
            return UNINITIALIZED_OBJECT;
        };
        let code = session.read_matrix(MatrixId(a), rows, columns, values, count);
        self.put(session);
        code
    }

    /// Reads all entries of a vector, if there is a pass.
    fn read_vector<T: Item>(
        &mut self,
        alloc: Global,
        v: u32,
        indices: &mut [u64],
        values: &mut [T],
        count: &mut u64,
    ) -> i32
        ensures { ReadsAllOfVector T.domain T.item self.old.raw.session self.new.raw.session v result indices.old values.old count.old indices.new values.new count.new }
    {
        let Some(mut session) = self.take(alloc) else {
            return UNINITIALIZED_OBJECT;
        };
        let code = session.read_vector(VectorId(v), indices, values, count);
        self.put(session);
        code
    }
}

/// Reads all entries of a matrix of numbers, as they stand at the point of the call, into three arrays: where one is too short, only their
/// number is told.
#[unsafe(no_mangle)]
pub extern "C" fn trb_matrix_tuples_uint64(
    alloc: Global,
    pass: &mut TrbPass,
    rows: &mut [u64],
    columns: &mut [u64],
    values: &mut [u64],
    count: &mut u64,
    a: u32,
) -> i32
    ensures { ReadsNumbers pass.old pass.new a result rows.old columns.old values.old count.old rows.new columns.new values.new count.new }
{
    pass.read_matrix(alloc, a, rows, columns, values, count)
}

/// Reads all entries of a vector of numbers, as they stand at the point of the call, into two arrays: where one is too short, only their
/// number is told.
#[unsafe(no_mangle)]
pub extern "C" fn trb_vector_tuples_uint64(
    alloc: Global,
    pass: &mut TrbPass,
    indices: &mut [u64],
    values: &mut [u64],
    count: &mut u64,
    v: u32,
) -> i32
    ensures { ReadsNumbersOfVector pass.old pass.new v result indices.old values.old count.old indices.new values.new count.new }
{
    pass.read_vector(alloc, v, indices, values, count)
}

/// Reads all entries of a matrix of truth values, as they stand at the point of the call, into three arrays: where one is too short, only
/// their number is told.
#[unsafe(no_mangle)]
pub extern "C" fn trb_matrix_tuples_bool(
    alloc: Global,
    pass: &mut TrbPass,
    rows: &mut [u64],
    columns: &mut [u64],
    values: &mut [bool],
    count: &mut u64,
    a: u32,
) -> i32
    ensures { ReadsBools pass.old pass.new a result rows.old columns.old values.old count.old rows.new columns.new values.new count.new }
{
    pass.read_matrix(alloc, a, rows, columns, values, count)
}

/// Reads all entries of a vector of truth values, as they stand at the point of the call, into two arrays: where one is too short, only
/// their number is told.
#[unsafe(no_mangle)]
pub extern "C" fn trb_vector_tuples_bool(
    alloc: Global,
    pass: &mut TrbPass,
    indices: &mut [u64],
    values: &mut [bool],
    count: &mut u64,
    v: u32,
) -> i32
    ensures { ReadsBoolsOfVector pass.old pass.new v result indices.old values.old count.old indices.new values.new count.new }
{
    pass.read_vector(alloc, v, indices, values, count)
}
