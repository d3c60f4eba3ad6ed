//! The products of a vector and a matrix by the rows that the vector picks, of which vxm is made, and mxv of the transposed.
ghost use Rattle.std.specs.Prelude.{◌≡◌, true, IfOk, false};
ghost use Rattle.grb_core.specs.Operator.{op_domain};
ghost use Rattle.grb_core.specs.Monoid.{monoid_domain};
ghost use Rattle.grb_kernels.specs.Typed.{entries_of};
ghost use Rattle.grb_ewise.specs.Premises.{IsMatrixInput, IsVectorInput};
ghost use Rattle.grb_lists.specs.Cells.{decoded};
ghost use Rattle.grb_push.specs.Pushes.{pushed_of};
ghost use Rattle.grb_push.specs.Wanted.{is_wanted, IsMade};

use crate::push::{Placed, push};
use crate::sides::Side;
use crate::wanted::Wanted;
use grb_core::{Domain, Semiring};
use grb_ewise::{Stored, keep_bools, keep_numbers};
use grb_kernels::{EntryList, EntrySlice, Operator, Scalar};
use grb_semirings::{BySemiring, Folded, MatrixRows, MonoidOver, by_semiring, lend_matrix};
use grb_sparse::{SparseMatrix, SparseVector};
use std::alloc::{AllocError, Global};
use std::marker::PhantomData;

/// A vector and a matrix that are multiplied by whichever semiring, at the columns that are wanted.
#[derive(Drop)]
struct Factors<'a, T: Scalar, S> {
    alloc: Global,
    wanted: &'a Wanted<'a>,
    u: &'a EntrySlice<'a, T>,
    rows: MatrixRows<'a, T>,
    of: PhantomData<S>,
}

impl<'a, T: Stored + Folded + Placed + Drop, S: Side> BySemiring<T> for Factors<'a, T, S> {
    type Output = Result<(EntryList<T>, bool), AllocError>;

    ghost Gives = { λ f semiring result. IfOk result (λ made. IsMade made.1 (is_wanted f.wanted.now.among f.wanted.now.names.now) (pushed_of semiring.monoid (S.makes semiring.op) (entries_of T.value f.u.now.indices.now f.u.now.values.now) (decoded f.rows.lists.now.entries)) (entries_of T.value made.0.indices.items made.0.values.items)) };

    /// The product of vector and matrix, by monoid and operator as types. `AllocError` where memory is refused; then nothing is made.
    fn by<M: MonoidOver<T>, O: Operator<T>>(self) -> Result<(EntryList<T>, bool), AllocError> {
        push::<T, M, O, S>(self.alloc, self.wanted, self.u, &self.rows)
    }
}

/// The product of a vector and a matrix whose values are of one Rust type. `AllocError` where memory is refused; then nothing is made.
fn push_by<T: Stored + Folded + Placed + Drop, S: Side>(
    alloc: Global,
    semiring: Semiring,
    wanted: &Wanted,
    u: &EntrySlice<T>,
    rows: MatrixRows<T>,
) -> Result<(EntryList<T>, bool), AllocError>
    requires monoid_domain { monoid_domain semiring.monoid ≡ T.domain }
    requires op_domain { op_domain semiring.op ≡ T.domain }
    ensures { IfOk result (λ made. IsMade made.1 (is_wanted wanted.now.among wanted.now.names.now) (pushed_of semiring.monoid (S.makes semiring.op) (entries_of T.value u.now.indices.now u.now.values.now) (decoded rows.entry.lists.now.entries)) (entries_of T.value made.0.indices.items made.0.values.items)) }
{
    let factors: Factors<T, S> = Factors {
        alloc,
        wanted,
        u,
        rows,
        of: PhantomData,
    };
    by_semiring(semiring, factors)
}

/// The product of a vector and a matrix, as a vector, and whether places that are not wanted may be among it. `AllocError` where memory is
/// refused; then nothing is made.
pub fn pushed_product<S: Side>(
    alloc: Global,
    semiring: Semiring,
    wanted: &Wanted,
    u: &SparseVector,
    a: &SparseMatrix,
) -> Result<(SparseVector, bool), AllocError>
    requires u { IsVectorInput (op_domain semiring.op) u.now.vector.size u.now }
    requires a { IsMatrixInput false (op_domain semiring.op) a.now.matrix.nrows a.now.matrix.ncols a.now }
    ensures domain { IfOk result (λ made. made.0.vector.domain ≡ a.now.matrix.domain) }
    ensures size { IfOk result (λ made. made.0.vector.size ≡ a.now.matrix.ncols) }
    ensures entries { IfOk result (λ made. IsMade made.1 (is_wanted wanted.now.among wanted.now.names.now) (pushed_of semiring.monoid (S.makes semiring.op) u.now.vector.entries a.now.matrix.entries) made.0.vector.entries) }
    ensures assembled { IfOk result (λ made. made.0.assembled ≡ true) }
{
    let (_nrows, ncols) = a.dims();
    match semiring.domain() {
        Domain::Bool => {
            let lent = bool::lend(u);
            let (entries, whole) = push_by::<bool, S>(
                alloc,
                semiring,
                wanted,
                &lent,
                lend_matrix(a),
            )?;
            let kept = keep_bools(alloc, ncols, entries)?;
            Ok((kept, whole))
        }
        Domain::Uint64 => {
            let lent = u64::lend(u);
            let (entries, whole) = push_by::<u64, S>(
                alloc,
                semiring,
                wanted,
                &lent,
                lend_matrix(a),
            )?;
            let kept = keep_numbers(alloc, ncols, entries)?;
            Ok((kept, whole))
        }
    }
}
