//! Calls that may lack memory, each once where memory is ample: those of them that no other module of this crate reaches; and one that is
//! surely refused it.
//!
//! No contract can say that memory is there: a body that only answers that it is not would be proved.
use crate::operations::lent;
use crate::same::same;
use crate::stores::{answer, applied};
use crate::values::{Step, calls_of};
use grb_call::{Call, MatrixId, Reply, Shapes, VectorId, WaitMode};
use grb_core::{Domain, Monoid, Value};
use grb_sparse::{SparseMatrix, SparseVector};
use grb_states::State;
use std::alloc::{AllocError, Global};
use std::process::Abort;

const V: VectorId = VectorId(0);

#[test]
fn shapes_are_made_of_lists_and_copied(rt: HostRuntime) -> Result<(), AllocError> {
    let matrices = [Some((Domain::Bool, 2, 3)), None];
    let vectors = [Some((Domain::Uint64, 4))];
    let shapes = Shapes::of(rt.alloc(), 2, &matrices, &vectors)?;
    let copy = shapes.try_clone(3)?;
    same(&rt, (copy.matrices(), copy.vectors()), (2, 1), "the counts");
    same(&rt, copy.matrix(MatrixId(0)), matrices[0], "a matrix");
    same(&rt, copy.matrix(MatrixId(1)), None, "a freed matrix");
    same(&rt, copy.vector(VectorId(0)), vectors[0], "a vector");
    Ok(())
}

/// Two vectors with changes that wait.
const STEPS: [Step; 4] = [
    Step::New(3),
    Step::New(3),
    Step::Set(0, 0, 1),
    Step::Set(1, 0, 2),
];

/// After the wait these two are assembled or not.
fn expect_wait(
    rt: &impl Abort,
    alloc: Global,
    mode: WaitMode,
    wanted: (bool, bool),
) -> Result<(), AllocError> {
    let calls = calls_of(alloc, &STEPS)?;
    let lent = lent(alloc, &calls)?;
    let mut state = applied(alloc, &lent)?;
    same(rt, are_assembled(&state), (false, false), "before");
    let done = answer(&mut state, &Call::WaitVector { v: V, mode })?;
    same(rt, done, Ok(Reply::Done), mode);
    same(rt, are_assembled(&state), wanted, mode);
    Ok(())
}

fn is_assembled(state: &State, v: VectorId) -> bool {
    state.vector(v).is_some_and(|vector| vector.is_assembled())
}

fn are_assembled(state: &State) -> (bool, bool) {
    (is_assembled(state, V), is_assembled(state, VectorId(1)))
}

#[test]
fn a_wait_does_the_changes_of_its_object_or_of_all(rt: HostRuntime) -> Result<(), AllocError> {
    expect_wait(&rt, rt.alloc(), WaitMode::Complete, (true, false))?;
    expect_wait(&rt, rt.alloc(), WaitMode::Materialize, (true, true))
}

/// A vector and a matrix that were refused more places than any memory holds are as before, and have places then.
#[test]
fn a_refused_reservation_changes_nothing(rt: HostRuntime) -> Result<(), AllocError> {
    let mut v = SparseVector::new(rt.alloc(), Domain::Uint64, 10);
    v.build(&[(3, Value::Uint64(1))], Monoid::Plus)?;
    same(&rt, v.reserve_pending(u64::MAX).is_err(), true, "a vector");
    v.reserve_pending(1)?;
    v.set(9, Value::Uint64(7));
    same(
        &rt,
        (v.get(3), v.nvals()),
        (Some(Value::Uint64(1)), 2),
        "a vector",
    );
    let mut a = SparseMatrix::new(rt.alloc(), Domain::Uint64, 2, 10);
    a.build(&[(1, 2, Value::Uint64(1))], Monoid::Plus)?;
    same(&rt, a.reserve_pending(u64::MAX).is_err(), true, "a matrix");
    a.reserve_pending(1)?;
    a.set(0, 9, Value::Uint64(7));
    same(
        &rt,
        (a.get(1, 2), a.nvals()),
        (Some(Value::Uint64(1)), 2),
        "a matrix",
    );
    Ok(())
}
