//! What a replay, an edition and a value lend, passed on as it is to what asks for objects in which no change waits: totals, an operation
//! and a text.
//!
//! Contracts say that none waits there, but of an edition. What comes out of each is written here by hand, and no contract says that memory
//! suffices.
ghost use Rattle.std.specs.Prelude.{◌≡◌, true};
ghost use Rattle.grb_states.specs.Settled.{AreAllAssembled};
ghost use Rattle.grb_states.specs.State.{is_assembled};

use crate::editions::results_of;
use crate::operations::{PLAIN, lent};
use crate::results::learnt;
use crate::same::same;
use crate::stores::replayed;
use crate::texts::text_of;
use crate::values::held_after;
use grb_call::{Call, MatrixId, Object, VectorId};
use grb_core::{BinaryOp, Domain, Monoid, Semiring, Value};
use grb_ops::{mxv, reduce_matrix, reduce_vector};
use grb_replay::{Looked, Versions};
use grb_results::Table;
use grb_sparse::{SparseMatrix, SparseVector};
use grb_states::State;
use std::alloc::{AllocError, Global};
use std::process::Abort;

const A: MatrixId = MatrixId(0);

const U: VectorId = VectorId(0);

/// What is set, one after another, and where: row, column and number. None removes what is there.
const IN_MATRIX: [(u64, u64, Option<u64>); 6] = [
    (0, 0, Some(1)),
    (2, 1, Some(5)),
    (0, 2, Some(2)),
    (2, 1, None),
    (1, 0, Some(4)),
    (0, 0, Some(3)),
];

const IN_VECTOR: [(u64, Option<u64>); 5] = [
    (2, Some(10)),
    (0, Some(7)),
    (1, Some(9)),
    (1, None),
    (0, Some(6)),
];

/// The matrix with the rows `3 . 2`, `4 . .` and `. . .`, and the vector `6 . 10`, made so that changes wait in both.
fn calls_of(alloc: Global) -> Result<Vec<Call>, AllocError> {
    let domain = Domain::Uint64;
    let (nrows, ncols, size) = (3, 3, 3);
    let mut calls = Vec::new(alloc);
    calls.push(Call::NewMatrix {
        domain,
        nrows,
        ncols,
    })?;
    calls.push(Call::NewVector { domain, size })?;
    for (i, j, number) in IN_MATRIX {
        calls.push(match number {
            Some(n) => Call::SetMatrix {
                a: A,
                i,
                j,
                value: Value::Uint64(n),
            },
            None => Call::RemoveMatrix { a: A, i, j },
        })?;
    }
    for (i, number) in IN_VECTOR {
        calls.push(match number {
            Some(n) => Call::SetVector {
                v: U,
                i,
                value: Value::Uint64(n),
            },
            None => Call::RemoveVector { v: U, i },
        })?;
    }
    Ok(calls)
}

const TEXT: &str = "%%MatrixMarket matrix coordinate integer general\n3 3 3\n1 1 3\n1 3 2\n2 1 4\n";

/// The product of the two, which are of numbers and three in each dimension.
fn product(
    rt: &impl Abort,
    alloc: Global,
    a: &SparseMatrix,
    u: &SparseVector,
) -> Result<Vec<(u64, Value)>, AllocError>
    requires matrix { a.now.assembled ≡ true }
    requires vector { u.now.assembled ≡ true }
{
    let Ok(semiring) = Semiring::new(Monoid::Plus, BinaryOp::Times) else {
        panic!(rt; "a monoid and an operator of two domains");
    };
    let (nrows, ncols) = a.dims();
    if nrows != 3 || ncols != 3 || u.dims() != 3 {
        panic!(rt; "other dimensions");
    }
    if a.domain() != Domain::Uint64 || u.domain() != Domain::Uint64 {
        panic!(rt; "other domains");
    }
    let output = SparseVector::new(alloc, Domain::Uint64, 3);
    let made = mxv(alloc, &output, None, None, semiring, a, u, PLAIN)?;
    made.entries().collect(alloc)
}

/// The sum of all that the matrix stores, and of all that the vector does.
fn totals(rt: &impl Abort, a: &SparseMatrix, u: &SparseVector) -> (Value, Value)
    requires matrix { a.now.assembled ≡ true }
    requires vector { u.now.assembled ≡ true }
{
    if a.domain() != Domain::Uint64 || u.domain() != Domain::Uint64 {
        panic!(rt; "other domains");
    }
    let of_matrix = reduce_matrix(a, Monoid::Plus);
    (of_matrix, reduce_vector(u, Monoid::Plus))
}

/// The two are as [`calls_of`] makes them.
fn expect_lent(
    rt: &impl Abort,
    alloc: Global,
    a: &SparseMatrix,
    u: &SparseVector,
    of: &'static str,
) -> Result<(), AllocError>
    requires matrix { a.now.assembled ≡ true }
    requires vector { u.now.assembled ≡ true }
{
    let wanted = (Value::Uint64(9), Value::Uint64(16));
    same(rt, totals(rt, a, u), wanted, of);
    let product = product(rt, alloc, a, u)?;
    let wanted = [(0, Value::Uint64(38)), (1, Value::Uint64(24))];
    same(rt, product.as_slice(), &wanted, of);
    let found = text_of(alloc, a);
    same(rt, found.as_deref(), Ok(TEXT.as_bytes()), of);
    Ok(())
}

fn expect_state(
    rt: &impl Abort,
    alloc: Global,
    state: &State,
    of: &'static str,
) -> Result<(), AllocError>
    requires { AreAllAssembled (is_assembled state.now.matrices state.now.vectors) }
{
    match (state.matrix(A), state.vector(U)) {
        (Some(a), Some(u)) => expect_lent(rt, alloc, a, u, of),
        _ => panic!(rt; "{of}: no objects"),
    }
}

/// The first of the results that a table keeps which is a matrix, and the first that is a vector.
fn first_of(table: &Table) -> (Option<&SparseMatrix>, Option<&SparseVector>) {
    let (mut matrix, mut vector) = (None, None);
    for at in 0..table.count() {
        if let Some(content) = table.kept(at) {
            matrix = matrix.or(content.matrix());
            vector = vector.or(content.vector());
        }
    }
    (matrix, vector)
}

/// What an edition has, in which no change waits, though no contract says so.
fn expect_edition(rt: &impl Abort, alloc: Global, calls: &[&Call]) -> Result<(), AllocError> {
    let versions = Versions::open(alloc, 64)?;
    if calls.len() > 64 {
        panic!(rt; "{calls} calls", calls = calls.len());
    }
    versions.offer(calls, results_of(alloc, calls)?, &mut Looked::none())?;
    let mut table = learnt(alloc, calls)?;
    let length = versions.take_into(calls, &mut table, &mut Looked::none());
    same(rt, length, calls.len(), "an edition of so many calls");
    let (Some(a), Some(u)) = first_of(&table) else {
        panic!(rt; "no objects");
    };
    if !a.is_assembled() || !u.is_assembled() {
        panic!(rt; "changes wait");
    }
    expect_lent(rt, alloc, a, u, "an edition")
}

fn expect_values(rt: &impl Abort, alloc: Global, calls: &[&Call]) -> Result<(), AllocError> {
    let a = held_after(rt, alloc, calls, Object::Matrix(A))?;
    let u = held_after(rt, alloc, calls, Object::Vector(U))?;
    match (a.matrix(), u.vector()) {
        (Some(a), Some(u)) => expect_lent(rt, alloc, a, u, "values"),
        _ => panic!(rt; "no values"),
    }
}

#[test]
fn what_is_lent_goes_into_totals_an_operation_and_a_text(
    rt: HostRuntime,
) -> Result<(), AllocError> {
    let calls = calls_of(rt.alloc())?;
    let lent = lent(rt.alloc(), &calls)?;
    let state = replayed(rt.alloc(), &lent)?;
    expect_state(&rt, rt.alloc(), &state, "a replay")?;
    expect_edition(&rt, rt.alloc(), &lent)?;
    expect_values(&rt, rt.alloc(), &lent)
}
