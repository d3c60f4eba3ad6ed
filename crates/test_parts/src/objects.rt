//! Sparse objects at work by hand: what waits in one and what is marked, and objects of the largest dimensions.
//!
//! No contract says how many changes wait after which methods (`pending`), since that is the object's own affair. A contract that holds of
//! the largest dimensions alike says nothing of whether memory then suffices.
ghost use Rattle.std.specs.Prelude.{◌≡◌, true};

use crate::same::same;
use grb_core::{Domain, Value};
use grb_sparse::{SparseMatrix, SparseVector};
use std::alloc::{AllocError, Global};
use std::process::Abort;

/// The last index of the largest dimension.
const LAST: u64 = 4_294_967_294;

fn found_in_matrix(a: &SparseMatrix) -> (Option<Value>, u64, u64) {
    (a.get(2, 2), a.nvals(), a.pending())
}

fn expect_entries(
    rt: &impl Abort,
    alloc: Global,
    a: &SparseMatrix,
    wanted: &[((u64, u64), Value)],
) -> Result<(), AllocError>
    requires { a.now.assembled ≡ true }
{
    let seen: Vec<((u64, u64), Value)> = a.entries().collect(alloc)?;
    same(rt, seen.as_slice(), wanted, "the entries");
    Ok(())
}

#[test]
fn pending_tuples_and_removals_of_a_matrix_are_counted(rt: HostRuntime) -> Result<(), AllocError> {
    let mut a = SparseMatrix::new(rt.alloc(), Domain::Uint64, 3, 3);
    a.reserve_pending(4)?;
    a.set(2, 2, Value::Uint64(8));
    a.set(2, 2, Value::Uint64(9));
    a.remove(2, 2);
    a.set(2, 2, Value::Uint64(0));
    let zero = Some(Value::Uint64(0));
    same(&rt, found_in_matrix(&a), (zero, 1, 4), "four changes");
    a.assemble()?;
    same(&rt, found_in_matrix(&a), (zero, 1, 0), "none that waits");
    a.reserve_pending(2)?;
    a.remove(2, 2);
    a.set(0, 1, Value::Uint64(4));
    same(&rt, found_in_matrix(&a), (None, 1, 1), "a mark and a tuple");
    a.resize(2, 2)?;
    a.assemble()?;
    expect_entries(&rt, rt.alloc(), &a, &[((0, 1), Value::Uint64(4))])
}

fn found_in_vector(v: &SparseVector) -> (Option<Value>, u64, u64) {
    (v.get(8), v.nvals(), v.pending())
}

#[test]
fn pending_tuples_and_removals_of_a_vector_are_counted(rt: HostRuntime) -> Result<(), AllocError> {
    let mut v = SparseVector::new(rt.alloc(), Domain::Uint64, 9);
    v.reserve_pending(4)?;
    v.set(8, Value::Uint64(8));
    v.set(8, Value::Uint64(9));
    v.remove(8);
    v.set(8, Value::Uint64(0));
    let zero = Some(Value::Uint64(0));
    same(&rt, found_in_vector(&v), (zero, 1, 4), "four changes");
    v.assemble()?;
    same(&rt, found_in_vector(&v), (zero, 1, 0), "none that waits");
    v.reserve_pending(2)?;
    v.remove(8);
    v.set(1, Value::Uint64(4));
    same(&rt, found_in_vector(&v), (None, 1, 1), "a mark and a tuple");
    v.resize(5)?;
    v.assemble()?;
    let seen: Vec<(u64, Value)> = v.entries().collect(rt.alloc())?;
    same(
        &rt,
        seen.as_slice(),
        &[(1, Value::Uint64(4))],
        "the entries",
    );
    Ok(())
}

#[test]
fn the_last_row_and_column_hold_entries(rt: HostRuntime) -> Result<(), AllocError> {
    let mut a = SparseMatrix::new(rt.alloc(), Domain::Bool, 4_294_967_295, 4_294_967_295);
    a.reserve_pending(3)?;
    a.set(LAST, LAST, Value::Bool(false));
    a.set(LAST, 0, Value::Bool(true));
    a.set(0, LAST, Value::Bool(true));
    a.assemble()?;
    let (yes, no) = (Value::Bool(true), Value::Bool(false));
    let all = [((0, LAST), yes), ((LAST, 0), yes), ((LAST, LAST), no)];
    expect_entries(&rt, rt.alloc(), &a, &all)?;
    a.resize(4_294_967_295, LAST)?;
    expect_entries(&rt, rt.alloc(), &a, &[((LAST, 0), yes)])
}

#[test]
fn the_last_index_of_a_vector_holds_an_entry(rt: HostRuntime) -> Result<(), AllocError> {
    let mut v = SparseVector::new(rt.alloc(), Domain::Uint64, 4_294_967_295);
    v.reserve_pending(2)?;
    v.set(LAST, Value::Uint64(7));
    v.set(0, Value::Uint64(0));
    v.assemble()?;
    let seen: Vec<(u64, Value)> = v.entries().collect(rt.alloc())?;
    let wanted = [(0, Value::Uint64(0)), (LAST, Value::Uint64(7))];
    same(&rt, seen.as_slice(), &wanted, "the entries");
    Ok(())
}
