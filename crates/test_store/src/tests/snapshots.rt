//! Snapshots. A contract says what one is of, and none that it is shared and not copied; and that one which is kept stays what it was is
//! Rust's own promise of what stands behind an `Arc`, and worth a look.
ghost use Rattle.std.specs.Prelude.{◌≡◌, IfOk, true};
ghost use Rattle.grb_context.specs.Known.{IsPassOf};

use crate::tests::same::same;
use grb_call::MatrixId;
use grb_context::{Context, Pass};
use grb_core::{Domain, Refusal, Value};
use grb_sparse::SparseMatrix;
use std::process::Abort;
use std::sync::Arc;
use std::test::Fail;

type Entry = ((u64, u64), Value);

const FIVE: Entry = ((0, 1), Value::Uint64(5));

const SIX: Entry = ((0, 1), Value::Uint64(6));

const SEVEN: Entry = ((2, 2), Value::Uint64(7));

/// The matrix has just these entries.
fn expect<R: Abort>(rt: &R, matrix: &SparseMatrix, wanted: &[Entry], of: &'static str)
    requires { matrix.now.assembled ≡ true }
{
    same(rt, matrix.nvals(), wanted.len() as u64, of);
    let mut at = 0usize;
    'entries: for entry in matrix.entries() {
        same(rt, Some(entry), wanted.get(at).copied(), of);
        at = at.wrapping_add(1);
    }
}

/// Keeps a snapshot.
fn keep(context: &Context, pass: &mut Pass, a: MatrixId) -> Result<Arc<SparseMatrix>, Fail>
    requires { IsPassOf context.now pass.old }
    ensures pass { IsPassOf context.now pass.new }
    ensures assembled { IfOk result (λ kept. kept.value.assembled ≡ true) }
{
    Ok(context.snapshot_matrix(pass, a)?)
}

/// Stores an entry.
fn set(context: &Context, pass: &mut Pass, a: MatrixId, entry: Entry) -> Result<(), Refusal>
    requires { IsPassOf context.now pass.old }
    ensures { IsPassOf context.now pass.new }
{
    let ((i, j), value) = entry;
    context.set_matrix(pass, a, i, j, value)?;
    Ok(())
}

/// Makes a matrix with two entries.
fn make(context: &Context, pass: &mut Pass) -> Result<MatrixId, Refusal>
    requires { IsPassOf context.now pass.old }
    ensures { IsPassOf context.now pass.new }
{
    let made = context.new_matrix(pass, Domain::Uint64, 3, 3)?;
    let a = made.matrix().unwrap();
    set(context, pass, a, FIVE)?;
    set(context, pass, a, SEVEN)?;
    Ok(a)
}

/// Keeps snapshots while the matrix changes, and is freed.
fn expect_kept<R: Abort>(rt: &R, context: &Context, pass: &mut Pass) -> Result<(), Fail>
    requires { IsPassOf context.now pass.old }
{
    let a = make(context, pass)?;
    let first = keep(context, pass, a)?;
    let again = keep(context, pass, a)?;
    same(
        rt,
        Arc::strong_count(&first) > 2,
        true,
        "those that share it",
    );
    set(context, pass, a, SIX)?;
    let now = keep(context, pass, a)?;
    context.free_matrix(pass, a)?;
    expect(rt, &first, &[FIVE, SEVEN], "the first");
    expect(rt, &again, &[FIVE, SEVEN], "the same again");
    expect(rt, &now, &[SIX, SEVEN], "the last");
    let gone = context.snapshot_matrix(pass, a).err();
    same(
        rt,
        gone,
        Some(Refusal::UninitializedObject),
        "one that is freed",
    );
    Ok(())
}

#[test]
fn a_snapshot_that_is_kept_stays_what_it_was(rt: HostRuntime) -> Result<(), Fail> {
    let (context, mut passes) = Context::open(rt.alloc(), 64, 1)?;
    let mut pass = passes.remove(0);
    expect_kept(&rt, &context, &mut pass)
}
