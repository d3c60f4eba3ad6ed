//! Drawn histories: what each object holds by only the calls that it depends on, by results in a table, and in a replay, entry by entry and
//! as a text, against the whole store; and each call against its copy.
//!
//! A contract says that all hold the same, by one definition of what a call does, and nothing says that memory suffices for any, or that a
//! table which is given results makes no call.
ghost use Rattle.std.specs.Prelude.{◌≡◌, ◌<◌, ◌^◌, true, length, map};
ghost use Rattle.grb_results.specs.Kept.{AreReady, IsTableOf};
ghost use Rattle.grb_states.specs.Settled.{AreAllAssembled};
ghost use Rattle.grb_states.specs.State.{is_assembled};

use crate::drawn_calls::drawn_history;
use crate::operations::lent;
use crate::results::{begun, learnt, result_of, settle, taken};
use crate::same::same;
use crate::stores::{Answer, answer, applied, replayed};
use crate::texts::text_of;
use crate::values::held_after;
use grb_call::{Call, MatrixId, Object, Reply, VectorId};
use grb_core::{Domain, Refusal, Value};
use grb_drawn::Draw;
use grb_market::WriteFault;
use grb_results::Table;
use grb_sparse::{SparseMatrix, SparseVector};
use grb_states::State;
use std::alloc::{AllocError, Global};
use std::process::Abort;

/// How many histories are drawn.
const HISTORIES: u32 = 500;

/// What is answered to a get in this matrix, as it is in a store.
fn answer_in_matrix(matrix: Option<&SparseMatrix>, i: u64, j: u64) -> Answer {
    let Some(matrix) = matrix else {
        return Err(Refusal::UninitializedObject);
    };
    let (nrows, ncols) = matrix.dims();
    if i >= nrows || j >= ncols {
        return Err(Refusal::InvalidIndex);
    }
    Ok(get_reply(matrix.get(i, j)))
}

/// What is answered to a get in this vector, as it is in a store.
fn answer_in_vector(vector: Option<&SparseVector>, i: u64) -> Answer {
    let Some(vector) = vector else {
        return Err(Refusal::UninitializedObject);
    };
    if i >= vector.dims() {
        return Err(Refusal::InvalidIndex);
    }
    Ok(get_reply(vector.get(i)))
}

fn get_reply(value: Option<Value>) -> Reply {
    match value {
        Some(value) => Reply::Value(value),
        None => Reply::NoValue,
    }
}

/// What is answered to how many entries an object stores, as it is in a store.
fn answer_of_count(nvals: Option<u64>) -> Answer {
    match nvals {
        Some(nvals) => Ok(Reply::Count(nvals)),
        None => Err(Refusal::UninitializedObject),
    }
}

/// The matrix, which has at most eight rows and columns, is as the store answers. What it stores there, row by row. A diagonal makes more
/// than five.
fn same_matrix(
    rt: &impl Abort,
    alloc: Global,
    matrix: Option<&SparseMatrix>,
    store: &mut State,
    a: MatrixId,
) -> Result<Vec<((u64, u64), Value)>, AllocError> {
    let mut entries = Vec::new(alloc);
    for place in 0..64 {
        let (i, j) = (place / 8, place % 8);
        let wanted = answer(store, &Call::GetMatrix { a, i, j })?;
        same(rt, answer_in_matrix(matrix, i, j), wanted, (a, i, j));
        if let Ok(Reply::Value(value)) = wanted {
            entries.push(((i, j), value))?;
        }
    }
    let nvals = answer_of_count(matrix.map(|matrix| matrix.nvals()));
    let wanted = answer(store, &Call::NvalsMatrix { a })?;
    same(rt, nvals, wanted, ("the entries of", a));
    Ok(entries)
}

/// The vector, which has at most size five, is as the store answers. What it stores there, in the order of the indices.
fn same_vector(
    rt: &impl Abort,
    alloc: Global,
    vector: Option<&SparseVector>,
    store: &mut State,
    v: VectorId,
) -> Result<Vec<(u64, Value)>, AllocError> {
    let mut entries = Vec::new(alloc);
    for i in 0..5 {
        let wanted = answer(store, &Call::GetVector { v, i })?;
        same(rt, answer_in_vector(vector, i), wanted, (v, i));
        if let Ok(Reply::Value(value)) = wanted {
            entries.push((i, value))?;
        }
    }
    let nvals = answer_of_count(vector.map(|vector| vector.nvals()));
    let wanted = answer(store, &Call::NvalsVector { v })?;
    same(rt, nvals, wanted, ("the entries of", v));
    Ok(entries)
}

/// The text of a matrix by hand: none where a false is stored.
fn wanted_text(
    alloc: Global,
    domain: Domain,
    (nrows, ncols): (u64, u64),
    entries: &[((u64, u64), Value)],
) -> Result<Option<String>, AllocError> {
    let field = match domain {
        Domain::Bool => "pattern",
        Domain::Uint64 => "integer",
    };
    let nvals = entries.len();
    let mut text = format!(in alloc;
        "%%MatrixMarket matrix coordinate {field} general\n{nrows} {ncols} {nvals}\n"
    )?;
    for ((i, j), value) in entries {
        let (row, column) = (i.wrapping_add(1), j.wrapping_add(1));
        match value {
            Value::Bool(false) => return Ok(None),
            Value::Bool(true) => write!(text, "{row} {column}\n")?,
            Value::Uint64(n) => write!(text, "{row} {column} {n}\n")?,
        }
    }
    Ok(Some(text))
}

/// The matrix is passed over entry by entry, and written as a text, as these entries say.
fn expect_matrix(
    rt: &impl Abort,
    alloc: Global,
    matrix: &SparseMatrix,
    entries: &[((u64, u64), Value)],
    a: MatrixId,
) -> Result<(), AllocError>
    requires { matrix.now.assembled ≡ true }
{
    let seen: Vec<((u64, u64), Value)> = matrix.entries().collect(alloc)?;
    same(rt, seen.as_slice(), entries, a);
    let found = text_of(alloc, matrix);
    match wanted_text(alloc, matrix.domain(), matrix.dims(), entries)? {
        Some(text) => same(rt, found.as_deref(), Ok(text.as_bytes()), a),
        None => same(rt, found.err(), Some(WriteFault::NotPattern), a),
    }
    Ok(())
}

/// The vector is passed over entry by entry as these entries say.
fn expect_vector(
    rt: &impl Abort,
    alloc: Global,
    vector: &SparseVector,
    entries: &[(u64, Value)],
    v: VectorId,
) -> Result<(), AllocError>
    requires { vector.now.assembled ≡ true }
{
    let seen: Vec<(u64, Value)> = vector.entries().collect(alloc)?;
    same(rt, seen.as_slice(), entries, v);
    Ok(())
}

fn same_held_matrix(
    rt: &impl Abort,
    alloc: Global,
    calls: &[&Call],
    store: &mut State,
    a: MatrixId,
) -> Result<(), AllocError> {
    let held = held_after(rt, alloc, calls, Object::Matrix(a))?;
    let entries = same_matrix(rt, alloc, held.matrix(), store, a)?;
    match held.matrix() {
        Some(matrix) => expect_matrix(rt, alloc, matrix, &entries, a),
        None => Ok(()),
    }
}

fn same_held_vector(
    rt: &impl Abort,
    alloc: Global,
    calls: &[&Call],
    store: &mut State,
    v: VectorId,
) -> Result<(), AllocError> {
    let held = held_after(rt, alloc, calls, Object::Vector(v))?;
    let entries = same_vector(rt, alloc, held.vector(), store, v)?;
    match held.vector() {
        Some(vector) => expect_vector(rt, alloc, vector, &entries, v),
        None => Ok(()),
    }
}

fn same_replayed_matrix(
    rt: &impl Abort,
    alloc: Global,
    whole: &State,
    store: &mut State,
    a: MatrixId,
) -> Result<(), AllocError>
    requires { AreAllAssembled (is_assembled whole.now.matrices whole.now.vectors) }
{
    let entries = same_matrix(rt, alloc, whole.matrix(a), store, a)?;
    match whole.matrix(a) {
        Some(matrix) => expect_matrix(rt, alloc, matrix, &entries, a),
        None => Ok(()),
    }
}

fn same_replayed_vector(
    rt: &impl Abort,
    alloc: Global,
    whole: &State,
    store: &mut State,
    v: VectorId,
) -> Result<(), AllocError>
    requires { AreAllAssembled (is_assembled whole.now.matrices whole.now.vectors) }
{
    let entries = same_vector(rt, alloc, whole.vector(v), store, v)?;
    match whole.vector(v) {
        Some(vector) => expect_vector(rt, alloc, vector, &entries, v),
        None => Ok(()),
    }
}

/// Compares each object that the calls make, and of each sort the next, which they do not make: as it is held by itself, and as it is in
/// the replay of all calls, with what a store answers in which changes wait.
fn same_as_whole(rt: &impl Abort, alloc: Global, calls: &[&Call]) -> Result<(), AllocError> {
    let whole = replayed(alloc, calls)?;
    let mut store = applied(alloc, calls)?;
    for v in 0..=store.vectors() {
        same_held_vector(rt, alloc, calls, &mut store, VectorId(v))?;
        same_replayed_vector(rt, alloc, &whole, &mut store, VectorId(v))?;
    }
    for a in 0..=store.matrices() {
        same_held_matrix(rt, alloc, calls, &mut store, MatrixId(a))?;
        same_replayed_matrix(rt, alloc, &whole, &mut store, MatrixId(a))?;
    }
    Ok(())
}

// ---- by tables

/// The vector is by the table, which has learnt the calls, as the store answers.
fn same_made_vector(
    rt: &impl Abort,
    alloc: Global,
    table: &mut Table,
    calls: &[&Call],
    store: &mut State,
    v: VectorId,
) -> Result<(), AllocError>
    requires { IsTableOf (map (λ c. c.now) calls.now) table.old }
    ensures { IsTableOf (map (λ c. c.now) calls.now) table.new }
{
    let content = result_of(alloc, table, calls, Object::Vector(v))?;
    match &content {
        Some(content) => same_vector(rt, alloc, content.vector(), store, v)?,
        None => same_vector(rt, alloc, None, store, v)?,
    };
    Ok(())
}

/// The matrix is by the table, which has learnt the calls, as the store answers.
fn same_made_matrix(
    rt: &impl Abort,
    alloc: Global,
    table: &mut Table,
    calls: &[&Call],
    store: &mut State,
    a: MatrixId,
) -> Result<(), AllocError>
    requires { IsTableOf (map (λ c. c.now) calls.now) table.old }
    ensures { IsTableOf (map (λ c. c.now) calls.now) table.new }
{
    let content = result_of(alloc, table, calls, Object::Matrix(a))?;
    match &content {
        Some(content) => same_matrix(rt, alloc, content.matrix(), store, a)?,
        None => same_matrix(rt, alloc, None, store, a)?,
    };
    Ok(())
}

/// Each object is by the table, which has learnt the calls, as the store answers. How many calls it has made then.
fn same_by_table(
    rt: &impl Abort,
    alloc: Global,
    table: &mut Table,
    calls: &[&Call],
    store: &mut State,
) -> Result<u32, AllocError>
    requires { IsTableOf (map (λ c. c.now) calls.now) table.old }
    ensures { IsTableOf (map (λ c. c.now) calls.now) table.new }
{
    let (vectors, matrices) = (store.vectors(), store.matrices());
    'vectors: for v in 0..vectors {
        same_made_vector(rt, alloc, table, calls, store, VectorId(v))?;
    }
    'matrices: for a in 0..matrices {
        same_made_matrix(rt, alloc, table, calls, store, MatrixId(a))?;
    }
    Ok(table.made())
}

/// Each object of the state, in which no change waits, is as the store answers.
fn same_state(
    rt: &impl Abort,
    alloc: Global,
    whole: &State,
    store: &mut State,
) -> Result<(), AllocError>
    requires { AreAllAssembled (is_assembled whole.now.matrices whole.now.vectors) }
{
    for v in 0..=store.vectors() {
        same_replayed_vector(rt, alloc, whole, store, VectorId(v))?;
    }
    for a in 0..=store.matrices() {
        same_replayed_matrix(rt, alloc, whole, store, MatrixId(a))?;
    }
    Ok(())
}

/// Tables that begin with the state of one, or take its results, make no call.
fn same_given(
    rt: &impl Abort,
    alloc: Global,
    table: &Table,
    calls: &[&Call],
    store: &mut State,
) -> Result<(), AllocError>
    requires few { length calls.now < 2 ^ 31 }
    requires table { IsTableOf (map (λ c. c.now) calls.now) table.now }
    requires ready { AreReady table.now }
{
    let state = table.state()?;
    same_state(rt, alloc, &state, store)?;
    let mut begun = begun(alloc, calls, &state)?;
    let made = same_by_table(rt, alloc, &mut begun, calls, store)?;
    same(rt, made, 0, "begun with a state");
    let mut taken = taken(alloc, calls, table)?;
    let made = same_by_table(rt, alloc, &mut taken, calls, store)?;
    same(rt, made, 0, "with results of another table");
    Ok(())
}

/// Each object is by tables of the calls as in a store in which changes wait: made one by one; settled, where no other call is made; given to
/// others; and after all that nothing needs was dropped, and then all.
fn same_by_tables(rt: &impl Abort, alloc: Global, calls: &[&Call]) -> Result<(), AllocError> {
    let mut store = applied(alloc, calls)?;
    if calls.len() > 10_000 {
        panic!(rt; "{calls} calls", calls = calls.len());
    }
    let mut table = learnt(alloc, calls)?;
    let made = same_by_table(rt, alloc, &mut table, calls, &mut store)?;
    settle(alloc, &mut table, calls)?;
    same_given(rt, alloc, &table, calls, &mut store)?;
    sweep(&mut table, calls);
    let again = same_by_table(rt, alloc, &mut table, calls, &mut store)?;
    same(rt, again, made, "swept");
    release(&mut table, calls);
    let anew = same_by_table(rt, alloc, &mut table, calls, &mut store)?;
    same(rt, anew > made, true, "released");
    Ok(())
}

/// Drops the results that nothing needs.
fn sweep(table: &mut Table, calls: &[&Call])
    requires { IsTableOf (map (λ c. c.now) calls.now) table.old }
    ensures { IsTableOf (map (λ c. c.now) calls.now) table.new }
{
    table.sweep();
}

/// Drops all results.
fn release(table: &mut Table, calls: &[&Call])
    requires { IsTableOf (map (λ c. c.now) calls.now) table.old }
    ensures { IsTableOf (map (λ c. c.now) calls.now) table.new }
{
    table.release();
}

fn same_copies(rt: &impl Abort, calls: &[Call]) -> Result<(), AllocError> {
    for (at, call) in calls.iter().enumerate() {
        let copy = call.try_clone()?;
        assert!(rt; copy == *call, "the copy of call {at}");
    }
    Ok(())
}

fn expect_drawn(rt: &impl Abort, alloc: Global, draw: &mut Draw) -> Result<(), AllocError> {
    let calls = drawn_history(rt, alloc, draw)?;
    same_copies(rt, &calls)?;
    let lent = lent(alloc, &calls)?;
    same_as_whole(rt, alloc, &lent)
}

#[test]
fn an_object_holds_what_it_holds_in_the_whole_store(rt: HostRuntime) -> Result<(), AllocError> {
    let mut draw = Draw { state: 40_200 };
    for _ in 0..HISTORIES {
        expect_drawn(&rt, rt.alloc(), &mut draw)?;
    }
    Ok(())
}

/// How many histories are drawn for tables.
const OF_TABLES: u32 = 30;

#[test]
fn tables_hold_what_the_whole_store_holds(rt: HostRuntime) -> Result<(), AllocError> {
    let mut draw = Draw { state: 40_201 };
    for _ in 0..OF_TABLES {
        let calls = drawn_history(&rt, rt.alloc(), &mut draw)?;
        same_by_tables(&rt, rt.alloc(), &lent(rt.alloc(), &calls)?)?;
    }
    Ok(())
}
