//! How many calls a table of results makes for a read, which results it keeps, and that tables exchange them: of what objects hold by its
//! calls contracts say all, and none says how often a call is made, that a result is kept, or that memory is there.
ghost use Rattle.std.specs.Prelude.{◌≡◌, ◌+◌, ◌<◌, ◌≤◌, ◌^◌, length, map, IfOk, OnOk};
ghost use Rattle.grb_call.specs.History.{after_all};
ghost use Rattle.grb_call.specs.Store.{empty_store};
ghost use Rattle.grb_results.specs.Kept.{AreReady, IsTableOf};

use crate::operations::{PLAIN, lent};
use crate::same::same;
use grb_call::{Call, MatrixId, Object, VectorId, VectorTuples};
use grb_core::{BinaryOp, Domain, Monoid, Value};
use grb_objects::SharedContent;
use grb_operations::Bench;
use grb_replay::LentCalls;
use grb_results::Table;
use grb_states::State;
use std::alloc::{AllocError, Global};
use std::process::Abort;

/// A step of a script.
#[derive(Drop)]
enum Step {
    /// The call is learnt.
    Learn(Call),
    /// What the object holds is made.
    Read(Object),
    /// Results that nothing needs are dropped.
    Sweep,
    /// All results are dropped.
    Release,
}

/// A table that has learnt the calls, and has made none.
pub(crate) fn learnt(alloc: Global, calls: &[&Call]) -> Result<Table, AllocError>
    requires { length calls.now < 2 ^ 31 }
    ensures { IfOk result (IsTableOf (map (λ c. c.now) calls.now)) }
{
    let mut table = Table::open(alloc);
    table.learn_all(&mut (), &LentCalls { calls }, calls.len())?;
    Ok(table)
}

/// What the object holds after the calls, which the table has learnt.
pub(crate) fn result_of(
    alloc: Global,
    table: &mut Table,
    calls: &[&Call],
    object: Object,
) -> Result<Option<SharedContent>, AllocError>
    requires { IsTableOf (map (λ c. c.now) calls.now) table.old }
    ensures table { IsTableOf (map (λ c. c.now) calls.now) table.new }
    ensures learnt { table.new.learnt ≡ table.old.learnt }
{
    let mut bench = Bench::new(alloc);
    let mut stack = Vec::new(alloc);
    table.result_of(
        &mut bench,
        &mut stack,
        &mut (),
        &LentCalls { calls },
        object,
    )
}

/// Makes what all objects hold after the calls, which the table has learnt, and has all changes done.
pub(crate) fn settle(alloc: Global, table: &mut Table, calls: &[&Call]) -> Result<(), AllocError>
    requires { IsTableOf (map (λ c. c.now) calls.now) table.old }
    ensures table { IsTableOf (map (λ c. c.now) calls.now) table.new }
    ensures ready { OnOk result (AreReady table.new) }
{
    let mut bench = Bench::new(alloc);
    let mut stack = Vec::new(alloc);
    table.settle_all(&mut bench, &mut stack, &mut (), &LentCalls { calls })
}

/// A table that has learnt the calls, and begins with the store that they leave.
pub(crate) fn begun(alloc: Global, calls: &[&Call], state: &State) -> Result<Table, AllocError>
    requires few { length calls.now < 2 ^ 31 }
    requires state { state.now.store ≡ after_all empty_store (map (λ c. c.now) calls.now) }
    ensures { IfOk result (IsTableOf (map (λ c. c.now) calls.now)) }
{
    let mut table = learnt(alloc, calls)?;
    table.begin_with(state);
    Ok(table)
}

/// A table that has learnt the calls, and has the results of another that has.
pub(crate) fn taken(alloc: Global, calls: &[&Call], other: &Table) -> Result<Table, AllocError>
    requires few { length calls.now < 2 ^ 31 }
    requires other { IsTableOf (map (λ c. c.now) calls.now) other.now }
    ensures { IfOk result (IsTableOf (map (λ c. c.now) calls.now)) }
{
    let mut table = learnt(alloc, calls)?;
    table.take_from(other)?;
    Ok(table)
}

/// How many results the table keeps.
fn kept(table: &Table) -> u32 {
    let mut kept: u32 = 0;
    for at in 0..table.count() {
        if table.kept(at).is_some() {
            kept = kept.wrapping_add(1);
        }
    }
    kept
}

/// Learns the call after those that were.
fn learn_next<'a>(
    table: &mut Table,
    done: &mut Vec<&'a Call>,
    call: &'a Call,
) -> Result<(), AllocError>
    requires table { IsTableOf (map (λ c. c.now) done.old.items) table.old }
    requires few { length done.old.items + 1 < 2 ^ 32 }
    ensures table { OnOk result (IsTableOf (map (λ c. c.now) done.new.items) table.new) }
    ensures done { OnOk result (length done.new.items ≡ length done.old.items + 1) }
{
    table.learn(call)?;
    done.push(call)?;
    Ok(())
}

/// Makes what the object of the step holds, or drops results; nothing is learnt.
fn make_or_drop(
    alloc: Global,
    table: &mut Table,
    done: &[&Call],
    step: &Step,
) -> Result<(), AllocError>
    requires { IsTableOf (map (λ c. c.now) done.now) table.old }
    ensures table { IsTableOf (map (λ c. c.now) done.now) table.new }
    ensures learnt { table.new.learnt ≡ table.old.learnt }
{
    match step {
        Step::Learn(_) => {}
        Step::Read(object) => {
            let _made = result_of(alloc, table, done, *object)?;
        }
        Step::Sweep => table.sweep(),
        Step::Release => table.release(),
    }
    Ok(())
}

/// Takes one step, and notes after all but a call how many calls were made so far, and how many results are kept.
fn take_step<'a>(
    alloc: Global,
    table: &mut Table,
    done: &mut Vec<&'a Call>,
    step: &'a Step,
    counts: &mut Vec<(u32, u32)>,
) -> Result<(), AllocError>
    requires table { IsTableOf (map (λ c. c.now) done.old.items) table.old }
    requires few { length done.old.items + 1 < 2 ^ 32 }
    ensures table { OnOk result (IsTableOf (map (λ c. c.now) done.new.items) table.new) }
    ensures few { OnOk result (length done.new.items ≤ length done.old.items + 1) }
{
    if let Step::Learn(call) = step {
        return learn_next(table, done, call);
    }
    make_or_drop(alloc, table, done.as_slice(), step)?;
    counts.push((table.made(), kept(table)))?;
    Ok(())
}

/// What is noted of the steps.
fn counts_of(alloc: Global, steps: &[Step]) -> Result<Vec<(u32, u32)>, AllocError>
    requires { length steps.now < 2 ^ 31 }
{
    let mut done = Vec::with_capacity(alloc, steps.len())?;
    let mut table = Table::open(alloc);
    let mut counts = Vec::new(alloc);
    'steps: for at in 0..steps.len() {
        take_step(alloc, &mut table, &mut done, &steps[at], &mut counts)?;
    }
    Ok(counts)
}

/// After each step but a call, so many calls were made and so many results are kept.
fn counts<R: Abort>(rt: &R, alloc: Global, steps: &[Step]) -> Result<Vec<(u32, u32)>, AllocError> {
    if steps.len() > 20_000 {
        panic!(rt; "{steps} steps", steps = steps.len());
    }
    counts_of(alloc, steps)
}

/// A new matrix.
fn new_matrix() -> Step {
    Step::Learn(Call::NewMatrix {
        domain: Domain::Uint64,
        nrows: 100,
        ncols: 100,
    })
}

/// A set of the first matrix.
fn set_first(at: u64) -> Step {
    Step::Learn(Call::SetMatrix {
        a: MatrixId(0),
        i: at % 100,
        j: at / 100 % 100,
        value: Value::Uint64(at),
    })
}

/// The sum of the first matrix with itself, into the one of this number.
fn sum_into(c: u32) -> Step {
    Step::Learn(Call::EwiseAddMatrix {
        c: MatrixId(c),
        mask: None,
        accum: None,
        op: BinaryOp::Plus,
        a: MatrixId(0),
        b: MatrixId(0),
        d: PLAIN,
    })
}

/// Four turns: the first matrix is changed, eight sums of it are made, and they are read, the last one first.
fn reversed(alloc: Global) -> Result<Vec<Step>, AllocError> {
    let mut steps = Vec::new(alloc);
    for _ in 0..9u32 {
        steps.push(new_matrix())?;
    }
    for turn in 0..4u64 {
        steps.push(set_first(turn))?;
        for c in 1..9u32 {
            steps.push(sum_into(c))?;
        }
        for c in 1..9u32 {
            steps.push(Step::Read(Object::Matrix(MatrixId(9 - c))))?;
        }
    }
    Ok(steps)
}

/// A vector of one entry, behind 10,000 sets of a matrix. It is read, then the matrix, then both again.
fn behind(alloc: Global) -> Result<Vec<Step>, AllocError> {
    let vector = Object::Vector(VectorId(0));
    let matrix = Object::Matrix(MatrixId(0));
    let mut steps = Vec::new(alloc);
    steps.push(new_matrix())?;
    steps.push(Step::Learn(Call::NewVector {
        domain: Domain::Uint64,
        size: 10,
    }))?;
    for at in 0..10_000u64 {
        steps.push(set_first(at))?;
    }
    steps.push(Step::Learn(Call::SetVector {
        v: VectorId(0),
        i: 3,
        value: Value::Uint64(7),
    }))?;
    for object in [vector, matrix, vector, matrix] {
        steps.push(Step::Read(object))?;
    }
    Ok(steps)
}

/// What is noted after the read of this number, from 0.
fn at(counts: &[(u32, u32)], read: usize) -> Option<(u32, u32)> {
    counts.get(read).copied()
}

/// How many calls were made after the read of this number, from 0. How many results are kept then is a matter of when sweeps are due.
fn made_at(counts: &[(u32, u32)], read: usize) -> Option<u32> {
    counts.get(read).map(|noted| noted.0)
}

#[test]
fn results_that_are_read_in_reverse_are_each_made_once(rt: HostRuntime) -> Result<(), AllocError> {
    let mut steps = reversed(rt.alloc())?;
    steps.push(Step::Sweep)?;
    steps.push(Step::Read(Object::Matrix(MatrixId(8))))?;
    steps.push(Step::Release)?;
    steps.push(Step::Read(Object::Matrix(MatrixId(8))))?;
    let counts = counts(&rt, rt.alloc(), &steps)?;
    // The new matrix of which the sums are, a set of it and a sum. What the others held before is not made.
    same(&rt, made_at(&counts, 0), Some(3), "the first read");
    // In each turn the set and eight sums.
    same(&rt, made_at(&counts, 7), Some(10), "the first turn");
    same(&rt, made_at(&counts, 15), Some(19), "the second turn");
    same(&rt, made_at(&counts, 31), Some(37), "the last turn");
    same(&rt, at(&counts, 32), Some((37, 9)), "one for each matrix");
    same(&rt, at(&counts, 33), Some((37, 9)), "a read of one of them");
    same(&rt, at(&counts, 34), Some((37, 0)), "none");
    // The new matrix, four sets and the sum.
    same(&rt, made_at(&counts, 35), Some(43), "all made anew");
    Ok(())
}

#[test]
fn a_read_makes_no_call_on_another_object(rt: HostRuntime) -> Result<(), AllocError> {
    let counts = counts(&rt, rt.alloc(), &behind(rt.alloc())?)?;
    same(&rt, at(&counts, 0), Some((2, 1)), "the vector");
    same(&rt, at(&counts, 1), Some((10_003, 2)), "the matrix");
    same(&rt, at(&counts, 3), Some((10_003, 2)), "both again");
    Ok(())
}

#[test]
fn of_sums_that_are_overwritten_one_is_made(rt: HostRuntime) -> Result<(), AllocError> {
    let mut steps = Vec::new(rt.alloc());
    steps.push(new_matrix())?;
    steps.push(new_matrix())?;
    for turn in 0..100u64 {
        steps.push(set_first(turn))?;
        steps.push(sum_into(1))?;
    }
    steps.push(Step::Read(Object::Matrix(MatrixId(1))))?;
    let counts = counts(&rt, rt.alloc(), &steps)?;
    // The new matrix, 100 sets and the last sum.
    same(&rt, made_at(&counts, 0), Some(102), "one sum");
    Ok(())
}

/// A sum of a matrix is read, the matrix is changed, and what nothing needs is dropped. The matrix is read; then all is dropped, and both are
/// read again.
#[test]
fn what_was_dropped_is_made_once_more(rt: HostRuntime) -> Result<(), AllocError> {
    let (matrix, sum) = (Object::Matrix(MatrixId(0)), Object::Matrix(MatrixId(1)));
    let mut steps = Vec::new(rt.alloc());
    steps.push(new_matrix())?;
    steps.push(new_matrix())?;
    steps.push(set_first(1))?;
    steps.push(sum_into(1))?;
    steps.push(Step::Read(sum))?;
    steps.push(set_first(2))?;
    for step in [Step::Sweep, Step::Read(matrix), Step::Release] {
        steps.push(step)?;
    }
    for object in [matrix, sum, matrix] {
        steps.push(Step::Read(object))?;
    }
    let counts = counts(&rt, rt.alloc(), &steps)?;
    // The new matrix, a set and the sum; then the other set.
    same(&rt, made_at(&counts, 0), Some(3), "the sum");
    same(&rt, made_at(&counts, 2), Some(4), "the matrix");
    // The new matrix and both sets; then the sum alone, of what the first set left.
    same(&rt, made_at(&counts, 4), Some(7), "the matrix anew");
    same(&rt, made_at(&counts, 5), Some(8), "the sum anew");
    same(&rt, made_at(&counts, 6), Some(8), "the matrix again");
    Ok(())
}

/// The first vector at index 0 and 1, after these calls.
fn stored(
    rt: &impl Abort,
    alloc: Global,
    calls: &[Call],
) -> Result<[Option<Value>; 2], AllocError> {
    let lent = lent(alloc, calls)?;
    if lent.len() > 10 {
        panic!(rt; "{calls} calls", calls = lent.len());
    }
    let mut table = learnt(alloc, &lent)?;
    let content = result_of(alloc, &mut table, &lent, Object::Vector(VectorId(0)))?;
    let Some(content) = content else {
        panic!(rt; "no object");
    };
    let Some(vector) = content.vector() else {
        panic!(rt; "no vector");
    };
    Ok([vector.get(0), vector.get(1)])
}

/// A vector of numbers of this size.
fn new_vector(size: u64) -> Call {
    Call::NewVector {
        domain: Domain::Uint64,
        size,
    }
}

/// A build of the first vector: 8 at index 1.
fn build(alloc: Global) -> Result<Call, AllocError> {
    Ok(Call::BuildVector {
        v: VectorId(0),
        tuples: VectorTuples::from_vec(vec![in alloc; (1, Value::Uint64(8))]?)?,
        dup: Monoid::Plus,
    })
}

#[test]
fn a_build_that_entries_refuse_changes_nothing(rt: HostRuntime) -> Result<(), AllocError> {
    let alloc = rt.alloc();
    let (v, five, eight) = (VectorId(0), Some(Value::Uint64(5)), Some(Value::Uint64(8)));
    let set = Call::SetVector {
        v,
        i: 0,
        value: Value::Uint64(5),
    };
    let calls = vec![in alloc; new_vector(2), build(alloc)?]?;
    same(&rt, stored(&rt, alloc, &calls)?, [None, eight], "built");
    let calls = vec![in alloc; new_vector(2), set, build(alloc)?]?;
    same(&rt, stored(&rt, alloc, &calls)?, [five, None], "refused");
    Ok(())
}
