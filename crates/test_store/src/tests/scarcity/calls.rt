//! Calls as a script says them: those that are tried, and those before them.
use crate::tests::same::same;
use grb_call::{Call, MatrixId, Object, VectorId};
use grb_run::call_of;
use grb_script::{Command, NumberedCommand, read_script};
use std::alloc::{AllocError, Global};
use std::process::Abort;

/// Makes vectors and matrices of size 4, one of each at a time: two of numbers, one of truth values, and an empty one of numbers; and one
/// of numbers of size 2. The calls that are tried stand after `finally`: each variant of a call, by `tran` and `tran1` too where they are
/// read, with each kind of function and of test, and a wait in both of its modes.
pub(super) const ALL: &str = "version 3
    vector u uint64 4
    matrix A uint64 4 4
    vector v uint64 4
    matrix B uint64 4 4
    vector m bool 4
    matrix M bool 4 4
    vector e uint64 4
    matrix E uint64 4 4
    vector f uint64 2
    matrix F uint64 2 2
    build u plus 3 1 0 2 3 3
    build A plus 3 1 1 0 2 2 3 1 3
    set v 0 4
    set v 2 5
    set B 0 1 6
    set B 2 3 7
    set m 0 true
    set m 2 true
    set M 0 1 true
    set M 2 3 true
    set e 1 9
    set E 1 1 9
    set F 0 1 6
    set F 1 0 2
    clear e
    clear E
    finally
    vector w uint64 2
    matrix C uint64 2 3
    dup d v
    dup D B
    free u
    free A
    set u 2 8
    set A 2 2 8
    remove u 3
    remove A 3 1
    clear u
    clear A
    resize u 2
    resize A 2 9
    build e plus 3 1 0 2 3 3
    build E plus 3 1 1 0 2 2 3 1 3
    ewiseadd v u v times mask m accum plus
    ewiseadd B A B times mask M accum plus
    ewisemult e u v plus accum plus
    ewisemult E B B plus mask M
    ewiseadd B A B times tran
    ewisemult E B B plus tran
    mxv e B u plus.times mask m
    mxv e B u plus.minus tran
    vxm e u B plus.times mask m
    mxm E A B plus.times
    mxm E A B plus.times mask M tran
    reduce e A plus
    reduce e A plus tran
    ewiseadd B A B times tran1
    ewisemult E B B plus mask M tran tran1
    vxm e u B plus.minus tran1
    mxm E A B plus.times tran1
    mxm E A B plus.times mask M tran tran1
    transpose E B
    transpose E B mask M accum plus tran
    apply E B bnot mask M
    apply E B ainv tran
    apply E B 9 minus accum plus
    apply E B 9 minus tran1
    apply E B minus 1 mask M
    apply E B minus 1 tran
    select E B tril -1 mask M
    select E B rowle 2 tran
    select E B valuegt 6
    select E B valuegt 6 accum plus tran
    kronecker E F F times mask M
    kronecker E F F minus accum plus tran
    kronecker E F F minus tran1
    apply e v bnot mask m
    apply e v 9 minus accum plus
    apply e v minus 1
    select e v rowle 1 mask m
    select e v valuegt 4 accum plus
    diag G v 0
    diag H v -2
    get v 2
    get B 2 3
    nvals v
    nvals B
    size v
    size B
    total v plus
    total B plus
    wait v complete
    wait B complete
    wait v materialize
    wait B materialize
";

/// How many vectors, and how many matrices, it makes first.
pub(super) const OBJECTS: u32 = 5;

/// The size of the largest.
const SIZE: u64 = 4;

/// What the names of a script stand for, in the order of their making: of a vector and a matrix in turn.
const NAMED: [Object; 10] = [
    Object::Vector(VectorId(0)),
    Object::Matrix(MatrixId(0)),
    Object::Vector(VectorId(1)),
    Object::Matrix(MatrixId(1)),
    Object::Vector(VectorId(2)),
    Object::Matrix(MatrixId(2)),
    Object::Vector(VectorId(3)),
    Object::Matrix(MatrixId(3)),
    Object::Vector(VectorId(4)),
    Object::Matrix(MatrixId(4)),
];

/// The call of a statement. A load has none of its own.
fn call_in(command: Command) -> Option<Call> {
    match command {
        Command::Statement(statement) => Some(call_of(&NAMED, statement)),
        Command::Load(_) => None,
    }
}

fn calls_of(alloc: Global, section: Vec<NumberedCommand>) -> Result<Vec<Call>, AllocError> {
    let mut calls = Vec::new(alloc);
    for numbered in section {
        if let Some(call) = call_in(numbered.command) {
            calls.push(call)?;
        }
    }
    Ok(calls)
}

/// The calls of a script before `finally`, and those after it.
pub(super) fn calls_in<R: Abort>(
    rt: &R,
    alloc: Global,
    text: &str,
) -> Result<(Vec<Call>, Vec<Call>), AllocError> {
    let Ok(script) = read_script(alloc, text.as_bytes()) else {
        panic!(rt; "the script has a fault")
    };
    same(rt, script.threads.len(), 0, "the thread sections");
    let first = calls_of(alloc, script.main)?;
    Ok((first, calls_of(alloc, script.finally)?))
}

/// Asks for the dimensions, the count and the entries of all objects, and of the next.
pub(super) fn whole_store(alloc: Global) -> Result<Vec<Call>, AllocError> {
    let mut calls = Vec::new(alloc);
    for at in 0..=OBJECTS {
        let (a, v) = (MatrixId(at), VectorId(at));
        calls.push(Call::SizeMatrix { a })?;
        calls.push(Call::SizeVector { v })?;
        calls.push(Call::NvalsMatrix { a })?;
        calls.push(Call::NvalsVector { v })?;
        for i in 0..SIZE {
            calls.push(Call::GetVector { v, i })?;
            for j in 0..SIZE {
                calls.push(Call::GetMatrix { a, i, j })?;
            }
        }
    }
    Ok(calls)
}
