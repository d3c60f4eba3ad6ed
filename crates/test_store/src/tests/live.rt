//! A store goes on without the numbers of freed objects, as a branch of all objects that a pass says are there: they keep their order, and
//! what is told of their numbers is right. Contracts say which store a branch begins with; none says that there is one where memory and room
//! are at hand, or that a store and its branch, which share what they hold, keep it apart.
ghost use Rattle.std.specs.Prelude.{◌<◌, ◌≤◌, ◌^◌, length};
ghost use Rattle.grb_context.specs.Known.{IsPassOf};

use crate::tests::asked::Asked::{
    BuildVector, FreeMatrix, FreeVector, GetMatrix, GetVector, NewMatrix, NewVector, NvalsMatrix,
    NvalsVector, SetMatrix, SetVector, SizeMatrix, SizeVector, TotalMatrix, TotalVector,
};
use crate::tests::same::same;
use crate::tests::steps::Step::{Asks, Does, Finds, IsAtEnd, Knows, Misses};
use crate::tests::steps::{ROOM, Step, expect_of_next, expect_steps};
use crate::tests::stores::open;
use grb_call::Reply::{Count, Dims, MadeMatrix, MadeVector, Size};
use grb_call::{MatrixId, VectorId};
use grb_context::{Context, LiveObjects, Pass};
use grb_core::Value::{Bool, Uint64};
use grb_core::{Domain, Monoid, Refusal};
use std::alloc::Global;
use std::process::Abort;

const A0: MatrixId = MatrixId(0);

const A1: MatrixId = MatrixId(1);

const A2: MatrixId = MatrixId(2);

const A3: MatrixId = MatrixId(3);

const V0: VectorId = VectorId(0);

const V1: VectorId = VectorId(1);

const V2: VectorId = VectorId(2);

const V3: VectorId = VectorId(3);

const V4: VectorId = VectorId(4);

/// Matrix 1 and the vectors 0 and 2 are freed.
static BEFORE: [Step; 15] = [
    Asks(NewMatrix(Domain::Uint64, 2, 2), Ok(MadeMatrix(A0))),
    Does(SetMatrix(A0, 0, 1, Uint64(5))),
    Asks(NewMatrix(Domain::Uint64, 2, 2), Ok(MadeMatrix(A1))),
    Does(SetMatrix(A1, 0, 1, Uint64(6))),
    Asks(NewMatrix(Domain::Bool, 3, 1), Ok(MadeMatrix(A2))),
    Does(FreeMatrix(A1)),
    Asks(NewVector(Domain::Bool, 1), Ok(MadeVector(V0))),
    Does(SetVector(V0, 0, Bool(true))),
    Does(FreeVector(V0)),
    Asks(NewVector(Domain::Uint64, 11), Ok(MadeVector(V1))),
    Does(BuildVector(V1, Monoid::Plus, &[(10, Uint64(7)), (2, Uint64(0))])),
    Asks(NewVector(Domain::Bool, 2), Ok(MadeVector(V2))),
    Asks(NewVector(Domain::Bool, 13), Ok(MadeVector(V3))),
    Does(SetVector(V3, 12, Bool(false))),
    Does(FreeVector(V2)),
];

static RENUMBERED: [Step; 18] = [
    Knows(7),
    Finds(GetMatrix(A0, 0, 1), Uint64(5)),
    Asks(NvalsMatrix(A0), Ok(Count(1))),
    Asks(SizeMatrix(A0), Ok(Dims(2, 2))),
    Asks(SizeMatrix(A1), Ok(Dims(3, 1))),
    Finds(TotalMatrix(A1, Monoid::Land), Bool(true)),
    Misses(GetMatrix(A2, 0, 0)),
    Asks(SizeVector(V0), Ok(Size(11))),
    Finds(GetVector(V0, 10), Uint64(7)),
    Finds(GetVector(V0, 2), Uint64(0)),
    Asks(NvalsVector(V0), Ok(Count(2))),
    Asks(SizeVector(V1), Ok(Size(13))),
    Finds(GetVector(V1, 12), Bool(false)),
    Asks(NvalsVector(V1), Ok(Count(1))),
    Misses(GetVector(V2, 0)),
    Asks(NewMatrix(Domain::Bool, 1, 1), Ok(MadeMatrix(A2))),
    Asks(NewVector(Domain::Bool, 1), Ok(MadeVector(V2))),
    Does(SetVector(V1, 0, Bool(true))),
];

static AFTER: [Step; 10] = [
    Knows(15),
    Finds(GetMatrix(A0, 0, 1), Uint64(5)),
    Misses(GetMatrix(A1, 0, 1)),
    Finds(TotalMatrix(A2, Monoid::Land), Bool(true)),
    Misses(GetVector(V0, 0)),
    Finds(TotalVector(V1, Monoid::Plus), Uint64(7)),
    Asks(NvalsVector(V3), Ok(Count(1))),
    Finds(GetVector(V3, 12), Bool(false)),
    Asks(NewMatrix(Domain::Bool, 1, 1), Ok(MadeMatrix(A3))),
    Asks(NewVector(Domain::Bool, 1), Ok(MadeVector(V4))),
];

/// What the pass says is there is this, of so many numbers of each sort.
fn expect_live<R: Abort>(
    rt: &R,
    live: &LiveObjects,
    matrices: &[MatrixId],
    vectors: &[VectorId],
    counts: (u32, u32),
) {
    same(rt, live.matrices.as_slice(), matrices, "the matrices");
    same(rt, live.vectors.as_slice(), vectors, "the vectors");
    let told = (live.matrix_count, live.vector_count);
    same(rt, told, counts, "the numbers");
}

/// The pass tells that these objects are there, and a branch of them with room for so many more calls does the steps.
fn go_on_with<R: Abort>(
    rt: &R,
    alloc: Global,
    context: &Context,
    pass: &mut Pass,
    matrices: &[MatrixId],
    vectors: &[VectorId],
    counts: (u32, u32),
    room: u32,
    steps: &[Step],
)
    requires pass { IsPassOf context.now pass.old }
    requires matrices { length matrices.now < 2 ^ 32 }
    requires vectors { length vectors.now < 2 ^ 32 }
    requires room { (0 < room) × (room ≤ 64) }
    ensures { IsPassOf context.now pass.new }
{
    match pass.live(alloc) {
        Ok(live) => expect_live(rt, &live, matrices, vectors, counts),
        Err(_) => panic!(rt; "no memory for the numbers"),
    }
    match context.branch(alloc, pass, matrices, vectors, room, 1) {
        Ok((next, mut passes)) => {
            expect_of_next(rt, alloc, &next, &mut passes, steps);
        }
        Err(none) => panic!(rt; "no branch: {none:?}"),
    }
}

fn tell<R: Abort>(rt: &R, alloc: Global, context: &Context, pass: &mut Pass)
    requires { IsPassOf context.now pass.old }
{
    expect_steps(rt, alloc, context, pass, &BEFORE, 0);
    let counts = (3, 4);
    go_on_with(
        rt,
        alloc,
        context,
        pass,
        &[A0, A2],
        &[V1, V3],
        counts,
        ROOM,
        &RENUMBERED,
    );
    expect_steps(rt, alloc, context, pass, &AFTER, 0);
}

#[test]
fn objects_that_are_there_get_the_next_numbers(rt: HostRuntime) {
    let mut store = open(&rt, rt.alloc(), ROOM);
    tell(&rt, rt.alloc(), &store.context, &mut store.p);
}

/// Nothing is left of what a store of eight calls had.
static FREED: [Step; 10] = [
    Asks(NewVector(Domain::Bool, 1), Ok(MadeVector(V0))),
    Does(FreeVector(V0)),
    Asks(NewVector(Domain::Bool, 1), Ok(MadeVector(V1))),
    Does(FreeVector(V1)),
    Asks(NewVector(Domain::Bool, 1), Ok(MadeVector(V2))),
    Does(FreeVector(V2)),
    Asks(NewVector(Domain::Bool, 1), Ok(MadeVector(V3))),
    Does(FreeVector(V3)),
    IsAtEnd(true),
    Asks(NewVector(Domain::Bool, 1), Err(Refusal::OrderFull)),
];

/// Without the freed numbers no call makes the store, and there is room for three.
static EMPTY: [Step; 6] = [
    Knows(0),
    Asks(NewVector(Domain::Uint64, 2), Ok(MadeVector(V0))),
    Does(SetVector(V0, 0, Uint64(1))),
    IsAtEnd(false),
    Does(SetVector(V0, 1, Uint64(2))),
    IsAtEnd(true),
];

fn tell_of_a_full_one<R: Abort>(rt: &R, alloc: Global, context: &Context, pass: &mut Pass)
    requires { IsPassOf context.now pass.old }
{
    expect_steps(rt, alloc, context, pass, &FREED, 0);
    go_on_with(rt, alloc, context, pass, &[], &[], (0, 4), 3, &EMPTY);
}

#[test]
fn a_full_store_of_freed_numbers_goes_on_without_them(rt: HostRuntime) {
    let mut store = open(&rt, rt.alloc(), 8);
    tell_of_a_full_one(&rt, rt.alloc(), &store.context, &mut store.p);
}

/// The matrix is made anew by two calls, and the vector with no entry by one; the freed number needs none.
const NEEDED: u32 = 3;

static MADE: [Step; 7] = [
    Asks(NewMatrix(Domain::Uint64, 2, 2), Ok(MadeMatrix(A0))),
    Does(SetMatrix(A0, 0, 0, Uint64(1))),
    Does(SetMatrix(A0, 1, 1, Uint64(2))),
    Asks(NewVector(Domain::Uint64, 2), Ok(MadeVector(V0))),
    Does(SetVector(V0, 1, Uint64(3))),
    Does(FreeVector(V0)),
    Asks(NewVector(Domain::Bool, 6), Ok(MadeVector(V1))),
];

/// A branch with room for one call. The vector that is there has the number of the freed one.
static JUST: [Step; 7] = [
    Knows(NEEDED),
    IsAtEnd(false),
    Finds(TotalMatrix(A0, Monoid::Plus), Uint64(3)),
    Asks(SizeVector(V0), Ok(Size(6))),
    Does(SetMatrix(A0, 0, 0, Uint64(8))),
    IsAtEnd(true),
    Asks(SetMatrix(A0, 0, 0, Uint64(9)), Err(Refusal::OrderFull)),
];

static KEPT: [Step; 6] = [
    Knows(7),
    Finds(GetMatrix(A0, 1, 1), Uint64(2)),
    Misses(SizeVector(V0)),
    Does(SetMatrix(A0, 0, 0, Uint64(4))),
    Finds(TotalMatrix(A0, Monoid::Plus), Uint64(6)),
    Knows(8),
];

/// A branch that so many passes share takes as many calls as a store may, next to those that make its objects.
fn expect_room<R: Abort>(
    rt: &R,
    alloc: Global,
    context: &Context,
    pass: &mut Pass,
    room: u32,
    passes: u32,
)
    requires pass { IsPassOf context.now pass.old }
    requires room { (0 < room) × (room ≤ 65536) }
    requires passes { (0 < passes) × (passes ≤ 256) }
    ensures { IsPassOf context.now pass.new }
{
    let left = match context.branch(alloc, pass, &[A0], &[V1], room, passes) {
        Ok((_next, opened)) => match opened.first() {
            Some(first) => Some(first.room_left()),
            None => None,
        },
        Err(_) => None,
    };
    same(rt, left, Some(room), ("the room", room, passes));
}

fn tell_of_rooms<R: Abort>(rt: &R, alloc: Global, context: &Context, pass: &mut Pass)
    requires { IsPassOf context.now pass.old }
{
    expect_steps(rt, alloc, context, pass, &MADE, 0);
    expect_room(rt, alloc, context, pass, 65_536, 1);
    expect_room(rt, alloc, context, pass, 4_096, 256);
    go_on_with(rt, alloc, context, pass, &[A0], &[V1], (1, 2), 1, &JUST);
    expect_steps(rt, alloc, context, pass, &KEPT, 0);
}

/// What makes the objects of a branch does not count against its room.
#[test]
fn a_branch_without_freed_numbers_has_all_the_room_that_a_store_may(rt: HostRuntime) {
    let mut store = open(&rt, rt.alloc(), ROOM);
    tell_of_rooms(&rt, rt.alloc(), &store.context, &mut store.p);
}
