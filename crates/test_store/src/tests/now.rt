//! A branch of the moment that its pass knows, and one of what the store has now.
ghost use Rattle.grb_context.specs.Known.{IsPassOf};

use crate::tests::asked::Asked::{FreeVector, GetVector, NewVector, NvalsVector, SetVector};
use crate::tests::same::same;
use crate::tests::steps::Step::{Asks, Does, Finds, Knows, Misses};
use crate::tests::steps::{ROOM, Step, expect_of_next, expect_steps};
use crate::tests::stores::open;
use grb_call::Reply::{Count, MadeVector};
use grb_call::VectorId;
use grb_context::{Context, Pass};
use grb_core::Domain;
use grb_core::Value::Uint64;
use std::alloc::Global;
use std::process::Abort;

const V: VectorId = VectorId(0);

const GONE: VectorId = VectorId(1);

/// Of the pass that makes branches.
static OWN: [Step; 3] = [
    Asks(NewVector(Domain::Uint64, 3), Ok(MadeVector(V))),
    Asks(NewVector(Domain::Uint64, 2), Ok(MadeVector(GONE))),
    Knows(2),
];

/// Of another one, afterwards.
static OTHERS: [Step; 3] = [
    Does(SetVector(V, 1, Uint64(5))),
    Does(FreeVector(GONE)),
    Knows(4),
];

/// What the pass knew.
static BEFORE: [Step; 3] = [
    Knows(2),
    Asks(NvalsVector(V), Ok(Count(0))),
    Asks(NvalsVector(GONE), Ok(Count(0))),
];

/// What the store has.
static NOW: [Step; 3] = [
    Knows(4),
    Finds(GetVector(V, 1), Uint64(5)),
    Misses(NvalsVector(GONE)),
];

/// The pass knows so many calls, and its last call made so many steps on the order.
fn expect_known<R: Abort>(rt: &R, pass: &Pass, known: u32, steps: u32) {
    same(rt, (pass.known(), pass.steps()), (known, steps), "the pass");
}

fn part<R: Abort>(rt: &R, alloc: Global, context: &Context, pass: &mut Pass)
    requires { IsPassOf context.now pass.old }
    ensures { IsPassOf context.now pass.new }
{
    match context.branch(alloc, pass, &[], &[V, GONE], ROOM, 1) {
        Ok((next, mut passes)) => {
            expect_of_next(rt, alloc, &next, &mut passes, &BEFORE);
        }
        Err(none) => panic!(rt; "no branch: {none:?}"),
    }
}

fn part_now<R: Abort>(rt: &R, alloc: Global, context: &Context, pass: &mut Pass)
    requires { IsPassOf context.now pass.old }
    ensures { IsPassOf context.now pass.new }
{
    match context.branch_now(alloc, pass, &[], &[V, GONE], ROOM, 1) {
        Ok((next, mut passes)) => {
            expect_of_next(rt, alloc, &next, &mut passes, &NOW);
        }
        Err(none) => panic!(rt; "no branch: {none:?}"),
    }
}

/// A branch makes no step on the order. One of what the store has now learns two words, and looks at a third.
fn tell<R: Abort>(rt: &R, alloc: Global, context: &Context, pass: &mut Pass, other: &mut Pass)
    requires own { IsPassOf context.now pass.old }
    requires other { IsPassOf context.now other.old }
{
    expect_steps(rt, alloc, context, pass, &OWN, 0);
    expect_steps(rt, alloc, context, other, &OTHERS, 0);
    part(rt, alloc, context, pass);
    expect_known(rt, pass, 2, 2);
    part_now(rt, alloc, context, pass);
    expect_known(rt, pass, 4, 3);
    part_now(rt, alloc, context, pass);
    expect_known(rt, pass, 4, 1);
}

#[test]
fn a_branch_of_now_has_what_others_entered(rt: HostRuntime) {
    let mut store = open(&rt, rt.alloc(), ROOM);
    tell(&rt, rt.alloc(), &store.context, &mut store.q, &mut store.p);
}
