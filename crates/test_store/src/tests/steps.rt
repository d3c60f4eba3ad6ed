//! What a pass does, and what is seen of it, as tables.
ghost use Rattle.std.specs.Prelude.{All};
ghost use Rattle.grb_context.specs.Known.{IsPassOf};

use crate::tests::asked::{Asked, ask};
use crate::tests::same::same;
use crate::tests::stores::{Answer, next_pass};
use grb_call::Reply;
use grb_context::{Context, Pass};
use grb_core::{Refusal, Value};
use std::alloc::Global;
use std::process::Abort;

/// How many calls a store and its successor take.
pub(super) const ROOM: u32 = 64;

/// What a pass does, or what is seen of it.
#[derive(Clone, Copy, Debug)]
pub(super) enum Step {
    /// It makes the call, which is answered `Done`.
    Does(Asked),
    /// It makes the call, and this value is the answer.
    Finds(Asked, Value),
    /// It makes the call, and this is the answer.
    Asks(Asked, Answer),
    /// It makes the call, which is refused because the object was freed or never made.
    Misses(Asked),
    /// It knows so many calls.
    Knows(u32),
    /// Whether its history is full, and it knows all of it.
    IsAtEnd(bool),
}

/// Where a step stands: the store, of which the first is 0 and its successor 1, and the row of the table, from 0.
#[derive(Clone, Copy, Debug)]
struct Place {
    store: u32,
    row: usize,
}

/// Makes a call, whose answer is what was wanted.
fn expect_answer<R: Abort>(
    rt: &R,
    alloc: Global,
    context: &Context,
    pass: &mut Pass,
    asked: Asked,
    wanted: Answer,
    place: Place,
)
    requires { IsPassOf context.now pass.old }
    ensures { IsPassOf context.now pass.new }
{
    let answer = ask(alloc, context, pass, asked);
    same(rt, answer, wanted, (place, asked));
}

/// What is seen of the pass is what was wanted.
fn expect_seen<R: Abort>(rt: &R, pass: &Pass, step: Step, place: Place) {
    let of = (place, step);
    match step {
        Step::Knows(calls) => same(rt, pass.known(), calls, of),
        Step::IsAtEnd(is_at_end) => same(rt, pass.is_at_end(), is_at_end, of),
        _ => {}
    }
}

/// Makes the step.
fn expect_step<R: Abort>(
    rt: &R,
    alloc: Global,
    context: &Context,
    pass: &mut Pass,
    step: Step,
    place: Place,
)
    requires { IsPassOf context.now pass.old }
    ensures { IsPassOf context.now pass.new }
{
    let (asked, wanted) = match step {
        Step::Does(asked) => (asked, Ok(Reply::Done)),
        Step::Finds(asked, value) => (asked, Ok(Reply::Value(value))),
        Step::Asks(asked, answer) => (asked, answer),
        Step::Misses(asked) => (asked, Err(Refusal::UninitializedObject)),
        _ => {
            expect_seen(rt, pass, step, place);
            return;
        }
    };
    expect_answer(rt, alloc, context, pass, asked, wanted, place);
}

/// Makes the steps, by a pass of this store.
pub(super) fn expect_steps<R: Abort>(
    rt: &R,
    alloc: Global,
    context: &Context,
    pass: &mut Pass,
    steps: &[Step],
    store: u32,
)
    requires { IsPassOf context.now pass.old }
    ensures { IsPassOf context.now pass.new }
{
    'steps: for (row, step) in steps.iter().enumerate() {
        expect_step(rt, alloc, context, pass, *step, Place { store, row });
    }
}

/// Makes the steps, by the only pass of a successor.
pub(super) fn expect_of_next<R: Abort>(
    rt: &R,
    alloc: Global,
    context: &Context,
    passes: &mut Vec<Pass>,
    steps: &[Step],
)
    requires { All (IsPassOf context.now) passes.old.items }
    ensures { All (IsPassOf context.now) passes.new.items }
{
    let mut pass = next_pass(rt, context, passes);
    same(rt, pass.number(), 0, "the number of a pass");
    expect_steps(rt, alloc, context, &mut pass, steps, 1);
}
