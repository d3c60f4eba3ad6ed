//! Stores with two passes.
ghost use Rattle.std.specs.Prelude.{◌<◌, ◌≤◌, All};
ghost use Rattle.grb_order.specs.declared.limits.TheConstants.{MOST_ROOM};
ghost use Rattle.grb_context.specs.Known.{IsPassOf};

use crate::tests::same::same;
use grb_call::{Call, Reply};
use grb_context::{Context, Pass};
use grb_core::Refusal;
use std::alloc::Global;
use std::process::Abort;

pub(super) type Answer = Result<Reply, Refusal>;

pub(super) const DONE: Answer = Ok(Reply::Done);

pub(super) const NO_VALUE: Answer = Ok(Reply::NoValue);

pub(super) const BAD_INDEX: Answer = Err(Refusal::InvalidIndex);

pub(super) const NO_MEMORY: Answer = Err(Refusal::OutOfMemory);

/// A store, and its two passes.
#[derive(Drop)]
pub(super) struct Store {
    pub(super) context: Context,
    pub(super) p: Pass,
    pub(super) q: Pass,
}

pub(super) fn copy_of(rt: &impl Abort, call: &Call) -> Call {
    let Ok(call) = call.try_clone() else {
        panic!(rt; "no memory for the call")
    };
    call
}

/// The pass of the highest number of those that are left.
pub(super) fn next_pass(rt: &impl Abort, context: &Context, passes: &mut Vec<Pass>) -> Pass
    requires { All (IsPassOf context.now) passes.old.items }
    ensures pass { IsPassOf context.now result }
    ensures rest { All (IsPassOf context.now) passes.new.items }
{
    let Some(pass) = passes.pop() else {
        panic!(rt; "no pass is left")
    };
    pass
}

/// A context with the two passes that are left of it.
pub(super) fn with_two(rt: &impl Abort, context: Context, passes: Vec<Pass>) -> Store
    requires { All (IsPassOf context) passes.items }
    ensures p { IsPassOf result.context result.p }
    ensures q { IsPassOf result.context result.q }
{
    let mut passes = passes;
    let q = next_pass(rt, &context, &mut passes);
    let p = next_pass(rt, &context, &mut passes);
    Store { context, p, q }
}

/// A new store with this room. One function opens the stores of many tests, since what a store and its passes own is dear to follow.
pub(super) fn open(rt: &impl Abort, alloc: Global, room: u32) -> Store
    requires { (0 < room) × (room ≤ MOST_ROOM) }
    ensures p { IsPassOf result.context result.p }
    ensures q { IsPassOf result.context result.q }
{
    let Ok((context, passes)) = Context::open(alloc, room, 2) else {
        panic!(rt; "no memory for the store")
    };
    with_two(rt, context, passes)
}

/// The answers to these calls, in order.
pub(super) fn answers_to(
    rt: &impl Abort,
    context: &Context,
    pass: &mut Pass,
    calls: &[Call],
) -> Vec<Answer>
    requires { IsPassOf context.now pass.old }
    ensures { IsPassOf context.now pass.new }
{
    let Ok(answers) = context.run(pass, calls) else {
        panic!(rt; "no memory for the answers")
    };
    answers
}

/// Makes these calls, of which none is refused.
pub(super) fn make_all<R: Abort>(rt: &R, context: &Context, pass: &mut Pass, calls: &[Call])
    requires { IsPassOf context.now pass.old }
    ensures { IsPassOf context.now pass.new }
{
    let answers = answers_to(rt, context, pass, calls);
    for (at, answer) in answers.iter().enumerate() {
        same(rt, answer.is_ok(), true, ("call", at, *answer));
    }
}
