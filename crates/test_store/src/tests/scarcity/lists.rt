//! Lists of one call with ever more memory, from none on, each time in a store of its own, until the list is not refused; and one of some
//! calls without any. A refused list leaves all as it was, and is then made once more with ample memory.
ghost use Rattle.grb_context.specs.Known.{IsPassOf};

use crate::tests::same::same;
use crate::tests::scarcity::calls::{ALL, calls_in, whole_store};
use crate::tests::scarcity::memory::{STEP, TRIALS, hold_all, leave, leave_ample};
use crate::tests::scarcity::shown::Shown;
use crate::tests::stores::{
    Answer, BAD_INDEX, DONE, NO_MEMORY, answers_to, copy_of, make_all, open,
};
use grb_call::{Call, Reply, VectorId};
use grb_context::{Context, Pass};
use grb_core::{Refusal, Value};
use grb_scarcity::{Hoard, SPARE};
use std::alloc::{AllocError, Global};
use std::fs::Files;
use std::process::Abort;
use std::test::Fail;

/// How many calls the stores take.
const ROOM: u32 = 96;

/// How many spares a list is tried with: each trial uses three.
const SPARES: usize = 3 * TRIALS + 10;

/// What a trial came to.
#[derive(Drop)]
struct Trial {
    is_refused: bool,
    answer: Answer,
    // What the store holds afterwards.
    held: Vec<Answer>,
}

/// The calls of all trials: those before the one that is tried, those that are tried, and those that look at the whole store.
#[derive(Drop)]
struct Frame {
    history: Vec<Call>,
    tried: Vec<Call>,
    whole: Vec<Call>,
}

/// Makes the call as a list. `None` where the list is refused, and so the call not made.
fn make(context: &Context, pass: &mut Pass, call: Call) -> Option<Answer>
    requires { IsPassOf context.now pass.old }
    ensures { IsPassOf context.now pass.new }
{
    match context.run(pass, &[call]) {
        Ok(answers) => Some(answers.first().copied().unwrap_or(Err(Refusal::Panic))),
        Err(_) => None,
    }
}

/// Makes the list of the call of this number with so many bytes, and if it is refused then once more with ample memory.
fn try_list<R: Abort>(
    rt: &R,
    hoard: &mut Hoard,
    context: &Context,
    pass: &mut Pass,
    at: usize,
    call: &Call,
    whole: &[Call],
    bytes: usize,
) -> Trial
    requires { IsPassOf context.now pass.old }
{
    let first = copy_of(rt, call);
    let second = copy_of(rt, call);
    let before = Shown::of(pass);
    leave(rt, hoard, bytes);
    let mut made = make(context, pass, first);
    leave_ample(rt, hoard);
    let is_refused = made.unwrap_or(NO_MEMORY) == NO_MEMORY;
    if is_refused {
        let after = match made {
            Some(_) => before.refused(call.object()),
            None => before,
        };
        same(rt, Shown::of(pass), after, ("refused, call", at));
        made = make(context, pass, second);
    }
    let entered = u32::from(call.enters());
    let learnt = pass.words().saturating_sub(before.words);
    let known = pass.known().saturating_sub(before.known);
    same(rt, (learnt, known), (entered, entered), ("call", at));
    Trial {
        is_refused,
        answer: made.unwrap_or(NO_MEMORY),
        held: answers_to(rt, context, pass, whole),
    }
}

/// The same in a store of its own.
fn try_once<R: Abort>(
    rt: &R,
    alloc: Global,
    hoard: &mut Hoard,
    frame: &Frame,
    at: usize,
    call: &Call,
    bytes: usize,
) -> Trial {
    let mut store = open(rt, alloc, ROOM);
    make_all(rt, &store.context, &mut store.p, &frame.history);
    leave_ample(rt, hoard);
    let (context, whole) = (&store.context, &frame.whole);
    try_list(rt, hoard, context, &mut store.p, at, call, whole, bytes)
}

/// How often the list is refused before it is not. In the end each trial comes to what one with ample memory comes to.
fn refusals_of<R: Abort>(
    rt: &R,
    alloc: Global,
    hoard: &mut Hoard,
    frame: &Frame,
    at: usize,
    call: &Call,
) -> usize {
    let ample = try_once(rt, alloc, hoard, frame, at, call, SPARE);
    let (is_refused, is_done) = (ample.is_refused, ample.answer.is_ok());
    same(
        rt,
        (is_refused, is_done),
        (false, true),
        ("ample, call", at),
    );
    for refusals in 0..TRIALS {
        let trial = try_once(rt, alloc, hoard, frame, at, call, refusals * STEP);
        same(rt, trial.answer, ample.answer, ("the answer to call", at));
        let (held, wanted) = (trial.held.as_slice(), ample.held.as_slice());
        same(rt, held, wanted, ("held after call", at));
        if !trial.is_refused {
            return refusals;
        }
    }
    panic!(rt; "call {at} is refused at each trial")
}

/// The same, with memory held back from then on.
fn refusals_without_memory<R: Abort + Files + AllocGlobal>(
    rt: &R,
    frame: &Frame,
    at: usize,
    call: &Call,
) -> usize {
    let mut hoard = hold_all(rt, SPARES);
    leave_ample(rt, &mut hoard);
    let refusals = refusals_of(rt, rt.alloc(), &mut hoard, frame, at, call);
    hoard.release();
    refusals
}

/// Each call in turn, by its number from 0 after `finally`.
#[test]
fn each_list_of_one_call_is_refused_in_turn(rt: HostRuntime) -> Result<(), Fail> {
    let alloc = rt.alloc();
    let (history, tried) = calls_in(&rt, alloc, ALL)?;
    let whole = whole_store(alloc)?;
    let frame = Frame {
        history,
        tried,
        whole,
    };
    same(&rt, frame.tried.len(), 68, "the calls");
    let mut counts = Vec::new(alloc);
    for (at, call) in frame.tried.iter().enumerate() {
        let count = refusals_without_memory(&rt, &frame, at, call);
        same(&rt, count > 0, true, ("memory for call", at));
        counts.push(count)?;
    }
    println!(&rt; "refused {counts:?} times")?;
    Ok(())
}

const V: VectorId = VectorId(0);

const IS_5: Answer = Ok(Reply::Value(Value::Uint64(5)));

/// The list is refused, makes no call, and is made with ample memory.
fn expect_list<R: Abort>(rt: &R, hoard: &mut Hoard, context: &Context, p: &mut Pass, calls: &[Call])
    requires { IsPassOf context.now p.old }
{
    let before = Shown::of(p);
    leave(rt, hoard, 0);
    let refused = context.run(p, calls).err();
    leave_ample(rt, hoard);
    same(rt, refused, Some(Refusal::OutOfMemory), "the list");
    same(rt, Shown::of(p), before, "what the pass shows");
    let answers = answers_to(rt, context, p, calls);
    let wanted = [Ok(Reply::MadeVector(V)), DONE, IS_5, BAD_INDEX];
    same(rt, answers.as_slice(), wanted.as_slice(), "the answers");
    same(rt, (before.known, p.known()), (0, 2), "the calls");
}

#[test]
fn a_list_without_memory_makes_no_call(rt: HostRuntime) -> Result<(), AllocError> {
    let script = "vector v uint64 2\nset v 0 5\nget v 0\nset v 2 5\n";
    let (calls, _) = calls_in(&rt, rt.alloc(), script)?;
    let mut store = open(&rt, rt.alloc(), 8);
    let mut hoard = hold_all(&rt, 10);
    expect_list(&rt, &mut hoard, &store.context, &mut store.p, &calls);
    Ok(())
}
