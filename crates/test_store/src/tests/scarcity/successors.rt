//! A branch of all objects that are there, so without the numbers of freed ones, with ever more memory, from none on, each time of a store of its own, until it is not
//! refused. No contract says that memory is refused, what the old pass and the new ones answer then, or that each object which takes memory
//! is named.
ghost use Rattle.std.specs.Prelude.{IfOk};
ghost use Rattle.grb_context.specs.Known.{IsPassOf};

use crate::tests::same::same;
use crate::tests::scarcity::calls::calls_in;
use crate::tests::scarcity::memory::{STEP, TRIALS, hold_all, leave, leave_ample};
use crate::tests::scarcity::shown::Shown;
use crate::tests::stores::{Answer, Store, answers_to, make_all, open, with_two};
use grb_call::{Call, MatrixId, Object, Reply, VectorId};
use grb_context::{Context, NoSuccessor, Pass};
use grb_core::{Refusal, Value};
use grb_scarcity::{Hoard, SPARE};
use std::alloc::{AllocError, Global};
use std::process::Abort;
use std::test::Fail;

/// How many calls the stores take, and the successors beside those that make them.
const ROOM: u32 = 16;

/// How many spares there are: a trial uses four.
const SPARES: usize = 4 * TRIALS + 10;

/// How often a successor is refused at least: its two passes hold more than 80 bytes for each call that it has room for.
const LEAST: usize = 2 * 16 * 80 / STEP;

/// A vector and a matrix of each at a time; the vector that is made first is freed.
const NUMBERED: &str = "vector f uint64 4
    matrix A uint64 4 4
    vector u uint64 4
    matrix B uint64 4 4
";

/// The same, numbered as in the successor: without the number of what was freed, which no vector has there.
const LIVE: &str = "vector u uint64 4
    matrix A uint64 4 4
    vector f uint64 4
    matrix B uint64 4 4
";

/// Changes that nobody has read: builds, with a set and a remove that wait, and a product. After `finally` what is read.
const CHANGES: &str = "build A plus 0 1 2 1 2 3 2 0 9
    set A 0 2 4
    remove A 2 0
    build u plus 0 5 2 6
    set u 1 7
    remove u 0
    free f
    mxm B A A plus.times
    finally
    nvals A
    get A 0 2
    get A 2 0
    total A plus
    nvals u
    get u 0
    get u 1
    total u plus
    nvals B
    get B 0 2
    size f
";

/// What the reads are answered, in the old store and in each successor.
const ANSWERS: [Answer; 11] = [
    Ok(Reply::Count(3)),
    Ok(Reply::Value(Value::Uint64(4))),
    Ok(Reply::NoValue),
    Ok(Reply::Value(Value::Uint64(9))),
    Ok(Reply::Count(2)),
    Ok(Reply::NoValue),
    Ok(Reply::Value(Value::Uint64(7))),
    Ok(Reply::Value(Value::Uint64(13))),
    Ok(Reply::Count(1)),
    Ok(Reply::Value(Value::Uint64(6))),
    Err(Refusal::UninitializedObject),
];

/// How often a successor was refused before it was not, and how often for the product and for the vector that is there.
#[derive(Clone, Copy, Debug, PartialEq, Eq)]
struct Refusals {
    all: usize,
    product: usize,
    vector: usize,
}

impl Refusals {
    /// One more.
    fn with(self, no: NoSuccessor) -> Refusals {
        let mut more = self;
        more.all = self.all.saturating_add(1);
        match no {
            NoSuccessor::Unmade { object } if object == Object::Matrix(MatrixId(1)) => {
                more.product = self.product.saturating_add(1);
            }
            NoSuccessor::Unmade { object } if object == Object::Vector(VectorId(1)) => {
                more.vector = self.vector.saturating_add(1);
            }
            _ => {}
        }
        more
    }
}

/// The calls of all trials: those that make the old store, those that read it, and those that read a successor.
#[derive(Drop)]
struct Frame {
    history: Vec<Call>,
    old: Vec<Call>,
    new: Vec<Call>,
}

/// The calls where the objects are numbered so.
fn numbered<R: Abort>(
    rt: &R,
    alloc: Global,
    objects: &str,
) -> Result<(Vec<Call>, Vec<Call>), AllocError> {
    let mut text = String::new(alloc);
    text.push_str(objects)?;
    text.push_str(CHANGES)?;
    calls_in(rt, alloc, &text)
}

/// A branch of the objects that are there.
fn succeed<R: Abort>(
    rt: &R,
    alloc: Global,
    context: &Context,
    pass: &mut Pass,
) -> Result<Store, NoSuccessor>
    requires { IsPassOf context.now pass.old }
    ensures pass { IsPassOf context.now pass.new }
    ensures q { IfOk result (λ next. IsPassOf next.context next.q) }
{
    let (matrices, vectors) = (&[MatrixId(0), MatrixId(1)], &[VectorId(1)]);
    let (next, passes) = context.branch(alloc, pass, matrices, vectors, ROOM, 2)?;
    Ok(with_two(rt, next, passes))
}

/// The reads are answered as is stated.
fn expect_answers<R: Abort>(rt: &R, context: &Context, pass: &mut Pass, reads: &[Call])
    requires { IsPassOf context.now pass.old }
    ensures { IsPassOf context.now pass.new }
{
    let answers = answers_to(rt, context, pass, reads);
    same(rt, answers.as_slice(), ANSWERS.as_slice(), "the reads");
}

/// How memory was refused to a successor, if it was; one that was made answers the reads.
fn refusal_of<R: Abort>(
    rt: &R,
    made: Result<Store, NoSuccessor>,
    reads: &[Call],
) -> Option<NoSuccessor>
    requires { IfOk made (λ next. IsPassOf next.context next.q) }
{
    match made {
        Ok(mut next) => {
            expect_answers(rt, &next.context, &mut next.q, reads);
            None
        }
        Err(no) => {
            let is_memory = matches!(no, NoSuccessor::OutOfMemory | NoSuccessor::Unmade { .. });
            assert!(rt; is_memory, "{no:?}");
            Some(no)
        }
    }
}

/// How a successor is refused with so many bytes, if it is. The pass then shows of itself what it did before.
fn refusal_with<R: Abort>(
    rt: &R,
    alloc: Global,
    hoard: &mut Hoard,
    context: &Context,
    pass: &mut Pass,
    reads: &[Call],
    bytes: usize,
) -> Option<NoSuccessor>
    requires { IsPassOf context.now pass.old }
    ensures { IsPassOf context.now pass.new }
{
    let before = Shown::of(pass);
    leave(rt, hoard, bytes);
    let made = succeed(rt, alloc, context, pass);
    leave_ample(rt, hoard);
    same(rt, Shown::of(pass), before, ("bytes", bytes));
    refusal_of(rt, made, reads)
}

/// The same of this store, which then answers the reads. Where it was refused, it goes with ample memory.
fn first_refusal<R: Abort>(
    rt: &R,
    alloc: Global,
    hoard: &mut Hoard,
    context: &Context,
    pass: &mut Pass,
    frame: &Frame,
    bytes: usize,
) -> Option<NoSuccessor>
    requires { IsPassOf context.now pass.old }
{
    let new = &frame.new;
    make_all(rt, context, pass, &frame.history);
    let first = refusal_with(rt, alloc, hoard, context, pass, new, bytes);
    expect_answers(rt, context, pass, &frame.old);
    let then = refusal_with(rt, alloc, hoard, context, pass, new, SPARE);
    same(rt, then, None, ("ample after bytes", bytes));
    first
}

/// The same of a new store.
fn refusal_once<R: Abort>(
    rt: &R,
    alloc: Global,
    hoard: &mut Hoard,
    frame: &Frame,
    bytes: usize,
) -> Option<NoSuccessor> {
    let mut store = open(rt, alloc, ROOM);
    let (context, pass) = (&store.context, &mut store.p);
    first_refusal(rt, alloc, hoard, context, pass, frame, bytes)
}

/// How often a successor is refused before it is not.
fn refusals_of<R: Abort>(rt: &R, alloc: Global, hoard: &mut Hoard, frame: &Frame) -> Refusals {
    let mut refusals = Refusals {
        all: 0,
        product: 0,
        vector: 0,
    };
    for trial in 0..TRIALS {
        match refusal_once(rt, alloc, hoard, frame, trial * STEP) {
            Some(no) => refusals = refusals.with(no),
            None => return refusals,
        }
    }
    panic!(rt; "refused at each trial")
}

#[test]
fn a_branch_without_freed_numbers_is_refused_in_turn(rt: HostRuntime) -> Result<(), Fail> {
    let (history, old) = numbered(&rt, rt.alloc(), NUMBERED)?;
    let (_, new) = numbered(&rt, rt.alloc(), LIVE)?;
    let frame = Frame { history, old, new };
    let mut hoard = hold_all(&rt, SPARES);
    leave_ample(&rt, &mut hoard);
    let refusals = refusals_of(&rt, rt.alloc(), &mut hoard, &frame);
    hoard.release();
    println!(&rt; "{refusals:?}")?;
    let many = refusals.all > LEAST && refusals.product > 0 && refusals.vector > 0;
    same(&rt, many, true, refusals);
    Ok(())
}
