//! A tour of the store, to read from the top: open it, make calls with one pass, share it between two threads, catch up with another
//! pass, multiply, make a list of calls, have pending work done, and deal with refusals. It prints the same lines in every schedule.
//! `docs/GUIDE.md` quotes it.
#![tactic(auto)]

ghost use Rattle.std.specs.Prelude.{IfOk};
ghost use Rattle.grb_context.specs.Known.{IsPassOf};

use grb_call::{Call, Descriptor, MatrixTuples, Object, Reply, VectorId, WaitMode};
use grb_context::{Context, Pass};
use grb_core::{BinaryOp, Domain, Monoid, Refusal, Semiring, Value};
use std::alloc::Global;
use std::io;
use std::test::Fail;
use std::thread::{Threads, join};

/// How many calls may change the store. The tour makes sixteen such calls, and one that finds no room.
const ROOM: u32 = 16;

/// An operation that is told nothing else: without a mask it writes all of its output.
const PLAIN: Descriptor = Descriptor {
    structure: false,
    comp: false,
    replace: false,
    tran: false,
    tran1: false,
};

/// Prints what a call answered: its reply, or its refusal with what to do about it.
fn show(rt: &impl Print, what: &str, answer: Result<Reply, Refusal>) -> io::Result<()> {
    match answer {
        Ok(reply) => println!(rt; "{what}: {reply:?}"),
        Err(refusal) => println!(rt; "{what}: {}. {}", refusal.name(), refusal.hint()),
    }
}

/// Makes a vector of ten numbers, and stores the first one twice.
fn make(context: &Context, pass: &mut Pass) -> Result<VectorId, Refusal>
    requires { IsPassOf context.now pass.old }
    ensures { IsPassOf context.now pass.new }
{
    let reply = context.new_vector(pass, Domain::Uint64, 10)?;
    let v = reply.vector().unwrap();
    context.set_vector(pass, v, 0, Value::Uint64(5))?;
    context.set_vector(pass, v, 0, Value::Uint64(7))?;
    Ok(v)
}

/// What each of two threads does: it stores three numbers at indices of its own, and gives its pass back.
fn fill(context: &Context, mut pass: Pass, v: VectorId) -> Result<Pass, Refusal>
    requires { IsPassOf context.now pass }
    ensures { IfOk result (IsPassOf context.now) }
{
    let number = u64::from(pass.number());
    'entries: for k in 0..3 {
        context.set_vector(&mut pass, v, 3 * number + k, Value::Uint64(10 * number + k))?;
    }
    Ok(pass)
}

/// A matrix of two rows times the vector: the sum of its entries at 0 and 3, and the entry at 6.
fn multiply(
    alloc: Global,
    context: &Context,
    pass: &mut Pass,
    v: VectorId,
) -> Result<VectorId, Fail>
    requires { IsPassOf context.now pass.old }
    ensures { IsPassOf context.now pass.new }
{
    let one = Value::Uint64(1);
    let entries = vec![in alloc; (0, 0, one), (0, 3, one), (1, 6, one)]?;
    let made = context.new_matrix(pass, Domain::Uint64, 2, 10)?;
    let a = made.matrix().unwrap();
    context.build_matrix(pass, a, MatrixTuples::from_vec(entries)?, Monoid::Plus)?;
    let made = context.new_vector(pass, Domain::Uint64, 2)?;
    let w = made.vector().unwrap();
    let semiring = Semiring::new(Monoid::Plus, BinaryOp::Times)?;
    context.mxv(pass, w, None, None, semiring, a, v, PLAIN)?;
    Ok(w)
}

/// Stores a value, and first makes the vector longer where it has no such index.
fn store(
    context: &Context,
    pass: &mut Pass,
    v: VectorId,
    i: u64,
    value: Value,
) -> Result<Reply, Refusal>
    requires { IsPassOf context.now pass.old }
    ensures { IsPassOf context.now pass.new }
{
    match context.set_vector(pass, v, i, value) {
        Err(Refusal::InvalidIndex) => {
            context.resize_vector(pass, v, i.saturating_add(1))?;
            context.set_vector(pass, v, i, value)
        }
        answer => answer,
    }
}

/// The tour.
fn tour<R: Threads + Sync + Print + AllocGlobal>(rt: &R) -> Result<(), Fail> {
    // A store, and the passes 0, 1 and 2.
    let (context, mut passes) = Context::open(rt.alloc(), ROOM, 3)?;
    let mut own = passes.remove(0);
    let first = passes.remove(0);
    let second = passes.remove(0);

    // One thread. A get of an entry that is not stored is no refusal.
    let v = make(&context, &mut own)?;
    show(rt, "get 0", context.get_vector(&mut own, v, 0))?;
    show(rt, "get 9", context.get_vector(&mut own, v, 9))?;
    show(rt, "get 10", context.get_vector(&mut own, v, 10))?;

    // Two threads, each with a pass of its own. The meetings below tell `own` what they stored.
    let (first, second) = join(
        rt,
        || fill(&context, first, v),
        || fill(&context, second, v),
    );
    let (mut first, mut second) = (first?, second?);
    println!(rt; "known: {}", own.known())?;
    context.meet(&mut own, &mut first)?;
    context.meet(&mut own, &mut second)?;
    println!(rt; "known: {}", own.known())?;
    show(rt, "nvals", context.nvals_vector(&mut own, v))?;
    let total = context.reduce_vector(&mut own, v, Monoid::Plus);
    show(rt, "total", total)?;

    // An operation. It enters four calls, and its work is done when the result is read.
    let w = multiply(rt.alloc(), &context, &mut own, v)?;
    show(rt, "row 0", context.get_vector(&mut own, w, 0))?;
    show(rt, "row 1", context.get_vector(&mut own, w, 1))?;

    // A list of calls. A refused one does not keep the next from being made.
    let calls = [
        Call::RemoveVector { v, i: 0 },
        Call::GetVector { v, i: 0 },
        Call::GetVector { v, i: 99 },
        Call::SizeVector { v },
    ];
    for answer in &context.run(&mut own, &calls)? {
        show(rt, "list", *answer)?;
    }

    // The pending work, done now. The next reads cannot fail for lack of memory.
    let done = context.wait_vector(&mut own, v, WaitMode::Materialize);
    show(rt, "wait", done)?;
    println!(rt; "settled: {} of {}", own.settled(), own.known())?;

    // Refusals. The last change finds no room, and reads go on.
    let stored = store(&context, &mut own, v, 12, Value::Uint64(1));
    show(rt, "store 12", stored)?;
    let stored = store(&context, &mut own, v, 13, Value::Uint64(1));
    show(rt, "store 13", stored)?;
    println!(rt; "status: {:?}", own.last_info(Object::Vector(v)))?;
    show(rt, "nvals", context.nvals_vector(&mut own, v))?;
    Ok(())
}

fn main(rt: HostRuntime) -> Result<(), Fail> {
    tour(&rt)
}
