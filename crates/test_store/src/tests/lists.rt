//! Calls made as a list, and one as a value. A contract says that a list is answered as its calls are one by one, and none that memory is
//! there; no script makes a list of calls.
ghost use Rattle.grb_context.specs.Known.{IsPassOf};

use crate::tests::same::same;
use crate::tests::stores::{Answer, BAD_INDEX, DONE, NO_VALUE, open};
use grb_call::{Call, Object, Reply, VectorId};
use grb_context::{Context, Pass};
use grb_core::{Domain, Info, Refusal, Value};
use std::process::Abort;

const FIRST: VectorId = VectorId(0);

const SECOND: VectorId = VectorId(1);

const MADE: Answer = Ok(Reply::MadeVector(FIRST));

const V: Object = Object::Vector(FIRST);

const ONE: Value = Value::Uint64(1);

const REFUSED: Option<Info> = Some(Info::Refused(Refusal::InvalidIndex));

fn set_at(i: u64) -> Call {
    Call::SetVector {
        v: FIRST,
        i,
        value: ONE,
    }
}

/// A list whose last call sets an entry out of range.
fn expect_list(rt: &impl Abort, context: &Context, p: &mut Pass)
    requires { IsPassOf context.now p.old }
    ensures { IsPassOf context.now p.new }
{
    let made = Call::NewVector {
        domain: Domain::Uint64,
        size: 2,
    };
    let got = Call::GetVector { v: FIRST, i: 0 };
    let calls = [made, set_at(0), got, set_at(2)];
    let Ok(answers) = context.run(p, &calls) else {
        panic!(rt; "no memory for the answers")
    };
    let wanted = [MADE, DONE, Ok(Reply::Value(ONE)), BAD_INDEX];
    same(rt, answers.as_slice(), wanted.as_slice(), "the answers");
    same(rt, p.known(), 2, "the calls");
    same(rt, p.last_info(V), REFUSED, "the vector");
    same(rt, p.last_info(Object::Vector(SECOND)), None, "no vector");
}

/// Another pass meets the one of the list, which then makes one call.
fn expect_met(rt: &impl Abort, context: &Context, p: &mut Pass, q: &mut Pass)
    requires first { IsPassOf context.now p.old }
    requires second { IsPassOf context.now q.old }
{
    same(rt, context.meet(q, p), Ok(()), "the meeting");
    same(rt, q.known(), 2, "the calls that were met");
    let value = context.call(p, Call::GetVector { v: FIRST, i: 1 });
    same(rt, value, NO_VALUE, "what is not stored");
    same(rt, p.known(), 2, "the calls");
    same(rt, p.last_info(V), Some(Info::NoValue), "the vector");
}

#[test]
fn a_list_leaves_the_status_of_its_last_call(rt: HostRuntime) {
    let mut store = open(&rt, rt.alloc(), 8);
    expect_list(&rt, &store.context, &mut store.p);
    expect_met(&rt, &store.context, &mut store.p, &mut store.q);
}
