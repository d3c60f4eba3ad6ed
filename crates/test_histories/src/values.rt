//! What one vector holds after a list of calls, and of how many of them it is made.
//!
//! A contract counts the calls that a value is made of by a definition of which calls an object depends on. The rows say by hand which
//! these are. That a read costs no other call is said nowhere.
ghost use Rattle.std.specs.Prelude.{◌≡◌, true};

use crate::operations::{PLAIN, lent};
use crate::same::same;
use grb_call::{Call, Descriptor, Object, VectorId};
use grb_core::{BinaryOp, Domain, Value};
use grb_replay::{Held, value_of};
use grb_sparse::SparseVector;
use grb_states::State;
use std::alloc::{AllocError, Global};
use std::process::Abort;

/// What a test does, to vectors of numbers by their own numbers.
#[derive(Clone, Copy)]
pub(crate) enum Step {
    /// A vector of this size.
    New(u64),
    Set(u32, u64, u64),
    Remove(u32, u64),
    Dup(u32),
    Free(u32),
    /// The first is the sum of the others.
    Add(u32, u32, u32),
    /// The first has the sum of the second with itself added, where the third holds a true value.
    AddInside(u32, u32, u32),
    /// The first is the sum of the second with itself where the third holds a true value, and holds nothing elsewhere.
    Replace(u32, u32, u32),
}

fn sum(w: u32, u: u32, v: u32, mask: Option<u32>, accum: Option<BinaryOp>, d: Descriptor) -> Call {
    Call::EwiseAddVector {
        w: VectorId(w),
        mask: mask.map(|mask| VectorId(mask)),
        accum,
        op: BinaryOp::Plus,
        u: VectorId(u),
        v: VectorId(v),
        d,
    }
}

const REPLACE: Descriptor = Descriptor {
    replace: true,
    ..PLAIN
};

fn call_of(step: Step) -> Call {
    match step {
        Step::New(size) => Call::NewVector {
            domain: Domain::Uint64,
            size,
        },
        Step::Set(v, i, n) => Call::SetVector {
            v: VectorId(v),
            i,
            value: Value::Uint64(n),
        },
        Step::Remove(v, i) => Call::RemoveVector { v: VectorId(v), i },
        Step::Dup(v) => Call::DupVector { v: VectorId(v) },
        Step::Free(v) => Call::FreeVector { v: VectorId(v) },
        Step::Add(w, u, v) => sum(w, u, v, None, None, PLAIN),
        Step::AddInside(w, u, mask) => sum(w, u, u, Some(mask), Some(BinaryOp::Plus), PLAIN),
        Step::Replace(w, u, mask) => sum(w, u, u, Some(mask), None, REPLACE),
    }
}

pub(crate) fn calls_of(alloc: Global, steps: &[Step]) -> Result<Vec<Call>, AllocError> {
    steps.iter().map(|step| call_of(*step)).collect(alloc)
}

/// Steps, and then some more; a vector, what it is found to hold after them, none where it is not there, and of how many calls that is
/// made.
struct Row {
    name: &'static str,
    steps: &'static [Step],
    last: &'static [Step],
    v: u32,
    stored: Option<&'static [Option<u64>]>,
    evaluated: u32,
}

/// Two vectors, of which each has entries.
const TWO: [Step; 5] = [
    Step::New(2),
    Step::New(2),
    Step::Set(0, 0, 1),
    Step::Set(1, 0, 2),
    Step::Set(1, 1, 3),
];

/// An output, an input and a mask.
const THREE: [Step; 10] = [
    Step::New(3),
    Step::New(3),
    Step::New(3),
    Step::Set(0, 0, 10),
    Step::Set(0, 1, 20),
    Step::Set(1, 0, 1),
    Step::Set(1, 1, 2),
    Step::Set(2, 0, 0),
    Step::Set(2, 1, 1),
    Step::Set(2, 2, 1),
];

static ROWS: [Row; 10] = [
    Row {
        name: "changes of another vector",
        steps: &TWO,
        last: &[],
        v: 0,
        stored: Some(&[Some(1), None]),
        evaluated: 2,
    },
    Row {
        name: "a sum of two vectors",
        steps: &TWO,
        last: &[Step::Add(0, 0, 1)],
        v: 0,
        stored: Some(&[Some(3), Some(3)]),
        evaluated: 6,
    },
    Row {
        name: "a vector that was freed",
        steps: &TWO,
        last: &[Step::Free(0)],
        v: 0,
        stored: None,
        evaluated: 0,
    },
    Row {
        name: "a vector that was never made",
        steps: &TWO,
        last: &[],
        v: 3,
        stored: None,
        evaluated: 0,
    },
    Row {
        name: "a copy whose source changes later",
        steps: &[
            Step::New(3),
            Step::Set(0, 0, 7),
            Step::Dup(0),
            Step::Set(0, 0, 9),
        ],
        last: &[],
        v: 1,
        stored: Some(&[Some(7), None, None]),
        evaluated: 3,
    },
    Row {
        name: "a sum whose input changes later",
        steps: &[
            Step::New(3),
            Step::New(3),
            Step::Set(1, 0, 5),
            Step::Add(0, 1, 1),
            Step::Set(1, 0, 50),
        ],
        last: &[],
        v: 0,
        stored: Some(&[Some(10), None, None]),
        evaluated: 4,
    },
    Row {
        name: "a sum inside a mask, added to what the output held",
        steps: &THREE,
        last: &[Step::AddInside(0, 1, 2)],
        v: 0,
        stored: Some(&[Some(10), Some(24), None]),
        evaluated: 11,
    },
    Row {
        name: "a sum inside a mask, in place of what the output held",
        steps: &THREE,
        last: &[Step::Replace(0, 1, 2)],
        v: 0,
        stored: Some(&[None, Some(4), None]),
        evaluated: 11,
    },
    Row {
        name: "refused calls, and a copy that is not wanted but has a number",
        steps: &[
            Step::New(3),
            Step::Set(0, 7, 1),
            Step::Dup(4),
            Step::Dup(0),
            Step::New(3),
            Step::Set(2, 2, 8),
            Step::Remove(2, 3),
        ],
        last: &[],
        v: 2,
        stored: Some(&[None, None, Some(8)]),
        evaluated: 2,
    },
    Row {
        name: "no calls",
        steps: &[],
        last: &[],
        v: 0,
        stored: None,
        evaluated: 0,
    },
];

/// What the row says that the vector stores at an index.
fn wanted_at(stored: &[Option<u64>], i: u64) -> Option<Value> {
    match stored.get(i as usize) {
        Some(Some(n)) => Some(Value::Uint64(*n)),
        _ => None,
    }
}

/// What the row says that the vector stores, in the order of the indices.
fn wanted_entries(alloc: Global, stored: &[Option<u64>]) -> Result<Vec<(u64, Value)>, AllocError> {
    let mut entries = Vec::new(alloc);
    for (i, number) in stored.iter().enumerate() {
        if let Some(n) = number {
            entries.push((i as u64, Value::Uint64(*n)))?;
        }
    }
    Ok(entries)
}

/// The vector has the size of what is stored, and stores that and nothing else.
fn expect_stored(
    rt: &impl Abort,
    alloc: Global,
    vector: &SparseVector,
    stored: &[Option<u64>],
    of: &'static str,
) -> Result<(), AllocError>
    requires { vector.now.assembled ≡ true }
{
    let shape = (vector.domain(), vector.dims());
    same(rt, shape, (Domain::Uint64, stored.len() as u64), of);
    for i in 0..4 {
        same(rt, vector.get(i), wanted_at(stored, i), of);
    }
    let seen: Vec<(u64, Value)> = vector.entries().collect(alloc)?;
    let wanted = wanted_entries(alloc, stored)?;
    same(rt, vector.nvals(), wanted.len() as u64, of);
    same(rt, seen.as_slice(), wanted.as_slice(), of);
    Ok(())
}

fn expect_held(rt: &impl Abort, alloc: Global, held: &Held, row: &Row) -> Result<(), AllocError> {
    same(rt, held.evaluated(), row.evaluated, row.name);
    same(rt, held.matrix().is_none(), true, row.name);
    let vector = held.vector();
    same(rt, vector.is_some(), row.stored.is_some(), row.name);
    match (vector, row.stored) {
        (Some(vector), Some(stored)) => expect_stored(rt, alloc, vector, stored, row.name),
        _ => Ok(()),
    }
}

/// What an object holds after the calls, which are few.
pub(crate) fn held_after(
    rt: &impl Abort,
    alloc: Global,
    calls: &[&Call],
    object: Object,
) -> Result<Held, AllocError> {
    if calls.len() > 10_000 {
        panic!(rt; "{calls} calls", calls = calls.len());
    }
    let empty = State::empty(alloc);
    value_of(alloc, &empty, calls, object)
}

fn expect_row(rt: &impl Abort, alloc: Global, steps: &[Step], row: &Row) -> Result<(), AllocError> {
    let mut steps: Vec<Step> = Vec::from_slice(alloc, steps)?;
    steps.extend_from_slice(row.last)?;
    let calls = calls_of(alloc, &steps)?;
    let lent = lent(alloc, &calls)?;
    let held = held_after(rt, alloc, &lent, Object::Vector(VectorId(row.v)))?;
    expect_held(rt, alloc, &held, row)
}

#[test]
fn a_vector_holds_what_the_calls_make_that_it_depends_on(
    rt: HostRuntime,
) -> Result<(), AllocError> {
    for row in &ROWS {
        expect_row(&rt, rt.alloc(), row.steps, row)?;
    }
    Ok(())
}

/// Of a vector that is made and set 16 times, while another is set 4,000 times.
static LONG: Row = Row {
    name: "a long history of another vector",
    steps: &[],
    last: &[],
    v: 0,
    stored: Some(&[Some(15), Some(13), Some(14)]),
    evaluated: 17,
};

#[test]
fn a_read_makes_its_own_calls_alone_in_a_long_history(rt: HostRuntime) -> Result<(), AllocError> {
    let mut steps = vec![in rt.alloc(); Step::New(3), Step::New(3)]?;
    for k in 0..4_000 {
        if k % 250 == 0 {
            steps.push(Step::Set(0, k / 250 % 3, k / 250))?;
        }
        steps.push(Step::Set(1, k % 3, k))?;
    }
    expect_row(&rt, rt.alloc(), &steps, &LONG)
}
