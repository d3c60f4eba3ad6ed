//! What is written of a matrix, into sinks that take few bytes at a time, or fail once they are full.
//!
//! The contract of `write` says what a sink has taken, by what the sink says of itself. A sink of one's own shows that it holds of bytes
//! that are there, each prefix of them, and that `write` answers Ok where memory suffices.
ghost use Rattle.std.specs.Prelude.{◌≡◌, true, Some};

use crate::same::same;
use grb_core::{Domain, Monoid, Value};
use grb_market::{Sink, SinkFault, WriteFault, write};
use grb_sparse::SparseMatrix;
use std::alloc::{AllocError, Global};
use std::process::Abort;

/// Takes at most `step` bytes at a time and `room` bytes in all.
#[derive(Drop)]
struct SmallSink {
    taken: Vec<u8>,
    step: usize,
    room: usize,
    failures: u64,
}

impl Sink for SmallSink {
    ghost taken = { λ s. Some s.taken.items };

    ghost failures = { λ s. s.failures };

    fn put(&mut self, bytes: &[u8]) -> Result<usize, SinkFault> {
        let left = self.room.saturating_sub(self.taken.len());
        let count = bytes.len().min(self.step).min(left);
        if count == 0 && !bytes.is_empty() {
            self.failures += 1;
            return Err(SinkFault);
        }
        if self.taken.extend_from_slice(&bytes[..count]).is_err() {
            self.failures += 1;
            return Err(SinkFault);
        }
        Ok(count)
    }
}

fn sink(alloc: Global, step: usize, room: usize) -> SmallSink
    ensures { result.failures ≡ 0 }
{
    SmallSink {
        taken: Vec::new(alloc),
        step,
        room,
        failures: 0,
    }
}

const CANONICAL: &str = "%%MatrixMarket matrix coordinate integer general\n2 3 2\n1 3 7\n2 1 0\n";

/// Into a sink of this room all of the text or its front is written.
fn expect_front(rt: &impl Abort, alloc: Global, a: &SparseMatrix, step: usize, room: usize)
    requires { a.now.assembled ≡ true }
{
    let mut small = sink(alloc, step, room);
    let found = write(alloc, a, &mut small);
    let wanted = if room < CANONICAL.len() {
        Err(WriteFault::Sink)
    } else {
        Ok(())
    };
    same(rt, found, wanted, (step, room));
    let front = CANONICAL.as_bytes().get(..room).unwrap_or(&[]);
    same(rt, small.taken.as_slice(), front, (step, room));
}

#[test]
fn a_sink_has_the_canonical_text_or_the_front_that_it_has_room_for(
    rt: HostRuntime,
) -> Result<(), AllocError> {
    let mut a = SparseMatrix::new(rt.alloc(), Domain::Uint64, 2, 3);
    let tuples = [(1, 0, Value::Uint64(0)), (0, 2, Value::Uint64(7))];
    a.build(&tuples, Monoid::Plus)?;
    for step in [1, 5, 65_536] {
        for room in 0..=CANONICAL.len() {
            expect_front(&rt, rt.alloc(), &a, step, room);
        }
    }
    Ok(())
}

fn expect_no_pattern(rt: &impl Abort, alloc: Global, a: &SparseMatrix)
    requires { a.now.assembled ≡ true }
{
    let mut small = sink(alloc, 1, 100);
    let found = write(alloc, a, &mut small);
    same(rt, found, Err(WriteFault::NotPattern), "a false");
    same(rt, (small.taken.len(), small.failures), (0, 0), "a false");
}

#[test]
fn a_stored_false_is_refused_and_nothing_is_written(rt: HostRuntime) -> Result<(), AllocError> {
    let mut a = SparseMatrix::new(rt.alloc(), Domain::Bool, 2, 2);
    a.build(&[(0, 0, Value::Bool(false))], Monoid::Lor)?;
    expect_no_pattern(&rt, rt.alloc(), &a);
    let mut a = SparseMatrix::new(rt.alloc(), Domain::Bool, 2, 2);
    let tuples = [(1, 1, Value::Bool(true)), (0, 0, Value::Bool(false))];
    a.build(&tuples, Monoid::Lor)?;
    expect_no_pattern(&rt, rt.alloc(), &a);
    Ok(())
}
