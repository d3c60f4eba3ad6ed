//! How a run ends where its sink or its source fails. Contracts say that a beginning was written, or nothing; which beginning, which fault,
//! and that the rest was not asked for, no contract says. The files and the output of a script are real ones, which do not fail.
ghost use Rattle.std.specs.Prelude.{◌<◌, ◌≤◌};
ghost use Rattle.grb_order.specs.declared.limits.TheConstants.{MOST_ROOM};

use crate::tests::gates::SectionGates;
use crate::tests::same::same;
use crate::tests::sinks::{Full, sink_of};
use crate::tests::sources::{NamedFile, source_of};
use grb_market::{FaultKind, MarketFault};
use grb_run::{OpenGate, RunFault, SourceFault, run_script};
use std::alloc::Global;
use std::process::Abort;
use std::sync::Wait;
use std::sync::atomic::Ordering;
use std::thread::Threads;

pub(super) const FIRST: &str = "vector v uint64 5\nset v 2 7\nget v 2\nget v 3\nnvals v\n";

const FIRST_LINES: &str = "ok\nok\nvalue 7\nnone\ncount 1\n";

/// Into a sink of this step and room, which is full in this way, the lines or their front are written.
fn expect_front<R: Abort + Threads + Wait + Sync>(
    rt: &R,
    alloc: Global,
    step: usize,
    room: usize,
    full: Full,
) {
    let lines = FIRST_LINES.as_bytes();
    let mut source = source_of(alloc, FIRST, &[]);
    let mut sink = sink_of(alloc, step, room);
    sink.full = full;
    let result = run_script(rt, alloc, 4096, &mut source, &mut sink, &OpenGate);
    let (expected, failures) = if room < lines.len() {
        (Err(RunFault::CannotWrite), 1)
    } else {
        (Ok(()), 0)
    };
    same(rt, &result, &expected, ("the end", step, room));
    let front = lines.get(..room).unwrap_or(&[]);
    same(rt, sink.taken.as_slice(), front, ("bytes", step, room));
    same(rt, sink.failures, failures, ("failures", step, room));
}

#[test]
fn a_sink_that_fails_has_a_beginning(rt: HostRuntime) {
    same(&rt, FIRST_LINES.len(), 27, "the bytes of the lines");
    for room in 0..=27 {
        expect_front(&rt, rt.alloc(), 1000, room, Full::Fails);
        expect_front(&rt, rt.alloc(), 1, room, Full::Fails);
        expect_front(&rt, rt.alloc(), 7, room, Full::TakesNone);
    }
}

const EMPTY: &[u8] = b"%%MatrixMarket matrix coordinate integer general\n1 1 0\n";

/// The files of all scripts here, and those that cannot be had. Any other is missing.
pub(super) const FILES: [NamedFile<'static>; 4] = [
    ("empty.mtx", Ok(EMPTY)),
    ("short.mtx", Ok(b"")),
    ("huge.mtx", Err(SourceFault::TooLong)),
    ("memory.mtx", Err(SourceFault::OutOfMemory)),
];

const SHORT: RunFault = RunFault::Load {
    line: 1,
    fault: MarketFault {
        line: 1,
        kind: FaultKind::Header,
    },
};

const UNKNOWN: RunFault = RunFault::Script {
    line: 2,
    kind: grb_script::FaultKind::UnknownName,
};

/// A script, the fault of the source in its place, how the run ends, and how often the source counts each of its faults.
type Failed = (&'static str, Option<SourceFault>, RunFault, (u64, u64, u64));

static FAILED: [Failed; 9] = [
    (
        FIRST,
        Some(SourceFault::CannotRead),
        RunFault::CannotReadScript,
        (1, 0, 0),
    ),
    (
        FIRST,
        Some(SourceFault::TooLong),
        RunFault::ScriptTooLong,
        (0, 1, 0),
    ),
    (
        FIRST,
        Some(SourceFault::OutOfMemory),
        RunFault::OutOfMemory,
        (0, 0, 1),
    ),
    // the second of two files
    (
        "load A empty.mtx\nload B none.mtx\nnvals A\n",
        None,
        RunFault::CannotReadFile { line: 2 },
        (1, 0, 0),
    ),
    (
        "load A empty.mtx\n\nload B huge.mtx\n",
        None,
        RunFault::FileTooLong { line: 3 },
        (0, 1, 0),
    ),
    (
        "load A empty.mtx\nload B memory.mtx\n",
        None,
        RunFault::OutOfMemory,
        (0, 0, 1),
    ),
    // what comes after a fault is not asked for
    (
        "load A none.mtx\nload B huge.mtx\n",
        None,
        RunFault::CannotReadFile { line: 1 },
        (1, 0, 0),
    ),
    (
        "load A short.mtx\nload B huge.mtx\n",
        None,
        SHORT,
        (0, 0, 0),
    ),
    ("load A none.mtx\nnvals B\n", None, UNKNOWN, (0, 0, 0)),
];

/// The run ends so, before its first statement, and writes nothing.
fn expect_failed<R: Abort + Threads + Wait + Sync>(rt: &R, alloc: Global, row: &Failed) {
    let (script, fault, ended, counts) = row;
    let mut source = source_of(alloc, *script, &FILES);
    source.fault = *fault;
    let mut sink = sink_of(alloc, 1000, 1000);
    let gates = SectionGates::new();
    let result = run_script(rt, alloc, 4096, &mut source, &mut sink, &gates);
    let met = (source.cannot_read, source.too_long, source.out_of_memory);
    let statements = gates.gates[0].before.load(Ordering::SeqCst);
    same(rt, result.as_ref().err(), Some(ended), *script);
    same(rt, met, *counts, *script);
    same(rt, (sink.taken.len(), statements), (0, 0), *script);
}

#[test]
fn a_source_that_fails_ends_a_run_before_its_first_statement(rt: HostRuntime) {
    for row in &FAILED {
        expect_failed(&rt, rt.alloc(), row);
    }
}

/// A file, and sixteen thread sections.
const CROWDED: &str =
    "load A empty.mtx\nthread 1\nthread 2\nthread 3\nthread 4\nthread 5\nthread 6\nthread 7\nthread 8\nthread 9\nthread 10\nthread 11\nthread 12\nthread 13\nthread 14\nthread 15\nthread 16\n";

/// With this room the run of that script ends so, and has read so many files.
fn expect_files_read<R: Abort + Threads + Wait + Sync>(
    rt: &R,
    alloc: Global,
    room: u32,
    ended: &Result<(), RunFault>,
    files: u64,
)
    requires { (0 < room) × (room ≤ MOST_ROOM) }
{
    let mut source = source_of(alloc, CROWDED, &FILES);
    let mut sink = sink_of(alloc, 1000, 1000);
    let result = run_script(rt, alloc, room, &mut source, &mut sink, &OpenGate);
    same(rt, &result, ended, ("the end with room", room));
    same(rt, source.files_read, files, ("files with room", room));
}

#[test]
fn no_file_is_read_where_sections_are_too_many_for_the_room(rt: HostRuntime) {
    let refused = Err(RunFault::TooManySections);
    expect_files_read(&rt, rt.alloc(), 65_536, &refused, 0);
    expect_files_read(&rt, rt.alloc(), 4_096, &Ok(()), 1);
}
