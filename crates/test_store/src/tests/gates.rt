//! Gates that count the statements of each section. No contract says when a gate is called, and the program has one that does nothing.
use crate::tests::endings::{FILES, FIRST};
use crate::tests::same::same;
use crate::tests::sinks::sink_of;
use crate::tests::sources::source_of;
use grb_run::{Gate, run_script};
use std::alloc::Global;
use std::process::Abort;
use std::sync::Wait;
use std::sync::atomic::{AtomicU64, Ordering};
use std::thread::Threads;

/// Counts its calls for one section, and the calls that were not made in their order: before the first statement, after it, before the
/// second .. A call for another section is such a one too.
#[derive(Drop)]
pub(super) struct CountingGate {
    section: u32,
    pub(super) before: AtomicU64,
    after: AtomicU64,
    wrong: AtomicU64,
}

impl CountingGate {
    fn of(section: u32) -> CountingGate {
        CountingGate {
            section,
            before: AtomicU64::new(0),
            after: AtomicU64::new(0),
            wrong: AtomicU64::new(0),
        }
    }

    fn check(&self, is_right: bool) {
        if !is_right {
            self.wrong.fetch_add(1, Ordering::SeqCst);
        }
    }
}

impl Gate for CountingGate {
    fn before(&self, section: u32, statement: u32) {
        let count = self.before.fetch_add(1, Ordering::SeqCst);
        let done = self.after.load(Ordering::SeqCst);
        self.check(
            section == self.section
                && count == done
                && u64::from(statement).checked_sub(1) == Some(count),
        );
    }

    fn after(&self, section: u32, statement: u32) {
        let count = self.after.fetch_add(1, Ordering::SeqCst);
        self.check(section == self.section && u64::from(statement).checked_sub(1) == Some(count));
    }
}

/// A counting gate for main and the last section, and one for each of three thread sections, by their numbers. The first has the calls for
/// any other section, which are wrong there.
#[derive(Drop)]
pub(super) struct SectionGates {
    pub(super) gates: [CountingGate; 4],
}

impl SectionGates {
    pub(super) fn new() -> SectionGates {
        SectionGates {
            gates: [
                CountingGate::of(0),
                CountingGate::of(1),
                CountingGate::of(2),
                CountingGate::of(3),
            ],
        }
    }

    fn gate_of(&self, section: u32) -> &CountingGate {
        self.gates.get(section as usize).unwrap_or(&self.gates[0])
    }
}

impl Gate for SectionGates {
    fn before(&self, section: u32, statement: u32) {
        self.gate_of(section).before(section, statement);
    }

    fn after(&self, section: u32, statement: u32) {
        self.gate_of(section).after(section, statement);
    }
}

/// Main has two statements, the thread sections one, none and three, and the last section two.
const SECTIONS: &str =
    "vector v uint64 4\nset v 0 1\nthread 1\nset v 1 2\nthread 2\nthread 3\nset v 2 3\nget v 2\nget v 0\nfinally\nnvals v\nget v 1\n";

/// Scripts, and how many statements of main and the last section, and of each thread section, were run.
static COUNTED: [(&str, [u64; 4]); 6] = [
    ("", [0, 0, 0, 0]),
    (FIRST, [5, 0, 0, 0]),
    ("# one\nvector v bool 1\n\nset v 5 true\n", [2, 0, 0, 0]),
    ("vector v bool 1\nget w 0\n", [0, 0, 0, 0]),
    (
        "load A empty.mtx\nnvals A\nload B empty.mtx\n",
        [3, 0, 0, 0],
    ),
    (SECTIONS, [4, 1, 0, 3]),
];

/// The gate stands round so many statements of each section.
fn expect_counted<R: Abort + Threads + Wait + Sync>(
    rt: &R,
    alloc: Global,
    script: &str,
    wanted: [u64; 4],
) {
    let mut source = source_of(alloc, script, &FILES);
    let mut sink = sink_of(alloc, 1000, 1000);
    let sections = SectionGates::new();
    let _ended = run_script(rt, alloc, 16, &mut source, &mut sink, &sections);
    for (gate, count) in sections.gates.iter().zip(wanted) {
        let counts = (
            gate.before.load(Ordering::SeqCst),
            gate.after.load(Ordering::SeqCst),
            gate.wrong.load(Ordering::SeqCst),
        );
        same(rt, counts, (count, count, 0), script);
    }
}

#[test]
fn the_gate_stands_round_each_statement_of_each_section(rt: HostRuntime) {
    for (script, counts) in &COUNTED {
        expect_counted(&rt, rt.alloc(), *script, *counts);
    }
}
