//! Two sections that hold each other: neither can end unless both run at the same time, and their gate is told of a statement before it is
//! made and once it is answered. No contract says so, and no script can wait for another section.
use crate::tests::same::same;
use crate::tests::sinks::sink_of;
use crate::tests::sources::source_of;
use grb_run::{Gate, run_script};
use std::sync::atomic::{AtomicU64, Ordering};
use std::test::Fail;

/// Two sections that each set an entry of their own and read it.
const OWN: &str =
    "vector v uint64 4\nthread 1\nset v 0 1\nget v 0\nthread 2\nset v 1 2\nget v 1\nfinally\nnvals v\n";

const OWN_LINES: &str = "ok\nok\nvalue 1\nok\nvalue 2\ncount 2\n";

/// How many turns a statement is held at most.
const TURNS: u64 = 200_000_000;

/// Holds the second statement of each of two thread sections until the first one of the other was answered, or for so many turns.
#[derive(Drop)]
struct MeetingGate {
    answered: [AtomicU64; 2],
    held: AtomicU64,
    given_up: AtomicU64,
}

impl MeetingGate {
    fn hold(&self, other: &AtomicU64) {
        self.held.fetch_add(1, Ordering::SeqCst);
        for _ in 0..TURNS {
            if other.load(Ordering::SeqCst) > 0 {
                return;
            }
        }
        self.given_up.fetch_add(1, Ordering::SeqCst);
    }
}

impl Gate for MeetingGate {
    fn before(&self, section: u32, statement: u32) {
        match (section, statement) {
            (1, 2) => self.hold(&self.answered[1]),
            (2, 2) => self.hold(&self.answered[0]),
            _ => {}
        }
    }

    fn after(&self, section: u32, statement: u32) {
        match (section, statement) {
            (1, 1) => {
                self.answered[0].fetch_add(1, Ordering::SeqCst);
            }
            (2, 1) => {
                self.answered[1].fetch_add(1, Ordering::SeqCst);
            }
            _ => {}
        }
    }
}

#[test]
fn two_sections_meet(rt: HostRuntime) -> Result<(), Fail> {
    let gate = MeetingGate {
        answered: [AtomicU64::new(0), AtomicU64::new(0)],
        held: AtomicU64::new(0),
        given_up: AtomicU64::new(0),
    };
    let mut source = source_of(rt.alloc(), OWN, &[]);
    let mut sink = sink_of(rt.alloc(), 1000, 1000);
    run_script(&rt, rt.alloc(), 16, &mut source, &mut sink, &gate)?;
    same(&rt, sink.taken.as_slice(), OWN_LINES.as_bytes(), "lines");
    for answered in &gate.answered {
        same(&rt, answered.load(Ordering::SeqCst), 1, "first statements");
    }
    same(&rt, gate.held.load(Ordering::SeqCst), 2, "held");
    same(&rt, gate.given_up.load(Ordering::SeqCst), 0, "given up");
    Ok(())
}

/// The second section reads what the first sets.
const READ: &str =
    "vector v uint64 2\nthread 1\nnvals v\nset v 0 7\nthread 2\nsize v\nget v 0\nsize v\n";

const READ_LINES: &str = "ok\ncount 0\nok\nsize 2\nvalue 7\nsize 2\n";

/// Holds the set until the read is about to be made, the read until the set was answered, and the first section after its set until the
/// read was answered. A set that comes too late, or a read that comes too soon, finds nothing.
#[derive(Drop)]
struct OrderingGate {
    reads: AtomicU64,
    has_set: AtomicU64,
    has_read: AtomicU64,
    given_up: AtomicU64,
}

impl OrderingGate {
    /// Says that this has come.
    fn tell(&self, event: &AtomicU64) {
        event.fetch_add(1, Ordering::SeqCst);
    }

    /// Waits until this has come, or for so many turns.
    fn hold(&self, event: &AtomicU64) {
        for _ in 0..TURNS {
            if event.load(Ordering::SeqCst) > 0 {
                return;
            }
        }
        self.given_up.fetch_add(1, Ordering::SeqCst);
    }
}

impl Gate for OrderingGate {
    fn before(&self, section: u32, statement: u32) {
        match (section, statement) {
            (2, 2) => {
                self.tell(&self.reads);
                self.hold(&self.has_set);
            }
            (2, 3) => self.tell(&self.has_read),
            _ => {}
        }
    }

    fn after(&self, section: u32, statement: u32) {
        match (section, statement) {
            (1, 1) => self.hold(&self.reads),
            (1, 2) => {
                self.tell(&self.has_set);
                self.hold(&self.has_read);
            }
            _ => {}
        }
    }
}

#[test]
fn a_gate_is_told_before_a_statement_and_once_it_is_answered(rt: HostRuntime) -> Result<(), Fail> {
    let gate = OrderingGate {
        reads: AtomicU64::new(0),
        has_set: AtomicU64::new(0),
        has_read: AtomicU64::new(0),
        given_up: AtomicU64::new(0),
    };
    let mut source = source_of(rt.alloc(), READ, &[]);
    let mut sink = sink_of(rt.alloc(), 1000, 1000);
    run_script(&rt, rt.alloc(), 16, &mut source, &mut sink, &gate)?;
    same(&rt, sink.taken.as_slice(), READ_LINES.as_bytes(), "lines");
    same(&rt, gate.given_up.load(Ordering::SeqCst), 0, "given up");
    Ok(())
}
