//! What the tests hold back of memory, and let go.
use grb_scarcity::{Hoard, SPARE, never_overcommits};
use std::fs::Files;
use std::process::Abort;

/// By how many bytes a call has more at each trial: no block is smaller.
pub(super) const STEP: usize = 32;

/// How often a call is tried at most.
pub(super) const TRIALS: usize = 1_000;

/// Leaves so many bytes over, and holds back what was given back since.
pub(super) fn leave(rt: &impl Abort, hoard: &mut Hoard, bytes: usize) {
    assert!(rt; hoard.leave(bytes), "no spare is left");
}

/// Leaves more than any test needs.
pub(super) fn leave_ample(rt: &impl Abort, hoard: &mut Hoard) {
    leave(rt, hoard, SPARE);
}

/// Holds all memory back but this many spares, on a machine where that takes nothing from others.
pub(super) fn hold_all<R: Abort + Files + AllocGlobal>(rt: &R, spares: usize) -> Hoard {
    assert!(rt;
        never_overcommits(rt) == Some(false),
        "the machine counts what is asked for"
    );
    let Ok(mut hoard) = Hoard::open(rt.alloc(), spares) else {
        panic!(rt; "no memory for the spares")
    };
    assert!(rt; hoard.take_all(), "the machine refuses nothing");
    hoard
}
