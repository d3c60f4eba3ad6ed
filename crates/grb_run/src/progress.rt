//! Threads that help: they make blocks of the dear products that a run has to make at the moment, and run no statement.
use crate::loads::ScriptSteps;
use grb_context::Context;
use std::sync::Wait;
use std::sync::atomic::{AtomicBool, AtomicU64, Ordering};
use std::thread;
use std::thread::{Parker, Scope, Threads};
use std::time::Duration;

/// How many threads a command line asks for at most. More would find no block: a product is cut into some 64 at most (own).
pub const MOST_THREADS: u32 = 64;

/// How long a thread rests that finds nothing to help with, in microseconds (own). A dear product takes some milliseconds at the least.
const REST: u64 = 500;

/// Until when a thread helps.
#[derive(Clone, Copy)]
pub(crate) enum Until {
    /// The thread sections begin.
    SectionsBegin,
    /// All thread sections have ended.
    SectionsEnd,
    /// The run ends.
    RunEnds,
}

/// How far a run has come, for those that help, and how many they are. No line of a run depends on it.
#[derive(Drop)]
pub(crate) struct Progress {
    sections: u32,
    // How many threads of sections that have ended help: all, but no more than there are other processors, and none where no statement
    // makes a product of two matrices.
    idle: u32,
    // How many threads help main from the beginning, and until when.
    first: u32,
    until: Until,
    // How many more help from the beginning to the end.
    more: u32,
    begun: AtomicBool,
    ended: AtomicU64,
    over: AtomicBool,
}

/// How many processors there are for this program beside one; 3 where that is not known.
fn other_processors<R: Threads>(rt: &R) -> u32 {
    match thread::available_parallelism(rt) {
        Ok(count) => u32::try_from(count.get())
            .unwrap_or(u32::MAX)
            .saturating_sub(1),
        Err(_) => 3,
    }
}

/// Lets the thread rest for a moment.
fn rest<R: Wait>(rt: &R) {
    let parker = Parker::new();
    parker.park_timeout(rt, Duration::from_micros(REST));
}

impl Progress {
    /// A run of this script that has not begun, by so many threads where it has fewer of its own: one for each thread section, and main's.
    pub(crate) fn new<R: Threads>(rt: &R, script: &ScriptSteps, threads: u32) -> Progress {
        let sections = u32::try_from(script.threads.len()).unwrap_or(u32::MAX);
        let is_last = script.finally.multiplies();
        let until = if is_last {
            Until::RunEnds
        } else {
            Until::SectionsBegin
        };
        let mut progress = Progress {
            sections,
            idle: 0,
            first: 0,
            until,
            more: 0,
            begun: AtomicBool::new(false),
            ended: AtomicU64::new(0),
            over: AtomicBool::new(false),
        };
        if script.multiplies() {
            progress.idle = sections.min(other_processors(rt));
            progress.more = threads.saturating_sub(1).saturating_sub(sections);
        }
        if is_last || script.main.multiplies() {
            progress.first = progress.idle;
        }
        progress
    }

    /// Whether threads help that no section has.
    pub(crate) fn has_more(&self) -> bool {
        self.more > 0
    }

    /// The thread sections begin.
    pub(crate) fn begin_sections(&self) {
        self.begun.store(true, Ordering::SeqCst);
    }

    /// One thread section has ended; whether its thread is to help now.
    pub(crate) fn end_section(&self) -> bool {
        let before = self.ended.fetch_add(1, Ordering::SeqCst);
        before < u64::from(self.idle)
    }

    /// The run ends: nobody helps any more.
    pub(crate) fn end(&self) {
        self.over.store(true, Ordering::SeqCst);
    }

    fn has_come(&self, until: Until) -> bool {
        let over = self.over.load(Ordering::SeqCst);
        match until {
            Until::SectionsBegin => over || self.begun.load(Ordering::SeqCst),
            Until::SectionsEnd => over
                || self.ended.load(Ordering::SeqCst) >= u64::from(self.sections),
            Until::RunEnds => over,
        }
    }

    /// Helps until then, and rests where there is nothing to help with.
    pub(crate) fn help<R: Wait>(&self, rt: &R, context: &Context, until: Until) {
        for _ in rt.forever() {
            if self.has_come(until) {
                break;
            }
            if context.lend_hand() == 0 {
                rest(rt);
            }
        }
    }
}

/// Starts so many threads that help until then. The run goes on without those that are not started.
fn start_some<'s, E, R: Wait + Sync>(
    rt: &'s R,
    scope: &Scope<'s, E>,
    context: &'s Context,
    progress: &'s Progress,
    count: u32,
    until: Until,
) {
    'helpers: for _ in 0..count {
        let help = move || progress.help(rt, context, until);
        let _ = scope.spawn(help);
    }
}

/// Starts the threads that help in a run: for main as many as there are sections or other processors, where it has a product to make, until
/// the sections begin, or until the run ends where it has one after them; and those that the run has more, until it ends.
pub(crate) fn start_helpers<'s, E, R: Wait + Sync>(
    rt: &'s R,
    scope: &Scope<'s, E>,
    context: &'s Context,
    progress: &'s Progress,
) {
    start_some(rt, scope, context, progress, progress.first, progress.until);
    start_some(rt, scope, context, progress, progress.more, Until::RunEnds);
}
