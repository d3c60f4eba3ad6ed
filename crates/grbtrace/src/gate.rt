//! A gate that notes the time of each statement.
use grb_run::Gate;
use std::alloc::AllocError;
use std::rt::Clock;
use std::sync::atomic::{AtomicU64, Ordering};
use std::time::{Duration, Instant};

/// The sections of a script: main and `finally` are the section 0, thread sections have the numbers 1 to 255.
const SECTIONS: usize = 256;

/// A gate that writes a line to standard error for each statement: its section, its number there, and the microseconds that it took.
///
/// Only one statement of a section runs at a time, so one moment for each section is all that it keeps.
#[derive(Drop)]
pub(crate) struct TraceGate<'a, R> {
    rt: &'a R,
    opened: Option<Instant>,
    /// When the last statement of each section began, in nanoseconds since the gate was opened.
    begun: Vec<AtomicU64>,
}

impl<'a, R: Clock + AllocGlobal> TraceGate<'a, R> {
    /// A gate of a run in which no statement has begun. `AllocError` where memory is refused.
    pub(crate) fn open(rt: &'a R) -> Result<Self, AllocError> {
        let mut begun = Vec::with_capacity(rt.alloc(), SECTIONS)?;
        for _ in 0..SECTIONS {
            begun.push(AtomicU64::new(0))?;
        }
        let opened = Instant::now(rt).ok();
        Ok(TraceGate { rt, opened, begun })
    }
}

impl<R: Clock> TraceGate<'_, R> {
    /// The nanoseconds since the gate was opened, or 0 where the clock cannot be read.
    fn now(&self) -> u64 {
        let Some(opened) = &self.opened else {
            return 0;
        };
        let elapsed = opened.elapsed(self.rt).unwrap_or(Duration::ZERO);
        u64::try_from(elapsed.as_nanos()).unwrap_or(u64::MAX)
    }
}

impl<R: Clock + Eprint> Gate for TraceGate<'_, R> {
    fn before(&self, section: u32, _statement: u32) {
        if let Some(begun) = self.begun.get(section as usize) {
            begun.store(self.now(), Ordering::SeqCst);
        }
    }

    fn after(&self, section: u32, statement: u32) {
        if let Some(begun) = self.begun.get(section as usize) {
            let nanos = self.now().saturating_sub(begun.load(Ordering::SeqCst));
            // A trace that cannot be written stops no script.
            let _ = eprintln!(self.rt;
                "section {section} statement {statement}: {} us",
                nanos / 1000
            );
        }
    }
}
