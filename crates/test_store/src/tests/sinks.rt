//! A sink that takes little at a time, and fails in time. Contracts say of a failed sink that it took a beginning; which one, and that a
//! run goes on through short pieces, the endings say.
ghost use Rattle.std.specs.Prelude.{◌≡◌, Some};

use grb_market::{Sink, SinkFault};
use std::alloc::Global;

/// How a sink says that it takes no more.
#[derive(Clone, Copy)]
pub(super) enum Full {
    Fails,
    TakesNone,
}

/// Takes at most `step` bytes at a time and `room` bytes in all.
#[derive(Drop)]
pub(super) struct SmallSink {
    pub(super) taken: Vec<u8>,
    pub(super) step: usize,
    pub(super) room: usize,
    pub(super) full: Full,
    pub(super) failures: u64,
}

impl Sink for SmallSink {
    ghost taken = { λ s. Some s.taken.items };

    ghost failures = { λ s. s.failures };

    fn put(&mut self, bytes: &[u8]) -> Result<usize, SinkFault> {
        let left = self.room.saturating_sub(self.taken.len());
        let count = bytes.len().min(self.step).min(left);
        if count == 0 && !bytes.is_empty() {
            self.failures += 1;
            return match self.full {
                Full::Fails => Err(SinkFault),
                Full::TakesNone => Ok(0),
            };
        }
        if self.taken.extend_from_slice(&bytes[..count]).is_err() {
            self.failures += 1;
            return Err(SinkFault);
        }
        Ok(count)
    }
}

/// A sink that fails where it is full.
pub(super) fn sink_of(alloc: Global, step: usize, room: usize) -> SmallSink
    ensures { result.failures ≡ 0 }
{
    SmallSink {
        taken: Vec::new(alloc),
        step,
        room,
        full: Full::Fails,
        failures: 0,
    }
}
