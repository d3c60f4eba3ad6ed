//! Standard output that is interrupted, or full. What a writer answers is known to no contract, and the output of a script never fails.
use crate::tests::same::same;
use grb_market::{Sink, SinkFault};
use grb_run::OutputSink;
use std::io;
use std::io::{ErrorKind, Write};

/// A writer that is interrupted twice, takes two bytes, takes none, and then fails.
#[derive(Drop)]
struct Slow {
    calls: u8,
}

impl Write for Slow {
    fn write(&mut self, buf: &[u8]) -> io::Result<usize> {
        self.calls = self.calls.saturating_add(1);
        match self.calls {
            1 | 2 => Err(io::Error::from(ErrorKind::Interrupted)),
            3 => Ok(buf.len().min(2)),
            4 => Ok(0),
            _ => Err(io::Error::from(ErrorKind::StorageFull)),
        }
    }

    fn flush(&mut self) -> io::Result<()> {
        Ok(())
    }
}

#[test]
fn an_interrupted_write_is_tried_again_and_a_failure_is_counted(rt: HostRuntime) {
    let mut sink = OutputSink::new(Slow { calls: 0 });
    same(&rt, sink.put(b"abc"), Ok(2), "two bytes");
    same(&rt, sink.failures, 0, "failures after two bytes");
    same(&rt, sink.put(b"abc"), Ok(0), "no byte");
    same(&rt, sink.failures, 1, "failures after no byte");
    same(&rt, sink.put(b"abc"), Err(SinkFault), "a failure");
    same(&rt, sink.failures, 2, "failures after a failure");
}
