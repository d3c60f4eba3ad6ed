//! Standard output, or what else takes bytes, as a sink of lines.
ghost use Rattle.std.specs.Prelude.{◌≡◌, ◌≢◌, IfErr};
ghost use Rattle.std.specs.Io.{WritesAtMost};
ghost use Rattle.std.specs.IoError.{error_kind};
ghost use Rattle.std.specs.Io.KnownBytes.{WriteAppends};

use grb_market::{Sink, SinkFault};
use std::io;
use std::io::{ErrorKind, Write};

/// A sink that writes to a writer. It tells the bytes that the writer tells.
#[derive(Drop)]
pub struct OutputSink<W> {
    /// Where the bytes go.
    pub writer: W,
    /// How many pieces failed: their write failed, or took no byte of one that is not empty.
    pub failures: u64,
}

impl<W: Write> OutputSink<W> {
    /// A sink that has not failed yet.
    pub fn new(writer: W) -> Self
        ensures writer { result.writer ≡ writer }
        ensures failures { result.failures ≡ 0 }
    {
        OutputSink {
            writer,
            failures: 0,
        }
    }
}

/// Writes the first bytes of a piece, and answers how many. Where a signal interrupts it, it writes again.
fn write_some<W: Write>(writer: &mut W, bytes: &[u8]) -> io::Result<usize>
    ensures count { WritesAtMost result bytes.now }
    ensures retried { IfErr result (λ error. error_kind error ≢ ErrorKind.Interrupted) }
    ensures bytes { WriteAppends (W.contents writer.old) (W.contents writer.new) result bytes.now }
{
    for _ in 0..u64::MAX {
        match writer.write(bytes) {
            Err(error) if error.kind() == ErrorKind::Interrupted => {}
            outcome => return outcome,
        }
    }
    Err(io::Error::other("interrupted too often"))
}

impl<W: Write> Sink for OutputSink<W> {
    ghost taken = { λ s. W.contents s.writer };

    ghost failures = { λ s. s.failures };

    fn put(&mut self, bytes: &[u8]) -> Result<usize, SinkFault> {
        let outcome = write_some(&mut self.writer, bytes);
        match outcome {
            Ok(count) if count > 0 || bytes.is_empty() => Ok(count),
            Ok(count) => {
                self.failures += 1;
                Ok(count)
            }
            Err(_) => {
                self.failures += 1;
                Err(SinkFault)
            }
        }
    }
}
