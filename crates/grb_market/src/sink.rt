//! Where a text is written to.
ghost use Rattle.std.specs.Prelude.{◌≡◌, ℕ, ◌+◌, ◌-◌, ◌^◌, ◌<◌, List, Option, OnOk, OnErr, is_ok, if◌then◌else◌};
ghost use Rattle.std.specs.Io.{WritesAtMost};
ghost use Rattle.std.specs.Io.KnownBytes.{Appends, WriteAppends};
ghost use Rattle.grb_market.specs.Sink.{failures_after, AppendsBeginning};

use thiserror::Error;

/// A sink failed: it took no byte of a piece that is not empty.
#[derive(Clone, Copy, Debug, PartialEq, Eq, Error)]
#[error("the sink failed")]
pub struct SinkFault;

/// Takes bytes, piece by piece (own).
///
/// `taken` are the bytes that it took so far, where the sink tells them, and `failures` is how often it failed, below 2^64.
pub trait Sink {
    ghost taken: { Self → Option (List ℕ) };

    ghost failures: { Self → ℕ };

    /// Takes the first bytes of a piece, and answers how many. A `SinkFault` takes none. An `Ok(0)` for a piece that is not empty is a
    /// failure too.
    fn put(&mut self, bytes: &[u8]) -> Result<usize, SinkFault>
        requires { failures self.old < 2 ^ 64 - 1 }
        ensures count { WritesAtMost result bytes.now }
        ensures taken { WriteAppends (taken self.old) (taken self.new) result bytes.now }
        ensures failures { failures self.new ≡ failures_after (failures self.old) result bytes.now };
}

/// Puts piece after piece until all bytes are taken. The first failure ends it, with a beginning of the bytes taken.
pub fn put_all<W: Sink>(sink: &mut W, bytes: &[u8]) -> Result<(), SinkFault>
    requires { W.failures sink.old < 2 ^ 64 - 1 }
    ensures ok { OnOk result (Appends (W.taken sink.old) (W.taken sink.new) bytes.now) }
    ensures err { OnErr result (AppendsBeginning (W.taken sink.old) (W.taken sink.new) bytes.now) }
    ensures failures { W.failures sink.new ≡ (if is_ok result then W.failures sink.old else W.failures sink.old + 1) }
{
    let mut count = 0;
    while count < bytes.len() {
        match sink.put(&bytes[count..])? {
            0 => return Err(SinkFault),
            more => count += more,
        }
    }
    Ok(())
}
