//! The text of a matrix, kept whole.
ghost use Rattle.std.specs.Prelude.{◌≡◌, true, Some};

use grb_market::{Sink, SinkFault, WriteFault, write};
use grb_sparse::SparseMatrix;
use std::alloc::{AllocError, Global};

/// Keeps what it is given.
#[derive(Drop)]
struct Kept {
    taken: Vec<u8>,
    failures: u64,
}

impl Kept {
    fn new(alloc: Global) -> Kept
        ensures { result.failures ≡ 0 }
    {
        Kept {
            taken: Vec::new(alloc),
            failures: 0,
        }
    }
}

impl Sink for Kept {
    ghost taken = { λ s. Some s.taken.items };

    ghost failures = { λ s. s.failures };

    fn put(&mut self, bytes: &[u8]) -> Result<usize, SinkFault> {
        if self.taken.extend_from_slice(bytes).is_err() {
            self.failures += 1;
            return Err(SinkFault);
        }
        Ok(bytes.len())
    }
}

/// The text that is written of a matrix, or why it is not.
pub(crate) fn text_of(alloc: Global, a: &SparseMatrix) -> Result<Vec<u8>, WriteFault>
    requires { a.now.assembled ≡ true }
{
    let mut kept = Kept::new(alloc);
    write(alloc, a, &mut kept)?;
    Ok(kept.taken)
}
