//! What is wrong with a script, and on which line.
ghost use Rattle.std.specs.Prelude.{◌≡◌};
ghost use Rattle.grb_script.specs.declared.fault.ReadFault.TheVariants as read;

use grb_words::FaultKind;
use std::alloc::AllocError;
use thiserror::Error;

/// The first fault of a script.
#[derive(Clone, Copy, Debug, PartialEq, Eq)]
pub struct ScriptFault {
    /// The number of the line, from 1.
    pub line: u64,
    /// The first of its faults.
    pub kind: FaultKind,
}

/// Why a text was not read as a script.
#[derive(Debug, PartialEq, Eq, Drop, Error)]
pub enum ReadFault {
    /// The text has a fault, and this is the first.
    #[error("line {}: {}", .0.line, .0.kind)]
    Fault(ScriptFault),
    /// Memory was refused.
    #[error("out of memory")]
    OutOfMemory,
}

impl From<AllocError> for ReadFault {
    ghost from_gives = { λ _ fault. fault ≡ read.OutOfMemory };

    fn from(_refused: AllocError) -> ReadFault {
        ReadFault::OutOfMemory
    }
}
