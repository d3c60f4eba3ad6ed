//! Why a run ends before its end.
ghost use Rattle.std.specs.Prelude.{◌≡◌};
ghost use Rattle.grb_run.specs.declared.fault.RunFault.TheVariants as run;
ghost use Rattle.grb_run.specs.RunFault.{source_run_fault, read_run_fault};

use crate::source::SourceFault;
use grb_market::{MarketFault, SinkFault};
use grb_script::{FaultKind, ReadFault, ScriptFault};
use std::alloc::AllocError;
use thiserror::Error;

/// Why a run of a script ended without writing all of its lines. That no statement was run, and before `TooManySections` no file read, is
/// in no contract; tests show it.
#[derive(Debug, PartialEq, Eq, Drop, Error)]
pub enum RunFault {
    /// The script has a fault, and this is the first. Nothing was run or written.
    #[error("line {line}: {kind}")]
    Script {
        /// The number of the line, from 1.
        line: u64,
        kind: FaultKind,
    },
    /// The script has no fault, but the room times the number of its passes is above 1,048,576: main's pass and one for each thread
    /// section. Nothing was run or written, and no file was read.
    #[error("too many sections for the room")]
    TooManySections,
    /// The file of the load on this line has a fault, and this is the first. The script and the files of the loads before it have none.
    /// Nothing was run or written.
    #[error("line {line}: load: line {}: {}", .fault.line, .fault.kind)]
    Load {
        /// The number of the script's line, from 1.
        line: u64,
        fault: MarketFault,
    },
    /// The source could not read the script. Nothing was run or written.
    #[error("cannot read the script")]
    CannotReadScript,
    /// The source could not read the file of the load on this line. Nothing was run or written.
    #[error("line {line}: cannot read the file")]
    CannotReadFile {
        /// The number of the script's line, from 1.
        line: u64,
    },
    /// The source has a script of more than 1,048,576 bytes. Nothing was run or written.
    #[error("the script is too long")]
    ScriptTooLong,
    /// The source has more than 67,108,864 bytes in the file of the load on this line. Nothing was run or written.
    #[error("line {line}: the file is too long")]
    FileTooLong {
        /// The number of the script's line, from 1.
        line: u64,
    },
    /// Memory was refused outside of the calls: for the texts, the store or the answers. Nothing was written.
    #[error("out of memory")]
    OutOfMemory,
    /// A thread of a thread section was not started, for whatever reason, memory too. Those that were started ended first. Nothing was
    /// written.
    #[error("cannot start a thread")]
    NoThread,
    /// A pass could not learn what another knows, since a record is not shown. Nothing was written.
    #[error("GrB_PANIC")]
    Panic,
    /// The sink failed. A beginning of the lines was written.
    #[error("cannot write")]
    CannotWrite,
}

impl From<SourceFault> for RunFault {
    ghost from_gives = { λ fault run_fault. run_fault ≡ source_run_fault fault };

    fn from(fault: SourceFault) -> RunFault {
        match fault {
            SourceFault::CannotRead => RunFault::CannotReadScript,
            SourceFault::TooLong => RunFault::ScriptTooLong,
            SourceFault::OutOfMemory => RunFault::OutOfMemory,
        }
    }
}

impl From<ReadFault> for RunFault {
    ghost from_gives = { λ fault run_fault. run_fault ≡ read_run_fault fault };

    fn from(fault: ReadFault) -> RunFault {
        match fault {
            ReadFault::Fault(ScriptFault { line, kind }) => RunFault::Script { line, kind },
            ReadFault::OutOfMemory => RunFault::OutOfMemory,
        }
    }
}

impl From<AllocError> for RunFault {
    ghost from_gives = { λ _ fault. fault ≡ run.OutOfMemory };

    fn from(_fault: AllocError) -> RunFault {
        RunFault::OutOfMemory
    }
}

impl From<SinkFault> for RunFault {
    ghost from_gives = { λ _ fault. fault ≡ run.CannotWrite };

    fn from(_fault: SinkFault) -> RunFault {
        RunFault::CannotWrite
    }
}
