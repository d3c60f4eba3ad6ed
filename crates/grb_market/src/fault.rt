//! What is wrong with a text, and what reading and writing may fail with.
ghost use Rattle.std.specs.Prelude.{◌≡◌};
ghost use Rattle.grb_market.specs.declared.fault.ReadError.TheVariants as read;
ghost use Rattle.grb_market.specs.declared.fault.WriteFault.TheVariants as write;

use crate::sink::SinkFault;
use std::alloc::AllocError;
use thiserror::Error;

/// What is wrong with a line of a Matrix Market file. Of several the first in this order is answered.
#[derive(Clone, Copy, Debug, PartialEq, Eq, Error)]
pub enum FaultKind {
    /// The last line has no end.
    #[error("unended line")]
    UnendedLine,
    /// Line 1 is missing or is none of the four.
    #[error("header")]
    Header,
    /// The size line is missing, is not three numbers, or has a number above 2^64 - 1.
    #[error("size line")]
    SizeLine,
    /// Rows or columns are out of range.
    #[error("dimension")]
    Dimension,
    /// The file is symmetric, and rows and columns differ.
    #[error("not square")]
    NotSquare,
    /// An entry line is missing.
    #[error("too few entries")]
    TooFew,
    /// The line has not the numbers that the field asks for.
    #[error("entry line")]
    EntryLine,
    /// The row or the column is out of range.
    #[error("index")]
    Index,
    /// The value is above 2^64 - 1.
    #[error("value")]
    Value,
    /// The file is symmetric, and the row is less than the column.
    #[error("upper triangle")]
    UpperTriangle,
    /// The pair stood in an earlier line.
    #[error("repeated")]
    Repeated,
    /// The line stands after the last entry line.
    #[error("too many entries")]
    TooMany,
}

/// The first fault of a Matrix Market file.
#[derive(Clone, Copy, Debug, PartialEq, Eq)]
pub struct MarketFault {
    /// The number of the line, from 1. A line that is missing has the number of the last line plus 1.
    pub line: u64,
    /// The first of its faults.
    pub kind: FaultKind,
}

/// Why a text was not read.
#[derive(Debug, PartialEq, Eq, Drop, Error)]
pub enum ReadError {
    /// The text has a fault, and this is the first.
    #[error("line {}: {}", .0.line, .0.kind)]
    Fault(MarketFault),
    /// Memory was refused.
    #[error("out of memory")]
    OutOfMemory,
}

impl From<AllocError> for ReadError {
    ghost from_gives = { λ _ fault. fault ≡ read.OutOfMemory };

    fn from(_refused: AllocError) -> ReadError {
        ReadError::OutOfMemory
    }
}

/// Why a matrix was not written.
#[derive(Clone, Copy, Debug, PartialEq, Eq, Error)]
pub enum WriteFault {
    /// The matrix stores a false, which a pattern file cannot state. Nothing was written.
    #[error("a false is stored")]
    NotPattern,
    /// The sink failed. A beginning of the text was taken.
    #[error("cannot write")]
    Sink,
    /// Memory was refused. A beginning of the text was taken.
    #[error("out of memory")]
    OutOfMemory,
}

impl From<SinkFault> for WriteFault {
    ghost from_gives = { λ _ fault. fault ≡ write.Sink };

    fn from(_failed: SinkFault) -> WriteFault {
        WriteFault::Sink
    }
}

impl From<AllocError> for WriteFault {
    ghost from_gives = { λ _ fault. fault ≡ write.OutOfMemory };

    fn from(_refused: AllocError) -> WriteFault {
        WriteFault::OutOfMemory
    }
}
