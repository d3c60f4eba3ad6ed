//! The first line of a text, and its size line.
ghost use Rattle.std.specs.Prelude.{◌≡◌, ◌<◌, IfOk};
ghost use Rattle.grb_core.specs.Contents.{IsDimension};
ghost use Rattle.grb_market.specs.Reading.{head_of, size_from, size_of, entry_from, entry_of, is_in};

use crate::fault::FaultKind;
use crate::numbers::{three_numbers, two_numbers};
use grb_core::{Domain, Value, is_dimension};

/// What the first line of a file says.
#[derive(Clone, Copy)]
pub(crate) struct Head {
    /// The domain of the values: `Uint64` of an integer file, `Bool` of a pattern file.
    pub domain: Domain,
    /// Each entry off the diagonal stands for two.
    pub is_symmetric: bool,
}

/// What the size line of a file says.
#[derive(Clone, Copy)]
pub(crate) struct Size {
    pub nrows: u64,
    pub ncols: u64,
    /// The number of entry lines.
    pub count: u64,
}

/// What the first line says, if it is one of the four.
pub(crate) fn head_of(line: &[u8]) -> Option<Head>
    ensures { result ≡ head_of line.now }
{
    let (domain, is_symmetric) = if line
        == b"%%MatrixMarket matrix coordinate integer general".as_slice()
    {
        (Domain::Uint64, false)
    } else if line == b"%%MatrixMarket matrix coordinate integer symmetric".as_slice() {
        (Domain::Uint64, true)
    } else if line == b"%%MatrixMarket matrix coordinate pattern general".as_slice() {
        (Domain::Bool, false)
    } else if line == b"%%MatrixMarket matrix coordinate pattern symmetric".as_slice() {
        (Domain::Bool, true)
    } else {
        return None;
    };
    Some(Head {
        domain,
        is_symmetric,
    })
}

/// The size with these three numbers, or what is wrong with them in a file with this head.
fn size_from(head: Head, nrows: u64, ncols: u64, count: u64) -> Result<Size, FaultKind>
    ensures is { result ≡ size_from head nrows ncols count }
    ensures rows { IfOk result (λ s. IsDimension s.nrows) }
    ensures columns { IfOk result (λ s. IsDimension s.ncols) }
{
    if !(is_dimension(nrows) && is_dimension(ncols)) {
        return Err(FaultKind::Dimension);
    }
    if head.is_symmetric && nrows != ncols {
        return Err(FaultKind::NotSquare);
    }
    Ok(Size {
        nrows,
        ncols,
        count,
    })
}

/// The size that a line states, or what is wrong with it.
pub(crate) fn size_of(head: Head, line: &[u8]) -> Result<Size, FaultKind>
    ensures is { result ≡ size_of head line.now }
    ensures rows { IfOk result (λ s. IsDimension s.nrows) }
    ensures columns { IfOk result (λ s. IsDimension s.ncols) }
{
    let Some((nrows, ncols, count)) = three_numbers(line) else {
        return Err(FaultKind::SizeLine);
    };
    let (Some(nrows), Some(ncols), Some(count)) = (nrows, ncols, count) else {
        return Err(FaultKind::SizeLine);
    };
    size_from(head, nrows, ncols, count)
}

/// Whether the number is one of 1 to `most`.
fn is_in(most: u64, n: u64) -> bool
    ensures { result ≡ is_in most n }
{
    1 <= n && n <= most
}

/// The entry at this row and column, counted from 1, or what is wrong with it. `None` is a number above 2^64 - 1.
pub(crate) fn entry_from(
    head: Head,
    size: Size,
    i: Option<u64>,
    j: Option<u64>,
    value: Option<Value>,
) -> Result<((u64, u64), Value), FaultKind>
    ensures is { result ≡ entry_from head size i j value }
    ensures row { IfOk result (λ e. e.0.0 < size.nrows) }
    ensures column { IfOk result (λ e. e.0.1 < size.ncols) }
{
    let (Some(i), Some(j)) = (i, j) else {
        return Err(FaultKind::Index);
    };
    if !(is_in(size.nrows, i) && is_in(size.ncols, j)) {
        return Err(FaultKind::Index);
    }
    let Some(value) = value else {
        return Err(FaultKind::Value);
    };
    if head.is_symmetric && i < j {
        return Err(FaultKind::UpperTriangle);
    }
    Ok(((i - 1, j - 1), value))
}

/// The entry that a line states, or what is wrong with it by itself.
pub(crate) fn entry_of(
    head: Head,
    size: Size,
    line: &[u8],
) -> Result<((u64, u64), Value), FaultKind>
    ensures is { result ≡ entry_of head size line.now }
    ensures row { IfOk result (λ e. e.0.0 < size.nrows) }
    ensures column { IfOk result (λ e. e.0.1 < size.ncols) }
{
    match head.domain {
        Domain::Uint64 => {
            let Some((i, j, value)) = three_numbers(line) else {
                return Err(FaultKind::EntryLine);
            };
            entry_from(head, size, i, j, value.map(Value::Uint64))
        }
        Domain::Bool => {
            let Some((i, j)) = two_numbers(line) else {
                return Err(FaultKind::EntryLine);
            };
            entry_from(head, size, i, j, Some(Value::Bool(true)))
        }
    }
}
