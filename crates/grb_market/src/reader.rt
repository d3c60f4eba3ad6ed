//! A Matrix Market text read: its first line, its size line, then its entries.
ghost use Rattle.std.specs.Prelude.{◌≡◌, ◌+◌, ◌<◌, ◌≤◌, [], length, Some, IfOk, IfErr, IsTrue, Ok, true};
ghost use Rattle.std.specs.FinMap.{is_sorted};
ghost use Rattle.std.specs.Result.{result_err};
ghost use Rattle.grb_core.specs.Contents.{IsDimension};
ghost use Rattle.grb_core.specs.Entries.{cell_cmp, cells_of};
ghost use Rattle.grb_market.specs.declared.fault.ReadError.TheVariants as read;
ghost use Rattle.grb_market.specs.Reading.{size_of};
ghost use Rattle.grb_core.specs.Contents.{IsMatrix};
ghost use Rattle.grb_core.specs.Entries.{map_from};
ghost use Rattle.grb_market.specs.Fault.{AtSize, AtEntry, fault_at, market_fault, IsWhyLineUnread, IsWhyUnread};
ghost use Rattle.grb_market.specs.declared.fault.FaultKind.TheVariants.{Repeated};
ghost use Rattle.grb_market.specs.Spells.{Spells, written_out};
ghost use Rattle.grb_market.specs.Loaded.{matrix_loaded};
ghost use Rattle.grb_market.specs.Stands.{Stands, IsRead};
ghost use Rattle.grb_market.specs.Gathered.{AreAllGathered, IsTwice};
ghost use Rattle.grb_market.specs.Sides.{AreLower};

use crate::entry::next_entry;
use crate::fault::{FaultKind, MarketFault, ReadError};
use crate::gathered::{append_next, count_apart, put_in_order};
use crate::head::{Head, Size, head_of, size_of};
use crate::line::{is_comment, next_line};
use crate::loaded::{Loaded, Tuples};
use crate::sides::whole;
use grb_core::Value;
use std::alloc::{AllocError, Global};

/// The error of a fault on the line of this number.
fn fault(line: u64, kind: FaultKind) -> ReadError
    ensures { result ≡ read.Fault (fault_at line kind) }
{
    ReadError::Fault(MarketFault { line, kind })
}

/// The size that the line of this number states.
fn read_size_line(number: u64, head: Head, line: &[u8]) -> Result<Size, ReadError>
    ensures read { IfOk result (λ s. size_of head line.now ≡ Ok s) }
    ensures rows { IfOk result (λ s. IsDimension s.nrows) }
    ensures columns { IfOk result (λ s. IsDimension s.ncols) }
    ensures fault { IfErr result (IsWhyLineUnread number (result_err (size_of head line.now))) }
{
    match size_of(head, line) {
        Ok(size) => Ok(size),
        Err(kind) => Err(fault(number, kind)),
    }
}

/// The size that stands after the comments, the number of the line after it, and the text from there.
fn read_size<'a>(
    text: &'a [u8],
    head: Head,
    first: u64,
    behind: &'a [u8],
) -> Result<(Size, u64, &'a [u8]), ReadError>
    requires stands { Stands text.now (AtSize head) first behind.now }
    requires numbered { first + length behind.now ≤ length text.now + 1 }
    ensures stands { IfOk result (λ p. Stands text.now (AtEntry head p.0 []) p.1 p.2.now) }
    ensures rows { IfOk result (λ p. IsDimension p.0.nrows) }
    ensures columns { IfOk result (λ p. IsDimension p.0.ncols) }
    ensures numbered { IfOk result (λ p. p.1 + length p.2.now ≤ length text.now + 1) }
    ensures fault { IfErr result (IsWhyUnread text.now) }
{
    let mut rest = behind;
    let mut number = first;
    while !rest.is_empty() {
        let Some((line, after)) = next_line(rest) else {
            return Err(fault(number, FaultKind::UnendedLine));
        };
        if !is_comment(line) {
            let size = read_size_line(number, head, line)?;
            return Ok((size, number + 1, after));
        }
        rest = after;
        number += 1;
    }
    Err(fault(number, FaultKind::SizeLine))
}

/// The entries of the lines after the size line, in the order of their lines, up to the first line that is wrong by itself, what is wrong
/// with it, and whether the entries rise. `AllocError` where memory is refused to the list of entries; then it is dropped.
fn gather(
    alloc: Global,
    head: Head,
    size: Size,
    behind: &[u8],
) -> Result<(Vec<(u64, u64, Value)>, Option<FaultKind>, bool), AllocError>
    ensures all { IfOk result (λ p. AreAllGathered head size behind.now (cells_of p.0.items) p.1) }
    ensures rising { IfOk result (λ p. p.2 ≡ is_sorted cell_cmp (cells_of p.0.items)) }
{
    let mut tuples = Vec::new(alloc);
    let mut rising = true;
    let mut rest = behind;
    let mut left = size.count;
    while !rest.is_empty() {
        let Some((entry, after)) = next_entry(head, size, rest) else {
            return Ok((tuples, Some(FaultKind::UnendedLine), rising));
        };
        if left == 0 {
            return Ok((tuples, Some(FaultKind::TooMany), rising));
        }
        match entry {
            Ok((cell, value)) => rising = append_next(&mut tuples, rising, cell, value)?,
            Err(kind) => return Ok((tuples, Some(kind), rising)),
        }
        rest = after;
        left -= 1;
    }
    if left > 0 {
        return Ok((tuples, Some(FaultKind::TooFew), rising));
    }
    Ok((tuples, None, rising))
}

/// The number of the first line whose place an earlier one has. The lines are read again, since what was read of them was put in order.
/// `AllocError` where memory is refused to the second reading.
fn repeated_line(
    alloc: Global,
    text: &[u8],
    head: Head,
    size: Size,
    first: u64,
    behind: &[u8],
) -> Result<u64, AllocError>
    requires stands { Stands text.now (AtEntry head size []) first behind.now }
    requires numbered { first + length behind.now ≤ length text.now + 1 }
    requires twice { IsTwice head size behind.now }
    ensures { IfOk result (λ number. market_fault text.now ≡ Some (fault_at number Repeated)) }
{
    let (tuples, _, _) = gather(alloc, head, size, behind)?;
    let count = count_apart(alloc, &tuples)?;
    Ok(first + count as u64)
}

/// The entries of the lines after the size line, as they are stored. `OutOfMemory` where memory is refused to their list or its order; then
/// it is dropped.
fn read_entries(
    alloc: Global,
    text: &[u8],
    head: Head,
    size: Size,
    first: u64,
    behind: &[u8],
) -> Result<Vec<(u64, u64, Value)>, ReadError>
    requires stands { Stands text.now (AtEntry head size []) first behind.now }
    requires numbered { first + length behind.now ≤ length text.now + 1 }
    ensures read { IfOk result (λ tuples. IsRead text.now head size (cells_of tuples.items)) }
    ensures fault { IfErr result (IsWhyUnread text.now) }
{
    let (mut tuples, wrong, rising) = gather(alloc, head, size, behind)?;
    let count = tuples.len() as u64;
    if !put_in_order(&mut tuples, rising)? {
        let number = repeated_line(alloc, text, head, size, first, behind)?;
        return Err(fault(number, FaultKind::Repeated));
    }
    match wrong {
        Some(kind) => Err(fault(first + count, kind)),
        None => Ok(tuples),
    }
}

/// The entries of the whole matrix, in rising order. `AllocError` where memory is refused; then the entries of `lower` are dropped.
fn written_out(
    alloc: Global,
    head: Head,
    lower: Vec<(u64, u64, Value)>,
) -> Result<Vec<(u64, u64, Value)>, AllocError>
    requires rising { IsTrue (is_sorted cell_cmp (cells_of lower.items)) }
    requires lower { head.is_symmetric ≡ true → AreLower (cells_of lower.items) }
    ensures { IfOk result (λ tuples. cells_of tuples.items ≡ map_from cell_cmp (written_out head (cells_of lower.items))) }
{
    if !head.is_symmetric {
        return Ok(lower);
    }
    whole(alloc, &lower)
}

/// The matrix that a Matrix Market text spells, or the first fault of the text.
///
/// Memory is reserved by the lines that are there, never by a stated count.
pub fn read(alloc: Global, text: &[u8]) -> Result<Loaded, ReadError>
    ensures spells { IfOk result (λ loaded. Spells text.now (matrix_loaded loaded)) }
    ensures whole { IfOk result (λ loaded. IsMatrix (matrix_loaded loaded)) }
    ensures fault { IfErr result (IsWhyUnread text.now) }
{
    if text.is_empty() {
        return Err(fault(1, FaultKind::Header));
    }
    let Some((line, behind)) = next_line(text) else {
        return Err(fault(1, FaultKind::UnendedLine));
    };
    let Some(head) = head_of(line) else {
        return Err(fault(1, FaultKind::Header));
    };
    let (size, number, rest) = read_size(text, head, 2, behind)?;
    let lower = read_entries(alloc, text, head, size, number, rest)?;
    let tuples = written_out(alloc, head, lower)?;
    Ok(Loaded {
        domain: head.domain,
        nrows: size.nrows,
        ncols: size.ncols,
        tuples: Tuples::from_vec(tuples),
    })
}
