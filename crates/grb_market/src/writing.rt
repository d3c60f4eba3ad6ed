//! A matrix written as a Matrix Market text, piece after piece.
ghost use Rattle.std.specs.Prelude.{◌≡◌, ◌-◌, ◌^◌, ◌<◌, ◌≤◌, ◌++◌, List, ℕ, true, false, map, All, OnOk, OnErr, IfErr, IfOk, is_ok, string_bytes, if◌then◌else◌, ◌+◌};
ghost use Rattle.std.specs.List.{flat_map, list_any};
ghost use Rattle.std.specs.Io.KnownBytes.{Appends};
ghost use Rattle.grb_market.specs.Sink.{AppendsBeginning};
ghost use Rattle.grb_market.specs.declared.fault.WriteFault.TheVariants as fault;
ghost use Rattle.grb_market.specs.Canonical.{first_line, size_text, entry_text, line_text, canonical, is_false, stores_false, entry_lines};
ghost use Rattle.grb_market.specs.Written.{TakenAtFault, PutFront, is_not_pattern, failures_after_write};

use crate::fault::WriteFault;
use crate::sink::{Sink, SinkFault, put_all};
use grb_core::{Domain, Value};
use grb_sparse::{Entries, SparseMatrix};
use std::alloc::{AllocError, Global};

/// So many bytes are put into the sink at once, and a line more at most.
const PIECE: usize = 65_536;

/// Whether the value is `false`; no number is.
fn is_false(value: Value) -> bool
    ensures { result ≡ is_false value }
{
    match value {
        Value::Bool(b) => !b,
        Value::Uint64(_) => false,
    }
}

/// Whether the matrix stores a false.
fn stores_false(matrix: &SparseMatrix) -> bool
    requires assembled { matrix.now.assembled ≡ true }
    ensures { result ≡ stores_false matrix.now.matrix }
{
    for (_, value) in matrix.entries() {
        if is_false(value) {
            return true;
        }
    }
    false
}

/// The first line of a file of this domain, with its end.
fn first_line(domain: Domain) -> &'static str
    ensures { result.now ≡ line_text (first_line domain) }
{
    match domain {
        Domain::Uint64 => "%%MatrixMarket matrix coordinate integer general\n",
        Domain::Bool => "%%MatrixMarket matrix coordinate pattern general\n",
    }
}

/// The first line and the size line. `AllocError` where memory is refused; then nothing is made.
fn head_text(alloc: Global, matrix: &SparseMatrix) -> Result<String, AllocError>
    ensures { IfOk result (λ text. string_bytes text ≡ line_text (first_line matrix.now.matrix.domain) ++ line_text (size_text matrix.now.matrix)) }
{
    let (nrows, ncols) = matrix.dims();
    let nvals = matrix.nvals();
    let mut text = String::new(alloc);
    text.push_str(first_line(matrix.domain()))?;
    write!(text, "{nrows} {ncols} {nvals}\n")?;
    Ok(text)
}

/// Appends the line of an entry, which counts rows and columns from 1. `AllocError` where memory is refused; then a beginning of the line
/// may stand in the text.
fn push_entry(text: &mut String, place: (u64, u64), value: Value) -> Result<(), AllocError>
    requires row { place.0 < 2 ^ 32 }
    requires column { place.1 < 2 ^ 32 }
    ensures { OnOk result (string_bytes text.new ≡ string_bytes text.old ++ line_text (entry_text (place, value))) }
{
    let (i, j) = (place.0 + 1, place.1 + 1);
    match value {
        Value::Uint64(n) => write!(text, "{i} {j} {n}\n"),
        Value::Bool(_) => write!(text, "{i} {j}\n"),
    }
}

/// Puts the text into the sink where it is a piece, and empties it then.
fn put_piece<W: Sink>(text: &mut String, sink: &mut W) -> Result<(), SinkFault>
    requires { W.failures sink.old < 2 ^ 64 - 1 }
    ensures ok { OnOk result (PutFront (W.taken sink.old) (W.taken sink.new) (string_bytes text.old) (string_bytes text.new)) }
    ensures err { OnErr result (AppendsBeginning (W.taken sink.old) (W.taken sink.new) (string_bytes text.old)) }
    ensures failures { W.failures sink.new ≡ (if is_ok result then W.failures sink.old else W.failures sink.old + 1) }
{
    if text.len() < PIECE {
        return Ok(());
    }
    put_all(sink, text.as_bytes())?;
    text.clear();
    Ok(())
}

/// Puts this text and a line for each entry. `OutOfMemory` where memory is refused to the text of a line; then a beginning of the lines is
/// put.
fn write_entries<W: Sink>(
    text: String,
    entries: Entries<'_>,
    sink: &mut W,
) -> Result<(), WriteFault>
    requires within { All (λ e. (e.0.0 < 2 ^ 32) × (e.0.1 < 2 ^ 32)) entries }
    requires failures { W.failures sink.old < 2 ^ 64 - 1 }
    ensures ok { OnOk result (Appends (W.taken sink.old) (W.taken sink.new) (string_bytes text ++ entry_lines entries.entry)) }
    ensures err { IfErr result (TakenAtFault (string_bytes text ++ entry_lines entries.entry) (W.taken sink.old) (W.taken sink.new)) }
    ensures other { IfErr result (λ fault. is_not_pattern fault ≡ false) }
    ensures failures { W.failures sink.new ≡ failures_after_write (W.failures sink.old) result }
{
    let mut text = text;
    for (place, value) in entries {
        push_entry(&mut text, place, value)?;
        put_piece(&mut text, sink)?;
    }
    put_all(sink, text.as_bytes())?;
    Ok(())
}

/// Writes the canonical text of the matrix into the sink. It needs memory for a piece of the text, and not for the whole.
///
/// Where a false is stored nothing is written.
pub fn write<W: Sink>(alloc: Global, matrix: &SparseMatrix, sink: &mut W) -> Result<(), WriteFault>
    requires assembled { matrix.now.assembled ≡ true }
    requires failures { W.failures sink.old < 2 ^ 64 - 1 }
    ensures ok { OnOk result (Appends (W.taken sink.old) (W.taken sink.new) (canonical matrix.now.matrix)) }
    ensures err { IfErr result (TakenAtFault (canonical matrix.now.matrix) (W.taken sink.old) (W.taken sink.new)) }
    ensures stated { OnOk result (stores_false matrix.now.matrix ≡ false) }
    ensures not_pattern { IfErr result (λ fault. is_not_pattern fault ≡ stores_false matrix.now.matrix) }
    ensures failures { W.failures sink.new ≡ failures_after_write (W.failures sink.old) result }
{
    if stores_false(matrix) {
        return Err(WriteFault::NotPattern);
    }
    let text = head_text(alloc, matrix)?;
    write_entries(text, matrix.entries(), sink)
}
