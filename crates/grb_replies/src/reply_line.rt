//! The lines that answers print, put into a sink.
ghost use Rattle.std.specs.Prelude.{◌≡◌, ◌+◌, ◌-◌, ◌^◌, ◌<◌, ◌≤◌, ◌++◌, length, OnOk, OnErr, is_ok, if◌then◌else◌};
ghost use Rattle.std.specs.List.{flat_map};
ghost use Rattle.std.specs.Io.KnownBytes.{Appends};
ghost use Rattle.grb_market.specs.Sink.{AppendsBeginning};
ghost use Rattle.grb_market.specs.Written.{PutFront};
ghost use Rattle.grb_replies.specs.ReplyLine.{matrix_line, reply_line, vector_line};

use crate::step_answer::{MatrixSnapshot, StepAnswer, VectorSnapshot};
use crate::words::{line_of_call, words_of_cell, words_of_index};
use arrayvec::ArrayString;
use grb_market::{Sink, SinkFault, put_all};

/// Words that wait until the next ones find no room with them, and are put into the sink together then. They take no memory.
type Piece = ArrayString<16_384>;

/// Appends words to the piece. Where they find no room there, the piece is put into the sink first, and emptied.
fn put_words<W: Sink>(piece: &mut Piece, sink: &mut W, words: &str) -> Result<(), SinkFault>
    requires words { length words.now ≤ 16384 }
    requires failures { W.failures sink.old < 2 ^ 64 - 1 }
    ensures ok { OnOk result (PutFront (W.taken sink.old) (W.taken sink.new) (piece.old.bytes ++ words.now) piece.new.bytes) }
    ensures err { OnErr result (AppendsBeginning (W.taken sink.old) (W.taken sink.new) (piece.old.bytes ++ words.now)) }
    ensures failures { W.failures sink.new ≡ (if is_ok result then W.failures sink.old else W.failures sink.old + 1) }
{
    if piece.try_push_str(words).is_ok() {
        return Ok(());
    }
    put_all(sink, piece.as_str().as_bytes())?;
    piece.clear();
    piece.push_str(words);
    Ok(())
}

/// Puts the line of the entries of a matrix, through the piece, where its last words may still wait.
fn put_matrix<W: Sink>(
    piece: &mut Piece,
    sink: &mut W,
    matrix: &MatrixSnapshot,
) -> Result<(), SinkFault>
    requires failures { W.failures sink.old < 2 ^ 64 - 1 }
    ensures ok { OnOk result (PutFront (W.taken sink.old) (W.taken sink.new) (piece.old.bytes ++ matrix_line matrix.now) piece.new.bytes) }
    ensures err { OnErr result (AppendsBeginning (W.taken sink.old) (W.taken sink.new) (piece.old.bytes ++ matrix_line matrix.now)) }
    ensures failures { W.failures sink.new ≡ (if is_ok result then W.failures sink.old else W.failures sink.old + 1) }
{
    put_words(piece, sink, "tuples")?;
    for entry in matrix.entries() {
        put_words(piece, sink, words_of_cell(entry).as_str())?;
    }
    put_words(piece, sink, "\n")
}

/// Puts the line of the entries of a vector, in the same way.
fn put_vector<W: Sink>(
    piece: &mut Piece,
    sink: &mut W,
    vector: &VectorSnapshot,
) -> Result<(), SinkFault>
    requires failures { W.failures sink.old < 2 ^ 64 - 1 }
    ensures ok { OnOk result (PutFront (W.taken sink.old) (W.taken sink.new) (piece.old.bytes ++ vector_line vector.now) piece.new.bytes) }
    ensures err { OnErr result (AppendsBeginning (W.taken sink.old) (W.taken sink.new) (piece.old.bytes ++ vector_line vector.now)) }
    ensures failures { W.failures sink.new ≡ (if is_ok result then W.failures sink.old else W.failures sink.old + 1) }
{
    put_words(piece, sink, "tuples")?;
    for entry in vector.entries() {
        put_words(piece, sink, words_of_index(entry).as_str())?;
    }
    put_words(piece, sink, "\n")
}

/// Puts the line of an answer, in the same way.
fn put_answer<W: Sink>(
    piece: &mut Piece,
    sink: &mut W,
    answer: &StepAnswer,
) -> Result<(), SinkFault>
    requires failures { W.failures sink.old < 2 ^ 64 - 1 }
    ensures ok { OnOk result (PutFront (W.taken sink.old) (W.taken sink.new) (piece.old.bytes ++ reply_line answer.now) piece.new.bytes) }
    ensures err { OnErr result (AppendsBeginning (W.taken sink.old) (W.taken sink.new) (piece.old.bytes ++ reply_line answer.now)) }
    ensures failures { W.failures sink.new ≡ (if is_ok result then W.failures sink.old else W.failures sink.old + 1) }
{
    match answer {
        StepAnswer::Call(answer) => put_words(piece, sink, line_of_call(answer).as_str()),
        StepAnswer::Matrix(matrix) => put_matrix(piece, sink, matrix),
        StepAnswer::Vector(vector) => put_vector(piece, sink, vector),
    }
}

/// Puts the lines of these answers into the sink, one after another. Their words wait in a piece of at most 16,384 bytes, which is put when
/// the next ones find no room in it, and at the end. Takes no memory. A `SinkFault` ends it, with a beginning of the lines taken.
pub fn put_lines<W: Sink>(sink: &mut W, answers: &[StepAnswer]) -> Result<(), SinkFault>
    requires failures { W.failures sink.old < 2 ^ 64 - 1 }
    ensures ok { OnOk result (Appends (W.taken sink.old) (W.taken sink.new) (flat_map reply_line answers.now)) }
    ensures err { OnErr result (AppendsBeginning (W.taken sink.old) (W.taken sink.new) (flat_map reply_line answers.now)) }
    ensures failures { W.failures sink.new ≡ (if is_ok result then W.failures sink.old else W.failures sink.old + 1) }
{
    let mut piece = Piece::new();
    for answer in answers {
        put_answer(&mut piece, sink, answer)?;
    }
    put_all(sink, piece.as_str().as_bytes())
}
