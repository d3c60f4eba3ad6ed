//! The words of one answer to a call, and those of one entry.
ghost use Rattle.std.specs.Prelude.{◌≡◌, ◌+◌, ◌≤◌, ◌++◌};
ghost use Rattle.arrayvec.specs.ArrayString.{array_string_len};
ghost use Rattle.grb_core.specs.Refusal.{refusal_name};
ghost use Rattle.grb_replies.specs.ReplyLine.{call_line, cell_words, index_words, number_words, printed_reply, value_words};

use crate::step_answer::Answer;
use arrayvec::ArrayString;
use grb_call::Reply;
use grb_core::{Refusal, Value};

/// Words of one answer or of one entry, which take no memory.
pub(crate) type Words = ArrayString<128>;

/// Appends a number, with a space before it.
fn push_number(words: &mut Words, n: u64)
    requires { array_string_len words.old + 41 ≤ 128 }
    ensures words { words.new.bytes ≡ words.old.bytes ++ number_words n }
    ensures length { array_string_len words.new ≤ array_string_len words.old + 41 }
{
    let mut digits = itoa::Buffer::new();
    words.push_str(" ");
    words.push_str(digits.format(n));
}

/// Appends a value, with a space before it.
fn push_value(words: &mut Words, value: Value)
    requires { array_string_len words.old + 41 ≤ 128 }
    ensures words { words.new.bytes ≡ words.old.bytes ++ value_words value }
    ensures length { array_string_len words.new ≤ array_string_len words.old + 41 }
{
    match value {
        Value::Bool(true) => words.push_str(" true"),
        Value::Bool(false) => words.push_str(" false"),
        Value::Uint64(n) => push_number(words, n),
    }
}

/// The words of an entry of a matrix, with a space before each.
pub(crate) fn words_of_cell(entry: ((u64, u64), Value)) -> Words
    ensures { result.bytes ≡ cell_words entry }
{
    let ((row, column), value) = entry;
    let mut words = Words::new();
    push_number(&mut words, row);
    push_number(&mut words, column);
    push_value(&mut words, value);
    words
}

/// The words of an entry of a vector, with a space before each.
pub(crate) fn words_of_index(entry: (u64, Value)) -> Words
    ensures { result.bytes ≡ index_words entry }
{
    let (index, value) = entry;
    let mut words = Words::new();
    push_number(&mut words, index);
    push_value(&mut words, value);
    words
}

/// The words of a reply.
fn words_of_reply(reply: &Reply) -> Words
    ensures words { result.bytes ≡ printed_reply reply.now }
    ensures length { array_string_len result ≤ 100 }
{
    let mut words = Words::new();
    match *reply {
        Reply::Done | Reply::MadeMatrix(_) | Reply::MadeVector(_) => words.push_str("ok"),
        Reply::Value(value) => {
            words.push_str("value");
            push_value(&mut words, value);
        }
        Reply::NoValue => words.push_str("none"),
        Reply::Count(n) => {
            words.push_str("count");
            push_number(&mut words, n);
        }
        Reply::Size(n) => {
            words.push_str("size");
            push_number(&mut words, n);
        }
        Reply::Dims(rows, columns) => {
            words.push_str("size");
            push_number(&mut words, rows);
            push_number(&mut words, columns);
        }
    }
    words
}

/// The name of a refusal.
fn words_of_refusal(refusal: Refusal) -> Words
    ensures words { result.bytes ≡ refusal_name refusal }
    ensures length { array_string_len result ≤ 100 }
{
    let mut words = Words::new();
    words.push_str(refusal.name());
    words
}

/// The line of the answer to a call, with its end.
pub(crate) fn line_of_call(answer: &Answer) -> Words
    ensures { result.bytes ≡ call_line answer.now }
{
    let mut words = match answer {
        Ok(reply) => words_of_reply(reply),
        Err(refusal) => words_of_refusal(*refusal),
    };
    words.push_str("\n");
    words
}
