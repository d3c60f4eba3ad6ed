//! The two words of a test of an entry.
ghost use Rattle.std.specs.Prelude.{◌≡◌, map};
ghost use Rattle.std.specs.Option.{option_map};
ghost use Rattle.grb_words.specs.Test.{diagonal_test, place_test, value_test, test_of, test_first};

use crate::diagonal::diagonal_of;
use crate::word::{number, value};
use grb_core::Test;

/// The test by a diagonal that the words spell, if they spell one.
fn diagonal_test(word: &[u8], argument: &[u8]) -> Option<Test>
    ensures { result ≡ diagonal_test word.now argument.now }
{
    let d = diagonal_of(argument)?;
    if word == b"tril".as_slice() {
        Some(Test::Tril(d))
    } else if word == b"triu".as_slice() {
        Some(Test::Triu(d))
    } else if word == b"diag".as_slice() {
        Some(Test::Diag(d))
    } else if word == b"offdiag".as_slice() {
        Some(Test::Offdiag(d))
    } else {
        None
    }
}

/// The test by a row or a column that the words spell, if they spell one.
fn place_test(word: &[u8], argument: &[u8]) -> Option<Test>
    ensures { result ≡ place_test word.now argument.now }
{
    let n = number(argument)?;
    if word == b"rowle".as_slice() {
        Some(Test::RowLe(n))
    } else if word == b"rowgt".as_slice() {
        Some(Test::RowGt(n))
    } else if word == b"colle".as_slice() {
        Some(Test::ColLe(n))
    } else if word == b"colgt".as_slice() {
        Some(Test::ColGt(n))
    } else {
        None
    }
}

/// The test by a value that the words spell, if they spell one.
fn value_test(word: &[u8], argument: &[u8]) -> Option<Test>
    ensures { result ≡ value_test word.now argument.now }
{
    let x = value(argument)?;
    if word == b"valueeq".as_slice() {
        Some(Test::ValueEq(x))
    } else if word == b"valuene".as_slice() {
        Some(Test::ValueNe(x))
    } else if word == b"valuelt".as_slice() {
        Some(Test::ValueLt(x))
    } else if word == b"valuele".as_slice() {
        Some(Test::ValueLe(x))
    } else if word == b"valuegt".as_slice() {
        Some(Test::ValueGt(x))
    } else if word == b"valuege".as_slice() {
        Some(Test::ValueGe(x))
    } else {
        None
    }
}

/// The test that these two words spell, if they spell one.
fn test_of(word: &[u8], argument: &[u8]) -> Option<Test>
    ensures { result ≡ test_of word.now argument.now }
{
    diagonal_test(word, argument)
        .or(place_test(word, argument))
        .or(value_test(word, argument))
}

/// The test that the words begin with, and the words after it.
pub fn test_first<'a>(words: &'a [&'a [u8]]) -> Option<(Test, &'a [&'a [u8]])>
    ensures { option_map (λ read. (read.0, map (λ word. word.now) read.1.now)) result ≡ test_first (map (λ word. word.now) words.now) }
{
    let (word, others) = words.split_first()?;
    let (argument, others) = others.split_first()?;
    let test = test_of(word, argument)?;
    Some((test, others))
}
