//! One word: a name, a number, a value, a domain or an operator.
ghost use Rattle.std.specs.Prelude.{◌≡◌};
ghost use Rattle.std.specs.Option.{option_map};
ghost use Rattle.std.specs.List.{list_all};
ghost use Rattle.grb_market.specs.Numbers.{is_digit};
ghost use Rattle.grb_words.specs.Word.{is_name_byte, is_name, is_numeral, numeral_value, value_of, domain_of, monoid_of, operator_of, at_dot, semiring_of, wait_mode_of, operation_keywords, entry_keywords, uint64_operators, keyword_of, later_keywords, keyword_in};
ghost use Rattle.std.specs.Map.{lookup};
ghost use Rattle.std.specs.Str.{bytes_eq};

use crate::keyword::{Ewise, Keyword, Multiply, Placed, Whole};
use crate::version::Version;
use grb_call::WaitMode;
use grb_core::{BinaryOp, Domain, Monoid, Value};
use memchr::memchr;

/// Whether a name may have the byte: a letter, a digit or `_`.
fn is_name_byte(b: u8) -> bool
    ensures { result ≡ is_name_byte b }
{
    b.is_ascii_alphabetic() || b.is_ascii_digit() || b == b'_'
}

/// Whether a name may have all these bytes.
fn has_name_bytes(bytes: &[u8]) -> bool
    ensures { result ≡ list_all is_name_byte bytes.now }
{
    bytes.iter().all(|b| is_name_byte(*b))
}

/// Whether the word is a name: a letter, then up to 31 letters, digits or `_`.
pub fn is_name(word: &[u8]) -> bool
    ensures { result ≡ is_name word.now }
{
    match word.split_first() {
        None => false,
        Some((first, others)) => {
            first.is_ascii_alphabetic() && has_name_bytes(others) && others.len() <= 31
        }
    }
}

/// Whether all bytes are digits.
fn has_digits(bytes: &[u8]) -> bool
    ensures { result ≡ list_all is_digit bytes.now }
{
    bytes.iter().all(|b| b.is_ascii_digit())
}

/// Whether the word is a decimal number without a leading zero, however large.
fn is_numeral(word: &[u8]) -> bool
    ensures { result ≡ is_numeral word.now }
{
    match word {
        [] => false,
        [digit] => digit.is_ascii_digit(),
        [first, ..] => has_digits(word) && *first != b'0',
    }
}

/// The number that the word is, if it is one: decimal digits without a leading zero, at most 2^64 - 1.
pub fn number(word: &[u8]) -> Option<u64>
    ensures { result ≡ numeral_value word.now }
{
    if !is_numeral(word) {
        return None;
    }
    let mut number: u64 = 0;
    for b in word {
        let tens = number.checked_mul(10)?;
        number = tens.checked_add(u64::from(*b - b'0'))?;
    }
    Some(number)
}

/// The value that the word is, if it is one: `true`, `false` or a number.
pub fn value(word: &[u8]) -> Option<Value>
    ensures { result ≡ value_of word.now }
{
    if word == b"true".as_slice() {
        Some(Value::Bool(true))
    } else if word == b"false".as_slice() {
        Some(Value::Bool(false))
    } else {
        number(word).map(Value::Uint64)
    }
}

/// The domain that the word names, if it names one: `bool` or `uint64`.
pub fn domain(word: &[u8]) -> Option<Domain>
    ensures { result ≡ domain_of word.now }
{
    if word == b"bool".as_slice() {
        Some(Domain::Bool)
    } else if word == b"uint64".as_slice() {
        Some(Domain::Uint64)
    } else {
        None
    }
}

/// The monoid that the word names, if it names one.
pub fn monoid(word: &[u8]) -> Option<Monoid>
    ensures { result ≡ monoid_of word.now }
{
    if word == b"lor".as_slice() {
        Some(Monoid::Lor)
    } else if word == b"land".as_slice() {
        Some(Monoid::Land)
    } else if word == b"lxor".as_slice() {
        Some(Monoid::Lxor)
    } else if word == b"lxnor".as_slice() {
        Some(Monoid::Lxnor)
    } else if word == b"plus".as_slice() {
        Some(Monoid::Plus)
    } else if word == b"times".as_slice() {
        Some(Monoid::Times)
    } else if word == b"min".as_slice() {
        Some(Monoid::Min)
    } else if word == b"max".as_slice() {
        Some(Monoid::Max)
    } else {
        None
    }
}

/// The operator on numbers that the word names, if it names one.
fn uint64_operator(word: &[u8]) -> Option<BinaryOp>
    ensures { result ≡ lookup (bytes_eq word.now) uint64_operators }
{
    if word == b"plus".as_slice() {
        Some(BinaryOp::Plus)
    } else if word == b"times".as_slice() {
        Some(BinaryOp::Times)
    } else if word == b"min".as_slice() {
        Some(BinaryOp::Min)
    } else if word == b"max".as_slice() {
        Some(BinaryOp::Max)
    } else if word == b"minus".as_slice() {
        Some(BinaryOp::Minus)
    } else if word == b"first".as_slice() {
        Some(BinaryOp::First)
    } else if word == b"second".as_slice() {
        Some(BinaryOp::Second)
    } else {
        None
    }
}

/// The operator that the word names, if it names one.
pub fn operator(word: &[u8]) -> Option<BinaryOp>
    ensures { result ≡ operator_of word.now }
{
    if word == b"lor".as_slice() {
        Some(BinaryOp::Lor)
    } else if word == b"land".as_slice() {
        Some(BinaryOp::Land)
    } else if word == b"lxor".as_slice() {
        Some(BinaryOp::Lxor)
    } else if word == b"lxnor".as_slice() {
        Some(BinaryOp::Lxnor)
    } else if word == b"first_bool".as_slice() {
        Some(BinaryOp::FirstBool)
    } else if word == b"second_bool".as_slice() {
        Some(BinaryOp::SecondBool)
    } else {
        uint64_operator(word)
    }
}

/// The bytes before the first `.` of the word, and those after it.
fn at_dot(word: &[u8]) -> Option<(&[u8], &[u8])>
    ensures { option_map (λ parts. (parts.0.now, parts.1.now)) result ≡ at_dot word.now }
{
    let dot = memchr(b'.', word)?;
    Some((&word[..dot], &word[dot + 1..]))
}

/// The monoid and the operator of the semiring that the word names, if it is a word of each with a `.` between them. Whether both are of
/// one domain is not checked.
pub fn semiring(word: &[u8]) -> Option<(Monoid, BinaryOp)>
    ensures { result ≡ semiring_of word.now }
{
    let (add, multiply) = at_dot(word)?;
    let add = monoid(add)?;
    let multiply = operator(multiply)?;
    Some((add, multiply))
}

/// The mode of a wait that the word names, if it names one: `complete` or `materialize`.
pub fn wait_mode(word: &[u8]) -> Option<WaitMode>
    ensures { result ≡ wait_mode_of word.now }
{
    if word == b"complete".as_slice() {
        Some(WaitMode::Complete)
    } else if word == b"materialize".as_slice() {
        Some(WaitMode::Materialize)
    } else {
        None
    }
}

/// The keyword of an operation that the word is, if it is one.
fn operation_keyword(word: &[u8]) -> Option<Keyword>
    ensures { result ≡ lookup (bytes_eq word.now) operation_keywords }
{
    if word == b"ewiseadd".as_slice() {
        Some(Keyword::Ewise(Ewise::Add))
    } else if word == b"ewisemult".as_slice() {
        Some(Keyword::Ewise(Ewise::Mult))
    } else if word == b"mxv".as_slice() {
        Some(Keyword::Multiply(Multiply::Mxv))
    } else if word == b"vxm".as_slice() {
        Some(Keyword::Multiply(Multiply::Vxm))
    } else if word == b"mxm".as_slice() {
        Some(Keyword::Multiply(Multiply::Mxm))
    } else if word == b"reduce".as_slice() {
        Some(Keyword::Reduce)
    } else if word == b"total".as_slice() {
        Some(Keyword::Total)
    } else if word == b"wait".as_slice() {
        Some(Keyword::Wait)
    } else {
        None
    }
}

/// The same, or the keyword of entries, of a size or of a list that the word is.
fn entry_keyword(word: &[u8]) -> Option<Keyword>
    ensures { result ≡ lookup (bytes_eq word.now) entry_keywords }
{
    if word == b"remove".as_slice() {
        Some(Keyword::Placed(Placed::Remove))
    } else if word == b"get".as_slice() {
        Some(Keyword::Placed(Placed::Get))
    } else if word == b"resize".as_slice() {
        Some(Keyword::Placed(Placed::Resize))
    } else if word == b"set".as_slice() {
        Some(Keyword::Set)
    } else if word == b"build".as_slice() {
        Some(Keyword::Build)
    } else {
        operation_keyword(word)
    }
}

/// The keyword that the word is in version 2, if it is one.
fn keyword(word: &[u8]) -> Option<Keyword>
    ensures { result ≡ keyword_of word.now }
{
    if word == b"matrix".as_slice() {
        Some(Keyword::Matrix)
    } else if word == b"vector".as_slice() {
        Some(Keyword::Vector)
    } else if word == b"dup".as_slice() {
        Some(Keyword::Dup)
    } else if word == b"free".as_slice() {
        Some(Keyword::Whole(Whole::Free))
    } else if word == b"nvals".as_slice() {
        Some(Keyword::Whole(Whole::Nvals))
    } else if word == b"size".as_slice() {
        Some(Keyword::Whole(Whole::Size))
    } else if word == b"clear".as_slice() {
        Some(Keyword::Whole(Whole::Clear))
    } else {
        entry_keyword(word)
    }
}

/// The same, or the keyword that the word is in version 3 alone.
fn later_keyword(word: &[u8]) -> Option<Keyword>
    ensures { result ≡ lookup (bytes_eq word.now) later_keywords }
{
    if word == b"transpose".as_slice() {
        Some(Keyword::Transpose)
    } else if word == b"apply".as_slice() {
        Some(Keyword::Apply)
    } else if word == b"select".as_slice() {
        Some(Keyword::Select)
    } else if word == b"kronecker".as_slice() {
        Some(Keyword::Kronecker)
    } else if word == b"diag".as_slice() {
        Some(Keyword::Diag)
    } else if word == b"tuples".as_slice() {
        Some(Keyword::Whole(Whole::Tuples))
    } else {
        keyword(word)
    }
}

/// The keyword that the word is in a script of this version, if it is one: `vxm` is one from version 2 on.
pub fn keyword_in(version: Version, word: &[u8]) -> Option<Keyword>
    ensures { result ≡ keyword_in version word.now }
{
    match version {
        Version::One if word == b"vxm".as_slice() => None,
        Version::One | Version::Two => keyword(word),
        Version::Three => later_keyword(word),
    }
}
