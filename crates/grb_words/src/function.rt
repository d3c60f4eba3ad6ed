//! The words of a function: a unary operator, or a binary operator with a value on one side.
ghost use Rattle.std.specs.Prelude.{◌≡◌, map};
ghost use Rattle.std.specs.Map.{lookup};
ghost use Rattle.std.specs.Option.{option_map};
ghost use Rattle.std.specs.Str.{bytes_eq};
ghost use Rattle.grb_words.specs.Function.{bound_of, function_first, unary_of};

use crate::word::{operator, value};
use grb_core::{Function, UnaryOp};

/// The unary operator that the word names, if it names one.
fn unary(word: &[u8]) -> Option<UnaryOp>
    ensures { result ≡ unary_of word.now }
{
    if word == b"identity".as_slice() {
        Some(UnaryOp::Identity)
    } else if word == b"identity_bool".as_slice() {
        Some(UnaryOp::IdentityBool)
    } else if word == b"ainv".as_slice() {
        Some(UnaryOp::Ainv)
    } else if word == b"bnot".as_slice() {
        Some(UnaryOp::Bnot)
    } else if word == b"lnot".as_slice() {
        Some(UnaryOp::Lnot)
    } else {
        None
    }
}

/// The binary operator with a bound value that these two words spell, if they spell one: a value and an operator, or an operator and a
/// value. Whether both are of one domain is not checked.
fn bound(first: &[u8], second: &[u8]) -> Option<Function>
    ensures { result ≡ bound_of first.now second.now }
{
    match value(first) {
        Some(x) => Some(Function::First(x, operator(second)?)),
        None => Some(Function::Second(operator(first)?, value(second)?)),
    }
}

/// The function that the words begin with, and the words after it: a unary operator, a value and an operator, or an operator and a value.
pub fn function_first<'a>(words: &'a [&'a [u8]]) -> Option<(Function, &'a [&'a [u8]])>
    ensures { option_map (λ read. (read.0, map (λ word. word.now) read.1.now)) result ≡ function_first (map (λ word. word.now) words.now) }
{
    let (first, others) = words.split_first()?;
    if let Some(op) = unary(first) {
        return Some((Function::Unary(op), others));
    }
    let (second, others) = others.split_first()?;
    let function = bound(first, second)?;
    Some((function, others))
}
