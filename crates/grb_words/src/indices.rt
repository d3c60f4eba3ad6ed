//! Indices at the end of a line, alone or with a value.
ghost use Rattle.std.specs.Prelude.{◌≡◌, map};
ghost use Rattle.grb_words.specs.Form.{indices_of, indices_and_value_of};

use crate::word::{number, value};
use grb_core::Value;

/// What stands after a name in a statement on one entry or on a size: one number at a vector, two at a matrix. Indices count from 0.
#[derive(Clone, Copy, Debug, PartialEq, Eq)]
pub enum Indices {
    /// An index, or a size.
    One(u64),
    /// A row and a column, or their numbers.
    Two(u64, u64),
}

/// The one or two numbers that the words spell, if they spell no more and no less.
pub fn indices_of(words: &[&[u8]]) -> Option<Indices>
    ensures { result ≡ indices_of (map (λ word. word.now) words.now) }
{
    match words {
        [i] => Some(Indices::One(number(i)?)),
        [i, j] => Some(Indices::Two(number(i)?, number(j)?)),
        _ => None,
    }
}

/// The one or two numbers that the words spell, and the value after them.
pub fn indices_and_value_of(words: &[&[u8]]) -> Option<(Indices, Value)>
    ensures { result ≡ indices_and_value_of (map (λ word. word.now) words.now) }
{
    match words {
        [i, x] => Some((Indices::One(number(i)?), value(x)?)),
        [i, j, x] => Some((Indices::Two(number(i)?, number(j)?), value(x)?)),
        _ => None,
    }
}
