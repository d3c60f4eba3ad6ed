//! The word of a diagonal.
ghost use Rattle.std.specs.Prelude.{◌≡◌};
ghost use Rattle.grb_words.specs.Diagonal.{distance_of, diagonal_of};

use crate::word::number;
use grb_core::Diagonal;

/// How far the word says that a diagonal is from the main one: it is a number of at most 2^32 - 1.
fn distance(word: &[u8]) -> Option<u32>
    ensures { result ≡ distance_of word.now }
{
    u32::try_from(number(word)?).ok()
}

/// The diagonal that the word names, if it names one: a number `N` of at most 2^32 - 1 names the one that is so far above the main one, and
/// `-N`, where the number is not 0, the one that is so far below it (own).
pub fn diagonal_of(word: &[u8]) -> Option<Diagonal>
    ensures { result ≡ diagonal_of word.now }
{
    match word {
        [b'-', digits @ ..] => match distance(digits)? {
            0 => None,
            n => Some(Diagonal::Below(n)),
        },
        _ => Some(Diagonal::Above(distance(word)?)),
    }
}
