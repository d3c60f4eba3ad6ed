//! The words of a line, and what the first of them says.
ghost use Rattle.std.specs.Prelude.{◌≡◌, IfOk, OnOk, map};
ghost use Rattle.grb_words.specs.Line.{words_of, has_allowed_bytes, is_skipped, is_section, is_load};

use smallvec::SmallVec;
use std::alloc::{AllocError, Global};

/// The words of a line, which one or more spaces part. Up to 8 of them take no memory. `AllocError` where memory is refused; then nothing
/// is made.
pub fn words(alloc: Global, line: &[u8]) -> Result<SmallVec<&[u8], 8>, AllocError>
    ensures { IfOk result (λ words. map (λ word. word.now) words.items ≡ words_of line.now) }
{
    line.split(|b| *b == b' ')
        .filter(|word| !word.is_empty())
        .collect(alloc)
}

/// Puts the words of a line, which one or more spaces part, into this list, in place of those that it had. Takes memory only where the list
/// has no room for them. `AllocError` where that is refused; then some of the words may stand in the list.
pub fn put_words<'a>(words: &mut Vec<&'a [u8]>, line: &'a [u8]) -> Result<(), AllocError>
    ensures { OnOk result (map (λ word. word.now) words.new.items ≡ words_of line.now) }
{
    words.clear();
    words.extend(line.split(|b| *b == b' ').filter(|word| !word.is_empty()))
}

/// Whether each byte is one of 0x20 to 0x7E.
pub fn has_allowed_bytes(line: &[u8]) -> bool
    ensures { result ≡ has_allowed_bytes line.now }
{
    line.iter().all(|b| (0x20..=0x7E).contains(b))
}

/// Whether a line with these words says nothing: it has none, or is a comment.
pub fn is_skipped(words: &[&[u8]]) -> bool
    ensures { result ≡ is_skipped (map (λ word. word.now) words.now) }
{
    match words {
        [] => true,
        [word, ..] => matches!(*word, [b'#', ..]),
    }
}

/// Whether a line with these words begins with the word of a section, `thread` or `finally`.
pub fn is_section(words: &[&[u8]]) -> bool
    ensures { result ≡ is_section (map (λ word. word.now) words.now) }
{
    match words {
        [] => false,
        [word, ..] => *word == b"thread".as_slice() || *word == b"finally".as_slice(),
    }
}

/// Whether a line with these words begins with `load`.
pub fn is_load(words: &[&[u8]]) -> bool
    ensures { result ≡ is_load (map (λ word. word.now) words.now) }
{
    match words {
        [] => false,
        [word, ..] => *word == b"load".as_slice(),
    }
}
