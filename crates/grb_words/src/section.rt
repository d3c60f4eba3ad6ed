//! The lines that begin and end a section.
ghost use Rattle.std.specs.Prelude.{◌≡◌, map};
ghost use Rattle.grb_words.specs.Section.{section_of};

use crate::word::number;

/// A section of a script other than main, as the line names it that begins it.
#[derive(Clone, Copy, Debug, PartialEq, Eq)]
pub enum Section {
    /// `thread K`, with its number K.
    Thread(u64),
    /// `finally`.
    Finally,
}

/// The section that a line with these words begins, if they are `thread K` or `finally` and no more. Whether it may begin there is not
/// checked.
pub fn section_of(words: &[&[u8]]) -> Option<Section>
    ensures { result ≡ section_of (map (λ word. word.now) words.now) }
{
    match words {
        [first] if *first == b"finally".as_slice() => Some(Section::Finally),
        [first, k] if *first == b"thread".as_slice() => Some(Section::Thread(number(k)?)),
        _ => None,
    }
}
