//! The version that the first line of a script names.
ghost use Rattle.std.specs.Prelude.{◌≡◌, map};
ghost use Rattle.grb_script.specs.Version.{version_by, says_nothing};

use grb_words::{Version, is_skipped, version_named};

/// The version in which a line with these words is read, by the version that the lines before it settled: `None` where it is line 1.
pub(crate) fn version_by(settled: Option<Version>, words: &[&[u8]]) -> Version
    ensures { result ≡ version_by settled (map (λ word. word.now) words.now) }
{
    match settled {
        Some(version) => version,
        None => version_named(words).unwrap_or(Version::One),
    }
}

/// Whether a line with these words says nothing there: it is skipped, or is line 1 and says the version.
pub(crate) fn says_nothing(settled: Option<Version>, words: &[&[u8]]) -> bool
    ensures { result ≡ says_nothing settled (map (λ word. word.now) words.now) }
{
    is_skipped(words) || settled.is_none() && version_named(words).is_some()
}
