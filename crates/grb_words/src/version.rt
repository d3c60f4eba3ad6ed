//! The versions of the script language.
ghost use Rattle.std.specs.Prelude.{◌≡◌, map};
ghost use Rattle.grb_words.specs.Version.{later_version, version_named};

/// The version that a script is written in. It says which statements and which options there are.
#[derive(Clone, Copy, Debug, PartialEq, Eq)]
pub enum Version {
    /// The script says no version. It has neither `vxm` nor the option `tran`.
    One,
    /// The script begins with the line `version 2`. It has these.
    Two,
    /// The script begins with the line `version 3`. It also has `transpose`, `apply`, `select`, `kronecker`, `diag`, `tuples` and the option
    /// `tran1`.
    Three,
}

/// The version of which this word is the number, if it is one that a line names.
fn later_version(number: &[u8]) -> Option<Version>
    ensures { result ≡ later_version number.now }
{
    if number == b"2".as_slice() {
        Some(Version::Two)
    } else if number == b"3".as_slice() {
        Some(Version::Three)
    } else {
        None
    }
}

/// The version that these words name, if they are `version 2` or `version 3` and no more. On which line they stand is not checked.
pub fn version_named(words: &[&[u8]]) -> Option<Version>
    ensures { result ≡ version_named (map (λ word. word.now) words.now) }
{
    match words {
        [first, number] if *first == b"version".as_slice() => later_version(number),
        _ => None,
    }
}
