//! Whether two lists are the same: each is compared whole, and nothing is copied.
ghost use Rattle.std.specs.Prelude.{◌≡◌, true};

/// Whether two lists of row or column numbers are the same.
pub(crate) fn are_same_numbers(a: &[u32], b: &[u32]) -> bool
    ensures { result ≡ true → a.now ≡ b.now }
{
    a == b
}

/// Whether two lists of places are the same.
pub(crate) fn are_same_places(a: &[usize], b: &[usize]) -> bool
    ensures { result ≡ true → a.now ≡ b.now }
{
    a == b
}

/// Whether two lists of numbers are the same.
pub(crate) fn are_same_values(a: &[u64], b: &[u64]) -> bool
    ensures { result ≡ true → a.now ≡ b.now }
{
    a == b
}

/// Whether two lists of truth values are the same.
pub(crate) fn are_same_bools(a: &[bool], b: &[bool]) -> bool
    ensures { result ≡ true → a.now ≡ b.now }
{
    a == b
}
