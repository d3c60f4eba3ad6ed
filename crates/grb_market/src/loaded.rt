//! What a text that is read without a fault holds.
ghost use Rattle.std.specs.Prelude.{◌≡◌};

use grb_core::{Domain, Value};
use std::marker::Model;

/// The stored entries of a matrix: row and column from 0, and value, in rising order of row and then column. It is seen as its list.
#[derive(Debug, Drop)]
pub struct Tuples {
    tuples: Vec<(u64, u64, Value)>,
}

impl Model for Tuples {
    ghost use Rattle.std.specs.Prelude.{List, ℕ};
    ghost use Rattle.grb_core.specs.declared.value.Value.{Value as StoredValue};

    ghost Value = { List (ℕ × ℕ × StoredValue) };

    ghost view = { λ t. t.tuples.items };
}

impl Tuples {
    /// The entries of a file, as a list that is seen without its capacity and its allocator.
    pub(crate) fn from_vec(tuples: Vec<(u64, u64, Value)>) -> Tuples
        ensures { result ≡ tuples.items }
    {
        Tuples { tuples }
    }

    /// The tuples in their order. Takes no memory.
    pub fn as_slice(&self) -> &[(u64, u64, Value)]
        ensures { result.now ≡ self.now }
    {
        self.tuples.as_slice()
    }

    /// The vector of these tuples. Takes no memory.
    pub fn into_vec(self) -> Vec<(u64, u64, Value)>
        ensures { result.items ≡ self }
    {
        self.tuples
    }
}

/// The matrix that a file spells.
#[derive(Debug, Drop)]
pub struct Loaded {
    /// `Uint64` of an integer file, `Bool` of a pattern file.
    pub domain: Domain,
    /// 1 to 4,294,967,295.
    pub nrows: u64,
    /// 1 to 4,294,967,295.
    pub ncols: u64,
    /// All stored entries, also those on the other side of the diagonal of a symmetric file.
    pub tuples: Tuples,
}
