//! Lists of entries, lent and owned.
ghost use Rattle.std.specs.Prelude.{◌≡◌, length, IsTrue};
ghost use Rattle.std.specs.Ordering.{nat_cmp};
ghost use Rattle.std.specs.FinMap.{is_sorted};
ghost use Rattle.grb_kernels.specs.Typed.{entries_of};

use crate::scalar::Scalar;

/// Entries that are lent: indices in rising order, and a value for each.
#[derive(Drop)]
pub struct EntrySlice<'a, T: Scalar> {
    /// The indices, which rise.
    pub indices: &'a [u32],
    /// The value at each index.
    pub values: &'a [T],
    ghost same: { length indices.now ≡ length values.now },
    ghost rising: { IsTrue (is_sorted nat_cmp (entries_of T.value indices.now values.now)) },
}

/// Entries that are owned: indices in rising order, and a value for each.
#[derive(Drop)]
pub struct EntryList<T: Scalar> {
    /// The indices, which rise.
    pub indices: Vec<u32>,
    /// The value at each index.
    pub values: Vec<T>,
    ghost same: { length indices.items ≡ length values.items },
    ghost rising: { IsTrue (is_sorted nat_cmp (entries_of T.value indices.items values.items)) },
}

impl<T: Scalar> EntryList<T> {
    /// The same entries, lent.
    pub fn lend(&self) -> EntrySlice<'_, T>
        ensures indices { result.indices.now ≡ self.now.indices.items }
        ensures values { result.values.now ≡ self.now.values.items }
    {
        EntrySlice {
            indices: self.indices.as_slice(),
            values: self.values.as_slice(),
        }
    }
}
