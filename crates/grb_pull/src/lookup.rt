//! What a vector stores at an index, in the forms that a product reads it in.
ghost use Rattle.std.specs.Prelude.{◌≡◌, ◌<◌, ◌^◌, ℕ, length, Option, None, All};
ghost use Rattle.std.specs.Ordering.{nat_cmp};
ghost use Rattle.std.specs.FinMap.{find};
ghost use Rattle.grb_core.specs.declared.value.Value.{Value};
ghost use Rattle.grb_kernels.specs.Typed.{kept, entries_of};
ghost use Rattle.grb_sums.specs.Bits.{value_at};
ghost use Rattle.grb_semirings.specs.Open.{marked_at};
ghost use Rattle.grb_semirings.specs.Products.{is_any};

use grb_ewise::place_of;
use grb_kernels::{EntrySlice, Scalar};
use std::marker::PhantomData;

/// A vector, however its entries are kept.
pub(crate) trait Lookup<T: Scalar> {
    /// The size of the vector: indices are below it.
    ghost size: { Self → ℕ };

    /// What it stores at an index, if anything.
    ghost holds: { Self → ℕ → Option Value };

    /// The value at an index, and whether there is one. Where there is none the value is any.
    fn at(&self, index: u32) -> (T, bool)
        requires { index < size self.now }
        ensures { kept (T.value result.0) result.1 ≡ holds self.now index };

    /// Whether it costs little to ask again where it has values: only in forms that lie open.
    fn is_open() -> bool;

    /// Whether it has so few values that most rows meet none, and so it is asked first whether a row does.
    fn is_scarce() -> bool;
}

/// How many values a vector that lies open has.
pub(crate) trait Filling {
    /// Whether they are few: it is asked first whether a row meets one of them, and then no more.
    fn is_scarce() -> bool;
}

/// A vector of few entries.
pub(crate) struct Few;

impl Filling for Few {
    fn is_scarce() -> bool {
        true
    }
}

/// A vector of many entries.
pub(crate) struct Many;

impl Filling for Many {
    fn is_scarce() -> bool {
        false
    }
}

/// A vector that lies open: at each index a value, and a mark where it is stored.
#[derive(Drop)]
pub(crate) struct Open<'a, T, F> {
    pub(crate) marks: &'a [bool],
    pub(crate) dense: &'a [T],
    pub(crate) of: PhantomData<F>,
    ghost same: { length marks.now ≡ length dense.now },
}

impl<'a, T: Scalar, F: Filling> Lookup<T> for Open<'a, T, F> {
    ghost size = { λ vector. length vector.marks.now };

    ghost holds = { λ vector. marked_at T.value vector.marks.now vector.dense.now };

    fn at(&self, index: u32) -> (T, bool) {
        let at = index as usize;
        (self.dense[at], self.marks[at])
    }

    fn is_open() -> bool {
        !F::is_scarce()
    }

    fn is_scarce() -> bool {
        F::is_scarce()
    }
}

/// A vector that stores a value at each index, and so is read as it lies.
#[derive(Drop)]
pub(crate) struct Full<'a, T> {
    pub(crate) values: &'a [T],
}

impl<'a, T: Scalar> Lookup<T> for Full<'a, T> {
    ghost size = { λ vector. length vector.values.now };

    ghost holds = { λ vector. value_at T.value vector.values.now };

    fn at(&self, index: u32) -> (T, bool) {
        (self.values[index as usize], true)
    }

    fn is_open() -> bool {
        true
    }

    fn is_scarce() -> bool {
        false
    }
}

/// A vector whose entries are searched, so that nothing as long as its size is kept.
impl<'a, T: Scalar> Lookup<T> for EntrySlice<'a, T> {
    ghost size = { λ entries. 2 ^ 32 };

    ghost holds = { λ entries. λ j. find nat_cmp j (entries_of T.value entries.indices.now entries.values.now) };

    fn at(&self, index: u32) -> (T, bool) {
        match place_of(self.indices, index) {
            Some(at) => (self.values[at], true),
            None => (T::any(), false),
        }
    }

    fn is_open() -> bool {
        false
    }

    fn is_scarce() -> bool {
        false
    }
}

/// Whether a vector has a value at one of these columns.
pub(crate) fn has_any<T: Scalar, L: Lookup<T>>(vector: &L, columns: &[u32]) -> bool
    requires in_range { All (λ c. c < L.size vector.now) columns.now }
    ensures { result ≡ is_any (L.holds vector.now) columns.now }
{
    'columns: for column in columns {
        let (_value, here) = vector.at(*column);
        if here {
            return true;
        }
    }
    false
}

/// The same without an end at the first: where there is none in most rows, no branch is guessed.
pub(crate) fn meets<T: Scalar, L: Lookup<T>>(vector: &L, columns: &[u32]) -> bool
    requires in_range { All (λ c. c < L.size vector.now) columns.now }
    ensures { result ≡ is_any (L.holds vector.now) columns.now }
{
    let mut any = false;
    'columns: for column in columns {
        let (_value, here) = vector.at(*column);
        any = any | here;
    }
    any
}

/// Lays the entries of a vector open: marks each index, and puts its value there.
pub(crate) fn scatter<T: Scalar>(indices: &[u32], values: &[T], marks: &mut [bool], dense: &mut [T])
    requires same { length indices.now ≡ length values.now }
    requires room { length marks.old ≡ length dense.old }
    requires in_range { All (λ c. c < length marks.old) indices.now }
    requires clear { (j : ℕ) → marked_at T.value marks.old dense.old j ≡ None }
    ensures { (j : ℕ) → marked_at T.value marks.new dense.new j ≡ find nat_cmp j (entries_of T.value indices.now values.now) }
{
    let mut i = indices.len();
    'down: while i > 0 {
        i -= 1;
        let at = indices[i] as usize;
        marks[at] = true;
        dense[at] = values[i];
    }
}
