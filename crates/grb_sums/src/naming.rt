//! The columns that places of a row of sums stand for.
ghost use Rattle.std.specs.Prelude.{◌≡◌, ◌<◌, ℕ, length, slice_index};

use std::marker::Model;

/// The names of places: those of a list, or for each of the first `own` places its own number.
#[derive(Drop)]
pub struct Names<'a> {
    listed: &'a [u32],
    own: u32,
}

impl<'a> Model for Names<'a> {
    ghost use Rattle.std.specs.Prelude.{List, ℕ, ◌<◌, ◌^◌};
    ghost use Rattle.grb_sums.specs.Naming.{names_list};

    ghost Value = { List ℕ };

    ghost view = { λ names. names_list names.own names.listed.now };

    ghost invariant = { λ names. names.own < 2 ^ 32 };
}

impl<'a> Names<'a> {
    /// Names of which each is the number of its place.
    pub fn own(count: u32) -> Self
        ensures long { length result ≡ count }
        ensures each { (p : ℕ) → p < count → slice_index result p ≡ p }
    {
        Names {
            listed: &[],
            own: count,
        }
    }

    /// The names of a list.
    pub fn listed(names: &'a [u32]) -> Self
        ensures { result ≡ names.now }
    {
        Names {
            listed: names,
            own: 0,
        }
    }

    /// How many places have names.
    pub fn len(&self) -> usize
        ensures { result ≡ length self.now }
    {
        if self.own > 0 {
            self.own as usize
        } else {
            self.listed.len()
        }
    }

    /// The name of a place.
    pub fn name(&self, at: usize) -> u32
        requires { at < length self.now }
        ensures { result ≡ slice_index self.now at }
    {
        if self.own > 0 {
            at as u32
        } else {
            self.listed[at]
        }
    }
}
