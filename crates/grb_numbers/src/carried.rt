//! The numbers of one sort.
ghost use Rattle.std.specs.Prelude.{◌≡◌, ◌+◌, ◌<◌, ℕ, length, min, nat_lt, slice_index, IfOk};
ghost use Rattle.grb_numbers.specs.Laws.{matrix_numbers, vector_numbers};
ghost use Rattle.grb_numbers.specs.Numbers.{AreChosen, AreNumbered, inner_number, next_carried, no_number, nothing_carried, outer_number, place_of};

use grb_call::{MatrixId, VectorId};
use std::alloc::{AllocError, Global};
use std::marker::Model;

/// The outer numbers of the objects of one sort that were carried over, by inner number, and how many were given before.
#[derive(Debug, Drop)]
pub(crate) struct Carried {
    carried: Vec<u32>,
    first: u32,
}

impl Model for Carried {
    ghost use Rattle.grb_numbers.specs.Numbers.{AreCarried, CarriedNumbers};

    ghost Value = { CarriedNumbers };

    ghost view = { λ c. record { carried = c.carried.items; first = c.first } };

    ghost invariant = { λ c. AreCarried (record { carried = c.carried.items; first = c.first }) };
}

/// Where a number stands among those that rise; none, where it stands nowhere.
fn place_in(numbers: &[u32], number: u32) -> Option<usize>
    requires { (i j : ℕ) → i < j → j < length numbers.now → slice_index numbers.now i < slice_index numbers.now j }
    ensures { result ≡ place_of number numbers.now }
{
    match numbers.binary_search(&number) {
        Ok(place) => Some(place),
        Err(_) => None,
    }
}

impl Carried {
    /// No number: none was given before.
    pub(crate) fn nothing(alloc: Global) -> Carried
        ensures { result ≡ nothing_carried }
    {
        Carried {
            carried: Vec::new(alloc),
            first: 0,
        }
    }

    /// The inner number of an outer one.
    pub(crate) fn inner(&self, number: u32) -> u32
        ensures { result ≡ inner_number self.now number }
    {
        if number < self.first {
            match place_in(&self.carried, number) {
                Some(place) => place as u32,
                None => u32::MAX,
            }
        } else {
            self.carried.len() as u32 + (number - self.first)
        }
    }

    /// The outer number of an inner one; that which no object has stands for all that are greater.
    pub(crate) fn outer(&self, number: u32) -> u32
        ensures { result ≡ min (outer_number self.now number) no_number }
    {
        let place = number as usize;
        if place < self.carried.len() {
            self.carried[place]
        } else {
            self.first
                .saturating_add((place - self.carried.len()) as u32)
        }
    }

    /// Whether each of so many calls may make an object after so many, and no outer number comes to the last.
    pub(crate) fn has_room(&self, made: u32, calls: u32) -> bool
        ensures { result ≡ nat_lt (outer_number self.now made + calls) no_number }
    {
        u64::from(self.outer(made)) + u64::from(calls) < u64::from(u32::MAX)
    }

    /// The numbers of the next generation, to which these matrices are carried over, when so many were made. `AllocError` where memory is
    /// refused.
    pub(crate) fn with_matrices(
        &self,
        alloc: Global,
        matrices: &[MatrixId],
        made: u32,
    ) -> Result<Carried, AllocError>
        requires chosen { AreChosen (matrix_numbers matrices.now) made }
        requires numbered { AreNumbered self.now made }
        ensures { IfOk result (λ c. c ≡ next_carried self.now (matrix_numbers matrices.now) made) }
    {
        // where a field is read it is known that these numbers rise
        let _first = self.first;
        let mut carried = Vec::with_capacity(alloc, matrices.len())?;
        'matrices: for a in matrices {
            carried.push(self.outer(a.0))?;
        }
        let first = self.outer(made);
        Ok(Carried { carried, first })
    }

    /// The same of vectors. `AllocError` where memory is refused.
    pub(crate) fn with_vectors(
        &self,
        alloc: Global,
        vectors: &[VectorId],
        made: u32,
    ) -> Result<Carried, AllocError>
        requires chosen { AreChosen (vector_numbers vectors.now) made }
        requires numbered { AreNumbered self.now made }
        ensures { IfOk result (λ c. c ≡ next_carried self.now (vector_numbers vectors.now) made) }
    {
        // where a field is read it is known that these numbers rise
        let _first = self.first;
        let mut carried = Vec::with_capacity(alloc, vectors.len())?;
        'vectors: for v in vectors {
            carried.push(self.outer(v.0))?;
        }
        let first = self.outer(made);
        Ok(Carried { carried, first })
    }
}
