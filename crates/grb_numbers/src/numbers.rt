//! Numbers by which a store is seen from outside.
ghost use Rattle.std.specs.Prelude.{◌≡◌, IfOk};
ghost use Rattle.grb_numbers.specs.Inside.{inner_matrix, inner_vector, inside_object, outer_matrix, outer_vector, outside_reply};
ghost use Rattle.grb_numbers.specs.Laws.{matrix_numbers, vector_numbers};
ghost use Rattle.grb_numbers.specs.Numbers.{AreChosen, AreNumbered, AreNumbers, first_numbers, has_room, next_carried};

use crate::carried::Carried;
use grb_call::{MatrixId, Object, Reply, VectorId};
use grb_core::Refusal;
use std::alloc::{AllocError, Global};
use std::marker::Model;

/// Which number each object of a generation has outside, where it is never given again, and which inside (own).
///
/// The objects that were carried over have the inner numbers 0, 1, 2 .., in the order of their outer ones. What is made in the generation
/// has the next number, inside and outside.
#[derive(Debug, Drop)]
pub struct Numbers {
    matrices: Carried,
    vectors: Carried,
}

impl Model for Numbers {
    ghost use Rattle.grb_numbers.specs.Numbers.{AreNumbers, NumbersSeen};

    ghost Value = { NumbersSeen };

    ghost view = { λ n. record { matrices = n.matrices; vectors = n.vectors } };

    ghost invariant = { λ n. AreNumbers (record { matrices = n.matrices; vectors = n.vectors }) };
}

impl Numbers {
    /// The numbers of the first generation: outside as inside. Takes no memory.
    pub fn first(alloc: Global) -> Numbers
        ensures { result ≡ first_numbers }
    {
        Numbers {
            matrices: Carried::nothing(alloc),
            vectors: Carried::nothing(alloc),
        }
    }

    /// The numbers of the next generation, to which these matrices and vectors of this one are carried over, when so many of each sort were
    /// made: they have the inner numbers 0, 1, 2 .., and keep the outer ones. `AllocError` where memory is refused.
    ///
    /// There are such numbers while the outer ones have not come to an end (`has_room`): who has no room for the calls of a generation more
    /// does not go on to it.
    pub fn next(
        &self,
        alloc: Global,
        matrices: &[MatrixId],
        matrix_count: u32,
        vectors: &[VectorId],
        vector_count: u32,
    ) -> Result<Numbers, AllocError>
        requires matrices { AreChosen (matrix_numbers matrices.now) matrix_count }
        requires vectors { AreChosen (vector_numbers vectors.now) vector_count }
        requires numbered_matrices { AreNumbered self.now.matrices matrix_count }
        requires numbered_vectors { AreNumbered self.now.vectors vector_count }
        ensures matrices { IfOk result (λ n. n.matrices ≡ next_carried self.now.matrices (matrix_numbers matrices.now) matrix_count) }
        ensures vectors { IfOk result (λ n. n.vectors ≡ next_carried self.now.vectors (vector_numbers vectors.now) vector_count) }
    {
        let matrices = self.matrices.with_matrices(alloc, matrices, matrix_count)?;
        let vectors = self.vectors.with_vectors(alloc, vectors, vector_count)?;
        Ok(Numbers { matrices, vectors })
    }

    /// Whether each of so many calls may make an object, after so many matrices and vectors of this generation, and there are outer numbers
    /// for all. Takes no memory.
    pub fn has_room(&self, matrices: u32, vectors: u32, calls: u32) -> bool
        ensures { result ≡ has_room self.now matrices vectors calls }
    {
        self.matrices.has_room(matrices, calls) & self.vectors.has_room(vectors, calls)
    }

    /// That the outer numbers were given in rising order, and before this generation. Takes no memory.
    pub fn are_numbers(&self)
        ensures { AreNumbers self.now }
    {
        // where a field is read it is known
        let _matrices = &self.matrices;
    }

    /// The inner number of a matrix: 4,294,967,295, which no matrix has, for one that was not carried over. Takes no memory.
    pub fn inner_matrix(&self, a: MatrixId) -> MatrixId
        ensures { result ≡ inner_matrix self.now a }
    {
        MatrixId(self.matrices.inner(a.0))
    }

    /// The inner number of a vector: 4,294,967,295, which no vector has, for one that was not carried over. Takes no memory.
    pub fn inner_vector(&self, v: VectorId) -> VectorId
        ensures { result ≡ inner_vector self.now v }
    {
        VectorId(self.vectors.inner(v.0))
    }

    /// The outer number of a matrix: 4,294,967,295, which no matrix has, where there are no more. Takes no memory.
    pub fn outer_matrix(&self, a: MatrixId) -> MatrixId
        ensures { result ≡ outer_matrix self.now a }
    {
        MatrixId(self.matrices.outer(a.0))
    }

    /// The outer number of a vector: 4,294,967,295, which no vector has, where there are no more. Takes no memory.
    pub fn outer_vector(&self, v: VectorId) -> VectorId
        ensures { result ≡ outer_vector self.now v }
    {
        VectorId(self.vectors.outer(v.0))
    }

    /// The object by its inner number. Takes no memory.
    pub fn inside_object(&self, object: Object) -> Object
        ensures { result ≡ inside_object self.now object }
    {
        match object {
            Object::Matrix(a) => Object::Matrix(self.inner_matrix(a)),
            Object::Vector(v) => Object::Vector(self.inner_vector(v)),
        }
    }

    /// The answer by outer numbers: that of a call on the store as it is seen from outside. Takes no memory.
    pub fn outside_reply(&self, answer: Result<Reply, Refusal>) -> Result<Reply, Refusal>
        ensures { result ≡ outside_reply self.now answer }
    {
        match answer {
            Ok(Reply::MadeMatrix(a)) => Ok(Reply::MadeMatrix(self.outer_matrix(a))),
            Ok(Reply::MadeVector(v)) => Ok(Reply::MadeVector(self.outer_vector(v))),
            answer => answer,
        }
    }
}
