//! What a step of a script is answered: the answer to its call, or the entries of an object.
ghost use Rattle.std.specs.Prelude.{◌≡◌, true};

use grb_call::Reply;
use grb_core::Refusal;
use grb_sparse::{Entries, EntriesByIndex, SparseMatrix, SparseVector};
use std::marker::Model;
use std::sync::Arc;

/// What a call is answered: its reply, or why it is refused.
pub type Answer = Result<Reply, Refusal>;

/// The entries of a matrix, as they stand after a wait for it. They are shared with the store, and none is copied. It is seen as the list
/// of the entries in rising order of place.
#[derive(Drop)]
pub struct MatrixSnapshot {
    matrix: Arc<SparseMatrix>,
}

impl Model for MatrixSnapshot {
    ghost use Rattle.std.specs.Prelude.{◌≡◌, true};
    ghost use Rattle.std.specs.Arc.{arc_value};
    ghost use Rattle.grb_core.specs.Entries.{MatrixEntries};

    ghost Value = { MatrixEntries };

    ghost view = { λ s. (arc_value s.matrix).matrix.entries };

    ghost invariant = { λ s. (arc_value s.matrix).assembled ≡ true };
}

impl MatrixSnapshot {
    /// The entries of this matrix, in which no change waits. Takes no memory.
    pub fn of(matrix: Arc<SparseMatrix>) -> MatrixSnapshot
        requires assembled { matrix.value.assembled ≡ true }
        ensures { result ≡ matrix.value.matrix.entries }
    {
        MatrixSnapshot { matrix }
    }

    /// The entries, in rising order of place. Takes no memory.
    pub fn entries(&self) -> Entries<'_>
        ensures { result ≡ self.now }
    {
        self.matrix.entries()
    }
}

/// The entries of a vector, as they stand after a wait for it. They are shared with the store, and none is copied. It is seen as the list
/// of the entries in rising order of index.
#[derive(Drop)]
pub struct VectorSnapshot {
    vector: Arc<SparseVector>,
}

impl Model for VectorSnapshot {
    ghost use Rattle.std.specs.Prelude.{◌≡◌, true};
    ghost use Rattle.std.specs.Arc.{arc_value};
    ghost use Rattle.grb_core.specs.Entries.{VectorEntries};

    ghost Value = { VectorEntries };

    ghost view = { λ s. (arc_value s.vector).vector.entries };

    ghost invariant = { λ s. (arc_value s.vector).assembled ≡ true };
}

impl VectorSnapshot {
    /// The entries of this vector, in which no change waits. Takes no memory.
    pub fn of(vector: Arc<SparseVector>) -> VectorSnapshot
        requires assembled { vector.value.assembled ≡ true }
        ensures { result ≡ vector.value.vector.entries }
    {
        VectorSnapshot { vector }
    }

    /// The entries, in rising order of index. Takes no memory.
    pub fn entries(&self) -> EntriesByIndex<'_>
        ensures { result ≡ self.now }
    {
        self.vector.entries()
    }
}

/// What a step of a script is answered.
#[derive(Drop)]
pub enum StepAnswer {
    /// The answer to its call; of a load to the last that was made.
    Call(Answer),
    /// The entries of a matrix, where `tuples` asked for them and its wait was done.
    Matrix(MatrixSnapshot),
    /// The entries of a vector, where `tuples` asked for them and its wait was done.
    Vector(VectorSnapshot),
}
