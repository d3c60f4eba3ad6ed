//! Objects that lie ready after all known calls, for who keeps them.
ghost use Rattle.std.specs.Prelude.{◌≡◌, IfSome, MatchOption};
ghost use Rattle.grb_call.specs.History.{store_of};
ghost use Rattle.grb_states.specs.StoredIn.{IsMatrixOf, IsVectorOf};
ghost use Rattle.grb_pass.specs.Evaluated.{IsEvaluatedFor, LiesReady};
ghost use Rattle.grb_reader.specs.Known.{known};
ghost use Rattle.grb_reader.specs.Settled.{MayLackMatrix, MayLackVector};

use super::Evaluated;
use grb_call::{MatrixId, VectorId};
use grb_objects::Helps;
use grb_reader::Reader;
use grb_sparse::{SparseMatrix, SparseVector};
use std::sync::Arc;

impl<O: Helps> Evaluated<O> {
    /// The matrix as all share it that hold it, as it is after all known calls. None where it was not evaluated, or a change waits in it.
    /// Evaluates nothing, and takes no memory.
    pub(crate) fn held_matrix(&self, reader: &Reader, a: MatrixId) -> Option<&Arc<SparseMatrix>>
        requires evaluated { IsEvaluatedFor reader.now self.now }
        requires ready { IfSome reader.now.made.ready (LiesReady self.now) }
        ensures { MatchOption result (MayLackMatrix reader.now a) (λ matrix. IsMatrixOf (store_of (known reader.now)) a matrix.now.value) }
    {
        if self.table.count() < reader.known() as usize {
            return None;
        }
        self.table.held_matrix(a)
    }

    /// The vector as all share it that hold it, as [`Evaluated::held_matrix`] gives a matrix.
    pub(crate) fn held_vector(&self, reader: &Reader, v: VectorId) -> Option<&Arc<SparseVector>>
        requires evaluated { IsEvaluatedFor reader.now self.now }
        requires ready { IfSome reader.now.made.ready (LiesReady self.now) }
        ensures { MatchOption result (MayLackVector reader.now v) (λ vector. IsVectorOf (store_of (known reader.now)) v vector.now.value) }
    {
        if self.table.count() < reader.known() as usize {
            return None;
        }
        self.table.held_vector(v)
    }
}
