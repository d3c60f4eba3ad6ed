//! Matrices as a state holds them: what a call changes of one.
ghost use Rattle.grb_core.specs.Contents.{Matrix};
ghost use Rattle.grb_call.specs.Output.{matrix_after};
ghost use Rattle.grb_call.specs.Store.{empty_store};
ghost use Rattle.grb_objects.specs.Fits.{FitsMatrix, ends_matrix};
ghost use Rattle.grb_objects.specs.Stored.{stored_matrix};

use crate::stored_object::{StoredObject, are_many};
use grb_call::{Call, MatrixId};
use grb_sparse::SparseMatrix;
use std::alloc::{AllocError, Global};

impl StoredObject for SparseMatrix {
    type Id = MatrixId;

    ghost number = { λ a. a.0 };

    ghost Contents = { Matrix };

    ghost contents = { stored_matrix };

    ghost is_assembled = { λ m. m.assembled };

    ghost fits = { FitsMatrix };

    ghost after = { matrix_after empty_store };

    ghost ends = { ends_matrix };

    fn number(a: MatrixId) -> u32 {
        a.0
    }

    fn is_ended_by(call: &Call) -> bool {
        matches!(call, Call::FreeMatrix { .. })
    }

    fn change(&mut self, call: &Call) -> Result<(), AllocError> {
        match call {
            Call::SetMatrix { i, j, value, .. } => {
                self.reserve_pending(1)?;
                self.set(*i, *j, *value);
                Ok(())
            }
            Call::RemoveMatrix { i, j, .. } => {
                self.reserve_pending(1)?;
                self.remove(*i, *j);
                Ok(())
            }
            Call::ClearMatrix { .. } => {
                self.clear();
                Ok(())
            }
            Call::ResizeMatrix { nrows, ncols, .. } => self.resize(*nrows, *ncols),
            Call::BuildMatrix { tuples, dup, .. } => tuples.build(self, *dup),
            _ => unreachable!(),
        }
    }

    fn copy_to_change(&self, alloc: Global, call: &Call) -> Result<SparseMatrix, AllocError> {
        if let Call::ClearMatrix { .. } = call {
            let (nrows, ncols) = self.dims();
            return Ok(SparseMatrix::new(alloc, self.domain(), nrows, ncols));
        }
        self.try_share()
    }

    fn make_shareable(&mut self) {
        self.make_shareable();
    }

    fn is_assembled(&self) -> bool {
        self.is_assembled()
    }

    fn has_many_changes(&self) -> bool {
        are_many(&self.layers())
    }

    fn assemble(&mut self) -> Result<(), AllocError> {
        self.assemble()
    }

    fn try_clone(&self) -> Result<SparseMatrix, AllocError> {
        self.try_clone()
    }
}
