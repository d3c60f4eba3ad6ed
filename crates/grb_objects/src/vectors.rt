//! Vectors as a state holds them: what a call changes of one.
ghost use Rattle.grb_core.specs.Contents.{Vector};
ghost use Rattle.grb_call.specs.Output.{vector_after};
ghost use Rattle.grb_call.specs.Store.{empty_store};
ghost use Rattle.grb_objects.specs.Fits.{FitsVector, ends_vector};
ghost use Rattle.grb_objects.specs.Stored.{stored_vector};

use crate::stored_object::{StoredObject, are_many};
use grb_call::{Call, VectorId};
use grb_sparse::SparseVector;
use std::alloc::{AllocError, Global};

impl StoredObject for SparseVector {
    type Id = VectorId;

    ghost number = { λ v. v.0 };

    ghost Contents = { Vector };

    ghost contents = { stored_vector };

    ghost is_assembled = { λ x. x.assembled };

    ghost fits = { FitsVector };

    ghost after = { vector_after empty_store };

    ghost ends = { ends_vector };

    fn number(v: VectorId) -> u32 {
        v.0
    }

    fn is_ended_by(call: &Call) -> bool {
        matches!(call, Call::FreeVector { .. })
    }

    fn change(&mut self, call: &Call) -> Result<(), AllocError> {
        match call {
            Call::SetVector { i, value, .. } => {
                self.reserve_pending(1)?;
                self.set(*i, *value);
                Ok(())
            }
            Call::RemoveVector { i, .. } => {
                self.reserve_pending(1)?;
                self.remove(*i);
                Ok(())
            }
            Call::ClearVector { .. } => {
                self.clear();
                Ok(())
            }
            Call::ResizeVector { size, .. } => self.resize(*size),
            Call::BuildVector { tuples, dup, .. } => tuples.build(self, *dup),
            _ => unreachable!(),
        }
    }

    fn copy_to_change(&self, alloc: Global, call: &Call) -> Result<SparseVector, AllocError> {
        if let Call::ClearVector { .. } = call {
            return Ok(SparseVector::new(alloc, self.domain(), self.dims()));
        }
        self.try_share()
    }

    fn make_shareable(&mut self) {
        self.make_shareable();
    }

    fn is_assembled(&self) -> bool {
        self.is_assembled()
    }

    fn has_many_changes(&self) -> bool {
        are_many(&self.layers())
    }

    fn assemble(&mut self) -> Result<(), AllocError> {
        self.assemble()
    }

    fn try_clone(&self) -> Result<SparseVector, AllocError> {
        self.try_clone()
    }
}
