//! What one object holds, by itself: with no number, and in no store.
ghost use Rattle.std.specs.Prelude.{◌≡◌, ◌||◌, ◌==◌, ◌&&◌, not, nat_lt, false, true, is_some, Some, OnOk, OnErr, IfOk};
ghost use Rattle.std.specs.List.{list_all};
ghost use Rattle.std.specs.Option.{option_map};
ghost use Rattle.grb_core.specs.Entries.{nvals_of};
ghost use Rattle.grb_call.specs.declared.ids.Object.{Object};
ghost use Rattle.grb_call.specs.After.{changed, refused_build};
ghost use Rattle.grb_call.specs.Kinds.{class_of};
ghost use Rattle.grb_call.specs.Output.{output_of};
ghost use Rattle.grb_call.specs.Store.{Store};
ghost use Rattle.grb_objects.specs.SharedContent.{HoldSame, IsAt, MayEdit, count_of, is_assembled_content, is_free, matrix_in, vector_in};

use crate::places::{assemble_shared, change_shared};
use crate::shared::SharedObject;
use crate::stored_object::StoredObject;
use grb_call::{Call, Class, MatrixTuples, VectorTuples};
use grb_sparse::{SparseMatrix, SparseVector};
use std::alloc::{AllocError, Global};
use std::sync::Arc;

/// A matrix or a vector with its entries, for all that share it: one that changes it does so where it lies if no other holds it, and else
/// changes a copy.
#[derive(Drop)]
pub enum SharedContent {
    /// A matrix.
    Matrix(SharedObject<SparseMatrix>),
    /// A vector.
    Vector(SharedObject<SparseVector>),
}

/// Whether the matrix cannot be built of these tuples: it stores an entry, or one of them is outside.
fn refuses_cells(matrix: &SparseMatrix, tuples: &MatrixTuples) -> bool
    ensures { result ≡ not (nvals_of matrix.now.matrix.entries == 0) || not (list_all (λ e. nat_lt e.0 matrix.now.matrix.nrows && nat_lt e.1 matrix.now.matrix.ncols) tuples.now) }
{
    let (nrows, ncols) = matrix.dims();
    matrix.nvals() != 0 || !tuples.are_within(nrows, ncols)
}

/// Whether the vector cannot be built of these tuples: it stores an entry, or one of them is outside.
fn refuses_indices(vector: &SparseVector, tuples: &VectorTuples) -> bool
    ensures { result ≡ not (nvals_of vector.now.vector.entries == 0) || not (list_all (λ e. nat_lt e.0 vector.now.vector.size) tuples.now) }
{
    vector.nvals() != 0 || !tuples.are_within(vector.dims())
}

impl SharedContent {
    /// A matrix that nothing else holds. `AllocError` where memory is refused.
    pub fn of_matrix(alloc: Global, matrix: SparseMatrix) -> Result<SharedContent, AllocError>
        ensures { IfOk result (λ shared. shared ≡ SharedContent.Matrix matrix) }
    {
        Ok(SharedContent::Matrix(SharedObject::new(alloc, matrix)?))
    }

    /// A vector that nothing else holds. `AllocError` where memory is refused.
    pub fn of_vector(alloc: Global, vector: SparseVector) -> Result<SharedContent, AllocError>
        ensures { IfOk result (λ shared. shared ≡ SharedContent.Vector vector) }
    {
        Ok(SharedContent::Vector(SharedObject::new(alloc, vector)?))
    }

    /// The same object for one more holder; nothing of it is copied, and no memory is taken. `AllocError` where 2^63 - 1 hold it.
    pub fn share(&self) -> Result<SharedContent, AllocError>
        ensures { IfOk result (λ shared. shared ≡ self.now) }
    {
        match self {
            SharedContent::Matrix(matrix) => Ok(SharedContent::Matrix(matrix.share()?)),
            SharedContent::Vector(vector) => Ok(SharedContent::Vector(vector.share()?)),
        }
    }

    /// The matrix, where it is one. Takes no memory.
    pub fn matrix(&self) -> Option<&SparseMatrix>
        ensures { option_map (λ m. m.now) result ≡ matrix_in self.now }
    {
        match self {
            SharedContent::Matrix(matrix) => Some(matrix.lent()),
            SharedContent::Vector(_) => None,
        }
    }

    /// The vector, where it is one. Takes no memory.
    pub fn vector(&self) -> Option<&SparseVector>
        ensures { option_map (λ x. x.now) result ≡ vector_in self.now }
    {
        match self {
            SharedContent::Matrix(_) => None,
            SharedContent::Vector(vector) => Some(vector.lent()),
        }
    }

    /// The matrix as all share it that hold it, where it is one: who clones the `Arc` holds it too, and no entry is copied. Takes no
    /// memory.
    pub fn held_matrix(&self) -> Option<&Arc<SparseMatrix>>
        ensures { option_map (λ m. m.now.value) result ≡ matrix_in self.now }
    {
        match self {
            SharedContent::Matrix(matrix) => Some(matrix.held()),
            SharedContent::Vector(_) => None,
        }
    }

    /// The vector as all share it that hold it, where it is one, as [`SharedContent::held_matrix`] gives a matrix. Takes no memory.
    pub fn held_vector(&self) -> Option<&Arc<SparseVector>>
        ensures { option_map (λ x. x.now.value) result ≡ vector_in self.now }
    {
        match self {
            SharedContent::Matrix(_) => None,
            SharedContent::Vector(vector) => Some(vector.held()),
        }
    }

    /// The matrix for one more holder, where it is one; nothing of it is copied, and no memory is taken. `AllocError` where 2^63 - 1 hold
    /// it.
    pub fn share_matrix(&self) -> Result<Option<SharedObject<SparseMatrix>>, AllocError>
        ensures { IfOk result (λ shared. shared ≡ matrix_in self.now) }
    {
        match self {
            SharedContent::Matrix(matrix) => Ok(Some(matrix.share()?)),
            SharedContent::Vector(_) => Ok(None),
        }
    }

    /// The vector for one more holder, where it is one, as [`SharedContent::share_matrix`] gives a matrix.
    pub fn share_vector(&self) -> Result<Option<SharedObject<SparseVector>>, AllocError>
        ensures { IfOk result (λ shared. shared ≡ vector_in self.now) }
    {
        match self {
            SharedContent::Matrix(_) => Ok(None),
            SharedContent::Vector(vector) => Ok(Some(vector.share()?)),
        }
    }

    /// How many entries it stores. Takes no memory.
    pub fn nvals(&self) -> u64
        ensures { result ≡ count_of self.now }
    {
        match self {
            SharedContent::Matrix(matrix) => matrix.lent().nvals(),
            SharedContent::Vector(vector) => vector.lent().nvals(),
        }
    }

    /// Whether no change waits in it. Takes no memory.
    pub fn is_assembled(&self) -> bool
        ensures { result ≡ is_assembled_content self.now }
    {
        match self {
            SharedContent::Matrix(matrix) => matrix.lent().is_assembled(),
            SharedContent::Vector(vector) => vector.lent().is_assembled(),
        }
    }

    /// Whether so many changes wait in it that it pays to do them. Takes no memory. Either answer is right; it bears on time alone.
    pub fn has_many_changes(&self) -> bool {
        match self {
            SharedContent::Matrix(matrix) => matrix.lent().has_many_changes(),
            SharedContent::Vector(vector) => vector.lent().has_many_changes(),
        }
    }

    /// Does the changes that wait in the object, or in a copy where others hold it. `AllocError` where memory is refused; its entries are
    /// as before in any case.
    pub fn assemble(&mut self, alloc: Global) -> Result<(), AllocError>
        ensures same { HoldSame self.old self.new }
        ensures assembled { OnOk result (is_assembled_content self.new ≡ true) }
    {
        match self {
            SharedContent::Matrix(matrix) => assemble_shared(alloc, matrix),
            SharedContent::Vector(vector) => assemble_shared(alloc, vector),
        }
    }

    /// Whether what is stored refuses the call: a build that finds an entry, or names a place outside. Takes no memory.
    pub fn refuses(&self, call: &Call) -> bool
        ensures { (s : Store) (o : Object) → output_of call.now ≡ Some o → IsAt s o self.now → result ≡ is_some (refused_build s call.now) }
    {
        match call {
            Call::BuildMatrix { tuples, .. } => match self {
                SharedContent::Matrix(matrix) => refuses_cells(matrix.lent(), tuples),
                SharedContent::Vector(_) => false,
            },
            Call::BuildVector { tuples, .. } => match self {
                SharedContent::Matrix(_) => false,
                SharedContent::Vector(vector) => refuses_indices(vector.lent(), tuples),
            },
            _ => false,
        }
    }

    /// Changes the object as the call says, which does not end it, or a copy where others hold it. `AllocError` where memory is refused;
    /// then its entries are as before.
    pub fn edit(&mut self, alloc: Global, call: &Call) -> Result<(), AllocError>
        requires edits { class_of call.now ≡ Class.Edits }
        requires goes_on { is_free call.now ≡ false }
        requires accepted { MayEdit call.now self.old }
        ensures ok { OnOk result ((s : Store) (o : Object) → output_of call.now ≡ Some o → IsAt s o self.old → IsAt (changed s call.now) o self.new) }
        ensures err { OnErr result (HoldSame self.old self.new) }
    {
        match self {
            SharedContent::Matrix(matrix) => change_shared(alloc, matrix, call),
            SharedContent::Vector(vector) => change_shared(alloc, vector, call),
        }
    }
}
