//! What each operation leaves of its output. Everything is lent, so that one object may be output, input and mask.
ghost use Rattle.std.specs.Prelude.{◌≡◌, Some, None, IfOk};
ghost use Rattle.grb_call.specs.declared.call.Call.TheVariants.{WriteMatrix, WriteVector};
ghost use Rattle.grb_call.specs.Kinds.{class_of};
ghost use Rattle.grb_call.specs.Output.{output_of, matrix_left, vector_left};
ghost use Rattle.grb_call.specs.Store.{matrix_at, vector_at};
ghost use Rattle.grb_call.specs.After.{refused};
ghost use Rattle.grb_states.specs.Objects.{store_of, AreOperandsIn};

use grb_call::{Call, Class, Descriptor, MatrixId, MatrixTerm, Object, VectorId, VectorTerm};
use grb_core::BinaryOp;
use grb_ewise::{ewise_add_matrix, ewise_add_vector, ewise_mult_matrix, ewise_mult_vector};
use grb_jobs::{Board, multiply};
use grb_kronecker::kronecker_matrix;
use grb_maps::{apply_matrix, apply_vector, select_matrix, select_vector, transpose_matrix};
use grb_objects::{lent, lent_mask};
use grb_pull::{mxv, reduce_rows, vxm};
use grb_sparse::{SparseMatrix, SparseVector};
use grb_states::Objects;
use std::alloc::AllocError;

/// What the term computes, written into the output `c`. `AllocError` where memory is refused.
fn written_matrix(
    objects: &Objects,
    c: MatrixId,
    mask: Option<MatrixId>,
    accum: Option<BinaryOp>,
    term: MatrixTerm,
    d: Descriptor,
) -> Result<SparseMatrix, AllocError>
    requires accepted { refused (store_of objects.now) (WriteMatrix c mask accum term d) ≡ None }
    requires assembled { AreOperandsIn objects.now (WriteMatrix c mask accum term d) }
    ensures { IfOk result (λ made. matrix_left (store_of objects.now) (WriteMatrix c mask accum term d) (matrix_at (store_of objects.now) c) ≡ Some made.matrix) }
{
    let alloc = *objects.matrices.allocator();
    let output = lent(&objects.matrices, c);
    let inside = lent_mask(&objects.matrices, mask);
    match term {
        MatrixTerm::Transposed { a } => {
            let input = lent(&objects.matrices, a);
            transpose_matrix(alloc, output, inside, accum, input, d)
        }
        MatrixTerm::Applied { f, a } => {
            let input = lent(&objects.matrices, a);
            apply_matrix(alloc, output, inside, accum, f, input, d)
        }
        MatrixTerm::Selected { test, a } => {
            let input = lent(&objects.matrices, a);
            select_matrix(alloc, output, inside, accum, test, input, d)
        }
        MatrixTerm::Kronecker { op, a, b } => {
            let first = lent(&objects.matrices, a);
            let second = lent(&objects.matrices, b);
            kronecker_matrix(alloc, output, inside, accum, op, first, second, d)
        }
    }
}

/// What the term computes, written into the output `w`. `AllocError` where memory is refused.
fn written_vector(
    objects: &Objects,
    w: VectorId,
    mask: Option<VectorId>,
    accum: Option<BinaryOp>,
    term: VectorTerm,
    d: Descriptor,
) -> Result<SparseVector, AllocError>
    requires accepted { refused (store_of objects.now) (WriteVector w mask accum term d) ≡ None }
    requires assembled { AreOperandsIn objects.now (WriteVector w mask accum term d) }
    ensures { IfOk result (λ made. vector_left (store_of objects.now) (WriteVector w mask accum term d) (vector_at (store_of objects.now) w) ≡ Some made.vector) }
{
    let alloc = *objects.vectors.allocator();
    let output = lent(&objects.vectors, w);
    let inside = lent_mask(&objects.vectors, mask);
    match term {
        VectorTerm::Applied { f, u } => {
            let input = lent(&objects.vectors, u);
            apply_vector(alloc, output, inside, accum, f, input, d)
        }
        VectorTerm::Selected { test, u } => {
            let input = lent(&objects.vectors, u);
            select_vector(alloc, output, inside, accum, test, input, d)
        }
    }
}

/// What the operation writes into its output, of which the mask is of the sort `$sort`. For each operation stands what it computes with and
/// the sort of each input, in their order, and what computes and writes it, with what else it is lent; and before these what writes a term.
macro_rules! operated {
    ($call:ident, $objects:ident, $sort:ident, $alloc:ident, $output:ident, $id:ident;
     $term_name:ident => $write:ident,
     $($name:ident { $with:ident, $($input:ident in $places:ident),* } => $operate:ident $(($lent:ident))?,)*) => {
        match $call {
            $(Call::$name { mask, accum, $with, $($input,)* d, .. } => {
                let inside = lent_mask(&$objects.$sort, *mask);
                $(let $input = lent(&$objects.$places, *$input);)*
                $operate($alloc, $($lent,)? $output, inside, *accum, *$with, $($input,)* *d)
            })*
            Call::$term_name { mask, accum, term, d, .. } => {
                $write($objects, $id, *mask, *accum, *term, *d)
            }
            _ => unreachable!(),
        }
    };
}

/// The matrix that the operation leaves of its output `c`. `AllocError` where memory is refused.
pub(crate) fn operated_matrix(
    objects: &Objects,
    board: Option<&Board>,
    c: MatrixId,
    call: &Call,
) -> Result<SparseMatrix, AllocError>
    requires operates { class_of call.now ≡ Class.Operates }
    requires output { output_of call.now ≡ Some (Object.Matrix c) }
    requires accepted { refused (store_of objects.now) call.now ≡ None }
    requires assembled { AreOperandsIn objects.now call.now }
    ensures { IfOk result (λ made. matrix_left (store_of objects.now) call.now (matrix_at (store_of objects.now) c) ≡ Some made.matrix) }
{
    let alloc = *objects.matrices.allocator();
    let output = lent(&objects.matrices, c);
    operated!(call, objects, matrices, alloc, output, c;
        WriteMatrix => written_matrix,
        EwiseAddMatrix { op, a in matrices, b in matrices } => ewise_add_matrix,
        EwiseMultMatrix { op, a in matrices, b in matrices } => ewise_mult_matrix,
        Mxm { semiring, a in matrices, b in matrices } => multiply(board),
    )
}

/// The vector that the operation leaves of its output `w`. `AllocError` where memory is refused.
pub(crate) fn operated_vector(
    objects: &Objects,
    w: VectorId,
    call: &Call,
) -> Result<SparseVector, AllocError>
    requires operates { class_of call.now ≡ Class.Operates }
    requires output { output_of call.now ≡ Some (Object.Vector w) }
    requires accepted { refused (store_of objects.now) call.now ≡ None }
    requires assembled { AreOperandsIn objects.now call.now }
    ensures { IfOk result (λ made. vector_left (store_of objects.now) call.now (vector_at (store_of objects.now) w) ≡ Some made.vector) }
{
    let alloc = *objects.vectors.allocator();
    let output = lent(&objects.vectors, w);
    operated!(call, objects, vectors, alloc, output, w;
        WriteVector => written_vector,
        EwiseAddVector { op, u in vectors, v in vectors } => ewise_add_vector,
        EwiseMultVector { op, u in vectors, v in vectors } => ewise_mult_vector,
        Mxv { semiring, a in matrices, u in vectors } => mxv,
        Vxm { semiring, u in vectors, a in matrices } => vxm,
        ReduceRows { monoid, a in matrices } => reduce_rows,
    )
}
