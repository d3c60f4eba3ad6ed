//! What one call makes of what it reads.
ghost use Rattle.std.specs.Prelude.{◌≡◌, ◌∷◌, ◌++◌, [], true, List, None, Some, IfOk, IfSome, OnOk, OnErr};
ghost use Rattle.std.specs.Option.{option_map};
ghost use Rattle.grb_call.specs.declared.ids.Object.{Object};
ghost use Rattle.grb_call.specs.Kinds.{class_of};
ghost use Rattle.grb_call.specs.Operands.{objects_read};
ghost use Rattle.grb_call.specs.Refused.{has_valid_values, refused_by_shapes};
ghost use Rattle.grb_call.specs.Shapes.{ObjectShapes};
ghost use Rattle.grb_call.specs.Store.{Store, shapes_of};
ghost use Rattle.grb_slices.specs.Content.{Contents, content_at, diagonal_content, outcome};
ghost use Rattle.grb_slices.specs.Slice.{is_among};
ghost use Rattle.grb_slices.specs.Steps.{AgreeOn};
ghost use Rattle.grb_links.specs.Overwrites.{blank_of};
ghost use Rattle.grb_objects.specs.SharedContent.{is_free};
ghost use Rattle.grb_results.specs.Results.{AreHeld, MayMake};
ghost use Rattle.grb_results.specs.Value.{IsEdit, content_of};

use grb_call::{Call, Class, Diagonal, Object};
use grb_core::{diagonal_size, is_dimension};
use grb_links::{Shape, forgets};
use grb_objects::{Operates, SharedContent};
use grb_sparse::{SparseMatrix, SparseVector};
use std::alloc::{AllocError, Global};

/// Whether the call ends an object.
fn is_free(call: &Call) -> bool
    ensures { result ≡ is_free call.now }
{
    matches!(call, Call::FreeMatrix { .. } | Call::FreeVector { .. })
}

/// Whether the call changes what one object stores: it neither ends it nor clears it. Takes no memory.
pub(crate) fn is_edit(call: &Call) -> bool
    ensures { result ≡ true → IsEdit call.now }
{
    match call.class() {
        Class::Edits => !is_free(call) && !forgets(call),
        Class::Makes | Class::Operates | Class::Reads(_) | Class::AsksDimensions => false,
    }
}

/// Changes what the output of the call held into what it holds after it: where it lies, if nothing else holds it. `AllocError` where memory
/// is refused; then its entries are as before.
pub(crate) fn edit(alloc: Global, value: &mut SharedContent, call: &Call) -> Result<(), AllocError>
    requires edits { IsEdit call.now }
    requires may { MayMake call.now (value.old ∷ []) }
    ensures ok { OnOk result ((r : Contents) → AreHeld r (objects_read call.now) (value.old ∷ []) → outcome r call.now ≡ Some (content_of value.new)) }
    ensures err { OnErr result (content_of value.new ≡ content_of value.old) }
{
    if value.refuses(call) {
        return Ok(());
    }
    value.edit(alloc, call)
}

/// What a call makes that reads nothing: a new object; none of any other call. `AllocError` where memory is refused.
pub(crate) fn new_object(alloc: Global, call: &Call) -> Result<Option<SharedContent>, AllocError>
    requires { (shapes : ObjectShapes) × (has_valid_values shapes call.now ≡ true) }
    ensures { IfOk result (λ made. IfSome made (λ v. (r : Contents) → outcome r call.now ≡ Some (content_of v))) }
{
    match call {
        Call::NewMatrix {
            domain,
            nrows,
            ncols,
        } => {
            let matrix = SparseMatrix::new(alloc, *domain, *nrows, *ncols);
            Ok(Some(SharedContent::of_matrix(alloc, matrix)?))
        }
        Call::NewVector { domain, size } => {
            let vector = SparseVector::new(alloc, *domain, *size);
            Ok(Some(SharedContent::of_vector(alloc, vector)?))
        }
        _ => Ok(None),
    }
}

/// What a call makes that puts the vector of this content on a diagonal; none where that is no vector, or where no matrix can have so many
/// rows. `AllocError` where memory is refused.
pub(crate) fn diagonal_of<O: Operates>(
    bench: &O,
    alloc: Global,
    diagonal: Diagonal,
    value: SharedContent,
) -> Result<Option<SharedContent>, AllocError>
    ensures { IfOk result (λ made. IfSome made (λ v. diagonal_content diagonal (Some (content_of value)) ≡ Some (content_of v))) }
{
    let mut value = value;
    value.assemble(alloc)?;
    let Some(v) = value.vector() else {
        return Ok(None);
    };
    if !is_dimension(diagonal_size(diagonal, v.dims())) {
        return Ok(None);
    }
    let matrix = bench.diagonal(alloc, diagonal, v)?;
    Ok(Some(SharedContent::of_matrix(alloc, matrix)?))
}

/// Puts what an object holds on the bench, next to others. `AllocError` where memory is refused.
pub(crate) fn hold<O: Operates>(
    bench: &mut O,
    object: Object,
    value: SharedContent,
) -> Result<(), AllocError>
    ensures { OnOk result ((s : Store) (os : List Object) → AgreeOn (is_among os) (content_at (O.on bench.old)) (content_at s) → content_at s object ≡ Some (content_of value) → AgreeOn (is_among (os ++ object ∷ [])) (content_at (O.on bench.new)) (content_at s)) }
{
    bench.hold(object, value)
}

/// Takes these objects off the bench.
pub(crate) fn clear<O: Operates>(bench: &mut O, read: &[Object]) {
    for object in read {
        let _dropped = bench.take(*object);
    }
}

/// What the operation leaves of its output, made of what stands on the bench. `AllocError` where memory is refused.
pub(crate) fn operated<O: Operates>(
    bench: &mut O,
    call: &Call,
) -> Result<Option<SharedContent>, AllocError>
    requires operates { class_of call.now ≡ Class.Operates }
    requires accepted { refused_by_shapes (shapes_of (O.on bench.old)) call.now ≡ None }
    ensures { IfOk result (λ made. (r : Contents) → AgreeOn (is_among (objects_read call.now)) (content_at (O.on bench.old)) r → option_map content_of made ≡ outcome r call.now) }
{
    bench.operate(call)?;
    match call.output() {
        Some(output) => Ok(bench.take(output)),
        None => unreachable!(),
    }
}

/// An object of this shape that stores nothing; none where its dimensions are out of range. `AllocError` where memory is refused.
pub(crate) fn blank(alloc: Global, shape: Shape) -> Result<Option<SharedContent>, AllocError>
    ensures { IfOk result (λ found. IfSome found (λ v. content_of v ≡ blank_of shape)) }
{
    match shape {
        Shape::Matrix(domain, nrows, ncols) => {
            if !is_dimension(nrows) || !is_dimension(ncols) {
                return Ok(None);
            }
            let matrix = SparseMatrix::new(alloc, domain, nrows, ncols);
            Ok(Some(SharedContent::of_matrix(alloc, matrix)?))
        }
        Shape::Vector(domain, size) => {
            if !is_dimension(size) {
                return Ok(None);
            }
            let vector = SparseVector::new(alloc, domain, size);
            Ok(Some(SharedContent::of_vector(alloc, vector)?))
        }
    }
}
