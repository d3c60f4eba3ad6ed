//! What one call more makes of the objects of a state.
ghost use Rattle.std.specs.Prelude.{◌≡◌, None, OnOk, OnErr};
ghost use Rattle.grb_call.specs.declared.call.Call.TheVariants.{Diag};
ghost use Rattle.grb_call.specs.Kinds.{class_of};
ghost use Rattle.grb_call.specs.After.{changed, refused};
ghost use Rattle.grb_states.specs.Objects.{store_of, places_of, HasPlaces};

use grb_call::{Call, Class, Diagonal, Object, VectorId};
use grb_maps::diagonal_matrix;
use grb_objects::{SharedObject, assemble, dup, edit, lent};
use grb_operations::operate;
use grb_sparse::{SparseMatrix, SparseVector};
use grb_states::Objects;
use std::alloc::AllocError;

/// Makes the matrix that has the vector on a diagonal. `AllocError` where memory is refused.
fn make_diagonal(objects: &mut Objects, v: VectorId, diagonal: Diagonal) -> Result<(), AllocError>
    requires accepted { refused (store_of objects.old) (Diag v diagonal) ≡ None }
    requires places { HasPlaces objects.old }
    ensures ok { OnOk result (store_of objects.new ≡ changed (store_of objects.old) (Diag v diagonal)) }
    ensures err { OnErr result (store_of objects.new ≡ store_of objects.old) }
    ensures places { places_of objects.new ≡ places_of objects.old }
{
    let alloc = *objects.matrices.allocator();
    assemble(&mut objects.vectors, v)?;
    let mut matrix = diagonal_matrix(alloc, diagonal, lent(&objects.vectors, v))?;
    matrix.make_shareable();
    let shared = SharedObject::new(alloc, matrix)?;
    objects.matrices.push_reserved(Some(shared));
    Ok(())
}

/// Makes the object that the call makes. `AllocError` where memory is refused.
fn make(objects: &mut Objects, call: &Call) -> Result<(), AllocError>
    requires makes { class_of call.now ≡ Class.Makes }
    requires accepted { refused (store_of objects.old) call.now ≡ None }
    requires places { HasPlaces objects.old }
    ensures ok { OnOk result (store_of objects.new ≡ changed (store_of objects.old) call.now) }
    ensures err { OnErr result (store_of objects.new ≡ store_of objects.old) }
    ensures places { places_of objects.new ≡ places_of objects.old }
{
    match call {
        Call::NewMatrix {
            domain,
            nrows,
            ncols,
        } => {
            let alloc = *objects.matrices.allocator();
            let matrix = SparseMatrix::new(alloc, *domain, *nrows, *ncols);
            let shared = SharedObject::new(alloc, matrix)?;
            objects.matrices.push_reserved(Some(shared));
            Ok(())
        }
        Call::NewVector { domain, size } => {
            let alloc = *objects.vectors.allocator();
            let vector = SparseVector::new(alloc, *domain, *size);
            let shared = SharedObject::new(alloc, vector)?;
            objects.vectors.push_reserved(Some(shared));
            Ok(())
        }
        Call::DupMatrix { a } => dup(&mut objects.matrices, *a),
        Call::DupVector { v } => dup(&mut objects.vectors, *v),
        Call::Diag { v, diagonal } => make_diagonal(objects, *v, *diagonal),
        _ => unreachable!(),
    }
}

/// Changes or ends the one object that the call names, as it says. `AllocError` where memory is refused; then each has the entries
/// that it had.
fn edit_output(objects: &mut Objects, call: &Call) -> Result<(), AllocError>
    requires edits { class_of call.now ≡ Class.Edits }
    requires accepted { refused (store_of objects.old) call.now ≡ None }
    ensures ok { OnOk result (store_of objects.new ≡ changed (store_of objects.old) call.now) }
    ensures err { OnErr result (store_of objects.new ≡ store_of objects.old) }
    ensures places { places_of objects.new ≡ places_of objects.old }
{
    match call.output() {
        Some(Object::Matrix(a)) => edit(&mut objects.matrices, a, call),
        Some(Object::Vector(v)) => edit(&mut objects.vectors, v, call),
        None => unreachable!(),
    }
}

/// Makes of the objects what a call which is not refused makes of them. `AllocError` where memory is refused; then each has the entries
/// that it had.
pub(crate) fn change(objects: &mut Objects, call: &Call) -> Result<(), AllocError>
    requires accepted { refused (store_of objects.old) call.now ≡ None }
    requires places { HasPlaces objects.old }
    ensures ok { OnOk result (store_of objects.new ≡ changed (store_of objects.old) call.now) }
    ensures err { OnErr result (store_of objects.new ≡ store_of objects.old) }
    ensures places { places_of objects.new ≡ places_of objects.old }
{
    match call.class() {
        Class::Makes => make(objects, call),
        Class::Edits => edit_output(objects, call),
        Class::Operates => operate(objects, None, call),
        Class::Reads(_) | Class::AsksDimensions => Ok(()),
    }
}
