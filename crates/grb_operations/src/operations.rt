//! Operations: what an operation reads is assembled, lent, and its answer put in the place of the old output.
ghost use Rattle.std.specs.Prelude.{◌≡◌, ◌<◌, None, Some, length, slice_get, OnOk, OnErr};
ghost use Rattle.grb_call.specs.Kinds.{class_of};
ghost use Rattle.grb_call.specs.After.{changed, refused};
ghost use Rattle.grb_states.specs.Objects.{store_of, places_of, AreAllIn, AreOperandsIn};

use crate::outputs::{operated_matrix, operated_vector};
use grb_call::{Call, Class, Object, objects_read};
use grb_jobs::Board;
use grb_objects::put;
use grb_states::Objects;
use std::alloc::AllocError;

/// The object at this place of the list.
fn object_at(read: &[Object], at: usize) -> Object
    requires { at < length read.now }
    ensures { slice_get read.now at ≡ Some result }
{
    read[at]
}

/// Assembles each of the objects that is there. `AllocError` where memory is refused; the entries are as before in any case.
fn assemble_each(objects: &mut Objects, read: &[Object]) -> Result<(), AllocError>
    ensures same { store_of objects.new ≡ store_of objects.old }
    ensures assembled { OnOk result (AreAllIn objects.new read.now) }
    ensures places { places_of objects.new ≡ places_of objects.old }
{
    let mut at = read.len();
    'each: while at > 0 {
        at -= 1;
        objects.assemble(object_at(read, at))?;
    }
    Ok(())
}

/// Assembles all that the operation reads, its old output and its mask among it. `AllocError` where memory is refused; the entries
/// of each object are as before in any case.
fn assemble_operands(objects: &mut Objects, call: &Call) -> Result<(), AllocError>
    ensures same { store_of objects.new ≡ store_of objects.old }
    ensures assembled { OnOk result (AreOperandsIn objects.new call.now) }
    ensures places { places_of objects.new ≡ places_of objects.old }
{
    let read = objects_read(*objects.matrices.allocator(), call);
    assemble_each(objects, read.as_slice())
}

/// The objects that an operation which is not refused leaves: its output is made from what stood before, and put last. `AllocError`
/// where memory is refused; then each has the entries that it had. A dear product is made on the board, if there is one.
pub fn operate(objects: &mut Objects, board: Option<&Board>, call: &Call) -> Result<(), AllocError>
    requires operates { class_of call.now ≡ Class.Operates }
    requires accepted { refused (store_of objects.old) call.now ≡ None }
    ensures ok { OnOk result (store_of objects.new ≡ changed (store_of objects.old) call.now) }
    ensures err { OnErr result (store_of objects.new ≡ store_of objects.old) }
    ensures places { places_of objects.new ≡ places_of objects.old }
{
    assemble_operands(objects, call)?;
    match call.output() {
        Some(Object::Matrix(c)) => {
            let made = operated_matrix(objects, board, c, call)?;
            put(&mut objects.matrices, c, made)
        }
        Some(Object::Vector(w)) => {
            let made = operated_vector(objects, w, call)?;
            put(&mut objects.vectors, w, made)
        }
        None => unreachable!(),
    }
}
