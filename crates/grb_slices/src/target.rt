//! The object that a call changes, where it is not refused.
ghost use Rattle.std.specs.Prelude.{◌≡◌, Some};
ghost use Rattle.grb_call.specs.Kinds.{class_of};
ghost use Rattle.grb_slices.specs.Content.{effective_target, target_of};

use grb_call::{Call, Class, MatrixId, Object, Shapes, VectorId, check};

/// The object that the call makes, on objects of these shapes, where it is not refused.
fn next_object(shapes: &Shapes, call: &Call) -> Object
    requires { class_of call.now ≡ Class.Makes }
    ensures { Some result ≡ target_of shapes.now.objects call.now }
{
    match call {
        Call::NewMatrix { .. } | Call::DupMatrix { .. } | Call::Diag { .. } => {
            Object::Matrix(MatrixId(shapes.matrices()))
        }
        Call::NewVector { .. } | Call::DupVector { .. } => {
            Object::Vector(VectorId(shapes.vectors()))
        }
        _ => unreachable!(),
    }
}

/// The object that the call changes or makes, on objects of these shapes, where it is not refused.
fn target_of(shapes: &Shapes, call: &Call) -> Option<Object>
    ensures { result ≡ target_of shapes.now.objects call.now }
{
    match call.class() {
        Class::Makes => Some(next_object(shapes, call)),
        Class::Edits | Class::Operates | Class::Reads(_) | Class::AsksDimensions => call.output(),
    }
}

/// The object that the call changes or makes, on objects of these shapes: none where they refuse it, and none of a call that only reads.
/// Takes no memory.
pub fn target_at(shapes: &Shapes, call: &Call) -> Option<Object>
    ensures { result ≡ effective_target shapes.now.objects call.now }
{
    match check(shapes, call) {
        Err(_refusal) => None,
        Ok(_kind) => target_of(shapes, call),
    }
}
