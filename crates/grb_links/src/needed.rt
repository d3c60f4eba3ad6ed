//! Which calls need nothing of what their output stored.
ghost use Rattle.std.specs.Prelude.{◌≡◌};
ghost use Rattle.grb_call.specs.Operation.{if_any, operation_inputs};
ghost use Rattle.grb_call.specs.Status.{is_same_object};
ghost use Rattle.grb_slices.specs.Slice.{is_among};
ghost use Rattle.grb_links.specs.Overwrites.{forgets, is_anew, is_clear, is_plain};

use grb_call::{Call, Object, Operation};

/// Whether the call clears its object. Takes no memory.
pub fn is_clear(call: &Call) -> bool
    ensures { result ≡ is_clear call.now }
{
    matches!(call, Call::ClearMatrix { .. } | Call::ClearVector { .. })
}

/// Whether they are one object.
fn is_same(a: Object, b: Object) -> bool
    ensures { result ≡ is_same_object a b }
{
    match a {
        Object::Matrix(first) => match b {
            Object::Matrix(second) => first.0 == second.0,
            Object::Vector(_) => false,
        },
        Object::Vector(first) => match b {
            Object::Matrix(_) => false,
            Object::Vector(second) => first.0 == second.0,
        },
    }
}

/// Whether no mask selects places, no accumulator combines, and all places are inside.
fn is_plain(operation: &Operation) -> bool
    ensures { result ≡ is_plain operation.now.mask operation.now.accum operation.now.d.comp }
{
    match operation.mask {
        Some(_) => false,
        None => match operation.accum {
            Some(_) => false,
            None => !operation.d.comp,
        },
    }
}

/// Whether the object is the other, if there is one.
fn is_that(object: Object, other: Option<Object>) -> bool
    ensures { result ≡ is_among (if_any other) object }
{
    match other {
        Some(other) => is_same(object, other),
        None => false,
    }
}

/// Whether the output is one of the inputs.
fn is_input(operation: &Operation) -> bool
    ensures { result ≡ is_among (operation_inputs operation.now) operation.now.output }
{
    if is_that(operation.output, operation.first) {
        return true;
    }
    is_that(operation.output, operation.second)
}

/// Whether the operation leaves nothing of what its output stored, which is none of its inputs.
fn is_anew(operation: &Operation) -> bool
    ensures { result ≡ is_anew operation.now }
{
    is_plain(operation) && !is_input(operation)
}

/// Whether the call needs nothing of what its output stored. Takes no memory.
pub fn forgets(call: &Call) -> bool
    ensures { result ≡ forgets call.now }
{
    if is_clear(call) {
        return true;
    }
    match call.operation() {
        Some(operation) => is_anew(&operation),
        None => false,
    }
}
