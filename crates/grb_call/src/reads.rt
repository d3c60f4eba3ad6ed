//! The objects that a call reads.
ghost use Rattle.std.specs.Prelude.{◌≡◌, ◌++◌};
ghost use Rattle.grb_call.specs.Operation.{if_any, operation_inputs, operation_objects};
ghost use Rattle.grb_call.specs.Operands.{objects_read};

use crate::call::Call;
use crate::ids::Object;
use crate::operation::Operation;
use smallvec::SmallVec;
use std::alloc::Global;

/// No object, or one.
fn one(alloc: Global, object: Option<Object>) -> SmallVec<Object, 4>
    ensures items { result.items ≡ if_any object }
    ensures capacity { result.capacity ≡ 4 }
{
    let mut objects = SmallVec::new(alloc);
    if let Some(object) = object {
        objects.push_reserved(object);
    }
    objects
}

/// The output of an operation, its inputs and its mask.
fn of_operation(alloc: Global, operation: &Operation) -> SmallVec<Object, 4>
    ensures { result.items ≡ operation_objects operation.now ++ if_any operation.now.mask }
{
    let mut objects = one(alloc, Some(operation.output));
    if let Some(first) = operation.first {
        objects.push_reserved(first);
    }
    if let Some(second) = operation.second {
        objects.push_reserved(second);
    }
    if let Some(mask) = operation.mask {
        objects.push_reserved(mask);
    }
    objects
}

impl Operation {
    /// The inputs that are there, the first before the second; an object that is both stands twice. Takes no memory.
    pub fn inputs(&self, alloc: Global) -> SmallVec<Object, 4>
        ensures { result.items ≡ operation_inputs self.now }
    {
        let mut objects = one(alloc, self.first);
        if let Some(second) = self.second {
            objects.push_reserved(second);
        }
        objects
    }
}

/// The objects that the call reads, its output first: what the output held, the inputs and the mask, four at most; one that it names
/// twice stands twice. Takes no memory.
///
/// Source: GraphBLAS C API 2.0, "Operations"; the list is own.
pub fn objects_read(alloc: Global, call: &Call) -> SmallVec<Object, 4>
    ensures { result.items ≡ objects_read call.now }
{
    match call.operation() {
        Some(operation) => of_operation(alloc, &operation),
        None => one(alloc, call.named()),
    }
}
