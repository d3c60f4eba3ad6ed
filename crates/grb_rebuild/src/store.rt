//! The calls that make a store anew, of an evaluated store.
ghost use Rattle.std.specs.Prelude.{◌≡◌, ◌≤◌, ◌+◌, ◌==◌, if◌then◌else◌, length, IfOk};
ghost use Rattle.grb_call.specs.Store.{IsStore};
ghost use Rattle.grb_states.specs.Settled.{AreAllAssembled};
ghost use Rattle.grb_states.specs.State.{is_assembled};
ghost use Rattle.grb_rebuild.specs.Rebuilt.{rebuilt};

use crate::objects::{push_matrix, push_vector};
use grb_call::{Call, MatrixId, Object, VectorId};
use grb_states::State;
use std::alloc::{AllocError, Global};

/// The calls that make the store anew. The builds share the entries, and none is copied. `AllocError` where memory is refused.
pub(crate) fn calls_for(alloc: Global, state: &State) -> Result<Vec<Call>, AllocError>
    requires { AreAllAssembled (is_assembled state.now.matrices state.now.vectors) }
    ensures calls { IfOk result (λ calls. calls.items ≡ rebuilt state.now.store) }
    ensures whole { IfOk result (λ calls. IsStore state.now.store) }
{
    let mut calls = Vec::new(alloc);
    'matrices: for number in 0..state.matrices() {
        push_matrix(&mut calls, number, state.held_matrix(MatrixId(number)))?;
    }
    'vectors: for number in 0..state.vectors() {
        push_vector(&mut calls, number, state.held_vector(VectorId(number)))?;
    }
    Ok(calls)
}

/// How many calls make what stands at a number that stores so many entries, or nothing where it was freed.
fn calls_at(is_there: bool, nvals: u64) -> u64
    ensures { result ≡ (if is_there then (if nvals == 0 then 1 else 2) else 2) }
{
    if is_there && nvals == 0 { 1 } else { 2 }
}

/// How many calls make the store anew: two at most for each number. Takes no memory (own).
pub fn needed(state: &State) -> u64
    ensures calls { result ≡ length (rebuilt state.now.store) }
    ensures numbers { length state.now.store.matrices + length state.now.store.vectors ≤ result }
{
    let mut calls = 0u64;
    'matrices: for number in 0..state.matrices() {
        let a = MatrixId(number);
        calls += calls_at(state.matrix(a).is_some(), state.nvals(Object::Matrix(a)));
    }
    'vectors: for number in 0..state.vectors() {
        let v = VectorId(number);
        calls += calls_at(state.vector(v).is_some(), state.nvals(Object::Vector(v)));
    }
    calls
}
