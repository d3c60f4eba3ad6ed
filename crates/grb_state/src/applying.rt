//! A call made on a state, and one answered from it.
ghost use Rattle.std.specs.Prelude.{◌≡◌, ◌+◌, ◌<◌, false, None, OnOk, OnErr};
ghost use Rattle.std.specs.Ordering.{nat_cmp};
ghost use Rattle.std.specs.FinMap.{find};
ghost use Rattle.grb_core.specs.Entries.{cell_cmp};
ghost use Rattle.grb_core.specs.Results.{reduce_of};
ghost use Rattle.grb_call.specs.declared.call.Call.{Call};
ghost use Rattle.grb_call.specs.Kinds.{enters, is_size};
ghost use Rattle.grb_call.specs.Store.{matrix_entries, vector_entries};
ghost use Rattle.grb_call.specs.After.{after, refused, reply_of};
ghost use Rattle.grb_states.specs.Settled.{IsSettled};
ghost use Rattle.grb_states.specs.State.{is_assembled};

use crate::changing::change;
use grb_call::{Call, MatrixId, Object, Reply, VectorId};
use grb_core::{Monoid, Value};
use grb_folds::{reduce_matrix, reduce_vector};
use grb_objects::{lent, object_of};
use grb_operations::get_reply;
use grb_states::State;
use std::alloc::AllocError;

/// The store after the call; a call that is refused changes nothing. `AllocError` where memory is refused.
pub fn apply(state: &mut State, call: &Call) -> Result<(), AllocError>
    requires { 0 < state.old.room }
    ensures store { OnOk result (state.new.store ≡ after state.old.store call.now) }
    ensures room { OnOk result (state.new.room + 1 ≡ state.old.room) }
    ensures err_store { OnErr result (state.new.store ≡ state.old.store) }
    ensures err_room { OnErr result (state.new.room ≡ state.old.room) }
{
    if state.refused(call).is_none() {
        change(&mut state.objects, call)?;
    }
    state.shapes.absorb(call);
    Ok(())
}

/// The value that the matrix stores in row `i`, column `j`, if there is one.
fn get_matrix(state: &State, a: MatrixId, i: u64, j: u64) -> Option<Value>
    ensures { result ≡ find cell_cmp (i, j) (matrix_entries state.now.store a) }
{
    object_of(&state.objects.matrices, a)?.get(i, j)
}

/// The value that the vector stores at `i`, if there is one.
fn get_vector(state: &State, v: VectorId, i: u64) -> Option<Value>
    ensures { result ≡ find nat_cmp i (vector_entries state.now.store v) }
{
    object_of(&state.objects.vectors, v)?.get(i)
}

/// All values that the matrix stores, combined by the monoid.
fn total_of_matrix(state: &State, a: MatrixId, monoid: Monoid) -> Value
    requires accepted { refused state.now.store (Call.ReduceMatrix a monoid) ≡ None }
    ensures { result ≡ reduce_of monoid (matrix_entries state.now.store a) }
{
    reduce_matrix(lent(&state.objects.matrices, a), monoid)
}

/// All values that the vector stores, combined by the monoid.
fn total_of_vector(state: &State, v: VectorId, monoid: Monoid) -> Value
    requires accepted { refused state.now.store (Call.ReduceVector v monoid) ≡ None }
    ensures { result ≡ reduce_of monoid (vector_entries state.now.store v) }
{
    reduce_vector(lent(&state.objects.vectors, v), monoid)
}

/// The reply to a call that is not refused, only reads, and does not ask for dimensions alone; what it needs was settled. Takes no
/// memory.
pub fn reply(state: &State, call: &Call) -> Reply
    requires reads { enters call.now ≡ false }
    requires no_size { is_size call.now ≡ false }
    requires accepted { refused state.now.store call.now ≡ None }
    requires settled { IsSettled (is_assembled state.now.matrices state.now.vectors) call.now }
    ensures { result ≡ reply_of state.now.store call.now }
{
    match call {
        Call::GetMatrix { a, i, j } => get_reply(get_matrix(state, *a, *i, *j)),
        Call::GetVector { v, i } => get_reply(get_vector(state, *v, *i)),
        Call::NvalsMatrix { a } => Reply::Count(state.nvals(Object::Matrix(*a))),
        Call::NvalsVector { v } => Reply::Count(state.nvals(Object::Vector(*v))),
        Call::ReduceMatrix { a, monoid } => Reply::Value(total_of_matrix(state, *a, *monoid)),
        Call::ReduceVector { v, monoid } => Reply::Value(total_of_vector(state, *v, *monoid)),
        Call::WaitMatrix { .. } | Call::WaitVector { .. } => Reply::Done,
        _ => unreachable!(),
    }
}
