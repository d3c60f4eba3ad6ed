//! What waits in a state, done before a reading call is answered from it.
ghost use Rattle.std.specs.Prelude.{◌≡◌, true, OnOk, OnErr};
ghost use Rattle.grb_call.specs.Kinds.{class_of};
ghost use Rattle.grb_states.specs.Settled.{IsSettled, settles};
ghost use Rattle.grb_states.specs.State.{is_assembled};

use grb_call::{Call, Class, Extent, Object};
use grb_states::State;
use std::alloc::AllocError;

/// Does the changes that wait in the object, if they are so many that totals are dear which read them where they wait. Where memory is
/// refused, they wait on.
fn assemble_many(state: &mut State, object: Object)
    ensures store { state.new.store ≡ state.old.store }
    ensures room { state.new.room ≡ state.old.room }
{
    if state.objects.has_many_changes(object) {
        let _refused = state.complete(object);
    }
}

/// Does the changes that wait in the one object of which the call asks, where it waits for it; for a total, where they are many.
/// `AllocError` where memory is refused.
fn settle_object(state: &mut State, call: &Call) -> Result<(), AllocError>
    requires reads { class_of call.now ≡ Class.Reads Extent.Object }
    ensures store { state.new.store ≡ state.old.store }
    ensures room { state.new.room ≡ state.old.room }
    ensures settled { OnOk result (IsSettled (is_assembled state.new.matrices state.new.vectors) call.now) }
    ensures memory { OnErr result (settles call.now ≡ true) }
{
    match call {
        Call::GetMatrix { .. }
        | Call::GetVector { .. }
        | Call::NvalsMatrix { .. }
        | Call::NvalsVector { .. } => Ok(()),
        Call::ReduceMatrix { a, .. } => {
            assemble_many(state, Object::Matrix(*a));
            Ok(())
        }
        Call::ReduceVector { v, .. } => {
            assemble_many(state, Object::Vector(*v));
            Ok(())
        }
        Call::WaitMatrix { a, .. } => state.complete(Object::Matrix(*a)),
        Call::WaitVector { v, .. } => state.complete(Object::Vector(*v)),
        _ => unreachable!(),
    }
}

/// Does the changes that are to be done before a reading call is answered: those that a wait asks for. The entries are as before in any
/// case. `AllocError` where memory is refused, which a get, a count or a total never is.
pub fn settle(state: &mut State, call: &Call) -> Result<(), AllocError>
    ensures store { state.new.store ≡ state.old.store }
    ensures room { state.new.room ≡ state.old.room }
    ensures settled { OnOk result (IsSettled (is_assembled state.new.matrices state.new.vectors) call.now) }
    ensures memory { OnErr result (settles call.now ≡ true) }
{
    match call.class() {
        Class::Reads(Extent::Object) => settle_object(state, call),
        Class::Reads(Extent::All) => state.materialize(),
        Class::Makes | Class::Edits | Class::Operates | Class::AsksDimensions => Ok(()),
    }
}
