//! Calls that are made on a state one by one, with a place for each object that is passed over.
ghost use Rattle.std.specs.Prelude.{◌≡◌, ◌+◌, ◌<◌, ◌≤◌, false, true, Some, length, map, OnOk};
ghost use Rattle.grb_call.specs.declared.call.Call.{Call};
ghost use Rattle.grb_call.specs.Store.{Store, shapes_of};
ghost use Rattle.grb_slices.specs.Content.{effective_target};
ghost use Rattle.grb_slices.specs.Slice.{Wants};
ghost use Rattle.grb_replay.specs.Followed.{GoesOn, HasGoneOver, HasPlaceIn, LacksPlaceIn, part_after};

use grb_call::{Call, Object};
use grb_state::apply;
use grb_states::State;
use std::alloc::AllocError;

/// Whether the state has a place for the object: it was made, whether or not it was freed.
fn has_place(state: &State, object: Object) -> bool
    ensures has { result ≡ true → HasPlaceIn state.now.store object }
    ensures lacks { result ≡ false → LacksPlaceIn state.now.store object }
{
    match object {
        Object::Matrix(a) => a.0 < state.matrices(),
        Object::Vector(v) => v.0 < state.vectors(),
    }
}

/// Passes over a call with this target on a state: the object that it would make gets a place, and is not there.
pub(crate) fn pass_over(state: &mut State, object: Object)
    requires { 0 < state.old.room }
    ensures store { (call : Call) (whole : Store) → Some object ≡ effective_target (shapes_of whole) call → length state.old.store.matrices ≡ length whole.matrices → length state.old.store.vectors ≡ length whole.vectors → state.new.store ≡ part_after false (Some object) call state.old.store }
    ensures room { state.old.room ≤ state.new.room + 1 }
{
    if has_place(state, object) {
        return;
    }
    state.add_place(object);
}

/// Makes a call with this target on a state where it is chosen; of one that is not, the object that it would make gets a place, and is not
/// there. `AllocError` where memory is refused; what the state holds then, no clause says.
fn make_one(
    state: &mut State,
    target: Option<Object>,
    call: &Call,
    is_chosen: bool,
) -> Result<(), AllocError>
    requires room { 0 < state.old.room }
    ensures store { OnOk result ((whole : Store) → target ≡ effective_target (shapes_of whole) call.now → length state.old.store.matrices ≡ length whole.matrices → length state.old.store.vectors ≡ length whole.vectors → state.new.store ≡ part_after is_chosen target call.now state.old.store) }
    ensures room { OnOk result (state.old.room ≤ state.new.room + 1) }
{
    if is_chosen {
        return apply(state, call);
    }
    let Some(object) = target else {
        return Ok(());
    };
    pass_over(state, object);
    Ok(())
}

/// Makes, of calls with these targets that come one after another on a whole store, those that were chosen, on a state that holds of it what
/// is wanted before them; after them the state holds what is wanted then, as the whole store does after all of them, and no other call has
/// changed it. `AllocError` where memory is refused; what the state holds then, no clause says.
pub(crate) fn make_chosen(
    state: &mut State,
    targets: &[Option<Object>],
    calls: &[&Call],
    chosen: &[bool],
) -> Result<(), AllocError>
    requires targets { length targets.now ≡ length calls.now }
    requires chosen { length chosen.now ≡ length calls.now }
    requires room { length calls.now ≤ state.old.room }
    ensures room { OnOk result (state.old.room ≤ state.new.room + length calls.now) }
    ensures over { OnOk result ((w : Wants) (whole : Store) → GoesOn w whole (map (λ c. c.now) calls.now) targets.now chosen.now state.old.store
        → HasGoneOver w whole (map (λ c. c.now) calls.now) targets.now state.old.store state.new.store) }
{
    'places: for at in 0..calls.len() {
        make_one(state, targets[at], calls[at], chosen[at])?;
    }
    Ok(())
}
