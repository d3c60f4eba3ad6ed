//! The store that a list of calls leaves, and what it answers.
ghost use Rattle.std.specs.Prelude.{◌≡◌, ◌≤◌, false, length, IfOk};
ghost use Rattle.grb_call.specs.Kinds.{enters, is_size};
ghost use Rattle.grb_states.specs.Settled.{AreAllAssembled};
ghost use Rattle.grb_states.specs.State.{is_assembled};

use grb_call::{Call, Reply};
use grb_core::Refusal;
use grb_state::{apply, replay, reply, settle};
use grb_states::State;
use std::alloc::{AllocError, Global};

/// What a store answers to a call.
pub(crate) type Answer = Result<Reply, Refusal>;

/// The store that these calls leave, which are few. No change waits in it. `AllocError` where they are more than 10,000, or memory is
/// refused.
pub(crate) fn replayed(alloc: Global, calls: &[&Call]) -> Result<State, AllocError>
    ensures { IfOk result (λ state. AreAllAssembled (is_assembled state.matrices state.vectors)) }
{
    if calls.len() > 10_000 {
        return Err(AllocError);
    }
    let empty = State::empty(alloc);
    replay(&empty, calls)
}

/// The store that these calls leave, which are few, each made as it comes: changes wait in it. `AllocError` where they are more than
/// 10,000, or memory is refused.
pub(crate) fn applied(alloc: Global, calls: &[&Call]) -> Result<State, AllocError> {
    if calls.len() > 10_000 {
        return Err(AllocError);
    }
    let mut state = State::empty(alloc).try_clone(calls.len() as u32)?;
    'calls: for at in 0..calls.len() {
        apply(&mut state, calls[at])?;
    }
    Ok(state)
}

/// What the store answers to a reading call.
pub(crate) fn answer(state: &mut State, call: &Call) -> Result<Answer, AllocError>
    requires reads { enters call.now ≡ false }
    requires no_size { is_size call.now ≡ false }
{
    match state.refused(call) {
        Some(refusal) => Ok(Err(refusal)),
        None => {
            settle(state, call)?;
            Ok(Ok(reply(state, call)))
        }
    }
}
