//! The store that calls leave of another: they are made one after another.
ghost use Rattle.std.specs.Prelude.{◌≡◌, ◌+◌, ◌<◌, ◌^◌, length, map, IfOk};
ghost use Rattle.grb_call.specs.History.{after_all};
ghost use Rattle.grb_states.specs.Settled.{AreAllAssembled};
ghost use Rattle.grb_states.specs.State.{is_assembled};

use crate::applying::apply;
use grb_call::Call;
use grb_states::State;
use std::alloc::AllocError;

/// The store that these calls leave of the state, which stays as it is: each of them is made, one after another, and one that is refused at
/// its place changes nothing; no change waits in what they leave. Objects that no call changes, and in which none waits, are the state's
/// own. `AllocError` where memory is refused.
///
/// Source: GraphBLAS C API 2.0, "Execution modes": what the methods give in blocking mode; the form is own.
pub fn replay(state: &State, calls: &[&Call]) -> Result<State, AllocError>
    requires matrices { length state.now.store.matrices + length calls.now < 2 ^ 32 }
    requires vectors { length state.now.store.vectors + length calls.now < 2 ^ 32 }
    ensures store { IfOk result (λ replayed. replayed.store ≡ after_all state.now.store (map (λ c. c.now) calls.now)) }
    ensures assembled { IfOk result (λ replayed. AreAllAssembled (is_assembled replayed.matrices replayed.vectors)) }
{
    let mut replayed = state.try_clone(calls.len() as u32)?;
    'calls: for at in 0..calls.len() {
        apply(&mut replayed, calls[at])?;
    }
    replayed.materialize()?;
    Ok(replayed)
}
