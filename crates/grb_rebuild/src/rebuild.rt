//! A store to go on with, and the calls that make it anew.
ghost use Rattle.std.specs.Prelude.{◌≡◌, ◌<◌, ◌≤◌, ◌+◌, ◌^◌, ◌*◌, length, IfOk, IfErr};
ghost use Rattle.grb_call.specs.Store.{IsStore};
ghost use Rattle.grb_states.specs.Settled.{AreAllAssembled};
ghost use Rattle.grb_states.specs.State.{is_assembled};
ghost use Rattle.grb_rebuild.specs.Rebuilt.{rebuilt};
ghost use Rattle.grb_rebuild.specs.Rebuilding.{IsRebuild, IsNotRebuilt};

use crate::store::{calls_for, needed};
use grb_call::{Call, Object};
use grb_states::State;
use std::alloc::Global;

/// Why there is no successor.
#[derive(Clone, Copy, Debug, PartialEq, Eq)]
pub enum NoSuccessor {
    /// Memory was refused, but not to what one object holds.
    OutOfMemory,
    /// Memory was refused to what this object holds: free it, or leave it out of a branch.
    Unmade { object: Object },
    /// The room is too small: so many calls make the store anew.
    RoomTooSmall { needed: u64 },
    /// A record could not be put or is not shown.
    Panic,
}

/// A store to go on with, and the calls that make it anew.
#[derive(Drop)]
pub struct Rebuild {
    /// The calls, which leave this store where no others come before them.
    pub calls: Vec<Call>,
    /// The store, in which no change waits.
    pub state: State,
}

/// The calls that make the store anew, and the store with room for as many more as make up `room`; both stores hold the same objects. No
/// entry is copied. `RoomTooSmall` where there are more calls. `OutOfMemory` where memory is refused (own).
pub fn rebuild_all(alloc: Global, state: &State, room: u32) -> Result<Rebuild, NoSuccessor>
    requires assembled { AreAllAssembled (is_assembled state.now.matrices state.now.vectors) }
    requires room { room < 2 ^ 31 }
    ensures rebuild { IfOk result (λ r. IsRebuild room r.calls.items r.state) }
    ensures store { IfOk result (λ r. r.state.store ≡ state.now.store) }
    ensures refused { IfErr result (IsNotRebuilt room state.now.store) }
{
    let needed = needed(state);
    if needed > u64::from(room) {
        return Err(NoSuccessor::RoomTooSmall { needed });
    }
    let Ok(calls) = calls_for(alloc, state) else {
        return Err(NoSuccessor::OutOfMemory);
    };
    let Ok(state) = state.try_clone(room - needed as u32) else {
        return Err(NoSuccessor::OutOfMemory);
    };
    Ok(Rebuild { calls, state })
}
