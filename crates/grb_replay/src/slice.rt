//! The calls that one answer needs, chosen from the last call back to the first.
ghost use Rattle.std.specs.Prelude.{◌≡◌, ◌+◌, ◌<◌, ◌^◌, if◌then◌else◌, length, map, IfOk};
ghost use Rattle.grb_replay.specs.SliceFor.{IsSliceFor};
ghost use Rattle.grb_replay.specs.Wanted.{is_wanted};

use crate::wanted::Wanted;
use grb_call::{Call, Object};
use std::alloc::{AllocError, Global};

/// The slice of a list of calls for one object.
#[derive(Drop)]
pub(crate) struct Slice {
    /// For each call, in turn, whether the object depends on it.
    pub chosen: Vec<bool>,
    /// How many calls the object depends on.
    pub count: usize,
}

/// One more, where it is chosen.
fn counted(count: usize, is_chosen: bool) -> usize
    requires { count + 1 < 2 ^ 64 }
    ensures { result ≡ (if is_chosen then count + 1 else count) }
{
    if is_chosen { count + 1 } else { count }
}

/// The calls, with these targets, that what is wanted after the last depends on. `AllocError` where memory is refused; then `wanted` is
/// dropped.
///
/// Source: Weiser, "Program slicing", 1981; over calls own.
pub(crate) fn slice_for(
    alloc: Global,
    targets: &[Option<Object>],
    calls: &[&Call],
    wanted: Wanted,
) -> Result<Slice, AllocError>
    requires targets { length targets.now ≡ length calls.now }
    ensures slice { IfOk result (λ s. IsSliceFor s (is_wanted wanted) targets.now (map (λ c. c.now) calls.now)) }
{
    let mut wanted = wanted;
    let mut at = calls.len();
    let mut chosen = vec![in alloc; false; at]?;
    let mut count = 0;
    'back: while at > 0 {
        at -= 1;
        let is_chosen = wanted.go_back(targets[at], calls[at])?;
        chosen[at] = is_chosen;
        count = counted(count, is_chosen);
    }
    Ok(Slice { chosen, count })
}
