//! A store that goes on where another is full.
ghost use Rattle.std.specs.Prelude.{◌≡◌, ◌==◌, false, true, MatchOption, length, map};
ghost use Rattle.grb_order.specs.Order.{room_of};
ghost use Rattle.grb_call.specs.History.{store_of};
ghost use Rattle.grb_context.specs.Known.{known};
ghost use Rattle.grb_codes.specs.Codes.{invalid_value, success};
ghost use Rattle.grb_c.specs.Handles.{Succeeds, are_none};
ghost use Rattle.grb_c.specs.Kinds.{is_member};
ghost use Rattle.grb_c.specs.Opening.{IsWithin};
ghost use Rattle.grb_c.specs.Sessions.{Goes, IsNowIn, KnowsNow, LooksIn, facts_code, is_full_at};
ghost use Rattle.grb_c.specs.Succession.{GoesOn, GoesOnFromKind, IsLinked, LooksToSucceed, needed_out, no_successor_code};

use crate::bounded::Bounded;
use crate::handle::TrbPass;
use crate::open::{are_none, hand_out_context, is_within};
use crate::session::{Kind, Session};
use grb_codes::{
    INSUFFICIENT_SPACE, INVALID_VALUE, OUT_OF_MEMORY, PANIC, SUCCESS, UNINITIALIZED_OBJECT,
};
use grb_context::NoSuccessor;
use std::alloc::Global;

/// Why there is no successor, and how many calls make it, where no history has room for all.
pub(crate) fn put_needed(why: NoSuccessor, needed: &mut u64) -> i32
    ensures code { result ≡ no_successor_code why }
    ensures refused { result ≡ success → ⊥ }
    ensures needed { needed.new ≡ needed_out why needed.old }
{
    match why {
        NoSuccessor::OutOfMemory | NoSuccessor::Unmade { .. } => OUT_OF_MEMORY,
        NoSuccessor::RoomTooSmall { needed: calls } => {
            *needed = calls;
            INSUFFICIENT_SPACE
        }
        NoSuccessor::Panic => PANIC,
    }
}

/// Opens a successor of the store as it is now, and hands its passes out.
fn go_on(
    alloc: Global,
    store: u64,
    room: u32,
    session: &mut Bounded,
    needed: &mut u64,
    passes: &mut [TrbPass],
) -> i32
    requires within { IsWithin room (length passes.old) }
    ensures looks { LooksIn session.old session.new }
    ensures now { result ≡ success → IsNowIn session.old session.new }
    ensures goes_on { GoesOn store room (length passes.old) (store_of (known session.new.pass)) result needed.old needed.new (map (λ h. h.raw.session) passes.new) }
    ensures count { length passes.new ≡ length passes.old }
{
    match session.succeed(alloc, room, passes.len() as u32) {
        Ok((context, opened)) => hand_out_context(alloc, store, context, opened, passes),
        Err(why) => put_needed(why, needed),
    }
}

/// The same by a session. A chain goes on by itself, so its members are refused.
fn go_on_from(
    alloc: Global,
    store: u64,
    room: u32,
    session: &mut Session,
    needed: &mut u64,
    passes: &mut [TrbPass],
) -> i32
    requires within { IsWithin room (length passes.old) }
    ensures looks { Goes LooksIn (λ o n. n ≡ o) session.old session.new }
    ensures now { result ≡ success → KnowsNow session.old session.new }
    ensures goes_on { GoesOnFromKind store room (length passes.old) session.new.kind result needed.old needed.new (map (λ h. h.raw.session) passes.new) }
    ensures count { length passes.new ≡ length passes.old }
    ensures linked { is_member session.old.kind ≡ true → (result ≡ invalid_value) × (needed.new ≡ needed.old) × (passes.new ≡ passes.old) }
{
    match &mut session.kind {
        Kind::Bounded(own) => go_on(alloc, store, room, own, needed, passes),
        Kind::Member(_) => INVALID_VALUE,
    }
}

/// A new context that goes on from the store as it is now, and a pass of it in each handle, none of which has one before. The pass first
/// learns the newest words, as a call does that only reads; the new history begins with the calls that make just the store that all calls
/// leave which it knows then, and takes `room` calls beside these. The number is that of the new store alone, among those that are open.
/// Where no history has room for all, tells how many calls make the store. `Panic` also where the record of an earlier call is not shown
/// yet. A member of a chain is refused: that goes on by itself.
#[unsafe(no_mangle)]
pub extern "C" fn trb_succeed(
    alloc: Global,
    store: u64,
    room: u32,
    pass: &mut TrbPass,
    needed: &mut u64,
    passes: &mut [TrbPass],
) -> i32
    ensures looks { IsWithin room (length passes.old) → are_none passes.old ≡ true → LooksToSucceed result pass.old.raw.session pass.new.raw.session }
    ensures succeeds { IsWithin room (length passes.old) → are_none passes.old ≡ true → Succeeds store room pass.new result needed.old needed.new passes.new }
    ensures count { length passes.new ≡ length passes.old }
    ensures linked { IsLinked pass.old.raw.session → (result ≡ invalid_value) × (needed.new ≡ needed.old) × (passes.new ≡ passes.old) }
    ensures outside { (IsWithin room (length passes.old) → ⊥) → (result ≡ invalid_value) × (needed.new ≡ needed.old) × (passes.new ≡ passes.old) × (pass.new.raw.session ≡ pass.old.raw.session) }
    ensures taken { are_none passes.old ≡ false → (result ≡ invalid_value) × (needed.new ≡ needed.old) × (passes.new ≡ passes.old) × (pass.new.raw.session ≡ pass.old.raw.session) }
{
    if !is_within(room, passes.len()) || !are_none(passes) {
        return INVALID_VALUE;
    }
    let Some(mut session) = pass.take(alloc) else {
        return UNINITIALIZED_OBJECT;
    };
    let code = go_on_from(alloc, store, room, &mut session, needed, passes);
    pass.put(session);
    code
}

/// Tells whether there is no room any more: the history is full and the pass knows all of it; of a member of a chain, whether it was
/// refused to go on.
#[unsafe(no_mangle)]
pub extern "C" fn trb_is_full(alloc: Global, pass: &mut TrbPass, out: &mut bool) -> i32
    ensures same { pass.new.raw.session ≡ pass.old.raw.session }
    ensures code { result ≡ facts_code pass.old.raw.session }
    ensures full { MatchOption pass.old.raw.session (out.new ≡ out.old) (λ s. out.new ≡ is_full_at s.kind) }
{
    let Some(session) = pass.take(alloc) else {
        return UNINITIALIZED_OBJECT;
    };
    *out = session.is_full();
    pass.put(session);
    SUCCESS
}
