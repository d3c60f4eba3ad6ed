//! A store of its own that begins with some objects of another one.
ghost use Rattle.std.specs.Prelude.{◌≡◌, ◌<◌, ◌^◌, false, true, length, map};
ghost use Rattle.grb_c.specs.Branching.{AreFew, GoesApartFrom, IsBranchAsked, LooksOrLacks, LooksToBranch};
ghost use Rattle.grb_codes.specs.Codes.{invalid_value, success};
ghost use Rattle.grb_codes.specs.Named.{matrices_named, vectors_named};
ghost use Rattle.grb_c.specs.Opening.{IsWithin};
ghost use Rattle.grb_generations.specs.Branched.{LooksFirst};
ghost use Rattle.grb_c.specs.Kinds.{store_chosen};
ghost use Rattle.grb_c.specs.Sessions.{Goes, KnowsNow, LooksIn};
ghost use Rattle.grb_c.specs.Succession.{GoesOn};

use crate::handle::TrbPass;
use crate::open::{are_none, hand_out_context, is_within};
use crate::session::Session;
use crate::succession::put_needed;
use grb_call::{MatrixId, VectorId};
use grb_codes::{INVALID_VALUE, UNINITIALIZED_OBJECT, matrices_named, vectors_named};
use grb_context::NoSuccessor;
use std::alloc::Global;

/// Whether each array has less than 2^32 numbers.
fn are_few(matrices: &[u32], vectors: &[u32]) -> bool
    ensures few { result ≡ true → AreFew matrices.now vectors.now }
    ensures many { result ≡ false → AreFew matrices.now vectors.now → ⊥ }
{
    matrices.len() <= u32::MAX as usize && vectors.len() <= u32::MAX as usize
}

/// Opens a branch of these objects as they are now, and hands its passes out.
fn go_apart(
    alloc: Global,
    store: u64,
    room: u32,
    session: &mut Session,
    matrices: &[MatrixId],
    vectors: &[VectorId],
    needed: &mut u64,
    passes: &mut [TrbPass],
) -> i32
    requires within { IsWithin room (length passes.old) }
    requires matrices { length matrices.now < 2 ^ 32 }
    requires vectors { length vectors.now < 2 ^ 32 }
    ensures looks { Goes LooksIn LooksFirst session.old session.new }
    ensures now { result ≡ success → KnowsNow session.old session.new }
    ensures apart { GoesOn store room (length passes.old) (store_chosen session.new.kind matrices.now vectors.now) result needed.old needed.new (map (λ h. h.raw.session) passes.new) }
    ensures count { length passes.new ≡ length passes.old }
{
    match session.branch(alloc, matrices, vectors, room, passes.len() as u32) {
        Ok((context, opened)) => hand_out_context(alloc, store, context, opened, passes),
        Err(why) => put_needed(why, needed),
    }
}

/// The same of the objects of these numbers.
fn go_apart_by_numbers(
    alloc: Global,
    store: u64,
    room: u32,
    session: &mut Session,
    matrices: &[u32],
    vectors: &[u32],
    needed: &mut u64,
    passes: &mut [TrbPass],
) -> i32
    requires within { IsWithin room (length passes.old) }
    requires matrices { length matrices.now < 2 ^ 32 }
    requires vectors { length vectors.now < 2 ^ 32 }
    ensures looks { LooksOrLacks result session.old session.new }
    ensures now { result ≡ success → KnowsNow session.old session.new }
    ensures apart { GoesOn store room (length passes.old) (store_chosen session.new.kind (matrices_named matrices.now) (vectors_named vectors.now)) result needed.old needed.new (map (λ h. h.raw.session) passes.new) }
    ensures count { length passes.new ≡ length passes.old }
{
    let Ok(matrices) = matrices_named(alloc, matrices) else {
        return put_needed(NoSuccessor::OutOfMemory, needed);
    };
    let Ok(vectors) = vectors_named(alloc, vectors) else {
        return put_needed(NoSuccessor::OutOfMemory, needed);
    };
    go_apart(
        alloc, store, room, session, &matrices, &vectors, needed, passes,
    )
}

/// A new context that begins with the objects of these numbers as they are now, and a pass of it in each handle, none of which has one
/// before: the pass first learns the newest words, as a call does that only reads, and a member moves as in a call. The matrix at place k of
/// its array has the number k there, and so has the vector at place k of its own; one that is not there is not there. Its history takes
/// `room` calls beside those that make these objects. The number is that of the new store alone, among those that are open. Where no history
/// has room for all, tells how many calls make the objects. `Panic` also where the record of an earlier call is not shown yet.
#[unsafe(no_mangle)]
pub extern "C" fn trb_branch(
    alloc: Global,
    store: u64,
    room: u32,
    pass: &mut TrbPass,
    matrices: &[u32],
    vectors: &[u32],
    needed: &mut u64,
    passes: &mut [TrbPass],
) -> i32
    ensures looks { IsBranchAsked room passes.old matrices.now vectors.now → LooksToBranch result pass.old.raw.session pass.new.raw.session }
    ensures apart { IsBranchAsked room passes.old matrices.now vectors.now → GoesApartFrom store room pass.new.raw.session matrices.now vectors.now result needed.old needed.new passes.new }
    ensures count { length passes.new ≡ length passes.old }
    ensures outside { (IsBranchAsked room passes.old matrices.now vectors.now → ⊥) → (result ≡ invalid_value) × (needed.new ≡ needed.old) × (passes.new ≡ passes.old) × (pass.new.raw.session ≡ pass.old.raw.session) }
{
    if !is_within(room, passes.len()) || !are_none(passes) || !are_few(matrices, vectors) {
        return INVALID_VALUE;
    }
    let Some(mut session) = pass.take(alloc) else {
        return UNINITIALIZED_OBJECT;
    };
    let code = go_apart_by_numbers(
        alloc,
        store,
        room,
        &mut session,
        matrices,
        vectors,
        needed,
        passes,
    );
    pass.put(session);
    code
}
