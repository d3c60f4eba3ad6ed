//! Opening a store, ending its passes, and what one pass tells another.
ghost use Rattle.std.specs.Prelude.{◌≡◌, ◌⊎◌, ◌++◌, ◌∷◌, [], true, false, All, None, Some, IfSome, MatchOption, length, map, slice_get};
ghost use Rattle.grb_order.specs.Order.{room_of};
ghost use Rattle.grb_context.specs.Known.{IsPassOf};
ghost use Rattle.grb_codes.specs.Codes.{invalid_value, out_of_memory, success};
ghost use Rattle.grb_c.specs.Handles.{are_none};
ghost use Rattle.grb_c.specs.Opening.{AreOpened, HoldFrom, IsWithin};
ghost use Rattle.grb_c.specs.declared.session.Kind.TheVariants as Kind;
ghost use Rattle.grb_c.specs.Sessions.{AreApart, Meets, Prepares, Releases, facts_code};

use crate::bounded::Bounded;
use crate::handle::TrbPass;
use crate::session::{Kind, Session};
use grb_codes::{INVALID_VALUE, OUT_OF_MEMORY, SUCCESS, UNINITIALIZED_OBJECT};
use grb_context::{Context, MOST_PASSES, MOST_ROOM, MOST_SEATS, Pass};
use std::alloc::Global;
use std::sync::Arc;

/// Whether a store may have so much room and so many passes.
pub(crate) fn is_within(room: u32, passes: usize) -> bool
    ensures within { result ≡ true → IsWithin room passes }
    ensures outside { result ≡ false → IsWithin room passes → ⊥ }
{
    0 < room
        && room <= MOST_ROOM
        && 0 < passes
        && passes <= MOST_PASSES as usize
        && room as usize * passes <= MOST_SEATS as usize
}

/// Whether none of the handles has a pass.
pub(crate) fn are_none(passes: &[TrbPass]) -> bool
    ensures { result ≡ are_none passes.now }
{
    passes.iter().all(|pass| !pass.is_open())
}

/// One pass of the context into a handle.
fn hand_out(
    alloc: Global,
    store: u64,
    context: &Arc<Context>,
    pass: Pass,
    slot: &mut TrbPass,
) -> i32
    requires pass { IsPassOf context.now.value pass }
    ensures holds { result ≡ success → slot.new.raw.session ≡ Some (record { kind = Kind.Bounded (record { context = context.now.value; pass = pass }); store = store }) }
    ensures code { (result ≡ success) ⊎ (result ≡ out_of_memory) }
{
    let Ok(context) = context.clone() else {
        return OUT_OF_MEMORY;
    };
    let kind = Kind::Bounded(Bounded::new(context, pass));
    let Ok(session) = Box::new(alloc, Session::new(kind, store)) else {
        return OUT_OF_MEMORY;
    };
    slot.put(session);
    SUCCESS
}

/// Takes the last pass out of these, if there is one.
fn last_pass(context: &Arc<Context>, passes: &mut Vec<Pass>) -> Option<Pass>
    requires { All (IsPassOf context.now.value) passes.old.items }
    ensures pass { IfSome result (IsPassOf context.now.value) }
    ensures rest { All (IsPassOf context.now.value) passes.new.items }
    ensures last { MatchOption result (passes.old.items ≡ []) (λ pass. passes.old.items ≡ passes.new.items ++ pass ∷ []) }
{
    passes.pop()
}

/// Hands the passes out, the last first. The one at index k is for the handle at index k.
fn hand_out_all(
    alloc: Global,
    store: u64,
    context: &Arc<Context>,
    opened: Vec<Pass>,
    passes: &mut [TrbPass],
) -> i32
    requires passes { All (IsPassOf context.now.value) opened.items }
    requires count { length opened.items ≡ length passes.old }
    ensures hold { result ≡ success → HoldFrom 0 context.now.value store (λ k p. slice_get opened.items k ≡ Some p) (map (λ h. h.raw.session) passes.new) }
    ensures count { length passes.new ≡ length passes.old }
    ensures code { (result ≡ success) ⊎ (result ≡ out_of_memory) }
{
    let mut rest = opened;
    let n = passes.len();
    for at in 0..n {
        let Some(pass) = last_pass(context, &mut rest) else {
            unreachable!()
        };
        let code = hand_out(alloc, store, context, pass, &mut passes[n - 1 - at]);
        if code != SUCCESS {
            return code;
        }
    }
    SUCCESS
}

/// Hands the passes of this context out.
pub(crate) fn hand_out_context(
    alloc: Global,
    store: u64,
    context: Context,
    opened: Vec<Pass>,
    passes: &mut [TrbPass],
) -> i32
    requires passes { All (IsPassOf context) opened.items }
    requires count { length opened.items ≡ length passes.old }
    ensures hold { result ≡ success → HoldFrom 0 context store (λ k p. slice_get opened.items k ≡ Some p) (map (λ h. h.raw.session) passes.new) }
    ensures count { length passes.new ≡ length passes.old }
    ensures code { (result ≡ success) ⊎ (result ≡ out_of_memory) }
{
    let Ok(context) = Arc::new(alloc, context) else {
        return OUT_OF_MEMORY;
    };
    hand_out_all(alloc, store, &context, opened, passes)
}

/// A context with room for so many calls, and a pass of it in each handle, none of which has one before. The number is that of this store
/// alone, among those that are open: a meeting goes by it. Handles that have a pass are refused, and stay as they are.
#[unsafe(no_mangle)]
pub extern "C" fn trb_open(alloc: Global, store: u64, room: u32, passes: &mut [TrbPass]) -> i32
    ensures opened { result ≡ success → AreOpened store room (map (λ h. h.raw.session) passes.new) }
    ensures code { IsWithin room (length passes.old) → are_none passes.old ≡ true → (result ≡ success) ⊎ (result ≡ out_of_memory) }
    ensures outside { (IsWithin room (length passes.old) → ⊥) → (result ≡ invalid_value) × (passes.new ≡ passes.old) }
    ensures taken { are_none passes.old ≡ false → (result ≡ invalid_value) × (passes.new ≡ passes.old) }
{
    if !is_within(room, passes.len()) || !are_none(passes) {
        return INVALID_VALUE;
    }
    let Ok((context, opened)) = Context::open(alloc, room, passes.len() as u32) else {
        return OUT_OF_MEMORY;
    };
    hand_out_context(alloc, store, context, opened, passes)
}

/// Frees the pass, and with the last of a context the context. The handle has none after.
#[unsafe(no_mangle)]
pub extern "C" fn trb_free(alloc: Global, pass: &mut TrbPass)
    ensures { pass.new.raw.session ≡ None }
{
    let _session = pass.take(alloc);
}

/// Lets the pass learn all that the other knows, and where it adopts, go on from what that has evaluated. Two stores' passes are refused.
fn learn(alloc: Global, pass: &mut TrbPass, other: &mut TrbPass, adopts: bool) -> i32
    requires apart { AreApart pass.old.raw.session other.old.raw.session }
    ensures meets { Meets pass.old.raw.session pass.new.raw.session other.old.raw.session result }
    ensures other { other.new.raw.session ≡ other.old.raw.session }
{
    let Some(mut session) = pass.take(alloc) else {
        return UNINITIALIZED_OBJECT;
    };
    let Some(mut second) = other.take(alloc) else {
        pass.put(session);
        return UNINITIALIZED_OBJECT;
    };
    let code = if session.store() == second.store() {
        session.learn(&mut second, adopts)
    } else {
        INVALID_VALUE
    };
    pass.put(session);
    other.put(second);
    code
}

/// Lets the pass learn all that the other knows. A member of a chain moves on first, where the other sits in a later generation; no value
/// where it could not now, and a later call tries again. Two stores' passes are refused.
#[unsafe(no_mangle)]
pub extern "C" fn trb_meet(alloc: Global, pass: &mut TrbPass, other: &mut TrbPass) -> i32
    requires apart { AreApart pass.old.raw.session other.old.raw.session }
    ensures meets { Meets pass.old.raw.session pass.new.raw.session other.old.raw.session result }
    ensures other { other.new.raw.session ≡ other.old.raw.session }
{
    learn(alloc, pass, other, false)
}

/// Lets the pass learn all that the other knows, as `trb_meet`, and go on from what that has evaluated, of a member where both sit in one
/// generation then. Two stores' passes are refused.
#[unsafe(no_mangle)]
pub extern "C" fn trb_adopt(alloc: Global, pass: &mut TrbPass, other: &mut TrbPass) -> i32
    requires apart { AreApart pass.old.raw.session other.old.raw.session }
    ensures meets { Meets pass.old.raw.session pass.new.raw.session other.old.raw.session result }
    ensures other { other.new.raw.session ≡ other.old.raw.session }
{
    learn(alloc, pass, other, true)
}

/// Evaluates what the pass knows where that is dear, so that others may adopt it, and tells before how many of the calls that it knows no
/// answer makes one any more.
#[unsafe(no_mangle)]
pub extern "C" fn trb_prepare(alloc: Global, pass: &mut TrbPass, out: &mut u32) -> i32
    ensures { Prepares pass.old.raw.session pass.new.raw.session result out.old out.new }
{
    let Some(mut session) = pass.take(alloc) else {
        return UNINITIALIZED_OBJECT;
    };
    *out = session.prepare();
    pass.put(session);
    SUCCESS
}

/// Makes blocks of the dear products that other passes of the store make at the moment, and tells how many it made: 0 where there is none.
/// It learns nothing and waits for nobody. Takes memory for the blocks; where it is refused, fewer are made. Where there is no pass, `out`
/// stays.
#[unsafe(no_mangle)]
pub extern "C" fn trb_help(alloc: Global, pass: &mut TrbPass, out: &mut u32) -> i32
    ensures same { pass.new.raw.session ≡ pass.old.raw.session }
    ensures code { result ≡ facts_code pass.old.raw.session }
    ensures untold { pass.old.raw.session ≡ None → out.new ≡ out.old }
{
    let Some(mut session) = pass.take(alloc) else {
        return UNINITIALIZED_OBJECT;
    };
    *out = session.help();
    pass.put(session);
    SUCCESS
}

/// Tells how many blocks were made so far in the store, and of a chain in the generation in which the member sits. Takes no memory. Where
/// there is no pass, `out` stays.
#[unsafe(no_mangle)]
pub extern "C" fn trb_blocks(alloc: Global, pass: &mut TrbPass, out: &mut u64) -> i32
    ensures same { pass.new.raw.session ≡ pass.old.raw.session }
    ensures code { result ≡ facts_code pass.old.raw.session }
    ensures untold { pass.old.raw.session ≡ None → out.new ≡ out.old }
{
    let Some(session) = pass.take(alloc) else {
        return UNINITIALIZED_OBJECT;
    };
    *out = session.blocks();
    pass.put(session);
    SUCCESS
}

/// Drops what the pass has evaluated, so that its memory is given back: no known calls are settled any more, and what an answer needs is
/// made anew.
#[unsafe(no_mangle)]
pub extern "C" fn trb_release(alloc: Global, pass: &mut TrbPass) -> i32
    ensures { Releases pass.old.raw.session pass.new.raw.session result }
{
    let Some(mut session) = pass.take(alloc) else {
        return UNINITIALIZED_OBJECT;
    };
    session.release();
    pass.put(session);
    SUCCESS
}
