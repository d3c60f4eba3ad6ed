//! A chain of stores, which goes on by itself where the history of one is full.
ghost use Rattle.std.specs.Prelude.{◌≡◌, ◌⊎◌, ◌++◌, ◌∷◌, [], false, true, MatchOption, None, Some, is_some, length, map};
ghost use Rattle.grb_c.specs.Chains.{AreLinked, GoesOnBy, HaveFrom, KindTriesOn, SeatsFrom, SeatsMember, TellsGeneration, TellsGenerationOf, TriesOn, calls_out, no_generation_code};
ghost use Rattle.grb_codes.specs.Codes.{invalid_value, out_of_memory, success};
ghost use Rattle.grb_c.specs.Handles.{are_none};
ghost use Rattle.grb_c.specs.Opening.{IsWithin};
ghost use Rattle.grb_c.specs.declared.session.Kind.TheVariants as Kind;

use crate::handle::TrbPass;
use crate::open::{are_none, is_within};
use crate::session::{Kind, Session};
use grb_codes::{
    INSUFFICIENT_SPACE, INVALID_VALUE, NO_VALUE, ORDER_FULL, OUT_OF_MEMORY, PANIC, SUCCESS,
    UNINITIALIZED_OBJECT,
};
use grb_generations::{Generations, Member, NoGeneration};
use std::alloc::Global;

/// One member into a handle.
fn seat(alloc: Global, store: u64, member: Member, slot: &mut TrbPass) -> i32
    ensures has { result ≡ success → slot.new.raw.session ≡ Some (record { kind = Kind.Member member; store = store }) }
    ensures left { result ≡ out_of_memory → slot.new ≡ slot.old }
    ensures code { (result ≡ success) ⊎ (result ≡ out_of_memory) }
{
    let Ok(session) = Box::new(alloc, Session::new(Kind::Member(member), store)) else {
        return OUT_OF_MEMORY;
    };
    slot.put(session);
    SUCCESS
}

/// Takes the last member out of these, if there is one.
fn last_member(members: &mut Vec<Member>) -> Option<Member>
    ensures { MatchOption result (members.old.items ≡ []) (λ member. members.old.items ≡ members.new.items ++ member ∷ []) }
{
    members.pop()
}

/// Seats the members, the last first. The one at index k is for the handle at index k.
fn seat_all(alloc: Global, store: u64, members: Vec<Member>, passes: &mut [TrbPass]) -> i32
    requires count { length members.items ≡ length passes.old }
    ensures have { result ≡ success → HaveFrom 0 store members.items (map (λ h. h.raw.session) passes.new) }
    ensures count { length passes.new ≡ length passes.old }
    ensures code { (result ≡ success) ⊎ (result ≡ out_of_memory) }
{
    let mut rest = members;
    let n = passes.len();
    for at in 0..n {
        let Some(member) = last_member(&mut rest) else {
            unreachable!()
        };
        let code = seat(alloc, store, member, &mut passes[n - 1 - at]);
        if code != SUCCESS {
            return code;
        }
    }
    SUCCESS
}

/// A chain of stores, and a member of it in each handle, none of which has a pass before: the one in handle k has the number k. Each store
/// of the chain takes `room` calls beside those that begin it; where one is full, the next goes on with what it holds, and objects keep
/// their numbers. All exports take such a handle. The number is that of this chain alone, among the stores and chains that are open.
#[unsafe(no_mangle)]
pub extern "C" fn trb_chain_open(
    alloc: Global,
    store: u64,
    room: u32,
    passes: &mut [TrbPass],
) -> i32
    ensures linked { result ≡ success → AreLinked store room (map (λ h. h.raw.session) passes.new) }
    ensures code { IsWithin room (length passes.old) → are_none passes.old ≡ true → (result ≡ success) ⊎ (result ≡ out_of_memory) }
    ensures outside { (IsWithin room (length passes.old) → ⊥) → (result ≡ invalid_value) × (passes.new ≡ passes.old) }
    ensures taken { are_none passes.old ≡ false → (result ≡ invalid_value) × (passes.new ≡ passes.old) }
{
    if !is_within(room, passes.len()) || !are_none(passes) {
        return INVALID_VALUE;
    }
    let Ok((_generations, members)) = Generations::open(alloc, room, passes.len() as u32) else {
        return OUT_OF_MEMORY;
    };
    seat_all(alloc, store, members, passes)
}

/// The number of the generation, of a member.
fn put_generation(kind: &Kind, out: &mut u64) -> i32
    ensures { TellsGenerationOf kind.now result out.old out.new }
{
    match kind {
        Kind::Bounded(_) => INVALID_VALUE,
        Kind::Member(member) => {
            *out = member.generation();
            SUCCESS
        }
    }
}

/// Tells the number of the generation in which a member sits, from 0.
#[unsafe(no_mangle)]
pub extern "C" fn trb_chain_generation(alloc: Global, pass: &mut TrbPass, out: &mut u64) -> i32
    ensures same { pass.new.raw.session ≡ pass.old.raw.session }
    ensures tells { TellsGeneration pass.old.raw.session result out.old out.new }
{
    let Some(session) = pass.take(alloc) else {
        return UNINITIALIZED_OBJECT;
    };
    let code = put_generation(&session.kind, out);
    pass.put(session);
    code
}

/// Goes to a later generation, where the member's own is full and it knows all of that, and makes the next one where there is none; tells
/// whether it moved. Where there is no next one to be had, tells why, and how many calls it needs, where the room is too small for them.
/// Each call does so by itself: this is for who was answered `OrderFull`, and asks why.
#[unsafe(no_mangle)]
pub extern "C" fn trb_chain_go_on(
    alloc: Global,
    pass: &mut TrbPass,
    needed: &mut u64,
    moved: &mut bool,
) -> i32
    ensures { GoesOnBy pass.old.raw.session pass.new.raw.session result needed.old needed.new moved.old moved.new }
{
    let Some(mut session) = pass.take(alloc) else {
        return UNINITIALIZED_OBJECT;
    };
    let code = session.go_on(needed, moved);
    pass.put(session);
    code
}

impl Session {
    /// Tries to go on, where it has a member.
    fn go_on(&mut self, needed: &mut u64, moved: &mut bool) -> i32
        ensures store { self.new.store ≡ self.old.store }
        ensures tries { KindTriesOn self.old.kind self.new.kind result needed.old needed.new moved.old moved.new }
    {
        match &mut self.kind {
            Kind::Bounded(_) => INVALID_VALUE,
            Kind::Member(member) => go_on(member, needed, moved),
        }
    }
}

/// Why there is no next generation, and how many calls make it, where it has no room for one more.
fn put_calls(why: NoGeneration, needed: &mut u64) -> i32
    ensures code { result ≡ no_generation_code why }
    ensures needed { needed.new ≡ calls_out why needed.old }
{
    match why {
        NoGeneration::Unmade { .. } | NoGeneration::OutOfMemory => OUT_OF_MEMORY,
        NoGeneration::RoomTooSmall { needed: calls } => {
            *needed = calls;
            INSUFFICIENT_SPACE
        }
        NoGeneration::Crowded => INSUFFICIENT_SPACE,
        NoGeneration::NumbersSpent => ORDER_FULL,
        NoGeneration::Panic => PANIC,
        NoGeneration::Busy => NO_VALUE,
    }
}

/// Tries to go on, and tells what came of it.
fn go_on(member: &mut Member, needed: &mut u64, moved: &mut bool) -> i32
    ensures { TriesOn member.old member.new result needed.old needed.new moved.old moved.new }
{
    match member.go_on() {
        Ok(went) => {
            *moved = went;
            SUCCESS
        }
        Err(why) => put_calls(why, needed),
    }
}

/// A member of this number of the chain, which was dropped, anew into a handle that has no pass; it sits in no earlier generation than this
/// one.
fn seat_anew(alloc: Global, store: u64, member: &Member, number: u32, into: &mut TrbPass) -> i32
    requires none { into.old.raw.session ≡ None }
    ensures { SeatsMember member.now store number into.new.raw.session result }
{
    match member.seat(number) {
        Some(again) => seat(alloc, store, again, into),
        None => NO_VALUE,
    }
}

/// Gives the member of this number of the chain anew, in a handle that has no pass before: that of a thread whose own was freed. It sits in
/// no earlier generation than the member that asks. Tells that there is no value where it is not to be had.
#[unsafe(no_mangle)]
pub extern "C" fn trb_chain_seat(
    alloc: Global,
    pass: &mut TrbPass,
    number: u32,
    into: &mut TrbPass,
) -> i32
    ensures same { pass.new.raw.session ≡ pass.old.raw.session }
    ensures seats { into.old.raw.session ≡ None → SeatsFrom pass.old.raw.session number into.new.raw.session result }
    ensures taken { is_some into.old.raw.session ≡ true → (result ≡ invalid_value) × (into.new ≡ into.old) }
{
    if into.is_open() {
        return INVALID_VALUE;
    }
    let Some(session) = pass.take(alloc) else {
        return UNINITIALIZED_OBJECT;
    };
    let code = match &session.kind {
        Kind::Bounded(_) => INVALID_VALUE,
        Kind::Member(member) => seat_anew(alloc, session.store(), member, number, into),
    };
    pass.put(session);
    code
}
