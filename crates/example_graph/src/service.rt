//! A service that never stops: its workers change a chain of stores, of which each takes few changes.
//!
//! A worker makes its changes as though there were one store without an end. Where a store is full, one of the workers makes the next,
//! which begins with what the full one held, and the others follow. This service ends after four hundred changes, so that there is something
//! to print.
//!
//! What carries that no change is lost which was answered `Done`: `calls` of [`Member::call`], by which a change is entered where the member
//! then sits, and in one store alone; and `goes_on` of what a member moves to, by which a store goes on from one that was full.
use crate::changes::{Changes, WORKERS};
use grb_core::Refusal;
use grb_generations::{Generations, Member};
use std::alloc::{AllocError, Global};
use std::test::Fail;
use std::thread::{Threads, map_vec};

/// The changes that each store takes.
const ROOM: u32 = 32;

/// A member for each worker, and the owner's.
const MEMBERS: u32 = 5;

/// What the service did.
#[derive(Clone, Copy)]
pub(crate) struct Served {
    /// How many stores it went through.
    pub(crate) stores: u64,
    /// How many changes each worker was answered `Done`, as it counted them.
    pub(crate) done: [u64; WORKERS],
    /// How many changes of each worker the last store has.
    pub(crate) kept: [u64; WORKERS],
}

/// What a worker does: its number, and how many of its changes were answered `Done`.
fn work(mut member: Member, changes: Changes) -> Result<(u32, u64), Refusal> {
    let number = member.number();
    let done = changes.make_all(&mut member, u64::from(number))?;
    Ok((number, done))
}

/// Has a worker make its changes by each of these members, and waits for all of them.
fn work_at_once<R: Threads + Sync + AllocGlobal>(
    rt: &R,
    members: Vec<Member>,
    changes: Changes,
) -> Result<Vec<Result<(u32, u64), Refusal>>, AllocError> {
    map_vec(rt, members, &|member| work(member, changes))
}

/// How many changes each worker counted.
fn counted(ends: &[Result<(u32, u64), Refusal>]) -> Result<[u64; WORKERS], Refusal> {
    let mut done = [0u64; WORKERS];
    'ends: for end in ends {
        let (number, count) = (*end)?;
        if let Some(place) = done.get_mut(number as usize) {
            *place = count;
        }
    }
    Ok(done)
}

/// How many changes of each worker there are.
fn kept(own: &mut Member, changes: Changes) -> Result<[u64; WORKERS], Refusal> {
    let mut kept = [0u64; WORKERS];
    'workers: for worker in 0..WORKERS {
        kept[worker] = changes.kept(own, worker as u64)?;
    }
    Ok(kept)
}

/// A chain with a member for each worker, and the owner's member.
fn open(alloc: Global) -> Result<(Member, Vec<Member>), Fail> {
    let (_, mut members) = Generations::open(alloc, ROOM, MEMBERS)?;
    match members.pop() {
        Some(own) => Ok((own, members)),
        None => Err(Fail::new("the chain has no member")),
    }
}

/// Runs the service, and reads what there is at its end.
pub(crate) fn run_service<R: Threads + Sync + AllocGlobal>(rt: &R) -> Result<Served, Fail> {
    let (mut own, members) = open(rt.alloc())?;
    let Some(changes) = Changes::new(&mut own)? else {
        return Err(Fail::new("no matrix was made"));
    };
    let ends = work_at_once(rt, members, changes)?;
    let done = counted(&ends)?;
    let kept = kept(&mut own, changes)?;
    Ok(Served {
        stores: own.generation().saturating_add(1),
        done,
        kept,
    })
}
