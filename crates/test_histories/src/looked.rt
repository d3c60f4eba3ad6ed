//! What a pass has looked at of editions: it compares none twice, and none of its own.
//!
//! No contract says it: `take_into` may look at an edition again, and find no results that it does not have.

use crate::editions::History::{These, Until};
use crate::editions::{
    FIVE, FOUR, History, THREE, TWO, crowd, leave, leave_by, offer, offer_by, taken_by,
};
use crate::same::same;
use grb_replay::{Looked, Versions};
use std::alloc::{AllocError, Global};
use std::process::Abort;

/// What was offered, and what was left; of how many calls at most a pass has looked at editions, and how many are known; and whether there is
/// one of no more than the known that it has not looked at, among the latest alone, and in any place.
static BEYOND: [(&[History], &[History], u64, usize, bool, bool); 12] = [
    (&[], &[], 0, 5, false, false),
    (&[TWO], &[], 0, 1, false, false),
    (&[TWO], &[], 0, 2, false, true),
    (&[TWO], &[], 1, 5, false, true),
    (&[TWO], &[], 2, 5, false, false),
    (&[TWO, Until(65)], &[], 2, 64, false, false),
    (&[TWO, Until(65)], &[], 2, 65, false, true),
    (&[TWO], &[THREE], 2, 2, false, false),
    (&[TWO], &[THREE], 2, 3, true, true),
    (&[TWO], &[THREE], 3, 5, false, false),
    (&[Until(64), Until(65)], &[], 64, 65, true, true),
    (&[Until(64), Until(65)], &[], 63, 64, false, true),
];

#[test]
fn an_edition_is_looked_for_by_numbers_of_calls(rt: HostRuntime) -> Result<(), AllocError> {
    for (at, (offered, left, seen, known, latest, any)) in BEYOND.iter().enumerate() {
        let versions = Versions::open(rt.alloc(), 128)?;
        for history in *offered {
            offer(&rt, rt.alloc(), &versions, *history)?;
        }
        for history in *left {
            leave(&rt, rt.alloc(), &versions, *history)?;
        }
        let mut looked = Looked::none();
        if *seen > 0 {
            for _ in 0..2 {
                taken_by(&rt, rt.alloc(), &versions, Until(*seen), &mut looked)?;
            }
        }
        let found = versions.has_new(&looked, *known);
        crowd(&rt, rt.alloc(), &versions, 66)?;
        let stays = versions.has_new(&looked, *known);
        same(
            &rt,
            (found && !stays, found),
            (*latest, *any),
            ("row from 0", at),
        );
    }
    Ok(())
}

/// What a pass does with editions, or another: each of four calls at most.
#[derive(Clone, Copy)]
enum Does {
    /// Another leaves results of these calls.
    AnotherLeaves(History),
    /// It leaves results of these calls itself.
    Leaves(History),
    /// It offers results of these calls itself.
    Offers(History),
    /// It takes results of these calls, from an edition of so many, or from none.
    Takes(History, usize),
    /// It lets all its results go.
    Clears,
}

use Does::{AnotherLeaves, Clears, Leaves, Offers, Takes};

/// What is done in turn, whether there is an edition of up to five calls then that the pass has not looked at, and how many calls were
/// compared by then.
static LOOKED: [(Does, bool, u64); 20] = [
    (Takes(FIVE, 0), false, 0),
    (AnotherLeaves(THREE), true, 0),
    (Takes(TWO, 0), true, 0),
    (Takes(FIVE, 3), false, 3),
    (Takes(FIVE, 0), false, 3),
    (AnotherLeaves(THREE), true, 3),
    (Takes(FOUR, 3), false, 6),
    (AnotherLeaves(These(&[0, 9, 3])), true, 6),
    (Takes(FIVE, 0), false, 8),
    (Takes(FIVE, 0), false, 8),
    (Leaves(FOUR), false, 8),
    (Takes(FOUR, 0), false, 8),
    (Offers(TWO), false, 8),
    (Takes(FOUR, 0), false, 8),
    (AnotherLeaves(FOUR), true, 8),
    (Takes(THREE, 0), true, 8),
    (Takes(FIVE, 4), false, 12),
    (Clears, true, 12),
    (Takes(FIVE, 4), true, 16),
    (Takes(FIVE, 2), false, 20),
];

/// Does one step of a pass.
fn do_one(
    rt: &impl Abort,
    alloc: Global,
    versions: &Versions,
    does: Does,
    looked: &mut Looked,
) -> Result<(), AllocError> {
    match does {
        AnotherLeaves(history) => leave(rt, alloc, versions, history),
        Leaves(history) => leave_by(rt, alloc, versions, history, looked),
        Offers(history) => offer_by(rt, alloc, versions, history, looked),
        Takes(history, wanted) => {
            let length = match taken_by(rt, alloc, versions, history, looked)? {
                Some((length, _)) => length,
                None => 0,
            };
            same(rt, length, wanted, "an edition of so many calls");
            Ok(())
        }
        Clears => {
            looked.clear();
            Ok(())
        }
    }
}

#[test]
fn a_pass_compares_no_edition_twice_and_none_of_its_own(rt: HostRuntime) -> Result<(), AllocError> {
    let versions = Versions::open(rt.alloc(), 128)?;
    let mut looked = Looked::none();
    for (at, (does, has_new, compared)) in LOOKED.iter().enumerate() {
        do_one(&rt, rt.alloc(), &versions, *does, &mut looked)?;
        let found = (versions.has_new(&looked, 5), looked.compared());
        same(&rt, found, (*has_new, *compared), ("row from 0", at));
    }
    Ok(())
}
