//! Which editions are let go: those most of whose entries are of calls that are not the last of an object that is there.
//!
//! No contract says it: an edition that stays, or goes, costs memory and time alone.

use crate::editions::results_of;
use crate::operations::lent;
use crate::results::learnt;
use crate::same::same;
use grb_call::{Call, VectorId};
use grb_core::{Domain, Value};
use grb_replay::{Looked, Versions};
use std::alloc::{AllocError, Global};
use std::process::Abort;

/// A vector with two entries, and one with one entry: five calls; and these calls after them.
fn two_vectors(alloc: Global, after: &[After]) -> Result<Vec<Call>, AllocError> {
    let mut calls = Vec::new(alloc);
    for size in [2, 2] {
        calls.push(Call::NewVector {
            domain: Domain::Uint64,
            size,
        })?;
    }
    for (number, i) in [(0, 0), (0, 1), (1, 0)] {
        calls.push(Call::SetVector {
            v: VectorId(number),
            i,
            value: Value::Uint64(7),
        })?;
    }
    for one in after {
        calls.push(match *one {
            After::Frees(number) => Call::FreeVector {
                v: VectorId(number),
            },
            After::Clears(number) => Call::ClearVector {
                v: VectorId(number),
            },
            After::Sets(number) => Call::SetVector {
                v: VectorId(number),
                i: 1,
                value: Value::Uint64(9),
            },
        })?;
    }
    Ok(calls)
}

/// A call that comes after an edition, and the number of its vector.
#[derive(Clone, Copy)]
enum After {
    Frees(u32),
    Clears(u32),
    Sets(u32),
}

use After::{Frees, Sets};

/// What comes after the five calls, how many calls the table has learnt that is asked, and how many entries the edition has then of its three.
static LET_GO: [(&[After], usize, u64); 9] = [
    (&[], 5, 3),
    (&[Sets(1)], 6, 3),
    (&[Sets(0)], 6, 0),
    (&[Frees(1)], 6, 3),
    (&[Frees(0)], 6, 0),
    (&[After::Clears(0)], 6, 0),
    (&[Frees(0)], 5, 3),
    (&[], 4, 3),
    (&[], 0, 3),
];

/// Two passes keep results of the five calls: one by which lengths double, and one of the latest.
fn keep_two_vectors(rt: &impl Abort, alloc: Global, versions: &Versions) -> Result<(), AllocError> {
    let calls = two_vectors(alloc, &[])?;
    let lent = lent(alloc, &calls)?;
    if lent.len() > 4096 {
        panic!(rt; "{calls} calls", calls = lent.len());
    }
    versions.offer(&lent, results_of(alloc, &lent)?, &mut Looked::none())?;
    versions.leave(&lent, results_of(alloc, &lent)?, &mut Looked::none())
}

#[test]
fn an_edition_lets_go_what_is_not_the_last_of_its_objects(
    rt: HostRuntime,
) -> Result<(), AllocError> {
    for (at, (after, count, entries)) in LET_GO.iter().enumerate() {
        let versions = Versions::open(rt.alloc(), 64)?;
        keep_two_vectors(&rt, rt.alloc(), &versions)?;
        same(&rt, versions.entries(), 6, "two editions");
        let calls = two_vectors(rt.alloc(), after)?;
        let lent = lent(rt.alloc(), &calls)?;
        if lent.len() < *count || *count > 4096 {
            panic!(rt; "{calls} calls", calls = lent.len());
        }
        let table = learnt(rt.alloc(), &lent[..*count])?;
        versions.let_go(&table);
        let found = (versions.entries(), versions.has_new(&Looked::none(), 5));
        same(
            &rt,
            found,
            (entries.wrapping_mul(2), *entries > 0),
            ("row from 0", at),
        );
        keep_two_vectors(&rt, rt.alloc(), &versions)?;
        same(&rt, versions.entries(), 6, ("and anew, row from 0", at));
    }
    Ok(())
}
