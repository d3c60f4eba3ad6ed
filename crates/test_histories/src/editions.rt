//! Editions: which of them serve which calls, and which are kept.
//!
//! The contract of `take_into` says that what is found are results of the calls. That an edition is found where one serves, the longest that
//! does, which offers and which of the results that are left are kept, whether they would be, that a table then has them, and that an edition
//! which is not kept is no refusal, no contract says.
ghost use Rattle.std.specs.Prelude.{◌≤◌, length, map, IfOk};
ghost use Rattle.grb_results.specs.Kept.{AreKept};

use crate::operations::lent;
use crate::results::{learnt, settle};
use crate::same::same;
use grb_call::{Call, VectorId};
use grb_core::{Domain, Value};
use grb_objects::SharedContent;
use grb_replay::{Looked, Versions};
use grb_results::{Kept, Table};
use std::alloc::{AllocError, Global};
use std::process::Abort;

/// A history by numbers: 0 and 1 make a vector of size 2 or 3, and any other sets the first one's index 0 to the number less one.
#[derive(Clone, Copy)]
pub(crate) enum History {
    These(&'static [u64]),
    /// A vector, and sets by the numbers from 2 to this one: as many calls as the number.
    Until(u64),
}

use History::{These, Until};

fn call_of(number: u64) -> Call {
    if number < 2 {
        return Call::NewVector {
            domain: Domain::Uint64,
            size: number.wrapping_add(2),
        };
    }
    Call::SetVector {
        v: VectorId(0),
        i: 0,
        value: Value::Uint64(number.wrapping_sub(1)),
    }
}

fn calls_of(alloc: Global, history: History) -> Result<Vec<Call>, AllocError> {
    let mut calls = Vec::new(alloc);
    match history {
        These(numbers) => {
            for number in numbers {
                calls.push(call_of(*number))?;
            }
        }
        Until(last) => {
            calls.push(call_of(0))?;
            for number in 2..=last {
                calls.push(call_of(number))?;
            }
        }
    }
    Ok(calls)
}

/// The last results of the calls.
pub(crate) fn results_of(alloc: Global, calls: &[&Call]) -> Result<Vec<Kept>, AllocError>
    requires { length calls.now ≤ 4096 }
    ensures { IfOk result (λ kept. AreKept (map (λ c. c.now) calls.now) kept.items) }
{
    let mut table = learnt(alloc, calls)?;
    settle(alloc, &mut table, calls)?;
    table.last_results()
}

/// A pass offers results of the calls, and the calls.
pub(crate) fn offer_by(
    rt: &impl Abort,
    alloc: Global,
    versions: &Versions,
    history: History,
    looked: &mut Looked,
) -> Result<(), AllocError> {
    let calls = calls_of(alloc, history)?;
    let lent = lent(alloc, &calls)?;
    if lent.len() > 4096 {
        panic!(rt; "{calls} calls", calls = lent.len());
    }
    let results = results_of(alloc, &lent)?;
    versions.offer(&lent, results, looked)
}

/// Another pass does.
pub(crate) fn offer(
    rt: &impl Abort,
    alloc: Global,
    versions: &Versions,
    history: History,
) -> Result<(), AllocError> {
    offer_by(rt, alloc, versions, history, &mut Looked::none())
}

/// A pass leaves results of the calls, and the calls.
pub(crate) fn leave_by(
    rt: &impl Abort,
    alloc: Global,
    versions: &Versions,
    history: History,
    looked: &mut Looked,
) -> Result<(), AllocError> {
    let calls = calls_of(alloc, history)?;
    let lent = lent(alloc, &calls)?;
    if lent.len() > 4096 {
        panic!(rt; "{calls} calls", calls = lent.len());
    }
    let results = results_of(alloc, &lent)?;
    versions.leave(&lent, results, looked)
}

/// Another pass does.
pub(crate) fn leave(
    rt: &impl Abort,
    alloc: Global,
    versions: &Versions,
    history: History,
) -> Result<(), AllocError> {
    leave_by(rt, alloc, versions, history, &mut Looked::none())
}

/// Leaves results of more calls than `most`, so often that each of the latest has more.
pub(crate) fn crowd(
    rt: &impl Abort,
    alloc: Global,
    versions: &Versions,
    most: u64,
) -> Result<(), AllocError> {
    for more in 1..5 {
        leave(rt, alloc, versions, Until(most.wrapping_add(more)))?;
    }
    Ok(())
}

/// What a vector stores at index 0, none where it stores nothing or is none.
fn stored(content: &SharedContent) -> Option<u64> {
    match content.vector()?.get(0) {
        Some(Value::Uint64(n)) => Some(n),
        _ => None,
    }
}

/// What the vector stores by the latest result that a table has of so many of its calls.
fn stored_before(table: &Table, count: usize) -> Option<u64> {
    for at in (0..count).rev() {
        if let Some(content) = table.kept(at) {
            return stored(content);
        }
    }
    None
}

/// Of how many calls an edition is from which a table takes results of these calls for a pass, and what the vector stores by the latest of
/// them; none where it takes none.
pub(crate) fn taken_by(
    rt: &impl Abort,
    alloc: Global,
    versions: &Versions,
    asked: History,
    looked: &mut Looked,
) -> Result<Option<(usize, Option<u64>)>, AllocError> {
    let calls = calls_of(alloc, asked)?;
    let lent = lent(alloc, &calls)?;
    if lent.len() > 512 {
        panic!(rt; "{calls} calls", calls = lent.len());
    }
    let mut table = learnt(alloc, &lent)?;
    let length = versions.take_into(&lent, &mut table, looked);
    if length == 0 {
        return Ok(None);
    }
    Ok(Some((length, stored_before(&table, length))))
}

/// The same, for a pass that has looked at none.
fn taken(
    rt: &impl Abort,
    alloc: Global,
    versions: &Versions,
    asked: History,
) -> Result<Option<(usize, Option<u64>)>, AllocError> {
    taken_by(rt, alloc, versions, asked, &mut Looked::none())
}

/// Editions of a room: those offered in turn, the calls that are asked for, and what is found for them, also where longer ones are the latest.
#[derive(Clone, Copy)]
struct Row {
    name: &'static str,
    room: u32,
    offered: &'static [History],
    asked: History,
    found: Option<(usize, Option<u64>)>,
}

static ROWS: [Row; 13] = [
    Row {
        name: "nothing was offered",
        room: 128,
        offered: &[],
        asked: These(&[0, 5]),
        found: None,
    },
    Row {
        name: "the calls themselves",
        room: 128,
        offered: &[These(&[0, 5])],
        asked: These(&[0, 5]),
        found: Some((2, Some(4))),
    },
    Row {
        name: "the same calls, and another between them",
        room: 128,
        offered: &[These(&[0, 1])],
        asked: These(&[0, 2, 1]),
        found: None,
    },
    Row {
        name: "the same calls, and another after them",
        room: 128,
        offered: &[These(&[0, 1])],
        asked: These(&[0, 1, 2]),
        found: Some((2, None)),
    },
    Row {
        name: "as many other calls",
        room: 128,
        offered: &[These(&[0, 5])],
        asked: These(&[0, 6]),
        found: None,
    },
    Row {
        name: "fewer calls",
        room: 128,
        offered: &[These(&[0, 5])],
        asked: These(&[0]),
        found: None,
    },
    Row {
        name: "one that doubles none, with as many calls",
        room: 128,
        offered: &[These(&[0, 5]), These(&[0, 6])],
        asked: These(&[0, 6]),
        found: None,
    },
    Row {
        name: "no calls are no edition",
        room: 128,
        offered: &[These(&[])],
        asked: These(&[]),
        found: None,
    },
    Row {
        name: "the longer of two",
        room: 128,
        offered: &[These(&[0, 2]), Until(65)],
        asked: Until(66),
        found: Some((65, Some(64))),
    },
    Row {
        name: "the shorter of two, where the longer has other calls",
        room: 128,
        offered: &[These(&[0, 2]), Until(65)],
        asked: These(&[0, 2, 9]),
        found: Some((2, Some(1))),
    },
    Row {
        name: "the shorter of 64 calls and 65",
        room: 128,
        offered: &[Until(64), Until(65)],
        asked: Until(64),
        found: Some((64, Some(63))),
    },
    Row {
        name: "the last in the room",
        room: 64,
        offered: &[Until(64)],
        asked: Until(66),
        found: Some((64, Some(63))),
    },
    Row {
        name: "beyond the room",
        room: 64,
        offered: &[Until(65)],
        asked: Until(66),
        found: None,
    },
];

fn expect_row(rt: &impl Abort, alloc: Global, row: &Row) -> Result<(), AllocError> {
    let versions = Versions::open(alloc, row.room)?;
    for history in row.offered {
        offer(rt, alloc, &versions, *history)?;
    }
    same(
        rt,
        taken(rt, alloc, &versions, row.asked)?,
        row.found,
        row.name,
    );
    crowd(rt, alloc, &versions, 66)?;
    same(
        rt,
        taken(rt, alloc, &versions, row.asked)?,
        row.found,
        row.name,
    );
    Ok(())
}

#[test]
fn an_edition_serves_the_calls_that_begin_with_its_own(rt: HostRuntime) -> Result<(), AllocError> {
    for row in &ROWS {
        expect_row(&rt, rt.alloc(), row)?;
    }
    Ok(())
}

/// Editions of 64, 100, 128, 200 and 256 calls were offered in turn. Those of 64, 128 and 256 double; the others are among the latest. Here
/// is how many calls are asked for, and how many the edition has that is found where longer ones are the latest, and before; 0 is none.
static DOUBLED: [(u64, usize, usize); 10] = [
    (63, 0, 0),
    (64, 64, 64),
    (99, 64, 64),
    (100, 64, 100),
    (127, 64, 100),
    (128, 128, 128),
    (199, 128, 128),
    (200, 128, 200),
    (255, 128, 200),
    (256, 256, 256),
];

/// How many calls the edition has that is found for so many.
fn length_found(
    rt: &impl Abort,
    alloc: Global,
    versions: &Versions,
    asked: u64,
) -> Result<usize, AllocError> {
    match taken(rt, alloc, versions, Until(asked))? {
        Some((length, _)) => Ok(length),
        None => Ok(0),
    }
}

#[test]
fn editions_double_beside_the_latest(rt: HostRuntime) -> Result<(), AllocError> {
    let versions = Versions::open(rt.alloc(), 512)?;
    for count in [64, 100, 128, 200, 256] {
        offer(&rt, rt.alloc(), &versions, Until(count))?;
    }
    for (asked, _, anywhere) in &DOUBLED {
        let found = length_found(&rt, rt.alloc(), &versions, *asked)?;
        same(&rt, found, *anywhere, *asked);
    }
    crowd(&rt, rt.alloc(), &versions, 256)?;
    for (asked, doubled, _) in &DOUBLED {
        let found = length_found(&rt, rt.alloc(), &versions, *asked)?;
        same(&rt, found, *doubled, *asked);
    }
    Ok(())
}

/// 64, 128 and 256 calls, which double, and four numbers of calls that do not.
const CROWDED: &[History] = &[
    Until(64),
    Until(128),
    Until(256),
    Until(300),
    Until(330),
    Until(390),
    Until(450),
];

/// The room, what was offered in turn, and whether an edition of so many calls would be kept then.
static TAKEN: [(u32, &[History], usize, bool); 20] = [
    (128, &[], 0, false),
    (128, &[], 1, true),
    (128, &[], 64, true),
    (128, &[], 65, true),
    (128, &[], 128, true),
    (128, &[], 129, false),
    (65, &[], 128, true),
    (128, &[These(&[0, 5])], 1, false),
    (128, &[These(&[0, 5])], 64, false),
    (128, &[These(&[0, 5])], 65, true),
    (128, &[Until(65)], 64, true),
    (128, &[Until(65)], 128, false),
    (256, &[Until(64), Until(100)], 127, false),
    (256, &[Until(64), Until(100)], 128, true),
    (256, &[Until(64), Until(100)], 129, true),
    (512, CROWDED, 180, false),
    (512, CROWDED, 310, false),
    (512, CROWDED, 350, false),
    (512, CROWDED, 511, false),
    (512, CROWDED, 512, true),
];

#[test]
fn an_edition_is_kept_where_it_doubles_or_none_is_near(rt: HostRuntime) -> Result<(), AllocError> {
    for (at, (room, offered, count, takes)) in TAKEN.iter().enumerate() {
        let versions = Versions::open(rt.alloc(), *room)?;
        for history in *offered {
            offer(&rt, rt.alloc(), &versions, *history)?;
        }
        same(&rt, versions.takes(*count), *takes, ("row from 0", at));
    }
    Ok(())
}

/// Results that are left in turn, calls of which an edition is offered before, calls that are asked for, and what a table takes.
#[derive(Clone, Copy)]
struct Latest {
    name: &'static str,
    offered: &'static [History],
    left: &'static [History],
    asked: History,
    found: Option<(usize, Option<u64>)>,
}

pub(crate) const TWO: History = These(&[0, 2]);

pub(crate) const THREE: History = These(&[0, 2, 3]);

pub(crate) const FOUR: History = These(&[0, 2, 3, 4]);

pub(crate) const FIVE: History = These(&[0, 2, 3, 4, 5]);

static LATEST: [Latest; 15] = [
    Latest {
        name: "results that were left",
        offered: &[],
        left: &[TWO],
        asked: THREE,
        found: Some((2, Some(1))),
    },
    Latest {
        name: "no calls",
        offered: &[],
        left: &[These(&[])],
        asked: TWO,
        found: None,
    },
    Latest {
        name: "as many other calls",
        offered: &[],
        left: &[TWO],
        asked: These(&[0, 6]),
        found: None,
    },
    Latest {
        name: "more calls than are asked for",
        offered: &[],
        left: &[THREE],
        asked: TWO,
        found: None,
    },
    Latest {
        name: "the longer of two within 64 calls",
        offered: &[],
        left: &[TWO, THREE],
        asked: FIVE,
        found: Some((3, Some(2))),
    },
    Latest {
        name: "the shorter of two, where the longer has other calls",
        offered: &[],
        left: &[TWO, These(&[0, 2, 8])],
        asked: FIVE,
        found: Some((2, Some(1))),
    },
    Latest {
        name: "four are kept",
        offered: &[],
        left: &[TWO, THREE, FOUR, FIVE],
        asked: These(&[0, 2, 9]),
        found: Some((2, Some(1))),
    },
    Latest {
        name: "the fifth takes the place of the shortest",
        offered: &[],
        left: &[TWO, THREE, FOUR, FIVE, Until(65)],
        asked: These(&[0, 2, 9]),
        found: None,
    },
    Latest {
        name: "and of no other",
        offered: &[],
        left: &[TWO, THREE, FOUR, FIVE, Until(65)],
        asked: These(&[0, 2, 3, 9]),
        found: Some((3, Some(2))),
    },
    Latest {
        name: "one shorter than each of four is not kept",
        offered: &[],
        left: &[THREE, FOUR, FIVE, Until(65), These(&[0, 6])],
        asked: These(&[0, 6]),
        found: None,
    },
    Latest {
        name: "one takes the place of one of as many calls",
        offered: &[],
        left: &[TWO, THREE, FOUR, FIVE, These(&[0, 6])],
        asked: These(&[0, 6]),
        found: Some((2, Some(5))),
    },
    Latest {
        name: "which is not found any more",
        offered: &[],
        left: &[TWO, THREE, FOUR, FIVE, These(&[0, 6])],
        asked: TWO,
        found: None,
    },
    Latest {
        name: "a longer one by which lengths double",
        offered: &[THREE],
        left: &[TWO],
        asked: FIVE,
        found: Some((3, Some(2))),
    },
    Latest {
        name: "a shorter one by which lengths double",
        offered: &[TWO],
        left: &[THREE],
        asked: FIVE,
        found: Some((3, Some(2))),
    },
    Latest {
        name: "one by which lengths double, where the latest has other calls",
        offered: &[TWO],
        left: &[These(&[0, 2, 8])],
        asked: FIVE,
        found: Some((2, Some(1))),
    },
];

fn expect_latest(rt: &impl Abort, alloc: Global, row: &Latest) -> Result<(), AllocError> {
    let versions = Versions::open(alloc, 128)?;
    for history in row.offered {
        offer(rt, alloc, &versions, *history)?;
    }
    for history in row.left {
        leave(rt, alloc, &versions, *history)?;
    }
    same(
        rt,
        taken(rt, alloc, &versions, row.asked)?,
        row.found,
        row.name,
    );
    Ok(())
}

#[test]
fn the_latest_are_four(rt: HostRuntime) -> Result<(), AllocError> {
    for row in &LATEST {
        expect_latest(&rt, rt.alloc(), row)?;
    }
    Ok(())
}
