//! A row of slots that threads share: each has one value, and any thread may take it out and put one in its place.
//!
//! One thread at a time has a slot. Who comes meanwhile finds it closed and goes on without: nothing here waits, wakes or yields. A value
//! need be no more than `Send`, since it lies with one thread or in the slot. What is to hold of each value is said by [`FitsAt`], for the
//! slot's index and a tag that is fixed with the row: it is asked of what is put in, and so it holds of what comes out. A row of slots that
//! may be empty is one of an `Option`.
//!
//! Who visits a slot finds there what the visit before it left, or at first what the row was opened with. A slot is closed only while a
//! visit to it has not ended, and a [`Given`] shows that this one has.
//!
//! Source: own; the steps are those of the kit's `atomic_table`.
#![tactic(auto)]

mod claim;
mod fits;
mod rule;
mod slots;

pub use claim::{Claim, Given};
pub use fits::FitsAt;
pub use slots::Slots;
