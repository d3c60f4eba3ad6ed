//! A pass: one thread's view of a store that passes share, and what one call of a pass is.
//!
//! Passes share the order of all calls and the records that its words name. A pass has a `Reader` of `grb_reader`, which knows the words
//! that it has learnt and the records that it was shown, and results that it evaluates for itself. One unit is one call: `enter` checks a
//! call against all that was entered before it and enters it by one compare-and-swap, `read` answers one that only reads, and `meet` lets a
//! pass learn what another knows. Nothing here starts a thread or waits for one; after a lost try a pass idles for 16 to 1,024 turns of a
//! loop. Which calls there are is left to the crates below, and
//! what operates to the crate above: all is over any that does.
#![tactic(auto)]

mod branch;
mod enter;
mod evaluated;
mod learn;
mod meet;
mod pass;
mod read;
mod shared;
mod succeed;

pub use grb_reader::LiveObjects;
pub use grb_rebuild::NoSuccessor;
pub use pass::Pass;
pub use shared::Shared;
