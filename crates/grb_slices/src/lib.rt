//! Which object each call changes, and which calls an object depends on.
//!
//! `target_at` names the object that a call changes, by the shapes before it. A `CallList` lends calls one by one, and `LentCalls` are calls that
//! are lent together. The functions of `laws` have a law as their contract, and do nothing: an object needs no more than the calls of its slice.
#![tactic(auto)]

mod calls;
mod laws;
mod target;

pub use calls::{CallList, LentCalls};
pub use laws::{a_call_changes_its_target, a_slice_is_enough, entries_stay_evaluated};
pub use target::target_at;
