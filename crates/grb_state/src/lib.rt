//! Calls made on one store, one after another.
//!
//! `apply` makes of a `State` what the call makes of it, and nothing of it where the call is refused; `reply` answers one from it, where
//! `settle` did what waits; `replay` applies a list. A pass makes no call so: no crate of the product stands on this one.
#![tactic(auto)]

mod applying;
mod changing;
mod fold;
mod settling;

pub use applying::{apply, reply};
pub use fold::replay;
pub use settling::settle;
