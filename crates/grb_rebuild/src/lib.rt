//! A store made anew by calls: those that make, number by number and sort by sort, what a store holds.
//!
//! `rebuild_all` has for a store the calls that leave it, in a history that begins with no object, and the store itself with room for more,
//! whose objects are shared with the old one: nothing is to be evaluated again. No entry is copied: a build shares its object's. Nothing here
//! knows of passes, of an order or of records: the caller has the calls entered.
#![tactic(auto)]

pub mod laws;
mod objects;
mod rebuild;
mod store;

pub use rebuild::{NoSuccessor, Rebuild, rebuild_all};
pub use store::needed;
