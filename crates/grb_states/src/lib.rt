//! The store that a list of calls leaves, as objects at their numbers.
//!
//! A `State` holds the matrices and vectors that calls made, with their entries. It tells what refuses a call, and does what waits in its
//! objects, which changes no entry. What makes a call on it, or answers one, stands above, in `grb_state`: nothing here knows of an operation,
//! of passes, of an order, or of which calls there are. All places for objects to come are reserved where a state is cloned: an empty state has none.
#![tactic(auto)]

mod copies;
mod objects;
mod parts;
mod state;

pub use objects::Objects;
pub use state::State;
