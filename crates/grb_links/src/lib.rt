//! What is known of the calls of a history before any is made: a graph of them, by their numbers.
//!
//! A [`Learnt`] list knows for each call which object it changes, and which earlier calls last changed what it needs: of an output that it
//! overwrites a call needs the shape alone. One unit is a [`Node`]: a call with its target and its links. Nothing here holds what an object
//! stores, makes a call, or knows of passes.
#![tactic(auto)]

mod costs;
mod dup;
mod lasts;
mod laws;
mod learnt;
mod marks;
mod needed;
mod node;
mod nodes;
mod shape;

pub use costs::{EDIT_WORK, MANY_CALLS, UNKNOWN_WORK, is_short_edit, work_of, work_of_edit};
pub use dup::is_dup;
pub use lasts::Lasts;
pub use laws::an_overwritten_output_is_not_read;
pub use learnt::Learnt;
pub use marks::{clear_all, is_marked};
pub use needed::{forgets, is_clear};
pub use node::Node;
pub use shape::Shape;
