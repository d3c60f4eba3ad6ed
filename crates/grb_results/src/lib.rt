//! What single calls of a history leave of the objects that they change: results, by the number of the call.
//!
//! A [`Learnt`] list knows for each call which object it changes, and which earlier calls last changed what it needs: of an output that it
//! overwrites a call needs the shape alone. A [`Table`] keeps, for some of the calls, what the object held right after the call, and makes
//! for an answer the calls that it needs and whose results it lacks. Which calls it makes, and that a result is kept, no contract says:
//! tests count the calls.
#![tactic(auto)]

mod adopting;
mod answers;
mod computed;
mod costs;
mod dropping;
mod evaluation;
mod exchange;
mod learning;
mod made;
mod preparing;
mod rebuilding;
mod recent;
mod runs;
mod settling;
mod table;

pub use exchange::Kept;
pub use grb_links::{Lasts, Learnt, Node, Shape, an_overwritten_output_is_not_read};
pub use table::Table;
