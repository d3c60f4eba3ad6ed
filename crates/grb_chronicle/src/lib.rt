//! The chronicle of a chain: which generation came after which, in one list that only grows.
//!
//! The list is a ghost: no code keeps it. What threads share is one word, the number of the latest generation. A [`Page`] is a beginning of
//! the list that was seen, and keeps one number alone; a [`Mark`] is what is told of one generation, and keeps nothing. A generation is
//! added by one compare-exchange of the word from the number before it, so no second generation has one number, and only where it
//! follows the one before: what that means is the user's, by [`Chained`]. Nothing here waits for another thread, and nothing takes memory.
//!
//! Source: own; the list and its tokens are those of the kit's `logbook`.
#![tactic(auto)]

mod chronicle;
mod rule;

pub use chronicle::{Chronicle, Mark, Page};
pub use rule::{Chained, Telling};
