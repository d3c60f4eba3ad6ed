//! Folds of lists of values, and of all entries of an object: its total, where changes wait too.
//!
//! One unit is a fold by a monoid: it answers a value, and takes no memory. Nothing that was lent is changed. Nothing here checks
//! domains, which the caller owes, and nothing here knows of stores or threads.
#![tactic(auto)]

mod changed;
mod folding;
mod reduce_totals;

pub use folding::{fold_part, fold_row};
pub use reduce_totals::{reduce_matrix, reduce_vector};
