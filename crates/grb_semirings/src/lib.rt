//! Monoids and semirings as types, the choice of them by their names, and the rows of a matrix as they are lent to a kernel.
//!
//! One unit is a monoid of one Rust type: its identity, its operator, and what a fold by it may leave out. Nothing here takes memory or
//! folds a list, and nothing here knows of masks, stores or threads.
#![tactic(auto)]

mod choice;
mod matrix_rows;
mod monoids;

pub use choice::{ByMonoid, BySemiring, Folded, by_semiring};
pub use matrix_rows::{MatrixRows, lend_matrix};
pub use monoids::MonoidOver;
