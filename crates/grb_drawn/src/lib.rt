//! For tests alone: numbers, operators, descriptors, functions and tests, drawn by chance.
//!
//! One unit is a draw. What is drawn is the same in each run.
#![tactic(auto)]

mod draw;

pub use draw::{Draw, value_of};
