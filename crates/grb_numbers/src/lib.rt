//! Numbers by which a store is seen from outside, and the law that calls commute with them.
//!
//! A chain of stores goes on in generations. The store of each holds the objects that are there, numbered 0, 1, 2 .. anew, and users keep
//! the numbers that they were given. `Numbers` says which is which: a member of the chain makes a call by the inner numbers, and answers by
//! the outer ones. Nothing here holds a store, makes a call or knows of a pass. Memory is taken by `Numbers::next`.
#![tactic(auto)]

mod carried;
mod inside;
pub mod laws;
mod numbers;

pub use numbers::Numbers;
