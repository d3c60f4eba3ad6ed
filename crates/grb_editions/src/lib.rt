//! Editions, which passes share: each is calls, with results of these.
//!
//! One is found by its own calls and never by their number. Which are kept, and whether one is used, no contract says. Nothing here knows of
//! passes, of an order or of a kernel: the caller brings the calls.
#![tactic(auto)]

mod edition;
mod looked;
mod slots;
mod versions;

pub use looked::Looked;
pub use versions::Versions;
