//! The store for programs in C and in other languages that call C.
#![tactic(auto)]

mod bounded;
mod branches;
mod builds;
mod built;
mod chains;
mod entries;
mod facts;
mod handle;
mod objects;
mod open;
mod operations;
mod parts;
mod places;
mod raw;
mod session;
mod succession;
mod terms;
mod tuples;
mod version;

pub use bounded::Bounded;
pub use facts::{TrbCosts, TrbFacts};
pub use handle::TrbPass;
pub use parts::Parts;
pub use raw::Raw;
pub use session::{Kind, Session};
