//! Operations over entries in rising order of their indices, as lists of indices and of values of one Rust type.
//!
//! One unit is a list of entries: an `EntrySlice` lends one, an `EntryList` owns one. A kernel is generic in the operator, is proved
//! once, and is chosen once a call. What a kernel makes is the map that the definition says, exactly. Where memory is refused nothing
//! was written. Nothing here knows of objects, dimensions, stores or calls.
#![tactic(auto)]

mod bits;
mod choice;
mod list;
mod merging;
pub mod operators;
mod pairing;
mod rules;
mod scalar;

pub use bits::{lowest_bit, without_bit};
pub use choice::{ByOperator, Operated};
pub use list::{EntryList, EntrySlice};
pub use merging::{Rule, emit, merge, merged, most_entries};
pub use operators::{
    First, FirstBool, Land, Lor, Lxnor, Lxor, Max, Min, Minus, Operator, Plus, Second, SecondBool,
    Times,
};
pub use pairing::Pairing;
pub use rules::{Both, ByMask, Either, Over};
pub use scalar::{Scalar, chosen};
