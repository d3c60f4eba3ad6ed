//! What calls leave, evaluated by themselves.
//!
//! `value_of` holds what one object holds after calls on any store, from only the calls that it depends on: a walk back from the last finds
//! them, and they are made on a state, and no other. `Versions` comes from `grb_editions`, `LentCalls` from `grb_slices`, `State` from
//! `grb_states`, and `replay` from `grb_state`. Nothing here knows of passes or of an order: the caller brings the calls. No crate of the
//! product stands on it.
#![tactic(auto)]

mod making;
mod slice;
mod targets;
mod value;
mod wanted;

pub use grb_editions::{Looked, Versions};
pub use grb_slices::LentCalls;
pub use grb_state::replay;
pub use grb_states::State;
pub use value::{Held, value_of};
