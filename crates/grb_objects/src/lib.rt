//! Sparse objects as a store holds them: at their numbers, and shared.
//!
//! Objects of one sort stand in `Places`, by their numbers. One unit is a `SharedObject`: a matrix or a vector in an `Arc`. Who changes
//! one does so where it lies if no other holds it, and else changes a copy. The functions over places make of one object what a call
//! makes of it, or do what waits in it; they lend, share, put and take single ones. A `SharedContent` is what one object holds, of
//! whichever sort, in no store. What makes an operation is a trait, `Operates`, and `Helps`: nothing here
//! makes one, checks a call, or knows of shapes.
#![tactic(auto)]

mod matrices;
mod operates;
mod places;
mod shared;
mod shared_content;
mod stored_object;
mod vectors;

pub use operates::{Helps, Operates};
pub use places::{
    assemble, assemble_all, dup, edit, has_many_changes, held_of, hold, lent, lent_mask, object_of,
    put, share, take,
};
pub use shared::{Places, SharedObject, share_all, share_place};
pub use shared_content::SharedContent;
pub use stored_object::StoredObject;
