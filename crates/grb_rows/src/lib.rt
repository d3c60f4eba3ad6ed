//! What is held of one object: its entries as flat lists, the changes that wait to be merged with them, and the merge.
//!
//! One unit is a list of entries in rising order of the numbers of their cells, row * 2^32 + column, beside pending changes, and together
//! they stand for a finite map. The list is shared with copies of the object, which have their changes apart. An index of a vector is a
//! column of row 0. Nothing here knows of dimensions but as bounds, of calls or threads.
#![tactic(auto)]

mod base;
mod held;
mod layers;
mod merge;
mod pending;

pub use grb_lists::{
    ApartTuples, FlatRows, SortedPlaces, code, dims_of_rising, next_place, packed, size_of_rising,
};
pub use held::Held;
pub use layers::Layers;
