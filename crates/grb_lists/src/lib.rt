//! Flat lists: the entries of a vector or a matrix as compressed rows, which kernels read and results are made of.
//!
//! One unit is the entries of one object, in rising order of the numbers of their cells, row * 2^32 + column: the rows that have some, where
//! each of them begins, and the column and the value of each entry. An index of a vector is a column of row 0. No list has a length that
//! follows from dimensions. Nothing here knows of dimensions but as bounds, of changes that wait, of who shares the lists, of calls or
//! threads.
#![tactic(auto)]

mod apart;
mod arrays;
mod flat;
mod made;
pub mod packed;
mod runs;
mod same;
mod seek;
mod values;

pub use apart::{ApartTuples, SortedPlaces};
pub use arrays::{dims_of_rising, size_of_rising};
pub use flat::{FlatRows, code};
pub use seek::next_place;
pub use values::copied;
