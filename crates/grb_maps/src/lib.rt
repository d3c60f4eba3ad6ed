//! Operations that look at each entry by itself: select, which keeps some, apply, which gives each another value, and transpose and diag,
//! which move them.
//!
//! One unit is an operation: it takes the old output, the input, the mask, the accumulator and the descriptor by reference, and answers the
//! new output, assembled, or `AllocError`. Nothing that it was lent is changed. Nothing here checks domains or dimensions, which the caller
//! owes, and nothing here knows of stores or threads.
#![tactic(auto)]

mod apply;
mod bound;
mod changing;
mod diagonal;
mod each;
mod objects;
mod rows;
mod runs;
mod select;
mod sieves;
mod transpose;
mod typed;

pub use apply::{apply_matrix, apply_vector};
pub use diagonal::diagonal_matrix;
pub use rows::push_row;
pub use select::{select_matrix, select_vector};
pub use transpose::transpose_matrix;
