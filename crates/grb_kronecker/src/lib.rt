//! kronecker: the Kronecker product of two matrices.
//!
//! One unit is an operation: it takes the old output, both inputs, the mask, the accumulator and the descriptor by reference, and answers
//! the new output, assembled, or `AllocError`. Nothing that it was lent is changed. A product is made row by row, of each row of the first
//! matrix with each row of the second, and each row is written once. Nothing here checks domains or dimensions, which the caller owes, and
//! nothing here knows of stores or threads.
#![tactic(auto)]

mod crossing;
mod kronecker;
mod rows;

pub use kronecker::kronecker_matrix;
