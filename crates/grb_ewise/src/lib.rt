//! The operations of the standard over sparse objects, and how each writes its output.
//!
//! One unit is an operation: it takes the old output, the inputs, the mask, the accumulator and the descriptor by reference, and
//! answers the new output, assembled, or `AllocError`. Nothing that it was lent is changed, so one object may be output, input and
//! mask at once. Nothing here checks domains or dimensions, which the caller owes, and nothing here knows of stores or threads.
//!
//! What products need too stands here once: `Stored`, by which values are read and kept in the Rust type of their domain, and the
//! places of columns among those that store something.
#![tactic(auto)]

mod ewise;
mod inputs;
mod marks;
mod objects;
mod pairing;
mod ranks;
mod rows;
mod stored;
mod transposing;
mod typed_rows;
mod writing;

pub use ewise::{ewise_add_matrix, ewise_add_vector, ewise_mult_matrix, ewise_mult_vector};
pub use inputs::{MatrixRead, read_matrix};
pub use ranks::{distinct, is_worth_opening, place_of, ranks_of};
pub use stored::{Stored, keep_bools, keep_numbers};
pub use transposing::transposed;
pub use writing::{
    write_inside_matrix, write_inside_vector, write_masked_matrix, write_masked_vector,
};
