//! The product of two matrices: mxm.
//!
//! One unit is the operation: it takes the old output, the inputs, the mask, the accumulator and the descriptor by reference, and
//! answers the new output, assembled, or `AllocError`. Nothing that was lent is changed. Nothing here checks domains or dimensions,
//! which the caller owes, and nothing here knows of stores or threads. Rows of a product from one up to another can be had alone, put
//! after those before them: so a product is made block by block, and written at the end.
#![tactic(auto)]

mod allowed_sums;
mod factors;
mod mask_rows;
mod masked_rows;
mod mxm_product;
mod rows;
mod true_rows;
mod whole_rows;

pub use mxm_product::{append_product, bounding_lists, keep_rows, mxm, product, write_product};
pub use rows::{MadeRows, no_rows, numbers_between, push_row};
pub use true_rows::InBits;
