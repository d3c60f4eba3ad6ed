//! What is made of each row of a matrix that is wanted: mxv, vxm, and the reduction of rows. Where the rows of the matrix as it is read are
//! the columns of the one that was lent, `grb_push` makes it by adding rows.
//!
//! One unit is an operation: it takes the old output, the inputs, the mask, the accumulator and the descriptor by reference, and
//! answers the new output, assembled, or `AllocError`. Nothing that was lent is changed. Nothing here checks domains or dimensions,
//! which the caller owes, and nothing here knows of stores or threads.
#![tactic(auto)]

mod lookup;
mod mxv_product;
mod reduce_folds;
mod row_products;
mod row_sums;
mod rows;
mod vxm_product;

pub use mxv_product::mxv;
pub use reduce_folds::reduce_rows;
pub use vxm_product::vxm;
