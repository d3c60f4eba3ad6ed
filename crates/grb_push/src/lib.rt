//! What is made of the columns of a matrix by adding its rows: products with a vector, which read the rows that it picks, and the folds of
//! columns.
//!
//! One unit is what vxm computes, and mxv and the reduction of rows of a matrix that they read transposed: it takes the inputs by
//! reference, and answers a new vector, assembled, or `AllocError`. Beside it stands which places of it a mask lets be left out, and how it
//! is written. Nothing that was lent is changed. Nothing here checks domains or dimensions, which the caller owes, and nothing here knows of
//! stores or threads.
#![tactic(auto)]

mod column_folds;
mod kept;
mod late;
mod picks;
mod products;
mod push;
mod runs;
mod sides;
mod wanted;

pub use column_folds::fold_columns;
pub use products::pushed_product;
pub use sides::{MatrixFirst, Side, VectorFirst};
pub use wanted::{Wanted, wanted_of, write_wanted};
