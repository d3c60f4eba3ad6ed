//! Laws of products and reductions, over the definitions that `mxm`, `mxv` and the reductions are held to. No crate stands on them.
#![tactic(auto)]

mod laws;

pub use laws::{
    a_total_is_that_of_the_rows, an_identity_matrix_changes_nothing, mxv_is_mxm_with_one_column,
    products_may_be_grouped,
};
