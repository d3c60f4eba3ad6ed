//! The operations of the standard over sparse objects, from the crates that have them. Their laws are in `grb_laws`, and those of maps and
//! filters in `grb_core`.
#![tactic(auto)]

pub use grb_ewise::{
    ewise_add_matrix, ewise_add_vector, ewise_mult_matrix, ewise_mult_vector, transposed,
    write_masked_matrix, write_masked_vector,
};
pub use grb_folds::{reduce_matrix, reduce_vector};
pub use grb_kronecker::kronecker_matrix;
pub use grb_maps::{
    apply_matrix, apply_vector, diagonal_matrix, select_matrix, select_vector, transpose_matrix,
};
pub use grb_mxm::mxm;
pub use grb_pull::{mxv, reduce_rows, vxm};
