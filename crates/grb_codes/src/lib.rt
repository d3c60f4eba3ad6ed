//! Numbers and items of the C interface as values.
//!
//! One unit is what one function of the interface is given, or answers: numbers that stand for a domain, an operator, a mask or a
//! descriptor become a call, or the status that refuses them; a reply becomes a status and what it puts out; arrays become the list of a
//! build, and all entries of an object fill arrays. Nothing here makes a call, has a store or a handle, or is seen by C. Memory is taken by
//! `matrix_build` and `vector_build`, and by `matrices_named` and `vectors_named`.
#![tactic(auto)]

mod builds;
mod codes;
mod decode;
mod item;
mod named;
mod tuples;
mod written;

pub use builds::{matrix_build, vector_build};
pub use codes::{
    INSUFFICIENT_SPACE, INVALID_VALUE, NO_VALUE, ORDER_FULL, OUT_OF_MEMORY, PANIC, SUCCESS,
    UNINITIALIZED_OBJECT, done_code, met_code, put_bool, put_dims, put_info, put_number,
    put_object, refusal_code,
};
pub use decode::{
    Given, add_matrices, add_vectors, apply_first_matrix, apply_first_vector, apply_matrix,
    apply_second_matrix, apply_second_vector, apply_vector, diag, kronecker, mult_matrices,
    mult_vectors, mxm, mxv, new_matrix, new_vector, reduce_matrix, reduce_rows, reduce_vector,
    select_matrix, select_values_matrix, select_values_vector, select_vector, transpose, vxm,
    wait_matrix, wait_vector,
};
pub use item::Item;
pub use named::{matrices_named, vectors_named};
pub use tuples::{put_handed, put_handed_vector, put_matrix, put_vector};
