//! The values that matrices and vectors store, their domains, operators, monoids and semirings, functions of one value and tests of one
//! entry, the descriptor of an operation, the range of dimensions, and the names of what a call is refused for.
//!
//! The mathematics that every layer speaks in stands in `specs/`: a matrix or a vector is a domain, dimensions and a finite map from places
//! to values, and each method and operation is an operation on such maps. Nothing here takes memory, and nothing here knows of stores,
//! calls or threads.
#![tactic(auto)]

mod descriptor;
mod dimension;
mod domain;
mod functions;
mod laws;
mod map_laws;
mod monoid;
mod operator;
mod refusal;
mod semiring;
mod tests;
mod value;

pub use descriptor::Descriptor;
pub use dimension::is_dimension;
pub use domain::Domain;
pub use functions::{Function, UnaryOp, apply_function, turns_input};
pub use laws::{
    build_is_sets, build_stores_folds, builds_in_any_order, complement_parts,
    element_wise_results_are_whole, ewise_in_either_order, folds_in_any_order,
    products_and_reductions_are_whole, remove_then_get, resize_twice, set_then_get,
    transposed_exchanges_rows_and_columns, vxm_is_a_product_of_the_transposed, writes_inside_alone,
};
pub use map_laws::{
    a_kronecker_product_has_each_pair, a_vector_stands_on_its_diagonal, applied_at_each_entry,
    diagonals_part_the_entries, each_result_is_entries, moved_entries_stand_where_they_are_read,
    selected_entries_pass,
};
pub use monoid::{Monoid, identity};
pub use operator::{BinaryOp, apply};
pub use refusal::{Info, Refusal};
pub use semiring::Semiring;
pub use tests::{Diagonal, Test, diagonal_size, number, passes};
pub use value::Value;
