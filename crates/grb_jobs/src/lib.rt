//! Products that passes make together, by blocks of rows.
//!
//! One unit is a job: the product of two matrices at the cells that a mask selects, which are shared, with a cell for each block of its
//! rows. Whoever needs the product or only helps claims a block by its cell and makes it by `grb_mxm::append_product`; what is claimed and
//! does not stand is made once more, so no one waits. What a cell holds is tied to the matrices, and not to calls: a job is found by
//! comparing matrices, and nothing here knows of outputs, calls, stores, orders or passes.
#![tactic(auto)]

mod board;
mod cells;
mod cuts;
mod inputs;
mod job;
mod joined;
mod reading;
mod rows;
mod shared_product;

pub use board::Board;
pub use shared_product::multiply;
