//! What is told of a script that has a fault, or some of whose statements were refused: the line as it stands, the form of such lines, the
//! hint of the refusal, and what the names stand for.
//!
//! One unit is the text of one script. Nothing is run here: the fault is the one that `grb_script` has found, and the refusals are read
//! from the lines that a run has written. No contract says the words, nor that memory suffices for them; the only error is that memory is
//! refused.
#![tactic(auto)]

mod faults;
mod forms;
mod names;
mod near;
mod refusals;
mod told;

pub use faults::{line_at, told_of_fault};
pub use names::{Dims, Object};
pub use near::is_near;
pub use refusals::{is_any_refused, told_of_refusals};
pub use told::push_line;
