//! Operations of calls, made by all kernels.
//!
//! A `Bench` has objects at their numbers as long as one operation is made of them, and reads one by itself: it is what results are made by
//! (`Operates`), and what passes help each other with (`Helps`). Nothing here knows of passes, of an order, or of which calls there are: the
//! caller brings them.
#![tactic(auto)]

mod bench;
mod operations;
mod outputs;
mod reading;

pub use bench::Bench;
pub use operations::operate;
pub use reading::get_reply;
