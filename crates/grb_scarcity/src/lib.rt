//! For tests alone: memory that is held back, so that whatever else the test asks for is refused, as where a machine has no more.
//!
//! A machine refuses a block that is larger than its memory, and before the addresses of the process are used up it refuses nothing else.
//! So a [`Hoard`] keeps blocks of ever smaller sizes until one byte is refused. It writes into none of them: it takes addresses and hardly
//! any memory, and no other process has less. Where the machine counts what is asked for in place of what is used, a hoard would take from
//! the others too; [`never_overcommits`] tells.
//!
//! A hoard is for the main thread of a test, one at a time. While it holds all back no thread can be started. The sizes are those of the
//! GNU C library's `malloc`; by another one a test is refused less finely, and never wrongly. Under `rt try` the allocator has bounds of
//! its own, which a hoard does not reach.
#![tactic(auto)]

mod hoard;
mod machine;

pub use hoard::{Hoard, SPARE, deepen};
pub use machine::never_overcommits;
