//! What a pass knows of the one history: the reader of one thread, without what is evaluated.
//!
//! One unit is one `Reader`. It learns the words of the order and reads the records that they name, checks a call by the shapes that all
//! known calls leave, and enters the record of one by one compare-and-swap. A `RecordRow` says which cell takes the next record of a pass,
//! and a `BackOff` how long a pass idles after a lost try. `specs/` says what a call of a pass explains and counts. Nothing here evaluates
//! a call, starts a thread or waits for one. Which calls there are is left to the crates below.
#![tactic(auto)]

mod back_off;
mod learn;
mod live;
mod meet;
mod reader;
mod row;

pub use back_off::BackOff;
pub use learn::End;
pub use live::LiveObjects;
pub use reader::Reader;
pub use row::RecordRow;
