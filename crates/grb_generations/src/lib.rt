//! A chain of stores that goes on for as long as its store fits: where the history of one is full, the next goes on with what it holds.
//!
//! A generation is one [`Context`](grb_context::Context). Its history takes a fixed number of calls next to those that begin it; where it
//! is full, a member makes the next generation of the objects that are there, and the others follow. A member is one thread's way in, and
//! has the pass of its number in the generation in which it sits. It calls as on one store that never ends, and objects keep their numbers.
//! No call waits for a lock, or for another thread without a bound. A store that all members have left is freed. No generation is made
//! before the one before it is full, and who moves on meets the pass that knew its end: so no call is lost from one to the next. The
//! chain's [`Chronicle`](grb_chronicle::Chronicle) tells which generations there are, one of each number.
#![tactic(auto)]

mod branches;
mod claim;
mod desk;
mod ended;
mod generation;
mod generations;
mod latest;
pub mod laws;
mod making;
mod member;
mod reason;
mod reserve;
mod site;
mod snapshots;
mod told;
mod work;

pub use claim::{LEAST_WAITS, MOST_WAITS_IN_ALL};
pub use generations::Generations;
pub use latest::MOST_LOOKS;
pub use member::{MOST_MOVES, Member};
pub use reason::NoGeneration;
pub use told::Told;
pub use work::Meeting;
