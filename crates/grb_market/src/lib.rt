//! Matrix Market files: from the bytes of a text to the matrix that it spells, or to its first fault.
#![tactic(auto)]

mod entry;
mod fault;
mod gathered;
mod head;
mod laws;
mod line;
mod loaded;
mod numbers;
mod reader;
mod sides;
mod sink;
mod writing;

pub use fault::{FaultKind, MarketFault, ReadError, WriteFault};
pub use laws::{
    spells_at_most_one, spells_or_has_a_fault, spells_whole_matrices, written_texts_are_read_back,
};
pub use line::next_line;
pub use loaded::{Loaded, Tuples};
pub use reader::read;
pub use sink::{Sink, SinkFault, put_all};
pub use writing::write;
