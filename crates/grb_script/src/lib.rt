//! Scripts: from the bytes of a text to its sections and their commands, or to its first fault.
//!
//! One unit is a command: one line of a script, which is a statement of one call, or the load of a file. Names stand in it as numbers, so
//! what a statement calls is determined by it and by the numbers of the objects that were made. Nothing here makes a call, and nothing here
//! reads files or prints.
#![tactic(auto)]

mod command;
mod ewise;
mod fault;
mod laws;
mod line;
mod names;
mod product;
mod scope;
mod script;
mod statement;
mod term;
mod version;

pub use command::{Command, FilePath, NumberedCommand};
pub use ewise::Elementwise;
pub use fault::{ReadFault, ScriptFault};
pub use grb_words::FaultKind;
pub use laws::{
    a_script_without_threads_is_read_line_by_line, the_first_fault_of_a_line_is_answered,
};
pub use names::Sort;
pub use product::{Product, Reduction};
pub use script::{Script, read_script};
pub use statement::Statement;
pub use term::{Application, KroneckerProduct, Selection, Transposition};
