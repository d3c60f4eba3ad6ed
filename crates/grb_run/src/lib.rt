//! A script at work, all of the program but its `main`: the lines of a script as calls and answers, a run from the bytes that a source
//! gives to the lines that a sink takes, and the ends of a program: what the words of a command line ask for, files, and exit statuses.
//!
//! One unit is a run: the script and the files that it loads are read and checked whole, each statement is one call, a load two, and the
//! lines of the answers are put when all are known. Where the bytes come from and go to, a `Source` and a `Sink` decide; `FileSource` and
//! `OutputSink` are those of a program such as `grbrun`. Nothing else here reads or writes a file.
#![tactic(auto)]

mod arguments;
mod calls;
mod command_line;
mod driver;
mod fault;
mod files;
mod gate;
mod loads;
mod objects;
mod output;
mod progress;
mod report;
mod section;
mod source;
mod threads;

pub use arguments::Options;
pub use calls::call_of;
pub use command_line::{options, status_of_run, status_of_words};
pub use driver::{run_helped_script, run_script};
pub use fault::RunFault;
pub use files::{FileSource, read_all};
pub use gate::{Gate, OpenGate};
pub use objects::{keep_object, made_sort};
pub use output::OutputSink;
pub use progress::MOST_THREADS;
pub use report::{report_run, report_unread_words, report_words, run_arguments, run_words};
pub use source::{MAX_FILE, MAX_SCRIPT, Source, SourceFault};
