//! The words of scripts: the words of a line, what each class of word is, and the form of a statement that words have.
//!
//! One unit is a list of words, those of one line. What a form says depends on its words alone, and not on what their names stand for.
//! Nothing here knows which names a script has made, makes a call, reads a file or prints.
#![tactic(auto)]

mod diagonal;
mod fault;
mod function;
mod indices;
mod keyword;
mod laws;
mod line;
mod load;
mod options;
mod section;
mod test;
mod tuples;
mod version;
pub mod word;

pub use diagonal::diagonal_of;
pub use fault::{FaultKind, Unread};
pub use function::function_first;
pub use indices::{Indices, indices_and_value_of, indices_of};
pub use keyword::{Ewise, Keyword, Multiply, Placed, Whole};
pub use laws::{options_are_read_as_spelled, semirings_are_read_as_spelled};
pub use line::{has_allowed_bytes, is_load, is_section, is_skipped, put_words, words};
pub use load::load_of;
pub use options::{Options, Turns, function_turns, options_in, product_turns};
pub use section::{Section, section_of};
pub use test::test_first;
pub use tuples::{matrix_tuples, values, vector_tuples};
pub use version::{Version, version_named};
