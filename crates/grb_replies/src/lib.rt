//! What a step of a script is answered, and the lines of such answers.
//!
//! One unit is a list of answers. Its lines are put into a sink in pieces: words wait in a piece of at most 16,384 bytes, which is put when
//! the next ones find no room in it, and at the end. So the words of each entry of an object go into the piece as it is met, and no line is
//! held whole that is longer. No memory is taken. Nothing here makes a call, reads a script or opens a file.
#![tactic(auto)]

mod reply_line;
mod step_answer;
mod words;

pub use reply_line::put_lines;
pub use step_answer::{Answer, MatrixSnapshot, StepAnswer, VectorSnapshot};
