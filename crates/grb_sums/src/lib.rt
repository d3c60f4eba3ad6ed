//! Sums by column, for the products of vectors and of matrices alike: what is added comes in any order of columns, and at the place of each
//! column a sum lies open. With them, the rows of a matrix by number, and the names of their columns' places.
//!
//! One unit is the sums of one row. They are opened, added to, and written as entries in rising order. Nothing here knows of a mask,
//! of an output, or of stores or threads.
#![tactic(auto)]

mod bits;
mod column_sums;
mod gustavson;
mod marks;
mod naming;
mod ranked;
mod row_sums;
mod spans;

pub use bits::mark;
pub use column_sums::{
    AllColumns, Columns, NamedColumns, Term, add_entries, close_sums, open_sums,
};
pub use gustavson::{RowSums, sum_row};
pub use marks::{LOOKED_AT, take_topped, take_words};
pub use naming::Names;
pub use ranked::{RankedRows, row_at};
pub use row_sums::{OpenSums, ToppedSums};
pub use spans::{part, span_of, spans_of};
